//! Compiles the syntax tree of a pattern to an NFA program, and runs programs as a Pike VM.
#![tactic(auto)]

mod compiler;
mod emit;
mod fault;
mod group_names;
mod groups;
pub mod interpolate;
pub mod program;
mod ranges;
mod size;
pub mod slot;
pub mod state;
mod targets;
pub mod vm;
