//! What the programs of this repository share: a loop over lines, replacement by a template, the groups of whole texts,
//! tables of rules, rows of values, help, and faults.
#![tactic(auto)]

pub mod csv;
pub mod extract;
pub mod fault;
pub mod help;
pub mod lines;
pub mod program;
pub mod refused;
pub mod substitute;
pub mod table;
pub mod tabs;
pub mod text_table;
