//! The parser of patterns, and the tree that it returns.
#![tactic(auto)]

pub(crate) mod atom;
pub(crate) mod bracket;
pub mod class;
pub mod class_builder;
pub(crate) mod cursor;
pub(crate) mod escape;
pub(crate) mod flags;
pub(crate) mod group;
pub(crate) mod group_names;
pub mod groups;
pub(crate) mod hexadecimal;
pub mod look;
pub mod measure;
pub mod name;
pub mod named_class;
pub(crate) mod node;
pub(crate) mod number;
pub(crate) mod operator;
pub mod parse;
pub mod range_list;
pub(crate) mod refusal;
pub mod syntax_error;
pub mod tree;
