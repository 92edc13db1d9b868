//! Regular expressions over byte strings.
//!
//! [`bytes::Regex`] is a compiled pattern. Its contracts speak of the tree of its pattern: a search finds something
//! exactly if that tree matches. The other modules are for the layer over texts.
#![tactic(auto)]

pub mod bytes;
pub mod debug;
pub mod replace_limit;
