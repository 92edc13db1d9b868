//! The errors that refuse a pattern, and the decoding of UTF-8.
#![tactic(auto)]

pub mod error;
pub mod utf8;
