//! The headline for each other call of the public surface: searches that return less, searches that begin at one offset
//! or match the whole haystack, pieces, and replacement.

pub mod answers;
pub mod over_bytes;
pub mod over_texts;
pub mod searchers;
