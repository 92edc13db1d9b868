//! Regular expressions that search texts.
//!
//! Each is a layer over the regular expression of [`crate::bytes`] with the same pattern, which searches the UTF-8 of
//! the text. Whatever it returns begins and ends at a character boundary, and so is a text.

mod anchored;
mod builder;
mod cache;
mod capture_matches;
mod captures;
mod groups;
mod is_match;
mod locations;
mod matched;
mod matches;
mod regex;
mod replace;
mod replacer;
mod search;
pub mod searcher;
mod set;
mod set_builder;
mod shortest;
mod split;

pub use bites_bytes::bytes::{
    CaptureNames, SetError, SetMatches, SetMatchesIter, SetPatterns, Slot, SyntaxError, TableSize,
};
pub use bites_text::error::Error;
pub use builder::RegexBuilder;
pub use cache::Cache;
pub use capture_matches::CaptureMatches;
pub use captures::Captures;
pub use groups::SubCaptureMatches;
pub use locations::CaptureLocations;
pub use matched::Match;
pub use matches::Matches;
pub use regex::Regex;
pub use replacer::{NoExpand, Replacer, ReplacerRef, With};
pub use searcher::Searcher;
pub use set::{RegexSet, SetCache};
pub use set_builder::RegexSetBuilder;
pub use split::{Split, SplitN};
