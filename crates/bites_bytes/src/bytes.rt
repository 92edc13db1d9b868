//! Regular expressions that search byte strings.
//!
//! A haystack is any bytes. Where they are not UTF-8, each longest prefix of a character matches as one U+FFFD, and a
//! byte that begins no character does too.

mod anchored;
mod builder;
mod cache;
mod capture_matches;
mod captures;
mod fixed_groups;
mod groups;
mod is_match;
mod locations;
mod matched;
mod matches;
mod names;
mod prefilter_with_slots;
mod regex;
mod replace;
mod replacer;
mod search;
pub mod searcher;
mod set;
mod set_builder;
mod set_matches;
mod set_patterns;
mod set_search;
mod shortest;
mod split;
mod traced;

pub use bites_machine::slot::Slot;
pub use bites_syntax::syntax_error::SyntaxError;
pub use bites_table::table::TableSize;
pub use bites_table::trace::{How, Stretch, TracedSearch};
pub use bites_text::error::Error;
pub use builder::RegexBuilder;
pub use cache::Cache;
pub use capture_matches::CaptureMatches;
pub use captures::Captures;
pub use groups::SubCaptureMatches;
pub use locations::CaptureLocations;
pub use matched::Match;
pub use matches::Matches;
pub use names::CaptureNames;
pub use regex::Regex;
pub use replacer::{NoExpand, Replacer, ReplacerRef, With};
pub use searcher::Searcher;
pub use set::{RegexSet, SetCache};
pub use set_builder::{RegexSetBuilder, SetError};
pub use set_matches::{SetMatches, SetMatchesIter};
pub use set_patterns::SetPatterns;
pub use split::{Split, SplitN};
