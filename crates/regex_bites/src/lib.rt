//! Regular expressions over texts and over byte strings, without backtracking: a search visits each state of a
//! pattern's program at most once at each offset of the haystack.
//!
//! [`Regex`] searches texts, and [`bytes::Regex`] byte strings, which need not be UTF-8. Offsets are in bytes. Over
//! texts, each match and each group begins and ends at a character boundary. A function that allocates returns a
//! `Result`, and one that makes an object is given an allocator. In the examples `rt` is the argument of `main`.
//!
//! `docs/SYNTAX.md` of the repository says what a pattern may contain.
//!
//! # Does it match
//!
//! ```rust
//! let regex = Regex::new(rt.alloc(), r"\d{4}-\d{2}-\d{2}")?;
//! assert!(rt; regex.is_match("on 2010-03-14")?);
//! assert!(rt; !regex.is_match("on Sunday")?);
//! ```
//!
//! # The match
//!
//! ```rust
//! let regex = Regex::new(rt.alloc(), "a+")?;
//! let found = regex.find("baaac")?.ok_or("no match")?;
//! assert_eq!(rt; found.range(), 1..4);
//! assert_eq!(rt; found.as_str(), "aaa");
//! ```
//!
//! # Groups by name
//!
//! ```rust
//! let regex = Regex::new(rt.alloc(), r"(?<year>\d{4})-(?<month>\d{2})")?;
//! let captures = regex.captures("on 2010-03-14")?.ok_or("no match")?;
//! let year = captures.name("year").ok_or("no year")?;
//! assert_eq!(rt; year.as_str(), "2010");
//! let month = captures.get(2).ok_or("no month")?;
//! assert_eq!(rt; month.as_str(), "03");
//! ```
//!
//! # All matches
//!
//! ```rust
//! let regex = Regex::new(rt.alloc(), r"\w+")?;
//! let mut lengths = Vec::new(rt.alloc());
//! for word in regex.find_iter("the quick fox")? {
//!     lengths.push(word.len())?;
//! }
//! assert_eq!(rt; lengths.as_slice(), [3, 5, 3].as_slice());
//! ```
//!
//! # Replace
//!
//! By a template, in which `$1` and `$name` stand for groups, by a text unchanged ([`NoExpand`]), or by the result of a
//! function ([`With`]).
//!
//! ```rust
//! let regex = Regex::new(rt.alloc(), r"(\w+)=(\w+)")?;
//! let turned = regex.replace_all("a=1, b=2", "$2=$1")?;
//! assert_eq!(rt; turned.as_str(), "1=a, 2=b");
//! ```
//!
//! # A match that begins at one offset
//!
//! [`Regex::find_anchored_at`] returns only a match that begins at its start, as lexers need it. Such a search stops
//! when no match that begins there can continue, so it reads no further than a match from there could go.
//! [`Regex::is_full_match`] returns whether a match is the whole haystack.
//!
//! ```rust
//! let regex = Regex::new(rt.alloc(), "[a-z]+")?;
//! let found = regex.find_anchored_at("ab 1cd", 0)?.ok_or("no match")?;
//! assert_eq!(rt; found.range(), 0..2);
//! assert_eq!(rt; regex.find_anchored_at("1cd", 0)?, None);
//! ```
//!
//! # A text as a pattern
//!
//! ```rust
//! let pattern = escape(rt.alloc(), "1.5")?;
//! let regex = Regex::new(rt.alloc(), &pattern)?;
//! assert!(rt; regex.is_match("it is 1.5")?);
//! assert!(rt; !regex.is_match("it is 125")?);
//! ```
//!
//! # Limits, and patterns that are not trusted
//!
//! A pattern and a haystack from anyone are safe: no call stops the program, and each one returns. A build takes time
//! and memory that grow with the pattern and with its size limit. That limit is roughly in bytes, and 10 MiB by default
//! ([`RegexBuilder::size_limit`]). The parser's recursion goes as deep as [`RegexBuilder::nest_limit`], which is 50 by
//! default.
//!
//! A search takes time that grows with states times characters, and for groups, at worst, with slots times that. Its
//! memory grows with the states and targets times the slots. If patterns are not trusted, lower the size limit. If
//! haystacks are not trusted, limit their length. An iterator searches for each match, and once more behind an empty one
//! that it drops. So at worst all its searches take time that grows with the square of the haystack's length.
//!
//! ```rust
//! let mut builder = RegexBuilder::new(rt.alloc(), "(?:a{1000}){1000}")?;
//! builder.size_limit(1 << 20).nest_limit(10);
//! assert_eq!(rt; builder.build().err(), Some(Error::TooBig));
//! ```
//!
//! # Many haystacks
//!
//! A search of a [`Regex`] allocates a cache, and its error is out of memory. A [`Searcher`] keeps one for all its
//! searches, so make it before a loop. Of its calls only those that return [`Captures`] and those that replace allocate:
//! the groups, and the new text.
//!
//! ```rust
//! let mut dates = Searcher::new(Regex::new(rt.alloc(), r"(?<year>\d{4})-(?<month>\d{2})")?)?;
//! let captures = dates.captures("on 2010-03-14")?.ok_or("no match")?;
//! let year = captures.name("year").ok_or("no year")?;
//! assert_eq!(rt; year.as_str(), "2010");
//! ```
//!
//! The methods whose names end in `_with` take a cache of the caller, for a cache that several regexes share one after
//! another, as those with equal programs may ([`Cache::fits`]).
//!
//! ```rust
//! let regex = Regex::new(rt.alloc(), "a+")?;
//! let mut cache = regex.cache()?;
//! assert!(rt; regex.is_match_with(&mut cache, "xa"));
//! assert!(rt; !regex.is_match_with(&mut cache, "x"));
//! ```
//!
//! # What differs from the Rust crate regex-bites
//!
//! - A function that allocates returns a `Result`, and one that makes an object is given an allocator. An [`Error`] may
//!   also be out of memory.
//! - There is no pool of caches: each search allocates a cache, or is given one, or a [`Searcher`] keeps it. A regex and its clones share the
//!   program by `Arc`, so a clone may go to another thread.
//! - No call panics. A start within a text must be at a character boundary. Captures are not indexed: `part` requires
//!   that the group participates. A caller proves such a condition, or tests it.
//! - A function that replaces is wrapped in `With`.
//! - [`RegexBuilder::leftmost_longest`], [`RegexBuilder::keep_dropped_groups`], [`RegexBuilder::dfa_size_limit`] and
//!   [`RegexBuilder::prefilter`] are new. So are `table_size` and `prepared` of [`Regex`] and of [`RegexSet`], [`Regex::prepared_unanchored`], the searches for a match that begins at one offset ([`Regex::find_anchored_at`], [`Regex::captures_anchored_at`]) and for a match of
//!   the whole haystack ([`Regex::is_full_match`], [`Regex::captures_full`]).
//!   [`RegexBuilder::syntax_error`] says where a pattern is refused.
//! - Some faults of the Rust code are fixed: `docs/DIFFERENCES.md` names them all, each with the smallest input that
//!   shows it.
//!
//! The contract of each call says what it promises. The page `headline` of the crate `bites_theorems` has it all in one
//! place. The modules below are those that texts and byte strings share.
#![tactic(auto)]

pub mod string;

pub use bites_bytes::bytes;
pub use bites_machine::{interpolate, program, slot, vm};
pub use bites_syntax::tree::escape;
pub use bites_syntax::{parse, syntax_error, tree};
pub use bites_text::error::Error;
pub use bites_text::{error, utf8};
pub use string::{
    Cache, CaptureLocations, CaptureMatches, CaptureNames, Captures, Match, Matches, NoExpand,
    Regex, RegexBuilder, RegexSet, RegexSetBuilder, Replacer, ReplacerRef, Searcher, SetCache,
    SetError, SetMatches, SetMatchesIter, SetPatterns, Slot, Split, SplitN, SubCaptureMatches,
    SyntaxError, TableSize, With,
};
