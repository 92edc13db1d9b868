//! Vector loops over bytes: the first byte outside a set, and the first offset of a literal or of one of several.
//!
//! Nothing here knows of patterns or of UTF-8. A [`byte_set::ByteSet`] is skipped, and a [`literal::Literal`] or a
//! [`literal_set::LiteralSet`] is searched for. By its [`trigrams::Trigrams`] a short haystack is known to hold no such literal.
#![tactic(auto)]

mod buckets;
pub mod byte_set;
mod choice;
mod failures;
mod fingerprints;
mod first_stop;
mod folding;
mod form;
mod lanes;
mod last_stop;
pub mod literal;
pub mod literal_set;
mod nibbles;
mod pair;
pub mod rank;
mod shortlist;
mod stops;
pub mod trigrams;
