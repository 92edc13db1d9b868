//! The headline: what holds for every pattern, flags, limits, haystack and start.
//!
//! **A pattern is accepted exactly if the grammar reads it as a tree that keeps all limits. A search finds something
//! exactly if that tree matches at a place from the start on. What it finds begins at the first such place, and its end
//! and groups are those of one parse there: of a longest one if the longest match is asked for, and otherwise, if the
//! tree is plain, of the preferred one. Iterators return all matches of the tree in turn, and nothing matches between
//! two of them. And a search of the program visits no state twice at a place; a call makes one, or two for the longest
//! match.**
//!
//! [`over_bytes`] and [`over_texts`] are a page each: a pattern, a search, and all matches. [`super::calls`] says it of
//! every other call. Each function makes a call or two of the public surface, and its contract is a part of these
//! sentences. The proofs rest on the contracts of these calls and on the laws of `bites_spec` alone. The places of a
//! haystack are those where its characters begin, and its end. `docs/STATEMENT.md` explains each word of the contracts.
//!
//! A call that can fail may run out of memory, and then promises nothing. The calls with a cache cannot fail.

pub mod over_bytes;
pub mod over_texts;
