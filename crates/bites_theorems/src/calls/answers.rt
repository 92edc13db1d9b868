//! What searches from one place return, over byte strings and over texts.

use std::alloc::AllocError;

/// What the searches for a match from a place on return, or those for a match that begins there. The last field is the
/// number of groups that participate at least, if the form of the pattern gives one.
#[derive(Drop)]
pub struct Answers<M, C> {
    pub is_match: Result<bool, AllocError>,
    pub find: Result<Option<M>, AllocError>,
    pub captures: Result<Option<C>, AllocError>,
    pub static_captures_len: Option<usize>,
}

/// A search with a cache, by what it returns.
pub enum Search {
    IsMatch,
    ShortestMatch,
    Find,
}
