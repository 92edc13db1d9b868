//! What a handle of a regex holds.

use bites_bytes::bytes::Regex;

/// A regex, and whether its searches are over texts.
#[derive(Drop)]
pub struct Held {
    pub regex: Regex,
    pub is_text: bool,
}
