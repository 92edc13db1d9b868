//! What a search passes at once, since it leads a thread list back to itself.

use bites_scan::byte_set::ByteSet;
use std::snapshot::Snapshot;

/// Bytes of ASCII over which a thread list leads back to itself, and nothing is moved.
#[derive(Drop)]
pub struct Skip {
    pub set: ByteSet,
    /// For proofs, the states that each of these transitions visits.
    pub seen: Snapshot<Vec<u32>>,
    /// For proofs, the number of its looks.
    pub looks: Snapshot<usize>,
}

/// A thread list from which each character leads to lists that find nothing any more, with the same visits and looks.
#[derive(Drop)]
pub struct Rest {
    /// For proofs, the states that each of its transitions visits, that at the end too.
    pub seen: Snapshot<Vec<u32>>,
    /// For proofs, the number of their looks.
    pub looks: Snapshot<usize>,
}

/// What a search passes at once from a thread list: the number of what it skips, or all that is left of the haystack.
#[derive(Drop)]
pub(crate) struct Stay {
    pub skip: Option<u32>,
    pub rest: Option<Rest>,
}
