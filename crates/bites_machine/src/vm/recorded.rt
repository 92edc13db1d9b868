//! What a search that needs no walk found, for the record.

ghost use Rattle.std.specs.Prelude.{◌≡◌};

use super::bytes::Bytes;
use crate::program::Program;
use std::snapshot::Snapshot;

/// The first run of a program from a place of a haystack on. Its size is 0.
///
/// For proofs: contracts alone see it. No search can read a state through it.
#[derive(Drop)]
pub(super) struct FirstRun {
    pub program: Snapshot<Program>,
    pub haystack: Bytes,
    pub place: Snapshot<usize>,
}

const _: () = prove!(size_of::<FirstRun>() == 0);

impl FirstRun {
    /// Returns the first run from a place on.
    #[inline(always)]
    pub(super) fn of(program: &Program, haystack: &[u8], place: usize) -> FirstRun
        ensures program { result.program.value ≡ program.now }
        ensures haystack { result.haystack.bytes ≡ haystack.now }
        ensures place { result.place.value ≡ place }
    {
        FirstRun {
            program: Snapshot::of(program),
            haystack: Bytes::of(haystack),
            place: Snapshot::of(&place),
        }
    }
}
