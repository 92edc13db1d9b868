//! The bytes of a haystack as contracts see them.

ghost use Rattle.std.specs.Prelude.{◌≡◌, ℕ, List};
ghost use Rattle.std.specs.Borrow.{ftrue};

use std::marker::Model;

/// The bytes of a haystack. Its size is 0.
///
/// For proofs: a record outlives the haystack, so it can't keep a reference.
#[derive(Drop)]
pub struct Bytes {
    pub ghost bytes: { List ℕ },
}

impl Model for Bytes {
    ghost also_owns = { λ _. ftrue };
}

const _: () = prove!(size_of::<Bytes>() == 0);

impl Bytes {
    /// Returns the bytes of a haystack.
    #[inline(always)]
    pub(super) fn of(_haystack: &[u8]) -> Bytes
        ensures { result.bytes ≡ _haystack.now }
    {
        Bytes {}
    }
}
