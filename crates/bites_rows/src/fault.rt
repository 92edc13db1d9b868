//! Why a row has no answer.

use std::alloc::AllocError;

/// Why a row has no answer.
#[derive(Drop)]
pub enum Fault {
    /// The line is not a row.
    NoRow,
    Memory,
}

impl From<AllocError> for Fault {
    fn from(_: AllocError) -> Fault {
        Fault::Memory
    }
}
