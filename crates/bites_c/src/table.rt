//! How large a table is, as C reads it.

ghost use Rattle.std.specs.Prelude.{◌≡◌, is_some, false};
ghost use Rattle.bites_c.specs.Put.{no_table};

use bites_bytes::bytes::TableSize;

/// The number of thread lists of a table, the bytes that it takes, and 1 if searches come to known transitions alone, else 0. All
/// are 0 if there is no table. For a set they are those of all its tables.
#[repr(C)]
#[derive(Clone, Copy)]
pub struct BitesTable {
    pub lists: usize,
    pub bytes: usize,
    pub is_whole: u32,
}

impl BitesTable {
    /// Returns the size of a table, or zeros for none.
    pub(crate) fn of(size: Option<TableSize>) -> BitesTable
        ensures { is_some size ≡ false → result ≡ no_table }
    {
        match size {
            Some(size) => BitesTable {
                lists: size.lists,
                bytes: size.bytes,
                is_whole: size.is_whole as u32,
            },
            None => BitesTable {
                lists: 0,
                bytes: 0,
                is_whole: 0,
            },
        }
    }
}
