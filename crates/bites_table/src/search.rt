//! Searches by a table of thread lists, as far as its transitions are known. Elsewhere the Pike VM goes on.

pub(crate) mod pass;
pub(crate) mod place;
pub(crate) mod record;
pub(crate) mod run;
