//! What `Debug` shows of the groups of a match, over bytes and over texts.

use std::fmt;

/// A group's number, and its name if it has one.
#[derive(Clone, Copy)]
pub struct Key<'n> {
    pub number: usize,
    pub name: Option<&'n str>,
}

impl<'n> fmt::Debug for Key<'n> {
    fn fmt<W: fmt::Write>(&self, f: &mut fmt::Formatter<W>) -> fmt::Result {
        write!(f, "{}", self.number)?;
        match self.name {
            Some(name) => write!(f, "/{:?}", name),
            None => Ok(()),
        }
    }
}

/// Where a group begins and ends, and what it matched, if it participates.
#[derive(Clone, Copy)]
pub struct Part<T>(pub Option<(usize, usize, T)>);

impl<T: fmt::Debug> fmt::Debug for Part<T> {
    fn fmt<W: fmt::Write>(&self, f: &mut fmt::Formatter<W>) -> fmt::Result {
        match &self.0 {
            Some((start, end, text)) => write!(f, "{}..{}/{:?}", start, end, text),
            None => f.write_str("None"),
        }
    }
}
