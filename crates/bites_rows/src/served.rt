//! Which matches a replacer has served, also after a replacement that ran out of memory.

use crate::told::Answer;
use std::convert::Into;
use std::ops::Range;

/// The matches of a haystack, and how many of them a replacer has served.
pub struct Served {
    matches: Vec<(usize, usize)>,
    // Whether these are all, since no memory was refused.
    are_all: bool,
    count: usize,
    are_first: bool,
}

// A caller that drops one relies on this function alone.
impl Drop for Served {
    fn drop(self) {
        let Served {
            matches: _,
            are_all: _,
            count: _,
            are_first: _,
        } = self;
    }
}

impl Served {
    /// Returns that none of these matches is served.
    pub fn new(matches: Vec<(usize, usize)>, are_all: bool) -> Served {
        Served {
            matches,
            are_all,
            count: 0,
            are_first: true,
        }
    }

    /// Counts one more match that is served. Returns its number, from 1 on.
    pub fn serve<M: Into<Range<usize>> + Drop>(&mut self, found: Option<M>) -> usize {
        let span = match found {
            Some(found) => {
                let range: Range<usize> = found.into();
                Some((range.start, range.end))
            }
            None => None,
        };
        if span.is_none() || self.matches.get(self.count).copied() != span {
            self.are_first = false;
        }
        self.count = self.count.saturating_add(1);
        self.count
    }

    /// Adds a note if not the first matches were served in order, also after memory was refused.
    pub fn check(&self, answer: &mut Answer) {
        if self.are_all && !self.are_first {
            answer.note("others were served");
        }
    }
}
