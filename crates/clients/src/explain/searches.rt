//! The searches for the successive matches, each traced place by place.

use super::haystack::{Piece, pieces_of};
use super::options::Options;
use super::order::Order;
use super::subject::Subject;
use bites_bytes::bytes::{How, Match, Regex, Stretch};
use bites_machine::program::Program;
use bites_machine::vm::traced::TracedSearch;
use bites_machine::vm::{Input, trace};
use bites_text::utf8::decode;
use std::alloc::{AllocError, Global};

/// How many slots of threads are traced at most, if each state had a thread at each place.
const ROOM: usize = 1 << 23;

/// A search that is traced.
pub(crate) struct Search {
    /// The offset that it began at, in bytes.
    pub(crate) start: usize,
    pub(crate) traced: TracedSearch,
    /// How the search by the regex came over the same places, which may be by its table.
    pub(crate) stretches: Vec<Stretch>,
    /// Whether it found an empty match where the last one ended. That is no successive match.
    pub(crate) is_repeated: bool,
}

// What drops one relies on this function, and on no type below it.
impl Drop for Search {
    fn drop(self) {
        let Search {
            start: _,
            traced: _,
            stretches: _,
            is_repeated: _,
        } = self;
    }
}

impl Search {
    // Searches from this offset on, at most at `most` places. The error is out of memory.
    fn traced(
        alloc: Global,
        subject: &Subject,
        haystack: &[u8],
        start: usize,
        most: usize,
    ) -> Result<Search, AllocError> {
        let input = Input {
            haystack,
            start,
            anchored: false,
            kind: subject.kind,
        };
        Ok(Search {
            start,
            stretches: subject.regex.trace_at(haystack, start)?.stretches,
            traced: trace(alloc, &subject.program, &input, most)?,
            is_repeated: false,
        })
    }

    // Returns where the match begins and ends, if the search is over.
    fn span(&self) -> Option<(usize, usize)> {
        if !self.traced.is_over {
            return None;
        }
        match self.traced.best.as_ref()?.slots() {
            [start, end, ..] => Some((start.place()?, end.place()?)),
            _ => None,
        }
    }

    /// Returns how the search by the regex came over a place, or `None` if it didn't look there, since nothing is found any
    /// more.
    pub(crate) fn way_at(&self, place: usize) -> Option<How> {
        let begun = self
            .stretches
            .partition_point(|stretch| stretch.from <= place);
        let stretch = self.stretches.get(begun.checked_sub(1)?)?;
        match stretch.how {
            How::Passed { .. } if stretch.from != place => None,
            how => Some(how),
        }
    }
}

/// All that is shown of a pattern and a haystack.
#[derive(Drop)]
pub(crate) struct Report<'a> {
    pub(crate) options: &'a Options<'a>,
    pub(crate) haystack: &'a [u8],
    pub(crate) pieces: Vec<Piece<'a>>,
    pub(crate) subject: &'a Subject,
    /// The states of its program in the order in which people read them.
    pub(crate) order: Order,
    /// The successive matches, in order.
    pub(crate) matches: Vec<Match<'a>>,
    /// The searches for the successive matches, in order.
    pub(crate) searches: Vec<Search>,
}

impl<'a> Report<'a> {
    /// Searches the haystack. The error is out of memory.
    pub(crate) fn new(
        alloc: Global,
        options: &'a Options<'a>,
        subject: &'a Subject,
        haystack: &'a [u8],
    ) -> Result<Report<'a>, AllocError> {
        let pieces = pieces_of(alloc, haystack)?;
        let matches = matches_of(alloc, &subject.regex, haystack)?;
        let order = Order::of(alloc, &subject.program)?;
        Ok(Report {
            options,
            haystack,
            pieces,
            subject,
            order,
            matches,
            searches: searches(alloc, subject, haystack)?,
        })
    }
}

// Returns the successive matches.
fn matches_of<'h>(
    alloc: Global,
    regex: &Regex,
    haystack: &'h [u8],
) -> Result<Vec<Match<'h>>, AllocError> {
    regex.find_iter(haystack)?.collect(alloc)
}

// Traces the searches for the successive matches, until no more places may be traced.
fn searches(alloc: Global, subject: &Subject, haystack: &[u8]) -> Result<Vec<Search>, AllocError> {
    let mut searches = Vec::new(alloc);
    let mut most = most_places(&subject.program);
    let mut next = Some(0);
    let mut last = None;
    while let Some(start) = next
        && most > 0
    {
        let mut search = Search::traced(alloc, subject, haystack, start, most)?;
        most = most.saturating_sub(search.traced.places.len().max(1));
        let found = search.span();
        search.is_repeated = is_empty_at(found, last);
        next = next_start(haystack, found, search.is_repeated);
        if let Some((_, end)) = found {
            last = Some(end);
        }
        searches.push(search)?;
    }
    Ok(searches)
}

// Returns how many places are traced at most.
fn most_places(program: &Program) -> usize {
    let slots = program.slots().saturating_add(1);
    ROOM / program.len().saturating_mul(slots).max(1)
}

// Returns whether an empty match was found where the last match ended.
fn is_empty_at(found: Option<(usize, usize)>, last: Option<usize>) -> bool {
    match (found, last) {
        (Some((start, end)), Some(last)) => start == end && end == last,
        _ => false,
    }
}

// Returns where the next search begins: where the match ended, or one character later if that was no successive match.
fn next_start(haystack: &[u8], found: Option<(usize, usize)>, is_repeated: bool) -> Option<usize> {
    let (_, end) = found?;
    if !is_repeated {
        return Some(end);
    }
    match decode(haystack.get(end..)?) {
        (_, 0) => None,
        (_, len) => end.checked_add(len),
    }
}
