//! The items of iterators over bytes and over texts. Where an iterator is not made, since memory was refused, the answer keeps that.

ghost use Rattle.std.specs.Prelude.{IfOk};
ghost use Rattle.std.specs.Iterator.{IsFinite};

use crate::question::Query;
use crate::told::Answer;
use std::alloc::{AllocError, Global};
use std::convert::{AsSlice, Into};
use std::ops::Range;

/// Asks an iterator for items, at most so many, and drops it. Returns how many it gave.
pub fn taken_of<I: Iterator + Drop>(
    items: Result<I, AllocError>,
    times: usize,
    answer: &mut Answer,
) -> usize
where
    I::Item: Drop,
    requires { IfOk items (λ items. I.can_next items × IsFinite (I.remaining items)) }
{
    match items {
        Ok(items) => items.take(times).count(),
        Err(error) => {
            answer.keep(Err(error));
            0
        }
    }
}

/// Adds the spans of all matches.
pub fn push_matches<M: Into<Range<usize>> + Drop, I: Iterator<Item = M> + Drop>(
    matches: Result<I, AllocError>,
    answer: &mut Answer,
)
    requires { IfOk matches (λ matches. I.can_next matches × IsFinite (I.remaining matches)) }
{
    match matches {
        Ok(matches) => {
            for found in matches {
                answer.push_group(Some(found));
            }
        }
        Err(error) => answer.keep(Err(error)),
    }
}

/// Adds the groups of a match.
pub fn push_groups<M: Into<Range<usize>> + Drop, I: Iterator<Item = Option<M>> + Drop>(
    groups: I,
    answer: &mut Answer,
)
    requires { I.can_next groups × IsFinite (I.remaining groups) }
{
    for group in groups {
        answer.push_group(group);
    }
}

/// Returns the spans of all matches.
pub fn spans_of<M: Into<Range<usize>> + Drop, I: Iterator<Item = M> + Drop>(
    alloc: Global,
    matches: Result<I, AllocError>,
    answer: &mut Answer,
) -> Vec<(usize, usize)>
    requires { IfOk matches (λ matches. I.can_next matches × IsFinite (I.remaining matches)) }
{
    let mut spans = Vec::new(alloc);
    match matches {
        Ok(matches) => {
            for found in matches {
                let range: Range<usize> = found.into();
                if spans.push((range.start, range.end)).is_err() {
                    answer.keep(Err(AllocError));
                }
            }
        }
        Err(error) => answer.keep(Err(error)),
    }
    spans
}

/// Adds the pieces that an iterator gives. Each piece begins where the match before it ends. An iterator like it that was asked for
/// some of them gave so many.
pub fn push_pieces<P: AsSlice<u8> + Drop, I: Iterator<Item = P> + Drop>(
    query: &Query<'_>,
    matches: &[(usize, usize)],
    pieces: Result<I, AllocError>,
    taken: usize,
    answer: &mut Answer,
)
    requires { IfOk pieces (λ pieces. I.can_next pieces × IsFinite (I.remaining pieces)) }
{
    let pieces = match pieces {
        Ok(pieces) => pieces,
        Err(error) => return answer.keep(Err(error)),
    };
    let mut from = 0usize;
    let mut count = 0usize;
    for piece in pieces {
        let piece = piece.as_slice();
        let to = from.saturating_add(piece.len());
        if query.bytes.get(from..to) != Some(piece) {
            answer.push(" no piece");
        }
        answer.push_span(Some((from, to)));
        from = match matches.get(count) {
            Some(found) => found.1,
            None => usize::MAX,
        };
        count = count.saturating_add(1);
    }
    answer.push_taken(taken, count.min(query.times));
    answer.push_none();
}
