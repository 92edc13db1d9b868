//! One step at each place, with its threads in order of preference.

ghost use Rattle.std.specs.Prelude.{◌≡◌, ◌≤◌, ◌==◌, ◌||◌, ◌&&◌, if◌then◌else◌, [], length, None, Some, is_some, not};
ghost use Rattle.bites_machine.specs.Resume.{CanRun, Runs};
ghost use Rattle.bites_machine.specs.Scratch.{walk_state, IsPosition};
ghost use Rattle.bites_machine.specs.States.{states_of};
ghost use Rattle.bites_machine.specs.Sweep.{CanClose, CanCloseAll, CanCloseWith, ClosesThread, ClosesThreads, ClosesAll, InvariantBetweenSteps, PlaceSearched, IsOfProgram, HasRoom, fit_in};
ghost use Rattle.bites_machine.specs.Visits.{cuts};

use super::Input;
use super::closure::{FirstMatch, Scratch, epsilon_closure};
use super::counted::Counted;
use super::position::{Position, code};
use super::resume::{Resumed, Stopped};
use super::threads::{Thread, Threads};
use crate::slot::Slot;
use bites_text::utf8::decode_lossy;

// Decodes the character at a place.
#[inline(always)]
#[tactic(auto, unfolding(bites_spec::specs::Utf8::piece))]
pub(super) fn piece_at(haystack: &[u8], place: usize, longest: bool) -> Position<'_>
    requires { place ≤ length haystack.now }
    ensures { IsPosition haystack.now place longest result }
{
    let (ch, ch_len) = decode_lossy(&haystack[place..]);
    let ch = if ch_len > 0 { Some(ch) } else { None };
    Position {
        haystack,
        place,
        ch,
        code: code(ch),
        ch_len,
        longest,
    }
}

// Returns the thread that starts at `place` in the given state. Only the longest search needs the place where a thread
// was started.
#[inline(always)]
fn started(state: u32, place: usize, longest: bool) -> Thread
    ensures { result ≡ record { state = state; row = 0; start = if longest then place else 0 } }
{
    let start = if longest { place } else { 0 };
    Thread {
        state,
        row: 0,
        start,
    }
}

// Returns whether a match that was found at this place cuts off a thread that was started at `start`.
#[inline(always)]
fn is_cut(first_match: &Option<FirstMatch>, longest: bool, start: usize) -> bool
    ensures { result ≡ cuts longest start first_match.now }
{
    match first_match {
        None => false,
        Some(first_match) => !longest || start > first_match.start,
    }
}

// Explores the closure of a thread at a place, unless a match that was found there cuts it off. Releases its row.
#[inline(always)]
fn close_thread(
    counted: &mut Counted<'_>,
    scratch: &mut Scratch,
    here: &Position<'_>,
    thread: Thread,
    slots: &mut [Slot],
)
    requires { CanClose here.now thread (walk_state counted.old scratch.old slots.old) }
    ensures { ClosesThread here.now thread (walk_state counted.old scratch.old slots.old)
        (walk_state counted.new scratch.new slots.new) }
{
    if is_cut(&scratch.first_match, here.longest, thread.start) {
        scratch.rows.release(thread.row);
    } else {
        epsilon_closure(counted, scratch, here, thread, slots);
    }
}

// Explores the closures of the threads of a place, in order of preference.
#[inline(always)]
fn close_threads(
    counted: &mut Counted<'_>,
    scratch: &mut Scratch,
    here: &Position<'_>,
    threads: &Threads,
    slots: &mut [Slot],
)
    requires { CanCloseAll here.now threads.now.threads (walk_state counted.old scratch.old slots.old) }
    ensures { ClosesThreads here.now threads.now.threads [] (walk_state counted.old scratch.old slots.old)
        (walk_state counted.new scratch.new slots.new) }
{
    let mut index = 0;
    while index < threads.len() {
        close_thread(counted, scratch, here, threads.at(index), slots);
        index += 1;
    }
}

// Explores the closures of the threads of a place, and after them that of the start state, if it is given.
#[inline(always)]
fn close_all(
    counted: &mut Counted<'_>,
    scratch: &mut Scratch,
    here: &Position<'_>,
    threads: &Threads,
    first: Option<u32>,
    slots: &mut [Slot],
)
    requires { CanCloseWith here.now first threads.now.threads (walk_state counted.old scratch.old slots.old) }
    ensures { ClosesAll here.now first threads.now.threads (walk_state counted.old scratch.old slots.old)
        (walk_state counted.new scratch.new slots.new) }
{
    close_threads(counted, scratch, here, threads, slots);
    if let Some(state) = first {
        let thread = started(state, here.place, here.longest);
        close_thread(counted, scratch, here, thread, slots);
    }
}

// Steps over one place: explores its threads, and after them the start state, if it is given. Then `threads` are those
// of the next place.
#[inline(always)]
fn step_threads(
    counted: &mut Counted<'_>,
    scratch: &mut Scratch,
    threads: &mut Threads,
    here: &Position<'_>,
    first: Option<u32>,
    slots: &mut [Slot],
)
    requires program { IsOfProgram (states_of counted.old.states.now) first }
    requires between { InvariantBetweenSteps here.now.place threads.old (walk_state counted.old scratch.old slots.old) }
    ensures { PlaceSearched here.now first threads.old threads.new (walk_state counted.old scratch.old slots.old)
        (walk_state counted.new scratch.new slots.new) }
{
    scratch.visited_set.clear();
    scratch.next.clear();
    scratch.first_match = None;
    scratch.rows.first_is_free();
    close_all(counted, scratch, here, threads, first, slots);
    threads.swap(&mut scratch.next);
}

// Returns the state where runs start, if it is explored at this place.
#[inline(always)]
fn first_of(starts: bool, first: u32) -> Option<u32>
    ensures { result ≡ (if starts then Some first else None) }
{
    if starts { Some(first) } else { None }
}

// Returns whether the start is explored at the next place too: until a match is found, and not in an anchored search.
#[inline(always)]
pub(super) fn starts_on<T>(starts: bool, anchored: bool, first_match: &Option<T>) -> bool
    ensures { result ≡ (starts && not (anchored || is_some first_match.now)) }
{
    starts && !(anchored || first_match.is_some())
}

// Returns whether a match was found, at this place or before.
#[inline(always)]
fn is_found_with(is_found: bool, first_match: &Option<FirstMatch>) -> bool
    ensures { result ≡ (is_found || is_some first_match.now) }
{
    is_found || first_match.is_some()
}

// Returns whether the search is over after a place: at the end of the haystack, where `len` is 0, if an earliest match
// was found, or if no thread is left and the start is not explored any more.
#[inline(always)]
pub(super) fn is_over(
    len: usize,
    earliest: bool,
    is_found: bool,
    starts: bool,
    threads: usize,
) -> bool
    ensures { result ≡ ((len == 0) || ((earliest && is_found) || (not starts && (threads == 0)))) }
{
    len == 0 || (earliest && is_found) || (!starts && threads == 0)
}

/// Searches on as the input asks, place by place, with these threads, in a program that starts in the state `first`, until
/// the search is over or as `from` asks. Returns how it stopped, and writes the slots of a match that it found.
///
/// The start is explored at each place until a match is found, or at the first place alone if the search is anchored.
pub(super) fn run(
    counted: &mut Counted<'_>,
    scratch: &mut Scratch,
    threads: &mut Threads,
    first: u32,
    input: &Input<'_>,
    from: &Resumed<'_>,
    slots: &mut [Slot],
) -> Stopped
    requires { CanRun first input.now from.now threads.old (walk_state counted.old scratch.old slots.old) }
    ensures runs { Runs first input.now from.now threads.old (walk_state counted.old scratch.old slots.old)
        (walk_state counted.new scratch.new slots.new) result }
    ensures room { HasRoom (fit_in (states_of counted.old.states.now)) scratch.new threads.new }
{
    let earliest = input.kind.is_earliest();
    let longest = input.kind.is_longest();
    let mut place = from.place;
    let mut starts = from.starts;
    let mut is_found = from.is_found;
    'places: loop {
        let here = piece_at(input.haystack, place, longest);
        let begins = first_of(starts, first);
        step_threads(counted, scratch, threads, &here, begins, slots);
        starts = starts_on(starts, input.anchored, &scratch.first_match);
        is_found = is_found_with(is_found, &scratch.first_match);
        if is_over(here.ch_len, earliest, is_found, starts, threads.len()) {
            return Stopped {
                is_found,
                idle: None,
            };
        }
        place += here.ch_len;
        if from.until_idle && threads.len() == 0 {
            return Stopped {
                is_found,
                idle: Some(place),
            };
        }
    }
}
