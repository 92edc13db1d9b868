//! The Pike VM: steps through a haystack character by character, with a list of threads in order of preference.

ghost use Rattle.bites_machine.specs.Inputs.{is_longest, is_earliest, CanAsk, IsSearch};
ghost use Rattle.bites_machine.specs.declared.vm.MatchKind.TheVariants.{First, Earliest, Longest};
ghost use Rattle.std.specs.Prelude.{true, false, if◌then◌else◌, ◌≡◌, length};

mod bytes;
mod cache;
mod closure;
mod counted;
mod memory;
mod pikevm;
mod position;
mod recorded;
mod resume;
mod slot_table;
mod stack;
mod state_set;
mod threads;
pub mod traced;

use crate::program::Program;
pub use cache::Cache;
pub use counted::Counted;
pub use memory::Memory;
pub use resume::{RegisterThread, Resumed, Stopped};
pub use traced::trace;

/// Which match a search looks for.
#[derive(Clone, Copy, Drop)]
pub enum MatchKind {
    /// The preferred one of those that begin leftmost.
    First,
    /// One with the least end of all. The search stops there.
    Earliest,
    /// The longest of those that begin leftmost; of several, the preferred one.
    Longest,
}

impl MatchKind {
    // Returns whether a match with the least end is asked for.
    fn is_earliest(self) -> bool
        ensures { result ≡ is_earliest self }
    {
        matches!(self, MatchKind::Earliest)
    }

    // Returns whether the longest match is asked for.
    fn is_longest(self) -> bool
        ensures { result ≡ is_longest self }
    {
        matches!(self, MatchKind::Longest)
    }
}

/// What to search for: a match in the haystack that begins at or after `start`, or at `start` alone if `anchored` is set.
#[derive(Clone, Copy, Drop)]
pub struct Input<'h> {
    pub haystack: &'h [u8],
    pub start: usize,
    pub anchored: bool,
    pub kind: MatchKind,
}

/// Finds the match that the input asks for, and writes its first `slots.len()` slots. Returns whether there is one;
/// `slots` is unchanged if not. A start past the end of the haystack finds nothing.
///
/// Visits each state of the program at most once at each offset, and allocates nothing. An anchored search stops when no
/// thread is left.
///
/// For proofs: `searched` says that the machine of the definitions did this search. [`trace`] shows what it does at each
/// place.
pub fn search_input(
    program: &Program,
    cache: &mut Cache,
    input: &Input<'_>,
    slots: &mut [Option<usize>],
) -> bool
    requires { CanAsk program.now.program cache.old.fits (length slots.old) }
    ensures search { IsSearch program.now.program input.now.haystack.now input.now.start input.now.anchored
        input.now.kind result slots.old slots.new cache.old cache.new }
    ensures read { cache.new.walked.read ≡ cache.new.walked.visits }
{
    cache.search(program, input, slots)
}

/// Finds the leftmost match at or after `start`, the preferred one there, and writes its first `slots.len()` slots.
/// With `earliest`, finds a match with the least end of all instead, and stops there. Returns whether there was a
/// match; `slots` is unchanged if not. A start past the end of the haystack finds nothing.
///
/// Visits each state of the program at most once at each offset, and allocates nothing.
pub fn search(
    program: &Program,
    cache: &mut Cache,
    haystack: &[u8],
    start: usize,
    earliest: bool,
    slots: &mut [Option<usize>],
) -> bool
    requires { CanAsk program.now.program cache.old.fits (length slots.old) }
    ensures search { IsSearch program.now.program haystack.now start false
        (if earliest then Earliest else First) result slots.old slots.new cache.old cache.new }
    ensures read { cache.new.walked.read ≡ cache.new.walked.visits }
{
    let kind = if earliest {
        MatchKind::Earliest
    } else {
        MatchKind::First
    };
    let input = Input {
        haystack,
        start,
        anchored: false,
        kind,
    };
    search_input(program, cache, &input, slots)
}

/// Like [`search`], but finds the longest match at the leftmost place where one begins; of several, the preferred one.
pub fn search_longest(
    program: &Program,
    cache: &mut Cache,
    haystack: &[u8],
    start: usize,
    slots: &mut [Option<usize>],
) -> bool
    requires { CanAsk program.now.program cache.old.fits (length slots.old) }
    ensures search { IsSearch program.now.program haystack.now start false Longest
        result slots.old slots.new cache.old cache.new }
    ensures read { cache.new.walked.read ≡ cache.new.walked.visits }
{
    let input = Input {
        haystack,
        start,
        anchored: false,
        kind: MatchKind::Longest,
    };
    search_input(program, cache, &input, slots)
}

/// Finds a match that begins at `start` and writes its first `slots.len()` slots. Returns whether there is one;
/// `slots` is unchanged if not. A start past the end of the haystack returns false.
///
/// The search stops when no thread is left. It visits each state at most once at each offset, and allocates nothing.
pub fn search_anchored(
    program: &Program,
    cache: &mut Cache,
    haystack: &[u8],
    start: usize,
    kind: MatchKind,
    slots: &mut [Option<usize>],
) -> bool
    requires { CanAsk program.now.program cache.old.fits (length slots.old) }
    ensures search { IsSearch program.now.program haystack.now start true kind
        result slots.old slots.new cache.old cache.new }
    ensures read { cache.new.walked.read ≡ cache.new.walked.visits }
{
    let input = Input {
        haystack,
        start,
        anchored: true,
        kind,
    };
    search_input(program, cache, &input, slots)
}
