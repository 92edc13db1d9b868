//! Choices on which only the speed of a search for several literals depends.

ghost use Rattle.std.specs.Prelude.{◌≤◌, ◌<◌, length};

use crate::literal::Literal;

/// How many buckets the literals are put into.
const BUCKETS: usize = 8;

/// The place where a literal of 32 bytes has its last three.
const LAST_PLACE: u8 = 29;

/// Returns the place of the three bytes that are looked up: one that all literals have, and where their bytes are rare.
pub(crate) fn place_of(literals: &[Literal]) -> u8
    ensures { result ≤ 29 }
{
    let mut best = 0u8;
    let mut least = cost_at(literals, best);
    for place in 1..LAST_PLACE + 1 {
        let cost = cost_at(literals, place);
        if cost == u32::MAX {
            break;
        }
        if cost < least {
            best = place;
            least = cost;
        }
    }
    best
}

/// Returns how often the three bytes at this place occur, for the literal with the most frequent ones, or `u32::MAX` if a
/// literal ends before.
fn cost_at(literals: &[Literal], place: u8) -> u32
    requires { place ≤ 29 }
{
    let mut most = 0u32;
    for literal in literals {
        most = most.max(literal.cost_at(place as usize));
    }
    most
}

/// Returns a bucket for a literal. Literals with like bytes from this place on come into one.
pub(crate) fn bucket_of(literals: &[Literal], number: usize, place: u8) -> usize
    requires within { number < length literals.now }
    requires place { place ≤ 29 }
    ensures { result < 8 }
{
    let own = literals[number].order_at(place as usize);
    let mut before = 0usize;
    for literal in literals {
        if literal.order_at(place as usize) < own {
            before += 1;
        }
    }
    (before.min(64) * BUCKETS / literals.len()).min(BUCKETS - 1)
}
