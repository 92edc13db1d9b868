//! What stands at a place of a haystack, as a table sees it.

ghost use Rattle.std.specs.Prelude.{◌≡◌, ◌<◌, ◌≤◌, length};
ghost use Rattle.bites_spec.specs.Look.{before};
ghost use Rattle.bites_table.specs.Kinds.{kind_of};
ghost use Rattle.bites_table.specs.Built.{kind_as};
ghost use Rattle.bites_table.specs.Searches.{IsReadAs};

use crate::kind::Kind;
use crate::table::Table;
use bites_text::utf8::{decode_lossy, whole_len_past_ascii};

/// The class of a character or of the end, and the number of its bytes.
#[derive(Clone, Copy, Drop)]
pub(crate) struct Piece {
    pub class: usize,
    pub len: usize,
}

/// Returns the class of what stands at a place. The end needn't be decoded, nor a byte of ASCII.
#[inline(always)]
#[tactic(auto, using(crate::proofs::StandingLemmas::ascii_here, crate::proofs::StandingLemmas::ascii_next, crate::proofs::StandingLemmas::end_next, bites_spec::proofs::utf8::PieceLemmas::piece_none))]
pub(crate) fn piece_at(table: &Table, haystack: &[u8], place: usize) -> Piece
    requires { place ≤ length haystack.now }
    ensures { IsReadAs table.now haystack.now place result.class result.len }
{
    if place >= haystack.len() {
        return Piece {
            class: table.class_of_end(),
            len: 0,
        };
    }
    if haystack[place].is_ascii() {
        return Piece {
            class: table.class_of_byte(haystack[place]),
            len: 1,
        };
    }
    decoded_at(table, haystack, place)
}

// Returns the same of what is no byte of ASCII. A character is not decoded where all past ASCII have one class. It is a call, so that the
// loop of a search keeps its registers.
#[inline(never)]
#[tactic(auto, unfolding(bites_spec::specs::Utf8::piece))]
fn decoded_at(table: &Table, haystack: &[u8], place: usize) -> Piece
    requires { place < length haystack.now }
    ensures { IsReadAs table.now haystack.now place result.class result.len }
{
    if let Some(class) = table.class_past_ascii() {
        if let Some(len) = whole_len_past_ascii(&haystack[place..]) {
            return Piece { class, len };
        }
    }
    decoded_slowly(table, haystack, place)
}

// Returns the same by decoding.
#[inline(never)]
#[tactic(auto, unfolding(bites_spec::specs::Utf8::piece))]
fn decoded_slowly(table: &Table, haystack: &[u8], place: usize) -> Piece
    requires { place < length haystack.now }
    ensures { IsReadAs table.now haystack.now place result.class result.len }
{
    let (ch, len) = decode_lossy(&haystack[place..]);
    Piece {
        class: table.class_of(Some(ch)),
        len,
    }
}

/// Returns the kind of the byte before a place.
pub(crate) fn kind_before(haystack: &[u8], place: usize) -> Kind
    requires { place ≤ length haystack.now }
    ensures { kind_as result ≡ kind_of (before haystack.now place) }
{
    if place == 0 {
        return Kind::Edge;
    }
    Kind::of(Some(char::from(haystack[place - 1])))
}
