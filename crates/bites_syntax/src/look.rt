//! Assertions: what holds between two bytes of a haystack.

ghost use Rattle.std.specs.Prelude.{◌≡◌, ◌≤◌, length};
ghost use Rattle.bites_spec.specs.Look.{holds, holds_between, before, is_byte, is_word};
ghost use Rattle.bites_syntax.specs.View.{look_of};

use bites_text::utf8::is_word_byte;

/// An assertion. It consumes nothing.
#[derive(Clone, Copy, PartialEq, Eq, Debug)]
pub enum Look {
    /// The start of the haystack.
    Start,
    /// The end of the haystack.
    End,
    /// The start of a line that a line feed ends.
    StartLF,
    /// The end of a line that a line feed ends.
    EndLF,
    /// The start of a line that a line feed, a carriage return or both end.
    StartCRLF,
    /// The end of a line that a line feed, a carriage return or both end.
    EndCRLF,
    /// A word byte on one side and none on the other.
    Word,
    /// Word bytes on both sides, or on neither.
    WordNegate,
    /// No word byte before, and one after.
    WordStart,
    /// A word byte before, and none after.
    WordEnd,
    /// No word byte before.
    WordStartHalf,
    /// No word byte after.
    WordEndHalf,
}

impl Look {
    /// Returns whether the assertion holds at an offset of the haystack, in bytes.
    #[tactic(auto, unfolding(bites_spec::specs::Look::holds))]
    pub fn is_match(&self, haystack: &[u8], at: usize) -> bool
        requires { at ≤ length haystack.now }
        ensures { result ≡ holds (look_of self.now) haystack.now at }
    {
        let (before, after) = (byte_before(haystack, at), haystack.get(at).copied());
        self.holds_between(before, after, at == 0, at == haystack.len())
    }

    /// Returns whether the assertion holds between two bytes. At an end of the haystack one of them is None.
    pub fn holds_between(
        &self,
        before: Option<u8>,
        after: Option<u8>,
        at_start: bool,
        at_end: bool,
    ) -> bool
        ensures { result ≡ holds_between (look_of self.now) before after at_start at_end }
    {
        match self {
            Look::Start => at_start,
            Look::End => at_end,
            Look::StartLF => at_start || is_byte(before, b'\n'),
            Look::EndLF => at_end || is_byte(after, b'\n'),
            Look::StartCRLF => {
                at_start
                    || is_byte(before, b'\n')
                    || is_byte(before, b'\r') && !is_byte(after, b'\n')
            }
            Look::EndCRLF => {
                at_end || is_byte(after, b'\r') || is_byte(after, b'\n') && !is_byte(before, b'\r')
            }
            Look::Word => is_word(before) != is_word(after),
            Look::WordNegate => is_word(before) == is_word(after),
            Look::WordStart => !is_word(before) && is_word(after),
            Look::WordEnd => is_word(before) && !is_word(after),
            Look::WordStartHalf => !is_word(before),
            Look::WordEndHalf => !is_word(after),
        }
    }
}

/// Returns the byte before an offset.
fn byte_before(haystack: &[u8], at: usize) -> Option<u8>
    requires { at ≤ length haystack.now }
    ensures { result ≡ before haystack.now at }
{
    if at == 0 {
        None
    } else {
        Some(haystack[at - 1])
    }
}

/// Returns whether there is a byte and it is `wanted`.
fn is_byte(found: Option<u8>, wanted: u8) -> bool
    ensures { result ≡ is_byte wanted found }
{
    found == Some(wanted)
}

/// Returns whether there is a byte and it is a word byte.
fn is_word(byte: Option<u8>) -> bool
    ensures { result ≡ is_word byte }
{
    byte.is_some_and(is_word_byte)
}
