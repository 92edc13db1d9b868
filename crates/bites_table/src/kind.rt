//! What assertions see of a place: the kinds of the bytes before and after it.

ghost use Rattle.std.specs.Prelude.{◌≡◌};
ghost use Rattle.bites_spec.specs.Look.{is_word_byte};
ghost use Rattle.bites_syntax.specs.View.{look_of};
ghost use Rattle.bites_table.specs.Kinds.{byte_of, is_edge, kind_of, holds_by};
ghost use Rattle.bites_table.specs.Built.{kind_as};

use bites_syntax::look::Look;

/// The kind of a byte, by what assertions tell apart. At an end of the haystack there is no byte, which is `Edge`.
#[derive(Clone, Copy, PartialEq, Eq, Debug)]
pub enum Kind {
    Edge,
    LineFeed,
    CarriageReturn,
    WordByte,
    Other,
}

impl Kind {
    /// Returns the kind of a character, or of an end of the haystack.
    pub fn of(ch: Option<char>) -> Kind
        ensures { kind_as result ≡ kind_of ch }
    {
        let Some(ch) = ch else {
            return Kind::Edge;
        };
        if ch == '\n' {
            Kind::LineFeed
        } else if ch == '\r' {
            Kind::CarriageReturn
        } else if is_word(ch) {
            Kind::WordByte
        } else {
            Kind::Other
        }
    }

    // Returns a byte of this kind, or none for the edge.
    fn byte(self) -> Option<u8>
        ensures { result ≡ byte_of (kind_as self) }
    {
        match self {
            Kind::Edge => None,
            Kind::LineFeed => Some(b'\n'),
            Kind::CarriageReturn => Some(b'\r'),
            Kind::WordByte => Some(b'a'),
            Kind::Other => Some(b' '),
        }
    }

    fn is_edge(self) -> bool
        ensures { result ≡ is_edge (kind_as self) }
    {
        matches!(self, Kind::Edge)
    }
}

fn is_word(ch: char) -> bool
    ensures { result ≡ is_word_byte ch }
{
    matches!(ch, '0'..='9' | 'A'..='Z' | 'a'..='z' | '_')
}

/// A place as assertions see it: the kinds of the bytes before and after it.
#[derive(Clone, Copy, Drop)]
pub(crate) struct Here {
    pub before: Kind,
    pub after: Kind,
}

impl Here {
    /// Returns whether the assertion holds.
    pub(crate) fn holds(&self, look: Look) -> bool
        ensures { result ≡ holds_by (look_of look) (kind_as self.now.before) (kind_as self.now.after) }
    {
        look.holds_between(
            self.before.byte(),
            self.after.byte(),
            self.before.is_edge(),
            self.after.is_edge(),
        )
    }
}
