//! What the assertions of a program tell apart.

ghost use Rattle.std.specs.Prelude.{◌≡◌};
ghost use Rattle.bites_syntax.specs.View.{look_of};
ghost use Rattle.bites_table.specs.Built.{kind_as};
ghost use Rattle.bites_table.specs.Distinctions.{before_by, after_by, either, seen};

use crate::kind::Kind;
use bites_syntax::look::Look;

/// Which kinds of bytes are told apart from all others.
#[derive(Clone, Copy, PartialEq, Eq)]
pub(crate) struct Distinctions {
    /// An end of the haystack.
    pub edge: bool,
    /// A line feed, or an end of the haystack.
    pub line: bool,
    pub carriage_return: bool,
    pub word: bool,
}

/// No kind is told apart.
pub(crate) const NOTHING: Distinctions = Distinctions {
    edge: false,
    line: false,
    carriage_return: false,
    word: false,
};

const EDGES: Distinctions = Distinctions {
    edge: true,
    line: false,
    carriage_return: false,
    word: false,
};

const LINES: Distinctions = Distinctions {
    edge: false,
    line: true,
    carriage_return: false,
    word: false,
};

const RETURNS: Distinctions = Distinctions {
    edge: false,
    line: false,
    carriage_return: true,
    word: false,
};

const LINES_AND_RETURNS: Distinctions = Distinctions {
    edge: false,
    line: true,
    carriage_return: true,
    word: false,
};

const EDGES_AND_LINES: Distinctions = Distinctions {
    edge: true,
    line: true,
    carriage_return: false,
    word: false,
};

const ALL_BUT_WORDS: Distinctions = Distinctions {
    edge: true,
    line: true,
    carriage_return: true,
    word: false,
};

const WORDS: Distinctions = Distinctions {
    edge: false,
    line: false,
    carriage_return: false,
    word: true,
};

impl Distinctions {
    /// Returns what one of the two tells apart.
    pub(crate) fn or(self, other: Distinctions) -> Distinctions
        ensures { result ≡ either self other }
    {
        Distinctions {
            edge: self.edge || other.edge,
            line: self.line || other.line,
            carriage_return: self.carriage_return || other.carriage_return,
            word: self.word || other.word,
        }
    }

    /// Returns what is seen of a kind, where no more than this is told apart.
    pub(crate) fn seen(self, kind: Kind) -> Distinctions
        ensures { result ≡ seen self (kind_as kind) }
    {
        Distinctions {
            edge: self.edge && matches!(kind, Kind::Edge),
            line: self.line && matches!(kind, Kind::Edge | Kind::LineFeed),
            carriage_return: self.carriage_return && matches!(kind, Kind::CarriageReturn),
            word: self.word && matches!(kind, Kind::WordByte),
        }
    }
}

/// Returns what an assertion tells apart of the byte before.
pub(crate) fn before(look: Look) -> Distinctions
    ensures { result ≡ before_by (look_of look) }
{
    match look {
        Look::Start => EDGES,
        Look::StartLF => LINES,
        Look::StartCRLF => LINES_AND_RETURNS,
        Look::EndCRLF => RETURNS,
        Look::Word | Look::WordNegate => WORDS,
        Look::WordStart | Look::WordEnd | Look::WordStartHalf => WORDS,
        Look::End | Look::EndLF | Look::WordEndHalf => NOTHING,
    }
}

/// Returns what an assertion tells apart of the character after.
pub(crate) fn after(look: Look) -> Distinctions
    ensures { result ≡ after_by (look_of look) }
{
    match look {
        Look::End => EDGES,
        Look::EndLF => LINES,
        Look::StartCRLF => EDGES_AND_LINES,
        Look::EndCRLF => ALL_BUT_WORDS,
        Look::Word | Look::WordNegate => WORDS,
        Look::WordStart | Look::WordEnd | Look::WordEndHalf => WORDS,
        Look::Start | Look::StartLF | Look::WordStartHalf => NOTHING,
    }
}
