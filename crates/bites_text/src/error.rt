//! Why a pattern is refused.

ghost use Rattle.std.specs.Prelude.{◌≡◌, ◌≤◌, ◌↔◌, IsTrue, Some, IfSome, IfNone, map};
ghost use Rattle.std.specs.List.{range_with_len};
ghost use Rattle.bites_text.specs.Texts.{TextsAgree, code_of, error_text};
ghost use Rattle.bites_text.specs.declared.error.Error.TheVariants.{Memory};

use std::alloc::{AllocError, AllocFailed};
use std::fmt;

/// Why a pattern was refused: one message of the parser or the compiler, or out of memory.
///
/// A copy or a clone takes no memory. The discriminant of each variant is the number of its message.
#[derive(Clone, Copy, Debug, PartialEq, Eq)]
pub enum Error {
    /// More groups are open than the limit allows, or the expression is too tall.
    TooMuchNesting = 1,
    /// A group's number does not fit a `u32`.
    TooManyGroups = 2,
    /// Two groups have one name.
    DuplicateName = 3,
    /// The pattern ends in a group.
    UnclosedGroup = 4,
    /// The pattern ends after `(?`.
    UnclosedQuestion = 5,
    /// A `)` closes no group.
    UnopenedGroup = 6,
    /// A group begins with `?=`, `?!`, `?<=` or `?<!`.
    LookAround = 7,
    /// `(?)` sets no flag.
    EmptyFlags = 8,
    /// The pattern ends where a group's name begins.
    MissingName = 9,
    /// A character cannot stand in a group's name.
    InvalidName = 10,
    /// The pattern ends in a group's name.
    UnclosedName = 11,
    /// A group's name has no character.
    EmptyName = 12,
    /// A character is not a flag.
    UnrecognizedFlag = 13,
    /// The flags have a second `-`.
    RepeatedNegation = 14,
    /// A flag is set or cleared a second time.
    DuplicateFlag = 15,
    /// The pattern ends in the flags.
    UnclosedFlags = 16,
    /// No flag follows the `-`.
    DanglingNegation = 17,
    /// A bound of a counted repetition has no digit.
    DecimalWithoutDigits = 18,
    /// A bound of a counted repetition does not fit a `u32`.
    InvalidDecimal = 19,
    /// A character in the braces is not a hexadecimal digit.
    BraceHexDigit = 20,
    /// The pattern ends in the braces of a hexadecimal number.
    BraceHexUnclosed = 21,
    /// The braces of a hexadecimal number are empty.
    BraceHexEmpty = 22,
    /// The number in the braces is not a scalar value.
    BraceHexInvalid = 23,
    /// The pattern ends after some of the hexadecimal digits.
    FixedHexUnfinished = 24,
    /// A character is not a hexadecimal digit where one has to stand.
    FixedHexDigit = 25,
    /// The number of these digits is not a scalar value.
    FixedHexInvalid = 26,
    /// The pattern ends after `\x`, `\u` or `\U`.
    HexUnfinished = 27,
    /// The pattern ends after `\`.
    EscapeUnfinished = 28,
    /// A digit follows `\`.
    Backreference = 29,
    /// `\p` or `\P` begins a class of Unicode.
    UnicodeClass = 30,
    /// A character has no meaning after `\`.
    UnrecognizedEscape = 31,
    /// Nothing stands before `?`, `*` or `+`.
    NothingToRepeat = 32,
    /// Nothing stands before a counted repetition.
    NothingToCount = 33,
    /// The pattern ends after `{`.
    UnclosedCount = 34,
    /// The pattern ends after the lower bound.
    UnclosedMin = 35,
    /// The pattern ends after the comma of a counted repetition.
    UnclosedComma = 36,
    /// The pattern ends after the upper bound.
    UnclosedMax = 37,
    /// Another character stands where the counted repetition would go on.
    InvalidCount = 38,
    /// The lower bound is above the upper one.
    MinAboveMax = 39,
    /// The pattern ends after a member of a class.
    UnclosedAfterMember = 40,
    /// An end of a range in a class is not a single character.
    RangeOfNoCharacter = 41,
    /// An assertion stands in a class.
    InvalidClassEscape = 42,
    /// The pattern ends after a `-` in a class.
    UnclosedAfterDash = 43,
    /// The pattern ends after `[^`.
    UnclosedAfterCaret = 44,
    /// The pattern ends after a class's leading `]`.
    UnclosedAfterBracket = 45,
    /// The first end of a range in a class is above its second.
    InvalidRange = 46,
    /// The pattern ends where a member of a class could begin.
    UnclosedClass = 47,
    /// A class stands in a class.
    NestedClass = 48,
    /// `&&` stands between members of a class.
    ClassIntersection = 49,
    /// `--` stands between members of a class.
    ClassDifference = 50,
    /// `~~` stands between members of a class.
    ClassSymmetricDifference = 51,
    /// The letters after `\b{` are not closed by `}`.
    UnclosedBoundary = 52,
    /// The letters in `\b{}` spell no word boundary.
    UnrecognizedBoundary = 53,
    /// The pattern ends after `\b{`.
    UnfinishedBoundary = 54,
    /// The compiled program is above the size limit.
    TooBig = 55,
    /// The compiled program has more states than there are numbers for them.
    TooManyStates = 56,
    /// The groups need more slots than there are numbers for them.
    TooManySlots = 57,
    /// An allocation failed.
    Memory = 58,
}

impl Error {
    /// Returns the message: one line of ASCII without a line end.
    pub const fn text(&self) -> &'static str
        ensures { result.now ≡ error_text self.now }
    {
        match self {
            Error::TooMuchNesting => "pattern has too much nesting",
            Error::TooManyGroups => "too many capture groups",
            Error::DuplicateName => "duplicate capture group name",
            Error::UnclosedGroup => "found open group without closing ')'",
            Error::UnclosedQuestion => "expected closing ')', but got end of pattern",
            Error::UnopenedGroup => "found closing ')' without matching '('",
            Error::LookAround => "look-around is not supported",
            Error::EmptyFlags => "empty flag directive '(?)' is not allowed",
            Error::MissingName => "expected capture group name, but got end of pattern",
            Error::InvalidName => "invalid group name",
            Error::UnclosedName => "expected end of capture group name, but got end of pattern",
            Error::EmptyName => "empty capture group names are not allowed",
            Error::UnrecognizedFlag => "unrecognized inline flag",
            Error::RepeatedNegation => "inline flag negation cannot be repeated",
            Error::DuplicateFlag => "duplicate inline flag is not allowed",
            Error::UnclosedFlags =>
                "expected ':' or ')' to end inline flags, but got end of pattern",
            Error::DanglingNegation => "inline flags cannot end with negation directive",
            Error::DecimalWithoutDigits => "expected decimal number, but found no digits",
            Error::InvalidDecimal => "got invalid decimal number",
            Error::BraceHexDigit => "expected hexadecimal number in braces, but got non-hex digit",
            Error::BraceHexUnclosed =>
                "expected hexadecimal number, but saw end of pattern before closing brace",
            Error::BraceHexEmpty => "expected hexadecimal number in braces, but got no digits",
            Error::BraceHexInvalid => "got invalid hexadecimal number in braces",
            Error::FixedHexUnfinished =>
                "expected fixed length hexadecimal number, but saw end of pattern first",
            Error::FixedHexDigit =>
                "expected fixed length hexadecimal number, but got non-hex digit",
            Error::FixedHexInvalid => "got invalid fixed length hexadecimal number",
            Error::HexUnfinished => "expected hexadecimal number, but saw end of pattern first",
            Error::EscapeUnfinished =>
                "saw start of escape sequence, but saw end of pattern before it finished",
            Error::Backreference => "backreferences are not supported",
            Error::UnicodeClass => "Unicode character classes are not supported",
            Error::UnrecognizedEscape => "unrecognized escape sequence",
            Error::NothingToRepeat =>
                "uncounted repetition operator must be applied to a sub-expression",
            Error::NothingToCount =>
                "counted repetition operator must be applied to a sub-expression",
            Error::UnclosedCount => "found unclosed counted repetition operator",
            Error::UnclosedMin => "found incomplete and unclosed counted repetition operator",
            Error::UnclosedComma =>
                "found counted repetition operator with a comma that is unclosed",
            Error::UnclosedMax => "found counted repetition with min and max that is unclosed",
            Error::InvalidCount =>
                "expected closing brace for counted repetition, but got something else",
            Error::MinAboveMax => "found counted repetition with a min bigger than its max",
            Error::UnclosedAfterMember => "non-empty character class has no closing bracket",
            Error::RangeOfNoCharacter =>
                "character class ranges must start and end with a single character",
            Error::InvalidClassEscape => "invalid escape sequence in character class",
            Error::UnclosedAfterDash =>
                "non-empty character class has no closing bracket after dash",
            Error::UnclosedAfterCaret => "negated character class has no closing bracket",
            Error::UnclosedAfterBracket =>
                "character class begins with literal ']' but has no closing bracket",
            Error::InvalidRange => "invalid range in character class",
            Error::UnclosedClass => "found unclosed character class",
            Error::NestedClass => "nested character classes are not supported",
            Error::ClassIntersection => "character class intersection is not supported",
            Error::ClassDifference => "character class difference is not supported",
            Error::ClassSymmetricDifference =>
                "character class symmetric difference is not supported",
            Error::UnclosedBoundary =>
                "special word boundary assertion is unclosed or has an invalid character",
            Error::UnrecognizedBoundary => "special word boundary assertion is unrecognized",
            Error::UnfinishedBoundary =>
                "found start of special word boundary or repetition without an end",
            Error::TooBig => "compiled regex exceeded size limit",
            Error::TooManyStates => "exhausted state IDs, too many states",
            Error::TooManySlots => "capture group slots exhausted",
            Error::Memory => "out of memory",
        }
    }

    /// Returns whether an allocation failed.
    pub const fn is_memory(&self) -> bool
        ensures { IsTrue result ↔ (self.now ≡ Error.Memory) }
    {
        matches!(self, Error::Memory)
    }
}

impl fmt::Display for Error {
    ghost output = { λ error. Some (error_text error) };

    fn fmt<W: fmt::Write>(&self, f: &mut fmt::Formatter<W>) -> fmt::Result {
        f.write_str(self.text())
    }
}

impl std::error::Error for Error {}

impl From<AllocError> for Error {
    ghost from_gives = { λ _ error. error ≡ Memory };

    fn from(_refused: AllocError) -> Error {
        Error::Memory
    }
}

impl<T: Drop> From<AllocFailed<T>> for Error {
    ghost from_gives = { λ _ error. error ≡ Memory };

    fn from(_refused: AllocFailed<T>) -> Error {
        Error::Memory
    }
}

/// Returns the number of an error, from 1 on. Out of memory is 58.
pub fn number(error: Error) -> u32
    ensures { result ≡ code_of error }
{
    error as u32
}

/// Returns the error of a number, if an error has it.
pub fn of_number(number: u32) -> Option<Error>
    ensures known { IfSome result (λ e. number ≡ code_of e) }
    ensures unknown { IfNone result (1 ≤ number → number ≤ 58 → ⊥) }
{
    if number == 0 || number > 58 {
        return None;
    }
    Some(errors()[number as usize - 1])
}

// Returns the errors in the order of their numbers.
fn errors() -> [Error; 58]
    ensures { map code_of result ≡ range_with_len 1 58 }
{
    [
        Error::TooMuchNesting,
        Error::TooManyGroups,
        Error::DuplicateName,
        Error::UnclosedGroup,
        Error::UnclosedQuestion,
        Error::UnopenedGroup,
        Error::LookAround,
        Error::EmptyFlags,
        Error::MissingName,
        Error::InvalidName,
        Error::UnclosedName,
        Error::EmptyName,
        Error::UnrecognizedFlag,
        Error::RepeatedNegation,
        Error::DuplicateFlag,
        Error::UnclosedFlags,
        Error::DanglingNegation,
        Error::DecimalWithoutDigits,
        Error::InvalidDecimal,
        Error::BraceHexDigit,
        Error::BraceHexUnclosed,
        Error::BraceHexEmpty,
        Error::BraceHexInvalid,
        Error::FixedHexUnfinished,
        Error::FixedHexDigit,
        Error::FixedHexInvalid,
        Error::HexUnfinished,
        Error::EscapeUnfinished,
        Error::Backreference,
        Error::UnicodeClass,
        Error::UnrecognizedEscape,
        Error::NothingToRepeat,
        Error::NothingToCount,
        Error::UnclosedCount,
        Error::UnclosedMin,
        Error::UnclosedComma,
        Error::UnclosedMax,
        Error::InvalidCount,
        Error::MinAboveMax,
        Error::UnclosedAfterMember,
        Error::RangeOfNoCharacter,
        Error::InvalidClassEscape,
        Error::UnclosedAfterDash,
        Error::UnclosedAfterCaret,
        Error::UnclosedAfterBracket,
        Error::InvalidRange,
        Error::UnclosedClass,
        Error::NestedClass,
        Error::ClassIntersection,
        Error::ClassDifference,
        Error::ClassSymmetricDifference,
        Error::UnclosedBoundary,
        Error::UnrecognizedBoundary,
        Error::UnfinishedBoundary,
        Error::TooBig,
        Error::TooManyStates,
        Error::TooManySlots,
        Error::Memory,
    ]
}

/// For proofs: the error of each message of the grammar has that message's text, and no two messages have the same
/// error.
pub fn texts_are_the_messages()
    ensures { TextsAgree }
{}
