//! What a row may ask, and by which calls.

use crate::fault::Fault;

/// A question about the pattern alone.
#[derive(Clone, Copy)]
pub enum Question {
    Message,
    Tree,
    Build,
    LeastSize,
    Escape,
    Program,
    Table,
    /// Where the pattern is refused, which a column of its own answers.
    Place,
}

impl Question {
    /// Returns whether the answer comes from a regex that is built.
    pub fn is_of_regex(self) -> bool {
        matches!(self, Question::Message | Question::Build)
    }
}

/// A search of a haystack.
#[derive(Clone, Copy)]
pub enum Search {
    Is,
    Shortest,
    FindAt,
    CapturesAt,
    CapturesRead,
    FindIter,
    CapturesIter,
    Split,
    SplitN,
    Group,
    Extract,
    Expand(Expander),
    Replace,
    ReplaceOwned,
    ReplaceLiteral,
    ReplaceFixed,
    ReplaceCount,
    ReplaceServed,
}

/// What appends the expansion of a template.
#[derive(Clone, Copy)]
pub enum Expander {
    Captures,
    Interpolate,
    // The replacers: a template that is borrowed, owned or one of both, and a reference to each.
    Template,
    Owned,
    OwnedRef,
    Cow,
    CowRef,
    Literal,
    ByRef,
    Function,
}

/// Which of the calls for a search is made: one with an argument, one for the whole haystack, one for a match that begins at the
/// start, or one for a match that is the whole haystack; each without a cache or with one.
#[derive(Clone, Copy)]
pub enum Form {
    At,
    Whole,
    AtWith,
    WholeWith,
    Anchored,
    AnchoredWith,
    Full,
    FullWith,
}

impl Form {
    /// Returns whether the call has no start or limit, so that it is one with 0.
    pub fn is_whole(self) -> bool {
        matches!(self, Form::Whole | Form::WholeWith)
    }
}

impl Search {
    /// Returns whether the search starts at an offset that the row gives.
    pub fn has_start(self) -> bool {
        matches!(
            self,
            Search::Is
                | Search::Shortest
                | Search::FindAt
                | Search::CapturesAt
                | Search::CapturesRead
        )
    }

    /// Returns whether the answer depends on the numbers or names of groups.
    pub fn has_groups(self) -> bool {
        matches!(
            self,
            Search::CapturesAt
                | Search::CapturesRead
                | Search::CapturesIter
                | Search::Group
                | Search::Extract
                | Search::Expand(_)
                | Search::Replace
                | Search::ReplaceOwned
        )
    }
}

/// What a row asks.
#[derive(Clone, Copy)]
pub enum Call {
    Pattern(Question),
    /// A search, and the first call that asks it.
    Search(Search, Form),
}

/// Each call by its word.
const CALLS: &[(&str, Call)] = &[
    ("message", Call::Pattern(Question::Message)),
    ("tree", Call::Pattern(Question::Tree)),
    ("build", Call::Pattern(Question::Build)),
    ("least_size", Call::Pattern(Question::LeastSize)),
    ("escape", Call::Pattern(Question::Escape)),
    ("program", Call::Pattern(Question::Program)),
    ("table", Call::Pattern(Question::Table)),
    ("is", Call::Search(Search::Is, Form::At)),
    ("shortest", Call::Search(Search::Shortest, Form::At)),
    ("find_at", Call::Search(Search::FindAt, Form::At)),
    ("captures_at", Call::Search(Search::CapturesAt, Form::At)),
    (
        "captures_read",
        Call::Search(Search::CapturesRead, Form::At),
    ),
    ("is_anchored", Call::Search(Search::Is, Form::Anchored)),
    (
        "find_anchored",
        Call::Search(Search::FindAt, Form::Anchored),
    ),
    (
        "captures_anchored",
        Call::Search(Search::CapturesAt, Form::Anchored),
    ),
    ("is_full", Call::Search(Search::Is, Form::Full)),
    (
        "captures_full",
        Call::Search(Search::CapturesAt, Form::Full),
    ),
    ("find_iter", Call::Search(Search::FindIter, Form::At)),
    (
        "captures_iter",
        Call::Search(Search::CapturesIter, Form::At),
    ),
    ("split", Call::Search(Search::Split, Form::At)),
    ("splitn", Call::Search(Search::SplitN, Form::At)),
    ("group", Call::Search(Search::Group, Form::At)),
    ("extract", Call::Search(Search::Extract, Form::At)),
    (
        "expand",
        Call::Search(Search::Expand(Expander::Captures), Form::At),
    ),
    ("replace", Call::Search(Search::Replace, Form::At)),
    (
        "replace_owned",
        Call::Search(Search::ReplaceOwned, Form::At),
    ),
    (
        "replace_lit",
        Call::Search(Search::ReplaceLiteral, Form::At),
    ),
    (
        "replace_count",
        Call::Search(Search::ReplaceCount, Form::At),
    ),
    (
        "replace_served",
        Call::Search(Search::ReplaceServed, Form::At),
    ),
];

/// Returns the call of this word.
pub fn call_of(word: &str) -> Result<Call, Fault> {
    for (name, call) in CALLS {
        if *name == word {
            return Ok(*call);
        }
    }
    Err(Fault::NoRow)
}
