//! The tree of a pattern.

ghost use Rattle.std.specs.Prelude.{◌≡◌, IfOk, string_bytes, chars, encode_utf8_all};
ghost use Rattle.bites_spec.specs.Tree as spec;
ghost use Rattle.bites_spec.specs.Tree.{trees_of};
ghost use Rattle.bites_spec.specs.Escaped.{escaped, is_marked};
ghost use Rattle.bites_syntax.specs.View.{tree_of, look_of};

pub use crate::class::Class;
pub use crate::look::Look;
pub use crate::name::Name;
use std::alloc::{AllocError, Global};
use std::marker::Model;

/// The tree of a pattern.
///
/// For proofs: a contract sees it as a tree of the definitions.
#[cycle(tree)]
pub struct Tree {
    kind: Kind,
}

// A caller that drops one relies on this function, and on no type below it.
impl Drop for Tree {
    #[cycle(tree)]
    fn drop(self) {
        let Tree { kind: _ } = self;
    }
}

/// What a tree is, with its parts.
#[cycle(tree)]
#[derive(Drop)]
pub enum Kind {
    /// The empty text.
    Empty,
    /// A character.
    Char(char),
    /// A character of a class.
    Class(Class),
    /// An assertion.
    Look(Look),
    /// At least `min` and at most `max` times `sub`, without a bound where `max` is None.
    Repetition {
        min: u32,
        max: Option<u32>,
        /// Whether more turns are preferred.
        greedy: bool,
        sub: Box<Tree>,
    },
    /// A group with its number, and with its name if it has one.
    Capture {
        index: u32,
        name: Option<Name>,
        sub: Box<Tree>,
    },
    /// Trees one after another.
    Concat(Vec<Tree>),
    /// One of the trees, earlier ones preferred.
    Alternation(Vec<Tree>),
}

impl Model for Tree {
    ghost use Rattle.bites_spec.specs.Tree as spec;
    ghost use Rattle.bites_spec.specs.Measure.{height};
    ghost use Rattle.bites_syntax.specs.TreeCode.{tree_code};

    ghost Value = { spec.Tree };

    ghost coded = { tree_code };

    ghost use Rattle.bites_syntax.specs.View.{tree_of};

    ghost view = { λ a. tree_of a.kind };

    ghost size = { height };

    ghost use Rattle.bites_syntax.specs.TreeFalls.{deep_le-height};

    ghost size_decreases = { λ a h. deep_le-height a.kind };
}

impl Tree {
    /// Returns what the tree is, with its parts.
    pub fn kind(&self) -> &Kind
        ensures { tree_of result.now ≡ self.now }
    {
        &self.kind
    }

    /// Returns the tree of the empty text.
    pub fn empty() -> Tree
        ensures { result ≡ spec.empty }
    {
        Tree { kind: Kind::Empty }
    }

    /// Returns the tree of a character.
    pub fn char(c: char) -> Tree
        ensures { result ≡ spec.char c }
    {
        Tree {
            kind: Kind::Char(c),
        }
    }

    /// Returns the tree of a character of the class.
    pub fn class(class: Class) -> Tree
        ensures { result ≡ spec.class class }
    {
        Tree {
            kind: Kind::Class(class),
        }
    }

    /// Returns the tree of an assertion.
    pub fn look(look: Look) -> Tree
        ensures { result ≡ spec.look (look_of look) }
    {
        Tree {
            kind: Kind::Look(look),
        }
    }

    /// Returns `sub` repeated at least `min` and at most `max` times, without an upper bound if `max` is None.
    pub fn repetition(min: u32, max: Option<u32>, greedy: bool, sub: Box<Tree>) -> Tree
        ensures { result ≡ spec.repetition min max greedy sub.value }
    {
        Tree {
            kind: Kind::Repetition {
                min,
                max,
                greedy,
                sub,
            },
        }
    }

    /// Returns the group with this number around `sub`.
    pub fn capture(index: u32, name: Option<Name>, sub: Box<Tree>) -> Tree
        ensures { result ≡ spec.group index name sub.value }
    {
        Tree {
            kind: Kind::Capture { index, name, sub },
        }
    }

    /// Returns the sequence of the parts.
    pub fn concat(parts: Vec<Tree>) -> Tree
        ensures { result ≡ spec.sequence (trees_of parts.items) }
    {
        Tree {
            kind: Kind::Concat(parts),
        }
    }

    /// Returns the alternation of the parts, earlier ones preferred.
    pub fn alternation(parts: Vec<Tree>) -> Tree
        ensures { result ≡ spec.alternation (trees_of parts.items) }
    {
        Tree {
            kind: Kind::Alternation(parts),
        }
    }
}

/// Returns a pattern that matches this text alone: a backslash stands before each of the characters
/// `\ . + * ? ( ) | [ ] { } ^ $ # & - ~`. The error is out of memory.
///
/// ```rust
/// let pattern = escape(rt.alloc(), "1+1")?;
/// assert_eq!(rt; pattern.as_str(), r"1\+1");
/// ```
pub fn escape(alloc: Global, text: &str) -> Result<String, AllocError>
    ensures { IfOk result
        (λ pattern. string_bytes pattern ≡ encode_utf8_all (escaped (chars text.now))) }
{
    let mut pattern = String::new(alloc);
    for c in text.chars() {
        if is_marked(c) {
            pattern.push('\\')?;
        }
        pattern.push(c)?;
    }
    Ok(pattern)
}

/// Returns whether [`escape`] puts a backslash before the character.
fn is_marked(c: char) -> bool
    ensures { result ≡ is_marked c }
{
    matches!(
        c,
        '\\' | '.'
            | '+'
            | '*'
            | '?'
            | '('
            | ')'
            | '|'
            | '['
            | ']'
            | '{'
            | '}'
            | '^'
            | '$'
            | '#'
            | '&'
            | '-'
            | '~'
    )
}
