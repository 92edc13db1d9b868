//! The tree of a pattern, as lists in lists.

use super::escape::write_shown;
use super::parts::{look_words, write_character, write_class};
use crate::explain::output::Output;
use bites_syntax::tree::{Kind, Name, Tree};

/// Writes the item of a tree.
#[cycle(write_tree)]
pub(super) fn write_tree(tree: &Tree, out: &mut Output) {
    match tree.kind() {
        Kind::Repetition {
            min,
            max,
            greedy,
            sub,
        } => {
            write_bounds(*min, *max, *greedy, out);
            write_tree(sub, out);
            out.put("</ul>");
        }
        Kind::Capture { index, name, sub } => {
            write_opening(*index, name.as_ref(), out);
            write_tree(sub, out);
            out.put("</ul>");
        }
        Kind::Concat(parts) => write_trees(SEQUENCE, parts, out),
        Kind::Alternation(parts) => write_trees(CHOICE, parts, out),
        kind => write_leaf(kind, out),
    }
    out.put("</li>");
}

// Writes what a tree is that has no trees below it.
fn write_leaf(kind: &Kind, out: &mut Output) {
    match kind {
        Kind::Char(c) => {
            out.put("<li class=\"char\"><span>");
            write_character(*c, out);
        }
        Kind::Class(class) => {
            out.put("<li class=\"char\"><span>");
            write_class(class.ranges(), out);
        }
        Kind::Look(look) => {
            out.put("<li class=\"look\"><span>");
            out.put(look_words(look));
        }
        _ => out.put("<li class=\"empty\"><span>the empty text"),
    }
    out.put("</span>");
}

// What stands before the trees of a list.
static SEQUENCE: &str = "<li class=\"sequence\"><span>one after another</span><ol>";

static CHOICE: &str = "<li class=\"choice\"><span>one of, the first preferred</span><ol>";

// Writes the text that begins a list, and the items of the trees of the list.
#[cycle(write_tree)]
fn write_trees(opening: &str, parts: &[Tree], out: &mut Output) {
    out.put(opening);
    for part in parts {
        write_tree(part, out);
    }
    out.put("</ol>");
}

// What stands between a repetition and its tree.
static MORE: &str = ", more preferred</span><ul>";

static FEWER: &str = ", fewer preferred</span><ul>";

// Writes a repetition up to its tree.
fn write_bounds(min: u32, max: Option<u32>, greedy: bool, out: &mut Output) {
    out.put_number("<li class=\"repetition\"><span>", min as usize);
    match max {
        Some(max) if max == min => out.put(" times"),
        Some(max) => {
            out.put_number(" times to ", max as usize);
            out.put(" times");
        }
        None => out.put(" times or more"),
    }
    out.put(if greedy { MORE } else { FEWER });
}

// Writes a group up to its tree.
fn write_opening(index: u32, name: Option<&Name>, out: &mut Output) {
    out.put_number("<li class=\"group\"><span>group ", index as usize);
    if let Some(name) = name {
        out.put(" <b>");
        write_shown(name.as_str(), out);
        out.put("</b>");
    }
    out.put("</span><ul>");
}
