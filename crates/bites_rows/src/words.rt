//! Trees in words: each form by its name, with its parts in parentheses.

use crate::told::Answer;
use bites_syntax::class::Class;
use bites_syntax::tree::{Kind, Tree};

/// How many levels are written. Sequences and alternations count twice.
const LEVELS: u32 = 20;

/// Adds the tree in words. A class has its ranges in brackets. A repetition has its least count, and its greatest count
/// if there is one, before its body. A group has its number, and its name if it has one.
pub fn write_words(tree: &Tree, answer: &mut Answer) {
    write_tree(tree, LEVELS, answer);
}

// Adds the first levels of a tree, `levels` of them.
#[cycle(words)]
fn write_tree(tree: &Tree, levels: u32, answer: &mut Answer) {
    if levels == 0 {
        return answer.push("..");
    }
    let body = match tree.kind() {
        Kind::Empty => return answer.push("empty"),
        Kind::Char(c) => return answer.push_char(*c),
        Kind::Class(class) => return write_class(class, answer),
        Kind::Look(look) => return write!(answer, "{look:?}"),
        Kind::Concat(parts) => return write_parts("row(", parts, levels - 1, answer),
        Kind::Alternation(parts) => return write_parts("choice(", parts, levels - 1, answer),
        Kind::Repetition {
            min,
            max,
            greedy,
            sub,
        } => {
            write_counts(*greedy, *min, *max, answer);
            sub
        }
        Kind::Capture { index, name, sub } => {
            answer.push_number("group(", *index as usize);
            if let Some(name) = name {
                answer.push(", ");
                answer.push(name.as_str());
            }
            sub
        }
    };
    answer.push(", ");
    write_tree(body, levels - 1, answer);
    answer.push(")");
}

// Adds what opens a repetition.
fn write_counts(greedy: bool, min: u32, max: Option<u32>, answer: &mut Answer) {
    answer.push_number(if greedy { "greedy(" } else { "lazy(" }, min as usize);
    if let Some(max) = max {
        answer.push_number(", ", max as usize);
    }
}

// Adds what opens the form, and its parts.
#[cycle(words)]
fn write_parts(opening: &str, parts: &[Tree], levels: u32, answer: &mut Answer) {
    if levels == 0 {
        return answer.push("..");
    }
    answer.push(opening);
    for (number, part) in parts.iter().enumerate() {
        if number > 0 {
            answer.push(", ");
        }
        write_tree(part, levels - 1, answer);
    }
    answer.push(")");
}

// Adds the ranges in brackets, separated by spaces.
fn write_class(class: &Class, answer: &mut Answer) {
    let mut before = "";
    answer.push("[");
    for range in class.ranges() {
        answer.push(before);
        answer.push_char(range.0);
        if range.0 < range.1 {
            answer.push("-");
            answer.push_char(range.1);
        }
        before = " ";
    }
    answer.push("]");
}
