//! The tree of a pattern as JSON.

use super::json::{look_name, write_ranges};
use super::output::Output;
use bites_syntax::tree::{Kind, Name, Tree};

/// Writes the tree.
#[cycle(write_tree)]
pub(crate) fn write_tree(tree: &Tree, out: &mut Output) {
    match tree.kind() {
        Kind::Empty => out.put("{\"kind\":\"empty\""),
        Kind::Char(c) => out.put_character("{\"kind\":\"char\",\"char\":", *c),
        Kind::Class(class) => {
            out.put("{\"kind\":\"class\",\"ranges\":");
            write_ranges(class.ranges(), out);
        }
        Kind::Look(look) => {
            out.put("{\"kind\":\"look\",\"look\":");
            out.put_text(look_name(look));
        }
        Kind::Repetition {
            min,
            max,
            greedy,
            sub,
        } => {
            write_bounds(*min, *max, *greedy, out);
            write_tree(sub, out);
        }
        Kind::Capture { index, name, sub } => {
            write_opening(*index, name.as_ref(), out);
            write_tree(sub, out);
        }
        Kind::Concat(parts) => write_trees("{\"kind\":\"sequence\",\"parts\":[", parts, out),
        Kind::Alternation(parts) => {
            write_trees("{\"kind\":\"alternation\",\"parts\":[", parts, out);
        }
    }
    out.put("}");
}

// Writes the text that begins a list, and the trees of the list.
#[cycle(write_tree)]
fn write_trees(opening: &str, parts: &[Tree], out: &mut Output) {
    out.begin(opening);
    for part in parts {
        out.part();
        write_tree(part, out);
    }
    out.end("]");
}

// Writes a repetition up to its tree.
fn write_bounds(min: u32, max: Option<u32>, greedy: bool, out: &mut Output) {
    out.put_number("{\"kind\":\"repetition\",\"min\":", min as usize);
    match max {
        Some(max) => out.put_number(",\"max\":", max as usize),
        None => out.put(",\"max\":null"),
    }
    out.put_truth(",\"greedy\":", greedy);
    out.put(",\"of\":");
}

// Writes a group up to its tree.
fn write_opening(index: u32, name: Option<&Name>, out: &mut Output) {
    out.put_number("{\"kind\":\"group\",\"number\":", index as usize);
    out.put(",\"name\":");
    match name {
        Some(name) => out.put_text(name.as_str()),
        None => out.put("null"),
    }
    out.put(",\"of\":");
}
