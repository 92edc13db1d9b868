//! A row of a table as a question.

ghost use Rattle.std.specs.Prelude.{◌≤◌, length, IsCharBoundary};

use crate::call::{Call, Form, Search, call_of};
use crate::escaped::unescaped;
use crate::fault::Fault;
use crate::settings::{Settings, number_or, settings_of};
use std::alloc::Global;
use std::str;

/// How many columns a row has. One more says where its pattern is refused.
const COLUMNS: usize = 12;

/// What a row asks.
pub struct Asked<'r> {
    pub alloc: Global,
    /// The word of the call.
    pub word: &'r str,
    pub call: Call,
    /// How often a call that takes no memory is asked.
    pub times: usize,
    /// Whether the row is asked over texts too.
    pub is_text: bool,
    pub settings: Settings,
    pub pattern: String,
    pub haystack: Vec<u8>,
    /// The offset where a search starts, or a limit, or 0 if the row gives neither.
    pub argument: usize,
    pub template: Vec<u8>,
}

// A caller that drops one relies on this function alone.
impl<'r> Drop for Asked<'r> {
    fn drop(self) {
        let Asked {
            alloc: _,
            word: _,
            call: _,
            times: _,
            is_text: _,
            settings: _,
            pattern: _,
            haystack: _,
            argument: _,
            template: _,
        } = self;
    }
}

/// Reads the columns of a row.
pub fn asked_by<'r>(alloc: Global, columns: &[&'r str], times: usize) -> Result<Asked<'r>, Fault> {
    if columns.len() != COLUMNS && columns.len() != COLUMNS + 1 {
        return Err(Fault::NoRow);
    }
    let call = call_of(columns[1])?;
    let is_text = is_text(columns[2])?;
    let settings = settings_of(columns[3], columns[4], columns[5])?;
    let argument = number_or(0, columns[8])?;
    Ok(Asked {
        alloc,
        word: columns[1],
        call,
        times,
        is_text,
        settings,
        pattern: text_of(alloc, columns[6])?,
        haystack: unescaped(alloc, columns[7])?,
        argument,
        template: unescaped(alloc, columns[9])?,
    })
}

// Returns whether the row is asked over texts too, if the word is a kind.
fn is_text(kind: &str) -> Result<bool, Fault> {
    match kind {
        "bytes" => Ok(false),
        "both" => Ok(true),
        _ => Err(Fault::NoRow),
    }
}

fn text_of(alloc: Global, column: &str) -> Result<String, Fault> {
    match String::from_utf8(unescaped(alloc, column)?) {
        Ok(text) => Ok(text),
        Err(_) => Err(Fault::NoRow),
    }
}

/// What a row asks of one surface. The text is empty unless the surface is over texts. Then the start is between two characters or
/// past the end.
#[derive(Drop)]
pub struct Query<'a> {
    pub alloc: Global,
    /// The word of the call.
    pub call: &'a str,
    pub search: Search,
    /// The first call that asks the search.
    pub form: Form,
    pub settings: Settings,
    pub pattern: &'a str,
    pub bytes: &'a [u8],
    pub text: &'a str,
    pub template: &'a [u8],
    /// The template as a text, or the empty text if it is none.
    pub word: &'a str,
    pub start: usize,
    pub limit: usize,
    /// How often an iterator is asked for an item before all of them are.
    pub times: usize,
    pub ghost border: { start ≤ length text.now → IsCharBoundary text.now start },
}

/// Returns what a row asks over bytes or over texts, if it can be asked so.
pub fn query_of<'a>(
    asked: &'a Asked<'_>,
    settings: Settings,
    search: Search,
    form: Form,
    is_text: bool,
) -> Option<Query<'a>> {
    let bytes = asked.haystack.as_slice();
    let template = asked.template.as_slice();
    let text = if is_text {
        str::from_utf8(bytes).ok()?
    } else {
        ""
    };
    let word = match str::from_utf8(template) {
        Ok(word) => word,
        Err(_) if is_text => return None,
        Err(_) => "",
    };
    let start = if search.has_start() {
        asked.argument
    } else {
        0
    };
    if start <= text.len() && !text.is_char_boundary(start) {
        return None;
    }
    Some(Query {
        alloc: asked.alloc,
        call: asked.word,
        search,
        form,
        settings,
        pattern: asked.pattern.as_str(),
        bytes,
        text,
        template,
        word,
        start,
        limit: asked.argument,
        times: asked.times,
    })
}
