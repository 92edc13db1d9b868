//! The flags in force at an offset of a pattern.

ghost use Rattle.std.specs.Prelude.{◌≡◌, ◌==◌, [], codes, true, if◌then◌else◌, MatchResult, OnOk};
ghost use Rattle.bites_spec.specs.Group.{changed, is_flag_mark, put_flag};
ghost use Rattle.bites_spec.specs.Pattern.{Front, dash, one_of};
ghost use Rattle.bites_spec.specs.Reader.{flags_from};
ghost use Rattle.bites_syntax.specs.FlagsView.{flags_of};
ghost use Rattle.bites_syntax.specs.Groups.{ends_flags};
ghost use Rattle.bites_syntax.specs.Parts.{IsFaultOf, ReadsOn};

use crate::cursor::Cursor;
use crate::refusal::Refusal;
use bites_text::error::Error;
use std::alloc::Global;

/// The flags under which a pattern is read.
#[derive(Clone, Copy, Debug, Default, PartialEq, Eq)]
pub struct Flags {
    /// An ASCII letter matches in both of its cases.
    pub case_insensitive: bool,
    /// `^` and `$` match at the ends of each line too.
    pub multi_line: bool,
    /// `.` matches every character. Without this flag it doesn't match LF, and with `crlf` not CR either.
    pub dot_matches_new_line: bool,
    /// CR and CR LF end lines as LF does, for `^` and `$` with `multi_line` and for `.`.
    pub crlf: bool,
    /// `*` is lazy and `*?` is greedy.
    pub swap_greed: bool,
    /// White space and comments between the parts of a pattern mean nothing.
    pub ignore_whitespace: bool,
}

/// Returns the flags with the flag of the letter `c` set or cleared.
fn put_flag(on: bool, c: char, flags: Flags) -> Flags
    ensures { flags_of result ≡ put_flag on c (flags_of flags) }
{
    let mut flags = flags;
    match c {
        'i' => flags.case_insensitive = on,
        'm' => flags.multi_line = on,
        's' => flags.dot_matches_new_line = on,
        'U' => flags.swap_greed = on,
        'R' => flags.crlf = on,
        'x' => flags.ignore_whitespace = on,
        _ => {}
    }
    flags
}

/// Returns the flags after a run of flag letters. A letter before the dash sets its flag, and one after it clears its
/// flag.
pub(crate) fn changed(run: &[char], flags: Flags) -> Flags
    ensures { flags_of result ≡ changed true run.now (flags_of flags) }
{
    let mut on = true;
    let mut flags = flags;
    for c in run {
        flags = put_flag(on, *c, flags);
        on = on && *c != '-';
    }
    flags
}

/// Returns whether the character is a flag letter or the dash between them.
fn is_flag_mark(c: char) -> bool
    ensures { result ≡ is_flag_mark c }
{
    matches!(c, 'i' | 'm' | 's' | 'U' | 'R' | 'u' | 'x' | '-')
}

fn ends_run(c: char) -> bool
    ensures { result ≡ one_of (codes ":)") c }
{
    c == ':' || c == ')'
}

/// Reads flag letters and a dash, up to the character that ends them or to the end of the pattern.
pub(crate) fn flag_run(alloc: Global, cursor: &mut Cursor<'_>) -> Result<Vec<char>, Refusal>
    ensures run { ReadsOn cursor.old cursor.new (MatchResult result
        (λ run. (front : Front) →
        flags_from front [] cursor.old ≡ flags_from front run.items cursor.new)
        (λ e. (front : Front) → IsFaultOf e (flags_from front [] cursor.old))) }
    ensures ends { OnOk result (ends_flags cursor.new ≡ true) }
{
    let mut run = Vec::new(alloc);
    while let Some(c) = cursor.peek() {
        if ends_run(c) {
            break;
        }
        if !is_flag_mark(c) {
            return Err(cursor.fault(Error::UnrecognizedFlag));
        }
        if run.contains(&c) {
            return Err(cursor.fault(duplicate_error(c)));
        }
        run.push(c)?;
        cursor.bump();
    }
    Ok(run)
}

/// Returns the error of a letter or dash that comes a second time.
fn duplicate_error(c: char) -> Error
    ensures { result ≡ (if c == dash then Error.RepeatedNegation else Error.DuplicateFlag) }
{
    if c == '-' {
        Error::RepeatedNegation
    } else {
        Error::DuplicateFlag
    }
}
