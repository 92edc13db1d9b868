//! The export that finds where a pattern is refused.

ghost use Rattle.std.specs.Prelude.{◌≡◌, ◌↔◌, IsUtf8, chars};
ghost use Rattle.bites_c.specs.Codes.{not_utf8};
ghost use Rattle.bites_c.specs.Errors.{AnswersError};
ghost use Rattle.bites_c.specs.Words.{flags_in};

use crate::codes::{DONE, NO_MEMORY, NOT_UTF8};
use crate::make::syntax_error;
use bites_text::error::number;
use std::alloc::Global;

/// Finds the message that refuses the pattern, and puts the number of bytes before the place that it is about into
/// `offset`. The bits of `flags` are those of [`bites_new`](crate::bites_new).
///
/// Returns 0 if the grammar reads the pattern within `nest_limit`, 1 to 54 for the message, 58 for out of memory, or 102
/// if the pattern is not UTF-8. For 0, 58 and 102 the offset is the greatest number. It is so too for the message of a
/// tree that is too tall, which is about no place.
#[unsafe(no_mangle)]
pub extern "C" fn bites_error_at(
    alloc: Global,
    pattern: &[u8],
    flags: u32,
    nest_limit: u32,
    offset: &mut usize,
) -> u32
    ensures answers { IsUtf8 pattern.now →
        AnswersError (chars pattern.now) (flags_in flags) nest_limit result offset.new }
    ensures utf8 { result ≡ not_utf8 ↔ (IsUtf8 pattern.now → ⊥) }
    ensures none { result ≡ not_utf8 → offset.new ≡ 0xFFFF_FFFF_FFFF_FFFF }
{
    *offset = usize::MAX;
    let Ok(text) = str::from_utf8(pattern) else {
        return NOT_UTF8;
    };
    match syntax_error(alloc, text, flags, nest_limit) {
        Ok(None) => DONE,
        Ok(Some(error)) => {
            *offset = error.offset().unwrap_or(usize::MAX);
            number(*error.error())
        }
        Err(_) => NO_MEMORY,
    }
}
