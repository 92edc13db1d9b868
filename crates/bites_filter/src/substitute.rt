//! Byte strings with their matches replaced by a template.

ghost use Rattle.std.specs.Prelude.{◌≡◌, IfOk};
ghost use Rattle.std.specs.Cow.{cow_slice_items};
ghost use Rattle.bites_spec.specs.Found.{NoMatch};
ghost use Rattle.bites_spec.specs.Utf8.{places};
ghost use Rattle.bites_filter.specs.Substituted.{Substitutes};

use bites_bytes::bytes::Searcher;
use std::alloc::AllocError;
use std::borrow::CowSlice;

/// Returns the haystack with its first `limit` matches replaced by what the template stands for, or all of them for 0.
/// The error is out of memory.
pub fn substitute<'h>(
    searcher: &mut Searcher,
    haystack: &'h [u8],
    limit: usize,
    template: &[u8],
) -> Result<CowSlice<'h, u8>, AllocError>
    ensures substitutes { IfOk result (λ r.
        Substitutes searcher.old template.now limit haystack.now (cow_slice_items r)) }
    ensures unchanged { IfOk result (λ r.
        NoMatch searcher.old.tree haystack.now (places haystack.now 0) → cow_slice_items r ≡ haystack.now) }
    ensures same { searcher.new ≡ searcher.old }
{
    // What the proof takes from here: that the regex is compiled, and four laws.
    searcher.regex().as_str();
    bites_spec::groups_are_successive();
    bites_spec::captures_are_matches();
    bites_spec::none_is_left_out();
    bites_spec::templates_have_one_text();
    let replaced = searcher.replacen(haystack, limit, template)?;
    Ok(replaced)
}
