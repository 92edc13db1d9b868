//! Calls of a searcher, which keeps the cache that its searches need.

ghost use Rattle.std.specs.Prelude.{◌≡◌, ◌↔◌, IsTrue};
ghost use Rattle.bites_spec.specs.Found.{HasMatch};
ghost use Rattle.bites_spec.specs.Utf8.{places};

use regex_bites::Searcher;

/// Returns whether the pattern matches somewhere in the line.
pub fn has_match(pattern: &mut Searcher, line: &str) -> bool
    ensures found { IsTrue result ↔ HasMatch pattern.old.tree line.now (places line.now 0) }
    ensures same { pattern.new ≡ pattern.old }
{
    pattern.is_match(line)
}
