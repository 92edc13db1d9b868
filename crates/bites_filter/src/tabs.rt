//! The groups of a match, each after a tab.

ghost use Rattle.std.specs.Prelude.{option_map, IfOk};
ghost use Rattle.std.specs.Io.KnownBytes.{Appends};
ghost use Rattle.regex_bites.specs.Matched.{excerpt_of};
ghost use Rattle.bites_filter.specs.Tabs.{tabbed, tabbed_groups};

use regex_bites::{Captures, Match};
use std::io::{self, Write};

/// Writes a tab and its text for each group that participates, from group 1 on, in the order of their numbers.
pub fn write_groups<W: Write>(groups: &Captures<'_>, out: &mut W) -> io::Result<()>
    ensures { IfOk result (λ _. Appends (W.contents out.old) (W.contents out.new)
        (tabbed_groups groups.now.haystack groups.now.slots)) }
{
    for group in 1..groups.len() {
        write_group(groups.get(group), out)?;
    }
    Ok(())
}

// Writes a tab and the text of the group, if it participates.
fn write_group<W: Write>(group: Option<Match<'_>>, out: &mut W) -> io::Result<()>
    ensures { IfOk result (λ _. Appends (W.contents out.old) (W.contents out.new)
        (tabbed (option_map excerpt_of group.entry))) }
{
    if let Some(found) = group {
        out.write_all(b"\t")?;
        out.write_all(found.as_str().as_bytes())?;
    }
    Ok(())
}
