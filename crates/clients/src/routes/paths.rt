//! The routes of the paths of an input. The first route whose pattern matches a whole path serves it.

ghost use Rattle.std.specs.Prelude.{ℕ, List, IfOk, IfSome, OnOk};
ghost use Rattle.std.specs.Io.KnownBytes.{Appends};
ghost use Rattle.bites_filter.specs.Lines.{lines_of};
ghost use Rattle.clients.specs.Served.{served_line, AreServed};

use bites_filter::fault::Fault;
use bites_filter::lines::{LineTask, each_line, without_line_feed};
use bites_filter::tabs::write_groups;
use bites_filter::text_table::TextTable;
use regex_bites::Captures;
use std::alloc::Global;
use std::io::{self, BufRead, Write};

/// The routes of a table, in its order.
#[derive(Drop)]
pub struct Router {
    pub routes: TextTable,
}

impl LineTask for Router {
    ghost use Rattle.bites_filter.specs.Lines.{WritesLine};
    ghost use Rattle.clients.specs.Served.{IsServed};

    ghost does = { WritesLine (λ s. s.routes) IsServed };

    fn line<W: Write>(&mut self, _number: u64, line: &[u8], out: &mut W) -> io::Result<bool> {
        let Some(served) = self.routes.first_full(without_line_feed(line))? else {
            out.write_all(b"-\n")?;
            return Ok(true);
        };
        write_served(self.routes.name(served.rule), &served.groups, out)?;
        Ok(true)
    }
}

// Writes the name of the route that serves a path, and the groups of the match.
fn write_served<W: Write>(name: &str, groups: &Captures<'_>, out: &mut W) -> io::Result<()>
    ensures { IfOk result (λ _. Appends (W.contents out.old) (W.contents out.new)
        (served_line name.now groups.now.haystack groups.now.slots)) }
{
    out.write_all(name.as_bytes())?;
    write_groups(groups, out)?;
    out.write_all(b"\n")
}

/// Writes a line for each path of the input: the name of its route, and a tab and its text for each group that
/// participates. A path without a route has the line `-`, and a path that is not UTF-8 has no route. After a fault,
/// what was written before it stays.
pub fn write_routes<R: BufRead, W: Write>(
    alloc: Global,
    router: &mut Router,
    input: &mut R,
    out: &mut W,
) -> Result<(), Fault>
    ensures { OnOk result (IfSome (R.Read.remaining input.old) (λ bytes. (text : List ℕ)
        × AreServed router.old.routes (lines_of bytes) text
        × Appends (W.contents out.old) (W.contents out.new) text)) }
{
    each_line(alloc, router, input, out)?;
    Ok(())
}
