//! A line of a log in the common log format, and its fields.

use bites_filter::extract::extract_full_bytes;
use regex_bites::{Error, Regex, Searcher};
use std::alloc::{AllocError, Global};
use std::marker::Model;

/// The pattern of a whole line. No field contains a quote, so each can stand between quotes.
pub const PATTERN: &str =
    r#"(?<host>[^ "]+) (?<ident>[^ "]+) (?<user>[^ "]+) \[(?<time>[^\]"]+)\] "(?<request>[^"]*)" (?<status>[0-9]+) (?<size>[0-9-]+)"#;

/// A reader of entries.
#[derive(Drop)]
pub struct Log {
    searcher: Searcher,
}

impl Model for Log {
    ghost use Rattle.std.specs.Coded.{codes};
    ghost use Rattle.std.specs.Prelude.{◌≡◌, false};
    ghost use Rattle.bites_syntax.specs.TreeCode.{tree_code};
    ghost use Rattle.bites_spec.specs.Regex as spec;
    ghost use Rattle.clients.specs.Entry.{entry_tree};

    ghost Value = { spec.Regex };

    ghost coded = { Prim.hlevel (codes, tree_code) };

    ghost view = { λ a. a.searcher };

    ghost invariant = { λ a. (a.searcher.tree ≡ entry_tree) × (a.searcher.keep_dropped_groups ≡ false) };
}

impl Log {
    ghost use Rattle.std.specs.Prelude.{◌≡◌, length, map, IfOk};
    ghost use Rattle.bites_filter.specs.Parts.{ExtractsBytes};
    ghost use Rattle.clients.specs.Entry.{entry_tree};

    /// Makes a reader. The error is out of memory, since the pattern is accepted.
    pub fn new(alloc: Global) -> Result<Log, Error> {
        bites_spec::literal_is_read();
        let regex = Regex::new(alloc, PATTERN)?;
        let searcher = Searcher::new(regex)?;
        Ok(Log { searcher })
    }

    /// Fills `into` with the seven fields of the line in the order of the pattern, if the line has the format. Returns
    /// whether it has. The error is out of memory.
    pub fn entry<'h>(&mut self, line: &'h [u8], into: &mut [&'h str; 7]) -> Result<bool, AllocError>
        ensures found { IfOk result (λ found.
            ExtractsBytes entry_tree line.now found (map (λ field. field.now) into.new)) }
        ensures seven { length (map (λ field. field.now) into.new) ≡ 7 }
    {
        extract_full_bytes(&mut self.searcher, line, into)
    }
}
