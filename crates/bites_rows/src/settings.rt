//! Flags, switches and limits of a build.

use crate::fault::Fault;
use bites_bytes::bytes;
use bites_syntax::parse::Flags;
use regex_bites::{Error, Regex, RegexBuilder};
use std::alloc::Global;

/// The limits if a row gives none, which are those of the builder.
const SIZE_LIMIT: usize = 10485760;

const NEST_LIMIT: usize = 50;

const DFA_SIZE_LIMIT: usize = 1048576;

/// How a search is made.
pub struct Limit {
    pub name: &'static str,
    /// The limit on the bytes of its table.
    pub bytes: usize,
    /// Whether it looks for a literal first.
    pub prefilter: bool,
}

/// The default, with a literal.
pub const ONE_LIMIT: &[Limit] = &[Limit {
    name: "",
    bytes: DFA_SIZE_LIMIT,
    prefilter: true,
}];

/// The default, no table, and tables that mostly are parts, with a literal and without one.
pub const ALL_LIMITS: &[Limit] = &[
    Limit {
        name: "",
        bytes: DFA_SIZE_LIMIT,
        prefilter: true,
    },
    Limit {
        name: "without a literal ",
        bytes: DFA_SIZE_LIMIT,
        prefilter: false,
    },
    Limit {
        name: "without a table ",
        bytes: 0,
        prefilter: false,
    },
    Limit {
        name: "by a literal and without a table ",
        bytes: 0,
        prefilter: true,
    },
    Limit {
        name: "with a table of 64 bytes ",
        bytes: 64,
        prefilter: false,
    },
    Limit {
        name: "with a table of 512 bytes ",
        bytes: 512,
        prefilter: true,
    },
    Limit {
        name: "with a table of 4096 bytes ",
        bytes: 4096,
        prefilter: false,
    },
];

/// The letters that may stand in the column of flags.
const LETTERS: &str = "-imsURxLK";

/// The call that builds a regex.
#[derive(Clone, Copy)]
pub enum Maker {
    Build,
    IntoRegex,
    New,
}

/// What a regex is built with.
#[derive(Clone, Copy)]
pub struct Settings {
    pub maker: Maker,
    /// Whether the flags and limits are those that a new builder has.
    pub are_default: bool,
    pub flags: Flags,
    pub leftmost_longest: bool,
    pub keep_dropped_groups: bool,
    pub size_limit: usize,
    pub nest_limit: u32,
    pub dfa_size_limit: usize,
    pub prefilter: bool,
}

/// Reads the settings from the three columns of a row.
pub fn settings_of(letters: &str, size: &str, nest: &str) -> Result<Settings, Fault> {
    let flags = flags_of(letters)?;
    let size_limit = number_or(SIZE_LIMIT, size)?;
    let nest_limit = number_or(NEST_LIMIT, nest)?;
    Ok(Settings {
        maker: Maker::Build,
        are_default: letters == "-" && size == "-" && nest == "-",
        flags,
        leftmost_longest: letters.contains('L'),
        keep_dropped_groups: letters.contains('K'),
        size_limit,
        nest_limit: u32::try_from(nest_limit).unwrap_or(u32::MAX),
        dfa_size_limit: DFA_SIZE_LIMIT,
        prefilter: false,
    })
}

/// Returns the number in a column, or `other` for a dash.
pub fn number_or(other: usize, column: &str) -> Result<usize, Fault> {
    if column == "-" {
        return Ok(other);
    }
    match column.parse() {
        Ok(number) => Ok(number),
        Err(_) => Err(Fault::NoRow),
    }
}

// Returns the flags with these letters, if all are known.
fn flags_of(letters: &str) -> Result<Flags, Fault> {
    for letter in letters.chars() {
        if !LETTERS.contains(letter) {
            return Err(Fault::NoRow);
        }
    }
    Ok(Flags {
        case_insensitive: letters.contains('i'),
        multi_line: letters.contains('m'),
        dot_matches_new_line: letters.contains('s'),
        crlf: letters.contains('R'),
        swap_greed: letters.contains('U'),
        ignore_whitespace: letters.contains('x'),
    })
}

impl Settings {
    /// Builds a regex over bytes with these settings.
    pub fn bytes(&self, alloc: Global, pattern: &str) -> Result<bytes::Regex, Error> {
        match self.maker {
            Maker::New => bytes::Regex::new(alloc, pattern),
            Maker::Build => self.bytes_builder(alloc, pattern)?.build(),
            Maker::IntoRegex => self.bytes_builder(alloc, pattern)?.into_regex(),
        }
    }

    /// Makes a builder over bytes with these settings.
    pub fn bytes_builder(
        &self,
        alloc: Global,
        pattern: &str,
    ) -> Result<bytes::RegexBuilder, Error> {
        let flags = &self.flags;
        let mut builder = bytes::RegexBuilder::new(alloc, pattern)?;
        builder
            .case_insensitive(flags.case_insensitive)
            .multi_line(flags.multi_line)
            .dot_matches_new_line(flags.dot_matches_new_line)
            .crlf(flags.crlf)
            .swap_greed(flags.swap_greed)
            .ignore_whitespace(flags.ignore_whitespace)
            .leftmost_longest(self.leftmost_longest)
            .keep_dropped_groups(self.keep_dropped_groups)
            .size_limit(self.size_limit)
            .nest_limit(self.nest_limit)
            .dfa_size_limit(self.dfa_size_limit)
            .prefilter(self.prefilter);
        Ok(builder)
    }

    /// Builds a regex over texts with these settings.
    pub fn texts(&self, alloc: Global, pattern: &str) -> Result<Regex, Error> {
        match self.maker {
            Maker::New => Regex::new(alloc, pattern),
            _ => self.texts_builder(alloc, pattern)?.build(),
        }
    }

    /// Makes a builder over texts with these settings.
    pub fn texts_builder(&self, alloc: Global, pattern: &str) -> Result<RegexBuilder, Error> {
        let flags = &self.flags;
        let mut builder = RegexBuilder::new(alloc, pattern)?;
        builder
            .case_insensitive(flags.case_insensitive)
            .multi_line(flags.multi_line)
            .dot_matches_new_line(flags.dot_matches_new_line)
            .crlf(flags.crlf)
            .swap_greed(flags.swap_greed)
            .ignore_whitespace(flags.ignore_whitespace)
            .leftmost_longest(self.leftmost_longest)
            .keep_dropped_groups(self.keep_dropped_groups)
            .size_limit(self.size_limit)
            .nest_limit(self.nest_limit)
            .dfa_size_limit(self.dfa_size_limit)
            .prefilter(self.prefilter);
        Ok(builder)
    }
}
