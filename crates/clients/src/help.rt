//! What `clients` says of itself.

use bites_filter::help::Help;

pub(crate) static HELP: Help = Help {
    program: "clients",
    summary: "does what lines, sed, fields, routes, tokens and explain do",
    usage: "lines|sed|fields|routes|tokens|explain [WORD..]",
    sections: r"Description:
  Does what the program of this name does with the other words. A copy or a
  link with one of these names is that program, and all words are its own.

  lines    writes the lines in which a pattern matches
  sed      replaces matches in the lines of standard input
  fields   writes the fields of a log as comma-separated values
  routes   writes the route of each path on standard input
  tokens   cuts standard input into tokens by rules
  explain  writes a page that shows a search, place by place

  The word --help after a name says more.

Example:
  $ printf 'one\ntwo\nthree\n' | clients lines -n 't(w|h)'
  2:two
  3:three

Status:
  That of the program of this name, or 2 if there is none.
",
};
