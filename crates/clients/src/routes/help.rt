//! What `routes` says of itself.

use bites_filter::help::Help;

pub(crate) static HELP: Help = Help {
    program: "routes",
    summary: "writes the route of each path on standard input",
    usage: "TABLE",
    sections: r"Description:
  Each line of the file TABLE is a name, a space and a pattern. Lines that are
  blank or begin with # say nothing. A path is a line of standard input. The
  first route whose pattern matches the whole path serves it.

  The line of a path has the name of its route, and then a tab and its text for
  each group that participates, in the order of their numbers. A path without a
  route has the line -. A path that is not UTF-8 has no route. A carriage
  return before a line feed belongs to the path.

Example:
  $ printf 'user /users/([0-9]+)\nall /.*\n' > table
  $ printf '/users/42\n/a\nx\n' | routes table | tr '\t' ' '
  user 42
  all
  -

Status:
  0 if all paths are read or nobody reads the output any more, 2 for a fault,
  which standard error tells.
",
};
