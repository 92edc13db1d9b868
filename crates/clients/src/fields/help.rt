//! What `fields` says of itself.

use bites_filter::help::Help;

pub(crate) static HELP: Help = Help {
    program: "fields",
    summary: "writes the fields of a log as comma-separated values",
    usage: "< LOG > CSV",
    sections: r#"Description:
  Reads a log in the common log format from standard input. Each line that has
  the format is written as its seven fields, each between quotes: host,
  identity, user, time, request, status and size. Each other line is reported
  on standard error by its number; the first line has number 1. So is a line
  that ends with a carriage return.

Example:
  $ printf '::1 - ann [1/May/2000] "GET /" 200 35\n' | fields
  "::1","-","ann","1/May/2000","GET /","200","35"

Status:
  0 if all lines have the format or nobody reads the output any more, 1 if some
  do not, 2 for a fault, which is one line on standard error.
"#,
};
