//! What `lines` says of itself.

use bites_filter::help::Help;

pub(crate) static HELP: Help = Help {
    program: "lines",
    summary: "writes the lines in which a pattern matches",
    usage: "[-c] [-i] [-l] [-n] [-o] [-q] [-v] PATTERN [FILE..]",
    sections: r"Description:
  Writes each line of the files in which the pattern matches somewhere. Without
  a file it reads standard input, and so it does for a file -. With several
  files the name of the file and a colon stand before each line. A line that
  ends without a line feed is written with one.

  A carriage return before a line feed belongs to the line: . takes it, $ comes
  after it, and it is written. A pattern that begins with (?R) does not take it
  by ., and one that begins with (?mR) has $ before it too.

Options:
  -c  write only how many lines there are, for each file
  -i  match letters of ASCII in both of their cases
  -l  write only the names of the files that have such a line
  -n  write the number of the line and a colon before each line; the first
      line of a file has number 1
  -o  write each match on a line of its own, but no empty match
  -q  write nothing, and end at the first such line
  -v  select the lines in which the pattern does not match
  --  what follows is the pattern, even if it begins with -

  Of -q, -l, -c and -o the first that is given counts, in this order.

Example:
  $ printf 'one\ntwo\nthree\n' | lines -n 't(w|h)'
  2:two
  3:three

Status:
  0 if there was such a line or nobody reads the output any more, 1 if there
  was none, 2 for a fault, which standard error tells. A file that
  cannot be read is a fault, and the other files are read nevertheless. With -q
  the status is 0 if there was such a line, even after a fault.
",
};
