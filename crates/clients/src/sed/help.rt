//! What `sed` says of itself.

use bites_filter::help::Help;

pub(crate) static HELP: Help = Help {
    program: "sed",
    summary: "replaces matches in the lines of standard input",
    usage: "[-g] [-i] PATTERN TEMPLATE",
    sections: r"Description:
  Writes each line of standard input with its first match replaced by what the
  template stands for. A line in which nothing matches is written unchanged.

  In the template $1 and ${1} stand for what the group of that number matched,
  $name and ${name} for what the group of that name matched, and $$ for a $.

  A carriage return before a line feed belongs to the line: . takes it and $
  comes after it. It is the line's last character, and not changed unless the
  match takes it.

  This is not the sed of POSIX: it has no commands.

Options:
  -g  replace all matches of a line
  -i  match letters of ASCII in both of their cases
  --  what follows is the pattern, even if it begins with -

Example:
  $ printf 'a=1, bc=22\n' | sed -g '([a-z]+)=([0-9]+)' '$2=$1'
  1=a, 22=bc

Status:
  0 if all lines are written or nobody reads the output any more, 2 for a
  fault, which standard error tells.
",
};
