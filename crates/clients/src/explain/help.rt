//! What `explain` says of itself.

use bites_filter::help::Help;

pub(crate) static HELP: Help = Help {
    program: "explain",
    summary: "writes a page that shows a search, place by place",
    usage: "[-i] [-l] [-m] [-R] [-s] [-U] [-x] [--json] PATTERN",
    sections: r#"Description:
  Reads the haystack from standard input, at most 65536 bytes. Searches it for
  the pattern until nothing matches any more. Writes a page of HTML with the
  pattern, its tree and its program, and the haystack with the matches and
  their groups. It steps from place to place, with the threads in order of
  preference, their slots, the states that are visited, and what is found. The
  page needs no other file and no network. It shows only the first places if
  there are very many.

  A pattern that is refused is shown with the message.

Options:
  -i      match letters of ASCII in both of their cases
  -l      search for the longest of the leftmost matches
  -m      ^ and $ match at the ends of each line too
  -R      carriage returns end lines too
  -s      . matches line feeds too
  -U      repetitions are lazy, and greedy with a ? after the operator
  -x      white space and comments in the pattern mean nothing
  --json  write the data of the page alone, as JSON (docs/EXPLAIN.md)
  --      what follows is the pattern, even if it begins with -

Example:
  $ printf 'b' | explain --json 'a)'
  {"pattern":"a)",
  "flags":{"i":false,"l":false,"m":false,"R":false,"s":false,"U":false,"x":false},
  "fault":{"message":"found closing \u0027)\u0027 without matching \u0027(\u0027","offset":1}}

Status:
  0 if the pattern is accepted or nobody reads the output any more, 1 if the
  pattern is refused, 2 for a fault, which is one line on standard error.
"#,
};
