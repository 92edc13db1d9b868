//! What `tokens` says of itself.

use bites_filter::help::Help;

pub(crate) static HELP: Help = Help {
    program: "tokens",
    summary: "cuts standard input into tokens by rules",
    usage: "RULES",
    sections: r"Description:
  Each line of the file RULES is a name, a space and a pattern. Lines that are
  blank or begin with # say nothing. A token is the longest match of any rule
  that begins where the token before it ends, and of several such rules the
  first counts. If no rule matches any byte, the tokens stop, and a line on
  standard error says where: the line and the byte of the input, both counted
  from 1.

  The line of a token has the name of its rule, a tab and its text. In both a
  tab is written as \t, a line feed as \n and a backslash as \\.

  The whole input is held in memory, since a token may be as long as the input.

Example:
  $ printf 'word [a-z]+\nend \\n\n' > rules
  $ printf 'to\nbe\n' | tokens rules | tr '\t' ' '
  word to
  end \n
  word be
  end \n

Status:
  0 if the whole input is cut into tokens or nobody reads the output any more,
  1 if the tokens stop before its end, 2 for a fault, which standard error
  tells.
",
};
