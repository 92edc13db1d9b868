//! What the words of the command line ask for.

/// What is written of the lines that are selected.
#[derive(Clone, Copy)]
pub enum Show {
    /// Each line.
    Lines,
    /// Each match that is not empty, on a line of its own.
    Matches,
    /// How many lines there are.
    Count,
    /// The name of the input, if there is such a line.
    Name,
    /// Nothing.
    Nothing,
}

/// What is written of an input, and what stands before it.
#[derive(Clone, Copy)]
pub struct Format<'n> {
    /// The name of the input.
    pub name: &'n str,
    /// Whether the name and a colon stand before each line.
    pub named: bool,
    /// Whether the number of the line and a colon stand before each line.
    pub numbered: bool,
    /// What is written.
    pub show: Show,
}

/// What the program was asked to do.
#[derive(Drop)]
pub(crate) struct Options<'w> {
    pub(crate) pattern: &'w str,
    pub(crate) files: &'w [String],
    pub(crate) case_insensitive: bool,
    pub(crate) invert: bool,
    pub(crate) numbered: bool,
    pub(crate) show: Show,
}

// The letters of the flags that were given.
#[derive(Clone, Copy)]
struct Flags {
    count: bool,
    case_insensitive: bool,
    name: bool,
    numbered: bool,
    matches: bool,
    quiet: bool,
    invert: bool,
}

impl<'w> Options<'w> {
    /// Reads the words after the program's name: words of flags, then the pattern, then the names of files. The word
    /// `--` ends the flags.
    pub(crate) fn read(words: &'w [String]) -> Option<Options<'w>> {
        let mut flags = Flags {
            count: false,
            case_insensitive: false,
            name: false,
            numbered: false,
            matches: false,
            quiet: false,
            invert: false,
        };
        let mut flags_end = false;
        for (number, word) in words.iter().enumerate() {
            let word = word.as_str();
            if flags_end || word.len() < 2 || !word.starts_with('-') {
                return Some(flags.options(word, &words[number + 1..]));
            }
            if word == "--" {
                flags_end = true;
            } else {
                flags = flags.with_letters(word)?;
            }
        }
        None
    }
}

impl Flags {
    // Returns the flags with the letters of one more word, if each is known.
    fn with_letters(self, word: &str) -> Option<Flags> {
        let mut flags = self;
        for letter in word.bytes().skip(1) {
            match letter {
                b'c' => flags.count = true,
                b'i' => flags.case_insensitive = true,
                b'l' => flags.name = true,
                b'n' => flags.numbered = true,
                b'o' => flags.matches = true,
                b'q' => flags.quiet = true,
                b'v' => flags.invert = true,
                _ => return None,
            }
        }
        Some(flags)
    }

    // Returns the options that these flags stand for, with this pattern and these files.
    fn options<'w>(self, pattern: &'w str, files: &'w [String]) -> Options<'w> {
        Options {
            pattern,
            files,
            case_insensitive: self.case_insensitive,
            invert: self.invert,
            numbered: self.numbered,
            show: self.show(),
        }
    }

    // Returns what is written: of several flags the one that writes least.
    fn show(self) -> Show {
        if self.quiet {
            Show::Nothing
        } else if self.name {
            Show::Name
        } else if self.count {
            Show::Count
        } else if self.matches {
            Show::Matches
        } else {
            Show::Lines
        }
    }
}
