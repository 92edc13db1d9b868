//! What the words of the command line ask for.

use bites_syntax::parse::Flags;

/// What is written.
#[derive(Clone, Copy, Drop)]
pub(crate) enum Form {
    /// A page.
    Page,
    /// The data alone.
    Json,
}

/// The pattern, how it is read, and what is written.
#[derive(Clone, Copy, Drop)]
pub(crate) struct Options<'w> {
    pub(crate) pattern: &'w str,
    pub(crate) flags: Flags,
    /// Whether the longest of the leftmost matches is searched for.
    pub(crate) longest: bool,
    pub(crate) form: Form,
}

impl<'w> Options<'w> {
    /// Reads the words after the program's name: words of flags, then the pattern alone. The word `--` ends the flags.
    pub(crate) fn read(words: &'w [String]) -> Option<Options<'w>> {
        let mut options = Options {
            pattern: "",
            flags: Flags::default(),
            longest: false,
            form: Form::Page,
        };
        let mut flags_end = false;
        for (number, word) in words.iter().enumerate() {
            let word = word.as_str();
            if flags_end || word.len() < 2 || !word.starts_with('-') {
                options.pattern = word;
                return (number + 1 == words.len()).then_some(options);
            }
            match word {
                "--" => flags_end = true,
                "--json" => options.form = Form::Json,
                _ => options = options.with_letters(word)?,
            }
        }
        None
    }

    // Returns the options with the letters of one more word, if each is known.
    fn with_letters(self, word: &str) -> Option<Options<'w>> {
        let mut options = self;
        for letter in word.bytes().skip(1) {
            match letter {
                b'i' => options.flags.case_insensitive = true,
                b'l' => options.longest = true,
                b'm' => options.flags.multi_line = true,
                b'R' => options.flags.crlf = true,
                b's' => options.flags.dot_matches_new_line = true,
                b'U' => options.flags.swap_greed = true,
                b'x' => options.flags.ignore_whitespace = true,
                _ => return None,
            }
        }
        Some(options)
    }
}
