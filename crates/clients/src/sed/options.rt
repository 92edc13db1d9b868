//! What the words of the command line ask for.

/// A pattern, a template, and which matches of a line are replaced.
#[derive(Clone, Copy)]
pub(crate) struct Options<'w> {
    pub(crate) pattern: &'w str,
    pub(crate) template: &'w str,
    pub(crate) case_insensitive: bool,
    pub(crate) all: bool,
}

impl<'w> Options<'w> {
    /// Reads the words after the program's name: words of flags, and then the pattern and the template. The word `--`
    /// ends the flags.
    pub(crate) fn read(words: &'w [String]) -> Option<Options<'w>> {
        let mut options = Options {
            pattern: "",
            template: "",
            case_insensitive: false,
            all: false,
        };
        for (number, word) in words.iter().enumerate() {
            match word.as_str() {
                "--" => return options.with_rest(&words[number + 1..]),
                "-g" => options.all = true,
                "-i" => options.case_insensitive = true,
                "-gi" | "-ig" => {
                    options.all = true;
                    options.case_insensitive = true;
                }
                word if word.len() > 1 && word.starts_with('-') => return None,
                _ => return options.with_rest(&words[number..]),
            }
        }
        None
    }

    // Returns the options with the pattern and the template, if these are all words that are left.
    fn with_rest(self, rest: &'w [String]) -> Option<Options<'w>> {
        match rest {
            [pattern, template] => Some(Options {
                pattern: pattern.as_str(),
                template: template.as_str(),
                ..self
            }),
            _ => None,
        }
    }
}
