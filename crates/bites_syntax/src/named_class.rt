//! Classes of characters that have a name.

ghost use Rattle.std.specs.Prelude.{◌≡◌, ℕ};
ghost use Rattle.bites_spec.specs.Range.{in_ranges};
ghost use Rattle.bites_spec.specs.Class.{AreCanonical, Lists, complement, members, class_name};
ghost use Rattle.bites_syntax.specs.View.{named_of};

/// A class of ASCII characters that has a name: those of POSIX, and `word`.
#[derive(Clone, Copy, PartialEq, Eq, Debug)]
pub enum NamedClass {
    Alnum,
    Alpha,
    Ascii,
    Blank,
    Cntrl,
    Digit,
    Graph,
    Lower,
    Print,
    Punct,
    Space,
    Upper,
    Word,
    Xdigit,
}

impl NamedClass {
    /// All named classes.
    pub const ALL: [NamedClass; 14] = [
        NamedClass::Alnum,
        NamedClass::Alpha,
        NamedClass::Ascii,
        NamedClass::Blank,
        NamedClass::Cntrl,
        NamedClass::Digit,
        NamedClass::Graph,
        NamedClass::Lower,
        NamedClass::Print,
        NamedClass::Punct,
        NamedClass::Space,
        NamedClass::Upper,
        NamedClass::Word,
        NamedClass::Xdigit,
    ];

    /// Returns the name of the class as a pattern writes it.
    pub fn name(self) -> &'static str
        ensures { result.now ≡ class_name (named_of self) }
    {
        match self {
            NamedClass::Alnum => "alnum",
            NamedClass::Alpha => "alpha",
            NamedClass::Ascii => "ascii",
            NamedClass::Blank => "blank",
            NamedClass::Cntrl => "cntrl",
            NamedClass::Digit => "digit",
            NamedClass::Graph => "graph",
            NamedClass::Lower => "lower",
            NamedClass::Print => "print",
            NamedClass::Punct => "punct",
            NamedClass::Space => "space",
            NamedClass::Upper => "upper",
            NamedClass::Word => "word",
            NamedClass::Xdigit => "xdigit",
        }
    }

    /// Returns the canonical ranges of the class.
    pub fn ranges(self) -> &'static [(char, char)]
        ensures canonical { AreCanonical result.now }
        ensures members { (c : ℕ) → in_ranges result.now c ≡ members (named_of self) c }
    {
        match self {
            NamedClass::Alnum => &[('0', '9'), ('A', 'Z'), ('a', 'z')],
            NamedClass::Alpha => &[('A', 'Z'), ('a', 'z')],
            NamedClass::Ascii => &[('\0', '\x7F')],
            NamedClass::Blank => &[('\t', '\t'), (' ', ' ')],
            NamedClass::Cntrl => &[('\0', '\x1F'), ('\x7F', '\x7F')],
            NamedClass::Digit => &[('0', '9')],
            NamedClass::Graph => &[('!', '~')],
            NamedClass::Lower => &[('a', 'z')],
            NamedClass::Print => &[(' ', '~')],
            NamedClass::Punct => &[('!', '/'), (':', '@'), ('[', '`'), ('{', '~')],
            NamedClass::Space => &[('\t', '\r'), (' ', ' ')],
            NamedClass::Upper => &[('A', 'Z')],
            NamedClass::Word => &[('0', '9'), ('A', 'Z'), ('_', '_'), ('a', 'z')],
            NamedClass::Xdigit => &[('0', '9'), ('A', 'F'), ('a', 'f')],
        }
    }

    /// Returns the canonical ranges of all characters that are not in the class.
    pub fn others(self) -> &'static [(char, char)]
        ensures { Lists result.now (complement (members (named_of self))) }
    {
        match self {
            NamedClass::Alnum => &[('\0', '/'), (':', '@'), ('[', '`'), ('{', char::MAX)],
            NamedClass::Alpha => &[('\0', '@'), ('[', '`'), ('{', char::MAX)],
            NamedClass::Ascii => &[('\u{80}', char::MAX)],
            NamedClass::Blank => &[('\0', '\x08'), ('\n', '\x1F'), ('!', char::MAX)],
            NamedClass::Cntrl => &[(' ', '~'), ('\u{80}', char::MAX)],
            NamedClass::Digit => &[('\0', '/'), (':', char::MAX)],
            NamedClass::Graph => &[('\0', ' '), ('\x7F', char::MAX)],
            NamedClass::Lower => &[('\0', '`'), ('{', char::MAX)],
            NamedClass::Print => &[('\0', '\x1F'), ('\x7F', char::MAX)],
            NamedClass::Punct => &[
                ('\0', ' '),
                ('0', '9'),
                ('A', 'Z'),
                ('a', 'z'),
                ('\x7F', char::MAX),
            ],
            NamedClass::Space => &[('\0', '\x08'), ('\x0E', '\x1F'), ('!', char::MAX)],
            NamedClass::Upper => &[('\0', '@'), ('[', char::MAX)],
            NamedClass::Word => &[
                ('\0', '/'),
                (':', '@'),
                ('[', '^'),
                ('`', '`'),
                ('{', char::MAX),
            ],
            NamedClass::Xdigit => &[('\0', '/'), (':', '@'), ('G', '`'), ('g', char::MAX)],
        }
    }
}
