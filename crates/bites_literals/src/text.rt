//! A text of ASCII that stands in a match.

ghost use Rattle.std.specs.Prelude.{◌≡◌, ◌↔◌, ◌+◌, ◌*◌, ◌<◌, ◌≤◌, ◌||◌, ◌++◌, [], ◌∷◌, length, IsTrue};
ghost use Rattle.bites_scan.specs.Literal.{folding, needle};

use bites_scan::literal::{Literal, MAX_LEN};
use bites_scan::rank::rank;

/// A text of at most 32 bytes. If it is caseless, letters of ASCII count as equal in both cases.
#[derive(Clone, Copy, Drop)]
pub(crate) struct Text {
    bytes: [u8; MAX_LEN],
    len: usize,
    caseless: bool,
    ghost short: { len ≤ 32 },
}

impl Text {
    ghost use Rattle.std.specs.List.{repeat};
    ghost use Rattle.bites_literals.specs.Texts.{EndsWith, FoldsAs, bytes_of};

    /// Returns the empty text.
    pub(crate) fn empty() -> Text
        ensures { bytes_of result ≡ [] }
    {
        Text {
            bytes: [0; MAX_LEN],
            len: 0,
            caseless: false,
        }
    }

    /// Returns the text of one byte.
    pub(crate) fn one(byte: u8, caseless: bool) -> Text
        ensures bytes { bytes_of result ≡ byte ∷ [] }
        ensures caseless { result.caseless ≡ caseless }
    {
        let mut bytes = [0; MAX_LEN];
        bytes[0] = byte;
        Text {
            bytes,
            len: 1,
            caseless,
        }
    }

    /// Returns how many bytes the text has.
    pub(crate) fn len(&self) -> usize
        ensures { result ≡ length (bytes_of self.now) }
    {
        self.len
    }

    /// Returns this text and the next one after it.
    pub(crate) fn followed_by(&self, next: &Text) -> Text
        requires { length (bytes_of self.now) + length (bytes_of next.now) ≤ 32 }
        ensures bytes { bytes_of result ≡ bytes_of self.now ++ bytes_of next.now }
        ensures caseless { result.caseless ≡ (self.now.caseless || next.now.caseless) }
    {
        let mut bytes = self.bytes;
        for k in 0..next.len {
            bytes[self.len + k] = next.bytes[k];
        }
        Text {
            bytes,
            len: self.len + next.len,
            caseless: self.caseless || next.caseless,
        }
    }

    /// Returns whether letters in both cases count as equal in both texts or in none, so that both stand where they stand as one text.
    pub(crate) fn folds_as(&self, next: &Text) -> bool
        ensures { IsTrue result → FoldsAs self.now next.now }
    {
        self.caseless == next.caseless || next.len == 0 && !next.caseless
    }

    /// Returns so many of this text one after another.
    pub(crate) fn repeated(&self, count: u32) -> Text
        requires { count * length (bytes_of self.now) ≤ 32 }
        ensures bytes { bytes_of result ≡ repeat count (bytes_of self.now) }
        ensures caseless { result.caseless ≡ self.now.caseless }
    {
        let mut text = Text::empty();
        for _ in 0..count {
            text = self.followed_by(&text);
        }
        Text {
            bytes: text.bytes,
            len: text.len,
            caseless: self.caseless,
        }
    }

    /// Returns the literal that a haystack is searched for.
    pub(crate) fn literal(&self) -> Literal
        requires { 0 < length (bytes_of self.now) }
        ensures { result ≡ needle (bytes_of self.now) self.now.caseless }
    {
        Literal::new(&self.bytes[..self.len], self.caseless)
    }

    /// Returns whether the haystack ends with the text, from `start` on.
    pub(crate) fn ends(&self, haystack: &[u8], start: usize) -> bool
        requires { start ≤ length haystack.now }
        ensures { IsTrue result ↔ EndsWith self.now.caseless (bytes_of self.now) haystack.now start (length haystack.now) }
    {
        if haystack.len() - start < self.len {
            return false;
        }
        let at = haystack.len() - self.len;
        for k in 0..self.len {
            if self.folded(haystack[at + k]) != self.folded(self.bytes[k]) {
                return false;
            }
        }
        true
    }

    fn folded(&self, byte: u8) -> u8
        ensures { result ≡ folding self.now.caseless byte }
    {
        if self.caseless {
            byte.to_ascii_lowercase()
        } else {
            byte
        }
    }

    /// Returns how often the text's rarest two bytes occur. A byte that stands there twice counts once: where it occurs it often does
    /// so again, as in `/src/` in a path. Only speed depends on it.
    pub(crate) fn cost(&self) -> u32 {
        let (mut first, mut second) = (255, 255);
        let mut rarest = 0;
        for k in 0..self.len {
            let byte = self.folded(self.bytes[k]);
            let own = rank(byte);
            if own < first {
                second = first;
                first = own;
                rarest = byte;
            } else if own < second && byte != rarest {
                second = own;
            }
        }
        first as u32 + second as u32
    }
}
