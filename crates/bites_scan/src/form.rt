//! The cheapest test for a set of bytes.

ghost use Rattle.std.specs.Prelude.{◌≡◌, ℕ, ◌+◌, ◌≤◌, ◌<◌, if◌then◌else◌, length};
ghost use Rattle.std.specs.Int.{bit_at};
ghost use Rattle.bites_scan.specs.Forms.{Agree, form_stops};
ghost use Rattle.bites_scan.specs.Halves.{nibbles_stop};
ghost use Rattle.bites_scan.specs.Stops.{AreWords, IsFirstStop, IsLastStop};

use crate::first_stop::first_stop;
use crate::lanes::{load, mask_of_four};
use crate::last_stop::behind_last_stop;
use crate::nibbles::Nibbles;
use crate::stops::{CyclicRange, OneByte, Stops, ThreeBytes};

/// All bytes, in order.
const BYTES: [u8; 256] = [
    0, 1, 2, 3, 4, 5, 6, 7, 8, 9, 10, 11, 12, 13, 14, 15, 16, 17, 18, 19, 20, 21, 22, 23, 24, 25,
    26, 27, 28, 29, 30, 31, 32, 33, 34, 35, 36, 37, 38, 39, 40, 41, 42, 43, 44, 45, 46, 47, 48, 49,
    50, 51, 52, 53, 54, 55, 56, 57, 58, 59, 60, 61, 62, 63, 64, 65, 66, 67, 68, 69, 70, 71, 72, 73,
    74, 75, 76, 77, 78, 79, 80, 81, 82, 83, 84, 85, 86, 87, 88, 89, 90, 91, 92, 93, 94, 95, 96, 97,
    98, 99, 100, 101, 102, 103, 104, 105, 106, 107, 108, 109, 110, 111, 112, 113, 114, 115, 116,
    117, 118, 119, 120, 121, 122, 123, 124, 125, 126, 127, 128, 129, 130, 131, 132, 133, 134, 135,
    136, 137, 138, 139, 140, 141, 142, 143, 144, 145, 146, 147, 148, 149, 150, 151, 152, 153, 154,
    155, 156, 157, 158, 159, 160, 161, 162, 163, 164, 165, 166, 167, 168, 169, 170, 171, 172, 173,
    174, 175, 176, 177, 178, 179, 180, 181, 182, 183, 184, 185, 186, 187, 188, 189, 190, 191, 192,
    193, 194, 195, 196, 197, 198, 199, 200, 201, 202, 203, 204, 205, 206, 207, 208, 209, 210, 211,
    212, 213, 214, 215, 216, 217, 218, 219, 220, 221, 222, 223, 224, 225, 226, 227, 228, 229, 230,
    231, 232, 233, 234, 235, 236, 237, 238, 239, 240, 241, 242, 243, 244, 245, 246, 247, 248, 249,
    250, 251, 252, 253, 254, 255,
];

/// The bytes at which a search stops: none, one, up to three, a range, or any others.
#[derive(Clone, Copy, Drop)]
pub(crate) enum Form {
    Never,
    One(OneByte),
    Three(ThreeBytes),
    Range(CyclicRange),
    Many(Nibbles),
}

impl Form {
    /// Returns a form that stops at the same bytes, with a bit for each of them. What is guessed is tested, so the guess needs no contract.
    pub(crate) fn of(set: Nibbles) -> (Form, [u64; 4])
        ensures form { Agree (form_stops result.0) (nibbles_stop set) }
        ensures words { AreWords (form_stops result.0) result.1 }
    {
        let exact = Form::Many(set);
        let words = exact.words();
        let guess = guess_of(words);
        if guess.words() != words {
            return (exact, words);
        }
        (guess, words)
    }

    /// Returns the first offset from `from` on whose byte is in the set, or the length of the haystack.
    #[inline(always)]
    pub(crate) fn first_stop(&self, haystack: &[u8], from: usize) -> usize
        requires { from ≤ length haystack.now }
        ensures { IsFirstStop (form_stops self.now) haystack.now from result }
    {
        match self {
            Form::Never => haystack.len(),
            Form::One(set) => first_stop(set, haystack, from),
            Form::Three(set) => first_stop(set, haystack, from),
            Form::Range(set) => first_stop(set, haystack, from),
            Form::Many(set) => first_stop(set, haystack, from),
        }
    }

    /// Returns the offset behind the last byte from `start` up to `end` that is in the set, or `start`.
    pub(crate) fn behind_last_stop(&self, haystack: &[u8], start: usize, end: usize) -> usize
        requires ordered { start ≤ end }
        requires within { end ≤ length haystack.now }
        ensures { IsLastStop (form_stops self.now) haystack.now start end result }
    {
        match self {
            Form::Never => start,
            Form::One(set) => behind_last_stop(set, haystack, start, end),
            Form::Three(set) => behind_last_stop(set, haystack, start, end),
            Form::Range(set) => behind_last_stop(set, haystack, start, end),
            Form::Many(set) => behind_last_stop(set, haystack, start, end),
        }
    }

    /// Returns a bit for each byte that is in the set.
    fn words(&self) -> [u64; 4]
        ensures { AreWords (form_stops self.now) result }
    {
        match self {
            Form::Never => [0; 4],
            Form::One(set) => words_of(set),
            Form::Three(set) => words_of(set),
            Form::Range(set) => words_of(set),
            Form::Many(set) => words_of(set),
        }
    }
}

/// Returns a bit for each byte that is in the set.
fn words_of<S: Stops>(set: &S) -> [u64; 4]
    ensures { AreWords (S.stops set.now) result }
{
    [word(set, 0), word(set, 64), word(set, 128), word(set, 192)]
}

/// Returns a bit for each of the 64 bytes from `first` on that is in the set.
fn word<S: Stops>(set: &S, first: usize) -> u64
    requires { first + 64 ≤ 256 }
    ensures { (k : ℕ) → k < 64 → bit_at result k ≡ (if S.stops set.now (first + k) then 1 else 0) }
{
    mask_of_four(
        set.lanes(load(&BYTES, first)),
        set.lanes(load(&BYTES, first + 16)),
        set.lanes(load(&BYTES, first + 32)),
        set.lanes(load(&BYTES, first + 48)),
    )
}

/// Returns a form that may stop at these bytes.
fn guess_of(words: [u64; 4]) -> Form {
    let mut count = 0;
    for word in &words {
        count += word.count_ones().min(64);
    }
    let first = lowest(&words);
    match count {
        0 => Form::Never,
        1 => Form::One(OneByte { byte: first }),
        2 | 3 => Form::Three(ThreeBytes {
            a: first,
            b: lowest(&without(words, first)),
            c: highest(&words),
        }),
        _ => Form::Range(CyclicRange {
            first: if words[0] & 1 == 1 {
                // The range may go on from 255 to 0: then it begins behind the last byte that is not in it.
                highest(&turned(words)).wrapping_add(1)
            } else {
                first
            },
            more: (count - 1).min(255) as u8,
        }),
    }
}

/// Returns the least byte whose bit is set, or 255.
fn lowest(words: &[u64; 4]) -> u8 {
    for k in 0..4usize {
        if words[k] != 0 {
            return (64 * k as u32 + words[k].trailing_zeros()).min(255) as u8;
        }
    }
    255
}

/// Returns the greatest byte whose bit is set, or 255.
fn highest(words: &[u64; 4]) -> u8 {
    for k in 0..4usize {
        if words[3 - k] != 0 {
            return (255 - 64 * k as u32 - words[3 - k].leading_zeros().min(63)) as u8;
        }
    }
    255
}

/// Clears the bit of a byte.
fn without(mut words: [u64; 4], byte: u8) -> [u64; 4] {
    words[(byte / 64) as usize] &= !(1 << (byte % 64));
    words
}

/// Turns each bit.
fn turned(words: [u64; 4]) -> [u64; 4] {
    [!words[0], !words[1], !words[2], !words[3]]
}
