//! From where a search has to begin, by the literals of its pattern.

use crate::expect::expect_equal;
use bites_bytes::bytes::RegexBuilder;
use bites_literals::prefilter::{Begin, Prefilter};
use bites_syntax::parse::{Flags, parse};
use bites_text::error::Error;
use std::alloc::Global;
use std::process::Abort;

fn prefilter(alloc: Global, pattern: &str) -> Result<Option<Prefilter>, Error> {
    let tree = parse(alloc, pattern, Flags::default(), 50)?;
    Ok(Prefilter::of(alloc, &tree))
}

/// Returns from where a search has to begin that may begin at `start`, if there is a prefilter and the start lies in the haystack.
/// `with_end` asks where a match ends.
fn begin_of(
    alloc: Global,
    pattern: &str,
    haystack: &[u8],
    start: usize,
    with_end: bool,
) -> Result<Begin, Error> {
    if start > haystack.len() {
        return Err(Error::Memory);
    }
    match prefilter(alloc, pattern)? {
        Some(found) => Ok(found.begin(haystack, start, with_end)),
        None => Err(Error::Memory),
    }
}

/// Compares from where a search of the haystack has to begin.
fn expect_begin(
    rt: &(impl Abort + AllocGlobal),
    pattern: &str,
    haystack: &[u8],
    start: usize,
    wanted: Begin,
) {
    let begin = begin_of(rt.alloc(), pattern, haystack, start, true);
    expect_equal(rt, &begin, &Ok(wanted), pattern);
}

/// Compares from where searches have to begin. Each row has a pattern, a haystack, the start of the search, and from where it has
/// to begin.
fn expect_begins(rt: &(impl Abort + AllocGlobal), rows: &[(&str, &str, usize, Begin)]) {
    for (pattern, haystack, start, begin) in rows {
        expect_begin(rt, pattern, haystack.as_bytes(), *start, *begin);
    }
}

/// All rows were worked out by hand.
#[test]
fn begins_by_hand(rt: HostRuntime) {
    let rows = &[
        (
            "harbour",
            "in the harbour",
            0,
            Begin::Match { start: 7, end: 14 },
        ),
        ("harbour", "in the harbour", 8, Begin::Nowhere),
        ("(?i)k9", "\u{212A}9 K9", 0, Begin::From(5)),
        ("[0-9]{4}-x", "abcdef 2010-x", 0, Begin::From(7)),
        (".-x", "abc-x", 0, Begin::From(0)),
        ("[a-z]+ing", "going\nto sing", 3, Begin::From(9)),
        (".+ing", "going\nto sing", 3, Begin::From(6)),
        ("(?s).+ing", "go\nto sing", 1, Begin::From(1)),
        (r"\bqu(e|i)z?", "-- quiz", 0, Begin::From(3)),
        (r"(\w+)@(\w+)", "a b\nc d@e", 2, Begin::From(6)),
        ("(?:zq){2,}", "zzqzq", 0, Begin::From(1)),
        ("(?:zq){2,}", "zq zqzqzq", 0, Begin::From(3)),
        (
            r"\.{3}",
            "a. b.. c...",
            0,
            Begin::Match { start: 8, end: 11 },
        ),
        ("(?i)x{3}", "xx xXx", 0, Begin::Match { start: 3, end: 6 }),
        (
            "=(?:zq){2}=",
            "=zq=zqzq=",
            0,
            Begin::Match { start: 3, end: 9 },
        ),
        ("(z)((q))", "zzq", 0, Begin::Match { start: 1, end: 3 }),
        (r"zq\b", "zqz zq", 0, Begin::From(0)),
        ("z(?i)q", "zQ ZQ zq", 0, Begin::From(0)),
        ("z{2,3}y", "zy zzzy", 0, Begin::From(3)),
        (
            "z{40}",
            "zzzzzzzzzzzzzzzzzzzzzzzzzzzzzzz",
            0,
            Begin::Nowhere,
        ),
        (
            "z{40}",
            "zzzzzzzzzzzzzzzzzzzzzzzzzzzzzzzz",
            0,
            Begin::From(0),
        ),
        ("é+zq", "aéézq", 0, Begin::From(1)),
        ("^z+q", "a zq", 0, Begin::From(0)),
        (r"(\Az+q)x", "zq zqx", 1, Begin::From(1)),
        ("[ab]*a[ab]{2}c", "abababab", 0, Begin::Nowhere),
        ("[ab]*a[ab]{2}c", "b cabababc", 0, Begin::From(2)),
        (r"fn [a-z]+\(", "a(b) fn x(y)", 0, Begin::From(5)),
        ("fn [a-z]+=", "a=b fn x=y", 0, Begin::From(0)),
        ("mod7[a-z/]*/src/", "x/src/ mod7/src/", 0, Begin::From(7)),
    ];
    expect_begins(&rt, rows);
}

/// Patterns that match at the start of the haystack alone, and there texts of one width alone.
#[test]
fn begins_at_the_one_place_by_hand(rt: HostRuntime) {
    let rows = &[
        ("^zq", "zq a", 0, Begin::Match { start: 0, end: 2 }),
        ("^zq", "a zq", 0, Begin::Nowhere),
        ("^zq", "z", 0, Begin::Nowhere),
        ("^zq", "zqzq", 2, Begin::Nowhere),
        (r"(\Azq)x", "zq zqx", 1, Begin::Nowhere),
        (r"^(\d\d)-x$", "12-x", 0, Begin::Match { start: 0, end: 4 }),
        (r"^(\d\d)-x$", "12-xx", 0, Begin::Nowhere),
        (r"^(\d\d)-x$", "1a-x", 0, Begin::Nowhere),
        (r"^(\d\d)-x$", "12-", 0, Begin::Nowhere),
        (
            "^(?:a[b-d]){2}",
            "acadab",
            0,
            Begin::Match { start: 0, end: 4 },
        ),
        ("^(?:a[b-d]){2}", "acae", 0, Begin::Nowhere),
        ("^", "zq", 0, Begin::Match { start: 0, end: 0 }),
        ("^$", "", 0, Begin::Match { start: 0, end: 0 }),
        ("^$", "z", 0, Begin::Nowhere),
        (
            "^[ -~]{64}",
            "0123456789012345678901234567890123456789012345678901234567890123",
            0,
            Begin::Match { start: 0, end: 64 },
        ),
        (
            "^[ -~]{64}",
            "012345678901234567890123456789012345678901234567890123456789012\n",
            0,
            Begin::Nowhere,
        ),
        ("^(?i:z)q", "Zq", 0, Begin::Match { start: 0, end: 2 }),
        ("^(?i:z)q", "ZQ", 0, Begin::Nowhere),
        ("^zq?", "zq", 0, Begin::From(0)),
        ("^z.q", "z-q", 0, Begin::From(0)),
        (r"^z\b-q", "z-q", 0, Begin::From(0)),
        ("^(?:z|q)x", "zx", 0, Begin::From(0)),
        ("^z$q", "zq", 0, Begin::From(0)),
        ("^é-q", "é-q", 0, Begin::From(0)),
    ];
    expect_begins(&rt, rows);
}

/// Such patterns for texts of 16 bytes and more. Those with one range at each offset compare 16 bytes at once.
#[test]
fn begins_with_sixteen_bytes_and_more_by_hand(rt: HostRuntime) {
    let hit = Begin::Match { start: 0, end: 17 };
    let rows = &[
        ("^[b-y]{17}", "bcdefghijklmnopqy", 0, hit),
        ("^[b-y]{17}", "acdefghijklmnopqy", 0, Begin::Nowhere),
        ("^[b-y]{17}", "bcdefghijklmnopzy", 0, Begin::Nowhere),
        ("^[b-y]{17}", "bcdefghijklmnopqz", 0, Begin::Nowhere),
        ("^[b-y]{17}", "bcdefghijklmnopqa", 0, Begin::Nowhere),
        ("^[b-y]{17}", "bcdefghijklmnopq", 0, Begin::Nowhere),
        ("^[b-y]{17}", "bcdefghijklmnopqyz", 0, hit),
        ("^[b-y]{17}$", "bcdefghijklmnopqyz", 0, Begin::Nowhere),
        ("^[b-y]{17}", "bcdefghijklmnopq\u{E9}", 0, Begin::Nowhere),
        ("^[0-9a-f]{17}", "0123456789abcdef0", 0, hit),
        ("^[0-9a-f]{17}", "012345678:abcdef0", 0, Begin::Nowhere),
        ("^[0-9a-f]{17}", "0123456789abcdefg", 0, Begin::Nowhere),
        (
            "^[0-9]{4}-[0-9]{2}-[0-9]{2}T[0-9]{2}:[0-9]{2}",
            "2010-03-14T12:34:56",
            0,
            Begin::Match { start: 0, end: 16 },
        ),
        (
            "^[0-9]{4}-[0-9]{2}-[0-9]{2}T[0-9]{2}:[0-9]{2}",
            "2010-03-14 12:34:56",
            0,
            Begin::Nowhere,
        ),
        (
            "^[a-c]{15}[d-f]{16}[g-i]{2}",
            "abcabcabcabcabcdefdefdefdefdefdgh",
            0,
            Begin::Match { start: 0, end: 33 },
        ),
        (
            "^[a-c]{15}[d-f]{16}[g-i]{2}",
            "abcabcabcabcabcdefdefdefdefdefdgf",
            0,
            Begin::Nowhere,
        ),
    ];
    expect_begins(&rt, rows);
}

/// Patterns that match at the start of the haystack alone, and end where it does.
#[test]
fn begins_at_the_start_by_the_end_by_hand(rt: HostRuntime) {
    let rows = &[
        ("^[a-z]+-x$", "ab-x", 0, Begin::From(0)),
        ("^[a-z]+-x$", "ab-xy", 0, Begin::Nowhere),
        ("^[a-z]+-x$", "", 0, Begin::Nowhere),
        ("^[a-z]+(?i)-x$", "ab-X", 0, Begin::From(0)),
        ("^.*/src/[a-z]+q$", "/src/abq", 0, Begin::From(0)),
        ("^.*/src/[a-z]+q$", "/src/qb", 0, Begin::Nowhere),
    ];
    expect_begins(&rt, rows);
    let mut haystack = [b'5'; 304];
    expect_begin(&rt, "^[0-9]+zqx[0-9]*5$", &haystack, 0, Begin::From(0));
    haystack[303] = b'6';
    expect_begin(&rt, "^[0-9]+zqx[0-9]*5$", &haystack, 0, Begin::Nowhere);
}

/// Patterns that match at the start of the haystack alone, whose search may go on from there for long. In a short haystack their literal is
/// looked for.
#[test]
fn begins_at_the_start_by_a_literal_by_hand(rt: HostRuntime) {
    let rows = &[
        ("^.*zqx", "a zqx", 0, Begin::From(0)),
        ("^.*zqx", "a zq x", 0, Begin::Nowhere),
        ("^.*zqx", "a\nzqx", 0, Begin::From(2)),
        ("^.*the", "a teh", 0, Begin::Nowhere),
        ("^(?:.*/)?mod7/", "a/mod7/b", 0, Begin::From(0)),
        ("^(?:.*/)?mod7/", "a/mod/7b", 0, Begin::Nowhere),
        ("^(?:/?|.*/)mod7/[^/]*b$", "a/mod7/ab", 0, Begin::From(0)),
        ("^(?:/?|.*/)mod7/[^/]*b$", "a/mod6/ab", 0, Begin::Nowhere),
        ("^(?:/?|.*/)mod7/[^/]*b$", "a/mod7/ba", 0, Begin::Nowhere),
        (r"^\b(?:[ -~]{2,}q)zqx", "a zqx", 0, Begin::From(0)),
        ("^z.*zqx", "z zq", 0, Begin::From(0)),
        ("^[a-z]+zqx", "z zq", 0, Begin::From(0)),
        ("^foo|^bar", "a foo", 0, Begin::From(0)),
        ("(?:^foo|(^b)ar)x", "a foox", 0, Begin::From(0)),
        ("^foo|bar", "a foo bar", 0, Begin::From(2)),
    ];
    expect_begins(&rt, rows);
    let haystack = [b' '; 257];
    expect_begin(&rt, "^.*zqx", &haystack, 0, Begin::From(0));
    expect_begin(&rt, "^.*zqx", &haystack[..256], 0, Begin::Nowhere);
    let haystack = [b'b'; 257];
    let suffixed = "^(?:/?|.*/)mod7/[^/]*b$";
    expect_begin(&rt, suffixed, &haystack, 0, Begin::From(0));
    expect_begin(&rt, suffixed, &haystack[..256], 0, Begin::Nowhere);
}

/// Classes of ASCII, and their greedy repetition of one turn or more.
#[test]
fn begins_with_bytes_of_a_class_by_hand(rt: HostRuntime) {
    let rows = &[
        ("[,;]", "a; b,", 0, Begin::Match { start: 1, end: 2 }),
        ("[,;]", "a; b,", 2, Begin::Match { start: 4, end: 5 }),
        ("[,;]", "a: b", 0, Begin::Nowhere),
        ("[,;]", "", 0, Begin::Nowhere),
        (r"\d", "é12", 0, Begin::Match { start: 2, end: 3 }),
        (" ", "ab c", 0, Begin::Match { start: 2, end: 3 }),
        ("(?i)e", "xE", 0, Begin::Match { start: 1, end: 2 }),
        (r"\d+", "ab 12 345", 0, Begin::Match { start: 3, end: 5 }),
        (r"\d+", "ab 12 345", 4, Begin::Match { start: 4, end: 5 }),
        (r"\d+", "ab 12 345", 5, Begin::Match { start: 6, end: 9 }),
        (r"\d+", "ab", 0, Begin::Nowhere),
        ("[a-c]+", "ébcé", 0, Begin::Match { start: 2, end: 4 }),
        (
            r"\w+",
            "0123456789abcdefghi-",
            0,
            Begin::Match { start: 0, end: 19 },
        ),
    ];
    expect_begins(&rt, rows);
    expect_begin(
        &rt,
        "[a-c]+",
        b"\xE2\x82ab\xFF",
        0,
        Begin::Match { start: 2, end: 4 },
    );
}

/// Where no end is asked for, the first byte of a run is enough. Other patterns begin where they do otherwise.
#[test]
fn begins_without_an_end_by_hand(rt: HostRuntime) {
    for (pattern, haystack, start, begin) in &[
        ("[,;]", "a;; b,", 0, Begin::Match { start: 1, end: 2 }),
        (r"\d+", "ab 345", 0, Begin::Match { start: 3, end: 4 }),
        (r"\d+", "ab 345", 4, Begin::Match { start: 4, end: 5 }),
        (r"\d+", "ab", 0, Begin::Nowhere),
        ("zq+x", "a zqqx", 0, Begin::From(2)),
        ("zqx", "a zqx", 0, Begin::Match { start: 2, end: 5 }),
        ("^zq", "zq a", 0, Begin::Match { start: 0, end: 2 }),
    ] {
        let found = begin_of(rt.alloc(), pattern, haystack.as_bytes(), *start, false);
        expect_equal(&rt, &found, &Ok(*begin), pattern);
    }
}

/// Matches that begin with one of a few texts.
#[test]
fn begins_with_one_of_several_by_hand(rt: HostRuntime) {
    let rows = &[
        (
            "holmes|watson",
            "with watson, holmes",
            0,
            Begin::Match { start: 5, end: 11 },
        ),
        (
            "holmes|watson",
            "holmes and watson",
            1,
            Begin::Match { start: 11, end: 17 },
        ),
        ("holmes|watson", "Holmes, wats on", 0, Begin::Nowhere),
        (
            "(?i)holmes|watson",
            "a WATSON",
            0,
            Begin::Match { start: 2, end: 8 },
        ),
        (
            "(?i)kim|sam",
            "\u{212A}im Sam",
            0,
            Begin::Match { start: 6, end: 9 },
        ),
        ("(zqa|zqb)", "zq zqb", 0, Begin::Match { start: 3, end: 6 }),
        ("zq|zqb", "zq zqb", 0, Begin::From(0)),
        (r"zqa|zq\b", "zqb zqa", 0, Begin::From(0)),
        (
            "zqa|(?i)zqb",
            "ZQB zqb",
            0,
            Begin::Match { start: 0, end: 3 },
        ),
        (
            r"\b(abstract|const|enum|if)\b",
            "x = if const",
            0,
            Begin::From(4),
        ),
        ("(?m)^(?:get|put) ", "for\nput x", 0, Begin::From(4)),
        ("(?m)^(?:get|put) ", "forget", 0, Begin::From(3)),
        ("foo|(?:bar|(bo+z))+x?", "a boar", 0, Begin::From(2)),
        ("(foo|bar){2,}", "a foobar", 0, Begin::From(2)),
        (
            "aaa|bbb|ccc|ddd|eee|fff|ggg|hhh|iii|jjj|kkk|lll|mmm|nnn|ooo|ppp|qqq",
            "gg qqqq",
            0,
            Begin::From(3),
        ),
        ("(error|warn): ", "a: warn: ", 0, Begin::From(3)),
        ("(error|warn)@host", "error warn@host", 0, Begin::From(5)),
        (r"(?:foo|bar).*$", "xx foo bar", 0, Begin::From(3)),
        (r"(?:foo|bar).*$", "foo\nx bar", 0, Begin::From(4)),
        (r"(?:foo|bar).*$", "fo ba", 0, Begin::Nowhere),
    ];
    expect_begins(&rt, rows);
    expect_begin(
        &rt,
        "foo|bar",
        b"\xE2\x82bar",
        0,
        Begin::Match { start: 2, end: 5 },
    );
}

/// Matches that end at the end of the haystack.
#[test]
fn begins_near_the_end_by_hand(rt: HostRuntime) {
    let rows = &[
        (r"[0-9]{4}\z", "abc 2010", 0, Begin::From(4)),
        (r"\d{4}$", "abcdefghijklmnopqrstuvwxyz", 0, Begin::From(22)),
        (
            "[à-ü]{2}$",
            "abcdefghijklmnopqrstuvwxyz",
            0,
            Begin::From(18),
        ),
        ("[a-c]{3}$", "", 0, Begin::From(0)),
        ("[a-c]{9}$", "abc", 0, Begin::From(0)),
        ("[a-c]{3}$", "abcabc", 2, Begin::From(3)),
        ("[a-c]{3}$", "abcabc", 5, Begin::From(5)),
        ("[a-c]{3}$", "abcabc", 6, Begin::From(6)),
        ("é$", "aaéé", 0, Begin::From(2)),
        ("é$", "aaéé", 2, Begin::From(2)),
        ("[a-b]$|([c-d]e){2}$", "abcdabcd", 0, Begin::From(4)),
        (r"([a-c]$)\b", "abc", 0, Begin::From(2)),
        ("[a-z]+$", "one\ntwo", 0, Begin::From(4)),
        ("[a-z]+$", "one two", 0, Begin::From(4)),
        ("[a-z]+$", "one two ", 3, Begin::From(8)),
        ("[a-z]+$", "", 0, Begin::From(0)),
        (".+$", "one two\nthree four", 0, Begin::From(8)),
        (r"\s+$", "a b  ", 0, Begin::From(3)),
        ("[^/]+$", "usr/lib/é", 0, Begin::From(8)),
        ("[^/]+$", "usr/lib/é", 9, Begin::From(9)),
        (r"[a-z]+\.(?:com|org)$", "a.com b.org", 0, Begin::From(6)),
        ("harbour$", "harbour in the harbour", 0, Begin::From(15)),
        ("harbour$", "in the harbour.", 0, Begin::Nowhere),
        (r"[a-z]+\.com$", "a.com b.com", 0, Begin::From(6)),
        (r"[a-z]+\.com$", "a.com b.org", 0, Begin::Nowhere),
        (r"(?i)\.com$", "a.COM", 0, Begin::From(1)),
        (r"(?i)\.com$", "a.CO", 0, Begin::Nowhere),
        (r"\.com$", "a.com", 1, Begin::From(1)),
        (r"\.com$", "a.com", 3, Begin::Nowhere),
        (r"\.com$", "", 0, Begin::Nowhere),
        (".*x+z$", "b xz\nb xxz", 0, Begin::From(5)),
        (".*x+z$", "b xz\nb yz", 0, Begin::Nowhere),
        ("(?:xz)*$", "axzxz", 0, Begin::From(1)),
        ("(?:xz){2,}$", "axzxz", 0, Begin::From(1)),
        ("(?:xz){2,}$", "axzxy", 0, Begin::Nowhere),
        ("(?s).+ing$", "go\nsing", 1, Begin::From(1)),
        ("(?s).+ing$", "sing\ngo", 0, Begin::Nowhere),
        ("(foo|bar)$", "foobar", 0, Begin::From(3)),
        ("[0-9]+ [0-9]{3} ms$", "took 12 345 ms", 0, Begin::From(4)),
        ("z[0-9]+$", "ab 0123", 0, Begin::From(3)),
        ("z[ab ]+$", "za b", 0, Begin::From(0)),
        ("zqx[0-9]+$", "abc 12", 0, Begin::Nowhere),
    ];
    expect_begins(&rt, rows);
    expect_begin(&rt, "[a-c]$", b"abc\xFF\x80", 0, Begin::From(3));
    expect_begin(&rt, "[a-c]$", b"\xE2\x82", 1, Begin::From(1));
}

/// Matches that end at the end of the haystack and may hold 256 bytes or more before it. Then their literal is looked for too.
#[test]
fn begins_far_from_the_end_by_hand(rt: HostRuntime) {
    let mut haystack = [b'5'; 304];
    haystack[0] = b'a';
    expect_begin(&rt, "zqx[0-9]+$", &haystack, 0, Begin::Nowhere);
    haystack[1] = b'z';
    haystack[2] = b'q';
    haystack[3] = b'x';
    expect_begin(&rt, "zqx[0-9]+$", &haystack, 0, Begin::From(1));
    expect_begin(&rt, "zqx[0-9]+$", &haystack, 2, Begin::Nowhere);
    haystack[20] = b'z';
    haystack[21] = b'q';
    haystack[22] = b'x';
    expect_begin(&rt, "zqx[0-9]+$", &haystack, 2, Begin::From(20));
}

fn has_prefilter(alloc: Global, pattern: &str) -> Result<bool, Error> {
    Ok(prefilter(alloc, pattern)?.is_some())
}

/// Patterns without a literal that each match holds, or with a common one alone, whose matches do not all end at the end.
#[test]
fn has_none(rt: HostRuntime) {
    for pattern in &[
        "",
        "a|b",
        "[a-c]+?",
        "[a-c]{2,}",
        "([a-c]+)",
        "[^a-c]",
        "(abc)?",
        "(abc){0,2}",
        "é",
        " +",
        r"^\b$",
        "foo|b",
        "aaa|bbb|ccc|ddd|eee|fff|ggg|hhh|iii|jjj|kkk|lll|mmm|nnn|ooo|ppp|qq",
        "foo|bar|",
        "foo|[ab]c",
        r"foo|\d*bar",
        r"\d*(foo|bar)",
        r"(\w)(?:foo|bar)",
        "foo|(?:bar|b+o*z)+",
        "(foo|bar)?",
        "(foo|bar)*",
        "foo|é",
        "(?m)[a-c]$",
        "(?mR)[a-c]$",
        "$|[a-c]",
        "[a-c]$|[d-f]",
        "([a-c]$)?",
        "(?s).+$",
        "^[a-c]+$",
        "^.*e",
    ] {
        expect_equal(
            &rt,
            &has_prefilter(rt.alloc(), pattern),
            &Ok(false),
            pattern,
        );
    }
}

fn candidate_of(
    alloc: Global,
    pattern: &str,
    haystack: &[u8],
    start: usize,
) -> Result<Option<usize>, Error> {
    let mut builder = RegexBuilder::new(alloc, pattern)?;
    let regex = builder.prefilter(true).build()?;
    Ok(regex.find_candidate_at(haystack, start))
}

/// Where a line may match, by the literals of a pattern. Each row has a pattern, a haystack, a start and the offset. All were worked
/// out by hand.
#[test]
fn candidates_by_hand(rt: HostRuntime) {
    for (pattern, haystack, start, candidate) in &[
        ("^Mary$", "Tom\nMary\n", 0, Some(4)),
        ("^Mary$", "Tom\nMary\n", 5, None),
        ("^Mary$", "Mary", 5, None),
        ("[0-9]+ ms", "took 12 s\ntook 7 ms\n", 0, Some(16)),
        ("(?i)mary", "Tom\nMARY\n", 0, Some(4)),
        ("holmes|watson", "a\nb watson\n", 0, Some(4)),
        ("^[a-z]", "Tom\nMary\n", 2, Some(2)),
        ("(foo|bar)[0-9]*$", "a\nx bar\n", 0, Some(4)),
        ("[a-z]+ing$", "sing\nsong\n", 1, Some(1)),
        ("[0-9]", "Tom\n7\n", 0, Some(4)),
        ("[0-9]+", "Tom\n77\n", 5, Some(5)),
        ("[0-9]+", "Tom\nSue\n", 0, None),
        ("^foo|^bar", "a\nb bar\n", 0, Some(4)),
        ("^foo|^bar", "a\nb\n", 0, None),
    ] {
        let found = candidate_of(rt.alloc(), pattern, haystack.as_bytes(), *start);
        expect_equal(&rt, &found, &Ok(*candidate), pattern);
    }
}
