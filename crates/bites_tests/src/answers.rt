//! What each word of the program `bites` writes, and the status.

use crate::words::expect_answers;

#[test]
fn is_answers_match_or_none(rt: HostRuntime) {
    expect_answers(
        &rt,
        &[
            ("is b", b"abc", 0, "match\n"),
            ("is b", b"xyz", 1, "none\n"),
            ("is x", b"ab", 1, "none\n"),
            ("is a(?:b|c)+d", b"xxabcbd", 0, "match\n"),
            ("is .", b"\xFF", 0, "match\n"),
            ("is ", b"", 0, "match\n"),
        ],
    );
}

#[test]
fn find_writes_a_line_for_each_match(rt: HostRuntime) {
    expect_answers(
        &rt,
        &[
            ("find ", b"\xE2\x98\x83", 0, "0..0\n3..3\n"),
            ("find ", b"\xE2\x98\xF0", 0, "0..0\n2..2\n3..3\n"),
            ("find a*", b"baac", 0, "0..0\n1..3\n4..4\n"),
            ("find .", b"\xE2\x98\xF0", 0, "0..2\n2..3\n"),
            ("find .", b"\xFF", 0, "0..1\n"),
            ("find (?mR)$", b"a\r\nb", 0, "1..1\n4..4\n"),
            ("find (?mR)^", b"a\r\nb", 0, "0..0\n3..3\n"),
            ("find |a", b"a", 0, "0..0\n1..1\n"),
            ("find x", b"ab", 1, ""),
        ],
    );
}

#[test]
fn captures_writes_the_groups_of_each_match(rt: HostRuntime) {
    expect_answers(
        &rt,
        &[
            ("captures (a)|(b)", b"ab", 0, "0..1 0..1 -\n1..2 - 1..2\n"),
            (
                r"captures (\d{4})-(\d{2})-(\d{2})",
                b"\nOn 2010-03-14, foo happened. On 2014-10-14, bar happened.\n",
                0,
                "4..14 4..8 9..11 12..14\n33..43 33..37 38..40 41..43\n",
            ),
            ("captures (?:(a)|(b))+", b"ab", 0, "0..2 0..1 1..2\n"),
            ("captures a", b"ba", 0, "1..2\n"),
            ("captures (a)", b"x", 1, ""),
        ],
    );
}

#[test]
fn split_writes_a_line_for_each_piece(rt: HostRuntime) {
    expect_answers(
        &rt,
        &[
            ("split ,", b"a,b", 0, "0..1\n2..3\n"),
            ("split ,", b"a,b,c", 0, "0..1\n2..3\n4..5\n"),
            ("split x", b"ab", 1, "0..2\n"),
            ("split ,", b"", 1, "0..0\n"),
            ("split ", b"", 0, "0..0\n0..0\n"),
            ("split ", b"ab", 0, "0..0\n0..1\n1..2\n2..2\n"),
        ],
    );
}

#[test]
fn replace_writes_the_replaced_haystack_alone(rt: HostRuntime) {
    expect_answers(
        &rt,
        &[
            ("replace a <$0>", b"banana", 0, "b<a>n<a>n<a>"),
            ("replace x <$0>", b"banana", 1, "banana"),
            ("replace x y", b"", 1, ""),
            ("replace  -", b"\xE2\x98\x83", 0, "-☃-"),
            ("replace a $$$0", b"a", 0, "$a"),
            ("replace a $+1", b"a", 0, "$+1"),
            ("replace a a$", b"a", 0, "a$"),
            ("replace a ${1", b"a", 0, "${1"),
            ("replace a ${+}", b"a", 0, ""),
            ("replace a $00", b"a", 0, "a"),
        ],
    );
}
