//! Patterns: what they match, as string(n) says.
use tcl_glob::glob_match;

/// The pattern of the first row that matches its text, or that doesn't, against what is said of all rows.
fn wrong(rows: &[(&'static str, &'static str)], matches: bool) -> Option<&'static str> {
    for row in rows {
        let (pattern, text) = *row;
        if glob_match(pattern, text) != matches {
            return Some(pattern);
        }
    }
    None
}

static MATCH: [(&str, &str); 13] = [
    ("", ""),
    ("*", ""),
    ("a*c", "abbc"),
    ("*b*", "abc"),
    ("a*b*c", "abXbc"),
    ("?", "中"),
    (r"\*", "*"),
    (r"\a", "a"),
    ("[a-c]x", "bx"),
    ("[c-a]", "b"),
    ("[xyz]", "y"),
    (r"[z-a]*\?", "m?"),
    ("*.tcl", "a.b.tcl"),
];

#[test]
fn texts_that_match(rt: HostRuntime) {
    assert_eq!(rt; wrong(&MATCH, true), None);
}

static NO_MATCH: [(&str, &str); 10] = [
    ("", "a"),
    ("?", ""),
    ("?", "ab"),
    ("a*c", "abcd"),
    (r"\*", "a"),
    ("[a-c]", "d"),
    ("[]", "a"),
    ("A", "a"),
    ("*a*ab", "aba"),
    (
        "*a*a*a*a*a*a*a*a*a*a*a*a*a*a*a*a*a*a*a*a*a*a*a*a*a*a*a*a*a*ab",
        "aaaaaaaaaaaaaaaaaaaaaaaaaaaaaaaaaaaaaaaaaaaaaaaaaaaaaaaaaaaa",
    ),
];

#[test]
fn texts_that_do_not_match(rt: HostRuntime) {
    assert_eq!(rt; wrong(&NO_MATCH, false), None);
}
