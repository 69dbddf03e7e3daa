//! Levels: 200 may stand in one another.

use super::show::{counted, made_parses};
use super::texts::nested;
use std::alloc::{AllocError, Global};

/// An opening text, a middle, a closing text, and how many levels of it parse.
type Row = (&'static str, &'static str, &'static str, usize);

/// Does the text parse?
fn is_whole(alloc: Global, text: Result<String, AllocError>) -> bool {
    match counted(alloc, text) {
        Some(parts) => parts > 0,
        None => false,
    }
}

/// Does the text with `most` levels parse, and with one more nest too deep?
fn ends_at(alloc: Global, row: &Row) -> bool {
    let (opening, middle, closing, most) = *row;
    let deeper = most.saturating_add(1);
    is_whole(alloc, nested(alloc, "", opening, most, middle, closing))
        && made_parses(
            alloc,
            nested(alloc, "", opening, deeper, middle, closing),
            "nesting too deep",
        )
}

/// The first row that ends at another level.
fn wrong(alloc: Global, rows: &[Row]) -> Option<&'static str> {
    for row in rows {
        if !ends_at(alloc, row) {
            return Some(row.0);
        }
    }
    None
}

static EACH_KIND: [Row; 10] = [
    ("(", "1", ")", 200),
    ("abs(", "1", ")", 200),
    ("max(1, ", "1", ")", 200),
    ("- ", "1", "", 200),
    ("+", "$x", "", 200),
    ("~ ", "1", "", 200),
    ("!", "1", "", 200),
    ("2 ** ", "1", "", 200),
    ("1 ? ", "1", " : 0", 200),
    ("1 ? 0 : ", "1", "", 200),
];

#[test]
fn each_kind(rt: HostRuntime) {
    assert_eq!(rt; wrong(rt.alloc(), &EACH_KIND), None);
}

static INSIDE_OPERANDS: [Row; 9] = [
    ("[set ", "x", "]", 200),
    ("$a(", "x", ")", 200),
    ("(", "[set x]", ")", 199),
    ("(", "$a(x)", ")", 199),
    ("- ", "\"[set x]\"", "", 199),
    ("2 ** ", "$a([set x])", "", 198),
    ("1 ? 0 : ", "[set $a([set x])]", "", 197),
    ("(", "{[set x]}", ")", 200),
    ("(", "$x", ")", 200),
];

#[test]
fn inside_operands(rt: HostRuntime) {
    assert_eq!(rt; wrong(rt.alloc(), &INSIDE_OPERANDS), None);
}

static KINDS_TOGETHER: [Row; 3] = [
    ("-(", "1", ")", 100),
    ("2 ** (1 ? -abs(", "1", ") : 0)", 40),
    ("1 + (", "1", ")", 200),
];

#[test]
fn kinds_together(rt: HostRuntime) {
    assert_eq!(rt; wrong(rt.alloc(), &KINDS_TOGETHER), None);
}

static DEEPEST: [Row; 1] = [("1||1&&1|1^1&1 in 1 eq 1==1<1<<1+1*(", "1", ")**1?1:1", 200)];

/// The deepest tree: in each of 200 parentheses stand a `?:`, an operator of each level and the left operand of `**`.
#[test]
fn deepest(rt: HostRuntime) {
    assert_eq!(rt; wrong(rt.alloc(), &DEEPEST), None);
}

static SIDE_BY_SIDE: [&str; 6] = [
    "(1) + - ",
    "- 1 + ",
    "2 ** 2 + ",
    "abs(1) + ",
    "[a] + ",
    "(1 ? 2 : 3) + ",
];

/// The first part that can't stand 300 times before a number.
fn wrong_part(alloc: Global, parts: &[&'static str]) -> Option<&'static str> {
    for part in parts {
        if !is_whole(alloc, nested(alloc, "", part, 300, "1", "")) {
            return Some(part);
        }
    }
    None
}

/// What has ended is open no more.
#[test]
fn side_by_side(rt: HostRuntime) {
    assert_eq!(rt; wrong_part(rt.alloc(), &SIDE_BY_SIDE), None);
}

static AT_THE_LAST_LEVEL: [(&str, &str); 21] = [
    ("f(1)", "unknown math function \"f\""),
    ("f()", "unknown math function \"f\""),
    ("abs(1)", "nesting too deep"),
    ("abc", "invalid bareword \"abc\""),
    ("* 1", "missing operand"),
    ("1 1", "missing operator"),
    ("1 ? 2", "nesting too deep"),
    ("1 ** (", "nesting too deep"),
    ("{a", "missing close-brace"),
    ("${a", "missing close-brace for variable name"),
    ("[a", "nesting too deep"),
    ("\"[a", "nesting too deep"),
    ("$a(b", "nesting too deep"),
    ("- 1", "nesting too deep"),
    ("", "missing operand"),
    ("1 (", "missing operator"),
    ("1 abs(", "missing operator"),
    ("1 f(", "missing operator"),
    ("1 [", "missing operator"),
    ("1 , 2", "missing operator"),
    ("1 : 2", "missing operator"),
];

/// The first text that is something else in 200 parentheses.
fn wrong_inside(alloc: Global, rows: &[(&'static str, &'static str)]) -> Option<&'static str> {
    for row in rows {
        if !made_parses(alloc, nested(alloc, "", "(", 200, row.0, ")"), row.1) {
            return Some(row.0);
        }
    }
    None
}

/// Of two faults of one token the lower row counts, and a bareword at level 201 is a bareword.
#[test]
fn other_faults_at_the_last_level(rt: HostRuntime) {
    assert_eq!(rt; wrong_inside(rt.alloc(), &AT_THE_LAST_LEVEL), None);
}
