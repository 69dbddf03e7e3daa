//! Texts that are no expressions: each row of the table, alone and in competition with another.

use super::show::{other, place, wrong};
use std::alloc::Global;

static NOTHING_AT_ALL: [(&str, &str); 2] = [
    ("", "empty expression"),
    (" \n\t ", "empty expression"),
];

#[test]
fn nothing_at_all(rt: HostRuntime) {
    assert_eq!(rt; wrong(rt.alloc(), &NOTHING_AT_ALL), None);
}

static BAREWORDS: [(&str, &str); 22] = [
    ("08 + 1", "invalid bareword \"08\""),
    ("-08", "invalid bareword \"-08\""),
    ("abc", "invalid bareword \"abc\""),
    ("1 + abs", "invalid bareword \"abs\""),
    ("1.5", "invalid bareword \"1.5\""),
    (".5", "invalid bareword \".5\""),
    ("-1e5", "invalid bareword \"-1e5\""),
    ("o", "invalid bareword \"o\""),
    ("eq", "invalid bareword \"eq\""),
    ("1 + ne 2", "invalid bareword \"ne\""),
    ("_f(1)", "invalid bareword \"_f\""),
    ("$", "invalid bareword \"$\""),
    ("$ a", "invalid bareword \"$\""),
    ("@x", "invalid bareword \"@\""),
    ("= 1", "invalid bareword \"=\""),
    ("1 + ]", "invalid bareword \"]\""),
    ("é", "invalid bareword \"é\""),
    ("(\\n", "invalid bareword \"\\\""),
    ("08(1)", "invalid bareword \"08\""),
    ("3.(", "invalid bareword \"3.\""),
    ("$\"a", "invalid bareword \"$\""),
    ("max(1, $ [", "invalid bareword \"$\""),
];

#[test]
fn barewords(rt: HostRuntime) {
    assert_eq!(rt; wrong(rt.alloc(), &BAREWORDS), None);
}

static MISSING_OPERANDS: [&str; 31] = [
    "1 +",
    "* 1",
    "1 + * 2",
    "()",
    "(",
    "1 + )",
    "?",
    "1 ? : 2",
    "1 ? 2 :",
    "abs(1,)",
    "abs(,1)",
    "!=1",
    "-",
    "1 ** ",
    "&& 1",
    "max(1,",
    "!",
    "1 ? ",
    "(1 ? )",
    "max(1 ? , 2)",
    "1 ? 2 : )",
    "max(1 + )",
    "max(- )",
    "min(",
    "(1 + ",
    ", 1",
    ": 1",
    ") 1",
    "** 2",
    "1 *** 2",
    "1 << < 2",
];

#[test]
fn missing_operands(rt: HostRuntime) {
    assert_eq!(rt;
        other(rt.alloc(), &MISSING_OPERANDS, "missing operand"),
        None
    );
}

static MISSING_OPERATORS: [&str; 38] = [
    "1 2",
    "1 (2)",
    "1 abc",
    "1 @",
    "1 = 2",
    "1 ! 2",
    "1 ~2",
    "1 eq5",
    "1 {2}",
    "1 [",
    "{a}\"",
    "1, 2",
    "(1, 2)",
    "max((1, 2))",
    "1 : 2",
    "(1 : 2)",
    "1 ? (2 : 3)",
    "1 ? 2",
    "1 ? 2)",
    "(1 ? 2)",
    "(1 ? 2",
    "max(1 ? 2, 3)",
    "abs(1, 2 ? 3)",
    "1 ? 2 : 3 : 4",
    "5(1)",
    "$a b",
    "1 f(2)",
    "1 abs()",
    "1 $",
    "1 \"a",
    "1 $a(",
    "1 ! = 2",
    "1 = = 2",
    "1 ? 2, 3",
    "abs(1 ? 2)",
    "((1 ? 2)",
    "1 ? (2 : 3) : 4",
    "(1, 2",
];

#[test]
fn missing_operators(rt: HostRuntime) {
    assert_eq!(rt;
        other(rt.alloc(), &MISSING_OPERATORS, "missing operator"),
        None
    );
}

static PARENTHESES: [&str; 8] = [
    "(1",
    "1)",
    "((1)",
    "(1))",
    "max(1, 2",
    "1 ? 2 : 3)",
    "1 ? (2",
    "abs(1, 2",
];

#[test]
fn parentheses(rt: HostRuntime) {
    assert_eq!(rt;
        other(rt.alloc(), &PARENTHESES, "unbalanced parentheses"),
        None
    );
}

static FUNCTIONS: [(&str, &str); 14] = [
    ("f(1)", "unknown math function \"f\""),
    ("true(1)", "unknown math function \"true\""),
    ("eq (1)", "unknown math function \"eq\""),
    ("a.b(", "unknown math function \"a.b\""),
    ("Abs(1)", "unknown math function \"Abs\""),
    ("f()", "unknown math function \"f\""),
    ("f(", "unknown math function \"f\""),
    ("1 + f ({", "unknown math function \"f\""),
    ("abs()", "too few arguments for math function \"abs\""),
    ("max( )", "too few arguments for math function \"max\""),
    ("1 + int()", "too few arguments for math function \"int\""),
    ("abs(1,2)", "too many arguments for math function \"abs\""),
    (
        "wide(1, 2, 3)",
        "too many arguments for math function \"wide\"",
    ),
    (
        "bool(1, 2)",
        "too many arguments for math function \"bool\"",
    ),
];

#[test]
fn functions(rt: HostRuntime) {
    assert_eq!(rt; wrong(rt.alloc(), &FUNCTIONS), None);
}

static FAULTS_INSIDE_OPERANDS: [(&str, &str); 7] = [
    ("{a", "missing close-brace"),
    ("1 + \"a", "missing \""),
    ("[a", "missing close-bracket"),
    ("$a(b", "missing )"),
    ("${a", "missing close-brace for variable name"),
    ("[a {b}c]", "extra characters after close-brace"),
    ("[a \"b\"c]", "extra characters after close-quote"),
];

#[test]
fn faults_inside_operands(rt: HostRuntime) {
    assert_eq!(rt; wrong(rt.alloc(), &FAULTS_INSIDE_OPERANDS), None);
}

static THE_FIRST_TOKEN_COUNTS: [(&str, &str); 9] = [
    ("abc + {", "invalid bareword \"abc\""),
    ("1 2 )", "missing operator"),
    ("1 + ) 2 3", "missing operand"),
    ("f(abc", "unknown math function \"f\""),
    (
        "abs(1, 2) abc",
        "too many arguments for math function \"abs\"",
    ),
    ("{a} {b", "missing operator"),
    ("[a) + )", "missing close-bracket"),
    ("(1 + 2 * abc", "invalid bareword \"abc\""),
    ("1) + ", "unbalanced parentheses"),
];

#[test]
fn the_first_token_counts(rt: HostRuntime) {
    assert_eq!(rt; wrong(rt.alloc(), &THE_FIRST_TOKEN_COUNTS), None);
}

static EXAMPLES_OF_THE_MANUAL: [(&str, &str); 11] = [
    ("8.2 + 6", "invalid bareword \"8.2\""),
    ("3.1 + $a", "invalid bareword \"3.1\""),
    ("5 / 4.0", "invalid bareword \"4.0\""),
    (
        "5 / ( [string length \"abcd\"] + 0.0 )",
        "invalid bareword \"0.0\"",
    ),
    ("20.0/5.0", "invalid bareword \"20.0\""),
    ("sin($x+$y)", "unknown math function \"sin\""),
    ("hypot($x,$y)", "unknown math function \"hypot\""),
    (
        " ($x**2 - $y**2) / exp($x**2 + $y**2) ",
        "unknown math function \"exp\"",
    ),
    (" $radius * cos($angle) ", "unknown math function \"cos\""),
    (" atan2($y, $x) ", "unknown math function \"atan2\""),
    (" int(100 * rand()) ", "unknown math function \"rand\""),
];

/// The examples of expr(n) that are no whole numbers, or call functions on others.
#[test]
fn examples_of_the_manual(rt: HostRuntime) {
    assert_eq!(rt; wrong(rt.alloc(), &EXAMPLES_OF_THE_MANUAL), None);
}

static PLACES: [(&str, usize, usize); 7] = [
    ("abc", 0, 3),
    ("{é} + -08", 7, 10),
    ("1 + @", 4, 5),
    ("1 + é", 4, 6),
    (" ff (1)", 1, 3),
    ("max(1, abs( ))", 7, 10),
    ("$é", 0, 1),
];

/// The first text whose fault names another place.
fn other_place(alloc: Global, rows: &[(&'static str, usize, usize)]) -> Option<&'static str> {
    for row in rows {
        if place(alloc, row.0) != Some((row.1, row.2)) {
            return Some(row.0);
        }
    }
    None
}

#[test]
fn places_of_names(rt: HostRuntime) {
    assert_eq!(rt; other_place(rt.alloc(), &PLACES), None);
}
