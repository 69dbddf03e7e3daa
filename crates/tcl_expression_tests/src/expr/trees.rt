//! Texts that are expressions. The trees are those of the table of operators in expr(n).

use super::show::{made_parses, wrong};
use super::texts::filled;
use std::alloc::{AllocError, Global};

static OPERANDS: [(&str, &str); 20] = [
    ("1", "1"),
    (" \t\n 0x1F \r\u{b}\u{c}", "0x1F"),
    ("010", "010"),
    ("0b101", "0b101"),
    ("0o17", "0o17"),
    ("99999999999999999999999", "99999999999999999999999"),
    ("-9223372036854775808", "-9223372036854775808"),
    ("- 9223372036854775808", "(- 9223372036854775808)"),
    ("-$x", "(- $x)"),
    ("+5", "(+ 5)"),
    ("true", "true"),
    ("oFF", "oFF"),
    ("n", "n"),
    ("$a", "$a"),
    ("${a b}", "${a b}"),
    ("$a(x y)", "$a(x y)"),
    ("\"a $b [c d] \\n\"", "\"a $b [c d] \\n\""),
    ("{a {b} \\}}", "{a {b} \\}}"),
    ("[llength \"6 2\"]", "[llength \"6 2\"]"),
    ("$::x", "$::x"),
];

#[test]
fn operands(rt: HostRuntime) {
    assert_eq!(rt; wrong(rt.alloc(), &OPERANDS), None);
}

static EXAMPLES_OF_THE_MANUAL: [(&str, &str); 19] = [
    ("31 + $a", "(31 + $a)"),
    ("2 + \"$a.$b\"", "(2 + \"$a.$b\")"),
    ("4*[llength \"6 2\"]", "(4 * [llength \"6 2\"])"),
    ("{word one} < \"word $a\"", "({word one} < \"word $a\")"),
    ("-57 / 10", "(-57 / 10)"),
    ("-57 % 10", "(-57 % 10)"),
    ("4*2 < 7", "((4 * 2) < 7)"),
    ("2**3**2", "(2 ** (3 ** 2))"),
    ("$v?[a]:[b]", "($v ? [a] : [b])"),
    ("5 / 4", "(5 / 4)"),
    (
        "5 / ( [string length \"abcd\"] + 0 )",
        "(5 / (([string length \"abcd\"] + 0)))",
    ),
    ("\"0x03\" > \"2\"", "(\"0x03\" > \"2\")"),
    ("\"0y\" > \"0x12\"", "(\"0y\" > \"0x12\")"),
    ("[expr $b] * 4", "([expr $b] * 4)"),
    ("$a + 2*4", "($a + (2 * 4))"),
    (
        "$a eq $b ? {equal} : {different}",
        "(($a eq $b) ? {equal} : {different})",
    ),
    (
        " ($x**2 - $y**2) / max($x**2 + $y**2) ",
        "(((($x ** 2) - ($y ** 2))) / max((($x ** 2) + ($y ** 2))))",
    ),
    (
        "[info exists ::env(SOME_ENV_VAR)] &&\n [string is true -strict $::env(SOME_ENV_VAR)]",
        "([info exists ::env(SOME_ENV_VAR)] && [string is true -strict $::env(SOME_ENV_VAR)])",
    ),
    (
        "[tcl::mathfunc::sin [expr {$x+$y}]]",
        "[tcl::mathfunc::sin [expr {$x+$y}]]",
    ),
];

#[test]
fn examples_of_the_manual(rt: HostRuntime) {
    assert_eq!(rt; wrong(rt.alloc(), &EXAMPLES_OF_THE_MANUAL), None);
}

static GROUPING: [(&str, &str); 26] = [
    ("1 - 2 - 3", "((1 - 2) - 3)"),
    ("1-2-3", "((1 - 2) - 3)"),
    ("1 - -2", "(1 - -2)"),
    ("1--2", "(1 - -2)"),
    ("8 / 2 * 2 % 3", "(((8 / 2) * 2) % 3)"),
    ("-2 ** 2", "(-2 ** 2)"),
    ("- 2 ** 2", "((- 2) ** 2)"),
    ("2 ** - 1", "(2 ** (- 1))"),
    ("!2 ** 2", "((! 2) ** 2)"),
    ("~2 ** 2", "((~ 2) ** 2)"),
    ("+ 2 ** 2", "((+ 2) ** 2)"),
    ("2 ** ! 2 ** 3", "(2 ** ((! 2) ** 3))"),
    ("2 ** ~ 2 ** +3", "(2 ** ((~ 2) ** (+ 3)))"),
    (
        "1 ** 2 ? 3 ** 4 : 5 ** 6",
        "((1 ** 2) ? (3 ** 4) : (5 ** 6))",
    ),
    ("- 1 ? - 2 : - 3", "((- 1) ? (- 2) : (- 3))"),
    ("!~- +1", "(! (~ (- (+ 1))))"),
    ("! !1", "(! (! 1))"),
    ("1 ? 2 : 3 ? 4 : 5", "(1 ? 2 : (3 ? 4 : 5))"),
    ("1 ? 2 ? 3 : 4 : 5", "(1 ? (2 ? 3 : 4) : 5)"),
    (
        "1 || 2 ? 3 || 4 : 5 || 6",
        "((1 || 2) ? (3 || 4) : (5 || 6))",
    ),
    ("1 + (2 ? 3 : 4) + 5", "((1 + ((2 ? 3 : 4))) + 5)"),
    ("((1))", "((1))"),
    ("1 == 2 != 3", "((1 == 2) != 3)"),
    ("1eq 2", "invalid bareword \"1eq\""),
    ("\"a\"eq{b}", "(\"a\" eq {b})"),
    ("$a in$b", "($a in $b)"),
];

#[test]
fn grouping(rt: HostRuntime) {
    assert_eq!(rt; wrong(rt.alloc(), &GROUPING), None);
}

static CALLS: [(&str, &str); 9] = [
    ("abs(-1)", "abs(-1)"),
    ("bool (1)", "bool(1)"),
    ("int\n(1)", "int(1)"),
    ("wide( 1 )", "wide(1)"),
    ("max(1)", "max(1)"),
    ("max(1, 0x3, 2)", "max(1, 0x3, 2)"),
    (
        "min(1 ? 2 : 3, (4), 5 + 6)",
        "min((1 ? 2 : 3), (4), (5 + 6))",
    ),
    ("- max(1,2) ** 2", "((- max(1, 2)) ** 2)"),
    ("max(max(1),min(2))", "max(max(1), min(2))"),
];

#[test]
fn calls(rt: HostRuntime) {
    assert_eq!(rt; wrong(rt.alloc(), &CALLS), None);
}

// The operators that group from the left, one line a level, the tightest first. expr(n), Operators.
static LEVELS: [(&str, u8); 22] = [
    ("*", 2),
    ("/", 2),
    ("%", 2),
    ("+", 3),
    ("-", 3),
    ("<<", 4),
    (">>", 4),
    ("<", 5),
    (">", 5),
    ("<=", 5),
    (">=", 5),
    ("==", 6),
    ("!=", 6),
    ("eq", 7),
    ("ne", 7),
    ("in", 8),
    ("ni", 8),
    ("&", 9),
    ("^", 10),
    ("|", 11),
    ("&&", 12),
    ("||", 13),
];

/// A text and its tree with operators in place of `@` and `#`: does the text parse as the tree?
fn stands(alloc: Global, pattern: (&str, &str), operator: &str, other: &str) -> bool {
    let (text, tree) = pattern;
    match filled(alloc, tree, operator, other) {
        Ok(tree) => made_parses(alloc, filled(alloc, text, operator, other), &tree),
        Err(_) => false,
    }
}

/// Two operators beside each other, and the tree that they make.
fn beside(alloc: Global, left: (&str, u8), right: (&str, u8)) -> bool {
    let tree = if left.1 <= right.1 {
        "((1 @ 2) # 3)"
    } else {
        "(1 @ (2 # 3))"
    };
    stands(alloc, ("1 @ 2 # 3", tree), left.0, right.0)
}

/// The operator beside which this one stands otherwise than by its level.
fn wrong_beside(alloc: Global, left: (&'static str, u8)) -> Option<&'static str> {
    for right in &LEVELS {
        if !beside(alloc, left, *right) {
            return Some(right.0);
        }
    }
    None
}

/// The first operator that stands otherwise beside one of them.
fn wrong_operator(alloc: Global) -> Option<&'static str> {
    for left in &LEVELS {
        if wrong_beside(alloc, *left).is_some() {
            return Some(left.0);
        }
    }
    None
}

#[test]
fn each_operator_beside_each(rt: HostRuntime) {
    assert_eq!(rt; wrong_operator(rt.alloc()), None);
}

static BESIDE_THE_OTHERS: [(&str, &str); 5] = [
    ("1 @ 2 ** 3", "(1 @ (2 ** 3))"),
    ("1 ** 2 @ 3", "((1 ** 2) @ 3)"),
    ("! 1 @ ~ 2", "((! 1) @ (~ 2))"),
    ("1 @ 2 ? 3 @ 4 : 5 @ 6", "((1 @ 2) ? (3 @ 4) : (5 @ 6))"),
    ("1 @ (2 @ 3)", "(1 @ ((2 @ 3)))"),
];

/// The first operator in place of each `@` whose text is parsed otherwise.
fn wrong_in(alloc: Global, pattern: (&'static str, &'static str)) -> Option<&'static str> {
    for level in &LEVELS {
        if !stands(alloc, pattern, level.0, "") {
            return Some(level.0);
        }
    }
    None
}

/// The first pattern that is parsed otherwise with one of the operators.
fn wrong_pattern(alloc: Global, patterns: &[(&'static str, &'static str)]) -> Option<&'static str> {
    for pattern in patterns {
        if wrong_in(alloc, *pattern).is_some() {
            return Some(pattern.0);
        }
    }
    None
}

#[test]
fn each_operator_beside_the_others(rt: HostRuntime) {
    assert_eq!(rt; wrong_pattern(rt.alloc(), &BESIDE_THE_OTHERS), None);
}
