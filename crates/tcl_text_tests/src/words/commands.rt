//! First commands of whole texts, by the manual's rules.
use super::shown::first;
use crate::answers::is;
use std::alloc::Global;

/// The first row whose text is shown otherwise.
fn wrong(alloc: Global, rows: &[(&'static str, &'static str)]) -> Option<&'static str> {
    for row in rows {
        if !is(first(alloc, row.0), row.1) {
            return Some(row.0);
        }
    }
    None
}

static SEPARATORS: [(&str, &str); 18] = [
    ("", "End 0"),
    ("  ;\n\t; ", "End 7"),
    ("# a", "End 3"),
    ("#\\", "End 2"),
    ("# a [ {\nputs x", "<8:puts> <13:x> 14"),
    ("# a \\\nb\nputs x", "<8:puts> <13:x> 14"),
    ("# a \\\\\nputs x", "<7:puts> <12:x> 13"),
    ("puts a;puts b", "<0:puts> <5:a> 7"),
    ("puts a\nputs b", "<0:puts> <5:a> 7"),
    ("puts a #b", "<0:puts> <5:a> <7:#b> 9"),
    ("a \\\n  b", "<0:a> <6:b> 7"),
    ("a \\\n", "<0:a> 4"),
    ("a\\\n;b", "<0:a> 4"),
    ("puts ]a", "<0:puts> <5:]a> 7"),
    ("puts a\rb", "<0:puts> <5:a> <7:b> 8"),
    ("puts a\u{b}b\u{c}c", "<0:puts> <5:a> <7:b> <9:c> 10"),
    ("puts a\u{0}b", "<0:puts> <5:a\u{0}b> 8"),
    ("\u{a0}x", "<0:\u{a0}x> 3"),
];

/// Rules 1, 3 and 10.
#[test]
fn separators(rt: HostRuntime) {
    assert_eq!(rt; wrong(rt.alloc(), &SEPARATORS), None);
}

static BRACES: [(&str, &str); 17] = [
    ("set x {a  b}", "<0:set> <4:x> {7:a  b} 12"),
    (
        "set x {a\\\n  b}",
        "<0:set> <4:x> {7:a|8:\\\n  =20|12:b} 14",
    ),
    ("set x {a\\\\\nb}", "<0:set> <4:x> {7:a\\\\\nb} 13"),
    ("set x {a\\}b}", "<0:set> <4:x> {7:a\\}b} 12"),
    ("set x {a{b}c}", "<0:set> <4:x> {7:a{b}c} 13"),
    ("set x {}", "<0:set> <4:x> {} 8"),
    ("{a b} c", "{1:a b} <6:c> 7"),
    ("puts {a}\\\nb", "<0:puts> {6:a} <10:b> 11"),
    ("puts a{b c}", "<0:puts> <5:a{b> <9:c}> 11"),
    (
        "cmd a {*}{b [c]} d {*}{$e f {g h}}",
        "<0:cmd> <4:a> *{10:b [c]} <17:d> *{23:$e f {g h}} 34",
    ),
    ("puts {*} d", "<0:puts> {6:*} <9:d> 10"),
    ("puts {*}", "<0:puts> {6:*} 8"),
    ("puts {*}\\\nd", "<0:puts> {6:*} <10:d> 11"),
    ("puts {*};", "<0:puts> {6:*} 9"),
    ("puts {*}$x", "<0:puts> *<8:$x=9:x> 10"),
    ("puts {*}\"a b\"", "<0:puts> *\"9:a b\" 13"),
    ("puts {*}]", "<0:puts> *<8:]> 9"),
];

/// Rules 5 and 6.
#[test]
fn braces(rt: HostRuntime) {
    assert_eq!(rt; wrong(rt.alloc(), &BRACES), None);
}

static QUOTES_AND_ESCAPES: [(&str, &str); 11] = [
    ("\"a\" \"b\"", "\"1:a\" \"5:b\" 7"),
    (
        "puts \"a $b [c] \\n\"",
        "<0:puts> \"6:a |8:$b=9:b|10: |11:[c]=12:c|14: |15:\\n=a\" 18",
    ),
    ("puts \"a;]\n{ b\"", "<0:puts> \"6:a;]\n{ b\" 14"),
    ("puts \"a\\\n b\"", "<0:puts> \"6:a|7:\\\n =20|10:b\" 12"),
    (
        "puts \"[a \"b\"]\"",
        "<0:puts> \"6:[a \"b\"]=7:a \"b\"\" 14",
    ),
    ("puts a\"b\"", "<0:puts> <5:a\"b\"> 9"),
    ("puts \"\"", "<0:puts> \"\" 7"),
    ("puts a\\;b", "<0:puts> <5:a|6:\\;=3b|8:b> 9"),
    (
        "puts \\x41\\u20ac\\U1F600\\400",
        "<0:puts> <5:\\x41=41|9:\\u20ac=20ac|15:\\U1F600=1f600|22:\\40=20|25:0> 26",
    ),
    ("\\", "<0:\\=5c> 1"),
    ("puts a\\", "<0:puts> <5:a|6:\\=5c> 7"),
];

/// Rules 4 and 9.
#[test]
fn quotes_and_escapes(rt: HostRuntime) {
    assert_eq!(rt; wrong(rt.alloc(), &QUOTES_AND_ESCAPES), None);
}

static VARIABLES_AND_BRACKETS: [(&str, &str); 21] = [
    ("puts $a", "<0:puts> <5:$a=6:a> 7"),
    ("puts $a.b", "<0:puts> <5:$a=6:a|7:.b> 9"),
    ("puts $a::b:c", "<0:puts> <5:$a::b=6:a::b|10::c> 12"),
    ("puts $a:::b", "<0:puts> <5:$a:::b=6:a:::b> 11"),
    ("puts $::a", "<0:puts> <5:$::a=6:::a> 9"),
    ("puts $", "<0:puts> <5:$> 6"),
    ("puts $.a", "<0:puts> <5:$.a> 8"),
    ("puts $:a", "<0:puts> <5:$:a> 8"),
    ("puts ${a b}c", "<0:puts> <5:${a b}=7:a b|11:c> 12"),
    ("puts ${}x", "<0:puts> <5:${}=7:|8:x> 9"),
    ("puts ${a(b)}", "<0:puts> <5:${a(b)}=7:a(b)> 12"),
    (
        "puts $a(b)",
        "<0:puts> <5:$a(b)=6:a[Text(Span { start: 8, text: \"b\" })]> 10",
    ),
    ("puts $a()", "<0:puts> <5:$a()=6:a[]> 9"),
    (
        "puts $(x y)",
        "<0:puts> <5:$(x y)=6:[Text(Span { start: 7, text: \"x y\" })]> 11",
    ),
    (
        "puts $a([b )] c)",
        "<0:puts> <5:$a([b )] c)=6:a[Bracket(Span { start: 8, text: \"[b )]\" }, Span { start: 9, text: \"b )\" }), Text(Span { start: 13, text: \" c\" })]> 16",
    ),
    (
        "puts $a(x]; {)",
        "<0:puts> <5:$a(x]; {)=6:a[Text(Span { start: 8, text: \"x]; {\" })]> 14",
    ),
    (
        "puts $a($b(c))",
        "<0:puts> <5:$a($b(c))=6:a[Elem(Span { start: 8, text: \"$b(c)\" }, Span { start: 9, text: \"b\" }, [Text(Span { start: 11, text: \"c\" })])]> 14",
    ),
    (
        "set y [set x 0][incr x][incr x]",
        "<0:set> <4:y> <6:[set x 0]=7:set x 0|15:[incr x]=16:incr x|23:[incr x]=24:incr x> 31",
    ),
    (
        "puts [list a;# ]\n]",
        "<0:puts> <5:[list a;# ]\n]=6:list a;# ]\n> 18",
    ),
    ("puts [a;\n b]c", "<0:puts> <5:[a;\n b]=6:a;\n b|12:c> 13"),
    ("puts []", "<0:puts> <5:[]=6:> 7"),
];

/// Rules 7 and 8.
#[test]
fn variables_and_brackets(rt: HostRuntime) {
    assert_eq!(rt; wrong(rt.alloc(), &VARIABLES_AND_BRACKETS), None);
}

static ODD_CHARACTERS: [(&str, &str); 9] = [
    ("😀 $😀 😀", "<0:😀> <5:$😀> <11:😀> 15"),
    (
        "puts \"😀$a(😀)😀\"",
        "<0:puts> \"6:😀|10:$a(😀)=11:a[Text(Span { start: 13, text: \"😀\" })]|18:😀\" 23",
    ),
    ("puts {😀}", "<0:puts> {6:😀} 11"),
    ("puts [😀]", "<0:puts> <5:[😀]=6:😀> 11"),
    ("puts \\😀😀", "<0:puts> <5:\\😀=1f600|10:😀> 14"),
    ("puts ${😀}", "<0:puts> <5:${😀}=7:😀> 12"),
    ("# 😀\n;😀", "<8:😀> 12"),
    (
        "p {\0} \"\0\" ${\0} $a(\0) [\0] \0 # \0",
        "<0:p> {3:\0} \"7:\0\" <10:${\0}=12:\0> <15:$a(\0)=16:a[Text(Span { start: 18, text: \"\\0\" })]> <21:[\0]=22:\0> <25:\0> <27:#> <29:\0> 30",
    ),
    (
        "p {\r} \"\r\" ${\r} $a(\r) [\r]\r\rq",
        "<0:p> {3:\r} \"7:\r\" <10:${\r}=12:\r> <15:$a(\r)=16:a[Text(Span { start: 18, text: \"\\r\" })]> <21:[\r]=22:\r> <26:q> 27",
    ),
];

/// Places count bytes, and no character is special beside those that the rules name.
#[test]
fn odd_characters(rt: HostRuntime) {
    assert_eq!(rt; wrong(rt.alloc(), &ODD_CHARACTERS), None);
}

static FAULTS: [(&str, &str); 38] = [
    ("puts {a}b", "extra characters after close-brace"),
    ("puts {a}\\", "extra characters after close-brace"),
    ("puts {a}{b}", "extra characters after close-brace"),
    ("puts {*}{*}a", "extra characters after close-brace"),
    ("puts [a {b}c]", "extra characters after close-brace"),
    ("puts \"a\"b", "extra characters after close-quote"),
    ("puts \"a\"\\", "extra characters after close-quote"),
    ("puts \"a\"\"b\"", "extra characters after close-quote"),
    ("puts \"a\"b {", "extra characters after close-quote"),
    ("puts {a", "missing close-brace"),
    ("puts {a\\}", "missing close-brace"),
    ("puts {a{b}", "missing close-brace"),
    ("puts [a {b]", "missing close-brace"),
    ("puts {a\\", "missing close-brace"),
    ("puts [a [b", "missing close-bracket"),
    ("puts \"[a", "missing close-bracket"),
    ("puts $a([b", "missing close-bracket"),
    ("puts [# a]", "missing close-bracket"),
    ("puts [a;", "missing close-bracket"),
    ("[", "missing close-bracket"),
    ("puts {a} [b", "missing close-bracket"),
    ("puts \"a", "missing \""),
    ("puts \"a\\", "missing \""),
    ("puts \"a\\\"", "missing \""),
    ("puts [\"a]", "missing \""),
    ("puts \"${a}", "missing \""),
    ("puts $a(b", "missing )"),
    ("puts $a(", "missing )"),
    ("puts [$a(b]", "missing )"),
    ("puts \"$a(b\"", "missing )"),
    ("puts $a($b(c)", "missing )"),
    ("puts ${a", "missing close-brace for variable name"),
    ("puts \"${a\"", "missing close-brace for variable name"),
    ("puts [a ${b]", "missing close-brace for variable name"),
    ("${", "missing close-brace for variable name"),
    ("puts [a\\", "missing close-bracket"),
    ("puts $a(\\", "missing )"),
    ("puts ${a\\", "missing close-brace for variable name"),
];

/// The first fault from the left.
#[test]
fn faults(rt: HostRuntime) {
    assert_eq!(rt; wrong(rt.alloc(), &FAULTS), None);
}
