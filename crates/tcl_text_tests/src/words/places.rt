//! Commands from a place on, operands, and whether a text is complete.
use super::shown::{operand_shown, shown};
use crate::answers::is;
use std::alloc::{AllocError, Global};
use tcl_words::{begins_operand, is_complete, parse_command, parse_operand};

static FROM_A_PLACE: [(&str, usize, bool, &str); 30] = [
    (" ; ] a", 0, true, "End 3"),
    ("a]b", 0, true, "<0:a> 1"),
    ("{a}]", 0, true, "{1:a} 3"),
    ("\"a\"]", 0, true, "\"1:a\" 3"),
    ("{*}]", 0, true, "{1:*} 3"),
    ("a b;c]", 0, true, "<0:a> <2:b> 4"),
    (
        "$a(])]",
        0,
        true,
        "<0:$a(])=1:a[Text(Span { start: 3, text: \"]\" })]> 5",
    ),
    ("a", 0, true, "<0:a> 1"),
    ("#]\n]", 0, true, "End 3"),
    ("a\"]\"]", 0, true, "<0:a\"> 2"),
    ("puts a;puts b", 7, false, "<7:puts> <12:b> 13"),
    ("é {x\\\n y} z", 3, false, "{4:x|5:\\\n =20|8:y} <11:z> 12"),
    ("puts a", 6, false, "End 6"),
    ("a {b}c", 2, false, "extra characters after close-brace"),
    ("a \"[b $c(d)]\"", 2, false, "\"3:[b $c(d)]=4:b $c(d)\" 13"),
    ("😀;😀", 5, false, "<5:😀> 9"),
    ("a # b", 2, false, "End 5"),
    ("puts [a b]", 6, true, "<6:a> <8:b> 9"),
    ("puts [ ; ]", 6, true, "End 9"),
    ("puts []", 6, true, "End 6"),
    ("puts [a;b c]", 8, true, "<8:b> <10:c> 11"),
    ("puts [a\nb]", 7, true, "<8:b> 9"),
    ("puts [a\\\n]", 6, true, "<6:a> 9"),
    ("puts [# ]\n]", 6, true, "End 10"),
    ("é [a]]", 4, true, "<4:a> 5"),
    (
        "x [set y [z 1]]",
        3,
        true,
        "<3:set> <7:y> <9:[z 1]=10:z 1> 14",
    ),
    ("x [set y \"]\"]", 3, true, "<3:set> <7:y> \"10:]\" 12"),
    ("x [{a}b]", 3, true, "extra characters after close-brace"),
    ("x [a {b]", 3, true, "missing close-brace"),
    ("puts [a b", 6, true, "<6:a> <8:b> 9"),
];

/// `nested`: is the text read as inside brackets?
fn command(alloc: Global, text: &str, from: usize, nested: bool) -> Result<String, AllocError> {
    if !text.is_char_boundary(from) {
        return Ok(String::new(alloc));
    }
    let parsed = parse_command(alloc, text, from, nested)?;
    shown(alloc, &parsed)
}

#[test]
fn from_a_place(rt: HostRuntime) {
    for row in &FROM_A_PLACE {
        let (text, from, nested, want) = *row;
        assert!(rt; is(command(rt.alloc(), text, from, nested), want), "{text}");
    }
}

static OPERANDS: [(&str, usize, u32, &str); 20] = [
    ("{a b}c", 0, 0, "{1:a b} 5"),
    ("\"a$b\"+1", 0, 0, "\"1:a|2:$b=3:b\" 5"),
    ("[a]b", 0, 1, "<0:[a]=1:a> 3"),
    (
        "$a(b)c",
        0,
        200,
        "<0:$a(b)=1:a[Text(Span { start: 3, text: \"b\" })]> 5",
    ),
    ("1+${x y}", 2, 0, "<2:${x y}=4:x y> 8"),
    ("$a::b+1", 0, 0, "<0:$a::b=1:a::b> 5"),
    ("{a\\\n b}", 0, 0, "{1:a|2:\\\n =20|5:b} 7"),
    ("[a", 0, 1, "missing close-bracket"),
    ("\"a", 0, 1, "missing \""),
    ("{a", 0, 1, "missing close-brace"),
    ("$a(b", 0, 1, "missing )"),
    ("${a", 0, 1, "missing close-brace for variable name"),
    ("[{a}b]", 0, 1, "extra characters after close-brace"),
    ("[a]", 0, 0, "nesting too deep"),
    ("$a(b)", 0, 0, "nesting too deep"),
    ("\"[a]\"", 0, 0, "nesting too deep"),
    ("[a [b]]", 0, 1, "nesting too deep"),
    ("$a([b])", 0, 1, "nesting too deep"),
    (
        "$a([b])",
        0,
        2,
        "<0:$a([b])=1:a[Bracket(Span { start: 3, text: \"[b]\" }, Span { start: 4, text: \"b\" })]> 7",
    ),
    ("\"a {[\" ", 0, 0, "nesting too deep"),
];

fn operand(alloc: Global, text: &str, from: usize, levels: u32) -> Result<String, AllocError> {
    if !text.is_char_boundary(from) || !begins_operand(&text[from..]) || levels > 200 {
        return Ok(String::new(alloc));
    }
    let operand = parse_operand(alloc, text, from, levels)?;
    operand_shown(alloc, &operand)
}

#[test]
fn operands(rt: HostRuntime) {
    for row in &OPERANDS {
        let (text, from, levels, want) = *row;
        assert!(rt; is(operand(rt.alloc(), text, from, levels), want), "{text}");
    }
}

/// The first text that begins with an operand.
fn beginning(texts: &[&'static str]) -> Option<&'static str> {
    for text in texts {
        if begins_operand(text) {
            return Some(*text);
        }
    }
    None
}

static NO_OPERANDS: [&str; 8] = ["", "a", "1", "$", "$:a", "$.", "]", "}"];

#[test]
fn no_operands(rt: HostRuntime) {
    assert_eq!(rt; beginning(&NO_OPERANDS), None);
}

static COMPLETE: [(&str, bool); 24] = [
    ("", true),
    ("\n", true),
    ("puts a", true),
    ("puts a\n", true),
    ("puts {", false),
    ("puts [a", false),
    ("puts \"a", false),
    ("puts $a(b", false),
    ("puts ${a", false),
    ("puts {a}b", true),
    ("puts \"a\"b {", true),
    ("a \\\n", false),
    ("a \\\\\n", true),
    ("a \\\\\\\n", false),
    ("a {\\\n", false),
    ("a {\\\n}", true),
    ("puts a; puts {", false),
    ("puts {a}b; puts {", true),
    ("# {\n", true),
    ("#\\\n", false),
    ("\\", true),
    ("a \\\nb", true),
    ("puts ]", true),
    ("puts \\{", true),
];

#[test]
fn complete(rt: HostRuntime) {
    for row in &COMPLETE {
        let (text, want) = *row;
        assert!(rt; is_complete(rt.alloc(), text) == Ok(want), "{text}");
    }
}
