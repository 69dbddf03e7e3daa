//! Rows that the language's own shell answers the same way.
use crate::answers::{holds, is, repeated};
use std::alloc::{AllocError, Global};
use std::rc::RcStr;
use tcl_chars::Fault;
use tcl_list::{append_element, split, write};

/// Are these the elements that were found?
fn are(found: &[RcStr], wanted: &[&str]) -> bool {
    for (found, want) in found.iter().zip(wanted) {
        if found.as_str() != *want {
            return false;
        }
    }
    found.len() == wanted.len()
}

/// Does the text read as these elements?
fn reads(alloc: Global, text: &str, wanted: &[&str]) -> bool {
    match split(alloc, text) {
        Ok(elements) => are(elements.as_slice(), wanted),
        Err(_) => false,
    }
}

/// A text, and the elements that it reads as.
type Read = (&'static str, &'static [&'static str]);

/// The first text that reads as other elements.
fn wrongly_read(alloc: Global, rows: &[Read]) -> Option<&'static str> {
    for row in rows {
        let (text, wanted) = *row;
        if !reads(alloc, text, wanted) {
            return Some(text);
        }
    }
    None
}

static BARE: [Read; 10] = [
    ("", &[]),
    (" \ta\nb\u{b}c\u{c}d\re ", &["a", "b", "c", "d", "e"]),
    (r"a\ b", &["a b"]),
    (r"\x41\u00e9\101", &["AéA"]),
    ("a\\\n  b", &["a b"]),
    ("a{b}", &["a{b}"]),
    ("a\"b", &["a\"b"]),
    (r"\{", &["{"]),
    (r"a\", &[r"a\"]),
    ("a}", &["a}"]),
];

#[test]
fn bare_elements(rt: HostRuntime) {
    assert_eq!(rt; wrongly_read(rt.alloc(), &BARE), None);
}

static BRACED_AND_QUOTED: [Read; 10] = [
    ("a {b c}", &["a", "b c"]),
    ("a \"b c\" d", &["a", "b c", "d"]),
    (r#""a\tb""#, &["a\tb"]),
    (r"{a\}b} c", &[r"a\}b", "c"]),
    ("{a \\\n b}", &["a \\\n b"]),
    ("{}", &[""]),
    ("\"\" {}", &["", ""]),
    ("{a{b}c} d", &["a{b}c", "d"]),
    ("\"a{b\"", &["a{b"]),
    ("aé中 {中 b}", &["aé中", "中 b"]),
];

#[test]
fn braced_and_quoted_elements(rt: HostRuntime) {
    assert_eq!(rt; wrongly_read(rt.alloc(), &BRACED_AND_QUOTED), None);
}

/// Is the text no list, with this message?
fn faults(alloc: Global, text: &str, wanted: &str) -> bool {
    match split(alloc, text) {
        Err(Fault::Error(message)) => message.as_str() == wanted,
        _ => false,
    }
}

/// The first text that is a list, or has another message.
fn wrongly_faulted(alloc: Global, rows: &[(&'static str, &'static str)]) -> Option<&'static str> {
    for row in rows {
        let (text, message) = *row;
        if !faults(alloc, text, message) {
            return Some(text);
        }
    }
    None
}

static FAULTY: [(&str, &str); 9] = [
    ("{a", "unmatched open brace in list"),
    (r"{a\}", "unmatched open brace in list"),
    ("a {b} \"c", "unmatched open quote in list"),
    (r#""a\""#, "unmatched open quote in list"),
    (
        "{a}b",
        "list element in braces followed by \"b\" instead of space",
    ),
    (
        "{x}{y} {",
        "list element in braces followed by \"{y}\" instead of space",
    ),
    (
        "a {b} {c}d\te",
        "list element in braces followed by \"d\" instead of space",
    ),
    (
        "\"a\"b",
        "list element in quotes followed by \"b\" instead of space",
    ),
    (
        r"{a}\ b",
        r#"list element in braces followed by "\" instead of space"#,
    ),
];

#[test]
fn faulty_texts(rt: HostRuntime) {
    assert_eq!(rt; wrongly_faulted(rt.alloc(), &FAULTY), None);
}

fn add_shared(shared: &mut Vec<RcStr>, alloc: Global, texts: &[&str]) -> Result<(), AllocError> {
    for text in texts {
        let text = RcStr::from_str(alloc, text)?;
        shared.push(text)?;
    }
    Ok(())
}

fn written(alloc: Global, elements: &[&str]) -> Result<String, AllocError> {
    let mut shared = Vec::new(alloc);
    add_shared(&mut shared, alloc, elements)?;
    write(alloc, shared.as_slice())
}

/// Elements, and the list that is written of them.
type Written = (&'static [&'static str], &'static str);

/// The first list that isn't written so.
fn wrongly_written(alloc: Global, rows: &[Written]) -> Option<&'static str> {
    for row in rows {
        let (elements, text) = *row;
        if !is(written(alloc, elements), text) {
            return Some(text);
        }
    }
    None
}

static WRITTEN: [Written; 7] = [
    (&[], ""),
    (&["#", "", "a b", "{", r"a\"], r"{#} {} {a b} \{ a\\"),
    (&["#a", "b", "#c"], "{#a} b #c"),
    (
        &["$x", "[y]", "a;b", "\"", "}"],
        "{$x} {[y]} {a;b} {\"} \\}",
    ),
    (
        &["a b }", "a\\\nb", "# x", "#{"],
        "a\\ b\\ \\} a\\\\\\nb {# x} #\\{",
    ),
    (&["#{", "x"], "\\#\\{ x"),
    (&["{\t\n\u{b}\u{c}\r"], "\\{\\t\\n\\v\\f\\r"),
];

#[test]
fn written_lists(rt: HostRuntime) {
    assert_eq!(rt; wrongly_written(rt.alloc(), &WRITTEN), None);
}

/// The elements of a list, appended in turn.
fn appended(alloc: Global, elements: &[RcStr]) -> Result<String, AllocError> {
    let mut text = String::new(alloc);
    for (place, element) in elements.iter().enumerate() {
        append_element(&mut text, element.as_str(), place == 0)?;
    }
    Ok(text)
}

/// Do the elements of the text, one after another, append to the text?
fn appends(alloc: Global, text: &str) -> bool {
    match split(alloc, text) {
        Ok(elements) => is(appended(alloc, elements.as_slice()), text),
        Err(_) => false,
    }
}

/// The first text whose elements don't append to it.
fn wrongly_appended(alloc: Global, texts: &[&'static str]) -> Option<&'static str> {
    for text in texts {
        if !appends(alloc, text) {
            return Some(*text);
        }
    }
    None
}

static APPENDED: [&str; 4] = ["", "{#} # {}", "a b", "{a b} c\\{"];

#[test]
fn appended_elements(rt: HostRuntime) {
    assert_eq!(rt; wrongly_appended(rt.alloc(), &APPENDED), None);
}

/// Has the text so many elements, and is what is written of them the text without its last character?
fn rewrites(alloc: Global, text: &str, count: usize) -> bool {
    match split(alloc, text) {
        Ok(elements) => {
            elements.len() == count
                && is(
                    write(alloc, elements.as_slice()),
                    text.strip_suffix(' ').unwrap_or(""),
                )
        }
        Err(_) => false,
    }
}

/// Has a part that is repeated as many elements, which are written as they stand there?
fn many(alloc: Global, part: &str, times: u32, count: usize) -> Result<bool, AllocError> {
    let text = repeated(alloc, part, times)?;
    Ok(rewrites(alloc, &text, count))
}

/// The first part of which a thousand aren't as many elements.
fn not_many(alloc: Global, parts: &[&'static str]) -> Option<&'static str> {
    for part in parts {
        if !holds(many(alloc, part, 1000, 1000)) {
            return Some(*part);
        }
    }
    None
}

static ELEMENTS: [&str; 4] = ["element ", "{a b} ", "\\{ ", "é "];

#[test]
fn a_thousand_elements(rt: HostRuntime) {
    assert_eq!(rt; not_many(rt.alloc(), &ELEMENTS), None);
}

/// Is the one element of a list that is written of it again this element?
fn returns(alloc: Global, element: &str) -> bool {
    match written(alloc, &[element]) {
        Ok(text) => reads(alloc, &text, &[element]),
        Err(_) => false,
    }
}

/// Does a part that is repeated return as an element?
fn long_returns(alloc: Global, part: &str, times: u32) -> Result<bool, AllocError> {
    let element = repeated(alloc, part, times)?;
    Ok(returns(alloc, &element))
}

/// The first part of which ten thousand don't return as an element.
fn not_returned(alloc: Global, parts: &[&'static str]) -> Option<&'static str> {
    for part in parts {
        if !holds(long_returns(alloc, part, 10_000)) {
            return Some(*part);
        }
    }
    None
}

static LONG: [&str; 3] = ["é", "a b ", "}"];

#[test]
fn long_elements(rt: HostRuntime) {
    assert_eq!(rt; not_returned(rt.alloc(), &LONG), None);
}
