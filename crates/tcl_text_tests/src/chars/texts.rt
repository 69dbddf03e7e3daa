//! Characters, escapes, and the parts and the order of texts.
use crate::answers::{holds, is, lies_between};
use std::alloc::{AllocError, Global};
use std::cmp::Ordering;
use std::rc::RcStr;
use tcl_chars::{
    Fault, backslash, before, begins, compare, is_blank, is_list_space, is_name_char, is_text,
    is_word_space, place, push, push_text, skip_space, split_first, split_last, tail, trim,
    trim_end,
};

#[test]
fn classes(rt: HostRuntime) {
    assert!(rt; is_word_space('\u{b}'));
    assert!(rt; !is_word_space('\n'));
    assert!(rt; is_list_space('\n'));
    assert!(rt; is_blank('\t'));
    assert!(rt; !is_blank('\r'));
    assert!(rt; is_name_char('_'));
    assert!(rt; !is_name_char('é'));
}

/// A fault as it is shown.
fn shown(alloc: Global, message: &str) -> Result<String, AllocError> {
    let fault = Fault::Error(RcStr::from_str(alloc, message)?);
    format!(in alloc; "{fault}")
}

#[test]
fn a_fault_shows_its_text(rt: HostRuntime) {
    assert!(rt; is(shown(rt.alloc(), "divide by zero"), "divide by zero"));
}

/// The character that an escape means, and its length.
fn escape_at(text: &str) -> (char, usize) {
    match split_first(text) {
        Some(('\\', _)) => backslash(text),
        _ => ('?', 0),
    }
}

/// The first escape that means another character, or has another length.
fn wrongly_escaped(rows: &[(&'static str, char, usize)]) -> Option<&'static str> {
    for row in rows {
        let (text, want, size) = *row;
        if escape_at(text) != (want, size) {
            return Some(text);
        }
    }
    None
}

static ESCAPES: [(&str, char, usize); 9] = [
    (r"\n", '\n', 2),
    (r"\400", ' ', 3),
    (r"\x", 'x', 2),
    (r"\x4g", '\u{4}', 3),
    (r"\ud800", '\u{fffd}', 6),
    (r"\U110000", '\u{11000}', 7),
    ("\\\n \t x", ' ', 5),
    ("\\é", 'é', 3),
    ("\\", '\\', 1),
];

#[test]
fn escapes(rt: HostRuntime) {
    assert_eq!(rt; wrongly_escaped(&ESCAPES), None);
}

/// The first character as a text.
fn first_of(text: &str) -> &str {
    match split_first(text) {
        Some((_, rest)) => before(text, rest),
        None => text,
    }
}

/// A part of a text.
#[derive(Clone, Copy)]
enum Part {
    First,
    Tail,
    BehindSpace,
    BeforeSpace,
    BetweenSpace,
}

fn part_of(part: Part, text: &str) -> &str {
    match part {
        Part::First => first_of(text),
        Part::Tail => tail(text),
        Part::BehindSpace => skip_space(text),
        Part::BeforeSpace => trim_end(text),
        Part::BetweenSpace => trim(text),
    }
}

/// The first text whose part is another one.
fn wrongly_parted(rows: &[(Part, &'static str, &'static str)]) -> Option<&'static str> {
    for row in rows {
        let (part, text, want) = *row;
        if part_of(part, text) != want {
            return Some(text);
        }
    }
    None
}

static PARTS: [(Part, &str, &str); 9] = [
    (Part::Tail, "éab", "ab"),
    (Part::Tail, "", ""),
    (Part::First, "éab", "é"),
    (Part::First, "", ""),
    (Part::BehindSpace, " \n\ta ", "a "),
    (Part::BeforeSpace, " a b\t\n\u{b}", " a b"),
    (Part::BeforeSpace, " \n", ""),
    (Part::BetweenSpace, " \r\n a b\u{c}", "a b"),
    (Part::BetweenSpace, "\u{a0}x\u{a0}", "\u{a0}x\u{a0}"),
];

#[test]
fn parts_of_texts(rt: HostRuntime) {
    assert_eq!(rt; wrongly_parted(&PARTS), None);
}

#[test]
fn fronts_of_texts(rt: HostRuntime) {
    assert!(rt; begins('é', "éa"));
    assert!(rt; !begins('a', ""));
    assert!(rt; place(4, "ab") == 2);
}

#[test]
fn ends_of_texts(rt: HostRuntime) {
    assert!(rt; split_last("abé") == Some(("ab", 'é')));
    assert!(rt; split_last("") == None);
    assert!(rt; is_text("set", "set"));
    assert!(rt; !is_text("set", "sett"));
}

/// The left text of the first two that are in another order.
fn wrongly_ordered(rows: &[(&'static str, &'static str, Ordering)]) -> Option<&'static str> {
    for row in rows {
        let (left, right, want) = *row;
        if compare(left, right) != want {
            return Some(left);
        }
    }
    None
}

static ORDERED: [(&str, &str, Ordering); 5] = [
    ("a", "b", Ordering::Less),
    ("", "a", Ordering::Less),
    ("ab", "a", Ordering::Greater),
    ("\u{ffff}", "\u{10000}", Ordering::Less),
    ("éa", "éa", Ordering::Equal),
];

#[test]
fn order_of_code_points(rt: HostRuntime) {
    assert_eq!(rt; wrongly_ordered(&ORDERED), None);
}

/// Pushes a text and a character, `times` times over.
fn push_often(text: &mut String, part: &str, last: char, times: u32) -> Result<(), AllocError> {
    for _ in 0..times {
        push_text(text, part)?;
        push(text, last)?;
    }
    Ok(())
}

/// A text, pushed twice.
fn twice(alloc: Global, text: &str) -> Result<String, AllocError> {
    let mut twice = String::new(alloc);
    push_text(&mut twice, text)?;
    push_text(&mut twice, text)?;
    Ok(twice)
}

/// Does a text and a character, `times` times over, lie behind itself when it is pushed twice, in so many bytes?
fn doubles(
    alloc: Global,
    part: &str,
    last: char,
    times: u32,
    length: usize,
) -> Result<bool, AllocError> {
    let mut text = String::new(alloc);
    push_often(&mut text, part, last, times)?;
    Ok(lies_between(twice(alloc, &text), &text, &text, length))
}

#[test]
fn long_texts_are_pushed(rt: HostRuntime) {
    assert!(rt; holds(doubles(rt.alloc(), "abcdé", '中', 1000, 18_000)));
}
