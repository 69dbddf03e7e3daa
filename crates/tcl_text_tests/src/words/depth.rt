//! How deep and how large a text may be.
use super::shown::first;
use crate::answers::{add, is};
use std::alloc::{AllocError, Global};
use tcl_words::Syntax;

fn add_nested(text: &mut String, open: &str, close: &str, levels: u32) -> Result<(), AllocError> {
    text.push_str("puts ")?;
    add(text, open, levels)?;
    text.push_str("a")?;
    add(text, close, levels)
}

/// The word `puts`, and behind it a word in `levels` openers and closers.
fn nested(alloc: Global, open: &str, close: &str, levels: u32) -> Result<String, AllocError> {
    let mut text = String::new(alloc);
    add_nested(&mut text, open, close, levels)?;
    Ok(text)
}

/// Is the text with `levels` levels too deep?
fn is_too_deep(alloc: Global, open: &str, close: &str, levels: u32) -> Result<bool, AllocError> {
    let text = nested(alloc, open, close, levels)?;
    Ok(is(first(alloc, &text), Syntax::TooDeep.text()))
}

/// The first opener of which other levels are the most.
fn wrongly_deep(alloc: Global, rows: &[(&'static str, &'static str, u32)]) -> Option<&'static str> {
    for row in rows {
        let (open, close, most) = *row;
        if is_too_deep(alloc, open, close, most) != Ok(false)
            || is_too_deep(alloc, open, close, most.wrapping_add(1)) != Ok(true)
        {
            return Some(open);
        }
    }
    None
}

/// Openers, closers, and the most levels of them.
static LEVELS: [(&str, &str, u32); 5] = [
    ("[", "]", 200),
    ("$a(", ")", 200),
    ("[a $b(", ")]", 100),
    ("\"[", "]\"", 200),
    ("$a([", "])", 100),
];

#[test]
fn levels(rt: HostRuntime) {
    assert_eq!(rt; wrongly_deep(rt.alloc(), &LEVELS), None);
}

/// The length of what is shown of a text with `levels` levels.
fn shown_length(alloc: Global, open: &str, close: &str, levels: u32) -> Result<usize, AllocError> {
    let text = nested(alloc, open, close, levels)?;
    Ok(first(alloc, &text)?.len())
}

/// Braces nest as deep as memory holds.
#[test]
fn braces(rt: HostRuntime) {
    let message = "missing close-brace";
    assert!(rt; shown_length(rt.alloc(), "{", "}", 500_000) == Ok(1_000_020));
    assert!(rt; shown_length(rt.alloc(), "{", "", 1_000_000) == Ok(message.len()));
}
