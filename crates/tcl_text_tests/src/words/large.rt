//! Commands of many words, words of many pieces, and long texts.
use crate::answers::add;
use std::alloc::{AllocError, Global};
use tcl_words::{Parsed, Word, parse_command};

fn add_all(
    text: &mut String,
    front: &str,
    part: &str,
    times: u32,
    back: &str,
) -> Result<(), AllocError> {
    text.push_str(front)?;
    add(text, part, times)?;
    text.push_str(back)
}

/// How many words a command has, how many pieces its last word, and where the command ends.
type Sizes = (usize, usize, usize);

fn sizes(words: &[Word<'_>], end: usize) -> Sizes {
    match words.last() {
        Some(word) => (words.len(), word.pieces.len(), end),
        None => (0, 0, end),
    }
}

/// The sizes of the command at a place of a text.
fn sizes_from(alloc: Global, text: &str, from: usize) -> Result<Sizes, AllocError> {
    if !text.is_char_boundary(from) {
        return Ok((0, 0, 0));
    }
    match parse_command(alloc, text, from, false)? {
        Parsed::Command(words, end) => Ok(sizes(&words, end)),
        _ => Ok((0, 0, 0)),
    }
}

/// The sizes of a front, a part `times` times, and an end.
fn counted(
    alloc: Global,
    front: &str,
    part: &str,
    times: u32,
    back: &str,
) -> Result<Sizes, AllocError> {
    let mut text = String::new(alloc);
    add_all(&mut text, front, part, times, back)?;
    sizes_from(alloc, &text, 0)
}

/// A front, a part, an end, and the sizes.
type Counted = (&'static str, &'static str, &'static str, Sizes);

/// The part of the first command that has other sizes, where the part stands `times` times.
fn wrongly_counted(alloc: Global, rows: &[Counted], times: u32) -> Option<&'static str> {
    for row in rows {
        let (front, part, back, want) = *row;
        if counted(alloc, front, part, times, back) != Ok(want) {
            return Some(part);
        }
    }
    None
}

static THOUSANDS: [Counted; 9] = [
    ("a", " b", "", (1001, 1, 2001)),
    ("a", " {b c}", "", (1001, 1, 6001)),
    ("a", " \"b\"", "", (1001, 1, 4001)),
    ("a", " {*}$b", "", (1001, 1, 6001)),
    ("a ", "$b\\n", "", (2, 2000, 4002)),
    ("a ", "[b]$c(d)", "", (2, 2000, 8002)),
    ("a {", "b\\\n", "", (0, 0, 0)),
    ("", ";\n", "", (0, 0, 0)),
    ("a;", "b;", "", (1, 1, 2)),
];

#[test]
fn thousands(rt: HostRuntime) {
    assert_eq!(rt; wrongly_counted(rt.alloc(), &THOUSANDS, 1000), None);
}

static LONG: [Counted; 4] = [
    ("a ", "é", "\nz", (2, 1, 200_003)),
    ("a $", "bc", "\nz", (2, 1, 200_004)),
    ("a [", "b;", "]", (2, 1, 200_004)),
    ("# ", "b ", "\nz", (1, 1, 200_004)),
];

#[test]
fn long_words(rt: HostRuntime) {
    assert_eq!(rt; wrongly_counted(rt.alloc(), &LONG, 100_000), None);
}
