//! Texts and numbers as values: each call once with ample memory. A helper works on values and answers texts, counts and truth values;
//! a test compares these.
use crate::answers::{counts, holds, is, length, text, value};
use std::alloc::Global;
use std::rc::RcStr;
use tcl_chars::{Dialect, Fault, Whole};
use tcl_values::{Element, Value};

fn decimal(alloc: Global, number: i64) -> Result<RcStr, Fault> {
    text(alloc, Value::of_int(number))
}

fn copied(alloc: Global, start: &str) -> Result<RcStr, Fault> {
    text(alloc, value(alloc, start)?.copy()?)
}

/// The bytes of a text that stands ready.
fn shown(alloc: Global, start: &str) -> Result<usize, Fault> {
    let made = Value::of_string(alloc, String::from_str(alloc, start)?)?;
    Ok(made.shown().unwrap_or("").len())
}

#[test]
fn texts_and_numbers(rt: HostRuntime) {
    let alloc = rt.alloc();
    assert!(rt; is(copied(alloc, "a  b"), "a  b"));
    assert!(rt; is(decimal(alloc, -7), "-7"));
    assert!(rt; is(decimal(alloc, i64::MIN), "-9223372036854775808"));
    assert!(rt; counts(shown(alloc, "né"), 3));
}

/// The text `start` with `more` appended the given number of times.
fn grown(alloc: Global, start: &str, more: &str, times: u32) -> Result<RcStr, Fault> {
    let mut grown = value(alloc, start)?;
    for _ in 0..times {
        grown.append(alloc, more)?;
    }
    text(alloc, grown)
}

#[test]
fn texts_grow(rt: HostRuntime) {
    let alloc = rt.alloc();
    assert!(rt; is(grown(alloc, "a b", " c", 2), "a b c c"));
    assert!(rt; counts(length(grown(alloc, "1", "é", 1000)), 2001));
}

/// Is the text read as this, the second time?
fn reads(alloc: Global, start: &str, want: Whole) -> Result<bool, Fault> {
    let mut read = value(alloc, start)?;
    read.whole(alloc, Dialect::Tcl86)?;
    Ok(read.whole(alloc, Dialect::Tcl86)? == want)
}

/// A text that was read as a number.
fn read(alloc: Global, start: &str) -> Result<RcStr, Fault> {
    let mut read = value(alloc, start)?;
    read.whole(alloc, Dialect::Tcl86)?;
    text(alloc, read)
}

/// The first text that is read as something else, or is another one then.
fn wrongly_read(alloc: Global, rows: &[(&'static str, Whole)]) -> Option<&'static str> {
    for row in rows {
        let (start, want) = *row;
        if !holds(reads(alloc, start, want)) || !is(read(alloc, start), start) {
            return Some(start);
        }
    }
    None
}

static READ: [(&str, Whole); 8] = [
    ("0x10", Whole::Number(16)),
    ("010", Whole::Number(8)),
    ("+5", Whole::Number(5)),
    (" 5 ", Whole::Number(5)),
    ("-0", Whole::Number(0)),
    ("12", Whole::Number(12)),
    ("08", Whole::Not),
    ("9223372036854775808", Whole::TooLarge),
];

#[test]
fn numbers_are_read(rt: HostRuntime) {
    assert_eq!(rt; wrongly_read(rt.alloc(), &READ), None);
}

/// Is the value read as these in Tcl 8.6, in Tcl 9 and in Tcl 8.6 again?
fn turns(alloc: Global, read: &mut Value, old: Whole, new: Whole) -> Result<bool, Fault> {
    let first = read.whole(alloc, Dialect::Tcl86)?;
    let second = read.whole(alloc, Dialect::Tcl9)?;
    let third = read.whole(alloc, Dialect::Tcl86)?;
    Ok(first == old && second == new && third == old)
}

/// Is the text read so, and left as it is?
fn reads_by_turns(alloc: Global, start: &str, old: Whole, new: Whole) -> Result<bool, Fault> {
    let mut read = value(alloc, start)?;
    let is_read = turns(alloc, &mut read, old, new)?;
    Ok(is_read && text(alloc, read)?.as_str() == start)
}

/// The first text that is read as something else in one of both dialects.
fn wrong_by_turns(alloc: Global, rows: &[(&'static str, Whole, Whole)]) -> Option<&'static str> {
    for row in rows {
        let (start, old, new) = *row;
        if !holds(reads_by_turns(alloc, start, old, new)) {
            return Some(start);
        }
    }
    None
}

/// Texts, and what they are in Tcl 8.6 and in Tcl 9.
static BY_TURNS: [(&str, Whole, Whole); 5] = [
    ("010", Whole::Number(8), Whole::Number(10)),
    ("-010", Whole::Number(-8), Whole::Number(-10)),
    ("08", Whole::Not, Whole::Number(8)),
    ("0o10", Whole::Number(8), Whole::Number(8)),
    ("12", Whole::Number(12), Whole::Number(12)),
];

#[test]
fn a_text_is_a_number_of_the_dialect_that_asks(rt: HostRuntime) {
    assert_eq!(rt; wrong_by_turns(rt.alloc(), &BY_TURNS), None);
}

/// A text as the number whose decimal text it is, or that it is none.
fn of_decimal(alloc: Global, start: &str) -> Result<RcStr, Fault> {
    match Value::of_decimal(start) {
        Some(number) => text(alloc, number),
        None => Ok(RcStr::from_str(alloc, "none")?),
    }
}

/// The first text that is another number's, or none's.
fn wrong_decimal(alloc: Global, rows: &[(&'static str, &'static str)]) -> Option<&'static str> {
    for row in rows {
        let (start, want) = *row;
        if !is(of_decimal(alloc, start), want) {
            return Some(start);
        }
    }
    None
}

static DECIMALS: [(&str, &str); 7] = [
    ("12", "12"),
    ("-9223372036854775808", "-9223372036854775808"),
    ("010", "none"),
    ("+5", "none"),
    ("-0", "none"),
    ("9223372036854775808", "none"),
    ("", "none"),
];

#[test]
fn decimal_texts_are_numbers(rt: HostRuntime) {
    assert_eq!(rt; wrong_decimal(rt.alloc(), &DECIMALS), None);
}

/// Does an element tell this text, and the value that is taken out too?
fn tells(alloc: Global, element: &Element, want: &str) -> Result<bool, Fault> {
    let is_told = element.text(alloc)?.as_str() == want;
    Ok(is_told && text(alloc, element.copy()?)?.as_str() == want)
}

/// Has a number in a list this text?
fn keeps(alloc: Global, number: i64, want: &str) -> Result<bool, Fault> {
    let numbers = vec![in alloc; Value::of_int(number)]?;
    let row = Value::of_list(alloc, numbers)?.row(alloc)?;
    match row.items().first() {
        Some(element) => tells(alloc, element, want),
        None => Ok(false),
    }
}

/// The text of the first number in a list that has another one.
fn wrongly_kept(alloc: Global, rows: &[(i64, &'static str)]) -> Option<&'static str> {
    for row in rows {
        let (number, want) = *row;
        if !holds(keeps(alloc, number, want)) {
            return Some(want);
        }
    }
    None
}

static KEPT: [(i64, &str); 8] = [
    (0, "0"),
    (-1, "-1"),
    (99_999_999_999_999, "99999999999999"),
    (100_000_000_000_000, "100000000000000"),
    (-9_999_999_999_999, "-9999999999999"),
    (-10_000_000_000_000, "-10000000000000"),
    (i64::MAX, "9223372036854775807"),
    (i64::MIN, "-9223372036854775808"),
];

#[test]
fn numbers_in_lists_have_their_texts(rt: HostRuntime) {
    assert_eq!(rt; wrongly_kept(rt.alloc(), &KEPT), None);
}
