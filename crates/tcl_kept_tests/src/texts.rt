//! Texts of truth values and counts, and what is known of texts and written behind them, each call once with ample memory.
use crate::answers::{holds, is, key, text, value, words};
use std::alloc::{AllocError, Global};
use std::rc::RcStr;
use tcl_chars::Fault;
use tcl_values::Value;

fn counted(alloc: Global, count: u64) -> Result<String, Fault> {
    text(alloc, Value::of_count(alloc, count)?)
}

/// The first text of a count that is another one.
fn wrongly_counted(alloc: Global, rows: &[(u64, &'static str)]) -> Option<&'static str> {
    for row in rows {
        let (count, want) = *row;
        if !is(counted(alloc, count), want) {
            return Some(want);
        }
    }
    None
}

static COUNTS: [(u64, &str); 4] = [
    (0, "0"),
    (i64::MAX as u64, "9223372036854775807"),
    (1 << 63, "9223372036854775808"),
    (u64::MAX, "18446744073709551615"),
];

#[test]
fn truth_values_and_counts(rt: HostRuntime) {
    let alloc = rt.alloc();
    assert!(rt; is(text(alloc, Value::of_truth(true)), "1"));
    assert!(rt; is(text(alloc, Value::of_truth(false)), "0"));
    assert_eq!(rt; wrongly_counted(alloc, &COUNTS), None);
}

/// How many elements a copy of a literal has, when the literal was read as a list.
fn copy_counts(alloc: Global, literal: &mut Value) -> Result<usize, Fault> {
    let mut copy = literal.copy()?;
    literal.count(alloc)?;
    copy.count(alloc)
}

/// Has a copy of a literal so many elements, and the literal still its text?
fn stays(alloc: Global, start: &str, elements: usize) -> Result<bool, Fault> {
    let mut literal = Value::of_literal(alloc, RcStr::from_str(alloc, start)?)?;
    let count = copy_counts(alloc, &mut literal)?;
    Ok(count == elements && text(alloc, literal)?.as_str() == start)
}

/// How many bytes are known to be characters of a text that has grown, if it is known.
fn known(alloc: Global, start: &str, more: &str) -> Result<Option<usize>, AllocError> {
    let mut value = Value::of_string(alloc, String::from_str(alloc, start)?)?;
    value.append(alloc, more)?;
    Ok(value.ascii().map(|text| text.len()))
}

/// Is so much known?
fn is_known(found: Result<Option<usize>, AllocError>, want: Option<usize>) -> bool {
    match found {
        Ok(known) => known == want,
        Err(_) => false,
    }
}

/// A text, what is put behind it, and how many bytes are known to be characters, if it is known.
type Known = (&'static str, &'static str, Option<usize>);

/// What is put behind the first text of which something else is known.
fn wrongly_known(alloc: Global, rows: &[Known]) -> Option<&'static str> {
    for row in rows {
        let (start, more, want) = *row;
        if !is_known(known(alloc, start, more), want) {
            return Some(more);
        }
    }
    None
}

static KNOWN: [Known; 4] = [
    ("ab", "c", Some(3)),
    ("", "", Some(0)),
    ("né", "c", None),
    ("ab", "é", None),
];

#[test]
fn texts_that_stay_ready(rt: HostRuntime) {
    let alloc = rt.alloc();
    assert!(rt; holds(stays(alloc, "a  {b c}", 2)));
    assert!(rt; holds(stays(alloc, "", 0)));
    assert_eq!(rt; wrongly_known(alloc, &KNOWN), None);
}

/// A text, and the value behind it.
fn behind(alloc: Global, start: &str, value: Result<Value, Fault>) -> Result<String, Fault> {
    let mut text = String::from_str(alloc, start)?;
    value?.write_to(alloc, &mut text)?;
    Ok(text)
}

fn list(alloc: Global, line: &str) -> Result<Value, Fault> {
    Ok(Value::of_list(alloc, words(alloc, line)?)?)
}

/// A dictionary of one key and its value.
fn dictionary(alloc: Global, name: &str, new: &str) -> Result<Value, Fault> {
    let pairs = vec![in alloc; (key(alloc, name)?, value(alloc, new)?)]?;
    Ok(Value::of_dict(alloc, pairs)?)
}

#[test]
fn values_behind_a_text(rt: HostRuntime) {
    let alloc = rt.alloc();
    let least = Value::of_int(i64::MIN);
    assert!(rt; is(behind(alloc, "é=", Ok(Value::of_int(-7))), "é=-7"));
    assert!(rt; is(behind(alloc, "é=", Ok(least)), "é=-9223372036854775808"));
    assert!(rt; is(behind(alloc, "é=", value(alloc, "né")), "é=né"));
    assert!(rt; is(behind(alloc, "é=", list(alloc, "{a b} {}")), "é={a b} {}"));
    assert!(rt;
        is(
            behind(alloc, "é=", dictionary(alloc, "k", "v w")),
            "é=k {v w}"
        )
    );
}
