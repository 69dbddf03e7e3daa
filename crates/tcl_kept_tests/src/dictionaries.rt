//! Values that are made and changed as dictionaries, each call once with ample memory.
use crate::answers::{is, key, left, text, value, words};
use std::alloc::{AllocError, Global};
use std::rc::RcStr;
use tcl_chars::Fault;
use tcl_values::{Change, Key, Value};

/// A dictionary of keys and values, each pair as two texts.
fn made(alloc: Global, pairs: &[(&str, &str)]) -> Result<String, Fault> {
    let mut made = Vec::new(alloc);
    for pair in pairs {
        made.push((key(alloc, pair.0)?, value(alloc, pair.1)?))?;
    }
    text(alloc, Value::of_dict(alloc, made)?)
}

/// Keys and values, and the dictionary that they make.
type Made = (&'static [(&'static str, &'static str)], &'static str);

/// The first dictionary that is not made.
fn wrongly_made(alloc: Global, rows: &[Made]) -> Option<&'static str> {
    for row in rows {
        let (pairs, want) = *row;
        if !is(made(alloc, pairs), want) {
            return Some(want);
        }
    }
    None
}

static MADE: [Made; 3] = [
    (&[], ""),
    (&[("a", "1"), ("b", "x y"), ("a", "3")], "a 3 b {x y}"),
    (&[("", "#"), ("#", "")], "{} # # {}"),
];

#[test]
fn dictionaries_are_made(rt: HostRuntime) {
    assert_eq!(rt; wrongly_made(rt.alloc(), &MADE), None);
}

/// What is put behind the value under a key: a text, or the elements of a list.
enum More {
    Text(&'static str),
    Items(&'static str),
}

fn change(alloc: Global, more: &More) -> Result<Change, Fault> {
    match more {
        More::Text(text) => Ok(Change::Text(RcStr::from_str(alloc, text)?)),
        More::Items(line) => Ok(Change::Items(words(alloc, line)?)),
    }
}

fn change_under(alloc: Global, dict: &mut Value, name: &str, more: &More) -> Result<(), Fault> {
    let change = change(alloc, more)?;
    dict.dict_change(alloc, key(alloc, name)?, change)
}

/// What a change under a key leaves of a text.
fn changed(alloc: Global, start: &str, name: &str, more: &More) -> Result<String, Fault> {
    let mut dict = value(alloc, start)?;
    let done = change_under(alloc, &mut dict, name, more);
    left(alloc, dict, done)
}

/// A text, a key, what is put behind the value under it, and what is left.
type Changed = (&'static str, &'static str, More, &'static str);

/// What should have been left of the first text of which something else is.
fn wrongly_changed(alloc: Global, rows: &[Changed]) -> Option<&'static str> {
    for row in rows {
        if !is(changed(alloc, row.0, row.1, &row.2), row.3) {
            return Some(row.3);
        }
    }
    None
}

static CHANGED: [Changed; 7] = [
    ("a {x  y}", "a", More::Items("{z w}"), "a {x y {z w}}"),
    ("a 1", "b", More::Items("c d"), "a 1 b {c d}"),
    ("a 1", "b", More::Items(""), "a 1 b {}"),
    ("a {x y} b 2", "a", More::Text(" z"), "a {x y z} b 2"),
    ("a 1", "b", More::Text(""), "a 1 b {}"),
    (
        r"a \{  b 2",
        "a",
        More::Items("x"),
        r"a \{  b 2: unmatched open brace in list",
    ),
    (
        "a  1 b",
        "b",
        More::Text("x"),
        "a  1 b: missing value to go with key",
    ),
];

#[test]
fn what_stands_under_a_key_grows_or_stays(rt: HostRuntime) {
    assert_eq!(rt; wrongly_changed(rt.alloc(), &CHANGED), None);
}

/// Two keys.
type Pair = (&'static str, &'static str);

fn put_under(
    alloc: Global,
    dict: &mut Value,
    (outer, inner): Pair,
    new: &str,
) -> Result<(), Fault> {
    let keys = vec![in alloc; key(alloc, outer)?, key(alloc, inner)?]?;
    dict.dict_put_under(alloc, keys, value(alloc, new)?)
}

/// What a value under a key of the dictionary under another one leaves of a text.
fn under(alloc: Global, start: &str, path: Pair, new: &str) -> Result<String, Fault> {
    let mut dict = value(alloc, start)?;
    let done = put_under(alloc, &mut dict, path, new);
    left(alloc, dict, done)
}

/// A text, two keys, and what is left where `x y` is put under them.
type Put = (&'static str, Pair, &'static str);

/// What should have been left of the first text of which something else is.
fn wrongly_put(alloc: Global, rows: &[Put]) -> Option<&'static str> {
    for row in rows {
        let (start, path, want) = *row;
        if !is(under(alloc, start, path, "x y"), want) {
            return Some(want);
        }
    }
    None
}

static PUT: [Put; 7] = [
    ("", ("a", "b"), "a {b {x y}}"),
    ("a  {b  1 c 2}  d e", ("a", "b"), "a {b {x y} c 2} d e"),
    ("a  {b  1 c 2}  d e", ("a", "e"), "a {b 1 c 2 e {x y}} d e"),
    ("a  {b  1 b 2}", ("d", "b"), "a {b  1 b 2} d {b {x y}}"),
    (
        "a  {b c d}",
        ("a", "b"),
        "a  {b c d}: missing value to go with key",
    ),
    (
        r"a \{  b 2",
        ("a", "b"),
        r"a \{  b 2: unmatched open brace in list",
    ),
    ("a  1 b", ("a", "b"), "a  1 b: missing value to go with key"),
];

#[test]
fn values_are_put_under_a_path(rt: HostRuntime) {
    assert_eq!(rt; wrongly_put(rt.alloc(), &PUT), None);
}

/// The most keys of a path.
const MOST: usize = 64;

fn keys(alloc: Global, path: &[&str]) -> Result<Vec<Key>, AllocError> {
    let mut keys = Vec::new(alloc);
    for name in path {
        keys.push(key(alloc, name)?)?;
    }
    Ok(keys)
}

fn remove_under(alloc: Global, dict: &mut Value, path: &[&str]) -> Result<(), Fault> {
    let keys = keys(alloc, path)?;
    if keys.len() > MOST {
        return Err(Fault::Memory);
    }
    dict.dict_remove_under(alloc, keys)
}

/// What is left of a text where the last of some keys is taken out.
fn without(alloc: Global, start: &str, path: &[&str]) -> Result<String, Fault> {
    let mut dict = value(alloc, start)?;
    let done = remove_under(alloc, &mut dict, path);
    left(alloc, dict, done)
}

/// A text, a path of keys, and what is left.
type Without = (&'static str, &'static [&'static str], &'static str);

/// What should have been left of the first text of which something else is.
fn wrongly_removed(alloc: Global, rows: &[Without]) -> Option<&'static str> {
    for row in rows {
        let (start, path, want) = *row;
        if !is(without(alloc, start, path), want) {
            return Some(want);
        }
    }
    None
}

/// A dictionary of dictionaries.
const NESTED: &str = "a  {b  {c 1 d 2}  e 3}  f {g h i}";

static REMOVED: [Without; 5] = [
    (NESTED, &[], "a  {b  {c 1 d 2}  e 3}  f {g h i}"),
    (NESTED, &["f"], "a {b  {c 1 d 2}  e 3}"),
    (NESTED, &["a", "b"], "a {e 3} f {g h i}"),
    (NESTED, &["a", "b", "c"], "a {b {d 2} e 3} f {g h i}"),
    (NESTED, &["a", "b", "x"], "a {b {c 1 d 2} e 3} f {g h i}"),
];

#[test]
fn keys_are_removed_along_a_path(rt: HostRuntime) {
    assert_eq!(rt; wrongly_removed(rt.alloc(), &REMOVED), None);
}

static KEPT: [Without; 5] = [
    (
        "a  {b 1}",
        &["x", "b"],
        r#"a  {b 1}: key "x" not known in dictionary"#,
    ),
    (
        "a  {b {c 1}}",
        &["a", "x", "y", "z"],
        r#"a  {b {c 1}}: key "x" not known in dictionary"#,
    ),
    (
        "a  {b c d}",
        &["a", "b"],
        "a  {b c d}: missing value to go with key",
    ),
    (
        r"a \{  b 2",
        &["a", "b"],
        r"a \{  b 2: unmatched open brace in list",
    ),
    ("a  1 b", &["a"], "a  1 b: missing value to go with key"),
];

#[test]
fn keys_that_cannot_be_removed_stay(rt: HostRuntime) {
    assert_eq!(rt; wrongly_removed(rt.alloc(), &KEPT), None);
}

fn take(alloc: Global, dict: &mut Value, key: &str) -> Result<String, Fault> {
    match dict.dict_take(alloc, key)? {
        Some(taken) => text(alloc, taken),
        None => Ok(String::from_str(alloc, "none")?),
    }
}

/// What is taken from under a key, and what stays.
fn taken(alloc: Global, start: &str, key: &str) -> Result<String, Fault> {
    let mut dict = value(alloc, start)?;
    let mut taken = take(alloc, &mut dict, key)?;
    taken.push_str(" of ")?;
    taken.push_str(text(alloc, dict)?.as_str())?;
    Ok(taken)
}

fn longer(alloc: Global, mut list: Value, more: &str) -> Result<Value, Fault> {
    list.push(alloc, value(alloc, more)?)?;
    Ok(list)
}

/// Takes the list under a key, and puts it back with one more element.
fn lengthen(alloc: Global, dict: &mut Value, name: &str, more: &str) -> Result<(), Fault> {
    if let Some(list) = dict.dict_take(alloc, name)? {
        let longer = longer(alloc, list, more)?;
        dict.dict_put(alloc, key(alloc, name)?, longer)?;
    }
    Ok(())
}

/// What is left where the list under a key is taken, gets one more element, and is put back.
fn put_back(alloc: Global, start: &str, name: &str, more: &str) -> Result<String, Fault> {
    let mut dict = value(alloc, start)?;
    lengthen(alloc, &mut dict, name, more)?;
    text(alloc, dict)
}

#[test]
fn values_are_taken_and_put_back(rt: HostRuntime) {
    let alloc = rt.alloc();
    assert!(rt; is(taken(alloc, "a {b  c}  d e", "a"), "b  c of a {b  c}  d e"));
    assert!(rt; is(taken(alloc, "a 1 a 2", "a"), "2 of a 1 a 2"));
    assert!(rt; is(taken(alloc, "a 1", "b"), "none of a 1"));
    assert!(rt;
        is(
            put_back(alloc, "a {b  c} d e", "a", "x y"),
            "a {b c {x y}} d e"
        )
    );
}
