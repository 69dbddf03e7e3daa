//! Commands on dictionaries: each once with ample memory, and many keys. A helper answers what is written, or the script's error.
use crate::answers::{counts, holds, is, repeated, said, text, value, words};
use std::alloc::Global;
use std::rc::RcStr;
use tcl_chars::{Dialect, Fault};
use tcl_dicts::{
    dict_append, dict_create, dict_exists, dict_get, dict_incr, dict_keys, dict_lappend,
    dict_merge, dict_remove, dict_replace, dict_set, dict_size, dict_unset, dict_values,
};
use tcl_values::Value;

fn answered(alloc: Global, command: &str, words: &mut [Value]) -> Result<Value, Fault> {
    match command {
        "create" => dict_create(alloc, words),
        "exists" => dict_exists(alloc, words),
        "get" => dict_get(alloc, words),
        "keys" => dict_keys(alloc, words),
        "merge" => dict_merge(alloc, words),
        "remove" => dict_remove(alloc, words),
        "replace" => dict_replace(alloc, words),
        "size" => dict_size(alloc, words),
        _ => dict_values(alloc, words),
    }
}

/// What the command says of the words of a line.
fn ran(alloc: Global, command: &str, line: &str) -> Result<RcStr, Fault> {
    let mut words = words(alloc, line)?;
    said(alloc, answered(alloc, command, &mut words))
}

/// The words of the first row whose command says something else.
fn wrong(
    alloc: Global,
    rows: &[(&'static str, &'static str, &'static str)],
) -> Option<&'static str> {
    for row in rows {
        let (command, line, want) = *row;
        if !is(ran(alloc, command, line), want) {
            return Some(line);
        }
    }
    None
}

/// Commands, the words behind their names as a list, and what they say.
static MADE_AND_LOOKED_AT: [(&str, &str, &str); 15] = [
    ("create", "a 1 b 2 a 3", "a 3 b 2"),
    (
        "create",
        "a",
        r#"wrong # args: should be "dict create ?key value ...?""#,
    ),
    ("merge", "{a 1 b 2} {b 3 c 4}", "a 1 b 3 c 4"),
    ("remove", "{a 1 b 2} a x", "b 2"),
    ("replace", "{a  1} b {x y}", "a 1 b {x y}"),
    ("get", "{a 1 b 2 a 3}", "a 3 b 2"),
    ("get", "{a {b c}} a b", "c"),
    ("get", "{a 1} x", r#"key "x" not known in dictionary"#),
    ("get", "{a {b c d}} a x", "missing value to go with key"),
    ("exists", "a x", "0"),
    ("exists", "{a 1} a", "1"),
    ("size", "{a 1 a 2}", "1"),
    ("keys", "{a 1 b 2} b*", "b"),
    ("keys", "{a 1 b 2}", "a b"),
    ("values", "{a 1 b 22} ?", "1"),
];

#[test]
fn made_and_looked_at(rt: HostRuntime) {
    assert_eq!(rt; wrong(rt.alloc(), &MADE_AND_LOOKED_AT), None);
}

/// Changes a dictionary by the command, where it takes that many words.
fn change(
    alloc: Global,
    command: &str,
    value: &mut Value,
    words: &mut [Value],
) -> Result<(), Fault> {
    match command {
        "append" => dict_append(alloc, value, words),
        "incr" if words.len() == 2 => dict_incr(alloc, value, words, Dialect::Tcl86),
        "lappend" => dict_lappend(alloc, value, words),
        "set" if words.len() >= 2 => dict_set(alloc, value, words),
        "unset" if !words.is_empty() => dict_unset(alloc, value, words),
        _ => Ok(()),
    }
}

/// Changes a dictionary by the command with the words of a line.
fn run(alloc: Global, command: &str, value: &mut Value, line: &str) -> Result<(), Fault> {
    let mut words = words(alloc, line)?;
    change(alloc, command, value, &mut words)
}

/// What the command leaves of a text, or its error.
fn left(alloc: Global, command: &str, start: &str, line: &str) -> Result<RcStr, Fault> {
    let mut value = value(alloc, start)?;
    match run(alloc, command, &mut value, line) {
        Ok(()) => text(alloc, value),
        Err(fault) => said(alloc, Err(fault)),
    }
}

/// A command, a text, the words behind the variable's name as a list, and what is left of the text.
type Change = (&'static str, &'static str, &'static str, &'static str);

/// The words of the first change that leaves something else.
fn wrongly_changed(alloc: Global, rows: &[Change]) -> Option<&'static str> {
    for row in rows {
        let (command, start, line, want) = *row;
        if !is(left(alloc, command, start, line), want) {
            return Some(line);
        }
    }
    None
}

static CHANGES: [Change; 12] = [
    ("set", "a {x y}", "a b c d", "a {x y b {c d}}"),
    ("set", "a 1", "a b c d", "missing value to go with key"),
    ("unset", "a 1  b 2", "c", "a 1 b 2"),
    (
        "unset",
        "a 1  b 2",
        "c d",
        r#"key "c" not known in dictionary"#,
    ),
    ("unset", "a {x y z w}", "a x", "a {z w}"),
    ("append", "a {x y}", "a 1 2 3", "a {x y123}"),
    ("lappend", "a {x  y}", "a", "a {x  y}"),
    ("lappend", "a {x  y}", "a z", "a {x y z}"),
    ("lappend", "j 1", "k {x y}", "j 1 k {{x y}}"),
    ("lappend", "k {", "k x", "unmatched open brace in list"),
    ("incr", "a 1  b 2", "b 1", "a 1 b 3"),
    ("incr", "a q", "a x", r#"expected integer but got "q""#),
];

#[test]
fn changed(rt: HostRuntime) {
    assert_eq!(rt; wrongly_changed(rt.alloc(), &CHANGES), None);
}

/// Puts so many keys into a dictionary.
fn put(alloc: Global, value: &mut Value, count: u32) -> Result<(), Fault> {
    for number in 0..count {
        let key = Value::of_int(i64::from(number)).key(alloc)?;
        value.dict_put(alloc, key, Value::of_int(1))?;
    }
    Ok(())
}

/// The size of a dictionary in which `count` keys were put, each of them twice.
fn many(alloc: Global, count: u32) -> Result<usize, Fault> {
    let mut value = value(alloc, "")?;
    put(alloc, &mut value, count)?;
    put(alloc, &mut value, count)?;
    value.dict_size(alloc)
}

#[test]
fn ten_thousand_keys(rt: HostRuntime) {
    assert!(rt; counts(many(rt.alloc(), 10_000), 10_000));
}

/// The dictionary that the command leaves of an empty one when it runs `count` times.
fn grown(alloc: Global, command: &str, line: &str, count: u32) -> Result<Value, Fault> {
    let mut value = value(alloc, "")?;
    let mut words = words(alloc, line)?;
    for _ in 0..count {
        change(alloc, command, &mut value, &mut words)?;
    }
    Ok(value)
}

/// Is the element `a b`, put a thousand times at the end of the list under a key, there a thousand times?
fn elements_grow(alloc: Global) -> Result<bool, Fault> {
    let found = text(alloc, grown(alloc, "lappend", "k {a b}", 1000)?)?;
    let written = repeated(alloc, "k {{a b}", " {a b}", 999, "}")?;
    Ok(found.as_str() == written.as_str())
}

/// Is the text `ab`, put a thousand times behind the value of a key, there a thousand times?
fn text_grows(alloc: Global) -> Result<bool, Fault> {
    let found = text(alloc, grown(alloc, "append", "k ab", 1000)?)?;
    let written = repeated(alloc, "k ", "ab", 1000, "")?;
    Ok(found.as_str() == written.as_str())
}

#[test]
fn a_thousand_times(rt: HostRuntime) {
    let alloc = rt.alloc();
    assert!(rt; holds(elements_grow(alloc)));
    assert!(rt; holds(text_grows(alloc)));
}

/// A copy of a dictionary, which then has one element more in the list under a key.
fn copied(alloc: Global, value: &mut Value) -> Result<Value, Fault> {
    let copy = value.copy()?;
    run(alloc, "lappend", value, "k c")?;
    Ok(copy)
}

fn has_text(alloc: Global, value: &mut Value, want: &str) -> Result<bool, Fault> {
    Ok(value.text(alloc)?.as_str() == want)
}

/// Has only the dictionary the element more, and then only its copy the text more?
fn are_apart(alloc: Global, value: &mut Value, copy: &mut Value) -> Result<bool, Fault> {
    let stays = has_text(alloc, copy, "k {{a b} {a b}}")?;
    let grows = has_text(alloc, value, "k {{a b} {a b} c}")?;
    run(alloc, "append", copy, "k c")?;
    Ok(stays && grows && has_text(alloc, copy, "k {{a b} {a b}c}")?)
}

/// Is a copy another dictionary as soon as one of them changes?
fn copy_stays(alloc: Global) -> Result<bool, Fault> {
    let mut value = grown(alloc, "lappend", "k {a b}", 2)?;
    let mut copy = copied(alloc, &mut value)?;
    are_apart(alloc, &mut value, &mut copy)
}

#[test]
fn copies_stay(rt: HostRuntime) {
    assert!(rt; holds(copy_stays(rt.alloc())));
}
