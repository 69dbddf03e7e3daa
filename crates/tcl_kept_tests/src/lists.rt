//! Lists whose elements are put, gathered and looked at, each call once with ample memory.
use crate::answers::{holds, is, left, text, value, words};
use std::alloc::{AllocError, Global};
use std::rc::RcStr;
use tcl_chars::Fault;
use tcl_values::{Gathering, Value};

/// The most places of a path.
const MOST: usize = 64;

fn places(alloc: Global, path: &[usize]) -> Result<Vec<usize>, AllocError> {
    let mut places = Vec::new(alloc);
    for place in path {
        places.push(*place)?;
    }
    Ok(places)
}

fn put_under(alloc: Global, list: &mut Value, path: &[usize], new: &str) -> Result<(), Fault> {
    let places = places(alloc, path)?;
    if places.len() > MOST {
        return Err(Fault::Memory);
    }
    list.put_item_under(alloc, places, value(alloc, new)?)
}

/// What an element at the last of some places leaves of a text.
fn placed(alloc: Global, start: &str, path: &[usize], new: &str) -> Result<String, Fault> {
    let mut list = value(alloc, start)?;
    let done = put_under(alloc, &mut list, path, new);
    left(alloc, list, done)
}

/// A text, a path of places, and what is left where `x y` is put at its end.
type Placed = (&'static str, &'static [usize], &'static str);

/// What should have been left of the first text of which something else is.
fn wrongly_placed(alloc: Global, rows: &[Placed]) -> Option<&'static str> {
    for row in rows {
        let (start, path, want) = *row;
        if !is(placed(alloc, start, path, "x y"), want) {
            return Some(want);
        }
    }
    None
}

/// A list of lists.
const NESTED: &str = "a  {b  {c d}}  e";

static PLACED: [Placed; 7] = [
    (NESTED, &[], "x y"),
    (NESTED, &[2], "a {b  {c d}} {x y}"),
    (NESTED, &[3], "a {b  {c d}} e {x y}"),
    (NESTED, &[1, 1, 0], "a {b {{x y} d}} e"),
    (NESTED, &[1, 2], "a {b {c d} {x y}} e"),
    (NESTED, &[3, 0], "a {b  {c d}} e {{x y}}"),
    (
        r"a  b \{",
        &[2, 0],
        r"a  b \{: unmatched open brace in list",
    ),
];

#[test]
fn elements_under_places(rt: HostRuntime) {
    assert_eq!(rt; wrongly_placed(rt.alloc(), &PLACED), None);
}

/// How many elements a list has whose text nobody has asked for, if it is one.
fn unasked(value: &Value) -> Result<Option<usize>, AllocError> {
    Ok(value.unwritten()?.map(|row| row.len()))
}

/// Is a list of two elements one that nobody has asked for, until its text is asked for?
fn is_asked_for(alloc: Global) -> Result<bool, Fault> {
    let mut list = Value::of_list(alloc, words(alloc, "{a b} c")?)?;
    let before = unasked(&list)?;
    list.text(alloc)?;
    Ok(before == Some(2) && unasked(&list)?.is_none())
}

/// Is a value not a list that nobody has read?
fn is_other(value: Result<Value, Fault>) -> Result<bool, Fault> {
    Ok(unasked(&value?)?.is_none())
}

#[test]
fn lists_that_nobody_has_read(rt: HostRuntime) {
    let alloc = rt.alloc();
    assert!(rt; holds(is_asked_for(alloc)));
    assert!(rt; holds(is_other(value(alloc, "a b"))));
    assert!(rt; holds(is_other(Ok(Value::of_int(1)))));
}

/// The elements of a list from one place on, in front of another one, and values behind them, as a list.
fn gathered(
    alloc: Global,
    start: &str,
    (first, last): (usize, usize),
    more: &str,
) -> Result<String, Fault> {
    let row = value(alloc, start)?.row(alloc)?;
    let more = words(alloc, more)?;
    let part = Gathering::with_capacity(alloc, 4)?.with_part(&row, first, last)?;
    let gathered = part.with_values(alloc, more.as_slice())?;
    text(alloc, gathered.into_value(alloc)?)
}

/// Two places of `a  {b c} d e`, values as a list, and what is gathered.
type Gathered = ((usize, usize), &'static str, &'static str);

/// What should have been gathered first where something else is.
fn wrongly_gathered(alloc: Global, rows: &[Gathered]) -> Option<&'static str> {
    for row in rows {
        let (places, more, want) = *row;
        if !is(gathered(alloc, "a  {b c} d e", places, more), want) {
            return Some(want);
        }
    }
    None
}

static GATHERED: [Gathered; 4] = [
    ((1, 3), "{x y} {}", "{b c} d {x y} {}"),
    ((0, 9), "", "a {b c} d e"),
    ((3, 1), "#", "{#}"),
    ((9, 9), "", ""),
];

#[test]
fn parts_and_values_are_gathered(rt: HostRuntime) {
    assert_eq!(rt; wrongly_gathered(rt.alloc(), &GATHERED), None);
}

/// A text of a script as an element in four ways: taken, put behind, and both gathered as they stand there; and behind them itself, gathered.
fn named_five_times(alloc: Global, text: &str) -> Result<String, Fault> {
    let name = [Value::of_name(alloc, RcStr::from_str(alloc, text)?)?];
    let mut list = Value::of_list(alloc, vec![in alloc; name[0].copy()?]?)?;
    list.push(alloc, name[0].copy()?)?;
    let both = list.list(alloc)?;
    let gathered = Gathering::of_row(alloc, list.row(alloc)?)?.with_values(alloc, &both)?;
    left(
        alloc,
        gathered.with_values(alloc, &name)?.into_value(alloc)?,
        Ok(()),
    )
}

/// A text of a script, and the list that it is five times.
type Named = (&'static str, &'static str);

/// The first text that makes another list.
fn wrongly_named(alloc: Global, rows: &[Named]) -> Option<&'static str> {
    for row in rows {
        let (text, want) = *row;
        if !is(named_five_times(alloc, text), want) {
            return Some(text);
        }
    }
    None
}

static NAMED: [Named; 6] = [
    ("x", "x x x x x"),
    ("", "{} {} {} {} {}"),
    ("seven77", "seven77 seven77 seven77 seven77 seven77"),
    ("eight888", "eight888 eight888 eight888 eight888 eight888"),
    ("\u{e9}", "\u{e9} \u{e9} \u{e9} \u{e9} \u{e9}"),
    ("a b", "{a b} {a b} {a b} {a b} {a b}"),
];

#[test]
fn texts_of_a_script_as_elements(rt: HostRuntime) {
    assert_eq!(rt; wrongly_named(rt.alloc(), &NAMED), None);
}
