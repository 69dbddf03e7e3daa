//! Values that are lists: each call once with ample memory, many elements, deep nesting, and what is shared.
use crate::answers::{counts, is, length, text, value, words};
use std::alloc::Global;
use std::rc::RcStr;
use tcl_chars::Fault;
use tcl_values::{Element, Value};

fn count(alloc: Global, start: &str) -> Result<usize, Fault> {
    value(alloc, start)?.count(alloc)
}

/// An element as a text, or that there is none.
fn item(alloc: Global, start: &str, place: usize) -> Result<RcStr, Fault> {
    match value(alloc, start)?.item(alloc, place)? {
        Some(item) => text(alloc, item),
        None => Ok(RcStr::from_str(alloc, "none")?),
    }
}

/// The lengths of elements, one after another.
fn lengths_of(alloc: Global, elements: &[Element]) -> Result<usize, Fault> {
    let mut lengths = 0usize;
    for element in elements {
        lengths = lengths
            .wrapping_mul(10)
            .wrapping_add(element.text(alloc)?.as_str().len());
    }
    Ok(lengths)
}

fn lengths(alloc: Global, start: &str) -> Result<usize, Fault> {
    let row = value(alloc, start)?.row(alloc)?;
    lengths_of(alloc, row.items())
}

/// The written form of a list that was read.
fn written(alloc: Global, start: &str) -> Result<RcStr, Fault> {
    let row = value(alloc, start)?.row(alloc)?;
    text(alloc, row.into_value()?)
}

#[test]
fn lists_are_read(rt: HostRuntime) {
    let alloc = rt.alloc();
    assert!(rt; counts(count(alloc, "a  {b c} d"), 3));
    assert!(rt; counts(lengths(alloc, "a  {b c} de"), 132));
    assert!(rt; is(item(alloc, "a  {b c} d", 1), "b c"));
    assert!(rt; is(item(alloc, "a  {b c} d", 3), "none"));
    assert!(rt; is(written(alloc, "a  {b c} d"), "a {b c} d"));
}

/// Does a script's error say this?
fn fails(found: Result<usize, Fault>, want: &str) -> bool {
    match found {
        Err(Fault::Error(message)) => message.as_str() == want,
        _ => false,
    }
}

#[test]
fn a_text_that_is_no_list(rt: HostRuntime) {
    let want = "list element in braces followed by \"b\" instead of space";
    assert!(rt; fails(count(rt.alloc(), "{a}b c"), want));
}

fn part(alloc: Global, start: &str, first: usize, count: usize) -> Result<RcStr, Fault> {
    text(alloc, value(alloc, start)?.range(alloc, first, count)?)
}

/// What should have been the first part of `a  {b c} d` that is another one.
fn wrong_part(alloc: Global, rows: &[(usize, usize, &'static str)]) -> Option<&'static str> {
    for row in rows {
        let (first, count, want) = *row;
        if !is(part(alloc, "a  {b c} d", first, count), want) {
            return Some(want);
        }
    }
    None
}

static PARTS: [(usize, usize, &str); 3] = [(1, 9, "{b c} d"), (9, 1, ""), (0, 1, "a")];

#[test]
fn parts_of_lists(rt: HostRuntime) {
    assert_eq!(rt; wrong_part(rt.alloc(), &PARTS), None);
}

fn listed(alloc: Global, line: &str) -> Result<RcStr, Fault> {
    text(alloc, Value::of_list(alloc, words(alloc, line)?)?)
}

fn pushed(alloc: Global, start: &str, item: &str) -> Result<RcStr, Fault> {
    let mut list = value(alloc, start)?;
    list.push(alloc, value(alloc, item)?)?;
    text(alloc, list)
}

fn replaced(alloc: Global, start: &str, place: usize, item: &str) -> Result<RcStr, Fault> {
    let mut list = value(alloc, start)?;
    list.replace_item(alloc, place, value(alloc, item)?)?;
    text(alloc, list)
}

/// A copy of a list, made before one element more is pushed to the list.
fn copied_before(alloc: Global, list: &mut Value) -> Result<Value, Fault> {
    list.count(alloc)?;
    let copy = list.copy()?;
    list.push(alloc, Value::of_int(1))?;
    Ok(copy)
}

/// A copy of a list, after one element more was pushed to the list.
fn before_a_push(alloc: Global, start: &str) -> Result<RcStr, Fault> {
    let mut list = value(alloc, start)?;
    text(alloc, copied_before(alloc, &mut list)?)
}

#[test]
fn lists_are_made_and_changed(rt: HostRuntime) {
    let alloc = rt.alloc();
    assert!(rt; is(listed(alloc, "# {} {a b}"), "{#} {} {a b}"));
    assert!(rt; is(pushed(alloc, "a  b", "{"), "a b \\{"));
    assert!(rt; is(replaced(alloc, "a  b", 1, "x"), "a x"));
    assert!(rt; is(replaced(alloc, "a  b", 2, "x"), "a  b"));
    assert!(rt; is(before_a_push(alloc, "a  b"), "a  b"));
}

fn spliced(
    alloc: Global,
    start: &str,
    first: usize,
    count: usize,
    items: &str,
) -> Result<RcStr, Fault> {
    let mut list = value(alloc, start)?;
    list.splice(alloc, first, count, words(alloc, items)?)?;
    text(alloc, list)
}

/// A list, a place, a count, what takes the place of so many elements there, and the list then.
type Spliced = (&'static str, usize, usize, &'static str, &'static str);

/// What should have been the first list that is another one.
fn wrongly_spliced(alloc: Global, rows: &[Spliced]) -> Option<&'static str> {
    for row in rows {
        let (start, first, count, items, want) = *row;
        if !is(spliced(alloc, start, first, count, items), want) {
            return Some(want);
        }
    }
    None
}

static SPLICED: [Spliced; 4] = [
    ("a b c d", 1, 2, "x y z", "a x y z d"),
    ("a b c", 0, 1, "", "b c"),
    ("a b c", 9, 9, "z", "a b c z"),
    ("a b c", 1, usize::MAX, "z", "a z"),
];

#[test]
fn elements_take_the_place_of_others(rt: HostRuntime) {
    assert_eq!(rt; wrongly_spliced(rt.alloc(), &SPLICED), None);
}

/// The numbers below a count, as a list made by pushes.
fn numbers(alloc: Global, count: u32) -> Result<Value, Fault> {
    let mut list = value(alloc, "")?;
    for number in 0..count {
        list.push(alloc, Value::of_int(i64::from(number)))?;
    }
    Ok(list)
}

/// A thousand numbers, each of which is replaced.
fn all_replaced(alloc: Global) -> Result<RcStr, Fault> {
    let mut list = numbers(alloc, 1000)?;
    for place in 0..1000usize {
        list.replace_item(alloc, place, Value::of_int(7))?;
    }
    text(alloc, list)
}

/// How many elements a list has that is put into its middle.
fn put_into_itself(alloc: Global, list: &mut Value) -> Result<usize, Fault> {
    let items = list.list(alloc)?;
    list.splice(alloc, 500, 0, items)?;
    list.count(alloc)
}

/// A thousand numbers in the middle of a thousand.
fn doubled(alloc: Global) -> Result<usize, Fault> {
    let mut list = numbers(alloc, 1000)?;
    put_into_itself(alloc, &mut list)
}

#[test]
fn a_thousand_elements(rt: HostRuntime) {
    assert!(rt; counts(length(all_replaced(rt.alloc())), 1999));
    assert!(rt; counts(doubled(rt.alloc()), 2000));
}

/// The list `a b` in a list of its own, and that in another, `times` times over.
fn nested(alloc: Global, times: u32) -> Result<Value, Fault> {
    let mut list = value(alloc, "a b")?;
    for _ in 0..times {
        let mut outer = Vec::new(alloc);
        outer.push(list)?;
        list = Value::of_list(alloc, outer)?;
    }
    Ok(list)
}

/// The first element's first element, and so on, `times` levels down.
fn descended(alloc: Global, list: Result<Value, Fault>, times: u32) -> Result<RcStr, Fault> {
    let mut list = list?;
    for _ in 0..times {
        if let Some(inner) = list.item(alloc, 0)? {
            list = inner;
        }
    }
    text(alloc, list)
}

/// Braces inside one another, `times` deep.
fn braces(alloc: Global, times: u32) -> Result<Value, Fault> {
    let mut text = String::new(alloc);
    for _ in 0..times {
        text.push('{')?;
    }
    for _ in 0..times {
        text.push('}')?;
    }
    Ok(Value::of_string(alloc, text)?)
}

#[test]
fn deeply_nested(rt: HostRuntime) {
    let alloc = rt.alloc();
    assert!(rt; is(descended(alloc, nested(alloc, 1000), 1000), "a b"));
    assert!(rt;
        counts(
            length(descended(alloc, braces(alloc, 100_000), 10)),
            199_980
        )
    );
}
