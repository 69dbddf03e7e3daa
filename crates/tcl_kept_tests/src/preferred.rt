//! Values that keep what they are read as in their place, each call once with ample memory.
use crate::answers::{holds, key, text, value};
use std::alloc::Global;
use tcl_chars::Fault;
use tcl_values::Value;

/// A list of 130 numbers, which is a dictionary with repeated keys.
const DIGITS: &str =
    "1 2 3 4 5 6 7 8 9 0 1 2 3 4 5 6 7 8 9 0 1 2 3 4 5 6 7 8 9 0 1 2 3 4 5 6 7 8 9 0 1 2 3 4 5 6 7 8 9 0 1 2 3 4 5 6 7 8 9 0 1 2 3 4 5 6 7 8 9 0 1 2 3 4 5 6 7 8 9 0 1 2 3 4 5 6 7 8 9 0 1 2 3 4 5 6 7 8 9 0 1 2 3 4 5 6 7 8 9 0 1 2 3 4 5 6 7 8 9 0 1 2 3 4 5 6 7 8 9 0";

/// Sixteen letters, which are a dictionary of eight.
const LETTERS: &str = "a b c d e f g h i j k l m n o p q";

/// A text of more than 256 bytes that is no list.
const FAULTY: &str =
    "{ 1 2 3 4 5 6 7 8 9 0 1 2 3 4 5 6 7 8 9 0 1 2 3 4 5 6 7 8 9 0 1 2 3 4 5 6 7 8 9 0 1 2 3 4 5 6 7 8 9 0 1 2 3 4 5 6 7 8 9 0 1 2 3 4 5 6 7 8 9 0 1 2 3 4 5 6 7 8 9 0 1 2 3 4 5 6 7 8 9 0 1 2 3 4 5 6 7 8 9 0 1 2 3 4 5 6 7 8 9 0 1 2 3 4 5 6 7 8 9 0 1 2 3 4 5 6 7 8 9 0";

/// A text, and whether it is to be read anew each time even where its list was wanted.
static TEXTS: [(&str, bool); 5] = [
    ("", false),
    ("a b", false),
    (DIGITS, false),
    (LETTERS, false),
    (FAULTY, true),
];

/// Is a text the same after its list was wanted, and kept as one or not?
fn stays(alloc: Global, row: (&str, bool)) -> Result<bool, Fault> {
    let (said, unread) = row;
    let mut list = value(alloc, said)?;
    list.prefer_list(alloc)?;
    Ok(list.is_unread() == unread && text(alloc, list)?.as_str() == said)
}

/// The first text of which that isn't so.
fn other_text(alloc: Global, rows: &[(&'static str, bool)]) -> Option<&'static str> {
    for row in rows {
        if !holds(stays(alloc, *row)) {
            return Some(row.0);
        }
    }
    None
}

#[test]
fn a_long_text_becomes_its_list(rt: HostRuntime) {
    assert_eq!(rt; other_text(rt.alloc(), &TEXTS), None);
}

/// A dictionary with a value under each of two keys.
fn pair(alloc: Global, one: &str, other: &str) -> Result<Value, Fault> {
    let one = (key(alloc, "one")?, value(alloc, one)?);
    let other = (key(alloc, "the other")?, value(alloc, other)?);
    Ok(Value::of_dict(alloc, vec![in alloc; one, other]?)?)
}

/// Is a dictionary the same after its list was wanted, with four elements and two keys?
fn is_list_and_dictionary(alloc: Global) -> Result<bool, Fault> {
    let mut dict = pair(alloc, "{", "1 2")?;
    dict.prefer_list(alloc)?;
    let is_read = !dict.is_unread() && !dict.lacks_dictionary();
    let sizes = (dict.count(alloc)?, dict.dict_size(alloc)?);
    Ok(is_read && sizes == (4, 2) && text(alloc, dict)?.as_str() == "one \\{ {the other} {1 2}")
}

#[test]
fn a_dictionary_becomes_its_list(rt: HostRuntime) {
    assert!(rt; holds(is_list_and_dictionary(rt.alloc())));
}

/// Elements of a list of three, by their places: are they to be read anew before their list was wanted, and after it?
static PLACES: [(usize, bool, bool); 4] = [
    (0, false, false),
    (1, true, false),
    (2, true, true),
    (3, false, false),
];

/// The list of a letter, a long text that is a list and one that is none.
fn three(alloc: Global) -> Result<Value, Fault> {
    let items = vec![in alloc;
        value(alloc, "a")?,
        value(alloc, DIGITS)?,
        value(alloc, FAULTY)?,
    ]?;
    Ok(Value::of_list(alloc, items)?)
}

/// Is an element kept as this row says, and the list the same, which somebody else holds too?
fn is_kept(alloc: Global, row: (usize, bool, bool)) -> Result<bool, Fault> {
    let (place, before, after) = row;
    let mut list = three(alloc)?;
    let other = list.copy()?;
    let was = list.is_unread_at(place);
    list.prefer_list_at(alloc, place)?;
    let is = list.is_unread_at(place);
    let same = text(alloc, list)?.as_str() == text(alloc, other)?.as_str();
    Ok(same && was == before && is == after)
}

/// The first place of which that isn't so.
fn other_place(alloc: Global, rows: &[(usize, bool, bool)]) -> Option<usize> {
    for row in rows {
        if !holds(is_kept(alloc, *row)) {
            return Some(row.0);
        }
    }
    None
}

#[test]
fn a_long_element_becomes_its_list(rt: HostRuntime) {
    assert_eq!(rt; other_place(rt.alloc(), &PLACES), None);
}

/// What stands under a key of the value under another one, after the inner dictionary was wanted; and is the outer one the same?
fn is_found_under(alloc: Global, inner: &str, want: Option<&str>) -> Result<bool, Fault> {
    let mut dict = pair(alloc, inner, "a")?;
    let before = text(alloc, dict.copy()?)?;
    dict.prefer_dictionary_under(alloc, "one")?;
    let same = text(alloc, dict.copy()?)?.as_str() == before.as_str();
    let Some(mut under) = dict.dict_get(alloc, "one")? else {
        return Ok(false);
    };
    let found = match under.dict_get(alloc, "7")? {
        Some(value) => Some(text(alloc, value)?),
        None => None,
    };
    let is = match (&found, want) {
        (Some(found), Some(want)) => found.as_str() == want,
        (None, None) => true,
        _ => false,
    };
    Ok(same && is)
}

#[test]
fn a_long_text_under_a_key(rt: HostRuntime) {
    let alloc = rt.alloc();
    assert!(rt; holds(is_found_under(alloc, DIGITS, Some("8"))));
    assert!(rt; holds(is_found_under(alloc, "a 1 b 2 c 3 d 4 e 5 f 6 g 7 h 8 i 9", None)));
}
