//! Lists that keep the dictionary that they are read as, each call once with ample memory.
use crate::answers::{holds, is, key, value};
use std::alloc::Global;
use tcl_chars::Fault;
use tcl_values::Value;

/// A list of so many numbers, each behind itself, to be read as a dictionary.
fn numbers(alloc: Global, count: i64) -> Result<Value, Fault> {
    let mut list = value(alloc, "")?;
    for number in 0..count {
        list.push(alloc, Value::of_int(number))?;
        list.push(alloc, Value::of_int(number))?;
    }
    list.prefer_dictionary(alloc)?;
    Ok(list)
}

/// Has a list so many elements, and as a dictionary so many keys?
fn has_sizes(alloc: Global, list: &Value, elements: usize, keys: usize) -> Result<bool, Fault> {
    let count = list.copy()?.count(alloc)?;
    let size = list.copy()?.dict_size(alloc)?;
    Ok(count == elements && size == keys)
}

/// Has a list of so many numbers these sizes?
fn sized(alloc: Global, count: i64, elements: usize, keys: usize) -> Result<bool, Fault> {
    has_sizes(alloc, &numbers(alloc, count)?, elements, keys)
}

/// The first count of numbers whose list has other sizes.
fn other_sizes(alloc: Global, rows: &[(i64, usize, usize)]) -> Option<i64> {
    for row in rows {
        let (count, elements, keys) = *row;
        if !holds(sized(alloc, count, elements, keys)) {
            return Some(count);
        }
    }
    None
}

/// Counts of numbers, and how many elements and keys there are then.
static SIZES: [(i64, usize, usize); 6] = [
    (0, 0, 0),
    (1, 2, 1),
    (7, 14, 7),
    (8, 16, 8),
    (9, 18, 9),
    (100, 200, 100),
];

#[test]
fn long_lists_and_short_ones(rt: HostRuntime) {
    assert_eq!(rt; other_sizes(rt.alloc(), &SIZES), None);
}

/// What a key stands for in a copy of a value.
fn found(alloc: Global, value: &Value, key: &str) -> Result<Option<Value>, Fault> {
    value.copy()?.dict_get(alloc, key)
}

/// Writes what a key stands for in a copy of a value, or that it stands for nothing.
fn write_found(alloc: Global, value: &Value, key: &str, out: &mut String) -> Result<(), Fault> {
    match found(alloc, value, key)? {
        Some(one) => one.write_to(alloc, out)?,
        None => out.push('-')?,
    }
    Ok(())
}

/// What a key stands for in a copy of a value, and in the value again.
fn looked_up(alloc: Global, value: &Value, key: &str) -> Result<String, Fault> {
    let mut out = String::new(alloc);
    write_found(alloc, value, key, &mut out)?;
    write_found(alloc, value, key, &mut out)?;
    Ok(out)
}

/// A key, and what it stands for.
type Row = (&'static str, &'static str);

/// The first key that stands for something else in a value.
fn wrong(alloc: Global, value: &Value, rows: &[Row]) -> Option<&'static str> {
    for row in rows {
        let (key, want) = *row;
        if !is(looked_up(alloc, value, key), want) {
            return Some(key);
        }
    }
    None
}

/// The same of a list that was made, if it could be made.
fn wrong_in(alloc: Global, list: Result<Value, Fault>, rows: &[Row]) -> Option<&'static str> {
    match list {
        Ok(list) => wrong(alloc, &list, rows),
        Err(_) => Some("no list"),
    }
}

static KEYS: [Row; 5] = [
    ("0", "00"),
    ("7", "77"),
    ("11", "1111"),
    ("12", "--"),
    ("", "--"),
];

#[test]
fn keys_are_found_beside_a_list(rt: HostRuntime) {
    let alloc = rt.alloc();
    assert_eq!(rt; wrong_in(alloc, numbers(alloc, 12), &KEYS), None);
}

/// A list with another element in the place of one.
fn replaced(alloc: Global, count: i64, place: usize, item: i64) -> Result<Value, Fault> {
    let mut list = numbers(alloc, count)?;
    let _before = list.replace_item(alloc, place, Value::of_int(item))?;
    list.prefer_dictionary(alloc)?;
    Ok(list)
}

/// Has such a list these sizes?
fn replaced_sized(alloc: Global) -> Result<bool, Fault> {
    has_sizes(alloc, &replaced(alloc, 10, 4, 9)?, 20, 9)
}

static CHANGED: [Row; 4] = [("1", "11"), ("2", "--"), ("9", "99"), ("3", "33")];

#[test]
fn a_changed_list_is_another_dictionary(rt: HostRuntime) {
    let alloc = rt.alloc();
    assert_eq!(rt; wrong_in(alloc, replaced(alloc, 10, 4, 9), &CHANGED), None);
    assert!(rt; holds(replaced_sized(alloc)));
}

/// A list in which one more element stands behind the pairs.
fn odd(alloc: Global, count: i64) -> Result<Value, Fault> {
    let mut list = numbers(alloc, count)?;
    list.push(alloc, Value::of_int(count))?;
    list.prefer_dictionary(alloc)?;
    Ok(list)
}

/// Does such a list that is read as a dictionary have this error?
fn fails(alloc: Global, list: Result<Value, Fault>, want: &str) -> Result<bool, Fault> {
    match list?.dict_size(alloc) {
        Err(Fault::Error(message)) => Ok(message.as_str() == want),
        _ => Ok(false),
    }
}

#[test]
fn an_odd_list_is_no_dictionary(rt: HostRuntime) {
    let alloc = rt.alloc();
    let want = "missing value to go with key";
    assert!(rt; holds(fails(alloc, odd(alloc, 10), want)));
}

/// A dictionary with a list under one key, which is to be read as a dictionary.
fn outer(alloc: Global, under: &str, count: i64) -> Result<Value, Fault> {
    let pairs = vec![in alloc; (key(alloc, under)?, numbers(alloc, count)?)]?;
    let mut dict = Value::of_dict(alloc, pairs)?;
    dict.prefer_dictionary_under(alloc, under)?;
    Ok(dict)
}

/// What a key stands for in the dictionary under another one.
fn inner(alloc: Global, value: &Value, under: &str, key: &str) -> Result<String, Fault> {
    match found(alloc, value, under)? {
        Some(inner) => looked_up(alloc, &inner, key),
        None => Ok(String::from_str(alloc, "none")?),
    }
}

/// The first key that stands for something else in the dictionary under the key before it.
fn wrong_under(
    alloc: Global,
    value: &Value,
    rows: &[(&'static str, &'static str, &'static str)],
) -> Option<&'static str> {
    for row in rows {
        let (under, key, want) = *row;
        if !is(inner(alloc, value, under, key), want) {
            return Some(key);
        }
    }
    None
}

static UNDER: [(&str, &str, &str); 4] = [
    ("numbers", "0", "00"),
    ("numbers", "19", "1919"),
    ("numbers", "20", "--"),
    ("none", "0", "none"),
];

/// Do all of these stand in a dictionary with twenty numbers under one key?
fn are_found_under(alloc: Global) -> Result<bool, Fault> {
    let dict = outer(alloc, "numbers", 20)?;
    Ok(wrong_under(alloc, &dict, &UNDER).is_none())
}

#[test]
fn a_list_under_a_key(rt: HostRuntime) {
    assert!(rt; holds(are_found_under(rt.alloc())));
}
