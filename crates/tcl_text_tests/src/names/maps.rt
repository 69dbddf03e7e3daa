//! Maps from a few names, one of which isn't ASCII, and from many.
use crate::answers::{holds, is, repeated};
use std::alloc::{AllocError, Global};
use std::rc::RcStr;
use tcl_names::NameMap;

fn add_letters(letters: &mut NameMap<u8>, alloc: Global) -> Result<(), AllocError> {
    letters.insert(alloc, "b", 2)?;
    letters.insert(alloc, "ä", 3)?;
    letters.insert(alloc, "a", 1)
}

fn letters(alloc: Global) -> Result<NameMap<u8>, AllocError> {
    let mut letters = NameMap::new(alloc);
    add_letters(&mut letters, alloc)?;
    Ok(letters)
}

/// The letters, where `a` has become 9, `b` 7, and `ä` is gone.
fn changed(alloc: Global) -> Result<NameMap<u8>, AllocError> {
    let mut letters = letters(alloc)?;
    if let Some(value) = letters.get_mut("b") {
        *value = 7;
    }
    letters.insert(alloc, "a", 9)?;
    letters.remove("ä");
    letters.remove("c");
    Ok(letters)
}

/// The names, one behind another.
fn names(alloc: Global, letters: &NameMap<u8>) -> Result<String, AllocError> {
    let mut said = String::new(alloc);
    for name in letters.names(alloc)? {
        said.push_str(name.as_str())?;
    }
    Ok(said)
}

fn push_entry(said: &mut String, name: &RcStr, value: u8) -> Result<(), AllocError> {
    said.push_str(name.as_str())?;
    said.push(char::from(b'0' + value % 10))
}

fn push_entries(said: &mut String, entries: &[(RcStr, &u8)]) -> Result<(), AllocError> {
    for entry in entries {
        push_entry(said, &entry.0, *entry.1)?;
    }
    Ok(())
}

fn push_all(said: &mut String, alloc: Global, letters: &NameMap<u8>) -> Result<(), AllocError> {
    let entries = letters.entries(alloc)?;
    push_entries(said, entries.as_slice())
}

/// The names and the values, one behind another.
fn entries(alloc: Global, letters: &NameMap<u8>) -> Result<String, AllocError> {
    let mut said = String::new(alloc);
    push_all(&mut said, alloc, letters)?;
    Ok(said)
}

/// The same, by a walk that takes no memory of its own.
fn walked(alloc: Global, letters: &NameMap<u8>) -> Result<String, AllocError> {
    let mut said = String::new(alloc);
    for (name, value) in letters.iter() {
        push_entry(&mut said, name, *value)?;
    }
    Ok(said)
}

/// Do the letters come so, in each way?
fn come_in_order(alloc: Global, letters: &NameMap<u8>) -> bool {
    letters.len() == 3
        && is(names(alloc, letters), "abä")
        && is(entries(alloc, letters), "a1b2ä3")
        && is(walked(alloc, letters), "a1b2ä3")
}

fn letters_come_in_order(alloc: Global) -> Result<bool, AllocError> {
    let letters = letters(alloc)?;
    Ok(come_in_order(alloc, &letters))
}

#[test]
fn names_come_by_code_point(rt: HostRuntime) {
    assert!(rt; holds(letters_come_in_order(rt.alloc())));
}

/// A name, and what it stands for, if it stands for something.
type Found = (&'static str, Option<u8>);

/// The first name that stands for something else.
fn wrongly_found(letters: &NameMap<u8>, rows: &[Found]) -> Option<&'static str> {
    for row in rows {
        let (name, want) = *row;
        if letters.get(name).copied() != want {
            return Some(name);
        }
    }
    None
}

/// The first name of which something else is removed.
fn wrongly_removed(letters: &mut NameMap<u8>, rows: &[Found]) -> Option<&'static str> {
    for row in rows {
        let (name, want) = *row;
        if letters.remove(name) != want {
            return Some(name);
        }
    }
    None
}

static FOUND: [Found; 2] = [("b", Some(7)), ("ä", None)];

static REMOVED: [Found; 2] = [("a", Some(9)), ("a", None)];

/// Do the changed letters stand for what they have become, until they are removed?
fn stand_so(alloc: Global, letters: &mut NameMap<u8>) -> bool {
    letters.len() == 2
        && wrongly_found(letters, &FOUND).is_none()
        && letters.get_mut("c").is_none()
        && is(walked(alloc, letters), "a9b7")
        && wrongly_removed(letters, &REMOVED).is_none()
}

fn changed_stand_so(alloc: Global) -> Result<bool, AllocError> {
    let mut letters = changed(alloc)?;
    Ok(stand_so(alloc, &mut letters))
}

#[test]
fn values_are_found_and_changed(rt: HostRuntime) {
    assert!(rt; holds(changed_stand_so(rt.alloc())));
}

/// Gives a number its name: the distance from 1999.
fn add_number(map: &mut NameMap<u32>, alloc: Global, number: u32) -> Result<(), AllocError> {
    let name = format!(in alloc; "n{}", 1999u32.wrapping_sub(number))?;
    map.insert(alloc, &name, number)
}

/// The names `n1000` to `n1999`, the last one first, each with its distance from the last.
fn numbered(alloc: Global) -> Result<NameMap<u32>, AllocError> {
    let mut map = NameMap::new(alloc);
    for number in 0..1000u32 {
        add_number(&mut map, alloc, number)?;
    }
    Ok(map)
}

/// Are these the values of a walk, each one less than the one before?
fn counts_down(map: &NameMap<u32>, first: u32) -> bool {
    let mut next = first;
    for (_, value) in map.iter() {
        if *value != next {
            return false;
        }
        next = next.saturating_sub(1);
    }
    true
}

fn numbers_stand_so(alloc: Global) -> Result<bool, AllocError> {
    let map = numbered(alloc)?;
    let names = map.names(alloc)?.len();
    Ok(
        map.len() == 1000
            && counts_down(&map, 999)
            && names == 1000
            && map.get("n1500").copied() == Some(499),
    )
}

#[test]
fn a_thousand_names(rt: HostRuntime) {
    assert!(rt; holds(numbers_stand_so(rt.alloc())));
}

/// What a map says of its only name.
fn kept(alloc: Global, name: &str) -> Result<Option<u8>, AllocError> {
    let mut map = NameMap::new(alloc);
    map.insert(alloc, name, 1u8)?;
    Ok(map.get(name).copied())
}

/// What a map says of a part that is repeated as its only name.
fn long_kept(alloc: Global, part: &str, times: u32) -> Result<Option<u8>, AllocError> {
    let name = repeated(alloc, part, times)?;
    kept(alloc, &name)
}

#[test]
fn a_long_name(rt: HostRuntime) {
    assert!(rt; matches!(long_kept(rt.alloc(), "é", 100_000), Ok(Some(1))));
}
