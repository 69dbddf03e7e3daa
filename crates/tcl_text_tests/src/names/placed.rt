//! Maps of which a few names have numbered places, and many.
use crate::answers::{holds, is};
use std::alloc::{AllocError, Global};
use std::rc::{Rc, RcStr};
use tcl_names::{Layout, NameMap, PlacedNames};

fn add_place(layout: &mut Layout, alloc: Global, name: &str) -> Result<(), AllocError> {
    let name = RcStr::from_str(alloc, name)?;
    layout.add(&name)
}

/// Places for `b` and `a`, each asked for twice.
fn layout(alloc: Global) -> Result<Layout, AllocError> {
    let mut layout = Layout::new(alloc);
    for name in ["b", "a", "a", "b"] {
        add_place(&mut layout, alloc, name)?;
    }
    Ok(layout)
}

/// A map of which no name has a value.
fn empty(alloc: Global, layout: Layout) -> Result<PlacedNames<u32>, AllocError> {
    let layout = Rc::new(alloc, layout)?;
    PlacedNames::new(alloc, layout)
}

fn add_letters(letters: &mut PlacedNames<u32>, alloc: Global) -> Result<(), AllocError> {
    letters.insert(alloc, "ä", 4)?;
    letters.insert(alloc, "a", 1)?;
    letters.insert(alloc, "c", 3)
}

/// `a` has a place; `ä` and `c` have none.
fn letters(alloc: Global) -> Result<PlacedNames<u32>, AllocError> {
    let mut letters = empty(alloc, layout(alloc)?)?;
    add_letters(&mut letters, alloc)?;
    Ok(letters)
}

fn push_names(said: &mut String, set: &NameMap<()>) -> Result<(), AllocError> {
    for (name, _) in set.iter() {
        said.push_str(name.as_str())?;
    }
    Ok(())
}

fn push_all(said: &mut String, alloc: Global, map: &PlacedNames<u32>) -> Result<(), AllocError> {
    let mut set = NameMap::new(alloc);
    map.add_names(alloc, &mut set)?;
    push_names(said, &set)
}

/// The names of a map, in their order.
fn names(alloc: Global, map: &PlacedNames<u32>) -> Result<String, AllocError> {
    let mut said = String::new(alloc);
    push_all(&mut said, alloc, map)?;
    Ok(said)
}

/// The first name that has another place.
fn wrongly_placed(layout: &Layout, rows: &[(&'static str, Option<usize>)]) -> Option<&'static str> {
    for row in rows {
        let (name, want) = *row;
        if layout.number(name) != want {
            return Some(name);
        }
    }
    None
}

static PLACES: [(&str, Option<usize>); 3] = [("b", Some(0)), ("a", Some(1)), ("ä", None)];

fn places_are_so(alloc: Global) -> Result<bool, AllocError> {
    let layout = layout(alloc)?;
    Ok(layout.len() == 2 && wrongly_placed(&layout, &PLACES).is_none())
}

#[test]
fn a_name_has_one_place(rt: HostRuntime) {
    assert!(rt; holds(places_are_so(rt.alloc())));
}

/// A name, and what it stands for, if it stands for something.
type Found = (&'static str, Option<u32>);

/// The first name that stands for something else.
fn wrongly_found(map: &PlacedNames<u32>, rows: &[Found]) -> Option<&'static str> {
    for row in rows {
        let (name, want) = *row;
        if map.get(name).copied() != want {
            return Some(name);
        }
    }
    None
}

/// The first name of which something else is removed.
fn wrongly_removed(map: &mut PlacedNames<u32>, rows: &[Found]) -> Option<&'static str> {
    for row in rows {
        let (name, want) = *row;
        if map.remove(name) != want {
            return Some(name);
        }
    }
    None
}

static EMPTY: [Found; 1] = [("b", None)];

/// Has `b` no value yet?
fn is_empty(alloc: Global, letters: &mut PlacedNames<u32>) -> bool {
    is(names(alloc, letters), "acä")
        && wrongly_found(letters, &EMPTY).is_none()
        && letters.get_mut("b").is_none()
}

static FILLED: [Found; 1] = [("b", Some(2))];

static REMOVED: [Found; 3] = [("a", Some(1)), ("ä", Some(4)), ("a", None)];

/// Has `b` its value, and are the others removed?
fn is_filled(alloc: Global, letters: &mut PlacedNames<u32>) -> bool {
    wrongly_found(letters, &FILLED).is_none()
        && wrongly_removed(letters, &REMOVED).is_none()
        && is(names(alloc, letters), "bc")
}

fn is_empty_until_filled(alloc: Global) -> Result<bool, AllocError> {
    let mut letters = letters(alloc)?;
    let was_empty = is_empty(alloc, &mut letters);
    letters.insert(alloc, "b", 2)?;
    Ok(was_empty && is_filled(alloc, &mut letters))
}

#[test]
fn a_place_is_empty_until_it_is_given_a_value(rt: HostRuntime) {
    assert!(rt; holds(is_empty_until_filled(rt.alloc())));
}

fn add_numbered_place(layout: &mut Layout, alloc: Global, number: u32) -> Result<(), AllocError> {
    let name = format!(in alloc; "n{}", number)?;
    add_place(layout, alloc, &name)
}

/// Places for the names `n0` to `n999`.
fn thousand(alloc: Global) -> Result<Layout, AllocError> {
    let mut layout = Layout::new(alloc);
    for number in 0..1000u32 {
        add_numbered_place(&mut layout, alloc, number)?;
    }
    Ok(layout)
}

fn add_number(map: &mut PlacedNames<u32>, alloc: Global, number: u32) -> Result<(), AllocError> {
    let name = format!(in alloc; "n{}", number)?;
    map.insert(alloc, &name, number)
}

/// The names `n500` to `n1499` with their numbers: half of them have places.
fn numbered(alloc: Global) -> Result<PlacedNames<u32>, AllocError> {
    let mut map = empty(alloc, thousand(alloc)?)?;
    for number in 500..1500u32 {
        add_number(&mut map, alloc, number)?;
    }
    Ok(map)
}

static NUMBERED: [Found; 4] = [
    ("n499", None),
    ("n500", Some(500)),
    ("n999", Some(999)),
    ("n1499", Some(1499)),
];

fn numbers_are_found(alloc: Global) -> Result<bool, AllocError> {
    let map = numbered(alloc)?;
    Ok(wrongly_found(&map, &NUMBERED).is_none())
}

#[test]
fn a_thousand_places(rt: HostRuntime) {
    assert!(rt; holds(numbers_are_found(rt.alloc())));
}
