//! An element of lists in lists, changed in its place: lset(n).

ghost use Rattle.std.specs.Prelude.{◌≡◌, ◌<◌, ◌≤◌, ◌∷◌, [], true, false, length, take, Ok, IfOk, OnErr};
ghost use Rattle.tcl_arguments.specs.WordAt.{word};
ghost use Rattle.tcl_chars.specs.Answers.{Answers};
ghost use Rattle.tcl_pages.specs.Lists.{element_set};
ghost use Rattle.tcl_vars.specs.Way as way;
ghost use Rattle.tcl_values.specs.Lists.{Leaves};

use crate::words::empty;
use std::alloc::{AllocError, Global};
use tcl_arguments::position_at;
use tcl_chars::{Dialect, Fault, message, place_of};
use tcl_values::Value;

/// A list on the way to an element, and the place in it where the way goes on.
#[derive(Drop)]
struct Level {
    list: Value,
    place: usize,
}

/// The place that one of the indices says in a list: that of an element, or the one behind the last.
fn place_by(
    alloc: Global,
    list: &mut Value,
    indices: &mut [Value],
    at: usize,
    dialect: Dialect,
) -> Result<usize, Fault>
    requires { at < length indices.old }
    ensures place { Answers (λ n. n) result (way.place_by dialect list.old (word indices.old at)) }
    ensures same { list.new ≡ list.old }
    ensures indices { indices.new ≡ indices.old }
{
    let count = list.count(alloc)?;
    let position = position_at(alloc, indices, at, dialect)?;
    let place = place_of(position, count);
    if place < 0 || place > i128::from(count as u64) {
        return Err(Fault::Error(message(alloc, "list index out of range")?));
    }
    Ok(place as usize)
}

/// The element at a place, and the empty text where there is none.
fn element_of(alloc: Global, list: &mut Value, place: usize) -> Result<Value, Fault>
    ensures element { Answers (λ v. v) result (way.element_in list.old place) }
    ensures same { list.new ≡ list.old }
{
    match list.item(alloc, place)? {
        Some(element) => Ok(element),
        None => Ok(empty(alloc)?),
    }
}

/// Puts an element at a place, or behind the last.
fn put(alloc: Global, list: &mut Value, place: usize, element: Value) -> Result<(), Fault>
    ensures done { Leaves list.new (way.put list.old place element) result }
    ensures same { OnErr result (list.new ≡ list.old) }
{
    if place < list.count(alloc)? {
        list.replace_item(alloc, place, element)?;
        return Ok(());
    }
    list.push(alloc, element)
}

/// Puts a new element at the place that a number says, where the list has an element there: tells whether it does. Else nothing is changed.
fn put_near(
    alloc: Global,
    list: &mut Value,
    index: &Value,
    new: &Value,
    dialect: Dialect,
) -> Result<bool, AllocError>
    ensures done { IfOk result (λ done. done ≡ true → element_set dialect list.old (index.now ∷ []) new.now ≡ Ok list.new) }
    ensures same { IfOk result (λ done. done ≡ false → list.new ≡ list.old) }
    ensures refused { OnErr result (list.new ≡ list.old) }
{
    let Some(number) = index.known_number(dialect) else {
        return Ok(false);
    };
    if number < 0 {
        return Ok(false);
    }
    match list.replace_item(alloc, number as usize, new.copy()?) {
        Ok(Some(_)) => Ok(true),
        Ok(None) => Ok(false),
        Err(Fault::Error(_)) => Ok(false),
        Err(Fault::Memory) => Err(AllocError),
    }
}

/// The places that the first `count` indices say: `first` in the list, and each one behind it in the list that the element at the place
/// before is read as.
fn places_of(
    alloc: Global,
    list: &mut Value,
    first: usize,
    indices: &mut [Value],
    count: usize,
    dialect: Dialect,
) -> Result<Vec<usize>, Fault>
    requires some { 1 ≤ count }
    requires within { count ≤ length indices.old }
    requires first { way.place_by dialect list.old (word indices.old 0) ≡ Ok first }
    ensures places { Answers (λ v. v.items) result (way.places_of dialect list.old (take count indices.old)) }
    ensures size { IfOk result (λ v. length v.items ≡ count) }
    ensures same { list.new ≡ list.old }
    ensures indices { indices.new ≡ indices.old }
{
    let mut places = Vec::with_capacity(alloc, count)?;
    places.push(first)?;
    let mut inner = element_of(alloc, list, first)?;
    for at in 1..count {
        let place = place_by(alloc, &mut inner, indices, at, dialect)?;
        inner = element_of(alloc, &mut inner, place)?;
        places.push(place)?;
    }
    Ok(places)
}

/// The lists on the way that indices lead.
fn levels_of(
    alloc: Global,
    list: Value,
    indices: &mut [Value],
    count: usize,
    dialect: Dialect,
) -> Result<Vec<Level>, Fault>
    requires { count ≤ length indices.old }
    ensures levels { Answers (λ v. way.all_seen v.items) result (way.way_of dialect list (take count indices.old)) }
    ensures same { indices.new ≡ indices.old }
{
    let mut levels = Vec::with_capacity(alloc, count)?;
    let mut list = list;
    for at in 0..count {
        let place = place_by(alloc, &mut list, indices, at, dialect)?;
        let inner = element_of(alloc, &mut list, place)?;
        levels.push(Level { list, place })?;
        list = inner;
    }
    Ok(levels)
}

/// The outermost list, with a new element at the way's end.
fn put_back(alloc: Global, levels: Vec<Level>, new: Value) -> Result<Value, Fault>
    ensures { Answers (λ v. v) result (way.put_all (way.all_seen levels.items) new) }
{
    let mut levels = levels;
    let mut element = new;
    while let Some(level) = levels.pop() {
        let mut list = level.list;
        put(alloc, &mut list, level.place, element)?;
        element = list;
    }
    Ok(element)
}

/// Puts a new element where many indices lead.
fn put_far(
    alloc: Global,
    value: &mut Value,
    indices: &mut [Value],
    count: usize,
    new: Value,
    dialect: Dialect,
) -> Result<(), Fault>
    requires { count ≤ length indices.old }
    ensures done { Leaves value.new (element_set dialect value.old (take count indices.old) new) result }
    ensures same { OnErr result (value.new ≡ value.old) }
    ensures indices { indices.new ≡ indices.old }
{
    let start = value.copy()?;
    let levels = levels_of(alloc, start, indices, count, dialect)?;
    *value = put_back(alloc, levels, new)?;
    Ok(())
}

/// Puts a new element where the first `count` indices lead. The lists on the way are read first, and then changed in their places.
pub(crate) fn put_at(
    alloc: Global,
    value: &mut Value,
    indices: &mut [Value],
    count: usize,
    new: Value,
    dialect: Dialect,
) -> Result<(), Fault>
    requires { count ≤ length indices.old }
    ensures done { Leaves value.new (element_set dialect value.old (take count indices.old) new) result }
    ensures same { OnErr result (value.new ≡ value.old) }
    ensures indices { indices.new ≡ indices.old }
{
    if count > 64 {
        return put_far(alloc, value, indices, count, new, dialect);
    }
    if count == 0 {
        *value = new;
        return Ok(());
    }
    if count == 1 {
        if put_near(alloc, value, &indices[0], &new, dialect)? {
            return Ok(());
        }
        let place = place_by(alloc, value, indices, 0, dialect)?;
        return put(alloc, value, place, new);
    }
    let place = place_by(alloc, value, indices, 0, dialect)?;
    let places = places_of(alloc, value, place, indices, count, dialect)?;
    value.put_item_under(alloc, places, new)
}
