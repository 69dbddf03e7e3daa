//! An element under a path of places of lists, put in its place.

ghost use Rattle.std.specs.Prelude.{◌≡◌, ◌<◌, ◌≤◌, ◌+◌, ◌∷◌, [], length, max, reverse, IfOk, OnOk, OnErr};
ghost use Rattle.tcl_chars.specs.Answers.{Answers};
ghost use Rattle.tcl_list.specs.Written.{written};
ghost use Rattle.tcl_values.specs.Changes.{after_place, with_under};
ghost use Rattle.tcl_values.specs.Kept.{texts};
ghost use Rattle.tcl_values.specs.Lists.{Leaves};
ghost use Rattle.tcl_values.specs.Shape.{elements, items_text, AreKept};

use crate::element::{Element, Entry, Items};
use crate::items::{add, depth_after};
use crate::list_reading::read_row;
use crate::value::{Held, Value};
use std::alloc::Global;
use std::rc::{Rc, RcStr};
use tcl_chars::Fault;

impl Element {
    /// Puts an element at the last of some places, which stand in the reverse order.
    #[cycle(placing)]
    fn place_under(&mut self, alloc: Global, places: Vec<usize>, new: Element) -> Result<(), Fault>
        requires limit { self.old.depth < 64 }
        requires room { new.depth + length places.items < 64 }
        ensures done { Leaves self.new.text (with_under self.old.text (reverse places.items) new.text) result }
        ensures same { OnErr result (self.new ≡ self.old) }
        ensures depth { self.new.depth ≤ max self.old.depth (new.depth + length places.items) }
    {
        let mut places = places;
        match places.pop() {
            Some(place) => self.place_in(alloc, place, places, new),
            None => {
                *self = new;
                Ok(())
            }
        }
    }

    /// Puts an element under a place of the list that its text is read as, in place where it is kept as one that nobody else holds.
    #[cycle(placing)]
    fn place_in(
        &mut self,
        alloc: Global,
        place: usize,
        places: Vec<usize>,
        new: Element,
    ) -> Result<(), Fault>
        requires limit { self.old.depth < 64 }
        requires room { new.depth + length places.items < 63 }
        ensures done { Leaves self.new.text (with_under self.old.text (place ∷ reverse places.items) new.text) result }
        ensures same { OnErr result (self.new ≡ self.old) }
        ensures depth { self.new.depth ≤ max self.old.depth (new.depth + length places.items + 1) }
    {
        if let Entry::Row(row) = &mut self.entry {
            return place_row(row, alloc, place, places, new);
        }
        let mut row = self.read_list(alloc)?;
        place_row(&mut row, alloc, place, places, new)?;
        *self = Element {
            entry: Entry::Row(row),
        };
        Ok(())
    }
}

/// The empty text with an element at the last of some places, which stand in the reverse order.
#[cycle(placing)]
fn begun(alloc: Global, places: Vec<usize>, new: Element) -> Result<Element, Fault>
    requires { new.depth + length places.items < 64 }
    ensures text { Answers (λ e. e.text) result (with_under [] (reverse places.items) new.text) }
    ensures depth { IfOk result (λ e. e.depth ≤ new.depth + length places.items) }
{
    let mut element = Element::empty();
    element.place_under(alloc, places, new)?;
    Ok(element)
}

/// Puts an element under a place at which there is one.
#[cycle(placing)]
fn place_there(
    own: &mut Items,
    alloc: Global,
    place: usize,
    places: Vec<usize>,
    new: Element,
) -> Result<(), Fault>
    requires place { place < length (elements own.old) }
    requires kept { AreKept own.old }
    requires room { new.depth + length places.items < 64 }
    ensures done { Answers (λ _. texts (elements own.new)) result (after_place (λ t. with_under t (reverse places.items) new.text) (texts (elements own.old)) place) }
    ensures text { OnOk result (items_text own.new ≡ written (texts (elements own.new))) }
    ensures same { OnErr result (items_text own.new ≡ items_text own.old) }
    ensures depth { own.new.depth ≤ max own.old.depth (new.depth + length places.items + 1) }
    ensures same_depth { OnErr result (own.new.depth ≡ own.old.depth) }
    ensures kept { AreKept own.new }
{
    let before = own.items[place].depth() + 1;
    own.items[place].place_under(alloc, places, new)?;
    let now = own.items[place].depth() + 1;
    own.depth = depth_after(&own.items, own.depth, before, now);
    own.text = None;
    own.pairs = None;
    Ok(())
}

/// Puts an element under a place, or behind the last element.
#[cycle(placing)]
fn place_own(
    own: &mut Items,
    alloc: Global,
    place: usize,
    places: Vec<usize>,
    new: Element,
) -> Result<(), Fault>
    requires kept { AreKept own.old }
    requires room { new.depth + length places.items < 64 }
    ensures done { Answers (λ _. texts (elements own.new)) result (after_place (λ t. with_under t (reverse places.items) new.text) (texts (elements own.old)) place) }
    ensures text { OnOk result (items_text own.new ≡ written (texts (elements own.new))) }
    ensures same { OnErr result (items_text own.new ≡ items_text own.old) }
    ensures depth { own.new.depth ≤ max own.old.depth (new.depth + length places.items + 1) }
    ensures same_depth { OnErr result (own.new.depth ≡ own.old.depth) }
    ensures kept { AreKept own.new }
{
    if place < own.items.len() {
        return place_there(own, alloc, place, places, new);
    }
    let element = begun(alloc, places, new)?;
    add(own, element)?;
    Ok(())
}

/// Puts an element under a place of a list, in place where nobody else holds the list.
#[cycle(placing)]
fn place_row(
    row: &mut Rc<Items>,
    alloc: Global,
    place: usize,
    places: Vec<usize>,
    new: Element,
) -> Result<(), Fault>
    requires kept { AreKept row.old.value }
    requires room { new.depth + length places.items < 64 }
    ensures done { Answers (λ _. texts (elements row.new.value)) result (after_place (λ t. with_under t (reverse places.items) new.text) (texts (elements row.old.value)) place) }
    ensures text { OnOk result (items_text row.new.value ≡ written (texts (elements row.new.value))) }
    ensures same { OnErr result (items_text row.new.value ≡ items_text row.old.value) }
    ensures depth { row.new.value.depth ≤ max row.old.value.depth (new.depth + length places.items + 1) }
    ensures same_depth { OnErr result (row.new.value.depth ≡ row.old.value.depth) }
    ensures kept { AreKept row.new.value }
{
    let own = Rc::make_mut(row)?;
    place_own(own, alloc, place, places, new)
}

impl Value {
    /// Puts an element at the last of some places, each of which is one of the list that the element at the place before is read as, the
    /// first of the list that the text is read as: lset(n). At a place behind the last element, the list is longer by one, which begins as
    /// the empty text. Where nobody else holds a list on the way, it is changed in place, in a time that doesn't depend on its size.
    ///
    /// # Errors
    ///
    /// `Fault::Error` with the fault of a list on the way, `Fault::Memory`; the value is then as it was.
    pub fn put_item_under(
        &mut self,
        alloc: Global,
        places: Vec<usize>,
        item: Value,
    ) -> Result<(), Fault>
        requires { length places.items ≤ 64 }
        ensures done { Leaves self.new (with_under self.old places.items item) result }
        ensures same { OnErr result (self.new ≡ self.old) }
    {
        let mut places = places;
        places.reverse();
        let Some(place) = places.pop() else {
            *self = item;
            return Ok(());
        };
        let element = item.into_element(alloc)?.below(alloc, places.len())?;
        read_row(&mut self.held, alloc)?;
        match &mut self.held {
            Held::Row(row) => place_row(row, alloc, place, places, element),
            _ => unreachable!(),
        }
    }
}
