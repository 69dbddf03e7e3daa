//! The dictionary that a list is read as, kept beside the list.

ghost use Rattle.std.specs.Prelude.{◌≡◌, ◌<◌, ◌≤◌, length};
ghost use Rattle.tcl_values.specs.Shape.{elements, items_text, pairs_text, AreKept, ArePaired, ArePairsRead};

use crate::element::{Element, Entry, Items, Pairs};
use crate::key::Sought;
use crate::pairs::paired;
use std::alloc::{AllocError, Global};
use std::rc::Rc;
use tcl_chars::Fault;

/// A shorter list is read as a dictionary in hardly more time than it is looked at.
pub(crate) const LONG: usize = 16;

/// Is it a list of keys and values, of so many elements at least, without the dictionary?
fn is_bare(row: &Items, least: usize) -> bool {
    row.pairs.is_none() && row.items.len() >= least && row.items.len() % 2 == 0
}

/// Puts the dictionary beside the list that is read as it.
pub(crate) fn put_beside(own: &mut Items, pairs: Rc<Pairs>)
    requires kept { AreKept own.old }
    requires read { ArePairsRead pairs.value (items_text own.old) }
    requires lower { pairs.value.depth ≤ own.old.depth }
    ensures text { items_text own.new ≡ items_text own.old }
    ensures depth { own.new.depth ≡ own.old.depth }
    ensures kept { AreKept own.new }
{
    own.pairs = Some(pairs);
}

/// Has a list of so many elements keep the dictionary that it is read as. A list that somebody else holds too is copied for that, once.
pub(crate) fn keep_beside(
    row: &mut Rc<Items>,
    alloc: Global,
    least: usize,
) -> Result<(), AllocError>
    requires { AreKept row.old.value }
    ensures text { items_text row.new.value ≡ items_text row.old.value }
    ensures depth { row.new.value.depth ≡ row.old.value.depth }
    ensures kept { AreKept row.new.value }
{
    if !is_bare(row, least) {
        return Ok(());
    }
    match paired(alloc, row) {
        Ok(pairs) => {
            let own = Rc::make_mut(row)?;
            put_beside(own, pairs);
            Ok(())
        }
        Err(Fault::Error(_)) => Ok(()),
        Err(Fault::Memory) => Err(AllocError),
    }
}

impl Element {
    /// Has a long list keep the dictionary that it is read as.
    fn prefer_dictionary(&mut self, alloc: Global) -> Result<(), AllocError>
        ensures { self.new ≡ self.old }
    {
        match &mut self.entry {
            Entry::Row(row) => keep_beside(row, alloc, LONG),
            _ => Ok(()),
        }
    }
}

/// Has a long list at a place keep the dictionary that it is read as.
fn prefer_at(own: &mut Pairs, place: usize, alloc: Global) -> Result<(), AllocError>
    requires place { place < length own.old.values.items }
    requires kept { ArePaired own.old }
    ensures text { pairs_text own.new ≡ pairs_text own.old }
    ensures depth { own.new.depth ≡ own.old.depth }
    ensures kept { ArePaired own.new }
{
    own.values[place].prefer_dictionary(alloc)
}

/// Has a long list under a key of a dictionary keep the dictionary that it is read as, where nobody else holds the outer one.
pub(crate) fn prefer_under(
    pairs: &mut Rc<Pairs>,
    key: &str,
    alloc: Global,
) -> Result<(), AllocError>
    requires { ArePaired pairs.old.value }
    ensures text { pairs_text pairs.new.value ≡ pairs_text pairs.old.value }
    ensures depth { pairs.new.value.depth ≡ pairs.old.value.depth }
    ensures kept { ArePaired pairs.new.value }
{
    let Some(place) = pairs.keys.get_index_of(Sought { text: key }) else {
        return Ok(());
    };
    match Rc::get_mut(pairs) {
        Some(own) => prefer_at(own, place, alloc),
        None => Ok(()),
    }
}

/// The same, of the dictionary beside a list.
fn prefer_own(own: &mut Items, key: &str, alloc: Global) -> Result<(), AllocError>
    requires { AreKept own.old }
    ensures text { items_text own.new ≡ items_text own.old }
    ensures kept { AreKept own.new }
{
    match &mut own.pairs {
        Some(pairs) => prefer_under(pairs, key, alloc),
        None => Ok(()),
    }
}

/// Has a list keep the dictionary that it is read as, and so a long list under a key.
pub(crate) fn prefer_beside(row: &mut Rc<Items>, key: &str, alloc: Global) -> Result<(), AllocError>
    requires { AreKept row.old.value }
    ensures text { items_text row.new.value ≡ items_text row.old.value }
    ensures kept { AreKept row.new.value }
{
    keep_beside(row, alloc, 2)?;
    match Rc::get_mut(row) {
        Some(own) => prefer_own(own, key, alloc),
        None => Ok(()),
    }
}
