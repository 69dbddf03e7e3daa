//! Long texts in lists and dictionaries, read as lists where they stand: a text alone has no room for what it is read as, and would be
//! read again by each command that looks into it.

ghost use Rattle.std.specs.Prelude.{◌≡◌, ◌<◌, length, IfOk, IfSome};
ghost use Rattle.tcl_values.specs.Shape.{elements, items_text, pairs_text, AreKept, ArePaired};

use crate::element::{Element, Entry, Items, Pairs};
use crate::items::put;
use crate::key::Sought;
use crate::list_reading::list_of;
use crate::literal::LONG;
use std::alloc::{AllocError, Global};
use std::rc::Rc;

/// The bytes of a text that are read in the time in which another element is copied.
const BYTES_FOR_A_COPY: usize = 16;

impl Element {
    /// Is it kept as a list, or a text that is long enough to be kept as one?
    pub(crate) fn may_be_list(&self) -> bool {
        matches!(&self.entry, Entry::Row(_)) || self.is_unread()
    }

    /// Is it a long text, which isn't kept as a list?
    pub(crate) fn is_unread(&self) -> bool {
        self.is_worth_reading(0)
    }

    /// Is it a text that is long enough to be kept as a list, where so many elements beside it have to be copied for that?
    fn is_worth_reading(&self, copied: usize) -> bool {
        match &self.entry {
            Entry::Text(text) => LONG.max(copied.saturating_mul(BYTES_FOR_A_COPY)) <= text.len(),
            _ => false,
        }
    }

    /// A text as the list that it is read as; none of another element, and where the text is no list.
    fn read(&self, alloc: Global) -> Result<Option<Element>, AllocError>
        ensures before { IfOk result (λ o. IfSome o (λ e. self.now.depth ≡ 0)) }
        ensures text { IfOk result (λ o. IfSome o (λ e. e.text ≡ self.now.text)) }
        ensures depth { IfOk result (λ o. IfSome o (λ e. e.depth ≡ 1)) }
    {
        let Entry::Text(text) = &self.entry else {
            return Ok(None);
        };
        match list_of(alloc, text)? {
            Some(row) => Ok(Some(Element {
                entry: Entry::Row(row),
            })),
            None => Ok(None),
        }
    }
}

/// How many elements have to be copied before one of so many is changed: none where nobody else holds them.
fn copied<T>(shared: &Rc<T>, count: usize) -> usize {
    if Rc::strong_count(shared) == 1 {
        0
    } else {
        count
    }
}

/// Has the text at a place of a list be the list that it is read as.
fn read_item(own: &mut Items, place: usize, alloc: Global) -> Result<(), AllocError>
    requires place { place < length (elements own.old) }
    requires kept { AreKept own.old }
    ensures text { items_text own.new ≡ items_text own.old }
    ensures kept { AreKept own.new }
{
    if let Some(element) = own.items[place].read(alloc)? {
        put(&mut own.items, place, element);
        own.depth = own.depth.max(2);
    }
    Ok(())
}

/// Has a long text at a place of a list be the list that it is read as, where that is worth a copy of the other elements or nobody else
/// holds them.
pub(crate) fn read_at(row: &mut Rc<Items>, place: usize, alloc: Global) -> Result<(), AllocError>
    requires { AreKept row.old.value }
    ensures text { items_text row.new.value ≡ items_text row.old.value }
    ensures kept { AreKept row.new.value }
{
    let copied = copied(row, row.items.len());
    match row.items.get(place) {
        Some(element) if element.is_worth_reading(copied) => {
            let own = Rc::make_mut(row)?;
            read_item(own, place, alloc)
        }
        _ => Ok(()),
    }
}

/// Has the text at a place of a dictionary be the list that it is read as.
fn read_value(own: &mut Pairs, place: usize, alloc: Global) -> Result<(), AllocError>
    requires place { place < length own.old.values.items }
    requires kept { ArePaired own.old }
    ensures text { pairs_text own.new ≡ pairs_text own.old }
    ensures kept { ArePaired own.new }
{
    if let Some(element) = own.values[place].read(alloc)? {
        put(&mut own.values, place, element);
        own.depth = own.depth.max(2);
    }
    Ok(())
}

/// Has a long text under a key of a dictionary be the list that it is read as, where that is worth a copy of the other pairs or nobody
/// else holds them.
pub(crate) fn read_under(pairs: &mut Rc<Pairs>, key: &str, alloc: Global) -> Result<(), AllocError>
    requires { ArePaired pairs.old.value }
    ensures text { pairs_text pairs.new.value ≡ pairs_text pairs.old.value }
    ensures kept { ArePaired pairs.new.value }
{
    let Some(place) = pairs.keys.get_index_of(Sought { text: key }) else {
        return Ok(());
    };
    let copied = copied(pairs, pairs.values.len());
    if !pairs.values[place].is_worth_reading(copied) {
        return Ok(());
    }
    let own = Rc::make_mut(pairs)?;
    read_value(own, place, alloc)
}
