//! The elements of a list that is kept, behind a shared pointer: read, written, changed.

ghost use Rattle.std.specs.Prelude.{◌≡◌, ◌<◌, ◌≤◌, ◌+◌, ◌∷◌, [], ◌++◌, map, length, max, take, drop, slice_get, slice_set, IfOk, OnOk, OnErr};
ghost use Rattle.std.specs.Str.{chars};
ghost use Rattle.std.specs.String.{string_bytes};
ghost use Rattle.tcl_list.specs.Texts.{text_of};
ghost use Rattle.tcl_list.specs.Written.{written};
ghost use Rattle.tcl_values.specs.Kept.{texts, depth_over, rotated};
ghost use Rattle.tcl_values.specs.Shape.{elements, items_text, shared_text, AreKept, AreSame};

use crate::element::{Element, Items};
use crate::element_text::ElementText;
use crate::nested::push_items;
use std::alloc::{AllocError, Global};
use std::mem::replace;
use std::rc::{Rc, RcStr};

/// The elements of a list, written as a list.
#[cycle(writing)]
fn write_text(alloc: Global, row: &Items) -> Result<String, AllocError>
    ensures { IfOk result (λ t. chars (string_bytes t) ≡ written (texts (elements row.now))) }
{
    let mut text = String::new(alloc);
    push_items(&mut text, alloc, row)?;
    Ok(text)
}

/// The text of a list: lent where it stands beside it, else written.
#[cycle(writing)]
pub(crate) fn row_shown(row: &Items, alloc: Global) -> Result<ElementText<'_>, AllocError>
    ensures { IfOk result (λ t. t ≡ items_text row.now) }
{
    match &row.text {
        Some(text) => Ok(ElementText::lent(text.as_str())),
        None => Ok(ElementText::written(write_text(alloc, row)?)),
    }
}

/// The text of a list.
pub(crate) fn row_text(row: &Items, alloc: Global) -> Result<RcStr, AllocError>
    ensures { IfOk result (λ t. text_of t ≡ items_text row.now) }
{
    match &row.text {
        Some(text) => text.clone(),
        None => RcStr::from_string(write_text(alloc, row)?),
    }
}

/// Keeps the text of a list beside it, where nobody else holds the list.
pub(crate) fn keep_text(row: &mut Rc<Items>, text: RcStr)
    requires kept { AreKept row.old.value }
    requires text { text_of text ≡ items_text row.old.value }
    ensures same { items_text row.new.value ≡ items_text row.old.value }
    ensures kept { AreKept row.new.value }
{
    if let Some(own) = Rc::get_mut(row) {
        own.text = Some(text);
    }
}

/// The text of a list, which is kept from now on where nobody else holds the list.
pub(crate) fn show(row: &mut Rc<Items>, alloc: Global) -> Result<RcStr, AllocError>
    requires { AreKept row.old.value }
    ensures text { IfOk result (λ t. text_of t ≡ items_text row.old.value) }
    ensures same { items_text row.new.value ≡ items_text row.old.value }
    ensures kept { AreKept row.new.value }
{
    if let Some(text) = &row.text {
        return text.clone();
    }
    let text = RcStr::from_string(write_text(alloc, row)?)?;
    keep_text(row, text.clone()?);
    Ok(text)
}

/// Copies of the elements, which share what is kept of them.
pub(crate) fn copy_elements(alloc: Global, elements: &[Element]) -> Result<Vec<Element>, AllocError>
    ensures { IfOk result (λ copies. copies.items ≡ elements.now) }
{
    let mut copies = Vec::with_capacity(alloc, elements.len())?;
    for element in elements {
        copies.push(element.duplicate()?)?;
    }
    Ok(copies)
}

/// The same text, where one is there.
pub(crate) fn copy_text(text: &Option<RcStr>) -> Result<Option<RcStr>, AllocError>
    ensures { IfOk result (λ copy. shared_text copy ≡ shared_text text.now) }
{
    match text {
        Some(text) => Ok(Some(text.clone()?)),
        None => Ok(None),
    }
}

impl Clone for Items {
    ghost use Rattle.tcl_values.specs.Shape.{AreSame};

    ghost is_clone = { AreSame };

    /// Who copies it is to change it, so the dictionary stays behind.
    fn clone(&self) -> Result<Items, AllocError> {
        let elements = copy_elements(*self.items.allocator(), &self.items)?;
        Ok(Items {
            text: copy_text(&self.text)?,
            depth: self.depth,
            items: elements,
            pairs: None,
        })
    }
}

/// How deep a list of these elements is.
pub(crate) fn deepest(elements: &[Element]) -> u8
    requires { depth_over elements.now ≤ 64 }
    ensures { result ≡ depth_over elements.now }
{
    let mut depth: u8 = 1;
    for element in elements {
        depth = depth.max(element.depth() + 1);
    }
    depth
}

/// Adds an element at the end.
pub(crate) fn add(own: &mut Items, element: Element) -> Result<(), AllocError>
    requires element { element.depth < 64 }
    requires kept { AreKept own.old }
    ensures added { OnOk result (elements own.new ≡ elements own.old ++ element ∷ []) }
    ensures text { OnOk result (items_text own.new ≡ written (texts (elements own.new))) }
    ensures same { OnErr result (items_text own.new ≡ items_text own.old) }
    ensures same_depth { OnErr result (own.new.depth ≡ own.old.depth) }
    ensures kept { AreKept own.new }
{
    let depth = element.depth() + 1;
    own.items.push(element)?;
    own.depth = own.depth.max(depth);
    own.text = None;
    own.pairs = None;
    Ok(())
}

/// Adds an element at the end of a list, in place where nobody else holds the list.
pub(crate) fn push_element(row: &mut Rc<Items>, element: Element) -> Result<(), AllocError>
    requires element { element.depth < 64 }
    requires kept { AreKept row.old.value }
    ensures added { OnOk result (elements row.new.value ≡ elements row.old.value ++ element ∷ []) }
    ensures text { OnOk result (items_text row.new.value ≡ written (texts (elements row.new.value))) }
    ensures same { OnErr result (items_text row.new.value ≡ items_text row.old.value) }
    ensures kept { AreKept row.new.value }
{
    let own = Rc::make_mut(row)?;
    add(own, element)
}

/// How deep a list is, one of whose elements has been replaced: it was `whole` deep, one with the element before as its only
/// one would be `before` deep, and one with the new element as its only one is `new` deep.
pub(crate) fn depth_after(elements: &[Element], whole: u8, before: u8, new: u8) -> u8
    requires higher { whole ≤ new → depth_over elements.now ≡ new }
    requires lower { new < whole → before < whole → depth_over elements.now ≡ whole }
    requires limit { depth_over elements.now ≤ 64 }
    ensures { result ≡ depth_over elements.now }
{
    if whole <= new {
        return new;
    }
    if before < whole {
        return whole;
    }
    deepest(elements)
}

/// Puts another element at a place, and answers the one before.
pub(crate) fn put(elements: &mut Vec<Element>, index: usize, element: Element) -> Element
    requires { index < length elements.old.items }
    ensures before { slice_get elements.old.items index ≡ Some result }
    ensures put { elements.new.items ≡ slice_set elements.old.items index element }
{
    replace(&mut elements[index], element)
}

/// Puts another element at a place of a list.
fn set(own: &mut Items, index: usize, element: Element)
    requires place { index < length (elements own.old) }
    requires element { element.depth < 64 }
    requires kept { AreKept own.old }
    ensures set { elements own.new ≡ slice_set (elements own.old) index element }
    ensures text { items_text own.new ≡ written (texts (elements own.new)) }
    ensures kept { AreKept own.new }
{
    let new = element.depth() + 1;
    let before = put(&mut own.items, index, element);
    let alone = before.depth() + 1;
    own.depth = depth_after(&own.items, own.depth, alone, new);
    own.text = None;
    own.pairs = None;
}

/// Puts another element at a place of a list, in place where nobody else holds the list.
pub(crate) fn set_element(
    row: &mut Rc<Items>,
    index: usize,
    element: Element,
) -> Result<(), AllocError>
    requires place { index < length (elements row.old.value) }
    requires element { element.depth < 64 }
    requires kept { AreKept row.old.value }
    ensures set { OnOk result (elements row.new.value ≡ slice_set (elements row.old.value) index element) }
    ensures text { OnOk result (items_text row.new.value ≡ written (texts (elements row.new.value))) }
    ensures same { OnErr result (items_text row.new.value ≡ items_text row.old.value) }
    ensures kept { AreKept row.new.value }
{
    let own = Rc::make_mut(row)?;
    set(own, index, element);
    Ok(())
}

/// Elements as a list without a text.
pub(crate) fn gathered(alloc: Global, items: Vec<Element>) -> Result<Rc<Items>, AllocError>
    requires { depth_over items.items ≤ 64 }
    ensures elements { IfOk result (λ r. elements r.value ≡ items.items) }
    ensures text { IfOk result (λ r. items_text r.value ≡ written (texts items.items)) }
    ensures kept { IfOk result (λ r. AreKept r.value) }
{
    let depth = deepest(&items);
    let row = Items {
        text: None,
        depth,
        items,
        pairs: None,
    };
    Ok(Rc::new(alloc, row)?)
}

/// Copies of `count` elements of a list, from the place `first` on.
pub(crate) fn part(
    alloc: Global,
    row: &Items,
    first: usize,
    count: usize,
) -> Result<Vec<Element>, AllocError>
    ensures { IfOk result (λ v. v.items ≡ take count (drop first (elements row.now))) }
{
    let behind = match row.items.get(first..) {
        Some(behind) => behind,
        None => &[],
    };
    let some = match behind.get(..count) {
        Some(some) => some,
        None => behind,
    };
    copy_elements(alloc, some)
}

/// Leaves of a list its elements alone.
fn drop_text(own: &mut Items)
    requires { AreKept own.old }
    ensures text { items_text own.new ≡ written (texts (elements own.old)) }
    ensures kept { AreKept own.new }
{
    own.text = None;
    own.pairs = None;
}

/// Leaves of a list its elements alone, so that its text is how they are written.
pub(crate) fn forget_text(row: &mut Rc<Items>) -> Result<(), AllocError>
    requires { AreKept row.old.value }
    ensures text { OnOk result (items_text row.new.value ≡ written (texts (elements row.old.value))) }
    ensures kept { AreKept row.new.value }
{
    if row.text.is_some() {
        let own = Rc::make_mut(row)?;
        drop_text(own);
    }
    Ok(())
}

/// Moves the `count` elements that stand behind the first `first` ones to the end.
fn rotate_tail(elements: &mut Vec<Element>, first: usize, count: usize)
    requires { first + count ≤ length elements.old.items }
    ensures { elements.new.items ≡ rotated first count elements.old.items }
{
    elements[first..].rotate_left(count);
}

/// Puts elements in the place of the `count` that stand behind the first `first` ones.
pub(crate) fn splice_elements(
    elements: &mut Vec<Element>,
    first: usize,
    count: usize,
    mut inserted: Vec<Element>,
) -> Result<(), AllocError>
    ensures done { OnOk result (elements.new.items
        ≡ take first elements.old.items ++ inserted.items ++ drop (first + count) elements.old.items) }
    ensures same { OnErr result (elements.new.items ≡ elements.old.items) }
{
    let size = elements.len();
    if inserted.is_empty() && count == 1 && first < size {
        elements.remove(first);
        return Ok(());
    }
    let first = first.min(size);
    let count = count.min(size - first);
    let between = first + inserted.len();
    elements.append(&mut inserted)?;
    rotate_tail(elements, first, size - first);
    rotate_tail(elements, between, count);
    let left = elements.len() - count;
    elements.truncate(left);
    Ok(())
}

/// Puts elements in the place of the `count` elements of a list that stand behind the first `first` ones, in place where nobody else
/// holds the list.
pub(crate) fn splice(
    row: &mut Rc<Items>,
    first: usize,
    count: usize,
    inserted: Vec<Element>,
) -> Result<(), AllocError>
    requires inserted { depth_over inserted.items ≤ 64 }
    requires kept { AreKept row.old.value }
    ensures done { OnOk result (elements row.new.value
        ≡ take first (elements row.old.value) ++ inserted.items ++ drop (first + count) (elements row.old.value)) }
    ensures text { OnOk result (items_text row.new.value ≡ written (texts (elements row.new.value))) }
    ensures same { OnErr result (items_text row.new.value ≡ items_text row.old.value) }
    ensures same_depth { OnErr result (row.new.value.depth ≡ row.old.value.depth) }
    ensures kept { AreKept row.new.value }
{
    let own = Rc::make_mut(row)?;
    splice_own(own, first, count, inserted)
}

/// How deep a list is in which new elements stand in the place of `gone` others: it was `whole` deep, and a list of the new ones
/// is `new` deep. Where they only came to the others, no element is looked at.
fn depth_with(elements: &[Element], whole: u8, new: u8, gone: usize) -> u8
    requires added { gone ≡ 0 → depth_over elements.now ≡ max whole new }
    requires limit { depth_over elements.now ≤ 64 }
    ensures { result ≡ depth_over elements.now }
{
    if gone == 0 {
        return whole.max(new);
    }
    deepest(elements)
}

/// Puts elements in the place of the `count` elements of a list that stand behind the first `first` ones.
fn splice_own(
    own: &mut Items,
    first: usize,
    count: usize,
    inserted: Vec<Element>,
) -> Result<(), AllocError>
    requires inserted { depth_over inserted.items ≤ 64 }
    requires kept { AreKept own.old }
    ensures done { OnOk result (elements own.new
        ≡ take first (elements own.old) ++ inserted.items ++ drop (first + count) (elements own.old)) }
    ensures text { OnOk result (items_text own.new ≡ written (texts (elements own.new))) }
    ensures same { OnErr result (items_text own.new ≡ items_text own.old) }
    ensures same_depth { OnErr result (own.new.depth ≡ own.old.depth) }
    ensures kept { AreKept own.new }
{
    let new = deepest(&inserted);
    splice_elements(&mut own.items, first, count, inserted)?;
    own.depth = depth_with(&own.items, own.depth, new, count);
    own.text = None;
    own.pairs = None;
    Ok(())
}
