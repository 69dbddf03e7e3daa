//! Values read as lists, and changed as lists.

ghost use Rattle.std.specs.Prelude.{◌≡◌, ◌<◌, ◌≤◌, ◌++◌, slice_get, IfOk, IfSome, OnOk, OnErr};
ghost use Rattle.tcl_list.specs.Elements.{elements_of};
ghost use Rattle.tcl_list.specs.Texts.{Answers};
ghost use Rattle.tcl_list.specs.Written.{written};
ghost use Rattle.tcl_values.specs.Kept.{texts, depth_over};
ghost use Rattle.tcl_values.specs.Lists.{behind, count_of, item_of, part_of, pushed, spliced, with_item, Leaves};
ghost use Rattle.tcl_values.specs.Shape.{items_text, AreKept};

use crate::element::{Element, Entry, Items};
use crate::items::{gathered, part, push_element, row_text, set_element, splice};
use crate::list_reading::read_row;
use crate::pairs::dict_element;
use crate::row::Row;
use crate::value::{Held, Value};
use std::alloc::{AllocError, Global};
use std::rc::Rc;
use tcl_chars::Fault;

/// A list as an element; one that is too deep is its text alone.
pub(crate) fn row_element(row: Rc<Items>, alloc: Global) -> Result<Element, AllocError>
    requires { AreKept row.value }
    ensures text { IfOk result (λ e. e.text ≡ items_text row.value) }
    ensures depth { IfOk result (λ e. e.depth < 64) }
{
    if row.depth < 64 {
        return Ok(Element {
            entry: Entry::Row(row),
        });
    }
    Ok(Element {
        entry: Entry::Text(row_text(&row, alloc)?),
    })
}

/// Values as elements.
fn into_elements(alloc: Global, values: Vec<Value>) -> Result<Vec<Element>, AllocError>
    ensures texts { IfOk result (λ v. texts v.items ≡ values.items) }
    ensures depth { IfOk result (λ v. depth_over v.items ≤ 64) }
{
    let mut elements = Vec::with_capacity(alloc, values.len())?;
    for value in values {
        elements.push(value.into_element(alloc)?)?;
    }
    Ok(elements)
}

/// Adds elements, as values, at the end of others, and leaves room for a few more. What is kept is shared.
fn add_elements(values: &mut Vec<Value>, elements: &[Element]) -> Result<(), AllocError>
    ensures { OnOk result (values.new.items ≡ values.old.items ++ texts elements.now) }
{
    values.reserve(elements.len().saturating_add(4))?;
    for element in elements {
        values.push(element.copy()?)?;
    }
    Ok(())
}

/// The element at a place, as a value; none where there is no such place.
fn element_at(
    elements: &[Element],
    index: usize,
    alloc: Global,
) -> Result<Option<Value>, AllocError>
    ensures { IfOk result (λ o. o ≡ slice_get (texts elements.now) index) }
{
    match elements.get(index) {
        Some(element) => Ok(Some(element.value(alloc)?)),
        None => Ok(None),
    }
}

impl Value {
    /// The value as an element. Of a list or a dictionary that is too deep the text is written, and nothing else is kept.
    pub(crate) fn into_element(self, alloc: Global) -> Result<Element, AllocError>
        ensures text { IfOk result (λ e. e.text ≡ self) }
        ensures depth { IfOk result (λ e. e.depth < 64) }
    {
        match self.into_held() {
            Held::Number(n) => Ok(Element::of_number(n)),
            Held::Row(row) => row_element(row, alloc),
            Held::Dict(pairs) => dict_element(pairs, alloc),
            Held::Short(short) => Ok(Element::of_short(short)),
            Held::Text(text) => Ok(Element::of_text(text)),
            Held::Ascii(text) => Ok(Element::of_text(text)),
            Held::Name(name) => name.element(),
            held => Ok(Element::of_text(held.text(alloc)?)),
        }
    }

    /// A number or a short text as an element, which it is as it stands.
    #[inline(always)]
    pub(crate) fn plain_element(&self) -> Option<Element>
        ensures text { IfSome result (λ e. e.text ≡ self.now) }
        ensures depth { IfSome result (λ e. e.depth ≡ 0) }
    {
        match &self.held {
            Held::Number(n) => Some(Element::of_number(*n)),
            Held::Short(short) => Some(Element::of_short(*short)),
            _ => None,
        }
    }

    /// An element of the same text, as by `into_element`. What is kept is shared.
    pub(crate) fn element(&self, alloc: Global) -> Result<Element, AllocError>
        ensures text { IfOk result (λ e. e.text ≡ self.now) }
        ensures depth { IfOk result (λ e. e.depth < 64) }
    {
        match &self.held {
            Held::Number(n) => Ok(Element::of_number(*n)),
            Held::Short(short) => Ok(Element::of_short(*short)),
            Held::Name(name) => name.element(),
            Held::Row(row) => row_element(row.clone()?, alloc),
            Held::Dict(pairs) => dict_element(pairs.clone()?, alloc),
            Held::Text(text) => Ok(Element::of_text(text.clone()?)),
            Held::Ascii(text) => Ok(Element::of_text(text.clone()?)),
            held => Ok(Element::of_text(held.text(alloc)?)),
        }
    }

    /// Adds an element at the end of the list that the text is read as: lappend(n).
    ///
    /// # Errors
    ///
    /// `Fault::Error` with the list's fault, `Fault::Memory`; the value is then as it was.
    pub fn push(&mut self, alloc: Global, item: Value) -> Result<(), Fault>
        ensures done { Leaves self.new (pushed self.old item) result }
        ensures same { OnErr result (self.new ≡ self.old) }
    {
        let element = item.into_element(alloc)?;
        read_row(&mut self.held, alloc)?;
        match &mut self.held {
            Held::Row(row) => {
                push_element(row, element)?;
                Ok(())
            }
            _ => unreachable!(),
        }
    }

    /// Is it kept as a list of 16 elements or more that nobody else holds? Then it is worth the while to change it in place.
    #[inline(always)]
    pub fn is_own_list(&self) -> bool {
        match &self.held {
            Held::Row(row) => row.items.len() >= 16 && Rc::strong_count(row) == 1,
            _ => false,
        }
    }

    /// How many elements the list has that the text is read as: llength(n).
    ///
    /// # Errors
    ///
    /// `Fault::Error` with the list's fault, `Fault::Memory`.
    pub fn count(&mut self, alloc: Global) -> Result<usize, Fault>
        ensures count { Answers (λ n. n) result (count_of self.old) }
        ensures same { self.new ≡ self.old }
    {
        if let Some(items) = self.held.kept_list() {
            return Ok(items.items.len());
        }
        if self.held.is_single() {
            return Ok(1);
        }
        read_row(&mut self.held, alloc)?;
        match &self.held {
            Held::Row(row) => Ok(row.items.len()),
            _ => unreachable!(),
        }
    }

    /// The element at a place of the list that the text is read as; none where the list has no such place: lindex(n).
    ///
    /// # Errors
    ///
    /// `Fault::Error` with the list's fault, `Fault::Memory`.
    pub fn item(&mut self, alloc: Global, index: usize) -> Result<Option<Value>, Fault>
        ensures item { Answers (λ o. o) result (item_of self.old index) }
        ensures same { self.new ≡ self.old }
    {
        if let Some(items) = self.held.kept_list() {
            return Ok(element_at(&items.items, index, alloc)?);
        }
        if self.held.is_single() {
            return Ok(if index == 0 { Some(self.copy()?) } else { None });
        }
        read_row(&mut self.held, alloc)?;
        match &self.held {
            Held::Row(row) => Ok(element_at(&row.items, index, alloc)?),
            _ => unreachable!(),
        }
    }

    /// The elements of the list that the text is read as. They are shared with the value, not copied.
    ///
    /// # Errors
    ///
    /// `Fault::Error` with the list's fault, `Fault::Memory`.
    pub fn row(&mut self, alloc: Global) -> Result<Row, Fault>
        ensures row { Answers (λ r. r) result (elements_of self.old) }
        ensures same { self.new ≡ self.old }
    {
        read_row(&mut self.held, alloc)?;
        match &self.held {
            Held::Row(row) => Ok(Row {
                items: row.clone()?,
            }),
            _ => unreachable!(),
        }
    }

    /// The elements of the list that the text is read as, as values. What is kept of them is shared.
    ///
    /// # Errors
    ///
    /// `Fault::Error` with the list's fault, `Fault::Memory`.
    pub fn list(&mut self, alloc: Global) -> Result<Vec<Value>, Fault>
        ensures list { Answers (λ v. v.items) result (elements_of self.old) }
        ensures same { self.new ≡ self.old }
    {
        let mut values = Vec::new(alloc);
        self.list_behind(alloc, &mut values)?;
        Ok(values)
    }

    /// The elements of the list that the text is read as come behind values, as values. What is kept of them is shared.
    ///
    /// # Errors
    ///
    /// `Fault::Error` with the list's fault, `Fault::Memory`. What `values` holds then isn't said.
    pub fn list_behind(&mut self, alloc: Global, values: &mut Vec<Value>) -> Result<(), Fault>
        ensures list { Answers (λ u. values.new.items) result (behind values.old.items self.old) }
        ensures same { self.new ≡ self.old }
    {
        if self.held.is_single() {
            values.push(self.copy()?)?;
            return Ok(());
        }
        read_row(&mut self.held, alloc)?;
        match &self.held {
            Held::Row(row) => Ok(add_elements(values, &row.items)?),
            _ => unreachable!(),
        }
    }

    /// The value that is a list of these values: list(n).
    pub fn of_list(alloc: Global, items: Vec<Value>) -> Result<Value, AllocError>
        ensures { IfOk result (λ v. v ≡ written items.items) }
    {
        let elements = into_elements(alloc, items)?;
        let row = gathered(alloc, elements)?;
        Ok(Value {
            held: Held::Row(row),
        })
    }

    /// Some elements of the list that the text is read as, as a list of their own: of those from the place `first` on, `count`, or all
    /// where there are fewer: lrange(n).
    ///
    /// # Errors
    ///
    /// `Fault::Error` with the list's fault, `Fault::Memory`.
    pub fn range(&mut self, alloc: Global, first: usize, count: usize) -> Result<Value, Fault>
        ensures range { Answers (λ v. v) result (part_of self.old first count) }
        ensures same { self.new ≡ self.old }
    {
        read_row(&mut self.held, alloc)?;
        match &self.held {
            Held::Row(row) => {
                let elements = part(alloc, row, first, count)?;
                let row = gathered(alloc, elements)?;
                Ok(Value {
                    held: Held::Row(row),
                })
            }
            _ => unreachable!(),
        }
    }

    /// Puts another element at a place of the list that the text is read as, and answers the one before: lset(n). Where the list
    /// has no such place, nothing changes and the answer is none.
    ///
    /// # Errors
    ///
    /// `Fault::Error` with the list's fault, `Fault::Memory`; the value is then as it was.
    pub fn replace_item(
        &mut self,
        alloc: Global,
        index: usize,
        item: Value,
    ) -> Result<Option<Value>, Fault>
        ensures before { Answers (λ o. o) result (item_of self.old index) }
        ensures done { OnOk result (with_item self.old index item ≡ Ok self.new) }
        ensures same { OnErr result (self.new ≡ self.old) }
    {
        let element = item.into_element(alloc)?;
        read_row(&mut self.held, alloc)?;
        match &mut self.held {
            Held::Row(row) => {
                if row.items.len() <= index {
                    return Ok(None);
                }
                let before = row.items[index].copy()?;
                set_element(row, index, element)?;
                Ok(Some(before))
            }
            _ => unreachable!(),
        }
    }

    /// Puts elements in the place of `count` others, or of as many as there are, behind the first ones of the list that the text is read
    /// as: linsert(n), lreplace(n).
    ///
    /// # Errors
    ///
    /// `Fault::Error` with the list's fault, `Fault::Memory`; the value is then as it was.
    pub fn splice(
        &mut self,
        alloc: Global,
        first: usize,
        count: usize,
        items: Vec<Value>,
    ) -> Result<(), Fault>
        ensures done { Leaves self.new (spliced self.old first count items.items) result }
        ensures same { OnErr result (self.new ≡ self.old) }
    {
        let inserted = into_elements(alloc, items)?;
        read_row(&mut self.held, alloc)?;
        match &mut self.held {
            Held::Row(row) => {
                splice(row, first, count, inserted)?;
                Ok(())
            }
            _ => unreachable!(),
        }
    }
}
