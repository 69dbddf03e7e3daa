//! What comes to a value under a key of a dictionary, in place: elements to a list, a text behind a text.

ghost use Rattle.std.specs.Prelude.{◌≡◌, ◌<◌, ◌≤◌, ◌++◌, max, IfOk, OnOk, OnErr};
ghost use Rattle.std.specs.Str.{chars};
ghost use Rattle.std.specs.String.{string_bytes};
ghost use Rattle.tcl_chars.specs.Answers.{Answers};
ghost use Rattle.tcl_list.specs.Elements.{elements_of};
ghost use Rattle.tcl_list.specs.Written.{written};
ghost use Rattle.tcl_values.specs.Changes.{after};
ghost use Rattle.tcl_values.specs.Kept.{texts, depth_over};
ghost use Rattle.tcl_values.specs.Lists.{lengthened, Leaves};
ghost use Rattle.tcl_values.specs.Shape.{elements, items_text, AreKept};

use crate::composed::joined;
use crate::element::{Element, Entry, Items};
use crate::items::splice;
use crate::list_reading::read_text;
use crate::value::{Growing, Value, grow};
use std::alloc::{AllocError, Global};
use std::rc::{Rc, RcStr};
use tcl_chars::Fault;

/// What comes to the value under a key of a dictionary.
#[derive(Drop)]
pub enum Change {
    /// Elements more, at the end of the list that the value is.
    Items(Vec<Value>),
    /// A text behind it.
    Text(RcStr),
}

/// Adds elements at the end of a list that is not too deep, in place where nobody else holds the list.
fn lengthen_row(row: &mut Rc<Items>, more: Vec<Element>) -> Result<(), AllocError>
    requires more { depth_over more.items < 64 }
    requires limit { row.old.value.depth < 64 }
    requires kept { AreKept row.old.value }
    ensures done { OnOk result (items_text row.new.value ≡ written (texts (elements row.old.value ++ more.items))) }
    ensures same { OnErr result (items_text row.new.value ≡ items_text row.old.value) }
    ensures depth { OnErr result (row.new.value.depth ≡ row.old.value.depth) }
    ensures limit { row.new.value.depth < 64 }
    ensures kept { AreKept row.new.value }
{
    let count = row.items.len();
    splice(row, count, 0, more)
}

impl Element {
    /// The element; one whose list is as deep as that of an element can be is its text alone.
    fn shallow(self, alloc: Global) -> Result<Element, AllocError>
        ensures text { IfOk result (λ e. e.text ≡ self.text) }
        ensures depth { IfOk result (λ e. e.depth < 63) }
    {
        if self.depth() < 63 {
            return Ok(self);
        }
        self.plain(alloc)
    }

    /// The list that its text is read as. What is kept of it is shared.
    pub(crate) fn read_list(&self, alloc: Global) -> Result<Rc<Items>, Fault>
        requires { self.now.depth < 64 }
        ensures read { Answers (λ r. texts (elements r.value)) result (elements_of self.now.text) }
        ensures depth { IfOk result (λ r. r.value.depth ≤ max 1 self.now.depth) }
        ensures kept { IfOk result (λ r. AreKept r.value) }
    {
        match &self.entry {
            Entry::Row(row) => Ok(row.clone()?),
            _ => read_text(alloc, self.shared_text(alloc)?),
        }
    }

    /// Adds elements at the end of the list that its text is read as, in place where it is kept as one that nobody else holds.
    fn lengthen(&mut self, alloc: Global, more: Vec<Element>) -> Result<(), Fault>
        requires more { depth_over more.items < 64 }
        requires limit { self.old.depth < 64 }
        ensures done { Leaves self.new.text (lengthened self.old.text (texts more.items)) result }
        ensures same { OnErr result (self.new ≡ self.old) }
        ensures limit { self.new.depth < 64 }
    {
        if let Entry::Row(row) = &mut self.entry {
            lengthen_row(row, more)?;
            return Ok(());
        }
        let mut row = self.read_list(alloc)?;
        lengthen_row(&mut row, more)?;
        *self = Element {
            entry: Entry::Row(row),
        };
        Ok(())
    }

    /// Its text with another one behind it.
    fn with_behind(&self, alloc: Global, more: &str) -> Result<String, AllocError>
        ensures { IfOk result (λ s. chars (string_bytes s) ≡ self.now.text ++ chars more.now) }
    {
        let own = self.text(alloc)?;
        joined(alloc, own.as_str(), more)
    }

    /// Writes a text at its end, in place where it has grown before and nobody else holds it.
    fn append(&mut self, alloc: Global, more: &str) -> Result<(), AllocError>
        requires { self.old.depth < 64 }
        ensures done { OnOk result (self.new.text ≡ self.old.text ++ chars more.now) }
        ensures same { OnErr result (self.new ≡ self.old) }
        ensures limit { self.new.depth < 64 }
    {
        if let Entry::Grown(grown) = &mut self.entry {
            return grow(grown, more);
        }
        let text = Growing::new(self.with_behind(alloc, more)?);
        *self = Element {
            entry: Entry::Grown(Rc::new(alloc, text)?),
        };
        Ok(())
    }

    /// Makes of its text what a change makes of it.
    pub(crate) fn change(&mut self, alloc: Global, change: Change) -> Result<(), Fault>
        requires { self.old.depth < 64 }
        ensures done { Leaves self.new.text (after change self.old.text) result }
        ensures same { OnErr result (self.new ≡ self.old) }
        ensures limit { self.new.depth < 64 }
    {
        match change {
            Change::Items(items) => {
                let more = shallow_elements(alloc, items)?;
                self.lengthen(alloc, more)
            }
            Change::Text(text) => {
                self.append(alloc, text.as_str())?;
                Ok(())
            }
        }
    }
}

/// Values as elements of a list that is an element itself.
fn shallow_elements(alloc: Global, values: Vec<Value>) -> Result<Vec<Element>, AllocError>
    ensures texts { IfOk result (λ v. texts v.items ≡ values.items) }
    ensures depth { IfOk result (λ v. depth_over v.items < 64) }
{
    let mut elements = Vec::with_capacity(alloc, values.len())?;
    for value in values {
        let element = value.into_element(alloc)?;
        elements.push(element.shallow(alloc)?)?;
    }
    Ok(elements)
}
