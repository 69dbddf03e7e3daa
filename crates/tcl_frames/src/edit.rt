//! Changes of the elements of an array: array(n).
ghost use Rattle.std.specs.Prelude.{◌≡◌, map as each, OnOk, OnErr};
ghost use Rattle.tcl_chars.specs.Texts.{text_of};
ghost use Rattle.tcl_frames.specs.Edits.{edited, with_pairs, without_names};
ghost use Rattle.tcl_frames.specs.Undone.{undone};
ghost use Rattle.tcl_values.specs.Kept.{texts};

use crate::earlier::{Earlier, put_noted, undo};
use std::alloc::{AllocError, Global};
use std::rc::RcStr;
use tcl_names::HashedNames;
use tcl_values::{Element, Value};

/// A change of the elements of an array: array(n).
#[derive(Clone, Copy)]
pub enum Edit<'a> {
    /// Names and texts in turn are put in, one after another. A name at the end that has no text is passed over.
    Put(&'a [Element]),
    /// The elements of these names are taken out.
    Remove(&'a [RcStr]),
}

impl Edit<'_> {
    /// Changes the elements of an array, all or none.
    pub(crate) fn apply(
        self,
        alloc: Global,
        elements: &mut HashedNames<Value>,
    ) -> Result<(), AllocError>
        ensures done { OnOk result (elements.new ≡ edited self.entry elements.old) }
        ensures same { OnErr result (elements.new ≡ elements.old) }
    {
        match self {
            Edit::Put(pairs) => put_pairs(alloc, elements, pairs),
            Edit::Remove(names) => {
                remove_names(elements, names);
                Ok(())
            }
        }
    }
}

// Puts names and texts in turn into an array, all or none.
fn put_pairs(
    alloc: Global,
    elements: &mut HashedNames<Value>,
    pairs: &[Element],
) -> Result<(), AllocError>
    ensures done { OnOk result (elements.new ≡ with_pairs elements.old (texts pairs.now)) }
    ensures same { OnErr result (elements.new ≡ elements.old) }
{
    let mut notes = Vec::with_capacity(alloc, pairs.len() / 2)?;
    match put_each(alloc, elements, pairs, &mut notes) {
        Ok(()) => Ok(()),
        Err(refused) => {
            undo(elements, notes);
            Err(refused)
        }
    }
}

// Puts names and texts in turn into an array, up to one that is refused. What stood under the names is noted.
fn put_each(
    alloc: Global,
    elements: &mut HashedNames<Value>,
    pairs: &[Element],
    notes: &mut Vec<Earlier>,
) -> Result<(), AllocError>
    ensures done { OnOk result (elements.new ≡ with_pairs elements.old (texts pairs.now)) }
    ensures noted { undone notes.new.items elements.new ≡ undone notes.old.items elements.old }
{
    let mut place = 0;
    while pairs.len() - place > 1 {
        let name = pairs[place].shared_text(alloc)?;
        let value = pairs[place + 1].copy()?;
        put_noted(elements, name, value, notes)?;
        place += 2;
    }
    Ok(())
}

// Takes the elements of some names out of an array.
fn remove_names(elements: &mut HashedNames<Value>, names: &[RcStr])
    ensures { elements.new ≡ without_names elements.old (each text_of names.now) }
{
    for name in names {
        elements.remove(name.as_str());
    }
}
