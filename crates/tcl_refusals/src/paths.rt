//! Values under a path of keys or of places.

ghost use Rattle.std.specs.Prelude.{◌≡◌, length, IfOk};

use crate::twice::{Changed, twice};
use crate::values::{show_value, value_of};
use std::alloc::{AllocError, Global};
use std::rc::RcStr;
use tcl_values::{Key, Value};

/// What is done at the path's end.
#[derive(Clone, Copy)]
enum Change {
    /// A value comes to a dictionary in a dictionary.
    Put,
    /// A key leaves a dictionary in a dictionary.
    Remove,
    /// An element comes to a list in a list.
    Add,
}

/// A dictionary or a list, something under which is changed.
#[derive(Drop)]
struct Under {
    value: Value,
    change: Change,
}

/// A path of two keys.
fn keys(alloc: Global, last: &str) -> Result<Vec<Key>, AllocError>
    ensures { IfOk result (λ v. length v.items ≡ 2) }
{
    let first = Key::of(RcStr::from_str(alloc, "a")?);
    let last = Key::of(RcStr::from_str(alloc, last)?);
    Ok(vec![in alloc; first, last]?)
}

impl Changed for Under {
    fn shown(&self, alloc: Global) -> Result<String, AllocError> {
        let mut shown = String::new(alloc);
        show_value(alloc, &self.value, &mut shown)?;
        Ok(shown)
    }

    fn change(&mut self, alloc: Global) -> Result<(), AllocError> {
        let new = value_of(alloc, "c d")?;
        let done = match self.change {
            Change::Put => self.value.dict_put_under(alloc, keys(alloc, "k")?, new),
            Change::Remove => self.value.dict_remove_under(alloc, keys(alloc, "b")?),
            Change::Add => self.value.put_item_under(alloc, vec![in alloc; 1, 2]?, new),
        };
        done.map_err(|_| AllocError)
    }
}

/// A change under a path of a value of this text.
fn changed(alloc: Global, name: &str, text: &str, change: Change) -> Result<String, AllocError> {
    let value = value_of(alloc, text)?;
    twice(alloc, name, &mut Under { value, change })
}

pub(crate) fn dict_put_under(alloc: Global) -> Result<String, AllocError> {
    changed(alloc, "dict_put_under", "a {b 1}", Change::Put)
}

pub(crate) fn dict_remove_under(alloc: Global) -> Result<String, AllocError> {
    changed(alloc, "dict_remove_under", "a {b 1 c 2}", Change::Remove)
}

pub(crate) fn put_item_under(alloc: Global) -> Result<String, AllocError> {
    changed(alloc, "put_item_under", "x {a b}", Change::Add)
}
