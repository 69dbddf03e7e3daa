//! A value under a key, taken out of a dictionary so that it is changed in place before it is put back.

ghost use Rattle.std.specs.Prelude.{◌≡◌, ◌<◌, ◌≤◌, Some, length, option_map, slice_get, IfOk};
ghost use Rattle.std.specs.Str.{chars};
ghost use Rattle.tcl_chars.specs.Answers.{Answers};
ghost use Rattle.tcl_pages.specs.DictPages.{value_at};
ghost use Rattle.tcl_values.specs.Dictionaries.{value_of};
ghost use Rattle.tcl_values.specs.Kept.{texts, depth_over};
ghost use Rattle.tcl_values.specs.Shape.{pairs_in, pairs_text, ArePaired};

use crate::dict::read_dict;
use crate::element::{Element, Pairs};
use crate::items::put;
use crate::key::Sought;
use crate::pairs::find_pair;
use crate::value::{Held, Value};
use std::alloc::{AllocError, Global};
use std::rc::Rc;
use tcl_chars::Fault;

/// Takes the value at a place out of a dictionary, and leaves its text there.
fn detach_value(own: &mut Pairs, place: usize) -> Result<Element, AllocError>
    requires place { place < length own.old.values.items }
    requires deeper { depth_over own.old.values.items ≤ own.old.depth }
    ensures value { IfOk result (λ e. slice_get own.old.values.items place ≡ Some e) }
    ensures values { texts own.new.values.items ≡ texts own.old.values.items }
    ensures keys { own.new.keys.keys ≡ own.old.keys.keys }
    ensures text { own.new.text ≡ own.old.text }
    ensures depth { own.new.depth ≡ own.old.depth }
    ensures deeper { depth_over own.new.values.items ≤ own.new.depth }
{
    let plain = own.values[place].plain(*own.values.allocator())?;
    Ok(put(&mut own.values, place, plain))
}

/// Takes the value of a key out of a dictionary, and leaves its text there.
fn take_own(own: &mut Pairs, key: &str) -> Result<Option<Element>, AllocError>
    requires { ArePaired own.old }
    ensures value { IfOk result (λ o. option_map (λ e. e.text) o ≡ value_at (chars key.now) (pairs_in own.old)) }
    ensures same { pairs_text own.new ≡ pairs_text own.old }
    ensures kept { ArePaired own.new }
{
    match own.keys.get_index_of(Sought { text: key }) {
        Some(place) => Ok(Some(detach_value(own, place)?)),
        None => Ok(None),
    }
}

/// The value of a key. Where nobody else holds the dictionary, its text alone stays there, so that nobody else holds the value either.
fn take_pair(pairs: &mut Rc<Pairs>, key: &str) -> Result<Option<Element>, AllocError>
    requires { ArePaired pairs.old.value }
    ensures value { IfOk result (λ o. option_map (λ e. e.text) o ≡ value_at (chars key.now) (pairs_in pairs.old.value)) }
    ensures same { pairs_text pairs.new.value ≡ pairs_text pairs.old.value }
    ensures kept { ArePaired pairs.new.value }
{
    if let Some(own) = Rc::get_mut(pairs) {
        return take_own(own, key);
    }
    match find_pair(pairs, key) {
        Some(element) => Ok(Some(element.duplicate()?)),
        None => Ok(None),
    }
}

impl Value {
    /// The value of a key of the dictionary that the text is read as, as [`Value::dict_get`], but taken out where nobody else holds the
    /// dictionary: its text alone stays. So the value is changed in place, before it is put back by [`Value::dict_put`].
    ///
    /// # Errors
    ///
    /// `Fault::Error` with the dictionary's fault, `Fault::Memory`.
    pub fn dict_take(&mut self, alloc: Global, key: &str) -> Result<Option<Value>, Fault>
        ensures value { Answers (λ o. o) result (value_of self.old (chars key.now)) }
        ensures same { self.new ≡ self.old }
    {
        read_dict(&mut self.held, alloc)?;
        match &mut self.held {
            Held::Dict(pairs) => match take_pair(pairs, key)? {
                Some(element) => Ok(Some(element.copy()?)),
                None => Ok(None),
            },
            _ => unreachable!(),
        }
    }
}
