//! A value under a path of keys of a dictionary, changed, put or taken out in place.

ghost use Rattle.std.specs.Prelude.{◌≡◌, ◌<◌, ◌≤◌, ◌+◌, [], None, length, max, reverse, IfOk, OnOk, OnErr};
ghost use Rattle.std.specs.Str.{chars};
ghost use Rattle.tcl_chars.specs.Answers.{Answers};
ghost use Rattle.tcl_chars.specs.Texts.{text_of};
ghost use Rattle.tcl_pages.specs.Dictionaries.{pairs_of};
ghost use Rattle.tcl_pages.specs.DictPages.{dict_set, dict_unset, dictionary, unknown_key};
ghost use Rattle.tcl_values.specs.Changes.{after_at, after_in, after_key, after_under, made, made_new, made_under, room};
ghost use Rattle.tcl_values.specs.Dictionaries.{less_key};
ghost use Rattle.tcl_values.specs.Kept.{texts, depth_over};
ghost use Rattle.tcl_values.specs.Lists.{Leaves};
ghost use Rattle.tcl_values.specs.Shape.{pairs_in, pairs_text, ArePaired};

use crate::change::Change;
use crate::dict::read_dict;
use crate::element::{Element, Entry, Pairs};
use crate::key::{Key, Sought};
use crate::pairs::{add_pair, paired, remove_pair};
use crate::value::{Held, Value};
use std::alloc::{AllocError, Global};
use std::rc::{Rc, RcStr};
use tcl_chars::{Fault, about};

/// What is made of an element.
#[derive(Drop)]
pub(crate) enum Making {
    /// What a change makes of it.
    Changed(Change),
    /// A dictionary with a value under the last of some keys, each of which is one of the dictionary under the key before: dict(n), `dict set`.
    /// They stand in the reverse order.
    Under(Vec<Key>, Element),
    /// A dictionary without the last of some keys, each of which but the last is one of the dictionary under the key before: dict(n), `dict unset`.
    /// They stand in the reverse order.
    Without(Vec<Key>),
}

/// The error of a key that isn't there.
fn unknown_key(alloc: Global, key: &str) -> Result<RcStr, AllocError>
    ensures { IfOk result (λ t. text_of t ≡ unknown_key (chars key.now)) }
{
    about(alloc, "key", key, " not known in dictionary")
}

impl Element {
    /// The dictionary that its text is read as. What is kept of it is shared.
    #[tactic(auto, unfolding(tcl_pages::specs::Dictionaries::pairs_of))]
    fn read_pairs(&self, alloc: Global) -> Result<Rc<Pairs>, Fault>
        requires { self.now.depth < 64 }
        ensures read { Answers (λ p. pairs_in p.value) result (pairs_of self.now.text) }
        ensures depth { IfOk result (λ p. p.value.depth ≤ max 1 self.now.depth) }
        ensures kept { IfOk result (λ p. ArePaired p.value) }
    {
        match &self.entry {
            Entry::Dict(pairs) => Ok(pairs.clone()?),
            _ => {
                let row = self.read_list(alloc)?;
                paired(alloc, &row)
            }
        }
    }

    /// Changes the value under a key of the dictionary that its text is read as, in place where it is kept as one that nobody else holds.
    #[cycle(making)]
    fn change_key(&mut self, alloc: Global, key: Key, making: Making) -> Result<(), Fault>
        requires limit { self.old.depth < 64 }
        requires room { room making < 63 }
        ensures done { Leaves self.new.text (after_key (made_under making key) self.old.text key) result }
        ensures same { OnErr result (self.new ≡ self.old) }
        ensures depth { self.new.depth ≤ max self.old.depth (room making + 1) }
    {
        if let Entry::Dict(pairs) = &mut self.entry {
            return change_pair(pairs, key, alloc, making);
        }
        let mut pairs = self.read_pairs(alloc)?;
        change_pair(&mut pairs, key, alloc, making)?;
        *self = Element {
            entry: Entry::Dict(pairs),
        };
        Ok(())
    }

    /// Puts a value under the last of some keys, which stand in the reverse order. Levels that are missing are made.
    #[cycle(making)]
    fn put_under(&mut self, alloc: Global, keys: Vec<Key>, value: Element) -> Result<(), Fault>
        requires limit { self.old.depth < 64 }
        requires room { value.depth + length keys.items < 64 }
        ensures done { Leaves self.new.text (dict_set self.old.text value.text (reverse keys.items)) result }
        ensures same { OnErr result (self.new ≡ self.old) }
        ensures depth { self.new.depth ≤ max self.old.depth (value.depth + length keys.items) }
    {
        let mut keys = keys;
        match keys.pop() {
            Some(key) => self.change_key(alloc, key, Making::Under(keys, value)),
            None => {
                *self = value;
                Ok(())
            }
        }
    }

    /// Takes a key out of the dictionary that its text is read as, in place where it is kept as one that nobody else holds.
    fn remove_key(&mut self, alloc: Global, key: &str) -> Result<(), Fault>
        requires { self.old.depth < 64 }
        ensures done { Leaves self.new.text (less_key self.old.text (chars key.now)) result }
        ensures same { OnErr result (self.new ≡ self.old) }
        ensures depth { self.new.depth ≤ max 1 self.old.depth }
    {
        if let Entry::Dict(pairs) = &mut self.entry {
            remove_pair(pairs, key)?;
            return Ok(());
        }
        let mut pairs = self.read_pairs(alloc)?;
        remove_pair(&mut pairs, key)?;
        *self = Element {
            entry: Entry::Dict(pairs),
        };
        Ok(())
    }

    /// Takes the last of some keys out, which stand in the reverse order. Of those before each must be there.
    #[cycle(making)]
    fn take_under(&mut self, alloc: Global, keys: Vec<Key>) -> Result<(), Fault>
        requires limit { self.old.depth < 64 }
        requires room { length keys.items < 64 }
        ensures done { Leaves self.new.text (dict_unset self.old.text (reverse keys.items)) result }
        ensures same { OnErr result (self.new ≡ self.old) }
        ensures depth { self.new.depth ≤ max self.old.depth (length keys.items) }
    {
        let mut keys = keys;
        let Some(key) = keys.pop() else {
            return Ok(());
        };
        if keys.is_empty() {
            return self.remove_key(alloc, key.as_str());
        }
        self.change_key(alloc, key, Making::Without(keys))
    }

    /// Makes of it what is said.
    #[cycle(making)]
    fn make(&mut self, alloc: Global, making: Making) -> Result<(), Fault>
        requires limit { self.old.depth < 64 }
        requires room { room making < 64 }
        ensures done { Leaves self.new.text (made making self.old.text) result }
        ensures same { OnErr result (self.new ≡ self.old) }
        ensures depth { self.new.depth ≤ max self.old.depth (room making) }
    {
        match making {
            Making::Changed(change) => self.change(alloc, change),
            Making::Under(keys, value) => self.put_under(alloc, keys, value),
            Making::Without(keys) => self.take_under(alloc, keys),
        }
    }

    /// The element; where lists or dictionaries of so many levels around it would be too deep, its text alone.
    pub(crate) fn below(self, alloc: Global, levels: usize) -> Result<Element, AllocError>
        requires { levels < 64 }
        ensures text { IfOk result (λ e. e.text ≡ self.text) }
        ensures depth { IfOk result (λ e. e.depth + levels < 64) }
    {
        if usize::from(self.depth()) + levels < 64 {
            return Ok(self);
        }
        self.plain(alloc)
    }
}

/// What is made of the empty text.
#[cycle(making)]
fn made_empty(alloc: Global, making: Making) -> Result<Element, Fault>
    requires { room making < 64 }
    ensures text { Answers (λ e. e.text) result (made making []) }
    ensures depth { IfOk result (λ e. e.depth ≤ room making) }
{
    let mut element = Element::empty();
    element.make(alloc, making)?;
    Ok(element)
}

/// What is made where a key isn't there.
#[cycle(making)]
fn begun(alloc: Global, key: &Key, making: Making) -> Result<Element, Fault>
    requires { room making < 64 }
    ensures text { Answers (λ e. e.text) result (made_new making key.now) }
    ensures depth { IfOk result (λ e. e.depth ≤ room making) }
{
    match making {
        Making::Changed(change) => made_empty(alloc, Making::Changed(change)),
        Making::Under(keys, value) => made_empty(alloc, Making::Under(keys, value)),
        Making::Without(_) => Err(Fault::Error(unknown_key(alloc, key.as_str())?)),
    }
}

/// Changes the value at a place.
#[cycle(making)]
fn change_at(own: &mut Pairs, place: usize, alloc: Global, making: Making) -> Result<(), Fault>
    requires place { place < length own.old.values.items }
    requires limit { own.old.depth ≤ 64 }
    requires deeper { depth_over own.old.values.items ≤ own.old.depth }
    requires room { room making < 64 }
    ensures done { Answers (λ _. texts own.new.values.items) result (after_at (made making) (texts own.old.values.items) place) }
    ensures same { OnErr result (own.new.values.items ≡ own.old.values.items) }
    ensures keys { own.new.keys.keys ≡ own.old.keys.keys }
    ensures text { OnOk result (own.new.text ≡ None) }
    ensures same_text { OnErr result (own.new.text ≡ own.old.text) }
    ensures size { length own.new.values.items ≡ length own.old.values.items }
    ensures depth { own.new.depth ≤ max own.old.depth (room making + 1) }
    ensures same_depth { OnErr result (own.new.depth ≡ own.old.depth) }
    ensures deeper { depth_over own.new.values.items ≤ own.new.depth }
{
    own.values[place].make(alloc, making)?;
    let depth = own.values[place].depth() + 1;
    own.depth = own.depth.max(depth);
    own.has_lists = own.has_lists || own.values[place].may_be_list();
    own.text = None;
    Ok(())
}

/// Changes the value under a key.
#[cycle(making)]
fn change_own(own: &mut Pairs, key: Key, alloc: Global, making: Making) -> Result<(), Fault>
    requires kept { ArePaired own.old }
    requires room { room making < 64 }
    ensures done { Answers (λ _. pairs_in own.new) result (after_in (made_under making key) (pairs_in own.old) key) }
    ensures text { OnOk result (own.new.text ≡ None) }
    ensures same { OnErr result (pairs_text own.new ≡ pairs_text own.old) }
    ensures depth { own.new.depth ≤ max own.old.depth (room making + 1) }
    ensures same_depth { OnErr result (own.new.depth ≡ own.old.depth) }
    ensures kept { ArePaired own.new }
{
    match own.keys.get_index_of(Sought { text: key.as_str() }) {
        Some(place) => change_at(own, place, alloc, making),
        None => {
            let value = begun(alloc, &key, making)?;
            add_pair(own, key, value)?;
            Ok(())
        }
    }
}

/// Changes the value under a key of a dictionary, in place where nobody else holds the dictionary.
#[cycle(making)]
fn change_pair(pairs: &mut Rc<Pairs>, key: Key, alloc: Global, making: Making) -> Result<(), Fault>
    requires kept { ArePaired pairs.old.value }
    requires room { room making < 64 }
    ensures done { Answers (λ _. pairs_in pairs.new.value) result (after_in (made_under making key) (pairs_in pairs.old.value) key) }
    ensures text { OnOk result (pairs_text pairs.new.value ≡ dictionary (pairs_in pairs.new.value)) }
    ensures same { OnErr result (pairs_text pairs.new.value ≡ pairs_text pairs.old.value) }
    ensures depth { pairs.new.value.depth ≤ max pairs.old.value.depth (room making + 1) }
    ensures same_depth { OnErr result (pairs.new.value.depth ≡ pairs.old.value.depth) }
    ensures kept { ArePaired pairs.new.value }
{
    let own = Rc::make_mut(pairs)?;
    change_own(own, key, alloc, making)
}

impl Value {
    /// Changes the value under a key of the dictionary that the text is read as. Where the key isn't there, its value begins as the empty text,
    /// and the key comes last.
    fn change_key(&mut self, alloc: Global, key: Key, making: Making) -> Result<(), Fault>
        requires { room making < 64 }
        ensures done { Leaves self.new (after_key (made_under making key) self.old key) result }
        ensures same { OnErr result (self.new ≡ self.old) }
    {
        read_dict(&mut self.held, alloc)?;
        match &mut self.held {
            Held::Dict(pairs) => change_pair(pairs, key, alloc, making),
            _ => unreachable!(),
        }
    }

    /// Changes the value under a key of the dictionary that the text is read as: dict(n), `dict append`, `dict lappend`. Where the key isn't
    /// there, its value begins as the empty text, and the key comes last. Where nobody else holds the dictionary nor the value, a change
    /// takes the time of what comes to the value, whatever its size.
    ///
    /// # Errors
    ///
    /// `Fault::Error` with the dictionary's fault or that of the list under the key, `Fault::Memory`; the value is then as it was.
    pub fn dict_change(&mut self, alloc: Global, key: Key, change: Change) -> Result<(), Fault>
        ensures done { Leaves self.new (after_under change self.old key) result }
        ensures same { OnErr result (self.new ≡ self.old) }
    {
        self.change_key(alloc, key, Making::Changed(change))
    }

    /// Puts a value under the last of some keys, each of which is one of the dictionary under the key before, the first of the dictionary that
    /// the text is read as: dict(n), `dict set`. Levels that are missing are made. Where nobody else holds a dictionary on the way, it is
    /// changed in place, in a time that doesn't depend on its size.
    ///
    /// # Errors
    ///
    /// `Fault::Error` with the fault of a dictionary on the way, `Fault::Memory`; the value is then as it was.
    pub fn dict_put_under(
        &mut self,
        alloc: Global,
        keys: Vec<Key>,
        value: Value,
    ) -> Result<(), Fault>
        requires { length keys.items ≤ 64 }
        ensures done { Leaves self.new (dict_set self.old value keys.items) result }
        ensures same { OnErr result (self.new ≡ self.old) }
    {
        let mut keys = keys;
        keys.reverse();
        let Some(key) = keys.pop() else {
            *self = value;
            return Ok(());
        };
        let element = value.into_element(alloc)?.below(alloc, keys.len())?;
        self.change_key(alloc, key, Making::Under(keys, element))
    }

    /// Takes the last of some keys out, if it is there, each of which but the last is one of the dictionary under the key before, the first of
    /// the dictionary that the text is read as: dict(n), `dict unset`. Where nobody else holds a dictionary on the way, it is changed in place.
    ///
    /// # Errors
    ///
    /// `Fault::Error` with the fault of a dictionary on the way, or the first key in front of the last that isn't there, `Fault::Memory`; the value is
    /// then as it was.
    pub fn dict_remove_under(&mut self, alloc: Global, keys: Vec<Key>) -> Result<(), Fault>
        requires { length keys.items ≤ 64 }
        ensures done { Leaves self.new (dict_unset self.old keys.items) result }
        ensures same { OnErr result (self.new ≡ self.old) }
    {
        let mut keys = keys;
        keys.reverse();
        let Some(key) = keys.pop() else {
            return Ok(());
        };
        if keys.is_empty() {
            return self.dict_remove(alloc, key.as_str());
        }
        self.change_key(alloc, key, Making::Without(keys))
    }
}
