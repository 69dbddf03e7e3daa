//! Values read as dictionaries, and changed as dictionaries.

ghost use Rattle.std.specs.Prelude.{◌≡◌, [], None, true, IfOk, OnOk, OnErr};
ghost use Rattle.std.specs.Str.{chars};
ghost use Rattle.tcl_chars.specs.Answers.{Answers};
ghost use Rattle.tcl_pages.specs.Dictionaries.{pairs_of, put_keys};
ghost use Rattle.tcl_pages.specs.DictPages.{dictionary};
ghost use Rattle.tcl_values.specs.Dictionaries.{size_of, value_of, with_key, less_key};
ghost use Rattle.tcl_values.specs.Lists.{Leaves};
ghost use Rattle.tcl_values.specs.Shape.{held_text, is_dict, pairs_held, pairs_in, pairs_text, ArePaired, IsHeld};

use crate::dictionary::Dictionary;
use crate::element::Pairs;
use crate::key::Key;
use crate::list_reading::read_held;
use crate::pairs::{count_pairs, find_pair, no_pairs, paired, put_own, put_pair, remove_pair};
use crate::value::{Held, Value};
use std::alloc::{AllocError, Global};
use std::rc::Rc;
use tcl_chars::Fault;

/// The dictionary that the text of what is kept is read as, and was read as by whoever shares the text: that one reads it who is the
/// first.
#[tactic(auto, unfolding(tcl_pages::specs::Dictionaries::pairs_of))]
fn read_pairs(held: &Held, alloc: Global) -> Result<Rc<Pairs>, Fault>
    requires { IsHeld held.now }
    ensures read { Answers (λ p. pairs_in p.value) result (pairs_of (held_text held.now)) }
    ensures same { IfOk result (λ p. pairs_text p.value ≡ held_text held.now) }
    ensures kept { IfOk result (λ p. ArePaired p.value) }
{
    if let Some(pairs) = held.kept_pairs() {
        return Ok(pairs.clone()?);
    }
    let items = read_held(held, alloc)?;
    let pairs = paired(alloc, &items)?;
    held.keep_pairs(&pairs)?;
    Ok(pairs)
}

/// Reads what is kept as a dictionary, which is kept from now on.
pub(crate) fn read_dict(held: &mut Held, alloc: Global) -> Result<(), Fault>
    requires { IsHeld held.old }
    ensures read { Answers (λ _. pairs_held held.new) result (pairs_of (held_text held.old)) }
    ensures dict { OnOk result (is_dict held.new ≡ true) }
    ensures same { held_text held.new ≡ held_text held.old }
    ensures kept { IsHeld held.new }
{
    if held.is_dict() {
        return Ok(());
    }
    let pairs = read_pairs(held, alloc)?;
    *held = Held::Dict(pairs);
    Ok(())
}

/// Values at their keys: of a key that comes again, the last value, in its first place.
fn put_values(alloc: Global, pairs: Vec<(Key, Value)>) -> Result<Pairs, AllocError>
    ensures pairs { IfOk result (λ p. pairs_in p ≡ put_keys [] pairs.items) }
    ensures text { IfOk result (λ p. p.text ≡ None) }
    ensures kept { IfOk result (λ p. ArePaired p) }
{
    let mut own = no_pairs(alloc);
    for (key, value) in pairs {
        let value = value.into_element(alloc)?;
        put_own(&mut own, key, value)?;
    }
    Ok(own)
}

impl Value {
    /// The value that is a dictionary of these values at their keys: dict(n), `dict create`. Of a key that comes again, the last
    /// value stands, in the key's first place.
    pub fn of_dict(alloc: Global, pairs: Vec<(Key, Value)>) -> Result<Value, AllocError>
        ensures { IfOk result (λ v. v ≡ dictionary (put_keys [] pairs.items)) }
    {
        let pairs = put_values(alloc, pairs)?;
        Ok(Value {
            held: Held::Dict(Rc::new(alloc, pairs)?),
        })
    }

    /// How many keys the dictionary has that the text is read as: dict(n), `dict size`.
    ///
    /// # Errors
    ///
    /// `Fault::Error` with the dictionary's fault, `Fault::Memory`.
    pub fn dict_size(&mut self, alloc: Global) -> Result<usize, Fault>
        ensures size { Answers (λ n. n) result (size_of self.old) }
        ensures same { self.new ≡ self.old }
    {
        read_dict(&mut self.held, alloc)?;
        match &self.held {
            Held::Dict(pairs) => Ok(count_pairs(pairs)),
            _ => unreachable!(),
        }
    }

    /// The value of a key of the dictionary that the text is read as; none where the dictionary has no such key: dict(n), `dict get`.
    ///
    /// # Errors
    ///
    /// `Fault::Error` with the dictionary's fault, `Fault::Memory`.
    pub fn dict_get(&mut self, alloc: Global, key: &str) -> Result<Option<Value>, Fault>
        ensures value { Answers (λ o. o) result (value_of self.old (chars key.now)) }
        ensures same { self.new ≡ self.old }
    {
        read_dict(&mut self.held, alloc)?;
        match &self.held {
            Held::Dict(pairs) => match find_pair(pairs, key) {
                Some(element) => Ok(Some(element.value(alloc)?)),
                None => Ok(None),
            },
            _ => unreachable!(),
        }
    }

    /// Puts a value at a key of the dictionary that the text is read as: dict(n), `dict set`. A key that is there keeps its place, another
    /// one comes last.
    ///
    /// # Errors
    ///
    /// `Fault::Error` with the dictionary's fault, `Fault::Memory`; the value is then as it was.
    pub fn dict_put(&mut self, alloc: Global, key: Key, value: Value) -> Result<(), Fault>
        ensures done { Leaves self.new (with_key self.old key value) result }
        ensures same { OnErr result (self.new ≡ self.old) }
    {
        let element = value.into_element(alloc)?;
        read_dict(&mut self.held, alloc)?;
        match &mut self.held {
            Held::Dict(pairs) => {
                put_pair(pairs, key, element)?;
                Ok(())
            }
            _ => unreachable!(),
        }
    }

    /// Takes a key, if it is there, and its value out of the dictionary that the text is read as: dict(n), `dict unset`, `dict remove`.
    ///
    /// # Errors
    ///
    /// `Fault::Error` with the dictionary's fault, `Fault::Memory`; the value is then as it was.
    pub fn dict_remove(&mut self, alloc: Global, key: &str) -> Result<(), Fault>
        ensures done { Leaves self.new (less_key self.old (chars key.now)) result }
        ensures same { OnErr result (self.new ≡ self.old) }
    {
        read_dict(&mut self.held, alloc)?;
        match &mut self.held {
            Held::Dict(pairs) => {
                remove_pair(pairs, key)?;
                Ok(())
            }
            _ => unreachable!(),
        }
    }

    /// The dictionary that the text is read as. Its pairs are shared with the value, not copied.
    ///
    /// # Errors
    ///
    /// `Fault::Error` with the dictionary's fault, `Fault::Memory`.
    pub fn dictionary(&mut self, alloc: Global) -> Result<Dictionary, Fault>
        ensures pairs { Answers (λ d. d) result (pairs_of self.old) }
        ensures same { self.new ≡ self.old }
    {
        read_dict(&mut self.held, alloc)?;
        match &self.held {
            Held::Dict(pairs) => Ok(Dictionary {
                pairs: pairs.clone()?,
            }),
            _ => unreachable!(),
        }
    }
}
