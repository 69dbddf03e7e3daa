//! A dictionary that is shared with the value that it was read from.

ghost use Rattle.std.specs.Prelude.{◌≡◌, [], length, map, option_map, IfOk, IfSome};
ghost use Rattle.std.specs.Str.{chars};
ghost use Rattle.tcl_pages.specs.Dictionaries.{keys_of, put_key, values_of};
ghost use Rattle.tcl_pages.specs.DictPages.{dictionary, value_at, without_key};
ghost use Rattle.tcl_values.specs.Kept.{texts};

use crate::element::{Element, Pairs};
use crate::key::Key;
use crate::pairs::{count_pairs, find_pair, forget_pairs_text, no_pairs, put_pair, remove_pair};
use crate::readings::is_text;
use crate::value::{Held, Value};
use std::alloc::{AllocError, Global};
use std::marker::Model;
use std::rc::Rc;

/// The pairs of a value, as they were when they were read.
#[derive(Drop)]
pub struct Dictionary {
    pub(crate) pairs: Rc<Pairs>,
}

impl Model for Dictionary {
    ghost use Rattle.tcl_pages.specs.Dictionaries as dictionaries;

    ghost Value = { dictionaries.Pairs };

    ghost use Rattle.tcl_values.specs.Shape.{dictionary_pairs, IsDictionary};

    ghost view = { dictionary_pairs };

    ghost invariant = { IsDictionary };
}

impl Dictionary {
    ghost use Rattle.tcl_values.specs.Shape.{ArePairsRead};

    /// The pairs, if this text stands beside them.
    pub(crate) fn read_from(&self, text: &str) -> Option<&Rc<Pairs>>
        ensures { IfSome result (λ p. ArePairsRead p.now.value (chars text.now)) }
    {
        if is_text(&self.pairs.text, text) {
            Some(&self.pairs)
        } else {
            None
        }
    }

    /// The dictionary without pairs.
    pub fn new(alloc: Global) -> Result<Dictionary, AllocError>
        ensures { IfOk result (λ d. d ≡ []) }
    {
        Ok(Dictionary {
            pairs: Rc::new(alloc, no_pairs(alloc))?,
        })
    }

    /// The dictionary with a value at a key: dict(n), `dict replace`. A key that is there keeps its place, another one comes last. Where
    /// nobody else holds the dictionary, nothing is copied.
    pub fn with(self, alloc: Global, key: Key, value: Value) -> Result<Dictionary, AllocError>
        ensures { IfOk result (λ d. d ≡ put_key self key value) }
    {
        let element = value.into_element(alloc)?;
        let mut pairs = self.pairs;
        put_pair(&mut pairs, key, element)?;
        Ok(Dictionary { pairs })
    }

    /// The dictionary without a key: dict(n), `dict remove`. Where nobody else holds the dictionary, nothing is copied.
    pub fn without(self, key: &str) -> Result<Dictionary, AllocError>
        ensures { IfOk result (λ d. d ≡ without_key (chars key.now) self) }
    {
        let mut pairs = self.pairs;
        remove_pair(&mut pairs, key)?;
        Ok(Dictionary { pairs })
    }

    /// How many keys there are.
    pub fn len(&self) -> usize
        ensures { result ≡ length self.now }
    {
        count_pairs(&self.pairs)
    }

    /// The keys, in their order.
    pub fn keys(&self) -> &[Key]
        ensures { result.now ≡ keys_of self.now }
    {
        self.pairs.keys.as_slice()
    }

    /// The values, in the places of their keys.
    pub fn values(&self) -> &[Element]
        ensures { texts result.now ≡ values_of self.now }
    {
        &self.pairs.values
    }

    /// The value of a key.
    pub fn find(&self, key: &str) -> Option<&Element>
        ensures { option_map (λ e. e.now.text) result ≡ value_at (chars key.now) self.now }
    {
        find_pair(&self.pairs, key)
    }

    /// The value that is the pairs' written form: dict(n).
    pub fn into_value(self) -> Result<Value, AllocError>
        ensures { IfOk result (λ v. v ≡ dictionary self) }
    {
        let mut pairs = self.pairs;
        forget_pairs_text(&mut pairs)?;
        Ok(Value {
            held: Held::Dict(pairs),
        })
    }
}
