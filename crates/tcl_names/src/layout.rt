//! Names that have numbered places.
ghost use Rattle.std.specs.Prelude.{◌≡◌, [], OnOk, OnErr, length};
ghost use Rattle.std.specs.Str.{chars};
ghost use Rattle.tcl_names.specs.Named.{text_of};
ghost use Rattle.tcl_names.specs.Placed.{IsApart, number_of, placed_name};

use crate::key::KeyedName;
use std::alloc::{AllocError, Global};
use std::marker::Model;
use std::rc::RcStr;
use tcl_chars::is_text;

/// Names that have numbered places, from 0 on.
#[derive(Drop)]
pub struct Layout {
    names: Vec<KeyedName>,
}

impl Model for Layout {
    ghost use Rattle.std.specs.Prelude.{ℕ, List};
    ghost use Rattle.tcl_names.specs.Placed.{IsApart};

    ghost Value = { List (List ℕ) };

    ghost view = { λ l. l.names.items };

    ghost invariant = { λ l. IsApart l.names.items };
}

impl Layout {
    pub fn new(alloc: Global) -> Layout
        ensures { result ≡ [] }
    {
        Layout {
            names: Vec::new(alloc),
        }
    }

    /// The place of a name.
    pub fn number(&self, name: &str) -> Option<usize>
        ensures { result ≡ number_of self.now (chars name.now) }
    {
        let mut number = 0;
        for known in &self.names {
            if is_text(name, known.as_str()) {
                return Some(number);
            }
            number += 1;
        }
        None
    }

    /// Gives a name the next place, if it has none.
    pub fn add(&mut self, name: &RcStr) -> Result<(), AllocError>
        ensures done { OnOk result (self.new ≡ placed_name self.old (text_of name.now)) }
        ensures same { OnErr result (self.new ≡ self.old) }
    {
        if self.number(name.as_str()).is_some() {
            return Ok(());
        }
        self.names.push(KeyedName::new(name.clone()?))?;
        Ok(())
    }

    /// How many places there are.
    pub fn len(&self) -> usize
        ensures { result ≡ length self.now }
    {
        self.names.len()
    }

    /// The names in the order of their places.
    pub(crate) fn names(&self) -> &[KeyedName]
        ensures names { result.now ≡ self.now }
        ensures apart { IsApart self.now }
    {
        &self.names
    }
}
