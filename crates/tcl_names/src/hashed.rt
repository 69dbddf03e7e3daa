//! Maps by name that find a name by its hash. Contracts see the same finite map as that of a `NameMap`.
ghost use Rattle.std.specs.Prelude.{◌≡◌, IfOk, OnOk, OnErr, map as each};
ghost use Rattle.std.specs.FinMap as map;
ghost use Rattle.std.specs.Str.{chars};
ghost use Rattle.std.specs.Option.{option_copied, option_copied_mut};
ghost use Rattle.std.specs.Borrow.{sem};
ghost use Rattle.tcl_names.specs.Named.{text_of};
ghost use Rattle.tcl_names.specs.Lent.{LendsAtHashed};

use std::alloc::{AllocError, Global};
use std::collections::HashMap;
use std::marker::Model;
use std::rc::RcStr;

/// A map from names, which are found by their hashes.
#[derive(Drop)]
pub struct HashedNames<V> {
    map: HashMap<RcStr, V>,
}

impl<V> Model for HashedNames<V> {
    ghost use Rattle.tcl_names.specs.Named.{Named, named_code, hashed};

    ghost Value = { Named V };

    ghost coded = { named_code V.code };

    ghost view = { λ m. hashed (λ v. v) m.map };
}

impl<V> HashedNames<V> {
    pub fn new(alloc: Global) -> HashedNames<V>
        ensures { result ≡ map.empty }
    {
        HashedNames {
            map: HashMap::new(alloc),
        }
    }

    pub fn get(&self, name: &str) -> Option<&V>
        ensures { option_copied result ≡ map.get self.now (chars name.now) }
    {
        self.map.get(name)
    }

    pub fn get_mut(&mut self, name: &str) -> Option<&mut V>
        ensures* writes_back { sem 𝓛 (LendsAtHashed V.row self.entry (chars name.entry.now) result) }
        ensures value { option_copied_mut result ≡ map.get self.old (chars name.now) }
    {
        match self.map.get_mut(name) {
            Some(value) => Some(value),
            None => None,
        }
    }

    /// How many names there are.
    pub fn len(&self) -> usize
        ensures { result ≡ map.len self.now }
    {
        self.map.len()
    }

    /// Puts a value under a name.
    pub fn insert(&mut self, alloc: Global, name: &str, value: V) -> Result<(), AllocError>
    where
        V: Drop,
        ensures put { OnOk result (self.new ≡ map.insert self.old (chars name.now) value) }
        ensures same { OnErr result (self.new ≡ self.old) }
    {
        if let Some(place) = self.get_mut(name) {
            *place = value;
            return Ok(());
        }
        let key = RcStr::from_str(alloc, name)?;
        self.map.insert(key, value)?;
        Ok(())
    }

    /// Puts a value under a name, whose text is shared.
    pub fn insert_shared(&mut self, name: RcStr, value: V) -> Result<(), AllocError>
    where
        V: Drop,
        ensures put { OnOk result (self.new ≡ map.insert self.old (text_of name) value) }
        ensures same { OnErr result (self.new ≡ self.old) }
    {
        self.map.insert(name, value)?;
        Ok(())
    }

    /// Takes out what has a name.
    pub fn remove(&mut self, name: &str) -> Option<V>
        ensures removed { self.new ≡ map.remove self.old (chars name.now) }
        ensures value { result ≡ map.get self.old (chars name.now) }
    {
        self.map.remove(name)
    }

    /// The names, in the order of code points.
    pub fn names(&self, alloc: Global) -> Result<Vec<RcStr>, AllocError>
        ensures { IfOk result (λ names. each text_of names.items ≡ map.keys self.now) }
    {
        let mut names = Vec::new(alloc);
        for (name, _) in self.entries(alloc)? {
            names.push(name)?;
        }
        Ok(names)
    }

    /// The names with what they have, in the order of code points.
    pub fn entries(&self, alloc: Global) -> Result<Vec<(RcStr, &V)>, AllocError>
        ensures { IfOk result (λ entries. each (λ e. (text_of e.0, e.1.now)) entries.items ≡ map.entries self.now) }
    {
        let mut entries = Vec::new(alloc);
        for (name, value) in self.map.iter() {
            entries.push((name.clone()?, value))?;
        }
        entries.sort_unstable_by(|x, y| x.0.cmp(&y.0));
        Ok(entries)
    }
}
