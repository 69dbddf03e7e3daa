//! Maps by name of which some names have numbered places. Contracts see the same finite map as that of a `NameMap`.
ghost use Rattle.std.specs.Prelude.{◌≡◌, nat_eq, IfOk, OnOk, OnErr, ◌∷◌, [], map as each};
ghost use Rattle.std.specs.FinMap as map;
ghost use Rattle.std.specs.Str.{chars};
ghost use Rattle.std.specs.Option.{option_copied, option_copied_mut};
ghost use Rattle.std.specs.Borrow.{sem};
ghost use Rattle.std.specs.Cmp.Lexicographic.{pointwise};
ghost use Rattle.tcl_chars.specs.Texts.{same_text};
ghost use Rattle.tcl_names.specs.Named.{text_of};
ghost use Rattle.tcl_names.specs.Placed.{IsApart, number_of, with_names, with_present};
ghost use Rattle.tcl_names.specs.Places.{names_in};
ghost use Rattle.tcl_names.specs.PlacedLent.{LendsAtPlaced, LendsValue};

use crate::NameMap;
use crate::hint::Hint;
use crate::key::KeyedName;
use crate::layout::Layout;
use crate::sought::Sought;
use std::alloc::{AllocError, Global};
use std::marker::Model;
use std::rc::{Rc, RcStr};
use tcl_chars::is_text;

// How many names have places, but for those of a layout.
const MOST_PLACES: usize = 64;

// How many bytes a name has at most that is compared byte by byte.
const FEW_BYTES: usize = 8;

// A name with a place, and what it has, if anything.
#[derive(Drop)]
struct Place<V> {
    name: KeyedName,
    value: Option<V>,
}

/// A map from names, of which the first that it met have numbered places.
#[derive(Drop)]
pub struct PlacedNames<V> {
    places: Vec<Place<V>>,
    others: NameMap<V>,
}

impl<V> Model for PlacedNames<V> {
    ghost use Rattle.tcl_names.specs.Named.{Named, named_code};
    ghost use Rattle.tcl_names.specs.Placed.{IsApart, placed};
    ghost use Rattle.tcl_names.specs.Places.{names_in, values_in};

    ghost Value = { Named V };

    ghost coded = { named_code V.code };

    ghost view = { λ m. placed (names_in m.places.items) (values_in m.places.items) m.others };

    ghost invariant = { λ m. IsApart (names_in m.places.items) };
}

// Are the bytes the same? They are compared one by one, which is quickest where there are few.
#[inline(always)]
fn are_same(bytes: &[u8], others: &[u8]) -> bool
    ensures { result ≡ pointwise nat_eq bytes.now others.now }
{
    let size = bytes.len();
    if size != others.len() {
        return false;
    }
    let mut at = 0;
    'bytes: while at < size {
        if bytes[at] != others[at] {
            return false;
        }
        at += 1;
    }
    true
}

// Is a name the one that is known?
#[inline(always)]
#[tactic(auto, using(tcl_chars::proofs::Same::eq_by_chars))]
fn is_name(name: &str, known: &str) -> bool
    ensures { result ≡ same_text (chars name.now) (chars known.now) }
{
    if name.len() > FEW_BYTES {
        return is_text(name, known);
    }
    are_same(name.as_bytes(), known.as_bytes())
}

// The place of a name.
fn number<V>(places: &[Place<V>], name: &str) -> Option<usize>
    ensures { result ≡ number_of (names_in places.now) (chars name.now) }
{
    let mut number = 0;
    for place in places {
        if is_name(name, place.name.as_str()) {
            return Some(number);
        }
        number += 1;
    }
    None
}

// The same. The place that is guessed is tried first, and its key tells.
#[inline(always)]
fn number_near<V>(places: &[Place<V>], name: &Sought<'_>) -> Option<usize>
    requires { IsApart (names_in places.now) }
    ensures { result ≡ number_of (names_in places.now) name.now }
{
    let guess = name.hint().get();
    if guess < places.len() && places[guess].name.is_surely(name) {
        return Some(guess);
    }
    number_afar(places, name.as_str(), name.hint())
}

// The same, where the key of the place that is guessed doesn't tell.
#[inline(never)]
fn number_afar<V>(places: &[Place<V>], name: &str, hint: &Hint) -> Option<usize>
    requires { IsApart (names_in places.now) }
    ensures { result ≡ number_of (names_in places.now) (chars name.now) }
{
    let guess = hint.get();
    if guess < places.len() && is_name(name, places[guess].name.as_str()) {
        return Some(guess);
    }
    let found = number(places, name)?;
    hint.set(found);
    Some(found)
}

// Lends what is in a place.
#[inline(always)]
fn value_mut<V>(place: &mut Option<V>) -> Option<&mut V>
    ensures* writes_back { sem 𝓛 (LendsValue V.row place.entry result) }
    ensures value { option_copied_mut result ≡ place.old }
{
    match place {
        Some(value) => Some(value),
        None => None,
    }
}

impl<V> PlacedNames<V> {
    /// A map without a name, with a place for each name of a layout.
    pub fn new(alloc: Global, layout: Rc<Layout>) -> Result<PlacedNames<V>, AllocError>
    where
        V: Drop,
        ensures { IfOk result (λ m. m ≡ map.empty) }
    {
        let mut places = Vec::with_capacity(alloc, layout.len())?;
        for name in layout.names() {
            places.push(Place {
                name: name.copy()?,
                value: None,
            })?;
        }
        Ok(PlacedNames {
            places,
            others: NameMap::new(alloc),
        })
    }

    /// The same map, with no name that has a place.
    pub fn of_map(alloc: Global, others: NameMap<V>) -> Result<PlacedNames<V>, AllocError>
    where
        V: Drop,
        ensures { IfOk result (λ m. m ≡ others) }
    {
        Ok(PlacedNames {
            places: Vec::new(alloc),
            others,
        })
    }

    pub fn get(&self, name: &str) -> Option<&V>
        ensures { option_copied result ≡ map.get self.now (chars name.now) }
    {
        self.get_near(&Sought::unkeyed(name, &Hint::new()))
    }

    /// The same as `get`: quick where the name stands where it was found last.
    #[inline(always)]
    pub fn get_near(&self, name: &Sought<'_>) -> Option<&V>
        ensures { option_copied result ≡ map.get self.now name.now }
    {
        match number_near(&self.places, name) {
            Some(number) => self.places[number].value.as_ref(),
            None => self.others.get(name.as_str()),
        }
    }

    pub fn get_mut(&mut self, name: &str) -> Option<&mut V>
        ensures* writes_back { sem 𝓛 (LendsAtPlaced V.row self.entry (chars name.entry.now) result) }
        ensures value { option_copied_mut result ≡ map.get self.old (chars name.now) }
    {
        self.get_mut_near(&Sought::unkeyed(name, &Hint::new()))
    }

    /// The same as `get_mut`: quick where the name stands where it was found last.
    #[inline(always)]
    pub fn get_mut_near(&mut self, name: &Sought<'_>) -> Option<&mut V>
        ensures* writes_back { sem 𝓛 (LendsAtPlaced V.row self.entry name.entry.now result) }
        ensures value { option_copied_mut result ≡ map.get self.old name.now }
    {
        match number_near(&self.places, name) {
            Some(number) => value_mut(&mut self.places[number].value),
            None => self.others.get_mut(name.as_str()),
        }
    }

    /// Puts a value under a name.
    pub fn insert(&mut self, alloc: Global, name: &str, value: V) -> Result<(), AllocError>
    where
        V: Drop,
        ensures put { OnOk result (self.new ≡ map.insert self.old (chars name.now) value) }
        ensures same { OnErr result (self.new ≡ self.old) }
    {
        if let Some(number) = number(&self.places, name) {
            self.places[number].value = Some(value);
            return Ok(());
        }
        if self.places.len() >= MOST_PLACES || self.others.get(name).is_some() {
            return self.others.insert(alloc, name, value);
        }
        let name = KeyedName::new(RcStr::from_str(alloc, name)?);
        self.places.push(Place {
            name,
            value: Some(value),
        })?;
        Ok(())
    }

    /// Takes out what has a name.
    pub fn remove(&mut self, name: &str) -> Option<V>
        ensures removed { self.new ≡ map.remove self.old (chars name.now) }
        ensures value { result ≡ map.get self.old (chars name.now) }
    {
        match number(&self.places, name) {
            Some(number) => self.places[number].value.take(),
            None => self.others.remove(name),
        }
    }

    /// Puts the names into a set of names.
    pub fn add_names(&self, alloc: Global, names: &mut NameMap<()>) -> Result<(), AllocError>
        ensures { OnOk result (names.new ≡ with_names names.old (each (λ e. (e.0, tt)) (map.entries self.now))) }
    {
        add_placed(self, alloc, &self.places, names)?;
        add_others(self, alloc, &self.others, names)
    }
}

// Puts a name into a set of names, if the map has it.
fn add_present<V>(
    whole: &PlacedNames<V>,
    alloc: Global,
    name: &RcStr,
    names: &mut NameMap<()>,
) -> Result<(), AllocError>
    ensures { OnOk result (names.new ≡ with_present whole.now (text_of name.now ∷ []) names.old) }
{
    if whole.get(name.as_str()).is_none() {
        return Ok(());
    }
    names.insert(alloc, name.as_str(), ())
}

// The same of each of some names.
fn add_placed<V>(
    whole: &PlacedNames<V>,
    alloc: Global,
    places: &[Place<V>],
    names: &mut NameMap<()>,
) -> Result<(), AllocError>
    ensures { OnOk result (names.new ≡ with_present whole.now (names_in places.now) names.old) }
{
    for place in places {
        add_present(whole, alloc, place.name.shared(), names)?;
    }
    Ok(())
}

// The same of the names of a map.
fn add_others<V>(
    whole: &PlacedNames<V>,
    alloc: Global,
    others: &NameMap<V>,
    names: &mut NameMap<()>,
) -> Result<(), AllocError>
    ensures { OnOk result (names.new ≡ with_present whole.now (map.keys others.now) names.old) }
{
    for (name, _) in others.iter() {
        add_present(whole, alloc, name, names)?;
    }
    Ok(())
}
