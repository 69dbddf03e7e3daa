//! The pairs of a dictionary that is kept, behind a shared pointer: read, written, changed.

ghost use Rattle.std.specs.Prelude.{◌≡◌, ◌<◌, ◌≤◌, ◌+◌, ◌∷◌, [], ◌++◌, None, Some, false, length, max, option_map, remove, slice_set, IfOk, OnOk, OnErr};
ghost use Rattle.std.specs.List.{list_any};
ghost use Rattle.std.specs.Str.{bytes_eq, chars};
ghost use Rattle.std.specs.String.{string_bytes};
ghost use Rattle.tcl_chars.specs.Answers.{Answers};
ghost use Rattle.tcl_chars.specs.Texts.{text_of};
ghost use Rattle.tcl_pages.specs.Dictionaries.{put_key};
ghost use Rattle.tcl_pages.specs.DictPages.{dictionary, value_at, without_key};
ghost use Rattle.tcl_values.specs.Kept.{texts, depth_over};
ghost use Rattle.tcl_values.specs.Paired.{missing_value, read_pairs};
ghost use Rattle.tcl_values.specs.Shape.{elements, items_text, pairs_in, pairs_text, AreKept, ArePaired};

use crate::element::{Element, Entry, Items, Pairs};
use crate::element_text::ElementText;
use crate::items::{copy_elements, copy_text, row_text};
use crate::key::{Key, Sought};
use crate::nested::push_pairs;
use indexmap::IndexSet;
use std::alloc::{AllocError, Global};
use std::rc::{Rc, RcStr};
use tcl_chars::Fault;

impl Clone for Pairs {
    ghost use Rattle.tcl_values.specs.Shape.{AreSamePairs};

    ghost is_clone = { AreSamePairs };

    fn clone(&self) -> Result<Pairs, AllocError> {
        let values = copy_elements(*self.values.allocator(), &self.values)?;
        Ok(Pairs {
            text: copy_text(&self.text)?,
            depth: self.depth,
            keys: self.keys.clone()?,
            values,
            has_lists: self.has_lists,
        })
    }
}

/// The keys and values in turn, written as a list.
#[cycle(writing)]
fn write_pairs(alloc: Global, pairs: &Pairs) -> Result<String, AllocError>
    requires { length pairs.now.keys.keys ≡ length pairs.now.values.items }
    ensures { IfOk result (λ t. chars (string_bytes t) ≡ dictionary (pairs_in pairs.now)) }
{
    let mut text = String::new(alloc);
    push_pairs(&mut text, alloc, pairs)?;
    Ok(text)
}

/// The text of a dictionary: lent where it stands beside it, else written.
#[cycle(writing)]
pub(crate) fn pairs_shown(pairs: &Pairs, alloc: Global) -> Result<ElementText<'_>, AllocError>
    requires { ArePaired pairs.now }
    ensures { IfOk result (λ t. t ≡ pairs_text pairs.now) }
{
    match &pairs.text {
        Some(text) => Ok(ElementText::lent(text.as_str())),
        None => Ok(ElementText::written(write_pairs(alloc, pairs)?)),
    }
}

/// The text of a dictionary.
pub(crate) fn dict_text(pairs: &Pairs, alloc: Global) -> Result<RcStr, AllocError>
    requires { ArePaired pairs.now }
    ensures { IfOk result (λ t. text_of t ≡ pairs_text pairs.now) }
{
    match &pairs.text {
        Some(text) => text.clone(),
        None => RcStr::from_string(write_pairs(alloc, pairs)?),
    }
}

/// The text of a dictionary, which is kept from now on where nobody else holds the dictionary.
pub(crate) fn show_pairs(pairs: &mut Rc<Pairs>, alloc: Global) -> Result<RcStr, AllocError>
    requires { ArePaired pairs.old.value }
    ensures text { IfOk result (λ t. text_of t ≡ pairs_text pairs.old.value) }
    ensures same { pairs_text pairs.new.value ≡ pairs_text pairs.old.value }
    ensures kept { ArePaired pairs.new.value }
{
    if let Some(text) = &pairs.text {
        return text.clone();
    }
    let text = RcStr::from_string(write_pairs(alloc, pairs)?)?;
    let copy = text.clone()?;
    if let Some(own) = Rc::get_mut(pairs) {
        own.text = Some(copy);
    }
    Ok(text)
}

/// A dictionary as an element; one that is too deep is its text alone.
pub(crate) fn dict_element(pairs: Rc<Pairs>, alloc: Global) -> Result<Element, AllocError>
    requires { ArePaired pairs.value }
    ensures text { IfOk result (λ e. e.text ≡ pairs_text pairs.value) }
    ensures depth { IfOk result (λ e. e.depth < 64) }
{
    if pairs.depth < 64 {
        return Ok(Element {
            entry: Entry::Dict(pairs),
        });
    }
    Ok(Element {
        entry: Entry::Text(dict_text(&pairs, alloc)?),
    })
}

/// How many pairs there are.
pub(crate) fn count_pairs(pairs: &Pairs) -> usize
    requires { length pairs.now.keys.keys ≡ length pairs.now.values.items }
    ensures { result ≡ length (pairs_in pairs.now) }
{
    pairs.values.len()
}

/// The value of a key.
pub(crate) fn find_pair<'a>(pairs: &'a Pairs, key: &str) -> Option<&'a Element>
    requires { length pairs.now.keys.keys ≡ length pairs.now.values.items }
    ensures { option_map (λ e. e.now.text) result ≡ value_at (chars key.now) (pairs_in pairs.now) }
{
    match pairs.keys.get_index_of(Sought { text: key }) {
        Some(place) => Some(&pairs.values[place]),
        None => None,
    }
}

/// No pairs.
pub(crate) fn no_pairs(alloc: Global) -> Pairs
    ensures pairs { pairs_in result ≡ [] }
    ensures text { result.text ≡ None }
    ensures depth { result.depth ≡ 1 }
    ensures kept { ArePaired result }
{
    Pairs {
        text: None,
        depth: 1,
        keys: IndexSet::new(alloc),
        values: Vec::new(alloc),
        has_lists: false,
    }
}

/// Puts another value at a place.
fn set_value(own: &mut Pairs, place: usize, value: Element)
    requires place { place < length own.old.values.items }
    requires value { value.depth < 64 }
    requires deeper { depth_over own.old.values.items ≤ own.old.depth }
    ensures keys { own.new.keys.keys ≡ own.old.keys.keys }
    ensures values { own.new.values.items ≡ slice_set own.old.values.items place value }
    ensures depth { own.new.depth ≡ max own.old.depth (value.depth + 1) }
    ensures deeper { depth_over own.new.values.items ≤ own.new.depth }
    ensures text { own.new.text ≡ None }
{
    own.depth = own.depth.max(value.depth() + 1);
    own.has_lists = own.has_lists || value.may_be_list();
    own.values[place] = value;
    own.text = None;
}

/// Adds a key that isn't there, with its value.
pub(crate) fn add_pair(own: &mut Pairs, key: Key, value: Element) -> Result<(), AllocError>
    requires absent { list_any (bytes_eq key) own.old.keys.keys ≡ false }
    requires value { value.depth < 64 }
    requires deeper { depth_over own.old.values.items ≤ own.old.depth }
    ensures keys { OnOk result (own.new.keys.keys ≡ own.old.keys.keys ++ key ∷ []) }
    ensures values { OnOk result (own.new.values.items ≡ own.old.values.items ++ value ∷ []) }
    ensures text { OnOk result (own.new.text ≡ None) }
    ensures same_keys { OnErr result (own.new.keys.keys ≡ own.old.keys.keys) }
    ensures same_values { OnErr result (own.new.values.items ≡ own.old.values.items) }
    ensures same_text { OnErr result (own.new.text ≡ own.old.text) }
    ensures depth { OnOk result (own.new.depth ≡ max own.old.depth (value.depth + 1)) }
    ensures same_depth { OnErr result (own.new.depth ≡ own.old.depth) }
    ensures deeper { depth_over own.new.values.items ≤ own.new.depth }
{
    let depth = value.depth() + 1;
    let may_be_list = value.may_be_list();
    own.values.push(value)?;
    if let Err(_) = own.keys.insert(key) {
        own.values.pop();
        return Err(AllocError);
    }
    own.depth = own.depth.max(depth);
    own.has_lists = own.has_lists || may_be_list;
    own.text = None;
    Ok(())
}

/// Puts a value at a key.
pub(crate) fn put_own(own: &mut Pairs, key: Key, value: Element) -> Result<(), AllocError>
    requires value { value.depth < 64 }
    requires kept { ArePaired own.old }
    ensures put { OnOk result (pairs_in own.new ≡ put_key (pairs_in own.old) key value.text) }
    ensures text { OnOk result (own.new.text ≡ None) }
    ensures same { OnErr result (pairs_text own.new ≡ pairs_text own.old) }
    ensures depth { OnOk result (own.new.depth ≡ max own.old.depth (value.depth + 1)) }
    ensures kept { ArePaired own.new }
{
    match own.keys.get_index_of(Sought { text: key.as_str() }) {
        Some(place) => {
            set_value(own, place, value);
            Ok(())
        }
        None => {
            add_pair(own, key, value)?;
            Ok(())
        }
    }
}

/// Puts a value at a key of a dictionary, in place where nobody else holds the dictionary.
pub(crate) fn put_pair(pairs: &mut Rc<Pairs>, key: Key, value: Element) -> Result<(), AllocError>
    requires value { value.depth < 64 }
    requires kept { ArePaired pairs.old.value }
    ensures put { OnOk result (pairs_in pairs.new.value ≡ put_key (pairs_in pairs.old.value) key value.text) }
    ensures text { OnOk result (pairs_text pairs.new.value ≡ dictionary (pairs_in pairs.new.value)) }
    ensures same { OnErr result (pairs_text pairs.new.value ≡ pairs_text pairs.old.value) }
    ensures kept { ArePaired pairs.new.value }
{
    let own = Rc::make_mut(pairs)?;
    put_own(own, key, value)
}

/// The error of a key that has no value.
fn missing_value(alloc: Global) -> Result<RcStr, AllocError>
    ensures { IfOk result (λ t. text_of t ≡ missing_value) }
{
    RcStr::from_str(alloc, "missing value to go with key")
}

/// Elements two by two as pairs.
fn build_pairs(alloc: Global, elements: &[Element]) -> Result<Pairs, Fault>
    requires { depth_over elements.now ≤ 64 }
    ensures pairs { Answers (λ p. pairs_in p) result (read_pairs [] (texts elements.now)) }
    ensures text { IfOk result (λ p. p.text ≡ None) }
    ensures depth { IfOk result (λ p. p.depth ≤ depth_over elements.now) }
    ensures kept { IfOk result (λ p. ArePaired p) }
{
    let mut pairs = no_pairs(alloc);
    let mut rest = elements;
    while let Some((key, behind)) = rest.split_first() {
        let Some((value, after)) = behind.split_first() else {
            return Err(Fault::Error(missing_value(alloc)?));
        };
        put_own(&mut pairs, key.key(alloc)?, value.duplicate()?)?;
        rest = after;
    }
    Ok(pairs)
}

/// The pairs, beside this text.
fn with_text(pairs: Pairs, text: RcStr) -> Pairs
    ensures { result ≡ record pairs { text = Some text } }
{
    Pairs {
        text: Some(text),
        depth: pairs.depth,
        keys: pairs.keys,
        values: pairs.values,
        has_lists: pairs.has_lists,
    }
}

/// The dictionary that a list is read as, with the list's text. Where the list has none and no key comes again, the dictionary is
/// written as the list is, and its text stays unwritten too.
pub(crate) fn paired(alloc: Global, row: &Items) -> Result<Rc<Pairs>, Fault>
    requires { AreKept row.now }
    ensures pairs { Answers (λ p. pairs_in p.value) result (read_pairs [] (texts (elements row.now))) }
    ensures same { IfOk result (λ p. pairs_text p.value ≡ items_text row.now) }
    ensures depth { IfOk result (λ p. p.value.depth ≤ row.now.depth) }
    ensures kept { IfOk result (λ p. ArePaired p.value) }
{
    let pairs = build_pairs(alloc, &row.items)?;
    if row.text.is_none() && row.items.len() / 2 == pairs.keys.len() {
        return Ok(Rc::new(alloc, pairs)?);
    }
    let text = row_text(row, alloc)?;
    Ok(Rc::new(alloc, with_text(pairs, text))?)
}

/// Takes the key at a place out, with its value.
fn remove_at(own: &mut Pairs, place: usize)
    requires place { place < length own.old.values.items }
    requires even { length own.old.keys.keys ≡ length own.old.values.items }
    requires deeper { depth_over own.old.values.items ≤ own.old.depth }
    ensures keys { own.new.keys.keys ≡ remove own.old.keys.keys place }
    ensures values { own.new.values.items ≡ remove own.old.values.items place }
    ensures depth { own.new.depth ≡ own.old.depth }
    ensures deeper { depth_over own.new.values.items ≤ own.new.depth }
    ensures text { own.new.text ≡ own.old.text }
{
    own.keys.shift_remove_index(place);
    own.values.remove(place);
}

/// Takes a key out, with its value.
fn remove_own(own: &mut Pairs, key: &str)
    requires { ArePaired own.old }
    ensures removed { pairs_in own.new ≡ without_key (chars key.now) (pairs_in own.old) }
    ensures text { own.new.text ≡ None }
    ensures depth { own.new.depth ≡ own.old.depth }
    ensures kept { ArePaired own.new }
{
    own.text = None;
    match own.keys.get_index_of(Sought { text: key }) {
        Some(place) => remove_at(own, place),
        None => {}
    }
}

/// Takes a key out of a dictionary, with its value, in place where nobody else holds the dictionary.
pub(crate) fn remove_pair(pairs: &mut Rc<Pairs>, key: &str) -> Result<(), AllocError>
    requires { ArePaired pairs.old.value }
    ensures removed { OnOk result (pairs_in pairs.new.value ≡ without_key (chars key.now) (pairs_in pairs.old.value)) }
    ensures text { OnOk result (pairs_text pairs.new.value ≡ dictionary (pairs_in pairs.new.value)) }
    ensures same { OnErr result (pairs_text pairs.new.value ≡ pairs_text pairs.old.value) }
    ensures depth { pairs.new.value.depth ≡ pairs.old.value.depth }
    ensures kept { ArePaired pairs.new.value }
{
    let own = Rc::make_mut(pairs)?;
    remove_own(own, key);
    Ok(())
}

/// Leaves of a dictionary its pairs alone.
fn forget_own(own: &mut Pairs)
    requires { ArePaired own.old }
    ensures text { pairs_text own.new ≡ dictionary (pairs_in own.old) }
    ensures kept { ArePaired own.new }
{
    own.text = None;
}

/// Leaves of a dictionary its pairs alone, so that its text is how they are written.
pub(crate) fn forget_pairs_text(pairs: &mut Rc<Pairs>) -> Result<(), AllocError>
    requires { ArePaired pairs.old.value }
    ensures text { OnOk result (pairs_text pairs.new.value ≡ dictionary (pairs_in pairs.old.value)) }
    ensures kept { ArePaired pairs.new.value }
{
    if pairs.text.is_some() {
        let own = Rc::make_mut(pairs)?;
        forget_own(own);
    }
    Ok(())
}
