//! Texts read as lists. What a text was read as is kept beside it for all who hold it, where there is room for it.

ghost use Rattle.std.specs.Prelude.{◌≡◌, ◌<◌, true, map, IfOk, IfSome, OnOk};
ghost use Rattle.tcl_list.specs.Elements.{elements_of};
ghost use Rattle.tcl_list.specs.Texts.{text_of, Answers};
ghost use Rattle.tcl_values.specs.Kept.{texts, depth_over};
ghost use Rattle.tcl_values.specs.Shape.{elements, elements_held, held_text, is_row, items_text, pairs_text, AreKept, ArePaired, IsHeld};

use crate::deep::read_deep;
use crate::digits::decimal_number;
use crate::element::{Element, Items, Pairs};
use crate::flat::flat_row;
use crate::single::{is_word, number_row};
use crate::value::Held;
use crate::written::read_written;
use std::alloc::{AllocError, Global};
use std::rc::{Rc, RcStr};
use tcl_chars::Fault;
use tcl_list::split;

/// A word as an element: a number, where the word is its decimal text.
pub(crate) fn word_element(text: RcStr) -> Element
    ensures text { result.text ≡ text_of text }
    ensures depth { result.depth ≡ 0 }
{
    match decimal_number(text.as_str()) {
        Some(n) => Element::of_number(n),
        None => Element::of_text(text),
    }
}

/// Words as elements, none of which is kept as a list.
pub(crate) fn plain_elements(alloc: Global, words: Vec<RcStr>) -> Result<Vec<Element>, AllocError>
    ensures texts { IfOk result (λ v. texts v.items ≡ map text_of words.items) }
    ensures depth { IfOk result (λ v. depth_over v.items ≡ 1) }
{
    let mut elements = Vec::with_capacity(alloc, words.len())?;
    for text in words {
        elements.push(word_element(text))?;
    }
    Ok(elements)
}

/// The words that a text is read as. A plain word is shared.
pub(crate) fn words(alloc: Global, text: &RcStr) -> Result<Vec<RcStr>, Fault>
    ensures { Answers (λ v. map text_of v.items) result (elements_of (text_of text.now)) }
{
    if is_word(text.as_str()) {
        return Ok(vec![in alloc; text.clone()?]?);
    }
    split(alloc, text.as_str())
}

/// The list that a text is read as, with the text beside it.
pub(crate) fn read_text(alloc: Global, text: RcStr) -> Result<Rc<Items>, Fault>
    ensures read { Answers (λ r. texts (elements r.value)) result (elements_of (text_of text)) }
    ensures same { IfOk result (λ r. items_text r.value ≡ text_of text) }
    ensures flat { IfOk result (λ r. r.value.depth ≡ 1) }
    ensures kept { IfOk result (λ r. AreKept r.value) }
{
    let words = words(alloc, &text)?;
    let items = plain_elements(alloc, words)?;
    let row = Items {
        text: Some(text),
        depth: 1,
        items,
        pairs: None,
    };
    Ok(Rc::new(alloc, row)?)
}

/// The list that a text is read as; none where it is no list.
pub(crate) fn list_of(alloc: Global, text: &RcStr) -> Result<Option<Rc<Items>>, AllocError>
    ensures text { IfOk result (λ o. IfSome o (λ r. items_text r.value ≡ text_of text.now)) }
    ensures depth { IfOk result (λ o. IfSome o (λ r. r.value.depth ≡ 1)) }
    ensures kept { IfOk result (λ o. IfSome o (λ r. AreKept r.value)) }
{
    match read_text(alloc, text.clone()?) {
        Ok(row) => Ok(Some(row)),
        Err(Fault::Error(_)) => Ok(None),
        Err(Fault::Memory) => Err(AllocError),
    }
}

/// The list that a text is read as, with the text beside it. That of a script is read together with its elements.
fn read_whole(text: RcStr, is_written: bool, alloc: Global) -> Result<Rc<Items>, Fault>
    ensures read { Answers (λ r. texts (elements r.value)) result (elements_of (text_of text)) }
    ensures same { IfOk result (λ r. items_text r.value ≡ text_of text) }
    ensures kept { IfOk result (λ r. AreKept r.value) }
{
    if let Some(items) = read_deep(alloc, &text)? {
        return Ok(items);
    }
    if is_written {
        return read_written(alloc, text);
    }
    read_text(alloc, text)
}

/// The list that the text of what is kept is read as, and was read as by whoever shares the text: that one reads it who is the first.
fn read_shared(held: &Held, alloc: Global) -> Result<Rc<Items>, Fault>
    requires { IsHeld held.now }
    ensures read { Answers (λ r. texts (elements r.value)) result (elements_of (held_text held.now)) }
    ensures same { IfOk result (λ r. items_text r.value ≡ held_text held.now) }
    ensures kept { IfOk result (λ r. AreKept r.value) }
{
    if let Some(items) = held.kept_list() {
        return Ok(items.clone()?);
    }
    let items = read_whole(held.text(alloc)?, held.is_written(), alloc)?;
    held.keep_list(&items)?;
    Ok(items)
}

/// The list that a dictionary is read as. One that nobody has written isn't written.
fn read_pairs(pairs: &Pairs, alloc: Global) -> Result<Rc<Items>, Fault>
    requires { ArePaired pairs.now }
    ensures read { Answers (λ r. texts (elements r.value)) result (elements_of (pairs_text pairs.now)) }
    ensures same { IfOk result (λ r. items_text r.value ≡ pairs_text pairs.now) }
    ensures kept { IfOk result (λ r. AreKept r.value) }
{
    match &pairs.text {
        Some(text) => read_whole(text.clone()?, false, alloc),
        None => Ok(flat_row(alloc, pairs)?),
    }
}

/// The list that the text of what is kept is read as. A number isn't spelled.
pub(crate) fn read_held(held: &Held, alloc: Global) -> Result<Rc<Items>, Fault>
    requires { IsHeld held.now }
    ensures read { Answers (λ r. texts (elements r.value)) result (elements_of (held_text held.now)) }
    ensures same { IfOk result (λ r. items_text r.value ≡ held_text held.now) }
    ensures kept { IfOk result (λ r. AreKept r.value) }
{
    match held {
        Held::Row(row) => Ok(row.clone()?),
        Held::Number(n) => Ok(number_row(alloc, *n)?),
        Held::Dict(pairs) => read_pairs(pairs, alloc),
        _ => read_shared(held, alloc),
    }
}

/// Reads what is kept as a list, which is kept from now on.
pub(crate) fn read_row(held: &mut Held, alloc: Global) -> Result<(), Fault>
    requires { IsHeld held.old }
    ensures read { Answers (λ _. texts (elements_held held.new)) result (elements_of (held_text held.old)) }
    ensures row { OnOk result (is_row held.new ≡ true) }
    ensures same { held_text held.new ≡ held_text held.old }
    ensures kept { IsHeld held.new }
{
    if held.is_row() {
        return Ok(());
    }
    let row = read_held(held, alloc)?;
    *held = Held::Row(row);
    Ok(())
}
