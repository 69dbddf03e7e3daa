//! One element of a list, by the indices that lead to it: lindex(n).

ghost use Rattle.std.specs.Prelude.{◌≡◌, ◌<◌, true, false, drop, length, Ok, IfOk};
ghost use Rattle.tcl_chars.specs.Answers.{Answers};
ghost use Rattle.tcl_list.specs.Elements.{elements_of};
ghost use Rattle.tcl_lists.specs.WordAt.{word};
ghost use Rattle.tcl_lists.specs.WordAt as step;
ghost use Rattle.tcl_pages.specs.Lists.{indices_of};
ghost use Rattle.tcl_pages.specs.Lists as spec;
ghost use Rattle.tcl_values.specs.Kept.{texts};

use crate::message::usage;
use crate::range::values_from;
use crate::words::{copy_at, empty, fault_in_front, list_at};
use std::alloc::{AllocError, Global};
use tcl_arguments::position_at;
use tcl_chars::{Dialect, Fault, place_of};
use tcl_values::{Element, Value};

/// The element at a place, and the empty text where there is none.
fn element_or_empty(alloc: Global, elements: &[Element], place: i128) -> Result<Value, AllocError>
    ensures { IfOk result (λ v. v ≡ spec.element_or_empty (texts elements.now) place) }
{
    if place < 0 || place >= i128::from(elements.len() as u64) {
        return empty(alloc);
    }
    elements[place as usize].value(alloc)
}

/// The element of a list at the place that one of the indices says, and the empty text where there is none.
fn item_by(
    alloc: Global,
    list: &mut Value,
    indices: &mut [Value],
    place: usize,
    dialect: Dialect,
) -> Result<Value, Fault>
    requires { place < length indices.old }
    ensures item { Answers (λ v. v) result (step.item_by dialect list.old (word indices.old place)) }
    ensures same { list.new ≡ list.old }
    ensures indices { indices.new ≡ indices.old }
{
    let row = list.row(alloc)?;
    let position = position_at(alloc, indices, place, dialect)?;
    let at = place_of(position, row.len());
    Ok(element_or_empty(alloc, row.items(), at)?)
}

/// The element to which the indices from `first` on lead, each in the element at the one before.
fn element_at(
    alloc: Global,
    list: Value,
    indices: &mut [Value],
    first: usize,
    dialect: Dialect,
) -> Result<Value, Fault>
    ensures answer { Answers (λ v. v) result (spec.element_at dialect list (drop first indices.old)) }
    ensures same { indices.new ≡ indices.old }
{
    let mut element = list;
    for place in first..indices.len() {
        element = item_by(alloc, &mut element, indices, place, dialect)?;
    }
    Ok(element)
}

/// The element to which a word leads that is a list of indices.
fn element_by(alloc: Global, words: &mut [Value], dialect: Dialect) -> Result<Value, Fault>
    requires { 1 < length words.old }
    ensures answer { Answers (λ v. v) result (spec.element_by dialect (word words.old 0) (elements_of (word words.old 1))) }
    ensures same { words.new ≡ words.old }
{
    match list_at(alloc, words, 1) {
        Ok(mut indices) => {
            let list = copy_at(words, 0)?;
            element_at(alloc, list, &mut indices, 0, dialect)
        }
        Err(Fault::Error(message)) => Err(fault_in_front(alloc, words, 0, message)),
        Err(Fault::Memory) => Err(Fault::Memory),
    }
}

/// Is a lone index to be read as a list of indices? A number or a plain word is an index itself.
pub fn is_index_list(indices: &[Value]) -> bool
    ensures lone { result ≡ true → length indices.now ≡ 1 }
    ensures themselves { result ≡ false → indices_of indices.now ≡ Ok indices.now }
{
    if indices.len() != 1 {
        return false;
    }
    !indices[0].is_word()
}

/// `lindex list ?index ...?`: the element to which the indices lead; one word is a list of them.
///
/// # Errors
///
/// `Fault::Error` with the usage, the first fault of a list or of an index, `Fault::Memory`.
pub fn lindex(alloc: Global, words: &mut [Value], dialect: Dialect) -> Result<Value, Fault>
    ensures answer { Answers (λ v. v) result (spec.lindex dialect words.old) }
    ensures same { words.new ≡ words.old }
{
    if words.len() == 0 {
        return usage(alloc, "lindex list ?index ...?");
    }
    if is_index_list(values_from(&*words, 1)) {
        return element_by(alloc, words, dialect);
    }
    let list = copy_at(words, 0)?;
    element_at(alloc, list, words, 1, dialect)
}
