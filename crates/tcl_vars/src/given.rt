//! Texts that variables get, wherever they stand.
ghost use Rattle.std.specs.Prelude.{◌≡◌, [], get_or, IfOk};
ghost use Rattle.tcl_values.specs.Kept.{texts};
ghost use Rattle.tcl_vars.specs.Given.{given_texts};

use crate::words::empty;
use std::alloc::{AllocError, Global};
use tcl_values::{Element, Value};

/// Texts that variables get.
#[derive(Clone, Copy)]
pub(crate) enum Given<'a> {
    /// Values.
    Values(&'a [Value]),
    /// Elements of a list, none of which is copied before it is given.
    Elements(&'a [Element]),
}

// The value at a place, or the empty text.
fn value_in(alloc: Global, values: &[Value], place: usize) -> Result<Value, AllocError>
    ensures { IfOk result (λ value. value ≡ get_or values.now place []) }
{
    if place < values.len() {
        return values[place].copy();
    }
    empty(alloc)
}

/// The element at a place, or the empty text.
#[inline(always)]
#[tactic(auto, using(tcl_values::proofs::ElementTexts::text_at, crate::proofs::GivenTexts::element_nowhere))]
pub(crate) fn element_in(
    alloc: Global,
    elements: &[Element],
    place: usize,
) -> Result<Value, AllocError>
    ensures { IfOk result (λ value. value ≡ get_or (texts elements.now) place []) }
{
    if place < elements.len() {
        let element = &elements[place];
        if let Some(number) = element.number() {
            return Ok(Value::of_int(number));
        }
        return element.value(alloc);
    }
    empty(alloc)
}

impl Given<'_> {
    /// The value of the text at a place, or the empty text.
    pub(crate) fn value_at(self, alloc: Global, place: usize) -> Result<Value, AllocError>
        ensures { IfOk result (λ value. value ≡ get_or (given_texts self.entry) place []) }
    {
        match self {
            Given::Values(values) => value_in(alloc, values, place),
            Given::Elements(elements) => element_in(alloc, elements, place),
        }
    }
}
