//! The variables of a turn: foreach(n).
ghost use Rattle.std.specs.Prelude.{◌≡◌, ◌<◌, ◌+◌, [], length, drop, take, get_or, IfOk};
ghost use Rattle.tcl_arguments.specs.WordAt.{word};
ghost use Rattle.tcl_each.specs.Turns.{GoesOn};
ghost use Rattle.tcl_meaning.specs.Control as spec;
ghost use Rattle.tcl_meaning.specs.Tasks.{Each};
ghost use Rattle.tcl_meaning.specs.Variables.{set, set_all};
ghost use Rattle.tcl_steps.specs.Views.{loop_lists_of};
ghost use Rattle.tcl_values.specs.Kept.{texts};
ghost use Rattle.tcl_steps.specs.Ends.{Ends};

use crate::answers::{empty, word_at};
use std::alloc::{AllocError, Global};
use tcl_frames::Frames;
use tcl_steps::{LoopList, Stop, assign};
use tcl_values::{Element, Row, Value};

// The element at a place behind those that have gone, or the empty text.
#[tactic(auto, using(tcl_values::proofs::ElementPlaces::text_there, crate::proofs::ElementLemmas::all_gone, crate::proofs::ElementLemmas::past_rest))]
fn element_behind(
    alloc: Global,
    elements: &[Element],
    gone: usize,
    place: usize,
) -> Result<Value, AllocError>
    ensures { IfOk result (λ value. value ≡ get_or (texts elements.now) (gone + place) []) }
{
    if gone >= elements.len() {
        return empty(alloc);
    }
    if place >= elements.len() - gone {
        return empty(alloc);
    }
    elements[gone + place].value(alloc)
}

/// The same of a list that is shared.
pub(crate) fn element_at(
    alloc: Global,
    elements: &Row,
    gone: usize,
    place: usize,
) -> Result<Value, AllocError>
    ensures { IfOk result (λ value. value ≡ get_or elements.now (gone + place) []) }
{
    element_behind(alloc, elements.items(), gone, place)
}

// Gives one variable a text.
fn set_name(
    alloc: Global,
    frames: &mut Frames,
    names: &[Value],
    place: usize,
    value: Value,
) -> Result<(), Stop>
    requires { place < length names.now }
    ensures { Ends (set (word names.now place) value) frames.old result frames.new }
{
    let mut name = word_at(names, place)?;
    let name = name.text(alloc)?;
    assign(alloc, frames, name.as_str(), value)
}

// Gives the names of one list the elements behind those that have gone.
fn set_names(
    alloc: Global,
    frames: &mut Frames,
    names: &[Value],
    elements: &Row,
    gone: usize,
) -> Result<(), Stop>
    ensures { Ends (set_all names.now (take (length names.now) (drop gone elements.now))) frames.old result frames.new }
{
    for place in 0..names.len() {
        let value = element_at(alloc, elements, gone, place)?;
        set_name(alloc, frames, names, place, value)?;
    }
    Ok(())
}

/// Gives the names of each list its next elements, from left to right.
///
/// # Errors
///
/// `Stop::Error` is the script's error where a variable can't be set, `Stop::Memory` where a growth was refused.
#[tactic(auto, using(crate::proofs::TurnLemmas::list_set, crate::proofs::TurnLemmas::list_stops, crate::proofs::TurnLemmas::lists_end))]
pub(crate) fn set_lists(alloc: Global, frames: &mut Frames, lists: &[LoopList]) -> Result<(), Stop>
    ensures { (e : Each) → GoesOn (spec.each_set e (loop_lists_of lists.now)) (spec.each_set e []) frames.old result frames.new }
{
    for list in lists {
        set_names(alloc, frames, &list.names, &list.elements, list.gone)?;
    }
    Ok(())
}
