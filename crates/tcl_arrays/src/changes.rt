//! Commands that change arrays: array(n), set, unset.
ghost use Rattle.std.specs.Prelude.{◌≡◌, Some, None, OnOk};
ghost use Rattle.std.specs.Str.{chars};
ghost use Rattle.tcl_arrays.specs.Changes.{Finishes, Leaves, Makes, set_of};
ghost use Rattle.tcl_chars.specs.Texts.{text_of};
ghost use Rattle.tcl_frames.specs.Standing.{store_of};
ghost use Rattle.tcl_meaning.specs.Arrays as spec;
ghost use Rattle.tcl_meaning.specs.VariablePages.{array_set_page, array_unset_page};
ghost use Rattle.tcl_steps.specs.Ends.{Does};

use crate::arrays::names_in;
use std::alloc::{AllocError, Global};
use std::rc::RcStr;
use tcl_arguments::text_at;
use tcl_chars::{Fault, about, message};
use tcl_frames::{Edit, Frames, VarFault};
use tcl_steps::Completion;
use tcl_values::{Row, Value};

// Puts the names and texts of a list into an array.
fn put_row(alloc: Global, frames: &mut Frames, name: &str, row: &Row) -> Result<(), Fault>
    ensures { Makes (λ cs. set_of (store_of cs frames.old) (chars name.now) row.now) frames.old result frames.new }
{
    if row.len() % 2 != 0 {
        return Err(Fault::Error(message(alloc, "list must have an even number of elements")?));
    }
    match frames.edit(alloc, name, Edit::Put(row.items())) {
        Ok(()) => Ok(()),
        Err(VarFault::Memory) => Err(Fault::Memory),
        Err(VarFault::Refused(_)) => Err(Fault::Error(about(
            alloc,
            "can't array set",
            name,
            ": variable isn't array",
        )?)),
    }
}

// The same, of a list's text.
fn put_list(alloc: Global, frames: &mut Frames, name: &str, list: &mut Value) -> Result<(), Fault>
    ensures { Makes (λ cs. spec.array_set (store_of cs frames.old) (chars name.now) list.old) frames.old result frames.new }
{
    let row = list.row(alloc)?;
    put_row(alloc, frames, name, &row)
}

// How a command ends that has changed something, or has failed.
fn finished(alloc: Global, done: Result<(), Fault>) -> Result<Completion, AllocError>
    ensures { Finishes done result }
{
    match done {
        Ok(()) => Completion::nothing(alloc),
        Err(Fault::Error(message)) => Ok(Completion::failure(alloc, message)),
        Err(Fault::Memory) => Err(AllocError),
    }
}

/// `array set arrayName list`: puts the names and texts of the list into the array, which is made where it is missing.
///
/// # Errors
///
/// `AllocError` where a growth was refused; the array is as it was then.
pub fn array_set(
    alloc: Global,
    frames: &mut Frames,
    words: &mut [Value],
) -> Result<Completion, AllocError>
    ensures does { Does (array_set_page words.old) frames.old result frames.new }
    ensures words { words.new ≡ words.old }
{
    if words.len() != 2 {
        return Completion::wrong_words(alloc, "array set arrayName list");
    }
    let name = text_at(alloc, words, 0)?;
    let mut list = words[1].copy()?;
    let done = put_list(alloc, frames, name.as_str(), &mut list);
    finished(alloc, done)
}

// Takes an array away, if there is one.
fn drop_array(frames: &mut Frames, name: &str)
    ensures { Leaves (λ cs. spec.array_unset (store_of cs frames.old) (chars name.now) None) frames.old frames.new }
{
    if frames.array(name).is_none() {
        return;
    }
    match frames.unset(name) {
        Ok(()) => (),
        Err(_) => unreachable!(),
    }
}

// Takes the elements out of an array whose names match.
fn drop_elements(
    alloc: Global,
    frames: &mut Frames,
    name: &str,
    pattern: RcStr,
) -> Result<(), AllocError>
    ensures { OnOk result (Leaves (λ cs. spec.array_unset (store_of cs frames.old) (chars name.now) (Some (text_of pattern))) frames.old frames.new) }
{
    if frames.array(name).is_none() {
        return Ok(());
    }
    let pattern = Some(pattern);
    let names = names_in(alloc, frames, name, &pattern)?;
    match frames.edit(alloc, name, Edit::Remove(&names)) {
        Ok(()) => Ok(()),
        Err(VarFault::Memory) => Err(AllocError),
        Err(VarFault::Refused(_)) => unreachable!(),
    }
}

/// `array unset arrayName ?pattern?`: takes the array away, or the elements whose names match. A name that is no array is
/// passed over.
///
/// # Errors
///
/// `AllocError` where a growth was refused.
pub fn array_unset(
    alloc: Global,
    frames: &mut Frames,
    words: &mut [Value],
) -> Result<Completion, AllocError>
    ensures does { Does (array_unset_page words.old) frames.old result frames.new }
    ensures words { words.new ≡ words.old }
{
    if words.len() == 1 {
        let name = text_at(alloc, words, 0)?;
        drop_array(frames, name.as_str());
        return Completion::nothing(alloc);
    }
    if words.len() != 2 {
        return Completion::wrong_words(alloc, "array unset arrayName ?pattern?");
    }
    let name = text_at(alloc, words, 0)?;
    let pattern = text_at(alloc, words, 1)?;
    drop_elements(alloc, frames, name.as_str(), pattern)?;
    Completion::nothing(alloc)
}
