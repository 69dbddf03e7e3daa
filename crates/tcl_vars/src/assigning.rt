//! Variables that get texts, from left to right: lassign(n), catch(n).
ghost use Rattle.std.specs.Prelude.{◌≡◌, ℕ, ◌<◌, ◌≤◌, List, [], drop, length, get_or, IfOk};
ghost use Rattle.tcl_meaning.specs.Variables.{set, set_all};
ghost use Rattle.tcl_meaning.specs.VariablePages.{lassign_page};
ghost use Rattle.tcl_pages.specs.Lists.{rest_behind, values_for};
ghost use Rattle.tcl_pages.specs.Texts.{Text};
ghost use Rattle.tcl_steps.specs.Ends.{Does, Ends, EndsDone};
ghost use Rattle.tcl_vars.specs.Given.{given_texts};

use crate::given::Given;
use crate::words::{empty, row_at};
use std::alloc::{AllocError, Global};
use tcl_arguments::text_at;
use tcl_frames::Frames;
use tcl_steps::{Completion, Stop, assign, assign_near, closed, stop_by};
use tcl_values::{Gathering, Row, Value};

// Gives the variable that a word names a text.
fn assign_at(
    alloc: Global,
    frames: &mut Frames,
    names: &mut [Value],
    place: usize,
    value: Value,
) -> Result<(), Stop>
    requires { place < length names.old }
    ensures ends { Ends (set (get_or names.old place []) value) frames.old result frames.new }
    ensures same { names.new ≡ names.old }
{
    if let Some(name) = names[place].sought() {
        return assign_near(alloc, frames, &name, value);
    }
    let name = text_at(alloc, names, place)?;
    assign(alloc, frames, name.as_str(), value)
}

/// Gives variables texts, from left to right: those that stand at the places of the names, and empty ones where there are none.
pub(crate) fn assign_all(
    alloc: Global,
    frames: &mut Frames,
    names: &mut [Value],
    given: Given<'_>,
) -> Result<(), Stop>
    ensures ends { (texts : List Text) → ((i : ℕ) → i < length names.old → get_or (given_texts given.entry) i [] ≡ get_or texts i []) → Ends (set_all names.old texts) frames.old result frames.new }
    ensures same { names.new ≡ names.old }
{
    for place in 0..names.len() {
        let value = given.value_at(alloc, place)?;
        assign_at(alloc, frames, names, place, value)?;
    }
    Ok(())
}

/// Gives variables the elements of a list, from left to right, and empty texts where there are too few.
pub(crate) fn assign_elements(
    alloc: Global,
    frames: &mut Frames,
    names: &mut [Value],
    row: &Row,
) -> Result<(), Stop>
    ensures ends { Ends (set_all names.old (values_for (length names.old) row.now)) frames.old result frames.new }
    ensures same { names.new ≡ names.old }
{
    assign_all(alloc, frames, names, Given::Elements(row.items()))
}

// How many words stand behind the first one.
fn names_behind(words: &[Value]) -> usize
    requires { 1 ≤ length words.now }
    ensures { result ≡ length (drop 1 words.now) }
{
    words[1..].len()
}

// The elements from a place on, as a list.
#[inline(never)]
fn part_behind(alloc: Global, row: &Row, count: usize, size: usize) -> Result<Value, AllocError>
    requires size { size ≡ length row.now }
    requires count { count < size }
    ensures { IfOk result (λ rest. rest ≡ rest_behind count row.now) }
{
    let rest = Gathering::with_capacity(alloc, size - count)?.with_part(row, count, size)?;
    rest.into_value(alloc)
}

/// The elements that no name takes, as a list.
#[inline(always)]
pub(crate) fn rest_of(alloc: Global, row: &Row, count: usize) -> Result<Value, AllocError>
    ensures { IfOk result (λ rest. rest ≡ rest_behind count row.now) }
{
    let size = row.len();
    if size <= count {
        return empty(alloc);
    }
    part_behind(alloc, row, count, size)
}

// The same as `lassign`, where an error stops it.
fn lassign_words(
    alloc: Global,
    frames: &mut Frames,
    words: &mut [Value],
) -> Result<Completion, Stop>
    ensures { EndsDone (lassign_page words.old) frames.old result frames.new }
{
    if words.len() == 0 {
        return Err(Stop::Error(Completion::wrong_words(alloc, "lassign list ?varName ...?")?));
    }
    let row = match row_at(alloc, words, 0) {
        Ok(row) => row,
        Err(fault) => return Err(stop_by(alloc, fault)),
    };
    let count = names_behind(&*words);
    assign_elements(alloc, frames, &mut words[1..], &row)?;
    let rest = rest_of(alloc, &row, count)?;
    Ok(Completion::normal(alloc, rest))
}

/// `lassign list ?varName ...?`: gives the variables the elements of the list, and answers those that are left.
///
/// # Errors
///
/// `AllocError` where a growth was refused.
pub fn lassign(
    alloc: Global,
    frames: &mut Frames,
    words: &mut [Value],
) -> Result<Completion, AllocError>
    ensures { Does (lassign_page words.old) frames.old result frames.new }
{
    closed(lassign_words(alloc, frames, words))
}
