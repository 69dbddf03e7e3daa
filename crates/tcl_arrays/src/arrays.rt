//! Commands that look at an array: array(n), exists, get, names, size. A name that is no array has no elements.
ghost use Rattle.std.specs.Prelude.{◌≡◌, map as each, option_map, IfOk};
ghost use Rattle.std.specs.FinMap as map;
ghost use Rattle.std.specs.Str.{chars};
ghost use Rattle.tcl_chars.specs.Answers.{Answers};
ghost use Rattle.tcl_chars.specs.Texts.{text_of};
ghost use Rattle.tcl_frames.specs.Standing.{store_of};
ghost use Rattle.tcl_list.specs.Written.{written};
ghost use Rattle.tcl_meaning.specs.Arrays as spec;
ghost use Rattle.tcl_meaning.specs.SeenPages as pages;
ghost use Rattle.tcl_meaning.specs.State.{Commands};

use crate::choosing::{list_of, names_among, pairs_among};
use std::alloc::{AllocError, Global};
use std::rc::RcStr;
use tcl_arguments::{one_or_two_texts, one_text};
use tcl_chars::Fault;
use tcl_frames::Frames;
use tcl_values::Value;

/// The names of an array's elements that match.
pub(crate) fn names_in(
    alloc: Global,
    frames: &Frames,
    name: &str,
    pattern: &Option<RcStr>,
) -> Result<Vec<RcStr>, AllocError>
    ensures { (cs : Commands) → IfOk result (λ names. each text_of names.items ≡ spec.names_among (option_map text_of pattern.now) (map.entries (spec.elements (store_of cs frames.now) (chars name.now)))) }
{
    match frames.array(name) {
        Some(elements) => names_among(alloc, elements, pattern),
        None => Ok(Vec::new(alloc)),
    }
}

// The same, each with its text behind it.
fn pairs_in(
    alloc: Global,
    frames: &Frames,
    name: &str,
    pattern: &Option<RcStr>,
) -> Result<Vec<Value>, AllocError>
    ensures { (cs : Commands) → IfOk result (λ pairs. pairs.items ≡ spec.pairs_among (option_map text_of pattern.now) (map.entries (spec.elements (store_of cs frames.now) (chars name.now)))) }
{
    match frames.array(name) {
        Some(elements) => pairs_among(alloc, elements, pattern),
        None => Ok(Vec::new(alloc)),
    }
}

// How many elements an array has.
fn count_in(frames: &Frames, name: &str) -> usize
    ensures { (cs : Commands) → result ≡ map.len (spec.elements (store_of cs frames.now) (chars name.now)) }
{
    match frames.array(name) {
        Some(elements) => elements.len(),
        None => 0,
    }
}

/// `array names arrayName ?pattern?`: the names of the elements, in the order of code points, or those that match.
///
/// # Errors
///
/// `Fault::Error` with the usage, `Fault::Memory`.
#[tactic(auto, using(crate::proofs::PageLemmas::names_is))]
pub fn array_names(alloc: Global, frames: &Frames, words: &mut [Value]) -> Result<Value, Fault>
    ensures answer { (cs : Commands) → Answers (λ v. v) result (pages.array_names (store_of cs frames.now) words.old) }
    ensures same { words.new ≡ words.old }
{
    let (name, pattern) = one_or_two_texts(alloc, words, "array names arrayName ?pattern?")?;
    let names = names_in(alloc, frames, name.as_str(), &pattern)?;
    Ok(list_of(alloc, &names)?)
}

/// `array get arrayName ?pattern?`: the names of the elements, each with its text behind it, or those that match.
///
/// # Errors
///
/// `Fault::Error` with the usage, `Fault::Memory`.
#[tactic(auto, using(crate::proofs::PageLemmas::get_is))]
pub fn array_get(alloc: Global, frames: &Frames, words: &mut [Value]) -> Result<Value, Fault>
    ensures answer { (cs : Commands) → Answers (λ v. v) result (pages.array_get (store_of cs frames.now) words.old) }
    ensures same { words.new ≡ words.old }
{
    let (name, pattern) = one_or_two_texts(alloc, words, "array get arrayName ?pattern?")?;
    let pairs = pairs_in(alloc, frames, name.as_str(), &pattern)?;
    Ok(Value::of_list(alloc, pairs)?)
}

/// `array exists arrayName`: is there an array of the name?
///
/// # Errors
///
/// `Fault::Error` with the usage, `Fault::Memory`.
#[tactic(auto, using(crate::proofs::PageLemmas::exists_is))]
pub fn array_exists(alloc: Global, frames: &Frames, words: &mut [Value]) -> Result<Value, Fault>
    ensures answer { (cs : Commands) → Answers (λ v. v) result (pages.array_exists (store_of cs frames.now) words.old) }
    ensures same { words.new ≡ words.old }
{
    let name = one_text(alloc, words, "array exists arrayName")?;
    Ok(Value::of_truth(frames.array(name.as_str()).is_some()))
}

/// `array size arrayName`: how many elements the array has.
///
/// # Errors
///
/// `Fault::Error` with the usage, `Fault::Memory`.
#[tactic(auto, using(crate::proofs::PageLemmas::size_is))]
pub fn array_size(alloc: Global, frames: &Frames, words: &mut [Value]) -> Result<Value, Fault>
    ensures answer { (cs : Commands) → Answers (λ v. v) result (pages.array_size (store_of cs frames.now) words.old) }
    ensures same { words.new ≡ words.old }
{
    let name = one_text(alloc, words, "array size arrayName")?;
    Ok(Value::of_count(alloc, count_in(frames, name.as_str()) as u64)?)
}
