//! unset(n).
ghost use Rattle.std.specs.Prelude.{◌≡◌, ◌<◌, ◌≤◌, length, drop, get_or, [], IfOk};
ghost use Rattle.std.specs.Str.{chars};
ghost use Rattle.tcl_chars.specs.Texts.{same_text};
ghost use Rattle.tcl_meaning.specs.Value.{Has};
ghost use Rattle.tcl_meaning.specs.VariablePages.{behind_dashes, unset_all, unset_if, unset_page};
ghost use Rattle.tcl_steps.specs.Comes.{Comes};
ghost use Rattle.tcl_steps.specs.Ends.{Does, EndsDone};
ghost use Rattle.tcl_vars.specs.Unsetting.{unset_quietly};

use std::alloc::{AllocError, Global};
use tcl_arguments::text_at;
use tcl_chars::is_text;
use tcl_frames::Frames;
use tcl_steps::{Completion, Stop, closed, remove};
use tcl_values::Value;

// Does the word at a place say this?
fn says(alloc: Global, words: &mut [Value], place: usize, text: &str) -> Result<bool, AllocError>
    requires { place < length words.old }
    ensures says { IfOk result (λ is. is ≡ same_text (get_or words.old place []) (chars text.now)) }
    ensures words { words.new ≡ words.old }
{
    let word = text_at(alloc, words, place)?;
    Ok(is_text(word.as_str(), text))
}

// The place of the first name: `--` may stand in front.
fn first_name(alloc: Global, words: &mut [Value], place: usize) -> Result<usize, AllocError>
    requires { place ≤ length words.old }
    ensures names { IfOk result (λ first. drop first words.old ≡ behind_dashes (drop place words.old)) }
    ensures within { IfOk result (λ first. first ≤ length words.old) }
    ensures words { words.new ≡ words.old }
{
    if place >= words.len() {
        return Ok(place);
    }
    if says(alloc, words, place, "--")? {
        return Ok(place + 1);
    }
    Ok(place)
}

// Takes a variable away, if it can be.
fn remove_if(frames: &mut Frames, name: &str)
    ensures { Comes (unset_quietly (chars name.now)) frames.old (Has tt) frames.new }
{
    let _ = frames.unset(name);
}

// Takes variables away, from left to right. One that can't be stops it.
fn unset_names(
    alloc: Global,
    frames: &mut Frames,
    words: &mut [Value],
    first: usize,
) -> Result<Completion, Stop>
    requires { first ≤ length words.old }
    ensures { EndsDone (unset_all (drop first words.old)) frames.old result frames.new }
{
    for place in first..words.len() {
        let name = text_at(alloc, words, place)?;
        remove(alloc, frames, name.as_str())?;
    }
    Ok(Completion::nothing(alloc)?)
}

// Takes variables away, from left to right. One that can't be is passed over.
fn unset_quietly(
    alloc: Global,
    frames: &mut Frames,
    words: &mut [Value],
    first: usize,
) -> Result<Completion, Stop>
    requires { first ≤ length words.old }
    ensures { EndsDone (unset_if (drop first words.old)) frames.old result frames.new }
{
    for place in first..words.len() {
        let name = text_at(alloc, words, place)?;
        remove_if(frames, name.as_str());
    }
    Ok(Completion::nothing(alloc)?)
}

// The same as `unset`, where an error stops it.
fn unset_words(alloc: Global, frames: &mut Frames, words: &mut [Value]) -> Result<Completion, Stop>
    ensures { EndsDone (unset_page words.old) frames.old result frames.new }
{
    if words.len() == 0 {
        return Ok(Completion::nothing(alloc)?);
    }
    if says(alloc, words, 0, "-nocomplain")? {
        let first = first_name(alloc, words, 1)?;
        return unset_quietly(alloc, frames, words, first);
    }
    let first = first_name(alloc, words, 0)?;
    unset_names(alloc, frames, words, first)
}

/// `unset ?-nocomplain? ?--? ?varName ...?`: takes variables away, from left to right.
///
/// # Errors
///
/// `AllocError` where a growth was refused.
pub fn unset(
    alloc: Global,
    frames: &mut Frames,
    words: &mut [Value],
) -> Result<Completion, AllocError>
    ensures { Does (unset_page words.old) frames.old result frames.new }
{
    closed(unset_words(alloc, frames, words))
}
