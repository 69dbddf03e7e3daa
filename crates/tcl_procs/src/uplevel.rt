//! Scripts that are run in the frame of a level: uplevel(n).
ghost use Rattle.std.specs.Prelude.{◌≡◌, IfOk};
ghost use Rattle.std.specs.Str.{chars};
ghost use Rattle.tcl_steps.specs.Asked.{IsAsked};
ghost use Rattle.tcl_meaning.specs.Asking as asking;
ghost use Rattle.tcl_meaning.specs.ProcedurePages as spec;
ghost use Rattle.tcl_pages.specs.Lists as lists;
ghost use Rattle.tcl_steps.specs.Ends.{DoesAsk};

use crate::levels::{bad_level, find_level, is_level};
use std::alloc::{AllocError, Global};
use tcl_arguments::text_at;
use tcl_frames::Frames;
use tcl_lists::concat;
use tcl_steps::{Loop, Owes, Scope, Step, usage};
use tcl_values::Value;

// The words as one text: one word as it is, several as concat(n) joins them.
#[tactic(auto, using(tcl_steps::proofs::WordLemmas::one_is, tcl_steps::proofs::WordLemmas::several_are))]
fn one_text(alloc: Global, words: &mut [Value]) -> Result<Value, AllocError>
    ensures { IfOk result (λ text. text ≡ lists.one_text words.old) }
{
    if words.len() == 1 {
        return words[0].copy();
    }
    concat(alloc, words)
}

// The usage's error.
fn uplevel_usage(alloc: Global) -> Result<Step<Scope, Owes, Loop>, AllocError>
    ensures { IsAsked result (asking.usage spec.uplevel_usage) }
{
    usage(alloc, "uplevel ?level? command ?arg ...?")
}

// The words are to be run at the level that a word names.
fn run_at(
    alloc: Global,
    frames: &Frames,
    word: &str,
    words: &mut [Value],
) -> Result<Step<Scope, Owes, Loop>, AllocError>
    ensures { DoesAsk (spec.run_at (chars word.now) words.old) frames.now result frames.now }
{
    if words.len() == 0 {
        return uplevel_usage(alloc);
    }
    let Some(level) = find_level(frames, word) else {
        return Ok(Step::Done(bad_level(alloc, word)?));
    };
    let script = one_text(alloc, words)?;
    Ok(Step::Run(Scope::of_level(level), script, Owes::Nothing))
}

/// `uplevel ?level? command ?arg ...?`: the words are to be run as one script, in the frame of the level. The first of them is the
/// level where it begins with a digit or `#`; else it is the caller's.
///
/// # Errors
///
/// `AllocError` where a growth was refused.
pub fn uplevel_page(
    alloc: Global,
    frames: &Frames,
    words: &mut [Value],
) -> Result<Step<Scope, Owes, Loop>, AllocError>
    ensures { DoesAsk (spec.uplevel_page words.old) frames.now result frames.now }
{
    if words.len() == 0 {
        return uplevel_usage(alloc);
    }
    let first = text_at(alloc, words, 0)?;
    if is_level(first.as_str()) {
        return run_at(alloc, frames, first.as_str(), &mut words[1..]);
    }
    run_at(alloc, frames, "1", words)
}
