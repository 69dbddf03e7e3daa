//! Commands that look at the variables of frames: info(n), exists, level, vars.
ghost use Rattle.std.specs.Prelude.{◌≡◌, ◌&&◌, map as each, option_map, IfOk};
ghost use Rattle.std.specs.FinMap as map;
ghost use Rattle.tcl_chars.specs.Answers.{Answers};
ghost use Rattle.tcl_chars.specs.Texts.{text_of};
ghost use Rattle.tcl_frames.specs.Standing.{store_of};
ghost use Rattle.std.specs.Str.{chars};
ghost use Rattle.tcl_list.specs.Written.{written};
ghost use Rattle.tcl_meaning.specs.Arrays as arrays;
ghost use Rattle.tcl_meaning.specs.SeenPages as pages;
ghost use Rattle.tcl_meaning.specs.State.{Commands, active_frame};

use crate::choosing::{list_of, name_fits};
use std::alloc::{AllocError, Global};
use std::rc::RcStr;
use tcl_arguments::{one_text, up_to_one_text, usage};
use tcl_chars::Fault;
use tcl_frames::Frames;
use tcl_names::NameMap;
use tcl_values::Value;

/// `info exists varName`: is there a variable or an element of the name?
///
/// # Errors
///
/// `Fault::Error` with the usage, `Fault::Memory`.
#[tactic(auto, using(crate::proofs::PageLemmas::there_is))]
pub fn info_exists(alloc: Global, frames: &Frames, words: &mut [Value]) -> Result<Value, Fault>
    ensures answer { (cs : Commands) → Answers (λ v. v) result (pages.info_exists (store_of cs frames.now) words.old) }
    ensures same { words.new ≡ words.old }
{
    let name = one_text(alloc, words, "info exists varName")?;
    Ok(Value::of_truth(frames.exists(name.as_str())))
}

/// `info level`: the level of the active frame.
///
/// # Errors
///
/// `Fault::Error` with the usage, `Fault::Memory`.
#[tactic(auto, using(crate::proofs::PageLemmas::level_is, crate::proofs::PageLemmas::level_usage))]
pub fn info_level(alloc: Global, frames: &Frames, words: &mut [Value]) -> Result<Value, Fault>
    ensures answer { (cs : Commands) → Answers (λ v. v) result (pages.info_level (store_of cs frames.now) words.old) }
    ensures same { words.new ≡ words.old }
{
    if words.len() != 0 {
        return Err(Fault::Error(usage(alloc, "info level")?));
    }
    Ok(Value::of_count(alloc, frames.level() as u64)?)
}

// Does a name stand for a variable of the active frame, and match?
fn is_seen(frames: &Frames, pattern: &Option<RcStr>, name: &str) -> bool
    ensures { result ≡ (pages.exists_here (store_of map.empty frames.now) (chars name.now) && arrays.name_fits (option_map text_of pattern.now) (chars name.now)) }
{
    frames.exists_here(name) && name_fits(pattern, name)
}

// Those of some names that stand for a variable of the active frame, and match.
fn variables_among(
    alloc: Global,
    frames: &Frames,
    names: &NameMap<()>,
    pattern: &Option<RcStr>,
) -> Result<Vec<RcStr>, AllocError>
    ensures { IfOk result (λ found. each text_of found.items ≡ pages.variables_among (store_of map.empty frames.now) (option_map text_of pattern.now) (map.entries names.now)) }
{
    let mut found = Vec::new(alloc);
    for (name, _) in names.iter() {
        if is_seen(frames, pattern, name.as_str()) {
            found.push(name.clone()?)?;
        }
    }
    Ok(found)
}

// The list of those of the active frame's names that match.
fn variables_of(
    alloc: Global,
    frames: &Frames,
    pattern: &Option<RcStr>,
) -> Result<Value, AllocError>
    ensures { (cs : Commands) → IfOk result (λ v. v ≡ written (pages.variables_among (store_of cs frames.now) (option_map text_of pattern.now) (map.entries (pages.frame_names (active_frame (store_of cs frames.now)))))) }
{
    let names = frames.names(alloc)?;
    let found = variables_among(alloc, frames, &names, pattern)?;
    list_of(alloc, &found)
}

/// `info vars ?pattern?`: the names of the variables that the active frame sees, in the order of code points, or those that match.
///
/// # Errors
///
/// `Fault::Error` with the usage, `Fault::Memory`.
#[tactic(auto, using(crate::proofs::PageLemmas::vars_is))]
pub fn info_vars(alloc: Global, frames: &Frames, words: &mut [Value]) -> Result<Value, Fault>
    ensures answer { (cs : Commands) → Answers (λ v. v) result (pages.info_vars (store_of cs frames.now) words.old) }
    ensures same { words.new ≡ words.old }
{
    let pattern = up_to_one_text(alloc, words, "info vars ?pattern?")?;
    Ok(variables_of(alloc, frames, &pattern)?)
}
