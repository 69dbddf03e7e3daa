//! What catch(n) does when its script has ended.
ghost use Rattle.std.specs.Prelude.{◌≡◌, ◌<◌, ◌∷◌, [], ℕ, length, get_or, IfOk};
ghost use Rattle.tcl_meaning.specs.CodePages.{after_catch};
ghost use Rattle.tcl_meaning.specs.Completions.{options_text};
ghost use Rattle.tcl_steps.specs.Ends.{Does, EndsDone};

use crate::assigning::assign_all;
use crate::given::Given;
use std::alloc::{AllocError, Global};
use tcl_frames::Frames;
use tcl_steps::{Completion, Stop, closed, code_value};
use tcl_values::Value;

// What the variables get: the result, and the options where a second name asks for them.
fn caught_values(
    alloc: Global,
    completion: &Completion,
    count: usize,
) -> Result<Vec<Value>, AllocError>
    ensures { IfOk result (λ values. (i : ℕ) → i < count → get_or values.items i [] ≡ get_or (completion.now.result ∷ options_text completion.now ∷ []) i []) }
{
    let mut values = Vec::new(alloc);
    values.push(completion.result().copy()?)?;
    if count > 1 {
        values.push(completion.options_text(alloc)?)?;
    }
    Ok(values)
}

// The same as `after_catch`, where an error stops it.
fn caught(
    alloc: Global,
    frames: &mut Frames,
    names: &mut [Value],
    completion: &Completion,
) -> Result<Completion, Stop>
    ensures { EndsDone (after_catch names.old completion.now) frames.old result frames.new }
{
    let values = caught_values(alloc, completion, names.len())?;
    assign_all(alloc, frames, names, Given::Values(&values))?;
    let code = code_value(completion.code_now());
    Ok(Completion::normal(alloc, code))
}

/// When the script of a `catch` has ended, its result and its options go into the variables, and the answer is its code.
///
/// # Errors
///
/// `AllocError` where a growth was refused.
pub fn after_catch(
    alloc: Global,
    frames: &mut Frames,
    names: &mut [Value],
    completion: Completion,
) -> Result<Completion, AllocError>
    ensures { Does (after_catch names.old completion) frames.old result frames.new }
{
    closed(caught(alloc, frames, names, &completion))
}
