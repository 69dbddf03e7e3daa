//! A turn of a loop that has been paid for: while(n), for(n), foreach(n), lmap(n), `dict for` of dict(n).
ghost use Rattle.std.specs.Prelude.{[]};
ghost use Rattle.tcl_steps.specs.Asked.{IsAsked};
ghost use Rattle.tcl_meaning.specs.Control as spec;
ghost use Rattle.tcl_steps.specs.Views.{each_of, loop_of};
ghost use Rattle.tcl_steps.specs.Ends.{DoesAsk};

use crate::moving::move_lists;
use crate::setting::set_lists;
use std::alloc::{AllocError, Global};
use tcl_frames::Frames;
use tcl_steps::{Each, Loop, Owes, Scope, Step, Stop};

// The body is to be run, and what is left of the lists is for the next turn.
fn run_body(mut each: Box<Each>) -> Result<Step<Scope, Owes, Loop>, AllocError>
    ensures { IsAsked result (spec.each_set (each_of each.value) []) }
{
    let script = each.body.copy()?;
    move_lists(&mut each.lists);
    Ok(Step::Run(Scope::Here, script, Owes::EachBody(each)))
}

// A turn over lists: their next elements go into the variables.
fn each_turn(
    alloc: Global,
    frames: &mut Frames,
    each: Box<Each>,
) -> Result<Step<Scope, Owes, Loop>, AllocError>
    ensures { DoesAsk (spec.each_set (each_of each.value) (each_of each.value).lists) frames.old result frames.new }
{
    match set_lists(alloc, frames, &each.lists) {
        Ok(()) => run_body(each),
        Err(Stop::Error(completion)) => Ok(Step::Done(completion)),
        Err(Stop::Memory) => Err(AllocError),
    }
}

/// A turn of a loop that has been paid for: its body is to be run. A turn over lists first gives the variables their next
/// elements; the script's error there is the command's.
///
/// # Errors
///
/// `AllocError` where a growth was refused.
pub fn turned(
    alloc: Global,
    frames: &mut Frames,
    turn: Loop,
) -> Result<Step<Scope, Owes, Loop>, AllocError>
    ensures { DoesAsk (spec.turned (loop_of turn)) frames.old result frames.new }
{
    match turn {
        Loop::While(turns) => {
            let script = turns.body.copy()?;
            Ok(Step::Run(Scope::Here, script, Owes::WhileBody(turns)))
        }
        Loop::For(turns) => {
            let script = turns.body.copy()?;
            Ok(Step::Run(Scope::Here, script, Owes::ForBody(turns)))
        }
        Loop::ForEach(each) => each_turn(alloc, frames, each),
    }
}
