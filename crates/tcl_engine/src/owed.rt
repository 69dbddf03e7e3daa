//! What commands do when what they asked for has ended.
ghost use Rattle.tcl_meaning.specs.Pages.{owed};
ghost use Rattle.tcl_steps.specs.Views.{owes_of};
ghost use Rattle.tcl_steps.specs.Ends.{DoesAsk};

use crate::frames::done;
use std::alloc::{AllocError, Global};
use tcl_chars::Dialect;
use tcl_control::{
    after_finally, after_for_body, after_for_next, after_for_start, after_for_test, after_if_test,
    after_try, after_while_body, after_while_test, finish,
};
use tcl_each::after_each;
use tcl_frames::Frames;
use tcl_procs::after_body;
use tcl_steps::{Completion, Loop, Owes, Scope, Step};
use tcl_vars::after_catch;

// What is owed is done, whatever it is.
#[inline(never)]
#[tactic(auto, unfolding(tcl_meaning::specs::Pages::owed))]
fn after_any(
    alloc: Global,
    dialect: Dialect,
    frames: &mut Frames,
    owes: Owes,
    completion: Completion,
) -> Result<Step<Scope, Owes, Loop>, AllocError>
    ensures { DoesAsk (owed dialect (owes_of owes) completion) frames.old result frames.new }
{
    match owes {
        Owes::Nothing => Ok(Step::Done(completion)),
        Owes::Leaving => after_body(alloc, completion),
        Owes::Catching => done(after_catch(alloc, frames, &mut [], completion)),
        Owes::CatchingResult(name) => {
            let mut names = [name];
            done(after_catch(alloc, frames, &mut names, completion))
        }
        Owes::CatchingOptions(names) => {
            let (result, options) = Box::into_inner(names);
            let mut names = [result, options];
            done(after_catch(alloc, frames, &mut names, completion))
        }
        Owes::IfTest(test) => after_if_test(alloc, dialect, test, completion),
        Owes::WhileTest(turns) => after_while_test(alloc, dialect, turns, completion),
        Owes::WhileBody(turns) => after_while_body(alloc, turns, completion),
        Owes::ForStart(turns) => after_for_start(turns, completion),
        Owes::ForTest(turns) => after_for_test(alloc, dialect, turns, completion),
        Owes::ForBody(turns) => after_for_body(alloc, turns, completion),
        Owes::ForNext(turns) => after_for_next(alloc, turns, completion),
        Owes::EachBody(each) => after_each(alloc, each, completion),
        Owes::Trying(handlers) => after_try(alloc, frames, handlers, completion),
        Owes::Handled => finish(alloc, None, completion),
        Owes::Handling(finally) => finish(alloc, Some(finally), completion),
        Owes::Finishing(before) => after_finally(before, completion),
    }
}

/// What is owed is done, when what was asked for has ended so. What comes most stands first: the end of a procedure's body, and that of a
/// script whose end is the command's, as of `switch` and `eval`.
#[inline(always)]
#[tactic(auto, unfolding(tcl_meaning::specs::Pages::owed))]
pub(crate) fn after(
    alloc: Global,
    dialect: Dialect,
    frames: &mut Frames,
    owes: Owes,
    completion: Completion,
) -> Result<Step<Scope, Owes, Loop>, AllocError>
    ensures { DoesAsk (owed dialect (owes_of owes) completion) frames.old result frames.new }
{
    match owes {
        Owes::Leaving => after_body(alloc, completion),
        Owes::Nothing => Ok(Step::Done(completion)),
        owes => after_any(alloc, dialect, frames, owes, completion),
    }
}
