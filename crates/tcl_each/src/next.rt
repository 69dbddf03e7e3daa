//! What follows a turn of a loop over lists: foreach(n), lmap(n).
ghost use Rattle.std.specs.Prelude.{◌≡◌, IfOk, OnOk, option_map};
ghost use Rattle.tcl_steps.specs.Asked.{IsAsked};
ghost use Rattle.tcl_each.specs.LoopLists.{with_result};
ghost use Rattle.tcl_meaning.specs.Completions.{code_now};
ghost use Rattle.tcl_meaning.specs.Asking as asking;
ghost use Rattle.tcl_meaning.specs.Control as spec;
ghost use Rattle.tcl_steps.specs.Views.{each_of};

use crate::moving::has_more;
use std::alloc::{AllocError, Global};
use tcl_meaning::Code;
use tcl_steps::{Completion, Each, Loop, Owes, Scope, Step};
use tcl_values::Value;

// The loop's answer: the list of what was gathered, or nothing.
fn each_answer(alloc: Global, results: Option<Vec<Value>>) -> Result<Completion, AllocError>
    ensures { IfOk result (λ c. c ≡ spec.each_answer (option_map (λ v. v.items) results)) }
{
    match results {
        None => Completion::nothing(alloc),
        Some(results) => {
            let list = Value::of_list(alloc, results)?;
            Ok(Completion::normal(alloc, list))
        }
    }
}

// The loop is done.
fn ended(alloc: Global, results: Option<Vec<Value>>) -> Result<Step<Scope, Owes, Loop>, AllocError>
    ensures { IsAsked result (asking.done (spec.each_answer (option_map (λ v. v.items) results))) }
{
    let answer = each_answer(alloc, results)?;
    Ok(Step::Done(answer))
}

/// The next turn is asked for, or the loop is done.
pub(crate) fn each_next(
    alloc: Global,
    each: Box<Each>,
) -> Result<Step<Scope, Owes, Loop>, AllocError>
    ensures { IsAsked result (spec.each_next (each_of each.value)) }
{
    if has_more(&each.lists) {
        return Ok(Step::Pay(Loop::ForEach(each)));
    }
    let Each { results, .. } = Box::into_inner(each);
    ended(alloc, results)
}

// The loop has one more result, where results are gathered.
fn add_result(each: &mut Each, value: Value) -> Result<(), AllocError>
    ensures { OnOk result (each_of each.new ≡ with_result (each_of each.old) value) }
{
    if let Some(results) = &mut each.results {
        results.push(value)?;
    }
    Ok(())
}

/// The body of a loop over lists has ended so.
///
/// # Errors
///
/// `AllocError` where a growth was refused.
pub fn after_each(
    alloc: Global,
    mut each: Box<Each>,
    completion: Completion,
) -> Result<Step<Scope, Owes, Loop>, AllocError>
    ensures { IsAsked result (spec.after_each (each_of each.value) (code_now completion) completion) }
{
    match completion.code_now() {
        Code::Ok => {
            add_result(&mut each, completion.into_result())?;
            each_next(alloc, each)
        }
        Code::Continue => each_next(alloc, each),
        Code::Break => {
            let Each { results, .. } = Box::into_inner(each);
            ended(alloc, results)
        }
        _ => Ok(Step::Done(completion)),
    }
}
