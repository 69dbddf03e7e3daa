//! Procedures that are called: proc(n).
ghost use Rattle.std.specs.Str.{chars};
ghost use Rattle.tcl_steps.specs.Asked.{IsAsked};
ghost use Rattle.tcl_meaning.specs.ProcedurePages as spec;
ghost use Rattle.tcl_table.specs.Procedures.{procedure_of};

use crate::binding::bound;
use crate::usages::procedure_usage;
use std::alloc::{AllocError, Global};
use tcl_steps::{Completion, Loop, Owes, Scope, Step, usage};
use tcl_table::Procedure;
use tcl_values::Value;

/// A call of a procedure: the words go to the formals, and the body is to be run in a new frame. `word` is the command as it is
/// written.
#[tactic(auto, unfolding(tcl_meaning::specs::ProcedurePages::call_procedure))]
pub fn call_procedure(
    alloc: Global,
    word: &str,
    procedure: &Procedure,
    words: &[Value],
) -> Result<Step<Scope, Owes, Loop>, AllocError>
    ensures { IsAsked result (spec.call_procedure (chars word.now) (procedure_of procedure.now) words.now) }
{
    match bound(alloc, procedure.layout.clone()?, &procedure.formals, words)? {
        Some(variables) => {
            let body = Value::of_unread_text(procedure.body.clone()?);
            let scope = Scope::Within(Box::new(alloc, variables)?);
            Ok(Step::Run(scope, body, Owes::Leaving))
        }
        None => {
            let form = procedure_usage(alloc, word, &procedure.formals)?;
            usage(alloc, form.as_str())
        }
    }
}

/// The body of a procedure has ended so.
pub fn after_body(
    alloc: Global,
    completion: Completion,
) -> Result<Step<Scope, Owes, Loop>, AllocError>
    ensures { IsAsked result (spec.after_body completion) }
{
    Ok(Step::Done(completion.left_body(alloc)?))
}
