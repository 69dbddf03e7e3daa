//! Lambdas that are applied: apply(n).
ghost use Rattle.std.specs.Prelude.{◌≡◌, ◌∷◌, Ok, drop, map as each, IfOk};
ghost use Rattle.std.specs.Str.{chars};
ghost use Rattle.tcl_chars.specs.Answers.{Answers};
ghost use Rattle.tcl_chars.specs.Messages.{about};
ghost use Rattle.tcl_chars.specs.Texts.{literal, text_of};
ghost use Rattle.tcl_steps.specs.Asked.{IsAsked};
ghost use Rattle.tcl_list.specs.Elements.{elements_of};
ghost use Rattle.tcl_meaning.specs.ProcedurePages as spec;
ghost use Rattle.tcl_procs.specs.Lambdas.{lambda_procedure};
ghost use Rattle.tcl_table.specs.Procedures.{procedure_of};

use crate::calls::call_procedure;
use crate::formals::read_procedure;
use std::alloc::{AllocError, Global};
use std::rc::RcStr;
use tcl_arguments::text_at;
use tcl_chars::{Fault, about};
use tcl_list::split;
use tcl_steps::{Completion, Loop, Owes, Scope, Step, usage};
use tcl_table::Procedure;
use tcl_values::Value;

// What is said of a text that is no lambda.
fn no_lambda(alloc: Global, text: &str) -> Result<RcStr, AllocError>
    ensures { IfOk result (λ said. text_of said ≡ about (literal "can't interpret") (chars text.now) (literal " as a lambda expression")) }
{
    about(alloc, "can't interpret", text, " as a lambda expression")
}

// The formals and the body of a text of these elements.
fn parts_by(alloc: Global, text: &str, elements: &[RcStr]) -> Result<(RcStr, RcStr), Fault>
    ensures { Answers (λ parts. (text_of parts.0, text_of parts.1)) result (spec.lambda_of (chars text.now) (Ok (each text_of elements.now))) }
{
    match elements {
        [formals, body] => Ok((formals.clone()?, body.clone()?)),
        _ => Err(Fault::Error(no_lambda(alloc, text)?)),
    }
}

// The formals and the body of a lambda.
fn lambda_parts(alloc: Global, text: &str) -> Result<(RcStr, RcStr), Fault>
    ensures { Answers (λ parts. (text_of parts.0, text_of parts.1)) result (spec.lambda_of (chars text.now) (elements_of (chars text.now))) }
{
    match split(alloc, text) {
        Ok(elements) => parts_by(alloc, text, &elements),
        Err(Fault::Error(_)) => Err(Fault::Error(no_lambda(alloc, text)?)),
        Err(Fault::Memory) => Err(Fault::Memory),
    }
}

// The procedure that a lambda is read as.
fn lambda_procedure(alloc: Global, text: &str) -> Result<Procedure, Fault>
    ensures { Answers procedure_of result (lambda_procedure (chars text.now)) }
{
    let (formals, body) = lambda_parts(alloc, text)?;
    read_procedure(alloc, formals.as_str(), body)
}

// A lambda, applied to words.
fn apply_lambda(
    alloc: Global,
    lambda: &str,
    words: &[Value],
) -> Result<Step<Scope, Owes, Loop>, AllocError>
    ensures { IsAsked result (spec.apply_page (chars lambda.now ∷ words.now)) }
{
    match lambda_procedure(alloc, lambda) {
        Ok(procedure) => call_procedure(alloc, "apply lambdaExpr", &procedure, words),
        Err(Fault::Error(message)) => Ok(Step::Done(Completion::failure(alloc, message))),
        Err(Fault::Memory) => Err(AllocError),
    }
}

// The same, to the words behind the first.
fn apply_behind(
    alloc: Global,
    lambda: &str,
    words: &[Value],
) -> Result<Step<Scope, Owes, Loop>, AllocError>
    ensures { IsAsked result (spec.apply_page (chars lambda.now ∷ drop 1 words.now)) }
{
    match words {
        [_, others @ ..] => apply_lambda(alloc, lambda, others),
        [] => apply_lambda(alloc, lambda, words),
    }
}

/// `apply lambdaExpr ?arg ...?`: the words go to the formals of the lambda, and its body is to be run in a new frame.
///
/// A lambda that is no list of two elements is an error, and so is a fault of its formals.
///
/// # Errors
///
/// `AllocError` where a growth was refused.
pub fn apply_page(alloc: Global, words: &mut [Value]) -> Result<Step<Scope, Owes, Loop>, AllocError>
    ensures { IsAsked result (spec.apply_page words.old) }
{
    if words.len() == 0 {
        return usage(alloc, "apply lambdaExpr ?arg ...?");
    }
    let lambda = text_at(alloc, words, 0)?;
    apply_behind(alloc, lambda.as_str(), words)
}
