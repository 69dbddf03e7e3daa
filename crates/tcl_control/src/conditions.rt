//! Conditions: if(n), while(n), for(n).
ghost use Rattle.std.specs.Prelude.{◌≡◌, drop, IfOk};
ghost use Rattle.tcl_steps.specs.Asked.{IsAsked};
ghost use Rattle.tcl_control.specs.Conditions.{by_test};
ghost use Rattle.tcl_meaning.specs.Asking.{Asks};
ghost use Rattle.tcl_meaning.specs.Control as spec;
ghost use Rattle.tcl_steps.specs.Views.{others_of};

use crate::answers::done;
use std::alloc::{AllocError, Global};
use tcl_chars::{Dialect, Fault};
use tcl_operators::truth_value;
use tcl_steps::{Completion, IfTest, Loop, Others, Owes, Scope, Step};
use tcl_values::Value;

/// What a condition has come to.
#[derive(Drop)]
pub(crate) enum Condition {
    Holds(bool),
    /// A completion that is the command's.
    Ends(Completion),
}

/// The truth value of a condition that has ended so.
pub(crate) fn tested(
    alloc: Global,
    dialect: Dialect,
    completion: Completion,
) -> Result<Condition, AllocError>
    ensures { IfOk result (λ t. (go stay : Asks) → spec.if_true dialect completion go stay ≡ by_test t go stay) }
{
    if !completion.is_ok() {
        return Ok(Condition::Ends(completion));
    }
    let mut value = completion.into_result();
    match truth_value(alloc, &mut value, dialect) {
        Ok(holds) => Ok(Condition::Holds(holds)),
        Err(Fault::Error(message)) => Ok(Condition::Ends(Completion::failure(alloc, message))),
        Err(Fault::Memory) => Err(AllocError),
    }
}

/// The script that is run, if there is one.
pub(crate) fn body_asks(
    alloc: Global,
    body: Option<Value>,
) -> Result<Step<Scope, Owes, Loop>, AllocError>
    ensures { IsAsked result (spec.body_asks body) }
{
    match body {
        Some(body) => Ok(Step::Run(Scope::Here, body, Owes::Nothing)),
        None => done(alloc),
    }
}

/// The next condition of an `if` is to be evaluated, or what it runs if none holds.
pub fn next_clause(alloc: Global, mut others: Others) -> Result<Step<Scope, Owes, Loop>, AllocError>
    ensures { IsAsked result (spec.next_clause (others_of others).clauses (others_of others).otherwise) }
{
    if others.gone >= others.clauses.len() {
        return body_asks(alloc, others.otherwise);
    }
    let clause = &others.clauses[others.gone];
    let test = clause.0.copy()?;
    let body = clause.1.copy()?;
    others.gone += 1;
    Ok(Step::Evaluate(
        test,
        Owes::IfTest(Box::new(alloc, IfTest { body, others })?),
    ))
}

// A condition of an `if` has ended so, with its body and the conditions behind it.
fn after_condition(
    alloc: Global,
    dialect: Dialect,
    body: Value,
    others: Others,
    completion: Completion,
) -> Result<Step<Scope, Owes, Loop>, AllocError>
    ensures { IsAsked result (spec.after_if_test dialect body (others_of others) completion) }
{
    match tested(alloc, dialect, completion)? {
        Condition::Ends(completion) => Ok(Step::Done(completion)),
        Condition::Holds(true) => Ok(Step::Run(Scope::Here, body, Owes::Nothing)),
        Condition::Holds(false) => next_clause(alloc, others),
    }
}

/// A condition of an `if` has ended so.
pub fn after_if_test(
    alloc: Global,
    dialect: Dialect,
    test: Box<IfTest>,
    completion: Completion,
) -> Result<Step<Scope, Owes, Loop>, AllocError>
    ensures { IsAsked result (spec.after_if_test dialect test.value.body (others_of test.value.others) completion) }
{
    let IfTest { body, others } = Box::into_inner(test);
    after_condition(alloc, dialect, body, others, completion)
}
