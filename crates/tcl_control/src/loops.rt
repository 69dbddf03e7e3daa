//! Loops: while(n), for(n).
ghost use Rattle.std.specs.Prelude.{◌≡◌};
ghost use Rattle.tcl_steps.specs.Asked.{IsAsked};
ghost use Rattle.tcl_meaning.specs.Asking as asking;
ghost use Rattle.tcl_meaning.specs.Control as spec;
ghost use Rattle.tcl_meaning.specs.Tasks as tasks;
ghost use Rattle.tcl_meaning.specs.Completions.{code_now};
ghost use Rattle.tcl_chars.specs.declared.numbers.Dialect.{Dialect};

use crate::answers::{done, word_at};
use crate::conditions::{Condition, tested};
use std::alloc::{AllocError, Global};
use tcl_chars::Dialect;
use tcl_meaning::Code;
use tcl_steps::{Completion, ForLoop, Loop, Owes, Scope, Step, WhileLoop, usage};
use tcl_values::Value;

/// `while test command`: the condition is evaluated first.
pub fn while_page(
    alloc: Global,
    dialect: Dialect,
    words: &[Value],
) -> Result<Step<Scope, Owes, Loop>, AllocError>
    ensures { IsAsked result (spec.while_page dialect words.now) }
{
    if words.len() != 2 {
        return usage(alloc, "while test command");
    }
    let test = word_at(words, 0)?;
    let body = word_at(words, 1)?;
    while_next(Box::new(alloc, WhileLoop { test, body })?)
}

// The condition of a `while` is to be evaluated.
fn while_next(turns: Box<WhileLoop>) -> Result<Step<Scope, Owes, Loop>, AllocError>
    ensures { IsAsked result (asking.ask (tasks.Evaluate turns.value.test (tasks.WhileTest turns.value.test turns.value.body))) }
{
    let expr = turns.test.copy()?;
    Ok(Step::Evaluate(expr, Owes::WhileTest(turns)))
}

/// The condition of a `while` has ended so.
pub fn after_while_test(
    alloc: Global,
    dialect: Dialect,
    turns: Box<WhileLoop>,
    completion: Completion,
) -> Result<Step<Scope, Owes, Loop>, AllocError>
    ensures { IsAsked result (spec.after_while_test dialect turns.value.test turns.value.body completion) }
{
    match tested(alloc, dialect, completion)? {
        Condition::Ends(completion) => Ok(Step::Done(completion)),
        Condition::Holds(true) => Ok(Step::Pay(Loop::While(turns))),
        Condition::Holds(false) => done(alloc),
    }
}

/// The body of a `while` has ended so.
pub fn after_while_body(
    alloc: Global,
    turns: Box<WhileLoop>,
    completion: Completion,
) -> Result<Step<Scope, Owes, Loop>, AllocError>
    ensures { (dialect : Dialect) → IsAsked result (spec.after_while_body dialect turns.value.test turns.value.body completion) }
{
    match completion.code_now() {
        Code::Ok | Code::Continue => while_next(turns),
        Code::Break => done(alloc),
        _ => Ok(Step::Done(completion)),
    }
}

/// `for start test next command`: the start is run first.
pub fn for_page(alloc: Global, words: &[Value]) -> Result<Step<Scope, Owes, Loop>, AllocError>
    ensures { (dialect : Dialect) → IsAsked result (spec.for_page dialect words.now) }
{
    if words.len() != 4 {
        return usage(alloc, "for start test next command");
    }
    let start = word_at(words, 0)?;
    let test = word_at(words, 1)?;
    let next = word_at(words, 2)?;
    let body = word_at(words, 3)?;
    let turns = Box::new(alloc, ForLoop { test, next, body })?;
    Ok(Step::Run(Scope::Here, start, Owes::ForStart(turns)))
}

// The condition of a `for` is to be evaluated.
fn for_next(turns: Box<ForLoop>) -> Result<Step<Scope, Owes, Loop>, AllocError>
    ensures { IsAsked result (asking.ask (tasks.Evaluate turns.value.test (tasks.ForTest turns.value.test turns.value.next turns.value.body))) }
{
    let expr = turns.test.copy()?;
    Ok(Step::Evaluate(expr, Owes::ForTest(turns)))
}

/// The start of a `for` has ended so.
pub fn after_for_start(
    turns: Box<ForLoop>,
    completion: Completion,
) -> Result<Step<Scope, Owes, Loop>, AllocError>
    ensures { (dialect : Dialect) → IsAsked result (spec.after_for_start dialect turns.value.test turns.value.next turns.value.body completion) }
{
    if !completion.is_ok() {
        return Ok(Step::Done(completion));
    }
    for_next(turns)
}

/// The condition of a `for` has ended so.
pub fn after_for_test(
    alloc: Global,
    dialect: Dialect,
    turns: Box<ForLoop>,
    completion: Completion,
) -> Result<Step<Scope, Owes, Loop>, AllocError>
    ensures { IsAsked result (spec.after_for_test dialect turns.value.test turns.value.next turns.value.body completion) }
{
    match tested(alloc, dialect, completion)? {
        Condition::Ends(completion) => Ok(Step::Done(completion)),
        Condition::Holds(true) => Ok(Step::Pay(Loop::For(turns))),
        Condition::Holds(false) => done(alloc),
    }
}

/// The body of a `for` has ended so.
pub fn after_for_body(
    alloc: Global,
    turns: Box<ForLoop>,
    completion: Completion,
) -> Result<Step<Scope, Owes, Loop>, AllocError>
    ensures { (dialect : Dialect) → IsAsked result (spec.after_for_body dialect turns.value.test turns.value.next turns.value.body completion) }
{
    match completion.code_now() {
        Code::Ok | Code::Continue => {
            let script = turns.next.copy()?;
            Ok(Step::Run(Scope::Here, script, Owes::ForNext(turns)))
        }
        Code::Break => done(alloc),
        _ => Ok(Step::Done(completion)),
    }
}

/// What a `for` runs behind its body has ended so. `break` there ends the loop, and `continue` is the command's.
pub fn after_for_next(
    alloc: Global,
    turns: Box<ForLoop>,
    completion: Completion,
) -> Result<Step<Scope, Owes, Loop>, AllocError>
    ensures { (dialect : Dialect) → IsAsked result (spec.after_for_next dialect turns.value.test turns.value.next turns.value.body (code_now completion) completion) }
{
    match completion.code_now() {
        Code::Ok => for_next(turns),
        Code::Break => done(alloc),
        _ => Ok(Step::Done(completion)),
    }
}
