//! Errors with a code, and what handles them: throw(n), try(n).
ghost use Rattle.std.specs.Prelude.{◌≡◌, ◌∷◌, [], take};
ghost use Rattle.tcl_meaning.specs.Completions.{code_now, options_text};
ghost use Rattle.tcl_meaning.specs.Tasks as tasks;
ghost use Rattle.tcl_meaning.specs.Trying as spec;
ghost use Rattle.tcl_meaning.specs.Variables.{set, set_all};
ghost use Rattle.tcl_steps.specs.Asked.{IsAsked};
ghost use Rattle.tcl_steps.specs.Ends.{DoesAsk, Ends};
ghost use Rattle.tcl_steps.specs.Views.{handler_of, handlers_of, owes_of};

use crate::answers::{word_at, words_behind};
use crate::codes::option;
use crate::handlers::{handler_for, try_shape};
use std::alloc::{AllocError, Global};
use tcl_chars::{Dialect, Fault, message};
use tcl_frames::Frames;
use tcl_steps::{Completion, Handler, Handlers, Loop, Owes, Scope, Step, Stop, assign, usage};
use tcl_values::Value;

// The error of a type, which is a list of these elements.
fn thrown(
    alloc: Global,
    kind: Value,
    text: Value,
    elements: &[Value],
) -> Result<Step<Scope, Owes, Loop>, AllocError>
    ensures { IsAsked result (spec.thrown kind text elements.now) }
{
    if elements.len() == 0 {
        let said = message(alloc, "type must be non-empty list")?;
        return Ok(Step::Done(Completion::failure(alloc, said)));
    }
    let mut options = Vec::new(alloc);
    options.push(option(alloc, "-errorcode", kind)?)?;
    Ok(Step::Done(Completion::error_with(alloc, text, options)?))
}

/// `throw type message`: the error of a message, with a code.
#[tactic(auto, using(crate::proofs::TryLemmas::throw_none, crate::proofs::TryLemmas::throw_asks, crate::proofs::TryLemmas::throw_fails))]
pub fn throw_page(alloc: Global, words: &[Value]) -> Result<Step<Scope, Owes, Loop>, AllocError>
    ensures { IsAsked result (spec.throw_page words.now) }
{
    if words.len() != 2 {
        return usage(alloc, "throw type message");
    }
    let mut kind = word_at(words, 0)?;
    match kind.list(alloc) {
        Ok(elements) => thrown(alloc, kind, word_at(words, 1)?, &elements),
        Err(Fault::Error(said)) => Ok(Step::Done(Completion::failure(alloc, said))),
        Err(Fault::Memory) => Err(AllocError),
    }
}

/// `try body ?handler ...? ?finally script?`: the body is run first. All handlers are read before.
#[tactic(auto, using(crate::proofs::TryLemmas::try_none, crate::proofs::TryLemmas::try_is, crate::proofs::TryLemmas::try_fails))]
pub fn try_page(
    alloc: Global,
    dialect: Dialect,
    words: &[Value],
) -> Result<Step<Scope, Owes, Loop>, AllocError>
    ensures { IsAsked result (spec.try_page dialect words.now) }
{
    if words.len() == 0 {
        return usage(alloc, "try body ?handler ...? ?finally script?");
    }
    match try_shape(alloc, dialect, words_behind(words, 1)) {
        Ok(handlers) => {
            let body = word_at(words, 0)?;
            let owes = Owes::Trying(Box::new(alloc, handlers)?);
            Ok(Step::Run(Scope::Here, body, owes))
        }
        Err(Fault::Error(said)) => Ok(Step::Done(Completion::failure(alloc, said))),
        Err(Fault::Memory) => Err(AllocError),
    }
}

/// The script of `finally` is run, and then the completion stands.
pub fn finish(
    alloc: Global,
    finally: Option<Value>,
    completion: Completion,
) -> Result<Step<Scope, Owes, Loop>, AllocError>
    ensures { IsAsked result (spec.finish finally completion) }
{
    match finally {
        Some(script) => {
            let owes = Owes::Finishing(Box::new(alloc, completion)?);
            Ok(Step::Run(Scope::Here, script, owes))
        }
        None => Ok(Step::Done(completion)),
    }
}

// Gives a variable a value.
fn set_variable(alloc: Global, frames: &mut Frames, name: &Value, value: Value) -> Result<(), Stop>
    ensures ends { Ends (set name.now value) frames.old result frames.new }
{
    let mut copy = name.copy()?;
    let name = copy.text(alloc)?;
    assign(alloc, frames, name.as_str(), value)
}

// The first variable gets the result, and the second one the options.
#[tactic(auto, using(crate::proofs::TryLemmas::set_none, crate::proofs::TryLemmas::set_only))]
fn set_variables(
    alloc: Global,
    frames: &mut Frames,
    names: &[Value],
    completion: &Completion,
) -> Result<(), Stop>
    ensures { Ends (set_all (take 2 names.now) (completion.now.result ∷ options_text completion.now ∷ [])) frames.old result frames.new }
{
    let [first, ..] = names else {
        return Ok(());
    };
    set_variable(alloc, frames, first, completion.result().copy()?)?;
    let [_, second, ..] = names else {
        return Ok(());
    };
    set_variable(alloc, frames, second, completion.options_text(alloc)?)
}

// What is owed behind the script of a handler.
fn handling(finally: Option<Value>) -> Owes
    ensures { owes_of result ≡ tasks.Handling finally }
{
    match finally {
        Some(finally) => Owes::Handling(finally),
        None => Owes::Handled,
    }
}

// A handler's variables are set, and its script is run. A fault in setting is the handler's completion.
fn handle(
    alloc: Global,
    frames: &mut Frames,
    handler: &Handler,
    finally: Option<Value>,
    completion: &Completion,
) -> Result<Step<Scope, Owes, Loop>, AllocError>
    ensures { DoesAsk (spec.handle finally completion.now (handler_of handler.now)) frames.old result frames.new }
{
    match set_variables(alloc, frames, &handler.names, completion) {
        Ok(()) => {
            let script = handler.script.copy()?;
            Ok(Step::Run(Scope::Here, script, handling(finally)))
        }
        Err(Stop::Error(fault)) => finish(alloc, finally, fault),
        Err(Stop::Memory) => Err(AllocError),
    }
}

// The body of a `try` has ended so, with what is behind it.
fn after_tried(
    alloc: Global,
    frames: &mut Frames,
    handlers: Handlers,
    completion: Completion,
) -> Result<Step<Scope, Owes, Loop>, AllocError>
    ensures { DoesAsk (spec.after_try (handlers_of handlers) completion) frames.old result frames.new }
{
    let Handlers { clauses, finally } = handlers;
    match handler_for(alloc, &clauses, &completion)? {
        Some(handler) => handle(alloc, frames, handler, finally, &completion),
        None => finish(alloc, finally, completion),
    }
}

/// The body of a `try` has ended so: its handler runs, if one matches, and then `finally`.
pub fn after_try(
    alloc: Global,
    frames: &mut Frames,
    handlers: Box<Handlers>,
    completion: Completion,
) -> Result<Step<Scope, Owes, Loop>, AllocError>
    ensures { DoesAsk (spec.after_try (handlers_of handlers.value) completion) frames.old result frames.new }
{
    after_tried(alloc, frames, Box::into_inner(handlers), completion)
}

/// The script of `finally` has ended so, behind a completion: that one stands where this one is ok.
pub fn after_finally(
    before: Box<Completion>,
    completion: Completion,
) -> Result<Step<Scope, Owes, Loop>, AllocError>
    ensures { IsAsked result (spec.after_finally before.value (code_now completion) completion) }
{
    if completion.is_ok() {
        return Ok(Step::Done(Box::into_inner(before)));
    }
    Ok(Step::Done(completion))
}
