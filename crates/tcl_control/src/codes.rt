//! Commands of codes: break(n), continue(n), error(n), catch(n).
ghost use Rattle.std.specs.Prelude.{◌≡◌, [], IfOk};
ghost use Rattle.tcl_chars.specs.Texts.{literal};
ghost use Rattle.tcl_steps.specs.Asked.{IsAsked};
ghost use Rattle.tcl_control.specs.Codes.{options_given};
ghost use Rattle.tcl_meaning.specs.Asking as asking;
ghost use Rattle.tcl_meaning.specs.CodePages as spec;
ghost use Rattle.tcl_meaning.specs.Completions.{ended};
ghost use Rattle.std.specs.Str.{chars};

use crate::answers::word_at;
use std::alloc::{AllocError, Global};
use tcl_chars::message;
use tcl_meaning::Code;
use tcl_steps::{Completion, Loop, Owes, Scope, Step, usage};
use tcl_values::Value;

// A command is done, with a code and no result.
fn ended(alloc: Global, code: Code) -> Result<Step<Scope, Owes, Loop>, AllocError>
    ensures { IsAsked result (asking.done (ended code [])) }
{
    let text = Value::of_str(alloc, "")?;
    Ok(Step::Done(Completion::ended(alloc, code, text)))
}

/// `break`: the loop is left.
pub fn break_page(alloc: Global, words: &[Value]) -> Result<Step<Scope, Owes, Loop>, AllocError>
    ensures { IsAsked result (spec.break_page words.now) }
{
    if words.len() == 0 {
        return ended(alloc, Code::Break);
    }
    usage(alloc, "break")
}

/// `continue`: the loop's next turn comes.
pub fn continue_page(alloc: Global, words: &[Value]) -> Result<Step<Scope, Owes, Loop>, AllocError>
    ensures { IsAsked result (spec.continue_page words.now) }
{
    if words.len() == 0 {
        return ended(alloc, Code::Continue);
    }
    usage(alloc, "continue")
}

/// The option of a name.
pub(crate) fn option(alloc: Global, name: &str, value: Value) -> Result<(Value, Value), AllocError>
    ensures { IfOk result (λ option. option ≡ (chars name.now, value)) }
{
    Ok((Value::of_text(message(alloc, name)?), value))
}

// What `error` is given behind the message.
fn options_given(alloc: Global, words: &[Value]) -> Result<Vec<(Value, Value)>, AllocError>
    ensures { IfOk result (λ options. options.items ≡ options_given words.now) }
{
    let mut options = Vec::new(alloc);
    if words.len() < 2 {
        return Ok(options);
    }
    options.push(option(alloc, "-errorinfo", word_at(words, 1)?)?)?;
    if words.len() < 3 {
        return Ok(options);
    }
    options.push(option(alloc, "-errorcode", word_at(words, 2)?)?)?;
    Ok(options)
}

// The error of other words than `error` takes.
fn error_usage(alloc: Global) -> Result<Step<Scope, Owes, Loop>, AllocError>
    ensures { IsAsked result (asking.usage (literal "error message ?errorInfo? ?errorCode?")) }
{
    usage(alloc, "error message ?errorInfo? ?errorCode?")
}

/// `error message ?errorInfo? ?errorCode?`: the error of a message.
pub fn error_page(alloc: Global, words: &[Value]) -> Result<Step<Scope, Owes, Loop>, AllocError>
    ensures { IsAsked result (spec.error_page words.now) }
{
    if words.len() == 0 {
        return error_usage(alloc);
    }
    if words.len() > 3 {
        return error_usage(alloc);
    }
    let message = word_at(words, 0)?;
    let options = options_given(alloc, words)?;
    Ok(Step::Done(Completion::error_with(alloc, message, options)?))
}

// The error of other words than `catch` takes.
fn catch_usage(alloc: Global) -> Result<Step<Scope, Owes, Loop>, AllocError>
    ensures { IsAsked result (asking.usage (literal "catch script ?resultVarName? ?optionVarName?")) }
{
    usage(alloc, "catch script ?resultVarName? ?optionVarName?")
}

/// `catch script ?resultVarName? ?optionVarName?`: the script is run first.
#[tactic(auto, using(crate::proofs::PageLemmas::no_catch_words, crate::proofs::PageLemmas::more_catch_words), unfolding(tcl_meaning::specs::CodePages::catch_page))]
pub fn catch_page(alloc: Global, words: &[Value]) -> Result<Step<Scope, Owes, Loop>, AllocError>
    ensures { IsAsked result (spec.catch_page words.now) }
{
    match words {
        [script] => Ok(Step::Run(Scope::Here, script.copy()?, Owes::Catching)),
        [script, result] => {
            let owes = Owes::CatchingResult(result.copy()?);
            Ok(Step::Run(Scope::Here, script.copy()?, owes))
        }
        [script, result, options] => {
            let names = (result.copy()?, options.copy()?);
            let owes = Owes::CatchingOptions(Box::new(alloc, names)?);
            Ok(Step::Run(Scope::Here, script.copy()?, owes))
        }
        [] => catch_usage(alloc),
        [_, _, _, _, ..] => catch_usage(alloc),
    }
}
