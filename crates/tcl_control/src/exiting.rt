//! The end of a run: exit(n).
ghost use Rattle.std.specs.Prelude.{◌≡◌, IfOk};
ghost use Rattle.tcl_chars.specs.Answers.{Answers};
ghost use Rattle.std.specs.Str.{chars};
ghost use Rattle.tcl_chars.specs.Texts.{text_of};
ghost use Rattle.tcl_steps.specs.Asked.{IsAskedOrExits};
ghost use Rattle.tcl_meaning.specs.CodePages as spec;
ghost use Rattle.tcl_meaning.specs.Codes as codes;

use crate::answers::word_at;
use crate::numbers::whole_or;
use std::alloc::{AllocError, Global};
use std::rc::RcStr;
use tcl_chars::{Dialect, about};
use tcl_steps::{Completion, Fault, Loop, Owes, Scope, Step, usage};
use tcl_values::Value;

// What is said of a word that is no status.
fn bad_status(alloc: Global, word: &str) -> Result<RcStr, AllocError>
    ensures { IfOk result (λ said. text_of said ≡ codes.bad_status (chars word.now)) }
{
    about(alloc, "bad exit status", word, ": must be 0 to 255")
}

// The status that a number is: 0 to 255.
fn status_within(alloc: Global, word: &str, number: i64) -> Result<u8, tcl_chars::Fault>
    ensures { Answers (λ n. n) result (codes.status_within (chars word.now) number) }
{
    if number < 0 {
        return Err(tcl_chars::Fault::Error(bad_status(alloc, word)?));
    }
    if number > 255 {
        return Err(tcl_chars::Fault::Error(bad_status(alloc, word)?));
    }
    Ok(number as u8)
}

// The status that a word says.
fn status_of(alloc: Global, dialect: Dialect, word: &mut Value) -> Result<u8, tcl_chars::Fault>
    ensures { Answers (λ n. n) result (codes.status_of dialect word.old) }
{
    let number = whole_or(
        alloc,
        dialect,
        word,
        "bad exit status",
        ": must be 0 to 255",
    )?;
    let text = word.text(alloc)?;
    status_within(alloc, text.as_str(), number)
}

/// `exit ?returnCode?`: the run ends with this status, or with 0.
///
/// # Errors
///
/// `Fault::Exit` with the status, `Fault::Memory`. A word that is no status is an error of the script, and the command is done.
pub fn exit_page(
    alloc: Global,
    dialect: Dialect,
    words: &[Value],
) -> Result<Step<Scope, Owes, Loop>, Fault>
    ensures { IsAskedOrExits result (spec.exit_page dialect words.now) }
{
    if words.len() == 0 {
        return Err(Fault::Exit(0));
    }
    if words.len() > 1 {
        let step = usage(alloc, "exit ?returnCode?")?;
        return Ok(step);
    }
    let mut word = word_at(words, 0)?;
    match status_of(alloc, dialect, &mut word) {
        Ok(status) => Err(Fault::Exit(status)),
        Err(tcl_chars::Fault::Error(message)) => {
            Ok(Step::Done(Completion::failure(alloc, message)))
        }
        Err(tcl_chars::Fault::Memory) => Err(Fault::Memory),
    }
}
