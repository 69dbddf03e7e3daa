//! What commands answer at once, and words that they know.
ghost use Rattle.std.specs.Prelude.{◌≡◌, IfOk};
ghost use Rattle.std.specs.Str.{chars};
ghost use Rattle.tcl_steps.specs.Asked.{IsAsked};
ghost use Rattle.tcl_meaning.specs.Asking as asking;
ghost use Rattle.tcl_meaning.specs.Shapes as shapes;

use crate::completion::Completion;
use crate::step::{Loop, Owes, Scope, Step};
use std::alloc::{AllocError, Global};
use tcl_chars::is_text;
use tcl_values::Value;

/// The usage's error.
pub fn usage(alloc: Global, usage: &str) -> Result<Step<Scope, Owes, Loop>, AllocError>
    ensures { IsAsked result (asking.usage (chars usage.now)) }
{
    Ok(Step::Done(Completion::wrong_words(alloc, usage)?))
}

/// Is a value's text this word?
pub fn is_word(alloc: Global, value: &Value, word: &str) -> Result<bool, AllocError>
    ensures { IfOk result (λ is. is ≡ shapes.is_word (chars word.now) value.now) }
{
    if let Some(text) = value.shown() {
        return Ok(is_text(text, word));
    }
    let mut copy = value.copy()?;
    let text = copy.text(alloc)?;
    Ok(is_text(text.as_str(), word))
}
