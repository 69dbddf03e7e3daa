//! What commands answer at once, and the words that they answer from.
ghost use Rattle.std.specs.Prelude.{◌≡◌, ◌<◌, ◌≤◌, drop, length, IfOk};
ghost use Rattle.tcl_steps.specs.Asked.{IsAsked};
ghost use Rattle.tcl_arguments.specs.WordAt.{word};
ghost use Rattle.tcl_meaning.specs.Asking as asking;
ghost use Rattle.tcl_meaning.specs.Completions.{nothing};

use std::alloc::{AllocError, Global};
use tcl_steps::{Completion, Loop, Owes, Scope, Step};
use tcl_values::Value;

/// A command is done, and has nothing to say.
pub(crate) fn done(alloc: Global) -> Result<Step<Scope, Owes, Loop>, AllocError>
    ensures { IsAsked result (asking.done nothing) }
{
    Ok(Step::Done(Completion::nothing(alloc)?))
}

/// A value of the same text as the word at a place.
pub(crate) fn word_at(words: &[Value], place: usize) -> Result<Value, AllocError>
    requires { place < length words.now }
    ensures { IfOk result (λ value. value ≡ word words.now place) }
{
    words[place].copy()
}

/// The words behind so many.
pub(crate) fn words_behind(words: &[Value], count: usize) -> &[Value]
    requires { count ≤ length words.now }
    ensures { result.now ≡ drop count words.now }
{
    &words[count..]
}
