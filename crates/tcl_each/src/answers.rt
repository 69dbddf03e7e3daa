//! Values that the variables of a turn take.
ghost use Rattle.std.specs.Prelude.{◌≡◌, ◌<◌, [], length, IfOk};
ghost use Rattle.tcl_arguments.specs.WordAt.{word};

use std::alloc::{AllocError, Global};
use tcl_values::Value;

/// The empty text.
pub(crate) fn empty(alloc: Global) -> Result<Value, AllocError>
    ensures { IfOk result (λ value. value ≡ []) }
{
    Value::of_str(alloc, "")
}

/// A value of the same text as the word at a place.
pub(crate) fn word_at(words: &[Value], place: usize) -> Result<Value, AllocError>
    requires { place < length words.now }
    ensures { IfOk result (λ value. value ≡ word words.now place) }
{
    words[place].copy()
}
