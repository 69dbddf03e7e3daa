//! What the commands say of words that they can't take.

ghost use Rattle.std.specs.Str.{chars};
ghost use Rattle.tcl_chars.specs.Answers.{Answers};
ghost use Rattle.tcl_pages.specs.Usage as spec;

use std::alloc::Global;
use std::rc::RcStr;
use tcl_chars::{Fault, push_text};
use tcl_values::Value;

/// The error of another count of words than the usage has.
pub(crate) fn usage(alloc: Global, words: &str) -> Result<Value, Fault>
    ensures { Answers (λ v. v) result (spec.usage (chars words.now)) }
{
    let mut text = String::new(alloc);
    push_text(&mut text, "wrong # args: should be \"")?;
    push_text(&mut text, words)?;
    push_text(&mut text, "\"")?;
    Err(Fault::Error(RcStr::from_string(text)?))
}
