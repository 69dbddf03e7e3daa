//! What a command says of another count of words than it takes.

ghost use Rattle.std.specs.Prelude.{◌≡◌, IfOk};
ghost use Rattle.std.specs.Str.{chars};
ghost use Rattle.tcl_chars.specs.Texts.{text_of};
ghost use Rattle.tcl_pages.specs.Usage.{usage_text};

use std::alloc::{AllocError, Global};
use std::rc::RcStr;
use tcl_chars::push_text;

/// What is said of another count of words than the usage has.
pub fn usage(alloc: Global, form: &str) -> Result<RcStr, AllocError>
    ensures { IfOk result (λ s. text_of s ≡ usage_text (chars form.now)) }
{
    let mut text = String::new(alloc);
    push_text(&mut text, "wrong # args: should be \"")?;
    push_text(&mut text, form)?;
    push_text(&mut text, "\"")?;
    RcStr::from_string(text)
}
