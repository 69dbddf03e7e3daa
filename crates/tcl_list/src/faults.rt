//! What is wrong with a text that is no list.

ghost use Rattle.std.specs.Prelude.{◌≡◌, ◌++◌, IfOk, OnOk};
ghost use Rattle.std.specs.Str.{chars};
ghost use Rattle.std.specs.String.{string_bytes};
ghost use Rattle.tcl_list.specs.Elements.{up_to_space};
ghost use Rattle.tcl_list.specs.Faults.{unmatched_brace, unmatched_quote, beginning, followed_by};
ghost use Rattle.tcl_list.specs.Texts.{text_of};

use crate::reading::Closed;
use std::alloc::{AllocError, Global};
use std::rc::RcStr;
use tcl_chars::{is_list_space, message, push, push_text, split_first};

/// No brace matches the one that opens an element.
pub(crate) fn unmatched_brace(alloc: Global) -> Result<RcStr, AllocError>
    ensures { IfOk result (λ s. text_of s ≡ unmatched_brace) }
{
    message(alloc, "unmatched open brace in list")
}

/// No quote closes an element that a quote opens.
pub(crate) fn unmatched_quote(alloc: Global) -> Result<RcStr, AllocError>
    ensures { IfOk result (λ s. text_of s ≡ unmatched_quote) }
{
    message(alloc, "unmatched open quote in list")
}

/// The message's beginning, up to what follows.
fn beginning(closed: Closed) -> &'static str
    ensures { chars result.now ≡ beginning closed }
{
    match closed {
        Closed::Brace => "list element in braces followed by \"",
        Closed::Quote => "list element in quotes followed by \"",
    }
}

/// Writes the characters of a text up to list space.
fn push_to_space(message: &mut String, text: &str) -> Result<(), AllocError>
    ensures { OnOk result (chars (string_bytes message.new)
        ≡ chars (string_bytes message.old) ++ up_to_space (chars text.now)) }
{
    let mut rest = text;
    while let Some((c, after)) = split_first(rest) {
        if is_list_space(c) {
            return Ok(());
        }
        push(message, c)?;
        rest = after;
    }
    Ok(())
}

/// Something else than list space stands behind a closing brace or quote.
pub(crate) fn followed_by(alloc: Global, closed: Closed, text: &str) -> Result<RcStr, AllocError>
    ensures { IfOk result (λ s. text_of s ≡ followed_by closed (up_to_space (chars text.now))) }
{
    let mut message = String::new(alloc);
    push_text(&mut message, beginning(closed))?;
    push_to_space(&mut message, text)?;
    push_text(&mut message, "\" instead of space")?;
    RcStr::from_string(message)
}
