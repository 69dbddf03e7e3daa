//! Values of one character each.

ghost use Rattle.std.specs.Prelude.{◌≡◌, ◌∷◌, [], map, IfOk};
ghost use Rattle.std.specs.Str.{chars};

use crate::places::{front, value_of};
use std::alloc::{AllocError, Global};
use tcl_chars::split_first;
use tcl_values::Value;

/// Each character by itself.
pub(crate) fn characters(alloc: Global, text: &str) -> Result<Vec<Value>, AllocError>
    ensures { IfOk result (λ v. v.items ≡ map (λ c. c ∷ []) (chars text.now)) }
{
    let mut parts = Vec::new(alloc);
    let mut rest = text;
    while let Some((_, after)) = split_first(rest) {
        parts.push(value_of(alloc, front(rest, 1))?)?;
        rest = after;
    }
    Ok(parts)
}
