//! Texts of values joined as one.

ghost use Rattle.std.specs.Prelude.{◌≡◌, ◌++◌, [], IfOk, IfSome};
ghost use Rattle.std.specs.List.{concat};
ghost use Rattle.std.specs.Str.{chars};
ghost use Rattle.std.specs.String.{string_bytes};
ghost use Rattle.tcl_values.specs.Short.{short_text, IsShort};

use crate::short::Short;
use crate::value::{Held, Value};
use itoa::Buffer;
use std::alloc::{AllocError, Global};

impl Value {
    /// A short text with that of this value behind it, where it is known and both together are short.
    fn behind_short(&self, front: &Short) -> Option<Short>
        requires { IsShort front.now }
        ensures text { IfSome result (λ s. short_text s ≡ short_text front.now ++ self.now) }
        ensures known { IfSome result (λ s. IsShort s) }
    {
        if let Held::Number(n) = &self.held {
            return front.joined(Buffer::new().format(*n));
        }
        front.joined(self.shown()?)
    }
}

/// The texts as one, where it is short.
fn short_joined(values: &[Value]) -> Option<Short>
    ensures text { IfSome result (λ s. short_text s ≡ concat values.now) }
    ensures known { IfSome result (λ s. IsShort s) }
{
    let mut whole = Short::new();
    for value in values {
        whole = value.behind_short(&whole)?;
    }
    Some(whole)
}

impl Value {
    /// The texts of values as one text of its own.
    ///
    /// # Errors
    ///
    /// `AllocError` where a growth was refused.
    pub fn joined_text(alloc: Global, values: &[Value]) -> Result<String, AllocError>
        ensures { IfOk result (λ s. chars (string_bytes s) ≡ concat values.now) }
    {
        let mut whole = String::new(alloc);
        for value in values {
            value.write_to(alloc, &mut whole)?;
        }
        Ok(whole)
    }

    /// The texts of values as one.
    pub fn joined(alloc: Global, values: &[Value]) -> Result<Value, AllocError>
        ensures { IfOk result (λ v. v ≡ concat values.now) }
    {
        match short_joined(values) {
            Some(short) => Ok(Value {
                held: Held::Short(short),
            }),
            None => Value::of_string(alloc, Value::joined_text(alloc, values)?),
        }
    }
}

impl Value {
    /// The texts of three values as one, where that is short and each of them stands ready or is a number's. It takes no memory.
    pub fn joined_three(front: &Value, middle: &Value, back: &Value) -> Option<Value>
        ensures { IfSome result (λ v. v ≡ front.now ++ middle.now ++ back.now) }
    {
        let begun = front.behind_short(&Short::new())?;
        let more = middle.behind_short(&begun)?;
        let whole = back.behind_short(&more)?;
        Some(Value {
            held: Held::Short(whole),
        })
    }
}
