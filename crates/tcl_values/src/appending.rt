//! Texts written at the end of values: append(n).

ghost use Rattle.std.specs.Prelude.{◌≡◌, ◌++◌, IfOk, OnOk, OnErr};
ghost use Rattle.std.specs.Str.{chars};
ghost use Rattle.tcl_values.specs.Shape.{held_text, IsHeld};
ghost use Rattle.tcl_values.specs.Short.{short_text, IsShort};

use crate::composed::{Composed, extend, joined};
use crate::short::Short;
use crate::value::{Held, Value, grow};
use std::alloc::{AllocError, Global};
use std::rc::Rc;

/// What is kept of a short text with another one behind it.
fn short_behind(short: &Short, alloc: Global, more: &str) -> Result<Held, AllocError>
    requires { IsShort short.now }
    ensures text { IfOk result (λ h. held_text h ≡ short_text short.now ++ chars more.now) }
    ensures kept { IfOk result (λ h. IsHeld h) }
{
    if let Some(longer) = short.joined(more) {
        return Ok(Held::Short(longer));
    }
    let composed = Composed::new(joined(alloc, short.as_str(), more)?);
    Ok(Held::Composed(Rc::new(alloc, composed)?))
}

impl Held {
    /// What is kept of the text with another one behind it.
    fn with_behind(&self, alloc: Global, more: &str) -> Result<Held, AllocError>
        requires { IsHeld self.now }
        ensures text { IfOk result (λ h. held_text h ≡ held_text self.now ++ chars more.now) }
        ensures kept { IfOk result (λ h. IsHeld h) }
    {
        if let Held::Short(short) = self {
            return short_behind(short, alloc, more);
        }
        let text = self.text(alloc)?;
        Ok(Held::Composed(Rc::new(alloc, Composed::new(joined(alloc, text.as_str(), more)?))?))
    }
}

impl Value {
    /// Writes a text at its end: append(n). A text that grows and has no copy grows in place.
    ///
    /// # Errors
    ///
    /// `AllocError` where a growth was refused; the value is then as it was.
    pub fn append(&mut self, alloc: Global, more: &str) -> Result<(), AllocError>
        ensures done { OnOk result (self.new ≡ self.old ++ chars more.now) }
        ensures same { OnErr result (self.new ≡ self.old) }
    {
        match &mut self.held {
            Held::Grown(grown) => grow(grown, more),
            Held::Composed(composed) => extend(composed, more),
            held => {
                *held = held.with_behind(alloc, more)?;
                Ok(())
            }
        }
    }
}
