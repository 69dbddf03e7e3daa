//! Texts that were composed, and may grow at their ends. What they are read as all their copies share.

ghost use Rattle.std.specs.Prelude.{◌≡◌, ◌++◌, IfOk, OnOk, OnErr};
ghost use Rattle.std.specs.Str.{chars};
ghost use Rattle.std.specs.String.{string_bytes};
ghost use Rattle.tcl_values.specs.Shape.{composed_text, IsGrown};

use crate::readings::Readings;
use crate::value::Growing;
use std::alloc::{AllocError, Global};
use std::rc::Rc;
use tcl_chars::push_text;

/// A text that grows at its end, and what it was read as since it grew.
#[derive(Drop)]
pub(crate) struct Composed {
    pub(crate) growing: Growing,
    pub(crate) readings: Readings,
}

impl Clone for Composed {
    ghost use Rattle.tcl_values.specs.Shape.{AreSameComposed};

    ghost is_clone = { AreSameComposed };

    /// Who copies it is to change it, so the readings stay behind.
    fn clone(&self) -> Result<Composed, AllocError> {
        Ok(Composed {
            growing: self.growing.clone()?,
            readings: Readings::new(),
        })
    }
}

impl Composed {
    /// This text, which is looked at once, as a whole.
    pub(crate) fn new(text: String) -> Composed
        ensures text { composed_text result ≡ chars (string_bytes text) }
        ensures known { IsGrown result.growing }
    {
        Composed {
            growing: Growing::new(text),
            readings: Readings::new(),
        }
    }

    /// Writes a text at its end, and forgets what it was read as.
    fn push(&mut self, more: &str) -> Result<(), AllocError>
        requires { IsGrown self.old.growing }
        ensures done { OnOk result (composed_text self.new ≡ composed_text self.old ++ chars more.now) }
        ensures same { OnErr result (composed_text self.new ≡ composed_text self.old) }
        ensures known { IsGrown self.new.growing }
    {
        self.growing.push(more)?;
        self.readings = Readings::new();
        Ok(())
    }
}

/// The one text and the other behind it.
pub(crate) fn joined(alloc: Global, text: &str, more: &str) -> Result<String, AllocError>
    ensures { IfOk result (λ s. chars (string_bytes s) ≡ chars text.now ++ chars more.now) }
{
    let mut joined = String::from_str(alloc, text)?;
    push_text(&mut joined, more)?;
    Ok(joined)
}

/// Writes a text at the end of one, in place where nobody else holds it.
#[tactic(auto, using(crate::proofs::Grown::composed_same))]
pub(crate) fn extend(text: &mut Rc<Composed>, more: &str) -> Result<(), AllocError>
    requires { IsGrown text.old.value.growing }
    ensures done { OnOk result (composed_text text.new.value ≡ composed_text text.old.value ++ chars more.now) }
    ensures same { OnErr result (composed_text text.new.value ≡ composed_text text.old.value) }
    ensures known { IsGrown text.new.value.growing }
{
    let own = Rc::make_mut(text)?;
    own.push(more)
}
