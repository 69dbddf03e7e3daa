//! Texts of values, written for who asks or at the end of another text.
ghost use Rattle.std.specs.Prelude.{◌≡◌, ◌++◌, IfOk, OnErr, OnOk};
ghost use Rattle.std.specs.Str.{chars};
ghost use Rattle.std.specs.String.{string_bytes};

use crate::element_text::ElementText;
use crate::items::row_shown;
use crate::pairs::pairs_shown;
use crate::value::{Held, Value};
use std::alloc::{AllocError, Global};
use tcl_chars::{push_number, push_text};

impl Value {
    /// Its text: lent where it stands ready, else written for who asks.
    ///
    /// # Errors
    ///
    /// `AllocError` where memory for what is written was refused.
    pub fn spelled(&self, alloc: Global) -> Result<ElementText<'_>, AllocError>
        ensures { IfOk result (λ t. t ≡ self.now) }
    {
        match &self.held {
            Held::Number(n) => ElementText::of_number(alloc, *n),
            Held::Short(short) => Ok(ElementText::lent(short.as_str())),
            Held::Text(text) => Ok(ElementText::lent(text.as_str())),
            Held::Ascii(text) => Ok(ElementText::lent(text.as_str())),
            Held::Name(name) => Ok(ElementText::lent(name.text.as_str())),
            Held::Grown(grown) => Ok(ElementText::lent(grown.text.as_str())),
            Held::Composed(composed) => Ok(ElementText::lent(composed.growing.text.as_str())),
            Held::Literal(literal) => Ok(ElementText::lent(literal.text.as_str())),
            Held::Row(row) => row_shown(row, alloc),
            Held::Dict(pairs) => pairs_shown(pairs, alloc),
        }
    }

    /// Writes its text at the end of another one. Neither a text that stands ready nor a number's is made anew for that.
    ///
    /// # Errors
    ///
    /// `AllocError` where a growth was refused; the other text is then as it was.
    pub fn write_to(&self, alloc: Global, text: &mut String) -> Result<(), AllocError>
        ensures done { OnOk result (chars (string_bytes text.new) ≡ chars (string_bytes text.old) ++ self.now) }
        ensures same { OnErr result (string_bytes text.new ≡ string_bytes text.old) }
    {
        if let Held::Number(n) = &self.held {
            return push_number(text, *n);
        }
        if let Some(shown) = self.shown() {
            return push_text(text, shown);
        }
        let own = self.held.text(alloc)?;
        push_text(text, own.as_str())
    }
}
