//! The text of an element, for who asks.

ghost use Rattle.std.specs.Prelude.{◌≡◌, IfOk};
ghost use Rattle.std.specs.Fmt.{signed_decimal};
ghost use Rattle.std.specs.Str.{chars};
ghost use Rattle.std.specs.String.{string_bytes};

use crate::digits::Digits;
use std::alloc::{AllocError, Global};
use std::marker::Model;
use tcl_chars::push_number;

/// The text of an element: lent where it stands ready, else written for who asks. Contracts see its characters.
#[derive(Drop)]
pub struct ElementText<'a> {
    spelled: Spelled<'a>,
}

/// How it is there.
#[derive(Drop)]
pub(crate) enum Spelled<'a> {
    /// As the element keeps it.
    Lent(&'a str),
    /// The decimal text of a number.
    Number(Digits),
    /// Written anew.
    Written(String),
}

impl<'a> Model for ElementText<'a> {
    ghost use Rattle.std.specs.Prelude.{List, ℕ};
    ghost use Rattle.tcl_values.specs.Numerals.{spelled_text, IsSpelled};

    ghost Value = { List ℕ };

    ghost view = { λ t. spelled_text t.spelled };

    ghost invariant = { λ t. IsSpelled t.spelled };
}

impl<'a> ElementText<'a> {
    /// A text that stands ready.
    #[inline(always)]
    pub(crate) fn lent(text: &'a str) -> ElementText<'a>
        ensures { result ≡ chars text.now }
    {
        ElementText {
            spelled: Spelled::Lent(text),
        }
    }

    /// A text that was written for this.
    pub(crate) fn written(text: String) -> ElementText<'a>
        ensures { result ≡ chars (string_bytes text) }
    {
        ElementText {
            spelled: Spelled::Written(text),
        }
    }

    /// The decimal text of a number.
    pub(crate) fn of_number(alloc: Global, n: i64) -> Result<ElementText<'a>, AllocError>
        ensures { IfOk result (λ t. t ≡ signed_decimal n) }
    {
        if let Some(digits) = Digits::new(n) {
            return Ok(ElementText {
                spelled: Spelled::Number(digits),
            });
        }
        let mut text = String::new(alloc);
        push_number(&mut text, n)?;
        Ok(ElementText::written(text))
    }

    /// The text.
    pub fn as_str(&self) -> &str
        ensures { chars result.now ≡ self.now }
    {
        match &self.spelled {
            Spelled::Lent(text) => text,
            Spelled::Number(digits) => digits.text(),
            Spelled::Written(text) => text.as_str(),
        }
    }
}
