//! The string that switch(n) compares with its patterns.
ghost use Rattle.std.specs.Prelude.{◌≡◌, IfOk, IfSome};
ghost use Rattle.std.specs.Fmt.{signed_decimal};
ghost use Rattle.std.specs.Str.{chars};
ghost use Rattle.tcl_chars.specs.Texts.{same_text};

use std::alloc::{AllocError, Global};
use std::marker::Model;
use tcl_values::{ElementText, Value};

/// A string that patterns are compared with. Contracts see its characters.
#[derive(Drop)]
pub(crate) struct Subject<'a> {
    text: ElementText<'a>,
    /// The number whose decimal text it is, if it is kept as one: patterns that are kept as numbers aren't spelled for it.
    number: Option<i64>,
}

impl<'a> Model for Subject<'a> {
    ghost use Rattle.std.specs.Prelude.{List, ℕ};

    ghost Value = { List ℕ };

    ghost use Rattle.tcl_control.specs.Subjects.{IsSubject};

    ghost view = { λ s. s.text };

    ghost invariant = { IsSubject };
}

impl<'a> Subject<'a> {
    /// The text of a word.
    pub(crate) fn of(alloc: Global, word: &'a Value) -> Result<Subject<'a>, AllocError>
        ensures { IfOk result (λ s. s ≡ word.now) }
    {
        Ok(Subject {
            text: word.spelled(alloc)?,
            number: word.number(),
        })
    }

    /// Its text.
    pub(crate) fn as_str(&self) -> &str
        ensures { chars result.now ≡ self.now }
    {
        self.text.as_str()
    }

    /// The number whose decimal text it is, if that is known.
    pub(crate) fn number(&self) -> Option<i64>
        ensures { IfSome result (λ n. self.now ≡ signed_decimal n) }
    {
        self.number
    }
}
