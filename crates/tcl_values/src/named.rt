//! Texts of a script that may be names. Where they are found as names is kept beside them.

ghost use Rattle.std.specs.Prelude.{◌≡◌, IfOk, IfSome};
ghost use Rattle.std.specs.Str.{chars, IsAscii};
ghost use Rattle.tcl_chars.specs.Texts.{text_of};
ghost use Rattle.tcl_values.specs.Shape.{IsNamed};

use crate::element::Element;
use crate::literal::LONG;
use crate::places::Places;
use crate::short::Short;
use crate::value::{Held, Value};
use std::alloc::{AllocError, Global};
use std::rc::{Rc, RcStr};
use tcl_names::{Hint, NameKey, Sought};

/// A text of a script that may be the name of a variable or of a command.
#[derive(Drop)]
pub(crate) struct Named {
    pub(crate) text: RcStr,
    /// Its key as a name.
    key: NameKey,
    /// Where a variable of this name was found last.
    variable: Hint,
    /// Where a command of this name was found last.
    command: Hint,
    /// Is it known to be ASCII?
    ascii: bool,
    /// The same text in place, where it is short: as an element of a list nothing is shared then.
    short: Option<Short>,
}

impl Named {
    /// This text, which is looked at once.
    fn new(text: RcStr) -> Named
        ensures text { result.text ≡ text }
        ensures known { IsNamed result }
    {
        let key = NameKey::of(text.as_str());
        let ascii = text.as_str().is_ascii();
        let short = Short::of(text.as_str());
        Named {
            text,
            key,
            variable: Hint::new(),
            command: Hint::new(),
            ascii,
            short,
        }
    }

    /// The element of a list that is this text.
    pub(crate) fn element(&self) -> Result<Element, AllocError>
        requires { IsNamed self.now }
        ensures text { IfOk result (λ e. e.text ≡ text_of self.now.text) }
        ensures depth { IfOk result (λ e. e.depth ≡ 0) }
    {
        match self.short {
            Some(short) => Ok(Element::of_short(short)),
            None => Ok(Element::of_text(self.text.clone()?)),
        }
    }

    /// The text, where it is known to be ASCII.
    pub(crate) fn known_ascii(&self) -> Option<&str>
        requires { IsNamed self.now }
        ensures text { IfSome result (λ t. t.now ≡ text_of self.now.text) }
        ensures ascii { IfSome result (λ t. IsAscii t.now) }
    {
        if self.ascii {
            Some(self.text.as_str())
        } else {
            None
        }
    }

    /// Its characters by their places.
    #[tactic(auto, using(crate::proofs::Beginnings::no_marks))]
    pub(crate) fn places(&self) -> Places<'_>
        requires { IsNamed self.now }
        ensures { result ≡ text_of self.now.text }
    {
        Places::known(self.text.as_str(), self.ascii, &[])
    }

    /// The text as the name of a variable that is looked for.
    #[inline(always)]
    fn sought(&self) -> Sought<'_>
        requires { IsNamed self.now }
        ensures { result ≡ text_of self.now.text }
    {
        Sought::keyed(self.text.as_str(), self.key, &self.variable)
    }

    /// The text as the name of a command that is looked for.
    #[inline(always)]
    fn sought_command(&self) -> Sought<'_>
        requires { IsNamed self.now }
        ensures { result ≡ text_of self.now.text }
    {
        Sought::keyed(self.text.as_str(), self.key, &self.command)
    }
}

impl Value {
    /// The value that is a text of a script, which may be a name: where it was found last as one all copies share. A long text isn't taken for
    /// a name.
    pub fn of_name(alloc: Global, text: RcStr) -> Result<Value, AllocError>
        ensures { IfOk result (λ v. v ≡ text_of text) }
    {
        if LONG <= text.len() {
            return Ok(Value::of_text(text));
        }
        Ok(Value {
            held: Held::Name(Rc::new(alloc, Named::new(text))?),
        })
    }

    /// Its text as the name of a variable that is looked for, where it was made by `of_name` and is short.
    #[inline(always)]
    pub fn sought(&self) -> Option<Sought<'_>>
        ensures { IfSome result (λ name. name ≡ self.now) }
    {
        match &self.held {
            Held::Name(name) => Some(name.sought()),
            _ => None,
        }
    }

    /// The same, as the name of a command.
    #[inline(always)]
    pub fn sought_command(&self) -> Option<Sought<'_>>
        ensures { IfSome result (λ name. name ≡ self.now) }
    {
        match &self.held {
            Held::Name(name) => Some(name.sought_command()),
            _ => None,
        }
    }
}
