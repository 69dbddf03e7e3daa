//! Texts of a script and other long ones, whose readings all their copies share.

ghost use Rattle.std.specs.Prelude.{◌≡◌, IfOk, IfSome};
ghost use Rattle.std.specs.Bool.{OnTrue};
ghost use Rattle.std.specs.Rc.{rc_str_bytes};
ghost use Rattle.std.specs.Str.{chars, IsAscii};
ghost use Rattle.tcl_chars.specs.Texts.{text_of};
ghost use Rattle.tcl_chars.specs.Whole.{whole_of};
ghost use Rattle.tcl_values.specs.Marks.{AreMarks};
ghost use Rattle.tcl_values.specs.Shape.{held_text, number_in, AreNumbers, IsHeld, IsLiteral};

use crate::marks::Marks;
use crate::places::Places;
use crate::readings::Readings;
use crate::value::{Held, Value};
use std::alloc::{AllocError, Global};
use std::rc::{Rc, RcStr};
use tcl_chars::{Dialect, Whole, read_whole};

/// A text of a script, or another long one. What it is read as is kept beside it, once it has been read, for all who hold the text.
#[derive(Drop)]
pub(crate) struct Literal {
    pub(crate) text: RcStr,
    /// Does it stand in a script?
    pub(crate) is_written: bool,
    /// Is it known to be ASCII?
    ascii: bool,
    /// The numbers that it is read as, where it begins as a number does and is one in each dialect.
    numbers: Option<Numbers>,
    /// Where characters stand in a long text past ASCII.
    marks: Marks,
    pub(crate) readings: Readings,
}

/// The number that a text is read as in each dialect.
#[derive(Clone, Copy, Drop)]
pub(crate) struct Numbers {
    tcl86: i64,
    tcl9: i64,
}

impl Numbers {
    /// What a text is read as, where its first character is a digit or a sign: so most texts aren't read.
    fn read(text: &str) -> Option<Numbers>
        ensures { IfSome result (λ numbers. AreNumbers numbers (chars text.now)) }
    {
        let Some(b'0'..=b'9' | b'+' | b'-') = text.as_bytes().first() else {
            return None;
        };
        let Whole::Number(tcl86) = read_whole(text, Dialect::Tcl86) else {
            return None;
        };
        let Whole::Number(tcl9) = read_whole(text, Dialect::Tcl9) else {
            return None;
        };
        Some(Numbers { tcl86, tcl9 })
    }

    /// That of a dialect.
    fn of(self, dialect: Dialect) -> i64
        ensures { result ≡ number_in dialect self }
    {
        match dialect {
            Dialect::Tcl86 => self.tcl86,
            Dialect::Tcl9 => self.tcl9,
        }
    }
}

impl Literal {
    /// This text, which is looked at once.
    pub(crate) fn new(alloc: Global, text: RcStr) -> Literal
        ensures text { result.text ≡ text }
        ensures known { IsLiteral result }
    {
        let ascii = text.as_str().is_ascii();
        let numbers = Numbers::read(text.as_str());
        let marks = Marks::of(alloc, text.as_str(), ascii);
        Literal {
            text,
            is_written: true,
            ascii,
            numbers,
            marks,
            readings: Readings::new(),
        }
    }

    /// This text, which isn't read as a number.
    fn unread(text: RcStr, ascii: bool, marks: Marks) -> Literal
        requires ascii { OnTrue ascii (IsAscii (rc_str_bytes text)) }
        requires marks { AreMarks marks.before.items (rc_str_bytes text) }
        ensures text { result.text ≡ text }
        ensures known { IsLiteral result }
    {
        Literal {
            text,
            is_written: false,
            ascii,
            numbers: None,
            marks,
            readings: Readings::new(),
        }
    }

    /// The text, where it is known to be ASCII.
    pub(crate) fn known_ascii(&self) -> Option<&str>
        requires { IsLiteral self.now }
        ensures text { IfSome result (λ t. t.now ≡ text_of self.now.text) }
        ensures ascii { IfSome result (λ t. IsAscii t.now) }
    {
        if self.ascii {
            Some(self.text.as_str())
        } else {
            None
        }
    }

    /// Its characters by their places.
    pub(crate) fn places(&self) -> Places<'_>
        requires { IsLiteral self.now }
        ensures { result ≡ text_of self.now.text }
    {
        Places::known(self.text.as_str(), self.ascii, &self.marks.before)
    }

    /// The number that the text is read as, where it was read when the literal was made.
    pub(crate) fn number(&self, dialect: Dialect) -> Option<i64>
        requires { IsLiteral self.now }
        ensures { IfSome result (λ n. whole_of dialect (text_of self.now.text) ≡ Whole.Number n) }
    {
        match self.numbers {
            Some(numbers) => Some(numbers.of(dialect)),
            None => None,
        }
    }
}

/// The least bytes of a text that has room for what it is read as.
pub(crate) const LONG: usize = 32;

/// A text, which is said to be ASCII or of which that isn't known. A long one has room for what it is read as.
pub(crate) fn with_room(
    alloc: Global,
    text: RcStr,
    ascii: bool,
    marks: Marks,
) -> Result<Held, AllocError>
    requires ascii { OnTrue ascii (IsAscii (rc_str_bytes text)) }
    requires marks { AreMarks marks.before.items (rc_str_bytes text) }
    ensures text { IfOk result (λ h. held_text h ≡ text_of text) }
    ensures kept { IfOk result (λ h. IsHeld h) }
{
    if LONG <= text.len() {
        return Ok(Held::Literal(Rc::new(alloc, Literal::unread(text, ascii, marks))?));
    }
    if ascii {
        return Ok(Held::Ascii(text));
    }
    Ok(Held::Text(text))
}

impl Value {
    /// The value that is this text, which isn't looked at: whether it is ASCII isn't known then.
    pub fn of_unread_text(text: RcStr) -> Value
        ensures { result ≡ text_of text }
    {
        Value {
            held: Held::Text(text),
        }
    }

    /// The value that is this text. What a long one is read as, as a list or as a dictionary, all copies share.
    pub fn of_shared(alloc: Global, text: RcStr) -> Result<Value, AllocError>
        ensures { IfOk result (λ v. v ≡ text_of text) }
    {
        let ascii = text.as_str().is_ascii();
        let marks = Marks::of(alloc, text.as_str(), ascii);
        Ok(Value {
            held: with_room(alloc, text, ascii, marks)?,
        })
    }
}
