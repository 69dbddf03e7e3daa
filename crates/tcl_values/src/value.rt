//! Values: made, read as texts and as numbers, copied.

ghost use Rattle.std.specs.Prelude.{◌≡◌, ◌<◌, ◌++◌, IfOk, IfSome, OnOk, OnErr, true};
ghost use Rattle.std.specs.Fmt.{signed_decimal};
ghost use Rattle.std.specs.Str.{chars, IsAscii};
ghost use Rattle.std.specs.String.{string_bytes};
ghost use Rattle.tcl_chars.specs.Whole.{whole_of};
ghost use Rattle.tcl_list.specs.Texts.{text_of};
ghost use Rattle.tcl_values.specs.Shape.{held_text, is_dict, is_row, IsGrown, IsHeld};

use crate::composed::Composed;
use crate::digits::{decimal_number, is_decimal};
use crate::element::{Items, Pairs};
use crate::items::{row_text, show};
use crate::literal::Literal;
use crate::marks::{Marks, stays_ascii};
use crate::named::Named;
use crate::pairs::{dict_text, show_pairs};
use crate::short::Short;
use std::alloc::{AllocError, Global};
use std::marker::Model;
use std::rc::{Rc, RcStr};
use tcl_chars::{Dialect, Whole, number_text, push_text, read_whole};

/// A value of a script, which contracts see as its text.
pub struct Value {
    pub(crate) held: Held,
}

impl Drop for Value {
    /// A number and a short text hold nothing.
    #[inline(always)]
    fn drop(self) {
        let Value { held } = self;
        match held {
            Held::Number(_) | Held::Short(_) => {}
            held => drop(held),
        }
    }
}

/// What is kept of a value.
#[derive(Drop)]
pub(crate) enum Held {
    /// A number, whose text is its decimal digits.
    Number(i64),
    /// A short text.
    Short(Short),
    /// A text.
    Text(RcStr),
    /// A text that is known to be ASCII: its characters are its bytes.
    Ascii(RcStr),
    /// A text of a script that may be a name.
    Name(Rc<Named>),
    /// A text that has grown under a key of a dictionary, and grows at its end.
    Grown(Rc<Growing>),
    /// A text that was composed, and grows at its end.
    Composed(Rc<Composed>),
    /// A text of a script, which is read as a number, as a list or as a dictionary once for all copies.
    Literal(Rc<Literal>),
    /// A list.
    Row(Rc<Items>),
    /// A dictionary.
    Dict(Rc<Pairs>),
}

/// A text that grows at its end.
#[derive(Drop)]
pub(crate) struct Growing {
    pub(crate) text: String,
    /// Is it known to be ASCII?
    pub(crate) ascii: bool,
    /// Where characters stand in a long text past ASCII.
    pub(crate) marks: Marks,
}

impl Clone for Growing {
    ghost use Rattle.tcl_values.specs.Shape.{AreSameGrown};

    ghost is_clone = { AreSameGrown };

    fn clone(&self) -> Result<Growing, AllocError> {
        Ok(Growing {
            text: self.text.clone()?,
            ascii: self.ascii,
            marks: self.marks.copy()?,
        })
    }
}

impl Growing {
    /// This text, which is looked at once, as a whole.
    pub(crate) fn new(text: String) -> Growing
        ensures text { string_bytes result.text ≡ string_bytes text }
        ensures known { IsGrown result }
    {
        let ascii = text.as_str().is_ascii();
        let marks = Marks::of(*text.allocator(), text.as_str(), ascii);
        Growing { text, ascii, marks }
    }

    /// The text, where it is known to be ASCII.
    fn known_ascii(&self) -> Option<&str>
        requires { IsGrown self.now }
        ensures text { IfSome result (λ t. t.now ≡ chars (string_bytes self.now.text)) }
        ensures ascii { IfSome result (λ t. IsAscii t.now) }
    {
        if self.ascii {
            Some(self.text.as_str())
        } else {
            None
        }
    }

    /// Writes a text at its end. Of what stands there already no more than a block is looked at.
    #[tactic(auto, using(crate::proofs::Growth::known_behind))]
    pub(crate) fn push(&mut self, more: &str) -> Result<(), AllocError>
        requires { IsGrown self.old }
        ensures done { OnOk result (chars (string_bytes self.new.text)
            ≡ chars (string_bytes self.old.text) ++ chars more.now) }
        ensures same { OnErr result (string_bytes self.new.text ≡ string_bytes self.old.text) }
        ensures known { IsGrown self.new }
    {
        push_text(&mut self.text, more)?;
        self.ascii = stays_ascii(self.ascii, more);
        self.marks.follow(self.text.as_str(), self.ascii);
        Ok(())
    }
}

impl Model for Value {
    ghost use Rattle.std.specs.Prelude.{List, ℕ};

    ghost Value = { List ℕ };

    ghost use Rattle.tcl_values.specs.Shape.{value_text, IsValue};

    ghost view = { value_text };

    ghost invariant = { IsValue };
}

/// The number that a text is read as, if the text is its decimal text.
fn canonical(text: &str, whole: Whole) -> Option<i64>
    ensures { IfSome result (λ n. chars text.now ≡ signed_decimal n) }
{
    match whole {
        Whole::Number(n) => if is_decimal(n, text) { Some(n) } else { None },
        Whole::TooLarge | Whole::Not => None,
    }
}

/// What a text says as a whole number, and the number if the text is its decimal text.
fn read_number(text: &str, dialect: Dialect) -> (Whole, Option<i64>)
    ensures whole { result.0 ≡ whole_of dialect (chars text.now) }
    ensures decimal { IfSome result.1 (λ n. chars text.now ≡ signed_decimal n) }
{
    let whole = read_whole(text, dialect);
    (whole, canonical(text, whole))
}

/// Writes a text at the end of one, in place where nobody else holds it.
#[tactic(auto, using(crate::proofs::Grown::grown_same))]
pub(crate) fn grow(text: &mut Rc<Growing>, more: &str) -> Result<(), AllocError>
    requires { IsGrown text.old.value }
    ensures done { OnOk result (chars (string_bytes text.new.value.text)
        ≡ chars (string_bytes text.old.value.text) ++ chars more.now) }
    ensures same { OnErr result (string_bytes text.new.value.text ≡ string_bytes text.old.value.text) }
    ensures known { IsGrown text.new.value }
{
    let own = Rc::make_mut(text)?;
    own.push(more)
}

impl Held {
    /// Is it a list?
    pub(crate) fn is_row(&self) -> bool
        ensures { result ≡ is_row self.now }
    {
        matches!(self, Held::Row(_))
    }

    /// Is it a dictionary?
    pub(crate) fn is_dict(&self) -> bool
        ensures { result ≡ is_dict self.now }
    {
        matches!(self, Held::Dict(_))
    }

    /// The text.
    pub(crate) fn text(&self, alloc: Global) -> Result<RcStr, AllocError>
        requires { IsHeld self.now }
        ensures { IfOk result (λ t. text_of t ≡ held_text self.now) }
    {
        match self {
            Held::Number(n) => number_text(alloc, *n),
            Held::Short(short) => RcStr::from_str(alloc, short.as_str()),
            Held::Text(text) => text.clone(),
            Held::Ascii(text) => text.clone(),
            Held::Name(name) => name.text.clone(),
            Held::Grown(grown) => RcStr::from_str(alloc, grown.text.as_str()),
            Held::Composed(composed) => RcStr::from_str(alloc, composed.growing.text.as_str()),
            Held::Literal(literal) => literal.text.clone(),
            Held::Row(row) => row_text(row, alloc),
            Held::Dict(pairs) => dict_text(pairs, alloc),
        }
    }
}

impl Value {
    /// What is kept of it.
    #[inline(always)]
    pub(crate) fn into_held(self) -> Held
        ensures text { held_text result ≡ self }
        ensures known { IsHeld result }
    {
        let Value { held } = self;
        held
    }

    /// The value that is this text.
    pub fn of_text(text: RcStr) -> Value
        ensures { result ≡ text_of text }
    {
        let held = if text.as_str().is_ascii() {
            Held::Ascii(text)
        } else {
            Held::Text(text)
        };
        Value { held }
    }

    /// The value that is a text of a script, whose reading as a number, as a list or as a dictionary all copies share.
    pub fn of_literal(alloc: Global, text: RcStr) -> Result<Value, AllocError>
        ensures { IfOk result (λ v. v ≡ text_of text) }
    {
        Ok(Value {
            held: Held::Literal(Rc::new(alloc, Literal::new(alloc, text))?),
        })
    }

    /// The value that is this text. A short one stands in the value itself; what a long one is read as all copies share.
    pub fn of_str(alloc: Global, text: &str) -> Result<Value, AllocError>
        ensures { IfOk result (λ v. v ≡ chars text.now) }
    {
        if let Some(short) = Short::of(text) {
            return Ok(Value {
                held: Held::Short(short),
            });
        }
        Value::of_shared(alloc, RcStr::from_str(alloc, text)?)
    }

    /// The value that is this text, which can grow in place.
    pub fn of_string(alloc: Global, text: String) -> Result<Value, AllocError>
        ensures { IfOk result (λ v. v ≡ chars (string_bytes text)) }
    {
        if let Some(short) = Short::of(text.as_str()) {
            return Ok(Value {
                held: Held::Short(short),
            });
        }
        Ok(Value {
            held: Held::Composed(Rc::new(alloc, Composed::new(text))?),
        })
    }

    /// The value of a text that is the decimal text of a number, which it says in every dialect.
    pub fn of_decimal(text: &str) -> Option<Value>
        ensures { IfSome result (λ v. v ≡ chars text.now) }
    {
        match decimal_number(text) {
            Some(n) => Some(Value::of_int(n)),
            None => None,
        }
    }

    /// The value that is a number's decimal text.
    pub fn of_int(n: i64) -> Value
        ensures { result ≡ signed_decimal n }
    {
        Value {
            held: Held::Number(n),
        }
    }

    /// Its text.
    pub fn text(&mut self, alloc: Global) -> Result<RcStr, AllocError>
        ensures text { IfOk result (λ t. text_of t ≡ self.old) }
        ensures same { self.new ≡ self.old }
    {
        match &mut self.held {
            Held::Row(row) => show(row, alloc),
            Held::Dict(pairs) => show_pairs(pairs, alloc),
            held => held.text(alloc),
        }
    }

    /// What its text says as a whole number.
    pub fn whole(&mut self, alloc: Global, dialect: Dialect) -> Result<Whole, AllocError>
        ensures whole { IfOk result (λ w. w ≡ whole_of dialect self.old) }
        ensures same { self.new ≡ self.old }
    {
        if let Some(n) = self.known_number(dialect) {
            return Ok(Whole::Number(n));
        }
        let (whole, decimal) = match self.shown() {
            Some(text) => read_number(text, dialect),
            None => read_number(self.held.text(alloc)?.as_str(), dialect),
        };
        if let Some(n) = decimal {
            self.held = Held::Number(n);
        }
        Ok(whole)
    }

    /// The number that it is kept as, if it is kept as one: then its text is the number's decimal text.
    #[inline(always)]
    pub fn number(&self) -> Option<i64>
        ensures { IfSome result (λ n. self.now ≡ signed_decimal n) }
    {
        match &self.held {
            Held::Number(number) => Some(*number),
            _ => None,
        }
    }

    /// The number that its text is read as, where that is known without reading it.
    #[inline(always)]
    pub fn known_number(&self, dialect: Dialect) -> Option<i64>
        ensures { IfSome result (λ n. whole_of dialect self.now ≡ Whole.Number n) }
    {
        match &self.held {
            Held::Number(n) => Some(*n),
            Held::Literal(literal) => literal.number(dialect),
            _ => None,
        }
    }

    /// A value of the same text. What is kept is shared.
    #[inline(always)]
    pub fn copy(&self) -> Result<Value, AllocError>
        ensures { IfOk result (λ v. v ≡ self.now) }
    {
        if let Held::Number(n) = &self.held {
            return Ok(Value {
                held: Held::Number(*n),
            });
        }
        self.share()
    }

    /// A value of the same text, with what is kept of this one.
    #[inline(always)]
    fn share(&self) -> Result<Value, AllocError>
        ensures { IfOk result (λ v. v ≡ self.now) }
    {
        let held = match &self.held {
            Held::Number(n) => Held::Number(*n),
            Held::Short(short) => Held::Short(*short),
            Held::Text(text) => Held::Text(text.clone()?),
            Held::Ascii(text) => Held::Ascii(text.clone()?),
            Held::Name(name) => Held::Name(name.clone()?),
            Held::Grown(grown) => Held::Grown(grown.clone()?),
            Held::Composed(composed) => Held::Composed(composed.clone()?),
            Held::Literal(literal) => Held::Literal(literal.clone()?),
            Held::Row(row) => Held::Row(row.clone()?),
            Held::Dict(pairs) => Held::Dict(pairs.clone()?),
        };
        Ok(Value { held })
    }

    /// Its text, where it stands ready: not that of a number, nor that of a list or a dictionary which nobody has asked for its text.
    pub fn shown(&self) -> Option<&str>
        ensures { IfSome result (λ t. chars t.now ≡ self.now) }
    {
        match &self.held {
            Held::Number(_) => None,
            Held::Short(short) => Some(short.as_str()),
            Held::Text(text) => Some(text.as_str()),
            Held::Ascii(text) => Some(text.as_str()),
            Held::Name(name) => Some(name.text.as_str()),
            Held::Grown(grown) => Some(grown.text.as_str()),
            Held::Composed(composed) => Some(composed.growing.text.as_str()),
            Held::Literal(literal) => Some(literal.text.as_str()),
            Held::Row(row) => match &row.text {
                Some(text) => Some(text.as_str()),
                None => None,
            },
            Held::Dict(pairs) => match &pairs.text {
                Some(text) => Some(text.as_str()),
                None => None,
            },
        }
    }

    /// Its text, where it is known that each character of it is one byte: the value is of a text that was ASCII when the value
    /// was made, and nothing but ASCII has been appended. Nothing is looked at.
    pub fn ascii(&self) -> Option<&str>
        ensures text { IfSome result (λ t. t.now ≡ self.now) }
        ensures ascii { IfSome result (λ t. IsAscii t.now) }
    {
        match &self.held {
            Held::Short(short) => Some(short.as_str()),
            Held::Ascii(text) => Some(text.as_str()),
            Held::Name(name) => name.known_ascii(),
            Held::Grown(grown) => grown.known_ascii(),
            Held::Composed(composed) => composed.growing.known_ascii(),
            Held::Literal(literal) => literal.known_ascii(),
            _ => None,
        }
    }
}
