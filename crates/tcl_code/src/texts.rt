//! The texts of a code.

ghost use Rattle.std.specs.Prelude.{◌≡◌, ◌<◌, IfOk, OnErr, OnOk, Some, length, slice_get, true};
ghost use Rattle.std.specs.List.{list_any};
ghost use Rattle.std.specs.Str.{chars};
ghost use Rattle.tcl_chars.specs.Classes.{is_list_space};
ghost use Rattle.tcl_code.specs.Build.{HasGrown, IsAt};
ghost use Rattle.tcl_code.specs.Shown.{no_texts};

use crate::builder::{narrow, push_item, trimmed};
use crate::instr::Place;
use crate::rare::RareTexts;
use std::alloc::{AllocError, Global};
use std::marker::Model;
use std::rc::RcStr;
use tcl_chars::is_list_space;
use tcl_values::Value;

/// What a text is there for.
#[derive(Clone, Copy, PartialEq, Eq)]
pub(crate) enum Use {
    /// A name that is looked up.
    Name,
    /// A value that is pushed.
    Word,
    /// A word of the general call beside a page, which is rarely run.
    Beside,
}

/// The texts of a code: those that are kept as values, and those that are rarely asked for.
#[derive(Drop)]
pub(crate) struct Texts {
    kept: Vec<Value>,
    rare: RareTexts,
}

impl Model for Texts {
    ghost use Rattle.tcl_code.specs.Shown.{CodeTexts, code_texts};

    ghost Value = { CodeTexts };

    ghost view = { λ t. code_texts t.kept.items t.rare };
}

/// A text of as many bytes has a block of its own.
const LONG: usize = 256;

/// A name or a word of as many bytes is kept as a value even where it is asked for once.
const LONG_WORD: usize = 32;

/// Does white space stand in a text? A text without it is read as a list of one word at most.
fn has_space(text: &str) -> bool
    ensures { result ≡ list_any is_list_space (chars text.now) }
{
    text.chars().any(|c| is_list_space(c))
}

/// Does a text begin as numbers do, with a digit behind at most one sign?
fn begins_as_number(text: &str) -> bool {
    matches!(
        text.as_bytes(),
        [b'0'..=b'9', ..] | [b'+' | b'-', b'0'..=b'9', ..]
    )
}

/// Is a text no word of one stretch, or read as a number?
fn has_readings(text: &str) -> bool {
    has_space(text) || begins_as_number(text)
}

/// The value that is kept of a text: a number's decimal digits are kept as the number, and an empty word stands in its place, so that what grows from it is
/// nobody else's. A word of several words is read as a list or as a
/// dictionary once for all who push it, and one that begins as a number, as `0xff`, once as a number; beside a page it is kept as it is.
/// Where another text is found as a name is kept for all who push it.
fn value(alloc: Global, text: &str, purpose: Use) -> Result<Value, AllocError>
    ensures { IfOk result (λ v. v ≡ chars text.now) }
{
    if let Some(number) = Value::of_decimal(text) {
        return Ok(number);
    }
    if text.is_empty() && purpose == Use::Word {
        return Value::of_str(alloc, text);
    }
    let own = RcStr::from_str(alloc, text)?;
    if purpose == Use::Name || !has_readings(text) {
        return Value::of_name(alloc, own);
    }
    match purpose {
        Use::Beside => Ok(Value::of_text(own)),
        _ => Value::of_literal(alloc, own),
    }
}

/// The value that is made of a text for who asks for it. A long one, as a body, is hardly read as a list.
fn made(alloc: Global, text: &str) -> Result<Value, AllocError>
    ensures { IfOk result (λ v. v ≡ chars text.now) }
{
    if let Some(number) = Value::of_decimal(text) {
        return Ok(number);
    }
    let own = RcStr::from_str(alloc, text)?;
    if text.len() < LONG_WORD && has_readings(text) {
        return Value::of_literal(alloc, own);
    }
    Ok(Value::of_text(own))
}

/// Is a value this text? A number is compared by its decimal digits.
fn is_text(alloc: Global, value: &Value, text: &str) -> Result<bool, AllocError>
    ensures { IfOk result (λ same. same ≡ true → value.now ≡ chars text.now) }
{
    if let Some(shown) = value.shown() {
        return Ok(shown == text);
    }
    let own = value.copy()?.text(alloc)?;
    Ok(own.as_str() == text)
}

/// Is a text rarely asked for? So is a short word of a general call, and a short name or word where the code is run once. A number's decimal
/// digits take no block anyway.
fn is_rare(text: &str, purpose: Use, once: bool) -> bool {
    let short = match purpose {
        Use::Beside => text.len() < LONG,
        Use::Name | Use::Word => once && text.len() < LONG_WORD,
    };
    short && Value::of_decimal(text).is_none()
}

impl Texts {
    /// None yet.
    pub(crate) fn new(alloc: Global) -> Texts
        ensures { result ≡ no_texts }
    {
        Texts {
            kept: Vec::new(alloc),
            rare: RareTexts::new(alloc),
        }
    }

    /// The kept text of a number.
    #[inline(always)]
    pub(crate) fn kept(&self, number: u32) -> &Value
        requires { number < length self.now.kept }
        ensures { slice_get self.now.kept number ≡ Some result.now }
    {
        &self.kept[number as usize]
    }

    /// The text of a number among those that are rarely asked for, made for who asks.
    pub(crate) fn rare(&self, alloc: Global, number: u32) -> Result<Value, AllocError>
        requires { number < length self.now.rare }
        ensures { IfOk result (λ v. slice_get self.now.rare number ≡ Some v) }
    {
        match self.rare.get(number) {
            Some(text) => made(alloc, text),
            None => unreachable!(),
        }
    }

    /// Does a text stand at a place?
    pub(crate) fn stands_at(
        &self,
        alloc: Global,
        place: Place,
        text: &str,
    ) -> Result<bool, AllocError>
        ensures { IfOk result (λ there. there ≡ true → IsAt self.now place (chars text.now)) }
    {
        match place {
            Place::Kept(number) => match self.kept.get(number as usize) {
                Some(value) => is_text(alloc, value, text),
                None => Ok(false),
            },
            Place::Rare(number) => Ok(self.has_rare(number, text)),
        }
    }

    /// Is a text that of a number among those that are rarely asked for?
    pub(crate) fn has_rare(&self, number: u32, text: &str) -> bool
        ensures { result ≡ true → slice_get self.now.rare number ≡ Some (chars text.now) }
    {
        match self.rare.get(number) {
            Some(own) => own == text,
            None => false,
        }
    }

    /// Keeps a text as a value, and tells its place.
    fn keep(&mut self, alloc: Global, text: &str, purpose: Use) -> Result<Place, AllocError>
        ensures there { IfOk result (λ place. IsAt self.new place (chars text.now)) }
        ensures done { OnOk result (HasGrown self.old self.new) }
        ensures same { OnErr result (self.new ≡ self.old) }
    {
        let number = narrow(self.kept.len())?;
        push_item(&mut self.kept, value(alloc, text, purpose)?)?;
        Ok(Place::Kept(number))
    }

    /// Puts a text among those that are rarely asked for, if it is one of them, or else keeps it as a value.
    pub(crate) fn put(
        &mut self,
        alloc: Global,
        text: &str,
        purpose: Use,
        once: bool,
    ) -> Result<Place, AllocError>
        ensures there { IfOk result (λ place. IsAt self.new place (chars text.now)) }
        ensures done { OnOk result (HasGrown self.old self.new) }
        ensures same { OnErr result (self.new ≡ self.old) }
    {
        if !is_rare(text, purpose, once) {
            return self.keep(alloc, text, purpose);
        }
        Ok(Place::Rare(self.rare.push(text)?))
    }

    /// Puts a text among those that are rarely asked for before it comes, so that others may stand inside of it from now on, and tells its number. One
    /// that is kept as a value isn't put.
    pub(crate) fn foresee(&mut self, text: &str) -> Result<Option<u32>, AllocError>
        ensures done { OnOk result (HasGrown self.old self.new) }
        ensures same { OnErr result (self.new ≡ self.old) }
    {
        if !is_rare(text, Use::Beside, false) {
            return Ok(None);
        }
        let number = self.rare.push(text)?;
        self.rare.open(number);
        Ok(Some(number))
    }

    /// The same texts, without room for more.
    pub(crate) fn trimmed(self) -> Texts
        ensures { result ≡ self }
    {
        Texts {
            kept: trimmed(self.kept),
            rare: self.rare.trimmed(),
        }
    }
}
