//! The sentences about numbers, truth values, indices and arithmetic.
ghost use Rattle.std.specs.Prelude.{◌≡◌, IfOk};
ghost use Rattle.std.specs.Str.{chars};
ghost use Rattle.tcl_chars.specs.Answers.{Answers};
ghost use Rattle.tcl_chars.specs.Messages.{about, too_large, expected_integer, expected_boolean, bad_index, arith_text, number, truth_value, position};
ghost use Rattle.tcl_chars.specs.Texts.{text_of};

use crate::arithmetic::Arith;
use crate::fault::Fault;
use crate::indices::{Index, Position, read_index};
use crate::numbers::{Dialect, Whole, read_whole};
use crate::texts::push_text;
use crate::truths::{Truth, read_truth};
use std::alloc::{AllocError, Global};
use std::rc::RcStr;

/// A text as the script's error says it.
pub fn message(alloc: Global, text: &str) -> Result<RcStr, AllocError>
    ensures { IfOk result (λ s. text_of s ≡ chars text.now) }
{
    RcStr::from_str(alloc, text)
}

/// What is said of a word: `before "word"after`.
pub fn about(alloc: Global, before: &str, word: &str, after: &str) -> Result<RcStr, AllocError>
    ensures { IfOk result (λ s. text_of s ≡ about (chars before.now) (chars word.now) (chars after.now)) }
{
    let mut message = String::new(alloc);
    push_text(&mut message, before)?;
    push_text(&mut message, " \"")?;
    push_text(&mut message, word)?;
    push_text(&mut message, "\"")?;
    push_text(&mut message, after)?;
    RcStr::from_string(message)
}

/// What is said of a number text of more than 64 bits.
fn too_large(alloc: Global) -> Result<RcStr, AllocError>
    ensures { IfOk result (λ s. text_of s ≡ too_large) }
{
    message(alloc, "integer value too large to represent")
}

/// What is said of a text that is no number where one is needed.
fn expected_integer(alloc: Global, text: &str) -> Result<RcStr, AllocError>
    ensures { IfOk result (λ s. text_of s ≡ expected_integer (chars text.now)) }
{
    about(alloc, "expected integer but got", text, "")
}

/// What is said of a text that is no truth value where one is needed.
fn expected_boolean(alloc: Global, text: &str) -> Result<RcStr, AllocError>
    ensures { IfOk result (λ s. text_of s ≡ expected_boolean (chars text.now)) }
{
    about(alloc, "expected boolean value but got", text, "")
}

/// What is said of a text that is no index where one is needed.
fn bad_index(alloc: Global, text: &str) -> Result<RcStr, AllocError>
    ensures { IfOk result (λ s. text_of s ≡ bad_index (chars text.now)) }
{
    about(
        alloc,
        "bad index",
        text,
        ": must be integer?[+-]integer? or end?[+-]integer?",
    )
}

impl Arith {
    /// What the script's error says.
    pub fn text(self) -> &'static str
        ensures { chars result.now ≡ arith_text self }
    {
        match self {
            Arith::Overflow => "integer overflow",
            Arith::DivideByZero => "divide by zero",
            Arith::ZeroPower => "exponentiation of zero by negative power",
            Arith::NegativeShift => "negative shift argument",
        }
    }
}

/// The number of a text, or the script's error.
pub fn expect_number(alloc: Global, text: &str, dialect: Dialect) -> Result<i64, Fault>
    ensures { Answers (λ z. z) result (number dialect (chars text.now)) }
{
    match read_whole(text, dialect) {
        Whole::Number(number) => Ok(number),
        Whole::TooLarge => Err(Fault::Error(too_large(alloc)?)),
        Whole::Not => Err(Fault::Error(expected_integer(alloc, text)?)),
    }
}

/// The truth value of a text, or the script's error.
pub fn expect_truth(alloc: Global, text: &str, dialect: Dialect) -> Result<bool, Fault>
    ensures { Answers (λ b. b) result (truth_value dialect (chars text.now)) }
{
    match read_truth(text, dialect) {
        Truth::Yes => Ok(true),
        Truth::No => Ok(false),
        Truth::TooLarge => Err(Fault::Error(too_large(alloc)?)),
        Truth::Not => Err(Fault::Error(expected_boolean(alloc, text)?)),
    }
}

/// The position that an index text names, or the script's error.
pub fn expect_position(alloc: Global, text: &str, dialect: Dialect) -> Result<Position, Fault>
    ensures { Answers (λ p. p) result (position dialect (chars text.now)) }
{
    match read_index(text, dialect) {
        Index::At(position) => Ok(position),
        Index::TooLarge => Err(Fault::Error(too_large(alloc)?)),
        Index::Not => Err(Fault::Error(bad_index(alloc, text)?)),
    }
}
