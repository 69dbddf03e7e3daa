//! Texts made character by character: string(n), reverse, tolower, toupper, repeat.

ghost use Rattle.std.specs.Prelude.{◌≡◌, reverse, map, IfOk};
ghost use Rattle.std.specs.Str.{chars};
ghost use Rattle.std.specs.String.{string_bytes};
ghost use Rattle.tcl_chars.specs.Answers.{Answers};
ghost use Rattle.tcl_pages.specs.Strings as spec;

use crate::places::room;
use std::alloc::{AllocError, Global};
use tcl_arguments::{one_text, two_texts};
use tcl_chars::{Dialect, Fault, expect_number, push, push_text, split_first, split_last};
use tcl_values::Value;

/// The character, a small letter of ASCII in place of a capital one.
fn lowered(c: char) -> char
    ensures { result ≡ spec.lowered c }
{
    c.to_ascii_lowercase()
}

/// The character, a capital letter of ASCII in place of a small one.
fn raised(c: char) -> char
    ensures { result ≡ spec.raised c }
{
    c.to_ascii_uppercase()
}

/// The characters from the last to the first.
fn reversed(alloc: Global, text: &str) -> Result<String, AllocError>
    ensures { IfOk result (λ s. chars (string_bytes s) ≡ reverse (chars text.now)) }
{
    let mut said = room(alloc, text.len())?;
    let mut rest = text;
    while let Some((front, last)) = split_last(rest) {
        push(&mut said, last)?;
        rest = front;
    }
    Ok(said)
}

/// The text with small letters of ASCII in place of capital ones.
fn all_lowered(alloc: Global, text: &str) -> Result<String, AllocError>
    ensures { IfOk result (λ s. chars (string_bytes s) ≡ map spec.lowered (chars text.now)) }
{
    let mut said = room(alloc, text.len())?;
    let mut rest = text;
    while let Some((c, after)) = split_first(rest) {
        push(&mut said, lowered(c))?;
        rest = after;
    }
    Ok(said)
}

/// The text with capital letters of ASCII in place of small ones.
fn all_raised(alloc: Global, text: &str) -> Result<String, AllocError>
    ensures { IfOk result (λ s. chars (string_bytes s) ≡ map spec.raised (chars text.now)) }
{
    let mut said = room(alloc, text.len())?;
    let mut rest = text;
    while let Some((c, after)) = split_first(rest) {
        push(&mut said, raised(c))?;
        rest = after;
    }
    Ok(said)
}

/// The text, repeated `count` times.
#[tactic(auto, using(crate::proofs::Empty::no_chars))]
fn repeated(alloc: Global, text: &str, count: usize) -> Result<String, AllocError>
    ensures { IfOk result (λ s. chars (string_bytes s) ≡ spec.repeated_text count (chars text.now)) }
{
    let mut said = room(alloc, text.len().saturating_mul(count))?;
    if text.is_empty() {
        return Ok(said);
    }
    let mut left = count;
    while left > 0 {
        push_text(&mut said, text)?;
        left -= 1;
    }
    Ok(said)
}

/// The text, repeated `count` times; an empty one where the count is below 0.
#[tactic(auto, using(crate::proofs::Empty::no_chars))]
fn times(alloc: Global, text: &str, count: i64) -> Result<String, AllocError>
    ensures { IfOk result (λ s. chars (string_bytes s) ≡ spec.times_text count (chars text.now)) }
{
    if count < 0 {
        return Ok(String::new(alloc));
    }
    repeated(alloc, text, count as usize)
}

/// `string reverse string`: the characters from the last to the first.
///
/// # Errors
///
/// `Fault::Error` with the usage, `Fault::Memory`.
pub fn string_reverse(alloc: Global, words: &mut [Value]) -> Result<Value, Fault>
    ensures answer { Answers (λ v. v) result (spec.string_reverse words.old) }
    ensures same { words.new ≡ words.old }
{
    let text = one_text(alloc, words, "string reverse string")?;
    Ok(Value::of_string(alloc, reversed(alloc, text.as_str())?)?)
}

/// `string tolower string`: small letters in place of capital ones.
///
/// # Errors
///
/// `Fault::Error` with the usage, `Fault::Memory`.
pub fn string_tolower(alloc: Global, words: &mut [Value]) -> Result<Value, Fault>
    ensures answer { Answers (λ v. v) result (spec.string_tolower words.old) }
    ensures same { words.new ≡ words.old }
{
    let text = one_text(alloc, words, "string tolower string")?;
    Ok(Value::of_string(alloc, all_lowered(alloc, text.as_str())?)?)
}

/// `string toupper string`: capital letters in place of small ones.
///
/// # Errors
///
/// `Fault::Error` with the usage, `Fault::Memory`.
pub fn string_toupper(alloc: Global, words: &mut [Value]) -> Result<Value, Fault>
    ensures answer { Answers (λ v. v) result (spec.string_toupper words.old) }
    ensures same { words.new ≡ words.old }
{
    let text = one_text(alloc, words, "string toupper string")?;
    Ok(Value::of_string(alloc, all_raised(alloc, text.as_str())?)?)
}

/// `string repeat string count`: the text, repeated `count` times.
///
/// # Errors
///
/// `Fault::Error` with the usage, or where the count is no number, `Fault::Memory`.
pub fn string_repeat(alloc: Global, words: &mut [Value], dialect: Dialect) -> Result<Value, Fault>
    ensures answer { Answers (λ v. v) result (spec.string_repeat dialect words.old) }
    ensures same { words.new ≡ words.old }
{
    let (text, count) = two_texts(alloc, words, "string repeat string count")?;
    let count = expect_number(alloc, count.as_str(), dialect)?;
    Ok(Value::of_string(alloc, times(alloc, text.as_str(), count)?)?)
}
