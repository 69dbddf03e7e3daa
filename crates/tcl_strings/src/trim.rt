//! What is taken off the ends of a text: string(n), trim, trimleft, trimright.

ghost use Rattle.std.specs.Prelude.{◌≡◌, option_map};
ghost use Rattle.std.specs.Str.{chars};
ghost use Rattle.tcl_chars.specs.Answers.{Answers};
ghost use Rattle.tcl_chars.specs.Texts.{literal, text_of};
ghost use Rattle.tcl_pages.specs.Strings as spec;

use crate::places::value_of;
use std::alloc::Global;
use std::rc::RcStr;
use tcl_arguments::one_or_two_texts;
use tcl_chars::{Fault, is_list_space, split_first, split_last};
use tcl_values::Value;

/// Is the character one of the set?
pub(crate) fn is_among(set: &str, c: char) -> bool
    ensures { result ≡ spec.is_among (chars set.now) c }
{
    let mut rest = set;
    while let Some((d, after)) = split_first(rest) {
        if d == c {
            return true;
        }
        rest = after;
    }
    false
}

/// Is the character taken off: one of the set, or list space where there is none?
fn is_taken_off(set: &Option<RcStr>, c: char) -> bool
    ensures { result ≡ spec.taken_off (option_map text_of set.now) c }
{
    match set {
        Some(set) => is_among(set.as_str(), c),
        None => is_list_space(c),
    }
}

/// The text without what is taken off in front.
fn trimmed_left<'a>(text: &'a str, set: &Option<RcStr>) -> &'a str
    ensures { chars result.now ≡ spec.trimmed_left (spec.taken_off (option_map text_of set.now)) (chars text.now) }
{
    let mut rest = text;
    while let Some((c, after)) = split_first(rest) {
        if !is_taken_off(set, c) {
            return rest;
        }
        rest = after;
    }
    rest
}

/// The text without what is taken off at the end.
fn trimmed_right<'a>(text: &'a str, set: &Option<RcStr>) -> &'a str
    ensures { chars result.now ≡ spec.trimmed_right (spec.taken_off (option_map text_of set.now)) (chars text.now) }
{
    let mut rest = text;
    while let Some((front, last)) = split_last(rest) {
        if !is_taken_off(set, last) {
            return rest;
        }
        rest = front;
    }
    rest
}

/// `string trim string ?chars?`: the text without such characters at its ends; list space where none are given.
///
/// # Errors
///
/// `Fault::Error` with the usage, `Fault::Memory`.
pub fn string_trim(alloc: Global, words: &mut [Value]) -> Result<Value, Fault>
    ensures answer { Answers (λ v. v) result
        (spec.trim_by spec.trimmed_both (literal "string trim string ?chars?") words.old) }
    ensures same { words.new ≡ words.old }
{
    let (text, set) = one_or_two_texts(alloc, words, "string trim string ?chars?")?;
    let left = trimmed_left(text.as_str(), &set);
    Ok(value_of(alloc, trimmed_right(left, &set))?)
}

/// `string trimleft string ?chars?`: the text without such characters in front.
///
/// # Errors
///
/// `Fault::Error` with the usage, `Fault::Memory`.
pub fn string_trimleft(alloc: Global, words: &mut [Value]) -> Result<Value, Fault>
    ensures answer { Answers (λ v. v) result
        (spec.trim_by spec.trimmed_left (literal "string trimleft string ?chars?") words.old) }
    ensures same { words.new ≡ words.old }
{
    let (text, set) = one_or_two_texts(alloc, words, "string trimleft string ?chars?")?;
    Ok(value_of(alloc, trimmed_left(text.as_str(), &set))?)
}

/// `string trimright string ?chars?`: the text without such characters at its end.
///
/// # Errors
///
/// `Fault::Error` with the usage, `Fault::Memory`.
pub fn string_trimright(alloc: Global, words: &mut [Value]) -> Result<Value, Fault>
    ensures answer { Answers (λ v. v) result
        (spec.trim_by spec.trimmed_right (literal "string trimright string ?chars?") words.old) }
    ensures same { words.new ≡ words.old }
{
    let (text, set) = one_or_two_texts(alloc, words, "string trimright string ?chars?")?;
    Ok(value_of(alloc, trimmed_right(text.as_str(), &set))?)
}
