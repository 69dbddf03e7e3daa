//! The words of a command as texts, where it takes just this number of them.

ghost use Rattle.std.specs.Prelude.{◌≡◌, ◌<◌, length, map, slice_get, IfOk, option_map};
ghost use Rattle.std.specs.Str.{chars};
ghost use Rattle.tcl_arguments.specs.UpToOne.{up_to_one};
ghost use Rattle.tcl_arguments.specs.WordAt.{word};
ghost use Rattle.tcl_chars.specs.Answers.{Answers};
ghost use Rattle.tcl_chars.specs.Texts.{text_of};
ghost use Rattle.tcl_pages.specs.Arguments as spec;

use crate::message::usage;
use std::alloc::{AllocError, Global};
use std::rc::RcStr;
use tcl_chars::Fault;
use tcl_values::Value;

/// The text of the word at a place.
pub fn text_at(alloc: Global, words: &mut [Value], place: usize) -> Result<RcStr, AllocError>
    requires { place < length words.old }
    ensures text { IfOk result (λ t. text_of t ≡ word words.old place) }
    ensures same { words.new ≡ words.old }
{
    words[place].text(alloc)
}

/// The text of the word at a place, if there is such a word.
fn text_if(alloc: Global, words: &mut [Value], place: usize) -> Result<Option<RcStr>, AllocError>
    ensures text { IfOk result (λ t. option_map text_of t ≡ slice_get words.old place) }
    ensures same { words.new ≡ words.old }
{
    if place < words.len() {
        Ok(Some(text_at(alloc, words, place)?))
    } else {
        Ok(None)
    }
}

/// The text of the one word.
///
/// # Errors
///
/// `Fault::Error` with the usage of this form at another count of words, `Fault::Memory`.
#[tactic(auto, using(crate::proofs::Arguments::is_one, crate::proofs::Arguments::not_one))]
pub fn one_text(alloc: Global, words: &mut [Value], form: &str) -> Result<RcStr, Fault>
    ensures text { Answers (λ t. text_of t) result (spec.one_argument (chars form.now) words.old) }
    ensures same { words.new ≡ words.old }
{
    if words.len() != 1 {
        return Err(Fault::Error(usage(alloc, form)?));
    }
    Ok(text_at(alloc, words, 0)?)
}

/// The text of the one word, or none where there is none.
///
/// # Errors
///
/// `Fault::Error` with the usage of this form at another count of words, `Fault::Memory`.
#[tactic(auto, using(crate::proofs::Arguments::none_given, crate::proofs::Arguments::one_given, crate::proofs::Arguments::more_given))]
pub fn up_to_one_text(
    alloc: Global,
    words: &mut [Value],
    form: &str,
) -> Result<Option<RcStr>, Fault>
    ensures text { Answers (λ t. option_map text_of t) result (up_to_one (chars form.now) words.old) }
    ensures same { words.new ≡ words.old }
{
    if words.len() > 1 {
        return Err(Fault::Error(usage(alloc, form)?));
    }
    if words.is_empty() {
        return Ok(None);
    }
    Ok(Some(text_at(alloc, words, 0)?))
}

/// The texts of the two words.
///
/// # Errors
///
/// `Fault::Error` with the usage of this form at another count of words, `Fault::Memory`.
#[tactic(auto, using(crate::proofs::Arguments::are_two, crate::proofs::Arguments::not_two))]
pub fn two_texts(alloc: Global, words: &mut [Value], form: &str) -> Result<(RcStr, RcStr), Fault>
    ensures texts { Answers (λ t. (text_of t.0, text_of t.1)) result (spec.two_arguments (chars form.now) words.old) }
    ensures same { words.new ≡ words.old }
{
    if words.len() != 2 {
        return Err(Fault::Error(usage(alloc, form)?));
    }
    let first = text_at(alloc, words, 0)?;
    let second = text_at(alloc, words, 1)?;
    Ok((first, second))
}

/// The texts of the three words.
///
/// # Errors
///
/// `Fault::Error` with the usage of this form at another count of words, `Fault::Memory`.
#[tactic(auto, using(crate::proofs::Arguments::are_three, crate::proofs::Arguments::not_three))]
pub fn three_texts(
    alloc: Global,
    words: &mut [Value],
    form: &str,
) -> Result<(RcStr, RcStr, RcStr), Fault>
    ensures texts { Answers (λ t. (text_of t.0, text_of t.1, text_of t.2)) result
        (spec.three_arguments (chars form.now) words.old) }
    ensures same { words.new ≡ words.old }
{
    if words.len() != 3 {
        return Err(Fault::Error(usage(alloc, form)?));
    }
    let first = text_at(alloc, words, 0)?;
    let second = text_at(alloc, words, 1)?;
    let third = text_at(alloc, words, 2)?;
    Ok((first, second, third))
}

/// The texts of one or two words.
///
/// # Errors
///
/// `Fault::Error` with the usage of this form at another count of words, `Fault::Memory`.
#[tactic(auto, using(crate::proofs::Arguments::one_and_maybe, crate::proofs::Arguments::too_few_for_one, crate::proofs::Arguments::too_many_for_two))]
pub fn one_or_two_texts(
    alloc: Global,
    words: &mut [Value],
    form: &str,
) -> Result<(RcStr, Option<RcStr>), Fault>
    ensures texts { Answers (λ t. (text_of t.0, option_map text_of t.1)) result
        (spec.one_or_two (chars form.now) words.old) }
    ensures same { words.new ≡ words.old }
{
    if words.len() < 1 || words.len() > 2 {
        return Err(Fault::Error(usage(alloc, form)?));
    }
    let first = text_at(alloc, words, 0)?;
    let second = text_if(alloc, words, 1)?;
    Ok((first, second))
}

/// The texts of two or three words.
///
/// # Errors
///
/// `Fault::Error` with the usage of this form at another count of words, `Fault::Memory`.
#[tactic(auto, using(crate::proofs::Arguments::two_and_maybe, crate::proofs::Arguments::too_few_for_two, crate::proofs::Arguments::too_many_for_three))]
pub fn two_or_three_texts(
    alloc: Global,
    words: &mut [Value],
    form: &str,
) -> Result<(RcStr, RcStr, Option<RcStr>), Fault>
    ensures texts { Answers (λ t. (text_of t.0, text_of t.1, option_map text_of t.2)) result
        (spec.two_or_three (chars form.now) words.old) }
    ensures same { words.new ≡ words.old }
{
    if words.len() < 2 || words.len() > 3 {
        return Err(Fault::Error(usage(alloc, form)?));
    }
    let first = text_at(alloc, words, 0)?;
    let second = text_at(alloc, words, 1)?;
    let third = text_if(alloc, words, 2)?;
    Ok((first, second, third))
}

/// The texts of three or four words.
///
/// # Errors
///
/// `Fault::Error` with the usage of this form at another count of words, `Fault::Memory`.
#[tactic(auto, using(crate::proofs::Arguments::three_and_maybe, crate::proofs::Arguments::too_few_for_three, crate::proofs::Arguments::too_many_for_four))]
pub fn three_or_four_texts(
    alloc: Global,
    words: &mut [Value],
    form: &str,
) -> Result<(RcStr, RcStr, RcStr, Option<RcStr>), Fault>
    ensures texts { Answers (λ t. (text_of t.0, text_of t.1, text_of t.2, option_map text_of t.3)) result
        (spec.three_or_four (chars form.now) words.old) }
    ensures same { words.new ≡ words.old }
{
    if words.len() < 3 || words.len() > 4 {
        return Err(Fault::Error(usage(alloc, form)?));
    }
    let first = text_at(alloc, words, 0)?;
    let second = text_at(alloc, words, 1)?;
    let third = text_at(alloc, words, 2)?;
    let fourth = text_if(alloc, words, 3)?;
    Ok((first, second, third, fourth))
}

/// The texts of all words.
pub fn all_texts(alloc: Global, words: &mut [Value]) -> Result<Vec<RcStr>, AllocError>
    ensures texts { IfOk result (λ v. map text_of v.items ≡ words.old) }
    ensures same { words.new ≡ words.old }
{
    let mut texts = Vec::new(alloc);
    let mut place = 0;
    while place < words.len() {
        texts.push(text_at(alloc, words, place)?)?;
        place += 1;
    }
    Ok(texts)
}
