//! Texts made into lists, and lists into texts: split(n), join(n).

ghost use Rattle.std.specs.Prelude.{◌≡◌, ◌++◌, option_map, IfOk, OnOk};
ghost use Rattle.std.specs.Str.{chars};
ghost use Rattle.std.specs.String.{string_bytes};
ghost use Rattle.tcl_chars.specs.Answers.{Answers};
ghost use Rattle.tcl_chars.specs.Texts.{text_of};
ghost use Rattle.tcl_pages.specs.Strings as spec;
ghost use Rattle.tcl_glob.specs.Seek.{to_separator};
ghost use Rattle.tcl_values.specs.Kept.{texts};

use crate::characters::characters;
use crate::places::{room, text_if, value_of};
use crate::trim::is_among;
use std::alloc::{AllocError, Global};
use std::rc::RcStr;
use tcl_arguments::{one_or_two_texts, usage};
use tcl_chars::{Fault, before, push_text, split_first};
use tcl_values::{Element, Value};

/// What the text has left at its first separator.
fn to_separator<'a>(text: &'a str, set: &str) -> &'a str
    ensures { chars result.now ≡ to_separator (spec.is_among (chars set.now)) (chars text.now) }
{
    let mut rest = text;
    while let Some((c, after)) = split_first(rest) {
        if is_among(set, c) {
            return rest;
        }
        rest = after;
    }
    rest
}

/// The parts between the characters of a set.
fn parts_between(alloc: Global, text: &str, set: &str) -> Result<Vec<Value>, AllocError>
    ensures { IfOk result (λ v. v.items ≡ spec.parts_between (spec.is_among (chars set.now)) (chars text.now)) }
{
    let mut parts = Vec::new(alloc);
    let mut rest = text;
    'parts: loop {
        let end = to_separator(rest, set);
        parts.push(value_of(alloc, before(rest, end))?)?;
        match split_first(end) {
            Some((_, after)) => rest = after,
            None => return Ok(parts),
        }
    }
}

/// The parts of a text: none of an empty one, and its characters where the set is empty.
fn split_by(alloc: Global, text: &str, set: &str) -> Result<Vec<Value>, AllocError>
    ensures { IfOk result (λ v. v.items ≡ spec.split_by (chars text.now) (chars set.now)) }
{
    if split_first(text).is_none() {
        return Ok(Vec::new(alloc));
    }
    if split_first(set).is_none() {
        return characters(alloc, text);
    }
    parts_between(alloc, text, set)
}

/// The characters at which a text is split: white space where none are given.
fn separators(set: &Option<RcStr>) -> &str
    ensures { chars result.now ≡ spec.separators (option_map text_of set.now) }
{
    match set {
        Some(set) => set.as_str(),
        None => " \t\n\r",
    }
}

/// `split string ?splitChars?`: the list of the parts between such characters.
///
/// # Errors
///
/// `Fault::Error` with the usage, `Fault::Memory`.
pub fn split(alloc: Global, words: &mut [Value]) -> Result<Value, Fault>
    ensures answer { Answers (λ v. v) result (spec.split_page words.old) }
    ensures same { words.new ≡ words.old }
{
    let (text, set) = one_or_two_texts(alloc, words, "split string ?splitChars?")?;
    let parts = split_by(alloc, text.as_str(), separators(&set))?;
    Ok(Value::of_list(alloc, parts)?)
}

/// The elements behind the first, each behind what stands between them.
fn push_behind(
    alloc: Global,
    text: &mut String,
    elements: &[Element],
    between: &str,
) -> Result<(), AllocError>
    ensures { OnOk result (chars (string_bytes text.new)
        ≡ chars (string_bytes text.old) ++ spec.joined_behind (chars between.now) (texts elements.now)) }
{
    let mut left = elements;
    while let [next, more @ ..] = left {
        push_text(text, between)?;
        next.write_to(alloc, text)?;
        left = more;
    }
    Ok(())
}

/// The elements with a text between each two.
fn joined(alloc: Global, elements: &[Element], between: &str) -> Result<String, AllocError>
    ensures { IfOk result (λ s. chars (string_bytes s) ≡ spec.joined_by (chars between.now) (texts elements.now)) }
{
    let mut text = room(alloc, 0)?;
    if let [first, more @ ..] = elements {
        first.write_to(alloc, &mut text)?;
        push_behind(alloc, &mut text, more, between)?;
    }
    Ok(text)
}

/// What stands between elements: a space where nothing is given.
fn between_of(between: &Option<RcStr>) -> &str
    ensures { chars result.now ≡ spec.between_of (option_map text_of between.now) }
{
    match between {
        Some(between) => between.as_str(),
        None => " ",
    }
}

/// `join list ?joinString?`: the elements with a text between each two. The list is read as it is kept.
///
/// # Errors
///
/// `Fault::Error` with the usage or the list's fault, `Fault::Memory`.
#[tactic(auto, using(tcl_arguments::proofs::Arguments::one_and_maybe, tcl_arguments::proofs::Arguments::too_few_for_one, tcl_arguments::proofs::Arguments::too_many_for_two))]
pub fn join(alloc: Global, words: &mut [Value]) -> Result<Value, Fault>
    ensures answer { Answers (λ v. v) result (spec.join_page words.old) }
    ensures same { words.new ≡ words.old }
{
    if words.is_empty() || words.len() > 2 {
        return Err(Fault::Error(usage(alloc, "join list ?joinString?")?));
    }
    let between = text_if(alloc, words, 1)?;
    let row = words[0].row(alloc)?;
    Ok(Value::of_string(alloc, joined(alloc, row.items(), between_of(&between))?)?)
}
