//! Commands that choose keys or values by a pattern: dict(n), keys, values.

ghost use Rattle.std.specs.Prelude.{◌≡◌, map, option_map, IfOk};
ghost use Rattle.std.specs.List.{filter};
ghost use Rattle.std.specs.Str.{chars};
ghost use Rattle.tcl_chars.specs.Answers.{Answers};
ghost use Rattle.tcl_chars.specs.Texts.{text_of};
ghost use Rattle.tcl_list.specs.Written.{written};
ghost use Rattle.tcl_pages.specs.Arguments.{one_or_two};
ghost use Rattle.tcl_pages.specs.DictPages as spec;
ghost use Rattle.tcl_values.specs.Kept.{texts};

use crate::words::dictionary_at;
use std::alloc::{AllocError, Global};
use std::rc::RcStr;
use tcl_arguments::{text_at, usage};
use tcl_chars::Fault;
use tcl_glob::glob_match;
use tcl_values::{Dictionary, Element, Key, Value};

/// Does the text match the pattern, if there is one?
fn passes(pattern: &Option<RcStr>, text: &str) -> bool
    ensures { result ≡ spec.passes (option_map text_of pattern.now) (chars text.now) }
{
    match pattern {
        Some(pattern) => glob_match(pattern.as_str(), text),
        None => true,
    }
}

/// The list of the keys that match the pattern.
fn matching_keys(alloc: Global, keys: &[Key], pattern: &Option<RcStr>) -> Result<Value, AllocError>
    ensures { IfOk result (λ v. v ≡ written (filter (spec.passes (option_map text_of pattern.now)) keys.now)) }
{
    let mut found = Vec::new(alloc);
    for key in keys {
        if passes(pattern, key.as_str()) {
            found.push(key.value()?)?;
        }
    }
    Value::of_list(alloc, found)
}

/// The list of the values that match the pattern.
fn matching_values(
    alloc: Global,
    values: &[Element],
    pattern: &Option<RcStr>,
) -> Result<Value, AllocError>
    ensures { IfOk result (λ v. v ≡ written (filter (spec.passes (option_map text_of pattern.now)) (texts values.now))) }
{
    let mut found = Vec::new(alloc);
    for value in values {
        let text = value.text(alloc)?;
        if passes(pattern, text.as_str()) {
            found.push(value.copy()?)?;
        }
    }
    Value::of_list(alloc, found)
}

/// The dictionary that the first word is, and the pattern that the second is, if there is one.
#[tactic(auto, using(tcl_arguments::proofs::Arguments::one_and_maybe, tcl_arguments::proofs::Arguments::too_few_for_one, tcl_arguments::proofs::Arguments::too_many_for_two))]
fn dictionary_and_pattern(
    alloc: Global,
    words: &mut [Value],
    form: &str,
) -> Result<(Dictionary, Option<RcStr>), Fault>
    ensures pair { Answers (λ p. (p.0, option_map text_of p.1)) result (spec.dictionary_and_pattern (chars form.now) words.old) }
    ensures same { words.new ≡ words.old }
{
    if words.is_empty() || words.len() > 2 {
        return Err(Fault::Error(usage(alloc, form)?));
    }
    let pairs = dictionary_at(alloc, words, 0)?;
    if words.len() == 1 {
        return Ok((pairs, None));
    }
    let pattern = text_at(alloc, words, 1)?;
    Ok((pairs, Some(pattern)))
}

/// `dict keys dictionary ?pattern?`: the keys, in their order, or those that match the pattern.
///
/// # Errors
///
/// `Fault::Error` with the usage or the dictionary's fault, `Fault::Memory`.
pub fn dict_keys(alloc: Global, words: &mut [Value]) -> Result<Value, Fault>
    ensures answer { Answers (λ v. v) result (spec.dict_keys words.old) }
    ensures same { words.new ≡ words.old }
{
    let (pairs, pattern) = dictionary_and_pattern(alloc, words, "dict keys dictionary ?pattern?")?;
    Ok(matching_keys(alloc, pairs.keys(), &pattern)?)
}

/// `dict values dictionary ?pattern?`: the values, in the order of their keys, or those that match the pattern.
///
/// # Errors
///
/// `Fault::Error` with the usage or the dictionary's fault, `Fault::Memory`.
pub fn dict_values(alloc: Global, words: &mut [Value]) -> Result<Value, Fault>
    ensures answer { Answers (λ v. v) result (spec.dict_values words.old) }
    ensures same { words.new ≡ words.old }
{
    let (pairs, pattern) = dictionary_and_pattern(
        alloc,
        words,
        "dict values dictionary ?pattern?",
    )?;
    Ok(matching_values(alloc, pairs.values(), &pattern)?)
}
