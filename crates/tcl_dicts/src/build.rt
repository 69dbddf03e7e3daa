//! Commands that make dictionaries: dict(n), create, merge, remove, replace.

ghost use Rattle.std.specs.Prelude.{◌≡◌, ◌≤◌, [], drop, length, IfOk};
ghost use Rattle.tcl_chars.specs.Answers.{Answers};
ghost use Rattle.tcl_pages.specs.Dictionaries.{put_keys};
ghost use Rattle.tcl_pages.specs.DictPages as spec;

use crate::words::{dictionary_at, pairs_behind};
use std::alloc::{AllocError, Global};
use tcl_arguments::{text_at, usage};
use tcl_chars::Fault;
use tcl_values::{Dictionary, Key, Value};

/// The dictionary with these values at their keys.
fn with_values(
    alloc: Global,
    found: Dictionary,
    pairs: Vec<(Key, Value)>,
) -> Result<Dictionary, AllocError>
    ensures { IfOk result (λ d. d ≡ put_keys found pairs.items) }
{
    let mut found = found;
    for (key, value) in pairs {
        found = found.with(alloc, key, value)?;
    }
    Ok(found)
}

/// `dict create ?key value ...?`: the dictionary of the keys and values.
///
/// # Errors
///
/// `Fault::Error` with the usage, `Fault::Memory`.
pub fn dict_create(alloc: Global, words: &mut [Value]) -> Result<Value, Fault>
    ensures answer { Answers (λ v. v) result (spec.dict_create words.old) }
    ensures same { words.new ≡ words.old }
{
    let pairs = pairs_behind(alloc, words, 0, "dict create ?key value ...?")?;
    Ok(Value::of_dict(alloc, pairs)?)
}

/// `dict replace dictionary ?key value ...?`: the dictionary with these values at their keys.
///
/// # Errors
///
/// `Fault::Error` with the usage or the dictionary's fault, `Fault::Memory`.
pub fn dict_replace(alloc: Global, words: &mut [Value]) -> Result<Value, Fault>
    ensures answer { Answers (λ v. v) result (spec.dict_replace words.old) }
    ensures same { words.new ≡ words.old }
{
    let form = "dict replace dictionary ?key value ...?";
    if words.is_empty() {
        return Err(Fault::Error(usage(alloc, form)?));
    }
    let pairs = pairs_behind(alloc, words, 1, form)?;
    let found = dictionary_at(alloc, words, 0)?;
    Ok(with_values(alloc, found, pairs)?.into_value()?)
}

/// The dictionary with the pairs of another one.
fn with_pairs(alloc: Global, found: Dictionary, more: &Dictionary) -> Result<Dictionary, AllocError>
    ensures { IfOk result (λ d. d ≡ put_keys found more.now) }
{
    let keys = more.keys();
    let values = more.values();
    let mut found = found;
    for place in 0..keys.len() {
        found = found.with(alloc, keys[place].clone()?, values[place].copy()?)?;
    }
    Ok(found)
}

/// `dict merge ?dictionary ...?`: the pairs of all the dictionaries.
///
/// # Errors
///
/// `Fault::Error` with the first dictionary's fault, `Fault::Memory`.
pub fn dict_merge(alloc: Global, words: &mut [Value]) -> Result<Value, Fault>
    ensures answer { Answers (λ v. v) result (spec.merged [] words.old) }
    ensures same { words.new ≡ words.old }
{
    let mut found = Dictionary::new(alloc)?;
    for place in 0..words.len() {
        let more = dictionary_at(alloc, words, place)?;
        found = with_pairs(alloc, found, &more)?;
    }
    Ok(found.into_value()?)
}

/// The dictionary without the keys that the words from a place on are.
fn without_keys(
    alloc: Global,
    found: Dictionary,
    words: &mut [Value],
    first: usize,
) -> Result<Dictionary, AllocError>
    requires { first ≤ length words.old }
    ensures pairs { IfOk result (λ d. d ≡ spec.without_keys (drop first words.old) found) }
    ensures same { words.new ≡ words.old }
{
    let mut found = found;
    for place in first..words.len() {
        let key = text_at(alloc, words, place)?;
        found = found.without(key.as_str())?;
    }
    Ok(found)
}

/// `dict remove dictionary ?key ...?`: the dictionary without the keys.
///
/// # Errors
///
/// `Fault::Error` with the usage or the dictionary's fault, `Fault::Memory`.
pub fn dict_remove(alloc: Global, words: &mut [Value]) -> Result<Value, Fault>
    ensures answer { Answers (λ v. v) result (spec.dict_remove words.old) }
    ensures same { words.new ≡ words.old }
{
    if words.is_empty() {
        return Err(Fault::Error(usage(alloc, "dict remove dictionary ?key ...?")?));
    }
    let found = dictionary_at(alloc, words, 0)?;
    Ok(without_keys(alloc, found, words, 1)?.into_value()?)
}
