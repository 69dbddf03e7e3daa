//! Commands that change a dictionary under a path of keys: dict(n), set, unset. They take the variable's value and the words behind
//! its name, and leave in the value what its definition in `tcl_pages` makes of it; the words are left as they were, and so is the
//! value where a call is refused.

ghost use Rattle.std.specs.Prelude.{◌≡◌, ◌≤◌, ◌∷◌, [], ◌++◌, drop, length, take, IfOk, OnErr};
ghost use Rattle.std.specs.Str.{chars};
ghost use Rattle.tcl_chars.specs.Answers.{Answers};
ghost use Rattle.tcl_dicts.specs.Levels.{changed_known, rebuilt};
ghost use Rattle.tcl_pages.specs.DictPages as spec;
ghost use Rattle.tcl_pages.specs.Updates.{dict_set_words};
ghost use Rattle.tcl_values.specs.Lists.{Leaves};

use crate::look::unknown_key;
use crate::update::value_or_empty;
use crate::words::word_at;
use std::alloc::{AllocError, Global};
use tcl_chars::Fault;
use tcl_values::{Key, Value};

/// The words from a place on, in front of another one, as keys.
fn keys_between(
    alloc: Global,
    words: &[Value],
    first: usize,
    last: usize,
) -> Result<Vec<Key>, AllocError>
    requires order { first ≤ last }
    requires within { last ≤ length words.now }
    ensures { IfOk result (λ v. v.items ≡ drop first (take last words.now)) }
{
    let mut keys = Vec::with_capacity(alloc, last - first)?;
    for place in first..last {
        keys.push(words[place].key(alloc)?)?;
    }
    Ok(keys)
}

/// The value of a key of a dictionary, which has it, taken out where nobody else holds the dictionary.
fn taken(alloc: Global, value: &mut Value, key: &str) -> Result<Value, Fault>
    ensures inner { Answers (λ v. v) result (spec.inner_of value.old (chars key.now)) }
    ensures same { value.new ≡ value.old }
{
    match value.dict_take(alloc, key)? {
        Some(inner) => Ok(inner),
        None => Err(Fault::Error(unknown_key(alloc, key)?)),
    }
}

/// A value put back under the key of the innermost dictionary, that under the key of the one before, and so on.
fn put_back(alloc: Global, levels: Vec<(Value, Key)>, value: Value) -> Result<Value, Fault>
    ensures { Answers (λ v. v) result (rebuilt levels.items value) }
{
    let mut value = value;
    for (level, key) in levels {
        let mut level = level;
        level.dict_put(alloc, key, value)?;
        value = level;
    }
    Ok(value)
}

/// The dictionary with a value under the last of some keys. Levels that are missing are made.
#[tactic(auto, using(crate::proofs::Updating::set_level, crate::proofs::Updating::set_stops))]
fn with_value(alloc: Global, start: Value, keys: Vec<Key>, value: Value) -> Result<Value, Fault>
    ensures { Answers (λ v. v) result (spec.dict_set start value keys.items) }
{
    let mut levels = Vec::with_capacity(alloc, keys.len())?;
    let mut level = start;
    for key in keys {
        let inner = value_or_empty(alloc, &mut level, key.as_str())?;
        levels.push((level, key))?;
        level = inner;
    }
    levels.reverse();
    put_back(alloc, levels, value)
}

/// Puts a value under the last of some keys, of which there are many.
fn set_under(alloc: Global, value: &mut Value, keys: Vec<Key>, new: Value) -> Result<(), Fault>
    ensures done { Leaves value.new (spec.dict_set value.old new keys.items) result }
    ensures same { OnErr result (value.new ≡ value.old) }
{
    let start = value.copy()?;
    *value = with_value(alloc, start, keys, new)?;
    Ok(())
}

/// `dict set dictVarName key ?key ...? value`: the last word is the value under the last of the keys. Levels that are missing are made.
///
/// # Errors
///
/// `Fault::Error` with a dictionary's fault, `Fault::Memory`; the value is then as it was.
pub fn dict_set(alloc: Global, value: &mut Value, words: &mut [Value]) -> Result<(), Fault>
    requires { 2 ≤ length words.old }
    ensures done { Leaves value.new (dict_set_words value.old words.old) result }
    ensures same { OnErr result (value.new ≡ value.old) }
    ensures words { words.new ≡ words.old }
{
    let last = words.len() - 1;
    let new = word_at(words, last)?;
    if last == 1 {
        let key = words[0].key(alloc)?;
        return value.dict_put(alloc, key, new);
    }
    let keys = keys_between(alloc, words, 0, last)?;
    if last > 64 {
        return set_under(alloc, value, keys, new);
    }
    value.dict_put_under(alloc, keys, new)
}

/// The dictionary without the last of some keys, of which it has those before.
#[tactic(auto, using(crate::proofs::Updating::unset_level, crate::proofs::Updating::unset_stops))]
fn without_key(alloc: Global, start: Value, keys: Vec<Key>, last: Key) -> Result<Value, Fault>
    ensures { Answers (λ v. v) result (spec.dict_unset start (keys.items ++ last ∷ [])) }
{
    let mut levels = Vec::with_capacity(alloc, keys.len())?;
    let mut level = start;
    for key in keys {
        let inner = taken(alloc, &mut level, key.as_str())?;
        levels.push((level, key))?;
        level = inner;
    }
    level.dict_remove(alloc, last.as_str())?;
    levels.reverse();
    put_back(alloc, levels, level)
}

/// Takes the last of some keys out.
fn unset_under(
    alloc: Global,
    value: &mut Value,
    key: Key,
    keys: Vec<Key>,
    last: Key,
) -> Result<(), Fault>
    ensures done { Leaves value.new (changed_known value.old key (λ old. spec.dict_unset old (keys.items ++ last ∷ []))) result }
    ensures same { OnErr result (value.new ≡ value.old) }
{
    let inner = taken(alloc, value, key.as_str())?;
    let less = without_key(alloc, inner, keys, last)?;
    value.dict_put(alloc, key, less)
}

/// Takes the last of some keys that are words out, of which there are many.
fn unset_by_words(alloc: Global, value: &mut Value, words: &mut [Value]) -> Result<(), Fault>
    requires { 2 ≤ length words.old }
    ensures done { Leaves value.new (spec.dict_unset value.old words.old) result }
    ensures same { OnErr result (value.new ≡ value.old) }
    ensures words { words.new ≡ words.old }
{
    let last = words.len() - 1;
    let key = words[last].key(alloc)?;
    let first = words[0].key(alloc)?;
    let keys = keys_between(alloc, words, 1, last)?;
    unset_under(alloc, value, first, keys, key)
}

/// `dict unset dictVarName key ?key ...?`: the last of the keys is taken out; it may be missing, one before it may not.
///
/// # Errors
///
/// `Fault::Error` with a dictionary's fault or the first key that is missing, `Fault::Memory`; the value is then as it was.
pub fn dict_unset(alloc: Global, value: &mut Value, words: &mut [Value]) -> Result<(), Fault>
    requires { 1 ≤ length words.old }
    ensures done { Leaves value.new (spec.dict_unset value.old words.old) result }
    ensures same { OnErr result (value.new ≡ value.old) }
    ensures words { words.new ≡ words.old }
{
    let count = words.len();
    if count == 1 {
        let key = words[0].spelled(alloc)?;
        return value.dict_remove(alloc, key.as_str());
    }
    if count > 64 {
        return unset_by_words(alloc, value, words);
    }
    let keys = keys_between(alloc, words, 0, count)?;
    value.dict_remove_under(alloc, keys)
}
