//! Commands that look into a dictionary: dict(n), exists, get, size.

ghost use Rattle.std.specs.Prelude.{◌≡◌, ◌≤◌, length, Ok, IfOk};
ghost use Rattle.std.specs.Str.{chars};
ghost use Rattle.tcl_chars.specs.Answers.{Answers};
ghost use Rattle.tcl_chars.specs.Texts.{text_of};
ghost use Rattle.tcl_pages.specs.Answers.{Answer};
ghost use Rattle.tcl_pages.specs.DictPages as spec;
ghost use Rattle.tcl_pages.specs.Results.{truth_text};
ghost use Rattle.tcl_pages.specs.Texts.{Text};

use crate::words::dictionary_at;
use std::alloc::{AllocError, Global};
use std::rc::RcStr;
use tcl_arguments::usage;
use tcl_chars::{Fault, about};
use tcl_values::Value;

/// What is said of a key that isn't there.
pub(crate) fn unknown_key(alloc: Global, key: &str) -> Result<RcStr, AllocError>
    ensures { IfOk result (λ t. text_of t ≡ spec.unknown_key (chars key.now)) }
{
    about(alloc, "key", key, " not known in dictionary")
}

/// The value of a key of the dictionary that a value is.
pub(crate) fn inner_of(alloc: Global, value: &mut Value, key: &str) -> Result<Value, Fault>
    ensures inner { Answers (λ v. v) result (spec.inner_of value.old (chars key.now)) }
    ensures same { value.new ≡ value.old }
{
    match value.dict_get(alloc, key)? {
        Some(inner) => Ok(inner),
        None => Err(Fault::Error(unknown_key(alloc, key)?)),
    }
}

/// The value under keys, of which there is one at least, each in the dictionary under the one before. The outermost dictionary is read
/// where it stands.
fn value_under(alloc: Global, dictionary: &mut Value, keys: &[Value]) -> Result<Value, Fault>
    requires { 1 ≤ length keys.now }
    ensures value { Answers (λ v. v) result (spec.value_under dictionary.old keys.now) }
    ensures same { dictionary.new ≡ dictionary.old }
{
    let first = keys[0].spelled(alloc)?;
    let mut inner = inner_of(alloc, dictionary, first.as_str())?;
    for place in 1..keys.len() {
        let key = keys[place].spelled(alloc)?;
        inner = inner_of(alloc, &mut inner, key.as_str())?;
    }
    Ok(inner)
}

/// `dict get dictionary ?key ...?`: the value under the keys; without a key all pairs.
///
/// # Errors
///
/// `Fault::Error` with the usage, a dictionary's fault or the first key that isn't there, `Fault::Memory`.
pub fn dict_get(alloc: Global, words: &mut [Value]) -> Result<Value, Fault>
    ensures answer { Answers (λ v. v) result (spec.dict_get words.old) }
    ensures same { words.new ≡ words.old }
{
    let Some((dictionary, keys)) = words.split_first_mut() else {
        return Err(Fault::Error(usage(alloc, "dict get dictionary ?key ...?")?));
    };
    if keys.is_empty() {
        return Ok(dictionary.dictionary(alloc)?.into_value()?);
    }
    value_under(alloc, dictionary, &*keys)
}

/// The truth value that says whether a value was found.
fn is_found(found: Result<Value, Fault>) -> Result<Value, Fault>
    ensures { (meant : Answer Text) → Answers (λ v. v) found meant → Answers (λ v. v) result (Ok (truth_text (spec.is_there meant))) }
{
    match found {
        Ok(_) => Ok(Value::of_truth(true)),
        Err(Fault::Error(_)) => Ok(Value::of_truth(false)),
        Err(Fault::Memory) => Err(Fault::Memory),
    }
}

/// `dict exists dictionary key ?key ...?`: is there a value under the keys? No also where a level is no dictionary.
///
/// # Errors
///
/// `Fault::Error` with the usage, `Fault::Memory`.
pub fn dict_exists(alloc: Global, words: &mut [Value]) -> Result<Value, Fault>
    ensures answer { Answers (λ v. v) result (spec.dict_exists words.old) }
    ensures same { words.new ≡ words.old }
{
    if words.len() < 2 {
        return Err(Fault::Error(usage(alloc, "dict exists dictionary key ?key ...?")?));
    }
    let (first, keys) = words.split_at_mut(1);
    is_found(value_under(alloc, &mut first[0], &*keys))
}

/// `dict size dictionary`: how many pairs the dictionary has.
///
/// # Errors
///
/// `Fault::Error` with the usage or the dictionary's fault, `Fault::Memory`.
#[tactic(auto, using(tcl_arguments::proofs::Arguments::is_one, tcl_arguments::proofs::Arguments::not_one))]
pub fn dict_size(alloc: Global, words: &mut [Value]) -> Result<Value, Fault>
    ensures answer { Answers (λ v. v) result (spec.dict_size words.old) }
    ensures same { words.new ≡ words.old }
{
    if words.len() != 1 {
        return Err(Fault::Error(usage(alloc, "dict size dictionary")?));
    }
    let pairs = dictionary_at(alloc, words, 0)?;
    Ok(Value::of_int(pairs.values().len() as i64))
}
