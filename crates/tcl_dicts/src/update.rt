//! Commands that change the dictionary of a variable: dict(n), append, incr, lappend. They take the variable's value and
//! the words behind its name, and leave in the value what its definition in `tcl_pages` makes of it; the words are left as they were,
//! and so is the value where a call is refused.

ghost use Rattle.std.specs.Prelude.{◌≡◌, ◌≤◌, ◌∷◌, [], drop, length, Ok, IfOk, OnErr};
ghost use Rattle.std.specs.Str.{chars};
ghost use Rattle.tcl_chars.specs.Answers.{Answers};
ghost use Rattle.tcl_chars.specs.Texts.{text_of};
ghost use Rattle.tcl_dicts.specs.Levels.{changed};
ghost use Rattle.tcl_pages.specs.DictPages as spec;
ghost use Rattle.tcl_pages.specs.Lists as lists;
ghost use Rattle.tcl_pages.specs.Updates as updates;
ghost use Rattle.tcl_values.specs.Lists.{Leaves};

use crate::words::word_at;
use std::alloc::{AllocError, Global};
use std::rc::RcStr;
use tcl_arguments::{number_of, text_at};
use tcl_chars::{Dialect, Fault, Op, binary};
use tcl_values::{Change, Key, Value};

/// The value of a key of a dictionary, or the first one where the key isn't there.
fn value_or(alloc: Global, first: Value, value: &mut Value, key: &str) -> Result<Value, Fault>
    ensures value { Answers (λ v. v) result (spec.value_or first value.old (chars key.now)) }
    ensures same { value.new ≡ value.old }
{
    match value.dict_get(alloc, key)? {
        Some(inner) => Ok(inner),
        None => Ok(first),
    }
}

/// The value of a key of a dictionary, or the empty text where the key isn't there.
pub(crate) fn value_or_empty(alloc: Global, value: &mut Value, key: &str) -> Result<Value, Fault>
    ensures value { Answers (λ v. v) result (spec.value_or [] value.old (chars key.now)) }
    ensures same { value.new ≡ value.old }
{
    let empty = Value::of_str(alloc, "")?;
    value_or(alloc, empty, value, key)
}

/// The words from a place on. What is kept of them is shared.
fn copies(alloc: Global, words: &[Value], first: usize) -> Result<Vec<Value>, AllocError>
    requires { first ≤ length words.now }
    ensures { IfOk result (λ v. v.items ≡ drop first words.now) }
{
    let mut copies = Vec::with_capacity(alloc, words.len() - first)?;
    for place in first..words.len() {
        copies.push(word_at(words, place)?)?;
    }
    Ok(copies)
}

/// A list, as it is.
#[tactic(auto, using(crate::proofs::Updating::list_start))]
fn expect_list(alloc: Global, list: Value) -> Result<Value, Fault>
    ensures { Answers (λ v. v) result (lists.lappend list []) }
{
    let mut list = list;
    list.count(alloc)?;
    Ok(list)
}

/// A number with another one added.
fn with_number(
    alloc: Global,
    number: Value,
    by: &mut Value,
    dialect: Dialect,
) -> Result<Value, Fault>
    ensures sum { Answers (λ v. v) result (updates.increased dialect number (by.old ∷ [])) }
    ensures by { by.new ≡ by.old }
{
    let mut number = number;
    let old = number_of(alloc, &mut number, dialect)?;
    let more = number_of(alloc, by, dialect)?;
    match binary(Op::Add, old, more) {
        Ok(new) => Ok(Value::of_int(new)),
        Err(refused) => Err(Fault::Error(RcStr::from_str(alloc, refused.text())?)),
    }
}

/// The words from a place on, one behind the other. One word alone is shared.
#[tactic(auto, using(crate::proofs::Updating::one_joined))]
fn joined_words(alloc: Global, words: &mut [Value], first: usize) -> Result<RcStr, AllocError>
    requires { first ≤ length words.old }
    ensures text { IfOk result (λ t. text_of t ≡ updates.text_appended [] (drop first words.old)) }
    ensures same { words.new ≡ words.old }
{
    if words.len() - first == 1 {
        return text_at(alloc, words, first);
    }
    let words = &*words;
    RcStr::from_string(Value::joined_text(alloc, &words[first..])?)
}

/// The words behind the first one, written behind the value of a key. It takes the time of what is written, whatever stands there.
fn append_under(
    alloc: Global,
    value: &mut Value,
    key: Key,
    words: &mut [Value],
) -> Result<(), Fault>
    requires { 1 ≤ length words.old }
    ensures done { Leaves value.new (changed value.old key [] (λ old. Ok (updates.text_appended old (drop 1 words.old)))) result }
    ensures same { OnErr result (value.new ≡ value.old) }
    ensures words { words.new ≡ words.old }
{
    let more = joined_words(alloc, words, 1)?;
    value.dict_change(alloc, key, Change::Text(more))
}

/// The value of a key as it is, where it is a list.
fn lappend_none(alloc: Global, value: &mut Value, key: Key) -> Result<(), Fault>
    ensures done { Leaves value.new (changed value.old key [] (λ old. lists.lappend old [])) result }
    ensures same { OnErr result (value.new ≡ value.old) }
{
    let old = value_or_empty(alloc, value, key.as_str())?;
    let list = expect_list(alloc, old)?;
    value.dict_put(alloc, key, list)
}

/// The words behind the first one, as the last elements of the list that is the value of a key. It takes the time of those elements,
/// whatever the list.
fn lappend_under(
    alloc: Global,
    value: &mut Value,
    key: Key,
    words: &mut [Value],
) -> Result<(), Fault>
    requires { 1 ≤ length words.old }
    ensures done { Leaves value.new (changed value.old key [] (λ old. lists.lappend old (drop 1 words.old))) result }
    ensures same { OnErr result (value.new ≡ value.old) }
    ensures words { words.new ≡ words.old }
{
    let more = copies(alloc, words, 1)?;
    if more.is_empty() {
        return lappend_none(alloc, value, key);
    }
    value.dict_change(alloc, key, Change::Items(more))
}

/// `dict append dictVarName key ?value ...?`: the words behind the key are written behind the key's value.
///
/// # Errors
///
/// `Fault::Error` with the dictionary's fault, `Fault::Memory`; the value is then as it was.
pub fn dict_append(alloc: Global, value: &mut Value, words: &mut [Value]) -> Result<(), Fault>
    ensures done { Leaves value.new (updates.by_key value.old words.old (updates.dict_append value.old)) result }
    ensures same { OnErr result (value.new ≡ value.old) }
    ensures words { words.new ≡ words.old }
{
    if words.is_empty() {
        return Ok(());
    }
    let key = words[0].key(alloc)?;
    append_under(alloc, value, key, words)
}

/// `dict lappend dictVarName key ?value ...?`: the words behind the key are the last elements of the list that is the key's value.
///
/// # Errors
///
/// `Fault::Error` with the dictionary's fault or the list's, `Fault::Memory`; the value is then as it was.
pub fn dict_lappend(alloc: Global, value: &mut Value, words: &mut [Value]) -> Result<(), Fault>
    ensures done { Leaves value.new (updates.by_key value.old words.old (spec.dict_lappend value.old)) result }
    ensures same { OnErr result (value.new ≡ value.old) }
    ensures words { words.new ≡ words.old }
{
    if words.is_empty() {
        return Ok(());
    }
    let key = words[0].key(alloc)?;
    lappend_under(alloc, value, key, words)
}

/// `dict incr dictVarName key ?increment?`: the number that is the key's value, or 0 where the key isn't there, with the increment added.
///
/// # Errors
///
/// `Fault::Error` with the dictionary's fault, that of the number or of the increment, or the overflow, `Fault::Memory`; the value is
/// then as it was.
#[tactic(auto, using(tcl_values::proofs::Truths::nought))]
pub fn dict_incr(
    alloc: Global,
    value: &mut Value,
    words: &mut [Value],
    dialect: Dialect,
) -> Result<(), Fault>
    requires { length words.old ≡ 2 }
    ensures done { Leaves value.new (updates.by_key value.old words.old (updates.dict_incr dialect value.old)) result }
    ensures same { OnErr result (value.new ≡ value.old) }
    ensures words { words.new ≡ words.old }
{
    let key = words[0].key(alloc)?;
    let old = value_or(alloc, Value::of_int(0), value, key.as_str())?;
    let new = with_number(alloc, old, &mut words[1], dialect)?;
    value.dict_put(alloc, key, new)
}
