//! Keys in a text replaced by their values: string(n), map.

ghost use Rattle.std.specs.Prelude.{◌≡◌, ◌<◌, [], length, MatchOption, IfOk, IfSome, OnOk};
ghost use Rattle.std.specs.Str.{chars};
ghost use Rattle.std.specs.String.{string_bytes};
ghost use Rattle.tcl_chars.specs.Answers.{Answers};
ghost use Rattle.tcl_pages.specs.Dictionaries.{pairs};
ghost use Rattle.tcl_pages.specs.Strings as spec;
ghost use Rattle.tcl_strings.specs.Taken.{HasKey, HasNoKey, IsMappedBehind};
ghost use Rattle.tcl_values.specs.Kept.{texts};

use crate::keys::{Group, group_of_few, grouped, pair_in};
use crate::places::room;
use std::alloc::{AllocError, Global};
use tcl_arguments::usage;
use tcl_chars::{Fault, before, message, push_text, split_first};
use tcl_values::{Element, ElementText, Value};

/// The texts of elements.
fn texts_of(alloc: Global, elements: &[Element]) -> Result<Vec<ElementText<'_>>, AllocError>
    ensures { IfOk result (λ v. v.items ≡ texts elements.now) }
{
    let mut texts = Vec::with_capacity(alloc, elements.len())?;
    for element in elements {
        texts.push(element.text(alloc)?)?;
    }
    Ok(texts)
}

/// What stands in front of the first key in a text, the key's value, and what stands behind the key.
fn first_key<'a, 't>(groups: &[Group<'a>], text: &'t str) -> Option<(&'t str, &'a str, &'t str)>
    requires { 0 < length groups.now }
    ensures found { MatchOption result (HasNoKey groups.now (chars text.now))
        (λ f. HasKey groups.now (chars text.now) (chars f.0.now) (chars f.1.now) (chars f.2.now)) }
    ensures shorter { IfSome result (λ f. length (chars f.2.now) < length (chars text.now)) }
{
    let mut rest = text;
    while let Some((c, after)) = split_first(rest) {
        if let Some((value, behind)) = pair_in(groups, c, after) {
            return Some((before(text, rest), value, behind));
        }
        rest = after;
    }
    None
}

/// Writes a text at the end of another one, with values in place of keys, from the left; what was written isn't read again.
fn push_mapped(groups: &[Group<'_>], text: &str, said: &mut String) -> Result<(), AllocError>
    requires { 0 < length groups.now }
    ensures { OnOk result (IsMappedBehind groups.now (chars (string_bytes said.old)) (chars text.now) (chars (string_bytes said.new))) }
{
    let mut rest = text;
    while let Some((front, value, behind)) = first_key(groups, rest) {
        push_text(said, front)?;
        push_text(said, value)?;
        rest = behind;
    }
    push_text(said, rest)
}

/// The text with values in place of keys: the value itself where no key stands in it.
fn with_values(alloc: Global, groups: &[Group<'_>], value: &Value) -> Result<Value, AllocError>
    requires { 0 < length groups.now }
    ensures { IfOk result (λ v. IsMappedBehind groups.now [] value.now v) }
{
    let text = value.spelled(alloc)?;
    let text = text.as_str();
    let Some((front, new, behind)) = first_key(groups, text) else {
        return value.copy();
    };
    let mut said = room(alloc, text.len())?;
    push_text(&mut said, front)?;
    push_text(&mut said, new)?;
    push_mapped(groups, behind, &mut said)?;
    Value::of_string(alloc, said)
}

/// The text with values in place of the keys of a list of keys and values in turn.
fn mapped(alloc: Global, items: &[Element], value: &Value) -> Result<Value, AllocError>
    ensures { IfOk result (λ v. v ≡ spec.mapped (pairs (texts items.now)) 0 value.now) }
{
    if let Some(group) = group_of_few(alloc, items)? {
        return with_values(alloc, &[group], value);
    }
    let texts = texts_of(alloc, items)?;
    let groups = grouped(alloc, &texts)?;
    with_values(alloc, &groups, value)
}

/// `string map mapping string`: the text with values in place of keys. The first key of the list that fits counts.
///
/// # Errors
///
/// `Fault::Error` with the usage, the list's fault or that a key has no value, `Fault::Memory`.
#[tactic(auto, using(tcl_arguments::proofs::Arguments::are_two, tcl_arguments::proofs::Arguments::not_two))]
pub fn string_map(alloc: Global, words: &mut [Value]) -> Result<Value, Fault>
    ensures answer { Answers (λ v. v) result (spec.string_map words.old) }
    ensures same { words.new ≡ words.old }
{
    if words.len() != 2 {
        return Err(Fault::Error(usage(alloc, "string map mapping string")?));
    }
    let row = words[0].row(alloc)?;
    if row.len() % 2 != 0 {
        return Err(Fault::Error(message(alloc, "char map list unbalanced")?));
    }
    Ok(mapped(alloc, row.items(), &words[1])?)
}
