//! The words of a call, given to the formals: proc(n).
ghost use Rattle.std.specs.Prelude.{◌≡◌, Some, map as each, drop, IfOk};
ghost use Rattle.std.specs.FinMap as map;
ghost use Rattle.tcl_meaning.specs.Procedures as spec;
ghost use Rattle.tcl_chars.specs.Texts.{text_of};
ghost use Rattle.tcl_procs.specs.Binding.{argument_of, takes_rest};
ghost use Rattle.tcl_table.specs.Procedures.{formal_of};

use std::alloc::{AllocError, Global};
use std::rc::{Rc, RcStr};
use tcl_chars::is_text;
use tcl_frames::Variable;
use tcl_lists::list;
use tcl_names::{Layout, PlacedNames};
use tcl_table::Formal;
use tcl_values::Value;

/// Does the first formal take the rest of the words?
pub(crate) fn takes_rest(formals: &[Formal]) -> bool
    ensures { result ≡ takes_rest (each formal_of formals.now) }
{
    match formals {
        [formal] => is_text(formal.name.as_str(), "args") && formal.default.is_none(),
        _ => false,
    }
}

// A default as a value: a number where it is the decimal text of one, so that the body need not read it.
fn default_value(text: &RcStr) -> Result<Value, AllocError>
    ensures { IfOk result (λ value. value ≡ text_of text.now) }
{
    match Value::of_decimal(text.as_str()) {
        Some(number) => Ok(number),
        None => Ok(Value::of_text(text.clone()?)),
    }
}

// What a formal is given: the first word, or its default.
fn argument(formal: &Formal, words: &[Value]) -> Result<Option<Value>, AllocError>
    ensures { IfOk result (λ value. value ≡ argument_of (formal_of formal.now) words.now) }
{
    match words {
        [word, ..] => Ok(Some(word.copy()?)),
        [] => match &formal.default {
            Some(text) => Ok(Some(default_value(text)?)),
            None => Ok(None),
        },
    }
}

// The formals behind the first.
fn formals_behind(formals: &[Formal]) -> &[Formal]
    ensures { result.now ≡ drop 1 formals.now }
{
    match formals {
        [_, others @ ..] => others,
        [] => formals,
    }
}

// The words behind the first.
fn behind_first(words: &[Value]) -> &[Value]
    ensures { result.now ≡ drop 1 words.now }
{
    match words {
        [_, others @ ..] => others,
        [] => words,
    }
}

/// The variables of a call, with places of this layout; none where a word is missing or too many.
pub(crate) fn bound(
    alloc: Global,
    layout: Rc<Layout>,
    formals: &[Formal],
    words: &[Value],
) -> Result<Option<PlacedNames<Variable>>, AllocError>
    ensures { IfOk result (λ variables. variables ≡ spec.bound (Some map.empty) (each formal_of formals.now) words.now) }
{
    let mut variables = PlacedNames::new(alloc, layout)?;
    let mut left = formals;
    let mut rest = words;
    'formals: while let [formal, ..] = left {
        if takes_rest(left) {
            let value = list(alloc, rest)?;
            variables.insert(alloc, formal.name.as_str(), Variable::of_text(value))?;
            return Ok(Some(variables));
        }
        let Some(value) = argument(formal, rest)? else {
            return Ok(None);
        };
        variables.insert(alloc, formal.name.as_str(), Variable::of_text(value))?;
        left = formals_behind(left);
        rest = behind_first(rest);
    }
    if rest.len() > 0 {
        return Ok(None);
    }
    Ok(Some(variables))
}
