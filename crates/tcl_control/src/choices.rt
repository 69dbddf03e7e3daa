//! The words of if(n), which are read before any condition is evaluated.
ghost use Rattle.std.specs.Prelude.{◌≡◌, ◌≤◌, length, drop, option_map, IfOk};
ghost use Rattle.std.specs.Str.{chars};
ghost use Rattle.tcl_steps.specs.Asked.{IsAsked};
ghost use Rattle.tcl_control.specs.Choices.{body_offset, goes_on, one_body, last_of, with_last};
ghost use Rattle.tcl_meaning.specs.Control as spec;
ghost use Rattle.tcl_meaning.specs.Shapes as shapes;
ghost use Rattle.tcl_steps.specs.Views.{others_of};

use crate::answers::{word_at, words_behind};
use crate::conditions::next_clause;
use std::alloc::{AllocError, Global};
use tcl_steps::{Loop, Others, Owes, Scope, Step, is_word, usage};
use tcl_values::Value;

// How far behind the condition in front its body stands: a `then` may stand between.
fn body_offset(alloc: Global, words: &[Value]) -> Result<usize, AllocError>
    ensures { IfOk result (λ offset. offset ≡ body_offset words.now) }
{
    if words.len() < 2 {
        return Ok(1);
    }
    let word = word_at(words, 1)?;
    let is_then = is_word(alloc, &word, "then")?;
    if is_then {
        return Ok(2);
    }
    Ok(1)
}

// Does a condition follow behind a body?
fn goes_on(alloc: Global, words: &[Value]) -> Result<bool, AllocError>
    ensures { IfOk result (λ on. on ≡ goes_on words.now) }
{
    if words.len() == 0 {
        return Ok(false);
    }
    let word = word_at(words, 0)?;
    is_word(alloc, &word, "elseif")
}

// The only one of the words.
fn one_body(words: &[Value]) -> Result<Option<Option<Value>>, AllocError>
    ensures { IfOk result (λ body. body ≡ one_body words.now) }
{
    if words.len() != 1 {
        return Ok(None);
    }
    let body = word_at(words, 0)?;
    Ok(Some(Some(body)))
}

// What stands last, behind a body.
fn last_of(alloc: Global, words: &[Value]) -> Result<Option<Option<Value>>, AllocError>
    ensures { IfOk result (λ last. last ≡ last_of words.now) }
{
    if words.len() == 0 {
        return Ok(Some(None));
    }
    let word = word_at(words, 0)?;
    let is_else = is_word(alloc, &word, "else")?;
    if is_else {
        return one_body(&words[1..]);
    }
    one_body(words)
}

// The clauses, and what is run if none holds.
fn with_last(clauses: Vec<(Value, Value)>, last: Option<Option<Value>>) -> Option<Others>
    ensures { option_map others_of result ≡ with_last clauses.items last }
{
    let otherwise = last?;
    Some(Others {
        clauses,
        gone: 0,
        otherwise,
    })
}

// The conditions with their bodies that the words are, if they are any.
fn if_shape(alloc: Global, words: &[Value]) -> Result<Option<Others>, AllocError>
    ensures { IfOk result (λ others. option_map others_of others ≡ shapes.if_shape words.now) }
{
    let mut clauses = Vec::new(alloc);
    let mut rest = words;
    'words: while rest.len() > 0 {
        let offset = body_offset(alloc, rest)?;
        if offset >= rest.len() {
            return Ok(None);
        }
        let test = word_at(rest, 0)?;
        let body = word_at(rest, offset)?;
        clauses.push((test, body))?;
        let left = words_behind(rest, offset + 1);
        let on = goes_on(alloc, left)?;
        if !on {
            let last = last_of(alloc, left)?;
            return Ok(with_last(clauses, last));
        }
        let next = words_behind(left, 1);
        rest = next;
    }
    Ok(None)
}

/// `if cond ?then? body ?elseif cond ?then? body ...? ?else? ?body?`: the first condition is to be evaluated.
pub fn if_page(alloc: Global, words: &[Value]) -> Result<Step<Scope, Owes, Loop>, AllocError>
    ensures { IsAsked result (spec.if_page words.now) }
{
    match if_shape(alloc, words)? {
        Some(others) => next_clause(alloc, others),
        None => usage(
            alloc,
            "if cond ?then? body ?elseif cond ?then? body ...? ?else? ?body?",
        ),
    }
}
