//! What try(n) has behind its body, from its words, and which handler runs.
ghost use Rattle.std.specs.Prelude.{◌≡◌, ◌≤◌, length, map as each, option_map, IfOk};
ghost use Rattle.std.specs.Str.{chars};
ghost use Rattle.tcl_arguments.specs.WordAt.{word};
ghost use Rattle.tcl_chars.specs.Answers.{Answers};
ghost use Rattle.tcl_chars.specs.Texts.{text_of};
ghost use Rattle.tcl_control.specs.Clauses.{keyword_of, next_handler, last_words};
ghost use Rattle.tcl_meaning.specs.Completions.{code_now};
ghost use Rattle.tcl_meaning.specs.Handlers as spec;
ghost use Rattle.tcl_meaning.specs.Shapes as shapes;
ghost use Rattle.tcl_pages.specs.Usage.{usage_text};
ghost use Rattle.tcl_steps.specs.Views.{catches_of, handler_of, handlers_of};

use crate::answers::{word_at, words_behind};
use crate::returning::code_word;
use std::alloc::{AllocError, Global};
use std::rc::RcStr;
use tcl_arguments::usage;
use tcl_chars::{Dialect, Fault, about, is_text, message};
use tcl_steps::{Catches, Completion, Handler, Handlers, code_number, is_word};
use tcl_values::Value;

// The word that a clause begins with.
#[derive(Clone, Copy)]
enum Keyword {
    AtLast,
    OnCode,
    TrapError,
}

// What is said of a clause with other words than it takes.
fn form(alloc: Global) -> Result<RcStr, AllocError>
    ensures { IfOk result (λ said. text_of said ≡ usage_text spec.try_usage) }
{
    usage(alloc, "try body ?handler ...? ?finally script?")
}

// The keyword that a word is.
fn read_keyword(alloc: Global, word: &str) -> Result<Keyword, Fault>
    ensures { Answers keyword_of result (spec.keyword (chars word.now)) }
{
    if is_text(word, "finally") {
        return Ok(Keyword::AtLast);
    }
    if is_text(word, "on") {
        return Ok(Keyword::OnCode);
    }
    if is_text(word, "trap") {
        return Ok(Keyword::TrapError);
    }
    let said = about(alloc, "bad handler", word, ": must be finally, on, or trap")?;
    Err(Fault::Error(said))
}

// The keyword that the first word is.
fn first_keyword(alloc: Global, words: &[Value]) -> Result<Keyword, Fault>
    requires { 1 ≤ length words.now }
    ensures { Answers keyword_of result (spec.keyword (word words.now 0)) }
{
    let mut first = word_at(words, 0)?;
    let text = first.text(alloc)?;
    read_keyword(alloc, text.as_str())
}

// The handler of a code: `on code variableList script`.
fn on_handler(alloc: Global, dialect: Dialect, words: &[Value]) -> Result<Handler, Fault>
    requires { 4 ≤ length words.now }
    ensures { Answers handler_of result (spec.on_handler dialect (word words.now 1) (word words.now 2) (word words.now 3)) }
{
    let mut code = word_at(words, 1)?;
    let code = code_word(alloc, dialect, &mut code)?;
    let mut names = word_at(words, 2)?;
    let names = names.list(alloc)?;
    let script = word_at(words, 3)?;
    Ok(Handler {
        catches: Catches::On(code),
        names,
        script,
    })
}

// The handler of errors: `trap pattern variableList script`.
fn trap_handler(alloc: Global, words: &[Value]) -> Result<Handler, Fault>
    requires { 4 ≤ length words.now }
    ensures { Answers handler_of result (spec.trap_handler (word words.now 1) (word words.now 2) (word words.now 3)) }
{
    let mut pattern = word_at(words, 1)?;
    let pattern = pattern.list(alloc)?;
    let mut names = word_at(words, 2)?;
    let names = names.list(alloc)?;
    let script = word_at(words, 3)?;
    Ok(Handler {
        catches: Catches::Trap(pattern),
        names,
        script,
    })
}

// The handler that the first four words are.
fn next_handler(alloc: Global, dialect: Dialect, words: &[Value]) -> Result<Handler, Fault>
    requires { 4 ≤ length words.now }
    ensures { Answers handler_of result (next_handler dialect words.now) }
{
    match first_keyword(alloc, words)? {
        Keyword::AtLast => Err(Fault::Error(form(alloc)?)),
        Keyword::OnCode => on_handler(alloc, dialect, words),
        Keyword::TrapError => trap_handler(alloc, words),
    }
}

// The script of `finally`, where the words left are one with its script.
fn last_clause(alloc: Global, words: &[Value]) -> Result<Option<Value>, Fault>
    ensures { Answers spec.no_handlers result (last_words words.now) }
{
    if words.len() == 0 {
        return Ok(None);
    }
    let keyword = first_keyword(alloc, words)?;
    if words.len() == 2 {
        if let Keyword::AtLast = keyword {
            return Ok(Some(word_at(words, 1)?));
        }
    }
    Err(Fault::Error(form(alloc)?))
}

// The handlers that words are, and the script of `finally`.
#[tactic(auto, using(crate::proofs::HandlerLemmas::clauses_more, crate::proofs::HandlerLemmas::clauses_bad, crate::proofs::HandlerLemmas::clauses_end, crate::proofs::HandlerLemmas::clauses_end_bad))]
fn handlers_given(alloc: Global, dialect: Dialect, words: &[Value]) -> Result<Handlers, Fault>
    ensures { Answers handlers_of result (spec.handlers_of dialect words.now) }
{
    let mut clauses = Vec::new(alloc);
    let mut rest = words;
    'clauses: while rest.len() > 3 {
        let handler = next_handler(alloc, dialect, rest)?;
        clauses.push(handler)?;
        let next = words_behind(rest, 4);
        rest = next;
    }
    let finally = last_clause(alloc, rest)?;
    Ok(Handlers { clauses, finally })
}

// Has the last handler a script of its own?
fn last_runs(alloc: Global, handlers: &[Handler]) -> Result<bool, AllocError>
    ensures { IfOk result (λ runs. runs ≡ spec.last_runs (each handler_of handlers.now)) }
{
    match handlers {
        [.., last] => Ok(!is_word(alloc, &last.script, "-")?),
        _ => Ok(true),
    }
}

/// What stands behind the body of a `try`, from its words.
///
/// # Errors
///
/// `Fault::Error` where they are no handlers, `Fault::Memory`.
pub(crate) fn try_shape(alloc: Global, dialect: Dialect, words: &[Value]) -> Result<Handlers, Fault>
    ensures { Answers handlers_of result (spec.try_shape dialect words.now) }
{
    let handlers = handlers_given(alloc, dialect, words)?;
    if last_runs(alloc, &handlers.clauses)? {
        return Ok(handlers);
    }
    let said = message(
        alloc,
        "last non-finally clause must not have a body of \"-\"",
    )?;
    Err(Fault::Error(said))
}

// The elements of an error's code, where it is a list.
fn code_elements(alloc: Global, completion: &Completion) -> Result<Option<Vec<Value>>, AllocError>
    ensures { IfOk result (λ elements. option_map (λ v. v.items) elements ≡ spec.code_elements completion.now) }
{
    if code_number(completion.code_now()) != 1 {
        return Ok(None);
    }
    let mut code = completion.error_code(alloc)?;
    match code.list(alloc) {
        Ok(elements) => Ok(Some(elements)),
        Err(Fault::Error(_)) => Ok(None),
        Err(Fault::Memory) => Err(AllocError),
    }
}

// Are two values the same text?
fn is_same(alloc: Global, value: &Value, other: &Value) -> Result<bool, AllocError>
    ensures { IfOk result (λ is. is ≡ shapes.is_word value.now other.now) }
{
    let mut copy = value.copy()?;
    let text = copy.text(alloc)?;
    is_word(alloc, other, text.as_str())
}

// Do elements begin with those of a pattern?
fn begins_with(alloc: Global, pattern: &[Value], elements: &[Value]) -> Result<bool, AllocError>
    ensures { IfOk result (λ begins. begins ≡ spec.begins_with pattern.now elements.now) }
{
    let mut left = pattern;
    let mut rest = elements;
    'elements: while let [first, others @ ..] = left {
        let [element, behind @ ..] = rest else {
            return Ok(false);
        };
        if !is_same(alloc, first, element)? {
            return Ok(false);
        }
        left = others;
        rest = behind;
    }
    Ok(true)
}

// Does a handler match an end? The elements are those of its error's code, where they are there.
fn matches(
    alloc: Global,
    catches: &Catches,
    completion: &Completion,
    elements: &Option<Vec<Value>>,
) -> Result<bool, AllocError>
    requires { option_map (λ v. v.items) elements.now ≡ spec.code_elements completion.now }
    ensures { IfOk result (λ is. is ≡ spec.matches (catches_of catches.now) (code_now completion.now) (spec.code_elements completion.now)) }
{
    match catches {
        Catches::On(code) => Ok(code_number(*code) == code_number(completion.code_now())),
        Catches::Trap(pattern) => match elements {
            Some(elements) => begins_with(alloc, pattern, elements),
            None => Ok(false),
        },
    }
}

// The first handler from here whose script isn't `-`.
fn running(alloc: Global, handlers: &[Handler]) -> Result<Option<&Handler>, AllocError>
    ensures { IfOk result (λ h. option_map (λ r. handler_of r.now) h ≡ spec.running (each handler_of handlers.now)) }
{
    let mut rest = handlers;
    'handlers: while let [handler, others @ ..] = rest {
        if !is_word(alloc, &handler.script, "-")? {
            return Ok(Some(handler));
        }
        rest = others;
    }
    Ok(None)
}

/// The handler that runs when a body has ended so: the first one that matches, or the one that its script stands for.
pub(crate) fn handler_for<'handlers>(
    alloc: Global,
    handlers: &'handlers [Handler],
    completion: &Completion,
) -> Result<Option<&'handlers Handler>, AllocError>
    ensures { IfOk result (λ h. option_map (λ r. handler_of r.now) h ≡ spec.handler_for (each handler_of handlers.now) completion.now) }
{
    let elements = code_elements(alloc, completion)?;
    let mut rest = handlers;
    'handlers: while let [handler, others @ ..] = rest {
        if matches(alloc, &handler.catches, completion, &elements)? {
            return running(alloc, rest);
        }
        rest = others;
    }
    Ok(None)
}
