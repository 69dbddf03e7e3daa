//! The options of return(n), and how it ends.
ghost use Rattle.std.specs.Prelude.{◌≡◌, ◌<◌, ◌++◌, ◌∷◌, [], length, IfOk, OnOk};
ghost use Rattle.std.specs.Str.{chars};
ghost use Rattle.tcl_chars.specs.Answers.{Answers};
ghost use Rattle.tcl_chars.specs.Messages.{whole_or};
ghost use Rattle.tcl_chars.specs.Texts.{literal, text_of};
ghost use Rattle.tcl_chars.specs.Whole.{whole_of};
ghost use Rattle.tcl_steps.specs.Asked.{IsAsked};
ghost use Rattle.tcl_control.specs.Returning.{joined, Joins};
ghost use Rattle.tcl_control.specs.Returning as spec;
ghost use Rattle.tcl_meaning.specs.CodePages.{return_page};
ghost use Rattle.tcl_meaning.specs.Codes as codes;
ghost use Rattle.tcl_meaning.specs.Completions.{code_of};
ghost use Rattle.tcl_pages.specs.Dictionaries.{pairs_of};
ghost use Rattle.tcl_pages.specs.DictPages.{value_at};

use crate::answers::{word_at, words_behind};
use crate::numbers::{said_of, whole_or};
use std::alloc::{AllocError, Global};
use std::collections::VecDeque;
use std::rc::RcStr;
use tcl_chars::{Dialect, Fault, is_text, message};
use tcl_meaning::Code;
use tcl_steps::{Completion, Loop, Owes, Scope, Step, is_word};
use tcl_values::{Dictionary, Value};

// The options that words are: keys and values in turn, in front of the result.
#[tactic(auto, using(crate::proofs::ReturnWords::options_more, crate::proofs::ReturnWords::options_end))]
fn options_given(alloc: Global, words: &[Value]) -> Result<VecDeque<(Value, Value)>, AllocError>
    ensures { IfOk result (λ options. options.items ≡ (codes.return_shape words.now).options) }
{
    let mut options = VecDeque::new(alloc);
    let mut rest = words;
    'pairs: while rest.len() > 1 {
        let key = word_at(rest, 0)?;
        let value = word_at(rest, 1)?;
        options.push_back((key, value))?;
        let next = words_behind(rest, 2);
        rest = next;
    }
    Ok(options)
}

// The result behind the options, or nothing.
fn result_given(alloc: Global, words: &[Value]) -> Result<Value, AllocError>
    ensures { IfOk result (λ value. value ≡ (codes.return_shape words.now).result) }
{
    let options = words.len() / 2;
    if words.len() == 2 * options {
        return Value::of_str(alloc, "");
    }
    word_at(words, 2 * options)
}

// The pair at a place.
fn pair_at(pairs: &Dictionary, place: usize) -> Result<(Value, Value), AllocError>
    requires { place < length pairs.now }
    ensures { IfOk result (λ pair. pair ≡ spec.pair_at pairs.now place) }
{
    let keys = pairs.keys();
    let values = pairs.values();
    Ok((keys[place].value()?, values[place].copy()?))
}

// Pairs come in front of options.
#[tactic(auto, using(crate::proofs::ReturnWords::front_more, crate::proofs::ReturnWords::front_none, crate::proofs::ReturnWords::front_all))]
fn put_in_front(options: &mut VecDeque<(Value, Value)>, more: &Dictionary) -> Result<(), AllocError>
    ensures { OnOk result (options.new.items ≡ more.now ++ options.old.items) }
{
    let mut left = more.len();
    'pairs: while left > 0 {
        left -= 1;
        let pair = pair_at(more, left)?;
        options.push_front(pair)?;
    }
    Ok(())
}

// The pairs of an `-options`, or what is said of a text that is no dictionary.
fn inner_options(alloc: Global, mut value: Value) -> Result<Dictionary, Fault>
    ensures { Answers (λ d. d) result (codes.else_message (codes.no_options value) (pairs_of value)) }
{
    match value.dictionary(alloc) {
        Ok(pairs) => Ok(pairs),
        Err(Fault::Memory) => Err(Fault::Memory),
        Err(Fault::Error(_)) => {
            let text = value.text(alloc)?;
            let said = said_of(
                alloc,
                "bad -options value: expected dictionary but got",
                text.as_str(),
            )?;
            Err(Fault::Error(said))
        }
    }
}

// An option comes to those found; the pairs of an `-options` come next instead.
#[tactic(auto, using(crate::proofs::OptionJoins::joined_put, crate::proofs::OptionJoins::joined_more, crate::proofs::OptionJoins::joined_fails, crate::proofs::OptionJoins::size_more))]
fn with_option(
    alloc: Global,
    found: Dictionary,
    options: &mut VecDeque<(Value, Value)>,
    key: Value,
    value: Value,
) -> Result<Dictionary, Fault>
    ensures joined { Joins result options.new.items (joined found ((key, value) ∷ options.old.items)) }
    ensures less { OnOk result (codes.size_of options.new.items < codes.size_of ((key, value) ∷ options.old.items)) }
{
    let name = key.key(alloc)?;
    if !is_text(name.as_str(), "-options") {
        return Ok(found.with(alloc, name, value)?);
    }
    let more = inner_options(alloc, value)?;
    put_in_front(options, &more)?;
    Ok(found)
}

// All options in their places.
fn all_options(alloc: Global, mut options: VecDeque<(Value, Value)>) -> Result<Dictionary, Fault>
    ensures { Answers (λ d. d) result (codes.all_options options.items) }
{
    let mut found = Dictionary::new(alloc)?;
    'options: while let Some((key, value)) = options.pop_front() {
        found = with_option(alloc, found, &mut options, key, value)?;
    }
    Ok(found)
}

// A pair comes to those that are kept, unless its key is `-code` or `-level`.
fn keep(
    alloc: Global,
    options: &mut Vec<(Value, Value)>,
    key: Value,
    value: Value,
) -> Result<(), AllocError>
    ensures { OnOk result (options.new.items ≡ options.old.items ++ codes.kept ((key, value) ∷ [])) }
{
    let is_code = is_word(alloc, &key, "-code")?;
    if is_code {
        return Ok(());
    }
    let is_level = is_word(alloc, &key, "-level")?;
    if is_level {
        return Ok(());
    }
    options.push((key, value))?;
    Ok(())
}

// The pairs that are kept: those of other keys than `-code` and `-level`.
#[tactic(auto, using(crate::proofs::ReturnWords::kept_more, crate::proofs::ReturnWords::kept_end))]
fn kept(alloc: Global, all: &Dictionary) -> Result<Vec<(Value, Value)>, AllocError>
    ensures { IfOk result (λ options. options.items ≡ codes.kept all.now) }
{
    let mut options = Vec::new(alloc);
    for place in 0..all.len() {
        let (key, value) = pair_at(all, place)?;
        keep(alloc, &mut options, key, value)?;
    }
    Ok(options)
}

// The code of a number.
fn code_of(number: i64) -> Code
    ensures { result ≡ code_of number }
{
    match number {
        0 => Code::Ok,
        1 => Code::Error,
        2 => Code::Return,
        3 => Code::Break,
        4 => Code::Continue,
        _ => Code::Other(number),
    }
}

// The code that a name says.
fn code_named(name: &str) -> Option<Code>
    ensures { result ≡ spec.code_named (chars name.now) }
{
    if is_text(name, "ok") {
        return Some(Code::Ok);
    }
    if is_text(name, "error") {
        return Some(Code::Error);
    }
    if is_text(name, "return") {
        return Some(Code::Return);
    }
    if is_text(name, "break") {
        return Some(Code::Break);
    }
    if is_text(name, "continue") {
        return Some(Code::Continue);
    }
    None
}

/// The code that a word says, by its name or its number.
#[tactic(auto, using(crate::proofs::ReturnWords::word_named, crate::proofs::ReturnWords::word_numbered))]
pub(crate) fn code_word(alloc: Global, dialect: Dialect, word: &mut Value) -> Result<Code, Fault>
    ensures { Answers (λ code. code) result (codes.code_word dialect word.old) }
{
    let name = word.text(alloc)?;
    if let Some(code) = code_named(name.as_str()) {
        return Ok(code);
    }
    let number = whole_or(
        alloc,
        dialect,
        word,
        "bad completion code",
        ": must be ok, error, return, break, continue, or an integer",
    )?;
    Ok(code_of(number))
}

// The code of the options.
fn code_given(alloc: Global, dialect: Dialect, all: &Dictionary) -> Result<Code, Fault>
    ensures { Answers (λ code. code) result (codes.code_option dialect (value_at (literal "-code") all.now)) }
{
    match all.find("-code") {
        Some(word) => {
            let mut word = word.copy()?;
            code_word(alloc, dialect, &mut word)
        }
        None => Ok(Code::Ok),
    }
}

// What is said of a word that is no level.
fn bad_level(alloc: Global, word: &str) -> Result<RcStr, AllocError>
    ensures { IfOk result (λ said. text_of said ≡ codes.bad_return_level (chars word.now)) }
{
    said_of(
        alloc,
        "bad -level value: expected non-negative integer but got",
        word,
    )
}

// The level that a number is.
fn level_within(alloc: Global, word: &str, number: i64) -> Result<u32, Fault>
    ensures { Answers (λ level. level) result (codes.level_within (chars word.now) number) }
{
    if number < 0 {
        return Err(Fault::Error(bad_level(alloc, word)?));
    }
    if number > 2147483647 {
        return Err(Fault::Error(bad_level(alloc, word)?));
    }
    Ok(number as u32)
}

// The number that is to be a level.
fn level_number(alloc: Global, dialect: Dialect, word: &mut Value) -> Result<i64, Fault>
    ensures number { Answers (λ z. z) result (whole_or (codes.bad_return_level word.old) (whole_of dialect word.old)) }
    ensures same { word.new ≡ word.old }
{
    whole_or(
        alloc,
        dialect,
        word,
        "bad -level value: expected non-negative integer but got",
        "",
    )
}

// The level that a word says.
fn level_word(alloc: Global, dialect: Dialect, word: &mut Value) -> Result<u32, Fault>
    ensures { Answers (λ level. level) result (codes.level_option dialect (Some word.old)) }
{
    let number = level_number(alloc, dialect, word)?;
    let text = word.text(alloc)?;
    level_within(alloc, text.as_str(), number)
}

// The level of the options.
fn level_given(alloc: Global, dialect: Dialect, all: &Dictionary) -> Result<u32, Fault>
    ensures { Answers (λ level. level) result (codes.level_option dialect (value_at (literal "-level") all.now)) }
{
    match all.find("-level") {
        Some(word) => {
            let mut word = word.copy()?;
            level_word(alloc, dialect, &mut word)
        }
        None => Ok(1),
    }
}

// How a `return` ends that has options.
#[tactic(auto, using(crate::proofs::ReturnWords::options_fail, crate::proofs::ReturnWords::code_fails, crate::proofs::ReturnWords::level_fails, crate::proofs::ReturnWords::return_is))]
fn with_options(alloc: Global, dialect: Dialect, words: &[Value]) -> Result<Completion, Fault>
    ensures { Answers (λ c. c) result (codes.return_of dialect (codes.return_shape words.now)) }
{
    let options = options_given(alloc, words)?;
    let all = all_options(alloc, options)?;
    let code = code_given(alloc, dialect, &all)?;
    let level = level_given(alloc, dialect, &all)?;
    let value = result_given(alloc, words)?;
    let kept = kept(alloc, &all)?;
    Ok(Completion::returned(alloc, code, level, value, kept)?)
}

// How a `return` ends.
#[tactic(auto, using(crate::proofs::ReturnWords::plain_return))]
fn returned(alloc: Global, dialect: Dialect, words: &[Value]) -> Result<Completion, Fault>
    ensures { Answers (λ c. c) result (codes.return_of dialect (codes.return_shape words.now)) }
{
    if words.len() > 1 {
        return with_options(alloc, dialect, words);
    }
    let value = result_given(alloc, words)?;
    Ok(Completion::returned(alloc, Code::Ok, 1, value, Vec::new(alloc))?)
}

/// `return ?-option value ...? ?result?`: the end that a code has which waits for the end of procedures.
#[tactic(auto, using(crate::proofs::AnswerLemmas::return_ends, crate::proofs::AnswerLemmas::return_fails))]
pub fn return_page(
    alloc: Global,
    dialect: Dialect,
    words: &[Value],
) -> Result<Step<Scope, Owes, Loop>, AllocError>
    ensures { IsAsked result (return_page dialect words.now) }
{
    match returned(alloc, dialect, words) {
        Ok(completion) => Ok(Step::Done(completion)),
        Err(Fault::Error(message)) => Ok(Step::Done(Completion::failure(alloc, message))),
        Err(Fault::Memory) => Err(AllocError),
    }
}
