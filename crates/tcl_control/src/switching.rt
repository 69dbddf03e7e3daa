//! Patterns and their bodies: switch(n).
ghost use Rattle.std.specs.Prelude.{◌≡◌, ◌≤◌, ◌||◌, [], false, length, drop, IfOk};
ghost use Rattle.tcl_chars.specs.Messages.{about};
ghost use Rattle.std.specs.Str.{chars};
ghost use Rattle.tcl_chars.specs.Answers.{Answers};
ghost use Rattle.tcl_chars.specs.Texts.{literal, text_of};
ghost use Rattle.tcl_steps.specs.Asked.{IsAsked};
ghost use Rattle.tcl_arguments.specs.WordAt.{word};
ghost use Rattle.tcl_steps.specs.Pairs.{pairs_in};
ghost use Rattle.tcl_control.specs.Arms.{arm_texts};
ghost use Rattle.tcl_control.specs.Switching.{checked};
ghost use Rattle.tcl_control.specs.Switching as spec;
ghost use Rattle.tcl_meaning.specs.Control as control;
ghost use Rattle.tcl_meaning.specs.Shapes as shapes;

use crate::answers::{word_at, words_behind};
use crate::arms::Arms;
use crate::conditions::body_asks;
use crate::numbers::said_of;
use crate::subject::Subject;
use std::alloc::{AllocError, Global};
use std::rc::RcStr;
use tcl_arguments::text_at;
use tcl_chars::{Fault, about, begins, is_text, message};
use tcl_steps::{Completion, Loop, Owes, Scope, Step};
use tcl_values::Value;

// Are patterns read as `string match` reads them? Or what is said of a word that is no option.
fn option(alloc: Global, word: &str) -> Result<bool, Fault>
    ensures { Answers (λ globs. globs) result (shapes.switch_option (chars word.now)) }
{
    if is_text(word, "-exact") {
        return Ok(false);
    }
    if is_text(word, "-glob") {
        return Ok(true);
    }
    let message = about(alloc, "bad option", word, ": must be -exact, -glob, or --")?;
    Err(Fault::Error(message))
}

// What the options say, and how many of the words they are.
#[tactic(auto, using(crate::proofs::SwitchOptions::options_end, crate::proofs::SwitchOptions::no_option, crate::proofs::SwitchOptions::option_read, crate::proofs::SwitchOptions::option_bad, crate::proofs::SwitchOptions::options_few))]
fn options_of(alloc: Global, words: &mut [Value]) -> Result<(bool, usize), Fault>
    ensures options { Answers (λ o. record { globs = o.0; words = drop o.1 words.old }) result (shapes.switch_words false words.old) }
    ensures within { IfOk result (λ o. o.1 ≤ length words.old) }
    ensures same { words.new ≡ words.old }
{
    let mut globs = false;
    let mut first = 0;
    'options: while words.len() - first > 2 {
        let word = text_at(alloc, words, first)?;
        if is_text(word.as_str(), "--") {
            return Ok((globs, first + 1));
        }
        if !begins('-', word.as_str()) {
            return Ok((globs, first));
        }
        globs = option(alloc, word.as_str())?;
        first += 1;
    }
    Ok((globs, first))
}

// What is wrong with patterns and bodies: one pattern has none, or the last body is `-`.
fn checked(alloc: Global, arms: Arms<'_>) -> Result<(), Fault>
    ensures { Answers (λ _. tt) result (checked (arm_texts arms.entry)) }
{
    let count = arms.len();
    let pairs = count / 2;
    if count != 2 * pairs {
        let said = message(alloc, "extra switch pattern with no body")?;
        return Err(Fault::Error(said));
    }
    if pairs == 0 {
        return Ok(());
    }
    let is_dash = arms.is(alloc, count - 1, "-")?;
    if !is_dash {
        return Ok(());
    }
    let mut pattern = arms.value(count - 2)?;
    let text = pattern.text(alloc)?;
    let said = said_of(alloc, "no body specified for pattern", text.as_str())?;
    Err(Fault::Error(said))
}

// Is the first pattern of some `default` at the end?
fn is_default(alloc: Global, arms: Arms<'_>) -> Result<bool, AllocError>
    requires { 2 ≤ length (arm_texts arms) }
    ensures { IfOk result (λ is. is ≡ shapes.is_default (word (arm_texts arms.entry) 0) (pairs_in (drop 2 (arm_texts arms.entry)))) }
{
    if arms.len() > 3 {
        return Ok(false);
    }
    arms.is(alloc, 0, "default")
}

// The first body that is none of `-`.
#[tactic(auto, using(crate::proofs::SwitchPairs::body_here, crate::proofs::SwitchPairs::body_later, crate::proofs::SwitchPairs::body_nowhere))]
fn body_from(alloc: Global, arms: Arms<'_>) -> Result<Option<Value>, AllocError>
    ensures { IfOk result (λ body. body ≡ shapes.body_from (pairs_in (arm_texts arms.entry))) }
{
    let mut rest = arms;
    'pairs: while rest.len() > 1 {
        let is_dash = rest.is(alloc, 1, "-")?;
        if !is_dash {
            let body = rest.value(1)?;
            return Ok(Some(body));
        }
        let next = rest.behind(2);
        rest = next;
    }
    Ok(None)
}

// Is the first pattern the one that is chosen?
fn is_chosen(
    alloc: Global,
    globs: bool,
    subject: &Subject<'_>,
    arms: Arms<'_>,
) -> Result<bool, AllocError>
    requires { 2 ≤ length (arm_texts arms) }
    ensures { IfOk result (λ is. is ≡ (shapes.matches globs (word (arm_texts arms.entry) 0) subject.now
        || shapes.is_default (word (arm_texts arms.entry) 0) (pairs_in (drop 2 (arm_texts arms.entry))))) }
{
    if arms.matches(alloc, 0, globs, subject)? {
        return Ok(true);
    }
    is_default(alloc, arms)
}

// The body of the first pattern that matches.
#[tactic(auto, using(crate::proofs::SwitchPairs::chosen_here, crate::proofs::SwitchPairs::chosen_later, crate::proofs::SwitchPairs::chosen_nowhere))]
fn chosen(
    alloc: Global,
    globs: bool,
    subject: &Subject<'_>,
    arms: Arms<'_>,
) -> Result<Option<Value>, AllocError>
    ensures { IfOk result (λ body. body ≡ shapes.chosen globs subject.now (pairs_in (arm_texts arms.entry))) }
{
    let mut rest = arms;
    'pairs: while rest.len() > 1 {
        let here = is_chosen(alloc, globs, subject, rest)?;
        if here {
            return body_from(alloc, rest);
        }
        let next = rest.behind(2);
        rest = next;
    }
    Ok(None)
}

// The body that is chosen among patterns with their bodies. All of them are checked first.
#[tactic(auto, using(crate::proofs::SwitchPairs::among_is, crate::proofs::SwitchPairs::among_fails))]
fn body_among(
    alloc: Global,
    globs: bool,
    subject: &Subject<'_>,
    arms: Arms<'_>,
) -> Result<Option<Value>, Fault>
    ensures { Answers (λ body. body) result (spec.body_among globs subject.now (arm_texts arms.entry)) }
{
    checked(alloc, arms)?;
    Ok(chosen(alloc, globs, subject, arms)?)
}

// What is said of too few words.
fn form(alloc: Global) -> Result<RcStr, AllocError>
    ensures { IfOk result (λ said. text_of said ≡ about (literal "wrong # args: should be") control.switch_usage []) }
{
    said_of(
        alloc,
        "wrong # args: should be",
        "switch ?-option ...? string ?pattern body ...? ?default body?",
    )
}

// The body that is chosen, behind the options. One word behind the string is the list of patterns and bodies.
#[tactic(auto, using(crate::proofs::SwitchPairs::few_behind, crate::proofs::SwitchPairs::list_behind, crate::proofs::SwitchPairs::list_bad, crate::proofs::SwitchPairs::words_behind))]
fn body_behind(
    alloc: Global,
    globs: bool,
    words: &[Value],
    first: usize,
) -> Result<Option<Value>, Fault>
    requires { first ≤ length words.now }
    ensures { Answers (λ body. body) result (spec.body_behind globs (drop first words.now)) }
{
    let count = words.len() - first;
    if count < 2 {
        let said = form(alloc)?;
        return Err(Fault::Error(said));
    }
    let subject = Subject::of(alloc, &words[first])?;
    if count == 2 {
        let mut list = word_at(words, first + 1)?;
        let row = list.row(alloc)?;
        let arms = Arms::Elements(row.items());
        return body_among(alloc, globs, &subject, arms);
    }
    let pairs = words_behind(words, first + 1);
    body_among(alloc, globs, &subject, Arms::Words(pairs))
}

// The body that is chosen.
fn switch_body(alloc: Global, words: &mut [Value]) -> Result<Option<Value>, Fault>
    ensures { Answers (λ body. body) result (spec.switch_body words.old) }
{
    let (globs, first) = options_of(alloc, words)?;
    body_behind(alloc, globs, &*words, first)
}

/// `switch ?-option ...? string ?pattern body ...? ?default body?`: the body of the first pattern that matches is run.
#[tactic(auto, using(crate::proofs::AnswerLemmas::switch_asks, crate::proofs::AnswerLemmas::switch_fails))]
pub fn switch_page(
    alloc: Global,
    words: &mut [Value],
) -> Result<Step<Scope, Owes, Loop>, AllocError>
    ensures { IsAsked result (control.switch_page words.old) }
{
    match switch_body(alloc, words) {
        Ok(body) => body_asks(alloc, body),
        Err(Fault::Error(message)) => Ok(Step::Done(Completion::failure(alloc, message))),
        Err(Fault::Memory) => Err(AllocError),
    }
}
