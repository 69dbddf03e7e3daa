//! `switch`, inlined: a word's text is compared with the patterns of a literal list.

ghost use Rattle.std.specs.Prelude.{◌≡◌, ◌-◌, ◌<◌, ◌≤◌, ◌++◌, false, true, IfOk, IfSome, OnOk, length, map};
ghost use Rattle.std.specs.Str.{chars};
ghost use Rattle.tcl_list.specs.Texts.{text_of};
ghost use Rattle.tcl_words.specs.First.{most_levels};
ghost use Rattle.tcl_words.specs.Parts.{shape_of};
ghost use Rattle.tcl_meaning.specs.Nesting.{WordsNest};
ghost use Rattle.tcl_compile.specs.Emitted.{CommandCode};
ghost use Rattle.tcl_compile.specs.Fragments.{Grown};
ghost use Rattle.tcl_compile.specs.Switches.{ArmCode, ArmsCode, AreArms, IsArmList, IsMarked, IsSwitch, called_by, is_last_default, most_arm_texts, testing};
ghost use Rattle.tcl_compile.specs.Within.{ArgumentsAreShort, TextsAreShort, WordsWithin};

use crate::context::Context;
use crate::literals::{Literal, is_stretch, literal_of};
use crate::pages::{emit_body, emit_nothing};
use crate::script::emit_word;
use crate::skips::lead_here;
use std::alloc::{AllocError, Global};
use std::rc::RcStr;
use tcl_chars::{Fault, is_text};
use tcl_code::{CodeBuilder, Inlined, Instr};
use tcl_expr::BinaryOp;
use tcl_list::split;
use tcl_words::Word;

/// A `switch` of a literal list.
#[derive(Drop)]
pub(crate) struct SwitchForm<'a> {
    /// Does `--` stand in front of the word?
    pub(crate) marked: bool,
    /// The list of patterns and bodies.
    pub(crate) list: Literal<'a>,
    /// Its elements: patterns, each with its body behind it.
    pub(crate) arms: Vec<RcStr>,
}

// A `switch` of a longer list is called.
const MOST_ARM_TEXTS: usize = 128;

// Are these patterns, each with a body behind it that isn't `-`?
fn are_arms(texts: &[RcStr]) -> bool
    ensures { result ≡ true → AreArms (map text_of texts.now) }
{
    let mut rest = texts;
    'arms: while rest.len() > 1 {
        if is_text(rest[1].as_str(), "-") {
            return false;
        }
        rest = &rest[2..];
    }
    rest.is_empty()
}

// The elements of a list of patterns and bodies.
fn arms_of(alloc: Global, list: &str) -> Result<Option<Vec<RcStr>>, AllocError>
    ensures { IfOk result (λ arms. IfSome arms (λ a. IsArmList (chars list.now) (map text_of a.items))) }
{
    let arms = match split(alloc, list) {
        Ok(arms) => arms,
        Err(Fault::Error(_)) => return Ok(None),
        Err(Fault::Memory) => return Err(AllocError),
    };
    if arms.len() > MOST_ARM_TEXTS || !are_arms(arms.as_slice()) {
        return Ok(None);
    }
    Ok(Some(arms))
}

// Are these the words of a `switch` of one word and a list?
fn is_bare_switch(words: &[Word<'_>]) -> bool
    ensures { result ≡ true → IsMarked false (map shape_of words.now) }
{
    words.len() == 3 && !words[1].expands && is_stretch(&words[0], "switch")
}

// And with `--` in front of these?
fn is_marked_switch(words: &[Word<'_>]) -> bool
    ensures { result ≡ true → IsMarked true (map shape_of words.now) }
{
    if words.len() != 4 {
        return false;
    }
    if words[2].expands || !is_stretch(&words[0], "switch") {
        return false;
    }
    is_stretch(&words[1], "--")
}

// Does `--` stand in front of the word of a `switch`?
fn mark_of(words: &[Word<'_>]) -> Option<bool>
    ensures { IfSome result (λ marked. IsMarked marked (map shape_of words.now)) }
{
    if is_bare_switch(words) {
        Some(false)
    } else if is_marked_switch(words) {
        Some(true)
    } else {
        None
    }
}

// A `switch` that is inlined.
pub(crate) fn switch_of<'a>(
    context: Context,
    words: &[Word<'a>],
) -> Result<Option<SwitchForm<'a>>, AllocError>
    ensures { IfOk result (λ form. IfSome form (λ f. IsSwitch f (map shape_of words.now))) }
{
    if words.is_empty() || !context.inlines() {
        return Ok(None);
    }
    let Some(marked) = mark_of(words) else {
        return Ok(None);
    };
    let Some(list) = literal_of(context.alloc, &words[words.len() - 1])? else {
        return Ok(None);
    };
    match arms_of(context.alloc, list.as_str())? {
        Some(arms) => Ok(Some(SwitchForm { marked, list, arms })),
        None => Ok(None),
    }
}

// The general call, where the text of the word is on top.
fn emit_general(code: &mut CodeBuilder, marked: bool, list: &str) -> Result<(), AllocError>
    ensures { OnOk result (code.new ≡ code.old ++ called_by marked (chars list.now)) }
{
    code.under(Inlined::Switch.name())?;
    if marked {
        code.under("--")?;
        code.push(list)?;
        return code.emit(Instr::Call(4));
    }
    code.push(list)?;
    code.emit(Instr::Call(3))
}

// Whether the text on top is this pattern.
fn emit_test(code: &mut CodeBuilder, pattern: &str) -> Result<(), AllocError>
    ensures { OnOk result (code.new ≡ code.old ++ testing (chars pattern.now)) }
{
    code.emit(Instr::Duplicate)?;
    code.push(pattern)?;
    code.emit(Instr::Binary(BinaryOp::TextEqual))
}

// Is the first arm the last, and its pattern `default`?
fn is_default(arms: &[RcStr]) -> bool
    ensures { result ≡ is_last_default (map text_of arms.now) }
{
    arms.len() == 2 && is_text(arms[0].as_str(), "default")
}

// The text on top is dropped, and a body is run, whose completion is the command's.
#[cycle(emitting)]
fn emit_arm(code: &mut CodeBuilder, context: Context, body: &str) -> Result<(), AllocError>
    ensures { OnOk result (Grown (ArmCode context.dialect (chars body.now)) code.old code.new) }
{
    code.emit(Instr::Answer)?;
    emit_body(code, context, body)
}

// The arms from one on, where the text that is compared is on top.
#[cycle(emitting)]
fn emit_arms(
    code: &mut CodeBuilder,
    context: Context,
    whole: &str,
    arms: &[RcStr],
) -> Result<(), AllocError>
    requires some { 0 < length (chars whole.now) }
    requires few { length arms.now ≤ most_arm_texts }
    requires arms { AreArms (map text_of arms.now) }
    requires short { TextsAreShort (length (chars whole.now) - 1) (map text_of arms.now) }
    ensures { OnOk result (Grown (ArmsCode context.dialect (map text_of arms.now)) code.old code.new) }
{
    if arms.len() < 2 {
        code.emit(Instr::Answer)?;
        return emit_nothing(code);
    }
    if is_default(arms) {
        return emit_arm(code, context, arms[1].as_str());
    }
    emit_test(code, arms[0].as_str())?;
    let unless = code.len();
    code.emit(Instr::SkipWhen(false, 0))?;
    emit_arm(code, context, arms[1].as_str())?;
    let past = code.len();
    code.emit(Instr::Skip(0))?;
    lead_here(code, unless)?;
    emit_arms(code, context, whole, &arms[2..])?;
    lead_here(code, past)
}

// A `switch`: the word, a guard, the arms, and the general call beside them.
#[cycle(emitting)]
pub(crate) fn emit_switch(
    code: &mut CodeBuilder,
    context: Context,
    whole: &str,
    form: &SwitchForm<'_>,
    words: &[Word<'_>],
) -> Result<(), AllocError>
    requires form { IsSwitch form.now (map shape_of words.now) }
    requires some { 0 < length (chars whole.now) }
    requires nests { WordsNest most_levels (map shape_of words.now) }
    requires within { WordsWithin (length (chars whole.now) - 1) (map shape_of words.now) }
    requires short { ArgumentsAreShort (length (chars whole.now) - 1) (map shape_of words.now) }
    ensures { OnOk result (Grown (CommandCode context.dialect (map shape_of words.now)) code.old code.new) }
{
    emit_word(code, context, whole, &words[words.len() - 2])?;
    let guard = code.len();
    code.emit(Instr::Guard(Inlined::Switch, 0))?;
    emit_arms(code, context, whole, form.arms.as_slice())?;
    let past = code.len();
    code.emit(Instr::Skip(0))?;
    lead_here(code, guard)?;
    emit_general(code, form.marked, form.list.as_str())?;
    lead_here(code, past)
}
