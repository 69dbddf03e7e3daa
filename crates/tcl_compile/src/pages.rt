//! The code of inlined commands, where their names stand for their pages.

ghost use Rattle.std.specs.Prelude.{◌≡◌, ◌-◌, ◌<◌, ◌≤◌, ◌++◌, ◌∷◌, [], OnOk, length, map, option_map};
ghost use Rattle.std.specs.Str.{chars};
ghost use Rattle.tcl_code.specs.Instructions.{Answer, Push, Turn};
ghost use Rattle.tcl_compile.specs.Forms.{BodiedCode, BodyCode, body_end, ClausesAreShort, ClausesCode, ForCode, FormIsShort, LoopMade, OtherwiseIsShort, PageCode, TurnCode, clause_of, most_clauses};
ghost use Rattle.tcl_compile.specs.Fragments.{Grown};

use crate::context::Context;
use crate::inlining::{Clause, ForTexts, Form};
use crate::script::emit_script;
use crate::skips::lead_here;
use crate::tree::emit_expression;
use std::alloc::AllocError;
use tcl_code::{CodeBuilder, Instr};

// The instructions of a form. Its texts are shorter than the text that the command stands in.
#[cycle(emitting)]
pub(crate) fn emit_page(
    code: &mut CodeBuilder,
    context: Context,
    whole: &str,
    form: &Form<'_>,
) -> Result<(), AllocError>
    requires some { 0 < length (chars whole.now) }
    requires short { FormIsShort (length (chars whole.now) - 1) form.now }
    ensures { OnOk result (Grown (PageCode context.dialect form.now) code.old code.new) }
{
    match form {
        Form::Break => code.emit(Instr::Break),
        Form::Continue => code.emit(Instr::Continue),
        Form::Increment(name) => {
            code.push("1")?;
            code.bump(*name)
        }
        Form::Expr(text) => {
            emit_expression(code, context, *text)?;
            code.emit(Instr::Answer)
        }
        Form::If(clauses, otherwise) => emit_clauses(code, context, whole, clauses, otherwise),
        Form::While(test, body) => emit_loop(code, context, whole, *test, None, *body),
        Form::For(texts) => emit_for(code, context, whole, texts),
    }
}

// An empty result.
pub(crate) fn emit_nothing(code: &mut CodeBuilder) -> Result<(), AllocError>
    ensures { OnOk result (code.new ≡ code.old ++ Push [] ∷ Answer ∷ []) }
{
    code.push("")?;
    code.emit(Instr::Answer)
}

// A body, whose completion is that of its command.
#[cycle(emitting)]
pub(crate) fn emit_body(
    code: &mut CodeBuilder,
    context: Context,
    text: &str,
) -> Result<(), AllocError>
    ensures { OnOk result (Grown (BodyCode context.dialect (chars text.now)) code.old code.new) }
{
    code.emit(Instr::Enter)?;
    emit_script(code, context.within(), text)?;
    code.emit(Instr::Become)
}

// The clauses of an `if` from one on, and what is run if none of them holds.
#[cycle(emitting)]
fn emit_clauses(
    code: &mut CodeBuilder,
    context: Context,
    whole: &str,
    clauses: &[Clause<'_>],
    otherwise: &Option<&str>,
) -> Result<(), AllocError>
    requires some { 0 < length (chars whole.now) }
    requires few { length clauses.now ≤ most_clauses }
    requires short { ClausesAreShort (length (chars whole.now) - 1) (map clause_of clauses.now) }
    requires last { OtherwiseIsShort (length (chars whole.now) - 1) (option_map (λ t. chars t.now) otherwise.now) }
    ensures { OnOk result (Grown (ClausesCode context.dialect (map clause_of clauses.now) (option_map (λ t. chars t.now) otherwise.now)) code.old code.new) }
{
    if clauses.is_empty() {
        return match otherwise {
            Some(body) => emit_body(code, context, *body),
            None => emit_nothing(code),
        };
    }
    let clause = clauses[0];
    emit_expression(code, context, clause.test)?;
    let unless = code.len();
    code.emit(Instr::SkipWhen(false, 0))?;
    emit_body(code, context, clause.body)?;
    let past = code.len();
    code.emit(Instr::Skip(0))?;
    lead_here(code, unless)?;
    emit_clauses(code, context, whole, &clauses[1..], otherwise)?;
    lead_here(code, past)
}

// Emits a turn back over `count` instructions.
pub(crate) fn emit_turn(code: &mut CodeBuilder, count: usize) -> Result<(), AllocError>
    ensures { OnOk result (code.new ≡ code.old ++ Turn count ∷ []) }
{
    let count = u32::try_from(count).map_err(|_| AllocError)?;
    code.emit(Instr::Turn(count))
}

// The end of a loop's body, whose result may be gathered.
fn emit_body_end(code: &mut CodeBuilder, gathers: bool) -> Result<(), AllocError>
    ensures { OnOk result (code.new ≡ code.old ++ body_end gathers ∷ []) }
{
    if gathers {
        code.emit(Instr::Collect)
    } else {
        code.emit(Instr::Again)
    }
}

// A body in a loop of the code.
#[cycle(emitting)]
pub(crate) fn emit_looped(
    code: &mut CodeBuilder,
    context: Context,
    passes: bool,
    gathers: bool,
    text: &str,
) -> Result<(), AllocError>
    ensures { OnOk result (Grown (BodiedCode context.dialect passes gathers (chars text.now)) code.old code.new) }
{
    let begin = code.len();
    code.emit(Instr::Body(passes, 0))?;
    emit_script(code, context.within(), text)?;
    emit_body_end(code, gathers)?;
    lead_here(code, begin)
}

// A turn: the body, and what a `for` runs behind it, past which a `break` in the body leads.
#[cycle(emitting)]
fn emit_bodies(
    code: &mut CodeBuilder,
    context: Context,
    whole: &str,
    next: Option<&str>,
    body: &str,
) -> Result<(), AllocError>
    requires some { 0 < length (chars whole.now) }
    requires next { OtherwiseIsShort (length (chars whole.now) - 1) (option_map (λ t. chars t.now) next) }
    requires body { length (chars body.now) ≤ length (chars whole.now) - 1 }
    ensures { OnOk result (Grown (TurnCode context.dialect (option_map (λ t. chars t.now) next.entry) (chars body.now)) code.old code.new) }
{
    emit_looped(code, context, false, false, body)?;
    match next {
        None => Ok(()),
        Some(next) => {
            let past = code.len();
            code.emit(Instr::Skip(0))?;
            emit_looped(code, context, true, false, next)?;
            lead_here(code, past)
        }
    }
}

// A `while`, or a `for` from its first condition on: to the condition; a turn, and behind it the way out of a `break`; the condition, and
// back to the turn.
#[cycle(emitting)]
fn emit_loop(
    code: &mut CodeBuilder,
    context: Context,
    whole: &str,
    test: &str,
    next: Option<&str>,
    body: &str,
) -> Result<(), AllocError>
    requires some { 0 < length (chars whole.now) }
    requires test { length (chars test.now) ≤ length (chars whole.now) - 1 }
    requires next { OtherwiseIsShort (length (chars whole.now) - 1) (option_map (λ t. chars t.now) next) }
    requires body { length (chars body.now) ≤ length (chars whole.now) - 1 }
    ensures { OnOk result (Grown (LoopMade context.dialect (option_map (λ t. chars t.now) next.entry) (chars test.now) (chars body.now)) code.old code.new) }
{
    let to_test = code.len();
    code.emit(Instr::Skip(0))?;
    let begin = code.len();
    emit_bodies(code, context, whole, next, body)?;
    let out = code.len();
    code.emit(Instr::Skip(0))?;
    lead_here(code, to_test)?;
    emit_expression(code, context, test)?;
    code.emit(Instr::SkipWhen(false, 1))?;
    let turn = code.len() - begin;
    emit_turn(code, turn)?;
    lead_here(code, out)?;
    emit_nothing(code)
}

// A `for`.
#[cycle(emitting)]
fn emit_for(
    code: &mut CodeBuilder,
    context: Context,
    whole: &str,
    texts: &ForTexts<'_>,
) -> Result<(), AllocError>
    requires some { 0 < length (chars whole.now) }
    requires start { length (chars texts.now.start.now) ≤ length (chars whole.now) - 1 }
    requires test { length (chars texts.now.test.now) ≤ length (chars whole.now) - 1 }
    requires next { length (chars texts.now.next.now) ≤ length (chars whole.now) - 1 }
    requires body { length (chars texts.now.body.now) ≤ length (chars whole.now) - 1 }
    ensures { OnOk result (Grown (ForCode context.dialect texts.now) code.old code.new) }
{
    emit_body(code, context, texts.start)?;
    emit_loop(
        code,
        context,
        whole,
        texts.test,
        Some(texts.next),
        texts.body,
    )
}
