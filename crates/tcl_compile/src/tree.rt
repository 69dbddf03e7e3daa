//! The code of an expression's tree, emitted from left to right.

ghost use Rattle.std.specs.Prelude.{◌≡◌, ◌+◌, ◌-◌, ◌<◌, ◌++◌, ◌∷◌, [], List, OnOk, length, map, None, Some};
ghost use Rattle.std.specs.Str.{chars};
ghost use Rattle.tcl_expr.specs.Expr.{operand};
ghost use Rattle.tcl_expr.specs.Machine.{args_of, rest_of};
ghost use Rattle.tcl_expr.specs.Texts.{fault_text};
ghost use Rattle.tcl_expr.specs.View.{fault_view, leaf_of, step_of, view};
ghost use Rattle.tcl_code.specs.Instructions.{Apply, Push, Raise};
ghost use Rattle.tcl_pages.specs.Results.{truth_text};
ghost use Rattle.tcl_compile.specs.Fragments.{Grown};
ghost use Rattle.tcl_compile.specs.Trees.{ArgsAreRead, ArgsLeft, ExpressionCode, LeafIsRead, RestCode, RestIsRead, StepCode, TreeCode, TreeIsRead, decided_by};

use crate::context::Context;
use crate::script::emit_word;
use crate::skips::lead_here;
use std::alloc::{AllocError, Global};
use tcl_code::{CodeBuilder, Instr};
use tcl_expr::{BinaryOp, ExprSyntax, Function, Leaf, Tree, parse_expr};

// The value of an expression. A fault that it has is raised before anything is evaluated.
#[cycle(emitting)]
pub(crate) fn emit_expression(
    code: &mut CodeBuilder,
    context: Context,
    text: &str,
) -> Result<(), AllocError>
    ensures { OnOk result (Grown (ExpressionCode context.dialect (chars text.now)) code.old code.new) }
{
    match parse_expr(context.alloc, text, context.dialect)? {
        Ok(tree) => {
            emit_tree(code, context, text, &tree)?;
            code.emit(Instr::Final)
        }
        Err(fault) => emit_fault(code, context.alloc, &fault),
    }
}

// A fault of an expression.
fn emit_fault(
    code: &mut CodeBuilder,
    alloc: Global,
    fault: &ExprSyntax<'_>,
) -> Result<(), AllocError>
    ensures { OnOk result (code.new ≡ code.old ++ Raise (fault_text (fault_view fault.now)) ∷ []) }
{
    let message = fault.message(alloc)?;
    code.raise(message.as_str())
}

// The value of a tree of a text.
#[cycle(emitting)]
fn emit_tree(
    code: &mut CodeBuilder,
    context: Context,
    whole: &str,
    tree: &Tree<'_>,
) -> Result<(), AllocError>
    requires some { 0 < length (chars whole.now) }
    requires read { TreeIsRead (length (chars whole.now) - 1) (view tree.now) }
    ensures { OnOk result (Grown (TreeCode context.dialect (view tree.now)) code.old code.new) }
{
    match tree {
        Tree::Operand(leaf) => emit_leaf(code, context, whole, leaf),
        Tree::Group(inner) => emit_tree(code, context, whole, inner),
        Tree::Call(function, _, arguments) => {
            emit_call(code, context, whole, *function, arguments)
        }
        Tree::Unary(op, inner) => {
            emit_tree(code, context, whole, inner)?;
            code.emit(Instr::Unary(*op))
        }
        Tree::Power(base, exponent) => {
            emit_tree(code, context, whole, base)?;
            emit_tree(code, context, whole, exponent)?;
            code.emit(Instr::Power)
        }
        Tree::Chain(_, first, rest) => {
            emit_tree(code, context, whole, first)?;
            emit_rest(code, context, whole, rest)
        }
        Tree::Choice(condition, yes, no) => {
            emit_tree(code, context, whole, condition)?;
            let unless = code.len();
            code.emit(Instr::SkipWhen(false, 0))?;
            emit_tree(code, context, whole, yes)?;
            let past = code.len();
            code.emit(Instr::Skip(0))?;
            lead_here(code, unless)?;
            emit_tree(code, context, whole, no)?;
            lead_here(code, past)
        }
    }
}

// An operand.
#[cycle(emitting)]
fn emit_leaf(
    code: &mut CodeBuilder,
    context: Context,
    whole: &str,
    leaf: &Leaf<'_>,
) -> Result<(), AllocError>
    requires some { 0 < length (chars whole.now) }
    requires read { LeafIsRead (length (chars whole.now) - 1) (leaf_of leaf.now) }
    ensures { OnOk result (Grown (TreeCode context.dialect (operand (leaf_of leaf.now))) code.old code.new) }
{
    match leaf {
        Leaf::Literal(span) => code.push(span.text),
        Leaf::Word(word) => emit_word(code, context, whole, word),
    }
}

// The arguments of a function, and the function.
#[cycle(emitting)]
fn emit_call(
    code: &mut CodeBuilder,
    context: Context,
    whole: &str,
    function: Function,
    arguments: &[Tree<'_>],
) -> Result<(), AllocError>
    requires some { 0 < length (chars whole.now) }
    requires read { ArgsAreRead (length (chars whole.now) - 1) (args_of (map view arguments.now)) }
    ensures { OnOk result (Grown (ArgsLeft context.dialect function (length arguments.now) (args_of (map view arguments.now))) code.old code.new) }
{
    'arguments: for argument in arguments {
        emit_tree(code, context, whole, argument)?;
    }
    emit_apply(code, function, arguments.len())
}

// Emits a function of `count` texts.
fn emit_apply(code: &mut CodeBuilder, function: Function, count: usize) -> Result<(), AllocError>
    ensures { OnOk result (code.new ≡ code.old ++ Apply function count ∷ []) }
{
    let count = u32::try_from(count).map_err(|_| AllocError)?;
    code.emit(Instr::Apply(function, count))
}

// Operators of one level with their right operands, where the text of the first left one is there.
#[cycle(emitting)]
fn emit_rest(
    code: &mut CodeBuilder,
    context: Context,
    whole: &str,
    rest: &[(BinaryOp, Tree<'_>)],
) -> Result<(), AllocError>
    requires some { 0 < length (chars whole.now) }
    requires read { RestIsRead (length (chars whole.now) - 1) (rest_of (map step_of rest.now)) }
    ensures { OnOk result (Grown (RestCode context.dialect (rest_of (map step_of rest.now))) code.old code.new) }
{
    'parts: for part in rest {
        emit_step(code, context, whole, part.0, &part.1)?;
    }
    Ok(())
}

// An operator and its right operand, where the text of the left one is there.
#[cycle(emitting)]
fn emit_step(
    code: &mut CodeBuilder,
    context: Context,
    whole: &str,
    op: BinaryOp,
    right: &Tree<'_>,
) -> Result<(), AllocError>
    requires some { 0 < length (chars whole.now) }
    requires read { TreeIsRead (length (chars whole.now) - 1) (view right.now) }
    ensures { OnOk result (Grown (StepCode context.dialect op (view right.now)) code.old code.new) }
{
    match decided_at(op) {
        None => emit_eager(code, context, whole, op, right),
        Some(decided) => emit_lazy(code, context, whole, op, decided, right),
    }
}

// The truth value of a left operand by which an operator is decided.
fn decided_at(op: BinaryOp) -> Option<bool>
    ensures { result ≡ decided_by op }
{
    match op {
        BinaryOp::And => Some(false),
        BinaryOp::Or => Some(true),
        _ => None,
    }
}

// An operator that takes both texts, with its right operand.
#[cycle(emitting)]
fn emit_eager(
    code: &mut CodeBuilder,
    context: Context,
    whole: &str,
    op: BinaryOp,
    right: &Tree<'_>,
) -> Result<(), AllocError>
    requires some { 0 < length (chars whole.now) }
    requires read { TreeIsRead (length (chars whole.now) - 1) (view right.now) }
    requires both { decided_by op ≡ None }
    ensures { OnOk result (Grown (StepCode context.dialect op (view right.now)) code.old code.new) }
{
    emit_tree(code, context, whole, right)?;
    code.emit(Instr::Binary(op))
}

// An operator that may be decided by its left operand, with its right one.
#[cycle(emitting)]
fn emit_lazy(
    code: &mut CodeBuilder,
    context: Context,
    whole: &str,
    op: BinaryOp,
    decided: bool,
    right: &Tree<'_>,
) -> Result<(), AllocError>
    requires some { 0 < length (chars whole.now) }
    requires read { TreeIsRead (length (chars whole.now) - 1) (view right.now) }
    requires one { decided_by op ≡ Some decided }
    ensures { OnOk result (Grown (StepCode context.dialect op (view right.now)) code.old code.new) }
{
    let place = code.len();
    code.emit(Instr::SkipWhen(decided, 0))?;
    emit_tree(code, context, whole, right)?;
    code.emit(Instr::Truth)?;
    code.emit(Instr::Skip(1))?;
    lead_here(code, place)?;
    emit_truth(code, decided)
}

// A truth value as 1 or 0.
fn emit_truth(code: &mut CodeBuilder, value: bool) -> Result<(), AllocError>
    ensures { OnOk result (code.new ≡ code.old ++ Push (truth_text value) ∷ []) }
{
    code.push(if value { "1" } else { "0" })
}
