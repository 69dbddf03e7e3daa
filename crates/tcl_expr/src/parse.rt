//! The parser: from token to token.

ghost use Rattle.std.specs.Prelude.{◌≡◌, IfOk, MatchResult, Some};
ghost use Rattle.std.specs.Str.{chars};
ghost use Rattle.tcl_expr.specs.Faults.{expr_fault};
ghost use Rattle.tcl_expr.specs.Gives.{Finishes, result_view};
ghost use Rattle.tcl_expr.specs.Grammar.{IsTree};
ghost use Rattle.tcl_expr.specs.Machine.{expression_of};
ghost use Rattle.tcl_expr.specs.Tokens.{tokens};
ghost use Rattle.tcl_expr.specs.View.{view, fault_view};

use crate::fault::ExprSyntax;
use crate::moves::{finish, step};
use crate::stack::Stack;
use crate::state::{State, Wanted};
use crate::tokens::next_token;
use crate::tree::Tree;
use std::alloc::{AllocError, Global};
use tcl_chars::{Dialect, ReadFault};

fn run<'a>(
    alloc: Global,
    text: &'a str,
    dialect: Dialect,
) -> Result<Tree<'a>, ReadFault<ExprSyntax<'a>>>
    ensures { Finishes result (expression_of dialect (chars text.now)) }
{
    let mut stack = Stack::new(alloc);
    let mut state = State::Wants(Wanted::Start);
    let mut left = text;
    'tokens: loop {
        let found = next_token(
            alloc,
            text,
            left,
            state.wants_operand(),
            stack.room(),
            dialect,
        )?;
        match found {
            None => return finish(alloc, state, stack),
            Some((token, after)) => {
                state = step(alloc, state, &mut stack, token)?;
                left = after;
            }
        }
    }
}

/// The expression that a text is, or its fault: that of the first token, from the left, that has one. The spans of
/// either count bytes from the text's beginning. At most 200 levels stand in one another: parentheses, calls, unary
/// operators, right operands of `**`, the second and the third operand of `?:`, and inside operands brackets and
/// indices. A number is what it is in the dialect. expr(n).
///
/// # Errors
/// A growth that was refused.
pub fn parse_expr(
    alloc: Global,
    text: &str,
    dialect: Dialect,
) -> Result<Result<Tree<'_>, ExprSyntax<'_>>, AllocError>
    ensures grammar { IfOk result (λ r. MatchResult r (λ t. IsTree (tokens dialect (chars text.now)) (view t)) (λ m. expr_fault (tokens dialect (chars text.now)) ≡ Some (fault_view m))) }
    ensures reading { IfOk result (λ r. result_view r ≡ expression_of dialect (chars text.now)) }
{
    match run(alloc, text, dialect) {
        Ok(tree) => Ok(Ok(tree)),
        Err(ReadFault::Bad(fault)) => Ok(Err(fault)),
        Err(ReadFault::Memory) => Err(AllocError),
    }
}
