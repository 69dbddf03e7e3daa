//! One step of the parser: what a token does to what is open.

ghost use Rattle.std.specs.Prelude.{◌≡◌, ◌≤◌, List, ◌∷◌, ◌++◌, [], map, IfOk};
ghost use Rattle.tcl_expr.specs.Expr as expr;
ghost use Rattle.tcl_expr.specs.ExprFault.{operand_fault};
ghost use Rattle.tcl_expr.specs.Faults as faults;
ghost use Rattle.tcl_expr.specs.Gives.{Steps, Finishes, state_view};
ghost use Rattle.tcl_expr.specs.Grammar as grammar;
ghost use Rattle.tcl_expr.specs.Machine as machine;
ghost use Rattle.tcl_expr.specs.View.{view, step_of, held_of, stack_of, token_of, fault_view, optional_fault};
ghost use Rattle.tcl_words.specs.Parts.{stretch_of};

use crate::fault::ExprSyntax;
use crate::frame::Frame;
use crate::stack::Stack;
use crate::state::{State, Wanted};
use crate::token::{BinaryOp, Function, Symbol, Token};
use crate::tree::Tree;
use std::alloc::{AllocError, Global};
use tcl_chars::ReadFault;
use tcl_words::{Span, Syntax};

/// The level of an operator: the lower, the tighter.
fn level_of(op: BinaryOp) -> u8
    ensures { result ≡ expr.level_of op }
{
    match op {
        BinaryOp::Times | BinaryOp::Divide | BinaryOp::Remainder => 2,
        BinaryOp::Add | BinaryOp::Subtract => 3,
        BinaryOp::ShiftLeft | BinaryOp::ShiftRight => 4,
        BinaryOp::Less | BinaryOp::Greater | BinaryOp::LessEqual | BinaryOp::GreaterEqual => 5,
        BinaryOp::Equal | BinaryOp::NotEqual => 6,
        BinaryOp::TextEqual | BinaryOp::TextNotEqual => 7,
        BinaryOp::In | BinaryOp::NotIn => 8,
        BinaryOp::BitAnd => 9,
        BinaryOp::BitXor => 10,
        BinaryOp::BitOr => 11,
        BinaryOp::And => 12,
        BinaryOp::Or => 13,
    }
}

/// Where an operator is wanted, the token ends what is of a level below this.
fn reach(token: &Token<'_>) -> u8
    ensures { result ≡ faults.reach (token_of token.now) }
{
    match token {
        Token::Symbol(Symbol::Power) => 1,
        Token::Symbol(Symbol::Binary(op)) => level_of(*op),
        Token::Symbol(Symbol::Question) => 14,
        _ => 15,
    }
}

fn push_part<'a>(
    parts: Vec<(BinaryOp, Tree<'a>)>,
    op: BinaryOp,
    x: Tree<'a>,
) -> Result<Vec<(BinaryOp, Tree<'a>)>, AllocError>
    ensures { IfOk result (λ v. map step_of v.items ≡ map step_of parts.entry.items ++ (op, view x.entry) ∷ []) }
{
    let mut parts = parts;
    parts.push((op, x))?;
    Ok(parts)
}

fn push_argument<'a>(arguments: Vec<Tree<'a>>, x: Tree<'a>) -> Result<Vec<Tree<'a>>, AllocError>
    ensures { IfOk result (λ v. map view v.items ≡ map view arguments.entry.items ++ view x.entry ∷ []) }
{
    let mut arguments = arguments;
    arguments.push(x)?;
    Ok(arguments)
}

/// What a frame that ends with the operand is.
fn finished<'a>(alloc: Global, frame: Frame<'a>, x: Tree<'a>) -> Result<Tree<'a>, AllocError>
    ensures { IfOk result (λ t. view t ≡ machine.finished (held_of frame.entry) (view x.entry)) }
{
    match frame {
        Frame::Unary(op) => Ok(Tree::Unary(op, Box::new(alloc, x)?)),
        Frame::Power(left) => Ok(Tree::Power(left, Box::new(alloc, x)?)),
        Frame::Chain(level, first, parts, op) => {
            Ok(Tree::Chain(level, first, push_part(parts, op, x)?))
        }
        Frame::Third(condition, then) => Ok(Tree::Choice(condition, then, Box::new(alloc, x)?)),
        Frame::Second(_) | Frame::Paren | Frame::Call(_, _, _) => Ok(x),
    }
}

/// Ends the frames that a token ends: what their operand has become.
fn reduce<'a>(
    alloc: Global,
    reach: u8,
    x: Tree<'a>,
    stack: &mut Stack<'a>,
) -> Result<Tree<'a>, AllocError>
    ensures { IfOk result (λ t. machine.reduce reach (view x.entry) (stack_of stack.old.frames.items) ≡ (view t, stack_of stack.new.frames.items)) }
{
    let mut x = x;
    'frames: loop {
        match stack.pop() {
            None => return Ok(x),
            Some(frame) => {
                if frame.level() < reach {
                    x = finished(alloc, frame, x)?;
                } else {
                    stack.push(frame)?;
                    return Ok(x);
                }
            }
        }
    }
}

fn open_with<'a>(
    wanted: Wanted,
    frame: Frame<'a>,
    stack: &mut Stack<'a>,
) -> Result<State<'a>, ReadFault<ExprSyntax<'a>>>
    requires { machine.opens_of (held_of frame) ≡ 1 }
    ensures { Steps result (stack_of stack.new.frames.items) (machine.open_with wanted (held_of frame.entry) (stack_of stack.old.frames.items)) }
{
    if !stack.has_room() {
        return Err(ReadFault::Bad(ExprSyntax::Nesting));
    }
    stack.push(frame)?;
    Ok(State::Wants(wanted))
}

/// The fault of a `)` where an operand is wanted.
fn close_early<'a>(wanted: Wanted, stack: &mut Stack<'a>) -> ExprSyntax<'a>
    ensures { fault_view result ≡ machine.close_early wanted (stack_of stack.old.frames.items) }
{
    match wanted {
        Wanted::First => match stack.pop() {
            Some(Frame::Call(_, name, _)) => ExprSyntax::ArgumentCount(name, false),
            _ => ExprSyntax::MissingOperand,
        },
        _ => ExprSyntax::MissingOperand,
    }
}

/// What a fault inside an operand is.
fn operand_fault<'a>(fault: Syntax) -> ExprSyntax<'a>
    ensures { fault_view result ≡ operand_fault fault }
{
    match fault {
        Syntax::TooDeep => ExprSyntax::Nesting,
        other => ExprSyntax::Words(other),
    }
}

fn at_operand<'a>(
    alloc: Global,
    wanted: Wanted,
    stack: &mut Stack<'a>,
    token: Token<'a>,
) -> Result<State<'a>, ReadFault<ExprSyntax<'a>>>
    ensures { Steps result (stack_of stack.new.frames.items) (machine.at_operand wanted (stack_of stack.old.frames.items) (token_of token.entry)) }
{
    match token {
        Token::Operand(leaf) => Ok(State::Has(Tree::Operand(leaf))),
        Token::Malformed(fault) => Err(ReadFault::Bad(operand_fault(fault))),
        Token::Bareword(span) => Err(ReadFault::Bad(ExprSyntax::BareWord(span))),
        Token::Unary(op) => open_with(Wanted::Operand, Frame::Unary(op), stack),
        Token::Open => open_with(Wanted::Operand, Frame::Paren, stack),
        Token::Call(function, name) => open_with(
            Wanted::First,
            Frame::Call(function, name, Vec::new(alloc)),
            stack,
        ),
        Token::UnknownCall(name) => Err(ReadFault::Bad(ExprSyntax::UnknownFunction(name))),
        Token::Symbol(Symbol::Close) => Err(ReadFault::Bad(close_early(wanted, stack))),
        _ => Err(ReadFault::Bad(ExprSyntax::MissingOperand)),
    }
}

/// Opens parts round an operator, of which x is the first.
fn open_chain<'a>(
    alloc: Global,
    op: BinaryOp,
    x: Tree<'a>,
    stack: &mut Stack<'a>,
) -> Result<(), AllocError>
    ensures { IfOk result (λ _. stack_of stack.new.frames.items ≡ machine.in_chain (expr.level_of op) (view x.entry) [] op ∷ stack_of stack.old.frames.items) }
{
    let first = Box::new(alloc, x)?;
    stack.push(Frame::Chain(level_of(op), first, Vec::new(alloc), op))
}

/// A binary operator behind an operand.
fn add<'a>(
    alloc: Global,
    op: BinaryOp,
    x: Tree<'a>,
    stack: &mut Stack<'a>,
) -> Result<(), AllocError>
    ensures { IfOk result (λ _. stack_of stack.new.frames.items ≡ machine.add op (view x.entry) (stack_of stack.old.frames.items)) }
{
    match stack.pop() {
        Some(Frame::Chain(level, first, parts, last)) if level == level_of(op) => {
            let parts = push_part(parts, last, x)?;
            stack.push(Frame::Chain(level, first, parts, op))
        }
        Some(frame) => {
            stack.push(frame)?;
            open_chain(alloc, op, x, stack)
        }
        None => open_chain(alloc, op, x, stack),
    }
}

fn takes_one(function: Function) -> bool
    ensures { result ≡ expr.takes_one function }
{
    match function {
        Function::Abs | Function::Bool | Function::Int | Function::Wide => true,
        Function::Max | Function::Min => false,
    }
}

/// What is wrong with a call of the function with `count` arguments, if anything is.
fn miscount<'a>(function: Function, name: Span<'a>, count: usize) -> Option<ExprSyntax<'a>>
    ensures { optional_fault result ≡ grammar.miscount function (stretch_of name.entry) count }
{
    if count == 0 {
        return Some(ExprSyntax::ArgumentCount(name, false));
    }
    if takes_one(function) && count > 1 {
        return Some(ExprSyntax::ArgumentCount(name, true));
    }
    None
}

/// What a call comes to whose last argument has been read, whatever is open round it.
fn closed_call<'a>(
    function: Function,
    name: Span<'a>,
    arguments: Vec<Tree<'a>>,
    x: Tree<'a>,
) -> Result<State<'a>, ReadFault<ExprSyntax<'a>>>
    ensures { (s : List machine.Held) → Steps result s (machine.at_close (view x.entry) (machine.in_call function (stretch_of name.entry) (map view arguments.entry.items) ∷ s)) }
{
    let arguments = push_argument(arguments, x)?;
    match miscount(function, name, arguments.len()) {
        Some(fault) => Err(ReadFault::Bad(fault)),
        None => Ok(State::Has(Tree::Call(function, name, arguments))),
    }
}

fn at_close<'a>(
    alloc: Global,
    x: Tree<'a>,
    stack: &mut Stack<'a>,
) -> Result<State<'a>, ReadFault<ExprSyntax<'a>>>
    ensures { Steps result (stack_of stack.new.frames.items) (machine.at_close (view x.entry) (stack_of stack.old.frames.items)) }
{
    match stack.pop() {
        Some(Frame::Paren) => Ok(State::Has(Tree::Group(Box::new(alloc, x)?))),
        Some(Frame::Call(function, name, arguments)) => closed_call(function, name, arguments, x),
        Some(Frame::Second(_)) => Err(ReadFault::Bad(ExprSyntax::MissingOperator)),
        _ => Err(ReadFault::Bad(ExprSyntax::Parenthesis)),
    }
}

fn at_comma<'a>(x: Tree<'a>, stack: &mut Stack<'a>) -> Result<State<'a>, ReadFault<ExprSyntax<'a>>>
    ensures { Steps result (stack_of stack.new.frames.items) (machine.at_comma (view x.entry) (stack_of stack.old.frames.items)) }
{
    match stack.pop() {
        Some(Frame::Call(function, name, arguments)) => {
            let arguments = push_argument(arguments, x)?;
            stack.push(Frame::Call(function, name, arguments))?;
            Ok(State::Wants(Wanted::Operand))
        }
        _ => Err(ReadFault::Bad(ExprSyntax::MissingOperator)),
    }
}

fn at_colon<'a>(
    alloc: Global,
    x: Tree<'a>,
    stack: &mut Stack<'a>,
) -> Result<State<'a>, ReadFault<ExprSyntax<'a>>>
    ensures { Steps result (stack_of stack.new.frames.items) (machine.at_colon (view x.entry) (stack_of stack.old.frames.items)) }
{
    match stack.pop() {
        Some(Frame::Second(condition)) => {
            stack.push(Frame::Third(condition, Box::new(alloc, x)?))?;
            Ok(State::Wants(Wanted::Operand))
        }
        _ => Err(ReadFault::Bad(ExprSyntax::MissingOperator)),
    }
}

fn at_operator<'a>(
    alloc: Global,
    x: Tree<'a>,
    stack: &mut Stack<'a>,
    token: Token<'a>,
) -> Result<State<'a>, ReadFault<ExprSyntax<'a>>>
    ensures { Steps result (stack_of stack.new.frames.items) (machine.at_operator (view x.entry) (stack_of stack.old.frames.items) (token_of token.entry)) }
{
    match token {
        Token::Symbol(Symbol::Binary(op)) => {
            add(alloc, op, x, stack)?;
            Ok(State::Wants(Wanted::Operand))
        }
        Token::Symbol(Symbol::Power) => {
            open_with(Wanted::Operand, Frame::Power(Box::new(alloc, x)?), stack)
        }
        Token::Symbol(Symbol::Question) => {
            open_with(Wanted::Operand, Frame::Second(Box::new(alloc, x)?), stack)
        }
        Token::Symbol(Symbol::Colon) => at_colon(alloc, x, stack),
        Token::Symbol(Symbol::Comma) => at_comma(x, stack),
        Token::Symbol(Symbol::Close) => at_close(alloc, x, stack),
        _ => Err(ReadFault::Bad(ExprSyntax::MissingOperator)),
    }
}

/// What a token does.
pub(crate) fn step<'a>(
    alloc: Global,
    state: State<'a>,
    stack: &mut Stack<'a>,
    token: Token<'a>,
) -> Result<State<'a>, ReadFault<ExprSyntax<'a>>>
    ensures { Steps result (stack_of stack.new.frames.items) (machine.step (state_view state.entry (stack_of stack.old.frames.items)) (token_of token.entry)) }
{
    match state {
        State::Wants(wanted) => at_operand(alloc, wanted, stack, token),
        State::Has(x) => {
            let x = reduce(alloc, reach(&token), x, stack)?;
            at_operator(alloc, x, stack, token)
        }
    }
}

/// What the end of the text does.
pub(crate) fn finish<'a>(
    alloc: Global,
    state: State<'a>,
    stack: Stack<'a>,
) -> Result<Tree<'a>, ReadFault<ExprSyntax<'a>>>
    ensures { Finishes result (machine.finish (state_view state.entry (stack_of stack.entry.frames.items))) }
{
    let mut stack = stack;
    match state {
        State::Wants(Wanted::Start) => Err(ReadFault::Bad(ExprSyntax::Empty)),
        State::Wants(_) => Err(ReadFault::Bad(ExprSyntax::MissingOperand)),
        State::Has(x) => {
            let x = reduce(alloc, 15, x, &mut stack)?;
            match stack.pop() {
                None => Ok(x),
                Some(Frame::Second(_)) => Err(ReadFault::Bad(ExprSyntax::MissingOperator)),
                Some(_) => Err(ReadFault::Bad(ExprSyntax::Parenthesis)),
            }
        }
    }
}
