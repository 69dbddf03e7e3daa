//! What the parser has open.

ghost use Rattle.std.specs.Prelude.{◌≡◌};
ghost use Rattle.tcl_expr.specs.Machine as machine;
ghost use Rattle.tcl_expr.specs.View.{held_of};

use crate::token::{BinaryOp, Function, UnaryOp};
use crate::tree::Tree;
use tcl_words::Span;

/// What is open, and what of it has been read.
#[derive(Drop)]
pub(crate) enum Frame<'a> {
    Unary(UnaryOp),
    /// The left operand of `**`.
    Power(Box<Tree<'a>>),
    /// The level, the parts, and the operator behind the last.
    Chain(u8, Box<Tree<'a>>, Vec<(BinaryOp, Tree<'a>)>, BinaryOp),
    /// The condition of a `?:` whose second operand is open.
    Second(Box<Tree<'a>>),
    /// The first two operands of a `?:` whose third is open.
    Third(Box<Tree<'a>>, Box<Tree<'a>>),
    Paren,
    /// A function, its name as it stands, and the arguments that have ended.
    Call(Function, Span<'a>, Vec<Tree<'a>>),
}

impl<'a> Frame<'a> {
    /// Its operand is ended by a token of a looser level.
    pub(crate) fn level(&self) -> u8
        ensures { result ≡ machine.held_level (held_of self.now) }
    {
        match self {
            Frame::Unary(_) => 0,
            Frame::Power(_) => 1,
            Frame::Chain(level, _, _, _) => *level,
            Frame::Third(_, _) => 14,
            Frame::Second(_) | Frame::Paren | Frame::Call(_, _, _) => 15,
        }
    }

    /// How many levels it has open.
    pub(crate) fn opens(&self) -> u8
        ensures { result ≡ machine.opens_of (held_of self.now) }
    {
        match self {
            Frame::Chain(_, _, _, _) => 0,
            _ => 1,
        }
    }
}
