//! Trees.

use crate::token::{BinaryOp, Function, Leaf, UnaryOp};
use tcl_words::Span;

/// An expression. It keeps what its operands are spelled as, with their places in bytes from the text's beginning.
/// However long the text is, nothing in it stands in more than some three thousand others. expr(n).
#[derive(Debug, Drop)]
pub enum Tree<'a> {
    Operand(Leaf<'a>),
    /// In parentheses.
    Group(Box<Tree<'a>>),
    /// A function, its name as it stands, and its arguments.
    Call(Function, Span<'a>, Vec<Tree<'a>>),
    Unary(UnaryOp, Box<Tree<'a>>),
    /// `**`, which groups from the right.
    Power(Box<Tree<'a>>, Box<Tree<'a>>),
    /// Parts round operators of one level, evaluated from the left: the level, from 2 of `*` to 13 of `||`, the first
    /// part, and each operator with the part behind it.
    Chain(u8, Box<Tree<'a>>, Vec<(BinaryOp, Tree<'a>)>),
    /// `?:`
    Choice(Box<Tree<'a>>, Box<Tree<'a>>, Box<Tree<'a>>),
}
