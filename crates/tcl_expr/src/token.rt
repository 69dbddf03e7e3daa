//! Operators, functions and tokens.

use tcl_words::{Span, Syntax, Word};

/// An operator in front of its operand. expr(n), Operators.
#[derive(Clone, Copy, Debug, PartialEq, Eq)]
pub enum UnaryOp {
    /// `-`
    Minus,
    /// `+`
    Plus,
    /// `~`
    Flip,
    /// `!`
    Not,
}

/// An operator between two operands that groups from the left. expr(n), Operators.
#[derive(Clone, Copy, Debug, PartialEq, Eq)]
pub enum BinaryOp {
    Times,
    Divide,
    Remainder,
    Add,
    Subtract,
    ShiftLeft,
    ShiftRight,
    Less,
    Greater,
    LessEqual,
    GreaterEqual,
    Equal,
    NotEqual,
    /// `eq`
    TextEqual,
    /// `ne`
    TextNotEqual,
    /// `in`
    In,
    /// `ni`
    NotIn,
    BitAnd,
    BitXor,
    BitOr,
    /// `&&`, whose right operand is evaluated only where the left one is true.
    And,
    /// `||`, whose right operand is evaluated only where the left one is false.
    Or,
}

/// A function. expr(n), Math functions.
#[derive(Clone, Copy, Debug, PartialEq, Eq)]
pub enum Function {
    Abs,
    Bool,
    Int,
    Wide,
    Max,
    Min,
}

/// An operand that holds no operator. expr(n), Operands.
#[derive(Debug, Drop)]
pub enum Leaf<'a> {
    /// A number or a truth word, as it is spelled.
    Literal(Span<'a>),
    /// A word in quotes or braces, or the one piece that is a bracket or a variable.
    Word(Word<'a>),
}

/// An operator or a mark that is no run of letters and digits.
#[derive(Clone, Copy, Debug, PartialEq, Eq)]
pub(crate) enum Symbol {
    Binary(BinaryOp),
    Power,
    Question,
    Colon,
    Comma,
    Close,
}

/// A token, read where an operand or an operator is wanted.
#[derive(Debug, Drop)]
pub(crate) enum Token<'a> {
    Operand(Leaf<'a>),
    /// An operand with a fault inside.
    Malformed(Syntax),
    /// A run or a character that begins no token.
    Bareword(Span<'a>),
    /// A function's name and the parenthesis behind it.
    Call(Function, Span<'a>),
    UnknownCall(Span<'a>),
    Unary(UnaryOp),
    Open,
    Symbol(Symbol),
    /// Where an operator is wanted, anything else.
    Stray,
}
