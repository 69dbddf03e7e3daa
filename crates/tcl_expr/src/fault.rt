//! Why a text is no expression.

use tcl_words::{Span, Syntax};

/// Why a text is no expression: the fault of the first token that has one, and of two faults of a token the one that
/// stands first here.
#[derive(Clone, Copy, Debug)]
pub enum ExprSyntax<'a> {
    /// There is no token at all.
    Empty,
    /// This run of letters and digits, or this character, is no operand.
    BareWord(Span<'a>),
    /// An operator, a comma, a closing parenthesis or the end stands where an operand is wanted.
    MissingOperand,
    /// Something else stands where an operator is wanted.
    MissingOperator,
    /// A parenthesis is closed but not opened, or the other way round.
    Parenthesis,
    /// There is no function of this name.
    UnknownFunction(Span<'a>),
    /// The function of this name has too many arguments, or else too few.
    ArgumentCount(Span<'a>, bool),
    /// More than 200 levels stand in one another.
    Nesting,
    /// The first fault inside an operand.
    Words(Syntax),
}
