//! How operators are spelled, and what faults say.

ghost use Rattle.std.specs.Prelude.{◌≡◌, IfOk};
ghost use Rattle.std.specs.Str.{chars};
ghost use Rattle.tcl_chars.specs.Texts.{text_of};
ghost use Rattle.tcl_expr.specs.Texts.{binary_text, fault_text, unary_text};
ghost use Rattle.tcl_expr.specs.View.{fault_view};

use crate::fault::ExprSyntax;
use crate::token::{BinaryOp, UnaryOp};
use std::alloc::{AllocError, Global};
use std::rc::RcStr;
use tcl_chars::{about, message};

impl UnaryOp {
    /// How the operator is spelled. expr(n), Operators.
    #[tactic(auto, using(tcl_chars::proofs::Literals::literal_chars))]
    pub fn text(self) -> &'static str
        ensures { chars result.now ≡ unary_text self }
    {
        match self {
            UnaryOp::Minus => "-",
            UnaryOp::Plus => "+",
            UnaryOp::Flip => "~",
            UnaryOp::Not => "!",
        }
    }
}

impl BinaryOp {
    /// How the operator is spelled. expr(n), Operators.
    #[tactic(auto, using(tcl_chars::proofs::Literals::literal_chars))]
    pub fn text(self) -> &'static str
        ensures { chars result.now ≡ binary_text self }
    {
        match self {
            BinaryOp::Times => "*",
            BinaryOp::Divide => "/",
            BinaryOp::Remainder => "%",
            BinaryOp::Add => "+",
            BinaryOp::Subtract => "-",
            BinaryOp::ShiftLeft => "<<",
            BinaryOp::ShiftRight => ">>",
            BinaryOp::Less => "<",
            BinaryOp::Greater => ">",
            BinaryOp::LessEqual => "<=",
            BinaryOp::GreaterEqual => ">=",
            BinaryOp::Equal => "==",
            BinaryOp::NotEqual => "!=",
            BinaryOp::TextEqual => "eq",
            BinaryOp::TextNotEqual => "ne",
            BinaryOp::In => "in",
            BinaryOp::NotIn => "ni",
            BinaryOp::BitAnd => "&",
            BinaryOp::BitXor => "^",
            BinaryOp::BitOr => "|",
            BinaryOp::And => "&&",
            BinaryOp::Or => "||",
        }
    }
}

impl<'a> ExprSyntax<'a> {
    /// What the fault says, as the script's error.
    pub fn message(&self, alloc: Global) -> Result<RcStr, AllocError>
        ensures { IfOk result (λ s. text_of s ≡ fault_text (fault_view self.now)) }
    {
        match self {
            ExprSyntax::Empty => message(alloc, "empty expression"),
            ExprSyntax::BareWord(x) => about(alloc, "invalid bareword", x.text, ""),
            ExprSyntax::MissingOperand => message(alloc, "missing operand"),
            ExprSyntax::MissingOperator => message(alloc, "missing operator"),
            ExprSyntax::Parenthesis => message(alloc, "unbalanced parentheses"),
            ExprSyntax::UnknownFunction(x) => about(alloc, "unknown math function", x.text, ""),
            ExprSyntax::ArgumentCount(x, true) => {
                about(alloc, "too many arguments for math function", x.text, "")
            }
            ExprSyntax::ArgumentCount(x, false) => {
                about(alloc, "too few arguments for math function", x.text, "")
            }
            ExprSyntax::Nesting => message(alloc, "nesting too deep"),
            ExprSyntax::Words(fault) => message(alloc, fault.text()),
        }
    }
}
