//! What the parser waits for.

ghost use Rattle.std.specs.Prelude.{◌≡◌};
ghost use Rattle.tcl_expr.specs.Gives.{wanted_by};
ghost use Rattle.tcl_expr.specs.Faults.{wants_operand};

use crate::tree::Tree;

/// What is wanted next.
#[derive(Clone, Copy, PartialEq, Eq)]
pub(crate) enum Wanted {
    /// An operand, and nothing has been read.
    Start,
    /// The first argument of a call, or its end.
    First,
    Operand,
    Operator,
}

/// What has been read and where the parser stands.
#[derive(Drop)]
pub(crate) enum State<'a> {
    Wants(Wanted),
    /// An operand that has ended.
    Has(Tree<'a>),
}

impl<'a> State<'a> {
    pub(crate) fn wants_operand(&self) -> bool
        ensures { result ≡ wants_operand (wanted_by self.now) }
    {
        match self {
            State::Wants(Wanted::Operator) | State::Has(_) => false,
            State::Wants(_) => true,
        }
    }
}
