//! Instructions of expressions.
ghost use Rattle.std.specs.Prelude.{◌≡◌, ◌≤◌, ◌+◌, ◌∷◌, ℕ, length};
ghost use Rattle.tcl_activation.specs.Moves.{Acts, IsAnswer};
ghost use Rattle.tcl_chars.specs.Answers.{Answers};
ghost use Rattle.tcl_code.specs.Instructions.{Unary, Binary, Power, Apply, Truth, Final};
ghost use Rattle.tcl_code.specs.Valid.{IsEager};
ghost use Rattle.tcl_pages.specs.Answers.{Answer};
ghost use Rattle.tcl_pages.specs.Texts.{Text};

use crate::progress::Progress;
use crate::stack::{Stack, lifted};
use std::alloc::{AllocError, Global};
use tcl_chars::{Dialect, Fault};
use tcl_expr::{BinaryOp, Function, UnaryOp};
use tcl_steps::Completion;
use tcl_values::Value;

impl Stack {
    // An operator's value comes onto the stack, or its error ends the code.
    fn put(&mut self, alloc: Global, answer: Result<Value, Fault>) -> Result<Progress, AllocError>
        ensures { (meant : Answer Text) → Answers (λ v. v) answer meant → IsAnswer result meant self.old self.new }
    {
        match answer {
            Ok(value) => {
                self.texts.push(value)?;
                Ok(Progress::Moved)
            }
            Err(Fault::Error(message)) => Ok(Progress::Over(Completion::failure(alloc, message))),
            Err(Fault::Memory) => Err(AllocError),
        }
    }

    /// An operator in front of the text on top.
    pub fn unary(
        &mut self,
        alloc: Global,
        dialect: Dialect,
        op: UnaryOp,
    ) -> Result<Progress, AllocError>
        requires { 1 ≤ length self.old.texts }
        ensures { Acts dialect (Unary op) self.old self.new result }
    {
        let mut operand = self.texts.pop();
        let answer = tcl_operators::unary(alloc, dialect, op, &mut operand);
        self.put(alloc, answer)
    }

    /// `**` between the two texts on top.
    pub fn power(&mut self, alloc: Global, dialect: Dialect) -> Result<Progress, AllocError>
        requires { 2 ≤ length self.old.texts }
        ensures { Acts dialect Power self.old self.new result }
    {
        let mut right = self.texts.pop();
        let mut left = self.texts.pop();
        let answer = tcl_operators::power(alloc, dialect, &mut left, &mut right);
        self.put(alloc, answer)
    }

    /// The text on top as a truth value, 1 or 0.
    pub fn truth(&mut self, alloc: Global, dialect: Dialect) -> Result<Progress, AllocError>
        requires { 1 ≤ length self.old.texts }
        ensures { Acts dialect Truth self.old self.new result }
    {
        let mut text = self.texts.pop();
        let answer = tcl_operators::truth(alloc, dialect, &mut text);
        self.put(alloc, answer)
    }

    /// The text on top as an expression's value.
    pub fn final_value(&mut self, alloc: Global, dialect: Dialect) -> Result<Progress, AllocError>
        requires { 1 ≤ length self.old.texts }
        ensures { Acts dialect Final self.old self.new result }
    {
        let mut text = self.texts.pop();
        let answer = tcl_operators::final_value(alloc, dialect, &mut text);
        self.put(alloc, answer)
    }

    /// An operator that takes both texts on top.
    #[tactic(auto, using(crate::proofs::Operators::takes_both))]
    pub fn binary(
        &mut self,
        alloc: Global,
        dialect: Dialect,
        op: BinaryOp,
    ) -> Result<Progress, AllocError>
        requires texts { 2 ≤ length self.old.texts }
        requires eager { IsEager op }
        ensures { Acts dialect (Binary op) self.old self.new result }
    {
        let mut right = self.texts.pop();
        let mut left = self.texts.pop();
        let answer = tcl_operators::binary(alloc, dialect, op, &mut left, &mut right);
        self.put(alloc, answer)
    }

    /// Applies a function to the top `count` texts.
    pub fn apply(
        &mut self,
        alloc: Global,
        dialect: Dialect,
        function: Function,
        count: u32,
    ) -> Result<Progress, AllocError>
        requires { count ≤ length self.old.texts }
        ensures { Acts dialect (Apply function count) self.old self.new result }
    {
        let mut arguments = lifted(&mut self.texts, count)?;
        let answer = tcl_operators::apply(alloc, dialect, function, &mut arguments);
        self.put(alloc, answer)
    }
}
