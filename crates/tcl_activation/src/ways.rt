//! Instructions of ways through a code, and its end.
ghost use Rattle.std.specs.Prelude.{◌≡◌, ◌≤◌, ℕ, None, length, IfOk};
ghost use Rattle.tcl_activation.specs.Moves.{here};
ghost use Rattle.tcl_activation.specs.Turnings.{Leads, LeadsPast, Spends};
ghost use Rattle.tcl_chars.specs.declared.numbers.Dialect.{Dialect};
ghost use Rattle.tcl_code.specs.Machine.{Ends};
ghost use Rattle.tcl_meaning.specs.Effects.{Gives};
ghost use Rattle.tcl_meaning.specs.State.{State};

use crate::stack::Stack;
use std::alloc::{AllocError, Global};
use tcl_chars::{Dialect, Fault};
use tcl_operators::truth_value;
use tcl_steps::Completion;

/// Where a code goes on.
#[derive(Drop)]
pub enum Way {
    /// At the next instruction.
    Next,
    /// Past the instructions that are skipped.
    Past,
    /// It has ended so.
    Over(Completion),
}

/// Spends a unit, if there is one, and tells whether there was.
pub fn spend(units: &mut u64) -> bool
    ensures { Spends result units.old units.new }
{
    if *units == 0 {
        return false;
    }
    *units -= 1;
    true
}

impl Stack {
    /// Takes the text on top: the code goes on past some instructions where it has the wanted truth value.
    pub fn skip_when(
        &mut self,
        alloc: Global,
        dialect: Dialect,
        wanted: bool,
    ) -> Result<Way, AllocError>
        requires { 1 ≤ length self.old.texts }
        ensures { Leads dialect wanted self.old self.new result }
    {
        let mut text = self.texts.pop();
        match truth_value(alloc, &mut text, dialect) {
            Ok(holds) => Ok(if holds == wanted {
                Way::Past
            } else {
                Way::Next
            }),
            Err(Fault::Error(message)) => Ok(Way::Over(Completion::failure(alloc, message))),
            Err(Fault::Memory) => Err(AllocError),
        }
    }

    /// Has the newest list no word? The code goes on past some instructions where it has none.
    #[inline(always)]
    pub fn skips(&self) -> bool
        requires { 1 ≤ length self.now.lists }
        ensures { LeadsPast result self.now }
    {
        self.lists.newest().is_empty()
    }

    /// Where the code ends, how its script's last command has ended.
    #[inline(always)]
    pub fn finish(&mut self, alloc: Global) -> Result<Completion, AllocError>
        requires texts { length self.old.texts ≡ 0 }
        requires lists { length self.old.lists ≡ 0 }
        requires results { length self.old.results ≡ 1 }
        requires loops { length self.old.loops ≡ 0 }
        ensures { IfOk result (λ c. (dialect : Dialect) (at : ℕ) (s : State) → here dialect None at self.old s ≡ Ends (Gives c s)) }
    {
        self.results.pop().into_completion(alloc)
    }
}
