//! How an evaluation ended, as a host sees it.
ghost use Rattle.std.specs.Prelude.{◌≡◌, IfOk};
ghost use Rattle.tcl_meaning.specs.Completions.{top};
ghost use Rattle.tcl_interp.specs.Outcome.{IsOutcome, IsOutcomeOf, outcome_fails};

use crate::host::Outcome;
use std::alloc::{AllocError, Global};
use tcl_steps::{Completion, code_number};
use tcl_vm::Stop;

// The outcome of a script that ended by itself.
fn done(alloc: Global, completion: Completion, left: u64) -> Result<Outcome, AllocError>
    ensures { IfOk result (λ outcome. IsOutcome outcome (top completion) left) }
{
    let completion = completion.into_top(alloc)?;
    let code = code_number(completion.code());
    let mut options = completion.options_text(alloc)?;
    let options = options.text(alloc)?;
    let mut result = completion.into_result();
    let result = result.text(alloc)?;
    Ok(Outcome::Done {
        code,
        result,
        options,
        left,
    })
}

/// The outcome of a script that ended so, with `left` units left.
pub(crate) fn outcome_of(alloc: Global, ended: Result<Completion, Stop>, left: u64) -> Outcome
    ensures { IsOutcomeOf result ended left }
{
    match ended {
        Ok(completion) => match done(alloc, completion, left) {
            Ok(outcome) => outcome,
            Err(_) => Outcome::Memory,
        },
        Err(Stop::Budget) => Outcome::Budget,
        Err(Stop::Exit(status)) => Outcome::Exit(status),
        Err(Stop::Memory) => Outcome::Memory,
        Err(Stop::Io) => Outcome::Io,
    }
}

/// Has an interpreter failed after this outcome?
pub(crate) fn outcome_fails(outcome: &Outcome) -> bool
    ensures { result ≡ outcome_fails outcome.now }
{
    matches!(outcome, Outcome::Memory | Outcome::Io)
}
