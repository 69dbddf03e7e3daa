//! The answers as what a command asks for: it is done.

ghost use Rattle.tcl_steps.specs.Asked.{IsAsked};
ghost use Rattle.tcl_meaning.specs.VariablePages as spec;

use crate::page::pure_page_taking;
use std::alloc::{AllocError, Global};
use tcl_chars::{Dialect, Fault};
use tcl_pages::PurePage;
use tcl_steps::{Completion, Loop, Owes, Scope, Step};
use tcl_values::Value;

/// A command is done at once: with its answer, or with its error. Nobody needs its words any more, so they may be taken.
#[tactic(auto, unfolding(tcl_meaning::specs::VariablePages::pure_page))]
pub fn pure_done(
    alloc: Global,
    dialect: Dialect,
    page: PurePage,
    words: &mut [Value],
) -> Result<Step<Scope, Owes, Loop>, AllocError>
    ensures { IsAsked result (spec.pure_page dialect page words.old) }
{
    match pure_page_taking(alloc, dialect, page, words) {
        Ok(value) => Ok(Step::Done(Completion::normal(alloc, value))),
        Err(Fault::Error(message)) => Ok(Step::Done(Completion::failure(alloc, message))),
        Err(Fault::Memory) => Err(AllocError),
    }
}
