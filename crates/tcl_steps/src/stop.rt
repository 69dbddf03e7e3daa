//! Why a part of a command has no value.
ghost use Rattle.std.specs.Prelude.{◌≡◌};
ghost use Rattle.tcl_steps.specs.Ends.{Closes, stop_of};
ghost use Rattle.tcl_steps.specs.declared.stop.Stop.TheVariants as stop;

use crate::completion::Completion;
use std::alloc::{AllocError, Global};
use tcl_chars::Fault;

/// Why a part of a command has no value.
#[derive(Drop)]
pub enum Stop {
    /// The script's error.
    Error(Completion),
    /// A growth was refused.
    Memory,
}

impl From<AllocError> for Stop {
    ghost from_gives = { λ _ s. s ≡ stop.Memory };

    fn from(_refused: AllocError) -> Stop {
        Stop::Memory
    }
}

/// The command's completion, normal or the script's error.
pub fn closed(ending: Result<Completion, Stop>) -> Result<Completion, AllocError>
    ensures { Closes ending result }
{
    match ending {
        Ok(completion) => Ok(completion),
        Err(Stop::Error(completion)) => Ok(completion),
        Err(Stop::Memory) => Err(AllocError),
    }
}

/// What stops a command whose part has a fault.
pub fn stop_by(alloc: Global, fault: Fault) -> Stop
    ensures { result ≡ stop_of fault }
{
    match fault {
        Fault::Error(message) => Stop::Error(Completion::failure(alloc, message)),
        Fault::Memory => Stop::Memory,
    }
}
