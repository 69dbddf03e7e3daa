//! How commands of channels end.
ghost use Rattle.std.specs.Prelude.{◌≡◌, false};
ghost use Rattle.tcl_channels.specs.Leaves.{is_io};
ghost use Rattle.tcl_channels.specs.Orders.{Closed, Halts};

use tcl_steps::{Completion, Fault, Stop};

/// The script's error is the command's completion.
pub(crate) fn halted(stop: Stop) -> Result<Completion, Fault>
    ensures { Halts stop result }
{
    match stop {
        Stop::Error(completion) => Ok(completion),
        Stop::Memory => Err(Fault::Memory),
    }
}

/// The command's completion, normal or the script's error.
pub(crate) fn closed(ending: Result<Completion, Stop>) -> Result<Completion, Fault>
    ensures closed { Closed ending result }
    ensures quiet { is_io result ≡ false }
{
    match ending {
        Ok(completion) => Ok(completion),
        Err(stop) => halted(stop),
    }
}
