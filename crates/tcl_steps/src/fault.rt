//! Why a command has no answer.
ghost use Rattle.std.specs.Prelude.{◌≡◌};
ghost use Rattle.tcl_steps.specs.declared.fault.Fault.TheVariants as fault;
ghost use Rattle.tcl_steps.specs.Faults.{fault_by};

use std::alloc::{AllocError, AllocFailed};
use tcl_chan::fault::ChanFault;

/// Why a command has no answer.
#[derive(Clone, Copy, Debug, PartialEq, Eq)]
pub enum Fault {
    /// The script has ended the run, with this status: exit(n).
    Exit(u8),
    /// A growth was refused.
    Memory,
    /// A device failed.
    Io,
}

impl From<AllocError> for Fault {
    ghost from_gives = { λ _ f. f ≡ fault.Memory };

    fn from(_refused: AllocError) -> Fault {
        Fault::Memory
    }
}

impl<T: Drop> From<AllocFailed<T>> for Fault {
    ghost from_gives = { λ _ f. f ≡ fault.Memory };

    fn from(_refused: AllocFailed<T>) -> Fault {
        Fault::Memory
    }
}

impl From<ChanFault> for Fault {
    ghost from_gives = { λ e f. f ≡ fault_by e };

    fn from(refused: ChanFault) -> Fault {
        match refused {
            ChanFault::Memory => Fault::Memory,
            ChanFault::Read | ChanFault::Write => Fault::Io,
        }
    }
}
