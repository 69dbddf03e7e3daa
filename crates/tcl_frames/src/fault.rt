//! Why a call was refused.

use std::alloc::AllocError;
use tcl_meaning::{LinkRefusal, Refusal};

/// Why a variable wasn't read or written.
#[derive(Clone, Copy, Debug, PartialEq, Eq)]
pub enum VarFault {
    Refused(Refusal),
    Memory,
}

impl From<AllocError> for VarFault {
    ghost use Rattle.std.specs.Prelude.{◌≡◌};
    ghost use Rattle.tcl_frames.specs.declared.fault.VarFault.TheVariants as fault;

    ghost from_gives = { λ _ f. f ≡ fault.Memory };

    fn from(_refused: AllocError) -> VarFault {
        VarFault::Memory
    }
}

impl From<Refusal> for VarFault {
    ghost use Rattle.std.specs.Prelude.{◌≡◌};
    ghost use Rattle.tcl_frames.specs.declared.fault.VarFault.TheVariants as fault;

    ghost from_gives = { λ r f. f ≡ fault.Refused r };

    fn from(refusal: Refusal) -> VarFault {
        VarFault::Refused(refusal)
    }
}

/// Why a name wasn't linked.
#[derive(Clone, Copy, Debug, PartialEq, Eq)]
pub enum LinkFault {
    Refused(LinkRefusal),
    Memory,
}

impl From<AllocError> for LinkFault {
    ghost use Rattle.std.specs.Prelude.{◌≡◌};
    ghost use Rattle.tcl_frames.specs.declared.fault.LinkFault.TheVariants as fault;

    ghost from_gives = { λ _ f. f ≡ fault.Memory };

    fn from(_refused: AllocError) -> LinkFault {
        LinkFault::Memory
    }
}
