//! Which outputs there are, and why a call over the channels fails.
use std::alloc::AllocError;
use thiserror::Error;

/// An output of a script.
#[derive(Clone, Copy, Debug, PartialEq, Eq)]
pub enum Out {
    /// The channel `stdout`.
    Stdout,
    /// The channel `stderr`.
    Stderr,
}

/// Why a call over the channels did not do what was asked.
#[derive(Clone, Copy, Debug, Error, PartialEq, Eq)]
pub enum ChanFault {
    /// The input's device failed. What is left of the input is as it was.
    #[error("can't read the input")]
    Read,
    /// An output's device failed. A beginning of the text was written.
    #[error("can't write the output")]
    Write,
    /// Memory was refused. What is left of the input is as it was.
    #[error("out of memory")]
    Memory,
}

impl From<AllocError> for ChanFault {
    ghost use Rattle.std.specs.Prelude.{◌≡◌};
    ghost use Rattle.tcl_chan.specs.declared.fault.ChanFault.TheVariants.{Memory};

    ghost from_gives = { λ _ fault. fault ≡ Memory };

    fn from(_: AllocError) -> ChanFault {
        ChanFault::Memory
    }
}
