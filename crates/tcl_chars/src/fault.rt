//! Why a call has no answer.

ghost use Rattle.tcl_chars.specs.declared.fault.Fault.TheVariants as fault;
ghost use Rattle.tcl_chars.specs.declared.fault.ReadFault.TheVariants as read;
ghost use Rattle.std.specs.Prelude.{◌≡◌};

use std::alloc::{AllocError, AllocFailed};
use std::rc::RcStr;
use thiserror::Error;

/// Why a call has no answer.
#[derive(Debug, Drop, Error)]
pub enum Fault {
    /// The script's error, with its text.
    #[error("{0}")]
    Error(RcStr),
    /// A growth was refused.
    #[error("out of memory")]
    Memory,
}

impl From<AllocError> for Fault {
    ghost from_gives = { λ _ e. e ≡ fault.Memory };

    fn from(_refused: AllocError) -> Fault {
        Fault::Memory
    }
}

impl<T: Drop> From<AllocFailed<T>> for Fault {
    ghost from_gives = { λ _ e. e ≡ fault.Memory };

    fn from(_refused: AllocFailed<T>) -> Fault {
        Fault::Memory
    }
}

/// Why a text could not be read: what is wrong with it, or a growth was refused.
#[derive(Debug, Drop)]
pub enum ReadFault<E> {
    /// A growth was refused.
    Memory,
    /// The first fault of the text, from the left.
    Bad(E),
}

impl<E> From<AllocError> for ReadFault<E> {
    ghost from_gives = { λ _ e. e ≡ read.Memory };

    fn from(_refused: AllocError) -> ReadFault<E> {
        ReadFault::Memory
    }
}

impl<E, T: Drop> From<AllocFailed<T>> for ReadFault<E> {
    ghost from_gives = { λ _ e. e ≡ read.Memory };

    fn from(_refused: AllocFailed<T>) -> ReadFault<E> {
        ReadFault::Memory
    }
}
