//! What a host asks of an interpreter, and what it is answered.
ghost use Rattle.std.specs.Prelude.{◌≡◌};
ghost use Rattle.tcl_interp.specs.Host.{host_fault, var_fault};
ghost use Rattle.tcl_interp.specs.declared.host.VarFault.TheVariants as var;
ghost use Rattle.tcl_interp.specs.declared.host.HostFault.TheVariants as host;

use std::alloc::AllocError;
use std::rc::RcStr;
use tcl_chars::Dialect;
use tcl_frames::VarFault as FramesFault;
use tcl_meaning::Refusal;

/// Why a variable can't be read, written or linked: set(n), upvar(n).
#[derive(Clone, Copy, Debug, PartialEq, Eq)]
pub enum VarFault {
    /// There is no such variable.
    NoSuch,
    /// The variable is an array, and the name is no element's.
    IsArray,
    /// The name is an element's, and the variable is no array.
    IsntArray,
    /// The array has no such element.
    NoElement,
    /// The variable to be linked exists.
    Exists,
    /// The variable would be linked to itself.
    Itself,
    /// There is no such level.
    BadLevel,
    /// A growth was refused.
    Memory,
    /// The name can't be a link's.
    BadName,
}

impl From<Refusal> for VarFault {
    ghost from_gives = { λ refusal fault. fault ≡ var_fault refusal };

    fn from(refusal: Refusal) -> VarFault {
        match refusal {
            Refusal::NoSuch => VarFault::NoSuch,
            Refusal::IsArray => VarFault::IsArray,
            Refusal::IsntArray => VarFault::IsntArray,
            Refusal::NoElement => VarFault::NoElement,
        }
    }
}

impl From<AllocError> for VarFault {
    ghost from_gives = { λ _ fault. fault ≡ var.Memory };

    fn from(_refused: AllocError) -> VarFault {
        VarFault::Memory
    }
}

/// How an interpreter is made.
#[derive(Clone, Copy, Debug, PartialEq, Eq)]
pub struct Config {
    /// Which texts are numbers.
    pub dialect: Dialect,
}

/// A variable, as a host sees it.
#[derive(Debug, Drop)]
pub enum HostVar {
    /// Its text.
    Text(RcStr),
    /// The elements of an array, by name in the order of code points.
    Array(Vec<(RcStr, RcStr)>),
}

/// How an evaluation ended.
#[derive(Debug, Drop)]
pub enum Outcome {
    /// The script ended by itself.
    Done {
        /// The return code: 0 is ok, 1 an error.
        code: i64,
        /// The result, or the error's message.
        result: RcStr,
        /// The return options, as catch(n) gives them.
        options: RcStr,
        /// The units that are left.
        left: u64,
    },
    /// A unit was wanting.
    Budget,
    /// The script asked to end, with a status.
    Exit(u8),
    /// A growth was refused; the interpreter has failed.
    Memory,
    /// A device failed; the interpreter has failed.
    Io,
    /// The interpreter, or the run, had failed before.
    Failed,
    /// The run was over before.
    Over,
}

/// Why a host has no answer.
#[derive(Clone, Copy, Debug, PartialEq, Eq)]
pub enum HostFault {
    /// A growth was refused, and nothing has changed.
    Memory,
    /// The interpreter had failed before.
    Failed,
    /// The variable can't be read or written.
    Var(VarFault),
}

impl From<FramesFault> for HostFault {
    ghost from_gives = { λ fault refused. refused ≡ host_fault fault };

    fn from(fault: FramesFault) -> HostFault {
        match fault {
            FramesFault::Refused(refusal) => HostFault::Var(VarFault::from(refusal)),
            FramesFault::Memory => HostFault::Memory,
        }
    }
}

impl From<AllocError> for HostFault {
    ghost from_gives = { λ _ fault. fault ≡ host.Memory };

    fn from(_refused: AllocError) -> HostFault {
        HostFault::Memory
    }
}
