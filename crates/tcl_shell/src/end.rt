//! How a session ends.
ghost use Rattle.std.specs.Prelude.{◌≡◌};
ghost use Rattle.tcl_shell.specs.Faults.{end_by};

use tcl_chan::fault::ChanFault;

/// How a session ended.
#[derive(Clone, Copy, Debug, PartialEq, Eq)]
pub enum SessionEnd {
    /// The input ended, or as many texts as there may be were evaluated.
    Ended,
    /// A unit was wanting.
    Budget,
    /// A script asked to end, with a status.
    Exit(u8),
    /// A growth was refused.
    Memory,
    /// A device failed.
    Io,
}

/// What a turn of a session came to.
#[derive(Clone, Copy, Debug)]
pub(crate) enum Turn {
    /// A text was evaluated, and this number of units is left.
    Goes(u64),
    /// The session is over.
    Over(SessionEnd),
}

/// The end of a session that was broken off.
pub(crate) fn end_by(fault: ChanFault) -> SessionEnd
    ensures { result ≡ end_by fault }
{
    match fault {
        ChanFault::Memory => SessionEnd::Memory,
        ChanFault::Read | ChanFault::Write => SessionEnd::Io,
    }
}
