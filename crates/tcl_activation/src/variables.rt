//! Variables as code reads them.
ghost use Rattle.std.specs.Prelude.{◌≡◌};
ghost use Rattle.std.specs.Str.{chars};
ghost use Rattle.tcl_activation.specs.Reads.{IsRead};
ghost use Rattle.tcl_code.specs.Guards.{stands};
ghost use Rattle.tcl_meaning.specs.State.{Store};
ghost use Rattle.tcl_meaning.specs.Variables.{get};

use std::alloc::Global;
use tcl_code::Inlined;
use tcl_meaning::Refusal;
use tcl_values::Value;

/// Why a variable has not been read.
#[derive(Clone, Copy, Debug, PartialEq, Eq)]
pub enum Unread {
    /// It can't be read.
    Refused(Refusal),
    /// A growth was refused.
    Memory,
}

/// What scripts keep, as code asks for it.
pub trait Variables {
    /// What the definition sees.
    ghost store: { Self → Store };

    /// The text of the variable of a name: set(n).
    fn read(&self, alloc: Global, name: &str) -> Result<Value, Unread>
        ensures { IsRead result (get (store self.now) (chars name.now)) };

    /// Does the name of an inlined command still stand for its page?
    fn stands(&self, page: Inlined) -> bool
        ensures { result ≡ stands page (store self.now) };
}
