//! Skips whose ends come later.

ghost use Rattle.std.specs.Prelude.{◌≡◌, ◌<◌, ◌++◌, ◌∷◌, List, OnOk, length};
ghost use Rattle.tcl_code.specs.Build.{with_count};
ghost use Rattle.tcl_code.specs.Instructions.{Instruction};

use std::alloc::AllocError;
use tcl_code::CodeBuilder;

// The skip at a place leads to the next instruction.
pub(crate) fn lead_here(code: &mut CodeBuilder, place: usize) -> Result<(), AllocError>
    requires { place < length code.now }
    ensures { OnOk result ((front back : List Instruction) (i : Instruction) → code.old ≡ front ++ i ∷ back → place ≡ length front → code.new ≡ front ++ with_count (length back) i ∷ back) }
{
    let count = code.len() - place - 1;
    code.patch(place, count)
}
