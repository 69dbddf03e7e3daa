//! Laws of codes that run: each is the contract of a function that does nothing.

ghost use Rattle.tcl_vm.specs.Laws.{ComesToOne, PartsAddUp, ValidGoesOn};

/// Valid code is never stuck, whatever its commands do.
pub fn valid_goes_on()
    ensures { ValidGoesOn }
{}

/// A run in parts, each but the last ending where a unit is wanting, comes to what one run with all their units comes to.
pub fn parts_add_up()
    ensures { PartsAddUp }
{}

/// A machine that goes on comes to one thing, from whatever state and with however many units.
pub fn comes_to_one()
    ensures { ComesToOne }
{}
