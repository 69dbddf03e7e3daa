//! Runs of a whole budget, in slices.

use crate::devices::{Devices, NONE};
use crate::runs::{show_end, show_put};
use std::alloc::{AllocError, Global};

// It spends 8 units over an input of two lines.
const SCRIPT: &str = "while {[gets stdin l] >= 0} {puts $l}";

// Budgets, and the sizes of their slices.
static SLICED: [(u64, u64); 14] = [
    (0, 0),
    (0, 1),
    (4, 3),
    (7, 0),
    (7, 2),
    (7, 7),
    (8, 0),
    (8, 1),
    (11, 1),
    (11, 3),
    (11, 8),
    (11, 9),
    (u64::MAX, 5),
    (u64::MAX, u64::MAX),
];

// Adds how a run with a budget in slices ends, and what it puts out.
fn show_sliced(
    alloc: Global,
    budget: u64,
    slice: u64,
    shown: &mut String,
) -> Result<(), AllocError> {
    let mut devices = Devices::new(alloc, b"a\nb", NONE)?;
    let outcome = devices.run_sliced(alloc, SCRIPT, budget, slice).outcome;
    write!(shown, "  {budget} in slices of {slice}: ")?;
    show_end(alloc, &outcome, shown)?;
    shown.push_str(", ")?;
    show_put(&devices, shown)
}

/// Adds what the script comes to with some budgets, in slices of several sizes.
pub(crate) fn show(alloc: Global, shown: &mut String) -> Result<(), AllocError> {
    writeln!(
        shown,
        "== a budget in slices leaves what it leaves whole\n{SCRIPT}"
    )?;
    for (budget, slice) in &SLICED {
        show_sliced(alloc, *budget, *slice, shown)?;
    }
    Ok(())
}
