//! A run in parts, and what is shown of it.

use crate::devices::{Call, Devices, Kind};
use crate::rows::told;
use std::alloc::{AllocError, Global};
use tcl_interp::{Interp, Outcome, Run};

// The units of a script that is evaluated behind a run that was stopped.
const NEXT_UNITS: u64 = 9;

/// The devices of a leg, the part of a run that goes on over the same ones: what is on the input, and which write to the output
/// fails; 0 means none.
#[derive(Clone, Copy)]
pub(crate) struct Lent {
    pub(crate) input: &'static [u8],
    pub(crate) failing: u64,
}

/// Adds how a part ended, and the units that it left.
pub(crate) fn show_end(
    alloc: Global,
    outcome: &Outcome,
    shown: &mut String,
) -> Result<(), AllocError> {
    let end = told(alloc, outcome)?;
    match outcome {
        Outcome::Done { left, .. } => write!(shown, "{end}, {left} left"),
        _ => shown.push_str(end.as_str()),
    }
}

/// Adds what was put out.
pub(crate) fn show_put(devices: &Devices, shown: &mut String) -> Result<(), AllocError> {
    let text = devices.text();
    writeln!(shown, "put {text:?}")
}

impl Lent {
    // The devices.
    fn devices(self, alloc: Global) -> Result<Devices, AllocError> {
        let failing = Call {
            kind: Kind::Write,
            number: self.failing,
        };
        Devices::new(alloc, self.input, failing)
    }
}

// Adds how each part ended.
fn show_ends(alloc: Global, outcomes: &[Outcome], shown: &mut String) -> Result<(), AllocError> {
    for outcome in outcomes {
        show_end(alloc, outcome, shown)?;
        shown.push_str(", ")?;
    }
    Ok(())
}

/// Goes on in these parts over new devices, and adds how each of them ends, where the run is then, and what was put out.
pub(crate) fn show_leg(
    alloc: Global,
    run: &mut Run,
    lent: Lent,
    parts: &[u64],
    shown: &mut String,
) -> Result<(), AllocError> {
    let mut devices = lent.devices(alloc)?;
    let outcomes = devices.go(alloc, run, parts)?;
    write!(shown, "  {parts:?}: ")?;
    show_ends(alloc, &outcomes, shown)?;
    let stage = run.stage();
    write!(shown, "{stage:?}, ")?;
    show_put(&devices, shown)
}

/// Evaluates a script in this interpreter over new devices, and adds how it ends and what was put out.
pub(crate) fn show_next(
    alloc: Global,
    interp: &mut Interp,
    lent: Lent,
    script: &str,
    shown: &mut String,
) -> Result<(), AllocError> {
    let mut devices = lent.devices(alloc)?;
    let outcome = devices.eval(alloc, interp, script, NEXT_UNITS);
    write!(shown, "  eval {NEXT_UNITS}: ")?;
    show_end(alloc, &outcome, shown)?;
    shown.push_str(", ")?;
    show_put(&devices, shown)
}
