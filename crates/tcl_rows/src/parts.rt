//! A script in one run and in parts, and whether both leave the same.

use crate::devices::{Devices, NONE};
use crate::rows::{INPUT, UNITS, told};
use std::alloc::{AllocError, Global};
use tcl_chars::Dialect;
use tcl_interp::{Config, Interp, Outcome, Run};

// The units of one part after another, again and again: of one size, and of sizes that dice gave.
static PARTS: [&[u64]; 5] = [&[1], &[2], &[3], &[5], &[4, 1, 6, 2, 2, 5, 1, 3, 6, 1, 4]];

// What a script put out, how it ended, and the variables that it left.
struct Left {
    out: String,
    end: String,
    variables: String,
}

impl Drop for Left {
    fn drop(self) {
        let Left {
            out,
            end,
            variables,
        } = self;
        drop(out);
        drop(end);
        drop(variables);
    }
}

impl Left {
    fn is(&self, other: &Left) -> bool {
        self.out.as_str() == other.out.as_str()
            && self.end.as_str() == other.end.as_str()
            && self.variables.as_str() == other.variables.as_str()
    }

    // Adds it, behind the parts that it was left by.
    fn show(&self, parts: &[u64], shown: &mut String) -> Result<(), AllocError> {
        let out = self.out.as_str();
        let end = self.end.as_str();
        let variables = self.variables.as_str();
        write!(shown, "\nin parts of {parts:?}:\n{out}{end}\n{variables}")
    }
}

/// An interpreter without variables.
pub(crate) fn fresh(alloc: Global) -> Result<Interp, AllocError> {
    let config = Config {
        dialect: Dialect::Tcl86,
    };
    Interp::new(alloc, config).map_err(|_| AllocError)
}

/// A run of a script in an interpreter without variables.
pub(crate) fn started(alloc: Global, script: &str) -> Result<Run, AllocError> {
    match fresh(alloc)?.start(script) {
        Ok(run) => Ok(run),
        Err(_) => Err(AllocError),
    }
}

// What was left of a script.
fn leaves(
    alloc: Global,
    interp: &mut Interp,
    devices: &Devices,
    outcome: &Outcome,
) -> Result<Left, AllocError> {
    let variables = interp.vars();
    let variables = format!(in alloc; "{variables:?}")?;
    let out = String::from_str(alloc, devices.text())?;
    let end = told(alloc, outcome)?;
    Ok(Left {
        out,
        end,
        variables,
    })
}

// A script in one run.
fn whole(alloc: Global, script: &str) -> Result<Left, AllocError> {
    let mut interp = fresh(alloc)?;
    let mut devices = Devices::new(alloc, INPUT, NONE)?;
    let outcome = devices.eval(alloc, &mut interp, script, UNITS);
    leaves(alloc, &mut interp, &devices, &outcome)
}

// The same script in parts.
fn in_parts(alloc: Global, script: &str, parts: &[u64]) -> Result<Left, AllocError> {
    let mut run = started(alloc, script)?;
    let mut devices = Devices::new(alloc, INPUT, NONE)?;
    let outcome = devices.go_again(alloc, &mut run, parts, UNITS);
    let mut interp = run.stop();
    leaves(alloc, &mut interp, &devices, &outcome)
}

// Adds what a script comes to in these parts, where that isn't what it comes to in one run.
fn show_other(
    alloc: Global,
    script: &str,
    parts: &[u64],
    once: &Left,
    shown: &mut String,
) -> Result<(), AllocError> {
    let parted = in_parts(alloc, script, parts)?;
    if parted.is(once) {
        return Ok(());
    }
    parted.show(parts, shown)
}

/// What a script comes to in parts, where that is another thing than in one run: nothing is said where all is the same.
pub(crate) fn show_parts(alloc: Global, script: &str) -> Result<String, AllocError> {
    let once = whole(alloc, script)?;
    let mut shown = String::new(alloc);
    for parts in &PARTS {
        show_other(alloc, script, parts, &once, &mut shown)?;
    }
    Ok(shown)
}
