//! A script over devices of which one call fails.

use crate::devices::{Call, Devices, Kind, NONE};
use crate::rows::{INPUT, UNITS, told};
use std::alloc::{AllocError, Global};
use tcl_chars::Dialect;
use tcl_interp::{Interp, Outcome, Report};

static KINDS: [Kind; 5] = [
    Kind::Read,
    Kind::Write,
    Kind::Flush,
    Kind::WriteToStderr,
    Kind::FlushOfStderr,
];

// What a run left.
struct Left {
    devices: Devices,
    outcome: Outcome,
    interp: Option<Interp>,
}

impl Drop for Left {
    fn drop(self) {
        let Left {
            devices,
            outcome,
            interp,
        } = self;
        drop(devices);
        drop(outcome);
        drop(interp);
    }
}

impl Left {
    // Does it hold a beginning of what another run put out?
    fn begins(&self, whole: &Left) -> bool {
        whole.devices.out().starts_with(self.devices.out())
            && whole.devices.err().starts_with(self.devices.err())
    }
}

// A run of the script in which this call fails.
fn broken(alloc: Global, script: &str, call: Call) -> Result<Left, AllocError> {
    let mut devices = Devices::new(alloc, INPUT, call)?;
    let Report { outcome, interp } = devices.run(alloc, Dialect::Tcl86, script, UNITS);
    Ok(Left {
        devices,
        outcome,
        interp,
    })
}

// Has the interpreter failed, so that it evaluates nothing more?
fn is_spent(alloc: Global, interp: &mut Interp) -> Result<bool, AllocError> {
    let mut devices = Devices::new(alloc, b"", NONE)?;
    let outcome = devices.eval(alloc, interp, "puts a", UNITS);
    Ok(interp.is_failed() && matches!(outcome, Outcome::Failed) && devices.out().is_empty())
}

// Did a device fail in this run, and did it end so, with a beginning of what is put out?
fn breaks_off(alloc: Global, left: &mut Left, whole: &Left) -> Result<bool, AllocError> {
    let is_io = matches!(left.outcome, Outcome::Io);
    let has_failed = match &mut left.interp {
        Some(interp) => is_spent(alloc, interp)?,
        None => false,
    };
    Ok(is_io && has_failed && left.devices.failures() == 1 && left.begins(whole))
}

// Adds how a run ends that a failing call doesn't break off.
fn show_other(
    alloc: Global,
    left: &Left,
    number: u64,
    kind: Kind,
    shown: &mut String,
) -> Result<(), AllocError> {
    let end = told(alloc, &left.outcome)?;
    write!(shown, "\nwhere call {number} of {kind:?} fails: {end}")
}

// How many calls of a kind there are, each of which breaks a run off. Where one doesn't, what it comes to is shown.
fn break_each(
    alloc: Global,
    script: &str,
    kind: Kind,
    whole: &Left,
    shown: &mut String,
) -> Result<u64, AllocError> {
    for number in 1..UNITS {
        let mut left = broken(alloc, script, Call { kind, number })?;
        if left.devices.failures() == 0 {
            return Ok(number.saturating_sub(1));
        }
        if !breaks_off(alloc, &mut left, whole)? {
            show_other(alloc, &left, number, kind, shown)?;
        }
    }
    Ok(UNITS)
}

/// How many calls of devices that take a byte a call the script makes, each of which breaks it off where it fails: with a beginning
/// of its outputs, and an interpreter that evaluates nothing more. What ends otherwise is told.
pub(crate) fn show_breaking(alloc: Global, script: &str) -> Result<String, AllocError> {
    let whole = broken(alloc, script, NONE)?;
    let mut shown = String::new(alloc);
    let mut calls = 0u64;
    for kind in &KINDS {
        let more = break_each(alloc, script, *kind, &whole, &mut shown)?;
        calls = calls.saturating_add(more);
    }
    write!(shown, "\n{calls} calls of devices")?;
    Ok(shown)
}
