//! What the tests share.

use super::devices::{Devices, NONE};
use std::alloc::{AllocError, Global};
use std::process::Abort;
use tcl_chars::{Dialect, Fault};
use tcl_interp::{Config, Interp, Outcome};

/// Fails a test unless this was found to hold, and tells of what.
pub(crate) fn expect(rt: &impl Abort, found: Result<bool, Fault>, what: &str) {
    assert!(rt; matches!(found, Ok(true)), "{what}");
}

/// An interpreter without variables.
pub(crate) fn fresh(alloc: Global) -> Result<Interp, Fault> {
    Interp::new(
        alloc,
        Config {
            dialect: Dialect::Tcl86,
        },
    )
}

/// How a script ended, and what it put out.
pub(crate) struct Ending {
    pub(crate) outcome: Outcome,
    pub(crate) devices: Devices,
}

impl Drop for Ending {
    fn drop(self) {
        let Ending { outcome, devices } = self;
        drop(outcome);
        drop(devices);
    }
}

/// Evaluates a script over outputs that take `capacity` bytes each.
pub(crate) fn evaluated(
    alloc: Global,
    interp: &mut Interp,
    capacity: usize,
    script: &str,
    budget: u64,
) -> Result<Ending, AllocError> {
    let mut devices = Devices::new(alloc, b"", capacity, NONE)?;
    let outcome = devices.eval(alloc, interp, script, budget);
    Ok(Ending { outcome, devices })
}

/// Did the script end by itself, with this code, this result or message, and this number of units left?
pub(crate) fn is_done(outcome: &Outcome, want_code: i64, want: &str, want_left: u64) -> bool {
    match outcome {
        Outcome::Done {
            code,
            result,
            options: _,
            left,
        } => *code == want_code && result.as_str() == want && *left == want_left,
        _ => false,
    }
}

/// Is this the variable's text, as the host is told it?
pub(crate) fn holds(interp: &mut Interp, name: &str, want: &str) -> bool {
    match interp.var(name) {
        Ok(Some(text)) => text.as_str() == want,
        _ => false,
    }
}

/// Is the host told of no such variable?
pub(crate) fn lacks(interp: &mut Interp, name: &str) -> bool {
    matches!(interp.var(name), Ok(None))
}
