//! A script, and what is shown of it.

use crate::devices::{Call, Devices, Kind, NONE};
use crate::parts::fresh;
use std::alloc::{AllocError, Global};
use tcl_chars::Dialect;
use tcl_interp::{Interp, Outcome};

/// More units than any row spends.
pub(crate) const UNITS: u64 = 10_000;

/// What a script finds on the input.
pub(crate) const INPUT: &[u8] = b"a\r\nb";

/// How an evaluation ended.
pub(crate) fn told(alloc: Global, outcome: &Outcome) -> Result<String, AllocError> {
    match outcome {
        Outcome::Done { code, result, .. } => format!(in alloc; "code {code}, result <{result}>"),
        Outcome::Budget => format!(in alloc; "budget spent"),
        Outcome::Exit(status) => format!(in alloc; "exit {status}"),
        Outcome::Memory => format!(in alloc; "out of memory"),
        Outcome::Io => format!(in alloc; "read or write failed"),
        Outcome::Failed => format!(in alloc; "failed before"),
        Outcome::Over => format!(in alloc; "over before"),
    }
}

// What a run put out, how it ended, and the units that it spent, if it ended by itself.
struct Shown {
    text: String,
    spent: Option<u64>,
}

// The units that a run spent which ended by itself.
fn spent(outcome: &Outcome, budget: u64) -> Option<u64> {
    match outcome {
        Outcome::Done { left, .. } => Some(budget.saturating_sub(*left)),
        _ => None,
    }
}

// One run of the script.
fn show_run(alloc: Global, script: &str, budget: u64) -> Result<Shown, AllocError> {
    let mut devices = Devices::new(alloc, INPUT, NONE)?;
    let outcome = devices.run(alloc, Dialect::Tcl86, script, budget).outcome;
    let end = told(alloc, &outcome)?;
    let text = devices.text();
    Ok(Shown {
        text: format!(in alloc; "{text}{end}")?,
        spent: spent(&outcome, budget),
    })
}

// One run of the script with `budget` units.
fn show_with(alloc: Global, script: &str, budget: u64) -> Result<String, AllocError> {
    let Shown { text, spent: _ } = show_run(alloc, script, budget)?;
    format!(in alloc; "with {budget} units:\n{text}")
}

/// What the script puts out and how it ends: with the units that it needs and, if it needs any, with one unit less. Where it
/// doesn't end by itself, with units to spare alone.
pub(crate) fn show(alloc: Global, script: &str) -> Result<String, AllocError> {
    let Shown { text, spent } = show_run(alloc, script, UNITS)?;
    match spent {
        None => Ok(text),
        Some(0) => show_with(alloc, script, 0),
        Some(needed) => {
            let enough = show_with(alloc, script, needed)?;
            let short = show_with(alloc, script, needed.saturating_sub(1))?;
            format!(in alloc; "{enough}\n{short}")
        }
    }
}

// How an evaluation ends.
fn ends(
    alloc: Global,
    interp: &mut Interp,
    devices: &mut Devices,
    script: &str,
) -> Result<String, AllocError> {
    let outcome = devices.eval(alloc, interp, script, UNITS);
    told(alloc, &outcome)
}

/// `puts` twice where the first write fails: how they end, and the bytes that were written.
pub(crate) fn show_failing(alloc: Global) -> Result<String, AllocError> {
    let first_write = Call {
        kind: Kind::Write,
        number: 1,
    };
    let mut interp = fresh(alloc)?;
    let mut devices = Devices::new(alloc, b"", first_write)?;
    let first = ends(alloc, &mut interp, &mut devices, "puts a")?;
    let second = ends(alloc, &mut interp, &mut devices, "puts b")?;
    let bytes = devices.out().len();
    format!(in alloc; "{first}\n{second}\n{bytes} bytes")
}

// How a script ends in an interpreter of a dialect.
fn ends_in(alloc: Global, dialect: Dialect, script: &str) -> Result<String, AllocError> {
    let mut devices = Devices::new(alloc, INPUT, NONE)?;
    let outcome = devices.run(alloc, dialect, script, UNITS).outcome;
    told(alloc, &outcome)
}

// Scripts over numbers.
static NUMBERS: [&str; 4] = [
    "expr {010 + 1}",
    "expr {08 + 1}",
    "lsort -integer {010 9}",
    "format %d 010",
];

/// How scripts over numbers end, with those of Tcl 8.6 and with those of Tcl 9.
pub(crate) fn show_dialects(alloc: Global) -> Result<String, AllocError> {
    let mut shown = String::new(alloc);
    for script in &NUMBERS {
        let old = ends_in(alloc, Dialect::Tcl86, script)?;
        let new = ends_in(alloc, Dialect::Tcl9, script)?;
        write!(shown, "\n{script}: {old}; in Tcl 9: {new}")?;
    }
    Ok(shown)
}
