//! Whole runs.

use super::devices::{Devices, Failing, NONE, Pair};
use super::setting::{expect, holds, is_done};
use std::alloc::{AllocError, Global};
use tcl_chars::Fault;
use tcl_interp::{Interp, Outcome, Report};

/// How a run ended, and what became of its devices.
struct Ran {
    report: Report,
    devices: Devices,
}

impl Drop for Ran {
    fn drop(self) {
        let Ran { report, devices } = self;
        drop(report);
        drop(devices);
    }
}

impl Ran {
    /// Has its interpreter failed?
    fn has_failed(&self) -> bool {
        match &self.report.interp {
            Some(interp) => interp.is_failed(),
            None => false,
        }
    }
}

/// Runs a script over an input of one byte.
fn run_over(
    alloc: Global,
    script: &str,
    args: &[&str],
    budget: u64,
    failing: Failing,
) -> Result<Ran, AllocError> {
    let mut devices = Devices::new(alloc, b"a", 9, failing)?;
    let report = devices.run(alloc, script, args, budget);
    Ok(Ran { report, devices })
}

/// What a run is told of its arguments: they themselves, and what `argv0`, `argv` and `argc` are.
struct Told {
    args: &'static [&'static str],
    name: &'static str,
    list: &'static str,
    count: &'static str,
}

static TOLD: [Told; 3] = [
    Told {
        args: &[],
        name: "",
        list: "",
        count: "0",
    },
    Told {
        args: &["a.tcl"],
        name: "a.tcl",
        list: "",
        count: "0",
    },
    Told {
        args: &["a.tcl", "b c", "", "$d", "-budget"],
        name: "a.tcl",
        list: "{b c} {} {$d} -budget",
        count: "4",
    },
];

/// Does the interpreter know its arguments?
fn knows(interp: &mut Option<Interp>, told: &Told) -> bool {
    match interp {
        Some(interp) => {
            holds(interp, "argv0", told.name)
                && holds(interp, "argv", told.list)
                && holds(interp, "argc", told.count)
        }
        None => false,
    }
}

/// Does a run with these arguments end well, and know them?
fn runs(alloc: Global, told: &Told) -> Result<bool, Fault> {
    let mut ran = run_over(alloc, "puts x; puts stderr y", told.args, 5, NONE)?;
    Ok(
        is_done(&ran.report.outcome, 0, "", 3)
            && ran.devices.hold("x\n", "y\n")
            && knows(&mut ran.report.interp, told),
    )
}

#[test]
fn a_run_knows_its_arguments(rt: HostRuntime) {
    for told in &TOLD {
        expect(&rt, runs(rt.alloc(), told), told.list);
    }
}

/// Does a run end with Io after so many failures of its outputs, and its interpreter with it? Where memory is refused nothing is
/// flushed.
fn fails(
    alloc: Global,
    script: &str,
    budget: u64,
    failing: Failing,
    want: Pair,
) -> Result<bool, Fault> {
    let ran = run_over(alloc, script, &["a.tcl"], budget, failing)?;
    Ok(match &ran.report.outcome {
        Outcome::Io => ran.devices.failures() == (0, want.0, want.1) && ran.has_failed(),
        Outcome::Memory => ran.devices.failures() == (0, 0, 0),
        _ => false,
    })
}

static FLUSHES: [Pair; 3] = [(1, 0), (0, 1), (1, 1)];

/// Does a run fail where these flushes do?
fn fails_at_flushes(alloc: Global, flushes: Pair) -> Result<bool, Fault> {
    let failing = Failing {
        read: 0,
        writes: (0, 0),
        flushes,
    };
    fails(alloc, "puts x", 5, failing, flushes)
}

#[test]
fn a_failed_flush_fails_the_run(rt: HostRuntime) {
    for flushes in &FLUSHES {
        expect(&rt, fails_at_flushes(rt.alloc(), *flushes), "puts x");
    }
}

/// A script and its units.
type End = (&'static str, u64);

static ENDS: [End; 8] = [
    ("", 0),
    ("puts x", 5),
    ("puts x; puts {", 5),
    ("nothing", 5),
    ("puts x", 0),
    ("puts x; puts y", 1),
    ("puts x; exit 3", 5),
    ("proc p {} {exit}; p", 5),
];

/// Are both outputs flushed at the end of a script?
fn flushes_both(alloc: Global, row: &End) -> Result<bool, Fault> {
    let failing = Failing {
        read: 0,
        writes: (0, 0),
        flushes: (1, 1),
    };
    fails(alloc, row.0, row.1, failing, (1, 1))
}

#[test]
fn both_outputs_are_flushed_however_a_script_ends(rt: HostRuntime) {
    for row in &ENDS {
        expect(&rt, flushes_both(rt.alloc(), row), row.0);
    }
}

/// A script, the writes that fail, and how many do.
type Writes = (&'static str, Pair, Pair);

static WRITES: [Writes; 4] = [
    ("puts x", (1, 0), (1, 0)),
    ("puts stderr x", (0, 1), (0, 1)),
    ("puts x; puts y", (2, 0), (1, 0)),
    ("puts stderr x; puts x", (1, 2), (1, 0)),
];

/// Is no output flushed behind a write that fails?
fn flushes_none(alloc: Global, row: &Writes) -> Result<bool, Fault> {
    let (script, writes, want) = *row;
    let failing = Failing {
        read: 0,
        writes,
        flushes: (1, 1),
    };
    fails(alloc, script, 5, failing, want)
}

#[test]
fn nothing_is_flushed_after_a_failed_write(rt: HostRuntime) {
    for row in &WRITES {
        expect(&rt, flushes_none(rt.alloc(), row), row.0);
    }
}

/// Does a run over an input whose first read fails end with Io, and is no output flushed then?
fn fails_unflushed(alloc: Global, script: &str) -> Result<bool, Fault> {
    let failing = Failing {
        read: 1,
        writes: (0, 0),
        flushes: (1, 1),
    };
    let ran = run_over(alloc, script, &["a.tcl"], 5, failing)?;
    Ok(matches!(ran.report.outcome, Outcome::Io) && ran.devices.failures() == (1, 0, 0))
}

static READING: [&str; 2] = ["gets stdin", "puts x; catch {read stdin}"];

#[test]
fn nothing_is_flushed_after_a_failed_read(rt: HostRuntime) {
    for script in &READING {
        expect(&rt, fails_unflushed(rt.alloc(), script), script);
    }
}

/// Does a run end for want of memory, and is no output flushed then?
fn wants_memory(alloc: Global, script: &str) -> Result<bool, Fault> {
    let failing = Failing {
        read: 0,
        writes: (0, 0),
        flushes: (1, 1),
    };
    let ran = run_over(alloc, script, &["a.tcl"], 5, failing)?;
    Ok(matches!(ran.report.outcome, Outcome::Memory) && ran.devices.failures() == (0, 0, 0))
}

/// More than any memory holds is refused at once.
static TOO_LONG: [&str; 2] = [
    "string repeat abc 9223372036854775807",
    "puts x; catch {string repeat abc 9223372036854775807}",
];

#[test]
fn nothing_is_flushed_where_memory_is_refused(rt: HostRuntime) {
    for script in &TOO_LONG {
        expect(&rt, wants_memory(rt.alloc(), script), script);
    }
}
