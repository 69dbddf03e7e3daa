//! An interpreter whose devices fail.

use super::devices::{Devices, Failing, Pair};
use super::setting::{expect, fresh, holds};
use std::alloc::{AllocError, Global};
use tcl_chars::Fault;
use tcl_interp::{HostFault, Interp, Outcome, Report};

/// How a script ends over an output whose first write fails, and how often it failed.
fn broken(alloc: Global, interp: &mut Interp, script: &str) -> Result<(Outcome, u64), AllocError> {
    let failing = Failing {
        read: 0,
        writes: (1, 0),
        flushes: (0, 0),
    };
    let mut devices = Devices::new(alloc, b"", 9, failing)?;
    let outcome = devices.eval(alloc, interp, script, 9);
    Ok((outcome, devices.failures().1))
}

static LATER: [&str; 5] = ["puts a", "", "set x 1", "puts {", "exit"];

/// Has an interpreter failed, so that it evaluates nothing more?
fn is_spent(alloc: Global, interp: &mut Interp) -> Result<bool, AllocError> {
    for script in &LATER {
        let later = broken(alloc, interp, script)?;
        if !matches!(later, (Outcome::Failed, 0)) {
            return Ok(false);
        }
    }
    Ok(interp.is_failed())
}

/// Does a failed write end all?
fn write_ends_all(alloc: Global) -> Result<bool, Fault> {
    let mut interp = fresh(alloc)?;
    let first = broken(alloc, &mut interp, "puts a")?;
    Ok(matches!(first, (Outcome::Io, 1)) && is_spent(alloc, &mut interp)?)
}

#[test]
fn a_failed_write_ends_all(rt: HostRuntime) {
    expect(&rt, write_ends_all(rt.alloc()), "puts a");
}

/// Does a refused growth end all? More than any memory holds is refused at once.
fn growth_ends_all(alloc: Global, script: &str) -> Result<bool, Fault> {
    let mut interp = fresh(alloc)?;
    let first = broken(alloc, &mut interp, script)?;
    Ok(matches!(first, (Outcome::Memory, 0)) && is_spent(alloc, &mut interp)?)
}

#[test]
fn a_refused_growth_ends_all(rt: HostRuntime) {
    let script = "set x 1; catch {string repeat abc 9223372036854775807}";
    expect(&rt, growth_ends_all(rt.alloc(), script), script);
}

/// Does a script end so over an input whose first read fails?
fn read_ends(alloc: Global, script: &str) -> Result<bool, Fault> {
    let mut interp = fresh(alloc)?;
    let failing = Failing {
        read: 1,
        writes: (0, 0),
        flushes: (0, 0),
    };
    let mut devices = Devices::new(alloc, b"a", 9, failing)?;
    let outcome = devices.eval(alloc, &mut interp, script, 9);
    Ok(matches!(outcome, Outcome::Io) && devices.failures() == (1, 0, 0))
}

static READING: [&str; 3] = ["gets stdin", "catch {read stdin}", "puts [gets stdin x]"];

#[test]
fn a_failed_read_ends_all(rt: HostRuntime) {
    for script in &READING {
        expect(&rt, read_ends(rt.alloc(), script), script);
    }
}

/// Does an interpreter that has failed tell nothing of a variable, of all and of a write?
fn tells_nothing(interp: &mut Interp) -> bool {
    matches!(interp.var("x"), Err(HostFault::Failed))
        && matches!(interp.vars(), Err(HostFault::Failed))
        && matches!(interp.set_var("x", "2"), Err(HostFault::Failed))
}

/// Does an interpreter tell of a variable, and of none after a failed write?
fn tells_until_it_fails(alloc: Global) -> Result<bool, Fault> {
    let mut interp = fresh(alloc)?;
    let is_told = interp.set_var("x", "1").is_ok() && holds(&mut interp, "x", "1");
    let outcome = broken(alloc, &mut interp, "puts a")?;
    Ok(is_told && matches!(outcome, (Outcome::Io, _)) && tells_nothing(&mut interp))
}

#[test]
fn a_failed_interpreter_tells_nothing(rt: HostRuntime) {
    expect(&rt, tells_until_it_fails(rt.alloc()), "x");
}

/// A script, the calls of its devices that fail, and what is written until then. The input is one line.
struct Breaking {
    script: &'static str,
    read: u64,
    writes: Pair,
    flushes: Pair,
    out: &'static str,
}

static BREAKING: [Breaking; 3] = [
    Breaking {
        script: "puts a; puts b",
        read: 0,
        writes: (2, 0),
        flushes: (0, 0),
        out: "a\n",
    },
    Breaking {
        script: "puts a",
        read: 0,
        writes: (0, 0),
        flushes: (1, 0),
        out: "a\n",
    },
    Breaking {
        script: "gets stdin l; puts $l",
        read: 1,
        writes: (0, 0),
        flushes: (0, 0),
        out: "",
    },
];

/// Has the interpreter of a run failed?
fn has_failed(alloc: Global, interp: Option<Interp>) -> Result<bool, AllocError> {
    match interp {
        Some(mut interp) => is_spent(alloc, &mut interp),
        None => Ok(false),
    }
}

/// Does a run break off so, and its interpreter with it?
fn breaks_off(alloc: Global, row: &Breaking) -> Result<bool, Fault> {
    let failing = Failing {
        read: row.read,
        writes: row.writes,
        flushes: row.flushes,
    };
    let mut devices = Devices::new(alloc, b"x\n", 9, failing)?;
    let Report { outcome, interp } = devices.run(alloc, row.script, &[], 9);
    let is_broken = matches!(outcome, Outcome::Io) && devices.hold(row.out, "");
    Ok(is_broken && has_failed(alloc, interp)?)
}

#[test]
fn the_call_that_fails_ends_a_run(rt: HostRuntime) {
    for row in &BREAKING {
        expect(&rt, breaks_off(rt.alloc(), row), row.script);
    }
}
