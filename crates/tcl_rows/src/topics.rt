//! The rows of each topic: runs that pause, and what becomes of them.

use crate::parts::started;
use crate::runs::{Lent, show_leg, show_next};
use std::alloc::{AllocError, Global};

// Two lines, and an output that takes what it is given.
const SOUND: Lent = Lent {
    input: b"a\nb",
    failing: 0,
};

// A byte that is no character, and the line's end.
const NOT_UTF8: Lent = Lent {
    input: b"\xff\n",
    failing: 0,
};

// An output whose first write fails.
const FAULTY: Lent = Lent {
    input: b"",
    failing: 1,
};

// A script, and the parts in which its run goes on over the same devices, then over others, and so on.
struct Row {
    script: &'static str,
    legs: &'static [&'static [u64]],
}

const PAUSED: [Row; 7] = [
    Row {
        script: "proc p {} {return -code break}; while 1 {p; puts no}; puts out",
        legs: &[&[1, 1, 1, 1, 1], &[1]],
    },
    Row {
        script: "puts \"[puts x][set y 2]\"",
        legs: &[&[2], &[1]],
    },
    Row {
        script: "puts \"[puts x][set y 2]\"",
        legs: &[&[0, 2, 0, 0], &[1]],
    },
    Row {
        script: "proc p {} {uplevel 1 {puts [incr i]}}; p; p",
        legs: &[&[3, 2, 1], &[3]],
    },
    Row {
        script: "puts [gets stdin]; puts [gets stdin]",
        legs: &[&[1, 2], &[1]],
    },
    Row {
        script: "puts [gets stdin]; puts [gets stdin]",
        legs: &[&[1, 2, 1]],
    },
    Row {
        script: "set a 5",
        legs: &[&[0], &[3], &[5, 0]],
    },
];

// It spends 9 units.
const COUNTING: &str = "set i 0; while {$i < 2} {puts [incr i]}; error no";

const PARTED: [Row; 7] = [
    Row {
        script: COUNTING,
        legs: &[&[9]],
    },
    Row {
        script: COUNTING,
        legs: &[&[1, 1, 1, 1, 1, 1, 1, 1, 1]],
    },
    Row {
        script: COUNTING,
        legs: &[&[2, 2, 2, 2, 2]],
    },
    Row {
        script: COUNTING,
        legs: &[&[3, 3, 3]],
    },
    Row {
        script: COUNTING,
        legs: &[&[5, 5]],
    },
    Row {
        script: "puts a; exit 3",
        legs: &[&[1, 1, 1]],
    },
    Row {
        script: "",
        legs: &[&[0], &[5, 0]],
    },
];

const DROPPED: [Row; 3] = [
    Row {
        script: "proc f {n} {f [expr {$n + 1}]}; f 0",
        legs: &[&[300]],
    },
    Row {
        script: "proc p {} {uplevel #0 {while 1 {set i 1}}}; p",
        legs: &[&[50]],
    },
    Row {
        script: "foreach x {1 2} {catch {while 1 {}}}",
        legs: &[&[20]],
    },
];

const READING: [Row; 2] = [
    Row {
        script: "puts [gets stdin]",
        legs: &[&[2]],
    },
    Row {
        script: "puts [gets stdin]",
        legs: &[&[1, 1]],
    },
];

// Adds what the run of a row comes to, leg by leg; then the run is dropped.
fn show_run(alloc: Global, row: &Row, lent: Lent, shown: &mut String) -> Result<(), AllocError> {
    let script = row.script;
    writeln!(shown, "{script}")?;
    let mut run = started(alloc, script)?;
    for parts in row.legs {
        show_leg(alloc, &mut run, lent, parts, shown)?;
    }
    Ok(())
}

// Adds what the runs of some rows come to.
fn show_runs(
    alloc: Global,
    topic: &str,
    rows: &[Row],
    lent: Lent,
    shown: &mut String,
) -> Result<(), AllocError> {
    writeln!(shown, "== {topic}")?;
    for row in rows {
        show_run(alloc, row, lent, shown)?;
    }
    Ok(())
}

// A script, and the parts in which its run goes on. Then the run is stopped, and another script is evaluated in its interpreter.
struct Stop {
    script: &'static str,
    parts: &'static [u64],
    next: &'static str,
}

const STOPPED: [Stop; 7] = [
    Stop {
        script: "set i 0; while {$i < 3} {incr i}; puts $i",
        parts: &[8],
        next: "puts $i,[info level]",
    },
    Stop {
        script: "proc p {} {uplevel 1 {set i 4; p; set i 5}}; p",
        parts: &[7],
        next: "puts $i,[info level],[info commands p]",
    },
    Stop {
        script: "proc f {n} {incr ::i; f $n; puts no}; f 1",
        parts: &[98],
        next: "puts $i,[info level],[info commands f]",
    },
    Stop {
        script: "rename incr add; add i; puts no",
        parts: &[2],
        next: "add i; puts $i",
    },
    Stop {
        script: "set i 4",
        parts: &[0],
        next: "puts [info exists i]",
    },
    Stop {
        script: "set i 4",
        parts: &[2],
        next: "puts $i",
    },
    Stop {
        script: "set i 4; exit 3",
        parts: &[5],
        next: "puts $i",
    },
];

const FAILED: [Stop; 3] = [
    Stop {
        script: "puts a",
        parts: &[1, 1, 1],
        next: "puts c",
    },
    Stop {
        script: "puts a; puts b",
        parts: &[5, 1, 0],
        next: "puts c",
    },
    Stop {
        script: "set x 1; puts a",
        parts: &[1, 1, 1],
        next: "puts c",
    },
];

// Adds what the run of a row comes to, and what the script behind it does.
fn show_stop(alloc: Global, stop: &Stop, lent: Lent, shown: &mut String) -> Result<(), AllocError> {
    let Stop {
        script,
        parts,
        next,
    } = stop;
    writeln!(shown, "{script}")?;
    let mut run = started(alloc, script)?;
    show_leg(alloc, &mut run, lent, parts, shown)?;
    writeln!(shown, "{next}")?;
    let mut interp = run.stop();
    show_next(alloc, &mut interp, lent, next, shown)
}

// Adds what the runs of some rows come to.
fn show_stops(
    alloc: Global,
    topic: &str,
    stops: &[Stop],
    lent: Lent,
    shown: &mut String,
) -> Result<(), AllocError> {
    writeln!(shown, "== {topic}")?;
    for stop in stops {
        show_stop(alloc, stop, lent, shown)?;
    }
    Ok(())
}

/// Adds the rows of each topic.
pub(crate) fn show(alloc: Global, shown: &mut String) -> Result<(), AllocError> {
    let paused = "a run goes on where it paused, over the devices that it is lent";
    show_runs(alloc, paused, &PAUSED, SOUND, shown)?;
    let parted = "a run in parts comes to what it comes to in one";
    show_runs(alloc, parted, &PARTED, SOUND, shown)?;
    let reading = "also where the input is no UTF-8";
    show_runs(alloc, reading, &READING, NOT_UTF8, shown)?;
    let dropped = "a run may be dropped where it paused";
    show_runs(alloc, dropped, &DROPPED, SOUND, shown)?;
    let stopped = "a run that is stopped leaves variables and commands, and nothing pending";
    show_stops(alloc, stopped, &STOPPED, SOUND, shown)?;
    let failed = "a run whose device fails has failed, and leaves an interpreter that has";
    show_stops(alloc, failed, &FAILED, FAULTY, shown)
}
