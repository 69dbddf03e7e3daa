//! How scripts end: the budget, the status that they ask for, their options, and the input that they read.

use super::devices::{Devices, NONE};
use super::setting::{evaluated, expect, fresh, holds};
use std::alloc::Global;
use tcl_chars::Fault;
use tcl_interp::Outcome;

/// A script, the units that it has, and a variable that it leaves with its value.
type Stopped = (&'static str, u64, &'static str, &'static str);

static STOPPED: [Stopped; 6] = [
    ("set x 1; puts \"$x;$x\"", 1, "x", "1"),
    ("set i 0; while {$i < 3} {incr i}; puts $i", 8, "i", "3"),
    ("set i 0; while {$i < 3} {incr i}; puts $i", 7, "i", "2"),
    ("foreach x {1 2 3} {}", 3, "x", "2"),
    ("set x 0; catch {set x 1; set x 2}", 3, "x", "1"),
    ("proc p {} {upvar 1 x y; set y 1; puts no}; p", 4, "x", "1"),
];

/// Does a script end for want of a unit, with this variable?
fn stops(alloc: Global, row: &Stopped) -> Result<bool, Fault> {
    let (script, budget, name, value) = *row;
    let mut interp = fresh(alloc)?;
    let end = evaluated(alloc, &mut interp, 9, script, budget)?;
    Ok(
        matches!(end.outcome, Outcome::Budget)
            && end.devices.hold("", "")
            && holds(&mut interp, name, value)
            && !interp.is_failed(),
    )
}

#[test]
fn a_budget_ends_at_the_command_or_turn_that_it_wants(rt: HostRuntime) {
    for row in &STOPPED {
        expect(&rt, stops(rt.alloc(), row), row.0);
    }
}

/// A script and its status.
type Exit = (&'static str, u8);

static EXITS: [Exit; 4] = [
    ("puts a; exit", 0),
    ("puts a; exit 255; puts b", 255),
    ("puts a; catch {exit 3}; puts b", 3),
    ("puts a; proc p {} {exit [expr {2 + 2}]}; p", 4),
];

/// Does a script put out an `a` and end with its status?
fn exits(alloc: Global, row: &Exit) -> Result<bool, Fault> {
    let (script, want) = *row;
    let mut interp = fresh(alloc)?;
    let end = evaluated(alloc, &mut interp, 9, script, 9)?;
    let exited = match &end.outcome {
        Outcome::Exit(status) => *status == want,
        _ => false,
    };
    Ok(exited && end.devices.hold("a\n", "") && !interp.is_failed())
}

#[test]
fn a_script_ends_with_its_status(rt: HostRuntime) {
    for row in &EXITS {
        expect(&rt, exits(rt.alloc(), row), row.0);
    }
}

/// A script, and the options with which it ends.
type Options = (&'static str, &'static str);

static OPTIONS: [Options; 4] = [
    ("", "-code 0 -level 0"),
    ("error boom", "-code 1 -level 0"),
    (
        "error boom {} {a b}",
        "-code 1 -level 0 -errorinfo {} -errorcode {a b}",
    ),
    ("return -x y", "-code 0 -level 0 -x y"),
];

fn has_options(alloc: Global, row: &Options) -> Result<bool, Fault> {
    let (script, want) = *row;
    let mut interp = fresh(alloc)?;
    let end = evaluated(alloc, &mut interp, 9, script, 9)?;
    Ok(match &end.outcome {
        Outcome::Done { options, .. } => options.as_str() == want,
        _ => false,
    })
}

#[test]
fn a_script_ends_with_options(rt: HostRuntime) {
    for row in &OPTIONS {
        expect(&rt, has_options(rt.alloc(), row), row.0);
    }
}

/// An input, a script that reads it, and what the script puts out.
struct Heard {
    input: &'static [u8],
    script: &'static str,
    out: &'static str,
}

static HEARD: [Heard; 4] = [
    Heard {
        input: b"a\r\nb",
        script: "while {[gets stdin l] >= 0} {puts <$l>}; puts [eof stdin]",
        out: "<a>\n<b>\n1\n",
    },
    Heard {
        input: b"\xff\n",
        script: "puts [gets stdin]",
        out: "\u{fffd}\n",
    },
    Heard {
        input: b"ab\ncd\n",
        script: "puts [read stdin 1],[gets stdin],[read -nonewline stdin]",
        out: "a,b,cd\n",
    },
    Heard {
        input: b"",
        script: "puts [eof stdin][read stdin][eof stdin]",
        out: "01\n",
    },
];

fn hears(alloc: Global, row: &Heard) -> Result<bool, Fault> {
    let mut interp = fresh(alloc)?;
    let mut devices = Devices::new(alloc, row.input, 64, NONE)?;
    let outcome = devices.eval(alloc, &mut interp, row.script, 99);
    Ok(matches!(outcome, Outcome::Done { code: 0, .. }) && devices.hold(row.out, ""))
}

#[test]
fn scripts_read_the_input(rt: HostRuntime) {
    for row in &HEARD {
        expect(&rt, hears(rt.alloc(), row), row.script);
    }
}
