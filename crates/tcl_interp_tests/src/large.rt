//! Many variables, elements and commands, and long texts.

use super::setting::{evaluated, expect, fresh, holds, is_done};
use std::alloc::{AllocError, Global};
use tcl_chars::Fault;
use tcl_interp::{HostFault, HostVar, Interp};

/// Sets a variable and an element of an array by a number.
fn add(alloc: Global, interp: &mut Interp, number: u32) -> Result<bool, AllocError> {
    let name = format!(in alloc; "v{number}")?;
    let element = format!(in alloc; "a({number})")?;
    Ok(interp.set_var(&name, &name).is_ok() && interp.set_var(&element, &name).is_ok())
}

/// Sets a thousand variables, and as many elements of one array.
fn fill(alloc: Global, interp: &mut Interp) -> Result<bool, AllocError> {
    for number in 1000..2000u32 {
        if !add(alloc, interp, number)? {
            return Ok(false);
        }
    }
    Ok(true)
}

/// How many elements an array has.
fn elements(var: Option<&HostVar>) -> usize {
    match var {
        Some(HostVar::Array(elements)) => elements.len(),
        _ => 0,
    }
}

/// How many variables there are, and how many elements the first one has.
fn sizes(interp: &mut Interp) -> Result<(usize, usize), HostFault> {
    let vars = interp.vars()?;
    let elements = elements(vars.first().map(|var| &var.1));
    Ok((vars.len(), elements))
}

/// Are these the numbers of variables, and of elements of the first one?
fn has_sizes(interp: &mut Interp, want: (usize, usize)) -> bool {
    matches!(sizes(interp), Ok(found) if found == want)
}

/// Does an interpreter hold a thousand variables and elements?
fn holds_thousand(alloc: Global) -> Result<bool, Fault> {
    let mut interp = fresh(alloc)?;
    Ok(
        fill(alloc, &mut interp)?
            && has_sizes(&mut interp, (1001, 1000))
            && holds(&mut interp, "v1777", "v1777")
            && holds(&mut interp, "a(1999)", "v1999"),
    )
}

#[test]
fn a_thousand_variables(rt: HostRuntime) {
    expect(&rt, holds_thousand(rt.alloc()), "a thousand variables");
}

/// A thousand lines of two commands.
fn commands(alloc: Global) -> Result<String, AllocError> {
    let mut script = String::new(alloc);
    for number in 1000..2000u32 {
        write!(script, "set v{number} {number}; puts $v{number}\n")?;
    }
    Ok(script)
}

/// Are these so many bytes, with this text at their end?
fn ends_with(bytes: &[u8], count: usize, end: &str) -> bool {
    bytes.len() == count && bytes.ends_with(end.as_bytes())
}

/// Are a thousand lines of commands evaluated?
fn evaluates_thousand(alloc: Global) -> Result<bool, Fault> {
    let mut interp = fresh(alloc)?;
    let script = commands(alloc)?;
    let end = evaluated(alloc, &mut interp, 5000, &script, 2001)?;
    Ok(
        is_done(&end.outcome, 0, "", 1)
            && ends_with(end.devices.out(), 5000, "1998\n1999\n")
            && has_sizes(&mut interp, (1000, 0)),
    )
}

#[test]
fn a_thousand_commands(rt: HostRuntime) {
    expect(&rt, evaluates_thousand(rt.alloc()), "a thousand lines");
}

/// A letter, repeated `times` times.
fn long(alloc: Global, times: u32) -> Result<String, AllocError> {
    let mut text = String::new(alloc);
    for _ in 0..times {
        text.push('é')?;
    }
    Ok(text)
}

/// Is a variable of 200,000 bytes put out twice, and copied?
fn holds_long(alloc: Global) -> Result<bool, Fault> {
    let text = long(alloc, 100_000)?;
    let mut interp = fresh(alloc)?;
    let is_set = interp.set_var("x", &text).is_ok();
    let end = evaluated(alloc, &mut interp, 400_001, "puts $x$x; set y $x", 9)?;
    Ok(
        is_set
            && is_done(&end.outcome, 0, &text, 7)
            && ends_with(end.devices.out(), 400_001, "é\n")
            && end.devices.out().starts_with(text.as_bytes())
            && holds(&mut interp, "y", &text),
    )
}

#[test]
fn long_values(rt: HostRuntime) {
    expect(&rt, holds_long(rt.alloc()), "a long text");
}

/// A script, what it costs, and its result.
type Row = (&'static str, u64, &'static str);

/// Does a script end so, with the units that it costs?
fn answers(alloc: Global, row: &Row) -> Result<bool, Fault> {
    let (script, cost, want) = *row;
    let mut interp = fresh(alloc)?;
    let end = evaluated(alloc, &mut interp, 9, script, cost)?;
    Ok(is_done(&end.outcome, 0, want, 0))
}

static LONG: [Row; 3] = [
    (
        "for {set i 0} {$i < 3000} {incr i} {lappend l $i}; llength $l",
        9003,
        "3000",
    ),
    (
        "proc f n {if {$n == 0} {return 0}; expr {1 + [f [expr {$n - 1}]]}}; f 300",
        1204,
        "300",
    ),
    (
        "set i 0; while 1 {if {[incr i] == 2000} break}; set i",
        6004,
        "2000",
    ),
];

#[test]
fn thousands_of_turns_and_levels(rt: HostRuntime) {
    for row in &LONG {
        expect(&rt, answers(rt.alloc(), row), row.0);
    }
}

/// Scripts in which a value grows a thousand times, or has a thousand parts.
static GROWING: [Row; 12] = [
    (
        "for {set i 0} {$i < 1000} {incr i} {append s ab}; string length $s",
        3003,
        "2000",
    ),
    (
        "for {set i 0} {$i < 1000} {incr i} {lappend l k$i $i}; llength [dict keys [dict merge $l {a b}]]",
        3005,
        "1001",
    ),
    (
        "for {set i 0} {$i < 1000} {incr i} {lappend l k$i $i}; llength [dict values [dict replace $l a b]]",
        3005,
        "1001",
    ),
    (
        "for {set i 0} {$i < 1000} {incr i} {dict set d $i x}; dict size $d",
        3003,
        "1000",
    ),
    (
        "for {set i 0} {$i < 1000} {incr i} {dict append d k ab}; string length [dict get $d k]",
        3004,
        "2000",
    ),
    (
        "for {set i 0} {$i < 1000} {incr i} {dict lappend d k ab}; llength [dict get $d k]",
        3004,
        "1000",
    ),
    (
        "for {set i 0} {$i < 1000} {incr i} {lappend l $i x}; array set a $l; llength [array get a]",
        3005,
        "2000",
    ),
    (
        "set l [lrepeat 1000 a]; for {set i 0} {$i < 1000} {incr i} {lset l $i $i}; lindex $l 999",
        3005,
        "999",
    ),
    (
        "for {set i 0} {$i < 1000} {incr i} {set v$i x}; llength [info vars v*]",
        3004,
        "1000",
    ),
    ("llength [lmap x [lrepeat 1000 a] {set x}]", 2003, "1000"),
    ("llength [lassign [lrepeat 1000 a] x]", 3, "999"),
    (
        "proc p args {llength $args}; p {*}[lrepeat 1000 a]",
        4,
        "1000",
    ),
];

#[test]
fn values_that_grow(rt: HostRuntime) {
    for row in &GROWING {
        expect(&rt, answers(rt.alloc(), row), row.0);
    }
}
