//! What a host reads and writes.

use super::setting::{evaluated, expect, fresh, holds, is_done, lacks};
use std::alloc::{AllocError, Global};
use tcl_chars::Fault;
use tcl_interp::{HostFault, Interp, VarFault};

/// Names of variables and elements with their values.
static WRITTEN: [(&str, &str); 5] = [
    ("b", "1"),
    ("é", "2"),
    ("a(y)", "3"),
    ("::a(x)", ""),
    ("Z", "5"),
];

/// Names beside them of what isn't there.
static MISSING: [&str; 4] = ["a", "b(x)", "a(z)", "z"];

/// Is each variable read as it was written?
fn reads_written(interp: &mut Interp) -> bool {
    for row in &WRITTEN {
        let (name, value) = *row;
        if interp.set_var(name, value).is_err() || !holds(interp, name, value) {
            return false;
        }
    }
    true
}

/// Is the host told of none of those that aren't there?
fn lacks_missing(interp: &mut Interp) -> bool {
    for name in &MISSING {
        if !lacks(interp, name) {
            return false;
        }
    }
    true
}

/// Does a host read what it writes, and nothing else?
fn reads(alloc: Global) -> Result<bool, Fault> {
    let mut interp = fresh(alloc)?;
    Ok(!interp.is_failed() && reads_written(&mut interp) && lacks_missing(&mut interp))
}

#[test]
fn a_host_reads_what_it_writes(rt: HostRuntime) {
    expect(&rt, reads(rt.alloc()), "variables and elements");
}

/// Is a write refused for this?
fn refuses(interp: &mut Interp, name: &str, fault: VarFault) -> bool {
    interp.set_var(name, "z") == Err(HostFault::Var(fault))
}

/// Does a refused write change nothing?
fn keeps(alloc: Global) -> Result<bool, Fault> {
    let mut interp = fresh(alloc)?;
    let is_written = interp.set_var("a(1)", "x").is_ok() && interp.set_var("b", "y").is_ok();
    Ok(
        is_written
            && refuses(&mut interp, "a", VarFault::IsArray)
            && refuses(&mut interp, "b(1)", VarFault::IsntArray)
            && holds(&mut interp, "a(1)", "x")
            && lacks(&mut interp, "a")
            && holds(&mut interp, "b", "y")
            && lacks(&mut interp, "b(1)"),
    )
}

#[test]
fn a_refused_write_changes_nothing(rt: HostRuntime) {
    expect(&rt, keeps(rt.alloc()), "a write of another kind");
}

/// The variables as the host is told them.
fn shown(alloc: Global, interp: &mut Interp) -> Result<String, AllocError> {
    let vars = interp.vars();
    format!(in alloc; "{vars:?}")
}

/// Are these the variables?
fn shows(alloc: Global, interp: &mut Interp, want: &str) -> bool {
    match shown(alloc, interp) {
        Ok(text) => text.as_str() == want,
        Err(_) => false,
    }
}

static NAMES: [&str; 5] = ["b", "é", "a(y)", "a(x)", "Z"];

/// Do variables stand in the order of code points?
fn stand_in_order(alloc: Global) -> Result<bool, Fault> {
    let mut interp = fresh(alloc)?;
    for name in &NAMES {
        if interp.set_var(name, name).is_err() {
            return Ok(false);
        }
    }
    let want =
        "Ok([(\"Z\", Text(\"Z\")), (\"a\", Array([(\"x\", \"a(x)\"), (\"y\", \"a(y)\")])), (\"b\", Text(\"b\")), (\"é\", Text(\"é\"))])";
    Ok(shows(alloc, &mut interp, want))
}

#[test]
fn variables_stand_in_the_order_of_code_points(rt: HostRuntime) {
    expect(&rt, stand_in_order(rt.alloc()), "five names");
}

/// What a script leaves, as the host is told.
fn left(alloc: Global, script: &str, want: &str) -> Result<bool, Fault> {
    let mut interp = fresh(alloc)?;
    let end = evaluated(alloc, &mut interp, 9, script, 11)?;
    Ok(is_done(&end.outcome, 0, "", 0) && shows(alloc, &mut interp, want))
}

#[test]
fn links_are_told_by_what_they_lead_to(rt: HostRuntime) {
    let script =
        "set x 1; set a(1) 2; upvar 0 x y; upvar 0 a(1) z; upvar 0 no w; proc p {} {global v; set v 3; set u 4; return}; p";
    let want =
        "Ok([(\"a\", Array([(\"1\", \"2\")])), (\"v\", Text(\"3\")), (\"x\", Text(\"1\")), (\"y\", Text(\"1\")), (\"z\", Text(\"2\"))])";
    expect(&rt, left(rt.alloc(), script, want), script);
}

/// Is what a host puts into a link read by what it leads to?
fn links(alloc: Global) -> Result<bool, Fault> {
    let mut interp = fresh(alloc)?;
    let end = evaluated(alloc, &mut interp, 9, "upvar 0 a(1) y", 1)?;
    Ok(
        is_done(&end.outcome, 0, "", 0)
            && interp.set_var("y", "2").is_ok()
            && holds(&mut interp, "a(1)", "2")
            && holds(&mut interp, "y", "2")
            && lacks(&mut interp, "a"),
    )
}

#[test]
fn a_host_writes_through_links(rt: HostRuntime) {
    expect(&rt, links(rt.alloc()), "a link");
}

/// Are so few texts compiled for so many turns of a script?
fn compiles_few(alloc: Global) -> Result<bool, Fault> {
    let mut interp = fresh(alloc)?;
    let script =
        "set s {incr ::n}; proc q {} {eval $::s}; for {set i 0} {$i < 1000} {incr i} {q}; puts $n";
    let end = evaluated(alloc, &mut interp, 5, script, 10000)?;
    Ok(
        is_done(&end.outcome, 0, "", 4995)
            && end.devices.hold("1000\n", "")
            && interp.compiles() >= 3
            && interp.compiles() < 20,
    )
}

#[test]
fn kept_codes_are_not_compiled_again(rt: HostRuntime) {
    expect(&rt, compiles_few(rt.alloc()), "a thousand turns");
}

/// Is the body of each of 600 procedures compiled once, where all are called in turn, again and again?
fn compiles_once(alloc: Global) -> Result<bool, Fault> {
    let mut interp = fresh(alloc)?;
    let script =
        "for {set i 0} {$i < 600} {incr i} {proc p$i {} \"set x $i\"}; foreach r {1 2 3} {for {set i 0} {$i < 600} {incr i} {p$i}}; puts [p599]";
    let end = evaluated(alloc, &mut interp, 4, script, 20000)?;
    Ok(
        is_done(&end.outcome, 0, "", 10985)
            && end.devices.hold("599\n", "")
            && interp.compiles() >= 600
            && interp.compiles() < 700,
    )
}

#[test]
fn codes_of_many_procedures_are_kept(rt: HostRuntime) {
    expect(&rt, compiles_once(rt.alloc()), "600 procedures");
}
