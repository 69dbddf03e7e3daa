//! What is compiled in place: a loop has a turn back there, and each command that is inlined stands behind a guard.
use std::alloc::{AllocError, Global};
use tcl_chars::Dialect;
use tcl_code::{Code, Instr};
use tcl_compile::compile_script;
use tcl_names::Layout;

/// Is this a command that is inlined?
fn is_guard(instr: Option<Instr>) -> bool {
    matches!(instr, Some(Instr::Guard(_, _)))
}

/// How many commands of a code are inlined.
fn guards(code: &Code) -> usize {
    let mut count: usize = 0;
    for place in 0..code.len() {
        count = count.saturating_add(usize::from(is_guard(code.instr(place))));
    }
    count
}

fn compiled(alloc: Global, script: &str) -> Result<Code, AllocError> {
    let layout = Layout::new(alloc);
    compile_script(alloc, script, Dialect::Tcl86, &layout)
}

/// A script, how many turns back its code has, and how many commands that are inlined.
type Row = (&'static str, usize, usize);

fn has(code: Result<Code, AllocError>, row: &Row) -> bool {
    match code {
        Ok(code) => code.turns() == row.1 && guards(&code) == row.2,
        Err(_) => false,
    }
}

/// The first script whose code has other numbers.
fn wrong(alloc: Global, rows: &[Row]) -> Option<&'static str> {
    for row in rows {
        if !has(compiled(alloc, row.0), row) {
            return Some(row.0);
        }
    }
    None
}

static LOOPS: [Row; 14] = [
    ("while {$i < 3} {incr i}", 1, 2),
    ("for {} {$i < 3} {incr i} {}", 1, 2),
    ("foreach x {1 2} {}", 1, 1),
    ("if {$i} {while {$i < 3} {incr i}}", 1, 3),
    ("for {set i 0} {$i < 3} {incr i} {while 1 break}", 2, 5),
    ("while {$i <\\\n 3} {incr \\\n i}", 1, 2),
    ("foreach x {1 2} {incr \\\n x}", 1, 2),
    ("while $t {incr i}", 0, 0),
    ("for {} $t {} {}", 0, 0),
    ("foreach x {1 2} y $l {z w} [set l] {}", 1, 1),
    ("foreach x {1 2} $names $l {}", 0, 0),
    ("foreach x {1 2} {} $l {}", 0, 0),
    ("foreach x {1 2} $body", 0, 0),
    ("puts [while 1 {}]", 1, 1),
];

#[test]
fn loops_turn_in_place(rt: HostRuntime) {
    assert_eq!(rt; wrong(rt.alloc(), &LOOPS), None);
}

static COMMANDS: [Row; 11] = [
    ("set x $y", 0, 1),
    ("set x", 0, 0),
    ("incr x", 0, 1),
    ("incr x [incr y]", 0, 2),
    ("expr {$a + 1}", 0, 1),
    ("expr $a + 1", 0, 0),
    (
        "if {$a} {set x 1} elseif {$b} {set x 2} else {set x 3}",
        0,
        4,
    ),
    ("if \"\\$a\" {set x 1}", 0, 2),
    ("if $a {set x 1}", 0, 0),
    ("break; continue", 0, 2),
    ("::set x 1; lappend x 1", 0, 0),
];

#[test]
fn commands_of_literal_words_stand_in_place(rt: HostRuntime) {
    assert_eq!(rt; wrong(rt.alloc(), &COMMANDS), None);
}
