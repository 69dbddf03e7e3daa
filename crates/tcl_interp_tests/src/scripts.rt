//! What scripts put out and answer, and what they cost.

use super::setting::{evaluated, expect, fresh, is_done};
use std::alloc::Global;
use tcl_chars::Fault;

/// A script, the units that it spends, its answer, and what it puts out.
type Row = (&'static str, u64, &'static str, &'static str);

/// Does a script end with this code, as its row says, where it has some units to spare?
fn ends(alloc: Global, row: &Row, code: i64, spare: u64) -> Result<bool, Fault> {
    let (script, cost, answer, out) = *row;
    let mut interp = fresh(alloc)?;
    let end = evaluated(alloc, &mut interp, 64, script, cost.saturating_add(spare))?;
    Ok(is_done(&end.outcome, code, answer, spare) && end.devices.hold(out, ""))
}

/// Does it end so with the units that it spends, and with more?
fn agrees(alloc: Global, row: &Row, code: i64) -> Result<bool, Fault> {
    Ok(ends(alloc, row, code, 0)? && ends(alloc, row, code, 3)?)
}

static WORDS: [Row; 11] = [
    ("", 0, "", ""),
    ("# a [\nputs x", 1, "", "x\n"),
    ("puts \\400", 1, "", " 0\n"),
    ("set x 1; puts \"$x;$x\"", 2, "", "1;1\n"),
    (
        "set {x y} 3; puts ${x y}; puts $; puts a{b",
        4,
        "",
        "3\n$\na{b\n",
    ),
    ("set x 5;set y $x$x;set y", 3, "55", ""),
    ("set a(1(2)) 7; set a(1(2))", 2, "7", ""),
    ("::set ::x 1; puts -nonewline $x", 2, "", "1"),
    ("puts -nonewline stdout é;puts stdout b", 2, "", "éb\n"),
    ("set a(x) 1; set i x; puts $a($i)[set a(x)]", 4, "", "11\n"),
    ("puts [list {*}{a {b c}} {*} d]", 2, "", "a {b c} * d\n"),
];

#[test]
fn words(rt: HostRuntime) {
    for row in &WORDS {
        expect(&rt, agrees(rt.alloc(), row, 0), row.0);
    }
}

static VALUES: [Row; 11] = [
    ("puts [expr {-7 / 2}],[expr {-7 % 2}]", 3, "", "-4,1\n"),
    ("set x \"a  b\"; llength $x; puts $x", 3, "", "a  b\n"),
    (
        "set d {a 1 a 2}; puts \"[dict size $d] [llength $d] [dict get $d a] $d\"",
        5,
        "",
        "1 4 2 a 1 a 2\n",
    ),
    (
        "set x {1 2}; set y $x; lappend x 3; puts \"$x|$y\"",
        4,
        "",
        "1 2 3|1 2\n",
    ),
    ("list # {} {a b} \\{ a\\\\", 1, "{#} {} {a b} \\{ a\\\\", ""),
    (
        "format {%05d|%-5s|%x|%#o} -42 ab -1 8",
        1,
        "-0042|ab   |ffffffffffffffff|010",
        "",
    ),
    ("expr {-2 ** 2}; expr {2 ** 3 ** 2}", 2, "512", ""),
    ("string map {a b ab c} ab", 1, "bb", ""),
    ("lsort -unique -integer {3 0x3 1}", 1, "1 0x3", ""),
    (
        "array set a {x 1 y 2}; puts [array size a],[array names a]",
        4,
        "",
        "2,x y\n",
    ),
    (
        "dict set d k v; dict set d l w; dict for {k v} $d {append s $k $v}; set s",
        8,
        "kvlw",
        "",
    ),
];

#[test]
fn values(rt: HostRuntime) {
    for row in &VALUES {
        expect(&rt, agrees(rt.alloc(), row, 0), row.0);
    }
}

static CONTROL: [Row; 8] = [
    ("set i 0; while {$i < 3} {incr i}; puts $i", 9, "", "3\n"),
    (
        "set i 0; expr {0 && [incr i]}; expr {1 || [incr i]}; set i",
        4,
        "0",
        "",
    ),
    ("for {set i 0} {$i < 2} {incr i} {puts $i}", 8, "", "0\n1\n"),
    ("foreach {a b} {1 2 3} {puts $a,$b}", 5, "", "1,2\n3,\n"),
    (
        "lmap x {1 2 3} {if {$x == 2} continue; expr {$x * $x}}",
        10,
        "1 9",
        "",
    ),
    ("switch b {a {set x 1} b {set x 2}}", 2, "2", ""),
    ("if {0} {puts [}; puts ok", 2, "", "ok\n"),
    (
        "catch {error boom} m; puts $m; catch {return -code 7 -level 0 r}",
        5,
        "7",
        "boom\n",
    ),
];

#[test]
fn control(rt: HostRuntime) {
    for row in &CONTROL {
        expect(&rt, agrees(rt.alloc(), row, 0), row.0);
    }
}

static PROCEDURES: [Row; 7] = [
    (
        "proc while {a b} {return mine}; puts [while 0 {}]",
        4,
        "",
        "mine\n",
    ),
    (
        "proc p {} {return -code break}; while 1 {p; puts no}; puts out",
        6,
        "",
        "out\n",
    ),
    (
        "proc p {} {upvar 1 v w; set w 5; unset w; set w 6; uplevel 1 {append v 7}}; p; puts $v",
        9,
        "",
        "67\n",
    ),
    (
        "proc r {} {list [info level] [uplevel 1 {set v}]}; proc q {} {set v q; uplevel 1 {r}}; proc p {} {set v p; q}; p",
        13,
        "2 p",
        "",
    ),
    (
        "set b {set c 1; puts $c}; eval $b; rename puts p; p [eval {set c}]",
        8,
        "",
        "1\n1\n",
    ),
    (
        "apply {{a {b 2} args} {list $a $b $args}} 1",
        2,
        "1 2 {}",
        "",
    ),
    (
        "proc f n {expr {$n < 2 ? 1 : $n * [f [expr {$n - 1}]]}}; f 5",
        15,
        "120",
        "",
    ),
];

#[test]
fn procedures(rt: HostRuntime) {
    for row in &PROCEDURES {
        expect(&rt, agrees(rt.alloc(), row, 0), row.0);
    }
}

/// Does a script that writes to the error output end well?
fn writes_errors(alloc: Global) -> Result<bool, Fault> {
    let mut interp = fresh(alloc)?;
    let script = "puts stderr a; puts -nonewline stderr b";
    let end = evaluated(alloc, &mut interp, 64, script, 2)?;
    Ok(is_done(&end.outcome, 0, "", 0) && end.devices.hold("", "a\nb"))
}

#[test]
fn the_error_output(rt: HostRuntime) {
    expect(&rt, writes_errors(rt.alloc()), "both lines");
}

static MALFORMED_WORDS_AND_VARIABLES: [Row; 14] = [
    ("puts a; puts {", 1, "missing close-brace", "a\n"),
    ("puts {a}b", 0, "extra characters after close-brace", ""),
    ("puts [set x", 0, "missing close-bracket", ""),
    ("if {1} {puts [}; puts ok", 1, "missing close-bracket", ""),
    (
        "set a(1) 2; puts $a",
        2,
        "can't read \"a\": variable is array",
        "",
    ),
    (
        "puts $x; puts b",
        1,
        "can't read \"x\": no such variable",
        "",
    ),
    ("puts $a(1)", 1, "can't read \"a(1)\": no such variable", ""),
    (
        "set x 1; set x(1) 2",
        2,
        "can't set \"x(1)\": variable isn't array",
        "",
    ),
    (
        "set x(1) 1; set x(2)",
        2,
        "can't read \"x(2)\": no such element in array",
        "",
    ),
    (
        "puts a; no such; puts b",
        2,
        "invalid command name \"no\"",
        "a\n",
    ),
    (
        "set",
        1,
        "wrong # args: should be \"set varName ?newValue?\"",
        "",
    ),
    (
        "puts",
        1,
        "wrong # args: should be \"puts ?-nonewline? ?channelId? string\"",
        "",
    ),
    (
        "puts there a",
        1,
        "can not find channel named \"there\"",
        "",
    ),
    (
        "puts stdin a",
        1,
        "channel \"stdin\" wasn't opened for writing",
        "",
    ),
];

#[test]
fn malformed_words_and_variables(rt: HostRuntime) {
    for row in &MALFORMED_WORDS_AND_VARIABLES {
        expect(&rt, agrees(rt.alloc(), row, 1), row.0);
    }
}

static ERRORS_OF_COMMANDS: [Row; 14] = [
    ("error boom", 1, "boom", ""),
    ("break", 1, "invoked \"break\" outside of a loop", ""),
    (
        "return -code 7 -level 0 r",
        1,
        "command returned bad code: 7",
        "",
    ),
    (
        "exit 256",
        1,
        "bad exit status \"256\": must be 0 to 255",
        "",
    ),
    ("expr {9223372036854775807 + 1}", 1, "integer overflow", ""),
    ("expr {08 + 1}", 1, "invalid bareword \"08\"", ""),
    ("expr {1 / 0}", 1, "divide by zero", ""),
    (
        "lindex {a b} x",
        1,
        "bad index \"x\": must be integer?[+-]integer? or end?[+-]integer?",
        "",
    ),
    ("puts [lindex {a {b} 0]", 0, "missing close-brace", ""),
    ("llength {a {b}", 0, "missing close-brace", ""),
    (
        "dict get {a 1} b",
        1,
        "key \"b\" not known in dictionary",
        "",
    ),
    (
        "set x 5; upvar 0 x x",
        2,
        "can't upvar from variable to itself",
        "",
    ),
    ("proc p a {}; p", 2, "wrong # args: should be \"p a\"", ""),
    (
        "proc f n {f $n}; f 1",
        1001,
        "too many nested evaluations (infinite loop?)",
        "",
    ),
];

#[test]
fn errors_of_commands(rt: HostRuntime) {
    for row in &ERRORS_OF_COMMANDS {
        expect(&rt, agrees(rt.alloc(), row, 1), row.0);
    }
}
