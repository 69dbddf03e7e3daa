//! Commands on lists: each once with ample memory, and many elements. Expected texts are from the manual and tclsh 8.6.
use crate::answers::{counts, is, repeated, said, value, words};
use std::alloc::Global;
use std::rc::RcStr;
use tcl_chars::{Dialect, Fault};
use tcl_lists::{
    concat, lindex, linsert, list, llength, lrange, lrepeat, lreplace, lreverse, lsearch, lsort,
};
use tcl_values::Value;

fn answered(alloc: Global, command: &str, words: &mut [Value]) -> Result<Value, Fault> {
    match command {
        "concat" => Ok(concat(alloc, words)?),
        "lindex" => lindex(alloc, words, Dialect::Tcl86),
        "linsert" => linsert(alloc, words, Dialect::Tcl86),
        "list" => Ok(list(alloc, words)?),
        "llength" => llength(alloc, words),
        "lrange" => lrange(alloc, words, Dialect::Tcl86),
        "lrepeat" => lrepeat(alloc, words, Dialect::Tcl86),
        "lreplace" => lreplace(alloc, words, Dialect::Tcl86),
        "lreverse" => lreverse(alloc, words),
        "lsearch" => lsearch(alloc, words),
        _ => lsort(alloc, words, Dialect::Tcl86),
    }
}

/// What the command says of the words of a line.
fn ran(alloc: Global, command: &str, line: &str) -> Result<RcStr, Fault> {
    let mut words = words(alloc, line)?;
    said(alloc, answered(alloc, command, &mut words))
}

/// A command, the words behind its name as a list, and what it says.
type Row = (&'static str, &'static str, &'static str);

/// The words of the first row whose command says something else.
fn wrong(alloc: Global, rows: &[Row]) -> Option<&'static str> {
    for row in rows {
        let (command, line, want) = *row;
        if !is(ran(alloc, command, line), want) {
            return Some(line);
        }
    }
    None
}

static BY_INDICES: [Row; 4] = [
    ("lindex", "{a {b c} d} {1 1}", "c"),
    ("lindex", "{a {b c} d} 1 end", "c"),
    ("lindex", "{a b} 5", ""),
    (
        "lindex",
        r"{a b} {\{}",
        r#"bad index "{": must be integer?[+-]integer? or end?[+-]integer?"#,
    ),
];

#[test]
fn elements_by_indices(rt: HostRuntime) {
    assert_eq!(rt; wrong(rt.alloc(), &BY_INDICES), None);
}

static JOINED_AND_REPEATED: [Row; 4] = [
    ("concat", "{ a b } {} {c {d e}} {  f}", "a b c {d e} f"),
    ("concat", r"{a\ } b", r"a\  b"),
    ("lrepeat", "3 a {b c}", "a {b c} a {b c} a {b c}"),
    ("lrepeat", "-1 a", r#"bad count "-1": must be integer >= 0"#),
];

#[test]
fn elements_joined_and_repeated(rt: HostRuntime) {
    assert_eq!(rt; wrong(rt.alloc(), &JOINED_AND_REPEATED), None);
}

static THAT_FIT: [Row; 4] = [
    ("lsearch", "{a b ab} ?b", "2"),
    ("lsearch", "-all -inline -not {a b ab} a*", "b"),
    ("lsearch", "-exact {a b a*} c", "-1"),
    ("lsearch", r"-glob a\ \{ a", "unmatched open brace in list"),
];

#[test]
fn elements_that_fit(rt: HostRuntime) {
    assert_eq!(rt; wrong(rt.alloc(), &THAT_FIT), None);
}

static IN_ORDER: [Row; 4] = [
    ("lsort", "{b a C 10 9}", "10 9 C a b"),
    (
        "lsort",
        "-integer -decreasing {10 9 -3 0x10}",
        "0x10 10 9 -3",
    ),
    ("lsort", "-integer -unique {1 0x1 2}", "0x1 2"),
    ("lsort", "-integer {1 x}", r#"expected integer but got "x""#),
];

#[test]
fn elements_in_order(rt: HostRuntime) {
    assert_eq!(rt; wrong(rt.alloc(), &IN_ORDER), None);
}

static PARTS_AND_WHOLES: [Row; 6] = [
    ("lrange", "{a b c d} 1 end-1", "b c"),
    ("linsert", "{a b} end {c d}", "a b {c d}"),
    ("lreplace", "{a b c} 1 1 x y", "a x y c"),
    ("lreverse", "{a {b c}}", "{b c} a"),
    ("list", "a {b c} {}", "a {b c} {}"),
    ("llength", "{a {b c}}", "2"),
];

#[test]
fn parts_of_lists_and_whole_ones(rt: HostRuntime) {
    assert_eq!(rt; wrong(rt.alloc(), &PARTS_AND_WHOLES), None);
}

/// A thousand numbers, one of them in the place of each, as a list.
fn mixed(alloc: Global) -> Result<Value, Fault> {
    let mut made = Vec::new(alloc);
    for number in 0..1000 {
        made.push(Value::of_int(i64::wrapping_mul(number, 7) % 1000))?;
    }
    Ok(Value::of_list(alloc, made)?)
}

/// Many elements, sorted and searched: the place of the last.
fn many(alloc: Global) -> Result<RcStr, Fault> {
    let mut sort = words(alloc, "-integer")?;
    sort.push(mixed(alloc)?)?;
    let mut search = Vec::new(alloc);
    search.push(lsort(alloc, &mut sort, Dialect::Tcl86)?)?;
    search.push(Value::of_int(999))?;
    said(alloc, lsearch(alloc, &mut search))
}

#[test]
fn a_thousand_numbers(rt: HostRuntime) {
    assert!(rt; is(many(rt.alloc()), "999"));
}

/// Commands on `a {b c}` a thousand times, which is two thousand elements, with the words of a line behind it, and how many bytes
/// they answer.
static LARGE: [(&str, &str, usize); 7] = [
    ("concat", "{{d e}}", 8005),
    ("linsert", "end {x y}", 8005),
    ("list", "z", 8004),
    ("lrange", "1 end-1", 7991),
    ("lreplace", "1 1 x y", 7997),
    ("lreverse", "", 7999),
    ("lsort", "", 7999),
];

/// How many bytes the command answers.
fn size(alloc: Global, command: &str, more: &str) -> Result<usize, Fault> {
    let large = repeated(alloc, "", "a {b c} ", 1000, "")?;
    let mut words = words(alloc, more)?;
    words.insert(0, value(alloc, large.as_str())?)?;
    Ok(said(alloc, answered(alloc, command, &mut words))?.len())
}

/// The first command that answers another number of bytes.
fn other_size(alloc: Global, rows: &[(&'static str, &'static str, usize)]) -> Option<&'static str> {
    for row in rows {
        let (command, more, want) = *row;
        if !counts(size(alloc, command, more), want) {
            return Some(command);
        }
    }
    None
}

#[test]
fn two_thousand_elements(rt: HostRuntime) {
    assert_eq!(rt; other_size(rt.alloc(), &LARGE), None);
}
