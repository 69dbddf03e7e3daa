//! Large texts: a long chain stays flat, so neither the parser nor a drop goes deep.

use super::show::counted;
use super::texts::nested;
use std::alloc::Global;

/// A front, a part, how often it stands there, a back, and how many parts are counted.
type Row = (&'static str, &'static str, usize, &'static str, usize);

static LARGE_TEXTS: [Row; 7] = [
    ("", "1+", 200_000, "1", 200_000),
    ("", "1*1+1==1&&", 15_000, "1", 15_000),
    ("", "$a eq [b] || ", 15_000, "1", 15_000),
    ("", "(1)-!2 in ", 15_000, "1", 15_000),
    ("", "7", 1_000_000, "", 1),
    ("", "7", 1_000_000, "x", 0),
    ("max(1", ", $a", 999, ")", 1000),
];

/// The first part of which another number is counted.
fn wrong(alloc: Global, rows: &[Row]) -> Option<&'static str> {
    for row in rows {
        let (front, part, times, back, want) = *row;
        if counted(alloc, nested(alloc, front, part, times, back, "")) != Some(want) {
            return Some(part);
        }
    }
    None
}

#[test]
fn large_texts(rt: HostRuntime) {
    assert_eq!(rt; wrong(rt.alloc(), &LARGE_TEXTS), None);
}
