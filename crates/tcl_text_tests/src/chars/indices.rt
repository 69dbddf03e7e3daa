//! Indices, and the places that they name.
use tcl_chars::{Dialect, Index, clamp, place_of, read_index};

/// The place that an index names among five elements.
fn index_at(text: &str) -> Option<i128> {
    match read_index(text, Dialect::Tcl86) {
        Index::At(position) => Some(place_of(position, 5)),
        _ => None,
    }
}

/// The first text that names another place.
fn wrongly_placed(rows: &[(&'static str, i128)]) -> Option<&'static str> {
    for row in rows {
        let (text, want) = *row;
        if index_at(text) != Some(want) {
            return Some(text);
        }
    }
    None
}

static INDICES: [(&str, i128); 18] = [
    ("0", 0),
    (" 3 ", 3),
    ("end", 4),
    ("end-1", 3),
    ("end+2", 6),
    ("1+1", 2),
    ("-1", -1),
    ("+1", 1),
    ("-1+2", 1),
    ("1-3", -2),
    ("end-0x2", 2),
    ("0x3-1", 2),
    ("010", 8),
    ("1-010", -7),
    ("-0x1+3", 2),
    ("+0x1+0b1", 2),
    (
        "9223372036854775807+9223372036854775807",
        18446744073709551614,
    ),
    (
        "-9223372036854775808-9223372036854775807",
        -18446744073709551615,
    ),
];

#[test]
fn indices(rt: HostRuntime) {
    assert_eq!(rt; wrongly_placed(&INDICES), None);
}

/// The first text that is read as something else.
fn wrongly_named(rows: &[(&'static str, Index)]) -> Option<&'static str> {
    for row in rows {
        let (text, want) = *row;
        if read_index(text, Dialect::Tcl86) != want {
            return Some(text);
        }
    }
    None
}

static NO_INDICES: [(&str, Index); 26] = [
    ("", Index::Not),
    ("+", Index::Not),
    ("1+", Index::Not),
    ("end+", Index::Not),
    ("en", Index::Not),
    ("08", Index::Not),
    ("1+08", Index::Not),
    ("end-08", Index::Not),
    ("1 + 1", Index::Not),
    ("1+ 1", Index::Not),
    (" 1+1", Index::Not),
    ("1+1 ", Index::Not),
    (" end", Index::Not),
    ("end ", Index::Not),
    ("end -1", Index::Not),
    ("1+-1", Index::Not),
    ("end--1", Index::Not),
    ("1+1+1", Index::Not),
    ("1-end", Index::Not),
    ("end-end", Index::Not),
    ("9223372036854775808+x", Index::Not),
    ("x+9223372036854775808", Index::Not),
    ("9223372036854775808", Index::TooLarge),
    ("end-9223372036854775808", Index::TooLarge),
    ("1+9223372036854775808", Index::TooLarge),
    ("-9223372036854775809+1", Index::TooLarge),
];

#[test]
fn no_indices(rt: HostRuntime) {
    assert_eq!(rt; wrongly_named(&NO_INDICES), None);
}

/// The first place that comes to another one within a length.
fn wrongly_clamped(rows: &[(i128, usize, usize)]) -> Option<i128> {
    for row in rows {
        let (place, length, want) = *row;
        if clamp(place, length) != want {
            return Some(place);
        }
    }
    None
}

static IN_REACH: [(i128, usize, usize); 5] = [
    (-1, 3, 0),
    (2, 3, 2),
    (3, 3, 3),
    (i128::MAX, 3, 3),
    (i128::MIN, 0, 0),
];

#[test]
fn places_in_reach(rt: HostRuntime) {
    assert_eq!(rt; wrongly_clamped(&IN_REACH), None);
}
