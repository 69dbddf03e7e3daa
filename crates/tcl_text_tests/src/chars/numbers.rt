//! Numbers and truth words.
use tcl_chars::{Decimal, Dialect, Truth, Whole, read_decimal, read_truth, read_whole};

/// The first text that is read as something else.
fn wrongly_read(rows: &[(&'static str, Whole)], dialect: Dialect) -> Option<&'static str> {
    for row in rows {
        let (text, want) = *row;
        if read_whole(text, dialect) != want {
            return Some(text);
        }
    }
    None
}

const GREATEST: Whole = Whole::Number(i64::MAX);

const LEAST: Whole = Whole::Number(i64::MIN);

static ENDS: [(&str, Whole); 25] = [
    ("9223372036854775807", GREATEST),
    ("+9223372036854775807", GREATEST),
    ("0x7fffffffffffffff", GREATEST),
    ("+0X7FFFFFFFFFFFFFFF", GREATEST),
    ("0o777777777777777777777", GREATEST),
    ("+0O777777777777777777777", GREATEST),
    (
        "0b111111111111111111111111111111111111111111111111111111111111111",
        GREATEST,
    ),
    ("0777777777777777777777", GREATEST),
    ("-9223372036854775808", LEAST),
    ("-0x8000000000000000", LEAST),
    ("-0o1000000000000000000000", LEAST),
    (
        "-0b1000000000000000000000000000000000000000000000000000000000000000",
        LEAST,
    ),
    ("-01000000000000000000000", LEAST),
    ("9223372036854775808", Whole::TooLarge),
    ("+0x8000000000000000", Whole::TooLarge),
    ("0o1000000000000000000000", Whole::TooLarge),
    (
        "0B1000000000000000000000000000000000000000000000000000000000000000",
        Whole::TooLarge,
    ),
    ("01000000000000000000000", Whole::TooLarge),
    ("-9223372036854775809", Whole::TooLarge),
    ("-0x8000000000000001", Whole::TooLarge),
    ("-0o1000000000000000000001", Whole::TooLarge),
    (
        "-0b1000000000000000000000000000000000000000000000000000000000000001",
        Whole::TooLarge,
    ),
    ("-01000000000000000000001", Whole::TooLarge),
    ("18446744073709551616", Whole::TooLarge),
    ("99999999999999999999999999", Whole::TooLarge),
];

#[test]
fn ends_of_the_range(rt: HostRuntime) {
    assert_eq!(rt; wrongly_read(&ENDS, Dialect::Tcl86), None);
}

static FORMS: [(&str, Whole); 38] = [
    ("0", Whole::Number(0)),
    ("-0", Whole::Number(0)),
    ("+0", Whole::Number(0)),
    ("00", Whole::Number(0)),
    ("0x0", Whole::Number(0)),
    ("0o0", Whole::Number(0)),
    ("0b0", Whole::Number(0)),
    (" \t0\n", Whole::Number(0)),
    ("8", Whole::Number(8)),
    ("010", Whole::Number(8)),
    ("0o10", Whole::Number(8)),
    ("0x8", Whole::Number(8)),
    ("0b1000", Whole::Number(8)),
    ("+010", Whole::Number(8)),
    (" 0x08\n", Whole::Number(8)),
    ("-0b101", Whole::Number(-5)),
    ("-5", Whole::Number(-5)),
    ("-0x5", Whole::Number(-5)),
    ("08", Whole::Not),
    ("09", Whole::Not),
    ("0o8", Whole::Not),
    ("0b2", Whole::Not),
    ("0xg", Whole::Not),
    ("0x", Whole::Not),
    ("0o", Whole::Not),
    ("0b", Whole::Not),
    ("+", Whole::Not),
    ("-", Whole::Not),
    ("", Whole::Not),
    (" ", Whole::Not),
    ("1 2", Whole::Not),
    ("1.0", Whole::Not),
    ("--1", Whole::Not),
    ("+-1", Whole::Not),
    ("- 1", Whole::Not),
    ("1e3", Whole::Not),
    ("0_1", Whole::Not),
    ("a", Whole::Not),
];

#[test]
fn number_forms(rt: HostRuntime) {
    assert_eq!(rt; wrongly_read(&FORMS, Dialect::Tcl86), None);
}

static FORMS_OF_TCL_9: [(&str, Whole); 28] = [
    ("0", Whole::Number(0)),
    ("00", Whole::Number(0)),
    ("-000", Whole::Number(0)),
    ("0o0", Whole::Number(0)),
    ("8", Whole::Number(8)),
    ("08", Whole::Number(8)),
    ("0o10", Whole::Number(8)),
    ("0x8", Whole::Number(8)),
    ("0b1000", Whole::Number(8)),
    ("+008", Whole::Number(8)),
    (" 08\n", Whole::Number(8)),
    ("10", Whole::Number(10)),
    ("010", Whole::Number(10)),
    ("+0010", Whole::Number(10)),
    (" 010 ", Whole::Number(10)),
    ("0o12", Whole::Number(10)),
    ("0xa", Whole::Number(10)),
    ("-08", Whole::Number(-8)),
    ("-0o10", Whole::Number(-8)),
    ("0o8", Whole::Not),
    ("0b2", Whole::Not),
    ("08a", Whole::Not),
    ("0 8", Whole::Not),
    ("0_8", Whole::Not),
    ("0x", Whole::Not),
    ("0o", Whole::Not),
    ("", Whole::Not),
    ("009223372036854775808", Whole::TooLarge),
];

#[test]
fn number_forms_of_tcl_9(rt: HostRuntime) {
    assert_eq!(rt; wrongly_read(&FORMS_OF_TCL_9, Dialect::Tcl9), None);
}

/// The first text that means another truth.
fn wrongly_meant(rows: &[(&'static str, Truth)]) -> Option<&'static str> {
    for row in rows {
        let (text, want) = *row;
        if read_truth(text, Dialect::Tcl86) != want {
            return Some(text);
        }
    }
    None
}

static TRUTHS: [(&str, Truth); 33] = [
    ("true", Truth::Yes),
    ("TRUE", Truth::Yes),
    ("tr", Truth::Yes),
    ("t", Truth::Yes),
    ("yes", Truth::Yes),
    ("Y", Truth::Yes),
    ("on", Truth::Yes),
    ("ON", Truth::Yes),
    ("1", Truth::Yes),
    ("7", Truth::Yes),
    (" -1 ", Truth::Yes),
    ("0x10", Truth::Yes),
    ("false", Truth::No),
    ("fal", Truth::No),
    ("f", Truth::No),
    ("no", Truth::No),
    ("n", Truth::No),
    ("off", Truth::No),
    ("of", Truth::No),
    ("OFF", Truth::No),
    ("0", Truth::No),
    ("00", Truth::No),
    (" 0 ", Truth::No),
    ("0x0", Truth::No),
    ("o", Truth::Not),
    ("", Truth::Not),
    ("e", Truth::Not),
    ("yess", Truth::Not),
    ("tru e", Truth::Not),
    (" true", Truth::Not),
    ("truee", Truth::Not),
    ("08", Truth::Not),
    ("9223372036854775808", Truth::TooLarge),
];

#[test]
fn truth_words(rt: HostRuntime) {
    assert_eq!(rt; wrongly_meant(&TRUTHS), None);
}

/// The first text that is read as something else.
fn wrong_decimal(rows: &[(&'static str, Decimal)]) -> Option<&'static str> {
    for row in rows {
        let (text, want) = *row;
        if read_decimal(text) != want {
            return Some(text);
        }
    }
    None
}

static DECIMALS: [(&str, Decimal); 13] = [
    ("0", Decimal::Number(0)),
    ("0042", Decimal::Number(42)),
    (
        "9223372036854775807",
        Decimal::Number(0x7fff_ffff_ffff_ffff),
    ),
    ("9223372036854775808", Decimal::TooLarge),
    ("99999999999999999999999", Decimal::TooLarge),
    ("", Decimal::Not),
    ("+1", Decimal::Not),
    ("-1", Decimal::Not),
    (" 1", Decimal::Not),
    ("1 ", Decimal::Not),
    ("0x1", Decimal::Not),
    ("1a", Decimal::Not),
    ("٣", Decimal::Not),
];

#[test]
fn plain_digits(rt: HostRuntime) {
    assert_eq!(rt; wrong_decimal(&DECIMALS), None);
}
