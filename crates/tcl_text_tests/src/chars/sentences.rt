//! Numbers as texts, and what is said of texts that aren't what they must be.
use crate::answers::lies_between;
use std::alloc::{AllocError, Global};
use std::rc::RcStr;
use tcl_chars::{
    Arith, Dialect, Fault, Position, about, expect_number, expect_position, expect_truth, message,
    number_text, push_number, push_text,
};

/// Is this the sentence that was made?
fn is_made(made: Result<RcStr, AllocError>, want: &str) -> bool {
    match made {
        Ok(text) => text.as_str() == want,
        Err(_) => false,
    }
}

/// Does a fault say this?
fn says(fault: &Fault, want: &str) -> bool {
    match fault {
        Fault::Error(said) => said.as_str() == want,
        Fault::Memory => false,
    }
}

#[test]
fn numbers_as_texts(rt: HostRuntime) {
    for (number, want) in [
        (0, "0"),
        (i64::MAX, "9223372036854775807"),
        (i64::MIN, "-9223372036854775808"),
    ] {
        assert!(rt; is_made(number_text(rt.alloc(), number), want), "{want}");
    }
}

/// The numbers from -500 to 499, each with a comma behind it.
fn thousand_numbers(alloc: Global) -> Result<String, AllocError> {
    let mut text = String::new(alloc);
    for number in -500..500i64 {
        push_number(&mut text, number)?;
        push_text(&mut text, ",")?;
    }
    Ok(text)
}

#[test]
fn a_thousand_numbers_in_a_text(rt: HostRuntime) {
    let text = thousand_numbers(rt.alloc());
    assert!(rt; lies_between(text, "-500,-499,", ",498,499,", 4282));
}

#[test]
fn sentences(rt: HostRuntime) {
    let alloc = rt.alloc();
    assert!(rt; is_made(message(alloc, "empty expression"), "empty expression"));
    assert!(rt;
        is_made(
            about(alloc, "can't read", "é", ": no such variable"),
            "can't read \"é\": no such variable"
        )
    );
}

/// What should have been the text of the first fault that has another one.
fn wrongly_called(rows: &[(Arith, &'static str)]) -> Option<&'static str> {
    for row in rows {
        let (fault, want) = *row;
        if fault.text() != want {
            return Some(want);
        }
    }
    None
}

static ARITHMETIC_FAULTS: [(Arith, &str); 4] = [
    (Arith::Overflow, "integer overflow"),
    (Arith::DivideByZero, "divide by zero"),
    (Arith::ZeroPower, "exponentiation of zero by negative power"),
    (Arith::NegativeShift, "negative shift argument"),
];

#[test]
fn arithmetic_faults(rt: HostRuntime) {
    assert_eq!(rt; wrongly_called(&ARITHMETIC_FAULTS), None);
}

/// What a text is as a number, or what is said of it.
fn number_is(alloc: Global, text: &str, want: i64, complaint: &str) -> bool {
    match expect_number(alloc, text, Dialect::Tcl86) {
        Ok(number) => number == want,
        Err(fault) => says(&fault, complaint),
    }
}

/// What a text is as a truth, or what is said of it.
fn truth_is(alloc: Global, text: &str, want: bool, complaint: &str) -> bool {
    match expect_truth(alloc, text, Dialect::Tcl86) {
        Ok(truth) => truth == want,
        Err(fault) => says(&fault, complaint),
    }
}

/// What a text is as an index, or what is said of it.
fn position_is(alloc: Global, text: &str, want: Position, complaint: &str) -> bool {
    match expect_position(alloc, text, Dialect::Tcl86) {
        Ok(position) => position == want,
        Err(fault) => says(&fault, complaint),
    }
}

static LARGE: &str = "integer value too large to represent";

#[test]
fn texts_that_must_be_numbers(rt: HostRuntime) {
    let alloc = rt.alloc();
    assert!(rt; number_is(alloc, " 0x10", 16, ""));
    assert!(rt; number_is(alloc, "08", 0, "expected integer but got \"08\""));
    assert!(rt; number_is(alloc, "9223372036854775808", 0, LARGE));
}

#[test]
fn texts_that_must_be_truths(rt: HostRuntime) {
    let alloc = rt.alloc();
    assert!(rt; truth_is(alloc, "Off", false, ""));
    assert!(rt; truth_is(alloc, "7", true, ""));
    assert!(rt; truth_is(alloc, "o", true, "expected boolean value but got \"o\""));
    assert!(rt; truth_is(alloc, "9223372036854775808", true, LARGE));
}

#[test]
fn texts_that_must_be_indices(rt: HostRuntime) {
    let alloc = rt.alloc();
    let bad = "bad index \"x\": must be integer?[+-]integer? or end?[+-]integer?";
    let last = Position::End(-1);
    assert!(rt; position_is(alloc, "end-1", last, ""));
    assert!(rt; position_is(alloc, "end-9223372036854775808", last, LARGE));
    assert!(rt; position_is(alloc, "x", last, bad));
}
