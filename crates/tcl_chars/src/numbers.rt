//! Number texts.
ghost use Rattle.std.specs.Prelude.{◌≡◌, ◌+◌, ◌-◌, ◌*◌, ◌≤◌, ◌<◌, ◌^◌, ◌++◌, [], length, IfOk, OnOk, OnErr, take, drop, min, option_map};
ghost use Rattle.std.specs.Str.{chars};
ghost use Rattle.std.specs.Fmt.{signed_decimal};
ghost use Rattle.std.specs.Str.Parse.{digits_value};
ghost use Rattle.std.specs.String.{string_bytes};
ghost use Rattle.tcl_chars.specs.Texts.{text_of};
ghost use Rattle.tcl_chars.specs.Whole.{skip_space, trim_end, trim, is_digits, decimal_of, sign_of, zero_radix, radix_of, digits_len, numeral, signed, magnitude, whole_of};

use crate::classes::is_list_space;
use crate::texts::{push_text, split_first, split_last};
use itoa::Buffer;
use std::alloc::{AllocError, Global};
use std::rc::RcStr;

/// Which texts are numbers.
#[derive(Clone, Copy, Debug, PartialEq, Eq)]
pub enum Dialect {
    /// Of Tcl 8.6: digits behind a zero are octal.
    Tcl86,
    /// Of Tcl 9: they are decimal, and `0o` alone begins an octal number.
    Tcl9,
}

/// What a text says as a whole number.
#[derive(Clone, Copy, Debug, PartialEq, Eq)]
pub enum Whole {
    Number(i64),
    TooLarge,
    Not,
}

/// What a text says as plain decimal digits.
#[derive(Clone, Copy, Debug, PartialEq, Eq)]
pub enum Decimal {
    /// At most 2^63 - 1.
    Number(u64),
    TooLarge,
    Not,
}

/// The text without the list space in front of it.
pub fn skip_space(text: &str) -> &str
    ensures { chars result.now ≡ skip_space (chars text.now) }
{
    let mut rest = text;
    while let Some((c, after)) = split_first(rest) {
        if !is_list_space(c) {
            return rest;
        }
        rest = after;
    }
    rest
}

/// The text without the list space behind it.
#[tactic(auto, using(crate::proofs::Trims::trims_at, crate::proofs::Trims::keeps_at))]
pub fn trim_end(text: &str) -> &str
    ensures { chars result.now ≡ trim_end (chars text.now) }
{
    let mut rest = text;
    while let Some((front, last)) = split_last(rest) {
        if !is_list_space(last) {
            return rest;
        }
        rest = front;
    }
    rest
}

/// The text without the list space round it.
pub fn trim(text: &str) -> &str
    ensures { chars result.now ≡ trim (chars text.now) }
{
    trim_end(skip_space(text))
}

/// Is there a minus in front, and what is left behind the sign?
fn split_sign(text: &str) -> (bool, &str)
    ensures negative { result.0 ≡ (sign_of (chars text.now)).0 }
    ensures rest { chars result.1.now ≡ (sign_of (chars text.now)).1 }
{
    let Some((c, rest)) = split_first(text) else {
        return (false, text);
    };
    if c == '-' {
        return (true, rest);
    }
    if c == '+' {
        return (false, rest);
    }
    (false, text)
}

/// The radix of digits behind a leading zero.
fn zero_radix(dialect: Dialect) -> u32
    ensures radix { result ≡ zero_radix dialect }
    ensures low { 2 ≤ result }
    ensures high { result ≤ 16 }
{
    match dialect {
        Dialect::Tcl86 => 8,
        Dialect::Tcl9 => 10,
    }
}

/// The radix of a number text without its sign, and where the digits begin.
fn split_radix(text: &str, dialect: Dialect) -> (u32, &str)
    ensures radix { result.0 ≡ (radix_of dialect (chars text.now)).0 }
    ensures rest { chars result.1.now ≡ (radix_of dialect (chars text.now)).1 }
    ensures low { 2 ≤ result.0 }
    ensures high { result.0 ≤ 16 }
{
    let Some((c, behind)) = split_first(text) else {
        return (10, text);
    };
    let Some((d, rest)) = split_first(behind) else {
        return (10, text);
    };
    if c != '0' {
        return (10, text);
    }
    match d {
        'x' | 'X' => (16, rest),
        'o' | 'O' => (8, rest),
        'b' | 'B' => (2, rest),
        '0'..='9' => (zero_radix(dialect), behind),
        _ => (10, text),
    }
}

/// The digits of a radix that a text begins with: the number that they write, or the greatest one
/// where that is greater, how many they are, and the text behind them.
fn split_digits(text: &str, radix: u32) -> (u64, usize, &str)
    requires low { 2 ≤ radix }
    requires high { radix ≤ 16 }
    ensures count { result.1 ≡ digits_len radix (chars text.now) }
    ensures value { result.0 ≡ min (digits_value radix (take result.1 (chars text.now))) (2 ^ 64 - 1) }
    ensures rest { chars result.2.now ≡ drop result.1 (chars text.now) }
{
    let mut rest = text;
    let mut value: u64 = 0;
    let mut taken = 0;
    while let Some((c, after)) = split_first(rest) {
        let Some(digit) = c.to_digit(radix) else {
            return (value, taken, rest);
        };
        value = value
            .saturating_mul(u64::from(radix))
            .saturating_add(u64::from(digit));
        taken += 1;
        rest = after;
    }
    (value, taken, rest)
}

/// The number that a text without its sign writes, or the greatest one where that is greater.
pub(crate) fn read_magnitude(text: &str, dialect: Dialect) -> Option<u64>
    ensures { result ≡ option_map (λ n. min n (2 ^ 64 - 1)) (magnitude dialect (chars text.now)) }
{
    let (radix, digits) = split_radix(text, dialect);
    let (value, taken, rest) = split_digits(digits, radix);
    if taken == 0 {
        return None;
    }
    if let Some(_) = split_first(skip_space(rest)) {
        return None;
    }
    Some(value)
}

/// What a text of decimal digits alone says: no sign, no white space, and leading zeros say nothing.
pub fn read_decimal(text: &str) -> Decimal
    ensures { result ≡ decimal_of (chars text.now) }
{
    let (value, taken, rest) = split_digits(text, 10);
    if taken == 0 {
        return Decimal::Not;
    }
    if let Some(_) = split_first(rest) {
        return Decimal::Not;
    }
    if value >= 0x8000_0000_0000_0000 {
        return Decimal::TooLarge;
    }
    Decimal::Number(value)
}

/// The decimal text of a number.
pub fn number_text(alloc: Global, number: i64) -> Result<RcStr, AllocError>
    ensures { IfOk result (λ s. text_of s ≡ signed_decimal number) }
{
    RcStr::from_str(alloc, Buffer::new().format(number))
}

/// Writes the decimal text of a number at the end of a text. A refused growth leaves the text as it is.
pub fn push_number(text: &mut String, number: i64) -> Result<(), AllocError>
    ensures ok { OnOk result (chars (string_bytes text.new) ≡ chars (string_bytes text.old) ++ signed_decimal number) }
    ensures same { OnErr result (string_bytes text.new ≡ string_bytes text.old) }
{
    push_text(text, Buffer::new().format(number))
}

/// A number with its sign, where 64 bits hold it.
fn with_sign(negative: bool, size: u64) -> Whole
    ensures { result ≡ signed negative (Some size) }
{
    if negative {
        if size < 0x8000_0000_0000_0000 {
            Whole::Number(-(size as i64))
        } else if size == 0x8000_0000_0000_0000 {
            Whole::Number(i64::MIN)
        } else {
            Whole::TooLarge
        }
    } else if size < 0x8000_0000_0000_0000 {
        Whole::Number(size as i64)
    } else {
        Whole::TooLarge
    }
}

/// What a text says as a whole number of 64 bits (expr(n), Operands), with list space round it passed over.
pub fn read_whole(text: &str, dialect: Dialect) -> Whole
    ensures { result ≡ whole_of dialect (chars text.now) }
{
    let (negative, digits) = split_sign(skip_space(text));
    let Some(size) = read_magnitude(digits, dialect) else {
        return Whole::Not;
    };
    with_sign(negative, size)
}
