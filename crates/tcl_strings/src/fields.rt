//! What the fields of a format show: format(n).

ghost use Rattle.std.specs.Prelude.{◌≡◌, ◌++◌, replicate, take, IfOk, OnOk};
ghost use Rattle.std.specs.Fmt.{digits};
ghost use Rattle.std.specs.Str.{chars};
ghost use Rattle.std.specs.String.{string_bytes};
ghost use Rattle.tcl_pages.specs.Formats as spec;

use crate::places::{count, front, room};
use std::alloc::{AllocError, Global};
use tcl_chars::{push, push_text};
use tcl_pages::{Field, Layout, NumberForm};

/// Writes a character `count` times at the end of a text.
fn push_many(text: &mut String, c: char, count: usize) -> Result<(), AllocError>
    ensures { OnOk result (chars (string_bytes text.new) ≡ chars (string_bytes text.old) ++ replicate count c) }
{
    let mut left = count;
    while left > 0 {
        push(text, c)?;
        left -= 1;
    }
    Ok(())
}

/// The text with spaces up to the width.
pub(crate) fn padded(alloc: Global, layout: Layout, text: &str) -> Result<String, AllocError>
    ensures { IfOk result (λ s. chars (string_bytes s) ≡ spec.padded layout (chars text.now)) }
{
    let spaces = (layout.width as usize).saturating_sub(count(text));
    let mut padded = room(alloc, text.len())?;
    if layout.left {
        push_text(&mut padded, text)?;
        push_many(&mut padded, ' ', spaces)?;
    } else {
        push_many(&mut padded, ' ', spaces)?;
        push_text(&mut padded, text)?;
    }
    Ok(padded)
}

/// How many digits there must be at least.
fn least_digits(field: Field, layout: Layout, front: usize) -> usize
    ensures { result ≡ spec.least_digits field layout front layout.precision }
{
    match layout.precision {
        Some(precision) => precision as usize,
        None => {
            if field.zeros && !layout.left {
                (layout.width as usize).saturating_sub(front)
            } else {
                0
            }
        }
    }
}

/// Digits behind a sign or a prefix, with zeros and spaces.
fn number_text_of(
    alloc: Global,
    field: Field,
    layout: Layout,
    front: &str,
    digits: &str,
) -> Result<String, AllocError>
    ensures { IfOk result (λ s. chars (string_bytes s) ≡ spec.number_text_of field layout (chars front.now) (chars digits.now)) }
{
    let least = least_digits(field, layout, count(front));
    let mut text = room(alloc, front.len())?;
    push_text(&mut text, front)?;
    push_many(&mut text, '0', least.saturating_sub(count(digits)))?;
    push_text(&mut text, digits)?;
    padded(alloc, layout, text.as_str())
}

/// A negative number as its two's complement of 64 bits.
fn unsigned(number: i64) -> u64
    ensures { result ≡ spec.unsigned number }
{
    if number < 0 {
        u64::MAX - (number.unsigned_abs() - 1)
    } else {
        number as u64
    }
}

/// The sign of a number that is written with one.
#[tactic(auto, using(crate::proofs::Empty::no_chars))]
fn sign_of_field(field: Field, number: i64) -> &'static str
    ensures { chars result.now ≡ spec.sign_of_field field number }
{
    if number < 0 {
        "-"
    } else if field.plus {
        "+"
    } else if field.gap {
        " "
    } else {
        ""
    }
}

/// The prefix of a number, where it is to have one.
#[tactic(auto, using(crate::proofs::Empty::no_chars))]
fn prefix(field: Field, text: &'static str, number: i64) -> &'static str
    ensures { chars result.now ≡ spec.prefix field (chars text.entry.now) number }
{
    if field.hash && unsigned(number) != 0 {
        text
    } else {
        ""
    }
}

/// What stands in front of the digits: a sign or a prefix.
#[tactic(auto, using(crate::proofs::Empty::no_chars))]
fn front_of(field: Field, form: NumberForm, number: i64) -> &'static str
    ensures { chars result.now ≡ spec.front_of field form number }
{
    match form {
        NumberForm::Signed => sign_of_field(field, number),
        NumberForm::Unsigned => "",
        NumberForm::Hex => prefix(field, "0x", number),
        NumberForm::UpperHex => prefix(field, "0X", number),
        NumberForm::Octal => prefix(field, "0", number),
        NumberForm::Binary => prefix(field, "0b", number),
    }
}

/// The digits of a number.
#[tactic(auto, using(crate::proofs::Figures::chars_digits))]
fn digits_of(alloc: Global, form: NumberForm, number: i64) -> Result<String, AllocError>
    ensures { IfOk result (λ s. chars (string_bytes s) ≡ spec.digits_of form number) }
{
    match form {
        NumberForm::Signed => format!(in alloc; "{}", number.unsigned_abs()),
        NumberForm::Unsigned => format!(in alloc; "{}", unsigned(number)),
        NumberForm::Hex => format!(in alloc; "{:x}", unsigned(number)),
        NumberForm::UpperHex => format!(in alloc; "{:X}", unsigned(number)),
        NumberForm::Octal => format!(in alloc; "{:o}", unsigned(number)),
        NumberForm::Binary => format!(in alloc; "{:b}", unsigned(number)),
    }
}

/// A number as a field shows it.
pub(crate) fn number_field(
    alloc: Global,
    field: Field,
    layout: Layout,
    form: NumberForm,
    number: i64,
) -> Result<String, AllocError>
    ensures { IfOk result (λ s. chars (string_bytes s) ≡ spec.number_field field layout form number) }
{
    let digits = digits_of(alloc, form, number)?;
    number_text_of(
        alloc,
        field,
        layout,
        front_of(field, form, number),
        digits.as_str(),
    )
}

/// The character of a number, or U+FFFD where there is none.
pub(crate) fn scalar(number: i64) -> char
    ensures { result ≡ spec.scalar number }
{
    match u32::try_from(number) {
        Ok(code) => char::from_u32(code).unwrap_or('\u{fffd}'),
        Err(_) => '\u{fffd}',
    }
}

/// The first characters, as many as the precision says, or all.
pub(crate) fn first_characters(precision: Option<u32>, text: &str) -> &str
    ensures { chars result.now ≡ spec.first_characters precision (chars text.now) }
{
    match precision {
        Some(count) => front(text, count as usize),
        None => text,
    }
}
