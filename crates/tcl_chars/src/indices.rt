//! Index texts.

ghost use Rattle.std.specs.Prelude.{◌≡◌, Some};
ghost use Rattle.std.specs.Str.{chars};
ghost use Rattle.tcl_chars.specs.Index.{place_of, clamp, has_space, to_sign, of_whole, base_of, signed_offset, offset_of, moved, shifted, sum_of, index_of};
ghost use Rattle.tcl_chars.specs.Whole.{magnitude};

use crate::classes::is_list_space;
use crate::numbers::{Dialect, Whole, read_magnitude, read_whole};
use crate::texts::{before, is_text, split_first, tail};

/// A place in a list or a text, as an index names it: it may lie outside.
#[derive(Clone, Copy, Debug, PartialEq, Eq)]
pub enum Position {
    /// A number, counted from the first element, and what is added to it.
    Start(i64, i64),
    /// The last element's place, and what is added to it.
    End(i64),
}

/// What a text says as an index.
#[derive(Clone, Copy, Debug, PartialEq, Eq)]
pub enum Index {
    At(Position),
    /// It has an index's form, and a number of more than 64 bits.
    TooLarge,
    Not,
}

/// The place of a position among `length` elements or characters, counted from the first at 0.
pub fn place_of(position: Position, length: usize) -> i128
    ensures { result ≡ place_of position length }
{
    match position {
        Position::Start(number, offset) => i128::from(number) + i128::from(offset),
        Position::End(offset) => i128::from(length as u64) - 1 + i128::from(offset),
    }
}

/// The place from 0 to `length` that is nearest.
pub fn clamp(place: i128, length: usize) -> usize
    ensures { result ≡ clamp place length }
{
    if place < 0 {
        return 0;
    }
    if place > i128::from(length as u64) {
        return length;
    }
    place as usize
}

/// Is there list space in the text?
fn has_space(text: &str) -> bool
    ensures { result ≡ has_space (chars text.now) }
{
    let mut rest = text;
    while let Some((c, after)) = split_first(rest) {
        if is_list_space(c) {
            return true;
        }
        rest = after;
    }
    false
}

/// What a text has left at its first plus or minus.
fn to_sign(text: &str) -> &str
    ensures { chars result.now ≡ to_sign (chars text.now) }
{
    let mut rest = text;
    while let Some((c, after)) = split_first(rest) {
        if c == '+' || c == '-' {
            return rest;
        }
        rest = after;
    }
    rest
}

/// A number as an index.
fn of_whole(whole: Whole) -> Index
    ensures { result ≡ of_whole whole }
{
    match whole {
        Whole::Number(number) => Index::At(Position::Start(number, 0)),
        Whole::TooLarge => Index::TooLarge,
        Whole::Not => Index::Not,
    }
}

/// What stands in front of a sign: `end`, or a number text without white space.
fn read_base(text: &str, dialect: Dialect) -> Index
    ensures { result ≡ base_of dialect (chars text.now) }
{
    if is_text(text, "end") {
        return Index::At(Position::End(0));
    }
    if has_space(text) {
        return Index::Not;
    }
    of_whole(read_whole(text, dialect))
}

/// The number that is added or taken off, where 64 bits hold it with either sign.
fn signed_offset(minus: bool, size: u64) -> Whole
    ensures { result ≡ signed_offset minus (Some size) }
{
    if size >= 0x8000_0000_0000_0000 {
        return Whole::TooLarge;
    }
    if minus {
        return Whole::Number(-(size as i64));
    }
    Whole::Number(size as i64)
}

/// What a text from a sign on adds; nothing where there is no sign.
fn read_offset(text: &str, dialect: Dialect) -> Whole
    ensures { result ≡ offset_of dialect (chars text.now) }
{
    let Some((sign, behind)) = split_first(text) else {
        return Whole::Number(0);
    };
    if has_space(behind) {
        return Whole::Not;
    }
    let Some(size) = read_magnitude(behind, dialect) else {
        return Whole::Not;
    };
    signed_offset(sign == '-', size)
}

/// The position with what is added to it.
fn moved(position: Position, offset: i64) -> Position
    ensures { result ≡ moved position offset }
{
    match position {
        Position::Start(number, _) => Position::Start(number, offset),
        Position::End(_) => Position::End(offset),
    }
}

/// An index from what stands in front of its sign and from there on.
fn shifted(base: Index, offset: Whole) -> Index
    ensures { result ≡ shifted base offset }
{
    match (base, offset) {
        (Index::At(position), Whole::Number(number)) => Index::At(moved(position, number)),
        (Index::Not, _) | (_, Whole::Not) => Index::Not,
        _ => Index::TooLarge,
    }
}

/// What a text says as a sum, or as `end` alone.
fn read_sum(text: &str, dialect: Dialect) -> Index
    ensures { result ≡ sum_of dialect (chars text.now) }
{
    let rest = to_sign(tail(text));
    shifted(
        read_base(before(text, rest), dialect),
        read_offset(rest, dialect),
    )
}

/// What a text says as an index (lindex(n), string(n)): a number, with list space round it passed over; `end`; or either
/// of them with `+` or `-` and a number without a sign, and then no white space at all.
pub fn read_index(text: &str, dialect: Dialect) -> Index
    ensures { result ≡ index_of dialect (chars text.now) }
{
    match read_whole(text, dialect) {
        Whole::Not => read_sum(text, dialect),
        number => of_whole(number),
    }
}
