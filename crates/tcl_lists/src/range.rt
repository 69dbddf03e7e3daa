//! Parts of lists: lrange(n), linsert(n), lreplace(n).

ghost use Rattle.std.specs.Prelude.{◌≡◌, ◌≤◌, ℕ, length, take, drop, true, IfOk};
ghost use Rattle.tcl_chars.specs.Answers.{Answers};
ghost use Rattle.tcl_list.specs.Written.{written};
ghost use Rattle.tcl_pages.specs.Lists as spec;

use crate::message::usage;
use crate::words::{behind, index_at, row_at};
use std::alloc::{AllocError, Global};
use tcl_chars::{Dialect, Fault, clamp};
use tcl_values::{Gathering, Row, Value};

/// The values from a place on.
pub(crate) fn values_from(values: &[Value], first: usize) -> &[Value]
    ensures { result.now ≡ drop first values.now }
{
    match values.get(first..) {
        Some(some) => some,
        None => &[],
    }
}

/// The list of the elements from `first` on, in front of `last`. Where nobody else holds them, they are taken.
fn part(alloc: Global, row: Row, first: usize, last: usize) -> Result<Value, AllocError>
    ensures { IfOk result (λ v. v ≡ written (drop first (take last row))) }
{
    if row.is_alone() {
        let own = Gathering::of_row(alloc, row)?;
        return own.part(alloc, first, last)?.into_value(alloc);
    }
    let room = last.saturating_sub(first);
    let some = Gathering::with_capacity(alloc, room)?.with_part(&row, first, last)?;
    some.into_value(alloc)
}

/// The list of elements where those of `new` stand in place of those from `first` on, in front of `last`. What is kept of them is shared.
fn copied(
    alloc: Global,
    row: &Row,
    first: usize,
    last: usize,
    new: &[Value],
) -> Result<Value, AllocError>
    ensures { IfOk result (λ v. v ≡ written (spec.replaced row.now first last new.now)) }
{
    let count = row.len();
    let rest = first.max(last);
    let left = first.min(count).saturating_add(count.saturating_sub(rest));
    let room = left.saturating_add(new.len());
    let front = Gathering::with_capacity(alloc, room)?.with_part(row, 0, first)?;
    let longer = front.with_values(alloc, new)?;
    let all = longer.with_part(row, rest, count)?;
    all.into_value(alloc)
}

/// The list of elements where those of `new` from `begin` on stand in place of those from `first` on, in front of `last`. Where nobody else
/// holds the elements, they are taken.
fn spliced(
    alloc: Global,
    row: Row,
    first: usize,
    last: usize,
    new: &[Value],
    begin: usize,
) -> Result<Value, AllocError>
    ensures { IfOk result (λ v. v ≡ written (spec.replaced row first last (drop begin new.now))) }
{
    let inserted = values_from(new, begin);
    if row.is_alone() {
        let own = Gathering::of_row(alloc, row)?;
        return own.spliced(alloc, first, last, inserted)?.into_value(alloc);
    }
    copied(alloc, &row, first, last, inserted)
}

/// Lets go of the first word, unless the words are kept.
fn let_go(words: &mut [Value], keeps: bool)
    requires { 1 ≤ length words.old }
    ensures behind { (n : ℕ) → 1 ≤ n → drop n words.new ≡ drop n words.old }
    ensures same { keeps ≡ true → words.new ≡ words.old }
{
    if !keeps {
        words[0] = Value::of_int(0);
    }
}

/// What `lrange` answers, of words that are kept or not.
fn ranged(alloc: Global, words: &mut [Value], dialect: Dialect, keeps: bool) -> Result<Value, Fault>
    ensures answer { Answers (λ v. v) result (spec.lrange dialect words.old) }
    ensures same { keeps ≡ true → words.new ≡ words.old }
{
    if words.len() != 3 {
        return usage(alloc, "lrange list first last");
    }
    let row = row_at(alloc, words, 0)?;
    let count = row.items().len();
    let first = index_at(alloc, words, 1, count, dialect)?;
    let last = index_at(alloc, words, 2, count, dialect)?;
    let_go(words, keeps);
    Ok(part(alloc, row, clamp(first, count), behind(last, count))?)
}

/// `lrange list first last`: the list of the elements from the first place to the last one.
///
/// # Errors
///
/// `Fault::Error` with the usage, the list's fault or the first bad index, `Fault::Memory`.
pub fn lrange(alloc: Global, words: &mut [Value], dialect: Dialect) -> Result<Value, Fault>
    ensures answer { Answers (λ v. v) result (spec.lrange dialect words.old) }
    ensures same { words.new ≡ words.old }
{
    ranged(alloc, words, dialect, true)
}

/// The same, of words that nobody needs any more: a list that nobody else holds is changed in place.
///
/// # Errors
///
/// As of [`lrange`].
pub fn lrange_taking(alloc: Global, words: &mut [Value], dialect: Dialect) -> Result<Value, Fault>
    ensures { Answers (λ v. v) result (spec.lrange dialect words.old) }
{
    ranged(alloc, words, dialect, false)
}

/// What `linsert` answers, of words that are kept or not.
fn inserted(
    alloc: Global,
    words: &mut [Value],
    dialect: Dialect,
    keeps: bool,
) -> Result<Value, Fault>
    ensures answer { Answers (λ v. v) result (spec.linsert dialect words.old) }
    ensures same { keeps ≡ true → words.new ≡ words.old }
{
    if words.len() < 2 {
        return usage(alloc, "linsert list index ?element ...?");
    }
    let row = row_at(alloc, words, 0)?;
    let count = row.items().len();
    let place = index_at(alloc, words, 1, count + 1, dialect)?;
    let place = clamp(place, count);
    let_go(words, keeps);
    Ok(spliced(alloc, row, place, place, &*words, 2)?)
}

/// `linsert list index ?element ...?`: the list with elements in front of the place, where `end` is behind the last element.
///
/// # Errors
///
/// `Fault::Error` with the usage, the list's fault or that of the index, `Fault::Memory`.
pub fn linsert(alloc: Global, words: &mut [Value], dialect: Dialect) -> Result<Value, Fault>
    ensures answer { Answers (λ v. v) result (spec.linsert dialect words.old) }
    ensures same { words.new ≡ words.old }
{
    inserted(alloc, words, dialect, true)
}

/// The same, of words that nobody needs any more: a list that nobody else holds is changed in place.
///
/// # Errors
///
/// As of [`linsert`].
pub fn linsert_taking(alloc: Global, words: &mut [Value], dialect: Dialect) -> Result<Value, Fault>
    ensures { Answers (λ v. v) result (spec.linsert dialect words.old) }
{
    inserted(alloc, words, dialect, false)
}

/// What `lreplace` answers, of words that are kept or not.
fn replaced(
    alloc: Global,
    words: &mut [Value],
    dialect: Dialect,
    keeps: bool,
) -> Result<Value, Fault>
    ensures answer { Answers (λ v. v) result (spec.lreplace dialect words.old) }
    ensures same { keeps ≡ true → words.new ≡ words.old }
{
    if words.len() < 3 {
        return usage(alloc, "lreplace list first last ?element ...?");
    }
    let row = row_at(alloc, words, 0)?;
    let count = row.items().len();
    let first = index_at(alloc, words, 1, count, dialect)?;
    let last = index_at(alloc, words, 2, count, dialect)?;
    let begin = clamp(first, count);
    let end = behind(last, count);
    let_go(words, keeps);
    Ok(spliced(alloc, row, begin, end, &*words, 3)?)
}

/// `lreplace list first last ?element ...?`: the list with elements in place of those from the first place to the last one.
///
/// # Errors
///
/// `Fault::Error` with the usage, the list's fault or the first bad index, `Fault::Memory`.
pub fn lreplace(alloc: Global, words: &mut [Value], dialect: Dialect) -> Result<Value, Fault>
    ensures answer { Answers (λ v. v) result (spec.lreplace dialect words.old) }
    ensures same { words.new ≡ words.old }
{
    replaced(alloc, words, dialect, true)
}

/// The same, of words that nobody needs any more: a list that nobody else holds is changed in place.
///
/// # Errors
///
/// As of [`lreplace`].
pub fn lreplace_taking(alloc: Global, words: &mut [Value], dialect: Dialect) -> Result<Value, Fault>
    ensures { Answers (λ v. v) result (spec.lreplace dialect words.old) }
{
    replaced(alloc, words, dialect, false)
}
