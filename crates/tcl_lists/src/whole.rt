//! Commands that take a list whole: list(n), llength(n), lreverse(n).

ghost use Rattle.std.specs.Prelude.{◌≡◌, reverse, IfOk};
ghost use Rattle.tcl_chars.specs.Answers.{Answers};
ghost use Rattle.tcl_list.specs.Written.{written};
ghost use Rattle.tcl_pages.specs.Lists as spec;

use crate::message::usage;
use crate::words::row_at;
use std::alloc::{AllocError, Global};
use tcl_chars::Fault;
use tcl_values::{Gathering, Row, Value};

/// `list ?arg ...?`: the list of the words.
pub fn list(alloc: Global, words: &[Value]) -> Result<Value, AllocError>
    ensures { IfOk result (λ v. v ≡ written words.now) }
{
    let all = Gathering::with_capacity(alloc, words.len())?.with_values(alloc, words)?;
    all.into_value(alloc)
}

/// `llength list`: how many elements the list has.
///
/// # Errors
///
/// `Fault::Error` with the usage or the list's fault, `Fault::Memory`.
pub fn llength(alloc: Global, words: &mut [Value]) -> Result<Value, Fault>
    ensures answer { Answers (λ v. v) result (spec.llength words.old) }
    ensures same { words.new ≡ words.old }
{
    if words.len() != 1 {
        return usage(alloc, "llength list");
    }
    let row = row_at(alloc, words, 0)?;
    Ok(Value::of_int(row.items().len() as i64))
}

/// The list of elements the other way round.
fn reversed(alloc: Global, row: &Row) -> Result<Value, AllocError>
    ensures { IfOk result (λ v. v ≡ written (reverse row.now)) }
{
    let count = row.len();
    let all = Gathering::with_capacity(alloc, count)?.with_part(row, 0, count)?;
    all.reversed().into_value(alloc)
}

/// `lreverse list`: the list with its elements the other way round.
///
/// # Errors
///
/// `Fault::Error` with the usage or the list's fault, `Fault::Memory`.
pub fn lreverse(alloc: Global, words: &mut [Value]) -> Result<Value, Fault>
    ensures answer { Answers (λ v. v) result (spec.lreverse words.old) }
    ensures same { words.new ≡ words.old }
{
    if words.len() != 1 {
        return usage(alloc, "lreverse list");
    }
    let row = row_at(alloc, words, 0)?;
    Ok(reversed(alloc, &row)?)
}
