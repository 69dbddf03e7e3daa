//! An element of lists in lists, set by indices: lset(n).

ghost use Rattle.std.specs.Prelude.{◌≡◌, ◌<◌, ◌-◌, [], length, take, OnErr};
ghost use Rattle.tcl_chars.specs.Answers.{Answers, Stops};
ghost use Rattle.tcl_chars.specs.Texts.{text_of};
ghost use Rattle.tcl_lists.specs.WordAt.{fault_in_front};
ghost use Rattle.tcl_pages.specs.Lists.{indices_of};
ghost use Rattle.tcl_pages.specs.Updates.{lset_words};
ghost use Rattle.tcl_values.specs.Lists.{Leaves};

use crate::path::put_at;
use crate::words::{copy_at, list_at};
use std::alloc::Global;
use std::rc::RcStr;
use tcl_chars::{Dialect, Fault};
use tcl_lists::is_index_list;
use tcl_values::Value;

/// The words but the last.
fn all_but_last(words: &[Value]) -> &[Value]
    ensures { result.now ≡ take (length words.now - 1) words.now }
{
    match words.get(..words.len().saturating_sub(1)) {
        Some(front) => front,
        None => words,
    }
}

/// The fault of a value that is to be a list, and where it has none this message.
fn fault_of(alloc: Global, value: &mut Value, message: RcStr) -> Fault
    ensures fault { Stops result (fault_in_front value.old (text_of message)) }
    ensures same { value.new ≡ value.old }
{
    match value.row(alloc) {
        Ok(_) => Fault::Error(message),
        Err(fault) => fault,
    }
}

/// `lset varName ?index ...? newValue`: puts the last word where the others lead, in place where nobody else holds the lists on the
/// way. Without words the value stays as it is.
///
/// # Errors
///
/// `Fault::Error` with the first fault of a list or of an index, `Fault::Memory`; the value is then as it was.
pub(crate) fn lset(
    alloc: Global,
    value: &mut Value,
    words: &mut [Value],
    dialect: Dialect,
) -> Result<(), Fault>
    ensures done { Leaves value.new (lset_words dialect value.old words.old) result }
    ensures same { OnErr result (value.new ≡ value.old) }
    ensures words { words.new ≡ words.old }
{
    if words.len() == 0 {
        return Ok(());
    }
    let last = words.len() - 1;
    if !is_index_list(all_but_last(&*words)) {
        let new = copy_at(&*words, last)?;
        return put_at(alloc, value, words, last, new, dialect);
    }
    match list_at(alloc, words, 0) {
        Ok(mut indices) => {
            let count = indices.len();
            let new = copy_at(&*words, last)?;
            put_at(alloc, value, &mut indices, count, new, dialect)
        }
        Err(Fault::Error(message)) => Err(fault_of(alloc, value, message)),
        Err(Fault::Memory) => Err(Fault::Memory),
    }
}
