//! A list that grows: lappend(n).

ghost use Rattle.std.specs.Prelude.{◌≡◌, ◌++◌, OnOk, OnErr};
ghost use Rattle.tcl_pages.specs.Lists.{lappend};
ghost use Rattle.tcl_values.specs.Lists.{Leaves};

use std::alloc::{AllocError, Global};
use tcl_chars::Fault;
use tcl_values::Value;

/// Copies of values. What is kept of them is shared.
pub(crate) fn push_copies(copies: &mut Vec<Value>, values: &[Value]) -> Result<(), AllocError>
    ensures { OnOk result (copies.new.items ≡ copies.old.items ++ values.now) }
{
    for value in values {
        copies.push(value.copy()?)?;
    }
    Ok(())
}

/// `lappend varName ?value ...?`: adds the words at the end of the list that the value is, in place where nobody else holds the
/// list. Without words the value stays as it is.
///
/// # Errors
///
/// `Fault::Error` with the list's fault, `Fault::Memory`; the value is then as it was.
pub(crate) fn lappend(alloc: Global, value: &mut Value, words: &[Value]) -> Result<(), Fault>
    ensures done { Leaves value.new (lappend value.old words.now) result }
    ensures same { OnErr result (value.new ≡ value.old) }
{
    if words.len() == 1 {
        return value.push(alloc, words[0].copy()?);
    }
    let count = value.count(alloc)?;
    if words.len() == 0 {
        return Ok(());
    }
    let mut more = Vec::with_capacity(alloc, words.len())?;
    push_copies(&mut more, words)?;
    value.splice(alloc, count, 0, more)
}
