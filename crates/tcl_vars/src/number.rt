//! A number that grows: incr(n).

ghost use Rattle.std.specs.Prelude.{◌≡◌, [], ◌∷◌, OnErr};
ghost use Rattle.tcl_chars.specs.Answers.{Answers};
ghost use Rattle.tcl_chars.specs.Messages.{number};
ghost use Rattle.tcl_pages.specs.Updates.{increased};
ghost use Rattle.tcl_values.specs.Lists.{Leaves};

use std::alloc::Global;
use tcl_arguments::number_of;
use tcl_chars::{Dialect, Fault, Op, binary, message};
use tcl_values::Value;

// The number that a value is, at once where that is known without reading its text.
#[inline(always)]
fn known_or_read(alloc: Global, value: &mut Value, dialect: Dialect) -> Result<i64, Fault>
    ensures number { Answers (λ z. z) result (number dialect value.old) }
    ensures same { value.new ≡ value.old }
{
    if let Some(number) = value.known_number(dialect) {
        return Ok(number);
    }
    number_of(alloc, value, dialect)
}

/// `incr varName ?increment?`: adds a number to the value.
///
/// # Errors
///
/// `Fault::Error` where one of both is no number or 64 bits don't hold the sum, `Fault::Memory`; the value is then as it was.
pub(crate) fn incr(
    alloc: Global,
    value: &mut Value,
    by: &mut Value,
    dialect: Dialect,
) -> Result<(), Fault>
    ensures done { Leaves value.new (increased dialect value.old (by.old ∷ [])) result }
    ensures same { OnErr result (value.new ≡ value.old) }
    ensures by { by.new ≡ by.old }
{
    let number = known_or_read(alloc, value, dialect)?;
    let more = known_or_read(alloc, by, dialect)?;
    match binary(Op::Add, number, more) {
        Ok(sum) => {
            *value = Value::of_int(sum);
            Ok(())
        }
        Err(fault) => Err(Fault::Error(message(alloc, fault.text())?)),
    }
}
