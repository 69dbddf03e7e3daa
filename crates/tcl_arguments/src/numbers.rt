//! Numbers that words say: incr(n), dict(n).

ghost use Rattle.std.specs.Prelude.{◌≡◌};
ghost use Rattle.tcl_chars.specs.Answers.{Answers};
ghost use Rattle.tcl_chars.specs.Messages.{number};

use std::alloc::Global;
use tcl_chars::{Dialect, Fault, Whole, expect_number};
use tcl_values::Value;

/// The number that a value is. One that is kept as a number isn't spelled.
///
/// # Errors
///
/// `Fault::Error` where the value is no number, `Fault::Memory`.
pub fn number_of(alloc: Global, value: &mut Value, dialect: Dialect) -> Result<i64, Fault>
    ensures number { Answers (λ z. z) result (number dialect value.old) }
    ensures same { value.new ≡ value.old }
{
    if let Whole::Number(number) = value.whole(alloc, dialect)? {
        return Ok(number);
    }
    let text = value.text(alloc)?;
    expect_number(alloc, text.as_str(), dialect)
}
