//! Operands read as numbers and truth values. A reading leaves them as they were.
ghost use Rattle.std.specs.Prelude.{◌≡◌, IfOk};
ghost use Rattle.std.specs.Str.{chars};
ghost use Rattle.tcl_chars.specs.Answers.{Answers};
ghost use Rattle.tcl_chars.specs.Arith.{ranged};
ghost use Rattle.tcl_chars.specs.Messages.{too_large, number, truth_or, truth_value};
ghost use Rattle.tcl_chars.specs.Texts.{text_of};
ghost use Rattle.tcl_chars.specs.Truth.{truth_of};
ghost use Rattle.tcl_meaning.specs.Operators.{non_numeric, operand_number};
ghost use Rattle.tcl_pages.specs.Results.{in_decimal};

use std::alloc::{AllocError, Global};
use std::rc::RcStr;
use tcl_chars::{Arith, Dialect, Fault, Truth, Whole, about, expect_truth, message, read_truth};
use tcl_values::Value;

/// What is said of a number text of more than 64 bits.
pub(crate) fn too_large(alloc: Global) -> Result<RcStr, AllocError>
    ensures { IfOk result (λ t. text_of t ≡ too_large) }
{
    message(alloc, "integer value too large to represent")
}

/// What is said of an operand that is to be a number or a truth value, and isn't.
fn non_numeric(alloc: Global, operator: &str) -> Result<RcStr, AllocError>
    ensures { IfOk result (λ t. text_of t ≡ non_numeric (chars operator.now)) }
{
    about(
        alloc,
        "can't use non-numeric string as operand of",
        operator,
        "",
    )
}

/// The number that an operand of an operator is.
pub(crate) fn operand(
    alloc: Global,
    value: &mut Value,
    dialect: Dialect,
    operator: &str,
) -> Result<i64, Fault>
    ensures number { Answers (λ z. z) result (operand_number dialect (chars operator.now) value.old) }
    ensures same { value.new ≡ value.old }
{
    match value.whole(alloc, dialect)? {
        Whole::Number(number) => Ok(number),
        Whole::TooLarge => Err(Fault::Error(too_large(alloc)?)),
        Whole::Not => Err(Fault::Error(non_numeric(alloc, operator)?)),
    }
}

/// The truth value that the operand of `!` is.
pub(crate) fn truth_operand(
    alloc: Global,
    value: &mut Value,
    dialect: Dialect,
    operator: &str,
) -> Result<bool, Fault>
    ensures truth { Answers (λ b. b) result (truth_or (non_numeric (chars operator.now)) (truth_of dialect value.old)) }
    ensures same { value.new ≡ value.old }
{
    if let Whole::Number(number) = value.whole(alloc, dialect)? {
        return Ok(number != 0);
    }
    let text = value.text(alloc)?;
    match read_truth(text.as_str(), dialect) {
        Truth::Yes => Ok(true),
        Truth::No => Ok(false),
        Truth::TooLarge => Err(Fault::Error(too_large(alloc)?)),
        Truth::Not => Err(Fault::Error(non_numeric(alloc, operator)?)),
    }
}

/// The truth value of a text.
pub fn truth_value(alloc: Global, value: &mut Value, dialect: Dialect) -> Result<bool, Fault>
    ensures truth { Answers (λ b. b) result (truth_value dialect value.old) }
    ensures same { value.new ≡ value.old }
{
    if let Some(number) = value.known_number(dialect) {
        return Ok(number != 0);
    }
    if let Whole::Number(number) = value.whole(alloc, dialect)? {
        return Ok(number != 0);
    }
    let text = value.text(alloc)?;
    expect_truth(alloc, text.as_str(), dialect)
}

/// The value of a result that 64 bits hold, or what is said where there is none.
pub(crate) fn in_decimal(alloc: Global, found: Result<i64, Arith>) -> Result<Value, Fault>
    ensures { Answers (λ v. v) result (in_decimal found) }
{
    match found {
        Ok(number) => Ok(Value::of_int(number)),
        Err(refusal) => Err(Fault::Error(message(alloc, refusal.text())?)),
    }
}
