//! Functions of expressions: mathfunc(n).
ghost use Rattle.std.specs.Prelude.{◌≡◌, [], Ok, IfOk};
ghost use Rattle.tcl_chars.specs.Answers.{Answers};
ghost use Rattle.tcl_meaning.specs.Operators.{numbers, larger, smaller, best, absolute, function_answer};
ghost use Rattle.tcl_chars.specs.Arith.{ranged};
ghost use Rattle.tcl_chars.specs.Messages.{number};
ghost use Rattle.tcl_operators.specs.Numeric.{IsNumeric, numeric_answer};

use crate::numbers::in_decimal;
use crate::operators::truth;
use std::alloc::{AllocError, Global};
use tcl_chars::{Arith, Dialect, Fault, UnOp, Whole, expect_number};
use tcl_expr::Function;
use tcl_values::Value;

// The number of a value.
fn number_of(alloc: Global, dialect: Dialect, value: &mut Value) -> Result<i64, Fault>
    ensures number { Answers (λ z. z) result (number dialect value.old) }
    ensures same { value.new ≡ value.old }
{
    if let Whole::Number(number) = value.whole(alloc, dialect)? {
        return Ok(number);
    }
    let text = value.text(alloc)?;
    expect_number(alloc, text.as_str(), dialect)
}

// The numbers of all values, the first one first.
fn numbers(alloc: Global, dialect: Dialect, values: &mut [Value]) -> Result<Vec<i64>, Fault>
    ensures numbers { Answers (λ v. v.items) result (numbers dialect values.old) }
    ensures same { values.new ≡ values.old }
{
    let mut found = Vec::with_capacity(alloc, values.len())?;
    for place in 0..values.len() {
        found.push(number_of(alloc, dialect, &mut values[place])?)?;
    }
    Ok(found)
}

// The empty text.
fn empty(alloc: Global) -> Result<Value, AllocError>
    ensures { IfOk result (λ v. v ≡ []) }
{
    Value::of_str(alloc, "")
}

// The greatest of a number and others.
fn greatest(first: i64, others: &[i64]) -> i64
    ensures { result ≡ best larger first others.now }
{
    let mut found = first;
    for other in others {
        if found < *other {
            found = *other;
        }
    }
    found
}

// The least of a number and others.
fn least(first: i64, others: &[i64]) -> i64
    ensures { result ≡ best smaller first others.now }
{
    let mut found = first;
    for other in others {
        if *other < found {
            found = *other;
        }
    }
    found
}

// Without its sign.
fn absolute(number: i64) -> Result<i64, Arith>
    ensures { result ≡ ranged (Ok (absolute number)) }
{
    if number < 0 {
        tcl_chars::unary(UnOp::Minus, number)
    } else {
        Ok(number)
    }
}

// The value of a function of numbers, of which there is one at least where the expression is well formed.
fn of_numbers(alloc: Global, function: Function, found: &[i64]) -> Result<Value, Fault>
    requires { IsNumeric function }
    ensures { Answers (λ v. v) result (numeric_answer function found.now) }
{
    let Some((first, others)) = found.split_first() else {
        return Ok(empty(alloc)?);
    };
    match function {
        Function::Abs => in_decimal(alloc, absolute(*first)),
        Function::Max => Ok(Value::of_int(greatest(*first, others))),
        Function::Min => Ok(Value::of_int(least(*first, others))),
        _ => Ok(Value::of_int(*first)),
    }
}

/// The value of a function of these arguments, which stay as they were.
///
/// # Errors
///
/// `Fault::Error` where an argument isn't what the function needs, the first one first; `Fault::Memory`.
pub fn apply(
    alloc: Global,
    dialect: Dialect,
    function: Function,
    arguments: &mut [Value],
) -> Result<Value, Fault>
    ensures answer { Answers (λ v. v) result (function_answer dialect function arguments.old) }
    ensures same { arguments.new ≡ arguments.old }
{
    if function != Function::Bool {
        let found = numbers(alloc, dialect, arguments)?;
        return of_numbers(alloc, function, &found);
    }
    if arguments.is_empty() {
        return Ok(empty(alloc)?);
    }
    truth(alloc, dialect, &mut arguments[0])
}
