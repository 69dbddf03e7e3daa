//! Operators of expressions: expr(n), Operators.
ghost use Rattle.std.specs.Prelude.{◌≡◌, Ok, IfSome};
ghost use Rattle.std.specs.Fmt.{signed_decimal};
ghost use Rattle.tcl_chars.specs.Answers.{Answers};
ghost use Rattle.tcl_expr.specs.Texts.{unary_text};
ghost use Rattle.tcl_operators.specs.Eager.{IsEager, IsAnswered};
ghost use Rattle.tcl_meaning.specs.Operators.{operator, unary_answer, power_answer, truth_answer, final_answer, arithmetic, arithmetic_unary};
ghost use Rattle.std.specs.Str.{chars};

use crate::comparisons::test;
use crate::known::{of_numbers, unary_of_number};
use crate::numbers::{in_decimal, operand, too_large, truth_operand, truth_value};
use std::alloc::Global;
use tcl_chars::{Dialect, Fault, Op, UnOp, Whole};
use tcl_expr::{BinaryOp, UnaryOp};
use tcl_values::Value;

// An operator of arithmetic on one number.
fn arithmetic_unary(
    alloc: Global,
    dialect: Dialect,
    op: UnOp,
    operator: &str,
    value: &mut Value,
) -> Result<Value, Fault>
    ensures answer { Answers (λ v. v) result (arithmetic_unary dialect op (chars operator.now) value.old) }
    ensures same { value.new ≡ value.old }
{
    let number = operand(alloc, value, dialect, operator)?;
    in_decimal(alloc, tcl_chars::unary(op, number))
}

// The number that an operator answers for an operand that is known to be a number.
fn unary_number(dialect: Dialect, op: UnaryOp, value: &Value) -> Option<i64>
    ensures { IfSome result (λ z. unary_answer dialect op value.now ≡ Ok (signed_decimal z)) }
{
    let number = value.known_number(dialect)?;
    unary_of_number(op, number)
}

/// The value of an operator in front of its operand, which stays as it was.
///
/// # Errors
///
/// `Fault::Error` where the operand is no number, or the result needs more than 64 bits; `Fault::Memory`.
pub fn unary(
    alloc: Global,
    dialect: Dialect,
    op: UnaryOp,
    value: &mut Value,
) -> Result<Value, Fault>
    ensures answer { Answers (λ v. v) result (unary_answer dialect op value.old) }
    ensures same { value.new ≡ value.old }
{
    if let Some(number) = unary_number(dialect, op, value) {
        return Ok(Value::of_int(number));
    }
    match op {
        UnaryOp::Minus => arithmetic_unary(alloc, dialect, UnOp::Minus, op.text(), value),
        UnaryOp::Plus => arithmetic_unary(alloc, dialect, UnOp::Plus, op.text(), value),
        UnaryOp::Flip => arithmetic_unary(alloc, dialect, UnOp::BitNot, op.text(), value),
        UnaryOp::Not => {
            let holds = truth_operand(alloc, value, dialect, op.text())?;
            Ok(Value::of_truth(!holds))
        }
    }
}

// An operator of arithmetic on two numbers. Both operands are there, and the left one is tested first.
pub(crate) fn arithmetic(
    alloc: Global,
    dialect: Dialect,
    op: Op,
    operator: &str,
    left: &mut Value,
    right: &mut Value,
) -> Result<Value, Fault>
    ensures answer { Answers (λ v. v) result (arithmetic dialect op (chars operator.now) left.old right.old) }
    ensures left { left.new ≡ left.old }
    ensures right { right.new ≡ right.old }
{
    let first = operand(alloc, left, dialect, operator)?;
    let second = operand(alloc, right, dialect, operator)?;
    in_decimal(alloc, tcl_chars::binary(op, first, second))
}

/// `**`, which groups from the right. The operands stay as they were.
///
/// # Errors
///
/// `Fault::Error` where an operand is no number or there is no result of 64 bits; `Fault::Memory`.
pub fn power(
    alloc: Global,
    dialect: Dialect,
    left: &mut Value,
    right: &mut Value,
) -> Result<Value, Fault>
    ensures answer { Answers (λ v. v) result (power_answer dialect left.old right.old) }
    ensures left { left.new ≡ left.old }
    ensures right { right.new ≡ right.old }
{
    arithmetic(alloc, dialect, Op::Pow, "**", left, right)
}

/// The truth value of a value, as 1 or 0. The value stays as it was.
///
/// # Errors
///
/// `Fault::Error` where it is no truth value; `Fault::Memory`.
pub fn truth(alloc: Global, dialect: Dialect, value: &mut Value) -> Result<Value, Fault>
    ensures answer { Answers (λ v. v) result (truth_answer dialect value.old) }
    ensures same { value.new ≡ value.old }
{
    let holds = truth_value(alloc, value, dialect)?;
    Ok(Value::of_truth(holds))
}

/// The value of a whole expression whose last operator gave this one: a number in decimal, and any other text unchanged.
///
/// # Errors
///
/// `Fault::Error` where it is a number of more than 64 bits; `Fault::Memory`.
pub fn final_value(alloc: Global, dialect: Dialect, value: &mut Value) -> Result<Value, Fault>
    ensures answer { Answers (λ v. v) result (final_answer dialect value.old) }
    ensures same { value.new ≡ value.old }
{
    if let Some(number) = value.known_number(dialect) {
        return Ok(Value::of_int(number));
    }
    match value.whole(alloc, dialect)? {
        Whole::Number(number) => Ok(Value::of_int(number)),
        Whole::TooLarge => Err(Fault::Error(too_large(alloc)?)),
        Whole::Not => Ok(value.copy()?),
    }
}

// The number that an operator answers for two operands that are known to be numbers.
fn binary_number(dialect: Dialect, op: BinaryOp, left: &Value, right: &Value) -> Option<i64>
    ensures { IfSome result (λ z. IsAnswered (Ok (signed_decimal z)) (operator dialect op) left.now right.now) }
{
    let first = left.known_number(dialect)?;
    let second = right.known_number(dialect)?;
    of_numbers(dialect, op, first, second)
}

/// The value of an operator between two operands that takes both of them. They stay as they were.
///
/// # Errors
///
/// `Fault::Error` where an operand isn't what the operator needs, the left one first, or there is no result of 64 bits;
/// `Fault::Memory`.
pub fn binary(
    alloc: Global,
    dialect: Dialect,
    op: BinaryOp,
    left: &mut Value,
    right: &mut Value,
) -> Result<Value, Fault>
    requires eager { IsEager (operator dialect op) }
    ensures answer { IsAnswered result (operator dialect op) left.old right.old }
    ensures left { left.new ≡ left.old }
    ensures right { right.new ≡ right.old }
{
    if let Some(number) = binary_number(dialect, op, left, right) {
        return Ok(Value::of_int(number));
    }
    let number = match op {
        BinaryOp::Times => Op::Mul,
        BinaryOp::Divide => Op::Div,
        BinaryOp::Remainder => Op::Mod,
        BinaryOp::Add => Op::Add,
        BinaryOp::Subtract => Op::Sub,
        BinaryOp::ShiftLeft => Op::Shl,
        BinaryOp::ShiftRight => Op::Shr,
        BinaryOp::BitAnd => Op::BitAnd,
        BinaryOp::BitXor => Op::BitXor,
        BinaryOp::BitOr => Op::BitOr,
        _ => return test(alloc, dialect, op, left, right),
    };
    arithmetic(alloc, dialect, number, op.text(), left, right)
}
