//! Arithmetic, and where it has no result.
use tcl_chars::{Arith, Op, UnOp, binary, unary};

/// An operator, its operands, and what the operation gives.
type Operation = (Op, i64, i64, Result<i64, Arith>);

/// The operands of the first operation that gives something else.
fn wrongly_reckoned(rows: &[Operation]) -> Option<(i64, i64)> {
    for row in rows {
        let (op, left, right, want) = *row;
        if binary(op, left, right) != want {
            return Some((left, right));
        }
    }
    None
}

static WITH_RESULTS: [Operation; 23] = [
    (Op::Div, -7, 2, Ok(-4)),
    (Op::Div, 7, -2, Ok(-4)),
    (Op::Div, -7, -2, Ok(3)),
    (Op::Mod, -7, 2, Ok(1)),
    (Op::Mod, 7, -2, Ok(-1)),
    (Op::Mod, -7, -2, Ok(-1)),
    (Op::Mod, 0, 5, Ok(0)),
    (Op::Mod, i64::MIN, -1, Ok(0)),
    (Op::Sub, 5, 8, Ok(-3)),
    (Op::Pow, 0, 0, Ok(1)),
    (Op::Pow, -2, 63, Ok(i64::MIN)),
    (Op::Pow, 2, 62, Ok(4611686018427387904)),
    (Op::Pow, 3, -1, Ok(0)),
    (Op::Pow, -1, -3, Ok(-1)),
    (Op::Pow, -1, -4, Ok(1)),
    (Op::Shl, -1, 63, Ok(i64::MIN)),
    (Op::Shl, 1, 62, Ok(4611686018427387904)),
    (Op::Shl, 0, 1000, Ok(0)),
    (Op::Shr, -5, 100, Ok(-1)),
    (Op::Shr, -1, 1, Ok(-1)),
    (Op::BitAnd, -8, 3, Ok(0)),
    (Op::BitOr, -8, 3, Ok(-5)),
    (Op::BitXor, 6, 3, Ok(5)),
];

#[test]
fn arithmetic(rt: HostRuntime) {
    assert_eq!(rt; wrongly_reckoned(&WITH_RESULTS), None);
}

static WITHOUT_RESULTS: [Operation; 8] = [
    (Op::Div, i64::MIN, -1, Err(Arith::Overflow)),
    (Op::Add, i64::MAX, 1, Err(Arith::Overflow)),
    (Op::Mul, i64::MIN, -1, Err(Arith::Overflow)),
    (Op::Mod, 1, 0, Err(Arith::DivideByZero)),
    (Op::Pow, 0, -1, Err(Arith::ZeroPower)),
    (Op::Pow, 2, 63, Err(Arith::Overflow)),
    (Op::Shl, 1, 63, Err(Arith::Overflow)),
    (Op::Shr, 1, -1, Err(Arith::NegativeShift)),
];

#[test]
fn arithmetic_without_a_result(rt: HostRuntime) {
    assert_eq!(rt; wrongly_reckoned(&WITHOUT_RESULTS), None);
}

/// The operand of the first sign that gives something else.
fn wrongly_signed(rows: &[(UnOp, i64, Result<i64, Arith>)]) -> Option<i64> {
    for row in rows {
        let (op, operand, want) = *row;
        if unary(op, operand) != want {
            return Some(operand);
        }
    }
    None
}

static SIGNS: [(UnOp, i64, Result<i64, Arith>); 4] = [
    (UnOp::Minus, i64::MIN, Err(Arith::Overflow)),
    (UnOp::BitNot, 5, Ok(-6)),
    (UnOp::Plus, -4, Ok(-4)),
    (UnOp::Minus, 4, Ok(-4)),
];

#[test]
fn signs(rt: HostRuntime) {
    assert_eq!(rt; wrongly_signed(&SIGNS), None);
}
