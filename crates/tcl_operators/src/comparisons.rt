//! Comparison and membership: expr(n), Operators. The operands stay as they were.
ghost use Rattle.std.specs.Prelude.{◌≡◌, [], false, IfOk};
ghost use Rattle.std.specs.Bool.{OnTrue};
ghost use Rattle.std.specs.Ordering.{nat_cmp};
ghost use Rattle.std.specs.Cmp.Lexicographic.{slice_cmp};
ghost use Rattle.tcl_chars.specs.Answers.{Answers};
ghost use Rattle.tcl_chars.specs.Texts.{same_text};
ghost use Rattle.tcl_chars.specs.Whole.{whole_of};
ghost use Rattle.tcl_meaning.specs.Operators.{operator, compared, is_in};
ghost use Rattle.tcl_operators.specs.Eager.{IsTest, IsAnswered};
ghost use Rattle.tcl_operators.specs.Members as spec;
ghost use Rattle.tcl_values.specs.Kept.{texts};
ghost use Rattle.std.specs.Str.{chars};

use crate::known::are_same_ready;
use crate::lists::are_same;
use crate::numbers::too_large;
use std::alloc::{AllocError, Global};
use std::cmp::Ordering;
use tcl_chars::{Dialect, Fault, Whole, compare, is_text, split_first};
use tcl_expr::BinaryOp;
use tcl_values::{Element, Value};

// How two texts stand to one another.
fn by_texts(alloc: Global, left: &mut Value, right: &mut Value) -> Result<Ordering, AllocError>
    ensures order { IfOk result (λ o. o ≡ slice_cmp nat_cmp left.old right.old) }
    ensures left { left.new ≡ left.old }
    ensures right { right.new ≡ right.old }
{
    if let (Some(first), Some(second)) = (left.shown(), right.shown()) {
        return Ok(compare(first, second));
    }
    let first = left.text(alloc)?;
    let second = right.text(alloc)?;
    Ok(compare(first.as_str(), second.as_str()))
}

// How a text stands to the empty one.
#[tactic(auto, using(crate::proofs::Emptiness::beyond_nothing))]
fn beside_nothing(alloc: Global, value: &mut Value) -> Result<Ordering, AllocError>
    ensures order { IfOk result (λ o. o ≡ slice_cmp nat_cmp value.old []) }
    ensures same { value.new ≡ value.old }
{
    if is_empty(alloc, value)? {
        return Ok(Ordering::Equal);
    }
    Ok(Ordering::Greater)
}

/// How two numbers or texts stand to one another. A number of more than 64 bits is an error where both are number texts.
pub(crate) fn compared(
    alloc: Global,
    dialect: Dialect,
    left: &mut Value,
    right: &mut Value,
) -> Result<Ordering, Fault>
    ensures order { Answers (λ o. o) result (compared left.old right.old (whole_of dialect left.old) (whole_of dialect right.old)) }
    ensures left { left.new ≡ left.old }
    ensures right { right.new ≡ right.old }
{
    if is_shown_empty(&*right) {
        return Ok(beside_nothing(alloc, left)?);
    }
    let first = left.whole(alloc, dialect)?;
    let second = right.whole(alloc, dialect)?;
    match (first, second) {
        (Whole::Number(a), Whole::Number(b)) => Ok(a.cmp(&b)),
        (Whole::Not, _) | (_, Whole::Not) => Ok(by_texts(alloc, left, right)?),
        _ => Err(Fault::Error(too_large(alloc)?)),
    }
}

// Is the text known to be empty?
fn is_shown_empty(value: &Value) -> bool
    ensures { OnTrue result (value.now ≡ []) }
{
    match value.shown() {
        Some(text) => split_first(text).is_none(),
        None => false,
    }
}

// Has the dictionary a key that the text is read as? Then the text isn't empty.
fn has_keys(alloc: Global, value: &mut Value) -> Result<bool, AllocError>
    ensures keys { IfOk result (λ b. OnTrue b (same_text value.old [] ≡ false)) }
    ensures same { value.new ≡ value.old }
{
    match value.dict_size(alloc) {
        Ok(size) => Ok(0 < size),
        Err(Fault::Error(_)) => Ok(false),
        Err(Fault::Memory) => Err(AllocError),
    }
}

// Is the text empty? That of a list or of a dictionary that has elements isn't written for it.
#[tactic(auto, using(crate::proofs::Emptiness::empty_list))]
fn is_empty(alloc: Global, value: &mut Value) -> Result<bool, AllocError>
    ensures empty { IfOk result (λ b. b ≡ same_text value.old []) }
    ensures same { value.new ≡ value.old }
{
    if let Some(row) = value.unwritten()? {
        return Ok(row.len() == 0);
    }
    if value.number().is_none() && has_keys(alloc, value)? {
        return Ok(false);
    }
    let text = value.text(alloc)?;
    Ok(split_first(text.as_str()).is_none())
}

/// Are the texts the same?
pub(crate) fn same_texts(
    alloc: Global,
    left: &mut Value,
    right: &mut Value,
) -> Result<bool, AllocError>
    ensures same { IfOk result (λ b. b ≡ same_text left.old right.old) }
    ensures left { left.new ≡ left.old }
    ensures right { right.new ≡ right.old }
{
    if let Some(same) = are_same_ready(&*left, &*right) {
        return Ok(same);
    }
    if is_shown_empty(&*left) {
        return is_empty(alloc, right);
    }
    if is_shown_empty(&*right) {
        return is_empty(alloc, left);
    }
    if let (Some(first), Some(second)) = (left.unwritten()?, right.unwritten()?) {
        return are_same(alloc, first.items(), second.items());
    }
    let first = left.text(alloc)?;
    let second = right.text(alloc)?;
    Ok(is_text(first.as_str(), second.as_str()))
}

// Is the text one of the elements?
fn is_among(alloc: Global, text: &str, elements: &[Element]) -> Result<bool, AllocError>
    ensures { IfOk result (λ b. b ≡ is_in (chars text.now) (texts elements.now)) }
{
    for element in elements {
        let own = element.text(alloc)?;
        if is_text(text, own.as_str()) {
            return Ok(true);
        }
    }
    Ok(false)
}

/// Is the left text an element of the right list?
pub(crate) fn is_member(alloc: Global, left: &mut Value, right: &mut Value) -> Result<bool, Fault>
    ensures member { Answers (λ b. b) result (spec.is_member left.old right.old) }
    ensures left { left.new ≡ left.old }
    ensures right { right.new ≡ right.old }
{
    let row = right.row(alloc)?;
    let text = left.text(alloc)?;
    Ok(is_among(alloc, text.as_str(), row.items())?)
}

/// The answer of an operator that compares: numbers or texts, texts alone, or a text and a list's elements.
pub(crate) fn test(
    alloc: Global,
    dialect: Dialect,
    op: BinaryOp,
    left: &mut Value,
    right: &mut Value,
) -> Result<Value, Fault>
    requires { IsTest op }
    ensures answer { IsAnswered result (operator dialect op) left.old right.old }
    ensures left { left.new ≡ left.old }
    ensures right { right.new ≡ right.old }
{
    let holds = match op {
        BinaryOp::TextEqual => same_texts(alloc, left, right)?,
        BinaryOp::TextNotEqual => !same_texts(alloc, left, right)?,
        BinaryOp::In => is_member(alloc, left, right)?,
        BinaryOp::NotIn => !is_member(alloc, left, right)?,
        BinaryOp::Less => compared(alloc, dialect, left, right)?.is_lt(),
        BinaryOp::Greater => compared(alloc, dialect, left, right)?.is_gt(),
        BinaryOp::LessEqual => compared(alloc, dialect, left, right)?.is_le(),
        BinaryOp::GreaterEqual => compared(alloc, dialect, left, right)?.is_ge(),
        BinaryOp::Equal => compared(alloc, dialect, left, right)?.is_eq(),
        BinaryOp::NotEqual => compared(alloc, dialect, left, right)?.is_ne(),
        _ => unreachable!(),
    };
    Ok(Value::of_truth(holds))
}
