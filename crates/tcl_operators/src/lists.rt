//! Lists whose texts nobody has written, compared by their elements.
ghost use Rattle.std.specs.Prelude.{◌≡◌, true, IfOk};
ghost use Rattle.tcl_chars.specs.Texts.{same_text};
ghost use Rattle.tcl_list.specs.Written.{written};
ghost use Rattle.tcl_values.specs.Kept.{texts};

use std::alloc::{AllocError, Global};
use tcl_chars::is_text;
use tcl_values::Element;

/// Are the texts of two elements the same? They are asked for, which stands apart, so that the way of numbers stays small.
#[inline(never)]
fn have_same_text(alloc: Global, first: &Element, second: &Element) -> Result<bool, AllocError>
    ensures { IfOk result (λ b. b ≡ same_text first.now.text second.now.text) }
{
    let one = first.text(alloc)?;
    let other = second.text(alloc)?;
    Ok(is_text(one.as_str(), other.as_str()))
}

/// Are two elements the same number? Then they have the same text.
#[inline(always)]
fn are_one_number(first: &Element, second: &Element) -> bool
    ensures { result ≡ true → first.now.text ≡ second.now.text }
{
    match (first.number(), second.number()) {
        (Some(one), Some(other)) => one == other,
        _ => false,
    }
}

/// Are the texts of two elements the same? Those of one number are.
#[inline(always)]
fn is_same(alloc: Global, first: &Element, second: &Element) -> Result<bool, AllocError>
    ensures { IfOk result (λ b. b ≡ same_text first.now.text second.now.text) }
{
    if are_one_number(first, second) {
        return Ok(true);
    }
    have_same_text(alloc, first, second)
}

/// Are two lists of elements the same, when they are written?
pub(crate) fn are_same(
    alloc: Global,
    first: &[Element],
    second: &[Element],
) -> Result<bool, AllocError>
    ensures { IfOk result (λ b. b ≡ same_text (written (texts first.now)) (written (texts second.now))) }
{
    if first.len() != second.len() {
        return Ok(false);
    }
    for place in 0..first.len() {
        if !is_same(alloc, &first[place], &second[place])? {
            return Ok(false);
        }
    }
    Ok(true)
}
