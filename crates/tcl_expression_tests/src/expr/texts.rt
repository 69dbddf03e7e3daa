//! Texts that are made of parts.

use std::alloc::{AllocError, Global};

/// Adds a part `times` times.
fn add_times(text: &mut String, part: &str, times: usize) -> Result<(), AllocError> {
    for _ in 0..times {
        text.push_str(part)?;
    }
    Ok(())
}

fn add_all(
    text: &mut String,
    front: &str,
    opening: &str,
    times: usize,
    middle: &str,
    closing: &str,
) -> Result<(), AllocError> {
    text.push_str(front)?;
    add_times(text, opening, times)?;
    text.push_str(middle)?;
    add_times(text, closing, times)
}

/// The front, the opening text `times` times, the middle, and the closing text as often.
pub(super) fn nested(
    alloc: Global,
    front: &str,
    opening: &str,
    times: usize,
    middle: &str,
    closing: &str,
) -> Result<String, AllocError> {
    let mut text = String::new(alloc);
    add_all(&mut text, front, opening, times, middle, closing)?;
    Ok(text)
}

/// The pattern with an operator in place of each `@`, and another one in place of each `#`.
pub(super) fn filled(
    alloc: Global,
    pattern: &str,
    operator: &str,
    other: &str,
) -> Result<String, AllocError> {
    let once = pattern.replace(alloc, "@", operator)?;
    once.as_str().replace(alloc, "#", other)
}
