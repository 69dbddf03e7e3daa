//! Long texts, and answers beside what is expected of them.
use std::alloc::{AllocError, Global};

/// Adds a part `times` times.
pub(crate) fn add(text: &mut String, part: &str, times: u32) -> Result<(), AllocError> {
    for _ in 0..times {
        text.push_str(part)?;
    }
    Ok(())
}

/// A part, repeated `times` times.
pub(crate) fn repeated(alloc: Global, part: &str, times: u32) -> Result<String, AllocError> {
    let mut text = String::new(alloc);
    add(&mut text, part, times)?;
    Ok(text)
}

/// Is this the text that was made?
pub(crate) fn is(made: Result<String, AllocError>, want: &str) -> bool {
    match made {
        Ok(text) => text.as_str() == want,
        Err(_) => false,
    }
}

/// Has the text that was made this beginning, this end and this length?
pub(crate) fn lies_between(
    made: Result<String, AllocError>,
    front: &str,
    back: &str,
    length: usize,
) -> bool {
    match made {
        Ok(text) => text.starts_with(front) && text.ends_with(back) && text.len() == length,
        Err(_) => false,
    }
}

/// Was the question answered, by yes?
pub(crate) fn holds(found: Result<bool, AllocError>) -> bool {
    match found {
        Ok(answer) => answer,
        Err(_) => false,
    }
}
