//! Answers beside what is expected of them.
use std::alloc::AllocError;

/// Is this the text that was made?
pub(crate) fn is(made: Result<String, AllocError>, want: &str) -> bool {
    match made {
        Ok(text) => text.as_str() == want,
        Err(_) => false,
    }
}

/// Was the question answered, by yes?
pub(crate) fn holds(found: Result<bool, AllocError>) -> bool {
    match found {
        Ok(answer) => answer,
        Err(_) => false,
    }
}
