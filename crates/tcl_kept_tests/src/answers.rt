//! Values of texts, the words of a line, and answers beside what is expected of them.
use std::alloc::{AllocError, Global};
use std::rc::RcStr;
use tcl_chars::Fault;
use tcl_values::{Key, Value};

pub(crate) fn value(alloc: Global, text: &str) -> Result<Value, Fault> {
    Ok(Value::of_text(RcStr::from_str(alloc, text)?))
}

pub(crate) fn key(alloc: Global, text: &str) -> Result<Key, AllocError> {
    Ok(Key::of(RcStr::from_str(alloc, text)?))
}

/// The elements of a list, each as a value.
pub(crate) fn words(alloc: Global, line: &str) -> Result<Vec<Value>, Fault> {
    value(alloc, line)?.list(alloc)
}

pub(crate) fn text(alloc: Global, mut value: Value) -> Result<String, Fault> {
    Ok(String::from_str(alloc, value.text(alloc)?.as_str())?)
}

/// What a change left of a value: its text, and behind it the script's error, if there is one.
pub(crate) fn left(alloc: Global, value: Value, done: Result<(), Fault>) -> Result<String, Fault> {
    let mut left = text(alloc, value)?;
    match done {
        Ok(()) => Ok(left),
        Err(Fault::Error(message)) => {
            left.push_str(": ")?;
            left.push_str(message.as_str())?;
            Ok(left)
        }
        Err(Fault::Memory) => Err(Fault::Memory),
    }
}

/// Is this what was worked out?
pub(crate) fn is(found: Result<String, Fault>, want: &str) -> bool {
    match found {
        Ok(text) => text.as_str() == want,
        Err(_) => false,
    }
}

/// Was the question answered, by yes?
pub(crate) fn holds(found: Result<bool, Fault>) -> bool {
    match found {
        Ok(answer) => answer,
        Err(_) => false,
    }
}
