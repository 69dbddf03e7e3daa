//! Values of texts, the words of a line, and answers beside what is expected of them.
use std::alloc::Global;
use std::rc::RcStr;
use tcl_chars::Fault;
use tcl_values::Value;

pub(crate) fn value(alloc: Global, text: &str) -> Result<Value, Fault> {
    Ok(Value::of_text(RcStr::from_str(alloc, text)?))
}

/// The elements of a list, each as a value.
pub(crate) fn words(alloc: Global, line: &str) -> Result<Vec<Value>, Fault> {
    value(alloc, line)?.list(alloc)
}

pub(crate) fn text(alloc: Global, mut value: Value) -> Result<RcStr, Fault> {
    Ok(value.text(alloc)?)
}

pub(crate) fn length(text: Result<RcStr, Fault>) -> Result<usize, Fault> {
    Ok(text?.len())
}

/// The text of an answer, or of its error.
pub(crate) fn said(alloc: Global, answer: Result<Value, Fault>) -> Result<RcStr, Fault> {
    match answer {
        Ok(value) => text(alloc, value),
        Err(Fault::Error(message)) => Ok(message),
        Err(Fault::Memory) => Err(Fault::Memory),
    }
}

/// The first text, the other one `count` times, and the last one.
pub(crate) fn repeated(
    alloc: Global,
    first: &str,
    other: &str,
    count: u32,
    last: &str,
) -> Result<String, Fault> {
    let mut text = String::from_str(alloc, first)?;
    for _ in 0..count {
        text.push_str(other)?;
    }
    text.push_str(last)?;
    Ok(text)
}

/// Is this what was worked out?
pub(crate) fn is(found: Result<RcStr, Fault>, want: &str) -> bool {
    match found {
        Ok(text) => text.as_str() == want,
        Err(_) => false,
    }
}

/// Is this the count that was worked out?
pub(crate) fn counts(found: Result<usize, Fault>, want: usize) -> bool {
    match found {
        Ok(count) => count == want,
        Err(_) => false,
    }
}

/// Was the question answered, by yes?
pub(crate) fn holds(found: Result<bool, Fault>) -> bool {
    match found {
        Ok(answer) => answer,
        Err(_) => false,
    }
}
