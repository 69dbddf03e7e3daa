//! Values and texts that grow.

use crate::twice::{Changed, twice};
use std::alloc::{AllocError, Global};
use std::rc::RcStr;
use tcl_values::{Key, Value};

/// The value of a text.
pub(crate) fn value_of(alloc: Global, text: &str) -> Result<Value, AllocError> {
    Ok(Value::of_text(RcStr::from_str(alloc, text)?))
}

/// Writes the text of a value behind another text.
pub(crate) fn show_value(
    alloc: Global,
    value: &Value,
    shown: &mut String,
) -> Result<(), AllocError> {
    let mut copy = value.copy()?;
    let text = copy.text(alloc)?;
    shown.push_str(text.as_str())
}

/// A list, to which an element is added.
#[derive(Drop)]
struct List {
    value: Value,
}

impl Changed for List {
    fn shown(&self, alloc: Global) -> Result<String, AllocError> {
        let mut shown = String::new(alloc);
        show_value(alloc, &self.value, &mut shown)?;
        Ok(shown)
    }

    fn change(&mut self, alloc: Global) -> Result<(), AllocError> {
        let item = value_of(alloc, "c d")?;
        self.value.push(alloc, item).map_err(|_| AllocError)
    }
}

pub(crate) fn push(alloc: Global) -> Result<String, AllocError> {
    let mut list = List {
        value: value_of(alloc, "a b")?,
    };
    twice(alloc, "push", &mut list)
}

/// A dictionary, to which a pair is added.
#[derive(Drop)]
struct Dictionary {
    value: Value,
}

impl Changed for Dictionary {
    fn shown(&self, alloc: Global) -> Result<String, AllocError> {
        let mut shown = String::new(alloc);
        show_value(alloc, &self.value, &mut shown)?;
        Ok(shown)
    }

    fn change(&mut self, alloc: Global) -> Result<(), AllocError> {
        let key = Key::of(RcStr::from_str(alloc, "k")?);
        let value = value_of(alloc, "c d")?;
        self.value
            .dict_put(alloc, key, value)
            .map_err(|_| AllocError)
    }
}

pub(crate) fn dict_put(alloc: Global) -> Result<String, AllocError> {
    let mut dictionary = Dictionary {
        value: value_of(alloc, "a 1")?,
    };
    twice(alloc, "dict_put", &mut dictionary)
}

/// A list's text, behind which an element is written.
#[derive(Drop)]
struct Written {
    text: String,
}

impl Changed for Written {
    fn shown(&self, alloc: Global) -> Result<String, AllocError> {
        String::from_str(alloc, self.text.as_str())
    }

    fn change(&mut self, _: Global) -> Result<(), AllocError> {
        tcl_list::append_element(&mut self.text, "c d", false)
    }
}

pub(crate) fn append_element(alloc: Global) -> Result<String, AllocError> {
    let mut written = Written {
        text: String::from_str(alloc, "a b")?,
    };
    twice(alloc, "append_element", &mut written)
}
