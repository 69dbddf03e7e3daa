//! Frames whose variables, links and calls change.

use crate::twice::{Changed, twice};
use crate::values::{show_value, value_of};
use std::alloc::{AllocError, Global};
use tcl_frames::{Edit, Frames, Level, Variable};
use tcl_names::{NameMap, PlacedNames};

/// What is called.
#[derive(Clone, Copy, Debug)]
enum Call {
    Put,
    Link,
    PushCall,
    ArraySet,
}

/// Frames, of which one call is made.
#[derive(Drop)]
struct Changing {
    frames: Frames,
    call: Call,
}

// Adds the elements of an array, with their texts.
fn show_elements(
    alloc: Global,
    frames: &Frames,
    name: &str,
    shown: &mut String,
) -> Result<(), AllocError> {
    let Some(elements) = frames.array(name) else {
        return Ok(());
    };
    for (index, value) in elements.entries(alloc)? {
        write!(shown, ", {name}({index}) is ")?;
        show_value(alloc, value, shown)?;
    }
    Ok(())
}

// Adds a variable, with its text.
fn show_variable(
    alloc: Global,
    frames: &Frames,
    name: &str,
    shown: &mut String,
) -> Result<(), AllocError> {
    match frames.find(name) {
        Ok(value) => {
            write!(shown, ", {name} is ")?;
            show_value(alloc, value, shown)
        }
        Err(_) => show_elements(alloc, frames, name, shown),
    }
}

// Puts an array of one element.
fn set_array(alloc: Global, frames: &mut Frames) -> Result<(), AllocError> {
    let mut pairs = value_of(alloc, "1 c")?;
    let Ok(row) = pairs.row(alloc) else {
        return Err(AllocError);
    };
    frames
        .edit(alloc, "a", Edit::Put(row.items()))
        .map_err(|_| AllocError)
}

// Calls a procedure with one variable.
fn call_procedure(alloc: Global, frames: &mut Frames) -> Result<(), AllocError> {
    let mut variables = NameMap::new(alloc);
    variables.insert(alloc, "y", Variable::of_text(value_of(alloc, "c")?))?;
    let variables = PlacedNames::of_map(alloc, variables)?;
    frames.push_call(alloc, variables)
}

impl Changed for Changing {
    fn shown(&self, alloc: Global) -> Result<String, AllocError> {
        let mut shown = format!(in alloc; "level {}", self.frames.level())?;
        for (name, _) in self.frames.names(alloc)?.iter() {
            show_variable(alloc, &self.frames, name.as_str(), &mut shown)?;
        }
        Ok(shown)
    }

    fn change(&mut self, alloc: Global) -> Result<(), AllocError> {
        match self.call {
            Call::Put => {
                let value = value_of(alloc, "c d")?;
                self.frames.put(alloc, "y", value).map_err(|_| AllocError)
            }
            Call::Link => self
                .frames
                .link(alloc, Level::Up(0), "x", "y")
                .map_err(|_| AllocError),
            Call::PushCall => call_procedure(alloc, &mut self.frames),
            Call::ArraySet => set_array(alloc, &mut self.frames),
        }
    }
}

// Frames with one variable, of which this call is made.
fn called(alloc: Global, name: &str, call: Call) -> Result<String, AllocError> {
    let mut variables = NameMap::new(alloc);
    variables.insert(alloc, "x", Variable::of_text(value_of(alloc, "b")?))?;
    let mut changing = Changing {
        frames: Frames::new(alloc, variables)?,
        call,
    };
    twice(alloc, name, &mut changing)
}

pub(crate) fn put(alloc: Global) -> Result<String, AllocError> {
    called(alloc, "put", Call::Put)
}

pub(crate) fn link(alloc: Global) -> Result<String, AllocError> {
    called(alloc, "link", Call::Link)
}

pub(crate) fn push_call(alloc: Global) -> Result<String, AllocError> {
    called(alloc, "push_call", Call::PushCall)
}

pub(crate) fn array_set(alloc: Global) -> Result<String, AllocError> {
    called(alloc, "array_set", Call::ArraySet)
}
