//! One variable, as the programs of commands use it.
ghost use Rattle.std.specs.Prelude.{◌≡◌, OnErr};
ghost use Rattle.std.specs.Str.{chars};
ghost use Rattle.tcl_meaning.specs.Variables.{read, set, unset};
ghost use Rattle.tcl_steps.specs.Ends.{Ends};

use crate::completion::Completion;
use crate::stop::Stop;
use std::alloc::Global;
use tcl_frames::{Frames, VarFault};
use tcl_names::{Hint, Sought};
use tcl_values::Value;

/// The text of a variable.
pub fn read(alloc: Global, frames: &Frames, name: &str) -> Result<Value, Stop>
    ensures { Ends (read (chars name.now)) frames.now result frames.now }
{
    match frames.find(name) {
        Ok(value) => Ok(value.copy()?),
        Err(refusal) => Err(Stop::Error(Completion::cant_read(alloc, name, refusal)?)),
    }
}

/// Gives a variable a text.
pub fn assign(alloc: Global, frames: &mut Frames, name: &str, value: Value) -> Result<(), Stop>
    ensures ends { Ends (set (chars name.now) value) frames.old result frames.new }
    ensures same { OnErr result (frames.new ≡ frames.old) }
{
    let hint = Hint::new();
    let name = Sought::unkeyed(name, &hint);
    assign_near(alloc, frames, &name, value)
}

/// The same as `assign`: quick where the name has a key and stands where it was found last.
pub fn assign_near(
    alloc: Global,
    frames: &mut Frames,
    name: &Sought<'_>,
    value: Value,
) -> Result<(), Stop>
    ensures ends { Ends (set name.now value) frames.old result frames.new }
    ensures same { OnErr result (frames.new ≡ frames.old) }
{
    match frames.put_near(alloc, name, value) {
        Ok(()) => Ok(()),
        Err(VarFault::Refused(refusal)) => {
            Err(Stop::Error(Completion::cant_set(alloc, name.as_str(), refusal)?))
        }
        Err(VarFault::Memory) => Err(Stop::Memory),
    }
}

/// Takes a variable away.
pub fn remove(alloc: Global, frames: &mut Frames, name: &str) -> Result<(), Stop>
    ensures ends { Ends (unset (chars name.now)) frames.old result frames.new }
    ensures same { OnErr result (frames.new ≡ frames.old) }
{
    match frames.unset(name) {
        Ok(()) => Ok(()),
        Err(refusal) => Err(Stop::Error(Completion::cant_unset(alloc, name, refusal)?)),
    }
}
