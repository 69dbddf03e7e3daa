//! A variable that begins with a command that changes it.
ghost use Rattle.std.specs.Prelude.{◌≡◌, length, OnErr};
ghost use Rattle.std.specs.Str.{chars};
ghost use Rattle.tcl_vars.specs.Updating.{on_missing, Begins, IsTaken};

use crate::changing::change;
use crate::first::{first_of, first_text};
use std::alloc::Global;
use tcl_chars::Dialect;
use tcl_frames::Frames;
use tcl_meaning::Refusal;
use tcl_pages::UpdatePage;
use tcl_steps::{Stop, assign, stop_by};
use tcl_values::Value;

/// A variable that can't be read gets a text, made of the one with which it begins: answers that text.
pub(crate) fn begin_value(
    alloc: Global,
    dialect: Dialect,
    frames: &mut Frames,
    page: UpdatePage,
    name: &str,
    words: &mut [Value],
    refusal: Refusal,
) -> Result<Value, Stop>
    requires { IsTaken page (length words.old) }
    ensures begins { Begins (on_missing dialect page (chars name.now) words.old refusal) frames.old result frames.new }
    ensures same { OnErr result (frames.new ≡ frames.old) }
    ensures words { words.new ≡ words.old }
{
    let first = first_of(page, &*words);
    let mut value = first_text(alloc, first, name, refusal)?;
    match change(alloc, dialect, page, &mut value, words) {
        Ok(()) => {}
        Err(fault) => return Err(stop_by(alloc, fault)),
    }
    assign(alloc, frames, name, value.copy()?)?;
    Ok(value)
}
