//! The texts of an input.
ghost use Rattle.std.specs.Prelude.{◌≡◌, false, IfOk, IfErr, OnOk, OnErr, Err};
ghost use Rattle.std.specs.Str.{chars};
ghost use Rattle.std.specs.String.{string_bytes};
ghost use Rattle.tcl_chan.specs.Faults.{IsInputFault, read_failures};
ghost use Rattle.tcl_chan.specs.Worlds.{stdin, met_end, SameDevices, SameOutputs};
ghost use Rattle.tcl_channels.specs.Leaves.{Counted, failures_of};
ghost use Rattle.tcl_channels.specs.Shown.{channels_of};
ghost use Rattle.tcl_meaning.specs.Beginnings.{OutputsBegin};
ghost use Rattle.tcl_shell.specs.Faults.{fails_io, text_by};
ghost use Rattle.tcl_shell.specs.Session.{first_text};
ghost use Rattle.tcl_shell.specs.Turns.{Asked, TakenBy, line_behind};

use crate::tell::prompt;
use std::alloc::Global;
use tcl_chan::device::{Input, Output};
use tcl_chan::fault::ChanFault;
use tcl_chan::world::World;
use tcl_chars::{push, push_text};
use tcl_words::{at_beginning, is_complete_behind};

// Takes a line of the input, with its newline if it has one, and writes it behind a text.
fn take_line<R: Input, W: Output, E: Output>(
    world: &mut World<'_, '_, '_, R, W, E>,
    text: &mut String,
) -> Result<(), ChanFault>
    requires { met_end world.old ≡ false }
    ensures taken { OnOk result (TakenBy (line_behind (chars (string_bytes text.old))) (channels_of R.to_come W.written E.written world.old).input
        (chars (string_bytes text.new)) (channels_of R.to_come W.written E.written world.new).input (met_end world.new)) }
    ensures fault { IfErr result IsInputFault }
    ensures failures { R.failed_calls (stdin world.new) ≡ read_failures (R.failed_calls (stdin world.old)) result }
    ensures outputs { SameOutputs world.old world.new }
    ensures devices { SameDevices world.old world.new }
{
    let Some(line) = world.gets()? else {
        return Ok(());
    };
    push_text(text, line.as_str())?;
    if !world.eof() {
        push(text, '\n')?;
    }
    Ok(())
}

// Takes lines of the input, until they are a complete text or the input has ended.
fn take_text<R: Input, W: Output, E: Output>(
    alloc: Global,
    world: &mut World<'_, '_, '_, R, W, E>,
) -> Result<String, ChanFault>
    requires { met_end world.old ≡ false }
    ensures taken { IfOk result (λ text. TakenBy first_text (channels_of R.to_come W.written E.written world.old).input
        (chars (string_bytes text)) (channels_of R.to_come W.written E.written world.new).input (met_end world.new)) }
    ensures fault { IfErr result IsInputFault }
    ensures failures { R.failed_calls (stdin world.new) ≡ read_failures (R.failed_calls (stdin world.old)) result }
    ensures outputs { SameOutputs world.old world.new }
    ensures devices { SameDevices world.old world.new }
{
    let mut text = String::new(alloc);
    let mut waiting = at_beginning(alloc);
    'lines: for _ in 0..u64::MAX {
        let mut line = String::new(alloc);
        take_line(world, &mut line)?;
        push_text(&mut text, line.as_str())?;
        if world.eof() {
            return Ok(text);
        }
        let (next, complete) = is_complete_behind(alloc, waiting, line.as_str(), text.as_str())?;
        if complete {
            return Ok(text);
        }
        waiting = next;
    }
    // No memory holds a text of so many lines.
    Err(ChanFault::Memory)
}

/// Asks for a text and takes it. Where a call met the input's end before, it is empty.
pub(crate) fn ask_text<R: Input, W: Output, E: Output>(
    alloc: Global,
    world: &mut World<'_, '_, '_, R, W, E>,
) -> Result<String, ChanFault>
    ensures asked { Asked (text_by result) (channels_of R.to_come W.written E.written world.old) (channels_of R.to_come W.written E.written world.new) }
    ensures adds { OutputsBegin (channels_of R.to_come W.written E.written world.old) (channels_of R.to_come W.written E.written world.new) }
    ensures failures { Counted (fails_io result) (failures_of R.failed_calls W.failed_calls E.failed_calls world.old) (failures_of R.failed_calls W.failed_calls E.failed_calls world.new) }
    ensures devices { SameDevices world.old world.new }
{
    prompt(world)?;
    if world.eof() {
        return Ok(String::new(alloc));
    }
    take_text(alloc, world)
}
