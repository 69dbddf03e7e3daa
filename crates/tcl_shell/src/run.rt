//! The session.
ghost use Rattle.std.specs.Prelude.{◌≡◌, false, option_map};
ghost use Rattle.tcl_chan.specs.Characters.{input_chars};
ghost use Rattle.tcl_chan.specs.Worlds.{SameDevices};
ghost use Rattle.tcl_channels.specs.Leaves.{Counted, Failures, failures_of};
ghost use Rattle.tcl_channels.specs.Shown.{channels_of};
ghost use Rattle.tcl_chars.specs.declared.numbers.Dialect.TheVariants.{Tcl86};
ghost use Rattle.tcl_meaning.specs.Beginnings.{OutputsBegin};
ghost use Rattle.tcl_meaning.specs.Effects.{Got};
ghost use Rattle.tcl_meaning.specs.Frames.{Frame};
ghost use Rattle.tcl_meaning.specs.Run.{first_channels};
ghost use Rattle.tcl_meaning.specs.State.{Commands};
ghost use Rattle.tcl_interp.specs.Channels.{failures_at, RunCounted};
ghost use Rattle.tcl_interp.specs.Interp.{remains_at, state_at};
ghost use Rattle.tcl_shell.specs.Ends.{EndsSo, Tells, end_is_io};
ghost use Rattle.tcl_shell.specs.Session.{most_texts, session, turns};
ghost use Rattle.tcl_shell.specs.Turns.{IfGoes, Turned, left_over, turn_is_io};

use crate::end::{SessionEnd, Turn, end_by};
use crate::input::ask_text;
use crate::tell::tell;
use std::alloc::Global;
use tcl_chan::device::{Input, Output};
use tcl_chan::world::World;
use tcl_chars::Dialect;
use tcl_interp::{Config, Interp, flush_both, prepared};

// How many texts are evaluated at most.
const MOST_TEXTS: u64 = 0x7fff_ffff_ffff_ffff;

// Asks for a text, evaluates it with the units that are left, and tells how it ended.
fn turn<R: Input, W: Output, E: Output>(
    alloc: Global,
    interp: &mut Interp,
    world: &mut World<'_, '_, '_, R, W, E>,
    units: u64,
) -> Turn
    requires { interp.old.failed ≡ false }
    ensures turned { Turned result interp.old.dialect (state_at R.to_come W.written E.written interp.old world.old units) (remains_at R.to_come W.written E.written interp.new world.new) }
    ensures adds { OutputsBegin (channels_of R.to_come W.written E.written world.old) (channels_of R.to_come W.written E.written world.new) }
    ensures sound { IfGoes result (interp.new.failed ≡ false) }
    ensures dialect { interp.new.dialect ≡ interp.old.dialect }
    ensures failures { Counted (turn_is_io result) (failures_of R.failed_calls W.failed_calls E.failed_calls world.old) (failures_of R.failed_calls W.failed_calls E.failed_calls world.new) }
    ensures devices { SameDevices world.old world.new }
{
    let text = match ask_text(alloc, world) {
        Ok(text) => text,
        Err(fault) => return Turn::Over(end_by(fault)),
    };
    let script = text.as_str();
    if script.is_empty() {
        return Turn::Over(SessionEnd::Ended);
    }
    let outcome = interp.eval(world, script, units);
    tell(world, outcome)
}

// Takes turns until the session ends.
fn turns<R: Input, W: Output, E: Output>(
    alloc: Global,
    interp: &mut Interp,
    world: &mut World<'_, '_, '_, R, W, E>,
    budget: u64,
) -> SessionEnd
    requires { interp.old.failed ≡ false }
    ensures ends { EndsSo result (turns interp.old.dialect most_texts (state_at R.to_come W.written E.written interp.old world.old budget)) (remains_at R.to_come W.written E.written interp.new world.new) }
    ensures failures { Counted (end_is_io result) (failures_of R.failed_calls W.failed_calls E.failed_calls world.old) (failures_of R.failed_calls W.failed_calls E.failed_calls world.new) }
    ensures devices { SameDevices world.old world.new }
{
    let mut units = budget;
    let mut texts = MOST_TEXTS;
    'texts: while texts > 0 {
        match turn(alloc, interp, world, units) {
            Turn::Goes(left) => units = left,
            Turn::Over(end) => return end,
        }
        texts -= 1;
    }
    SessionEnd::Ended
}

// Flushes both outputs where a session ended otherwise than by want of memory or by a device.
fn close<R: Input, W: Output, E: Output>(
    world: &mut World<'_, '_, '_, R, W, E>,
    end: SessionEnd,
) -> SessionEnd
    ensures ends { (got : Got (Unit {0})) (globals : Frame) (commands : Commands) → EndsSo end got (left_over globals commands (channels_of R.to_come W.written E.written world.old))
        → EndsSo result got (left_over globals commands (channels_of R.to_come W.written E.written world.new)) }
    ensures failures { (before : Failures) → Counted (end_is_io end) before (failures_of R.failed_calls W.failed_calls E.failed_calls world.old)
        → RunCounted (end_is_io result) before (failures_of R.failed_calls W.failed_calls E.failed_calls world.new) }
    ensures devices { SameDevices world.old world.new }
{
    if matches!(end, SessionEnd::Memory | SessionEnd::Io) {
        return end;
    }
    match flush_both(world) {
        Ok(()) => end,
        Err(_) => SessionEnd::Io,
    }
}

/// Evaluates the texts of the input, one after another, in one interpreter, with `budget` units for all of them. A text is the
/// shortest run of lines that is complete, or all that is left. Before each a prompt is written to standard output and flushed;
/// behind it its result, if it isn't empty, or its error's message to standard error. The empty text ends the session, and so
/// does having evaluated 2^63 - 1 texts. Scripts read the same input, behind the lines taken. Unless memory was refused or a
/// device failed, both outputs are flushed at the end. How far the reader was read ahead isn't promised.
pub fn session_with<R: Input, W: Output, E: Output>(
    alloc: Global,
    config: Config,
    reader: &mut R,
    out: &mut W,
    err: &mut E,
    budget: u64,
) -> SessionEnd
    ensures tells { Tells result (session config.dialect (first_channels (option_map input_chars (R.to_come reader.old)) (W.written out.old) (E.written err.old)) budget)
        (W.written out.new) (E.written err.new) }
    ensures failures { RunCounted (end_is_io result) (failures_at R.failed_calls W.failed_calls E.failed_calls reader.old out.old err.old)
        (failures_at R.failed_calls W.failed_calls E.failed_calls reader.new out.new err.new) }
{
    let Ok(mut interp) = prepared(alloc, config, &["tclint"]) else {
        return SessionEnd::Memory;
    };
    let mut world = World::new(alloc, reader, out, err);
    let end = turns(alloc, &mut interp, &mut world, budget);
    close(&mut world, end)
}

/// Evaluates the texts of the input as `session_with` does, with the numbers of Tcl 8.6.
pub fn session<R: Input, W: Output, E: Output>(
    alloc: Global,
    reader: &mut R,
    out: &mut W,
    err: &mut E,
    budget: u64,
) -> SessionEnd
    ensures tells { Tells result (session Tcl86 (first_channels (option_map input_chars (R.to_come reader.old)) (W.written out.old) (E.written err.old)) budget)
        (W.written out.new) (E.written err.new) }
    ensures failures { RunCounted (end_is_io result) (failures_at R.failed_calls W.failed_calls E.failed_calls reader.old out.old err.old)
        (failures_at R.failed_calls W.failed_calls E.failed_calls reader.new out.new err.new) }
{
    let config = Config {
        dialect: Dialect::Tcl86,
    };
    session_with(alloc, config, reader, out, err, budget)
}
