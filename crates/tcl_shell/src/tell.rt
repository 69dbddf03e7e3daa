//! What a session writes: prompts, results and messages.
ghost use Rattle.std.specs.Prelude.{◌≡◌, ◌++◌, [], ◌∷◌, OnErr, is_err};
ghost use Rattle.std.specs.Prelude as std;
ghost use Rattle.tcl_chan.specs.declared.fault.ChanFault.TheVariants.{Write};
ghost use Rattle.std.specs.Str.{chars};
ghost use Rattle.tcl_chan.specs.Worlds.{stdin, stdout, stderr, SameDevices};
ghost use Rattle.tcl_channels.specs.Leaves.{Counted, Failures, failures_of};
ghost use Rattle.tcl_channels.specs.Shown.{channels_of, output_at};
ghost use Rattle.tcl_chars.specs.Characters.{newline};
ghost use Rattle.tcl_meaning.specs.Beginnings.{OutputsBegin};
ghost use Rattle.tcl_meaning.specs.Effects.{wrote};
ghost use Rattle.tcl_interp.specs.Outcome.{outcome_fails, outcome_is_io};
ghost use Rattle.tcl_shell.specs.Session.{prompted, told_by, told_result};
ghost use Rattle.tcl_shell.specs.Turns.{Changes, Followed, IfGoes, turn_is_io};

use crate::end::{SessionEnd, Turn};
use tcl_chan::device::{Input, Output};
use tcl_chan::fault::{ChanFault, Out};
use tcl_chan::world::World;
use tcl_interp::Outcome;

/// Writes the prompt, and flushes it.
pub(crate) fn prompt<R: Input, W: Output, E: Output>(
    world: &mut World<'_, '_, '_, R, W, E>,
) -> Result<(), ChanFault>
    ensures changes { Changes result prompted (channels_of R.to_come W.written E.written world.old) (channels_of R.to_come W.written E.written world.new) }
    ensures adds { OutputsBegin (channels_of R.to_come W.written E.written world.old) (channels_of R.to_come W.written E.written world.new) }
    ensures fault { OnErr result (result ≡ std.Err Write) }
    ensures failures { Counted (is_err result) (failures_of R.failed_calls W.failed_calls E.failed_calls world.old) (failures_of R.failed_calls W.failed_calls E.failed_calls world.new) }
    ensures devices { SameDevices world.old world.new }
{
    world.puts(Out::Stdout, "% ")?;
    world.flush(Out::Stdout)
}

// Writes a text and a newline to an output.
fn put_line<R: Input, W: Output, E: Output>(
    world: &mut World<'_, '_, '_, R, W, E>,
    to: Out,
    text: &str,
) -> Result<(), ChanFault>
    ensures changes { Changes result (wrote (output_at to) (chars text.now ++ newline ∷ [])) (channels_of R.to_come W.written E.written world.old) (channels_of R.to_come W.written E.written world.new) }
    ensures adds { OutputsBegin (channels_of R.to_come W.written E.written world.old) (channels_of R.to_come W.written E.written world.new) }
    ensures failures { Counted (is_err result) (failures_of R.failed_calls W.failed_calls E.failed_calls world.old) (failures_of R.failed_calls W.failed_calls E.failed_calls world.new) }
    ensures devices { SameDevices world.old world.new }
{
    world.puts(to, text)?;
    world.puts(to, "\n")
}

// Writes a result, if it isn't empty.
fn put_result<R: Input, W: Output, E: Output>(
    world: &mut World<'_, '_, '_, R, W, E>,
    text: &str,
) -> Result<(), ChanFault>
    ensures changes { Changes result (told_result (chars text.now)) (channels_of R.to_come W.written E.written world.old) (channels_of R.to_come W.written E.written world.new) }
    ensures adds { OutputsBegin (channels_of R.to_come W.written E.written world.old) (channels_of R.to_come W.written E.written world.new) }
    ensures failures { Counted (is_err result) (failures_of R.failed_calls W.failed_calls E.failed_calls world.old) (failures_of R.failed_calls W.failed_calls E.failed_calls world.new) }
    ensures devices { SameDevices world.old world.new }
{
    if text.is_empty() {
        return Ok(());
    }
    put_line(world, Out::Stdout, text)
}

// Writes a result, or the message of an error.
fn put_told<R: Input, W: Output, E: Output>(
    world: &mut World<'_, '_, '_, R, W, E>,
    code: i64,
    text: &str,
) -> Result<(), ChanFault>
    ensures changes { Changes result (told_by code (chars text.now)) (channels_of R.to_come W.written E.written world.old) (channels_of R.to_come W.written E.written world.new) }
    ensures adds { OutputsBegin (channels_of R.to_come W.written E.written world.old) (channels_of R.to_come W.written E.written world.new) }
    ensures failures { Counted (is_err result) (failures_of R.failed_calls W.failed_calls E.failed_calls world.old) (failures_of R.failed_calls W.failed_calls E.failed_calls world.new) }
    ensures devices { SameDevices world.old world.new }
{
    if code == 0 {
        return put_result(world, text);
    }
    put_line(world, Out::Stderr, text)
}

/// Tells how a text ended, and whether the session goes on.
pub(crate) fn tell<R: Input, W: Output, E: Output>(
    world: &mut World<'_, '_, '_, R, W, E>,
    outcome: Outcome,
) -> Turn
    ensures followed { Followed outcome (channels_of R.to_come W.written E.written world.old) result (channels_of R.to_come W.written E.written world.new) }
    ensures goes { IfGoes result (outcome_fails outcome ≡ std.false) }
    ensures adds { OutputsBegin (channels_of R.to_come W.written E.written world.old) (channels_of R.to_come W.written E.written world.new) }
    ensures failures { (before : Failures) → Counted (outcome_is_io outcome) before (failures_of R.failed_calls W.failed_calls E.failed_calls world.old)
        → Counted (turn_is_io result) before (failures_of R.failed_calls W.failed_calls E.failed_calls world.new) }
    ensures devices { SameDevices world.old world.new }
{
    match outcome {
        Outcome::Done {
            code,
            result,
            left,
            ..
        } => match put_told(world, code, result.as_str()) {
            Ok(()) => Turn::Goes(left),
            Err(_) => Turn::Over(SessionEnd::Io),
        },
        Outcome::Budget => Turn::Over(SessionEnd::Budget),
        Outcome::Exit(status) => Turn::Over(SessionEnd::Exit(status)),
        Outcome::Io => Turn::Over(SessionEnd::Io),
        // An interpreter that has failed is not asked again.
        Outcome::Memory | Outcome::Failed | Outcome::Over => Turn::Over(SessionEnd::Memory),
    }
}
