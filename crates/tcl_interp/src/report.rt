//! A whole run of a script.
ghost use Rattle.std.specs.Prelude.{◌≡◌, IfOk, IfSome, false, is_err, option_map, map as each};
ghost use Rattle.std.specs.Str.{chars};
ghost use Rattle.tcl_chan.specs.Characters.{input_chars};
ghost use Rattle.tcl_chan.specs.Worlds.{stdout, stderr, SameDevices, SameInput};
ghost use Rattle.tcl_channels.specs.Leaves.{Counted, Failures, failures_of};
ghost use Rattle.tcl_chars.specs.declared.numbers.Dialect.TheVariants.{Tcl86};
ghost use Rattle.tcl_meaning.specs.Completions.{Completion};
ghost use Rattle.tcl_meaning.specs.Effects.{Got};
ghost use Rattle.tcl_meaning.specs.Frames.{global_frame};
ghost use Rattle.tcl_meaning.specs.Pages.{first_commands};
ghost use Rattle.tcl_meaning.specs.Run.{argument_variables, first_channels, run_script, run_with_args};
ghost use Rattle.tcl_interp.specs.Channels.{failures_at, RunCounted};
ghost use Rattle.tcl_interp.specs.Interp.{remains_at, state_at};
ghost use Rattle.tcl_interp.specs.Outcome.{Ends, outcome_is_io, outcome_fails};
ghost use Rattle.tcl_interp.specs.Report.{Reports};

use crate::arguments::argument_variables;
use crate::host::{Config, Outcome};
use crate::interp::Interp;
use crate::outcome::outcome_fails;
use std::alloc::{AllocError, Global};
use tcl_chan::device::{Input, Output};
use tcl_chan::fault::{ChanFault, Out};
use tcl_chan::world::World;
use tcl_chars::Dialect;

/// How a run ended, and the interpreter that it leaves.
#[derive(Drop)]
pub struct Report {
    pub outcome: Outcome,
    /// `None` only where the outcome is `Memory`.
    pub interp: Option<Interp>,
}

/// Flushes both outputs, the second too where the first fails.
///
/// # Errors
/// What the second flush fails with, or else the first.
pub fn flush_both<R: Input, W: Output, E: Output>(
    world: &mut World<'_, '_, '_, R, W, E>,
) -> Result<(), ChanFault>
    ensures devices { SameDevices world.old world.new }
    ensures input { SameInput R.to_come world.old world.new }
    ensures failures { RunCounted (is_err result) (failures_of R.failed_calls W.failed_calls E.failed_calls world.old) (failures_of R.failed_calls W.failed_calls E.failed_calls world.new) }
    ensures out { W.written (stdout world.new) ≡ W.written (stdout world.old) }
    ensures err { E.written (stderr world.new) ≡ E.written (stderr world.old) }
{
    let first = world.flush(Out::Stdout);
    world.flush(Out::Stderr)?;
    first
}

/// Flushes both outputs once a script has ended, unless memory was refused or a device failed.
pub(crate) fn finish<R: Input, W: Output, E: Output>(
    interp: &mut Interp,
    world: &mut World<'_, '_, '_, R, W, E>,
    ended: Outcome,
) -> Outcome
    requires { interp.old.failed ≡ outcome_fails ended }
    ensures ends { (got : Got Completion) → Ends ended got (remains_at R.to_come W.written E.written interp.old world.old)
        → Ends result got (remains_at R.to_come W.written E.written interp.new world.new) }
    ensures fails { interp.new.failed ≡ outcome_fails result }
    ensures dialect { interp.new.dialect ≡ interp.old.dialect }
    ensures devices { SameDevices world.old world.new }
    ensures failures { (before : Failures) → Counted (outcome_is_io ended) before (failures_of R.failed_calls W.failed_calls E.failed_calls world.old)
        → RunCounted (outcome_is_io result) before (failures_of R.failed_calls W.failed_calls E.failed_calls world.new) }
{
    if outcome_fails(&ended) {
        return ended;
    }
    match flush_both(world) {
        Ok(()) => ended,
        Err(_) => {
            interp.fail();
            Outcome::Io
        }
    }
}

// Evaluates a script and flushes both outputs.
fn run_in<R: Input, W: Output, E: Output>(
    interp: &mut Interp,
    world: &mut World<'_, '_, '_, R, W, E>,
    script: &str,
    budget: u64,
) -> Outcome
    requires { interp.old.failed ≡ false }
    ensures run { Ends result (run_script interp.old.dialect (chars script.now) (state_at R.to_come W.written E.written interp.old world.old budget))
        (remains_at R.to_come W.written E.written interp.new world.new) }
    ensures fails { interp.new.failed ≡ outcome_fails result }
    ensures dialect { interp.new.dialect ≡ interp.old.dialect }
    ensures devices { SameDevices world.old world.new }
    ensures failures { RunCounted (outcome_is_io result) (failures_of R.failed_calls W.failed_calls E.failed_calls world.old) (failures_of R.failed_calls W.failed_calls E.failed_calls world.new) }
{
    let ended = interp.eval(world, script, budget);
    finish(interp, world, ended)
}

/// An interpreter whose variables hold the arguments: `argv0` the first of them, or nothing where there is none, `argv` the list
/// of the others and `argc` their count.
///
/// # Errors
/// A growth was refused.
pub fn prepared(alloc: Global, config: Config, args: &[&str]) -> Result<Interp, AllocError>
    ensures dialect { IfOk result (λ interp. interp.dialect ≡ config.dialect) }
    ensures globals { IfOk result (λ interp. interp.globals ≡ global_frame (argument_variables (each (λ arg. chars arg.now) args.now))) }
    ensures commands { IfOk result (λ interp. interp.commands ≡ first_commands) }
    ensures sound { IfOk result (λ interp. interp.failed ≡ false) }
{
    let variables = argument_variables(alloc, args)?;
    Interp::over(alloc, config.dialect, variables)
}

/// Runs a script in an interpreter of its own: `argv0` holds the first of the arguments, or nothing where there is none, `argv` the
/// list of the others and `argc` their count. Unless memory was refused or a device failed, both outputs are flushed at the end;
/// where a flush fails, the interpreter has failed. How far the reader was read ahead isn't promised.
pub fn run_with<R: Input, W: Output, E: Output>(
    alloc: Global,
    config: Config,
    script: &str,
    args: &[&str],
    reader: &mut R,
    out: &mut W,
    err: &mut E,
    budget: u64,
) -> Report
    ensures report { Reports result (run_with_args config.dialect (chars script.now) (each (λ a. chars a.now) args.now)
        (first_channels (option_map input_chars (R.to_come reader.old)) (W.written out.old) (E.written err.old)) budget) (W.written out.new) (E.written err.new) }
    ensures dialect { IfSome result.interp (λ interp. interp.dialect ≡ config.dialect) }
    ensures failures { RunCounted (outcome_is_io result.outcome) (failures_at R.failed_calls W.failed_calls E.failed_calls reader.old out.old err.old)
        (failures_at R.failed_calls W.failed_calls E.failed_calls reader.new out.new err.new) }
{
    let Ok(mut interp) = prepared(alloc, config, args) else {
        return Report {
            outcome: Outcome::Memory,
            interp: None,
        };
    };
    let mut world = World::new(alloc, reader, out, err);
    let outcome = run_in(&mut interp, &mut world, script, budget);
    Report {
        outcome,
        interp: Some(interp),
    }
}

/// Runs a script as `run_with` does, with the numbers of Tcl 8.6.
pub fn run<R: Input, W: Output, E: Output>(
    alloc: Global,
    script: &str,
    args: &[&str],
    reader: &mut R,
    out: &mut W,
    err: &mut E,
    budget: u64,
) -> Report
    ensures report { Reports result (run_with_args Tcl86 (chars script.now) (each (λ a. chars a.now) args.now)
        (first_channels (option_map input_chars (R.to_come reader.old)) (W.written out.old) (E.written err.old)) budget) (W.written out.new) (E.written err.new) }
    ensures dialect { IfSome result.interp (λ interp. interp.dialect ≡ Tcl86) }
    ensures failures { RunCounted (outcome_is_io result.outcome) (failures_at R.failed_calls W.failed_calls E.failed_calls reader.old out.old err.old)
        (failures_at R.failed_calls W.failed_calls E.failed_calls reader.new out.new err.new) }
{
    let config = Config {
        dialect: Dialect::Tcl86,
    };
    run_with(alloc, config, script, args, reader, out, err, budget)
}
