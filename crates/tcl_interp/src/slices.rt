//! A whole run of a script, in slices of its budget.
ghost use Rattle.std.specs.Prelude.{◌≡◌, false, ◌+◌, ◌<◌, ◌^◌, option_map, map as each};
ghost use Rattle.std.specs.Str.{chars};
ghost use Rattle.tcl_chan.specs.Characters.{input_chars};
ghost use Rattle.tcl_channels.specs.Leaves.{Leaves};
ghost use Rattle.tcl_meaning.specs.Run.{first_channels, run_script, run_with_args};
ghost use Rattle.tcl_pages.specs.Texts.{Text};
ghost use Rattle.tcl_interp.specs.Channels.{failures_at, RunCounted};
ghost use Rattle.tcl_interp.specs.Interp.{Shows, remains_at, state_at};
ghost use Rattle.tcl_interp.specs.Outcome.{Ends, more_left, outcome_fails, outcome_is_io, units_left};
ghost use Rattle.tcl_interp.specs.Pausing.{Starts, stopped};
ghost use Rattle.tcl_interp.specs.Report.{Reports};
ghost use Rattle.tcl_interp.specs.declared.stage.Stage.TheVariants as stage;

use crate::host::{Config, Outcome};
use crate::interp::Interp;
use crate::pausing::Run;
use crate::report::{Report, finish, prepared};
use std::alloc::Global;
use tcl_chan::device::{Input, Output};
use tcl_chan::world::World;

// The same outcome, with `rest` more units left.
fn with_rest(outcome: Outcome, rest: u64) -> Outcome
    requires { units_left outcome + rest < 2 ^ 64 }
    ensures { result ≡ more_left rest outcome }
{
    match outcome {
        Outcome::Done {
            code,
            result,
            options,
            left,
        } => Outcome::Done {
            code,
            result,
            options,
            left: left + rest,
        },
        other => other,
    }
}

// Goes on with slices of a budget, and with what is left of it at last, until a part ends otherwise than by pausing.
fn go_in_slices<R: Input, W: Output, E: Output>(
    run: &mut Run,
    world: &mut World<'_, '_, '_, R, W, E>,
    budget: u64,
    slice: u64,
) -> Outcome
    requires { run.old.stage ≡ stage.Going }
    ensures run { (text : Text) (interp : Shows) → Starts interp run.old text
        → Ends result (run_script interp.dialect text (state_at R.to_come W.written E.written interp world.old budget)) (remains_at R.to_come W.written E.written (stopped run.new) world.new) }
    ensures fails { (stopped run.new).failed ≡ outcome_fails result }
    ensures leaves { Leaves R.failed_calls W.failed_calls E.failed_calls (outcome_is_io result) world.old world.new }
{
    let mut rest = budget;
    'slices: while 0 < slice && slice < rest {
        rest -= slice;
        match run.go(world, slice) {
            Outcome::Budget => {}
            outcome => return with_rest(outcome, rest),
        }
    }
    run.go(world, rest)
}

// Runs a script in slices, in an interpreter.
fn run_slices<R: Input, W: Output, E: Output>(
    interp: Interp,
    world: &mut World<'_, '_, '_, R, W, E>,
    script: &str,
    budget: u64,
    slice: u64,
) -> (Interp, Outcome)
    requires { interp.failed ≡ false }
    ensures run { Ends result.1 (run_script interp.dialect (chars script.now) (state_at R.to_come W.written E.written interp world.old budget))
        (remains_at R.to_come W.written E.written result.0 world.new) }
    ensures fails { result.0.failed ≡ outcome_fails result.1 }
    ensures leaves { Leaves R.failed_calls W.failed_calls E.failed_calls (outcome_is_io result.1) world.old world.new }
{
    match interp.start(script) {
        Ok(started) => {
            let mut run = started;
            let outcome = go_in_slices(&mut run, world, budget, slice);
            (run.stop(), outcome)
        }
        Err((refused, _)) => {
            let mut interp = refused;
            interp.fail();
            (interp, Outcome::Memory)
        }
    }
}

/// Runs a script as `run` does, in an interpreter of this dialect and in parts: each has `slice` units, the last one the rest of the
/// budget, and a slice of 0 is the whole budget. The report is that of a run in one; the units that were not handed out are left,
/// too.
pub fn run_sliced<R: Input, W: Output, E: Output>(
    alloc: Global,
    config: Config,
    script: &str,
    args: &[&str],
    reader: &mut R,
    out: &mut W,
    err: &mut E,
    budget: u64,
    slice: u64,
) -> Report
    ensures report { Reports result (run_with_args config.dialect (chars script.now) (each (λ a. chars a.now) args.now)
        (first_channels (option_map input_chars (R.to_come reader.old)) (W.written out.old) (E.written err.old)) budget) (W.written out.new) (E.written err.new) }
    ensures failures { RunCounted (outcome_is_io result.outcome) (failures_at R.failed_calls W.failed_calls E.failed_calls reader.old out.old err.old)
        (failures_at R.failed_calls W.failed_calls E.failed_calls reader.new out.new err.new) }
{
    let Ok(made) = prepared(alloc, config, args) else {
        return Report {
            outcome: Outcome::Memory,
            interp: None,
        };
    };
    let mut world = World::new(alloc, reader, out, err);
    let (mut interp, ended) = run_slices(made, &mut world, script, budget, slice);
    let outcome = finish(&mut interp, &mut world, ended);
    Report {
        outcome,
        interp: Some(interp),
    }
}
