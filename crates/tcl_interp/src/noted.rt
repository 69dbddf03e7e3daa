//! A whole run of a script, with the places where an error has left codes.
ghost use Rattle.std.specs.Prelude.{◌≡◌, IfSome, false, option_map, map as each};
ghost use Rattle.std.specs.Str.{chars};
ghost use Rattle.tcl_chan.specs.Characters.{input_chars};
ghost use Rattle.tcl_chan.specs.Worlds.{SameDevices};
ghost use Rattle.tcl_channels.specs.Leaves.{failures_of};
ghost use Rattle.tcl_meaning.specs.Run.{first_channels, run_script, run_with_args};
ghost use Rattle.tcl_interp.specs.Channels.{failures_at, RunCounted};
ghost use Rattle.tcl_interp.specs.Interp.{remains_at, state_at};
ghost use Rattle.tcl_interp.specs.Outcome.{Ends, outcome_is_io, outcome_fails};
ghost use Rattle.tcl_interp.specs.Report.{Reports};

use crate::host::{Config, Outcome};
use crate::interp::Interp;
use crate::report::{Report, finish, prepared};
use std::alloc::{AllocError, Global};
use std::rc::RcStr;
use tcl_chan::device::{Input, Output};
use tcl_chan::world::World;
use tcl_run::Place;
use tcl_table::{Command, Meaning};

// Evaluates a script and flushes both outputs, and tells where an error that ended it has left codes.
fn run_in<R: Input, W: Output, E: Output>(
    interp: &mut Interp,
    world: &mut World<'_, '_, '_, R, W, E>,
    script: &str,
    budget: u64,
    places: &mut Vec<Place>,
) -> Outcome
    requires { interp.old.failed ≡ false }
    ensures run { Ends result (run_script interp.old.dialect (chars script.now) (state_at R.to_come W.written E.written interp.old world.old budget))
        (remains_at R.to_come W.written E.written interp.new world.new) }
    ensures fails { interp.new.failed ≡ outcome_fails result }
    ensures dialect { interp.new.dialect ≡ interp.old.dialect }
    ensures devices { SameDevices world.old world.new }
    ensures failures { RunCounted (outcome_is_io result) (failures_of R.failed_calls W.failed_calls E.failed_calls world.old) (failures_of R.failed_calls W.failed_calls E.failed_calls world.new) }
{
    let ended = interp.eval_noted(world, script, budget, places);
    finish(interp, world, ended)
}

/// Runs a script as `run_with` does, and tells where an error that ended it has left codes, from the inside out.
pub fn run_noted<R: Input, W: Output, E: Output>(
    alloc: Global,
    config: Config,
    script: &str,
    args: &[&str],
    reader: &mut R,
    out: &mut W,
    err: &mut E,
    budget: u64,
    places: &mut Vec<Place>,
) -> Report
    ensures report { Reports result (run_with_args config.dialect (chars script.now) (each (λ a. chars a.now) args.now)
        (first_channels (option_map input_chars (R.to_come reader.old)) (W.written out.old) (E.written err.old)) budget) (W.written out.new) (E.written err.new) }
    ensures dialect { IfSome result.interp (λ interp. interp.dialect ≡ config.dialect) }
    ensures failures { RunCounted (outcome_is_io result.outcome) (failures_at R.failed_calls W.failed_calls E.failed_calls reader.old out.old err.old)
        (failures_at R.failed_calls W.failed_calls E.failed_calls reader.new out.new err.new) }
{
    let Ok(mut interp) = prepared(alloc, config, args) else {
        return Report {
            outcome: Outcome::Memory,
            interp: None,
        };
    };
    let mut world = World::new(alloc, reader, out, err);
    let outcome = run_in(&mut interp, &mut world, script, budget, places);
    Report {
        outcome,
        interp: Some(interp),
    }
}

// Is it a procedure with this body?
fn has_body(command: &Command, body: &str) -> bool {
    match command.meaning() {
        Meaning::Procedure(procedure) => procedure.body.as_str() == body,
        Meaning::BuiltIn(_) => false,
    }
}

/// The first name, in the order of code points, of a procedure of an interpreter that has this body.
pub fn named(interp: &Interp, body: &str) -> Result<Option<RcStr>, AllocError> {
    let entries = interp.table.entries(interp.alloc)?;
    'entries: for (name, command) in entries.iter() {
        if has_body(command, body) {
            return Ok(Some(name.clone()?));
        }
    }
    Ok(None)
}
