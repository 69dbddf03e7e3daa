//! A run of a script that notes where an error leaves codes.
ghost use Rattle.std.specs.Prelude.{◌≤◌};
ghost use Rattle.tcl_meaning.specs.Completions.{nothing};
ghost use Rattle.tcl_meaning.specs.Script.{Run, most_depth};
ghost use Rattle.tcl_meaning.specs.Tasks.{Script};
ghost use Rattle.tcl_vm.specs.Engines.{is_io};
ghost use Rattle.tcl_vm.specs.Machines.{Follows};
ghost use Rattle.tcl_vm.specs.Turns.{Onward};

use crate::follow::Follow;
use crate::notes::Place;
use crate::noting::Noting;
use std::alloc::Global;
use tcl_steps::Completion;
use tcl_values::Value;
use tcl_vm::Stop;

/// Runs a script that stands in `depth - 1` others as `run` of `tcl_vm` does. Where an error ended it, `places` are then those where it
/// has left codes, from the inside out: none where the run ended otherwise, or where memory was refused to one of them.
pub fn run_noted<'engine, 'places, E: Follow>(
    alloc: Global,
    engine: &'engine mut E,
    script: Value,
    depth: u64,
    places: &'places mut Vec<Place>,
) -> Result<Completion, Stop>
    requires shallow { depth ≤ most_depth }
    ensures follows { Follows result (Run (E.dialect engine.old) (Script depth nothing script) (E.shown engine.old)) (E.shown engine.new) }
    ensures onward { Onward (E.shown engine.old) (E.shown engine.new) }
    ensures leaves { E.leaves (is_io result) engine.old engine.new }
{
    let mut noting = Noting::new(alloc, engine);
    let ended = tcl_vm::run(alloc, &mut noting, script, depth);
    *places = noting.taken(alloc);
    ended
}
