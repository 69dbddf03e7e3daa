//! A run of a script.
ghost use Rattle.std.specs.Prelude.{◌≡◌, IfOk};
ghost use Rattle.std.specs.Str.{chars};
ghost use Rattle.tcl_meaning.specs.Completions.{nothing};
ghost use Rattle.tcl_meaning.specs.Script.{Run};
ghost use Rattle.tcl_meaning.specs.Tasks.{Script};
ghost use Rattle.tcl_steps.specs.Comes.{state_of};
ghost use Rattle.tcl_vm.specs.Engines.{is_io};
ghost use Rattle.tcl_engine.specs.Answered.{host_views};
ghost use Rattle.tcl_meaning.specs.State.{State};
ghost use Rattle.tcl_vm.specs.Machines.{Begins, Ends, Follows, seen};
ghost use Rattle.tcl_vm.specs.Turns.{Fits, Onward};
ghost use Rattle.tcl_vm.specs.Unwinding.{Unwinds};

use std::alloc::{AllocError, Global};
use tcl_channels::Devices;
use tcl_chars::message;
use tcl_compile::Codes;
use tcl_engine::{Room, Rooms, Undone, host_over};
use tcl_frames::Frames;
use tcl_noting::Place;
use tcl_steps::{Completion, Loop, Owes, Scope};
use tcl_table::Table;
use tcl_values::Value;
use tcl_vm::{Paused, Stop};

/// Runs a script over what an interpreter keeps and over devices. It may spend `units`, one for each command and each turn
/// of a loop. Its completion, what scripts keep, the channels and the units that are left are those of the definition.
///
/// # Errors
///
/// `Stop::Budget` where a unit was wanting, `Stop::Exit` where the script has ended the run, `Stop::Memory` where a growth was
/// refused, `Stop::Io` where a device failed.
pub fn run<V: Devices>(
    alloc: Global,
    frames: &mut Frames,
    table: &mut Table,
    codes: &mut Codes,
    devices: &mut V,
    units: &mut u64,
    script: &str,
) -> Result<Completion, Stop>
    ensures follows { Follows result (Run codes.old (Script 1 nothing (chars script.now)) (state_of table.old (V.channels devices.old) units.old frames.old)) (state_of table.new (V.channels devices.new) units.new frames.new) }
    ensures onward { Onward (state_of table.old (V.channels devices.old) units.old frames.old) (state_of table.new (V.channels devices.new) units.new frames.new) }
    ensures leaves { V.leaves (is_io result) devices.old devices.new }
    ensures dialect { codes.new ≡ codes.old }
{
    let text = Value::of_text(message(alloc, script)?);
    let mut rooms = Rooms::new(alloc);
    let mut host = host_over(alloc, frames, table, codes, devices, &mut rooms, *units);
    let ended = tcl_vm::run(alloc, &mut host, text, 1);
    *units = host.units();
    ended
}

/// Runs a script as `run` does, and tells where an error that ended it has left codes, from the inside out: nothing where it ended
/// otherwise, or where memory was refused to one of the places.
///
/// # Errors
///
/// As those of `run`.
pub fn run_noted<V: Devices>(
    alloc: Global,
    frames: &mut Frames,
    table: &mut Table,
    codes: &mut Codes,
    devices: &mut V,
    units: &mut u64,
    script: &str,
    places: &mut Vec<Place>,
) -> Result<Completion, Stop>
    ensures follows { Follows result (Run codes.old (Script 1 nothing (chars script.now)) (state_of table.old (V.channels devices.old) units.old frames.old)) (state_of table.new (V.channels devices.new) units.new frames.new) }
    ensures onward { Onward (state_of table.old (V.channels devices.old) units.old frames.old) (state_of table.new (V.channels devices.new) units.new frames.new) }
    ensures leaves { V.leaves (is_io result) devices.old devices.new }
    ensures dialect { codes.new ≡ codes.old }
{
    let text = Value::of_text(message(alloc, script)?);
    let mut rooms = Rooms::new(alloc);
    let mut host = host_over(alloc, frames, table, codes, devices, &mut rooms, *units);
    let ended = tcl_noting::run_noted(alloc, &mut host, text, 1, places);
    *units = host.units();
    ended
}

/// A machine at the beginning of a script of a host. Nothing is evaluated, and no unit spent.
///
/// # Errors
///
/// A growth was refused.
pub fn start(
    alloc: Global,
    codes: &mut Codes,
    script: &str,
) -> Result<Paused<Room, Undone, Scope, Owes, Loop>, AllocError>
    ensures begins { IfOk result (λ paused. (s : State) → Begins codes.old (chars script.now) 1 (seen host_views paused s)) }
    ensures dialect { codes.new ≡ codes.old }
{
    let code = codes.script(alloc, script)?;
    let room = Room::new(alloc, code, 1)?;
    Ok(Paused::new(alloc, room))
}

/// Goes on over what an interpreter keeps and over devices, and may spend `units`. Where a unit is wanting, the machine stands where it goes
/// on, its frames stand too, and what was done isn't done again.
///
/// # Errors
///
/// As those of `run`.
pub fn resume<V: Devices>(
    alloc: Global,
    frames: &mut Frames,
    table: &mut Table,
    codes: &mut Codes,
    devices: &mut V,
    paused: &mut Paused<Room, Undone, Scope, Owes, Loop>,
    units: &mut u64,
) -> Result<Completion, Stop>
    requires fits { Fits (seen host_views paused.old (state_of table.old (V.channels devices.old) units.old frames.old)) }
    requires unwinds { Unwinds (seen host_views paused.old (state_of table.old (V.channels devices.old) units.old frames.old)) }
    ensures ends { Ends codes.old result (seen host_views paused.old (state_of table.old (V.channels devices.old) units.old frames.old)) (seen host_views paused.new (state_of table.new (V.channels devices.new) units.new frames.new)) }
    ensures leaves { V.leaves (is_io result) devices.old devices.new }
    ensures dialect { codes.new ≡ codes.old }
{
    let mut rooms = Rooms::new(alloc);
    let mut host = host_over(alloc, frames, table, codes, devices, &mut rooms, *units);
    let ended = tcl_vm::resume(&mut host, paused);
    *units = host.units();
    ended
}
