//! What a caller of a world learns of the devices that it lent.
ghost use Rattle.std.specs.Prelude.{◌≡◌, ◌++◌, [], OnOk, Some};
ghost use Rattle.tcl_chan.specs.Devices.{put_behind};

use crate::answers::holds;
use std::alloc::{AllocError, Global};
use tcl_chan::device::{Input, Output};
use tcl_chan::fault::{ChanFault, Out};
use tcl_chan::memory::{MemoryInput, MemoryOutput};
use tcl_chan::world::World;

/// Writes both texts, the second one to standard error, and flushes.
fn write_both<R: Input, W: Output, E: Output>(
    alloc: Global,
    input: &mut R,
    out: &mut W,
    err: &mut E,
    first: &str,
    second: &str,
) -> Result<(), ChanFault>
    ensures out { OnOk result (W.written out.new ≡ put_behind (W.written out.old) first.now) }
    ensures err { OnOk result (E.written err.new ≡ put_behind (E.written err.old) second.now) }
    ensures input { R.to_come input.new ≡ R.to_come input.old }
{
    let mut world = World::new(alloc, input, out, err);
    world.puts(Out::Stdout, first)?;
    world.puts(Out::Stderr, second)?;
    world.flush(Out::Stdout)
}

/// Do both outputs hold what was written to them?
fn both_hold(alloc: Global, out: &mut MemoryOutput, err: &mut MemoryOutput) -> bool {
    let wrote = write_both(alloc, &mut MemoryInput::new(b""), out, err, "one", "two");
    wrote.is_ok() && out.bytes() == b"one".as_slice() && err.bytes() == b"two".as_slice()
}

fn both_hold_in_memory(alloc: Global) -> Result<bool, AllocError> {
    let mut out = MemoryOutput::new(alloc, 9)?;
    let mut err = MemoryOutput::new(alloc, 9)?;
    Ok(both_hold(alloc, &mut out, &mut err))
}

#[test]
fn devices_end_as_the_world_leaves_them(rt: HostRuntime) {
    assert!(rt; holds(both_hold_in_memory(rt.alloc())));
}
