//! Devices whose count of failed calls stands at its greatest value.
ghost use Rattle.std.specs.Prelude.{None};

use std::alloc::Global;
use tcl_chan::device::{Broken, Input, Output};
use tcl_chan::fault::{ChanFault, Out};
use tcl_chan::world::World;

/// A device that tells nothing of its bytes, and of which each call fails.
#[derive(Drop)]
struct Worn {
    failures: u64,
}

impl Input for Worn {
    ghost to_come = { λ _. None };

    ghost failed_calls = { λ device. device.failures };

    fn read(&mut self, _: &mut [u8]) -> Result<usize, Broken> {
        self.failures = self.failures.saturating_add(1);
        Err(Broken)
    }

    fn failures(&self) -> u64 {
        self.failures
    }
}

impl Output for Worn {
    ghost written = { λ _. None };

    ghost failed_calls = { λ device. device.failures };

    fn write(&mut self, _: &[u8]) -> Result<usize, Broken> {
        self.failures = self.failures.saturating_add(1);
        Err(Broken)
    }

    fn flush(&mut self) -> Result<(), Broken> {
        self.failures = self.failures.saturating_add(1);
        Err(Broken)
    }

    fn failures(&self) -> u64 {
        self.failures
    }
}

/// Does each call of channels over these devices fail, with the fault of its kind?
fn all_fail<R: Input, W: Output, E: Output>(
    alloc: Global,
    input: &mut R,
    out: &mut W,
    err: &mut E,
) -> bool {
    let mut world = World::new(alloc, input, out, err);
    world.puts(Out::Stdout, "a") == Err(ChanFault::Write)
        && world.flush(Out::Stderr) == Err(ChanFault::Write)
        && matches!(world.gets(), Err(ChanFault::Read))
        && matches!(world.read(None), Err(ChanFault::Read))
        && !world.eof()
}

/// Do all calls fail over devices that have failed so often, and what do the input and the outputs count then?
fn counts(alloc: Global, failures: u64) -> Option<[u64; 3]> {
    let mut input = Worn { failures };
    let mut out = Worn { failures };
    let mut err = Worn { failures };
    if !all_fail(alloc, &mut input, &mut out, &mut err) {
        return None;
    }
    Some([input.failures, out.failures, err.failures])
}

#[test]
fn failures_are_counted_up_to_the_greatest_number(rt: HostRuntime) {
    const MOST: u64 = u64::MAX;
    assert!(rt; counts(rt.alloc(), 0) == Some([2, 1, 1]));
    assert!(rt; counts(rt.alloc(), MOST - 1) == Some([MOST, MOST, MOST]));
    assert!(rt; counts(rt.alloc(), MOST) == Some([MOST, MOST, MOST]));
}
