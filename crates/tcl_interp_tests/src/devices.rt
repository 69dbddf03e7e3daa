//! Devices in memory, of which calls fail.

use std::alloc::{AllocError, Global};
use tcl_chan::device::{Input, Output};
use tcl_chan::faulty::{FaultyInput, FaultyOutput};
use tcl_chan::memory::{MemoryInput, MemoryOutput};
use tcl_chan::world::World;
use tcl_interp::{Interp, Outcome, Report, run};

/// Of standard output and of the error output.
pub(crate) type Pair = (u64, u64);

/// The call of each device that fails, counted from 1; 0 means none.
#[derive(Clone, Copy)]
pub(crate) struct Failing {
    pub(crate) read: u64,
    pub(crate) writes: Pair,
    pub(crate) flushes: Pair,
}

/// No call.
pub(crate) const NONE: Failing = Failing {
    read: 0,
    writes: (0, 0),
    flushes: (0, 0),
};

type FailingOutput = FaultyOutput<MemoryOutput>;

/// Standard input and both outputs.
pub(crate) struct Devices {
    input: FaultyInput<MemoryInput<'static>>,
    out: FailingOutput,
    err: FailingOutput,
}

impl Drop for Devices {
    fn drop(self) {
        let Devices { input: _, out, err } = self;
        drop(out);
        drop(err);
    }
}

fn output(
    alloc: Global,
    capacity: usize,
    fail_write: u64,
    fail_flush: u64,
) -> Result<FailingOutput, AllocError> {
    let inner = MemoryOutput::new(alloc, capacity)?;
    Ok(FaultyOutput::new(inner, fail_write, fail_flush))
}

fn evaluate<R: Input, W: Output, E: Output>(
    alloc: Global,
    interp: &mut Interp,
    input: &mut R,
    out: &mut W,
    err: &mut E,
    script: &str,
    budget: u64,
) -> Outcome {
    let mut world = World::new(alloc, input, out, err);
    interp.eval(&mut world, script, budget)
}

/// Does an output hold this?
fn wrote(output: &FailingOutput, want: &str) -> bool {
    output.inner().bytes() == want.as_bytes()
}

impl Devices {
    /// With these bytes on the input, and empty outputs that take `capacity` bytes each.
    pub(crate) fn new(
        alloc: Global,
        input: &'static [u8],
        capacity: usize,
        failing: Failing,
    ) -> Result<Devices, AllocError> {
        let out = output(alloc, capacity, failing.writes.0, failing.flushes.0)?;
        let err = output(alloc, capacity, failing.writes.1, failing.flushes.1)?;
        Ok(Devices {
            input: FaultyInput::new(MemoryInput::new(input), failing.read),
            out,
            err,
        })
    }

    /// Evaluates a script in an interpreter.
    pub(crate) fn eval(
        &mut self,
        alloc: Global,
        interp: &mut Interp,
        script: &str,
        budget: u64,
    ) -> Outcome {
        let Devices { input, out, err } = self;
        evaluate(alloc, interp, input, out, err, script, budget)
    }

    /// Runs a script in an interpreter of its own.
    pub(crate) fn run(
        &mut self,
        alloc: Global,
        script: &str,
        args: &[&str],
        budget: u64,
    ) -> Report {
        run(
            alloc,
            script,
            args,
            &mut self.input,
            &mut self.out,
            &mut self.err,
            budget,
        )
    }

    /// What was put out.
    pub(crate) fn out(&self) -> &[u8] {
        self.out.inner().bytes()
    }

    /// Was this put out, and that on standard error?
    pub(crate) fn hold(&self, out: &str, err: &str) -> bool {
        wrote(&self.out, out) && wrote(&self.err, err)
    }

    /// How many reads, and how many calls of each output failed.
    pub(crate) fn failures(&self) -> (u64, u64, u64) {
        (
            self.input.failures(),
            self.out.failures(),
            self.err.failures(),
        )
    }
}
