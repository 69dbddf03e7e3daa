//! Devices in memory that take a byte a call, and of which one call may fail.

use std::alloc::{AllocError, Global};
use tcl_chan::device::{Input, Output};
use tcl_chan::faulty::{FaultyInput, FaultyOutput};
use tcl_chan::memory::{MemoryInput, MemoryOutput};
use tcl_chan::pieces::OneByte;
use tcl_chan::world::World;
use tcl_chars::Dialect;
use tcl_interp::{Config, Interp, Outcome, Report, Run, run_sliced, run_with};

/// The bytes that an output may hold.
const CAPACITY: usize = 4096;

type SlowInput = FaultyInput<OneByte<MemoryInput<'static>>>;

type SlowOutput = FaultyOutput<OneByte<MemoryOutput>>;

/// The calls of which one fails.
#[derive(Clone, Copy, Debug, PartialEq, Eq)]
pub(crate) enum Kind {
    Read,
    Write,
    Flush,
    WriteToStderr,
    FlushOfStderr,
}

/// The call that fails: of a kind, the one of this number, counted from 1; 0 means none.
#[derive(Clone, Copy)]
pub(crate) struct Call {
    pub(crate) kind: Kind,
    pub(crate) number: u64,
}

/// No call.
pub(crate) const NONE: Call = Call {
    kind: Kind::Read,
    number: 0,
};

impl Call {
    // The number of the call of this kind that fails.
    fn of(self, kind: Kind) -> u64 {
        if self.kind == kind { self.number } else { 0 }
    }
}

/// Standard input and both outputs. What reads and writes all of them is said once, so that the gate builds one interpreter over
/// devices of these types.
pub(crate) struct Devices {
    input: SlowInput,
    out: SlowOutput,
    err: SlowOutput,
}

impl Drop for Devices {
    fn drop(self) {
        let Devices { input: _, out, err } = self;
        drop(out);
        drop(err);
    }
}

fn slow_output(alloc: Global, fail_write: u64, fail_flush: u64) -> Result<SlowOutput, AllocError> {
    let inner = OneByte::new(MemoryOutput::new(alloc, CAPACITY)?);
    Ok(FaultyOutput::new(inner, fail_write, fail_flush))
}

impl Devices {
    /// With these bytes on the input, and empty outputs.
    pub(crate) fn new(
        alloc: Global,
        input: &'static [u8],
        failing: Call,
    ) -> Result<Devices, AllocError> {
        let inner = OneByte::new(MemoryInput::new(input));
        let out = slow_output(alloc, failing.of(Kind::Write), failing.of(Kind::Flush))?;
        let err = slow_output(
            alloc,
            failing.of(Kind::WriteToStderr),
            failing.of(Kind::FlushOfStderr),
        )?;
        Ok(Devices {
            input: FaultyInput::new(inner, failing.of(Kind::Read)),
            out,
            err,
        })
    }

    /// What was put out.
    pub(crate) fn out(&self) -> &[u8] {
        self.out.inner().inner().bytes()
    }

    /// What was put out, as a text.
    pub(crate) fn text(&self) -> &str {
        str::from_utf8(self.out()).unwrap_or("not UTF-8\n")
    }

    /// What was put out on standard error.
    pub(crate) fn err(&self) -> &[u8] {
        self.err.inner().inner().bytes()
    }

    /// How many calls failed.
    pub(crate) fn failures(&self) -> u64 {
        self.input
            .failures()
            .saturating_add(self.out.failures())
            .saturating_add(self.err.failures())
    }

    /// Runs a script in an interpreter of its own.
    pub(crate) fn run(
        &mut self,
        alloc: Global,
        dialect: Dialect,
        script: &str,
        units: u64,
    ) -> Report {
        let config = Config { dialect };
        run_with(
            alloc,
            config,
            script,
            &[],
            &mut self.input,
            &mut self.out,
            &mut self.err,
            units,
        )
    }

    /// The same with a budget in slices.
    pub(crate) fn run_sliced(
        &mut self,
        alloc: Global,
        script: &str,
        budget: u64,
        slice: u64,
    ) -> Report {
        let config = Config {
            dialect: Dialect::Tcl86,
        };
        run_sliced(
            alloc,
            config,
            script,
            &[],
            &mut self.input,
            &mut self.out,
            &mut self.err,
            budget,
            slice,
        )
    }

    /// Evaluates a script in an interpreter.
    pub(crate) fn eval(
        &mut self,
        alloc: Global,
        interp: &mut Interp,
        script: &str,
        units: u64,
    ) -> Outcome {
        let Devices { input, out, err } = self;
        evaluate(alloc, interp, input, out, err, script, units)
    }

    /// The outcomes of these parts of a run, one after another.
    pub(crate) fn go(
        &mut self,
        alloc: Global,
        run: &mut Run,
        parts: &[u64],
    ) -> Result<Vec<Outcome>, AllocError> {
        let Devices { input, out, err } = self;
        go_on(alloc, run, input, out, err, parts)
    }

    /// The outcome of a run that goes on in these parts, again and again, as long as it pauses.
    pub(crate) fn go_again(
        &mut self,
        alloc: Global,
        run: &mut Run,
        parts: &[u64],
        times: u64,
    ) -> Outcome {
        let Devices { input, out, err } = self;
        go_through(alloc, run, input, out, err, parts, times)
    }
}

fn evaluate<R: Input, W: Output, E: Output>(
    alloc: Global,
    interp: &mut Interp,
    input: &mut R,
    out: &mut W,
    err: &mut E,
    script: &str,
    units: u64,
) -> Outcome {
    let mut world = World::new(alloc, input, out, err);
    interp.eval(&mut world, script, units)
}

fn go_on<R: Input, W: Output, E: Output>(
    alloc: Global,
    run: &mut Run,
    input: &mut R,
    out: &mut W,
    err: &mut E,
    parts: &[u64],
) -> Result<Vec<Outcome>, AllocError> {
    let mut world = World::new(alloc, input, out, err);
    let mut outcomes = Vec::new(alloc);
    for part in parts {
        outcomes.push(run.go(&mut world, *part))?;
    }
    Ok(outcomes)
}

fn go_through<R: Input, W: Output, E: Output>(
    alloc: Global,
    run: &mut Run,
    input: &mut R,
    out: &mut W,
    err: &mut E,
    parts: &[u64],
    times: u64,
) -> Outcome {
    let mut world = World::new(alloc, input, out, err);
    let mut rest = parts;
    for _ in 1..times {
        let [part, others @ ..] = rest else {
            rest = parts;
            continue;
        };
        rest = others;
        match run.go(&mut world, *part) {
            Outcome::Budget => {}
            outcome => return outcome,
        }
    }
    Outcome::Budget
}
