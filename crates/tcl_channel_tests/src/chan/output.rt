//! Rows of output: what is written, over devices that take all, a byte a call, or fail.
use crate::answers::holds;
use std::alloc::{AllocError, Global};
use tcl_chan::device::{Input, Output};
use tcl_chan::fault::Out;
use tcl_chan::faulty::FaultyOutput;
use tcl_chan::memory::{MemoryInput, MemoryOutput};
use tcl_chan::pieces::OneByte;
use tcl_chan::world::World;

/// Puts the texts, where there is none flushes, and counts in decimals which calls failed, the first one in front.
fn failed_calls<R: Input, W: Output, E: Output>(
    world: &mut World<'_, '_, '_, R, W, E>,
    calls: &[(Out, Option<&str>)],
) -> u32 {
    let mut failed = 0u32;
    for (to, text) in calls {
        let answer = match text {
            Some(text) => world.puts(*to, text),
            None => world.flush(*to),
        };
        failed = failed
            .wrapping_mul(10)
            .wrapping_add(u32::from(answer.is_err()));
    }
    failed
}

fn failed<R: Input, W: Output, E: Output>(
    alloc: Global,
    input: &mut R,
    out: &mut W,
    err: &mut E,
    calls: &[(Out, Option<&str>)],
) -> u32 {
    let mut world = World::new(alloc, input, out, err);
    failed_calls(&mut world, calls)
}

type Device = FaultyOutput<OneByte<MemoryOutput>>;

/// A device over memory that takes a byte a call, and fails at these calls.
fn device(alloc: Global, fail_write: u64, fail_flush: u64) -> Result<Device, AllocError> {
    let inner = OneByte::new(MemoryOutput::new(alloc, 20)?);
    Ok(FaultyOutput::new(inner, fail_write, fail_flush))
}

/// Did the device fail so often, and does it hold these bytes?
fn ended(device: &Device, failures: u64, bytes: &str) -> bool {
    device.failures() == failures && device.inner().inner().bytes() == bytes.as_bytes()
}

static PUT: [(Out, Option<&str>); 4] = [
    (Out::Stdout, Some("a\n")),
    (Out::Stdout, Some("b\n")),
    (Out::Stderr, Some("\u{E9}")),
    (Out::Stdout, Some("")),
];

/// Does the write that fails leave a beginning, and is all else written?
fn leave_beginnings(alloc: Global, out: &mut Device, err: &mut Device) -> bool {
    failed(alloc, &mut MemoryInput::new(b""), out, err, &PUT) == 100
        && ended(out, 1, "a\nb")
        && ended(err, 0, "\u{E9}")
}

fn beginning_left(alloc: Global) -> Result<bool, AllocError> {
    let mut out = device(alloc, 4, 0)?;
    let mut err = device(alloc, 0, 0)?;
    Ok(leave_beginnings(alloc, &mut out, &mut err))
}

#[test]
fn a_failing_write_leaves_a_beginning(rt: HostRuntime) {
    assert!(rt; holds(beginning_left(rt.alloc())));
}

static PAST_THE_CAPACITY: [(Out, Option<&str>); 4] = [
    (Out::Stdout, Some("ab")),
    (Out::Stdout, Some("cd")),
    (Out::Stdout, Some("c")),
    (Out::Stderr, Some("x")),
];

/// Are the texts refused that there is no room for?
fn refuse(alloc: Global, out: &mut MemoryOutput, err: &mut MemoryOutput) -> bool {
    let calls = failed(
        alloc,
        &mut MemoryInput::new(b""),
        out,
        err,
        &PAST_THE_CAPACITY,
    );
    calls == 101 && out.bytes() == b"abc".as_slice() && out.failures() == 1 && err.failures() == 1
}

fn refused(alloc: Global) -> Result<bool, AllocError> {
    let mut out = MemoryOutput::new(alloc, 3)?;
    let mut err = MemoryOutput::new(alloc, 0)?;
    Ok(refuse(alloc, &mut out, &mut err))
}

#[test]
fn texts_past_the_capacity_are_refused_whole(rt: HostRuntime) {
    assert!(rt; holds(refused(rt.alloc())));
}

/// Does the first of these calls alone fail, and do the outputs end with so many failures?
fn flush(
    alloc: Global,
    out: &mut Device,
    err: &mut Device,
    calls: &[(Out, Option<&str>)],
    faults: (u64, u64),
) -> bool {
    failed(alloc, &mut MemoryInput::new(b""), out, err, calls) == 100
        && ended(out, faults.0, "")
        && ended(err, faults.1, "")
}

/// Flushes an output, the other one, and the first one again, where the first flush of each of some outputs fails.
fn flushed(alloc: Global, to: Out, other: Out, faults: (u64, u64)) -> Result<bool, AllocError> {
    let mut out = device(alloc, 0, faults.0)?;
    let mut err = device(alloc, 0, faults.1)?;
    let calls = [(to, None), (other, None), (to, None)];
    Ok(flush(alloc, &mut out, &mut err, &calls, faults))
}

#[test]
fn a_flush_reaches_its_device(rt: HostRuntime) {
    let alloc = rt.alloc();
    assert!(rt; holds(flushed(alloc, Out::Stdout, Out::Stderr, (1, 0))));
    assert!(rt; holds(flushed(alloc, Out::Stderr, Out::Stdout, (0, 1))));
}
