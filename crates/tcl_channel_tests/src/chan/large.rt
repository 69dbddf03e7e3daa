//! Many calls, and long texts.
use super::input::{Ask, answer};
use crate::answers::holds;
use std::alloc::{AllocError, Global};
use tcl_chan::device::{Input, Output};
use tcl_chan::fault::{ChanFault, Out};
use tcl_chan::memory::{MemoryInput, MemoryOutput};
use tcl_chan::pieces::OneByte;
use tcl_chan::world::World;

/// A part, repeated `times` times.
fn repeated(alloc: Global, part: &str, times: u32) -> Result<String, AllocError> {
    let mut text = String::new(alloc);
    for _ in 0..times {
        text.push_str(part)?;
    }
    Ok(text)
}

fn put_often<R: Input, W: Output, E: Output>(
    world: &mut World<'_, '_, '_, R, W, E>,
    text: &str,
    times: u32,
) -> Result<(), ChanFault> {
    for _ in 0..times {
        world.puts(Out::Stdout, text)?;
    }
    Ok(())
}

/// Does an output take the text so often?
fn takes<R: Input, W: Output, E: Output>(
    alloc: Global,
    input: &mut R,
    out: &mut W,
    err: &mut E,
    text: &str,
    times: u32,
) -> bool {
    let mut world = World::new(alloc, input, out, err);
    put_often(&mut world, text, times).is_ok()
}

/// Does an output take the text so often, while there is no room for errors?
fn takes_alone<W: Output>(
    alloc: Global,
    out: &mut W,
    text: &str,
    times: u32,
) -> Result<bool, AllocError> {
    let mut err = MemoryOutput::new(alloc, 0)?;
    Ok(takes(
        alloc,
        &mut MemoryInput::new(b""),
        out,
        &mut err,
        text,
        times,
    ))
}

/// Are there so many bytes, with this end?
fn end_so(bytes: &[u8], length: usize, end: &str) -> bool {
    bytes.len() == length && bytes.ends_with(end.as_bytes())
}

fn thousand_taken(alloc: Global) -> Result<bool, AllocError> {
    let mut out = MemoryOutput::new(alloc, 5000)?;
    let taken = takes_alone(alloc, &mut out, "four\n", 1000)?;
    Ok(taken && end_so(out.bytes(), 5000, "four\nfour\n"))
}

#[test]
fn a_thousand_texts(rt: HostRuntime) {
    assert!(rt; holds(thousand_taken(rt.alloc())));
}

/// Does a device that takes a byte a call take the text twice?
fn taken_twice(alloc: Global, text: &str) -> Result<bool, AllocError> {
    let mut out = OneByte::new(MemoryOutput::new(alloc, 200_000)?);
    let taken = takes_alone(alloc, &mut out, text, 2)?;
    Ok(taken && end_so(out.inner().bytes(), 200_000, text))
}

fn long_taken(alloc: Global) -> Result<bool, AllocError> {
    let text = repeated(alloc, "é", 50_000)?;
    taken_twice(alloc, &text)
}

#[test]
fn a_long_text(rt: HostRuntime) {
    assert!(rt; holds(long_taken(rt.alloc())));
}

/// How many bytes `calls` calls answer.
fn size<R: Input, W: Output, E: Output>(
    world: &mut World<'_, '_, '_, R, W, E>,
    ask: Ask,
    calls: u32,
) -> Result<usize, ChanFault> {
    let mut size = 0usize;
    for _ in 0..calls {
        if let Some(text) = answer(world, ask)? {
            size = size.saturating_add(text.len());
        }
    }
    Ok(size)
}

/// How many bytes `calls` calls answer, and how many all the rest has.
fn both_sizes<R: Input, W: Output, E: Output>(
    world: &mut World<'_, '_, '_, R, W, E>,
    ask: Ask,
    calls: u32,
) -> Result<(usize, usize), ChanFault> {
    let size = size(world, ask, calls)?;
    Ok((size, world.read(None)?.len()))
}

/// The same, of an input beside these outputs.
fn sizes_beside<R: Input, W: Output, E: Output>(
    alloc: Global,
    input: &mut R,
    out: &mut W,
    err: &mut E,
    ask: Ask,
    calls: u32,
) -> Result<(usize, usize), ChanFault> {
    let mut world = World::new(alloc, input, out, err);
    both_sizes(&mut world, ask, calls)
}

/// The same, of an input beside outputs that have no room.
fn sizes<R: Input>(
    alloc: Global,
    input: &mut R,
    ask: Ask,
    calls: u32,
) -> Result<(usize, usize), ChanFault> {
    let mut out = MemoryOutput::new(alloc, 0)?;
    let mut err = MemoryOutput::new(alloc, 0)?;
    sizes_beside(alloc, input, &mut out, &mut err, ask, calls)
}

/// Are these the sizes, whether the bytes come together or one by one?
fn sizes_are(alloc: Global, bytes: &[u8], ask: Ask, calls: u32, want: (usize, usize)) -> bool {
    sizes(alloc, &mut MemoryInput::new(bytes), ask, calls) == Ok(want)
        && sizes(
            alloc,
            &mut OneByte::new(MemoryInput::new(bytes)),
            ask,
            calls,
        ) == Ok(want)
}

/// A kind of call, how many calls, and the sizes.
type Sized = (Ask, u32, (usize, usize));

/// How many calls answer other sizes, by the first row of which they do.
fn wrongly_sized(alloc: Global, bytes: &[u8], rows: &[Sized]) -> Option<u32> {
    for row in rows {
        let (ask, calls, want) = *row;
        if !sizes_are(alloc, bytes, ask, calls, want) {
            return Some(calls);
        }
    }
    None
}

/// Are all sizes right of a part that is repeated?
fn sized(alloc: Global, part: &str, times: u32, rows: &[Sized]) -> Result<bool, AllocError> {
    let text = repeated(alloc, part, times)?;
    Ok(wrongly_sized(alloc, text.as_bytes(), rows).is_none())
}

static THOUSANDS: [Sized; 3] = [
    (Ask::Line, 5000, (20_000, 0)),
    (Ask::Line, 4000, (16_000, 5000)),
    (Ask::Chars(1), 1000, (1250, 23_750)),
];

#[test]
fn thousands_are_read(rt: HostRuntime) {
    assert!(rt; holds(sized(rt.alloc(), "\u{E9}ab\r\n", 5000, &THOUSANDS)));
}

static LONG: [Sized; 1] = [(Ask::Line, 1, (200_000, 0))];

#[test]
fn long_lines(rt: HostRuntime) {
    assert!(rt; holds(sized(rt.alloc(), "\u{E9}ab", 50_000, &LONG)));
}
