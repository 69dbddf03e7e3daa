//! The devices by themselves.
use crate::answers::is;
use std::alloc::{AllocError, Global};
use std::io::{self, ErrorKind, Read, Write};
use tcl_chan::device::{Broken, Input, Output};
use tcl_chan::faulty::{FaultyInput, FaultyOutput};
use tcl_chan::memory::{MemoryInput, MemoryOutput};
use tcl_chan::pieces::OneByte;
use tcl_chan::standard::{StandardInput, StandardOutput};

/// Adds what a read of up to two bytes gives, with `;` behind it, or `!` where it failed.
fn add_read<R: Input>(shown: &mut String, input: &mut R) -> Result<(), AllocError> {
    let mut buffer = [0; 2];
    match input.read(&mut buffer) {
        Ok(size) => add_bytes(shown, &buffer, size),
        Err(Broken) => shown.push('!'),
    }
}

/// What four reads give, and the failures.
fn reads<R: Input>(alloc: Global, input: &mut R) -> Result<String, AllocError> {
    let mut shown = String::new(alloc);
    for _ in 0..4u8 {
        add_read(&mut shown, input)?;
    }
    write!(shown, "{}", input.failures())?;
    Ok(shown)
}

fn add_bytes(shown: &mut String, buffer: &[u8], size: usize) -> Result<(), AllocError> {
    for byte in buffer.iter().take(size) {
        shown.push(char::from(*byte))?;
    }
    shown.push(';')
}

/// Writes a text, or flushes where there is none.
fn write<W: Output>(output: &mut W, text: Option<&str>) -> Result<usize, Broken> {
    match text {
        Some(text) => output.write(text.as_bytes()),
        None => {
            output.flush()?;
            Ok(0)
        }
    }
}

fn add_size(shown: &mut String, size: Result<usize, Broken>) -> Result<(), AllocError> {
    match size {
        Ok(size) => write!(shown, "{size};"),
        Err(Broken) => shown.push('!'),
    }
}

/// What writes of these texts answer, a flush where there is none: the sizes, `!` where a call failed, and the failures.
fn writes<W: Output>(
    alloc: Global,
    output: &mut W,
    texts: &[Option<&str>],
) -> Result<String, AllocError> {
    let mut shown = String::new(alloc);
    for text in texts {
        add_size(&mut shown, write(output, *text))?;
    }
    write!(shown, "{}", output.failures())?;
    Ok(shown)
}

#[test]
fn inputs_give_their_bytes_in_order(rt: HostRuntime) {
    let alloc = rt.alloc();
    assert!(rt; is(reads(alloc, &mut MemoryInput::new(b"abc")), "ab;c;;;0"));
    assert!(rt;
        is(
            reads(alloc, &mut OneByte::new(MemoryInput::new(b"ab"))),
            "a;b;;;0"
        )
    );
    assert!(rt;
        is(
            reads(alloc, &mut StandardInput::new(b"abc".as_slice())),
            "ab;c;;;0"
        )
    );
}

#[test]
fn inputs_fail_at_the_chosen_call(rt: HostRuntime) {
    let alloc = rt.alloc();
    let mut once = FaultyInput::new(MemoryInput::new(b"abc"), 2);
    assert!(rt; is(reads(alloc, &mut once), "ab;!c;;1"));
    assert!(rt; is(reads(alloc, &mut StandardInput::new(Interrupted)), "!!!!4"));
}

#[test]
fn a_read_of_no_bytes(rt: HostRuntime) {
    assert!(rt; MemoryInput::new(b"abc").read(&mut []) == Ok(0));
    assert!(rt; OneByte::new(MemoryInput::new(b"abc")).read(&mut []) == Ok(0));
    assert!(rt; StandardInput::new(rt.stdin()).read(&mut []) == Ok(0));
}

/// A device over memory that takes a byte a call.
fn one_byte(alloc: Global) -> Result<String, AllocError> {
    let mut output = OneByte::new(MemoryOutput::new(alloc, 2)?);
    let mut shown = writes(
        alloc,
        &mut output,
        &[Some("xyz"), Some(""), Some("y"), Some("z"), None],
    )?;
    add_bytes(&mut shown, output.inner().bytes(), 9)?;
    Ok(shown)
}

/// A device that fails at two chosen calls.
fn faulty(alloc: Global) -> Result<String, AllocError> {
    let mut output = FaultyOutput::new(MemoryOutput::new(alloc, 9)?, 2, 1);
    let mut shown = writes(
        alloc,
        &mut output,
        &[Some("a"), None, Some("b"), None, Some("c")],
    )?;
    add_bytes(&mut shown, output.inner().bytes(), 9)?;
    Ok(shown)
}

/// A device that passes a flush on to one that fails.
fn passing(alloc: Global) -> Result<String, AllocError> {
    let inner = FaultyOutput::new(MemoryOutput::new(alloc, 0)?, 0, 1);
    let mut output = OneByte::new(FaultyOutput::new(inner, 0, 0));
    writes(alloc, &mut output, &[None, None])
}

#[test]
fn outputs_over_memory(rt: HostRuntime) {
    assert!(rt; is(one_byte(rt.alloc()), "1;0;1;!0;1xy;"));
    assert!(rt; is(faulty(rt.alloc()), "1;!!0;1;2ac;"));
    assert!(rt; is(passing(rt.alloc()), "!0;1"));
}

static STANDARD: [Option<&str>; 3] = [Some("ab"), Some(""), None];

#[test]
fn standard_outputs(rt: HostRuntime) {
    let mut output = StandardOutput::stdout(rt.stdout());
    assert!(rt; is(writes(rt.alloc(), &mut output, &STANDARD), "2;0;0;0"));
}

#[test]
fn standard_errors(rt: HostRuntime) {
    let mut errors = StandardOutput::stderr(rt.stderr());
    assert!(rt; is(writes(rt.alloc(), &mut errors, &STANDARD), "2;0;0;0"));
}

/// A stream of which every call is interrupted.
#[derive(Drop)]
struct Interrupted;

impl Read for Interrupted {
    fn read(&mut self, _: &mut [u8]) -> io::Result<usize> {
        Err(io::Error::from(ErrorKind::Interrupted))
    }
}

impl Write for Interrupted {
    fn write(&mut self, _: &[u8]) -> io::Result<usize> {
        Err(io::Error::from(ErrorKind::Interrupted))
    }

    fn flush(&mut self) -> io::Result<()> {
        Err(io::Error::from(ErrorKind::Interrupted))
    }
}

static FAILING: [Option<&str>; 4] = [Some("ab"), Some("b"), Some(""), None];

/// A device over a stream with room for a byte.
fn full(alloc: Global) -> Result<String, AllocError> {
    let mut room = [0; 1];
    let mut output = StandardOutput::over(room.as_mut_slice());
    writes(alloc, &mut output, &FAILING)
}

#[test]
fn outputs_that_fail(rt: HostRuntime) {
    let mut output = StandardOutput::over(Interrupted);
    assert!(rt; is(writes(rt.alloc(), &mut output, &FAILING), "!!!!4"));
    assert!(rt; is(full(rt.alloc()), "1;!0;0;1"));
}
