//! The program over devices that take a byte a call, where each call in turn fails.
use std::alloc::{AllocError, Global};
use tcl_chan::device::{Input, Output};
use tcl_chan::faulty::{FaultyInput, FaultyOutput};
use tcl_chan::memory::{MemoryInput, MemoryOutput};
use tcl_chan::pieces::OneByte;
use tcl_shell::tool;

type SlowOutput = FaultyOutput<OneByte<MemoryOutput>>;

/// What the program is given, and how many calls of its devices there are.
struct Asked {
    words: &'static [&'static str],
    file: Option<&'static [u8]>,
    input: &'static [u8],
    calls: u64,
}

/// The calls of which one fails.
#[derive(Clone, Copy, Debug, PartialEq, Eq)]
enum Kind {
    Read,
    Write,
    Flush,
    WriteToStderr,
    FlushOfStderr,
}

/// The call that fails: of a kind, the one of this number, counted from 1; 0 means none.
#[derive(Clone, Copy, Debug)]
struct Call {
    kind: Kind,
    number: u64,
}

impl Call {
    fn of(self, kind: Kind) -> u64 {
        if self.kind == kind { self.number } else { 0 }
    }
}

static KINDS: [Kind; 5] = [
    Kind::Read,
    Kind::Write,
    Kind::Flush,
    Kind::WriteToStderr,
    Kind::FlushOfStderr,
];

/// What the program left.
struct Left {
    status: u8,
    out: SlowOutput,
    err: SlowOutput,
    failures: u64,
}

impl Drop for Left {
    fn drop(self) {
        let Left {
            status: _,
            out,
            err,
            failures: _,
        } = self;
        drop(out);
        drop(err);
    }
}

impl Left {
    fn out(&self) -> &[u8] {
        self.out.inner().inner().bytes()
    }

    fn err(&self) -> &[u8] {
        self.err.inner().inner().bytes()
    }
}

fn output(alloc: Global, fail_write: u64, fail_flush: u64) -> Result<SlowOutput, AllocError> {
    let inner = OneByte::new(MemoryOutput::new(alloc, 200)?);
    Ok(FaultyOutput::new(inner, fail_write, fail_flush))
}

/// The program where this call fails.
fn broken(alloc: Global, asked: &Asked, call: Call) -> Result<Left, AllocError> {
    let inner = OneByte::new(MemoryInput::new(asked.input));
    let mut input = FaultyInput::new(inner, call.of(Kind::Read));
    let mut out = output(alloc, call.of(Kind::Write), call.of(Kind::Flush))?;
    let mut err = output(
        alloc,
        call.of(Kind::WriteToStderr),
        call.of(Kind::FlushOfStderr),
    )?;
    let status = tool(
        alloc,
        asked.words,
        asked.file,
        &mut input,
        &mut out,
        &mut err,
    );
    let failures = input
        .failures()
        .saturating_add(out.failures())
        .saturating_add(err.failures());
    Ok(Left {
        status,
        out,
        err,
        failures,
    })
}

/// Did it end with status 4 and its line, behind beginnings of both outputs? Or was the line of another status not written whole?
fn breaks_off(left: &Left, whole: &Left, kind: Kind) -> bool {
    let line = b"read or write failed\n".as_slice();
    let begins = whole.out().starts_with(left.out());
    match left.err().strip_suffix(line) {
        Some(front) => left.status == 4 && begins && whole.err().starts_with(front),
        None => {
            kind == Kind::WriteToStderr
                && left.status == whole.status
                && left.out() == whole.out()
                && whole.err().starts_with(left.err())
        }
    }
}

/// How many calls of a kind there are, each of which breaks the program off where it fails; `None` where one doesn't.
fn calls_of(
    alloc: Global,
    asked: &Asked,
    kind: Kind,
    whole: &Left,
) -> Result<Option<u64>, AllocError> {
    for number in 1..200u64 {
        let left = broken(alloc, asked, Call { kind, number })?;
        if left.failures == 0 {
            return Ok(Some(number.saturating_sub(1)));
        }
        if !breaks_off(&left, whole, kind) {
            return Ok(None);
        }
    }
    Ok(None)
}

/// The same of all kinds together.
fn calls(alloc: Global, asked: &Asked) -> Result<Option<u64>, AllocError> {
    let none = Call {
        kind: Kind::Read,
        number: 0,
    };
    let whole = broken(alloc, asked, none)?;
    let mut sum = 0u64;
    for kind in &KINDS {
        match calls_of(alloc, asked, *kind, &whole)? {
            Some(count) => sum = sum.saturating_add(count),
            None => return Ok(None),
        }
    }
    Ok(Some(sum))
}

/// Each byte that is put out is a write, and so is each of a line on standard error. A session flushes behind each prompt, and both
/// outputs at its end; a run of a file flushes both. A byte of input is a read, and so is its end where it is met.
static ASKED: [Asked; 7] = [
    Asked {
        words: &["a.tcl"],
        file: Some(b"puts a; puts stderr b"),
        input: b"",
        calls: 6,
    },
    Asked {
        words: &["a.tcl"],
        file: Some(b"puts [gets stdin]; flush stdout; nosuch"),
        input: b"a\n",
        calls: 37,
    },
    Asked {
        words: &["-budget", "1", "-slice", "1", "a.tcl"],
        file: Some(b"puts a; puts b"),
        input: b"",
        calls: 17,
    },
    Asked {
        words: &[],
        file: None,
        input: b"set x {a\nb}\nputs hi\nfoo\n",
        calls: 73,
    },
    Asked {
        words: &[],
        file: None,
        input: b"gets stdin l\ndata\nputs $l\n",
        calls: 45,
    },
    Asked {
        words: &[],
        file: None,
        input: b"puts [",
        calls: 37,
    },
    Asked {
        words: &["-budget", "1"],
        file: None,
        input: b"set x 1\nset y 2\n",
        calls: 39,
    },
];

/// Are there so many calls, each of which breaks the program off where it fails?
fn breaks(alloc: Global, asked: &Asked) -> Result<bool, AllocError> {
    Ok(calls(alloc, asked)? == Some(asked.calls))
}

#[test]
fn each_call_that_fails_ends_the_program(rt: HostRuntime) {
    for asked in &ASKED {
        let broken = breaks(rt.alloc(), asked);
        assert!(rt; broken == Ok(true), "{} calls", asked.calls);
    }
}
