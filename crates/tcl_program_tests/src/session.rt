//! Sessions by a call of their own, over devices in memory: how they end, and what they write.
use std::alloc::{AllocError, Global};
use std::process::Abort;
use tcl_chan::faulty::{FaultyInput, FaultyOutput};
use tcl_chan::memory::{MemoryInput, MemoryOutput};
use tcl_shell::{SessionEnd, session};

/// More units than the tables below spend.
const AMPLE: u64 = 1000;

/// The call of each device that fails, counted from 1; 0 means none.
#[derive(Clone, Copy)]
struct Failing {
    read: u64,
    write: u64,
    flush: u64,
}

const NONE: Failing = Failing {
    read: 0,
    write: 0,
    flush: 0,
};

/// Fails a test unless this was found to hold, and tells of which input.
fn expect(rt: &impl Abort, found: Result<bool, AllocError>, input: &str) {
    assert!(rt; found == Ok(true), "{input}");
}

/// Does an output hold this?
fn holds(output: &MemoryOutput, want: &str) -> bool {
    output.bytes() == want.as_bytes()
}

/// Does a session end so, and write this to both outputs?
fn ends(
    alloc: Global,
    input: &str,
    budget: u64,
    failing: Failing,
    end: SessionEnd,
    want: (&str, &str),
) -> Result<bool, AllocError> {
    let mut reader = FaultyInput::new(MemoryInput::new(input.as_bytes()), failing.read);
    let inner = MemoryOutput::new(alloc, 64)?;
    let mut out = FaultyOutput::new(inner, failing.write, failing.flush);
    let mut err = MemoryOutput::new(alloc, 64)?;
    let ended = session(alloc, &mut reader, &mut out, &mut err, budget);
    Ok(ended == end && holds(out.inner(), want.0) && holds(&err, want.1))
}

/// An input, and what the session writes to both outputs.
type Texts = (&'static str, &'static str, &'static str);

static TEXTS: [Texts; 9] = [
    ("", "% ", ""),
    ("\n", "% % ", ""),
    (
        "set x {a\nb}\nputs hi\nfoo\n",
        "% a\nb\n% hi\n% % ",
        "invalid command name \"foo\"\n",
    ),
    ("gets stdin l\ndata\nputs $l\n", "% 4\n% data\n% ", ""),
    ("gets stdin l", "% -1\n% ", ""),
    ("puts [", "% % ", "missing close-bracket\n"),
    ("puts {a\r\nb}\r\n", "% a\nb\n% ", ""),
    ("puts $argv0,$argv,$argc\n", "% tclint,,0\n% ", ""),
    (
        "return -code 7 -level 0 r\n",
        "% % ",
        "command returned bad code: 7\n",
    ),
];

fn evaluates(alloc: Global, row: &Texts) -> Result<bool, AllocError> {
    let (input, out, err) = *row;
    ends(alloc, input, AMPLE, NONE, SessionEnd::Ended, (out, err))
}

#[test]
fn texts_are_evaluated_one_after_another(rt: HostRuntime) {
    for row in &TEXTS {
        expect(&rt, evaluates(rt.alloc(), row), row.0);
    }
}

/// An input, the units that it has, how the session ends, and what it writes.
type Spent = (&'static str, u64, SessionEnd, &'static str);

static SPENT: [Spent; 7] = [
    ("set x 1\nset y 2\n", 2, SessionEnd::Ended, "% 1\n% 2\n% "),
    ("set x 1\nset y 2\n", 1, SessionEnd::Budget, "% 1\n% "),
    ("set x 1\nset y 2\n", 0, SessionEnd::Budget, "% "),
    ("# nothing\n", 0, SessionEnd::Ended, "% % "),
    ("while 1 {}\nputs no\n", 9, SessionEnd::Budget, "% "),
    ("exit 4\nputs no\n", 9, SessionEnd::Exit(4), "% "),
    ("catch exit; puts no\n", 9, SessionEnd::Exit(0), "% "),
];

fn spends(alloc: Global, row: &Spent) -> Result<bool, AllocError> {
    let (input, budget, end, out) = *row;
    ends(alloc, input, budget, NONE, end, (out, ""))
}

#[test]
fn all_texts_share_one_budget(rt: HostRuntime) {
    for row in &SPENT {
        expect(&rt, spends(rt.alloc(), row), row.0);
    }
}

/// An input, the calls that fail, and what the session writes until then.
type Broken = (&'static str, u64, u64, u64, &'static str);

static BROKEN: [Broken; 8] = [
    ("puts a\n", 1, 0, 0, "% "),
    ("puts a", 2, 0, 0, "% "),
    ("puts a\n", 2, 0, 0, "% a\n% "),
    ("catch {gets stdin}\n", 2, 0, 0, "% "),
    ("set x a\n", 0, 1, 0, ""),
    ("set x a\n", 0, 0, 1, "% "),
    ("set x a\n", 0, 2, 0, "% "),
    ("set x a\n", 0, 0, 3, "% a\n% "),
];

fn breaks(alloc: Global, row: &Broken) -> Result<bool, AllocError> {
    let (input, read, write, flush, out) = *row;
    let failing = Failing { read, write, flush };
    ends(alloc, input, AMPLE, failing, SessionEnd::Io, (out, ""))
}

#[test]
fn a_call_that_fails_ends_a_session(rt: HostRuntime) {
    for row in &BROKEN {
        expect(&rt, breaks(rt.alloc(), row), row.0);
    }
}
