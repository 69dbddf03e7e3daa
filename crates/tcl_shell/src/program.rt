//! The program over devices.
ghost use Rattle.std.specs.Prelude.{◌≡◌, ◌<◌, length, map, option_map};
ghost use Rattle.std.specs.Str.{chars};
ghost use Rattle.tcl_shell.specs.Lines.{told, SaidIf, usage_line};
ghost use Rattle.tcl_shell.specs.Program.{RanSession, Refused, RunsWords, RunsFile, devices, outcome_by, outcome_line, status_of};
ghost use Rattle.tcl_shell.specs.Words.{request_of};

use crate::end::SessionEnd;
use crate::lines::{Line, say};
use crate::newlines::script_of;
use crate::run::session_with;
use crate::words::read_request;
use std::alloc::Global;
use tcl_chan::device::{Input, Output};
use tcl_interp::{Config, Outcome, Report, run_sliced};

/// The status of a run, and its line where it is neither 0 nor the script's own.
pub(crate) fn tell<R: Input, W: Output, E: Output>(
    alloc: Global,
    reader: &mut R,
    out: &mut W,
    err: &mut E,
    outcome: Outcome,
) -> u8
    ensures status { result ≡ status_of outcome }
    ensures says { SaidIf (outcome_line outcome) (told E.written E.failed_calls err.old) (told E.written E.failed_calls err.new) }
    ensures input { reader.new ≡ reader.old }
    ensures out { out.new ≡ out.old }
{
    match outcome {
        Outcome::Done { code: 0, .. } => 0,
        Outcome::Done { result, .. } => {
            say(alloc, reader, out, err, Line::Message(result.as_str()));
            1
        }
        Outcome::Budget => {
            say(alloc, reader, out, err, Line::Budget);
            2
        }
        Outcome::Exit(status) => status,
        Outcome::Memory => {
            say(alloc, reader, out, err, Line::Memory);
            3
        }
        Outcome::Io | Outcome::Failed | Outcome::Over => {
            say(alloc, reader, out, err, Line::Broken);
            4
        }
    }
}

// Runs the file that the first of the words names, if it could be read, with these words and a budget that is handed out in slices.
fn run_file<R: Input, W: Output, E: Output>(
    alloc: Global,
    config: Config,
    words: &[&str],
    file: Option<&[u8]>,
    reader: &mut R,
    out: &mut W,
    err: &mut E,
    budget: u64,
    slice: u64,
) -> u8
    requires { 0 < length words.now }
    ensures { RunsFile config.dialect budget (map (λ word. word.now) words.now) (option_map (λ bytes. bytes.now) file.entry) result
        (devices R.to_come R.failed_calls W.written W.failed_calls E.written E.failed_calls reader.old out.old err.old)
        (devices R.to_come R.failed_calls W.written W.failed_calls E.written E.failed_calls reader.new out.new err.new) }
{
    let name = words[0];
    let Some(bytes) = file else {
        say(alloc, reader, out, err, Line::Unread(name));
        return 5;
    };
    let Ok(text) = str::from_utf8(bytes) else {
        say(alloc, reader, out, err, Line::NotUtf8(name));
        return 5;
    };
    let Ok(script) = script_of(alloc, text) else {
        return tell(alloc, reader, out, err, Outcome::Memory);
    };
    let Report { outcome, interp: _ } = run_sliced(
        alloc,
        config,
        script.as_str(),
        words,
        reader,
        out,
        err,
        budget,
        slice,
    );
    tell(alloc, reader, out, err, outcome)
}

// The outcome of a run that ends as a session does.
fn outcome_by(end: SessionEnd) -> Outcome
    ensures { result ≡ outcome_by end }
{
    match end {
        SessionEnd::Ended => Outcome::Exit(0),
        SessionEnd::Budget => Outcome::Budget,
        SessionEnd::Exit(status) => Outcome::Exit(status),
        SessionEnd::Memory => Outcome::Memory,
        SessionEnd::Io => Outcome::Io,
    }
}

// Runs a session, with a budget.
fn run_session<R: Input, W: Output, E: Output>(
    alloc: Global,
    config: Config,
    reader: &mut R,
    out: &mut W,
    err: &mut E,
    budget: u64,
) -> u8
    ensures { RanSession config.dialect budget result
        (devices R.to_come R.failed_calls W.written W.failed_calls E.written E.failed_calls reader.old out.old err.old)
        (devices R.to_come R.failed_calls W.written W.failed_calls E.written E.failed_calls reader.new out.new err.new) }
{
    let end = session_with(alloc, config, reader, out, err, budget);
    tell(alloc, reader, out, err, outcome_by(end))
}

/// Refuses the program's words: its usage goes to standard error, and the answer is the status 5.
pub fn refuse_words<R: Input, W: Output, E: Output>(
    alloc: Global,
    reader: &mut R,
    out: &mut W,
    err: &mut E,
) -> u8
    ensures { Refused usage_line result
        (devices R.to_come R.failed_calls W.written W.failed_calls E.written E.failed_calls reader.old out.old err.old)
        (devices R.to_come R.failed_calls W.written W.failed_calls E.written E.failed_calls reader.new out.new err.new) }
{
    say(alloc, reader, out, err, Line::Usage);
    5
}

/// Runs the program for its words, its own name not among them, over the bytes of its file, or `None` where the file
/// couldn't be read; without a file among the words it runs a session over the input. The answer is the status: 0 done, or
/// the session ended, 1 the script's error, 2 the budget is spent, 3 out of memory, 4 a read or a write failed, 5 the usage or
/// the file is wrong, or what `exit` was given. But for 0 and `exit`, a line on standard error says so. Scripts read the
/// input; how far it was read ahead isn't promised.
pub fn tool<R: Input, W: Output, E: Output>(
    alloc: Global,
    words: &[&str],
    file: Option<&[u8]>,
    reader: &mut R,
    out: &mut W,
    err: &mut E,
) -> u8
    ensures { RunsWords (request_of (map (λ word. chars word.now) words.now)) (map (λ word. word.now) words.now) (option_map (λ bytes. bytes.now) file.entry) result
        (devices R.to_come R.failed_calls W.written W.failed_calls E.written E.failed_calls reader.old out.old err.old)
        (devices R.to_come R.failed_calls W.written W.failed_calls E.written E.failed_calls reader.new out.new err.new) }
{
    let Some(request) = read_request(words) else {
        return refuse_words(alloc, reader, out, err);
    };
    let config = Config {
        dialect: request.dialect,
    };
    let Some(place) = request.file else {
        return run_session(alloc, config, reader, out, err, request.budget);
    };
    run_file(
        alloc,
        config,
        &words[place..],
        file,
        reader,
        out,
        err,
        request.budget,
        request.slice,
    )
}
