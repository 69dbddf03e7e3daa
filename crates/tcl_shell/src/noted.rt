//! A run of a file, with the places where an error has left codes.
ghost use Rattle.std.specs.Prelude.{◌≡◌, ◌<◌, length, map, option_map};
ghost use Rattle.tcl_shell.specs.Lines.{Said, message_line, told};
ghost use Rattle.tcl_shell.specs.Program.{RunsFile, devices};

use crate::lines::{Line, say};
use crate::newlines::script_of;
use crate::program::tell;
use std::alloc::Global;
use tcl_chan::device::{Input, Output};
use tcl_interp::{Config, Interp, Outcome, Place, Report, run_noted};

/// Runs the file that the first of the words names, if it could be read, with these words and a budget, as `tool` does. Where an error
/// ended it, `places` are those where it has left codes, from the inside out; `left` is the interpreter that the run leaves, if there is
/// one.
pub fn run_file_noted<R: Input, W: Output, E: Output>(
    alloc: Global,
    config: Config,
    words: &[&str],
    file: Option<&[u8]>,
    reader: &mut R,
    out: &mut W,
    err: &mut E,
    budget: u64,
    places: &mut Vec<Place>,
    left: &mut Option<Interp>,
) -> u8
    requires { 0 < length words.now }
    ensures { RunsFile config.dialect budget (map (λ word. word.now) words.now) (option_map (λ bytes. bytes.now) file.entry) result
        (devices R.to_come R.failed_calls W.written W.failed_calls E.written E.failed_calls reader.old out.old err.old)
        (devices R.to_come R.failed_calls W.written W.failed_calls E.written E.failed_calls reader.new out.new err.new) }
{
    let name = words[0];
    let Some(bytes) = file else {
        say(alloc, reader, out, err, Line::Unread(name));
        return 5;
    };
    let Ok(text) = str::from_utf8(bytes) else {
        say(alloc, reader, out, err, Line::NotUtf8(name));
        return 5;
    };
    let Ok(script) = script_of(alloc, text) else {
        return tell(alloc, reader, out, err, Outcome::Memory);
    };
    let Report { outcome, interp } = run_noted(
        alloc,
        config,
        script.as_str(),
        words,
        reader,
        out,
        err,
        budget,
        places,
    );
    *left = interp;
    tell(alloc, reader, out, err, outcome)
}

/// Writes a text and a newline to standard error. Where a write fails, the rest is not written.
pub fn say_line<R: Input, W: Output, E: Output>(
    alloc: Global,
    reader: &mut R,
    out: &mut W,
    err: &mut E,
    text: &str,
)
    ensures said { Said (message_line text.now) (told E.written E.failed_calls err.old) (told E.written E.failed_calls err.new) }
    ensures input { reader.new ≡ reader.old }
    ensures out { out.new ≡ out.old }
{
    say(alloc, reader, out, err, Line::Message(text));
}
