//! The program over devices.
ghost use Rattle.std.specs.Prelude.{◌≡◌, ◌<◌, true, length, map, option_map};
ghost use Rattle.std.specs.Str.{chars};
ghost use Rattle.std.specs.String.{string_bytes};
ghost use Rattle.tcl_shell.specs.Lines.{SaidIf, message_line, told};
ghost use Rattle.tcl_shell.specs.Program.{Refused, devices};
ghost use Rattle.tcl_where.specs.Where.{RunsWords, is_file, usage_line};

use crate::lines::lines_of;
use std::alloc::{AllocError, Global};
use tcl_chan::device::{Input, Output};
use tcl_chars::{Dialect, begins};
use tcl_interp::{Config, Interp, Place};
use tcl_places::line_of;
use tcl_shell::{run_file_noted, say_line};

const MOST_BUDGET: u64 = 0x7fff_ffff_ffff_ffff;

/// Refuses the program's words: its usage goes to standard error, and the answer is the status 5.
pub fn refuse_words<R: Input, W: Output, E: Output>(
    alloc: Global,
    reader: &mut R,
    out: &mut W,
    err: &mut E,
) -> u8
    ensures { Refused usage_line result
        (devices R.to_come R.failed_calls W.written W.failed_calls E.written E.failed_calls reader.old out.old err.old)
        (devices R.to_come R.failed_calls W.written W.failed_calls E.written E.failed_calls reader.new out.new err.new) }
{
    say_line(alloc, reader, out, err, "usage: tclwhere FILE ?arg ...?");
    5
}

/// Do the program's words begin with the name of a file, which has no `-` in front?
pub fn is_file(words: &[&str]) -> bool
    ensures answers { result ≡ is_file (map (λ word. chars word.now) words.now) }
    ensures some { result ≡ true → 0 < length words.now }
{
    match words {
        [first, ..] => !begins('-', *first),
        [] => false,
    }
}

// The line in which the first byte stands that isn't UTF-8.
fn broken_line(
    alloc: Global,
    name: &str,
    file: Option<&[u8]>,
) -> Result<Option<String>, AllocError> {
    let Some(bytes) = file else {
        return Ok(None);
    };
    let Err(fault) = str::from_utf8(bytes) else {
        return Ok(None);
    };
    let line = line_of(bytes, fault.valid_up_to());
    Ok(Some(format!(in alloc; "{name}:{line}: a byte that is not UTF-8")?))
}

// Where an error has come from.
fn lines_about(
    alloc: Global,
    name: &str,
    file: Option<&[u8]>,
    left: &Option<Interp>,
    places: Vec<Place>,
) -> Result<Option<String>, AllocError> {
    match left {
        Some(interp) => lines_of(alloc, name, interp, places),
        None => broken_line(alloc, name, file),
    }
}

// Writes lines to standard error, if there are some.
fn say_lines<R: Input, W: Output, E: Output>(
    alloc: Global,
    reader: &mut R,
    out: &mut W,
    err: &mut E,
    lines: &Option<String>,
)
    ensures said { SaidIf (option_map (λ text. message_line (string_bytes text)) lines.now) (told E.written E.failed_calls err.old) (told E.written E.failed_calls err.new) }
    ensures input { reader.new ≡ reader.old }
    ensures out { out.new ≡ out.old }
{
    if let Some(text) = lines {
        say_line(alloc, reader, out, err, text.as_str());
    }
}

/// Runs the file that the first of the program's words names, its own name not among them, as `tool` of `tcl_shell` does: the same is
/// read and put out, and the status is the same. Behind the message of an error that ended it, standard error gets the places from the
/// inside out; behind that of a file that isn't UTF-8, the line. Where memory is wanting for that, it isn't told.
pub fn tool<R: Input, W: Output, E: Output>(
    alloc: Global,
    words: &[&str],
    file: Option<&[u8]>,
    reader: &mut R,
    out: &mut W,
    err: &mut E,
) -> u8
    ensures { RunsWords (is_file (map (λ word. chars word.now) words.now)) (map (λ word. word.now) words.now) (option_map (λ bytes. bytes.now) file.entry) result
        (devices R.to_come R.failed_calls W.written W.failed_calls E.written E.failed_calls reader.old out.old err.old)
        (devices R.to_come R.failed_calls W.written W.failed_calls E.written E.failed_calls reader.new out.new err.new) }
{
    if !is_file(words) {
        return refuse_words(alloc, reader, out, err);
    }
    let config = Config {
        dialect: Dialect::Tcl86,
    };
    let mut places = Vec::new(alloc);
    let mut left = None;
    let status = run_file_noted(
        alloc,
        config,
        words,
        file,
        reader,
        out,
        err,
        MOST_BUDGET,
        &mut places,
        &mut left,
    );
    let lines = lines_about(alloc, words[0], file, &left, places).unwrap_or(None);
    say_lines(alloc, reader, out, err, &lines);
    status
}
