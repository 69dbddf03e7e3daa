//! Whether a text is complete that grows by lines: its reading goes on where it stood.

ghost use Rattle.std.specs.Prelude.{◌≡◌, ℕ, [], ◌++◌, IfOk};
ghost use Rattle.std.specs.Str.{chars};
ghost use Rattle.std.specs.String.{string_bytes};
ghost use Rattle.tcl_words.specs.Complete as complete;
ghost use Rattle.tcl_words.specs.Waiting as spec;
ghost use Rattle.tcl_words.specs.Waiting.{Alike, Awaits, IsBehind, Judges, Turned};

use crate::complete::is_complete;
use crate::moves::{At, Move, Verdict, next_move};
use crate::nesting::Reader;
use std::alloc::{AllocError, Global};
use tcl_chars::{push_text, split_first};

/// Where the reading of a text stands that waits for more.
#[derive(Debug, Drop)]
pub struct Waiting {
    // The brackets round the place, each in a word that is quoted or not.
    outer: Vec<bool>,
    at: At,
    // What is to be read again, where more of it may tell.
    left: String,
    // Does the text end in an odd run of backslashes, or in a newline behind one?
    odd: bool,
    hidden: bool,
}

/// What a move comes to.
#[derive(Clone, Copy)]
enum Turn<'a> {
    /// What is left is read there.
    Goes(At, &'a str),
    /// This is known where nothing follows.
    Stops(Verdict),
}

/// Before the first line.
pub fn at_beginning(alloc: Global) -> Waiting
    ensures { Awaits result [] }
{
    Waiting {
        outer: Vec::new(alloc),
        at: At::Commands,
        left: String::new(alloc),
        odd: false,
        hidden: false,
    }
}

/// Does a text end in an odd run of backslashes, or in a newline behind one? The flags say it of what stands before it.
#[tactic(auto, unfolding(crate::specs::Waiting::hiding))]
fn hiding(odd: bool, hidden: bool, text: &str) -> (bool, bool)
    ensures { (result.0, result.1) ≡ spec.hiding odd hidden (chars text.now) }
{
    let mut rest = text;
    let mut odd = odd;
    let mut hidden = hidden;
    while let Some((c, after)) = split_first(rest) {
        hidden = odd && c == '\n';
        odd = c == '\\' && !odd;
        rest = after;
    }
    (odd, hidden)
}

/// What is known where a text ends between commands.
fn end_verdict(nested: bool) -> Verdict
    ensures { result ≡ spec.end_verdict nested }
{
    if nested {
        Verdict::Open
    } else {
        Verdict::Whole
    }
}

/// Makes the next move, in the brackets that stand round it.
fn advance<'a>(
    alloc: Global,
    outer: &mut Vec<bool>,
    at: At,
    text: &'a str,
) -> Result<Turn<'a>, AllocError>
    ensures { IfOk result (Turned outer.old.items at (chars text.now) outer.new.items) }
{
    let nested = !outer.is_empty();
    let reader = Reader {
        alloc,
        size: text.len(),
        levels: 200usize.saturating_sub(outer.len()) as u32,
    };
    match next_move(reader, nested, at, text)? {
        Move::Goes(then, rest) => Ok(Turn::Goes(then, rest)),
        Move::Opens(quoted, rest) => {
            outer.push(quoted)?;
            Ok(Turn::Goes(At::Commands, rest))
        }
        Move::Closes(rest) => match outer.pop() {
            Some(quoted) => Ok(Turn::Goes(At::Pieces(quoted), rest)),
            None => Ok(Turn::Stops(Verdict::Unknown)),
        },
        Move::Ends => Ok(Turn::Stops(end_verdict(nested))),
        Move::Open => Ok(Turn::Stops(Verdict::Open)),
        Move::Unknown => Ok(Turn::Stops(Verdict::Unknown)),
    }
}

/// Reads a text up to its end, or up to where more of it would tell.
fn run<'a>(
    alloc: Global,
    outer: &mut Vec<bool>,
    at: At,
    text: &'a str,
) -> Result<(At, &'a str, Verdict), AllocError>
    ensures alike { IfOk result (λ r. Alike outer.old.items at (chars text.now) outer.new.items r.0 (chars r.1.now)) }
    ensures judges { IfOk result (λ r. Judges outer.new.items r.0 (chars r.1.now) r.2) }
{
    let mut at = at;
    let mut rest = text;
    'turns: for _ in 0..u64::MAX {
        match advance(alloc, outer, at, rest)? {
            Turn::Goes(then, after) => {
                at = then;
                rest = after;
            }
            Turn::Stops(verdict) => return Ok((at, rest, verdict)),
        }
    }
    Ok((at, rest, Verdict::Unknown))
}

/// Reads a line behind a text that waits for more.
fn read_on(alloc: Global, waiting: Waiting, line: &str) -> Result<(Waiting, Verdict), AllocError>
    ensures alike { IfOk result (λ r. Alike waiting.outer.items waiting.at (chars (string_bytes waiting.left) ++ chars line.now) r.0.outer.items r.0.at (chars (string_bytes r.0.left))) }
    ensures judges { IfOk result (λ r. Judges r.0.outer.items r.0.at (chars (string_bytes r.0.left)) r.1) }
    ensures hides { IfOk result (λ r. (r.0.odd, r.0.hidden) ≡ spec.hiding waiting.odd waiting.hidden (chars line.now)) }
{
    let Waiting {
        mut outer,
        at,
        mut left,
        odd,
        hidden,
    } = waiting;
    let (odd, hidden) = hiding(odd, hidden, line);
    push_text(&mut left, line)?;
    let (at, rest, verdict) = run(alloc, &mut outer, at, left.as_str())?;
    let mut kept = String::new(alloc);
    push_text(&mut kept, rest)?;
    let waiting = Waiting {
        outer,
        at,
        left: kept,
        odd,
        hidden,
    };
    Ok((waiting, verdict))
}

/// Is the text whole commands, as `is_complete` says? It is one that waits for more and a line behind it, and is read on from
/// where it stood.
///
/// # Errors
/// A growth was refused.
pub fn is_complete_behind(
    alloc: Global,
    waiting: Waiting,
    line: &str,
    text: &str,
) -> Result<(Waiting, bool), AllocError>
    requires { IsBehind waiting (chars line.now) (chars text.now) }
    ensures awaits { IfOk result (λ r. Awaits r.0 (chars text.now)) }
    ensures complete { IfOk result (λ r. r.1 ≡ complete.is_complete (chars text.now)) }
{
    let (waiting, verdict) = read_on(alloc, waiting, line)?;
    if waiting.hidden {
        return Ok((waiting, false));
    }
    match verdict {
        Verdict::Whole => Ok((waiting, true)),
        Verdict::Open => Ok((waiting, false)),
        Verdict::Unknown => {
            let complete = is_complete(alloc, text)?;
            Ok((waiting, complete))
        }
    }
}
