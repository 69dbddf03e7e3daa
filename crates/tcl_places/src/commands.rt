//! Commands of a text, in the order in which their code is emitted.

use crate::events::guard_behind;
use crate::finding::{find_within, place_behind};
use std::alloc::{AllocError, Global};
use tcl_chars::Fault;
use tcl_code::{Code, Inlined};
use tcl_list::split;
use tcl_words::{Operand, Parsed, Piece, Word, begins_operand, parse_first, parse_operand};

// Brackets and array indices may stand in one another this deep.
const MOST_LEVELS: u32 = 200;

/// A part of a text that has code of its own.
#[derive(Clone, Copy)]
pub(crate) struct Part<'a> {
    pub(crate) text: &'a str,
    /// Where it begins, in bytes of the whole text.
    pub(crate) base: usize,
    /// A script, or an expression.
    pub(crate) is_script: bool,
}

/// Where a command begins and ends, in bytes of the whole text.
#[derive(Clone, Copy)]
pub struct Command {
    pub begin: usize,
    pub end: usize,
}

// How many bytes of blanks, separators and comments stand in front.
fn lead(text: &str) -> usize {
    let mut is_comment = false;
    let mut is_escaped = false;
    let mut place = 0usize;
    'bytes: for byte in text.as_bytes() {
        let byte = *byte;
        let is_blank = matches!(byte, b' ' | b'\t' | b'\n' | b'\r' | b';' | 0x0b | 0x0c);
        if byte == b'\n' && !is_escaped {
            is_comment = false;
        } else if byte == b'#' && !is_comment {
            is_comment = true;
        } else if !is_comment && !is_blank && !begins_line(text, place) {
            return place;
        }
        is_escaped = byte == b'\\' && !is_escaped;
        place = place.saturating_add(1);
    }
    place
}

// Does a backslash stand at a place, and a newline behind it?
fn begins_line(text: &str, place: usize) -> bool {
    matches!(text.as_bytes().get(place..), Some([b'\\', b'\n', ..]))
}

// The part of a text from a place on.
fn behind<'a>(part: &Part<'a>, from: usize) -> Option<Part<'a>> {
    let text = part.text.get(from..)?;
    Some(Part {
        text,
        base: part.base.saturating_add(from),
        is_script: part.is_script,
    })
}

// The part of a text that a literal word takes.
fn literal<'a>(part: &Part<'a>, word: &Word<'a>, is_script: bool) -> Option<Part<'a>> {
    let first = word.pieces.first()?;
    let last = word.pieces.last()?;
    let from = span_of(first).0;
    let text = part.text.get(from..span_of(last).1)?;
    Some(Part {
        text,
        base: part.base.saturating_add(from),
        is_script,
    })
}

// Where a piece begins and ends.
fn span_of(piece: &Piece<'_>) -> (usize, usize) {
    let span = match piece {
        Piece::Text(span)
        | Piece::Escape(span, _)
        | Piece::Var(span, _)
        | Piece::Elem(span, _, _)
        | Piece::Bracket(span, _) => span,
    };
    (span.start, span.start.saturating_add(span.text.len()))
}

// Adds the scripts in brackets of pieces, those in indices among them, from left to right.
fn add_brackets<'a>(
    alloc: Global,
    part: &Part<'a>,
    pieces: &[Piece<'a>],
    found: &mut Vec<Part<'a>>,
) -> Result<(), AllocError> {
    let mut waiting = Vec::new(alloc);
    waiting.push(pieces)?;
    'pieces: for _ in 0..u64::MAX {
        let Some(rest) = waiting.pop() else {
            return Ok(());
        };
        let [piece, others @ ..] = rest else {
            continue 'pieces;
        };
        waiting.push(others)?;
        match piece {
            Piece::Elem(_, _, index) => waiting.push(index.as_slice())?,
            Piece::Bracket(_, script) => found.push(Part {
                text: script.text,
                base: part.base.saturating_add(script.start),
                is_script: true,
            })?,
            _ => {}
        }
    }
    Ok(())
}

// The operand with which a text begins, if it begins with one that is a word.
fn operand_at<'a>(alloc: Global, text: &'a str) -> Result<Option<Operand<'a>>, AllocError> {
    if !begins_operand(text) {
        return Ok(None);
    }
    Ok(Some(parse_operand(alloc, text, 0, MOST_LEVELS)?))
}

// Passes an operand of an expression, or a character: its length, and its scripts in brackets go behind the others. `None` at the end.
fn pass_operand<'a>(
    alloc: Global,
    part: &Part<'a>,
    found: &mut Vec<Part<'a>>,
) -> Result<Option<usize>, AllocError> {
    match operand_at(alloc, part.text)? {
        None => Ok(part.text.chars().next().map(|c| c.len_utf8())),
        Some(Operand::Bad(_)) => Ok(None),
        Some(Operand::Found(word, length)) => {
            add_brackets(alloc, part, word.pieces.as_slice(), found)?;
            Ok(Some(length))
        }
    }
}

// The scripts in brackets of an expression, from left to right.
fn operands<'a>(alloc: Global, part: &Part<'a>) -> Result<Vec<Part<'a>>, AllocError> {
    let mut found = Vec::new(alloc);
    let mut rest = *part;
    'operands: for _ in 0..u64::MAX {
        let Some(length) = pass_operand(alloc, &rest, &mut found)? else {
            return Ok(found);
        };
        let Some(next) = behind(&rest, length) else {
            return Ok(found);
        };
        rest = next;
    }
    Ok(found)
}

// The parts of an `if` that is inlined, of the words behind its name.
fn clauses<'a>(
    alloc: Global,
    part: &Part<'a>,
    words: &[Word<'a>],
) -> Result<Vec<Option<Part<'a>>>, AllocError> {
    let mut parts = Vec::new(alloc);
    let mut is_script = false;
    'words: for word in words {
        let text = literal(part, word, is_script);
        if matches!(&text, Some(text) if !is_script && text.text == "elseif") {
            continue 'words;
        }
        if matches!(&text, Some(text) if !is_script && text.text == "else") {
            is_script = true;
            continue 'words;
        }
        parts.push(text)?;
        is_script = !is_script;
    }
    Ok(parts)
}

// The script of a text that stands between these places of a part.
fn script_between<'a>(part: &Part<'a>, from: usize, to: usize) -> Option<Part<'a>> {
    Some(Part {
        text: part.text.get(from..to)?,
        base: part.base.saturating_add(from),
        is_script: true,
    })
}

// The bodies in the list of a `switch` that is inlined: every second element.
fn arms<'a>(
    alloc: Global,
    part: &Part<'a>,
    list: &Word<'a>,
) -> Result<Vec<Option<Part<'a>>>, AllocError> {
    let mut bodies = Vec::new(alloc);
    let Some(whole) = literal(part, list, false) else {
        return Ok(bodies);
    };
    let elements = match split(alloc, whole.text) {
        Ok(elements) => elements,
        Err(Fault::Error(_)) => return Ok(bodies),
        Err(Fault::Memory) => return Err(AllocError),
    };
    let mut place = whole.base.saturating_sub(part.base);
    let end = place.saturating_add(whole.text.len());
    let mut is_body = false;
    'elements: for element in elements.as_slice() {
        let element = element.as_str();
        let Some(begin) = find_within(part.text, place, end, element) else {
            return Ok(bodies);
        };
        let Some(behind) = place_behind(part.text, begin, element) else {
            return Ok(bodies);
        };
        if is_body {
            bodies.push(script_between(part, begin, behind))?;
        }
        is_body = !is_body;
        place = behind;
    }
    Ok(bodies)
}

// The parts that stand in a command, in the order of its code.
fn inside<'a>(
    alloc: Global,
    part: &Part<'a>,
    words: &[Word<'a>],
    inlined: Option<Inlined>,
) -> Result<Vec<Part<'a>>, AllocError> {
    let mut parts = Vec::new(alloc);
    'words: for word in words {
        add_brackets(alloc, part, word.pieces.as_slice(), &mut parts)?;
    }
    let bodies = match (inlined, words) {
        (Some(Inlined::If), [_, rest @ ..]) => clauses(alloc, part, rest)?,
        (Some(Inlined::Expr), [_, text]) => vec![in alloc; literal(part, text, false)]?,
        (Some(Inlined::While), [_, test, body]) => {
            vec![in alloc; literal(part, body, true), literal(part, test, false)]?
        }
        (Some(Inlined::For), [_, start, test, next, body]) => {
            vec![in alloc;
                literal(part, start, true),
                literal(part, body, true),
                literal(part, next, true),
                literal(part, test, false),
            ]?
        }
        (Some(Inlined::Foreach | Inlined::Lmap), [.., body]) => {
            vec![in alloc; literal(part, body, true)]?
        }
        (Some(Inlined::Switch), [.., list]) => arms(alloc, part, list)?,
        _ => Vec::new(alloc),
    };
    add_parts(&mut parts, bodies.as_slice())?;
    Ok(parts)
}

// Adds the parts that are there.
fn add_parts<'a>(parts: &mut Vec<Part<'a>>, more: &[Option<Part<'a>>]) -> Result<(), AllocError> {
    'parts: for part in more {
        if let Some(part) = part {
            parts.push(*part)?;
        }
    }
    Ok(())
}

// Puts parts on a stack, the first of them on top.
fn stack_up<'a>(stack: &mut Vec<Part<'a>>, parts: &[Part<'a>]) -> Result<(), AllocError> {
    'parts: for part in parts.iter().rev() {
        stack.push(*part)?;
    }
    Ok(())
}

// Takes the first command of a script: where it stands goes behind the others, and what stands behind and in it onto the stack.
fn take_command<'a>(
    alloc: Global,
    code: &Code,
    events: &[usize],
    part: &Part<'a>,
    stack: &mut Vec<Part<'a>>,
    commands: &mut Vec<Command>,
) -> Result<(), AllocError> {
    let begin = part.base.saturating_add(lead(part.text));
    let event = events.get(commands.len()).copied().unwrap_or(0);
    match parse_first(alloc, part.text, MOST_LEVELS)? {
        Parsed::End(_) => Ok(()),
        Parsed::Bad(_) => {
            let end = part.base.saturating_add(part.text.len());
            commands.push(Command { begin, end })?;
            Ok(())
        }
        Parsed::Command(words, after) => {
            let end = part.base.saturating_add(after);
            commands.push(Command { begin, end })?;
            if let Some(rest) = behind(part, after) {
                stack.push(rest)?;
            }
            let parts = inside(alloc, part, words.as_slice(), guard_behind(code, event))?;
            stack_up(stack, parts.as_slice())
        }
    }
}

/// The commands of a text, in the order of its code.
pub(crate) fn commands_in(
    alloc: Global,
    code: &Code,
    events: &[usize],
    whole: Part<'_>,
) -> Result<Vec<Command>, AllocError> {
    let mut commands = Vec::new(alloc);
    let mut stack = Vec::new(alloc);
    stack.push(whole)?;
    'parts: for _ in 0..u64::MAX {
        let Some(part) = stack.pop() else {
            return Ok(commands);
        };
        if part.is_script {
            take_command(alloc, code, events, &part, &mut stack, &mut commands)?;
        } else {
            let parts = operands(alloc, &part)?;
            stack_up(&mut stack, parts.as_slice())?;
        }
    }
    Ok(commands)
}
