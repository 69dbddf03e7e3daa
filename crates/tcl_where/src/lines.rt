//! Places of texts as lines.

use std::alloc::{AllocError, Global};
use std::rc::RcStr;
use tcl_chars::{push, push_text};
use tcl_interp::{Interp, Place, named};
use tcl_places::{Command, command_at, find_lone, find_within, line_of, place_behind};
use tcl_words::{Parsed, Piece, Word, parse_first};

// The most characters of a command that are told.
const MOST_CHARS: usize = 80;

// Brackets and array indices may stand in one another this deep.
const MOST_LEVELS: u32 = 200;

// A text that an error has left, and its command, if that is known.
#[derive(Drop)]
struct Left {
    text: RcStr,
    command: Option<Command>,
    is_body: bool,
}

// What a level is.
#[derive(Drop)]
enum Kind {
    File,
    /// The body of a procedure, by its name.
    Body(Option<RcStr>),
    /// A text that was made while the script ran.
    Made,
}

// The file, a procedure's body, or a text that stands in neither; and the innermost command in it.
#[derive(Drop)]
struct Level {
    kind: Kind,
    text: RcStr,
    command: Option<Command>,
}

// A place, by its text.
fn left_at(alloc: Global, place: Place) -> Result<Left, AllocError> {
    let Place {
        mut text,
        is_script,
        at,
        is_body,
    } = place;
    let text = text.text(alloc)?;
    let command = command_at(alloc, text.as_str(), is_script, at)?;
    Ok(Left {
        text,
        command,
        is_body,
    })
}

// The text of a command.
fn text_of<'a>(text: &'a str, command: &Command) -> &'a str {
    text.get(command.begin..command.end).unwrap_or("")
}

// The text of a word that is one stretch of characters that stand for themselves.
fn literal_text(alloc: Global, word: &Word<'_>) -> Result<Option<RcStr>, AllocError> {
    let [piece] = word.pieces.as_slice() else {
        return Ok(None);
    };
    match piece {
        Piece::Text(span) if !word.expands => Ok(Some(RcStr::from_str(alloc, span.text)?)),
        _ => Ok(None),
    }
}

// The first word of a level's command, where it is literal.
fn first_word(alloc: Global, level: &Level) -> Result<Option<RcStr>, AllocError> {
    let Some(command) = &level.command else {
        return Ok(None);
    };
    let text = text_of(level.text.as_str(), command);
    let Parsed::Command(words, _) = parse_first(alloc, text, MOST_LEVELS)? else {
        return Ok(None);
    };
    match words.as_slice() {
        [word, ..] => literal_text(alloc, word),
        [] => Ok(None),
    }
}

// The level of a procedure's body that a level calls.
fn body_level(
    alloc: Global,
    interp: &Interp,
    outer: &Level,
    left: Left,
) -> Result<Level, AllocError> {
    let name = match first_word(alloc, outer)? {
        Some(word) => Some(word),
        None => named(interp, left.text.as_str())?,
    };
    Ok(Level {
        kind: Kind::Body(name),
        text: left.text,
        command: left.command,
    })
}

// Where a text stands in the command of a level, if it does. In one that was made it is not looked for where it stands in the file.
fn stands_in(file: &str, outer: &Level, text: &str) -> Option<usize> {
    let command = outer.command?;
    if matches!(outer.kind, Kind::Made) && find_lone(file, text).is_some() {
        return None;
    }
    find_within(outer.text.as_str(), command.begin, command.end, text)
}

// The command of a source that is one of a text which stands in it from a place on.
fn moved(source: &str, from: usize, text: &str, command: Command) -> Option<Command> {
    let begin = place_behind(source, from, text.get(..command.begin)?)?;
    let end = place_behind(source, begin, text.get(command.begin..command.end)?)?;
    Some(Command { begin, end })
}

// A text that a level has run: the level's place moves into it where it stands there; else it is a level by itself, of the file where it
// stands there alone.
fn inner_level(
    alloc: Global,
    file: &RcStr,
    outer: &mut Level,
    left: Left,
) -> Result<Option<Level>, AllocError> {
    let Some(command) = left.command else {
        return Ok(None);
    };
    let text = left.text.as_str();
    if let Some(from) = stands_in(file.as_str(), outer, text) {
        outer.command = moved(outer.text.as_str(), from, text, command);
        return Ok(None);
    }
    if let Some(from) = find_lone(file.as_str(), text) {
        return Ok(Some(Level {
            kind: Kind::File,
            text: file.clone()?,
            command: moved(file.as_str(), from, text, command),
        }));
    }
    Ok(Some(Level {
        kind: Kind::Made,
        text: left.text,
        command: left.command,
    }))
}

// One more text inside of levels, the innermost last.
fn add_level(
    alloc: Global,
    interp: &Interp,
    file: &RcStr,
    levels: &mut Vec<Level>,
    left: Left,
) -> Result<(), AllocError> {
    let Some(outer) = levels.last_mut() else {
        levels.push(Level {
            kind: Kind::File,
            text: left.text,
            command: left.command,
        })?;
        return Ok(());
    };
    if left.is_body {
        let level = body_level(alloc, interp, outer, left)?;
        levels.push(level)?;
    } else if let Some(level) = inner_level(alloc, file, outer, left)? {
        levels.push(level)?;
    }
    Ok(())
}

// The front of a command that is told: its first line, and no more than it may take.
fn shown_front(command: &str) -> &str {
    let mut end = 0usize;
    let mut count = 0usize;
    'chars: for c in command.chars() {
        if c == '\n' || count >= MOST_CHARS {
            return command.get(..end).unwrap_or(command);
        }
        end = end.saturating_add(c.len_utf8());
        count = count.saturating_add(1);
    }
    command
}

// Adds the front of a command.
fn add_command(line: &mut String, whole: &str) -> Result<(), AllocError> {
    let command = whole.trim_end_matches(|c| c == '\n' || c == ';' || c == ' ' || c == '\t');
    let front = shown_front(command);
    push_text(line, front)?;
    if front.len() < command.len() {
        push_text(line, " ..")?;
    }
    Ok(())
}

// Adds a number.
fn add_number(alloc: Global, line: &mut String, number: usize) -> Result<(), AllocError> {
    let digits = format!(in alloc; "{number}")?;
    push_text(line, digits.as_str())
}

// Adds the file's name, and a line of it.
fn add_file(alloc: Global, line: &mut String, name: &str, number: usize) -> Result<(), AllocError> {
    push_text(line, name)?;
    push(line, ':')?;
    add_number(alloc, line, number)
}

// Adds the name of a procedure.
fn add_name(line: &mut String, name: &Option<RcStr>) -> Result<(), AllocError> {
    push_text(line, "proc")?;
    if let Some(name) = name {
        push(line, ' ')?;
        push_text(line, name.as_str())?;
    }
    Ok(())
}

// Adds the line of a body, and that of the file where the body stands there alone.
fn add_body(
    alloc: Global,
    line: &mut String,
    name: &str,
    file: &str,
    text: &str,
    command: Command,
) -> Result<(), AllocError> {
    push_text(line, ", line ")?;
    add_number(alloc, line, line_of(text.as_bytes(), command.begin))?;
    let Some(from) = find_lone(file, text) else {
        return Ok(());
    };
    let Some(place) = place_behind(file, from, text.get(..command.begin).unwrap_or("")) else {
        return Ok(());
    };
    push_text(line, " (")?;
    add_file(alloc, line, name, line_of(file.as_bytes(), place))?;
    push(line, ')')
}

// The line of a level; empty where its place isn't known.
fn line_at(alloc: Global, name: &str, file: &str, level: &Level) -> Result<String, AllocError> {
    let mut line = String::new(alloc);
    let Some(command) = level.command else {
        return Ok(line);
    };
    let begin = command.begin;
    let text = level.text.as_str();
    match &level.kind {
        Kind::File => add_file(alloc, &mut line, name, line_of(text.as_bytes(), begin))?,
        Kind::Body(procedure) => {
            add_name(&mut line, procedure)?;
            add_body(alloc, &mut line, name, file, text, command)?;
        }
        Kind::Made => {
            push_text(&mut line, "script, line ")?;
            add_number(alloc, &mut line, line_of(text.as_bytes(), begin))?;
        }
    }
    push_text(&mut line, ": ")?;
    add_command(&mut line, text_of(text, &command))?;
    Ok(line)
}

// The levels of places, the innermost last.
fn levels_of(alloc: Global, interp: &Interp, places: Vec<Place>) -> Result<Vec<Level>, AllocError> {
    let mut levels = Vec::new(alloc);
    let mut places = places;
    let mut file = RcStr::from_str(alloc, "")?;
    'places: for _ in 0..u64::MAX {
        let Some(place) = places.pop() else {
            return Ok(levels);
        };
        let left = left_at(alloc, place)?;
        if levels.is_empty() {
            file = left.text.clone()?;
        }
        add_level(alloc, interp, &file, &mut levels, left)?;
    }
    Ok(levels)
}

// Adds how often a line was repeated.
fn add_repeats(alloc: Global, lines: &mut String, repeats: usize) -> Result<(), AllocError> {
    if repeats == 0 {
        return Ok(());
    }
    push_text(lines, "\n.. and so ")?;
    add_number(alloc, lines, repeats)?;
    push_text(lines, " times more")
}

// Adds a line behind others.
fn add_line(lines: &mut String, line: &str) -> Result<(), AllocError> {
    if !line.is_empty() && !lines.is_empty() {
        push(lines, '\n')?;
    }
    push_text(lines, line)
}

/// Where an error has come from: a line for each level, from the inside out, with newlines between them. `name` is that of the file.
/// `None` where there is nothing to tell.
pub(crate) fn lines_of(
    alloc: Global,
    name: &str,
    interp: &Interp,
    places: Vec<Place>,
) -> Result<Option<String>, AllocError> {
    let levels = levels_of(alloc, interp, places)?;
    let Some(outermost) = levels.first() else {
        return Ok(None);
    };
    let file = outermost.text.as_str();
    let mut lines = String::new(alloc);
    let mut last = String::new(alloc);
    let mut repeats = 0usize;
    'levels: for level in levels.iter().rev() {
        let line = line_at(alloc, name, file, level)?;
        if line == last {
            repeats = repeats.saturating_add(1);
            continue 'levels;
        }
        add_repeats(alloc, &mut lines, repeats)?;
        repeats = 0;
        add_line(&mut lines, line.as_str())?;
        last = line;
    }
    add_repeats(alloc, &mut lines, repeats)?;
    if lines.is_empty() {
        return Ok(None);
    }
    Ok(Some(lines))
}
