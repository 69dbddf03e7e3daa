//! How a text that grows is read: move by move, each the same however the text goes on.

ghost use Rattle.std.specs.Prelude.{◌≡◌, ℕ, not, ◌&&◌, ◌==◌, List, ◌∷◌, ◌++◌, Option, IfOk, IfSome, Ok, is_some};
ghost use Rattle.std.specs.Str.{chars};
ghost use Rattle.tcl_words.specs.declared.moves.At.TheVariants as place;
ghost use Rattle.tcl_chars.specs.Characters.{close_brace};
ghost use Rattle.tcl_chars.specs.Place.{tail};
ghost use Rattle.tcl_words.specs.Parts.{Part};
ghost use Rattle.tcl_words.specs.Words as spec;
ghost use Rattle.tcl_words.specs.Waiting as spec_on;
ghost use Rattle.tcl_words.specs.Waiting.{Moves, Forms, Behind, Ended};

use crate::blanks::{after_blanks, after_gaps, ends_word};
use crate::fault::Syntax;
use crate::front::{Kind, Mode, kind_of};
use crate::nesting::{Reader, after_command, form_of, next_piece};
use crate::word::Form;
use std::alloc::AllocError;
use tcl_chars::{ReadFault, begins, split_first, tail};

/// Where the reading of a script stands.
#[derive(Clone, Copy, Debug)]
pub(crate) enum At {
    /// Between commands.
    Commands,
    /// Between the words of a command.
    Words,
    /// Between the pieces of a word. Is it quoted?
    Pieces(bool),
    /// In a braced word. Does a backslash hide the next character, and how many braces are open inside?
    Braces(bool, usize),
}

/// What comes next.
#[derive(Clone, Copy)]
pub(crate) enum Move<'a> {
    /// What is left is read there.
    Goes(At, &'a str),
    /// A bracket opens, in a word that is quoted or not.
    Opens(bool, &'a str),
    /// The bracket closes.
    Closes(&'a str),
    /// The text ends between commands.
    Ends,
    /// The text ends in a word that is open.
    Open,
    /// What is left of the text doesn't tell.
    Unknown,
}

/// What is known of a text at its end.
#[derive(Clone, Copy)]
pub(crate) enum Verdict {
    /// Nothing is open.
    Whole,
    /// Something is open.
    Open,
    Unknown,
}

/// Is enough left of the text, so that what is read of it stays where it goes on?
fn is_firm(text: &str) -> bool
    ensures { result ≡ spec_on.is_firm (chars text.now) }
{
    match split_first(text) {
        None => false,
        Some((c, rest)) => split_first(rest).is_some() || !(c == ':' || c == '\\'),
    }
}

/// Does what begins at this character stay where the text goes on?
fn is_settled(c: char, rest: &str) -> bool
    ensures { result ≡ spec_on.is_settled c (chars rest.now) }
{
    match split_first(rest) {
        None => !(c == '\\' || c == '$'),
        Some((d, more)) => split_first(more).is_some() || !(c == '$' && d == ':'),
    }
}

/// From between commands on.
fn at_commands(nested: bool, text: &str) -> Move<'_>
    ensures { (levels : ℕ) → Moves levels nested place.Commands (chars text.now) result }
{
    let rest = after_gaps(text);
    let Some(_) = split_first(rest) else {
        return Move::Ends;
    };
    if !is_firm(rest) {
        return Move::Unknown;
    }
    if !ends_word(nested, rest) {
        return Move::Goes(At::Words, rest);
    }
    if nested {
        Move::Closes(tail(rest))
    } else {
        Move::Unknown
    }
}

/// Does `{*}` mark the word that begins here, where that is known?
fn mark_of(nested: bool, text: &str) -> Option<bool>
    ensures { IfSome result (λ b. (y : List ℕ) → spec.marked nested (chars text.now ++ y) ≡ b) }
{
    let (c, second) = split_first(text)?;
    if c != '{' {
        return Some(false);
    }
    let (d, third) = split_first(second)?;
    if d != '*' {
        return Some(false);
    }
    let (e, behind) = split_first(third)?;
    if e != '}' {
        return Some(false);
    }
    if is_firm(behind) {
        Some(!ends_word(nested, behind))
    } else {
        None
    }
}

/// By its form, what the word is in whose text the reading stands then.
fn begin_word(text: &str) -> Move<'_>
    ensures { Forms (chars text.now) result }
{
    let Some(_) = split_first(text) else {
        return Move::Unknown;
    };
    match form_of(text) {
        Form::Braced => Move::Goes(At::Braces(false, 0), tail(text)),
        Form::Quoted => Move::Goes(At::Pieces(true), tail(text)),
        Form::Bare => Move::Goes(At::Pieces(false), text),
    }
}

/// The same of a word behind its mark `{*}`.
fn begin_marked(text: &str) -> Move<'_>
    ensures { Forms (tail (tail (tail (chars text.now)))) result }
{
    let behind = tail(tail(tail(text)));
    begin_word(behind)
}

/// From between words on.
fn at_words(nested: bool, text: &str) -> Move<'_>
    ensures { (levels : ℕ) → Moves levels nested place.Words (chars text.now) result }
{
    let rest = after_blanks(text);
    if !is_firm(rest) {
        return Move::Unknown;
    }
    if ends_word(nested, rest) {
        return Move::Goes(At::Commands, after_command(rest));
    }
    match mark_of(nested, rest) {
        None => Move::Unknown,
        Some(false) => begin_word(rest),
        Some(true) => begin_marked(rest),
    }
}

/// From behind what closes a word on.
fn behind_word(nested: bool, rest: &str) -> Move<'_>
    ensures { Behind nested (chars rest.now) result }
{
    if is_firm(rest) && ends_word(nested, rest) {
        Move::Goes(At::Words, rest)
    } else {
        Move::Unknown
    }
}

/// Does this character close the braced word?
fn closes(hidden: bool, depth: usize, c: char) -> bool
    ensures { result ≡ (not hidden && c == close_brace && depth == 0) }
{
    !hidden && c == '}' && depth == 0
}

/// What holds in braces behind this character: does a backslash hide the next one, and how many braces are open inside?
#[tactic(auto, unfolding(crate::specs::Words::at_brace))]
fn behind_character(hidden: bool, depth: usize, c: char) -> Option<(bool, usize)>
    ensures { IfSome result (λ p. (t : List ℕ) → spec.at_brace hidden depth (c ∷ t) ≡ spec.at_brace p.0 p.1 t) }
{
    if hidden {
        Some((false, depth))
    } else if c == '}' {
        Some((false, depth.checked_sub(1)?))
    } else if c == '{' {
        Some((false, depth.checked_add(1)?))
    } else {
        Some((c == '\\', depth))
    }
}

/// From inside braces on.
fn at_braces(nested: bool, hidden: bool, depth: usize, text: &str) -> Move<'_>
    ensures { (levels : ℕ) → Moves levels nested (place.Braces hidden depth) (chars text.now) result }
{
    let Some((c, rest)) = split_first(text) else {
        return Move::Open;
    };
    if closes(hidden, depth, c) {
        return behind_word(nested, rest);
    }
    match behind_character(hidden, depth, c) {
        Some((below, inside)) => Move::Goes(At::Braces(below, inside), rest),
        None => Move::Unknown,
    }
}

/// From where the pieces of a word end.
fn at_word_end(nested: bool, quoted: bool, rest: &str) -> Move<'_>
    ensures { Ended nested quoted (chars rest.now) result }
{
    let Some(_) = split_first(rest) else {
        return Move::Unknown;
    };
    if quoted {
        behind_word(nested, tail(rest))
    } else {
        Move::Goes(At::Words, rest)
    }
}

/// Is there a piece, and what follows it?
fn after_piece(reader: Reader, mode: Mode, text: &str) -> Result<(bool, &str), ReadFault<Syntax>>
    ensures { IfOk result (λ x. (found : Option Part) × (spec.piece_at reader.size (spec.inner_at reader.size reader.levels) mode (chars text.now) ≡ Ok (found, chars x.1.now)) × (x.0 ≡ is_some found)) }
{
    let (piece, rest) = next_piece(reader, mode, text)?;
    Ok((piece.is_some(), rest))
}

/// From a piece on that is read at once.
fn at_piece(reader: Reader, nested: bool, quoted: bool, text: &str) -> Result<Move<'_>, AllocError>
    ensures { IfOk result (Moves reader.levels nested (place.Pieces quoted) (chars text.now)) }
{
    match after_piece(reader, mode_in(nested, quoted), text) {
        Ok((true, rest)) if is_firm(rest) => Ok(Move::Goes(At::Pieces(quoted), rest)),
        Ok((true, _)) | Err(ReadFault::Bad(_)) => Ok(Move::Unknown),
        Ok((false, rest)) => Ok(at_word_end(nested, quoted, rest)),
        Err(ReadFault::Memory) => Err(AllocError),
    }
}

/// The mode of a word.
fn mode_in(nested: bool, quoted: bool) -> Mode
    ensures { result ≡ spec_on.mode_in nested quoted }
{
    if quoted {
        Mode::Quoted
    } else {
        Mode::Bare(nested)
    }
}

/// From between pieces on.
fn at_pieces(reader: Reader, nested: bool, quoted: bool, text: &str) -> Result<Move<'_>, AllocError>
    ensures { IfOk result (Moves reader.levels nested (place.Pieces quoted) (chars text.now)) }
{
    let Some((c, rest)) = split_first(text) else {
        return Ok(if quoted { Move::Open } else { Move::Unknown });
    };
    match kind_of(mode_in(nested, quoted), text) {
        Kind::Plain if is_settled(c, rest) => Ok(Move::Goes(At::Pieces(quoted), rest)),
        Kind::Opening if reader.levels > 0 => Ok(Move::Opens(quoted, rest)),
        _ => at_piece(reader, nested, quoted, text),
    }
}

/// The next move of the reading.
pub(crate) fn next_move(
    reader: Reader,
    nested: bool,
    at: At,
    text: &str,
) -> Result<Move<'_>, AllocError>
    ensures { IfOk result (Moves reader.levels nested at (chars text.now)) }
{
    match at {
        At::Commands => Ok(at_commands(nested, text)),
        At::Words => Ok(at_words(nested, text)),
        At::Pieces(quoted) => at_pieces(reader, nested, quoted, text),
        At::Braces(hidden, depth) => Ok(at_braces(nested, hidden, depth, text)),
    }
}
