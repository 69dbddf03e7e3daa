//! Pieces, words and commands, which stand in one another.

ghost use Rattle.std.specs.Prelude.{◌≡◌, map, option_map};
ghost use Rattle.std.specs.Str.{chars};
ghost use Rattle.tcl_chars.specs.Reading.{Gives};
ghost use Rattle.tcl_words.specs.Parts.{part_of, parts_of, shape_of};
ghost use Rattle.tcl_words.specs.Words as spec;

use crate::blanks::{after_blanks, after_gaps, ends_word};
use crate::braces::{at_variable_brace, braced};
use crate::fault::Syntax;
use crate::front::{Kind, Mode, after_name, after_plain, fault_at_end, kind_of};
use crate::stretch::{escaped, stretch};
use crate::word::{Form, Piece, Word};
use std::alloc::Global;
use tcl_chars::{ReadFault, begins, split_first, tail};

/// How a text is read.
#[derive(Clone, Copy)]
pub(crate) struct Reader {
    pub(crate) alloc: Global,
    /// The bytes of the whole text.
    pub(crate) size: usize,
    /// How deep brackets and indices may still stand in one another.
    pub(crate) levels: u32,
}

/// The pieces of an index, from behind its `(`, and what follows its `)`.
#[cycle(nesting)]
fn index(reader: Reader, text: &str) -> Result<(Vec<Piece<'_>>, &str), ReadFault<Syntax>>
    ensures { Gives (λ x. (parts_of (map part_of x.0.items), chars x.1.now)) result ((spec.inner_at reader.size reader.levels).index (chars text.now)) }
{
    if reader.levels == 0 {
        return Err(ReadFault::Bad(Syntax::TooDeep));
    }
    let inner = Reader {
        levels: reader.levels - 1,
        ..reader
    };
    let (pieces, rest) = pieces(inner, Mode::Index, text)?;
    Ok((pieces, tail(rest)))
}

/// The variable whose `$` stands at the front. Tcl(n), rule 8.
#[tactic(auto, unfolding(crate::specs::Words::variable_at))]
#[cycle(nesting)]
pub(crate) fn variable(reader: Reader, text: &str) -> Result<(Piece<'_>, &str), ReadFault<Syntax>>
    ensures { Gives (λ x. (part_of x.0, chars x.1.now)) result (spec.variable_at reader.size (spec.inner_at reader.size reader.levels) (chars text.now)) }
{
    let name = tail(text);
    if begins('{', name) {
        let inside = tail(name);
        let close = at_variable_brace(inside)?;
        let rest = tail(close);
        let whole = stretch(reader.size, text, rest);
        return Ok((Piece::Var(whole, stretch(reader.size, inside, close)), rest));
    }
    let rest = after_name(name);
    let named = stretch(reader.size, name, rest);
    if begins('(', rest) {
        let (pieces, after) = index(reader, tail(rest))?;
        let whole = stretch(reader.size, text, after);
        return Ok((Piece::Elem(whole, named, pieces), after));
    }
    Ok((Piece::Var(stretch(reader.size, text, rest), named), rest))
}

/// The bracket whose `[` stands at the front. Tcl(n), rule 7.
#[cycle(nesting)]
pub(crate) fn bracket(reader: Reader, text: &str) -> Result<(Piece<'_>, &str), ReadFault<Syntax>>
    ensures { Gives (λ x. (part_of x.0, chars x.1.now)) result (spec.bracket_at reader.size (spec.inner_at reader.size reader.levels) (chars text.now)) }
{
    let script = tail(text);
    let close = at_close(reader, script)?;
    let rest = tail(close);
    let whole = stretch(reader.size, text, rest);
    Ok((
        Piece::Bracket(whole, stretch(reader.size, script, close)),
        rest,
    ))
}

/// The next piece, or none where the word ends.
#[tactic(auto, unfolding(crate::specs::Words::piece_at))]
#[cycle(nesting)]
pub(crate) fn next_piece(
    reader: Reader,
    mode: Mode,
    text: &str,
) -> Result<(Option<Piece<'_>>, &str), ReadFault<Syntax>>
    ensures { Gives (λ x. (option_map part_of x.0, chars x.1.now)) result (spec.piece_at reader.size (spec.inner_at reader.size reader.levels) mode (chars text.now)) }
{
    match kind_of(mode, text) {
        Kind::Ends => Ok((None, text)),
        Kind::Open => Err(ReadFault::Bad(fault_at_end(mode))),
        Kind::Backslashed => {
            let (meant, rest) = escaped(text);
            Ok((
                Some(Piece::Escape(stretch(reader.size, text, rest), meant)),
                rest,
            ))
        }
        Kind::Opening => {
            let (piece, rest) = bracket(reader, text)?;
            Ok((Some(piece), rest))
        }
        Kind::Variable => {
            let (piece, rest) = variable(reader, text)?;
            Ok((Some(piece), rest))
        }
        Kind::Plain => {
            let rest = after_plain(mode, text);
            Ok((Some(Piece::Text(stretch(reader.size, text, rest))), rest))
        }
    }
}

/// The pieces up to where the word ends.
#[cycle(nesting)]
fn pieces(
    reader: Reader,
    mode: Mode,
    text: &str,
) -> Result<(Vec<Piece<'_>>, &str), ReadFault<Syntax>>
    ensures { Gives (λ x. (map part_of x.0.items, chars x.1.now)) result (spec.pieces_at reader.size (spec.inner_at reader.size reader.levels) mode (chars text.now)) }
{
    let mut pieces = Vec::new(reader.alloc);
    let mut rest = text;
    'pieces: loop {
        let (piece, after) = next_piece(reader, mode, rest)?;
        match piece {
            None => return Ok((pieces, after)),
            Some(piece) => pieces.push(piece)?,
        }
        rest = after;
    }
}

/// The pieces of the quoted word that begins here, and what follows its last `"`. Tcl(n), rule 4.
#[tactic(auto, unfolding(crate::specs::Words::quoted_at))]
#[cycle(nesting)]
pub(crate) fn quoted(
    reader: Reader,
    text: &str,
) -> Result<(Vec<Piece<'_>>, &str), ReadFault<Syntax>>
    ensures { Gives (λ x. (map part_of x.0.items, chars x.1.now)) result (spec.quoted_at reader.size (spec.inner_at reader.size reader.levels) (chars text.now)) }
{
    let (pieces, rest) = pieces(reader, Mode::Quoted, tail(text))?;
    Ok((pieces, tail(rest)))
}

pub(crate) fn form_of(text: &str) -> Form
    ensures { result ≡ spec.form_of (chars text.now) }
{
    if begins('{', text) {
        Form::Braced
    } else if begins('"', text) {
        Form::Quoted
    } else {
        Form::Bare
    }
}

/// Does `{*}` stand at the front, and a word behind it? Tcl(n), rule 5.
fn marked(nested: bool, text: &str) -> bool
    ensures { result ≡ spec.marked nested (chars text.now) }
{
    let second = tail(text);
    let third = tail(second);
    begins('{', text)
        && begins('*', second)
        && begins('}', third)
        && !ends_word(nested, tail(third))
}

/// The word of a form that begins here.
#[cycle(nesting)]
fn word_of(
    reader: Reader,
    nested: bool,
    expands: bool,
    form: Form,
    text: &str,
) -> Result<(Word<'_>, &str), ReadFault<Syntax>>
    ensures { Gives (λ x. (shape_of x.0, chars x.1.now)) result (spec.word_of reader.size (spec.inner_at reader.size reader.levels) nested expands form (chars text.now)) }
{
    let (pieces, rest) = match form {
        Form::Braced => braced(reader.alloc, reader.size, text)?,
        Form::Quoted => quoted(reader, text)?,
        Form::Bare => pieces(reader, Mode::Bare(nested), text)?,
    };
    if !ends_word(nested, rest) {
        match form {
            Form::Braced => return Err(ReadFault::Bad(Syntax::AfterBrace)),
            Form::Quoted => return Err(ReadFault::Bad(Syntax::AfterQuote)),
            Form::Bare => {}
        }
    }
    Ok((
        Word {
            form,
            expands,
            pieces,
        },
        rest,
    ))
}

/// The word that begins here.
#[tactic(auto, unfolding(crate::specs::Words::word_at))]
#[cycle(nesting)]
fn word(reader: Reader, nested: bool, text: &str) -> Result<(Word<'_>, &str), ReadFault<Syntax>>
    ensures { Gives (λ x. (shape_of x.0, chars x.1.now)) result (spec.word_at reader.size (spec.inner_at reader.size reader.levels) nested (chars text.now)) }
{
    if marked(nested, text) {
        let rest = tail(tail(tail(text)));
        word_of(reader, nested, true, form_of(rest), rest)
    } else {
        word_of(reader, nested, false, form_of(text), text)
    }
}

/// The next word, or none where the command ends.
#[tactic(auto, unfolding(crate::specs::Words::next_word))]
#[cycle(nesting)]
fn next_word(
    reader: Reader,
    nested: bool,
    text: &str,
) -> Result<(Option<Word<'_>>, &str), ReadFault<Syntax>>
    ensures { Gives (λ x. (option_map shape_of x.0, chars x.1.now)) result (spec.next_word reader.size (spec.inner_at reader.size reader.levels) nested (chars text.now)) }
{
    let rest = after_blanks(text);
    if ends_word(nested, rest) {
        return Ok((None, rest));
    }
    let (word, rest) = word(reader, nested, rest)?;
    Ok((Some(word), rest))
}

/// The words up to where the command ends.
#[cycle(nesting)]
fn words(
    reader: Reader,
    nested: bool,
    text: &str,
) -> Result<(Vec<Word<'_>>, &str), ReadFault<Syntax>>
    ensures { Gives (λ x. (map shape_of x.0.items, chars x.1.now)) result (spec.words_at reader.size (spec.inner_at reader.size reader.levels) nested (chars text.now)) }
{
    let mut words = Vec::new(reader.alloc);
    let mut rest = text;
    'words: loop {
        let (word, after) = next_word(reader, nested, rest)?;
        match word {
            None => return Ok((words, after)),
            Some(word) => words.push(word)?,
        }
        rest = after;
    }
}

/// What follows the end of a command: a `]` stays.
pub(crate) fn after_command(text: &str) -> &str
    ensures { chars result.now ≡ spec.after_command (chars text.now) }
{
    if begins(']', text) { text } else { tail(text) }
}

/// The words of the first command and what follows it, or none where only separators and comments are left.
#[tactic(auto, unfolding(crate::specs::Words::first_at))]
#[cycle(nesting)]
pub(crate) fn first(
    reader: Reader,
    nested: bool,
    text: &str,
) -> Result<(Option<Vec<Word<'_>>>, &str), ReadFault<Syntax>>
    ensures { Gives (λ x. (option_map (λ v. map shape_of v.items) x.0, chars x.1.now)) result (spec.first_at reader.size (spec.inner_at reader.size reader.levels) nested (chars text.now)) }
{
    let rest = after_gaps(text);
    if ends_word(nested, rest) {
        return Ok((None, rest));
    }
    let (words, rest) = words(reader, nested, rest)?;
    Ok((Some(words), after_command(rest)))
}

/// What follows the commands up to the end of the text, or inside brackets up to `]`.
#[cycle(nesting)]
pub(crate) fn after_commands(
    reader: Reader,
    nested: bool,
    text: &str,
) -> Result<&str, ReadFault<Syntax>>
    ensures { Gives (λ r. chars r.now) result (spec.after_commands reader.size (spec.inner_at reader.size reader.levels) nested (chars text.now)) }
{
    let mut rest = text;
    'commands: loop {
        let (command, after) = first(reader, nested, rest)?;
        match command {
            None => return Ok(after),
            Some(_) => rest = after,
        }
    }
}

/// The rest of the text, from the `]` on that closes the bracket that opens before the text.
#[cycle(nesting)]
fn at_close(reader: Reader, text: &str) -> Result<&str, ReadFault<Syntax>>
    ensures { Gives (λ r. chars r.now) result ((spec.inner_at reader.size reader.levels).bracket (chars text.now)) }
{
    if reader.levels == 0 {
        return Err(ReadFault::Bad(Syntax::TooDeep));
    }
    let inner = Reader {
        levels: reader.levels - 1,
        ..reader
    };
    let rest = after_commands(inner, true, text)?;
    match split_first(rest) {
        Some(_) => Ok(rest),
        None => Err(ReadFault::Bad(Syntax::MissingBracket)),
    }
}
