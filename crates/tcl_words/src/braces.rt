//! Braces, and the text inside them.

ghost use Rattle.std.specs.Prelude.{◌≡◌, [], false, map, option_map, Ok};
ghost use Rattle.std.specs.Str.{chars};
ghost use Rattle.tcl_chars.specs.Reading.{Gives, all_turns};
ghost use Rattle.tcl_words.specs.Parts.{part_of};
ghost use Rattle.tcl_words.specs.Words as spec;

use crate::fault::Syntax;
use crate::stretch::{escaped, stretch};
use crate::word::Piece;
use std::alloc::Global;
use tcl_chars::{ReadFault, before, begins, place, split_first, tail};

/// The rest of the text from the first `}` on.
#[tactic(auto, unfolding(crate::specs::Words::at_variable_brace))]
pub(crate) fn at_variable_brace(text: &str) -> Result<&str, ReadFault<Syntax>>
    ensures { Gives (λ r. chars r.now) result (spec.at_variable_brace (chars text.now)) }
{
    let mut rest = text;
    while let Some((c, after)) = split_first(rest) {
        if c == '}' {
            return Ok(rest);
        }
        rest = after;
    }
    Err(ReadFault::Bad(Syntax::MissingVariableBrace))
}

/// The rest of the text, from the brace on that matches one that stands before the text. Tcl(n), rule 6.
#[tactic(auto, unfolding(crate::specs::Words::at_brace))]
pub(crate) fn at_brace(text: &str) -> Result<&str, ReadFault<Syntax>>
    ensures { Gives (λ r. chars r.now) result (spec.at_brace false 0 (chars text.now)) }
{
    let mut rest = text;
    let mut hidden = false;
    let mut depth = 0usize;
    while let Some((c, after)) = split_first(rest) {
        if hidden {
            hidden = false;
        } else if c == '}' {
            if depth == 0 {
                return Ok(rest);
            }
            depth -= 1;
        } else if c == '{' {
            depth += 1;
        } else {
            hidden = c == '\\';
        }
        rest = after;
    }
    Err(ReadFault::Bad(Syntax::MissingBrace))
}

/// The rest of a text inside braces behind the characters at its front that stand for themselves: from the next backslash-newline on.
#[tactic(auto, unfolding(crate::specs::Words::after_verbatim))]
fn after_verbatim(text: &str) -> &str
    ensures { chars result.now ≡ spec.after_verbatim (chars text.now) }
{
    let mut rest = text;
    while let Some((c, after)) = split_first(rest) {
        if c == '\\' {
            match split_first(after) {
                Some(('\n', _)) => break,
                Some((_, next)) => rest = next,
                None => rest = after,
            }
        } else {
            rest = after;
        }
    }
    rest
}

/// Does a backslash-newline stand at the front?
fn begins_hidden_newline(text: &str) -> bool
    ensures { result ≡ spec.begins_hidden_newline (chars text.now) }
{
    begins('\\', text) && begins('\n', tail(text))
}

/// The next piece of the text inside braces, or none at its end. Before its end the whole text has `size` bytes.
fn next_verbatim(size: usize, text: &str) -> (Option<Piece<'_>>, &str)
    ensures { spec.verbatim_at size (chars text.now) ≡ Ok (option_map part_of result.0, chars result.1.now) }
{
    let Some(_) = split_first(text) else {
        return (None, text);
    };
    if begins_hidden_newline(text) {
        let (meant, rest) = escaped(text);
        return (Some(Piece::Escape(stretch(size, text, rest), meant)), rest);
    }
    let rest = after_verbatim(text);
    (Some(Piece::Text(stretch(size, text, rest))), rest)
}

/// The pieces of the text inside braces. Before its end the whole text has `size` bytes.
fn verbatim_pieces<'a>(
    alloc: Global,
    size: usize,
    text: &'a str,
) -> Result<Vec<Piece<'a>>, ReadFault<Syntax>>
    ensures { Gives (λ x. (map part_of x.items, [])) result (all_turns (spec.verbatim_at size) (chars text.now)) }
{
    let mut pieces = Vec::new(alloc);
    let mut rest = text;
    'pieces: loop {
        let (piece, after) = next_verbatim(size, rest);
        match piece {
            None => return Ok(pieces),
            Some(piece) => pieces.push(piece)?,
        }
        rest = after;
    }
}

/// The pieces of the braced word that begins here, and what follows its `}`.
#[tactic(auto, unfolding(crate::specs::Words::braced_at))]
pub(crate) fn braced<'a>(
    alloc: Global,
    size: usize,
    text: &'a str,
) -> Result<(Vec<Piece<'a>>, &'a str), ReadFault<Syntax>>
    ensures { Gives (λ x. (map part_of x.0.items, chars x.1.now)) result (spec.braced_at size (chars text.now)) }
{
    let inside = tail(text);
    let close = at_brace(inside)?;
    let pieces = verbatim_pieces(alloc, place(size, close), before(inside, close))?;
    Ok((pieces, tail(close)))
}
