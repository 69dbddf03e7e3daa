//! What stands at the front of a word's text.

ghost use Rattle.std.specs.Prelude.{◌≡◌, false};
ghost use Rattle.std.specs.Str.{chars};
ghost use Rattle.tcl_words.specs.Words as spec;

use crate::blanks::ends_word;
use crate::fault::Syntax;
use tcl_chars::{begins, is_name_char, split_first};

/// The word round a piece.
#[derive(Clone, Copy, Debug, PartialEq, Eq)]
pub(crate) enum Mode {
    /// A bare word. Does it stand inside brackets?
    Bare(bool),
    /// A quoted word.
    Quoted,
    /// The index of an array element.
    Index,
}

/// What stands at the front.
#[derive(Clone, Copy, Debug, PartialEq, Eq)]
pub(crate) enum Kind {
    /// The end of the word.
    Ends,
    /// The end of the text, and the word is open.
    Open,
    Backslashed,
    /// A bracket.
    Opening,
    Variable,
    /// A character that stands for itself.
    Plain,
}

/// What follows the name at the front: letters, digits, underscores and runs of two or more colons. Tcl(n), rule 8.
#[tactic(auto, unfolding(crate::specs::Words::after_name))]
pub(crate) fn after_name(text: &str) -> &str
    ensures { chars result.now ≡ spec.after_name false (chars text.now) }
{
    let mut rest = text;
    let mut in_colons = false;
    while let Some((c, after)) = split_first(rest) {
        if is_name_char(c) {
            in_colons = false;
        } else if c == ':' && (in_colons || begins(':', after)) {
            in_colons = true;
        } else {
            break;
        }
        rest = after;
    }
    rest
}

/// Does what follows `$` make a variable?
pub(crate) fn begins_variable(text: &str) -> bool
    ensures { result ≡ spec.begins_variable (chars text.now) }
{
    match split_first(text) {
        None => false,
        Some((c, rest)) => is_name_char(c)
            || (c == ':' && begins(':', rest))
            || c == '{'
            || c == '(',
    }
}

fn ends_pieces(mode: Mode, text: &str) -> bool
    ensures { result ≡ spec.ends_pieces mode (chars text.now) }
{
    match mode {
        Mode::Bare(nested) => ends_word(nested, text),
        Mode::Quoted => begins('"', text),
        Mode::Index => begins(')', text),
    }
}

/// What stands at the front of the text of a word.
#[tactic(auto, unfolding(crate::specs::Words::kind_of))]
pub(crate) fn kind_of(mode: Mode, text: &str) -> Kind
    ensures { result ≡ spec.kind_of mode (chars text.now) }
{
    let Some((c, rest)) = split_first(text) else {
        return match mode {
            Mode::Bare(_) => Kind::Ends,
            Mode::Quoted | Mode::Index => Kind::Open,
        };
    };
    if ends_pieces(mode, text) {
        Kind::Ends
    } else if c == '\\' {
        Kind::Backslashed
    } else if c == '[' {
        Kind::Opening
    } else if c == '$' && begins_variable(rest) {
        Kind::Variable
    } else {
        Kind::Plain
    }
}

/// What follows the characters at the front that stand for themselves.
#[tactic(auto, unfolding(crate::specs::Words::after_plain))]
pub(crate) fn after_plain(mode: Mode, text: &str) -> &str
    ensures { chars result.now ≡ spec.after_plain mode (chars text.now) }
{
    let mut rest = text;
    while let Some((_, after)) = split_first(rest) {
        match kind_of(mode, rest) {
            Kind::Plain => rest = after,
            _ => break,
        }
    }
    rest
}

/// The fault of a word that the end of the text leaves open.
pub(crate) fn fault_at_end(mode: Mode) -> Syntax
    ensures { result ≡ spec.fault_at_end mode }
{
    match mode {
        Mode::Quoted | Mode::Bare(_) => Syntax::MissingQuote,
        Mode::Index => Syntax::MissingParen,
    }
}
