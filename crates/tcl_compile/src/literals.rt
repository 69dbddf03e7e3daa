//! Words that are literal.

ghost use Rattle.std.specs.Prelude.{◌≡◌, ◌∷◌, [], true, IfOk, IfSome, IsSome, List, Some, ℕ, map, option_map};
ghost use Rattle.std.specs.Str.{chars};
ghost use Rattle.std.specs.String.{string_bytes};
ghost use Rattle.tcl_words.specs.Parts.{Stretch, part_of, shape_of, text};
ghost use Rattle.tcl_compile.specs.Literals as literals;
ghost use Rattle.tcl_compile.specs.Literals.{AllLiteral, IsLiteral, IsStretch, text_of};

use std::alloc::{AllocError, Global};
use tcl_chars::{is_text, push, push_text};
use tcl_words::{Piece, Word};

/// The text of a literal word.
#[derive(Drop)]
pub(crate) enum Literal<'a> {
    /// One stretch of characters that stand for themselves, or nothing.
    Span(&'a str),
    /// Such stretches and escapes.
    Spelled(String),
}

impl Literal<'_> {
    pub(crate) fn as_str(&self) -> &str
        ensures { chars result.now ≡ text_of self.now }
    {
        match self {
            Literal::Span(text) => *text,
            Literal::Spelled(text) => text.as_str(),
        }
    }
}

// The characters of a piece that stand for themselves.
fn verbatim<'a>(piece: &Piece<'a>) -> Option<&'a str>
    ensures text { IfSome result (λ t. literals.spelled (part_of piece.now ∷ []) ≡ Some (chars t.now)) }
    ensures each { (s : Stretch) → part_of piece.now ≡ text s → IsSome result }
{
    match piece {
        Piece::Text(span) => Some(span.text),
        Piece::Escape(_, _) | Piece::Var(_, _) | Piece::Elem(_, _, _) | Piece::Bracket(_, _) =>
            None,
    }
}

// The text of a word that is one stretch of characters that stand for themselves, or nothing.
pub(crate) fn stretch<'a>(word: &Word<'a>) -> Option<&'a str>
    ensures literal { IfSome result (λ t. IsLiteral (shape_of word.now) (chars t.now)) }
    ensures one { IsStretch (shape_of word.now) → IsSome result }
{
    if word.expands {
        return None;
    }
    match word.pieces.len() {
        0 => Some(""),
        1 => verbatim(&word.pieces[0]),
        _ => None,
    }
}

// Is a word this stretch of characters?
pub(crate) fn is_stretch(word: &Word<'_>, text: &str) -> bool
    ensures { result ≡ true → IsLiteral (shape_of word.now) (chars text.now) }
{
    match stretch(word) {
        Some(found) => is_text(found, text),
        None => false,
    }
}

// The text of pieces that all stand for characters.
fn spelled(alloc: Global, pieces: &[Piece<'_>]) -> Result<Option<String>, AllocError>
    ensures { IfOk result (λ text. option_map (λ t. chars (string_bytes t)) text ≡ literals.spelled (map part_of pieces.now)) }
{
    let mut text = String::new(alloc);
    'pieces: for piece in pieces {
        match piece {
            Piece::Text(span) => push_text(&mut text, span.text)?,
            Piece::Escape(_, c) => push(&mut text, *c)?,
            Piece::Var(_, _) | Piece::Elem(_, _, _) | Piece::Bracket(_, _) => return Ok(None),
        }
    }
    Ok(Some(text))
}

// The text of a word that is literal.
pub(crate) fn literal_of<'a>(
    alloc: Global,
    word: &Word<'a>,
) -> Result<Option<Literal<'a>>, AllocError>
    ensures literal { IfOk result (λ found. IfSome found (λ l. IsLiteral (shape_of word.now) (text_of l))) }
    ensures each { IfOk result (λ found. (t : List ℕ) → IsLiteral (shape_of word.now) t → IsSome found) }
{
    if let Some(text) = stretch(word) {
        return Ok(Some(Literal::Span(text)));
    }
    if word.expands {
        return Ok(None);
    }
    match spelled(alloc, word.pieces.as_slice())? {
        Some(text) => Ok(Some(Literal::Spelled(text))),
        None => Ok(None),
    }
}

// The texts of words that are all literal.
pub(crate) fn literals<'a>(
    alloc: Global,
    words: &[Word<'a>],
) -> Result<Option<Vec<Literal<'a>>>, AllocError>
    ensures literal { IfOk result (λ found. IfSome found (λ ls. AllLiteral (map shape_of words.now) (map text_of ls.items))) }
    ensures each { IfOk result (λ found. (ts : List (List ℕ)) → AllLiteral (map shape_of words.now) ts → IsSome found) }
{
    let mut found = Vec::new(alloc);
    'words: for word in words {
        match literal_of(alloc, word)? {
            Some(text) => found.push(text)?,
            None => return Ok(None),
        }
    }
    Ok(Some(found))
}

// The texts of literals, borrowed from them.
pub(crate) fn views<'b>(
    alloc: Global,
    literals: &'b [Literal<'_>],
) -> Result<Vec<&'b str>, AllocError>
    ensures { IfOk result (λ texts. map (λ t. chars t.now) texts.items ≡ map text_of literals.now) }
{
    let mut texts = Vec::new(alloc);
    'literals: for literal in literals {
        texts.push(literal.as_str())?;
    }
    Ok(texts)
}
