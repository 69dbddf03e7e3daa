//! Parses as texts.
use std::alloc::{AllocError, Global};
use tcl_words::{Form, Operand, Parsed, Piece, Span, Word, parse_first};

/// A stretch, as its place and its text.
fn add_span(out: &mut String, span: &Span<'_>) -> Result<(), AllocError> {
    write!(out, "{}:{}", span.start, span.text)
}

/// A stretch and what stands in it.
fn add_pair(out: &mut String, span: &Span<'_>, inner: &Span<'_>) -> Result<(), AllocError> {
    add_span(out, span)?;
    out.push('=')?;
    add_span(out, inner)
}

/// A piece: a text as it stands, an escape with its character, a variable with its name, an element with its name and
/// its index, a bracket with its script.
fn add_piece(out: &mut String, piece: &Piece<'_>) -> Result<(), AllocError> {
    match piece {
        Piece::Text(span) => add_span(out, span),
        Piece::Escape(span, meant) => {
            add_span(out, span)?;
            write!(out, "={:x}", u32::from(*meant))
        }
        Piece::Var(span, inner) | Piece::Bracket(span, inner) => add_pair(out, span, inner),
        Piece::Elem(span, name, index) => {
            add_pair(out, span, name)?;
            write!(out, "{index:?}")
        }
    }
}

/// A word: `*` where it is expanded, and its pieces in `<>`, `""` or `{}` by its form.
pub(crate) fn add_word(out: &mut String, word: &Word<'_>) -> Result<(), AllocError> {
    if word.expands {
        out.push('*')?;
    }
    let (open, close) = match word.form {
        Form::Bare => ('<', '>'),
        Form::Quoted => ('"', '"'),
        Form::Braced => ('{', '}'),
    };
    out.push(open)?;
    for (place, piece) in word.pieces.iter().enumerate() {
        if place > 0 {
            out.push('|')?;
        }
        add_piece(out, piece)?;
    }
    out.push(close)
}

/// A command's words, each with a space behind it.
fn add_words(out: &mut String, words: &[Word<'_>]) -> Result<(), AllocError> {
    for word in words {
        add_word(out, word)?;
        out.push(' ')?;
    }
    Ok(())
}

fn add_parsed(out: &mut String, parsed: &Parsed<'_>) -> Result<(), AllocError> {
    match parsed {
        Parsed::End(at) => write!(out, "End {at}"),
        Parsed::Bad(fault) => write!(out, "{fault}"),
        Parsed::Command(words, at) => {
            add_words(out, words)?;
            write!(out, "{at}")
        }
    }
}

pub(crate) fn shown(alloc: Global, parsed: &Parsed<'_>) -> Result<String, AllocError> {
    let mut out = String::new(alloc);
    add_parsed(&mut out, parsed)?;
    Ok(out)
}

/// The first command of a text.
pub(crate) fn first(alloc: Global, text: &str) -> Result<String, AllocError> {
    let parsed = parse_first(alloc, text, 200)?;
    shown(alloc, &parsed)
}

fn add_operand(out: &mut String, operand: &Operand<'_>) -> Result<(), AllocError> {
    match operand {
        Operand::Bad(fault) => write!(out, "{fault}"),
        Operand::Found(word, at) => {
            add_word(out, word)?;
            write!(out, " {at}")
        }
    }
}

pub(crate) fn operand_shown(alloc: Global, operand: &Operand<'_>) -> Result<String, AllocError> {
    let mut out = String::new(alloc);
    add_operand(&mut out, operand)?;
    Ok(out)
}
