//! The runs of letters and digits. expr(n), Operands.

ghost use Rattle.std.specs.Prelude.{◌≡◌};
ghost use Rattle.std.specs.Str.{chars};
ghost use Rattle.tcl_chars.specs.Place.{EndsWith};
ghost use Rattle.tcl_chars.specs.Truth.{truth_of};
ghost use Rattle.tcl_expr.specs.Tokens as spec;
ghost use Rattle.tcl_words.specs.Parts.{stretch_of};
ghost use Rattle.tcl_words.specs.Words.{stretch};

use crate::token::{BinaryOp, Function};
use tcl_chars::{
    Dialect, Truth, before, begins, is_name_char, is_text, place, read_truth, split_first, tail,
};
use tcl_words::Span;

fn is_run_char(c: char) -> bool
    ensures { result ≡ spec.is_run_char c }
{
    is_name_char(c) || c == '.'
}

/// Does a run stand in front?
pub(crate) fn begins_run(text: &str) -> bool
    ensures { result ≡ spec.begins_run (chars text.now) }
{
    match split_first(text) {
        Some((c, _)) => is_run_char(c),
        None => false,
    }
}

/// What follows the run that stands in front.
#[tactic(auto, unfolding(crate::specs::Tokens::after_run))]
pub(crate) fn after_run(text: &str) -> &str
    ensures { chars result.now ≡ spec.after_run (chars text.now) }
{
    let mut rest = text;
    while let Some((c, after)) = split_first(rest) {
        if !is_run_char(c) {
            return rest;
        }
        rest = after;
    }
    rest
}

fn begins_digit(text: &str) -> bool
    ensures { result ≡ spec.begins_digit (chars text.now) }
{
    match split_first(text) {
        Some((c, _)) => c.is_ascii_digit(),
        None => false,
    }
}

/// Does a letter stand in front?
pub(crate) fn begins_letter(text: &str) -> bool
    ensures { result ≡ spec.begins_letter (chars text.now) }
{
    match split_first(text) {
        Some((c, _)) => matches!(c, 'A'..='Z' | 'a'..='z'),
        None => false,
    }
}

/// Does a minus stand in front, and a digit directly behind it?
pub(crate) fn begins_signed(text: &str) -> bool
    ensures { result ≡ spec.begins_signed (chars text.now) }
{
    begins('-', text) && begins_digit(tail(text))
}

/// What stands between two places of a text of `size` bytes.
pub(crate) fn span<'a>(size: usize, from: &'a str, to: &str) -> Span<'a>
    requires { EndsWith (chars from.now) (chars to.now) }
    ensures { stretch_of result ≡ stretch size (chars from.now) (chars to.now) }
{
    Span {
        start: place(size, from),
        text: before(from, to),
    }
}

/// Is the run an operand: a number, one too large too, or a truth word?
pub(crate) fn says_something(run: &str, dialect: Dialect) -> bool
    ensures { result ≡ spec.says_something (truth_of dialect (chars run.now)) }
{
    match read_truth(run, dialect) {
        Truth::Yes | Truth::No | Truth::TooLarge => true,
        Truth::Not => false,
    }
}

/// The function of a name.
#[tactic(auto, using(tcl_chars::proofs::Literals::literal_chars))]
pub(crate) fn function_of(name: &str) -> Option<Function>
    ensures { result ≡ spec.function_of (chars name.now) }
{
    if is_text(name, "abs") {
        Some(Function::Abs)
    } else if is_text(name, "bool") {
        Some(Function::Bool)
    } else if is_text(name, "int") {
        Some(Function::Int)
    } else if is_text(name, "wide") {
        Some(Function::Wide)
    } else if is_text(name, "max") {
        Some(Function::Max)
    } else if is_text(name, "min") {
        Some(Function::Min)
    } else {
        None
    }
}

/// The operator that a run is.
#[tactic(auto, using(tcl_chars::proofs::Literals::literal_chars))]
pub(crate) fn word_operator(run: &str) -> Option<BinaryOp>
    ensures { result ≡ spec.word_operator (chars run.now) }
{
    if is_text(run, "eq") {
        Some(BinaryOp::TextEqual)
    } else if is_text(run, "ne") {
        Some(BinaryOp::TextNotEqual)
    } else if is_text(run, "in") {
        Some(BinaryOp::In)
    } else if is_text(run, "ni") {
        Some(BinaryOp::NotIn)
    } else {
        None
    }
}
