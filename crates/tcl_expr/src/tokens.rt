//! The tokens of a text, read from the left. expr(n), Operands and Operators.

ghost use Rattle.std.specs.Prelude.{◌≡◌, ◌≤◌, length, option_map, IfOk, IsTrue};
ghost use Rattle.std.specs.Str.{chars};
ghost use Rattle.tcl_chars.specs.Place.{EndsWith, IsFirst};
ghost use Rattle.tcl_expr.specs.Tokens as spec;
ghost use Rattle.tcl_expr.specs.View.{token_of};
ghost use Rattle.tcl_words.specs.First.{begins_operand, most_levels, operand};

use crate::operators::{prefix, symbol};
use crate::runs::{
    after_run, begins_letter, begins_run, begins_signed, function_of, says_something, span,
    word_operator,
};
use crate::token::{Leaf, Symbol, Token};
use std::alloc::{AllocError, Global};
use tcl_chars::{Dialect, before, begins, place, skip_space, split_first, tail};
use tcl_words::{Operand, begins_operand, parse_operand};

/// The token that a run is, and what follows it.
fn run_token<'a>(
    size: usize,
    here: &'a str,
    rest: &'a str,
    dialect: Dialect,
) -> (Token<'a>, &'a str)
    requires { EndsWith (chars here.now) (chars rest.now) }
    ensures token { token_of result.0 ≡ (spec.run_token dialect size (chars here.now) (chars rest.now)).0 }
    ensures rest { chars result.1.now ≡ (spec.run_token dialect size (chars here.now) (chars rest.now)).1 }
{
    let run = span(size, here, rest);
    let behind = skip_space(rest);
    if begins_letter(here) && begins('(', behind) {
        return match function_of(run.text) {
            Some(function) => (Token::Call(function, run), tail(behind)),
            None => (Token::UnknownCall(run), tail(behind)),
        };
    }
    if says_something(run.text, dialect) {
        return (Token::Operand(Leaf::Literal(run)), rest);
    }
    (Token::Bareword(run), rest)
}

/// The operand that is a word, a bracket or a variable, and what follows it.
fn word_token<'a>(
    alloc: Global,
    text: &'a str,
    here: &'a str,
    levels: u32,
) -> Result<(Token<'a>, &'a str), AllocError>
    requires begins { IsTrue (begins_operand (chars here.now)) }
    requires ends { EndsWith (chars text.now) (chars here.now) }
    requires few { levels ≤ most_levels }
    ensures token { IfOk result (λ p. token_of p.0 ≡ (spec.word_token (operand (length text.now) levels (chars here.now))).0) }
    ensures rest { IfOk result (λ p. chars p.1.now ≡ (spec.word_token (operand (length text.now) levels (chars here.now))).1) }
{
    let from = place(text.len(), here);
    match parse_operand(alloc, text, from, levels)? {
        Operand::Found(word, at) => Ok((Token::Operand(Leaf::Word(word)), &text[at..])),
        Operand::Bad(fault) => Ok((Token::Malformed(fault), "")),
    }
}

/// The token that begins with a character that begins no operand, and what follows it.
fn mark_token<'a>(size: usize, c: char, here: &'a str, behind: &'a str) -> (Token<'a>, &'a str)
    requires { IsFirst here.now c behind.now }
    ensures token { token_of result.0 ≡ (spec.or_symbol (spec.prefix c (chars behind.now)) size c (chars behind.now)).0 }
    ensures rest { chars result.1.now ≡ (spec.or_symbol (spec.prefix c (chars behind.now)) size c (chars behind.now)).1 }
{
    if let Some(op) = prefix(c, behind) {
        return (Token::Unary(op), behind);
    }
    match symbol(here) {
        Some((symbol, rest)) => (Token::Symbol(symbol), rest),
        None => (Token::Bareword(span(size, here, behind)), behind),
    }
}

/// The token in front where an operand is wanted, and what follows it.
#[tactic(auto, unfolding(crate::specs::Tokens::operand_token))]
fn operand_token<'a>(
    alloc: Global,
    text: &'a str,
    here: &'a str,
    levels: u32,
    dialect: Dialect,
) -> Result<Option<(Token<'a>, &'a str)>, AllocError>
    requires ends { EndsWith (chars text.now) (chars here.now) }
    requires few { levels ≤ most_levels }
    ensures { IfOk result (λ r. option_map (λ p. (token_of p.0, chars p.1.now)) r ≡ spec.operand_token dialect (length text.now) levels (chars here.now)) }
{
    let Some((c, behind)) = split_first(here) else {
        return Ok(None);
    };
    let size = text.len();
    if begins_signed(here) {
        return Ok(Some(run_token(size, here, after_run(behind), dialect)));
    }
    if begins_run(here) {
        return Ok(Some(run_token(size, here, after_run(here), dialect)));
    }
    if begins_operand(here) {
        let found = word_token(alloc, text, here, levels)?;
        return Ok(Some(found));
    }
    if c == '(' {
        return Ok(Some((Token::Open, behind)));
    }
    Ok(Some(mark_token(size, c, here, behind)))
}

/// The token in front where an operator is wanted, and what follows it.
#[tactic(auto, unfolding(crate::specs::Tokens::operator_token))]
fn operator_token<'a>(here: &'a str) -> Option<(Token<'a>, &'a str)>
    ensures { option_map (λ p. (token_of p.0, chars p.1.now)) result ≡ spec.operator_token (chars here.now) }
{
    let (_, behind) = split_first(here)?;
    if begins_run(here) {
        let rest = after_run(here);
        return match word_operator(before(here, rest)) {
            Some(op) => Some((Token::Symbol(Symbol::Binary(op)), rest)),
            None => Some((Token::Stray, rest)),
        };
    }
    match symbol(here) {
        Some((symbol, rest)) => Some((Token::Symbol(symbol), rest)),
        None => Some((Token::Stray, behind)),
    }
}

/// The next token of what is left of a text, and what follows it, or none where only white space is left. An operand
/// is read where brackets and indices may stand in one another `levels` deep.
#[tactic(auto, unfolding(crate::specs::Tokens::next_token))]
pub(crate) fn next_token<'a>(
    alloc: Global,
    text: &'a str,
    left: &'a str,
    wants: bool,
    levels: u32,
    dialect: Dialect,
) -> Result<Option<(Token<'a>, &'a str)>, AllocError>
    requires ends { EndsWith (chars text.now) (chars left.now) }
    requires few { levels ≤ most_levels }
    ensures { IfOk result (λ r. option_map (λ p. (token_of p.0, chars p.1.now)) r ≡ spec.next_token dialect (length text.now) wants levels (chars left.now)) }
{
    let here = skip_space(left);
    if wants {
        operand_token(alloc, text, here, levels, dialect)
    } else {
        Ok(operator_token(here))
    }
}
