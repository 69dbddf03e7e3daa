//! Operators and marks that are no runs. expr(n), Operators.

ghost use Rattle.std.specs.Prelude.{◌≡◌, option_map};
ghost use Rattle.std.specs.Str.{chars};
ghost use Rattle.tcl_expr.specs.Tokens as spec;

use crate::token::{BinaryOp, Symbol, UnaryOp};
use tcl_chars::{begins, split_first};

/// The operator that two characters are.
fn double(c: char, d: char) -> Option<Symbol>
    ensures { result ≡ spec.two c d }
{
    match (c, d) {
        ('*', '*') => Some(Symbol::Power),
        ('<', '<') => Some(Symbol::Binary(BinaryOp::ShiftLeft)),
        ('>', '>') => Some(Symbol::Binary(BinaryOp::ShiftRight)),
        ('<', '=') => Some(Symbol::Binary(BinaryOp::LessEqual)),
        ('>', '=') => Some(Symbol::Binary(BinaryOp::GreaterEqual)),
        ('=', '=') => Some(Symbol::Binary(BinaryOp::Equal)),
        ('!', '=') => Some(Symbol::Binary(BinaryOp::NotEqual)),
        ('&', '&') => Some(Symbol::Binary(BinaryOp::And)),
        ('|', '|') => Some(Symbol::Binary(BinaryOp::Or)),
        _ => None,
    }
}

/// The operator or the mark that one character is.
fn single(c: char) -> Option<Symbol>
    ensures { result ≡ spec.one c }
{
    match c {
        '*' => Some(Symbol::Binary(BinaryOp::Times)),
        '/' => Some(Symbol::Binary(BinaryOp::Divide)),
        '%' => Some(Symbol::Binary(BinaryOp::Remainder)),
        '+' => Some(Symbol::Binary(BinaryOp::Add)),
        '-' => Some(Symbol::Binary(BinaryOp::Subtract)),
        '<' => Some(Symbol::Binary(BinaryOp::Less)),
        '>' => Some(Symbol::Binary(BinaryOp::Greater)),
        '&' => Some(Symbol::Binary(BinaryOp::BitAnd)),
        '^' => Some(Symbol::Binary(BinaryOp::BitXor)),
        '|' => Some(Symbol::Binary(BinaryOp::BitOr)),
        '?' => Some(Symbol::Question),
        ':' => Some(Symbol::Colon),
        ',' => Some(Symbol::Comma),
        ')' => Some(Symbol::Close),
        _ => None,
    }
}

/// The longest operator or mark that stands in front, and what follows it.
pub(crate) fn symbol(text: &str) -> Option<(Symbol, &str)>
    ensures { option_map (λ p. (p.0, chars p.1.now)) result ≡ spec.symbol_at (chars text.now) }
{
    let (c, behind) = split_first(text)?;
    if let Some((d, rest)) = split_first(behind) {
        if let Some(symbol) = double(c, d) {
            return Some((symbol, rest));
        }
    }
    let symbol = single(c)?;
    Some((symbol, behind))
}

/// The unary operator that a character is, before the rest of the text.
pub(crate) fn prefix(c: char, rest: &str) -> Option<UnaryOp>
    ensures { result ≡ spec.prefix c (chars rest.now) }
{
    match c {
        '-' => Some(UnaryOp::Minus),
        '+' => Some(UnaryOp::Plus),
        '~' => Some(UnaryOp::Flip),
        '!' => {
            if begins('=', rest) {
                None
            } else {
                Some(UnaryOp::Not)
            }
        }
        _ => None,
    }
}
