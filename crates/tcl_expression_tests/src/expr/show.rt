//! A parse beside what is expected of it: the tree is written with parentheses round each operator, a Tcl expression of the same
//! value, and what is written is taken off the front of the expected text.

use std::alloc::{AllocError, Global};
use std::rc::RcStr;
use tcl_chars::Dialect;
use tcl_expr::{BinaryOp, ExprSyntax, Leaf, Tree, parse_expr};
use tcl_words::{Form, Piece, Word};

/// What stands behind this text, where the text stands in front.
fn past<'a>(rest: Option<&'a str>, text: &str) -> Option<&'a str> {
    match rest {
        Some(rest) => rest.strip_prefix(text),
        None => None,
    }
}

fn spelled<'a>(piece: &Piece<'a>) -> &'a str {
    match piece {
        Piece::Text(span)
        | Piece::Escape(span, _)
        | Piece::Var(span, _)
        | Piece::Elem(span, _, _)
        | Piece::Bracket(span, _) => span.text,
    }
}

fn past_word<'a>(rest: Option<&'a str>, word: &Word<'_>) -> Option<&'a str> {
    let (open, close) = match word.form {
        Form::Bare => ("", ""),
        Form::Quoted => ("\"", "\""),
        Form::Braced => ("{", "}"),
    };
    let mut rest = past(rest, open);
    for piece in &word.pieces {
        rest = past(rest, spelled(piece));
    }
    past(rest, close)
}

fn past_open(rest: Option<&str>, times: usize) -> Option<&str> {
    let mut rest = rest;
    for _ in 0..times {
        rest = past(rest, "(");
    }
    rest
}

/// A tree between two texts.
#[cycle(past)]
fn past_between<'a>(
    rest: Option<&'a str>,
    front: &str,
    tree: &Tree<'_>,
    back: &str,
) -> Option<&'a str> {
    past(past_tree(past(rest, front), tree), back)
}

#[cycle(past)]
fn past_arguments<'a>(rest: Option<&'a str>, arguments: &[Tree<'_>]) -> Option<&'a str> {
    let mut rest = past(rest, "(");
    for (place, argument) in arguments.iter().enumerate() {
        let front = if place > 0 { ", " } else { "" };
        rest = past_between(rest, front, argument, "");
    }
    past(rest, ")")
}

/// The parts of a chain behind its first.
#[cycle(past)]
fn past_parts<'a>(rest: Option<&'a str>, parts: &[(BinaryOp, Tree<'_>)]) -> Option<&'a str> {
    let mut rest = rest;
    for (operator, part) in parts {
        rest = past(past(rest, " "), operator.text());
        rest = past_between(rest, " ", part, ")");
    }
    rest
}

#[cycle(past)]
fn past_tree<'a>(rest: Option<&'a str>, tree: &Tree<'_>) -> Option<&'a str> {
    match tree {
        Tree::Operand(Leaf::Literal(span)) => past(rest, span.text),
        Tree::Operand(Leaf::Word(word)) => past_word(rest, word),
        Tree::Group(x) => past_between(rest, "(", x, ")"),
        Tree::Call(_, name, arguments) => past_arguments(past(rest, name.text), arguments),
        Tree::Unary(operator, x) => {
            past_between(past(past(rest, "("), operator.text()), " ", x, ")")
        }
        Tree::Power(x, y) => past_between(past_between(rest, "(", x, " ** "), "", y, ")"),
        Tree::Chain(_, first, parts) => {
            past_parts(past_tree(past_open(rest, parts.len()), first), parts)
        }
        Tree::Choice(x, y, z) => {
            let rest = past_between(rest, "(", x, " ? ");
            past_between(past_between(rest, "", y, " : "), "", z, ")")
        }
    }
}

fn says(message: Result<RcStr, AllocError>, want: &str) -> bool {
    match message {
        Ok(message) => message.as_str() == want,
        Err(_) => false,
    }
}

fn fits(alloc: Global, parsed: &Result<Tree<'_>, ExprSyntax<'_>>, want: &str) -> bool {
    match parsed {
        Ok(tree) => matches!(past_tree(Some(want), tree), Some("")),
        Err(fault) => says(fault.message(alloc), want),
    }
}

/// Is this the tree of a text, or what its fault says?
pub(super) fn parses(alloc: Global, text: &str, want: &str) -> bool {
    match parse_expr(alloc, text, Dialect::Tcl86) {
        Ok(parsed) => fits(alloc, &parsed, want),
        Err(_) => false,
    }
}

/// Does a text that was made parse as this?
pub(super) fn made_parses(alloc: Global, text: Result<String, AllocError>, want: &str) -> bool {
    match text {
        Ok(text) => parses(alloc, &text, want),
        Err(_) => false,
    }
}

/// The first row whose text is parsed otherwise.
pub(super) fn wrong(alloc: Global, rows: &[(&'static str, &'static str)]) -> Option<&'static str> {
    for row in rows {
        if !parses(alloc, row.0, row.1) {
            return Some(row.0);
        }
    }
    None
}

/// The first text that is parsed otherwise.
pub(super) fn other(alloc: Global, texts: &[&'static str], want: &str) -> Option<&'static str> {
    for text in texts {
        if !parses(alloc, text, want) {
            return Some(text);
        }
    }
    None
}

fn parts(parsed: &Result<Tree<'_>, ExprSyntax<'_>>) -> usize {
    match parsed {
        Ok(Tree::Chain(_, _, parts)) => parts.len(),
        Ok(Tree::Call(_, _, arguments)) => arguments.len(),
        Ok(_) => 1,
        Err(_) => 0,
    }
}

/// The parts behind the first of a chain, the arguments of a call, one of another tree, and none where there is no tree.
pub(super) fn counted(alloc: Global, text: Result<String, AllocError>) -> Option<usize> {
    match text {
        Ok(text) => match parse_expr(alloc, &text, Dialect::Tcl86) {
            Ok(parsed) => Some(parts(&parsed)),
            Err(_) => None,
        },
        Err(_) => None,
    }
}

fn named(parsed: &Result<Tree<'_>, ExprSyntax<'_>>) -> Option<(usize, usize)> {
    match parsed {
        Err(
            ExprSyntax::BareWord(x)
            | ExprSyntax::UnknownFunction(x)
            | ExprSyntax::ArgumentCount(x, _),
        ) => Some((x.start, x.start.saturating_add(x.text.len()))),
        _ => None,
    }
}

/// Where the text stands that the fault of a text names, in bytes, and its end.
pub(super) fn place(alloc: Global, text: &str) -> Option<(usize, usize)> {
    match parse_expr(alloc, text, Dialect::Tcl86) {
        Ok(parsed) => named(&parsed),
        Err(_) => None,
    }
}
