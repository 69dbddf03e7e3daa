//! Words and their pieces, as they stand in a text.

use crate::fault::Syntax;

/// A stretch of a text: where it begins, in bytes from the text's beginning, and what stands there.
#[derive(Clone, Copy, Debug)]
pub struct Span<'a> {
    /// Bytes before it in the text.
    pub start: usize,
    pub text: &'a str,
}

/// A piece of a word, with the stretch that it takes. Tcl(n), rules 5 to 8.
#[derive(Debug, Drop)]
pub enum Piece<'a> {
    /// Characters that stand for themselves.
    Text(Span<'a>),
    /// A backslash form, and the character that it stands for.
    Escape(Span<'a>, char),
    /// `$name` or `${name}`, and the name.
    Var(Span<'a>, Span<'a>),
    /// `$name(index)`, the name, and the pieces of the index.
    Elem(Span<'a>, Span<'a>, Vec<Piece<'a>>),
    /// `[script]`, and the script.
    Bracket(Span<'a>, Span<'a>),
}

/// How a word is written. Tcl(n), rules 4 and 6.
#[derive(Clone, Copy, Debug, PartialEq, Eq)]
pub enum Form {
    Bare,
    Quoted,
    Braced,
}

/// A word of a command.
#[derive(Debug, Drop)]
pub struct Word<'a> {
    pub form: Form,
    /// Does `{*}` stand in front? Tcl(n), rule 5.
    pub expands: bool,
    pub pieces: Vec<Piece<'a>>,
}

/// The first command of a text.
#[derive(Debug, Drop)]
pub enum Parsed<'a> {
    /// Separators and comments alone, up to this place, in bytes.
    End(usize),
    /// The first fault of the first command.
    Bad(Syntax),
    /// Its words, and the place behind the command, in bytes.
    Command(Vec<Word<'a>>, usize),
}

/// A word, a bracket or a variable that is an operand of an expression.
#[derive(Debug, Drop)]
pub enum Operand<'a> {
    /// Its first fault.
    Bad(Syntax),
    /// The operand as a word, a bracket or a variable as the one piece of a bare one, and the place behind it, in bytes.
    Found(Word<'a>, usize),
}
