//! What is wrong with a command.

ghost use Rattle.std.specs.Prelude.{◌≡◌, Some};
ghost use Rattle.std.specs.Str.{chars};
ghost use Rattle.tcl_words.specs.Syntax.{syntax_text};

use std::fmt;

/// What is wrong with a command: its first fault from the left.
#[derive(Clone, Copy, Debug, PartialEq, Eq)]
pub enum Syntax {
    /// Characters directly behind the brace that closes a word.
    AfterBrace,
    /// Characters directly behind the quote that closes a word.
    AfterQuote,
    /// The text ends in a braced word.
    MissingBrace,
    /// The text ends in a bracket.
    MissingBracket,
    /// The text ends in a quoted word.
    MissingQuote,
    /// The text ends in an array index.
    MissingParen,
    /// The text ends in `${`.
    MissingVariableBrace,
    /// A bracket or an array index opens inside as many as may nest.
    TooDeep,
}

impl Syntax {
    fn words(self) -> &'static str
        ensures { result.now ≡ syntax_text self }
    {
        match self {
            Syntax::AfterBrace => "extra characters after close-brace",
            Syntax::AfterQuote => "extra characters after close-quote",
            Syntax::MissingBrace => "missing close-brace",
            Syntax::MissingBracket => "missing close-bracket",
            Syntax::MissingQuote => "missing \"",
            Syntax::MissingParen => "missing )",
            Syntax::MissingVariableBrace => "missing close-brace for variable name",
            Syntax::TooDeep => "nesting too deep",
        }
    }

    /// What the fault says, as the script's error.
    pub fn text(self) -> &'static str
        ensures text { chars result.now ≡ syntax_text self }
        ensures bytes { result.now ≡ syntax_text self }
    {
        self.words()
    }
}

impl fmt::Display for Syntax {
    ghost output = { λ fault. Some (syntax_text fault) };

    fn fmt<W: fmt::Write>(&self, f: &mut fmt::Formatter<W>) -> fmt::Result {
        f.write_str(self.text())
    }
}
