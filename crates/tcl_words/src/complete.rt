//! Whether a text waits for more.

ghost use Rattle.std.specs.Prelude.{◌≡◌, false, IfOk};
ghost use Rattle.std.specs.Str.{chars};
ghost use Rattle.tcl_words.specs.Complete as spec;

use crate::fault::Syntax;
use crate::nesting::{Reader, after_commands};
use std::alloc::{AllocError, Global};
use tcl_chars::{ReadFault, split_first};

/// Does the text end in a newline behind an odd run of backslashes?
#[tactic(auto, unfolding(crate::specs::Complete::ends_hidden))]
fn ends_hidden(text: &str) -> bool
    ensures { result ≡ spec.ends_hidden false false (chars text.now) }
{
    let mut rest = text;
    let mut odd = false;
    let mut hidden = false;
    while let Some((c, after)) = split_first(rest) {
        hidden = odd && c == '\n';
        odd = c == '\\' && !odd;
        rest = after;
    }
    hidden
}

/// Is the fault that the text ends too early?
fn is_open(fault: Syntax) -> bool
    ensures { result ≡ spec.is_open fault }
{
    match fault {
        Syntax::MissingBrace
        | Syntax::MissingBracket
        | Syntax::MissingQuote
        | Syntax::MissingParen
        | Syntax::MissingVariableBrace => true,
        Syntax::AfterBrace | Syntax::AfterQuote | Syntax::TooDeep => false,
    }
}

/// Is the text whole commands, so that nothing more is waited for? It waits where it ends in a newline that a
/// backslash hides, and where its first faulty command is open at its end. info(n), complete.
///
/// # Errors
/// A growth was refused.
pub fn is_complete(alloc: Global, text: &str) -> Result<bool, AllocError>
    ensures { IfOk result (λ b. b ≡ spec.is_complete (chars text.now)) }
{
    if ends_hidden(text) {
        return Ok(false);
    }
    let reader = Reader {
        alloc,
        size: text.len(),
        levels: 200,
    };
    match after_commands(reader, false, text) {
        Ok(_) => Ok(true),
        Err(ReadFault::Bad(fault)) => Ok(!is_open(fault)),
        Err(ReadFault::Memory) => Err(AllocError),
    }
}
