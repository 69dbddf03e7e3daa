//! Words, brackets and variables as operands of an expression.

ghost use Rattle.std.specs.Prelude.{◌≡◌, ◌≤◌, true, length, drop, IfOk};
ghost use Rattle.std.specs.Str.{chars, IsCharBoundary};
ghost use Rattle.tcl_chars.specs.Reading.{Gives};
ghost use Rattle.tcl_words.specs.First as first;
ghost use Rattle.tcl_words.specs.First.{IsOperand, begins_operand, most_levels};
ghost use Rattle.tcl_words.specs.Parts.{shape_of};
ghost use Rattle.tcl_words.specs.Words as spec;

use crate::braces::braced;
use crate::fault::Syntax;
use crate::front::begins_variable;
use crate::nesting::{Reader, bracket, quoted, variable};
use crate::word::{Form, Operand, Word};
use std::alloc::{AllocError, Global};
use tcl_chars::{ReadFault, begins, place, split_first};

/// Does a braced or a quoted word, a bracket or a variable begin the text?
pub fn begins_operand(text: &str) -> bool
    ensures { result ≡ begins_operand (chars text.now) }
{
    match split_first(text) {
        None => false,
        Some((c, rest)) => {
            c == '{' || c == '"' || c == '[' || (c == '$' && begins_variable(rest))
        }
    }
}

/// The bracket or the variable that begins here, as the one piece of a word.
fn lone_piece(reader: Reader, text: &str) -> Result<(Word<'_>, &str), ReadFault<Syntax>>
    ensures { Gives (λ x. (shape_of x.0, chars x.1.now)) result (spec.lone_at reader.size (spec.inner_at reader.size reader.levels) (chars text.now)) }
{
    let (piece, rest) = if begins('[', text) {
        bracket(reader, text)?
    } else {
        variable(reader, text)?
    };
    let mut pieces = Vec::new(reader.alloc);
    pieces.push(piece)?;
    let word = Word {
        form: Form::Bare,
        expands: false,
        pieces,
    };
    Ok((word, rest))
}

/// The operand that begins here, and what follows it. expr(n), Operands.
#[tactic(auto, unfolding(crate::specs::Words::operand_at))]
fn operand(reader: Reader, text: &str) -> Result<(Word<'_>, &str), ReadFault<Syntax>>
    ensures { Gives (λ x. (shape_of x.0, chars x.1.now)) result (spec.operand_at reader.size (spec.inner_at reader.size reader.levels) (chars text.now)) }
{
    let (form, (pieces, rest)) = if begins('{', text) {
        (Form::Braced, braced(reader.alloc, reader.size, text)?)
    } else if begins('"', text) {
        (Form::Quoted, quoted(reader, text)?)
    } else {
        return lone_piece(reader, text);
    };
    let word = Word {
        form,
        expands: false,
        pieces,
    };
    Ok((word, rest))
}

/// The braced or quoted word, bracket or variable that begins at a place, in bytes, whatever follows it, or its first
/// fault. Brackets and indices stand in one another at most `levels` deep in it. expr(n), Operands.
///
/// # Errors
/// A growth was refused.
pub fn parse_operand(
    alloc: Global,
    text: &str,
    from: usize,
    levels: u32,
) -> Result<Operand<'_>, AllocError>
    requires boundary { IsCharBoundary text.now from }
    requires begins { begins_operand (chars (drop from text.now)) ≡ true }
    requires levels { levels ≤ most_levels }
    ensures { IfOk result (λ o. IsOperand text.now o (first.operand (length text.now) levels (chars (drop from text.now)))) }
{
    let reader = Reader {
        alloc,
        size: text.len(),
        levels,
    };
    match operand(reader, &text[from..]) {
        Ok((word, rest)) => Ok(Operand::Found(word, place(text.len(), rest))),
        Err(ReadFault::Bad(fault)) => Ok(Operand::Bad(fault)),
        Err(ReadFault::Memory) => Err(AllocError),
    }
}
