//! The first command of a text.

ghost use Rattle.std.specs.Prelude.{◌≡◌, ◌≤◌, length, drop, IfOk};
ghost use Rattle.std.specs.Str.{chars, IsCharBoundary};
ghost use Rattle.tcl_chars.specs.Place.{EndsWith};
ghost use Rattle.tcl_words.specs.First as spec;
ghost use Rattle.tcl_words.specs.First.{IsParsed, most_levels, first_command};

use crate::nesting::{Reader, first};
use crate::word::Parsed;
use std::alloc::{AllocError, Global};
use tcl_chars::{ReadFault, place};

/// The first command of what is left of a text.
fn parse<'a>(
    reader: Reader,
    nested: bool,
    text: &'a str,
    rest: &'a str,
) -> Result<Parsed<'a>, AllocError>
    requires size { reader.size ≡ length text.now }
    requires ends { EndsWith (chars text.now) (chars rest.now) }
    ensures { IfOk result (λ p. IsParsed text.now p (spec.first reader.size reader.levels nested (chars rest.now))) }
{
    match first(reader, nested, rest) {
        Ok((words, after)) => {
            let end = place(text.len(), after);
            match words {
                Some(words) => Ok(Parsed::Command(words, end)),
                None => Ok(Parsed::End(end)),
            }
        }
        Err(ReadFault::Bad(fault)) => Ok(Parsed::Bad(fault)),
        Err(ReadFault::Memory) => Err(AllocError),
    }
}

/// The first command of a whole text, in which brackets and indices stand in one another at most `levels` deep.
pub fn parse_first(alloc: Global, text: &str, levels: u32) -> Result<Parsed<'_>, AllocError>
    requires { levels ≤ most_levels }
    ensures { IfOk result (λ p. IsParsed text.now p (first_command levels (chars text.now))) }
{
    let reader = Reader {
        alloc,
        size: text.len(),
        levels,
    };
    parse(reader, false, text, text)
}

/// The first command from a place on, in bytes: its words, or its first fault, or that separators and comments
/// alone are left. Inside brackets an unquoted `]` ends it. Every place and stretch counts from the text's beginning.
/// Tcl(n), rules 1 to 12.
///
/// # Errors
/// A growth was refused.
pub fn parse_command(
    alloc: Global,
    text: &str,
    from: usize,
    nested: bool,
) -> Result<Parsed<'_>, AllocError>
    requires { IsCharBoundary text.now from }
    ensures { IfOk result (λ p. IsParsed text.now p (spec.first (length text.now) most_levels nested (chars (drop from text.now)))) }
{
    let reader = Reader {
        alloc,
        size: text.len(),
        levels: 200,
    };
    parse(reader, nested, text, &text[from..])
}
