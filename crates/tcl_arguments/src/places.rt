//! Places that words say: string(n), lindex(n).

ghost use Rattle.std.specs.Prelude.{◌≡◌, ◌<◌, ◌+ℤ◌, pos, length};
ghost use Rattle.std.specs.Str.{chars};
ghost use Rattle.tcl_arguments.specs.WordAt.{word};
ghost use Rattle.tcl_chars.specs.Answers.{Answers};
ghost use Rattle.tcl_chars.specs.Index.{clamp};
ghost use Rattle.tcl_chars.specs.Messages.{position};
ghost use Rattle.tcl_pages.specs.Lists as spec;

use std::alloc::Global;
use tcl_chars::{Dialect, Fault, Position, expect_position, place_of};
use tcl_values::Value;

/// The position that a word names. One that is known as a number isn't read as a text.
///
/// # Errors
///
/// `Fault::Error` where the word is no index, `Fault::Memory`.
#[tactic(auto, using(crate::proofs::Positions::position_of_number))]
fn position_of(alloc: Global, word: &Value, dialect: Dialect) -> Result<Position, Fault>
    ensures { Answers (λ p. p) result (position dialect word.now) }
{
    if let Some(number) = word.known_number(dialect) {
        return Ok(Position::Start(number, 0));
    }
    let text = word.spelled(alloc)?;
    expect_position(alloc, text.as_str(), dialect)
}

/// The position that the word at a place names.
///
/// # Errors
///
/// `Fault::Error` where the word is no index, `Fault::Memory`.
pub fn position_at(
    alloc: Global,
    words: &mut [Value],
    place: usize,
    dialect: Dialect,
) -> Result<Position, Fault>
    requires { place < length words.old }
    ensures position { Answers (λ p. p) result (position dialect (word words.old place)) }
    ensures same { words.new ≡ words.old }
{
    position_of(alloc, &words[place], dialect)
}

/// The place among `count` elements or characters that a text says.
///
/// # Errors
///
/// `Fault::Error` where the text is no index, `Fault::Memory`.
pub fn index_of(alloc: Global, text: &str, count: usize, dialect: Dialect) -> Result<i128, Fault>
    ensures { Answers (λ z. z) result (spec.index dialect (chars text.now) count) }
{
    let position = expect_position(alloc, text, dialect)?;
    Ok(place_of(position, count))
}

/// The place among `count` elements or characters that a word says. One that is known as a number isn't read as a text.
///
/// # Errors
///
/// `Fault::Error` where the word is no index, `Fault::Memory`.
pub fn index_of_word(
    alloc: Global,
    word: &Value,
    count: usize,
    dialect: Dialect,
) -> Result<i128, Fault>
    ensures { Answers (λ z. z) result (spec.index dialect word.now count) }
{
    let position = position_of(alloc, word, dialect)?;
    Ok(place_of(position, count))
}

/// The place from 0 to `count` that is nearest to the one behind a place.
pub fn behind(place: i128, count: usize) -> usize
    ensures { result ≡ clamp (place +ℤ pos 1) count }
{
    if place < 0 {
        return 0;
    }
    if place >= i128::from(count as u64) {
        return count;
    }
    place as usize + 1
}
