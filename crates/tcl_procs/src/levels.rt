//! Words that name a level: uplevel(n), upvar(n).
ghost use Rattle.std.specs.Prelude.{◌≡◌, IfOk};
ghost use Rattle.std.specs.Str.{chars};
ghost use Rattle.tcl_frames.specs.Standing.{store_of};
ghost use Rattle.tcl_meaning.specs.Completions.{failure};
ghost use Rattle.tcl_meaning.specs.Procedures as spec;
ghost use Rattle.tcl_meaning.specs.State.{Commands};
ghost use Rattle.tcl_procs.specs.Levels.{found_level, ReadsLevel, ReadsNumber};

use std::alloc::{AllocError, Global};
use tcl_chars::{Decimal, read_decimal, split_first};
use tcl_frames::{Frames, Level};
use tcl_steps::Completion;

/// Is a first word meant as a level?
pub(crate) fn is_level(word: &str) -> bool
    ensures { result ≡ spec.is_level (chars word.now) }
{
    match split_first(word) {
        Some((c, _)) => c.is_ascii_digit() || c == '#',
        None => false,
    }
}

// The number that digits write, where 63 bits hold it.
fn read_number(text: &str) -> Option<usize>
    ensures { ReadsNumber (chars text.now) result }
{
    match read_decimal(text) {
        Decimal::Number(number) => Some(number as usize),
        Decimal::TooLarge | Decimal::Not => None,
    }
}

/// The level that a word names, where a frame may have it.
pub(crate) fn read_level(word: &str) -> Option<Level>
    ensures { ReadsLevel (chars word.now) result }
{
    let (c, digits) = split_first(word)?;
    if c == '#' {
        return Some(Level::At(read_number(digits)?));
    }
    Some(Level::Up(read_number(word)?))
}

/// The level that a word names, if a frame is there.
pub(crate) fn find_level(frames: &Frames, word: &str) -> Option<Level>
    ensures { (cs : Commands) → spec.level_named (store_of cs frames.now) (chars word.now) ≡ found_level (chars word.now) result }
{
    let Some(level) = read_level(word) else {
        frames.levels_fit();
        return None;
    };
    match frames.at_level(level) {
        Some(_) => Some(level),
        None => None,
    }
}

/// The error of a word that names no level at which a frame is.
pub(crate) fn bad_level(alloc: Global, word: &str) -> Result<Completion, AllocError>
    ensures { IfOk result (λ c. c ≡ failure (spec.bad_level (chars word.now))) }
{
    Completion::about(alloc, "bad level", word, "")
}
