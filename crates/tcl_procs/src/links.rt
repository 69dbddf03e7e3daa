//! Links between variables of frames: upvar(n), global(n).
ghost use Rattle.std.specs.Prelude.{◌≡◌, IfOk};
ghost use Rattle.std.specs.Str.{chars};
ghost use Rattle.tcl_frames.specs.Levels.{level_of};
ghost use Rattle.tcl_meaning.specs.ProcedurePages as spec;
ghost use Rattle.tcl_procs.specs.Linking.{global_link};
ghost use Rattle.tcl_steps.specs.Ends.{Does, Ends, EndsDone};

use crate::levels::{bad_level, find_level};
use std::alloc::{AllocError, Global};
use tcl_chars::message;
use tcl_frames::{Frames, Level, LinkFault, without_colons};
use tcl_meaning::LinkRefusal;
use tcl_steps::{Completion, Stop, closed};
use tcl_values::Value;

// The error of a link that is refused. A word named the level.
fn cant_link(
    alloc: Global,
    word: &str,
    local: &str,
    refusal: LinkRefusal,
) -> Result<Completion, AllocError>
    ensures { IfOk result (λ c. c ≡ spec.cant_link (chars word.now) (chars local.now) refusal) }
{
    match refusal {
        LinkRefusal::BadLevel => bad_level(alloc, word),
        LinkRefusal::BadName => Completion::about(alloc, "bad variable name", local, ""),
        LinkRefusal::Itself => {
            let said = message(alloc, "can't upvar from variable to itself")?;
            Ok(Completion::failure(alloc, said))
        }
        LinkRefusal::Exists => Completion::about(alloc, "variable", local, " already exists"),
    }
}

// Makes a name a link to what another one means at the level that a word names.
fn link_name(
    alloc: Global,
    frames: &mut Frames,
    word: &str,
    level: Level,
    other: &str,
    local: &str,
) -> Result<(), Stop>
    ensures { Ends (spec.link_name (chars word.now) (level_of level) (chars other.now) (chars local.now)) frames.old result frames.new }
{
    match frames.link(alloc, level, other, local) {
        Ok(()) => Ok(()),
        Err(LinkFault::Refused(refusal)) => {
            Err(Stop::Error(cant_link(alloc, word, local, refusal)?))
        }
        Err(LinkFault::Memory) => Err(Stop::Memory),
    }
}

// The same as `link_name`, of names that are words. A text that stands ready isn't copied.
fn link_pair(
    alloc: Global,
    frames: &mut Frames,
    word: &str,
    level: Level,
    other: &Value,
    local: &Value,
) -> Result<(), Stop>
    ensures { Ends (spec.link_name (chars word.now) (level_of level) other.now local.now) frames.old result frames.new }
{
    let other = other.spelled(alloc)?;
    let local = local.spelled(alloc)?;
    link_name(alloc, frames, word, level, other.as_str(), local.as_str())
}

// Makes links, from left to right: the names behind the level are other and local ones in turn.
fn link_pairs(
    alloc: Global,
    frames: &mut Frames,
    word: &str,
    level: Level,
    names: &[Value],
) -> Result<Completion, Stop>
    ensures { EndsDone (spec.link_pairs (chars word.now) (level_of level) names.now) frames.old result frames.new }
{
    let mut left = names;
    'pairs: while let [other, local, others @ ..] = left {
        link_pair(alloc, frames, word, level, other, local)?;
        left = others;
    }
    Ok(Completion::nothing(alloc)?)
}

// Makes links to names of the level that a text names.
fn link_all(
    alloc: Global,
    frames: &mut Frames,
    word: &str,
    names: &[Value],
) -> Result<Completion, Stop>
    ensures { EndsDone (spec.link_all (chars word.now) names.now) frames.old result frames.new }
{
    if names.len() == 0 {
        let usage = "upvar ?level? otherVar localVar ?otherVar localVar ...?";
        return Err(Stop::Error(Completion::wrong_words(alloc, usage)?));
    }
    let Some(level) = find_level(&*frames, word) else {
        return Err(Stop::Error(bad_level(alloc, word)?));
    };
    link_pairs(alloc, frames, word, level, names)
}

// The same as `link_all`, of the level that a word names.
fn link_all_at(
    alloc: Global,
    frames: &mut Frames,
    word: &Value,
    names: &[Value],
) -> Result<Completion, Stop>
    ensures { EndsDone (spec.link_all word.now names.now) frames.old result frames.new }
{
    let text = word.spelled(alloc)?;
    link_all(alloc, frames, text.as_str(), names)
}

// The same as `upvar_page`, where an error stops it.
fn upvar_words(alloc: Global, frames: &mut Frames, words: &[Value]) -> Result<Completion, Stop>
    ensures { EndsDone (spec.upvar_page words.now) frames.old result frames.new }
{
    if words.len() % 2 == 0 {
        return link_all(alloc, frames, "1", words);
    }
    match words {
        [word, names @ ..] => link_all_at(alloc, frames, word, names),
        [] => unreachable!(),
    }
}

/// `upvar ?level? otherVar localVar ?otherVar localVar ...?`: makes each local name a link to what the other one means at the level.
/// Where the words are odd in number the first of them is the level; else it is the caller's.
///
/// # Errors
///
/// `AllocError` where a growth was refused.
pub fn upvar_page(
    alloc: Global,
    frames: &mut Frames,
    words: &mut [Value],
) -> Result<Completion, AllocError>
    ensures { Does (spec.upvar_page words.old) frames.old result frames.new }
{
    closed(upvar_words(alloc, frames, words))
}

// Makes a name a link to the global variable of that name.
fn link_global(alloc: Global, frames: &mut Frames, text: &str) -> Result<(), Stop>
    ensures { Ends (global_link (chars text.now)) frames.old result frames.new }
{
    let name = without_colons(text);
    link_name(alloc, frames, "#0", Level::At(0), name, name)
}

// The same, of a name that is a word. A text that stands ready isn't copied.
fn link_global_word(alloc: Global, frames: &mut Frames, word: &Value) -> Result<(), Stop>
    ensures { Ends (global_link word.now) frames.old result frames.new }
{
    let text = word.spelled(alloc)?;
    link_global(alloc, frames, text.as_str())
}

// Makes names links to global ones, from left to right.
fn link_globals(alloc: Global, frames: &mut Frames, names: &[Value]) -> Result<Completion, Stop>
    ensures { EndsDone (spec.link_globals names.now) frames.old result frames.new }
{
    let mut left = names;
    'names: while let [name, others @ ..] = left {
        link_global_word(alloc, frames, name)?;
        left = others;
    }
    Ok(Completion::nothing(alloc)?)
}

// The same as `global_page`, where an error stops it.
fn global_words(alloc: Global, frames: &mut Frames, words: &[Value]) -> Result<Completion, Stop>
    ensures { EndsDone (spec.global_page words.now) frames.old result frames.new }
{
    if frames.level() == 0 {
        return Ok(Completion::nothing(alloc)?);
    }
    link_globals(alloc, frames, words)
}

/// `global ?varName ...?`: makes each name a link to the global variable of that name. At level 0 it does nothing.
///
/// # Errors
///
/// `AllocError` where a growth was refused.
pub fn global_page(
    alloc: Global,
    frames: &mut Frames,
    words: &mut [Value],
) -> Result<Completion, AllocError>
    ensures { Does (spec.global_page words.old) frames.old result frames.new }
{
    closed(global_words(alloc, frames, words))
}
