//! set(n).
ghost use Rattle.std.specs.Prelude.{◌≡◌, OnErr};
ghost use Rattle.tcl_meaning.specs.Tasks.{Done};
ghost use Rattle.tcl_meaning.specs.VariablePages.{set_page};
ghost use Rattle.tcl_steps.specs.Ends.{Does, EndsDone};

use std::alloc::{AllocError, Global};
use tcl_arguments::text_at;
use tcl_frames::Frames;
use tcl_steps::{Completion, Stop, assign, closed, read};
use tcl_values::Value;

/// `set varName ?newValue?`: reads a variable, or gives it a text.
///
/// # Errors
///
/// `AllocError` where a growth was refused; the frames are then as they were.
pub fn set(
    alloc: Global,
    frames: &mut Frames,
    words: &mut [Value],
) -> Result<Completion, AllocError>
    ensures does { Does (set_page words.old) frames.old result frames.new }
    ensures same { OnErr result (frames.new ≡ frames.old) }
    ensures words { words.new ≡ words.old }
{
    closed(set_words(alloc, frames, words))
}

// The same, where an error stops it.
fn set_words(alloc: Global, frames: &mut Frames, words: &mut [Value]) -> Result<Completion, Stop>
    ensures ends { EndsDone (set_page words.old) frames.old result frames.new }
    ensures same { OnErr result (frames.new ≡ frames.old) }
    ensures words { words.new ≡ words.old }
{
    if words.len() == 1 {
        let name = text_at(alloc, words, 0)?;
        let value = read(alloc, frames, name.as_str())?;
        return Ok(Completion::normal(alloc, value));
    }
    if words.len() != 2 {
        return Err(Stop::Error(Completion::wrong_words(alloc, "set varName ?newValue?")?));
    }
    let name = text_at(alloc, words, 0)?;
    let value = words[1].copy()?;
    assign(alloc, frames, name.as_str(), value.copy()?)?;
    Ok(Completion::normal(alloc, value))
}
