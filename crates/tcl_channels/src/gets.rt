//! gets(n).
ghost use Rattle.std.specs.Prelude.{◌≡◌, None, Some, IfOk, length, option_map};
ghost use Rattle.std.specs.Str.{chars};
ghost use Rattle.tcl_chan.specs.Characters.{or_empty};
ghost use Rattle.tcl_chan.specs.Worlds.{SameOutputs};
ghost use Rattle.tcl_channels.specs.Leaves.{Leaves, is_io};
ghost use Rattle.tcl_channels.specs.Orders.{Orders, from_input, gets_into, kept, line_said};
ghost use Rattle.tcl_channels.specs.Shown.{channels_of};
ghost use Rattle.tcl_channels.specs.Works.{WorksIn};
ghost use Rattle.tcl_chars.specs.Texts.{text_of};
ghost use Rattle.tcl_meaning.specs.Beginnings.{OutputsBegin};
ghost use Rattle.tcl_meaning.specs.Channels as spec;
ghost use Rattle.tcl_steps.specs.Ends.{EndsDone};

use crate::ends::{closed, halted};
use crate::names::input_named;
use std::alloc::{AllocError, Global};
use std::rc::RcStr;
use tcl_arguments::text_at;
use tcl_chan::device::{Input, Output};
use tcl_chan::world::World;
use tcl_chars::message;
use tcl_frames::Frames;
use tcl_steps::{Completion, Fault, Stop, assign};
use tcl_values::Value;

// How many bytes a long line has at least.
const LONG: usize = 32;

// The variable that `gets` is told to set, where the channel of a name is an input.
fn told(alloc: Global, channel: &str, name: Option<RcStr>) -> Result<Option<RcStr>, Stop>
    ensures { Orders (λ into. gets_into (option_map text_of into)) (from_input (chars channel.now) (gets_into (option_map text_of name))) result }
{
    input_named(alloc, channel)?;
    Ok(name)
}

// The variable that `gets` is told to set, if there is one.
fn gets_told(alloc: Global, words: &mut [Value]) -> Result<Option<RcStr>, Stop>
    ensures { Orders (λ into. gets_into (option_map text_of into)) (spec.gets_page words.old) result }
{
    if words.len() == 1 {
        let channel = text_at(alloc, words, 0)?;
        return told(alloc, channel.as_str(), None);
    }
    if words.len() != 2 {
        return Err(Stop::Error(Completion::wrong_words(alloc, "gets channelId ?varName?")?));
    }
    let channel = text_at(alloc, words, 0)?;
    let name = text_at(alloc, words, 1)?;
    told(alloc, channel.as_str(), Some(name))
}

// How many characters a text has.
fn length(text: &str) -> usize
    ensures { result ≡ length (chars text.now) }
{
    text.chars().count()
}

// How long a line is said to be.
fn line_said(alloc: Global, line: &Option<RcStr>) -> Result<Value, AllocError>
    ensures { IfOk result (λ v. v ≡ line_said (option_map text_of line.now)) }
{
    match line {
        Some(text) => Value::of_count(alloc, length(text.as_str()) as u64),
        None => Ok(Value::of_text(message(alloc, "-1")?)),
    }
}

// The value of a line. What a long one is read as, as a list or as a dictionary, is kept for all who hold it.
fn line_value(alloc: Global, line: RcStr) -> Result<Value, AllocError>
    ensures { IfOk result (λ v. v ≡ text_of line) }
{
    if line.as_str().len() < LONG {
        return Ok(Value::of_text(line));
    }
    Value::of_literal(alloc, line)
}

// The text of a line, which is empty where nothing was left.
#[tactic(auto, using(crate::proofs::WordLemmas::no_chars))]
fn line_text(alloc: Global, line: Option<RcStr>) -> Result<Value, AllocError>
    ensures { IfOk result (λ v. v ≡ or_empty (option_map text_of line)) }
{
    match line {
        Some(text) => line_value(alloc, text),
        None => Value::of_str(alloc, ""),
    }
}

// Gives a variable a line, and answers how long it is.
fn set_line(
    alloc: Global,
    frames: &mut Frames,
    name: RcStr,
    line: Option<RcStr>,
) -> Result<Completion, Stop>
    ensures { EndsDone (kept (Some (text_of name)) (or_empty (option_map text_of line)) (line_said (option_map text_of line))) frames.old result frames.new }
{
    let count = line_said(alloc, &line)?;
    let text = line_text(alloc, line)?;
    assign(alloc, frames, name.as_str(), text)?;
    Ok(Completion::normal(alloc, count))
}

// Answers a line, or gives it to a variable and answers how long it is.
#[tactic(auto, using(crate::proofs::GetsLemmas::none_kept))]
fn keep_line(
    alloc: Global,
    frames: &mut Frames,
    name: Option<RcStr>,
    line: Option<RcStr>,
) -> Result<Completion, Stop>
    ensures { EndsDone (kept (option_map text_of name) (or_empty (option_map text_of line)) (line_said (option_map text_of line))) frames.old result frames.new }
{
    match name {
        Some(name) => set_line(alloc, frames, name, line),
        None => {
            let text = line_text(alloc, line)?;
            Ok(Completion::normal(alloc, text))
        }
    }
}

// Takes a line, and keeps it as `gets` was told to.
fn take_line<R: Input, W: Output, E: Output>(
    alloc: Global,
    frames: &mut Frames,
    world: &mut World<'_, '_, '_, R, W, E>,
    name: Option<RcStr>,
) -> Result<Completion, Fault>
    ensures works { WorksIn (gets_into (option_map text_of name)) frames.old (channels_of R.to_come W.written E.written world.old) result frames.new (channels_of R.to_come W.written E.written world.new) }
    ensures count { IfOk result (λ _. length frames.new.frames ≡ length frames.old.frames) }
    ensures outputs { SameOutputs world.old world.new }
    ensures leaves { Leaves R.failed_calls W.failed_calls E.failed_calls (is_io result) world.old world.new }
{
    let line = world.gets()?;
    closed(keep_line(alloc, frames, name, line))
}

/// `gets channelId ?varName?`: takes a line of the input, and answers it, or gives it to a variable: gets(n).
///
/// # Errors
///
/// `Fault::Io` where the input's device failed, `Fault::Memory` where a growth was refused.
pub fn gets_page<R: Input, W: Output, E: Output>(
    alloc: Global,
    frames: &mut Frames,
    world: &mut World<'_, '_, '_, R, W, E>,
    words: &mut [Value],
) -> Result<Completion, Fault>
    ensures works { WorksIn (spec.gets_page words.old) frames.old (channels_of R.to_come W.written E.written world.old) result frames.new (channels_of R.to_come W.written E.written world.new) }
    ensures count { IfOk result (λ _. length frames.new.frames ≡ length frames.old.frames) }
    ensures adds { OutputsBegin (channels_of R.to_come W.written E.written world.old) (channels_of R.to_come W.written E.written world.new) }
    ensures outputs { SameOutputs world.old world.new }
    ensures leaves { Leaves R.failed_calls W.failed_calls E.failed_calls (is_io result) world.old world.new }
{
    match gets_told(alloc, words) {
        Ok(name) => take_line(alloc, frames, world, name),
        Err(stop) => halted(stop),
    }
}
