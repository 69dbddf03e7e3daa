//! puts(n), flush(n).
ghost use Rattle.std.specs.Str.{chars};
ghost use Rattle.tcl_chan.specs.Worlds.{SameInput};
ghost use Rattle.tcl_channels.specs.Leaves.{Leaves, is_io};
ghost use Rattle.tcl_channels.specs.Orders.{Orders, put_of, text_to_put};
ghost use Rattle.tcl_channels.specs.Shown.{channels_of, output_at};
ghost use Rattle.tcl_channels.specs.Works.{WorksOver};
ghost use Rattle.tcl_meaning.specs.Beginnings.{OutputsBegin};
ghost use Rattle.tcl_meaning.specs.Channels as spec;
ghost use Rattle.tcl_meaning.specs.Asking.{done, usage};
ghost use Rattle.tcl_meaning.specs.Completions.{nothing};
ghost use Rattle.tcl_meaning.specs.State as meaning;
ghost use Rattle.tcl_chars.specs.Texts.{text_of};
ghost use Rattle.std.specs.Prelude.{◌≡◌, Ok, IfOk, if◌then◌else◌};
ghost use Rattle.std.specs.String.{string_bytes};

use crate::ends::halted;
use crate::names::output_named;
use crate::words::is_nonewline;
use std::alloc::{AllocError, Global};
use std::rc::RcStr;
use tcl_arguments::text_at;
use tcl_chan::device::{Input, Output};
use tcl_chan::fault::Out;
use tcl_chan::world::World;
use tcl_chars::{push, push_text};
use tcl_steps::{Completion, Fault, Stop};
use tcl_values::Value;

/// What `puts` writes, and where to.
#[derive(Drop)]
pub(crate) struct Put {
    pub(crate) to: Out,
    pub(crate) text: RcStr,
    pub(crate) newline: bool,
}

// The usage of `puts`.
fn puts_usage(alloc: Global) -> Result<Put, Stop>
    ensures { Orders put_of (usage spec.puts_usage) result }
{
    Err(Stop::Error(Completion::wrong_words(alloc, "puts ?-nonewline? ?channelId? string")?))
}

// What `puts` writes to a channel of a name.
fn put_named(alloc: Global, channel: &str, text: RcStr, newline: bool) -> Result<Put, Stop>
    ensures { Orders put_of (spec.put_text (spec.output_of (chars channel.now)) (text_to_put newline (text_of text))) result }
{
    let to = output_named(alloc, channel)?;
    Ok(Put { to, text, newline })
}

// What `puts` writes that has two words.
fn put_two(alloc: Global, first: &str, text: RcStr) -> Result<Put, Stop>
    ensures { Orders put_of (if spec.is_nonewline (chars first.now) then spec.put_text (Ok meaning.stdout) (text_of text) else spec.put_text (spec.output_of (chars first.now)) (spec.line_of (text_of text))) result }
{
    if is_nonewline(first) {
        return Ok(Put {
            to: Out::Stdout,
            text,
            newline: false,
        });
    }
    put_named(alloc, first, text, true)
}

// What `puts` writes that has three words.
fn put_three(alloc: Global, first: &str, channel: &str, text: RcStr) -> Result<Put, Stop>
    ensures { Orders put_of (if spec.is_nonewline (chars first.now) then spec.put_text (spec.output_of (chars channel.now)) (text_of text) else usage spec.puts_usage) result }
{
    if is_nonewline(first) {
        return put_named(alloc, channel, text, false);
    }
    puts_usage(alloc)
}

// What `puts` writes.
fn put_told(alloc: Global, words: &mut [Value]) -> Result<Put, Stop>
    ensures { Orders put_of (spec.puts_page words.old) result }
{
    if words.len() == 0 {
        return puts_usage(alloc);
    }
    if words.len() > 3 {
        return puts_usage(alloc);
    }
    let first = text_at(alloc, words, 0)?;
    if words.len() == 1 {
        return Ok(Put {
            to: Out::Stdout,
            text: first,
            newline: true,
        });
    }
    let second = text_at(alloc, words, 1)?;
    if words.len() == 2 {
        return put_two(alloc, first.as_str(), second);
    }
    let text = text_at(alloc, words, 2)?;
    put_three(alloc, first.as_str(), second.as_str(), text)
}

// Writes a text to an output.
fn write_text<R: Input, W: Output, E: Output>(
    alloc: Global,
    world: &mut World<'_, '_, '_, R, W, E>,
    to: Out,
    text: &str,
) -> Result<Completion, Fault>
    ensures works { WorksOver (spec.put_text (Ok (output_at to)) (chars text.now)) (channels_of R.to_come W.written E.written world.old) result (channels_of R.to_come W.written E.written world.new) }
    ensures adds { OutputsBegin (channels_of R.to_come W.written E.written world.old) (channels_of R.to_come W.written E.written world.new) }
    ensures input { SameInput R.to_come world.old world.new }
    ensures leaves { Leaves R.failed_calls W.failed_calls E.failed_calls (is_io result) world.old world.new }
{
    let nothing = Completion::nothing(alloc)?;
    world.puts(to, text)?;
    Ok(nothing)
}

// The text and a newline.
fn line_of(alloc: Global, text: &str) -> Result<String, AllocError>
    ensures { IfOk result (λ line. chars (string_bytes line) ≡ spec.line_of (chars text.now)) }
{
    let mut line = String::with_capacity(alloc, text.len() + 1)?;
    push_text(&mut line, text)?;
    push(&mut line, '\n')?;
    Ok(line)
}

// Writes what `puts` was told to.
fn write<R: Input, W: Output, E: Output>(
    alloc: Global,
    world: &mut World<'_, '_, '_, R, W, E>,
    put: Put,
) -> Result<Completion, Fault>
    ensures works { WorksOver (put_of put) (channels_of R.to_come W.written E.written world.old) result (channels_of R.to_come W.written E.written world.new) }
    ensures adds { OutputsBegin (channels_of R.to_come W.written E.written world.old) (channels_of R.to_come W.written E.written world.new) }
    ensures input { SameInput R.to_come world.old world.new }
    ensures leaves { Leaves R.failed_calls W.failed_calls E.failed_calls (is_io result) world.old world.new }
{
    if !put.newline {
        return write_text(alloc, world, put.to, put.text.as_str());
    }
    let line = line_of(alloc, put.text.as_str())?;
    write_text(alloc, world, put.to, line.as_str())
}

/// `puts ?-nonewline? ?channelId? string`: writes a text to an output, and a newline behind it: puts(n).
///
/// # Errors
///
/// `Fault::Io` where the output's device failed, `Fault::Memory` where a growth was refused.
pub fn puts_page<R: Input, W: Output, E: Output>(
    alloc: Global,
    world: &mut World<'_, '_, '_, R, W, E>,
    words: &mut [Value],
) -> Result<Completion, Fault>
    ensures works { WorksOver (spec.puts_page words.old) (channels_of R.to_come W.written E.written world.old) result (channels_of R.to_come W.written E.written world.new) }
    ensures adds { OutputsBegin (channels_of R.to_come W.written E.written world.old) (channels_of R.to_come W.written E.written world.new) }
    ensures input { SameInput R.to_come world.old world.new }
    ensures leaves { Leaves R.failed_calls W.failed_calls E.failed_calls (is_io result) world.old world.new }
{
    match put_told(alloc, words) {
        Ok(put) => write(alloc, world, put),
        Err(stop) => halted(stop),
    }
}

// The output that `flush` is told to flush.
fn flush_told(alloc: Global, words: &mut [Value]) -> Result<Out, Stop>
    ensures { Orders (λ to. done nothing) (spec.flush_page words.old) result }
{
    if words.len() != 1 {
        return Err(Stop::Error(Completion::wrong_words(alloc, "flush channelId")?));
    }
    let name = text_at(alloc, words, 0)?;
    output_named(alloc, name.as_str())
}

// Flushes an output.
fn flush<R: Input, W: Output, E: Output>(
    alloc: Global,
    world: &mut World<'_, '_, '_, R, W, E>,
    to: Out,
) -> Result<Completion, Fault>
    ensures works { WorksOver (done nothing) (channels_of R.to_come W.written E.written world.old) result (channels_of R.to_come W.written E.written world.new) }
    ensures adds { OutputsBegin (channels_of R.to_come W.written E.written world.old) (channels_of R.to_come W.written E.written world.new) }
    ensures input { SameInput R.to_come world.old world.new }
    ensures leaves { Leaves R.failed_calls W.failed_calls E.failed_calls (is_io result) world.old world.new }
{
    let nothing = Completion::nothing(alloc)?;
    world.flush(to)?;
    Ok(nothing)
}

/// `flush channelId`: flushes an output's device: flush(n).
///
/// # Errors
///
/// `Fault::Io` where the output's device failed, `Fault::Memory` where a growth was refused.
pub fn flush_page<R: Input, W: Output, E: Output>(
    alloc: Global,
    world: &mut World<'_, '_, '_, R, W, E>,
    words: &mut [Value],
) -> Result<Completion, Fault>
    ensures works { WorksOver (spec.flush_page words.old) (channels_of R.to_come W.written E.written world.old) result (channels_of R.to_come W.written E.written world.new) }
    ensures adds { OutputsBegin (channels_of R.to_come W.written E.written world.old) (channels_of R.to_come W.written E.written world.new) }
    ensures input { SameInput R.to_come world.old world.new }
    ensures leaves { Leaves R.failed_calls W.failed_calls E.failed_calls (is_io result) world.old world.new }
{
    match flush_told(alloc, words) {
        Ok(to) => flush(alloc, world, to),
        Err(stop) => halted(stop),
    }
}
