//! read(n), eof(n).
ghost use Rattle.std.specs.Prelude.{◌≡◌, false, Err, IfOk, None, if◌then◌else◌};
ghost use Rattle.std.specs.Str.{chars};
ghost use Rattle.tcl_chan.specs.Worlds.{SameOutputs};
ghost use Rattle.tcl_channels.specs.Leaves.{Leaves, is_io};
ghost use Rattle.tcl_channels.specs.Orders.{Orders, Tells, channel_at, counted_page, from_input, read_from, text_read};
ghost use Rattle.tcl_channels.specs.Shown.{channels_of};
ghost use Rattle.tcl_channels.specs.Works.{WorksOver};
ghost use Rattle.tcl_chars.specs.Messages.{too_large};
ghost use Rattle.tcl_chars.specs.Texts.{text_of};
ghost use Rattle.tcl_meaning.specs.Beginnings.{OutputsBegin};
ghost use Rattle.tcl_meaning.specs.Channels as spec;
ghost use Rattle.tcl_meaning.specs.Value.{judged};
ghost use Rattle.tcl_meaning.specs.Completions.{normal};

use crate::ends::halted;
use crate::names::{Channel, channel_named, input_named};
use crate::words::is_nonewline;
use std::alloc::{AllocError, Global};
use std::rc::RcStr;
use tcl_arguments::text_at;
use tcl_chan::device::{Input, Output};
use tcl_chan::world::World;
use tcl_chars::{Dialect, Whole, message, read_whole, split_last};
use tcl_steps::{Completion, Fault, Stop};
use tcl_values::Value;

/// What `read` takes: a number of characters, or all, with the newline at the end or without it.
#[derive(Drop)]
pub(crate) struct Read {
    pub(crate) count: Option<u64>,
    pub(crate) newline: bool,
}

// The error of a text that is no count of characters.
fn no_count(alloc: Global, text: &str) -> Result<u64, Stop>
    ensures { Tells (λ n. n) (judged (Err (spec.no_count (chars text.now)))) result }
{
    Err(Stop::Error(Completion::about(alloc, "expected non-negative integer but got", text, "")?))
}

// The error of a number that is too large.
fn too_large(alloc: Global) -> Result<u64, Stop>
    ensures { Tells (λ n. n) (judged (Err too_large)) result }
{
    let text = message(alloc, "integer value too large to represent")?;
    Err(Stop::Error(Completion::failure(alloc, text)))
}

// A number of characters that is not negative.
fn not_negative(alloc: Global, text: &str, number: i64) -> Result<u64, Stop>
    ensures { Tells (λ n. n) (judged (spec.not_negative (chars text.now) number)) result }
{
    if number < 0 {
        return no_count(alloc, text);
    }
    Ok(number as u64)
}

// How many characters a text says.
fn count_of(alloc: Global, dialect: Dialect, text: &str) -> Result<u64, Stop>
    ensures { Tells (λ n. n) (judged (spec.count_of dialect (chars text.now))) result }
{
    match read_whole(text, dialect) {
        Whole::Number(number) => not_negative(alloc, text, number),
        Whole::TooLarge => too_large(alloc),
        Whole::Not => no_count(alloc, text),
    }
}

// All that the channel of a name has.
fn read_all(alloc: Global, channel: &str, newline: bool) -> Result<Read, Stop>
    ensures { Orders (λ read. read_from read.count read.newline) (from_input (chars channel.now) (read_from None newline)) result }
{
    input_named(alloc, channel)?;
    Ok(Read {
        count: None,
        newline,
    })
}

// As many characters as a text says.
fn counted(alloc: Global, dialect: Dialect, count: &str) -> Result<Read, Stop>
    ensures { Orders (λ read. read_from read.count read.newline) (counted_page dialect (chars count.now)) result }
{
    let count = count_of(alloc, dialect, count)?;
    Ok(Read {
        count: Some(count),
        newline: true,
    })
}

// As many characters as a text says, of the channel of a name.
fn read_some(alloc: Global, dialect: Dialect, channel: &str, count: &str) -> Result<Read, Stop>
    ensures { Orders (λ read. read_from read.count read.newline) (from_input (chars channel.now) (counted_page dialect (chars count.now))) result }
{
    input_named(alloc, channel)?;
    counted(alloc, dialect, count)
}

// What `read` takes that has two words.
fn read_two(alloc: Global, dialect: Dialect, first: &str, second: &str) -> Result<Read, Stop>
    ensures { Orders (λ read. read_from read.count read.newline) (if spec.is_nonewline (chars first.now) then from_input (chars second.now) (read_from None false) else from_input (chars first.now) (counted_page dialect (chars second.now))) result }
{
    if is_nonewline(first) {
        return read_all(alloc, second, false);
    }
    read_some(alloc, dialect, first, second)
}

// What `read` takes.
fn read_told(alloc: Global, dialect: Dialect, words: &mut [Value]) -> Result<Read, Stop>
    ensures { Orders (λ read. read_from read.count read.newline) (spec.read_page dialect words.old) result }
{
    if words.len() == 1 {
        let channel = text_at(alloc, words, 0)?;
        return read_all(alloc, channel.as_str(), true);
    }
    if words.len() != 2 {
        return Err(Stop::Error(Completion::wrong_words(alloc, "read channelId ?numChars?")?));
    }
    let first = text_at(alloc, words, 0)?;
    let second = text_at(alloc, words, 1)?;
    read_two(alloc, dialect, first.as_str(), second.as_str())
}

// A text without the newline at its end, if one is there.
#[tactic(auto, using(crate::proofs::ReadLemmas::newline_cut, crate::proofs::ReadLemmas::no_newline, crate::proofs::ReadLemmas::no_character))]
fn without_newline(alloc: Global, text: RcStr) -> Result<RcStr, AllocError>
    ensures { IfOk result (λ t. text_of t ≡ spec.without_newline (text_of text)) }
{
    let Some((front, last)) = split_last(text.as_str()) else {
        return Ok(text);
    };
    if last == '\n' {
        return message(alloc, front);
    }
    Ok(text)
}

// A text that was read, with the newline at its end or without it.
fn text_read(alloc: Global, text: RcStr, newline: bool) -> Result<RcStr, AllocError>
    ensures { IfOk result (λ t. text_of t ≡ text_read newline (text_of text)) }
{
    if newline {
        Ok(text)
    } else {
        without_newline(alloc, text)
    }
}

// Takes what `read` was told to.
fn take<R: Input, W: Output, E: Output>(
    alloc: Global,
    world: &mut World<'_, '_, '_, R, W, E>,
    read: Read,
) -> Result<Completion, Fault>
    ensures works { WorksOver (read_from read.count read.newline) (channels_of R.to_come W.written E.written world.old) result (channels_of R.to_come W.written E.written world.new) }
    ensures outputs { SameOutputs world.old world.new }
    ensures leaves { Leaves R.failed_calls W.failed_calls E.failed_calls (is_io result) world.old world.new }
{
    let taken = world.read(read.count)?;
    let text = text_read(alloc, taken, read.newline)?;
    Ok(Completion::normal(alloc, Value::of_shared(alloc, text)?))
}

/// `read channelId ?numChars?`, or `read -nonewline channelId`: takes characters of the input: read(n).
///
/// # Errors
///
/// `Fault::Io` where the input's device failed, `Fault::Memory` where a growth was refused.
pub fn read_page<R: Input, W: Output, E: Output>(
    alloc: Global,
    dialect: Dialect,
    world: &mut World<'_, '_, '_, R, W, E>,
    words: &mut [Value],
) -> Result<Completion, Fault>
    ensures works { WorksOver (spec.read_page dialect words.old) (channels_of R.to_come W.written E.written world.old) result (channels_of R.to_come W.written E.written world.new) }
    ensures adds { OutputsBegin (channels_of R.to_come W.written E.written world.old) (channels_of R.to_come W.written E.written world.new) }
    ensures outputs { SameOutputs world.old world.new }
    ensures leaves { Leaves R.failed_calls W.failed_calls E.failed_calls (is_io result) world.old world.new }
{
    match read_told(alloc, dialect, words) {
        Ok(read) => take(alloc, world, read),
        Err(stop) => halted(stop),
    }
}

// The channel that `eof` is asked of.
fn eof_told(alloc: Global, words: &mut [Value]) -> Result<Channel, Stop>
    ensures { Orders (λ channel. spec.said_ended (channel_at channel)) (spec.eof_page words.old) result }
{
    if words.len() != 1 {
        return Err(Stop::Error(Completion::wrong_words(alloc, "eof channelId")?));
    }
    let name = text_at(alloc, words, 0)?;
    channel_named(alloc, name.as_str())
}

// Whether a call has met a channel's end.
fn ended<R: Input, W: Output, E: Output>(
    alloc: Global,
    world: &World<'_, '_, '_, R, W, E>,
    channel: Channel,
) -> Result<Completion, Fault>
    ensures works { WorksOver (spec.said_ended (channel_at channel)) (channels_of R.to_come W.written E.written world.now) result (channels_of R.to_come W.written E.written world.now) }
    ensures quiet { is_io result ≡ false }
{
    match channel {
        Channel::Input => Ok(Completion::normal(alloc, Value::of_truth(world.eof()))),
        Channel::Output(_) => Ok(Completion::normal(alloc, Value::of_truth(false))),
    }
}

/// `eof channelId`: has a call met the end of the input: eof(n).
///
/// # Errors
///
/// `Fault::Memory` where a growth was refused.
pub fn eof_page<R: Input, W: Output, E: Output>(
    alloc: Global,
    world: &World<'_, '_, '_, R, W, E>,
    words: &mut [Value],
) -> Result<Completion, Fault>
    ensures works { WorksOver (spec.eof_page words.old) (channels_of R.to_come W.written E.written world.now) result (channels_of R.to_come W.written E.written world.now) }
    ensures quiet { is_io result ≡ false }
{
    match eof_told(alloc, words) {
        Ok(channel) => ended(alloc, world, channel),
        Err(stop) => halted(stop),
    }
}
