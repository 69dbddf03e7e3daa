//! Channels by their names.
ghost use Rattle.std.specs.Str.{chars};
ghost use Rattle.tcl_channels.specs.Orders.{Tells, channel_at};
ghost use Rattle.tcl_channels.specs.Shown.{output_at};
ghost use Rattle.tcl_meaning.specs.Channels.{channel_of, input_of, output_of};
ghost use Rattle.tcl_meaning.specs.Value.{judged};

use std::alloc::{AllocError, Global};
use tcl_chan::fault::Out;
use tcl_chars::is_text;
use tcl_steps::{Completion, Stop};

/// The input of a script, or one of its outputs.
pub(crate) enum Channel {
    Input,
    Output(Out),
}

/// The channel of a name.
pub(crate) fn channel_named(alloc: Global, name: &str) -> Result<Channel, Stop>
    ensures { Tells channel_at (judged (channel_of (chars name.now))) result }
{
    if is_text(name, "stdin") {
        return Ok(Channel::Input);
    }
    if is_text(name, "stdout") {
        return Ok(Channel::Output(Out::Stdout));
    }
    if is_text(name, "stderr") {
        return Ok(Channel::Output(Out::Stderr));
    }
    Err(Stop::Error(Completion::unknown_channel(alloc, name)?))
}

/// The output of a name.
pub(crate) fn output_named(alloc: Global, name: &str) -> Result<Out, Stop>
    ensures { Tells output_at (judged (output_of (chars name.now))) result }
{
    match channel_named(alloc, name)? {
        Channel::Output(to) => Ok(to),
        Channel::Input => Err(Stop::Error(Completion::about(
            alloc,
            "channel",
            name,
            " wasn't opened for writing",
        )?)),
    }
}

/// The input, by its name.
pub(crate) fn input_named(alloc: Global, name: &str) -> Result<(), Stop>
    ensures { Tells (λ u. u) (judged (input_of (chars name.now))) result }
{
    let channel = channel_named(alloc, name)?;
    match channel {
        Channel::Input => Ok(()),
        Channel::Output(_) => Err(Stop::Error(Completion::about(
            alloc,
            "channel",
            name,
            " wasn't opened for reading",
        )?)),
    }
}
