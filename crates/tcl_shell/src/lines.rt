//! Lines on standard error.
ghost use Rattle.std.specs.Prelude.{◌≡◌, ◌++◌, codes, Err, OnOk, OnErr};
ghost use Rattle.tcl_chan.specs.Devices.{put_behind};
ghost use Rattle.tcl_chan.specs.Faults.{write_failures};
ghost use Rattle.tcl_chan.specs.Worlds.{stdin, stdout, stderr, SameDevices};
ghost use Rattle.tcl_chan.specs.Writing.{WroteFront};
ghost use Rattle.tcl_chan.specs.declared.fault.ChanFault.TheVariants.{Write};
ghost use Rattle.tcl_shell.specs.Lines.{line_bytes, told, Said};

use std::alloc::Global;
use tcl_chan::device::{Input, Output};
use tcl_chan::fault::{ChanFault, Out};
use tcl_chan::world::World;

/// A line on standard error, which says why the status isn't 0.
#[derive(Clone, Copy, Debug)]
pub(crate) enum Line<'a> {
    /// The words are not the program's usage.
    Usage,
    /// The file of this name couldn't be read.
    Unread(&'a str),
    /// The file of this name isn't UTF-8.
    NotUtf8(&'a str),
    /// The message of an error of the script.
    Message(&'a str),
    /// A unit was wanting.
    Budget,
    /// A growth was refused.
    Memory,
    /// A device failed.
    Broken,
}

// Writes three texts to standard error, up to the first that fails.
#[tactic(auto, using(crate::proofs::LinesLemmas::front_first, crate::proofs::LinesLemmas::front_second, crate::proofs::LinesLemmas::front_third))]
fn put_three<R: Input, W: Output, E: Output>(
    world: &mut World<'_, '_, '_, R, W, E>,
    first: &str,
    second: &str,
    third: &str,
) -> Result<(), ChanFault>
    ensures whole { OnOk result (E.written (stderr world.new) ≡ put_behind (E.written (stderr world.old)) (first.now ++ (second.now ++ third.now))) }
    ensures front { OnErr result (WroteFront (E.written (stderr world.old)) (E.written (stderr world.new)) (first.now ++ (second.now ++ third.now))) }
    ensures fault { OnErr result (result ≡ Err Write) }
    ensures failures { E.failed_calls (stderr world.new) ≡ write_failures (E.failed_calls (stderr world.old)) result }
    ensures input { stdin world.new ≡ stdin world.old }
    ensures out { stdout world.new ≡ stdout world.old }
    ensures devices { SameDevices world.old world.new }
{
    world.puts(Out::Stderr, first)?;
    world.puts(Out::Stderr, second)?;
    world.puts(Out::Stderr, third)
}

// Writes a line to standard error.
fn put_line<R: Input, W: Output, E: Output>(
    world: &mut World<'_, '_, '_, R, W, E>,
    line: Line<'_>,
) -> Result<(), ChanFault>
    ensures whole { OnOk result (E.written (stderr world.new) ≡ put_behind (E.written (stderr world.old)) (line_bytes line.entry)) }
    ensures front { OnErr result (WroteFront (E.written (stderr world.old)) (E.written (stderr world.new)) (line_bytes line.entry)) }
    ensures fault { OnErr result (result ≡ Err Write) }
    ensures failures { E.failed_calls (stderr world.new) ≡ write_failures (E.failed_calls (stderr world.old)) result }
    ensures input { stdin world.new ≡ stdin world.old }
    ensures out { stdout world.new ≡ stdout world.old }
    ensures devices { SameDevices world.old world.new }
{
    match line {
        Line::Usage => world.puts(
            Out::Stderr,
            "usage: tclint ?-tcl9? ?-budget N? ?-slice N? ?file arg ...?\n",
        ),
        Line::Unread(name) => put_three(world, "couldn't read file \"", name, "\"\n"),
        Line::NotUtf8(name) => put_three(world, "file \"", name, "\" is not UTF-8\n"),
        Line::Message(message) => put_three(world, message, "\n", ""),
        Line::Budget => world.puts(Out::Stderr, "budget spent\n"),
        Line::Memory => world.puts(Out::Stderr, "out of memory\n"),
        Line::Broken => world.puts(Out::Stderr, "read or write failed\n"),
    }
}

/// Writes a line to standard error. Where a write fails, the rest is not written.
#[tactic(auto, using(crate::proofs::LinesLemmas::said_by))]
pub(crate) fn say<R: Input, W: Output, E: Output>(
    alloc: Global,
    reader: &mut R,
    out: &mut W,
    err: &mut E,
    line: Line<'_>,
)
    ensures said { Said (line_bytes line.entry) (told E.written E.failed_calls err.old) (told E.written E.failed_calls err.new) }
    ensures input { reader.new ≡ reader.old }
    ensures out { out.new ≡ out.old }
{
    let mut world = World::new(alloc, reader, out, err);
    let _ = put_line(&mut world, line);
}
