//! Devices that commands of channels work on.
ghost use Rattle.std.specs.Prelude.{◌≡◌, Bool, false, IfOk, length};
ghost use Rattle.tcl_channels.specs.Leaves.{Leaves, is_io};
ghost use Rattle.tcl_channels.specs.Leaving as leaving;
ghost use Rattle.tcl_channels.specs.Shown.{channels_of};
ghost use Rattle.tcl_channels.specs.Works.{WorksIn, WorksOver};
ghost use Rattle.tcl_meaning.specs.Beginnings.{OutputsBegin};
ghost use Rattle.tcl_meaning.specs.Channels as spec;
ghost use Rattle.tcl_meaning.specs.State.{Channels};

use crate::gets::gets_page;
use crate::input::{eof_page, read_page};
use crate::output::{flush_page, puts_page};
use std::alloc::Global;
use tcl_chan::device::{Input, Output};
use tcl_chan::world::World;
use tcl_chars::Dialect;
use tcl_frames::Frames;
use tcl_steps::{Completion, Fault};
use tcl_values::Value;

/// Devices, and the commands of channels over them. Each command takes the words behind its name; it answers `Fault::Io` where a
/// device failed, and `Fault::Memory` where a growth was refused.
pub trait Devices {
    /// What scripts see of them.
    ghost channels: { Self → Channels };

    /// What calls leave of them that scripts don't see; in the last of them a device failed or not.
    ghost leaves: { Bool → Self → Self → Type 0 };

    /// `puts ?-nonewline? ?channelId? string`: writes a text to an output, and a newline behind it: puts(n).
    fn puts(&mut self, alloc: Global, words: &mut [Value]) -> Result<Completion, Fault>
        ensures works { WorksOver (spec.puts_page words.old) (channels self.old) result (channels self.new) }
        ensures adds { OutputsBegin (channels self.old) (channels self.new) }
        ensures leaves { leaves (is_io result) self.old self.new };

    /// `gets channelId ?varName?`: takes a line of the input, and answers it, or gives it to a variable: gets(n).
    fn gets(
        &mut self,
        alloc: Global,
        frames: &mut Frames,
        words: &mut [Value],
    ) -> Result<Completion, Fault>
        ensures works { WorksIn (spec.gets_page words.old) frames.old (channels self.old) result frames.new (channels self.new) }
        ensures count { IfOk result (λ _. length frames.new.frames ≡ length frames.old.frames) }
        ensures adds { OutputsBegin (channels self.old) (channels self.new) }
        ensures leaves { leaves (is_io result) self.old self.new };

    /// `read channelId ?numChars?`, or `read -nonewline channelId`: takes characters of the input: read(n).
    fn read(
        &mut self,
        alloc: Global,
        dialect: Dialect,
        words: &mut [Value],
    ) -> Result<Completion, Fault>
        ensures works { WorksOver (spec.read_page dialect words.old) (channels self.old) result (channels self.new) }
        ensures adds { OutputsBegin (channels self.old) (channels self.new) }
        ensures leaves { leaves (is_io result) self.old self.new };

    /// `eof channelId`: has a call met the end of the input: eof(n).
    fn eof(&self, alloc: Global, words: &mut [Value]) -> Result<Completion, Fault>
        ensures works { WorksOver (spec.eof_page words.old) (channels self.now) result (channels self.now) }
        ensures quiet { is_io result ≡ false };

    /// `flush channelId`: flushes an output's device: flush(n).
    fn flush(&mut self, alloc: Global, words: &mut [Value]) -> Result<Completion, Fault>
        ensures works { WorksOver (spec.flush_page words.old) (channels self.old) result (channels self.new) }
        ensures adds { OutputsBegin (channels self.old) (channels self.new) }
        ensures leaves { leaves (is_io result) self.old self.new };

    /// Where nothing is called, all is left.
    ghost leaves_same: { (d : Self) → leaves false d d };

    /// What calls leave in which no device failed, and one after them, they leave together.
    ghost leaves_then: { (io : Bool) (a b c : Self) → leaves false a b → leaves io b c → leaves io a c };
}

impl<R: Input, W: Output, E: Output> Devices for World<'_, '_, '_, R, W, E> {
    ghost channels = { channels_of R.to_come W.written E.written };

    ghost leaves = { Leaves R.failed_calls W.failed_calls E.failed_calls };

    fn puts(&mut self, alloc: Global, words: &mut [Value]) -> Result<Completion, Fault> {
        puts_page(alloc, self, words)
    }

    fn gets(
        &mut self,
        alloc: Global,
        frames: &mut Frames,
        words: &mut [Value],
    ) -> Result<Completion, Fault> {
        gets_page(alloc, frames, self, words)
    }

    fn read(
        &mut self,
        alloc: Global,
        dialect: Dialect,
        words: &mut [Value],
    ) -> Result<Completion, Fault> {
        read_page(alloc, dialect, self, words)
    }

    fn eof(&self, alloc: Global, words: &mut [Value]) -> Result<Completion, Fault> {
        eof_page(alloc, self, words)
    }

    fn flush(&mut self, alloc: Global, words: &mut [Value]) -> Result<Completion, Fault> {
        flush_page(alloc, self, words)
    }

    ghost leaves_same = { leaving.leaves_same R.failed_calls W.failed_calls E.failed_calls };

    ghost leaves_then = { leaving.leaves_then R.failed_calls W.failed_calls E.failed_calls };
}
