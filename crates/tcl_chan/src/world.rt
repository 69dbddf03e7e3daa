//! What a script reads and writes.
ghost use Rattle.std.specs.Prelude.{◌≡◌, ◌≤◌, ◌++◌, [], true, false, ℕ, List, Err, take, drop, length, OnOk, OnErr, IfSome, IfOk, IfErr, Some, None, option_map};
ghost use Rattle.std.specs.Rc.{rc_str_bytes};
ghost use Rattle.tcl_chan.specs.Devices.{put_behind, StaysLeft};
ghost use Rattle.tcl_chan.specs.Faults.{IsInputFault, write_failures, read_failures};
ghost use Rattle.tcl_chan.specs.Outputs.{picked};
ghost use Rattle.tcl_chan.specs.Sources.{TakesLine, TakesText};
ghost use Rattle.tcl_chan.specs.Writing.{WroteFront};
ghost use Rattle.tcl_chan.specs.declared.fault.ChanFault.TheVariants.{Write, Memory};

use crate::device::{Input, Output};
use crate::fault::{ChanFault, Out};
use crate::reading::Reader;
use std::alloc::Global;
use std::rc::RcStr;

// Writes all the bytes, or a beginning of them where the device fails.
#[tactic(auto, using(crate::proofs::Puts::writing))]
fn write_all<W: Output>(output: &mut W, bytes: &[u8]) -> Result<(), ChanFault>
    ensures whole { OnOk result (W.written output.new ≡ put_behind (W.written output.old) bytes.now) }
    ensures front { OnErr result (WroteFront (W.written output.old) (W.written output.new) bytes.now) }
    ensures failures { W.failed_calls output.new ≡ write_failures (W.failed_calls output.old) result }
    ensures fault { OnErr result (result ≡ Err Write) }
{
    let mut rest = bytes;
    'parts: while !rest.is_empty() {
        match output.write(rest) {
            Ok(n) => rest = &rest[n..],
            Err(_) => return Err(ChanFault::Write),
        }
    }
    Ok(())
}

// Flushes the device.
fn flush_device<W: Output>(output: &mut W) -> Result<(), ChanFault>
    ensures written { W.written output.new ≡ W.written output.old }
    ensures failures { W.failed_calls output.new ≡ write_failures (W.failed_calls output.old) result }
    ensures fault { OnErr result (result ≡ Err Write) }
{
    match output.flush() {
        Ok(()) => Ok(()),
        Err(_) => Err(ChanFault::Write),
    }
}

/// What a script reads and writes: an input, and two outputs. The devices are lent.
///
/// The characters of the input are those of its bytes, read as UTF-8, where each maximal ill-formed part is U+FFFD and
/// then each CR LF is one LF, however the device cuts the bytes. The input ends at the device's first end and stays
/// ended. On an output nothing is held back.
///
/// `S` is always `Reader`. It is a parameter, and each loan has a type and a lifetime of its own, so that a caller's proof
/// learns what its devices end as.
pub struct World<'input, 'out, 'err, R: Input, W: Output, E: Output, S: Drop = Reader> {
    input: &'input mut R,
    out: &'out mut W,
    err: &'err mut E,
    alloc: Global,
    reader: S,
}

impl<'input, 'out, 'err, R: Input, W: Output, E: Output, S: Drop> Drop
    for World<'input, 'out, 'err, R, W, E, S> {
    fn drop(self)
        ensures input { self.exit.0.now ≡ self.entry.input.now }
        ensures out { self.exit.1.0.now ≡ self.entry.out.now }
        ensures err { self.exit.1.1.0.now ≡ self.entry.err.now }
    {
        let World {
            input: _,
            out: _,
            err: _,
            alloc: _,
            reader,
        } = self;
        drop(reader);
    }
}

impl<'input, 'out, 'err, R: Input, W: Output, E: Output> World<
    'input,
    'out,
    'err,
    R,
    W,
    E,
    Reader,
> {
    ghost use Rattle.tcl_chan.specs.Worlds.{stdin, stdout, stderr, unread_of, met_end, LentTo, SameDevices, SameInput, SameOutputs, SameOther};

    /// A world over an input of which nothing was taken, and two outputs.
    pub fn new(
        alloc: Global,
        input: &'input mut R,
        out: &'out mut W,
        err: &'err mut E,
    ) -> World<'input, 'out, 'err, R, W, E, Reader>
        ensures devices { LentTo result input.entry out.entry err.entry }
        ensures unread { unread_of R.to_come result ≡ R.to_come input.old }
        ensures met_end { met_end result ≡ false }
    {
        World {
            input,
            out,
            err,
            alloc,
            reader: Reader::new(alloc),
        }
    }

    /// Writes the text to an output, as UTF-8 (puts(n)).
    pub fn puts(&mut self, to: Out, text: &str) -> Result<(), ChanFault>
        ensures whole { OnOk result (picked to (W.written (stdout self.new)) (E.written (stderr self.new))
            ≡ put_behind (picked to (W.written (stdout self.old)) (E.written (stderr self.old))) text.now) }
        ensures front { OnErr result (WroteFront (picked to (W.written (stdout self.old)) (E.written (stderr self.old)))
            (picked to (W.written (stdout self.new)) (E.written (stderr self.new))) text.now) }
        ensures fault { OnErr result (result ≡ Err Write) }
        ensures failures { picked to (W.failed_calls (stdout self.new)) (E.failed_calls (stderr self.new))
            ≡ write_failures (picked to (W.failed_calls (stdout self.old)) (E.failed_calls (stderr self.old))) result }

        // The rest stays.
        ensures other { SameOther to self.old self.new }
        ensures input { SameInput R.to_come self.old self.new }
        ensures devices { SameDevices self.old self.new }
    {
        match to {
            Out::Stdout => write_all(self.out, text.as_bytes()),
            Out::Stderr => write_all(self.err, text.as_bytes()),
        }
    }

    /// Flushes an output (flush(n)).
    pub fn flush(&mut self, to: Out) -> Result<(), ChanFault>
        ensures written { picked to (W.written (stdout self.new)) (E.written (stderr self.new))
            ≡ picked to (W.written (stdout self.old)) (E.written (stderr self.old)) }
        ensures fault { OnErr result (result ≡ Err Write) }
        ensures failures { picked to (W.failed_calls (stdout self.new)) (E.failed_calls (stderr self.new))
            ≡ write_failures (picked to (W.failed_calls (stdout self.old)) (E.failed_calls (stderr self.old))) result }

        // The rest stays.
        ensures other { SameOther to self.old self.new }
        ensures input { SameInput R.to_come self.old self.new }
        ensures devices { SameDevices self.old self.new }
    {
        match to {
            Out::Stdout => flush_device(self.out),
            Out::Stderr => flush_device(self.err),
        }
    }

    /// Takes a line of the input, up to and without its line feed, or the rest; `None` where nothing was left (gets(n)).
    pub fn gets(&mut self) -> Result<Option<RcStr<Global>>, ChanFault>
        ensures line { IfSome (unread_of R.to_come self.old) (λ bytes. IfOk result (λ line.
            TakesLine bytes (met_end self.old) (option_map rc_str_bytes line) (unread_of R.to_come self.new) (met_end self.new))) }
        ensures fault { IfErr result IsInputFault }
        ensures failures { R.failed_calls (stdin self.new) ≡ read_failures (R.failed_calls (stdin self.old)) result }

        // A call that meets the end leaves nothing, also where the device tells nothing: the input stays ended.
        ensures end { met_end self.old ≡ false → met_end self.new ≡ true → unread_of R.to_come self.new ≡ Some [] }

        // After a fault the input left is as it was.
        ensures kept { OnErr result (StaysLeft (unread_of R.to_come self.old) (unread_of R.to_come self.new)) }
        ensures kept_end { OnErr result (met_end self.new ≡ met_end self.old) }
        ensures outputs { SameOutputs self.old self.new }
        ensures devices { SameDevices self.old self.new }
    {
        self.reader.gets(self.alloc, self.input)
    }

    /// Takes `count` characters of the input, or all that are left where it has fewer or no count is given (read(n)).
    pub fn read(&mut self, count: Option<u64>) -> Result<RcStr<Global>, ChanFault>
        ensures text { IfSome (unread_of R.to_come self.old) (λ bytes. IfOk result (λ text.
            TakesText count bytes (met_end self.old) (rc_str_bytes text) (unread_of R.to_come self.new) (met_end self.new))) }
        ensures fault { IfErr result IsInputFault }
        ensures failures { R.failed_calls (stdin self.new) ≡ read_failures (R.failed_calls (stdin self.old)) result }

        // A call that meets the end leaves nothing, also where the device tells nothing: the input stays ended.
        ensures end { met_end self.old ≡ false → met_end self.new ≡ true → unread_of R.to_come self.new ≡ Some [] }

        // After a fault the input left is as it was.
        ensures kept { OnErr result (StaysLeft (unread_of R.to_come self.old) (unread_of R.to_come self.new)) }
        ensures kept_end { OnErr result (met_end self.new ≡ met_end self.old) }
        ensures outputs { SameOutputs self.old self.new }
        ensures devices { SameDevices self.old self.new }
    {
        self.reader.read(self.alloc, self.input, count)
    }

    /// Whether a call met the input's end: `gets` that found no line feed, `read` of all, or `read` of more characters
    /// than were left (eof(n)).
    pub fn eof(&self) -> bool
        ensures { result ≡ met_end self.now }
    {
        self.reader.eof()
    }
}
