//! Devices over the standard streams of the process. They tell nothing of their bytes.
ghost use Rattle.std.specs.Prelude.{◌≡◌, ◌<◌, ◌≤◌, ℕ, List, Option, None, length, IfOk};
ghost use Rattle.std.specs.Io.KnownBytes.{ReadConsumes, WriteAppends, Keeps};
ghost use Rattle.tcl_chan.specs.Devices.{failures_after, one_more};

use crate::device::{Broken, Input, Output};
use std::io::{Read, Stderr, Stdout, Write};

/// Standard input, or another stream in its place.
#[derive(Drop)]
pub struct StandardInput<S> {
    source: S,
    failures: u64,
}

impl<S: Read> StandardInput<S> {
    ghost use Rattle.tcl_chan.specs.Streams.{input_stream, stream_input_failures};

    /// An input of which no call has failed.
    pub fn new(source: S) -> StandardInput<S>
        ensures stream { input_stream result ≡ source }
        ensures failures { stream_input_failures result ≡ 0 }
    {
        StandardInput {
            source,
            failures: 0,
        }
    }
}

impl<S: Read> Input for StandardInput<S> {
    ghost use Rattle.tcl_chan.specs.Streams.{input_stream, stream_input_failures};

    ghost to_come = { λ _. None };

    ghost failed_calls = { λ device. stream_input_failures device };

    fn read(&mut self, buffer: &mut [u8]) -> Result<usize, Broken>
        ensures within { IfOk result (λ n. n ≤ length buffer.old) }
        ensures failures { stream_input_failures self.new ≡ failures_after (stream_input_failures self.old) result }

        // What the stream tells of its bytes holds of this read: a failure of the stream is no end.
        ensures stream { ReadConsumes (S.remaining (input_stream self.old)) (S.remaining (input_stream self.new)) result buffer.new }
    {
        match self.source.read(buffer) {
            Ok(n) => Ok(n),
            Err(_) => {
                self.failures = self.failures.saturating_add(1);
                Err(Broken)
            }
        }
    }

    fn failures(&self) -> u64 {
        self.failures
    }
}

/// Standard output or standard error, or another stream in its place. Each write goes to the stream at once.
#[derive(Drop)]
pub struct StandardOutput<S> {
    sink: S,
    failures: u64,
}

impl StandardOutput<Stdout> {
    ghost use Rattle.tcl_chan.specs.Streams.{stream_output_failures};

    /// Standard output, of which no call has failed.
    pub fn stdout(stdout: Stdout) -> StandardOutput<Stdout>
        ensures { stream_output_failures result ≡ 0 }
    {
        StandardOutput::over(stdout)
    }
}

impl StandardOutput<Stderr> {
    ghost use Rattle.tcl_chan.specs.Streams.{stream_output_failures};

    /// Standard error, of which no call has failed.
    pub fn stderr(stderr: Stderr) -> StandardOutput<Stderr>
        ensures { stream_output_failures result ≡ 0 }
    {
        StandardOutput::over(stderr)
    }
}

impl<S: Write> StandardOutput<S> {
    ghost use Rattle.tcl_chan.specs.Streams.{output_stream, stream_output_failures};

    /// An output of which no call has failed.
    pub fn over(sink: S) -> StandardOutput<S>
        ensures stream { output_stream result ≡ sink }
        ensures failures { stream_output_failures result ≡ 0 }
    {
        StandardOutput { sink, failures: 0 }
    }

    // Counts a call that failed.
    fn broken(&mut self) -> Broken
        ensures stream { output_stream self.new ≡ output_stream self.old }
        ensures failures { stream_output_failures self.new ≡ one_more (stream_output_failures self.old) }
    {
        self.failures = self.failures.saturating_add(1);
        Broken
    }
}

impl<S: Write> Output for StandardOutput<S> {
    ghost use Rattle.tcl_chan.specs.Streams.{output_stream, stream_output_failures};

    ghost written = { λ _. None };

    ghost failed_calls = { λ device. stream_output_failures device };

    fn write(&mut self, bytes: &[u8]) -> Result<usize, Broken>
        ensures within { IfOk result (λ n. n ≤ length bytes.now) }
        ensures some { IfOk result (λ n. 0 < length bytes.now → 1 ≤ n) }
        ensures failures { stream_output_failures self.new ≡ failures_after (stream_output_failures self.old) result }

        // What the stream tells of its bytes holds of this write.
        ensures stream { WriteAppends (S.contents (output_stream self.old)) (S.contents (output_stream self.new)) result bytes.now }
    {
        match self.sink.write(bytes) {
            Ok(n) if n > 0 || bytes.is_empty() => Ok(n),
            _ => Err(self.broken()),
        }
    }

    fn flush(&mut self) -> Result<(), Broken>
        ensures failures { stream_output_failures self.new ≡ failures_after (stream_output_failures self.old) result }

        // What the stream tells of its bytes stays.
        ensures stream { Keeps (S.contents (output_stream self.old)) (S.contents (output_stream self.new)) }
    {
        match self.sink.flush() {
            Ok(()) => Ok(()),
            Err(_) => Err(self.broken()),
        }
    }

    fn failures(&self) -> u64 {
        self.failures
    }
}
