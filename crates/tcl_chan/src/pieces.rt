//! Devices that pass on little at a time.
ghost use Rattle.std.specs.Prelude.{◌≡◌, ◌≤◌, ◌<◌, length, IfOk};
ghost use Rattle.tcl_chan.specs.Devices.{ReadTakes, NoneOnlyAtEnd, WritePuts, failures_after};

use crate::device::{Broken, Input, Output};

/// A device that passes on at most one byte a call.
#[derive(Drop)]
pub struct OneByte<D> {
    inner: D,
}

impl<D> OneByte<D> {
    ghost use Rattle.tcl_chan.specs.Wrappers.{one_byte_inner};

    /// A device that passes on to this one.
    pub fn new(inner: D) -> OneByte<D>
        ensures { one_byte_inner result ≡ inner }
    {
        OneByte { inner }
    }

    /// The device that the calls pass on to.
    pub fn inner(&self) -> &D
        ensures { result.now ≡ one_byte_inner self.now }
    {
        &self.inner
    }
}

impl<D: Input> Input for OneByte<D> {
    ghost use Rattle.tcl_chan.specs.Wrappers.{one_byte_inner};

    ghost to_come = { λ device. D.to_come (one_byte_inner device) };

    ghost failed_calls = { λ device. D.failed_calls (one_byte_inner device) };

    fn read(&mut self, buffer: &mut [u8]) -> Result<usize, Broken>
        ensures within { IfOk result (λ n. n ≤ length buffer.old) }
        ensures one { IfOk result (λ n. n ≤ 1) }
        ensures bytes { ReadTakes (D.to_come (one_byte_inner self.old)) (D.to_come (one_byte_inner self.new)) buffer.new result }
        ensures end { NoneOnlyAtEnd (D.to_come (one_byte_inner self.old)) (length buffer.old) result }
        ensures failures { D.failed_calls (one_byte_inner self.new) ≡ failures_after (D.failed_calls (one_byte_inner self.old)) result }
    {
        let size = buffer.len().min(1);
        self.inner.read(&mut buffer[..size])
    }

    fn failures(&self) -> u64 {
        self.inner.failures()
    }
}

impl<D: Output> Output for OneByte<D> {
    ghost use Rattle.tcl_chan.specs.Wrappers.{one_byte_inner};

    ghost written = { λ device. D.written (one_byte_inner device) };

    ghost failed_calls = { λ device. D.failed_calls (one_byte_inner device) };

    fn write(&mut self, bytes: &[u8]) -> Result<usize, Broken>
        ensures within { IfOk result (λ n. n ≤ length bytes.now) }
        ensures one { IfOk result (λ n. n ≤ 1) }
        ensures some { IfOk result (λ n. 0 < length bytes.now → 1 ≤ n) }
        ensures bytes { WritePuts (D.written (one_byte_inner self.old)) (D.written (one_byte_inner self.new)) bytes.now result }
        ensures failures { D.failed_calls (one_byte_inner self.new) ≡ failures_after (D.failed_calls (one_byte_inner self.old)) result }
    {
        let size = bytes.len().min(1);
        self.inner.write(&bytes[..size])
    }

    fn flush(&mut self) -> Result<(), Broken> {
        self.inner.flush()
    }

    fn failures(&self) -> u64 {
        self.inner.failures()
    }
}
