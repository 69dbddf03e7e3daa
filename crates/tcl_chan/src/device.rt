//! What bytes come from, and what they go to.
ghost use Rattle.std.specs.Prelude.{◌≡◌, ◌≤◌, ◌<◌, ℕ, List, Option, length, IfOk};
ghost use Rattle.tcl_chan.specs.Devices.{ReadTakes, NoneOnlyAtEnd, WritePuts, failures_after};

use thiserror::Error;

/// A device failed.
#[derive(Clone, Copy, Debug, Error, PartialEq, Eq)]
#[error("a device failed")]
pub struct Broken;

/// Where bytes come from.
pub trait Input {
    /// The bytes still to come, up to the device's first end, where the device tells them.
    ghost to_come: { Self → Option (List ℕ) };

    /// How many of its calls have failed; at the greatest number of 64 bits the count stands still.
    ghost failed_calls: { Self → ℕ };

    /// Puts the next bytes at the buffer's beginning and answers how many. None are put there only at the end, or where
    /// the buffer is empty. A failed read takes none.
    fn read(&mut self, buffer: &mut [u8]) -> Result<usize, Broken>
        ensures within { IfOk result (λ n. n ≤ length buffer.old) }
        ensures bytes { ReadTakes (to_come self.old) (to_come self.new) buffer.new result }
        ensures end { NoneOnlyAtEnd (to_come self.old) (length buffer.old) result }
        ensures failures { failed_calls self.new ≡ failures_after (failed_calls self.old) result };

    /// How many of its calls have failed.
    fn failures(&self) -> u64
        ensures { result ≡ failed_calls self.now };
}

/// Where bytes go to.
pub trait Output {
    /// The bytes written so far, where the device tells them.
    ghost written: { Self → Option (List ℕ) };

    /// How many of its calls have failed; at the greatest number of 64 bits the count stands still.
    ghost failed_calls: { Self → ℕ };

    /// Writes the bytes or a beginning of them, at least one where there is one, and answers how many. A failed write
    /// writes none.
    fn write(&mut self, bytes: &[u8]) -> Result<usize, Broken>
        ensures within { IfOk result (λ n. n ≤ length bytes.now) }
        ensures some { IfOk result (λ n. 0 < length bytes.now → 1 ≤ n) }
        ensures bytes { WritePuts (written self.old) (written self.new) bytes.now result }
        ensures failures { failed_calls self.new ≡ failures_after (failed_calls self.old) result };

    /// Sends on what the device itself holds back.
    fn flush(&mut self) -> Result<(), Broken>
        ensures bytes { written self.new ≡ written self.old }
        ensures failures { failed_calls self.new ≡ failures_after (failed_calls self.old) result };

    /// How many of its calls have failed.
    fn failures(&self) -> u64
        ensures { result ≡ failed_calls self.now };
}
