//! Devices that cut what they give at a chosen place, or that go on behind an end.
ghost use Rattle.std.specs.Prelude.{None, Some};
ghost use Rattle.tcl_chan.specs.Memories.{bytes_left};

use tcl_chan::device::{Broken, Input};
use tcl_chan::memory::MemoryInput;

/// An input of bytes in memory that gives none past a chosen place before it has given all up to there.
#[derive(Drop)]
pub struct CutInput<'a> {
    pub inner: MemoryInput<'a>,
    /// How many bytes there are up to that place.
    pub front: usize,
}

impl Input for CutInput<'_> {
    ghost to_come = { λ device. Some (bytes_left device.inner) };

    ghost failed_calls = { λ device. 0 };

    fn read(&mut self, buffer: &mut [u8]) -> Result<usize, Broken> {
        let size = if self.front == 0 {
            buffer.len()
        } else {
            buffer.len().min(self.front)
        };
        let n = self.inner.read(&mut buffer[..size])?;
        self.front = self.front.saturating_sub(n);
        Ok(n)
    }

    fn failures(&self) -> u64 {
        0
    }
}

/// An input that gives a byte and an end by turns, and tells neither.
#[derive(Drop)]
pub struct Resuming {
    pub at_end: bool,
}

impl Input for Resuming {
    ghost to_come = { λ _. None };

    ghost failed_calls = { λ _. 0 };

    fn read(&mut self, buffer: &mut [u8]) -> Result<usize, Broken> {
        let n = if self.at_end { 0 } else { buffer.len().min(1) };
        buffer[..n].fill(b'x');
        self.at_end = !self.at_end;
        Ok(n)
    }

    fn failures(&self) -> u64 {
        0
    }
}
