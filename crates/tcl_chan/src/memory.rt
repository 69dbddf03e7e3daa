//! Devices over memory.
ghost use Rattle.std.specs.Prelude.{◌≡◌, ◌≤◌, ◌<◌, ◌+◌, ◌↔◌, Ok, Some, [], length, min, IsOk, IfOk, vec_len, vec_capacity};
ghost use Rattle.tcl_chan.specs.Devices.{ReadTakes, NoneOnlyAtEnd, WritePuts, failures_after};

use crate::device::{Broken, Input, Output};
use std::alloc::{AllocError, Global};

/// An input of bytes in memory. It never fails.
#[derive(Drop)]
pub struct MemoryInput<'a> {
    bytes: &'a [u8],
}

impl<'a> MemoryInput<'a> {
    ghost use Rattle.tcl_chan.specs.Memories.{bytes_left};

    /// An input of these bytes.
    pub fn new(bytes: &'a [u8]) -> MemoryInput<'a>
        ensures { bytes_left result ≡ bytes.now }
    {
        MemoryInput { bytes }
    }
}

impl Input for MemoryInput<'_> {
    ghost use Rattle.tcl_chan.specs.Memories.{bytes_left};

    ghost to_come = { λ device. Some (bytes_left device) };

    ghost failed_calls = { λ device. 0 };

    fn read(&mut self, buffer: &mut [u8]) -> Result<usize, Broken>
        ensures within { IfOk result (λ n. n ≤ length buffer.old) }
        ensures bytes { ReadTakes (Some (bytes_left self.old)) (Some (bytes_left self.new)) buffer.new result }
        ensures end { NoneOnlyAtEnd (Some (bytes_left self.old)) (length buffer.old) result }
        ensures failures { 0 ≡ failures_after 0 result }

        // It gives all that the buffer has room for.
        ensures whole { result ≡ Ok (min (length buffer.old) (length (bytes_left self.old))) }
    {
        let size = buffer.len().min(self.bytes.len());
        let (front, rest) = self.bytes.split_at(size);
        buffer[..size].copy_from_slice(front);
        self.bytes = rest;
        Ok(size)
    }

    fn failures(&self) -> u64 {
        0
    }
}

/// An output that keeps its bytes in memory, all of which was reserved when it was made. A write that would go past it
/// fails and writes nothing.
#[derive(Drop)]
pub struct MemoryOutput {
    bytes: Vec<u8>,
    capacity: usize,
    failures: u64,
    ghost within: { vec_len bytes ≤ capacity },
    ghost reserved: { capacity ≤ vec_capacity bytes },
}

impl MemoryOutput {
    ghost use Rattle.tcl_chan.specs.Memories.{bytes_of, capacity_of, failures_of};

    /// An output that can take `capacity` bytes in all.
    pub fn new(alloc: Global, capacity: usize) -> Result<MemoryOutput, AllocError>
        ensures empty { IfOk result (λ device. bytes_of device ≡ []) }
        ensures capacity { IfOk result (λ device. capacity_of device ≡ capacity) }
        ensures failures { IfOk result (λ device. failures_of device ≡ 0) }
    {
        let bytes = Vec::with_capacity(alloc, capacity)?;
        Ok(MemoryOutput {
            bytes,
            capacity,
            failures: 0,
        })
    }

    /// The bytes written so far.
    pub fn bytes(&self) -> &[u8]
        ensures { result.now ≡ bytes_of self.now }
    {
        &self.bytes
    }
}

impl Output for MemoryOutput {
    ghost use Rattle.tcl_chan.specs.Memories.{bytes_of, capacity_of, failures_of};

    ghost written = { λ device. Some (bytes_of device) };

    ghost failed_calls = { λ device. failures_of device };

    fn write(&mut self, bytes: &[u8]) -> Result<usize, Broken>
        ensures within { IfOk result (λ n. n ≤ length bytes.now) }
        ensures some { IfOk result (λ n. 0 < length bytes.now → 1 ≤ n) }
        ensures bytes { WritePuts (Some (bytes_of self.old)) (Some (bytes_of self.new)) bytes.now result }
        ensures failures { failures_of self.new ≡ failures_after (failures_of self.old) result }

        // It fails exactly where the bytes would go past the capacity.
        ensures fits { IsOk result ↔ (length (bytes_of self.old) + length bytes.now ≤ capacity_of self.old) }
        ensures whole { IfOk result (λ n. n ≡ length bytes.now) }
        ensures capacity { capacity_of self.new ≡ capacity_of self.old }
    {
        let room = self.capacity - self.bytes.len();
        if bytes.len() > room || self.bytes.extend_from_slice(bytes).is_err() {
            self.failures = self.failures.saturating_add(1);
            return Err(Broken);
        }
        Ok(bytes.len())
    }

    fn flush(&mut self) -> Result<(), Broken>
        ensures bytes { Some (bytes_of self.new) ≡ Some (bytes_of self.old) }
        ensures failures { failures_of self.new ≡ failures_after (failures_of self.old) result }

        // It never fails, and changes nothing.
        ensures done { IsOk result }
        ensures same { self.new ≡ self.old }
    {
        Ok(())
    }

    fn failures(&self) -> u64 {
        self.failures
    }
}
