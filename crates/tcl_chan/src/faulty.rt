//! Devices of which a chosen call fails.
ghost use Rattle.std.specs.Prelude.{◌≡◌, ◌≢◌, ◌≤◌, ◌<◌, ◌-◌, ◌↔◌, length, IfOk, IsErr, IsTrue};
ghost use Rattle.tcl_chan.specs.Devices.{ReadTakes, NoneOnlyAtEnd, WritePuts, failures_after};

use crate::device::{Broken, Input, Output};

// Which call of a kind is to fail.
#[derive(Drop)]
struct Fault {
    // The number of the call that fails, counted from 1 from here on; 0 means none.
    due: u64,
}

impl Fault {
    // Counts a call, and says whether it is the one that fails.
    fn is_now(&mut self) -> bool
        ensures now { IsTrue result ↔ (self.old.due ≡ 1) }
        ensures due { self.new.due ≡ self.old.due - 1 }
    {
        let now = self.due == 1;
        self.due = self.due.saturating_sub(1);
        now
    }
}

/// An input of which the read of one number, counted from 1, fails; 0 means none. All other calls pass on to the inner
/// device.
#[derive(Drop)]
pub struct FaultyInput<D> {
    inner: D,
    fault: Fault,
    faults: u64,
}

impl<D> FaultyInput<D> {
    ghost use Rattle.tcl_chan.specs.Wrappers.{faulty_input_inner, read_fault, own_read_failures};

    /// A device that passes on to this one, but fails at the read of that number.
    pub fn new(inner: D, fail_read: u64) -> FaultyInput<D>
        ensures inner { faulty_input_inner result ≡ inner }
        ensures fault { read_fault result ≡ fail_read }
        ensures failures { own_read_failures result ≡ 0 }
    {
        FaultyInput {
            inner,
            fault: Fault { due: fail_read },
            faults: 0,
        }
    }

    /// The device that the calls pass on to.
    pub fn inner(&self) -> &D
        ensures { result.now ≡ faulty_input_inner self.now }
    {
        &self.inner
    }
}

impl<D: Input> Input for FaultyInput<D> {
    ghost use Rattle.tcl_chan.specs.Wrappers.{faulty_input_inner, read_fault, own_read_failures, faulty_input_failures};

    ghost to_come = { λ device. D.to_come (faulty_input_inner device) };

    ghost failed_calls = { λ device. faulty_input_failures D.failed_calls device };

    fn read(&mut self, buffer: &mut [u8]) -> Result<usize, Broken>
        ensures within { IfOk result (λ n. n ≤ length buffer.old) }
        ensures bytes { ReadTakes (D.to_come (faulty_input_inner self.old)) (D.to_come (faulty_input_inner self.new)) buffer.new result }
        ensures end { NoneOnlyAtEnd (D.to_come (faulty_input_inner self.old)) (length buffer.old) result }
        ensures failures { faulty_input_failures D.failed_calls self.new ≡ failures_after (faulty_input_failures D.failed_calls self.old) result }

        // The call whose turn it is fails and reaches nothing; any other passes on.
        ensures fault { read_fault self.old ≡ 1 → IsErr result }
        ensures untouched { read_fault self.old ≡ 1 → faulty_input_inner self.new ≡ faulty_input_inner self.old }
        ensures passes { read_fault self.old ≢ 1 → own_read_failures self.new ≡ own_read_failures self.old }
        ensures next { read_fault self.new ≡ read_fault self.old - 1 }
    {
        if self.fault.is_now() {
            self.faults = self.faults.saturating_add(1);
            return Err(Broken);
        }
        self.inner.read(buffer)
    }

    fn failures(&self) -> u64 {
        self.inner.failures().saturating_add(self.faults)
    }
}

/// An output of which the write of one number and the flush of one number, each counted from 1, fail; 0 means none. All
/// other calls pass on to the inner device.
#[derive(Drop)]
pub struct FaultyOutput<D> {
    inner: D,
    write_fault: Fault,
    flush_fault: Fault,
    faults: u64,
}

impl<D> FaultyOutput<D> {
    ghost use Rattle.tcl_chan.specs.Wrappers.{faulty_output_inner, write_fault, flush_fault, own_failures};

    /// A device that passes on to this one, but fails at the write and at the flush of these numbers.
    pub fn new(inner: D, fail_write: u64, fail_flush: u64) -> FaultyOutput<D>
        ensures inner { faulty_output_inner result ≡ inner }
        ensures write_fault { write_fault result ≡ fail_write }
        ensures flush_fault { flush_fault result ≡ fail_flush }
        ensures failures { own_failures result ≡ 0 }
    {
        FaultyOutput {
            inner,
            write_fault: Fault { due: fail_write },
            flush_fault: Fault { due: fail_flush },
            faults: 0,
        }
    }

    /// The device that the calls pass on to.
    pub fn inner(&self) -> &D
        ensures { result.now ≡ faulty_output_inner self.now }
    {
        &self.inner
    }
}

impl<D: Output> Output for FaultyOutput<D> {
    ghost use Rattle.tcl_chan.specs.Wrappers.{faulty_output_inner, write_fault, flush_fault, own_failures, faulty_output_failures};

    ghost written = { λ device. D.written (faulty_output_inner device) };

    ghost failed_calls = { λ device. faulty_output_failures D.failed_calls device };

    fn write(&mut self, bytes: &[u8]) -> Result<usize, Broken>
        ensures within { IfOk result (λ n. n ≤ length bytes.now) }
        ensures some { IfOk result (λ n. 0 < length bytes.now → 1 ≤ n) }
        ensures bytes { WritePuts (D.written (faulty_output_inner self.old)) (D.written (faulty_output_inner self.new)) bytes.now result }
        ensures failures { faulty_output_failures D.failed_calls self.new ≡ failures_after (faulty_output_failures D.failed_calls self.old) result }

        // The call whose turn it is fails and reaches nothing; any other passes on.
        ensures fault { write_fault self.old ≡ 1 → IsErr result }
        ensures untouched { write_fault self.old ≡ 1 → faulty_output_inner self.new ≡ faulty_output_inner self.old }
        ensures passes { write_fault self.old ≢ 1 → own_failures self.new ≡ own_failures self.old }
        ensures next { write_fault self.new ≡ write_fault self.old - 1 }
        ensures other { flush_fault self.new ≡ flush_fault self.old }
    {
        if self.write_fault.is_now() {
            self.faults = self.faults.saturating_add(1);
            return Err(Broken);
        }
        self.inner.write(bytes)
    }

    fn flush(&mut self) -> Result<(), Broken>
        ensures bytes { D.written (faulty_output_inner self.new) ≡ D.written (faulty_output_inner self.old) }
        ensures failures { faulty_output_failures D.failed_calls self.new ≡ failures_after (faulty_output_failures D.failed_calls self.old) result }

        // The call whose turn it is fails and reaches nothing; any other passes on.
        ensures fault { flush_fault self.old ≡ 1 → IsErr result }
        ensures untouched { flush_fault self.old ≡ 1 → faulty_output_inner self.new ≡ faulty_output_inner self.old }
        ensures passes { flush_fault self.old ≢ 1 → own_failures self.new ≡ own_failures self.old }
        ensures next { flush_fault self.new ≡ flush_fault self.old - 1 }
        ensures other { write_fault self.new ≡ write_fault self.old }
    {
        if self.flush_fault.is_now() {
            self.faults = self.faults.saturating_add(1);
            return Err(Broken);
        }
        self.inner.flush()
    }

    fn failures(&self) -> u64 {
        self.inner.failures().saturating_add(self.faults)
    }
}
