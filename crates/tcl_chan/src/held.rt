//! The bytes that were read ahead of the characters that were taken.
ghost use Rattle.std.specs.Prelude.{[], ◌≡◌, ◌≤◌, ◌<◌, ◌^◌, ℕ, false, List, Some, drop, length, IfSome, IfOk, IfErr, OnOk, OnErr};
ghost use Rattle.tcl_chan.specs.Devices.{unread_bytes};
ghost use Rattle.tcl_chan.specs.Faults.{IsInputFault, read_failures};
ghost use Rattle.tcl_chan.specs.Ahead.{Grew};

use crate::device::{Broken, Input};
use crate::fault::ChanFault;
use std::alloc::Global;
use std::marker::Model;

// How many bytes a device is asked for at once.
const CHUNK: usize = 8192;

/// Bytes that were read and not taken yet.
#[derive(Drop)]
pub struct Held {
    bytes: Vec<u8>,
    // How many of the bytes were taken.
    taken: usize,
}

impl Model for Held {
    ghost Value = { List ℕ };

    ghost view = { λ held. drop held.taken held.bytes.items };

    ghost invariant = { λ held. held.taken ≤ length held.bytes.items };
}

impl Held {
    /// No bytes.
    pub fn new(alloc: Global) -> Held
        ensures { result ≡ [] }
    {
        Held {
            bytes: Vec::new(alloc),
            taken: 0,
        }
    }

    /// The bytes.
    pub fn bytes(&self) -> &[u8]
        ensures { result.now ≡ self.now }
    {
        &self.bytes[self.taken..]
    }

    /// Lets go of the first bytes.
    pub fn pass(&mut self, size: usize)
        requires { size ≤ length self.old }
        ensures { self.new ≡ drop size self.old }
    {
        self.taken += size;
    }

    // Moves the bytes to the front once they are no more than those that were taken, so that all moves together cost no
    // more than the bytes read.
    fn compact(&mut self)
        ensures { self.new ≡ self.old }
    {
        let left = self.bytes.len() - self.taken;
        if left <= self.taken {
            self.bytes.rotate_left(self.taken);
            self.bytes.truncate(left);
            self.taken = 0;
        }
    }

    /// Reads more bytes behind these, and answers whether the device was at its end.
    pub fn fill<R: Input>(&mut self, input: &mut R) -> Result<bool, ChanFault>
        ensures fault { IfErr result IsInputFault }
        ensures failures { R.failed_calls input.new ≡ read_failures (R.failed_calls input.old) result }
        ensures unread { IfOk result (λ ended. IfSome (unread_bytes self.old false (R.to_come input.old))
            (λ bytes. unread_bytes self.new ended (R.to_come input.new) ≡ Some bytes)) }
        ensures grew { IfOk result (λ ended. Grew self.old self.new ended) }
        ensures small { OnOk result (length self.new < 2 ^ 63) }
        ensures kept { OnErr result (self.new ≡ self.old) }
        ensures none_lost { OnErr result (R.to_come input.new ≡ R.to_come input.old) }
    {
        self.compact();
        self.bytes.reserve(CHUNK)?;
        let mut chunk = [0; CHUNK];
        match input.read(&mut chunk) {
            Err(Broken) => Err(ChanFault::Read),
            Ok(n) => {
                self.bytes.extend_from_slice(&chunk[..n])?;
                Ok(n == 0)
            }
        }
    }
}
