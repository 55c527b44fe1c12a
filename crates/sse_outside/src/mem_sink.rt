ghost use Rattle.std.specs.Prelude.{◌≡◌, ◌+◌, ◌-◌, ◌^◌, ◌<◌, ◌≤◌, ◌↔◌, min, [], length, take, Contains, Some, IfOk, OnOk, OnErr, IsErrOf};
ghost use Rattle.std.specs.Io.KnownBytes.{append_known};
ghost use Rattle.sse_outside.specs.Causes.{Rose};

use crate::failing_calls::FailingCalls;
use crate::{DeviceFault, Sink};
use std::alloc::Global;

/// A sink that keeps what is written in memory, and of which some calls fail.
#[derive(Drop)]
pub struct MemSink {
    bytes: Vec<u8>,
    calls: FailingCalls,
    shortages: u64,
}

impl MemSink {
    ghost use Rattle.sse_outside.specs.MemSink.{fails_of, next_call_of};

    /// A sink with nothing written, whose calls of the numbers in `fails`, counted from 0, answer `Failed` and
    /// take nothing.
    pub fn new(alloc: Global, fails: Vec<u64>) -> MemSink
        ensures content { ⟦<MemSink as Sink>⟧.written result ≡ Some [] }
        ensures faults { ⟦<MemSink as Sink>⟧.faults result ≡ 0 }
        ensures fails { fails_of result ≡ fails.items }
        ensures first { next_call_of result ≡ 0 }
    {
        MemSink {
            bytes: Vec::new(alloc),
            calls: FailingCalls::new(fails),
            shortages: 0,
        }
    }

    /// All bytes that were written, in order.
    pub fn bytes(&self) -> &[u8]
        ensures { Some result.now ≡ ⟦<MemSink as Sink>⟧.written self.now }
    {
        &self.bytes
    }
}

impl Sink for MemSink {
    ghost use Rattle.sse_outside.specs.MemSink.{bytes_of, fails_of, next_call_of, faults_of, shortages_of};

    ghost written = { λ s. Some (bytes_of s) };

    ghost faults = { faults_of };

    ghost shortages = { shortages_of };

    fn write(&mut self, bytes: &[u8]) -> Result<usize, DeviceFault>
        requires { 0 < length bytes.now }

        // Which calls fail.
        ensures listed { IsErrOf result DeviceFault.Failed ↔ Contains (fails_of self.old) (next_call_of self.old) }
        ensures same_list { fails_of self.new ≡ fails_of self.old }
        ensures next { next_call_of self.new ≡ min (next_call_of self.old + 1) (2 ^ 64 - 1) }

        // As of every sink, and all bytes are taken at once.
        ensures all { IfOk result (λ n. n ≡ length bytes.now) }
        ensures some { IfOk result (λ n. (0 < n) × (n ≤ length bytes.now)) }
        ensures bytes { IfOk result (λ n.
            Some (bytes_of self.new) ≡ append_known (Some (bytes_of self.old)) (take n bytes.now)) }
        ensures bytes_err { OnErr result (Some (bytes_of self.new) ≡ Some (bytes_of self.old)) }
        ensures later { faults_of self.old ≤ faults_of self.new }
        ensures failed { IsErrOf result DeviceFault.Failed → Rose (faults_of self.old) (faults_of self.new) }
        ensures steady { OnOk result (faults_of self.new ≡ faults_of self.old) }
        ensures no_memory { IsErrOf result DeviceFault.NoMemory → faults_of self.new ≡ faults_of self.old }
        ensures no_fewer { shortages_of self.old ≤ shortages_of self.new }
        ensures shortage { IsErrOf result DeviceFault.NoMemory → Rose (shortages_of self.old) (shortages_of self.new) }
        ensures supplied { OnOk result (shortages_of self.new ≡ shortages_of self.old) }
        ensures failed_supplied { IsErrOf result DeviceFault.Failed → shortages_of self.new ≡ shortages_of self.old }
    {
        self.calls.count()?;
        match self.bytes.extend_from_slice(bytes) {
            Ok(()) => Ok(bytes.len()),
            Err(error) => {
                self.shortages = self.shortages.saturating_add(1);
                Err(error.into())
            }
        }
    }
}
