ghost use Rattle.std.specs.Prelude.{◌≡◌, ◌+◌, ◌-◌, ◌^◌, ◌<◌, ◌≤◌, ◌↔◌, min, length, take, Contains, Some, IfOk, OnErr, IsErr};
ghost use Rattle.std.specs.Io.{ReadsAtMost};
ghost use Rattle.std.specs.Io.KnownBytes.{prepend_known, IsAtEnd};
ghost use Rattle.sse_outside.specs.Causes.{HasCause};

use crate::failing_calls::FailingCalls;
use crate::handed_bytes::hand_out;
use crate::{Failed, Source};

/// A source over bytes in memory, of which some calls fail.
#[derive(Drop)]
pub struct MemSource {
    bytes: Vec<u8>,
    at: usize,
    calls: FailingCalls,
    ghost in_bytes: { at ≤ length bytes.items },
    ghost in_limit: { at ≤ 2 ^ 63 },
}

impl MemSource {
    ghost use Rattle.sse_outside.specs.MemSource.{fails_of, next_call_of};

    /// A source of `bytes`, whose calls of the numbers in `fails`, counted from 0, answer `Failed` and hand out
    /// nothing.
    pub fn new(bytes: Vec<u8>, fails: Vec<u64>) -> MemSource
        ensures content { ⟦<MemSource as Source>⟧.remaining result ≡ Some bytes.items }
        ensures handed_out { ⟦<MemSource as Source>⟧.handed_out result ≡ 0 }
        ensures faults { ⟦<MemSource as Source>⟧.faults result ≡ 0 }
        ensures fails { fails_of result ≡ fails.items }
        ensures first { next_call_of result ≡ 0 }
    {
        MemSource {
            bytes,
            at: 0,
            calls: FailingCalls::new(fails),
        }
    }
}

impl Source for MemSource {
    ghost use Rattle.sse_outside.specs.MemSource.{left_of, handed_out_of, fails_of, next_call_of, faults_of};

    ghost remaining = { λ s. Some (left_of s) };

    ghost handed_out = { handed_out_of };

    ghost faults = { faults_of };

    fn read(&mut self, out: &mut [u8]) -> Result<usize, Failed>
        requires { 0 < length out.old }

        // Which calls fail.
        ensures listed { IsErr result ↔ Contains (fails_of self.old) (next_call_of self.old) }
        ensures same_list { fails_of self.new ≡ fails_of self.old }
        ensures next { next_call_of self.new ≡ min (next_call_of self.old + 1) (2 ^ 64 - 1) }

        // As of every source.
        ensures bound { ReadsAtMost result out.new }
        ensures bytes { IfOk result (λ n.
            Some (left_of self.old) ≡ prepend_known (take n out.new) (Some (left_of self.new))) }
        ensures end { IfOk result (λ n. n ≡ 0 → IsAtEnd (Some (left_of self.new))) }
        ensures bytes_err { OnErr result (Some (left_of self.new) ≡ Some (left_of self.old)) }
        ensures count { IfOk result (λ n. handed_out_of self.new ≡ handed_out_of self.old + n) }
        ensures within { IfOk result (λ _. handed_out_of self.new ≤ 2 ^ 63) }
        ensures count_err { OnErr result (handed_out_of self.new ≡ handed_out_of self.old) }
        ensures cause { HasCause (faults_of self.old) (faults_of self.new) result }
    {
        self.calls.count()?;
        let count = hand_out(&self.bytes, self.at, out);
        self.at += count;
        Ok(count)
    }
}
