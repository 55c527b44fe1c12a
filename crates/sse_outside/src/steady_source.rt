ghost use Rattle.std.specs.Prelude.{◌≡◌, ◌^◌, ◌≤◌, length, drop, Some};

use crate::handed_bytes::hand_out;
use crate::{Failed, Source};

/// A source over bytes in memory that never fails: its count of faults is 0.
#[derive(Drop)]
pub struct SteadySource {
    bytes: Vec<u8>,
    at: usize,
    ghost in_bytes: { at ≤ length bytes.items },
    ghost in_limit: { at ≤ 2 ^ 63 },
}

impl SteadySource {
    /// A source of `bytes`.
    pub fn new(bytes: Vec<u8>) -> SteadySource
        ensures content { ⟦<SteadySource as Source>⟧.remaining result ≡ Some bytes.items }
        ensures handed_out { ⟦<SteadySource as Source>⟧.handed_out result ≡ 0 }
    {
        SteadySource { bytes, at: 0 }
    }
}

impl Source for SteadySource {
    ghost remaining = { λ s. Some (drop s.at s.bytes.items) };

    ghost handed_out = { λ s. s.at };

    ghost faults = { λ _. 0 };

    fn read(&mut self, out: &mut [u8]) -> Result<usize, Failed> {
        let count = hand_out(&self.bytes, self.at, out);
        self.at += count;
        Ok(count)
    }
}
