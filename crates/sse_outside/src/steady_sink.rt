ghost use Rattle.std.specs.Prelude.{◌≡◌, ◌<◌, [], Some};

use crate::{DeviceFault, Sink};
use std::alloc::Global;

/// A sink that keeps what is written in memory and never fails: its count of faults is 0. Memory may run out.
#[derive(Drop)]
pub struct SteadySink {
    bytes: Vec<u8>,
    shortages: u64,
}

impl SteadySink {
    /// A sink with nothing written.
    pub fn new(alloc: Global) -> SteadySink
        ensures content { ⟦<SteadySink as Sink>⟧.written result ≡ Some [] }
    {
        SteadySink {
            bytes: Vec::new(alloc),
            shortages: 0,
        }
    }

    /// All bytes that were written, in order.
    pub fn bytes(&self) -> &[u8]
        ensures { Some result.now ≡ ⟦<SteadySink as Sink>⟧.written self.now }
    {
        &self.bytes
    }
}

impl Sink for SteadySink {
    ghost written = { λ s. Some s.bytes.items };

    ghost faults = { λ _. 0 };

    ghost shortages = { λ s. s.shortages };

    fn write(&mut self, bytes: &[u8]) -> Result<usize, DeviceFault> {
        match self.bytes.extend_from_slice(bytes) {
            Ok(()) => Ok(bytes.len()),
            Err(error) => {
                self.shortages = self.shortages.saturating_add(1);
                Err(error.into())
            }
        }
    }
}
