ghost use Rattle.std.specs.Prelude.{◌≡◌, ℕ, ◌<◌, ◌≤◌, List, length, take, IfOk, OnOk, OnErr, IsErrOf};
ghost use Rattle.std.specs.declared.option.Option.{Option};
ghost use Rattle.std.specs.Io.KnownBytes.{append_known};
ghost use Rattle.sse_outside.specs.Causes.{Rose};

use crate::DeviceFault;

/// Where bytes go: standard output, a connection, or memory.
///
/// A sink tells three things to contracts: `written`, all bytes that it took, in order, where it can tell them (a
/// real device can't, and then it is `None`); `faults`, its count of faults; and `shortages`, its count of calls that
/// lacked memory.
pub trait Sink {
    ghost written: { Self → Option (List ℕ) };

    ghost faults: { Self → ℕ };

    ghost shortages: { Self → ℕ };

    // Promise P107, also here; clauses: some, bytes, bytes_err
    // Promise P108, also here; clauses: failed, steady, no_memory
    /// Takes bytes from the front of `bytes`, which isn't empty, and answers how many: between one and all.
    ///
    /// After an error none of `bytes` was taken. With `DeviceFault::Failed` the count of faults rose in this call;
    /// a device that takes nothing, as a full one, counts a fault. With any other answer the count stays, so that
    /// want of memory never stands for a fault of the device. With `DeviceFault::NoMemory` the count of shortages rose,
    /// and with any other answer that one stays.
    fn write(&mut self, bytes: &[u8]) -> Result<usize, DeviceFault>
        requires { 0 < length bytes.now }
        ensures some { IfOk result (λ n. (0 < n) × (n ≤ length bytes.now)) }
        ensures bytes { IfOk result (λ n. written self.new ≡ append_known (written self.old) (take n bytes.now)) }
        ensures bytes_err { OnErr result (written self.new ≡ written self.old) }

        // The count of faults.
        ensures later { faults self.old ≤ faults self.new }
        ensures failed { IsErrOf result DeviceFault.Failed → Rose (faults self.old) (faults self.new) }
        ensures steady { OnOk result (faults self.new ≡ faults self.old) }
        ensures no_memory { IsErrOf result DeviceFault.NoMemory → faults self.new ≡ faults self.old }

        // The count of shortages.
        ensures no_fewer { shortages self.old ≤ shortages self.new }
        ensures shortage { IsErrOf result DeviceFault.NoMemory → Rose (shortages self.old) (shortages self.new) }
        ensures supplied { OnOk result (shortages self.new ≡ shortages self.old) }
        ensures failed_supplied { IsErrOf result DeviceFault.Failed → shortages self.new ≡ shortages self.old };
}
