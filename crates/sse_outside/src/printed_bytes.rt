ghost use Rattle.std.specs.Prelude.{◌≡◌, ◌≤◌, OnOk, OnErr, IsErrOf};
ghost use Rattle.std.specs.Io.KnownBytes.{append_known};
ghost use Rattle.sse_outside.specs.Causes.{Rose};
ghost use Rattle.sse_outside.specs.Fronts.{TookFront};

use crate::{DeviceFault, Sink};

// Promise P107, also here; clauses: all, front
// Promise P108, also here; clauses: failed, steady, no_memory
/// Writes all of `bytes`, in as many calls as the sink needs.
///
/// After an error the sink has taken a proper front of `bytes`, and no other byte. With `DeviceFault::Failed` the sink's
/// count of faults rose, and with any other answer it stays; with `DeviceFault::NoMemory` its count of shortages rose, and
/// with any other answer that one stays.
pub fn print_all<W: Sink>(sink: &mut W, bytes: &[u8]) -> Result<(), DeviceFault>
    ensures all { OnOk result (W.written sink.new ≡ append_known (W.written sink.old) bytes.now) }
    ensures front { OnErr result (TookFront (W.written sink.old) (W.written sink.new) bytes.now) }
    ensures later { W.faults sink.old ≤ W.faults sink.new }
    ensures failed { IsErrOf result DeviceFault.Failed → Rose (W.faults sink.old) (W.faults sink.new) }
    ensures steady { OnOk result (W.faults sink.new ≡ W.faults sink.old) }
    ensures no_memory { IsErrOf result DeviceFault.NoMemory → W.faults sink.new ≡ W.faults sink.old }
    ensures no_fewer { W.shortages sink.old ≤ W.shortages sink.new }
    ensures shortage { IsErrOf result DeviceFault.NoMemory → Rose (W.shortages sink.old) (W.shortages sink.new) }
    ensures supplied { OnOk result (W.shortages sink.new ≡ W.shortages sink.old) }
    ensures failed_supplied { IsErrOf result DeviceFault.Failed → W.shortages sink.new ≡ W.shortages sink.old }
{
    let mut done = 0;
    while done < bytes.len() {
        let (_, rest) = bytes.split_at(done);
        done += sink.write(rest)?;
    }
    Ok(())
}
