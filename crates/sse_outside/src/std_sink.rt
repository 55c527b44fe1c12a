ghost use Rattle.std.specs.Prelude.{◌≡◌, ◌≢◌, ◌<◌, ◌≤◌, length, take, Err, IfOk, OnOk, OnErr, IsErrOf};
ghost use Rattle.std.specs.Io.KnownBytes.{append_known};
ghost use Rattle.sse_outside.specs.Causes.{HasCause, Rose};
ghost use Rattle.sse_outside.specs.Told.{AllTellOrNone};

use crate::{DeviceFault, Failed, Sink};
use std::io::{ErrorKind, Write};

/// A sink over a writer of std, as standard output. It tells the bytes that the writer tells: those of a `Vec` are
/// told, those of standard output or of a file can't be.
///
/// A write that a signal interrupts is tried again, up to 2^64 - 1 times. Every other error of the writer is a
/// fault, and so is a write that takes nothing, as of a device that is full. The writer is never flushed, so it
/// should keep nothing back.
#[derive(Drop)]
pub struct StdSink<W: Write> {
    writer: W,
    faults: u64,
    ghost told: { AllTellOrNone W.contents },
}

impl<W: Write> StdSink<W> {
    // Promise P109, also here; clauses: content
    /// A sink that hands all bytes on to `writer`. Writers of its type must all tell their bytes, or none of them.
    pub fn new(writer: W) -> StdSink<W>
        requires { AllTellOrNone W.contents }
        ensures content { ⟦<StdSink<W> as Sink>⟧.written result ≡ W.contents writer }
        ensures faults { ⟦<StdSink<W> as Sink>⟧.faults result ≡ 0 }
    {
        StdSink { writer, faults: 0 }
    }
}

impl<W: Write> Sink for StdSink<W> {
    ghost use Rattle.sse_outside.specs.StdSink.{written_of, faults_of, shortages_of};

    ghost written = { written_of };

    ghost faults = { faults_of };

    ghost shortages = { shortages_of };

    // Promise P109, also here; clauses: cause, never_memory
    fn write(&mut self, bytes: &[u8]) -> Result<usize, DeviceFault>
        requires { 0 < length bytes.now }

        // It takes no memory, and each error is a fault that was counted.
        ensures cause { HasCause (faults_of self.old) (faults_of self.new) result }
        ensures never_memory { result ≢ Err DeviceFault.NoMemory }

        // As of every sink.
        ensures some { IfOk result (λ n. (0 < n) × (n ≤ length bytes.now)) }
        ensures bytes { IfOk result (λ n.
            written_of self.new ≡ append_known (written_of self.old) (take n bytes.now)) }
        ensures bytes_err { OnErr result (written_of self.new ≡ written_of self.old) }
        ensures later { faults_of self.old ≤ faults_of self.new }
        ensures failed { IsErrOf result DeviceFault.Failed → Rose (faults_of self.old) (faults_of self.new) }
        ensures steady { OnOk result (faults_of self.new ≡ faults_of self.old) }
        ensures no_memory { IsErrOf result DeviceFault.NoMemory → faults_of self.new ≡ faults_of self.old }
        ensures no_fewer { shortages_of self.old ≤ shortages_of self.new }
        ensures shortage { IsErrOf result DeviceFault.NoMemory → Rose (shortages_of self.old) (shortages_of self.new) }
        ensures supplied { OnOk result (shortages_of self.new ≡ shortages_of self.old) }
        ensures failed_supplied { IsErrOf result DeviceFault.Failed → shortages_of self.new ≡ shortages_of self.old }
    {
        match write_retrying(&mut self.writer, bytes) {
            Ok(count) => Ok(count),
            Err(Failed) => {
                self.faults = self.faults.saturating_add(1);
                Err(Failed.into())
            }
        }
    }
}

/// One write, tried again where a signal interrupts it. It fails where the writer takes nothing.
fn write_retrying<W: Write>(writer: &mut W, bytes: &[u8]) -> Result<usize, Failed>
    requires { AllTellOrNone W.contents }
    ensures some { IfOk result (λ n. (0 < n) × (n ≤ length bytes.now)) }
    ensures bytes { IfOk result (λ n. W.contents writer.new ≡ append_known (W.contents writer.old) (take n bytes.now)) }
    ensures bytes_err { OnErr result (W.contents writer.new ≡ W.contents writer.old) }
{
    for _ in 0..u64::MAX {
        match writer.write(bytes) {
            Ok(count) if count > 0 => return Ok(count),
            Ok(_) => return Err(Failed),
            Err(error) if error.kind() == ErrorKind::Interrupted => continue,
            Err(_) => return Err(Failed),
        }
    }
    Err(Failed)
}
