ghost use Rattle.tcp_service.specs.Faults.{HasSinkCause};
ghost use Rattle.tcp_service.specs.Writing.{IsSaid};

use crate::ConnEnd;
use sse_outside::{DeviceFault, Sink, print_all};

/// Writes all of the bytes. After an error a strict prefix was written, and the end says why.
pub fn say<W: Sink>(sink: &mut W, bytes: &[u8]) -> Result<(), ConnEnd>
    ensures said { IsSaid (W.written sink.old) (W.written sink.new) bytes.now result }
    ensures cause { HasSinkCause (W.faults sink.old) (W.faults sink.new) (W.shortages sink.old) (W.shortages sink.new) result }
{
    match print_all(sink, bytes) {
        Ok(()) => Ok(()),
        Err(DeviceFault::Failed) => Err(ConnEnd::WriteFault),
        Err(DeviceFault::NoMemory) => Err(ConnEnd::OutOfMemory),
    }
}
