ghost use Rattle.std.specs.Prelude.{◌≡◌, ◌≤◌, OnOk, OnErr, IsErrOf};
ghost use Rattle.std.specs.Io.KnownBytes.{append_known};
ghost use Rattle.sse_outside.specs.Causes.{Rose};
ghost use Rattle.sse_outside.specs.Fronts.{TookFront};
ghost use Rattle.sse_script.specs.ShownViews.{shown_view};
ghost use Rattle.sse_script.specs.Texts.{text_of};

use crate::Shown;
use crate::text::line_text;
use sse_outside::{DeviceFault, Sink, print_all};
use std::alloc::Global;

// Promise P101 (caller): A printed line is its text; after an error a prefix of it was printed, and a fault of the sink raised its count.
//   clauses: all, front, failed, steady, no_memory, supplied, failed_supplied; assumes: observable devices; not: That memory ran out at the sink, except for the last line of a stop.
/// Prints one line, its end (byte 0a) included, in time and memory in proportion to its length.
///
/// After an error the sink has taken a proper front of that line, and no other byte. With `DeviceFault::Failed` the sink's
/// count of faults rose, and with any other answer it stays; `NoMemory` is want of memory here or in the sink, whose count of
/// shortages stays with any other answer.
pub fn print<W: Sink>(alloc: Global, sink: &mut W, shown: &Shown<'_>) -> Result<(), DeviceFault>
    ensures all { OnOk result (W.written sink.new ≡ append_known (W.written sink.old) (text_of (shown_view shown.now))) }
    ensures front { OnErr result (TookFront (W.written sink.old) (W.written sink.new) (text_of (shown_view shown.now))) }
    ensures later { W.faults sink.old ≤ W.faults sink.new }
    ensures failed { IsErrOf result DeviceFault.Failed → Rose (W.faults sink.old) (W.faults sink.new) }
    ensures steady { OnOk result (W.faults sink.new ≡ W.faults sink.old) }
    ensures no_memory { IsErrOf result DeviceFault.NoMemory → W.faults sink.new ≡ W.faults sink.old }
    ensures no_fewer { W.shortages sink.old ≤ W.shortages sink.new }
    ensures supplied { OnOk result (W.shortages sink.new ≡ W.shortages sink.old) }
    ensures failed_supplied { IsErrOf result DeviceFault.Failed → W.shortages sink.new ≡ W.shortages sink.old }
{
    let text = line_text(alloc, shown)?;
    print_all(sink, text.as_bytes())
}
