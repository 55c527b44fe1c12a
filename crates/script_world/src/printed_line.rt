ghost use Rattle.std.specs.Prelude.{◌≡◌, ◌≤◌, OnOk, OnErr, IsErrOf};
ghost use Rattle.std.specs.Io.KnownBytes.{append_known};
ghost use Rattle.sse_outside.specs.Causes.{Rose};
ghost use Rattle.sse_outside.specs.Fronts.{TookFront};
ghost use Rattle.script_world.specs.WorldTexts.{world_shown_view, world_text};

use crate::world_shown::WorldShown;
use crate::world_text::line_text;
use sse_outside::{DeviceFault, Sink, print_all};
use std::alloc::Global;

// Promise P328, also here; clauses: all, front, failed, steady, no_memory
/// Prints one line, its end (byte 0a) included.
///
/// After an error the sink has taken a strict prefix of that line, and no other byte. With `DeviceFault::Failed` the sink's
/// count of faults rose, and with any other answer it stays; `NoMemory` says that memory ran out, here or in the sink.
pub fn print_world_line<W: Sink>(
    alloc: Global,
    sink: &mut W,
    shown: &WorldShown<'_>,
) -> Result<(), DeviceFault>
    ensures all { OnOk result (W.written sink.new ≡ append_known (W.written sink.old) (world_text (world_shown_view shown.now))) }
    ensures front { OnErr result (TookFront (W.written sink.old) (W.written sink.new) (world_text (world_shown_view shown.now))) }
    ensures later { W.faults sink.old ≤ W.faults sink.new }
    ensures failed { IsErrOf result DeviceFault.Failed → Rose (W.faults sink.old) (W.faults sink.new) }
    ensures steady { OnOk result (W.faults sink.new ≡ W.faults sink.old) }
    ensures no_memory { IsErrOf result DeviceFault.NoMemory → W.faults sink.new ≡ W.faults sink.old }
{
    let text = line_text(alloc, shown)?;
    print_all(sink, text.as_bytes())
}
