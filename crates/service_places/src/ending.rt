ghost use Rattle.service_places.specs.Endings.{EndsFor};
ghost use Rattle.sse_outside.specs.Fronts.{TookOrRose};

use crate::Stop;
use sse_outside::{Sink, print_all};

/// Prints the last line of a program that ends for this cause; its status.
pub fn finish<W: Sink>(sink: &mut W, stop: Stop) -> u8
    ensures { EndsFor stop (record { written = W.written sink.old; written2 = W.written sink.new; faults = W.faults sink.old; faults2 = W.faults sink.new; shortages = W.shortages sink.old; shortages2 = W.shortages sink.new }) result }
{
    say_line(sink, stop.line());
    stop.status()
}

/// Prints a line as far as the sink takes it.
pub fn say_line<W: Sink>(sink: &mut W, line: &[u8])
    ensures { TookOrRose (W.written sink.old) (W.written sink.new) line.now (W.faults sink.old) (W.faults sink.new) (W.shortages sink.old) (W.shortages sink.new) }
{
    let _ = print_all(sink, line);
}
