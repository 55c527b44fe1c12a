ghost use Rattle.std.specs.Prelude.{◌≡◌, ◌≤◌, ◌⊎◌};
ghost use Rattle.script_run_texts.specs.Stops.{journal_line, journal_status, last_line, stop_status};
ghost use Rattle.sse_outside.specs.Causes.{Rose};
ghost use Rattle.sse_outside.specs.Fronts.{TookOrRose};

use crate::{CommandStop, InputStop, JournalStop, PeerStop, StopCause};
use sse_outside::{DeviceFault, Sink};
use sse_script::print_stop;

// Promise P09, also here; clauses: line
/// Prints the last line of a run that stopped, as far as the sink takes it, and answers the run's status. It takes no memory.
pub fn finish<W: Sink>(sink: &mut W, stop: StopCause) -> u8
    ensures status { result ≡ stop_status stop }
    ensures line { TookOrRose (W.written sink.old) (W.written sink.new) (last_line stop)
        (W.faults sink.old) (W.faults sink.new) (W.shortages sink.old) (W.shortages sink.new) }
    ensures later { W.faults sink.old ≤ W.faults sink.new }
    ensures source { result ≡ 3 → stop ≡ StopCause.Input InputStop.Source }
    ensures sink { result ≡ 4 → stop ≡ StopCause.Sink }
    ensures link { result ≡ 5 → stop ≡ StopCause.Command (CommandStop.Exchange PeerStop.Link) }
    ensures disk { result ≡ 6 → stop ≡ StopCause.Command (CommandStop.Keeping DeviceFault.Failed) }
    ensures known { (2 ≤ result) × (result ≤ 9) }
{
    if let Some(cause) = stop.cause() {
        let _ = print_stop(sink, &cause);
    }
    stop.status()
}

// Promise P123 (caller): If a run's journal isn't opened, its status and last line are those of the cause: 6, 7, 10 or 11.
//   clauses: status, line, later, disk, memory, key, known; assumes: observable devices; not: That the line is whole: a prefix may be printed if a count of the sink rose.
/// Prints the last line of a run that ended in the opening of its journal, as far as the sink takes it, and answers the run's status:
/// 6, 7, 10 or 11. It takes no memory.
pub fn finish_unopened<W: Sink>(sink: &mut W, stop: JournalStop) -> u8
    ensures status { result ≡ journal_status stop }
    ensures line { TookOrRose (W.written sink.old) (W.written sink.new) (journal_line stop)
        (W.faults sink.old) (W.faults sink.new) (W.shortages sink.old) (W.shortages sink.new) }
    ensures later { W.faults sink.old ≤ W.faults sink.new }
    ensures disk { result ≡ 6 → stop ≡ JournalStop.Disk }
    ensures memory { result ≡ 7 → stop ≡ JournalStop.Memory }
    ensures key { result ≡ 11 → stop ≡ JournalStop.WrongKey }
    ensures known { (result ≡ 6) ⊎ ((result ≡ 7) ⊎ ((result ≡ 10) ⊎ (result ≡ 11))) }
{
    let _ = print_stop(sink, &stop.cause());
    stop.status()
}
