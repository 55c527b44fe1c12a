ghost use Rattle.std.specs.Prelude.{◌≡◌, ◌<◌, ℕ, List, [], OnOk};
ghost use Rattle.keyed_fn.specs.KeyedFn.{keyed_fn};
ghost use Rattle.server_connections.specs.Connections.{IsConnection};
ghost use Rattle.tcp_service.specs.Faults.{EndsSource, EndsSink, HasSourceCause, HasSinkCause};
ghost use Rattle.tcp_service.specs.Disks.{HasDiskCause, EndsDisk, StaysClosed};
ghost use Rattle.server_connections.specs.ConnectionSteps.{Goes};
ghost use Rattle.tcp_service.specs.Arrivals.{bytes_to_come};

use crate::front_frame::{InFront, refuse, reply, take_front};
use crate::{Keeps, Outgoing};
use keyed_fn::Keyed;
use sse_outside::{Disk, Sink, Source};
use tcp_service::{ConnEnd, Duplex, Incoming, more};

/// Answers the frame in front, reads more of it, or refuses what is there.
fn advance<K: Keyed, D: Disk, S: Keeps<D>, I: Source, O: Sink>(
    keyed: &K,
    store: &mut S,
    disk: &mut D,
    conn: &mut Duplex<I, O>,
    incoming: &mut Incoming,
    outgoing: &mut Outgoing,
) -> Result<(), ConnEnd>
    requires stands { S.stands store.old disk.old }
    ensures stands { S.stands store.new disk.new }
    ensures closed { StaysClosed (S.closed store.old) (S.closed store.new) disk.old disk.new }
    ensures goes { Goes (keyed_fn K.prf K.pad) S.state S.lasts (I.remaining conn.old.source) (I.remaining conn.new.source) (O.written conn.old.sink) (O.written conn.new.sink) incoming.old incoming.new store.old store.new disk.old disk.new result }
    ensures disk_cause { HasDiskCause (S.sound store.old) (S.sound store.new) (D.faults disk.old) (D.faults disk.new) result }
    ensures less { OnOk result (bytes_to_come incoming.new (I.handed_out conn.new.source) < bytes_to_come incoming.old (I.handed_out conn.old.source)) }
    ensures source_cause { HasSourceCause (I.faults conn.old.source) (I.faults conn.new.source) result }
    ensures sink_cause { HasSinkCause (O.faults conn.old.sink) (O.faults conn.new.sink) (O.shortages conn.old.sink) (O.shortages conn.new.sink) result }
{
    match take_front(keyed, store, disk, incoming, &mut outgoing.page) {
        InFront::Part => more(incoming, &mut conn.source),
        InFront::Bad(fault) => Err(refuse(&mut conn.sink, fault, outgoing)),
        InFront::Whole(answer) => {
            reply::<K, D, S, O>(keyed, store, &mut conn.sink, answer, outgoing)
        }
    }
}

// Promise P27 (user): Update frames acknowledged over a connection last after it, also after a fault of the server's disk, with at most one frame more.
//   clauses: connection, closed; fields: IsConnection.lasting, IsLasting.left; assumes: observable devices, disk model, earlier calls; not: The moments of a call: P26 says them
//     of one frame.
// Promise P131 (caller): A connection's frames are answered one by one by the server's step, with replies in order.
//   clauses: connection; fields: IsConnection.answered, IsConnection.read_is, IsConnection.finish; assumes: observable devices, earlier calls; checks: .ci/served; not: An
//     update frame may be answered out of memory instead, and which were isn't said; how long a call waits. The last frame may be answered with a fault of the disk.
// Promise P132 (caller): The end of a connection says whether its replies were written whole; after a first fault of source, sink or disk, that count rose.
//   clauses: connection, source_cause, sink_cause, disk_cause; fields: IsConnection.finish; assumes: observable devices, earlier calls
/// Answers the frames of a connection, one after the other, until it ends, and says how it ended.
///
/// The replies to a frame are written before the next one is read out of the bytes. Behind what is no frame, and behind an
/// update frame that the disk kept from being taken, nothing is read any more: the reply that says so is the last one. What
/// `incoming` held before is dropped. Nothing but an update frame takes memory here.
pub fn serve_connection<K: Keyed, D: Disk, S: Keeps<D>, I: Source, O: Sink>(
    keyed: &K,
    store: &mut S,
    disk: &mut D,
    conn: &mut Duplex<I, O>,
    incoming: &mut Incoming,
    outgoing: &mut Outgoing,
) -> ConnEnd
    requires stands { S.stands store.old disk.old }
    ensures stands { S.stands store.new disk.new }
    ensures closed { StaysClosed (S.closed store.old) (S.closed store.new) disk.old disk.new }
    ensures connection { IsConnection (keyed_fn K.prf K.pad) (I.remaining conn.old.source) (I.remaining conn.new.source) (O.written conn.old.sink) (O.written conn.new.sink) (S.lasts store.old disk.old) (S.lasts store.new disk.new) (S.state store.old) result (S.state store.new) }
    ensures disk_cause { EndsDisk (S.sound store.old) (S.sound store.new) (D.faults disk.old) (D.faults disk.new) result }
    ensures source_cause { EndsSource (I.faults conn.old.source) (I.faults conn.new.source) result }
    ensures sink_cause { EndsSink (O.faults conn.old.sink) (O.faults conn.new.sink) (O.shortages conn.old.sink) (O.shortages conn.new.sink) result }
{
    incoming.clear();
    'frames: loop {
        match advance(keyed, store, disk, conn, incoming, outgoing) {
            Ok(()) => {}
            Err(end) => return end,
        }
    }
}
