ghost use Rattle.std.specs.Prelude.{◌≡◌, ◌<◌, List, IsSome, OnOk};
ghost use Rattle.tcp_service.specs.Faults.{EndsSink, EndsSource, HasSinkCause, HasSourceCause};
ghost use Rattle.tcp_service.specs.Arrivals.{bytes_to_come};
ghost use Rattle.tcp_service.specs.Disks.{EndsDisk, HasDiskCause, IsSound, StaysClosed};
ghost use Rattle.sse_journal.specs.JournalView.{broken_by};
ghost use Rattle.vault_server.specs.VaultFrames as replies;
ghost use Rattle.vault_server.specs.VaultServerView.{IsWithin};
ghost use Rattle.vault_served.specs.Connections.{IsConnection};
ghost use Rattle.vault_served.specs.Lasting.{Lasts};
ghost use Rattle.vault_served.specs.Steps.{Goes, IsReplied, IsSaidLast};

use crate::front::{InFront, take_front};
use crate::reply_room::ReplyRoom;
use sse_outside::{Disk, Sink, Source};
use tcp_service::{ConnEnd, Duplex, Incoming, more};
use vault_server::{VaultAnswer, VaultReply, VaultServer};

/// Writes the reply to the length of no body, which is the last one, and returns how the connection ends.
fn refuse<W: Sink>(sink: &mut W, room: &mut ReplyRoom) -> ConnEnd
    ensures refused { IsSaidLast (W.written sink.old) (W.written sink.new) replies.BadFrame ConnEnd.BadFrame result }
    ensures cause { EndsSink (W.faults sink.old) (W.faults sink.new) (W.shortages sink.old) (W.shortages sink.new) result }
{
    match room.say(sink, &VaultReply::BadFrame) {
        Ok(()) => ConnEnd::BadFrame,
        Err(end) => end,
    }
}

/// Writes the reply to an answer. After that of a store fault the connection ends.
fn reply<W: Sink>(
    server: &VaultServer,
    sink: &mut W,
    answer: VaultAnswer,
    room: &mut ReplyRoom,
) -> Result<(), ConnEnd>
    ensures replied { IsReplied (W.written sink.old) (W.written sink.new) server.now.state answer result }
    ensures cause { HasSinkCause (W.faults sink.old) (W.faults sink.new) (W.shortages sink.old) (W.shortages sink.new) result }
{
    room.say(sink, &server.reply(&answer))?;
    match answer {
        VaultAnswer::StoreFault => Err(ConnEnd::StoreFault),
        _ => Ok(()),
    }
}

/// Answers the frame in front, reads more of it, or refuses what is there.
fn advance<D: Disk, I: Source, O: Sink>(
    server: &mut VaultServer,
    disk: &mut D,
    conn: &mut Duplex<I, O>,
    incoming: &mut Incoming,
    room: &mut ReplyRoom,
) -> Result<(), ConnEnd>
    requires within { IsWithin server.old.journal (D.content disk.old) }
    ensures within { IsWithin server.new.journal (D.content disk.new) }
    ensures closed { StaysClosed (IsSome (broken_by server.old.journal)) (IsSome (broken_by server.new.journal)) disk.old disk.new }
    ensures goes { Goes (Lasts D.content D.images) (I.remaining conn.old.source) (I.remaining conn.new.source) (O.written conn.old.sink) (O.written conn.new.sink) incoming.old incoming.new server.old server.new disk.old disk.new result }
    ensures disk_cause { HasDiskCause (IsSound server.old.journal) (IsSound server.new.journal) (D.faults disk.old) (D.faults disk.new) result }
    ensures less { OnOk result (bytes_to_come incoming.new (I.handed_out conn.new.source) < bytes_to_come incoming.old (I.handed_out conn.old.source)) }
    ensures source_cause { HasSourceCause (I.faults conn.old.source) (I.faults conn.new.source) result }
    ensures sink_cause { HasSinkCause (O.faults conn.old.sink) (O.faults conn.new.sink) (O.shortages conn.old.sink) (O.shortages conn.new.sink) result }
{
    match take_front(server, disk, incoming) {
        InFront::Part => more(incoming, &mut conn.source),
        InFront::Bad => Err(refuse(&mut conn.sink, room)),
        InFront::Whole(answer) => reply(server, &mut conn.sink, answer, room),
    }
}

// Promise P184 (user): Updates that a vault acknowledged over a connection last after it, also after a fault of its disk, with at most one update more.
//   clauses: connection, closed; fields: IsConnection.lasting, IsLasting.left; assumes: observable devices, disk model, earlier calls; checks: .ci/vault; not: The moments of a
//     call: P191 says them of one frame.
// Promise P185 (inside): A connection's frames are answered one by one by the vault's step, one reply to each, in order.
//   clauses: connection; fields: IsConnection.answered, IsConnection.read_is, IsConnection.finish; assumes: observable devices, earlier calls; checks: .ci/vault; not: An
//     update may be answered out of memory instead, and which were isn't said. The last frame may be answered with a fault of the disk.
// Promise P186 (inside): The end of a vault's connection says whether its replies were written whole; after a first fault of source, sink or disk, that count rose.
//   clauses: connection, source_cause, sink_cause, disk_cause; fields: IsConnection.finish; assumes: observable devices, earlier calls
/// Answers the frames of a connection, one after the other, until it ends, and returns how it ended.
///
/// The reply to a frame is written before the next frame is looked at. After the length of no body, and after an update
/// that the disk kept from being taken, nothing is read any more: the reply that says so is the last one. A body that is
/// no frame is answered, and the connection goes on. What `incoming` held before is dropped. Nothing but an update takes memory here.
pub(crate) fn serve_connection<D: Disk, I: Source, O: Sink>(
    server: &mut VaultServer,
    disk: &mut D,
    conn: &mut Duplex<I, O>,
    incoming: &mut Incoming,
    room: &mut ReplyRoom,
) -> ConnEnd
    requires within { IsWithin server.old.journal (D.content disk.old) }
    ensures within { IsWithin server.new.journal (D.content disk.new) }
    ensures closed { StaysClosed (IsSome (broken_by server.old.journal)) (IsSome (broken_by server.new.journal)) disk.old disk.new }
    ensures connection { IsConnection (I.remaining conn.old.source) (I.remaining conn.new.source) (O.written conn.old.sink) (O.written conn.new.sink)
        (Lasts D.content D.images server.old disk.old) (Lasts D.content D.images server.new disk.new) server.old.state result server.new.state }
    ensures disk_cause { EndsDisk (IsSound server.old.journal) (IsSound server.new.journal) (D.faults disk.old) (D.faults disk.new) result }
    ensures source_cause { EndsSource (I.faults conn.old.source) (I.faults conn.new.source) result }
    ensures sink_cause { EndsSink (O.faults conn.old.sink) (O.faults conn.new.sink) (O.shortages conn.old.sink) (O.shortages conn.new.sink) result }
{
    incoming.clear();
    'frames: loop {
        match advance(server, disk, conn, incoming, room) {
            Ok(()) => {}
            Err(end) => return end,
        }
    }
}
