ghost use Rattle.std.specs.Prelude.{◌≡◌, ◌<◌, ◌^◌, List, IsSome, IfErr, IfOk, OnOk};
ghost use Rattle.std.specs.Int.{w64, to_be_bytes};
ghost use Rattle.std.specs.Io.KnownBytes.{prepend_known};
ghost use Rattle.keyed_fn.specs.KeyedFn.{keyed_fn};
ghost use Rattle.sse_journal.specs.JournalView.{broken_by};
ghost use Rattle.sse_server.specs.StoreView.{IsWithin};
ghost use Rattle.sse_owners.specs.Owned.{OwnedFrame};
ghost use Rattle.sse_owners.specs.OwnersView.{IsOwnersOf};
ghost use Rattle.tcp_service.specs.Faults.{EndsSource, EndsSink};
ghost use Rattle.tcp_service.specs.Disks.{EndsDisk, IsSound, StaysClosed};
ghost use Rattle.tcp_service.specs.Heads.{IsCutShort};
ghost use Rattle.server_connections.specs.OwnerConnections.{ServesOwner};

use crate::Outgoing;
use crate::connection::serve_connection;
use crate::front_frame::refuse_owner;
use keyed_fn::Keyed;
use server_tables::Tables;
use sse_outside::{Disk, Sink, Source};
use sse_owners::{Owners, UnknownOwner};
use tcp_service::{ConnEnd, Duplex, Incoming, read_full};

/// Reads the owner's number with which a connection begins: eight bytes, the most significant first.
fn read_owner<S: Source>(source: &mut S) -> Result<u64, ConnEnd>
    ensures owner { IfOk result (λ owner. S.remaining source.old ≡ prepend_known (to_be_bytes w64 owner) (S.remaining source.new)) }
    ensures short { IfOk result (λ owner. owner < 2 ^ 64) }
    ensures steady { OnOk result (S.faults source.new ≡ S.faults source.old) }
    ensures cut { IfErr result (IsCutShort 8 (S.remaining source.old) (S.remaining source.new) (S.faults source.old) (S.faults source.new)) }
{
    let mut head = [0; 8];
    match read_full(source, &mut head) {
        Ok(()) => Ok(number_of(&head)),
        Err(end) => Err(end),
    }
}

/// The number that these bytes spell.
fn number_of(bytes: &[u8; 8]) -> u64
    ensures number { to_be_bytes w64 result ≡ bytes.now }
    ensures short { result < 2 ^ 64 }
{
    u64::from_be_bytes(*bytes)
}

// Promise P261 (caller): A connection is served by the server of the owner whose number it begins with; of an unknown owner it is refused, and takes nothing.
//   clauses: served; fields: IsOfOwner.answered, IsOfOwner.taken_are, IsOfNoOwner.none_taken, HeadIsCut.none_taken; assumes: observable devices, disk model, earlier calls; not: That
//     who sends an owner's number is this owner.
// Promise P262 (caller): The end of an owner's connection says whether its replies were written whole; after a first fault of source, sink or disk, that count rose.
//   clauses: source_cause, sink_cause, disk_cause, closed; assumes: observable devices, earlier calls
/// Answers the frames of a connection that begins with an owner's number, by this owner's server, and says how it ended.
///
/// If fewer than eight bytes come, nothing is answered. If no owner has the number, the one reply is `out of place`, and no frame
/// is read: the connection is never served as that of the owner who was chosen before.
pub fn serve_owner<K: Keyed, T: Tables, D: Disk, I: Source, O: Sink>(
    keyed: &K,
    owners: &mut Owners<T>,
    disk: &mut D,
    conn: &mut Duplex<I, O>,
    incoming: &mut Incoming,
    outgoing: &mut Outgoing,
) -> ConnEnd
    requires stands { IsWithin owners.old.journal (D.content disk.old) }
    ensures stands { IsWithin owners.new.journal (D.content disk.new) }
    ensures closed { StaysClosed (IsSome (broken_by owners.old.journal)) (IsSome (broken_by owners.new.journal)) disk.old disk.new }
    ensures served { (frames : List OwnedFrame) → IsOwnersOf frames owners.old (D.content disk.old) (D.images disk.old) →
        ServesOwner (keyed_fn K.prf K.pad) owners.old owners.new frames (I.remaining conn.old.source) (I.remaining conn.new.source) (O.written conn.old.sink) (O.written conn.new.sink) (D.content disk.new) (D.images disk.new) }
    ensures disk_cause { EndsDisk (IsSound owners.old.journal) (IsSound owners.new.journal) (D.faults disk.old) (D.faults disk.new) result }
    ensures source_cause { EndsSource (I.faults conn.old.source) (I.faults conn.new.source) result }
    ensures sink_cause { EndsSink (O.faults conn.old.sink) (O.faults conn.new.sink) (O.shortages conn.old.sink) (O.shortages conn.new.sink) result }
{
    match read_owner(&mut conn.source) {
        Ok(owner) => match owners.choose(owner) {
            Ok(()) => serve_connection(keyed, owners, disk, conn, incoming, outgoing),
            Err(UnknownOwner) => refuse_owner(&mut conn.sink, outgoing),
        },
        Err(end) => end,
    }
}
