ghost use Rattle.std.specs.Prelude.{◌≡◌, ◌⊎◌, ◌+◌, ◌≤◌, ℕ, List, true, None, IfOk, IfSome, IsSome, OnOk, OnErr, IsErrOf};
ghost use Rattle.keyed_fn.specs.KeyedFn.{keyed_fn};
ghost use Rattle.sse_outside.specs.Causes.{Rose, HasCause};
ghost use Rattle.sse_journal.specs.JournalView.{broken_by};
ghost use Rattle.sse_server.specs.StoreView.{IsWithin};
ghost use Rattle.sse_owners.specs.Owned.{OwnedFrame};
ghost use Rattle.sse_owners.specs.OwnersView.{IsOwnersOf};
ghost use Rattle.tcp_service.specs.Disks.{ServesDisk, HasFallen, IsSound, StaysClosed};
ghost use Rattle.server_connections.specs.OwnerConnections.{HaveOwnersServed, ServesMoreOwners};

use crate::Outgoing;
use crate::owner_connection::serve_owner;
use keyed_fn::Keyed;
use server_tables::Tables;
use sse_outside::{Disk, Failed};
use sse_owners::Owners;
use tcp_service::{ConnEnd, Conns, Incoming, ServeFault};

/// Serves the next connection to its end, as that of the owner whose number it begins with, and gives it back; `None` if there are
/// no more.
fn serve_next_owner<K: Keyed, T: Tables, D: Disk, C: Conns>(
    keyed: &K,
    owners: &mut Owners<T>,
    disk: &mut D,
    conns: &mut C,
    incoming: &mut Incoming,
    outgoing: &mut Outgoing,
) -> Result<Option<ConnEnd>, Failed>
    requires stands { IsWithin owners.old.journal (D.content disk.old) }
    ensures stands { IsWithin owners.new.journal (D.content disk.new) }
    ensures closed { StaysClosed (IsSome (broken_by owners.old.journal)) (IsSome (broken_by owners.new.journal)) disk.old disk.new }
    ensures served { (numbers : List ℕ) → ServesMoreOwners (keyed_fn K.prf K.pad) C.In.remaining C.Out.written numbers owners.old owners.new (D.content disk.old) (D.content disk.new) (D.images disk.old) (D.images disk.new) (C.offered conns.old) (C.offered conns.new) (C.returned conns.old) (C.returned conns.new) }
    ensures disk_cause { ServesDisk (IsSound owners.old.journal) (IsSound owners.new.journal) (D.faults disk.old) (D.faults disk.new) result }
    ensures counted { IfOk result (λ next. IfSome next (λ _. C.given conns.new ≡ C.given conns.old + 1)) }
    ensures end { IfOk result (λ next. next ≡ None → C.ended conns.new ≡ true) }
    ensures end_given { IfOk result (λ next. next ≡ None → C.given conns.new ≡ C.given conns.old) }
    ensures err_given { OnErr result (C.given conns.new ≡ C.given conns.old) }
    ensures none_lent { C.lent conns.new ≡ C.lent conns.old }
    ensures cause { HasCause (C.faults conns.old) (C.faults conns.new) result }
{
    match conns.next() {
        Ok(Some(conn)) => {
            let mut conn = conn;
            let end = serve_owner(keyed, owners, disk, &mut conn, incoming, outgoing);
            conns.done(conn, end);
            Ok(Some(end))
        }
        Ok(None) => Ok(None),
        Err(failed) => Err(failed),
    }
}

// Promise P261, also here; clauses: served
/// Serves connections that begin with an owner's number, one after the other, as many as `most` says or there are, and gives each
/// back when it has ended.
///
/// How a connection ends doesn't matter to the next one, but for a fault of the disk at an update of any owner, after which no
/// other is asked for.
pub fn serve_owners<K: Keyed, T: Tables, D: Disk, C: Conns>(
    keyed: &K,
    owners: &mut Owners<T>,
    disk: &mut D,
    conns: &mut C,
    incoming: &mut Incoming,
    outgoing: &mut Outgoing,
    most: u32,
) -> Result<(), ServeFault>
    requires stands { IsWithin owners.old.journal (D.content disk.old) }
    ensures stands { IsWithin owners.new.journal (D.content disk.new) }
    ensures closed { StaysClosed (IsSome (broken_by owners.old.journal)) (IsSome (broken_by owners.new.journal)) disk.old disk.new }
    ensures served { (frames : List OwnedFrame) → IsOwnersOf frames owners.old (D.content disk.old) (D.images disk.old) →
        HaveOwnersServed (keyed_fn K.prf K.pad) C.In.remaining C.Out.written owners.old.numbers frames owners.new (D.content disk.new) (D.images disk.new) (C.offered conns.old) (C.offered conns.new) (C.returned conns.old) (C.returned conns.new) }
    ensures all { OnOk result ((C.given conns.new ≡ C.given conns.old + most) ⊎ (C.ended conns.new ≡ true)) }
    ensures none_lent { C.lent conns.new ≡ C.lent conns.old }
    ensures few { C.given conns.new ≤ C.given conns.old + most }
    ensures later { C.faults conns.old ≤ C.faults conns.new }
    ensures cause { IsErrOf result ServeFault.NoConnection → Rose (C.faults conns.old) (C.faults conns.new) }
    ensures disk_later { D.faults disk.old ≤ D.faults disk.new }
    ensures disk_cause { IsErrOf result ServeFault.StoreFault → HasFallen (IsSound owners.old.journal) (D.faults disk.old) (D.faults disk.new) }
{
    for _ in 0..most {
        match serve_next_owner(keyed, owners, disk, conns, incoming, outgoing) {
            Ok(Some(ConnEnd::StoreFault)) => return Err(ServeFault::StoreFault),
            Ok(Some(_)) => {}
            Ok(None) => return Ok(()),
            Err(_) => return Err(ServeFault::NoConnection),
        }
    }
    Ok(())
}
