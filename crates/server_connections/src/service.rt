ghost use Rattle.std.specs.Prelude.{◌≡◌, ◌⊎◌, ◌+◌, ◌≤◌, ℕ, true, None, IfOk, IfSome, OnOk, OnErr, IsErrOf};
ghost use Rattle.keyed_fn.specs.KeyedFn.{keyed_fn};
ghost use Rattle.sse_outside.specs.Causes.{Rose, HasCause};
ghost use Rattle.tcp_service.specs.Disks.{ServesDisk, HasFallen, StaysClosed};
ghost use Rattle.server_connections.specs.Served.{HaveServed, ServesMore};

use crate::connection::serve_connection;
use crate::{Keeps, Outgoing};
use keyed_fn::Keyed;
use sse_outside::{Disk, Failed};
use tcp_service::{ConnEnd, Conns, Incoming, ServeFault};

/// Serves the next connection to its end, and gives it back; `None` where there are no more.
fn serve_next<K: Keyed, D: Disk, S: Keeps<D>, C: Conns>(
    keyed: &K,
    store: &mut S,
    disk: &mut D,
    conns: &mut C,
    incoming: &mut Incoming,
    outgoing: &mut Outgoing,
) -> Result<Option<ConnEnd>, Failed>
    requires stands { S.stands store.old disk.old }
    ensures stands { S.stands store.new disk.new }
    ensures closed { StaysClosed (S.closed store.old) (S.closed store.new) disk.old disk.new }
    ensures served { ServesMore (keyed_fn K.prf K.pad) S.state S.lasts C.In.remaining C.Out.written store.old store.new disk.old disk.new (C.offered conns.old) (C.offered conns.new) (C.returned conns.old) (C.returned conns.new) }
    ensures disk_cause { ServesDisk (S.sound store.old) (S.sound store.new) (D.faults disk.old) (D.faults disk.new) result }
    ensures counted { IfOk result (λ next. IfSome next (λ _. C.given conns.new ≡ C.given conns.old + 1)) }
    ensures end { IfOk result (λ next. next ≡ None → C.ended conns.new ≡ true) }
    ensures end_given { IfOk result (λ next. next ≡ None → C.given conns.new ≡ C.given conns.old) }
    ensures err_given { OnErr result (C.given conns.new ≡ C.given conns.old) }
    ensures none_lent { C.lent conns.new ≡ C.lent conns.old }
    ensures cause { HasCause (C.faults conns.old) (C.faults conns.new) result }
{
    match conns.next() {
        Ok(Some(conn)) => {
            let mut conn = conn;
            let end = serve_connection(keyed, store, disk, &mut conn, incoming, outgoing);
            conns.done(conn, end);
            Ok(Some(end))
        }
        Ok(None) => Ok(None),
        Err(failed) => Err(failed),
    }
}

// Promise P133 (caller): Connections are served one after another, each from where the last left the store, and each is given back.
//   clauses: served, all, few, none_lent, later, cause, disk_later, disk_cause; assumes: observable devices, earlier calls; not: How each one ended, beyond P132; two at a time.
/// Serves connections, one after the other, as many as `most` says or there are, and gives each back when it has ended.
///
/// How a connection ends doesn't matter to the next one, but for a fault of the store, after which no other is asked for.
pub fn serve<K: Keyed, D: Disk, S: Keeps<D>, C: Conns>(
    keyed: &K,
    store: &mut S,
    disk: &mut D,
    conns: &mut C,
    incoming: &mut Incoming,
    outgoing: &mut Outgoing,
    most: u32,
) -> Result<(), ServeFault>
    requires stands { S.stands store.old disk.old }
    ensures stands { S.stands store.new disk.new }
    ensures closed { StaysClosed (S.closed store.old) (S.closed store.new) disk.old disk.new }
    ensures served { HaveServed (keyed_fn K.prf K.pad) S.state S.lasts C.In.remaining C.Out.written store.old store.new disk.old disk.new (C.offered conns.old) (C.offered conns.new) (C.returned conns.old) (C.returned conns.new) }
    ensures all { OnOk result ((C.given conns.new ≡ C.given conns.old + most) ⊎ (C.ended conns.new ≡ true)) }
    ensures none_lent { C.lent conns.new ≡ C.lent conns.old }
    ensures few { C.given conns.new ≤ C.given conns.old + most }
    ensures later { C.faults conns.old ≤ C.faults conns.new }
    ensures cause { IsErrOf result ServeFault.NoConnection → Rose (C.faults conns.old) (C.faults conns.new) }
    ensures disk_later { D.faults disk.old ≤ D.faults disk.new }
    ensures disk_cause { IsErrOf result ServeFault.StoreFault → HasFallen (S.sound store.old) (D.faults disk.old) (D.faults disk.new) }
{
    for _ in 0..most {
        match serve_next(keyed, store, disk, conns, incoming, outgoing) {
            Ok(Some(ConnEnd::StoreFault)) => return Err(ServeFault::StoreFault),
            Ok(Some(_)) => {}
            Ok(None) => return Ok(()),
            Err(_) => return Err(ServeFault::NoConnection),
        }
    }
    Ok(())
}
