ghost use Rattle.std.specs.Prelude.{◌≡◌, ◌⊎◌, ◌+◌, ◌≤◌, ℕ, true, None, IfOk, IfSome, IsErrOf, IsSome, OnErr, OnOk};
ghost use Rattle.tcp_service.specs.Disks.{HasFallen, ServesDisk, IsSound, StaysClosed};
ghost use Rattle.sse_journal.specs.JournalView.{broken_by};
ghost use Rattle.sse_outside.specs.Causes.{HasCause, Rose};
ghost use Rattle.vault_server.specs.VaultServerView.{IsWithin};
ghost use Rattle.vault_served.specs.Lasting.{Lasts};
ghost use Rattle.vault_served.specs.Served.{HaveServed, ServesMore};

use crate::connection::serve_connection;
use crate::reply_room::ReplyRoom;
use sse_outside::{Disk, Failed};
use tcp_service::{ConnEnd, Conns, Incoming, ServeFault};
use vault_server::VaultServer;

/// Serves the next connection to its end, and gives it back; `None` if there are no more.
fn serve_next<D: Disk, C: Conns>(
    server: &mut VaultServer,
    disk: &mut D,
    conns: &mut C,
    incoming: &mut Incoming,
    room: &mut ReplyRoom,
) -> Result<Option<ConnEnd>, Failed>
    requires within { IsWithin server.old.journal (D.content disk.old) }
    ensures within { IsWithin server.new.journal (D.content disk.new) }
    ensures closed { StaysClosed (IsSome (broken_by server.old.journal)) (IsSome (broken_by server.new.journal)) disk.old disk.new }
    ensures served { ServesMore (Lasts D.content D.images) C.In.remaining C.Out.written server.old server.new disk.old disk.new (C.offered conns.old) (C.offered conns.new) (C.returned conns.old) (C.returned conns.new) }
    ensures disk_cause { ServesDisk (IsSound server.old.journal) (IsSound server.new.journal) (D.faults disk.old) (D.faults disk.new) result }
    ensures counted { IfOk result (λ next. IfSome next (λ _. C.given conns.new ≡ C.given conns.old + 1)) }
    ensures end { IfOk result (λ next. next ≡ None → C.ended conns.new ≡ true) }
    ensures end_given { IfOk result (λ next. next ≡ None → C.given conns.new ≡ C.given conns.old) }
    ensures err_given { OnErr result (C.given conns.new ≡ C.given conns.old) }
    ensures none_lent { C.lent conns.new ≡ C.lent conns.old }
    ensures cause { HasCause (C.faults conns.old) (C.faults conns.new) result }
{
    match conns.next() {
        Ok(Some(conn)) => {
            let mut conn = conn;
            let end = serve_connection(server, disk, &mut conn, incoming, room);
            conns.done(conn, end);
            Ok(Some(end))
        }
        Ok(None) => Ok(None),
        Err(failed) => Err(failed),
    }
}

// Promise P217 (inside): Connections to a vault are served one after another, each from where the last left the vault, and each is given back.
//   clauses: served, all, few, none_lent, later, cause, disk_later, disk_cause; assumes: observable devices, earlier calls; not: How each one ended, beyond P186; two at a time.
/// Serves connections, one after the other, as many as `most` says or there are, and gives each back when it has ended.
///
/// How a connection ends doesn't matter to the next one, except for a fault of the disk, after which no other is asked for.
pub(crate) fn serve<D: Disk, C: Conns>(
    server: &mut VaultServer,
    disk: &mut D,
    conns: &mut C,
    incoming: &mut Incoming,
    room: &mut ReplyRoom,
    most: u32,
) -> Result<(), ServeFault>
    requires within { IsWithin server.old.journal (D.content disk.old) }
    ensures within { IsWithin server.new.journal (D.content disk.new) }
    ensures closed { StaysClosed (IsSome (broken_by server.old.journal)) (IsSome (broken_by server.new.journal)) disk.old disk.new }
    ensures served { HaveServed (Lasts D.content D.images) C.In.remaining C.Out.written server.old server.new disk.old disk.new (C.offered conns.old) (C.offered conns.new) (C.returned conns.old) (C.returned conns.new) }
    ensures all { OnOk result ((C.given conns.new ≡ C.given conns.old + most) ⊎ (C.ended conns.new ≡ true)) }
    ensures none_lent { C.lent conns.new ≡ C.lent conns.old }
    ensures few { C.given conns.new ≤ C.given conns.old + most }
    ensures later { C.faults conns.old ≤ C.faults conns.new }
    ensures cause { IsErrOf result ServeFault.NoConnection → Rose (C.faults conns.old) (C.faults conns.new) }
    ensures disk_later { D.faults disk.old ≤ D.faults disk.new }
    ensures disk_cause { IsErrOf result ServeFault.StoreFault → HasFallen (IsSound server.old.journal) (D.faults disk.old) (D.faults disk.new) }
{
    for _ in 0..most {
        match serve_next(server, disk, conns, incoming, room) {
            Ok(Some(ConnEnd::StoreFault)) => return Err(ServeFault::StoreFault),
            Ok(Some(_)) => {}
            Ok(None) => return Ok(()),
            Err(_) => return Err(ServeFault::NoConnection),
        }
    }
    Ok(())
}
