ghost use Rattle.std.specs.Prelude.{◌≡◌, ◌≢◌, ◌⊎◌, ◌+◌, ◌≤◌, true, Err, IsErr, IfSome, OnOk};
ghost use Rattle.keyed_fn.specs.KeyedFn.{keyed_fn};
ghost use Rattle.sse_outside.specs.Causes.{Rose};
ghost use Rattle.sse_served.specs.Services.{HasServed, IsJournal, IsNoJournal};
ghost use Rattle.service_places.specs.Untouched.{HasNotServed};

use crate::stop::stop_of;
use keyed_fn::Keyed;
use server_connections::{Outgoing, serve};
use server_tables::SeededTables;
use service_places::ServiceStop;
use sse_outside::Disk;
use sse_server::{Buffers, Store};
use std::alloc::Global;
use std::hash::RandomState;
use tcp_service::{Conns, Incoming};

// Promise P32 (user): After an Ok, a link fault or a fault of the disk, connections were served one after another from the file's frames; else none was.
//   clauses: served, all, few, none_lent, link, link_served, disk, disk_served, memory, no_journal, no_journal_untouched, no_journal_refused, journal_taken; fields: IsLasting.left;
//     assumes: observable devices; checks: .ci/served, .ci/tcp; not: The real file and the real address. Locking, owner-only access and syncing the folder are tested or read.
/// Starts a store on the journal of a disk, its tables hashed under these keys, and serves connections from it, as many as `most` says or there are.
///
/// Errors: `Disk` if the disk failed, at the start or at a record; `NoJournal` if the file is no journal of a server; `Link` if
/// no connection was given; `Memory` if there was no memory to begin with.
///
/// After `Memory` and `NoJournal`, and after `Disk` at the start, no connection was asked for and the file has the records that
/// it had. After `Disk` at a record it has all that were acknowledged, and at most one more.
pub(crate) fn serve_all<K: Keyed, D: Disk, C: Conns>(
    alloc: Global,
    keyed: &K,
    keys: RandomState,
    disk: &mut D,
    conns: &mut C,
    most: u32,
) -> Result<(), ServiceStop>
    ensures served { OnOk result (HasServed (keyed_fn K.prf K.pad) D.content D.images C.In.remaining C.Out.written disk.old disk.new (C.offered conns.old) (C.offered conns.new) (C.returned conns.old) (C.returned conns.new)) }
    ensures all { OnOk result ((C.given conns.new ≡ C.given conns.old + most) ⊎ (C.ended conns.new ≡ true)) }
    ensures few { C.given conns.new ≤ C.given conns.old + most }
    ensures none_lent { C.lent conns.new ≡ C.lent conns.old }

    // Why it ends before.
    ensures link { result ≡ Err ServiceStop.Link → Rose (C.faults conns.old) (C.faults conns.new) }
    ensures link_served { result ≡ Err ServiceStop.Link → HasServed (keyed_fn K.prf K.pad) D.content D.images C.In.remaining C.Out.written disk.old disk.new (C.offered conns.old) (C.offered conns.new) (C.returned conns.old) (C.returned conns.new) }
    ensures memory { result ≡ Err ServiceStop.Memory → HasNotServed D.content D.images conns.old conns.new disk.old disk.new }
    ensures disk_served { result ≡ Err ServiceStop.Disk → HasNotServed D.content D.images conns.old conns.new disk.old disk.new
        ⊎ HasServed (keyed_fn K.prf K.pad) D.content D.images C.In.remaining C.Out.written disk.old disk.new (C.offered conns.old) (C.offered conns.new) (C.returned conns.old) (C.returned conns.new) }
    ensures disk { result ≡ Err ServiceStop.Disk → Rose (D.faults disk.old) (D.faults disk.new) }
    ensures no_journal { result ≡ Err ServiceStop.NoJournal → IfSome (D.content disk.old) (λ bytes. IsNoJournal bytes) }
    ensures no_journal_untouched { result ≡ Err ServiceStop.NoJournal → HasNotServed D.content D.images conns.old conns.new disk.old disk.new }
    ensures no_journal_refused { IfSome (D.content disk.old) (λ bytes. IsNoJournal bytes → (IsErr result) × (result ≢ Err ServiceStop.Link)) }
    ensures journal_taken { IfSome (D.content disk.old) (λ bytes. IsJournal bytes → result ≢ Err ServiceStop.NoJournal) }
{
    let Ok(buffers) = Buffers::new(alloc) else {
        return Err(ServiceStop::Memory);
    };
    let mut incoming = Incoming::new(buffers.frame);
    let mut outgoing = Outgoing::new(buffers.reply, buffers.page);
    let mut store = match Store::start(alloc, SeededTables::new(alloc, keys), disk) {
        Ok(store) => store,
        Err(fault) => {
            conns.not_started(&fault);
            return Err(stop_of(fault));
        }
    };
    match serve(
        keyed,
        &mut store,
        disk,
        conns,
        &mut incoming,
        &mut outgoing,
        most,
    ) {
        Ok(()) => Ok(()),
        Err(fault) => Err(ServiceStop::from(fault)),
    }
}
