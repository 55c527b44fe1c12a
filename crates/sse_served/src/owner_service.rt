ghost use Rattle.std.specs.Prelude.{◌≡◌, ◌≢◌, ◌⊎◌, ◌+◌, ◌-◌, ◌^◌, ◌<◌, ◌≤◌, [], true, Err, IsErr, IfOk, IfSome, OnOk, length, map};
ghost use Rattle.std.specs.List.Sorted.{IsStrictlyIncreasing};
ghost use Rattle.keyed_fn.specs.KeyedFn.{keyed_fn};
ghost use Rattle.sse_outside.specs.Causes.{Rose};
ghost use Rattle.sse_owners.specs.Owned.{states_of};
ghost use Rattle.sse_served.specs.Services.{HasServedOwners, IsNoOwnersJournal, IsOwnersJournal};
ghost use Rattle.service_places.specs.Untouched.{HasNotServed};

use crate::stop::stop_of;
use keyed_fn::Keyed;
use server_connections::{Outgoing, serve_owners};
use server_core::Server;
use server_tables::SeededTables;
use service_places::ServiceStop;
use sse_outside::Disk;
use sse_owners::{Owners, OwnersFault};
use sse_server::Buffers;
use std::alloc::{AllocError, Global};
use std::hash::RandomState;
use tcp_service::{Conns, Incoming};

/// A server that has taken nothing for each of these numbers, its tables hashed under these keys.
fn fresh_servers(
    alloc: Global,
    keys: RandomState,
    numbers: &[u64],
) -> Result<Vec<Server<SeededTables>>, AllocError>
    ensures { IfOk result (λ servers. map (λ server. server.state) servers.items ≡ states_of numbers.now []) }
{
    let mut servers = Vec::with_capacity(alloc, numbers.len())?;
    while servers.len() < numbers.len() {
        servers.push(Server::new(SeededTables::new(alloc, keys)))?;
    }
    Ok(servers)
}

// Promise P246 (user): With `owners`, connections were served one after another, each from what the file has of the owner whose number it began with; else none was.
//   clauses: served, all, few, none_lent, link, link_served, disk, disk_served, memory, no_journal, no_journal_untouched, no_journal_refused, journal_taken; fields: IsOwnersOf.left;
//     assumes: observable devices; checks: .ci/tcp; not: That who sends an owner's number is this owner. The real file and the real address.
/// Starts a server for each of these owners on one journal of a disk, and serves connections, each as its owner's, up to 2^32-1 of them or
/// as many as there are.
///
/// Errors: `Disk` if the disk failed, at the start or at a record; `NoJournal` if the file is no journal of these owners; `Link` if
/// no connection was given; `Memory` if there was no memory to begin with.
///
/// After `Memory` and `NoJournal`, and after `Disk` at the start, no connection was asked for and the file has the records that
/// it had. After `Disk` at a record it has all that were acknowledged, and at most one more.
pub(crate) fn serve_all_owners<K: Keyed, D: Disk, C: Conns>(
    alloc: Global,
    keyed: &K,
    keys: RandomState,
    numbers: Vec<u64>,
    disk: &mut D,
    conns: &mut C,
) -> Result<(), ServiceStop>
    requires some { 0 < length numbers.items }
    requires rising { IsStrictlyIncreasing numbers.items }
    ensures served { OnOk result (HasServedOwners (keyed_fn K.prf K.pad) D.content D.images C.In.remaining C.Out.written numbers.items disk.old disk.new (C.offered conns.old) (C.offered conns.new) (C.returned conns.old) (C.returned conns.new)) }
    ensures all { OnOk result ((C.given conns.new ≡ C.given conns.old + (2 ^ 32 - 1)) ⊎ (C.ended conns.new ≡ true)) }
    ensures few { C.given conns.new ≤ C.given conns.old + (2 ^ 32 - 1) }
    ensures none_lent { C.lent conns.new ≡ C.lent conns.old }

    // Why it ends before.
    ensures link { result ≡ Err ServiceStop.Link → Rose (C.faults conns.old) (C.faults conns.new) }
    ensures link_served { result ≡ Err ServiceStop.Link → HasServedOwners (keyed_fn K.prf K.pad) D.content D.images C.In.remaining C.Out.written numbers.items disk.old disk.new (C.offered conns.old) (C.offered conns.new) (C.returned conns.old) (C.returned conns.new) }
    ensures memory { result ≡ Err ServiceStop.Memory → HasNotServed D.content D.images conns.old conns.new disk.old disk.new }
    ensures disk_served { result ≡ Err ServiceStop.Disk → HasNotServed D.content D.images conns.old conns.new disk.old disk.new
        ⊎ HasServedOwners (keyed_fn K.prf K.pad) D.content D.images C.In.remaining C.Out.written numbers.items disk.old disk.new (C.offered conns.old) (C.offered conns.new) (C.returned conns.old) (C.returned conns.new) }
    ensures disk { result ≡ Err ServiceStop.Disk → Rose (D.faults disk.old) (D.faults disk.new) }
    ensures no_journal { result ≡ Err ServiceStop.NoJournal → IfSome (D.content disk.old) (IsNoOwnersJournal numbers.items) }
    ensures no_journal_untouched { result ≡ Err ServiceStop.NoJournal → HasNotServed D.content D.images conns.old conns.new disk.old disk.new }
    ensures no_journal_refused { IfSome (D.content disk.old) (λ bytes. IsNoOwnersJournal numbers.items bytes → (IsErr result) × (result ≢ Err ServiceStop.Link)) }
    ensures journal_taken { IfSome (D.content disk.old) (λ bytes. IsOwnersJournal numbers.items bytes → result ≢ Err ServiceStop.NoJournal) }
{
    let Ok(buffers) = Buffers::new(alloc) else {
        return Err(ServiceStop::Memory);
    };
    let mut incoming = Incoming::new(buffers.frame);
    let mut outgoing = Outgoing::new(buffers.reply, buffers.page);
    let Ok(servers) = fresh_servers(alloc, keys, &numbers) else {
        return Err(ServiceStop::Memory);
    };
    let mut owners = match Owners::start(alloc, numbers, servers, disk) {
        Ok(owners) => owners,
        Err(OwnersFault::NotRising(_)) => unreachable!(),
        Err(OwnersFault::Open(fault)) => {
            conns.not_started(&fault);
            return Err(stop_of(fault));
        }
    };
    match serve_owners(
        keyed,
        &mut owners,
        disk,
        conns,
        &mut incoming,
        &mut outgoing,
        u32::MAX,
    ) {
        Ok(()) => Ok(()),
        Err(fault) => Err(ServiceStop::from(fault)),
    }
}
