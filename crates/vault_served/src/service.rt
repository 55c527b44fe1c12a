ghost use Rattle.std.specs.Prelude.{◌≡◌, ◌≢◌, ◌⊎◌, ◌+◌, ◌≤◌, List, true, Err, IsErr, IfOk, IfSome, OnOk, length};
ghost use Rattle.sse_outside.specs.Causes.{Rose};
ghost use Rattle.sse_journal.specs.Files.{Gives};
ghost use Rattle.vault_server.specs.VaultFrames.{VaultFrameText};
ghost use Rattle.vault_server.specs.VaultState.{AreVaultTaken, empty_vault, vault_records};
ghost use Rattle.vault_served.specs.Services.{HasServed, IsNoJournal};
ghost use Rattle.service_places.specs.Untouched.{HasNotServed};

use crate::reply_room::ReplyRoom;
use crate::serving::serve;
use crate::stop::stop_of;
use service_places::ServiceStop;
use sse_frames::MAX_FRAME_BODY;
use sse_outside::Disk;
use std::alloc::{AllocError, Global};
use tcp_service::{Conns, Incoming};
use vault_server::VaultServer;

// Promise P189 (user): After an Ok, a link fault or a disk fault, connections were served one after another from the file's updates; else none was.
//   clauses: served, all, few, none_lent, link, link_served, disk, disk_served, memory, no_journal, no_journal_untouched, no_journal_refused, journal_taken; fields: IsLasting.left;
//     assumes: observable devices; checks: .ci/vault; not: The real file and the real address. Locking, owner-only access and syncing the folder are tested or read.
/// Starts a vault on the journal of a disk, and serves connections from it, as many as `most` says or there are.
///
/// Errors: `Disk` if the disk failed, at the start or at a record; `NoJournal` if the file is no journal of a vault; `Link` if
/// no connection was given; `Memory` if there was no memory to begin with.
///
/// After `Memory` and `NoJournal`, and after `Disk` at the start, no connection was asked for and the file has the records that
/// it had. After `Disk` at a record it has all that were acknowledged, and at most one more.
pub(crate) fn serve_all<D: Disk, C: Conns>(
    alloc: Global,
    disk: &mut D,
    conns: &mut C,
    most: u32,
) -> Result<(), ServiceStop>
    ensures served { OnOk result (HasServed D.content D.images C.In.remaining C.Out.written disk.old disk.new (C.offered conns.old) (C.offered conns.new) (C.returned conns.old) (C.returned conns.new)) }
    ensures all { OnOk result ((C.given conns.new ≡ C.given conns.old + most) ⊎ (C.ended conns.new ≡ true)) }
    ensures few { C.given conns.new ≤ C.given conns.old + most }
    ensures none_lent { C.lent conns.new ≡ C.lent conns.old }

    // Why it ends before.
    ensures link { result ≡ Err ServiceStop.Link → Rose (C.faults conns.old) (C.faults conns.new) }
    ensures link_served { result ≡ Err ServiceStop.Link → HasServed D.content D.images C.In.remaining C.Out.written disk.old disk.new (C.offered conns.old) (C.offered conns.new) (C.returned conns.old) (C.returned conns.new) }
    ensures memory { result ≡ Err ServiceStop.Memory → HasNotServed D.content D.images conns.old conns.new disk.old disk.new }
    ensures disk_served { result ≡ Err ServiceStop.Disk → HasNotServed D.content D.images conns.old conns.new disk.old disk.new
        ⊎ HasServed D.content D.images C.In.remaining C.Out.written disk.old disk.new (C.offered conns.old) (C.offered conns.new) (C.returned conns.old) (C.returned conns.new) }
    ensures disk { result ≡ Err ServiceStop.Disk → Rose (D.faults disk.old) (D.faults disk.new) }
    ensures no_journal { result ≡ Err ServiceStop.NoJournal → IfSome (D.content disk.old) (λ bytes. IsNoJournal bytes) }
    ensures no_journal_untouched { result ≡ Err ServiceStop.NoJournal → HasNotServed D.content D.images conns.old conns.new disk.old disk.new }
    ensures no_journal_refused { IfSome (D.content disk.old) (λ bytes. IsNoJournal bytes → (IsErr result) × (result ≢ Err ServiceStop.Link)) }
    ensures journal_taken { IfSome (D.content disk.old) (λ bytes. (frames : List VaultFrameText) → AreVaultTaken empty_vault frames → Gives (vault_records frames) bytes → result ≢ Err ServiceStop.NoJournal) }
{
    let Ok(read) = read_room(alloc) else {
        return Err(ServiceStop::Memory);
    };
    let Ok(room) = ReplyRoom::new(alloc) else {
        return Err(ServiceStop::Memory);
    };
    let mut room = room;
    let mut incoming = Incoming::new(read);
    let mut server = match VaultServer::start(alloc, disk) {
        Ok(server) => server,
        Err(fault) => {
            conns.not_started(&fault);
            return Err(stop_of(fault));
        }
    };
    match serve(&mut server, disk, conns, &mut incoming, &mut room, most) {
        Ok(()) => Ok(()),
        Err(fault) => Err(ServiceStop::from(fault)),
    }
}

/// The room of `Incoming`, which is that of the index's longest frame.
fn read_room(alloc: Global) -> Result<Vec<u8>, AllocError>
    ensures { IfOk result (λ bytes. length bytes.items ≡ 1048580) }
{
    vec![in alloc; 0; 4 + MAX_FRAME_BODY as usize]
}
