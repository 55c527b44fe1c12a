ghost use Rattle.std.specs.Prelude.{◌≡◌, ◌≤◌, ◌⊎◌, IfOk, map, string_bytes};
ghost use Rattle.keyed_fn.specs.KeyedFn.{keyed_fn};
ghost use Rattle.client_journal.specs.Shows.{SinkShows, gives, prints};
ghost use Rattle.client_journal.specs.Unread.{EndsUnread};
ghost use Rattle.sse_vault.specs.Runs.{HasRunInMemory, HasRunOnDisk, IsUnused};

use keyed_fn::{Keyed, Real};
use outside_memory_disk::SteadyDisk;
use script_run_texts::{StopCause, finish};
use sse_outside::{Disk, Sink, Source};
use std::alloc::{AllocError, Global};
use vault_client::vault_run;
use vault_link::{VaultLink, VaultLoopback};
use vault_server::VaultServer;

/// Makes a run over a vault and a client's disk that are made here, in memory and empty, and let go after it. Without memory for the
/// vault it ends with 7, before anything is read.
pub(crate) fn run_in_memory<S: Source, W: Sink>(
    alloc: Global,
    words: &[String],
    source: &mut S,
    sink: &mut W,
) -> u8
    ensures runs { let shown : SinkShows = prints (W.written sink.old) (W.faults sink.old) (W.shortages sink.old) in
        let shown2 : SinkShows = prints (W.written sink.new) (W.faults sink.new) (W.shortages sink.new) in
        HasRunInMemory ⟦<SteadyDisk as Disk>⟧.content
        (HasRunOnDisk ⟦<SteadyDisk as Disk>⟧.content ⟦<SteadyDisk as Disk>⟧.images ⟦<SteadyDisk as Disk>⟧.moment ⟦<SteadyDisk as Disk>⟧.left_since ⟦<SteadyDisk as Disk>⟧.faults
        ⟦<VaultLoopback<SteadyDisk> as VaultLink>⟧.transcript ⟦<VaultLoopback<SteadyDisk> as VaultLink>⟧.remote ⟦<VaultLoopback<SteadyDisk> as VaultLink>⟧.faults
        (keyed_fn ⟦<Real as Keyed>⟧.prf ⟦<Real as Keyed>⟧.pad) (map (λ word. string_bytes word) words.now)
        (gives (S.remaining source.old) (S.faults source.old)) (gives (S.remaining source.new) (S.faults source.new)) shown shown2 result)
        ⊎ EndsUnread StopCause.Memory source.old source.new shown shown2 result }
    ensures known { result ≤ 12 }
{
    match new_link(alloc) {
        Ok(mut link) => {
            let own = SteadyDisk::new(alloc);
            let (status, own) = vault_run(alloc, words, &Real, &mut link, own, source, sink);
            drop(own);
            drop(link);
            status
        }
        Err(AllocError) => finish(sink, StopCause::Memory),
    }
}

/// A link to a vault that holds nothing, on a disk of its own in memory. That disk never fails and its file is empty, so only
/// memory can be missing.
fn new_link(alloc: Global) -> Result<VaultLoopback<SteadyDisk>, AllocError>
    ensures { IfOk result (λ link. IsUnused link) }
{
    let mut disk = SteadyDisk::new(alloc);
    match VaultServer::start(alloc, &mut disk) {
        Ok(server) => Ok(VaultLoopback::new(alloc, server, disk)),
        Err(_) => Err(AllocError),
    }
}
