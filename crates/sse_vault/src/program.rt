ghost use Rattle.std.specs.Prelude.{◌≡◌, ◌≤◌, ◌⊎◌, ℕ, IfErr, List, Ok, map, string_bytes};
ghost use Rattle.client_places.specs.Events.{EndsAt, HasDone};
ghost use Rattle.keyed_fn.specs.KeyedFn.{keyed_fn};
ghost use Rattle.client_journal.specs.Shows.{SinkShows, gives, prints};
ghost use Rattle.client_journal.specs.Unread.{EndsUnopened, EndsUnread, no_file, no_server};
ghost use Rattle.sse_outside.specs.Causes.{Rose};
ghost use Rattle.sse_vault.specs.Asked as asks;
ghost use Rattle.sse_vault.specs.Runs.{CallsOrEnds, HasRestored, HasRunInMemory, HasRunOnDisk};

use crate::asked::{Asked, asked_by};
use crate::in_memory::run_in_memory;
use client_places::Places;
use keyed_fn::{Keyed, Real};
use outside_memory_disk::SteadyDisk;
use outside_words::CommandLine;
use script_run_texts::{CommandStop, PeerStop, StopCause, finish};
use sse_outside::{DeviceFault, Disk, Sink, Source};
use std::alloc::Global;
use vault_client::vault_run;
use vault_link::{VaultLink, VaultLoopback};
use vault_restore::vault_restore;

// Promise P284 (user): `sse_vault` takes a run's words, or an address, a path and a run's words, or an address and `restore`; others open, call and read nothing.
//   clauses: wrong; fields: EndsUnopened.unopened, EndsUnread.unread, EndsUnread.status_is, EndsUnread.line; checks: .ci/vault; not: Of the line a prefix may be printed if a count of
//     the sink rose.
// Promise P285 (user): After an address and a path, `sse_vault` does over both what `vault_run` does; without file or server it ends with 6 or 5.
//   clauses: on_disk, known; fields: HasRun.found, HasRun.reached, HasRun.ran, HasRun.disk_back, HasRun.link_back, HasRun.events, HasRunOnDisk.begun, HasRunOnDisk.resumed, HasRunOnDisk.devices, HasNoFile.cause,
//     HasNoFile.end, HasNoFile.events, HasNoServer.found, HasNoServer.disk_back, HasNoServer.cause, HasNoServer.end, HasNoServer.events; assumes: observable devices; checks: .ci/vault; not:
//     That the system opens the file of that path and connects to that address: real places show contracts only their count of faults. With right words too the status is 7 if
//     there is no memory to read them in.
// Promise P286 (user): Alone, a run's words go over an empty vault and an empty journal in memory, and nothing is opened.
//   clauses: in_memory; fields: HasRunInMemory.no_journal, HasRunInMemory.unused, HasRunInMemory.ran, IsUnused.no_exchange, IsUnused.empty; assumes: observable devices; checks: .ci/vault; not:
//     Standard input and output: they aren't observable, so of the shipped program the clauses say the status and the counts of faults.
// Promise P287 (user): With an address and `restore`, `sse_vault` does over that address what `vault_restore` does, and opens no file; it ends with 5 if nothing answers.
//   clauses: restores; fields: HasCalled.reached, HasCalled.ran, HasCalled.link_back, HasCalled.events, HasRestored.restored, HasRestored.brings, HasRestored.devices, HasNoAnswer.cause, HasNoAnswer.end, HasNoAnswer.events;
//     assumes: observable devices; checks: .ci/vault
/// All that the program of a vault's client does with a command line, places, a source and a sink, and the status to end with.
///
/// `run` or `more` alone is a run over a vault and a journal in memory. After an address and a path it is one over the file of
/// that path and the server at that address: the file is opened first, and without it no server is called. `restore` after an
/// address brings back the texts of that server, and opens no file. Whatever is opened is given back. If the words aren't
/// right, nothing is opened, called or read. Words, right or wrong, end with 7 if there is no memory to read them in.
pub(crate) fn vault_main<P: Places, S: Source, W: Sink>(
    alloc: Global,
    places: &mut P,
    given: &CommandLine,
    source: &mut S,
    sink: &mut W,
) -> u8
where
    P::Link: VaultLink,
    ensures wrong { IfErr (asks.asked_by given.now) (λ stop.
        let shown : SinkShows = prints (W.written sink.old) (W.faults sink.old) (W.shortages sink.old) in
        let shown2 : SinkShows = prints (W.written sink.new) (W.faults sink.new) (W.shortages sink.new) in
        EndsUnopened stop places.old places.new source.old source.new shown shown2 result
        ⊎ EndsUnopened StopCause.Memory places.old places.new source.old source.new shown shown2 result) }
    ensures in_memory { (words : List (List ℕ)) → asks.asked_by given.now ≡ Ok (asks.InMemory words) →
        let shown : SinkShows = prints (W.written sink.old) (W.faults sink.old) (W.shortages sink.old) in
        let shown2 : SinkShows = prints (W.written sink.new) (W.faults sink.new) (W.shortages sink.new) in
        EndsUnopened StopCause.Memory places.old places.new source.old source.new shown shown2 result
        ⊎ (places.new ≡ places.old) × HasRunInMemory ⟦<SteadyDisk as Disk>⟧.content
        (HasRunOnDisk ⟦<SteadyDisk as Disk>⟧.content ⟦<SteadyDisk as Disk>⟧.images ⟦<SteadyDisk as Disk>⟧.moment ⟦<SteadyDisk as Disk>⟧.left_since ⟦<SteadyDisk as Disk>⟧.faults
        ⟦<VaultLoopback<SteadyDisk> as VaultLink>⟧.transcript ⟦<VaultLoopback<SteadyDisk> as VaultLink>⟧.remote ⟦<VaultLoopback<SteadyDisk> as VaultLink>⟧.faults
        (keyed_fn ⟦<Real as Keyed>⟧.prf ⟦<Real as Keyed>⟧.pad) words
        (gives (S.remaining source.old) (S.faults source.old)) (gives (S.remaining source.new) (S.faults source.new)) shown shown2 result) }
    ensures on_disk { (address path : List ℕ) (words : List (List ℕ)) → asks.asked_by given.now ≡ Ok (asks.OnDisk address path words) →
        let shown : SinkShows = prints (W.written sink.old) (W.faults sink.old) (W.shortages sink.old) in
        let shown2 : SinkShows = prints (W.written sink.new) (W.faults sink.new) (W.shortages sink.new) in
        EndsUnopened StopCause.Memory places.old places.new source.old source.new shown shown2 result
        ⊎ EndsAt (P.events places.old) (P.events places.new) (P.holds places.old) (P.reaches places.old) (P.kept places.new) (P.hung places.new)
        path address (Rose (P.faults places.old) (P.faults places.new))
        (EndsUnread no_file source.old source.new shown shown2 result) (EndsUnread no_server source.old source.new shown shown2 result)
        (HasRunOnDisk P.Disk.content P.Disk.images P.Disk.moment P.Disk.left_since P.Disk.faults P.Link.transcript P.Link.remote P.Link.faults
        (keyed_fn ⟦<Real as Keyed>⟧.prf ⟦<Real as Keyed>⟧.pad) words
        (gives (S.remaining source.old) (S.faults source.old)) (gives (S.remaining source.new) (S.faults source.new)) shown shown2 result) }
    ensures restores { (address : List ℕ) → asks.asked_by given.now ≡ Ok (asks.Restore address) →
        let shown : SinkShows = prints (W.written sink.old) (W.faults sink.old) (W.shortages sink.old) in
        let shown2 : SinkShows = prints (W.written sink.new) (W.faults sink.new) (W.shortages sink.new) in
        EndsUnopened StopCause.Memory places.old places.new source.old source.new shown shown2 result
        ⊎ CallsOrEnds (P.events places.old) (P.events places.new) (P.reaches places.old) (P.hung places.new)
        address (Rose (P.faults places.old) (P.faults places.new)) (EndsUnread no_server source.old source.new shown shown2 result)
        (HasRestored P.Link.transcript P.Link.remote P.Link.faults (keyed_fn ⟦<Real as Keyed>⟧.prf ⟦<Real as Keyed>⟧.pad)
        (gives (S.remaining source.old) (S.faults source.old)) (gives (S.remaining source.new) (S.faults source.new)) shown shown2 result) }
    ensures known { result ≤ 12 }
{
    match asked_by(alloc, given) {
        Ok(Asked::InMemory { words }) => run_in_memory(alloc, words, source, sink),
        Ok(
            Asked::OnDisk {
                address,
                path,
                words,
            },
        ) => run_at(alloc, places, address, path, words, source, sink),
        Ok(Asked::Restore { address }) => restore_at(alloc, places, address, source, sink),
        Err(stop) => finish(sink, stop),
    }
}

/// Opens the file, connects to the address, and makes the run over both.
fn run_at<P: Places, S: Source, W: Sink>(
    alloc: Global,
    places: &mut P,
    address: &str,
    path: &str,
    words: &[String],
    source: &mut S,
    sink: &mut W,
) -> u8
where
    P::Link: VaultLink,
    ensures runs { let shown : SinkShows = prints (W.written sink.old) (W.faults sink.old) (W.shortages sink.old) in
        let shown2 : SinkShows = prints (W.written sink.new) (W.faults sink.new) (W.shortages sink.new) in
        EndsAt (P.events places.old) (P.events places.new) (P.holds places.old) (P.reaches places.old) (P.kept places.new) (P.hung places.new)
        path.now address.now (Rose (P.faults places.old) (P.faults places.new))
        (EndsUnread no_file source.old source.new shown shown2 result) (EndsUnread no_server source.old source.new shown shown2 result)
        (HasRunOnDisk P.Disk.content P.Disk.images P.Disk.moment P.Disk.left_since P.Disk.faults P.Link.transcript P.Link.remote P.Link.faults
        (keyed_fn ⟦<Real as Keyed>⟧.prf ⟦<Real as Keyed>⟧.pad) (map (λ word. string_bytes word) words.now)
        (gives (S.remaining source.old) (S.faults source.old)) (gives (S.remaining source.new) (S.faults source.new)) shown shown2 result) }
    ensures known { result ≤ 12 }
{
    match places.open(path) {
        Ok(disk) => match places.connect(address) {
            Ok(link) => run_over(alloc, places, words, disk, link, source, sink),
            Err(_) => {
                places.close(disk);
                finish(
                    sink,
                    StopCause::Command(CommandStop::Exchange(PeerStop::Link)),
                )
            }
        },
        Err(_) => finish(
            sink,
            StopCause::Command(CommandStop::Keeping(DeviceFault::Failed)),
        ),
    }
}

/// Makes a run over a disk and a link, and gives both back.
fn run_over<P: Places, S: Source, W: Sink>(
    alloc: Global,
    places: &mut P,
    words: &[String],
    disk: P::Disk,
    link: P::Link,
    source: &mut S,
    sink: &mut W,
) -> u8
where
    P::Link: VaultLink,
    ensures runs { let shown : SinkShows = prints (W.written sink.old) (W.faults sink.old) (W.shortages sink.old) in
        let shown2 : SinkShows = prints (W.written sink.new) (W.faults sink.new) (W.shortages sink.new) in
        HasDone (P.events places.old) (P.events places.new) (P.kept places.new) (P.hung places.new)
        (HasRunOnDisk P.Disk.content P.Disk.images P.Disk.moment P.Disk.left_since P.Disk.faults P.Link.transcript P.Link.remote P.Link.faults
        (keyed_fn ⟦<Real as Keyed>⟧.prf ⟦<Real as Keyed>⟧.pad) (map (λ word. string_bytes word) words.now)
        (gives (S.remaining source.old) (S.faults source.old)) (gives (S.remaining source.new) (S.faults source.new)) shown shown2 result disk link) }
    ensures known { result ≤ 12 }
{
    let mut link = link;
    let (status, disk) = vault_run(alloc, words, &Real, &mut link, disk, source, sink);
    places.hang_up(link);
    places.close(disk);
    status
}

/// Connects to the address, restores over the link, and gives it back.
fn restore_at<P: Places, S: Source, W: Sink>(
    alloc: Global,
    places: &mut P,
    address: &str,
    source: &mut S,
    sink: &mut W,
) -> u8
where
    P::Link: VaultLink,
    ensures restores { let shown : SinkShows = prints (W.written sink.old) (W.faults sink.old) (W.shortages sink.old) in
        let shown2 : SinkShows = prints (W.written sink.new) (W.faults sink.new) (W.shortages sink.new) in
        CallsOrEnds (P.events places.old) (P.events places.new) (P.reaches places.old) (P.hung places.new)
        address.now (Rose (P.faults places.old) (P.faults places.new)) (EndsUnread no_server source.old source.new shown shown2 result)
        (HasRestored P.Link.transcript P.Link.remote P.Link.faults (keyed_fn ⟦<Real as Keyed>⟧.prf ⟦<Real as Keyed>⟧.pad)
        (gives (S.remaining source.old) (S.faults source.old)) (gives (S.remaining source.new) (S.faults source.new)) shown shown2 result) }
    ensures known { result ≤ 12 }
{
    match places.connect(address) {
        Ok(link) => {
            let mut link = link;
            let status = vault_restore(alloc, &Real, &mut link, source, sink);
            places.hang_up(link);
            status
        }
        Err(_) => finish(
            sink,
            StopCause::Command(CommandStop::Exchange(PeerStop::Link)),
        ),
    }
}
