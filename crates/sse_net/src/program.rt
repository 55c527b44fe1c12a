ghost use Rattle.std.specs.Prelude.{◌≡◌, ◌⊎◌, IfErr, IfOk, map, string_bytes};
ghost use Rattle.std.specs.Io.KnownBytes.{IsAtEnd};
ghost use Rattle.keyed_fn.specs.KeyedFn.{keyed_fn};
ghost use Rattle.sse_net.specs.Asked as asks;
ghost use Rattle.sse_net.specs.Asked.{asked_view};
ghost use Rattle.client_places.specs.Events.{EndsAt, HasDone};
ghost use Rattle.sse_net.specs.Runs.{HasRunOnDisk, RunsAs, TellsStreams};
ghost use Rattle.client_journal.specs.Shows.{SinkShows, gives, prints};
ghost use Rattle.client_journal.specs.Unread.{EndsUnopened, EndsUnread, no_file, no_server};
ghost use Rattle.sse_outside.specs.Causes.{Rose};

use crate::asked::{Asked, asked_by};
use crate::owner_link::OwnerLink;
use client_places::Places;
use keyed_fn::{Keyed, Real};
use outside_words::CommandLine;
use script_run_texts::{CommandStop, PeerStop, StopCause, finish};
use sse_client::run_on_disk;
use sse_link::Link;
use sse_outside::{DeviceFault, Disk, Sink, Source};
use std::alloc::Global;

// Promise P33 (user): `sse_net` takes address, path, perhaps an owner, and `run` or `more`; other words open, call and read nothing, and end with 2 or 7.
//   clauses: wrong; fields: EndsUnopened.unopened, EndsUnread.unread, EndsUnread.status_is, EndsUnread.line; checks: .ci/tcp; not: Of the line a prefix may be printed if a count of
//     the sink rose.
// Promise P34 (user): With right words, `sse_net` does over their file and their address what `run_on_disk` does; without one of them it ends with 6 or 5.
//   clauses: runs, streams; fields: HasRun.found, HasRun.reached, HasRun.disk_back, HasRun.link_back, HasRun.events, HasRunOnDisk.begun, HasRunOnDisk.resumed, HasRunOnDisk.devices,
//     HasNoFile.cause, HasNoFile.end, HasNoFile.events, HasNoServer.found, HasNoServer.disk_back, HasNoServer.cause, HasNoServer.end, HasNoServer.events, TellsStreams.known; assumes:
//     observable devices; checks: .ci/tcp, .ci/memory_tcp; not: That the system opens the file of that path and connects to that address: real places show contracts only their count of
//     faults. With right words too the status is 7 if there is no memory to read them in.
// Promise P290 (user): As an owner, `sse_net` sends the owner's number before anything else, and then its run is that of P34; else it ends with 5.
//   clauses: runs, streams; fields: HasRunAfterNumber.head, HasRunAfterNumber.unanswered, HasRunAfterNumber.ran, HasNotBegun.front, HasNotBegun.nothing_passed, HasNotBegun.cause, HasNotBegun.unkept,
//     HasNotBegun.end; assumes: observable devices; checks: .ci/tcp; not: That the server has this owner. That nothing comes between number and frames is P86 of the link.
/// All that the client's program does with a command line, places, a source and a sink, and the status to end with.
///
/// If the words aren't right, nothing is opened, called or read. Else it opens the file, then connects to the address, and then
/// carries out the script under the real keyed function, or goes on from the records of the file; at the end it gives both back.
/// Without the file no server is called, and without one of the two nothing is read. Words, right or wrong, end with 7 if there is
/// no memory to read them in.
pub(crate) fn net_main<P: Places, S: Source, W: Sink>(
    alloc: Global,
    places: &mut P,
    given: &CommandLine,
    source: &mut S,
    sink: &mut W,
) -> u8
where
    P::Link: OwnerLink,
    ensures wrong { IfErr (asks.asked_by given.now) (λ stop.
        let shown : SinkShows = prints (W.written sink.old) (W.faults sink.old) (W.shortages sink.old) in
        let shown2 : SinkShows = prints (W.written sink.new) (W.faults sink.new) (W.shortages sink.new) in
        EndsUnopened stop places.old places.new source.old source.new shown shown2 result
        ⊎ EndsUnopened StopCause.Memory places.old places.new source.old source.new shown shown2 result) }
    ensures runs { IfOk (asks.asked_by given.now) (λ asked.
        let shown : SinkShows = prints (W.written sink.old) (W.faults sink.old) (W.shortages sink.old) in
        let shown2 : SinkShows = prints (W.written sink.new) (W.faults sink.new) (W.shortages sink.new) in
        EndsUnopened StopCause.Memory places.old places.new source.old source.new shown shown2 result
        ⊎ EndsAt (P.events places.old) (P.events places.new) (P.holds places.old) (P.reaches places.old) (P.kept places.new) (P.hung places.new)
        asked.path asked.address (Rose (P.faults places.old) (P.faults places.new))
        (EndsUnread no_file source.old source.new shown shown2 result) (EndsUnread no_server source.old source.new shown shown2 result)
        (RunsAs P.Link.sent P.Link.transcript P.Link.faults P.Link.began asked.owner (EndsUnread no_server source.old source.new shown shown2 result)
        (HasRunOnDisk P.Disk.content P.Disk.images P.Disk.moment P.Disk.left_since P.Disk.faults P.Link.transcript P.Link.faults P.Link.began
        (keyed_fn ⟦<Real as Keyed>⟧.prf ⟦<Real as Keyed>⟧.pad) asked.words
        (gives (S.remaining source.old) (S.faults source.old)) (gives (S.remaining source.new) (S.faults source.new)) shown shown2 result))) }
    ensures streams { TellsStreams (S.faults source.old) (S.faults source.new) (W.faults sink.old) (W.faults sink.new) (IsAtEnd (S.remaining source.new)) result }
{
    match asked_by(alloc, given) {
        Ok(asked) => run_at(alloc, places, asked, source, sink),
        Err(stop) => finish(sink, stop),
    }
}

/// Opens the file, connects to the address, and does over both what is asked for.
fn run_at<P: Places, S: Source, W: Sink>(
    alloc: Global,
    places: &mut P,
    asked: Asked<'_>,
    source: &mut S,
    sink: &mut W,
) -> u8
where
    P::Link: OwnerLink,
    ensures runs { let asked : asks.Asked = asked_view asked.entry in
        let shown : SinkShows = prints (W.written sink.old) (W.faults sink.old) (W.shortages sink.old) in
        let shown2 : SinkShows = prints (W.written sink.new) (W.faults sink.new) (W.shortages sink.new) in
        EndsAt (P.events places.old) (P.events places.new) (P.holds places.old) (P.reaches places.old) (P.kept places.new) (P.hung places.new)
        asked.path asked.address (Rose (P.faults places.old) (P.faults places.new))
        (EndsUnread no_file source.old source.new shown shown2 result) (EndsUnread no_server source.old source.new shown shown2 result)
        (RunsAs P.Link.sent P.Link.transcript P.Link.faults P.Link.began asked.owner (EndsUnread no_server source.old source.new shown shown2 result)
        (HasRunOnDisk P.Disk.content P.Disk.images P.Disk.moment P.Disk.left_since P.Disk.faults P.Link.transcript P.Link.faults P.Link.began
        (keyed_fn ⟦<Real as Keyed>⟧.prf ⟦<Real as Keyed>⟧.pad) asked.words
        (gives (S.remaining source.old) (S.faults source.old)) (gives (S.remaining source.new) (S.faults source.new)) shown shown2 result)) }
    ensures streams { TellsStreams (S.faults source.old) (S.faults source.new) (W.faults sink.old) (W.faults sink.new) (IsAtEnd (S.remaining source.new)) result }
{
    match places.open(asked.path) {
        Ok(disk) => match places.connect(asked.address) {
            Ok(link) => run_over(
                alloc,
                places,
                asked.owner,
                asked.words,
                disk,
                link,
                source,
                sink,
            ),
            Err(_) => {
                places.close(disk);
                finish(
                    sink,
                    StopCause::Command(CommandStop::Exchange(PeerStop::Link)),
                )
            }
        },
        Err(_) => finish(
            sink,
            StopCause::Command(CommandStop::Keeping(DeviceFault::Failed)),
        ),
    }
}

/// Carries out the script over a disk and a link, or goes on from the disk's records, and gives both back.
fn run_over<P: Places, S: Source, W: Sink>(
    alloc: Global,
    places: &mut P,
    owner: Option<u64>,
    words: &[String],
    disk: P::Disk,
    link: P::Link,
    source: &mut S,
    sink: &mut W,
) -> u8
where
    P::Link: OwnerLink,
    ensures runs { let shown : SinkShows = prints (W.written sink.old) (W.faults sink.old) (W.shortages sink.old) in
        let shown2 : SinkShows = prints (W.written sink.new) (W.faults sink.new) (W.shortages sink.new) in
        HasDone (P.events places.old) (P.events places.new) (P.kept places.new) (P.hung places.new)
        (RunsAs P.Link.sent P.Link.transcript P.Link.faults P.Link.began owner (EndsUnread no_server source.old source.new shown shown2 result)
        (HasRunOnDisk P.Disk.content P.Disk.images P.Disk.moment P.Disk.left_since P.Disk.faults P.Link.transcript P.Link.faults P.Link.began
        (keyed_fn ⟦<Real as Keyed>⟧.prf ⟦<Real as Keyed>⟧.pad) (map (λ word. string_bytes word) words.now)
        (gives (S.remaining source.old) (S.faults source.old)) (gives (S.remaining source.new) (S.faults source.new)) shown shown2 result) disk link) }
    ensures streams { TellsStreams (S.faults source.old) (S.faults source.new) (W.faults sink.old) (W.faults sink.new) (IsAtEnd (S.remaining source.new)) result }
{
    let mut link = link;
    let (status, disk) = run_as(alloc, owner, words, &mut link, disk, source, sink);
    places.hang_up(link);
    places.close(disk);
    status
}

/// The same with the link lent: the owner's number first, if there is one, and then the run.
fn run_as<L: OwnerLink, D: Disk, S: Source, W: Sink>(
    alloc: Global,
    owner: Option<u64>,
    words: &[String],
    link: &mut L,
    disk: D,
    source: &mut S,
    sink: &mut W,
) -> (u8, D)
    ensures runs { let shown : SinkShows = prints (W.written sink.old) (W.faults sink.old) (W.shortages sink.old) in
        let shown2 : SinkShows = prints (W.written sink.new) (W.faults sink.new) (W.shortages sink.new) in
        RunsAs L.sent L.transcript L.faults L.began owner (EndsUnread no_server source.old source.new shown shown2 result.0)
        (HasRunOnDisk D.content D.images D.moment D.left_since D.faults L.transcript L.faults L.began
        (keyed_fn ⟦<Real as Keyed>⟧.prf ⟦<Real as Keyed>⟧.pad) (map (λ word. string_bytes word) words.now)
        (gives (S.remaining source.old) (S.faults source.old)) (gives (S.remaining source.new) (S.faults source.new)) shown shown2 result.0) disk link.old result.1 link.new }
    ensures streams { TellsStreams (S.faults source.old) (S.faults source.new) (W.faults sink.old) (W.faults sink.new) (IsAtEnd (S.remaining source.new)) result.0 }
{
    match owner {
        Some(owner) => match link.begin_as(owner) {
            Ok(()) => run_words(alloc, words, link, disk, source, sink),
            Err(_) => {
                let unreached = StopCause::Command(CommandStop::Exchange(PeerStop::Link));
                (finish(sink, unreached), disk)
            }
        },
        None => run_words(alloc, words, link, disk, source, sink),
    }
}

/// The run of the words over a link from here on, under the real keyed function.
fn run_words<L: Link, D: Disk, S: Source, W: Sink>(
    alloc: Global,
    words: &[String],
    link: &mut L,
    disk: D,
    source: &mut S,
    sink: &mut W,
) -> (u8, D)
    ensures runs { let shown : SinkShows = prints (W.written sink.old) (W.faults sink.old) (W.shortages sink.old) in
        let shown2 : SinkShows = prints (W.written sink.new) (W.faults sink.new) (W.shortages sink.new) in
        HasRunOnDisk D.content D.images D.moment D.left_since D.faults L.transcript L.faults L.began
        (keyed_fn ⟦<Real as Keyed>⟧.prf ⟦<Real as Keyed>⟧.pad) (map (λ word. string_bytes word) words.now)
        (gives (S.remaining source.old) (S.faults source.old)) (gives (S.remaining source.new) (S.faults source.new)) shown shown2 result.0 disk link.old result.1 link.new }
    ensures streams { TellsStreams (S.faults source.old) (S.faults source.new) (W.faults sink.old) (W.faults sink.new) (IsAtEnd (S.remaining source.new)) result.0 }
{
    run_on_disk(alloc, words, &Real, link, disk, source, sink)
}
