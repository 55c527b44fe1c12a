ghost use Rattle.std.specs.Prelude.{◌≡◌, ◌≢◌, ◌⊎◌, Err, None, IfErr, IfOk, IsSome};
ghost use Rattle.keyed_fn.specs.KeyedFn.{keyed_fn};
ghost use Rattle.sse_outside.specs.Causes.{Rose};
ghost use Rattle.sse_served.specs.Asked as asks;
ghost use Rattle.sse_served.specs.Asked.{HaveOwners, mode_view, wanted_view};
ghost use Rattle.service_places.specs.Places.{HasDone, HasNoAddress, HasNoFile, HasRun};
ghost use Rattle.service_places.specs.Endings.{EndsFor, HasService, Printed};
ghost use Rattle.sse_served.specs.Program.{ServesMode};

use crate::asked::{Mode, Wanted, wanted_by};
use crate::owner_service::serve_all_owners;
use crate::service::serve_all;
use keyed_fn::{Keyed, Real};
use outside_words::CommandLine;
use service_places::{Places, ServiceStop, Stop, finish, say_line};
use sse_outside::{Disk, Sink};
use std::alloc::Global;
use std::hash::RandomState;
use tcp_service::Conns;

// Promise P30 (user): `sse_served` takes address, path and perhaps a count or owners' numbers; other words open nothing, and end with 2, or 7 without memory.
//   clauses: wrong, wrong_places, words; checks: .ci/served; not: Of the line a prefix may be printed if a count of the sink rose.
// Promise P31 (user): Right words make `sse_served` serve what they say, from their file and address, under HMAC-SHA-256 and ChaCha20; else the status names why.
//   clauses: serves; assumes: observable devices; checks: .ci/served; not: That the system opens the file of that path and listens at that address: real places show contracts only
//     their count of faults. Of each line a prefix may be printed if a count of the sink rose. With right words too the status is 7 if there is no memory to read them in.
// Promise P248 (user): If the system gives no random keys for the hash tables, `sse_served` opens nothing and ends with 11, or with 7 if memory is out.
//   clauses: no_keys; checks: .ci/served; not: That keys which the system gives are random. Wrong words end as P30 says.
/// All that the program does with a command line, places and a sink, and the status to end with.
///
/// Where the words aren't right nothing is opened and nothing is made; nor without keys for the hash tables. Else it opens the file, listens at the address, prints
/// that it is serving, and serves from a store on the file, under the real keyed function. What stops it is the status and the last
/// line; a line that isn't taken changes no status. Words, right or wrong, end with 7 where there is no memory to read them in.
pub(crate) fn served_main<P: Places, W: Sink>(
    alloc: Global,
    places: &mut P,
    keys: Option<RandomState>,
    given: &CommandLine,
    sink: &mut W,
) -> u8
    ensures wrong { IfErr (asks.wanted_by given.now) (λ stop.
        let p : Printed = record { written = W.written sink.old; written2 = W.written sink.new; faults = W.faults sink.old; faults2 = W.faults sink.new; shortages = W.shortages sink.old; shortages2 = W.shortages sink.new } in
        EndsFor stop p result ⊎ EndsFor (Stop.Service ServiceStop.Memory) p result) }
    ensures wrong_places { IfErr (asks.wanted_by given.now) (λ stop. places.new ≡ places.old) }
    ensures no_keys { keys ≡ None → IfOk (asks.wanted_by given.now) (λ wanted.
        let p : Printed = record { written = W.written sink.old; written2 = W.written sink.new; faults = W.faults sink.old; faults2 = W.faults sink.new; shortages = W.shortages sink.old; shortages2 = W.shortages sink.new } in
        (EndsFor (Stop.Service ServiceStop.NoRandomness) p result ⊎ EndsFor (Stop.Service ServiceStop.Memory) p result) × (places.new ≡ places.old)) }
    ensures words { result ≡ 2 → asks.wanted_by given.now ≡ Err Stop.Words }
    ensures serves { IsSome keys → IfOk (asks.wanted_by given.now) (λ wanted.
        let p : Printed = record { written = W.written sink.old; written2 = W.written sink.new; faults = W.faults sink.old; faults2 = W.faults sink.new; shortages = W.shortages sink.old; shortages2 = W.shortages sink.new } in
        HasRun (P.events places.old) (P.events places.new) (P.holds places.old) (P.hears places.old) (P.kept places.new) (P.ended places.new) wanted.path wanted.address
        (HasService (ServesMode (keyed_fn ⟦<Real as Keyed>⟧.prf ⟦<Real as Keyed>⟧.pad) P.Disk.content P.Disk.images P.Disk.faults P.Conns.In.remaining P.Conns.Out.written
        P.Conns.offered P.Conns.returned P.Conns.given P.Conns.lent P.Conns.faults P.Conns.ended wanted.mode) p result)
        ⊎ (HasNoFile (P.events places.old) (P.events places.new) (P.holds places.old) (P.hears places.old) (P.kept places.new) (P.ended places.new) wanted.path wanted.address
        (Rose (P.faults places.old) (P.faults places.new)) (EndsFor (Stop.Service ServiceStop.Disk) p result)
        ⊎ (HasNoAddress (P.events places.old) (P.events places.new) (P.holds places.old) (P.hears places.old) (P.kept places.new) (P.ended places.new) wanted.path wanted.address
        (Rose (P.faults places.old) (P.faults places.new)) (EndsFor (Stop.Service ServiceStop.Link) p result)
        ⊎ (EndsFor (Stop.Service ServiceStop.Memory) p result × (places.new ≡ places.old))))) }
{
    match wanted_by(alloc, given) {
        Ok(wanted) => match keys {
            Some(keys) => serve_at(alloc, places, keys, wanted, sink),
            None => finish(sink, Stop::Service(ServiceStop::NoRandomness)),
        },
        Err(stop) => finish(sink, stop),
    }
}

/// Opens the file, listens at the address, and serves from both.
fn serve_at<P: Places, W: Sink>(
    alloc: Global,
    places: &mut P,
    keys: RandomState,
    wanted: Wanted<'_>,
    sink: &mut W,
) -> u8
    requires owners { HaveOwners wanted.mode }
    ensures serves { let wanted : asks.Wanted = wanted_view wanted.entry in
        let p : Printed = record { written = W.written sink.old; written2 = W.written sink.new; faults = W.faults sink.old; faults2 = W.faults sink.new; shortages = W.shortages sink.old; shortages2 = W.shortages sink.new } in
        HasRun (P.events places.old) (P.events places.new) (P.holds places.old) (P.hears places.old) (P.kept places.new) (P.ended places.new) wanted.path wanted.address
        (HasService (ServesMode (keyed_fn ⟦<Real as Keyed>⟧.prf ⟦<Real as Keyed>⟧.pad) P.Disk.content P.Disk.images P.Disk.faults P.Conns.In.remaining P.Conns.Out.written
        P.Conns.offered P.Conns.returned P.Conns.given P.Conns.lent P.Conns.faults P.Conns.ended wanted.mode) p result)
        ⊎ (HasNoFile (P.events places.old) (P.events places.new) (P.holds places.old) (P.hears places.old) (P.kept places.new) (P.ended places.new) wanted.path wanted.address
        (Rose (P.faults places.old) (P.faults places.new)) (EndsFor (Stop.Service ServiceStop.Disk) p result)
        ⊎ HasNoAddress (P.events places.old) (P.events places.new) (P.holds places.old) (P.hears places.old) (P.kept places.new) (P.ended places.new) wanted.path wanted.address
        (Rose (P.faults places.old) (P.faults places.new)) (EndsFor (Stop.Service ServiceStop.Link) p result)) }
    ensures status { result ≢ 2 }
{
    let Wanted {
        address,
        path,
        mode,
    } = wanted;
    match places.open(path) {
        Ok(disk) => match places.listen(address) {
            Ok(conns) => serve_over(alloc, places, disk, conns, keys, mode, sink),
            Err(_) => {
                places.close(disk);
                finish(sink, Stop::Service(ServiceStop::Link))
            }
        },
        Err(_) => finish(sink, Stop::Service(ServiceStop::Disk)),
    }
}

/// Serves what the words ask for from a disk and connections, and gives both back.
fn serve_over<P: Places, W: Sink>(
    alloc: Global,
    places: &mut P,
    disk: P::Disk,
    conns: P::Conns,
    keys: RandomState,
    mode: Mode,
    sink: &mut W,
) -> u8
    requires owners { HaveOwners mode }
    ensures serves { HasDone (P.events places.old) (P.events places.new) (P.kept places.new) (P.ended places.new)
        (HasService (ServesMode (keyed_fn ⟦<Real as Keyed>⟧.prf ⟦<Real as Keyed>⟧.pad) P.Disk.content P.Disk.images P.Disk.faults P.Conns.In.remaining P.Conns.Out.written
        P.Conns.offered P.Conns.returned P.Conns.given P.Conns.lent P.Conns.faults P.Conns.ended (mode_view mode))
        (record { written = W.written sink.old; written2 = W.written sink.new; faults = W.faults sink.old; faults2 = W.faults sink.new; shortages = W.shortages sink.old; shortages2 = W.shortages sink.new })
        result disk conns) }
    ensures status { result ≢ 2 }
{
    let mut disk = disk;
    let mut conns = conns;
    let status = serve_words(alloc, &Real, keys, mode, &mut disk, &mut conns, sink);
    places.end(conns);
    places.close(disk);
    status
}

/// Prints that connections can come, serves what the words ask for from the journal of a disk, and prints what ended it; the
/// status to end with.
fn serve_words<K: Keyed, D: Disk, C: Conns, W: Sink>(
    alloc: Global,
    keyed: &K,
    keys: RandomState,
    mode: Mode,
    disk: &mut D,
    conns: &mut C,
    sink: &mut W,
) -> u8
    requires owners { HaveOwners mode }
    ensures serves { HasService (ServesMode (keyed_fn K.prf K.pad) D.content D.images D.faults C.In.remaining C.Out.written C.offered C.returned C.given C.lent C.faults C.ended (mode_view mode))
        (record { written = W.written sink.old; written2 = W.written sink.new; faults = W.faults sink.old; faults2 = W.faults sink.new; shortages = W.shortages sink.old; shortages2 = W.shortages sink.new })
        result disk.old conns.old disk.new conns.new }
    ensures status { result ≢ 2 }
{
    say_line(sink, b"serving\n");
    match serve_mode(alloc, keyed, keys, mode, disk, conns) {
        Ok(()) => 0,
        Err(stop) => finish(sink, Stop::Service(stop)),
    }
}

/// Serves one archive, or an archive for each owner, from the journal of a disk.
fn serve_mode<K: Keyed, D: Disk, C: Conns>(
    alloc: Global,
    keyed: &K,
    keys: RandomState,
    mode: Mode,
    disk: &mut D,
    conns: &mut C,
) -> Result<(), ServiceStop>
    requires owners { HaveOwners mode }
    ensures { ServesMode (keyed_fn K.prf K.pad) D.content D.images D.faults C.In.remaining C.Out.written C.offered C.returned C.given C.lent C.faults C.ended (mode_view mode)
        result disk.old conns.old disk.new conns.new }
{
    match mode {
        Mode::OneArchive(count) => serve_all(alloc, keyed, keys, disk, conns, count),
        Mode::Owners(numbers) => serve_all_owners(alloc, keyed, keys, numbers, disk, conns),
    }
}
