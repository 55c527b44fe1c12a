ghost use Rattle.std.specs.Prelude.{◌≡◌, ◌≢◌, ◌⊎◌, Err, IfErr, IfOk};
ghost use Rattle.sse_outside.specs.Causes.{Rose};
ghost use Rattle.service_places.specs.Asked as asks;
ghost use Rattle.service_places.specs.Asked.{asked_view};
ghost use Rattle.service_places.specs.Places.{HasDone, HasNoAddress, HasNoFile, HasRun};
ghost use Rattle.service_places.specs.Endings.{EndsFor, HasService, Printed};
ghost use Rattle.vault_served.specs.Program.{HasServedSo};

use crate::service::serve_all;
use outside_words::CommandLine;
use service_places::{Asked, Places, ServiceStop, Stop, asked_by, finish, say_line};
use sse_outside::{Disk, Sink};
use std::alloc::Global;
use tcp_service::Conns;

// Promise P187 (user): `vault_served` takes an address, a path and an optional count; other words open nothing, and end with 2, or with 7 if memory is out.
//   clauses: wrong, wrong_places, words; checks: .ci/vault; not: Of the line a prefix may be printed if a count of the sink rose.
// Promise P188 (user): Right words make `vault_served` serve as many connections as they say, from their file and address; else the status names why.
//   clauses: serves; assumes: observable devices; checks: .ci/vault; not: That the system opens the file of that path and listens at that address: real places show contracts only
//     their count of faults. Of each line a prefix may be printed if a count of the sink rose. With right words too the status is 7 if there is no memory to read them in.
/// All that the program does with a command line, places and a sink, and the status to end with.
///
/// If the words aren't right nothing is opened and nothing is made. Else it opens the file, listens at the address, prints
/// that it is serving, and serves from a vault on the file. What stops it is the status and the last line; a line that isn't
/// taken changes no status. Words, right or wrong, end with 7 if there is no memory to read them in.
pub(crate) fn served_main<P: Places, W: Sink>(
    alloc: Global,
    places: &mut P,
    given: &CommandLine,
    sink: &mut W,
) -> u8
    ensures wrong { IfErr (asks.asked_by given.now) (λ stop.
        let p : Printed = record { written = W.written sink.old; written2 = W.written sink.new; faults = W.faults sink.old; faults2 = W.faults sink.new; shortages = W.shortages sink.old; shortages2 = W.shortages sink.new } in
        EndsFor stop p result ⊎ EndsFor (Stop.Service ServiceStop.Memory) p result) }
    ensures wrong_places { IfErr (asks.asked_by given.now) (λ stop. places.new ≡ places.old) }
    ensures words { result ≡ 2 → asks.asked_by given.now ≡ Err Stop.Words }
    ensures serves { IfOk (asks.asked_by given.now) (λ asked.
        let p : Printed = record { written = W.written sink.old; written2 = W.written sink.new; faults = W.faults sink.old; faults2 = W.faults sink.new; shortages = W.shortages sink.old; shortages2 = W.shortages sink.new } in
        HasRun (P.events places.old) (P.events places.new) (P.holds places.old) (P.hears places.old) (P.kept places.new) (P.ended places.new) asked.path asked.address
        (HasService (HasServedSo P.Disk.content P.Disk.images P.Disk.faults P.Conns.In.remaining P.Conns.Out.written
        P.Conns.offered P.Conns.returned P.Conns.given P.Conns.lent P.Conns.faults P.Conns.ended asked.count) p result)
        ⊎ (HasNoFile (P.events places.old) (P.events places.new) (P.holds places.old) (P.hears places.old) (P.kept places.new) (P.ended places.new) asked.path asked.address
        (Rose (P.faults places.old) (P.faults places.new)) (EndsFor (Stop.Service ServiceStop.Disk) p result)
        ⊎ (HasNoAddress (P.events places.old) (P.events places.new) (P.holds places.old) (P.hears places.old) (P.kept places.new) (P.ended places.new) asked.path asked.address
        (Rose (P.faults places.old) (P.faults places.new)) (EndsFor (Stop.Service ServiceStop.Link) p result)
        ⊎ (EndsFor (Stop.Service ServiceStop.Memory) p result × (places.new ≡ places.old))))) }
{
    match asked_by(alloc, given) {
        Ok(asked) => serve_at(alloc, places, asked, sink),
        Err(stop) => finish(sink, stop),
    }
}

/// Opens the file, listens at the address, and serves from both.
fn serve_at<P: Places, W: Sink>(alloc: Global, places: &mut P, asked: Asked<'_>, sink: &mut W) -> u8
    ensures serves { let asked : asks.Asked = asked_view asked.entry in
        let p : Printed = record { written = W.written sink.old; written2 = W.written sink.new; faults = W.faults sink.old; faults2 = W.faults sink.new; shortages = W.shortages sink.old; shortages2 = W.shortages sink.new } in
        HasRun (P.events places.old) (P.events places.new) (P.holds places.old) (P.hears places.old) (P.kept places.new) (P.ended places.new) asked.path asked.address
        (HasService (HasServedSo P.Disk.content P.Disk.images P.Disk.faults P.Conns.In.remaining P.Conns.Out.written
        P.Conns.offered P.Conns.returned P.Conns.given P.Conns.lent P.Conns.faults P.Conns.ended asked.count) p result)
        ⊎ (HasNoFile (P.events places.old) (P.events places.new) (P.holds places.old) (P.hears places.old) (P.kept places.new) (P.ended places.new) asked.path asked.address
        (Rose (P.faults places.old) (P.faults places.new)) (EndsFor (Stop.Service ServiceStop.Disk) p result)
        ⊎ HasNoAddress (P.events places.old) (P.events places.new) (P.holds places.old) (P.hears places.old) (P.kept places.new) (P.ended places.new) asked.path asked.address
        (Rose (P.faults places.old) (P.faults places.new)) (EndsFor (Stop.Service ServiceStop.Link) p result)) }
    ensures status { result ≢ 2 }
{
    match places.open(asked.path) {
        Ok(disk) => match places.listen(asked.address) {
            Ok(conns) => serve_over(alloc, places, disk, conns, asked.count, sink),
            Err(_) => {
                places.close(disk);
                finish(sink, Stop::Service(ServiceStop::Link))
            }
        },
        Err(_) => finish(sink, Stop::Service(ServiceStop::Disk)),
    }
}

/// Serves so many connections from a disk, and gives both back.
fn serve_over<P: Places, W: Sink>(
    alloc: Global,
    places: &mut P,
    disk: P::Disk,
    conns: P::Conns,
    count: u32,
    sink: &mut W,
) -> u8
    ensures serves { HasDone (P.events places.old) (P.events places.new) (P.kept places.new) (P.ended places.new)
        (HasService (HasServedSo P.Disk.content P.Disk.images P.Disk.faults P.Conns.In.remaining P.Conns.Out.written
        P.Conns.offered P.Conns.returned P.Conns.given P.Conns.lent P.Conns.faults P.Conns.ended count)
        (record { written = W.written sink.old; written2 = W.written sink.new; faults = W.faults sink.old; faults2 = W.faults sink.new; shortages = W.shortages sink.old; shortages2 = W.shortages sink.new })
        result disk conns) }
    ensures status { result ≢ 2 }
{
    let mut disk = disk;
    let mut conns = conns;
    let status = serve_words(alloc, count, &mut disk, &mut conns, sink);
    places.end(conns);
    places.close(disk);
    status
}

/// Prints that connections can come, serves as many as the words ask for from the journal of a disk, and prints what ended it; the
/// status to end with.
fn serve_words<D: Disk, C: Conns, W: Sink>(
    alloc: Global,
    count: u32,
    disk: &mut D,
    conns: &mut C,
    sink: &mut W,
) -> u8
    ensures serves { HasService (HasServedSo D.content D.images D.faults C.In.remaining C.Out.written C.offered C.returned C.given C.lent C.faults C.ended count)
        (record { written = W.written sink.old; written2 = W.written sink.new; faults = W.faults sink.old; faults2 = W.faults sink.new; shortages = W.shortages sink.old; shortages2 = W.shortages sink.new })
        result disk.old conns.old disk.new conns.new }
    ensures status { result ≢ 2 }
{
    say_line(sink, b"serving\n");
    match serve_all(alloc, disk, conns, count) {
        Ok(()) => 0,
        Err(stop) => finish(sink, Stop::Service(stop)),
    }
}
