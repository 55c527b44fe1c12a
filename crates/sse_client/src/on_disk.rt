ghost use Rattle.std.specs.Prelude.{◌≡◌, ◌≢◌, ◌⊎◌, ◌≤◌, ◌<◌, ◌+◌, ◌^◌, ℕ, List, [], None, Option, Some, map, string_bytes, IfErr, IfOk, IfSome};
ghost use Rattle.client_journal.specs.Openings.{GivesSome, HasNoRecord, IsNoJournal, IsOfRecords};
ghost use Rattle.client_rebuild.specs.Recalls.{hash_keys_of};
ghost use Rattle.keyed_fn.specs.KeyedFn.{keyed_fn};
ghost use Rattle.script_run_texts.specs.Causes.{KeepsRecorder, KeepsSource};
ghost use Rattle.script_run_texts.specs.Words as asks;
ghost use Rattle.def_script_meaning.specs.Exchange.{Told};
ghost use Rattle.sse_client.specs.Calls.{shows};
ghost use Rattle.sse_client.specs.Known.{Known, Knows};
ghost use Rattle.sse_client.specs.ResumedRun.{GoesOnTo, Restores};
ghost use Rattle.sse_client.specs.KeyLines.{FindsKey};
ghost use Rattle.sse_client.specs.NoRecord.{IsRefusedMore, OverNoRecord};
ghost use Rattle.client_journal.specs.DiskRuns.{IsExact, KeepsOnStarted, kept_on};
ghost use Rattle.sse_client.specs.OnDisk.{BeginsOnDisk, BeginsOrNot, HasGoneOn, HeldCause, HeldSource, ResumesJournal, ResumesOnDisk, ResumesOrNot, held_stop, seen_with};
ghost use Rattle.sse_client.specs.Stages.{hash_keys_under};
ghost use Rattle.sse_client.specs.Stands.{outside_of, seen};
ghost use Rattle.client_journal.specs.Shows.{gives, prints};
ghost use Rattle.sse_client.specs.WholeRuns.{DoesNothing, LeavesDevices};
ghost use Rattle.sse_journal.specs.AnyMoment.{LeavesOnly};
ghost use Rattle.sse_journal.specs.Files.{Gives};
ghost use Rattle.sse_journal.specs.JournalView.{broken_by, records_of};
ghost use Rattle.sse_script.specs.TextLines.{bytes_to_come, lines_left};

use crate::resumed_run::{Restart, gone_on};
use crate::run::{key_line, whole_run};
use crate::tools::Tools;
use client_core::Restored;
use client_journal::{begin, rebuild, reopen};
use client_recorder::JournalRecorder;
use keyed_fn::Keyed;
use script_run_texts::{
    DiskMode, Input, InputStop, JournalStop, StopCause, disk_mode_of, finish, finish_unopened,
};
use sse_journal::Journal;
use sse_link::Link;
use sse_outside::{Disk, Sink, Source};
use std::alloc::{AllocError, Global};

/// Why a run that is to go on doesn't come to its lines.
#[derive(Clone, Copy)]
pub(crate) enum HeldUp {
    /// The records of its journal make no history under its key, or can't be read.
    Records(JournalStop),
    /// Its key line isn't read.
    Input(InputStop),
}

impl From<InputStop> for HeldUp {
    ghost use Rattle.sse_client.specs.declared.on_disk.HeldUp.TheVariants.{Input as input};

    ghost from_gives = { λ stop held. held ≡ input stop };

    fn from(stop: InputStop) -> HeldUp {
        HeldUp::Input(stop)
    }
}

impl From<JournalStop> for HeldUp {
    ghost use Rattle.sse_client.specs.declared.on_disk.HeldUp.TheVariants.{Records as records};

    ghost from_gives = { λ stop held. held ≡ records stop };

    fn from(stop: JournalStop) -> HeldUp {
        HeldUp::Records(stop)
    }
}

impl From<AllocError> for HeldUp {
    ghost use Rattle.script_run_texts.specs.declared.input_stop.InputStop.TheVariants.{Memory};
    ghost use Rattle.sse_client.specs.declared.on_disk.HeldUp.TheVariants.{Input as input};

    ghost from_gives = { λ _ held. held ≡ input Memory };

    fn from(_e: AllocError) -> HeldUp {
        HeldUp::Input(InputStop::Memory)
    }
}

/// A disk with its journal, whose records were found.
#[derive(Drop)]
struct Opened<D: Disk> {
    journal: Journal,
    disk: D,
}

/// Reads the key line, and rebuilds the client of the journal's records under its key.
fn restored<'a, K: Keyed, D: Disk, S: Source>(
    alloc: Global,
    keyed: &'a K,
    journal: &Journal,
    disk: &mut D,
    source: &mut S,
) -> Result<Restart<'a, K>, HeldUp>
    requires holds { IfSome (D.content disk.old) (λ file. IsOfRecords journal.now (D.content disk.old) (D.images disk.old)) }
    requires some { 0 < records_of journal.now }
    ensures restored { IfOk result (λ restart. (known : Known) × Restores (keyed_fn K.prf K.pad) restart.client.key (kept_on (D.content disk.old)) known × Knows (keyed_fn K.prf K.pad) restart.client.key known restart.client.state) }
    ensures found { IfOk result (λ restart. FindsKey 1 (lines_left [] (S.remaining source.old)) restart.client.key (restart.input.number + 1) (lines_left restart.input.pending (S.remaining source.new))) }
    ensures few_left { IfOk result (λ restart. restart.input.number + bytes_to_come restart.input.pending (S.handed_out source.new) ≤ 2 ^ 63) }
    ensures prepared { IfOk result (λ restart. restart.tools.master ≡ restart.client.key) }
    ensures hashed { IfOk result (λ restart. hash_keys_of restart.client.state.last ≡ hash_keys_under (keyed_fn K.prf K.pad) restart.client.key) }
    ensures stopped { IfErr result (λ stop. (told : Told) (written : Option (List ℕ)) →
        GoesOnTo (keyed_fn K.prf K.pad) (lines_left [] (S.remaining source.old)) (seen_with told (D.content disk.old) written) (seen_with told (D.content disk.old) written) (held_stop stop)) }
    ensures kept { D.content disk.new ≡ D.content disk.old }
    ensures quiet { LeavesOnly D.moment D.left_since disk.old disk.new (D.images disk.old) }
    ensures holds { IfSome (D.content disk.new) (λ file. IsOfRecords journal.now (D.content disk.new) (D.images disk.new)) }
    ensures source { KeepsSource HeldSource (S.faults source.old) (S.faults source.new) result }
    ensures disk { KeepsRecorder HeldCause (D.faults disk.old) (D.faults disk.new) result }
{
    let mut input = Input::new(alloc)?;
    let key = key_line(source, &mut input)?;
    let master = key.prepare(keyed);
    let rebuilt = rebuild(alloc, keyed, key, journal, disk)?;
    match Restored::of(rebuilt) {
        Restored::Recorded(client) => {
            let tools = Tools { alloc, master };
            Ok(Restart {
                tools,
                client,
                input,
            })
        }
        Restored::Fresh(_) => Err(HeldUp::Records(JournalStop::NoJournal)),
    }
}

// Promise P09, also here; clauses: begun, more, devices
// Promise P10, also here; clauses: devices, known
// Promise P11, also here; clauses: other
// Promise P14 (user): `run` makes a whole run that keeps its records in the journal, or sends nothing and says why: records, no journal, disk or memory.
//   clauses: begun; fields: BeginsOnDisk.begun, BeginsOnDisk.refused, IsUnopened.stop, IsUnopened.unsent, IsUnopened.unkept, IsRun.opens, IsRun.recorded, IsRun.honest,
//     IsRun.headline, IsRun.line; assumes: observable devices; checks: .ci/turns; not: A real disk isn't observable: any records may have been there.
// Promise P15 (user): `more` resends the last command's missing frames and continues the history that the journal's records make, or stops and says why.
//   clauses: more; fields: ResumesOnDisk.gone_on, ResumesOnDisk.refused, HasGoneOn.goes_on, HasGoneOn.unsent, IsUnopened.unsent; assumes: observable devices; checks: .ci/turns; not:
//     That the server holds the frames before the number it says: its word is taken. A server that lost frames of earlier commands ends the run with 9.
// Promise P16 (user): An undisturbed `more` prints `resumed`, then its script's lines; searches list the live documents of both sessions that hold the word.
//   clauses: more; fields: HasGoneOn.headline, HasGoneOn.honest, Rejoined.printed, Rejoined.passed, Rejoined.kept, Rejoined.stored; assumes: observable devices, resumable state, honest
//     link, no collision, no device fault, enough memory; checks: .ci/turns; not: A server that lost acknowledged frames.
// Promise P17, also here; clauses: begun, more
// Promise P19 (user): If a file's records don't fit the script's key, `more` ends with 10 or 11 and names the right cause.
//   clauses: more; fields: ResumesOnDisk.accepted, StopsUnsent.no_key, StopsUnsent.bad_record, StopsUnsent.wrong_key; assumes: observable devices, no device fault, enough memory; not: A
//     missing key line ends with 2 and its number. 7 is always free.
// Promise P20 (user): From the first successful sync, a crash during a run leaves the file's earlier records and then the run's first ones, in order.
//   clauses: begun, more; fields: KeepsWhat.grows, KeepsWhat.meanwhile, KeepsWhat.leaves; assumes: observable devices, disk model; checks: .ci/journal, .ci/crash; not: Whether a crash
//     leaves a refused record.
// Promise P183 (user): At a run's end the client's file is exactly the journal of its earlier records and then the run's, also after a crash.
//   clauses: begun, more; fields: KeepsWhat.grows, KeepsWhat.exact, BeginsOnDisk.exact, ResumesOnDisk.exact; assumes: observable devices, no device fault, enough memory; checks: .ci/turns;
//     not: A file that is refused, with the status 10. After a fault of the disk or out of memory: there P20 says which records a crash leaves.
// Promise P25, also here; clauses: more
// Promise P182 (user): Over any link, `more` sends the first frames that the simulator makes of all sessions' history, from the number that the server says.
//   clauses: more; fields: HasGoneOn.simulated, ResumesSimulated.same_key, ResumesSimulated.history, ResumesSimulated.sends, SendsSimulatedAfter.makes, SendsSimulatedAfter.sends,
//     MakesAfter.made_before, MakesAfter.made, SendsFrom.within, SendsFrom.replied, SendsFrom.sent; assumes: observable devices, kept limits; not: Replies over a link that isn't
//     honest. That the server's number is true: with another one it gets updates again, or too few. No call makes several sessions: `sessions_are_simulated` is a law.
/// All that a client program does that keeps its records on a disk: with `run` it begins a history, and the journal must have no
/// record; with `more` it goes on with the history of the records that the journal has.
pub fn run_on_disk<K: Keyed, L: Link, D: Disk, S: Source, W: Sink>(
    alloc: Global,
    words: &[String],
    keyed: &K,
    link: &mut L,
    disk: D,
    source: &mut S,
    sink: &mut W,
) -> (u8, D)
    ensures other { asks.disk_mode_of (map (λ word. string_bytes word) words.now) ≡ None → DoesNothing source.old source.new link.old link.new disk result.1
        (prints (W.written sink.old) (W.faults sink.old) (W.shortages sink.old)) (prints (W.written sink.new) (W.faults sink.new) (W.shortages sink.new)) result.0 }
    ensures begun { asks.disk_mode_of (map (λ word. string_bytes word) words.now) ≡ Some asks.RunOn → BeginsOnDisk D.content D.images D.moment D.left_since disk result.1 (keyed_fn K.prf K.pad) (S.remaining source.old) (L.transcript link.old) (L.transcript link.new)
        (prints (W.written sink.old) (W.faults sink.old) (W.shortages sink.old)) (prints (W.written sink.new) (W.faults sink.new) (W.shortages sink.new)) result.0 }
    ensures more { asks.disk_mode_of (map (λ word. string_bytes word) words.now) ≡ Some asks.More → ResumesOnDisk D.content D.images D.moment D.left_since disk result.1 (keyed_fn K.prf K.pad) (S.remaining source.old) (L.transcript link.old) (L.transcript link.new)
        (prints (W.written sink.old) (W.faults sink.old) (W.shortages sink.old)) (prints (W.written sink.new) (W.faults sink.new) (W.shortages sink.new)) result.0 }
    ensures devices { LeavesDevices (gives (S.remaining source.old) (S.faults source.old)) (gives (S.remaining source.new) (S.faults source.new))
        (prints (W.written sink.old) (W.faults sink.old) (W.shortages sink.old)) (prints (W.written sink.new) (W.faults sink.new) (W.shortages sink.new))
        (shows (L.transcript link.old) (L.faults link.old) (L.began link.old)) (shows (L.transcript link.new) (L.faults link.new) (L.began link.new))
        (D.faults disk) (D.faults result.1) result.0 }
    ensures known { result.0 ≤ 11 }
    ensures no_record { IfSome (D.content disk) (λ file. Gives [] file → OverNoRecord (asks.disk_mode_of (map (λ word. string_bytes word) words.now)) source.old source.new
        (L.transcript link.old) (L.transcript link.new) (D.content disk) (D.content result.1)
        (prints (W.written sink.old) (W.faults sink.old) (W.shortages sink.old)) (prints (W.written sink.new) (W.faults sink.new) (W.shortages sink.new)) result.0) }
{
    match disk_mode_of(words) {
        Some(DiskMode::Run) => begin_run(alloc, keyed, link, disk, source, sink),
        Some(DiskMode::More) => more(alloc, keyed, link, disk, source, sink),
        None => (finish(sink, StopCause::Words), disk),
    }
}

/// Begins a history on a disk without records.
fn begin_run<K: Keyed, L: Link, D: Disk, S: Source, W: Sink>(
    alloc: Global,
    keyed: &K,
    link: &mut L,
    disk: D,
    source: &mut S,
    sink: &mut W,
) -> (u8, D)
    ensures begun { BeginsOrNot D.content D.images D.moment D.left_since disk result.1 (keyed_fn K.prf K.pad) (S.remaining source.old) (L.transcript link.old) (L.transcript link.new)
        (prints (W.written sink.old) (W.faults sink.old) (W.shortages sink.old)) (prints (W.written sink.new) (W.faults sink.new) (W.shortages sink.new)) result.0 }
    ensures refused { IfSome (D.content disk) (λ file. GivesSome file ⊎ IsNoJournal file → result.0 ≢ 6 → result.0 ≢ 7 → result.0 ≡ 10) }
    ensures devices { LeavesDevices (gives (S.remaining source.old) (S.faults source.old)) (gives (S.remaining source.new) (S.faults source.new))
        (prints (W.written sink.old) (W.faults sink.old) (W.shortages sink.old)) (prints (W.written sink.new) (W.faults sink.new) (W.shortages sink.new))
        (shows (L.transcript link.old) (L.faults link.old) (L.began link.old)) (shows (L.transcript link.new) (L.faults link.new) (L.began link.new))
        (D.faults disk) (D.faults result.1) result.0 }
    ensures exact { result.0 ≢ 6 → result.0 ≢ 7 → result.0 ≢ 10 → IsExact (D.content result.1) (D.images result.1) }
    ensures known { result.0 ≤ 10 }
    ensures no_record { IfSome (D.content disk) (λ file. Gives [] file → result.0 ≤ 9) }
{
    let mut disk = disk;
    match begin(alloc, &mut disk) {
        Ok(journal) => {
            let mut recorder = JournalRecorder::new(journal, disk);
            let status = whole_run(alloc, keyed, link, &mut recorder, source, sink);
            (status, recorder.into_disk())
        }
        Err(stop) => (finish_unopened(sink, stop), disk),
    }
}

/// Goes on with the history of a disk's records.
fn more<K: Keyed, L: Link, D: Disk, S: Source, W: Sink>(
    alloc: Global,
    keyed: &K,
    link: &mut L,
    disk: D,
    source: &mut S,
    sink: &mut W,
) -> (u8, D)
    ensures more { ResumesOrNot D.content D.images D.moment D.left_since disk result.1 (keyed_fn K.prf K.pad) (S.remaining source.old) (L.transcript link.old) (L.transcript link.new)
        (prints (W.written sink.old) (W.faults sink.old) (W.shortages sink.old)) (prints (W.written sink.new) (W.faults sink.new) (W.shortages sink.new)) result.0 }
    ensures accepted { IfSome (D.content disk) (λ file. GivesSome file → result.0 ≢ 6 → result.0 ≢ 7 → ResumesJournal D.content D.images D.moment D.left_since disk result.1 (keyed_fn K.prf K.pad) (S.remaining source.old) (L.transcript link.old) (L.transcript link.new)
        (prints (W.written sink.old) (W.faults sink.old) (W.shortages sink.old)) (prints (W.written sink.new) (W.faults sink.new) (W.shortages sink.new)) result.0) }
    ensures refused { IfSome (D.content disk) (λ file. HasNoRecord file → IsRefusedMore source.old source.new (L.transcript link.old) (L.transcript link.new) (D.content disk) (D.content result.1)
        (prints (W.written sink.old) (W.faults sink.old) (W.shortages sink.old)) (prints (W.written sink.new) (W.faults sink.new) (W.shortages sink.new)) result.0) }
    ensures devices { LeavesDevices (gives (S.remaining source.old) (S.faults source.old)) (gives (S.remaining source.new) (S.faults source.new))
        (prints (W.written sink.old) (W.faults sink.old) (W.shortages sink.old)) (prints (W.written sink.new) (W.faults sink.new) (W.shortages sink.new))
        (shows (L.transcript link.old) (L.faults link.old) (L.began link.old)) (shows (L.transcript link.new) (L.faults link.new) (L.began link.new))
        (D.faults disk) (D.faults result.1) result.0 }
    ensures exact { result.0 ≢ 6 → result.0 ≢ 7 → result.0 ≢ 10 → IsExact (D.content result.1) (D.images result.1) }
    ensures known { result.0 ≤ 11 }
{
    let mut disk = disk;
    match reopen(alloc, &mut disk) {
        Ok(journal) => go_on_from(alloc, keyed, link, Opened { journal, disk }, source, sink),
        Err(stop) => (finish_unopened(sink, stop), disk),
    }
}

/// Goes on from the records of a journal.
fn go_on_from<K: Keyed, L: Link, D: Disk, S: Source, W: Sink>(
    alloc: Global,
    keyed: &K,
    link: &mut L,
    opened: Opened<D>,
    source: &mut S,
    sink: &mut W,
) -> (u8, D)
    requires holds { IfSome (D.content opened.disk) (λ file. IsOfRecords opened.journal (D.content opened.disk) (D.images opened.disk)) }
    requires some { 0 < records_of opened.journal }
    requires unbroken { broken_by opened.journal ≡ None }
    ensures gone_on { KeepsOnStarted D.content D.images D.moment D.left_since opened.disk result.1 result.0 (λ kept. IfSome (S.remaining source.old) (λ bytes.
        HasGoneOn (keyed_fn K.prf K.pad) bytes (seen_with (L.transcript link.old) (D.content opened.disk) (W.written sink.old)) (outside_of (seen (L.transcript link.new) kept) (W.written sink.new)) result.0
        (W.faults sink.old) (W.faults sink.new) (W.shortages sink.old) (W.shortages sink.new))) }
    ensures devices { LeavesDevices (gives (S.remaining source.old) (S.faults source.old)) (gives (S.remaining source.new) (S.faults source.new))
        (prints (W.written sink.old) (W.faults sink.old) (W.shortages sink.old)) (prints (W.written sink.new) (W.faults sink.new) (W.shortages sink.new))
        (shows (L.transcript link.old) (L.faults link.old) (L.began link.old)) (shows (L.transcript link.new) (L.faults link.new) (L.began link.new))
        (D.faults opened.disk) (D.faults result.1) result.0 }
    ensures exact { result.0 ≢ 6 → result.0 ≢ 7 → IsExact (D.content result.1) (D.images result.1) }
    ensures known { result.0 ≤ 11 }
{
    let Opened { journal, mut disk } = opened;
    match restored(alloc, keyed, &journal, &mut disk, source) {
        Ok(restart) => {
            let mut recorder = JournalRecorder::new(journal, disk);
            let status = gone_on(restart, link, &mut recorder, source, sink);
            (status, recorder.into_disk())
        }
        Err(HeldUp::Records(stop)) => (finish_unopened(sink, stop), disk),
        Err(HeldUp::Input(stop)) => (finish(sink, StopCause::Input(stop)), disk),
    }
}
