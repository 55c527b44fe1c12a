ghost use Rattle.std.specs.Prelude.{◌≡◌, ◌≢◌, ◌≤◌, ◌+◌, ◌^◌, ℕ, [], None, Some, map, string_bytes, Err, IfErr, IfOk, OnOk, IfSome};
ghost use Rattle.std.specs.Io.KnownBytes.{IsAtEnd};
ghost use Rattle.client_registry.specs.Histories.{empty};
ghost use Rattle.keyed_fn.specs.KeyedFn.{KeyedFn, keyed_fn};
ghost use Rattle.def_link_events.specs.Served as links;
ghost use Rattle.script_run_texts.specs.Causes.{InputCause, KeepsRecorder, KeepsSink, KeepsSource, LinkCause, RecorderCause, SourceCause};
ghost use Rattle.script_run_texts.specs.Stops.{input_cause};
ghost use Rattle.script_run_texts.specs.Words as asks;
ghost use Rattle.def_script_meaning.specs.Carries.{Outside};
ghost use Rattle.def_script_meaning.specs.Lines.{lines_in};
ghost use Rattle.def_script_meaning.specs.Runs.{Ended, ended, OpensFrom, OpensAtKey};
ghost use Rattle.def_script_meaning.specs.Stops as ends;
ghost use Rattle.def_script_meaning.specs.Stops.{status_of, stop_text};
ghost use Rattle.server_core.specs.State.{at_first};
ghost use Rattle.sse_client.specs.Calls.{shows, KeepsLink};
ghost use Rattle.sse_client.specs.RecordKept.{StaysWhole, WholeAtStop};
ghost use Rattle.sse_client.specs.KeyLines as keys;
ghost use Rattle.sse_client.specs.OverServer.{IsRunOverServer};
ghost use Rattle.sse_client.specs.Stands.{OpensTo, outside_of, seen};
ghost use Rattle.sse_client.specs.Turns.{ending};
ghost use Rattle.client_journal.specs.Shows.{LeavesRecorder, gives, prints};
ghost use Rattle.sse_client.specs.WholeRuns.{DoesNothing, IsRun, LeavesDevices, outside};
ghost use Rattle.sse_link.specs.LinkStates.{link_state_first};
ghost use Rattle.sse_outside.specs.Fronts.{TookOrRose};
ghost use Rattle.client_recorder.specs.KeepsOn.{KeepsOn};
ghost use Rattle.sse_script.specs.TextLines.{bytes_to_come, lines_left};

use crate::exchange::greet;
use crate::lines::{Refusals, Session, run_lines};
use crate::reply_buffer::ReplyBuffer;
use crate::session::Stage;
use crate::tools::Tools;
use client_core::Client;
use client_recorder::Recorder;
use client_registry::Docs;
use keyed_fn::Keyed;
use script_run_texts::{Input, InputStop, Mode, StopCause, finish, mode_of};
use server_tables::Tables;
use sse_link::{Link, SteadyLoopback};
use sse_outside::{Sink, Source};
use sse_script::Line;
use std::alloc::Global;
use word_keys::MasterKey;

// Promise P01 (user): Over any link, each line exchanges its frames and prints its result, a search the identifiers received, or the run stops for a visible cause.
//   clauses: run; fields: IsRun.opens, IsRun.told, IsRun.kept, IsRun.line; assumes: observable devices; not: Out of memory is no visible cause: a run may say so at any line,
//     even when every reply of an update arrived.
// Promise P02 (user): Over an honest link from a server that expects a setup's first frame, a run without collision ends with a status of at most 7.
//   clauses: run; fields: IsRun.honest; assumes: observable devices, honest link, no collision; not: Other links: there P01 says why a run ends with 8 or 9.
// Promise P03 (user): An undisturbed run prints exactly the script's lines; each search lists, in rising order, exactly the live documents that hold its word.
//   clauses: run; fields: IsRun.headline, Headline.status_is, Headline.printed, Headline.session, Headline.kept, Headline.stored; assumes: observable devices, honest link, no
//     collision, no device fault, enough memory; not: A run that a device or memory stopped, beyond P01. If a line stops the run, only a prefix of that last line is claimed here
//     (P09).
// Promise P09 (user): If a run stops, its last line is printed whole, or a count of the sink rose and a prefix was printed.
//   clauses: run, devices; fields: IsRun.line, LeavesDevices.line; assumes: observable devices; not: Standard output, which isn't observable. Over a source that isn't observable
//     only the counts are claimed.
// Promise P10 (user): A run's status names the device that failed: 3, 5 and 6 if and only if that device's fault count rose.
//   clauses: devices, known; fields: LeavesDevices.tells, TellsDevices.source_failed, TellsDevices.source_steady, TellsDevices.link_failed, TellsDevices.link_steady,
//     TellsDevices.disk_failed, TellsDevices.disk_steady, TellsDevices.sink_failed, TellsDevices.sink_steady, TellsDevices.at_end; not: 4 comes only if the sink's count rose, but a
//     risen count may end otherwise; with 0 and 1 it stays. `run_program` of the local program has none of these clauses.
// Promise P11 (user): With words other than those of a run, nothing is read, sent, received or kept, and the status is 2.
//   clauses: other; fields: DoesNothing.says, DoesNothing.unsent, DoesNothing.unkept, SaysWords.unread, SaysWords.status_is, SaysWords.line
// Promise P12 (user): No frame of a setup, an addition or a deletion is sent unless the recorder took its record.
//   clauses: run; fields: IsRun.recorded, IsRecorded.sent, IsRecorded.kept, IsRecorded.whole; assumes: observable devices; not: The order of the two in time, which is a
//     `requires` of `catch_up`. Records of a journal on a real disk, which isn't observable; whether a crash leaves a refused record.
// Promise P13 (user): A crash during a run leaves the earlier records and then the first of the run's, in order, with none skipped.
//   clauses: records; fields: LeavesRecorder.kept_on, LeavesRecorder.lasts; assumes: observable devices, disk model; not: Whether a crash leaves a refused record. With a status
//     other than 6 and 7 none was refused.
// Promise P17 (user): Over an honest link without collision, a run that stops, for any reason, leaves a server with which a next run can resume.
//   clauses: run; fields: IsRun.left, HasGoneOn.left, LeavesTaken.taken, LeavesTaken.most; assumes: observable devices, resumable state, honest link, no collision; not: After 6, 7
//     and 8 the record of the command in hand may be missing; then nothing of that command was sent. The resumable state is assumed of `more` only. A run that stops before its
//     setup: then no clause speaks of the server.
// Promise P24 (user): Whatever the link does, the frames that `run` sends are the first that the simulator makes from the history's leakage and drawn values.
//   clauses: run; fields: IsRun.simulated, SendsSimulated.sent; assumes: observable devices; not: Replies over a link that isn't honest. Sessions that resume with `more` (P182). That
//     real values look random, which is assumed.
// Promise P25 (user): The simulator makes exactly the traffic of an undisturbed `run` or `more`, from the leakage of all sessions' history and drawn values.
//   clauses: run; fields: IsRun.headline, Headline.simulated, IsSimulated.made, IsSimulated.same, HasGoneOn.headline, Rejoined.simulated, IsSimulatedAfter.makes, IsSimulatedAfter.same;
//     assumes: observable devices, honest link, no collision, no device fault, enough memory; checks: .ci/leakage; not: That the leakage is harmless; timing. That real values look
//     random is assumed. Of `more` also a resumable state is assumed; it sends the updates that its server was missing again, as they were first made.
// Promise P244 (user): A query line asks each of its different words once, in order of first appearance, and lists what it chooses of the answers received.
//   clauses: run; fields: IsRun.opens; assumes: observable devices; not: Over a link that isn't honest the answers may be wrong. The run may stop within the line, for a visible
//     cause or out of memory.
// Promise P245 (user): In an undisturbed run a query line lists exactly the live documents that the query chooses, each once, in rising order.
//   clauses: run; fields: IsRun.headline, Headline.printed, Headline.session; assumes: observable devices, honest link, no collision, no device fault, enough memory; not: That the
//     searches of its words leak no more than searches on their own: the server sees that they come in a row.
/// All that a client program does with these words of its command line: `run` carries out the script
/// of the source over the link, keeps the record of each setup, addition and deletion before anything
/// of it is sent, and prints to the sink. Other words end with status 2 and `stopped: words`, and
/// nothing is read, sent, received or kept.
pub fn sse_run<K: Keyed, L: Link, R: Recorder, S: Source, W: Sink>(
    alloc: Global,
    words: &[String],
    keyed: &K,
    link: &mut L,
    recorder: &mut R,
    source: &mut S,
    sink: &mut W,
) -> u8
    requires whole { R.whole recorder.old }
    ensures other { asks.mode_of (map (λ word. string_bytes word) words.now) ≡ None → DoesNothing source.old source.new link.old link.new recorder.old recorder.new
        (prints (W.written sink.old) (W.faults sink.old) (W.shortages sink.old)) (prints (W.written sink.new) (W.faults sink.new) (W.shortages sink.new)) result }
    ensures run { asks.mode_of (map (λ word. string_bytes word) words.now) ≡ Some asks.Run → IfSome (S.remaining source.old) (λ bytes. IsRun (keyed_fn K.prf K.pad) bytes
        (outside (L.transcript link.old) (R.kept recorder.old) (W.written sink.old)) (outside (L.transcript link.new) (R.kept recorder.new) (W.written sink.new))
        (prints (W.written sink.old) (W.faults sink.old) (W.shortages sink.old)) (prints (W.written sink.new) (W.faults sink.new) (W.shortages sink.new)) result) }
    ensures devices { LeavesDevices (gives (S.remaining source.old) (S.faults source.old)) (gives (S.remaining source.new) (S.faults source.new))
        (prints (W.written sink.old) (W.faults sink.old) (W.shortages sink.old)) (prints (W.written sink.new) (W.faults sink.new) (W.shortages sink.new))
        (shows (L.transcript link.old) (L.faults link.old) (L.began link.old)) (shows (L.transcript link.new) (L.faults link.new) (L.began link.new))
        (R.faults recorder.old) (R.faults recorder.new) result }
    ensures records { LeavesRecorder R.kept R.moment R.left_since R.whole recorder.old recorder.new result }
    ensures known { result ≤ 9 }
{
    match mode_of(words) {
        Some(Mode::Run) => whole_run(alloc, keyed, link, recorder, source, sink),
        None => finish(sink, StopCause::Words),
    }
}

/// Carries out a script, prints the last line where it stopped, and answers the run's status.
pub(crate) fn whole_run<K: Keyed, L: Link, R: Recorder, S: Source, W: Sink>(
    alloc: Global,
    keyed: &K,
    link: &mut L,
    recorder: &mut R,
    source: &mut S,
    sink: &mut W,
) -> u8
    requires whole { R.whole recorder.old }
    ensures run { IfSome (S.remaining source.old) (λ bytes. IsRun (keyed_fn K.prf K.pad) bytes
        (outside (L.transcript link.old) (R.kept recorder.old) (W.written sink.old)) (outside (L.transcript link.new) (R.kept recorder.new) (W.written sink.new))
        (prints (W.written sink.old) (W.faults sink.old) (W.shortages sink.old)) (prints (W.written sink.new) (W.faults sink.new) (W.shortages sink.new)) result) }
    ensures devices { LeavesDevices (gives (S.remaining source.old) (S.faults source.old)) (gives (S.remaining source.new) (S.faults source.new))
        (prints (W.written sink.old) (W.faults sink.old) (W.shortages sink.old)) (prints (W.written sink.new) (W.faults sink.new) (W.shortages sink.new))
        (shows (L.transcript link.old) (L.faults link.old) (L.began link.old)) (shows (L.transcript link.new) (L.faults link.new) (L.began link.new))
        (R.faults recorder.old) (R.faults recorder.new) result }
    ensures records { LeavesRecorder R.kept R.moment R.left_since R.whole recorder.old recorder.new result }
    ensures known { result ≤ 9 }
{
    let ran = run_script(alloc, keyed, link, recorder, source, sink);
    finish_run(ran, sink)
}

/// Prints the last line of a run that stopped, and answers the status of a run, stopped or not.
pub(crate) fn finish_run<W: Sink>(ran: Result<Refusals, StopCause>, sink: &mut W) -> u8
    ensures status { result ≡ status_of (ending ran) }
    ensures line { TookOrRose (W.written sink.old) (W.written sink.new) (stop_text (ending ran))
        (W.faults sink.old) (W.faults sink.new) (W.shortages sink.old) (W.shortages sink.new) }
    ensures steady { OnOk ran (W.faults sink.new ≡ W.faults sink.old) }
    ensures later { W.faults sink.old ≤ W.faults sink.new }
    ensures known { result ≤ 9 }
{
    match ran {
        Ok(Refusals::None) => 0,
        Ok(Refusals::Some) => 1,
        Err(stop) => finish(sink, stop),
    }
}

// Promise P138, also here; clauses: ends
/// Carries out a script: its key line, the greeting, then each line to the end of the input.
fn run_script<K: Keyed, L: Link, R: Recorder, S: Source, W: Sink>(
    alloc: Global,
    keyed: &K,
    link: &mut L,
    recorder: &mut R,
    source: &mut S,
    sink: &mut W,
) -> Result<Refusals, StopCause>
    requires whole { R.whole recorder.old }
    ensures ends { OpensTo (keyed_fn K.prf K.pad) (lines_left [] (S.remaining source.old)) (outside_of (seen (L.transcript link.old) (R.kept recorder.old)) (W.written sink.old))
        (outside_of (seen (L.transcript link.new) (R.kept recorder.new)) (W.written sink.new)) (ending result) }
    ensures at_end { OnOk result (IsAtEnd (S.remaining source.new)) }
    ensures source { KeepsSource SourceCause (S.faults source.old) (S.faults source.new) result }
    ensures sink { KeepsSink (W.faults sink.old) (W.faults sink.new) (W.shortages sink.old) (W.shortages sink.new) result }
    ensures link { KeepsLink LinkCause (shows (L.transcript link.old) (L.faults link.old) (L.began link.old)) (shows (L.transcript link.new) (L.faults link.new) (L.began link.new)) result }
    ensures keeps_on { KeepsOn R.kept R.moment R.left_since recorder.old recorder.new }
    ensures whole_after { StaysWhole WholeAtStop (R.whole recorder.new) result }
    ensures recorder { KeepsRecorder RecorderCause (R.faults recorder.old) (R.faults recorder.new) result }
{
    let mut input = Input::new(alloc)?;
    let key = key_line(source, &mut input)?;
    let mut buffer = ReplyBuffer::new(alloc)?;
    greet(alloc, link, &mut buffer)?;
    let master = key.prepare(keyed);
    let docs = Docs::new(alloc, master.hash_keys());
    let mut tools = Tools { alloc, master };
    let session = Session {
        stage: Stage::Collecting(Client::fresh(key), docs),
        refusals: Refusals::None,
        input,
        buffer,
    };
    run_lines(&mut tools, link, recorder, source, sink, session)
}

// Promise P138, also here; clauses: key, stopped
/// Reads up to the key line, which is the first that isn't empty.
pub(crate) fn key_line<S: Source>(source: &mut S, input: &mut Input) -> Result<MasterKey, InputStop>
    requires few { input.old.number + bytes_to_come input.old.pending (S.handed_out source.old) ≤ 2 ^ 63 }
    ensures key { IfOk result (λ key. (f : KeyedFn) (now : Outside) (end : Ended) →
        OpensAtKey f key input.new.number (lines_left input.new.pending (S.remaining source.new)) now end →
        OpensFrom f (input.old.number + 1) (lines_left input.old.pending (S.remaining source.old)) now end) }
    ensures stopped { IfErr result (λ stop. (f : KeyedFn) (now : Outside) →
        OpensFrom f (input.old.number + 1) (lines_left input.old.pending (S.remaining source.old)) now (ended now None empty (ends.At (input_cause stop)))) }
    ensures found { IfOk result (λ key. keys.FindsKey (input.old.number + 1) (lines_left input.old.pending (S.remaining source.old)) key (input.new.number + 1) (lines_left input.new.pending (S.remaining source.new))) }
    ensures missing { (number : ℕ) → result ≡ Err (InputStop.Line number) →
        IfSome (lines_left input.old.pending (S.remaining source.old)) (λ texts. keys.key_line (input.old.number + 1) (lines_in texts) ≡ keys.Missing number) }
    ensures few_left { OnOk result (input.new.number + bytes_to_come input.new.pending (S.handed_out source.new) ≤ 2 ^ 63) }
    ensures source { KeepsSource InputCause (S.faults source.old) (S.faults source.new) result }
{
    'lines: loop {
        if !input.advance(source)? {
            return Err(InputStop::Line(input.number()));
        }
        match input.line()? {
            Line::Empty => {}
            Line::Key(bytes) => return Ok(MasterKey::new(bytes)),
            _ => return Err(InputStop::Line(input.number())),
        }
    }
}

// Promise P04 (user): Over a fresh link to a server in the same process, an undisturbed run does as its script means, and everything that passes is honest.
//   clauses: run, honest, known; fields: IsRunOverServer.run, IsRunOverServer.stopped, IsRunOverServer.headline; assumes: observable devices, fresh link, no collision, no device
//     fault, enough memory; not: The statuses 3, 4, 6 and 7 end the first half of the claim. No shipped program calls this
//     function: `sse_local` runs over a store (P05).
// Promise P09, also here; clauses: run, devices
// Promise P12, also here; clauses: run
// Promise P13, also here; clauses: records
// Promise P17, also here; clauses: run
// Promise P24, also here; clauses: run
// Promise P25, also here; clauses: run
/// The same over a server in this process that has taken nothing, by a link over which nothing has passed: the link
/// never fails, and all that passes over it is honest.
///
/// Where no device failed and memory wasn't wanting, the run did what its script means, unless values collide that
/// have to differ: it printed its lines, what passed is what the simulator makes of its history's leakage, and the server
/// holds what that leaves.
pub fn run_over_server<K: Keyed, T: Tables, R: Recorder, S: Source, W: Sink>(
    alloc: Global,
    words: &[String],
    keyed: &K,
    link: &mut SteadyLoopback<K, T>,
    recorder: &mut R,
    source: &mut S,
    sink: &mut W,
) -> u8
    requires fresh { link.old ≡ link_state_first at_first }
    requires whole { R.whole recorder.old }
    ensures other { asks.mode_of (map (λ word. string_bytes word) words.now) ≡ None → DoesNothing source.old source.new link.old link.new recorder.old recorder.new
        (prints (W.written sink.old) (W.faults sink.old) (W.shortages sink.old)) (prints (W.written sink.new) (W.faults sink.new) (W.shortages sink.new)) result }
    ensures run { asks.mode_of (map (λ word. string_bytes word) words.now) ≡ Some asks.Run → IfSome (S.remaining source.old) (λ bytes. IsRunOverServer (keyed_fn K.prf K.pad) bytes
        (outside (Some link.old.events) (R.kept recorder.old) (W.written sink.old)) (outside (Some link.new.events) (R.kept recorder.new) (W.written sink.new))
        (prints (W.written sink.old) (W.faults sink.old) (W.shortages sink.old)) (prints (W.written sink.new) (W.faults sink.new) (W.shortages sink.new)) link.new.state result) }
    ensures honest { links.IsHonest (keyed_fn K.prf K.pad) at_first link.new.events link.new.state }
    ensures devices { LeavesDevices (gives (S.remaining source.old) (S.faults source.old)) (gives (S.remaining source.new) (S.faults source.new))
        (prints (W.written sink.old) (W.faults sink.old) (W.shortages sink.old)) (prints (W.written sink.new) (W.faults sink.new) (W.shortages sink.new)) (shows (Some link.old.events) 0 None) (shows (Some link.new.events) 0 None)
        (R.faults recorder.old) (R.faults recorder.new) result }
    ensures records { LeavesRecorder R.kept R.moment R.left_since R.whole recorder.old recorder.new result }
    ensures known { (result ≤ 9) × (result ≢ 5) }
{
    let status = sse_run(alloc, words, keyed, link, recorder, source, sink);
    // Its contract says that all that passed is honest.
    let _passed = link.transcript();
    status
}
