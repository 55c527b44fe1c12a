ghost use Rattle.std.specs.Prelude.{◌≡◌, ◌≢◌, ◌≤◌, ◌<◌, ◌+◌, ◌^◌, ℕ, List, Err, IfErr, IfOk, Ok, OnOk};
ghost use Rattle.std.specs.Io.KnownBytes.{IsAtEnd};
ghost use Rattle.client_core.specs.Restores.{Remembers};
ghost use Rattle.client_core.specs.Resumes.{Lacks};
ghost use Rattle.client_core.specs.declared.resume_fault.ResumeFault.{ResumeFault as FaultOfResume};
ghost use Rattle.client_core.specs.StandsFor.{StandsFor};
ghost use Rattle.client_rebuild.specs.Recalls.{hash_keys_of};
ghost use Rattle.keyed_fn.specs.KeyedFn.{KeyedFn, keyed_fn};
ghost use Rattle.script_run_texts.specs.Causes.{CommandCause, KeepCommandCause, KeepsRecorder, KeepsSink, KeepsSource, LinkCause, RecorderCause, SourceCause};
ghost use Rattle.script_run_texts.specs.Stops.{command_cause};
ghost use Rattle.sse_client.specs.Calls.{shows, KeepsLink};
ghost use Rattle.sse_client.specs.Known.{Known, Knows};
ghost use Rattle.sse_client.specs.ResumedRun.{HasEndedAfter, HasResent, Restores, ResumesTo, StopsResending};
ghost use Rattle.sse_client.specs.RecordKept.{StaysWhole, WholeAtStop};
ghost use Rattle.client_journal.specs.Shows.{LeavesRecorder, gives, prints};
ghost use Rattle.sse_client.specs.WholeRuns.{LeavesDevices};
ghost use Rattle.sse_client.specs.NotResumed.{stop_of_resume};
ghost use Rattle.sse_client.specs.Stages.{hash_keys_under};
ghost use Rattle.sse_client.specs.Stands.{seen, outside_of};
ghost use Rattle.sse_client.specs.Turns.{ending};
ghost use Rattle.client_recorder.specs.KeepsOn.{KeepsOn};
ghost use Rattle.sse_script.specs.TextLines.{bytes_to_come, lines_left};

use crate::exchange::hello;
use crate::frame_exchange::catch_up;
use crate::lines::{Refusals, Session, run_lines};
use crate::reply_buffer::ReplyBuffer;
use crate::run::finish_run;
use crate::session::Stage;
use crate::tools::Tools;
use client_core::{Client, Ready, Recorded, ResumeFault, Resumed};
use client_recorder::Recorder;
use keyed_fn::Keyed;
use script_run_texts::{CommandStop, Input, PeerStop, StopCause};
use sse_link::Link;
use sse_outside::{Sink, Source};
use sse_script::{Shown, print};

/// What a run goes on from: its tools, the client of a history that was rebuilt from records, and what of the source was read
/// ahead of the lines behind the key line.
#[derive(Drop)]
pub(crate) struct Restart<'a, K: Keyed> {
    pub(crate) tools: Tools<'a, K>,
    pub(crate) client: Client<Recorded>,
    pub(crate) input: Input,
}

/// What it means for the run that a client doesn't go on.
fn stop_of(fault: ResumeFault) -> CommandStop
    ensures { result ≡ stop_of_resume fault }
{
    match fault {
        ResumeFault::PeerElsewhere { low, high, got } => CommandStop::Exchange(PeerStop::Elsewhere {
            low,
            high,
            got,
        }),
        ResumeFault::LabelClash { first, second } => CommandStop::LabelClash { first, second },
        ResumeFault::PlaceClash { first, second } => CommandStop::PlaceClash { first, second },
        ResumeFault::NumberClash { first, second } => CommandStop::NumberClash { first, second },
        ResumeFault::NoMemory => CommandStop::Memory,
    }
}

/// How many frames a server lacks that expects this update.
fn lacking(client: &Client<Recorded>, next: u32) -> Result<u32, CommandStop>
    ensures fits { next < 2 ^ 32 }
    ensures meant { IfErr result (λ stop. (fault : FaultOfResume) × (stop ≡ stop_of_resume fault)) }
    ensures lacks { IfOk result (λ left. (f : KeyedFn) (key : List ℕ) (known : Known) → Remembers known.begins known.run client.now.state → Lacks f key known.begins known.run next (Ok left)) }
    ensures stopped { IfErr result (λ stop. (f : KeyedFn) (key : List ℕ) (known : Known) → Remembers known.begins known.run client.now.state → (fault : FaultOfResume) × (stop ≡ stop_of_resume fault) × Lacks f key known.begins known.run next (Err fault)) }
{
    match client.lacks(next) {
        Ok(left) => Ok(left),
        Err(fault) => Err(stop_of(fault)),
    }
}

/// Opens a session with a server that may lack frames of the history's last command, sends these, and answers the client of the
/// whole history with how many they were.
fn resend<K: Keyed, L: Link, R: Recorder>(
    tools: &Tools<'_, K>,
    client: Client<Recorded>,
    link: &mut L,
    recorder: &R,
    buffer: &mut ReplyBuffer,
) -> Result<(Client<Ready>, u32), CommandStop>
    requires restores { (known : Known) × Restores (keyed_fn K.prf K.pad) client.key (R.kept recorder.now) known × Knows (keyed_fn K.prf K.pad) client.key known client.state }
    requires whole { R.whole recorder.now }
    ensures resent { (known : Known) → Remembers known.begins known.run client.state → IfOk result (λ done. HasResent (keyed_fn K.prf K.pad) client.key known (L.transcript link.old) (L.transcript link.new) done.1) }
    ensures stands { (known : Known) → Remembers known.begins known.run client.state → IfOk result (λ done. StandsFor (keyed_fn K.prf K.pad) (λ epoch. client.key) known.begins known.run done.0.state) }
    ensures stopped { (known : Known) → Remembers known.begins known.run client.state → IfErr result (λ stop. StopsResending (keyed_fn K.prf K.pad) client.key known (L.transcript link.old) (L.transcript link.new) (command_cause stop)) }
    ensures key { (known : Known) → Remembers known.begins known.run client.state → IfOk result (λ done. done.0.key ≡ client.key) }
    ensures hash_keys { IfOk result (λ done. done.0.state.registry.keys ≡ hash_keys_of client.state.last) }
    ensures marks { IfOk result (λ done. done.0.state.past.marks.items ≡ client.state.past.marks.items) }
    ensures keeps { KeepsLink CommandCause (shows (L.transcript link.old) (L.faults link.old) (L.began link.old)) (shows (L.transcript link.new) (L.faults link.new) (L.began link.new)) result }
    ensures unkept { IfErr result (λ stop. (count : ℕ) → KeepCommandCause count count stop) }
{
    let next = match hello(tools.alloc, link, buffer) {
        Ok(next) => next,
        Err(stop) => {
            drop(client);
            return Err(CommandStop::Exchange(stop));
        }
    };
    let frames = match lacking(&client, next) {
        Ok(frames) => frames,
        Err(stop) => {
            drop(client);
            return Err(stop);
        }
    };
    match client.resume(tools.alloc, tools.master.keyed(), next) {
        Ok(Resumed::Ready(ready)) => Ok((ready, frames)),
        Ok(Resumed::Behind(behind)) => Ok((
            catch_up::<K, L, R>(behind, link, recorder, buffer)?,
            frames,
        )),
        Err(fault) => Err(stop_of(fault)),
    }
}

/// Goes on: the server gets the frames that it lacks, and then come the lines that are left.
fn go_on<K: Keyed, L: Link, R: Recorder, S: Source, W: Sink>(
    restart: Restart<'_, K>,
    link: &mut L,
    recorder: &mut R,
    source: &mut S,
    sink: &mut W,
) -> Result<Refusals, StopCause>
    requires restores { (known : Known) × Restores (keyed_fn K.prf K.pad) restart.client.key (R.kept recorder.old) known × Knows (keyed_fn K.prf K.pad) restart.client.key known restart.client.state }
    requires prepared { restart.tools.master ≡ restart.client.key }
    requires hashed { hash_keys_of restart.client.state.last ≡ hash_keys_under (keyed_fn K.prf K.pad) restart.client.key }
    requires whole { R.whole recorder.old }
    requires few { restart.input.number + bytes_to_come restart.input.pending (S.handed_out source.old) ≤ 2 ^ 63 }
    ensures ends { (known : Known) → Knows (keyed_fn K.prf K.pad) restart.entry.client.key known restart.entry.client.state →
        ResumesTo (keyed_fn K.prf K.pad) restart.entry.client.key known (restart.entry.input.number + 1) (lines_left restart.entry.input.pending (S.remaining source.old))
        (outside_of (seen (L.transcript link.old) (R.kept recorder.old)) (W.written sink.old)) (outside_of (seen (L.transcript link.new) (R.kept recorder.new)) (W.written sink.new)) (ending result) }
    ensures at_end { OnOk result (IsAtEnd (S.remaining source.new)) }
    ensures source { KeepsSource SourceCause (S.faults source.old) (S.faults source.new) result }
    ensures sink { KeepsSink (W.faults sink.old) (W.faults sink.new) (W.shortages sink.old) (W.shortages sink.new) result }
    ensures link { KeepsLink LinkCause (shows (L.transcript link.old) (L.faults link.old) (L.began link.old)) (shows (L.transcript link.new) (L.faults link.new) (L.began link.new)) result }
    ensures keeps_on { KeepsOn R.kept R.moment R.left_since recorder.old recorder.new }
    ensures whole_after { StaysWhole WholeAtStop (R.whole recorder.new) result }
    ensures recorder { KeepsRecorder RecorderCause (R.faults recorder.old) (R.faults recorder.new) result }
{
    let Restart {
        mut tools,
        client,
        input,
    } = restart;
    let Ok(mut buffer) = ReplyBuffer::new(tools.alloc) else {
        drop(client);
        return Err(StopCause::Memory);
    };
    let (ready, frames) = resend(&tools, client, link, &*recorder, &mut buffer)?;
    match print(tools.alloc, sink, &Shown::Resumed { frames }) {
        Ok(()) => {}
        Err(fault) => {
            drop(ready);
            return Err(StopCause::from(fault));
        }
    }
    let session = Session {
        stage: Stage::Searching(ready),
        refusals: Refusals::None,
        input,
        buffer,
    };
    run_lines(&mut tools, link, recorder, source, sink, session)
}

/// Goes on, prints the last line where it stopped, and answers the run's status.
pub(crate) fn gone_on<K: Keyed, L: Link, R: Recorder, S: Source, W: Sink>(
    restart: Restart<'_, K>,
    link: &mut L,
    recorder: &mut R,
    source: &mut S,
    sink: &mut W,
) -> u8
    requires restores { (known : Known) × Restores (keyed_fn K.prf K.pad) restart.client.key (R.kept recorder.old) known × Knows (keyed_fn K.prf K.pad) restart.client.key known restart.client.state }
    requires prepared { restart.tools.master ≡ restart.client.key }
    requires hashed { hash_keys_of restart.client.state.last ≡ hash_keys_under (keyed_fn K.prf K.pad) restart.client.key }
    requires whole { R.whole recorder.old }
    requires few { restart.input.number + bytes_to_come restart.input.pending (S.handed_out source.old) ≤ 2 ^ 63 }
    ensures gone_on { (known : Known) → Knows (keyed_fn K.prf K.pad) restart.entry.client.key known restart.entry.client.state →
        HasEndedAfter (keyed_fn K.prf K.pad) restart.entry.client.key known (restart.entry.input.number + 1) (lines_left restart.entry.input.pending (S.remaining source.old))
        (outside_of (seen (L.transcript link.old) (R.kept recorder.old)) (W.written sink.old)) (outside_of (seen (L.transcript link.new) (R.kept recorder.new)) (W.written sink.new)) result
        (W.faults sink.old) (W.faults sink.new) (W.shortages sink.old) (W.shortages sink.new) }
    ensures devices { LeavesDevices (gives (S.remaining source.old) (S.faults source.old)) (gives (S.remaining source.new) (S.faults source.new))
        (prints (W.written sink.old) (W.faults sink.old) (W.shortages sink.old)) (prints (W.written sink.new) (W.faults sink.new) (W.shortages sink.new))
        (shows (L.transcript link.old) (L.faults link.old) (L.began link.old)) (shows (L.transcript link.new) (L.faults link.new) (L.began link.new))
        (R.faults recorder.old) (R.faults recorder.new) result }
    ensures records { LeavesRecorder R.kept R.moment R.left_since R.whole recorder.old recorder.new result }
    ensures known { result ≤ 9 }
{
    let ran = go_on(restart, link, recorder, source, sink);
    finish_run(ran, sink)
}
