ghost use Rattle.std.specs.Prelude.{◌≡◌, ◌≤◌, ◌<◌, ◌+◌, ◌^◌, ◌||◌, IfOk};
ghost use Rattle.std.specs.Io.KnownBytes.{IsAtEnd};
ghost use Rattle.keyed_fn.specs.KeyedFn.{keyed_fn};
ghost use Rattle.script_run_texts.specs.Causes.{KeepsRecorder, KeepsSink, KeepsSource, LinkCause, RecorderCause, SourceCause};
ghost use Rattle.def_script_meaning.specs.Outcome.{Place};
ghost use Rattle.def_script_meaning.specs.Runs.{moment};
ghost use Rattle.sse_client.specs.Calls.{shows, KeepsLink};
ghost use Rattle.sse_client.specs.RecordKept.{StaysWhole, WholeAtStop};
ghost use Rattle.sse_client.specs.Stages.{key_of};
ghost use Rattle.sse_client.specs.Stands.{IsAt, seen, outside_of, has_refused, EndsFrom};
ghost use Rattle.sse_client.specs.Turns.{ending, IfNext, OnEnd, Turns};
ghost use Rattle.client_recorder.specs.KeepsOn.{KeepsOn};
ghost use Rattle.sse_script.specs.TextLines.{bytes_to_come, lines_left};

use crate::reply_buffer::ReplyBuffer;
use crate::session::{Stage, take_line};
use crate::tools::Tools;
use client_recorder::Recorder;
use keyed_fn::Keyed;
use script_run_texts::{Input, InputStop, StopCause};
use sse_link::Link;
use sse_outside::{Sink, Source};
use sse_script::Line;

/// Whether a command was refused.
#[derive(Clone, Copy)]
pub(crate) enum Refusals {
    None,
    Some,
}

impl Refusals {
    /// The same with a command more, which was refused or not.
    fn or(self, refused: bool) -> Refusals
        ensures { has_refused result ≡ has_refused self || refused }
    {
        if refused { Refusals::Some } else { self }
    }
}

/// A session between two lines: how far it is, whether a command was refused, what of the source was read ahead, and the memory
/// for replies.
#[derive(Drop)]
pub(crate) struct Session {
    pub(crate) stage: Stage,
    pub(crate) refusals: Refusals,
    pub(crate) input: Input,
    pub(crate) buffer: ReplyBuffer,
}

/// What a turn of the loop over the lines leads to.
#[derive(Drop)]
enum Turn {
    /// The session after one line more.
    Next(Session),
    /// No line was left.
    End(Refusals),
}

// Promise P138 (inside): From any place, the lines after the key line, and a script before it, run as their meaning says, with the answers received.
//   clauses: ends; assumes: observable devices, earlier calls
/// Carries out the lines after the key line, and prints what each comes to.
pub(crate) fn run_lines<K: Keyed, L: Link, R: Recorder, S: Source, W: Sink>(
    tools: &mut Tools<'_, K>,
    link: &mut L,
    recorder: &mut R,
    source: &mut S,
    sink: &mut W,
    mut session: Session,
) -> Result<Refusals, StopCause>
    requires prepared { tools.old.master ≡ key_of session.stage }
    requires whole { R.whole recorder.old }
    requires few { session.input.number + bytes_to_come session.input.pending (S.handed_out source.old) ≤ 2 ^ 63 }
    ensures ends { (place : Place) → IsAt (keyed_fn K.prf K.pad) session.stage place →
        EndsFrom (keyed_fn K.prf K.pad) (moment place (session.input.number + 1) (lines_left session.input.pending (S.remaining source.old)) (has_refused session.refusals) (outside_of (seen (L.transcript link.old) (R.kept recorder.old)) (W.written sink.old)))
        (outside_of (seen (L.transcript link.new) (R.kept recorder.new)) (W.written sink.new)) (ending result) }
    ensures at_end { IfOk result (λ _. IsAtEnd (S.remaining source.new)) }
    ensures source { KeepsSource SourceCause (S.faults source.old) (S.faults source.new) result }
    ensures sink { KeepsSink (W.faults sink.old) (W.faults sink.new) (W.shortages sink.old) (W.shortages sink.new) result }
    ensures link { KeepsLink LinkCause (shows (L.transcript link.old) (L.faults link.old) (L.began link.old)) (shows (L.transcript link.new) (L.faults link.new) (L.began link.new)) result }
    ensures keeps_on { KeepsOn R.kept R.moment R.left_since recorder.old recorder.new }
    ensures whole_after { StaysWhole WholeAtStop (R.whole recorder.new) result }
    ensures recorder { KeepsRecorder RecorderCause (R.faults recorder.old) (R.faults recorder.new) result }
{
    'lines: loop {
        match take_turn(tools, link, recorder, source, sink, session)? {
            Turn::Next(next) => session = next,
            Turn::End(refusals) => return Ok(refusals),
        }
    }
}

// Promise P138, also here; clauses: turns
/// Reads the next line and carries it out.
fn take_turn<K: Keyed, L: Link, R: Recorder, S: Source, W: Sink>(
    tools: &mut Tools<'_, K>,
    link: &mut L,
    recorder: &mut R,
    source: &mut S,
    sink: &mut W,
    session: Session,
) -> Result<Turn, StopCause>
    requires prepared { tools.old.master ≡ key_of session.stage }
    requires whole { R.whole recorder.old }
    requires few { session.input.number + bytes_to_come session.input.pending (S.handed_out source.old) ≤ 2 ^ 63 }
    ensures turns { Turns (keyed_fn K.prf K.pad) session (S.remaining source.old) (outside_of (seen (L.transcript link.old) (R.kept recorder.old)) (W.written sink.old))
        (S.remaining source.new) (outside_of (seen (L.transcript link.new) (R.kept recorder.new)) (W.written sink.new)) result }
    ensures prepared { IfOk result (λ turn. IfNext turn (λ next. tools.new.master ≡ key_of next.stage)) }
    ensures counted { IfOk result (λ turn. IfNext turn (λ next. next.input.number ≡ session.input.number + 1)) }
    ensures less { IfOk result (λ turn. IfNext turn (λ next.
        bytes_to_come next.input.pending (S.handed_out source.new) < bytes_to_come session.input.pending (S.handed_out source.old))) }
    ensures at_end { IfOk result (λ turn. OnEnd turn (IsAtEnd (S.remaining source.new))) }
    ensures source { KeepsSource SourceCause (S.faults source.old) (S.faults source.new) result }
    ensures sink { KeepsSink (W.faults sink.old) (W.faults sink.new) (W.shortages sink.old) (W.shortages sink.new) result }
    ensures keeps_on { KeepsOn R.kept R.moment R.left_since recorder.old recorder.new }
    ensures whole_after { StaysWhole WholeAtStop (R.whole recorder.new) result }
    ensures link { KeepsLink LinkCause (shows (L.transcript link.old) (L.faults link.old) (L.began link.old)) (shows (L.transcript link.new) (L.faults link.new) (L.began link.new)) result }
    ensures recorder { KeepsRecorder RecorderCause (R.faults recorder.old) (R.faults recorder.new) result }
{
    let Session {
        stage,
        refusals,
        mut input,
        mut buffer,
    } = session;
    let more = match input.advance(source) {
        Ok(more) => more,
        Err(stop) => {
            drop((stage, input, buffer));
            return Err(StopCause::Input(stop));
        }
    };
    if !more {
        drop((stage, input, buffer));
        return Ok(Turn::End(refusals));
    }
    let line = match input.line() {
        Ok(line) => line,
        Err(stop) => {
            drop((stage, input, buffer));
            return Err(StopCause::Input(stop));
        }
    };
    match line {
        Line::Empty => Ok(Turn::Next(Session {
            stage,
            refusals,
            input,
            buffer,
        })),
        Line::Key(_) => {
            let number = input.number();
            drop((stage, input, buffer));
            Err(StopCause::Input(InputStop::Line(number)))
        }
        line => {
            let (next, outcome) = take_line(tools, link, recorder, &mut buffer, stage, line)?;
            match outcome.print(tools.alloc, sink) {
                Ok(()) => {
                    let refusals = refusals.or(outcome.is_refusal());
                    Ok(Turn::Next(Session {
                        stage: next,
                        refusals,
                        input,
                        buffer,
                    }))
                }
                Err(fault) => {
                    drop((next, outcome, input, buffer));
                    Err(StopCause::from(fault))
                }
            }
        }
    }
}
