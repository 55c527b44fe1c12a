ghost use Rattle.std.specs.Prelude.{◌≡◌, ◌∷◌, [], ℕ, List, false, map, IfErr, IfOk, OnErr};
ghost use Rattle.std.specs.List.{AllByRecursion};
ghost use Rattle.client_core.specs.Owes.{AreNumbered};
ghost use Rattle.client_core.specs.Payloads.{renewal_payload};
ghost use Rattle.client_core.specs.Renewals.{alone, planned_setup};
ghost use Rattle.client_recorder.specs.KeepsOn.{KeepsOn};
ghost use Rattle.client_registry.specs.Run.{Offsets};
ghost use Rattle.keyed_fn.specs.KeyedFn.{KeyedFn, keyed_fn};
ghost use Rattle.script_run_texts.specs.Causes.{CommandCause, KeepCommandCause, KeepsRecorder};
ghost use Rattle.script_run_texts.specs.LineResultViews.{line_result_view, refuses};
ghost use Rattle.script_run_texts.specs.Stops.{command_cause};
ghost use Rattle.def_script_meaning.specs.Lines as requests;
ghost use Rattle.sse_client.specs.Calls.{shows, KeepsLink};
ghost use Rattle.sse_client.specs.RecordKept.{SendsKept, StaysWhole, WholeAt};
ghost use Rattle.sse_client.specs.RenewalFaults.{renewal_answer};
ghost use Rattle.sse_client.specs.Stages.{key_of, hash_keys_of, marks_of};
ghost use Rattle.sse_client.specs.Stands.{IsReady, MayStop, seen, Takes, StopsWithin};
ghost use Rattle.sse_frames.specs.Frames.{FrameText, IsFrame, frame_bytes};
ghost use Rattle.sse_script.specs.Lines as lines;
ghost use Rattle.sse_script.specs.Shown as says;

use crate::frame_exchange::catch_up;
use crate::kept_records::keep_renewal;
use crate::reply_buffer::ReplyBuffer;
use crate::session::Stage;
use crate::tools::Tools;
use client_core::{Client, PlannedRenewal, Ready};
use client_recorder::Recorder;
use client_renewal::RenewalFault;
use keyed_fn::Keyed;
use script_run_texts::{CommandStop, LineResult};
use sse_link::Link;
use sse_script::Refusal;
use word_keys::MasterKey;

// Promise P289 (inside): A `rebuild` line is refused for its first cause, or its record is kept and what is live set up again, or the run stops.
//   clauses: takes, stops, may_stop, prepared; assumes: observable devices, earlier calls
/// Carries out a `rebuild` line: from here on its key is the client's. After a refusal the key is the one of before.
pub(crate) fn rebuild<K: Keyed, L: Link, R: Recorder>(
    tools: &mut Tools<'_, K>,
    link: &mut L,
    recorder: &mut R,
    buffer: &mut ReplyBuffer,
    stage: Stage,
    key: [u8; 32],
) -> Result<(Stage, LineResult), CommandStop>
    requires prepared { tools.old.master ≡ key_of stage }
    requires whole { R.whole recorder.old }
    ensures takes { IfOk result (λ done. Takes (keyed_fn K.prf K.pad) stage (requests.RebuildLine key) (seen (L.transcript link.old) (R.kept recorder.old)) (seen (L.transcript link.new) (R.kept recorder.new)) done.0 done.1) }
    ensures stops { IfErr result (λ stop. StopsWithin (keyed_fn K.prf K.pad) stage (requests.RebuildLine key) (seen (L.transcript link.old) (R.kept recorder.old)) (seen (L.transcript link.new) (R.kept recorder.new)) (command_cause stop)) }
    ensures may_stop { OnErr result (MayStop (keyed_fn K.prf K.pad) stage (lines.Rebuild key)) }
    ensures prepared { IfOk result (λ done. tools.new.master ≡ key_of done.0) }
    ensures keeps { KeepsLink CommandCause (shows (L.transcript link.old) (L.faults link.old) (L.began link.old)) (shows (L.transcript link.new) (L.faults link.new) (L.began link.new)) result }
    ensures keeps_on { KeepsOn R.kept R.moment R.left_since recorder.old recorder.new }
    ensures whole_after { StaysWhole WholeAt (R.whole recorder.new) result }
    ensures recorder { KeepsRecorder KeepCommandCause (R.faults recorder.old) (R.faults recorder.new) result }
{
    match stage {
        Stage::Collecting(client, docs) => Ok((
            Stage::Collecting(client, docs),
            LineResult::Refused(Refusal::NotSetUp),
        )),
        Stage::Searching(client) => {
            let key = MasterKey::new(key);
            match client.plan_renewal(tools.alloc, tools.master.keyed(), &key) {
                Ok(planned) => {
                    let renewal = RenewalInHand {
                        client,
                        key,
                        planned,
                    };
                    Ok(send_renewal(tools, renewal, link, recorder, buffer)?)
                }
                Err(fault) => match renewal_refusal(fault) {
                    Ok(refusal) => Ok((Stage::Searching(client), LineResult::Refused(refusal))),
                    Err(stop) => {
                        drop(client);
                        Err(stop)
                    }
                },
            }
        }
    }
}

/// A renewal that was planned for this client, and its key.
#[derive(Drop)]
struct RenewalInHand {
    client: Client<Ready>,
    key: MasterKey,
    planned: PlannedRenewal,
}

/// Keeps the record of a planned renewal, commits it and sends it, and prepares its key; the counts that are shown are those
/// without dummies.
fn send_renewal<K: Keyed, L: Link, R: Recorder>(
    tools: &mut Tools<'_, K>,
    renewal: RenewalInHand,
    link: &mut L,
    recorder: &mut R,
    buffer: &mut ReplyBuffer,
) -> Result<(Stage, LineResult), CommandStop>
    requires frames { AllByRecursion IsFrame (renewal.planned.frames) }
    requires whole { R.whole recorder.old }
    ensures sends { (frames : List FrameText) → renewal.planned.frames ≡ map frame_bytes frames → AreNumbered renewal.planned.number frames →
        SendsKept (renewal_payload renewal.planned) (seen (L.transcript link.old) (R.kept recorder.old)) (seen (L.transcript link.new) (R.kept recorder.new)) frames result }
    ensures shown { IfOk result (λ done. line_result_view done.1 ≡ says.Rebuilt renewal.planned.own_words renewal.planned.own_blocks ∷ []) }
    ensures accepted { IfOk result (λ done. refuses done.1 ≡ false) }
    ensures stands { (f : KeyedFn) (o : Offsets) → o.frame ≡ renewal.planned.number → IfOk result (λ done. IsReady f renewal.key o (alone (planned_setup renewal.planned)) done.0) }
    ensures hash_keys { IfOk result (λ done. hash_keys_of done.0 ≡ renewal.planned.docs.keys) }
    ensures marks { IfOk result (λ done. marks_of done.0 ≡ renewal.planned.marks) }
    ensures key { IfOk result (λ done. key_of done.0 ≡ renewal.key) }
    ensures prepared { IfOk result (λ done. tools.new.master ≡ key_of done.0) }
    ensures keeps { KeepsLink CommandCause (shows (L.transcript link.old) (L.faults link.old) (L.began link.old)) (shows (L.transcript link.new) (L.faults link.new) (L.began link.new)) result }
    ensures keeps_on { KeepsOn R.kept R.moment R.left_since recorder.old recorder.new }
    ensures whole_after { StaysWhole WholeAt (R.whole recorder.new) result }
    ensures recorder { KeepsRecorder KeepCommandCause (R.faults recorder.old) (R.faults recorder.new) result }
{
    let RenewalInHand {
        client,
        key,
        planned,
    } = renewal;
    let (words, blocks) = (planned.own_words(), planned.own_blocks());
    match keep_renewal(tools.alloc, &planned, recorder) {
        Ok(()) => {}
        Err(fault) => {
            drop((client, key, planned));
            return Err(CommandStop::Keeping(fault));
        }
    }
    tools.master = key.prepare(tools.master.keyed());
    let behind = client.commit_renewal(tools.alloc, key, planned);
    let ready = catch_up::<K, L, R>(behind, link, &*recorder, buffer)?;
    Ok((
        Stage::Searching(ready),
        LineResult::Rebuilt { words, blocks },
    ))
}

// Promise P140, also here; clauses: ensures
/// Why a renewal is refused; equal labels, equal places and want of memory end the run instead.
fn renewal_refusal(fault: RenewalFault) -> Result<Refusal, CommandStop>
    ensures { result ≡ renewal_answer fault }
{
    match fault {
        RenewalFault::KeyUsed(epoch) => Ok(Refusal::KeyUsed { epoch }),
        RenewalFault::TooManyDocuments(n) => Ok(Refusal::TooManyDocuments { n }),
        RenewalFault::TooManyPairs(n) => Ok(Refusal::TooManyPairs { n }),
        RenewalFault::ListTooLong { word, n } => Ok(Refusal::ListTooLong { word, n }),
        RenewalFault::TooManyBytes(n) => Ok(Refusal::TooManyBytes { n }),
        RenewalFault::HistoryFull => Ok(Refusal::HistoryFull),
        RenewalFault::LabelClash { first, second } => {
            Err(CommandStop::LabelClash { first, second })
        }
        RenewalFault::PlaceClash { first, second } => {
            Err(CommandStop::PlaceClash { first, second })
        }
        RenewalFault::NoMemory => Err(CommandStop::Memory),
    }
}
