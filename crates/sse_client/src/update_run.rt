ghost use Rattle.std.specs.Prelude.{◌≡◌, ◌≤◌, ◌^◌, ◌∷◌, [], ℕ, List, Option, false, Err, length, IfErr, IfOk, IfSome, OnErr};
ghost use Rattle.client_registry.specs.Command.{Command, Add, Delete};
ghost use Rattle.keyed_fn.specs.KeyedFn.{KeyedFn, keyed_fn};
ghost use Rattle.script_documents.specs.LineDocument.{document};
ghost use Rattle.script_run_texts.specs.Causes.{CommandCause, KeepCommandCause, KeepsRecorder};
ghost use Rattle.script_run_texts.specs.LineResultViews.{line_result_view, refuses};
ghost use Rattle.script_run_texts.specs.Stops.{command_cause};
ghost use Rattle.script_run_texts.specs.declared.command_stop.CommandStop.{CommandStop as WhyStopped};
ghost use Rattle.def_script_meaning.specs.Carries.{StopsIn, with_answers};
ghost use Rattle.def_script_meaning.specs.Outcome.{Place, Printed, Does, unless};
ghost use Rattle.def_script_meaning.specs.Refused.{add_refusal, delete_refusal};
ghost use Rattle.def_script_meaning.specs.Stops as ends;
ghost use Rattle.sse_client.specs.Calls.{shows, KeepsLink};
ghost use Rattle.sse_client.specs.RecordKept.{StaysWhole, WholeAt};
ghost use Rattle.sse_client.specs.Stages.{key_of};
ghost use Rattle.sse_client.specs.Stands.{IsAt, GoesOn, seen, outside_of};
ghost use Rattle.sse_client.specs.UpdatePlans.{CanCarryOut, IfPlanned, IsRefused, IsUpdatePlan, StopsPlan};
ghost use Rattle.sse_client.specs.declared.session.Stage.TheVariants.{Searching};
ghost use Rattle.client_recorder.specs.KeepsOn.{KeepsOn};
ghost use Rattle.sse_script.specs.declared.refusal.Refusal.{Refusal as Reason};

use crate::frame_exchange::catch_up;
use crate::kept_records::keep_update;
use crate::reply_buffer::ReplyBuffer;
use crate::session::Stage;
use crate::tools::Tools;
use crate::update_answer::{UpdateAnswer, answer_of_command, answer_of_line};
use client_core::{Client, Ready};
use client_recorder::Recorder;
use client_registry::DocId;
use keyed_fn::Keyed;
use script_documents::document_of;
use script_run_texts::{CommandStop, LineResult};
use sse_link::Link;
use sse_script::{Fields, Refusal};

// Promise P141 (inside): An update is planned as its line says, only if nothing refuses it and no values collide; only collisions or out of memory stop it.
//   clauses: plan, stop, zero, stands, key, commits; assumes: earlier calls, own keys, sizes in bounds; not: Out of memory may come, except in place of identifier 0 and of a deletion's
//     refusals.
/// Plans the addition of an `add` line, or refuses it. The session stands where it stood.
pub(crate) fn plan_addition<K: Keyed>(
    tools: &Tools<'_, K>,
    client: &mut Client<Ready>,
    id: u64,
    fields: Fields<'_>,
) -> Result<UpdateAnswer, CommandStop>
    requires prepared { tools.now.master ≡ client.old.key }
    requires words { length fields ≤ 2 ^ 19 }
    ensures key { client.new.key ≡ client.old.key }
    ensures stands { (place : Place) → IsAt (keyed_fn K.prf K.pad) (Searching client.old) place → IsAt (keyed_fn K.prf K.pad) (Searching client.new) place }
    ensures plan { (place : Place) → IsAt (keyed_fn K.prf K.pad) (Searching client.old) place → IsUpdatePlan (keyed_fn K.prf K.pad) place (add_refusal place.history (document id fields.entry)) (Add (document id fields.entry)) result }
    ensures stop { IfErr result StopsPlan }
    ensures zero { id ≡ 0 → result ≡ Ok (UpdateAnswer.Refused Refusal.Zero) }
    ensures commits { IfPlanned result (CanCarryOut client.new.state) }
{
    let doc = match document_of(tools.alloc, id, fields) {
        Ok(doc) => doc,
        Err(fault) => return answer_of_line(fault),
    };
    match client.plan_add(tools.alloc, &tools.master, doc) {
        Ok(planned) => Ok(UpdateAnswer::Planned(planned)),
        Err(fault) => answer_of_command(fault),
    }
}

// Promise P141, also here; clauses: plan, refused, stop, stands, key, commits
/// Plans the deletion of a `del` line, or refuses it. The session stands where it stood.
pub(crate) fn plan_deletion<K: Keyed>(
    tools: &Tools<'_, K>,
    client: &mut Client<Ready>,
    id: u64,
) -> Result<UpdateAnswer, CommandStop>
    requires prepared { tools.now.master ≡ client.old.key }
    ensures key { client.new.key ≡ client.old.key }
    ensures stands { (place : Place) → IsAt (keyed_fn K.prf K.pad) (Searching client.old) place → IsAt (keyed_fn K.prf K.pad) (Searching client.new) place }
    ensures plan { (place : Place) → IsAt (keyed_fn K.prf K.pad) (Searching client.old) place → IsUpdatePlan (keyed_fn K.prf K.pad) place (delete_refusal place.history id) (Delete id) result }
    ensures refused { (place : Place) → IsAt (keyed_fn K.prf K.pad) (Searching client.old) place → IfSome (delete_refusal place.history id) (λ refusal. result ≡ Ok (UpdateAnswer.Refused refusal)) }
    ensures stop { IfErr result StopsPlan }
    ensures commits { IfPlanned result (CanCarryOut client.new.state) }
{
    let Ok(id) = DocId::new(id) else {
        return Ok(UpdateAnswer::Refused(Refusal::Zero));
    };
    match client.plan_delete(tools.alloc, &tools.master, id) {
        Ok(planned) => Ok(UpdateAnswer::Planned(planned)),
        Err(fault) => answer_of_command(fault),
    }
}

/// The plan of an update for this client, or its refusal, or why the run stops; and the update's outcome once the server
/// has acknowledged it.
#[derive(Drop)]
pub(crate) struct UpdateInHand {
    pub(crate) client: Client<Ready>,
    pub(crate) planned: Result<UpdateAnswer, CommandStop>,
    pub(crate) done: LineResult,
}

// Promise P140 (inside): If a plan finds two equal values, the run stops for them and never reports out of memory instead.
//   clauses: as_planned; assumes: earlier calls
// Promise P142 (inside): An update's planned frame is acknowledged, or the run stops before that for a visible cause; afterwards only printing can stop the line.
//   clauses: goes_on, stops, may_stop, same_key; assumes: observable devices, earlier calls; not: Out of memory is no visible cause.
/// Carries out an update by its plan, or says why there is none, and the session stands where it stood: its record is kept
/// before anything of it is sent.
pub(crate) fn send_update<K: Keyed, L: Link, R: Recorder>(
    tools: &Tools<'_, K>,
    update: UpdateInHand,
    link: &mut L,
    recorder: &mut R,
    buffer: &mut ReplyBuffer,
) -> Result<(Stage, LineResult), CommandStop>
    requires commits { IfPlanned update.planned (CanCarryOut update.client.state) }
    requires stop { IfErr update.planned StopsPlan }
    requires accepts { refuses update.done ≡ false }
    requires whole { R.whole recorder.old }
    ensures goes_on { IfOk result (λ went. (f : KeyedFn) (place : Place) (refusal : Option Reason) (c : Command) (shown : Printed) → IsAt f (Searching update.client) place → IsUpdatePlan f place refusal c update.planned → line_result_view update.done ≡ with_answers [] (shown ∷ []) →
        GoesOn f (seen (L.transcript link.old) (R.kept recorder.old)) (seen (L.transcript link.new) (R.kept recorder.new)) went.0 went.1 place (unless refusal (Does (c ∷ []) shown))) }
    ensures stops { IfErr result (λ stop. (f : KeyedFn) (place : Place) (refusal : Option Reason) (c : Command) (shown : Printed) → IsAt f (Searching update.client) place → IsUpdatePlan f place refusal c update.planned →
        (written : Option (List ℕ)) → StopsIn f place (unless refusal (Does (c ∷ []) shown)) (outside_of (seen (L.transcript link.old) (R.kept recorder.old)) written) (outside_of (seen (L.transcript link.new) (R.kept recorder.new)) written) (ends.At (command_cause stop))) }
    ensures may_stop { OnErr result (IsRefused update.planned → ⊥) }
    ensures as_planned { (stop : WhyStopped) → update.planned ≡ Err stop → result ≡ Err stop }
    ensures same_key { IfOk result (λ went. key_of went.0 ≡ update.client.key) }
    ensures keeps { KeepsLink CommandCause (shows (L.transcript link.old) (L.faults link.old) (L.began link.old)) (shows (L.transcript link.new) (L.faults link.new) (L.began link.new)) result }
    ensures keeps_on { KeepsOn R.kept R.moment R.left_since recorder.old recorder.new }
    ensures whole_after { StaysWhole WholeAt (R.whole recorder.new) result }
    ensures recorder { KeepsRecorder KeepCommandCause (R.faults recorder.old) (R.faults recorder.new) result }
{
    let UpdateInHand {
        client,
        planned,
        done,
    } = update;
    match planned {
        Ok(UpdateAnswer::Planned(planned)) => {
            match keep_update(tools.alloc, &planned, recorder) {
                Ok(()) => {}
                Err(fault) => {
                    drop((client, planned, done));
                    return Err(CommandStop::Keeping(fault));
                }
            }
            let behind = client.commit(planned);
            let ready = catch_up::<K, L, R>(behind, link, &*recorder, buffer)?;
            Ok((Stage::Searching(ready), done))
        }
        Ok(UpdateAnswer::Refused(refusal)) => {
            Ok((Stage::Searching(client), LineResult::Refused(refusal)))
        }
        Err(stop) => Err(stop),
    }
}
