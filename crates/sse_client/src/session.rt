ghost use Rattle.std.specs.Prelude.{◌≡◌, ◌≤◌, ◌^◌, ℕ, List, [], ◌∷◌, false, Err, length, map, IfOk, IfErr, OnOk, OnErr, IsErrOf, Ok};
ghost use Rattle.std.specs.List.{AllByRecursion};
ghost use Rattle.client_registry.specs.Run.{at_first};
ghost use Rattle.client_registry.specs.Setup.{setup_with};
ghost use Rattle.keyed_fn.specs.KeyedFn.{KeyedFn, keyed_fn};
ghost use Rattle.script_run_texts.specs.Causes.{CommandCause, KeepCommandCause, KeepsRecorder};
ghost use Rattle.client_core.specs.Payloads.{setup_payload};
ghost use Rattle.sse_client.specs.RecordKept.{SendsKept, StaysWhole, WholeAt};
ghost use Rattle.sse_outside.specs.Kept.{Kept};
ghost use Rattle.script_run_texts.specs.LineWords.{words_in};
ghost use Rattle.script_run_texts.specs.LineResultViews.{line_result_view, refuses};
ghost use Rattle.script_run_texts.specs.Stops.{command_cause};
ghost use Rattle.def_script_meaning.specs.Lines as requests;
ghost use Rattle.def_script_meaning.specs.Lines.{Request, line_read};
ghost use Rattle.sse_client.specs.Calls.{shows, KeepsLink};
ghost use Rattle.client_core.specs.Owes.{AreNumbered};
ghost use Rattle.sse_client.specs.SetupFaults.{setup_answer};
ghost use Rattle.sse_client.specs.Stages.{key_of, hash_keys_of, marks_of};
ghost use Rattle.sse_client.specs.Stands.{IsReady, MayStop, Seen, seen, Takes, StopsWithin};
ghost use Rattle.sse_frames.specs.Frames.{FrameText, IsFrame, frame_bytes};
ghost use Rattle.client_recorder.specs.KeepsOn.{KeepsOn};
ghost use Rattle.sse_script.specs.Lines as lines;
ghost use Rattle.sse_script.specs.Shown as says;
ghost use Rattle.sse_script.specs.Views.{line_view};
ghost use Rattle.sse_script.specs.declared.refusal.Refusal.{Refusal as Reason};

use crate::frame_exchange::catch_up;
use crate::kept_records::keep_setup;
use crate::query_run::run_query;
use crate::renewal_run::rebuild;
use crate::reply_buffer::ReplyBuffer;
use crate::search_run::search;
use crate::tools::Tools;
use crate::update_run::{UpdateInHand, plan_addition, plan_deletion, send_update};
use client_core::{Client, Fresh, Planned, Ready, SetupFault};
use client_recorder::Recorder;
use client_registry::{Docs, Sizes};
use keyed_fn::Keyed;
use script_documents::{LineFault, add_document, word_of};
use script_run_texts::{CommandStop, LineResult};
use sse_link::Link;
use sse_script::{Fields, Line, Refusal};
use std::alloc::Global;

/// How far a session is: documents are collected until a setup is accepted, and after it added, deleted and searched.
// What is left of a session that stops is handed to `drop`: a proof then has one call there, where it would have the end of each
// table of the client.
#[derive(Drop)]
pub(crate) enum Stage {
    Collecting(Client<Fresh>, Docs),
    Searching(Client<Ready>),
}

// Promise P136 (inside): Wherever the session stands, a command exchanges exactly its frames and shows its lines with the answers received, or stops the run there.
//   clauses: takes, stops; assumes: observable devices, earlier calls; not: The traffic over a link that isn't observable.
// Promise P137 (inside): No stop comes in place of a refusal that is found without memory.
//   clauses: may_stop; assumes: earlier calls; not: The words of a document that is collected or added, and its later refusals, a query after the setup, and of a
//     rebuild what is refused for its size or for the numbers of its frames: there memory may run out instead.
/// Carries out a line of the script that is no key line.
pub(crate) fn take_line<K: Keyed, L: Link, R: Recorder>(
    tools: &mut Tools<'_, K>,
    link: &mut L,
    recorder: &mut R,
    buffer: &mut ReplyBuffer,
    stage: Stage,
    line: Line<'_>,
) -> Result<(Stage, LineResult), CommandStop>
    requires prepared { tools.old.master ≡ key_of stage }
    requires words { words_in (line_view line) ≤ 2 ^ 19 }
    requires whole { R.whole recorder.old }
    ensures takes { IfOk result (λ done. (request : Request) → line_read (line_view line.entry) ≡ requests.Command request →
        Takes (keyed_fn K.prf K.pad) stage request (seen (L.transcript link.old) (R.kept recorder.old)) (seen (L.transcript link.new) (R.kept recorder.new)) done.0 done.1) }
    ensures stops { IfErr result (λ stop. (request : Request) → line_read (line_view line.entry) ≡ requests.Command request →
        StopsWithin (keyed_fn K.prf K.pad) stage request (seen (L.transcript link.old) (R.kept recorder.old)) (seen (L.transcript link.new) (R.kept recorder.new)) (command_cause stop)) }
    ensures may_stop { OnErr result (MayStop (keyed_fn K.prf K.pad) stage (line_view line.entry)) }
    ensures prepared { IfOk result (λ done. tools.new.master ≡ key_of done.0) }
    ensures keeps { KeepsLink CommandCause (shows (L.transcript link.old) (L.faults link.old) (L.began link.old)) (shows (L.transcript link.new) (L.faults link.new) (L.began link.new)) result }
    ensures keeps_on { KeepsOn R.kept R.moment R.left_since recorder.old recorder.new }
    ensures whole_after { StaysWhole WholeAt (R.whole recorder.new) result }
    ensures recorder { KeepsRecorder KeepCommandCause (R.faults recorder.old) (R.faults recorder.new) result }
{
    match line {
        Line::Empty | Line::Key(_) => Ok((stage, LineResult::Nothing)),
        Line::Doc { id, words } => collect(tools.alloc, stage, id, words),
        Line::Setup { b, big, pad } => {
            set_up(
                &*tools,
                link,
                recorder,
                buffer,
                stage,
                Sizes { b, big, pad },
            )
        }
        Line::Add { id, words } => add(
            &*tools,
            link,
            recorder,
            buffer,
            stage,
            Addition { id, words },
        ),
        Line::Del { id } => delete(&*tools, link, recorder, buffer, stage, id),
        Line::Find { word } => find(&*tools, link, buffer, stage, word),
        Line::Query(fields) => query(&*tools, link, buffer, stage, fields),
        Line::Rebuild(key) => rebuild(tools, link, recorder, buffer, stage, key),
    }
}

/// Carries out a `doc` line.
fn collect(
    alloc: Global,
    stage: Stage,
    id: u64,
    fields: Fields<'_>,
) -> Result<(Stage, LineResult), CommandStop>
    requires { length fields ≤ 2 ^ 19 }
    ensures takes { IfOk result (λ done. (f : KeyedFn) (now : Seen) → Takes f stage (requests.Doc id fields.entry) now now done.0 done.1) }
    ensures key { IfOk result (λ done. key_of done.0 ≡ key_of stage) }
    ensures memory { IfErr result (λ stop. stop ≡ CommandStop.Memory) }
    ensures may_stop { OnErr result ((f : KeyedFn) → MayStop f stage (lines.Doc id fields.entry)) }
{
    match stage {
        Stage::Collecting(client, mut docs) => {
            let added = add_document(alloc, &mut docs, id, fields);
            match refusal_of(added) {
                Ok(outcome) => Ok((Stage::Collecting(client, docs), outcome)),
                Err(stop) => {
                    drop((client, docs));
                    Err(stop)
                }
            }
        }
        Stage::Searching(client) => Ok((
            Stage::Searching(client),
            LineResult::Refused(Refusal::SetUpAlready),
        )),
    }
}

/// What a line without a line of its own comes to: nothing, or its refusal.
pub(crate) fn refusal_of(done: Result<(), LineFault>) -> Result<LineResult, CommandStop>
    ensures nothing { OnOk done (result ≡ Ok LineResult.Nothing) }
    ensures refused { (refusal : Reason) → done ≡ Err (LineFault.Refused refusal) → result ≡ Ok (LineResult.Refused refusal) }
    ensures memory { IsErrOf done LineFault.NoMemory → result ≡ Err CommandStop.Memory }
    ensures stops { OnErr result (IsErrOf done LineFault.NoMemory) }
    ensures only { IfErr result (λ stop. stop ≡ CommandStop.Memory) }
{
    match done {
        Ok(()) => Ok(LineResult::Nothing),
        Err(LineFault::Refused(refusal)) => Ok(LineResult::Refused(refusal)),
        Err(LineFault::NoMemory) => Err(CommandStop::Memory),
    }
}

/// Carries out a `setup` line. After a refusal the documents stay collected.
fn set_up<K: Keyed, L: Link, R: Recorder>(
    tools: &Tools<'_, K>,
    link: &mut L,
    recorder: &mut R,
    buffer: &mut ReplyBuffer,
    stage: Stage,
    sizes: Sizes,
) -> Result<(Stage, LineResult), CommandStop>
    requires whole { R.whole recorder.old }
    ensures takes { IfOk result (λ done. Takes (keyed_fn K.prf K.pad) stage (requests.SetupLine sizes.b sizes.big sizes.pad) (seen (L.transcript link.old) (R.kept recorder.old)) (seen (L.transcript link.new) (R.kept recorder.new)) done.0 done.1) }
    ensures stops { IfErr result (λ stop. StopsWithin (keyed_fn K.prf K.pad) stage (requests.SetupLine sizes.b sizes.big sizes.pad) (seen (L.transcript link.old) (R.kept recorder.old)) (seen (L.transcript link.new) (R.kept recorder.new)) (command_cause stop)) }
    ensures may_stop { OnErr result (MayStop (keyed_fn K.prf K.pad) stage (lines.SetupLine sizes.b sizes.big sizes.pad)) }
    ensures same_key { IfOk result (λ done. key_of done.0 ≡ key_of stage) }
    ensures keeps { KeepsLink CommandCause (shows (L.transcript link.old) (L.faults link.old) (L.began link.old)) (shows (L.transcript link.new) (L.faults link.new) (L.began link.new)) result }
    ensures keeps_on { KeepsOn R.kept R.moment R.left_since recorder.old recorder.new }
    ensures whole_after { StaysWhole WholeAt (R.whole recorder.new) result }
    ensures recorder { KeepsRecorder KeepCommandCause (R.faults recorder.old) (R.faults recorder.new) result }
{
    match stage {
        Stage::Collecting(client, docs) => {
            match client.plan_setup(tools.alloc, tools.master.keyed(), docs, sizes) {
                Ok(planned) => {
                    let setup = SetupInHand { client, planned };
                    Ok(send_setup(tools, setup, link, recorder, buffer)?)
                }
                Err((fault, kept)) => match setup_refusal(fault) {
                    Ok(refusal) => Ok((
                        Stage::Collecting(client, kept),
                        LineResult::Refused(refusal),
                    )),
                    Err(stop) => {
                        drop((client, kept));
                        Err(stop)
                    }
                },
            }
        }
        Stage::Searching(client) => Ok((
            Stage::Searching(client),
            LineResult::Refused(Refusal::SetUpAlready),
        )),
    }
}

/// A setup that was planned for this client.
#[derive(Drop)]
struct SetupInHand {
    client: Client<Fresh>,
    planned: Planned,
}

/// Keeps the record of a planned setup, commits it and sends it; the counts that are shown are those without dummies.
fn send_setup<K: Keyed, L: Link, R: Recorder>(
    tools: &Tools<'_, K>,
    setup: SetupInHand,
    link: &mut L,
    recorder: &mut R,
    buffer: &mut ReplyBuffer,
) -> Result<(Stage, LineResult), CommandStop>
    requires frames { AllByRecursion IsFrame (setup.planned.frames) }
    requires whole { R.whole recorder.old }
    ensures sends { (frames : List FrameText) → setup.planned.frames ≡ map frame_bytes frames → AreNumbered 0 frames →
        SendsKept (setup_payload setup.planned) (seen (L.transcript link.old) (R.kept recorder.old)) (seen (L.transcript link.new) (R.kept recorder.new)) frames result }
    ensures shown { IfOk result (λ done. line_result_view done.1 ≡ says.SetUp setup.planned.own_words setup.planned.own_blocks ∷ []) }
    ensures accepted { IfOk result (λ done. refuses done.1 ≡ false) }
    ensures stands { (f : KeyedFn) → IfOk result (λ done. IsReady f setup.client.key at_first (record { setup = setup_with setup.planned.docs.documents setup.planned.b setup.planned.big setup.planned.pad; later = [] }) done.0) }
    ensures hash_keys { IfOk result (λ done. hash_keys_of done.0 ≡ setup.planned.docs.keys) }
    ensures marks { IfOk result (λ done. marks_of done.0 ≡ setup.planned.mark ∷ []) }
    ensures key { IfOk result (λ done. key_of done.0 ≡ setup.client.key) }
    ensures keeps { KeepsLink CommandCause (shows (L.transcript link.old) (L.faults link.old) (L.began link.old)) (shows (L.transcript link.new) (L.faults link.new) (L.began link.new)) result }
    ensures keeps_on { KeepsOn R.kept R.moment R.left_since recorder.old recorder.new }
    ensures whole_after { StaysWhole WholeAt (R.whole recorder.new) result }
    ensures recorder { KeepsRecorder KeepCommandCause (R.faults recorder.old) (R.faults recorder.new) result }
{
    let SetupInHand { client, planned } = setup;
    let (words, blocks) = (planned.own_words(), planned.own_blocks());
    match keep_setup(tools.alloc, &planned, recorder) {
        Ok(()) => {}
        Err(fault) => {
            drop((client, planned));
            return Err(CommandStop::Keeping(fault));
        }
    }
    let behind = client.commit(tools.alloc, planned);
    let ready = catch_up::<K, L, R>(behind, link, &*recorder, buffer)?;
    Ok((Stage::Searching(ready), LineResult::SetUp { words, blocks }))
}

// Promise P140, also here; clauses: ensures
/// Why a setup is refused; equal labels, equal places and want of memory end the run instead.
fn setup_refusal(fault: SetupFault) -> Result<Refusal, CommandStop>
    ensures { result ≡ setup_answer fault }
{
    match fault {
        SetupFault::BadParameter { which, value } => Ok(Refusal::BadParameter { which, value }),
        SetupFault::ListTooLong { word, n } => Ok(Refusal::ListTooLong { word, n }),
        SetupFault::TooManyBytes(n) => Ok(Refusal::TooManyBytes { n }),
        SetupFault::LabelClash { first, second } => Err(CommandStop::LabelClash { first, second }),
        SetupFault::PlaceClash { first, second } => Err(CommandStop::PlaceClash { first, second }),
        SetupFault::NoMemory => Err(CommandStop::Memory),
    }
}

/// What an `add` line names: the identifier and the words of its document.
#[derive(Drop)]
struct Addition<'a> {
    id: u64,
    words: Fields<'a>,
}

// Promise P143 (inside): `add` and `del` lines are carried out as they are meant, wherever the session stands, or the run stops in them.
//   clauses: takes, stops, may_stop, same_key; assumes: observable devices, earlier calls
/// Carries out an `add` line.
fn add<K: Keyed, L: Link, R: Recorder>(
    tools: &Tools<'_, K>,
    link: &mut L,
    recorder: &mut R,
    buffer: &mut ReplyBuffer,
    stage: Stage,
    addition: Addition<'_>,
) -> Result<(Stage, LineResult), CommandStop>
    requires prepared { tools.now.master ≡ key_of stage }
    requires words { length addition.words ≤ 2 ^ 19 }
    requires whole { R.whole recorder.old }
    ensures takes { IfOk result (λ done. Takes (keyed_fn K.prf K.pad) stage (requests.AddLine addition.entry.id addition.entry.words) (seen (L.transcript link.old) (R.kept recorder.old)) (seen (L.transcript link.new) (R.kept recorder.new)) done.0 done.1) }
    ensures stops { IfErr result (λ stop. StopsWithin (keyed_fn K.prf K.pad) stage (requests.AddLine addition.entry.id addition.entry.words) (seen (L.transcript link.old) (R.kept recorder.old)) (seen (L.transcript link.new) (R.kept recorder.new)) (command_cause stop)) }
    ensures may_stop { OnErr result (MayStop (keyed_fn K.prf K.pad) stage (lines.AddLine addition.entry.id addition.entry.words)) }
    ensures same_key { IfOk result (λ done. key_of done.0 ≡ key_of stage) }
    ensures keeps { KeepsLink CommandCause (shows (L.transcript link.old) (L.faults link.old) (L.began link.old)) (shows (L.transcript link.new) (L.faults link.new) (L.began link.new)) result }
    ensures keeps_on { KeepsOn R.kept R.moment R.left_since recorder.old recorder.new }
    ensures whole_after { StaysWhole WholeAt (R.whole recorder.new) result }
    ensures recorder { KeepsRecorder KeepCommandCause (R.faults recorder.old) (R.faults recorder.new) result }
{
    match stage {
        Stage::Collecting(client, docs) => Ok((
            Stage::Collecting(client, docs),
            LineResult::Refused(Refusal::NotSetUp),
        )),
        Stage::Searching(mut client) => {
            let Addition { id, words } = addition;
            let planned = plan_addition(tools, &mut client, id, words);
            let update = UpdateInHand {
                client,
                planned,
                done: LineResult::Added { id },
            };
            send_update(tools, update, link, recorder, buffer)
        }
    }
}

// Promise P143, also here; clauses: takes, stops, may_stop, same_key
/// Carries out a `del` line.
fn delete<K: Keyed, L: Link, R: Recorder>(
    tools: &Tools<'_, K>,
    link: &mut L,
    recorder: &mut R,
    buffer: &mut ReplyBuffer,
    stage: Stage,
    id: u64,
) -> Result<(Stage, LineResult), CommandStop>
    requires prepared { tools.now.master ≡ key_of stage }
    requires whole { R.whole recorder.old }
    ensures takes { IfOk result (λ done. Takes (keyed_fn K.prf K.pad) stage (requests.Del id) (seen (L.transcript link.old) (R.kept recorder.old)) (seen (L.transcript link.new) (R.kept recorder.new)) done.0 done.1) }
    ensures stops { IfErr result (λ stop. StopsWithin (keyed_fn K.prf K.pad) stage (requests.Del id) (seen (L.transcript link.old) (R.kept recorder.old)) (seen (L.transcript link.new) (R.kept recorder.new)) (command_cause stop)) }
    ensures may_stop { OnErr result (MayStop (keyed_fn K.prf K.pad) stage (lines.Del id)) }
    ensures same_key { IfOk result (λ done. key_of done.0 ≡ key_of stage) }
    ensures keeps { KeepsLink CommandCause (shows (L.transcript link.old) (L.faults link.old) (L.began link.old)) (shows (L.transcript link.new) (L.faults link.new) (L.began link.new)) result }
    ensures keeps_on { KeepsOn R.kept R.moment R.left_since recorder.old recorder.new }
    ensures whole_after { StaysWhole WholeAt (R.whole recorder.new) result }
    ensures recorder { KeepsRecorder KeepCommandCause (R.faults recorder.old) (R.faults recorder.new) result }
{
    match stage {
        Stage::Collecting(client, docs) => Ok((
            Stage::Collecting(client, docs),
            LineResult::Refused(Refusal::NotSetUp),
        )),
        Stage::Searching(mut client) => {
            let planned = plan_deletion(tools, &mut client, id);
            let update = UpdateInHand {
                client,
                planned,
                done: LineResult::Deleted { id },
            };
            send_update(tools, update, link, recorder, buffer)
        }
    }
}

/// Carries out a `find` line.
fn find<K: Keyed, L: Link>(
    tools: &Tools<'_, K>,
    link: &mut L,
    buffer: &mut ReplyBuffer,
    stage: Stage,
    field: &[u8],
) -> Result<(Stage, LineResult), CommandStop>
    requires prepared { tools.now.master ≡ key_of stage }
    ensures takes { IfOk result (λ done. (kept : Kept) → Takes (keyed_fn K.prf K.pad) stage (requests.Find field.now) (seen (L.transcript link.old) kept) (seen (L.transcript link.new) kept) done.0 done.1) }
    ensures stops { IfErr result (λ stop. (kept : Kept) → StopsWithin (keyed_fn K.prf K.pad) stage (requests.Find field.now) (seen (L.transcript link.old) kept) (seen (L.transcript link.new) kept) (command_cause stop)) }
    ensures may_stop { OnErr result (MayStop (keyed_fn K.prf K.pad) stage (lines.Find field.now)) }
    ensures same_key { IfOk result (λ done. key_of done.0 ≡ key_of stage) }
    ensures no_record { IfErr result (λ stop. (n : ℕ) → KeepCommandCause n n stop) }
    ensures keeps { KeepsLink CommandCause (shows (L.transcript link.old) (L.faults link.old) (L.began link.old)) (shows (L.transcript link.new) (L.faults link.new) (L.began link.new)) result }
{
    match stage {
        Stage::Collecting(client, docs) => Ok((
            Stage::Collecting(client, docs),
            LineResult::Refused(Refusal::NotSetUp),
        )),
        Stage::Searching(client) => {
            let outcome = match word_of(field, 0) {
                Ok(word) => match search(tools, &client, &word, link, buffer) {
                    Ok(ids) => LineResult::Found(ids),
                    Err(stop) => {
                        drop(client);
                        return Err(CommandStop::Exchange(stop));
                    }
                },
                Err(fault) => match refusal_of(Err(fault)) {
                    Ok(refused) => refused,
                    Err(stop) => {
                        drop(client);
                        return Err(stop);
                    }
                },
            };
            Ok((Stage::Searching(client), outcome))
        }
    }
}

// Promise P243 (inside): Wherever the session stands, a query line is refused, or searches each word once and shows what it chooses, or stops the run.
//   clauses: takes, stops, may_stop, same_key; assumes: observable devices, earlier calls
/// Carries out a `query` line.
fn query<K: Keyed, L: Link>(
    tools: &Tools<'_, K>,
    link: &mut L,
    buffer: &mut ReplyBuffer,
    stage: Stage,
    fields: Fields<'_>,
) -> Result<(Stage, LineResult), CommandStop>
    requires prepared { tools.now.master ≡ key_of stage }
    ensures takes { IfOk result (λ done. (kept : Kept) → Takes (keyed_fn K.prf K.pad) stage (requests.Query fields.entry) (seen (L.transcript link.old) kept) (seen (L.transcript link.new) kept) done.0 done.1) }
    ensures stops { IfErr result (λ stop. (kept : Kept) → StopsWithin (keyed_fn K.prf K.pad) stage (requests.Query fields.entry) (seen (L.transcript link.old) kept) (seen (L.transcript link.new) kept) (command_cause stop)) }
    ensures may_stop { OnErr result (MayStop (keyed_fn K.prf K.pad) stage (lines.Query fields.entry)) }
    ensures same_key { IfOk result (λ done. key_of done.0 ≡ key_of stage) }
    ensures no_record { IfErr result (λ stop. (n : ℕ) → KeepCommandCause n n stop) }
    ensures keeps { KeepsLink CommandCause (shows (L.transcript link.old) (L.faults link.old) (L.began link.old)) (shows (L.transcript link.new) (L.faults link.new) (L.began link.new)) result }
{
    match stage {
        Stage::Collecting(client, docs) => Ok((
            Stage::Collecting(client, docs),
            LineResult::Refused(Refusal::NotSetUp),
        )),
        Stage::Searching(client) => match run_query(tools, &client, fields, link, buffer) {
            Ok(outcome) => Ok((Stage::Searching(client), outcome)),
            Err(stop) => {
                drop(client);
                Err(stop)
            }
        },
    }
}
