ghost use Rattle.std.specs.Prelude.{◌≡◌, ◌≤◌, ◌+◌, ◌^◌, ◌∷◌, [], ℕ, List, true, OnOk, length};
ghost use Rattle.std.specs.Io.KnownBytes.{IsAtEnd};
ghost use Rattle.vault_shelf.specs.ClientRecords.{AreRecorded};
ghost use Rattle.vault_shelf.specs.ShelfFaults.{AreAccepted};
ghost use Rattle.vault_shelf.specs.Shelves as meant;
ghost use Rattle.doc_vault.specs.Counts.{KeepsCounts};
ghost use Rattle.doc_vault.specs.RecordersLeft.{LeavesRecorder};
ghost use Rattle.doc_vault.specs.Sights.{sight_of};
ghost use Rattle.keyed_fn.specs.KeyedFn.{keyed_fn};
ghost use Rattle.keyed_fn.specs.VaultFormulas.{vault_secrets};
ghost use Rattle.sse_script.specs.TextLines.{bytes_to_come, lines_left};
ghost use Rattle.vault_client.specs.CatchingUp.{KeepsLast};
ghost use Rattle.vault_client.specs.Resumptions.{IsRestored, Resumes};
ghost use Rattle.vault_shelf.specs.Readiness.{is_ready};

use crate::catching_up::catch_up;
use crate::restart::Restart;
use client_recorder::Recorder;
use doc_vault::{Tools, run_lines, show};
use keyed_fn::Keyed;
use script_run_texts::Input;
use sse_outside::{Sink, Source};
use vault_link::{REPLY_ROOM, VaultLink};
use vault_script::{VaultShown, VaultStop};
use vault_shelf::{Shelf, TextBuffer};

/// Lets the server catch up, prints how many frames it was sent again, and carries out the lines that are left.
fn resume_lines<K: Keyed, L: VaultLink, R: Recorder, S: Source, W: Sink>(
    tools: &Tools<'_, K>,
    link: &mut L,
    recorder: &mut R,
    source: &mut S,
    sink: &mut W,
    input: &mut Input,
    shelf: &mut Shelf,
    last: &[u8],
    reply: &mut [u8],
) -> Result<bool, VaultStop>
    requires ready { is_ready shelf.old last.now ≡ true }
    requires known { (cs : List meant.VaultCommand) × KeepsLast shelf.old last.now cs }
    requires whole { R.whole recorder.old }
    requires room { 65604 ≤ length reply.old }
    requires few { input.old.number + bytes_to_come input.old.pending (S.handed_out source.old) ≤ 2 ^ 63 }
    ensures resumes { (cs : List meant.VaultCommand) → KeepsLast shelf.old last.now cs → AreAccepted meant.empty_shelf cs → AreRecorded cs →
        Resumes (keyed_fn K.prf K.pad) tools.now.keys cs input.old.number (lines_left input.old.pending (S.remaining source.old))
        (record { link = sight_of (L.transcript link.old) (L.remote link.old); kept = R.kept recorder.old; written = W.written sink.old })
        (record { link = sight_of (L.transcript link.new) (L.remote link.new); kept = R.kept recorder.new; written = W.written sink.new }) result }
    ensures whole_after { OnOk result (R.whole recorder.new) }
    ensures recorder { LeavesRecorder R.kept R.moment R.left_since R.whole recorder.old recorder.new }
    ensures at_end { OnOk result (IsAtEnd (S.remaining source.new)) }
    ensures counts { KeepsCounts
        (record { source = S.faults source.old; sink = W.faults sink.old; shortages = W.shortages sink.old; link = L.faults link.old; recorder = R.faults recorder.old })
        (record { source = S.faults source.new; sink = W.faults sink.new; shortages = W.shortages sink.new; link = L.faults link.new; recorder = R.faults recorder.new }) result }
{
    let mut text = TextBuffer::new(tools.alloc);
    let mut frame = Vec::new(tools.alloc);
    let frames = catch_up(tools, link, shelf, last, &mut text, &mut frame, reply)?;
    show(sink, &VaultShown::Resumed { frames })?;
    run_lines(
        tools, link, recorder, source, sink, input, shelf, &mut text, &mut frame, reply,
    )
}

// Promise P273 (caller): A vault's run resumes with `resumed k frames`, k being 1 exactly if the last command was sent again, then takes its lines.
//   clauses: resumes, whole_after, recorder, at_end, counts; fields: FinishesResumed.resumes, FinishesResumed.lines, HasResumed.caught, HasResumed.unkept, HasResumed.printed; assumes: observable
//     devices, earlier calls
// Promise P271 (caller): A resuming run sends only the last command's frame again, and only to a server that said it expects that update.
//   clauses: resumes; fields: HasCaughtUp.question, HasCaughtUp.own, HasCaughtUp.supplies, HasCaughtUp.passed, Supplies.HasAll, Supplies.HasAllButLast, IsSentAgain.are,
//     IsSentAgain.exchanged, StopsSupply.Elsewhere; assumes: observable devices, earlier calls
// Promise P274 (caller): Over an honest vault with all of a journal's updates, or all but the last, what passes is the rest of the simulated history.
//   clauses: resumes; fields: FinishesResumed.honest, StopsInLines.honest, ResumesHonestly.frames_are, ResumesHonestly.honest, ResumesHonestly.rest; assumes: honest link, no
//     collision, earlier calls; not: The question, whose reply is that vault's next number (P232), and the line in which a run stops.
// Promise P275 (caller): Over such a vault, each get prints the text of its identifier's last put, the journal's puts among them, or that there is none.
//   clauses: resumes; fields: ResumesHonestly.texts; assumes: honest link, no collision, earlier calls
// Promise P276 (caller): Over such a vault no reply stops a run that resumes, from its question on: no clash, no wrong tag, no other number.
//   clauses: resumes; fields: StopsResumed.fair; assumes: honest link, no collision, earlier calls
/// Resumes a run: the server gets the last command if it is missing it, `resumed k frames` is printed, k being 0 or 1, and the lines that
/// are left are carried out; the answer is whether a command was refused. No record is kept for a frame that is sent again.
///
/// It stops for the causes of `ask_next`, `send_again` and `run_lines`; at a server that expects neither the last update nor the next
/// (`Elsewhere`, with the numbers of these two and the one that was said), with nothing printed; and out of memory.
pub fn resume<K: Keyed, L: VaultLink, R: Recorder, S: Source, W: Sink>(
    restart: Restart<'_, K>,
    link: &mut L,
    recorder: &mut R,
    source: &mut S,
    sink: &mut W,
) -> Result<bool, VaultStop>
    requires ready { is_ready restart.shelf restart.last.items ≡ true }
    requires restored { (key : List ℕ) × (cs : List meant.VaultCommand) × IsRestored (keyed_fn K.prf K.pad) key (R.kept recorder.old) restart.tools.keys restart.shelf restart.last.items cs }
    requires whole { R.whole recorder.old }
    requires few { restart.input.number + bytes_to_come restart.input.pending (S.handed_out source.old) ≤ 2 ^ 63 }
    ensures resumes { (key : List ℕ) (cs : List meant.VaultCommand) → IsRestored (keyed_fn K.prf K.pad) key (R.kept recorder.old) restart.entry.tools.keys restart.entry.shelf restart.entry.last.items cs →
        Resumes (keyed_fn K.prf K.pad) (vault_secrets (keyed_fn K.prf K.pad) key) cs restart.entry.input.number (lines_left restart.entry.input.pending (S.remaining source.old))
        (record { link = sight_of (L.transcript link.old) (L.remote link.old); kept = R.kept recorder.old; written = W.written sink.old })
        (record { link = sight_of (L.transcript link.new) (L.remote link.new); kept = R.kept recorder.new; written = W.written sink.new }) result }
    ensures whole_after { OnOk result (R.whole recorder.new) }
    ensures recorder { LeavesRecorder R.kept R.moment R.left_since R.whole recorder.old recorder.new }
    ensures at_end { OnOk result (IsAtEnd (S.remaining source.new)) }
    ensures counts { KeepsCounts
        (record { source = S.faults source.old; sink = W.faults sink.old; shortages = W.shortages sink.old; link = L.faults link.old; recorder = R.faults recorder.old })
        (record { source = S.faults source.new; sink = W.faults sink.new; shortages = W.shortages sink.new; link = L.faults link.new; recorder = R.faults recorder.new }) result }
{
    let Restart {
        tools,
        mut shelf,
        last,
        mut input,
    } = restart;
    let mut reply = vec![in tools.alloc; 0u8; REPLY_ROOM]?;
    resume_lines(
        &tools, link, recorder, source, sink, &mut input, &mut shelf, &last, &mut reply,
    )
}
