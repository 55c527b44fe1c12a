ghost use Rattle.std.specs.Prelude.{◌≡◌, ◌≤◌, ◌+◌, ◌^◌, ◌||◌, OnOk, length};
ghost use Rattle.std.specs.Io.KnownBytes.{IsAtEnd};
ghost use Rattle.vault_shelf.specs.Shelves as meant;
ghost use Rattle.doc_vault.specs.Counts.{KeepsCounts};
ghost use Rattle.doc_vault.specs.RecordersLeft.{LeavesRecorder};
ghost use Rattle.doc_vault.specs.ScriptRuns.{RunsOrStops};
ghost use Rattle.doc_vault.specs.Sights.{sight_of};
ghost use Rattle.keyed_fn.specs.KeyedFn.{keyed_fn};
ghost use Rattle.sse_script.specs.TextLines.{bytes_to_come, lines_left};
ghost use Rattle.vault_shelf.specs.ShelfView.{Keeps};

use crate::line::take_line;
use crate::next_line::next_line;
use crate::tools::Tools;
use client_recorder::Recorder;
use keyed_fn::Keyed;
use script_run_texts::Input;
use sse_outside::{Sink, Source};
use vault_link::VaultLink;
use vault_script::VaultStop;
use vault_shelf::{Shelf, TextBuffer};

/// Whether one of two commands was refused.
fn either(first: bool, second: bool) -> bool
    ensures { result ≡ first || second }
{
    first || second
}

// Promise P224 (caller): Over any link, each line of a vault's script is a turn: refused, or recorded, sent and printed by its reply; or the run stops.
//   clauses: run, whole_after, at_end; fields: FinishesRun.run, FinishesRun.end, HasRun.are, HasRun.lines, HasRun.moves, HasRun.keeps, StopsRun.run, StopsRun.stops; assumes: observable devices,
//     earlier calls; not: Out of memory may stop a run at any line.
// Promise P228 (caller): Over a link that tells its server, what passes in a run's turns is what the simulator makes of their leaks and draws.
//   clauses: run; fields: FinishesRun.honest, StopsRun.honest, PassesHonestly.accepted, PassesHonestly.session, PassesHonestly.simulated, PassesHonestly.state, PassesHonestly.left; assumes: honest link,
//     no collision, earlier calls; not: The line in which a run stops.
// Promise P230 (caller): If a vault stands as its client left it, each get prints the text of its identifier's last put, or that there is none.
//   clauses: run; fields: HasRun.texts; assumes: honest link, no collision, earlier calls
// Promise P231 (caller): If a vault stands as its client left it, no reply stops a run: no clash, no wrong tag, no other number.
//   clauses: run; fields: StopsRun.fair; assumes: honest link, no collision, earlier calls
// Promise P234 (caller): If a vault's run stops for a device, that device's fault count rose; every other device's count is unchanged.
//   clauses: counts; fields: ShowsCause.source, ShowsCause.sink, ShowsCause.link, ShowsCause.recorder, ShowsCause.supplied, ShowsCause.later; assumes: earlier calls; not: A count at
//     2^64-1 counts as risen.
// Promise P235 (caller): A crash at any moment of a vault's run leaves the first of its records, in order; only a refusal ends the recorder.
//   clauses: recorder; fields: LeavesRecorder.kept_on, LeavesRecorder.lasts; assumes: observable devices, disk model, earlier calls
// Promise P225 (caller): A fetched text is printed only if its tag is that of the put, the identifier and the encrypted text received.
//   clauses: run; fields: IsExchanged.comes, IsCarriedOut.exchanged; assumes: earlier calls
/// Carries out the lines after the key line, and prints what each comes to; the answer is whether a command was refused.
///
/// The record of a put or a drop is handed over before its frame is sent. `stored` and `dropped` are printed only if the
/// reply acknowledges the frame's own number. A get prints the text that was received for it, never one from this
/// side's records, and only after its tag was tested.
///
/// It stops at the first of these causes: a line that is bad; a record that isn't taken; a link that is cut; a reply that
/// isn't the one expected (`Clash`, `Forged` if a tag is wrong, whatever the text's length, else its first bytes); a sink
/// that fails; out of memory. `reply` has room for 65,604 bytes.
pub fn run_lines<K: Keyed, L: VaultLink, R: Recorder, S: Source, W: Sink>(
    tools: &Tools<'_, K>,
    link: &mut L,
    recorder: &mut R,
    source: &mut S,
    sink: &mut W,
    input: &mut Input,
    shelf: &mut Shelf,
    text: &mut TextBuffer,
    frame: &mut Vec<u8>,
    reply: &mut [u8],
) -> Result<bool, VaultStop>
    requires known { (s : meant.Shelf) × Keeps shelf.old s }
    requires whole { R.whole recorder.old }
    requires room { 65604 ≤ length reply.old }
    requires few { input.old.number + bytes_to_come input.old.pending (S.handed_out source.old) ≤ 2 ^ 63 }
    ensures run { (s : meant.Shelf) → Keeps shelf.old s → RunsOrStops (keyed_fn K.prf K.pad) tools.now.keys s input.old.number (lines_left input.old.pending (S.remaining source.old))
        (record { link = sight_of (L.transcript link.old) (L.remote link.old); kept = R.kept recorder.old; written = W.written sink.old })
        (record { link = sight_of (L.transcript link.new) (L.remote link.new); kept = R.kept recorder.new; written = W.written sink.new }) shelf.new result }
    ensures whole_after { OnOk result (R.whole recorder.new) }
    ensures counts { KeepsCounts
        (record { source = S.faults source.old; sink = W.faults sink.old; shortages = W.shortages sink.old; link = L.faults link.old; recorder = R.faults recorder.old })
        (record { source = S.faults source.new; sink = W.faults sink.new; shortages = W.shortages sink.new; link = L.faults link.new; recorder = R.faults recorder.new }) result }
    ensures recorder { LeavesRecorder R.kept R.moment R.left_since R.whole recorder.old recorder.new }
    ensures at_end { OnOk result (IsAtEnd (S.remaining source.new)) }
{
    let mut refused = false;
    'lines: loop {
        let line = match next_line(tools.alloc, source, input) {
            Ok(Some(line)) => line,
            Ok(None) => return Ok(refused),
            Err(stop) => return Err(VaultStop::from(stop)),
        };
        let number = input.number();
        let now = take_line(
            tools, link, recorder, sink, shelf, text, frame, reply, &line, number,
        )?;
        refused = either(refused, now);
    }
}
