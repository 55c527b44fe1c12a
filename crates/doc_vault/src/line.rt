ghost use Rattle.std.specs.Prelude.{◌≡◌, ◌≤◌, ℕ, List, Some, OnOk, length};
ghost use Rattle.vault_shelf.specs.Shelves as meant;
ghost use Rattle.doc_vault.specs.Counts.{Counts, KeepsCounts, with_link, with_recorder, with_sink};
ghost use Rattle.doc_vault.specs.RecordersLeft.{LeavesRecorder};
ghost use Rattle.doc_vault.specs.ScriptRuns.{TurnsOrStops};
ghost use Rattle.doc_vault.specs.Sights.{sight_of};
ghost use Rattle.keyed_fn.specs.KeyedFn.{keyed_fn};
ghost use Rattle.vault_script.specs.VaultLines.{vault_line_of};
ghost use Rattle.vault_script.specs.VaultLineViews.{vault_line_view};
ghost use Rattle.vault_shelf.specs.ShelfView.{Keeps};

use crate::tools::Tools;
use crate::turn::take_command;
use client_recorder::Recorder;
use keyed_fn::Keyed;
use script_run_texts::InputStop;
use sse_outside::Sink;
use vault_link::VaultLink;
use vault_script::{VaultLine, VaultStop};
use vault_shelf::{Shelf, TextBuffer, VaultCommand};

/// Takes a line after the key line, the line of this number; the answer is whether its command was refused.
pub(crate) fn take_line<K: Keyed, L: VaultLink, R: Recorder, W: Sink>(
    tools: &Tools<'_, K>,
    link: &mut L,
    recorder: &mut R,
    sink: &mut W,
    shelf: &mut Shelf,
    text: &mut TextBuffer,
    frame: &mut Vec<u8>,
    reply: &mut [u8],
    line: &VaultLine,
    number: u64,
) -> Result<bool, VaultStop>
    requires known { (s : meant.Shelf) × Keeps shelf.old s }
    requires whole { R.whole recorder.old }
    requires room { 65604 ≤ length reply.old }
    ensures turn { (s : meant.Shelf) (bytes : List ℕ) → Keeps shelf.old s → vault_line_of bytes ≡ Some (vault_line_view line.now) → TurnsOrStops (keyed_fn K.prf K.pad) tools.now.keys s number bytes
        (record { link = sight_of (L.transcript link.old) (L.remote link.old); kept = R.kept recorder.old; written = W.written sink.old })
        (record { link = sight_of (L.transcript link.new) (L.remote link.new); kept = R.kept recorder.new; written = W.written sink.new }) shelf.new result }
    ensures whole_after { OnOk result (R.whole recorder.new) }
    ensures counts { (others : Counts) →
        KeepsCounts (with_link (L.faults link.old) (with_recorder (R.faults recorder.old) (with_sink (W.faults sink.old) (W.shortages sink.old) others)))
        (with_link (L.faults link.new) (with_recorder (R.faults recorder.new) (with_sink (W.faults sink.new) (W.shortages sink.new) others))) result }
    ensures recorder { LeavesRecorder R.kept R.moment R.left_since R.whole recorder.old recorder.new }
{
    match line {
        VaultLine::Empty => Ok(false),
        VaultLine::Key(_) => Err(VaultStop::from(InputStop::Line(number))),
        VaultLine::Put { id, body } => {
            let command = VaultCommand::Put {
                id: *id,
                body: body.as_slice(),
            };
            take_command(
                tools, link, recorder, sink, shelf, text, frame, reply, &command,
            )
        }
        VaultLine::Drop { id } => {
            let command = VaultCommand::Drop { id: *id };
            take_command(
                tools, link, recorder, sink, shelf, text, frame, reply, &command,
            )
        }
        VaultLine::Get { id } => {
            let command = VaultCommand::Get { id: *id };
            take_command(
                tools, link, recorder, sink, shelf, text, frame, reply, &command,
            )
        }
    }
}
