ghost use Rattle.std.specs.Prelude.{◌≡◌, ◌≤◌, ℕ, List, None, OnOk, IfSome, IsNone, length};
ghost use Rattle.vault_shelf.specs.Shelves as meant;
ghost use Rattle.vault_shelf.specs.ShelfFaults.{shelf_fault};
ghost use Rattle.doc_vault.specs.CommandRuns.{HasFrame};
ghost use Rattle.doc_vault.specs.Counts.{Counts, KeepsCounts, with_link, with_recorder, with_sink};
ghost use Rattle.doc_vault.specs.LineRuns.{TakesOrStops};
ghost use Rattle.doc_vault.specs.RecordersLeft.{LeavesRecorder};
ghost use Rattle.doc_vault.specs.Sights.{sight_of};
ghost use Rattle.keyed_fn.specs.KeyedFn.{keyed_fn};
ghost use Rattle.vault_shelf.specs.CommandView.{command_view};
ghost use Rattle.vault_shelf.specs.ShelfView.{CanSend, Keeps, put_in};

use crate::command::carry_out;
use crate::printing::{show, show_command, show_refusal};
use crate::tools::Tools;
use client_recorder::Recorder;
use keyed_fn::Keyed;
use sse_outside::Sink;
use vault_link::VaultLink;
use vault_script::{VaultShown, VaultStop};
use vault_shelf::{Shelf, TextBuffer, VaultCommand};

/// The identifier of a get whose text isn't there: for such a command nothing is sent.
fn absent(shelf: &Shelf, command: &VaultCommand<'_>) -> Option<u64>
    ensures some { IfSome result (λ id. (command_view command.now ≡ meant.Get id) × (put_in shelf.now id ≡ None)) }
    ensures none { IsNone result → (s : meant.Shelf) → Keeps shelf.now s → HasFrame s (command_view command.now) }
{
    match *command {
        VaultCommand::Put { .. } => None,
        VaultCommand::Drop { .. } => None,
        VaultCommand::Get { id } => match shelf.put_of(id) {
            Some(_) => None,
            None => Some(id),
        },
    }
}

/// Carries out a command that isn't refused, and prints its line.
fn accept<K: Keyed, L: VaultLink, R: Recorder, W: Sink>(
    tools: &Tools<'_, K>,
    link: &mut L,
    recorder: &mut R,
    sink: &mut W,
    shelf: &mut Shelf,
    text: &mut TextBuffer,
    frame: &mut Vec<u8>,
    reply: &mut [u8],
    command: &VaultCommand<'_>,
) -> Result<bool, VaultStop>
    requires sends { CanSend shelf.old (command_view command.now) }
    requires known { (s : meant.Shelf) × Keeps shelf.old s }
    requires whole { R.whole recorder.old }
    requires room { 65604 ≤ length reply.old }
    ensures turn { (s : meant.Shelf) (line : List ℕ) → Keeps shelf.old s → shelf_fault s (command_view command.now) ≡ None → TakesOrStops (keyed_fn K.prf K.pad) tools.now.keys s (command_view command.now) line
        (record { link = sight_of (L.transcript link.old) (L.remote link.old); kept = R.kept recorder.old; written = W.written sink.old })
        (record { link = sight_of (L.transcript link.new) (L.remote link.new); kept = R.kept recorder.new; written = W.written sink.new }) shelf.new result }
    ensures whole_after { OnOk result (R.whole recorder.new) }
    ensures counts { (others : Counts) →
        KeepsCounts (with_link (L.faults link.old) (with_recorder (R.faults recorder.old) (with_sink (W.faults sink.old) (W.shortages sink.old) others)))
        (with_link (L.faults link.new) (with_recorder (R.faults recorder.new) (with_sink (W.faults sink.new) (W.shortages sink.new) others))) result }
    ensures recorder { LeavesRecorder R.kept R.moment R.left_since R.whole recorder.old recorder.new }
{
    match absent(shelf, command) {
        Some(id) => {
            show(sink, &VaultShown::NoBody { id })?;
            Ok(false)
        }
        None => {
            carry_out(tools, link, recorder, shelf, text, frame, reply, command)?;
            show_command(sink, command, text)?;
            Ok(false)
        }
    }
}

/// Takes the command of a line: carries it out or refuses it, and prints the line of it. The answer is whether it was refused.
pub(crate) fn take_command<K: Keyed, L: VaultLink, R: Recorder, W: Sink>(
    tools: &Tools<'_, K>,
    link: &mut L,
    recorder: &mut R,
    sink: &mut W,
    shelf: &mut Shelf,
    text: &mut TextBuffer,
    frame: &mut Vec<u8>,
    reply: &mut [u8],
    command: &VaultCommand<'_>,
) -> Result<bool, VaultStop>
    requires known { (s : meant.Shelf) × Keeps shelf.old s }
    requires whole { R.whole recorder.old }
    requires room { 65604 ≤ length reply.old }
    ensures turn { (s : meant.Shelf) (line : List ℕ) → Keeps shelf.old s → TakesOrStops (keyed_fn K.prf K.pad) tools.now.keys s (command_view command.now) line
        (record { link = sight_of (L.transcript link.old) (L.remote link.old); kept = R.kept recorder.old; written = W.written sink.old })
        (record { link = sight_of (L.transcript link.new) (L.remote link.new); kept = R.kept recorder.new; written = W.written sink.new }) shelf.new result }
    ensures whole_after { OnOk result (R.whole recorder.new) }
    ensures counts { (others : Counts) →
        KeepsCounts (with_link (L.faults link.old) (with_recorder (R.faults recorder.old) (with_sink (W.faults sink.old) (W.shortages sink.old) others)))
        (with_link (L.faults link.new) (with_recorder (R.faults recorder.new) (with_sink (W.faults sink.new) (W.shortages sink.new) others))) result }
    ensures recorder { LeavesRecorder R.kept R.moment R.left_since R.whole recorder.old recorder.new }
{
    match shelf.refusal(command) {
        Some(fault) => {
            show_refusal(sink, fault)?;
            Ok(true)
        }
        None => accept(
            tools, link, recorder, sink, shelf, text, frame, reply, command,
        ),
    }
}
