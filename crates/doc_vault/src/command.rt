ghost use Rattle.std.specs.Prelude.{◌≡◌, ◌≤◌, OnOk, length};
ghost use Rattle.vault_shelf.specs.Shelves as meant;
ghost use Rattle.doc_vault.specs.CommandRuns.{CarriesOut, HasFrame, IsShortCommand, IsUpdate, KeepsRecords, records_of};
ghost use Rattle.doc_vault.specs.Counts.{Counts, KeepsCounts, with_link, with_recorder};
ghost use Rattle.doc_vault.specs.RecordersLeft.{LeavesRecorder};
ghost use Rattle.doc_vault.specs.Sights.{sight_of};
ghost use Rattle.keyed_fn.specs.KeyedFn.{keyed_fn};
ghost use Rattle.vault_shelf.specs.CommandView.{command_view};
ghost use Rattle.vault_shelf.specs.OpenedView.{text_in};
ghost use Rattle.vault_shelf.specs.ShelfView.{CanSend, Keeps};

use crate::exchange::exchange;
use crate::tools::Tools;
use client_recorder::Recorder;
use keyed_fn::Keyed;
use script_run_texts::{CommandStop, StopCause};
use std::alloc::Global;
use vault_link::VaultLink;
use vault_script::VaultStop;
use vault_shelf::{Shelf, TextBuffer, VaultCommand, write_vault_command, write_vault_record};

/// Hands the record of a put or a drop over.
fn keep_update<R: Recorder>(
    alloc: Global,
    recorder: &mut R,
    command: &VaultCommand<'_>,
) -> Result<(), VaultStop>
    requires whole { R.whole recorder.old }
    requires update { IsUpdate (command_view command.now) }
    ensures kept { KeepsRecords (records_of (command_view command.now)) (R.kept recorder.old) (R.kept recorder.new) result }
    ensures whole_after { OnOk result (R.whole recorder.new) }
    ensures counts { (others : Counts) → KeepsCounts (with_recorder (R.faults recorder.old) others) (with_recorder (R.faults recorder.new) others) result }
    ensures recorder { LeavesRecorder R.kept R.moment R.left_since R.whole recorder.old recorder.new }
{
    let mut payload = Vec::new(alloc);
    write_vault_record(command, &mut payload)?;
    match recorder.keep(payload) {
        Ok(()) => Ok(()),
        Err(fault) => Err(VaultStop::Run(StopCause::Command(CommandStop::Keeping(fault)))),
    }
}

/// Hands the record of a command over, before anything of it is sent. A get has none.
fn keep_record<R: Recorder>(
    alloc: Global,
    recorder: &mut R,
    command: &VaultCommand<'_>,
) -> Result<(), VaultStop>
    requires whole { R.whole recorder.old }
    requires short { IsShortCommand (command_view command.now) }
    ensures kept { KeepsRecords (records_of (command_view command.now)) (R.kept recorder.old) (R.kept recorder.new) result }
    ensures whole_after { OnOk result (R.whole recorder.new) }
    ensures counts { (others : Counts) → KeepsCounts (with_recorder (R.faults recorder.old) others) (with_recorder (R.faults recorder.new) others) result }
    ensures recorder { LeavesRecorder R.kept R.moment R.left_since R.whole recorder.old recorder.new }
{
    match command {
        VaultCommand::Put { .. } => keep_update(alloc, recorder, command),
        VaultCommand::Drop { .. } => keep_update(alloc, recorder, command),
        VaultCommand::Get { .. } => Ok(()),
    }
}

/// Carries out a command that isn't refused and has a frame: hands its record over, sends the frame, and judges the reply. The
/// memory for what it leaves is taken first.
pub(crate) fn carry_out<K: Keyed, L: VaultLink, R: Recorder>(
    tools: &Tools<'_, K>,
    link: &mut L,
    recorder: &mut R,
    shelf: &mut Shelf,
    text: &mut TextBuffer,
    frame: &mut Vec<u8>,
    reply: &mut [u8],
    command: &VaultCommand<'_>,
) -> Result<(), VaultStop>
    requires sends { CanSend shelf.old (command_view command.now) }
    requires known { (s : meant.Shelf) × Keeps shelf.old s × HasFrame s (command_view command.now) }
    requires whole { R.whole recorder.old }
    requires room { 65604 ≤ length reply.old }
    ensures carried { (s : meant.Shelf) → Keeps shelf.old s → CarriesOut (keyed_fn K.prf K.pad) tools.now.keys s (command_view command.now)
        (sight_of (L.transcript link.old) (L.remote link.old)) (sight_of (L.transcript link.new) (L.remote link.new)) (R.kept recorder.old) (R.kept recorder.new) (text_in text.new) result }
    ensures keeps { (s : meant.Shelf) → Keeps shelf.old s → OnOk result (Keeps shelf.new (meant.shelf_after s (command_view command.now))) }
    ensures whole_after { OnOk result (R.whole recorder.new) }
    ensures counts { (others : Counts) → KeepsCounts (with_link (L.faults link.old) (with_recorder (R.faults recorder.old) others)) (with_link (L.faults link.new) (with_recorder (R.faults recorder.new) others)) result }
    ensures recorder { LeavesRecorder R.kept R.moment R.left_since R.whole recorder.old recorder.new }
{
    shelf.prepare(command)?;
    frame.clear();
    write_vault_command(tools.keyed, &tools.keys, shelf, command, text, frame)?;
    keep_record(tools.alloc, recorder, command)?;
    exchange(tools, link, shelf, command, text, frame.as_slice(), reply)?;
    shelf.carry(command);
    Ok(())
}
