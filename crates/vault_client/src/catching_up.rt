ghost use Rattle.std.specs.Prelude.{◌≡◌, ◌≤◌, ◌∷◌, ◌++◌, [], ℕ, List, true, OnOk, length};
ghost use Rattle.vault_shelf.specs.ClientRecords.{IsRecorded};
ghost use Rattle.vault_shelf.specs.Shelves as meant;
ghost use Rattle.doc_vault.specs.Counts.{Counts, KeepsCounts, with_link};
ghost use Rattle.doc_vault.specs.Sights.{sight_of};
ghost use Rattle.keyed_fn.specs.KeyedFn.{keyed_fn};
ghost use Rattle.vault_client.specs.CatchingUp.{CatchesUp, IsFirstOf, KeepsLast, SendsAgain, SuppliesAll, elsewhere_than, left_by};
ghost use Rattle.vault_shelf.specs.CommandView.{command_view};
ghost use Rattle.vault_shelf.specs.Readiness.{is_ready, is_ready_for};
ghost use Rattle.vault_shelf.specs.ShelfView.{CanSend, Keeps};

use doc_vault::{Tools, ask_next, send_again};
use keyed_fn::Keyed;
use script_run_texts::PeerStop;
use vault_link::VaultLink;
use vault_script::VaultStop;
use vault_shelf::{Shelf, TextBuffer, VaultCommand, read_vault_record, write_vault_command};

/// The stop at a server that expects update `got`, which is neither `low` nor `high`.
fn elsewhere(low: u32, high: u32, got: u32) -> VaultStop
    ensures { result ≡ elsewhere_than low high got }
{
    VaultStop::from(PeerStop::Elsewhere { low, high, got })
}

/// Sends the frame of a put or a drop again.
fn send_command<K: Keyed, L: VaultLink>(
    tools: &Tools<'_, K>,
    link: &mut L,
    shelf: &Shelf,
    command: &VaultCommand<'_>,
    text: &mut TextBuffer,
    frame: &mut Vec<u8>,
    reply: &mut [u8],
) -> Result<(), VaultStop>
    requires sends { CanSend shelf.now (command_view command.now) }
    requires recorded { IsRecorded (command_view command.now) }
    requires known { (s : meant.Shelf) × Keeps shelf.now s }
    requires room { 65604 ≤ length reply.old }
    ensures sent { (s : meant.Shelf) → Keeps shelf.now s → SendsAgain (keyed_fn K.prf K.pad) tools.now.keys s (command_view command.now)
        (sight_of (L.transcript link.old) (L.remote link.old)) (sight_of (L.transcript link.new) (L.remote link.new)) result }
    ensures counts { (others : Counts) → KeepsCounts (with_link (L.faults link.old) others) (with_link (L.faults link.new) others) result }
{
    frame.clear();
    write_vault_command(tools.keyed, &tools.keys, shelf, command, text, frame)?;
    send_again(link, frame.as_slice(), shelf.sent(), reply)
}

/// Gives a server that expects update `next` the last command, if it is missing it, and carries the command out.
fn supply_last<K: Keyed, L: VaultLink>(
    tools: &Tools<'_, K>,
    link: &mut L,
    shelf: &mut Shelf,
    command: &VaultCommand<'_>,
    next: u32,
    text: &mut TextBuffer,
    frame: &mut Vec<u8>,
    reply: &mut [u8],
) -> Result<u32, VaultStop>
    requires ready { is_ready_for shelf.old (command_view command.now) ≡ true }
    requires recorded { IsRecorded (command_view command.now) }
    requires known { (before : List meant.VaultCommand) × Keeps shelf.old (left_by before) }
    requires room { 65604 ≤ length reply.old }
    ensures supplies { (before : List meant.VaultCommand) → Keeps shelf.old (left_by before) → SuppliesAll (keyed_fn K.prf K.pad) tools.now.keys (before ++ command_view command.now ∷ []) next
        (sight_of (L.transcript link.old) (L.remote link.old)) (sight_of (L.transcript link.new) (L.remote link.new)) result }
    ensures keeps { (before : List meant.VaultCommand) → Keeps shelf.old (left_by before) → OnOk result (Keeps shelf.new (left_by (before ++ command_view command.now ∷ []))) }
    ensures counts { (others : Counts) → KeepsCounts (with_link (L.faults link.old) others) (with_link (L.faults link.new) others) result }
{
    let low = shelf.sent();
    if next == low {
        send_command(tools, link, shelf, command, text, frame, reply)?;
        shelf.carry(command);
        return Ok(1);
    }
    if next == low + 1 {
        shelf.carry(command);
        return Ok(0);
    }
    Err(elsewhere(low, low + 1, next))
}

/// Whether a server expects the first update, as that of a client without any does.
fn expects_first(next: u32) -> Result<u32, VaultStop>
    ensures { IsFirstOf next result }
{
    if next == 0 {
        return Ok(0);
    }
    Err(elsewhere(0, 0, next))
}

/// Asks the server for the number of the next update, and gives it the last command if it is missing it. The answer is how many frames
/// were sent again, 0 or 1. The shelf, which has what the commands before the last leave, then has what all of them leave.
///
/// It stops as `ask_next` and `send_again` do; at a server that expects neither the last update nor the next (`Elsewhere`, with the numbers
/// of these two and the one that was said); and out of memory.
pub(crate) fn catch_up<K: Keyed, L: VaultLink>(
    tools: &Tools<'_, K>,
    link: &mut L,
    shelf: &mut Shelf,
    last: &[u8],
    text: &mut TextBuffer,
    frame: &mut Vec<u8>,
    reply: &mut [u8],
) -> Result<u32, VaultStop>
    requires ready { is_ready shelf.old last.now ≡ true }
    requires known { (cs : List meant.VaultCommand) × KeepsLast shelf.old last.now cs }
    requires room { 65604 ≤ length reply.old }
    ensures catches { (cs : List meant.VaultCommand) → KeepsLast shelf.old last.now cs → CatchesUp (keyed_fn K.prf K.pad) tools.now.keys cs
        (sight_of (L.transcript link.old) (L.remote link.old)) (sight_of (L.transcript link.new) (L.remote link.new)) result }
    ensures keeps { (cs : List meant.VaultCommand) → KeepsLast shelf.old last.now cs → OnOk result (Keeps shelf.new (left_by cs)) }
    ensures counts { (others : Counts) → KeepsCounts (with_link (L.faults link.old) others) (with_link (L.faults link.new) others) result }
{
    let next = ask_next(link, reply)?;
    match read_vault_record(last) {
        Some(command) => supply_last(tools, link, shelf, &command, next, text, frame, reply),
        None => expects_first(next),
    }
}
