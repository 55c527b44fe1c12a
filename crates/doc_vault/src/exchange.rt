ghost use Rattle.std.specs.Prelude.{◌≡◌, ◌≢◌, ◌≤◌, ◌⊎◌, [], ◌∷◌, Some, None, IfErr, IfOk, length, take};
ghost use Rattle.std.specs.List.{AllByRecursion, flat_map};
ghost use Rattle.vault_shelf.specs.Shelves as meant;
ghost use Rattle.vault_shelf.specs.VaultSessions.{sent_by};
ghost use Rattle.doc_vault.specs.Acknowledged.{Acknowledges};
ghost use Rattle.doc_vault.specs.CommandRuns.{Exchanges};
ghost use Rattle.doc_vault.specs.CommandViews.{shown_of};
ghost use Rattle.doc_vault.specs.Counts.{Counts, KeepsCounts, ShowsCause, TellsFault, with_link};
ghost use Rattle.doc_vault.specs.Outcomes.{ComesTo, command_outcome, judged, link_stop, memory_stop, own_memory_stop};
ghost use Rattle.doc_vault.specs.Sights.{HasPassed, sight_of};
ghost use Rattle.keyed_fn.specs.KeyedFn.{keyed_fn};
ghost use Rattle.vault_link.specs.Asks.{CountsReply};
ghost use Rattle.vault_link.specs.ReplySizes.{IsVaultFrame};
ghost use Rattle.vault_server.specs.VaultFrames.{InVault, StoreFault, vault_bytes, vault_reply_bytes};
ghost use Rattle.vault_shelf.specs.CommandView.{command_view};
ghost use Rattle.vault_shelf.specs.OpenedView.{text_in};
ghost use Rattle.vault_shelf.specs.ShelfView.{Keeps};

use crate::judge::{judge_fetch, judge_update};
use crate::tools::Tools;
use keyed_fn::Keyed;
use script_run_texts::PeerStop;
use vault_link::{LinkFault, VaultLink};
use vault_script::VaultStop;
use vault_shelf::{Shelf, TextBuffer, VaultCommand};

// Promise P234, also here; clauses: counts, later, cause
/// Sends one frame, and receives the reply to it at the front of `reply`; the answer is how many bytes it has.
///
/// It stops if the link is cut or out of memory. `reply` has room for 65,604 bytes.
pub fn ask<L: VaultLink>(link: &mut L, frame: &[u8], reply: &mut [u8]) -> Result<usize, VaultStop>
    requires frame { IsVaultFrame frame.now }
    requires room { 65604 ≤ length reply.old }
    ensures within { IfOk result (λ n. n ≤ length reply.new) }
    ensures asked { IfOk result (λ n. HasPassed (record { frame = frame.now; reply = Some (take n reply.new) } ∷ []) (sight_of (L.transcript link.old) (L.remote link.old)) (sight_of (L.transcript link.new) (L.remote link.new))) }
    ensures cut { IfErr result (λ stop. ((stop ≡ link_stop) × HasPassed (record { frame = frame.now; reply = None } ∷ []) (sight_of (L.transcript link.old) (L.remote link.old)) (sight_of (L.transcript link.new) (L.remote link.new)))
        ⊎ (((stop ≡ link_stop) ⊎ (stop ≡ memory_stop)) × (sight_of (L.transcript link.new) (L.remote link.new) ≡ sight_of (L.transcript link.old) (L.remote link.old)))) }
    ensures counts { IfOk result (λ n. CountsReply (take n reply.new) (L.faults link.old) (L.faults link.new)) }
    ensures later { L.faults link.old ≤ L.faults link.new }
    ensures cause { IfErr result (λ stop. (others : Counts) → ShowsCause (with_link (L.faults link.old) others) (with_link (L.faults link.new) others) stop) }
{
    match link.ask(frame, reply) {
        Ok(n) => Ok(n),
        Err(LinkFault::Cut) => Err(VaultStop::from(PeerStop::Link)),
        Err(LinkFault::NoMemory) => Err(VaultStop::from(PeerStop::Memory)),
    }
}

// Promise P233 (caller): The frame of an update can be sent again; the run continues only at the acknowledgement of the update's own number.
//   clauses: acknowledges, counts; fields: IsAcknowledged.own, StopsSending.NotOwn; assumes: observable devices
/// Sends the frame of an update again, that of number `n`, and judges the reply: only the acknowledgement of this number
/// lets the run continue.
///
/// It stops if the link is cut, at `NoMemory` of either side, at a fault of the server's disk, at `Clash`, and at any other reply
/// (`BadReply`, by its first bytes). `reply` has room for 65,604 bytes.
pub fn send_again<L: VaultLink>(
    link: &mut L,
    frame: &[u8],
    n: u32,
    reply: &mut [u8],
) -> Result<(), VaultStop>
    requires frame { IsVaultFrame frame.now }
    requires room { 65604 ≤ length reply.old }
    ensures acknowledges { Acknowledges frame.now n (sight_of (L.transcript link.old) (L.remote link.old)) (sight_of (L.transcript link.new) (L.remote link.new)) result }
    ensures counts { (others : Counts) → KeepsCounts (with_link (L.faults link.old) others) (with_link (L.faults link.new) others) result }
{
    let size = ask(link, frame, reply)?;
    judge_update(&reply[..size], n)
}

/// Sends the frame of a command, and judges the reply.
pub(crate) fn exchange<K: Keyed, L: VaultLink>(
    tools: &Tools<'_, K>,
    link: &mut L,
    shelf: &Shelf,
    command: &VaultCommand<'_>,
    text: &mut TextBuffer,
    frame: &[u8],
    reply: &mut [u8],
) -> Result<(), VaultStop>
    requires frame { IsVaultFrame frame.now }
    requires room { 65604 ≤ length reply.old }
    ensures exchanges { (s : meant.Shelf) → Keeps shelf.now s → frame.now ≡ flat_map vault_bytes (sent_by (keyed_fn K.prf K.pad) tools.now.keys s (command_view command.now)) →
        AllByRecursion InVault (sent_by (keyed_fn K.prf K.pad) tools.now.keys s (command_view command.now)) →
        Exchanges (keyed_fn K.prf K.pad) tools.now.keys s (command_view command.now) (sight_of (L.transcript link.old) (L.remote link.old)) (sight_of (L.transcript link.new) (L.remote link.new)) (text_in text.new) result }
    ensures counts { (others : Counts) → KeepsCounts (with_link (L.faults link.old) others) (with_link (L.faults link.new) others) result }
{
    let n = ask(link, frame, reply)?;
    judge(tools, shelf, command, text, &reply[..n])
}

/// Judges the reply to the frame of a command.
fn judge<K: Keyed>(
    tools: &Tools<'_, K>,
    shelf: &Shelf,
    command: &VaultCommand<'_>,
    text: &mut TextBuffer,
    bytes: &[u8],
) -> Result<(), VaultStop>
    ensures comes { result ≢ Err own_memory_stop → (s : meant.Shelf) → Keeps shelf.now s →
        ComesTo (command_outcome (keyed_fn K.prf K.pad) tools.now.keys s (command_view command.now)) bytes.now (judged (shown_of (command_view command.now) (text_in text.new)) result) }
    ensures fault { TellsFault (bytes.now ≡ vault_reply_bytes StoreFault) result }
{
    match *command {
        VaultCommand::Put { .. } => judge_update(bytes, shelf.sent()),
        VaultCommand::Drop { .. } => judge_update(bytes, shelf.sent()),
        VaultCommand::Get { id } => {
            let v = shelf.put_of(id).unwrap_or(0);
            judge_fetch(tools, text, v, id, bytes)
        }
    }
}
