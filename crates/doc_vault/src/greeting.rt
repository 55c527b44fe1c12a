ghost use Rattle.std.specs.Prelude.{◌≡◌, ◌≤◌, IfSome, length};
ghost use Rattle.doc_vault.specs.Counts.{Counts, KeepsCounts, TellsFault, with_link};
ghost use Rattle.doc_vault.specs.Greetings.{AsksNext, Greets, GreetsHonestly, JudgesNext, SaysHonestly, TakesNumber};
ghost use Rattle.doc_vault.specs.Sights.{sight_of};
ghost use Rattle.vault_server.specs.VaultFrames.{StoreFault, vault_reply_bytes};
ghost use Rattle.vault_server.specs.VaultViews.{reply_view};

use crate::exchange::ask;
use crate::judge::{bad, stop_of};
use script_run_texts::PeerStop;
use vault_link::{VaultLink, read_whole_reply};
use vault_script::VaultStop;
use vault_server::VaultReply;

/// The frame that asks for the number of the next update.
const ASK: [u8; 5] = [0, 0, 0, 1, 0x44];

// Promise P232 (caller): A session asks for the number of the next update; over an honest link that is the vault's, and the vault is unchanged.
//   clauses: asks, stays, honest, counts; fields: HasSaid.said, HasSaid.passed; assumes: observable devices, honest link; not: Over another link any number may be said.
/// Asks for the number of the next update, which is the number of updates that the server has taken.
///
/// It stops if the link is cut, at `NoMemory` of either side, at a fault of the server's disk, and at any reply that is no
/// number (`BadReply`, by its first bytes). The question changes nothing at the server. `reply` has room for 65,604 bytes.
pub fn ask_next<L: VaultLink>(link: &mut L, reply: &mut [u8]) -> Result<u32, VaultStop>
    requires { 65604 ≤ length reply.old }
    ensures asks { AsksNext (sight_of (L.transcript link.old) (L.remote link.old)) (sight_of (L.transcript link.new) (L.remote link.new)) result }
    ensures stays { L.remote link.new ≡ L.remote link.old }
    ensures honest { IfSome (L.remote link.old) (λ before. SaysHonestly before.state.next result) }
    ensures counts { (others : Counts) → KeepsCounts (with_link (L.faults link.old) others) (with_link (L.faults link.new) others) result }
{
    let n = ask(link, &ASK, reply)?;
    judge_next(&reply[..n])
}

// Promise P226 (caller): A vault's first run begins only at a server that expects the first update; else it stops for what was replied.
//   clauses: greets, stays, honest, counts; fields: HasSaid.said, StopsGreeting.NotFirst; assumes: observable devices
/// Asks for the number of the next update, which has to be 0: the server holds nothing of this client's.
///
/// It stops as `ask_next` does, and at any other number (`Elsewhere`, which has 0, 0 and that number). `reply` has room for 65,604
/// bytes.
pub fn greet<L: VaultLink>(link: &mut L, reply: &mut [u8]) -> Result<(), VaultStop>
    requires { 65604 ≤ length reply.old }
    ensures greets { Greets (sight_of (L.transcript link.old) (L.remote link.old)) (sight_of (L.transcript link.new) (L.remote link.new)) result }
    ensures stays { L.remote link.new ≡ L.remote link.old }
    ensures honest { IfSome (L.remote link.old) (λ before. GreetsHonestly before.state.next result) }
    ensures counts { (others : Counts) → KeepsCounts (with_link (L.faults link.old) others) (with_link (L.faults link.new) others) result }
{
    let next = ask_next(link, reply)?;
    if next == 0 {
        return Ok(());
    }
    Err(VaultStop::from(PeerStop::Elsewhere {
        low: 0,
        high: 0,
        got: next,
    }))
}

/// Judges the reply to the question: the number that it says.
fn judge_next(bytes: &[u8]) -> Result<u32, VaultStop>
    ensures judges { JudgesNext bytes.now result }
    ensures fault { TellsFault (bytes.now ≡ vault_reply_bytes StoreFault) result }
{
    match read_whole_reply(bytes) {
        Some(reply) => number_in(bytes, &reply),
        None => Err(bad(bytes)),
    }
}

/// The number of the next update, if a reply says it.
fn number_in(bytes: &[u8], reply: &VaultReply<'_>) -> Result<u32, VaultStop>
    ensures { TakesNumber (reply_view reply.now) bytes.now result }
{
    match *reply {
        VaultReply::Next(n) => Ok(n),
        _ => Err(stop_of(bytes, reply)),
    }
}
