ghost use Rattle.std.specs.Prelude.{◌≤◌, length};
ghost use Rattle.doc_vault.specs.Counts.{Counts, KeepsCounts, with_link};
ghost use Rattle.doc_vault.specs.Sights.{sight_of};
ghost use Rattle.vault_restore.specs.Restores.{AsksNext, JudgesNumber, TakesNumber};
ghost use Rattle.vault_server.specs.VaultViews.{reply_view};

use crate::judge::{bad, stop_of};
use doc_vault::ask;
use vault_link::{VaultLink, read_whole_reply};
use vault_script::VaultStop;
use vault_server::VaultReply;

/// The frame that asks for the number of the next update.
const ASK: [u8; 5] = [0, 0, 0, 1, 0x44];

/// Asks for the number of the server's next update. `reply` has room for 65,604 bytes.
///
/// It stops if the link is cut, at `NoMemory` of either side, at a fault of the server's disk, and at any other
/// reply than a number (`BadReply`, by its first bytes).
pub(crate) fn ask_next<L: VaultLink>(link: &mut L, reply: &mut [u8]) -> Result<u32, VaultStop>
    requires { 65604 ≤ length reply.old }
    ensures asks { AsksNext (sight_of (L.transcript link.old) (L.remote link.old)) (sight_of (L.transcript link.new) (L.remote link.new)) result }
    ensures counts { (others : Counts) → KeepsCounts (with_link (L.faults link.old) others) (with_link (L.faults link.new) others) result }
{
    let n = ask(link, &ASK, reply)?;
    judge_number(&reply[..n])
}

/// Judges the reply to the question.
fn judge_number(bytes: &[u8]) -> Result<u32, VaultStop>
    ensures { JudgesNumber bytes.now result }
{
    match read_whole_reply(bytes) {
        Some(reply) => number_in(bytes, &reply),
        None => Err(bad(bytes)),
    }
}

/// The number in a reply.
fn number_in(bytes: &[u8], reply: &VaultReply<'_>) -> Result<u32, VaultStop>
    ensures { TakesNumber (reply_view reply.now) bytes.now result }
{
    match *reply {
        VaultReply::Next(n) => Ok(n),
        VaultReply::Took(_) => Err(stop_of(bytes, reply)),
        VaultReply::Body { .. } => Err(stop_of(bytes, reply)),
        VaultReply::Absent => Err(stop_of(bytes, reply)),
        VaultReply::Clash => Err(stop_of(bytes, reply)),
        VaultReply::NoMemory => Err(stop_of(bytes, reply)),
        VaultReply::StoreFault => Err(stop_of(bytes, reply)),
        VaultReply::BadFrame => Err(stop_of(bytes, reply)),
    }
}
