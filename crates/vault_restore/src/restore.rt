ghost use Rattle.std.specs.Prelude.{◌≡◌};
ghost use Rattle.doc_vault.specs.Counts.{Counts, KeepsCounts, with_link, with_sink};
ghost use Rattle.doc_vault.specs.Sights.{sight_of};
ghost use Rattle.keyed_fn.specs.KeyedFn.{keyed_fn};
ghost use Rattle.keyed_fn.specs.VaultFormulas.{vault_secrets};
ghost use Rattle.vault_restore.specs.Restores.{RestoresOrStops};

use crate::next_number::ask_next;
use crate::scan::scan;
use doc_vault::Tools;
use keyed_fn::Keyed;
use sse_outside::Sink;
use std::alloc::Global;
use vault_link::{REPLY_ROOM, VaultLink};
use vault_script::VaultStop;
use vault_shelf::TextBuffer;
use word_keys::MasterKey;

// Promise P277 (caller): Over any link, a restore only asks for the server's number n and fetches slots 0 to n-1; it succeeds only if n fits them.
//   clauses: restores; fields: FinishesRestore.told, FinishesRestore.scan, FinishesScan.visited, FinishesScan.all, FinishesScan.adds_up, AddsUp.count, AddsUp.beyond, HasVisited.are, HasVisited.passed, StopsRestore.stops, StopsScan.stops; assumes: observable devices
// Promise P278 (caller): A restored text is printed only if its tag is that of its put, its identifier and the encrypted text received.
//   clauses: restores; fields: HasVisited.printed, IsVisited.comes, SlotComesTo.comes; assumes: observable devices; not: A text of more than 65,536 bytes, at which the restore stops.
// Promise P279 (caller): From a vault that a client left with identifiers in order, a restore prints exactly the texts there, in the order of their puts.
//   clauses: restores; fields: FinishesRestore.texts, StopsInScan.texts, StopsRestore.fair; assumes: observable devices, honest link; not: A vault that lost texts: the others are printed, and P277 says when the loss shows.
// Promise P280 (caller): In a restore the fault count of link and sink rises if and only if the restore stops for that device.
//   clauses: counts; fields: ShowsCause.sink, ShowsCause.link, ShowsCause.supplied, ShowsCause.later; not: A count at 2^64-1 counts as risen.
/// Brings back every text of the vault of this key, and prints `body <id>: <digits>` for each; the answer is whether the tag of one
/// was wrong, for which `forged <id>` is printed. It asks for the number n of the next update, and then fetches the slots v = 0 to
/// n - 1. A put whose text is there is one update, and a put whose text isn't there is two, with its drop: if L slots hold a text,
/// n + L is twice the number of puts, and no slot beyond them holds a text.
///
/// It stops for the first of these causes: out of memory, here, at the link or at the server; a link that is cut, or a fault of the
/// server's disk; a sink that fails; any other reply than a number to the question, or than a text or none to a fetch; a text
/// of more than 65,536 bytes under a right tag (all `BadReply`, by the first bytes); and, after every text was printed, a number n that
/// doesn't fit what the slots hold, since a text was lost or is one too many (`BadReply`, by the reply that said n).
pub fn restore_texts<K: Keyed, L: VaultLink, W: Sink>(
    alloc: Global,
    keyed: &K,
    key: &MasterKey,
    link: &mut L,
    sink: &mut W,
) -> Result<bool, VaultStop>
    ensures restores { RestoresOrStops (keyed_fn K.prf K.pad) (vault_secrets (keyed_fn K.prf K.pad) key.now)
        (record { link = sight_of (L.transcript link.old) (L.remote link.old); written = W.written sink.old })
        (record { link = sight_of (L.transcript link.new) (L.remote link.new); written = W.written sink.new }) result }
    ensures counts { (others : Counts) → KeepsCounts (with_link (L.faults link.old) (with_sink (W.faults sink.old) (W.shortages sink.old) others))
        (with_link (L.faults link.new) (with_sink (W.faults sink.new) (W.shortages sink.new) others)) result }
{
    let mut reply = vec![in alloc; 0u8; REPLY_ROOM]?;
    let n = ask_next(link, &mut reply)?;
    let keys = key.vault(keyed);
    let tools = Tools { alloc, keyed, keys };
    let mut text = TextBuffer::new(alloc);
    let mut frame = Vec::new(alloc);
    scan(&tools, link, sink, &mut text, &mut frame, &mut reply, n)
}
