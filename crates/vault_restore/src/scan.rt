ghost use Rattle.std.specs.Prelude.{◌≡◌, ◌<◌, ◌≤◌, ◌+◌, ◌-◌, ◌*◌, ◌^◌, ◌||◌, ℕ, true, false, OnOk, length};
ghost use Rattle.doc_vault.specs.Counts.{Counts, KeepsCounts, with_link, with_sink};
ghost use Rattle.doc_vault.specs.Sights.{sight_of};
ghost use Rattle.keyed_fn.specs.KeyedFn.{keyed_fn};
ghost use Rattle.keyed_fn.specs.VaultFormulas.{vault_slot};
ghost use Rattle.vault_restore.specs.Restores.{ScansOrStops, number_stop};
ghost use Rattle.vault_restore.specs.Visits.{FetchesOrStops, VisitsOrStops};
ghost use Rattle.vault_server.specs.VaultFrames.{FetchFrame, InVault, vault_bytes};
ghost use Rattle.vault_shelf.specs.OpenedView.{text_in};

use crate::judge::{bad, judge_slot};
use crate::printing::show_slot;
use crate::slot::Slot;
use doc_vault::{Tools, ask};
use keyed_fn::Keyed;
use sse_outside::Sink;
use std::alloc::AllocError;
use vault_link::VaultLink;
use vault_script::VaultStop;
use vault_server::{VaultFrame, write_vault_frame};
use vault_shelf::TextBuffer;

/// Makes the frame that fetches slot `v`.
fn write_fetch<K: Keyed>(
    tools: &Tools<'_, K>,
    v: u32,
    frame: &mut Vec<u8>,
) -> Result<(), AllocError>
    ensures bytes { OnOk result (frame.new.items ≡ vault_bytes (FetchFrame (vault_slot (keyed_fn K.prf K.pad) tools.now.keys.slots v))) }
    ensures grammar { InVault (FetchFrame (vault_slot (keyed_fn K.prf K.pad) tools.now.keys.slots v)) }
{
    let slot = tools.keys.slot(tools.keyed, v);
    frame.clear();
    write_vault_frame(&VaultFrame::Fetch { slot }, frame)
}

/// Fetches slot `v`, and judges the reply.
fn fetch<K: Keyed, L: VaultLink>(
    tools: &Tools<'_, K>,
    link: &mut L,
    text: &mut TextBuffer,
    frame: &mut Vec<u8>,
    reply: &mut [u8],
    v: u32,
) -> Result<Slot, VaultStop>
    requires { 65604 ≤ length reply.old }
    ensures fetches { FetchesOrStops (keyed_fn K.prf K.pad) tools.now.keys v (text_in text.new) (sight_of (L.transcript link.old) (L.remote link.old)) (sight_of (L.transcript link.new) (L.remote link.new)) result }
    ensures counts { (others : Counts) → KeepsCounts (with_link (L.faults link.old) others) (with_link (L.faults link.new) others) result }
{
    write_fetch(tools, v, frame)?;
    let n = ask(link, frame, reply)?;
    judge_slot(tools, text, v, &reply[..n])
}

/// Fetches slot `v`, and prints its line.
fn visit<K: Keyed, L: VaultLink, W: Sink>(
    tools: &Tools<'_, K>,
    link: &mut L,
    sink: &mut W,
    text: &mut TextBuffer,
    frame: &mut Vec<u8>,
    reply: &mut [u8],
    v: u32,
) -> Result<Slot, VaultStop>
    requires { 65604 ≤ length reply.old }
    ensures visits { VisitsOrStops (keyed_fn K.prf K.pad) tools.now.keys v (text_in text.new)
        (record { link = sight_of (L.transcript link.old) (L.remote link.old); written = W.written sink.old })
        (record { link = sight_of (L.transcript link.new) (L.remote link.new); written = W.written sink.new }) result }
    ensures counts { (others : Counts) → KeepsCounts (with_link (L.faults link.old) (with_sink (W.faults sink.old) (W.shortages sink.old) others))
        (with_link (L.faults link.new) (with_sink (W.faults sink.new) (W.shortages sink.new) others)) result }
{
    let slot = fetch(tools, link, text, frame, reply, v)?;
    show_slot(sink, text, u64::from(v) + 1, slot)?;
    Ok(slot)
}

/// Whether the tag of one of two texts was wrong.
fn either(first: bool, second: bool) -> bool
    ensures { result ≡ first || second }
{
    first || second
}

/// Whether a vault can be at number `n` in whose slots so many texts were found, and none beyond put `last`, counted from 1. A put whose text
/// is there is one update, and a put whose text isn't there is two, with its drop: p puts are n updates if n + texts = 2 p.
fn adds_up(n: u32, texts: u32, last: u32) -> bool
    ensures yes { result ≡ true → (puts : ℕ) × (n + texts ≡ 2 * puts) × (last ≤ puts) }
    ensures no { result ≡ false → (puts : ℕ) → n + texts ≡ 2 * puts → last ≤ puts → ⊥ }
{
    let sum = u64::from(n) + u64::from(texts);
    let puts = sum / 2;
    puts * 2 == sum && u64::from(last) <= puts
}

/// The stop of a number that doesn't fit what the slots hold: it tells the reply that said the number.
fn wrong_number(n: u32) -> VaultStop
    ensures { result ≡ number_stop n }
{
    let [a, b, c, d] = n.to_be_bytes();
    bad(&[0, 0, 0, 5, 0xc4, a, b, c, d])
}

/// Fetches the slots v = 0 to n - 1, and prints the line of each that isn't empty: there are no more puts than updates. The answer is
/// whether the tag of a text was wrong. `reply` has room for 65,604 bytes.
///
/// It stops if a slot can't be fetched or its line can't be printed, and, after all slots, if a vault that holds what was found can't be
/// at number `n` (`BadReply`).
pub(crate) fn scan<K: Keyed, L: VaultLink, W: Sink>(
    tools: &Tools<'_, K>,
    link: &mut L,
    sink: &mut W,
    text: &mut TextBuffer,
    frame: &mut Vec<u8>,
    reply: &mut [u8],
    n: u32,
) -> Result<bool, VaultStop>
    requires { 65604 ≤ length reply.old }
    ensures scans { ScansOrStops (keyed_fn K.prf K.pad) tools.now.keys n
        (record { link = sight_of (L.transcript link.old) (L.remote link.old); written = W.written sink.old })
        (record { link = sight_of (L.transcript link.new) (L.remote link.new); written = W.written sink.new }) result }
    ensures counts { (others : Counts) → KeepsCounts (with_link (L.faults link.old) (with_sink (W.faults sink.old) (W.shortages sink.old) others))
        (with_link (L.faults link.new) (with_sink (W.faults sink.new) (W.shortages sink.new) others)) result }
{
    let mut forged = false;
    let mut texts = 0;
    let mut last = 0;
    let mut v = 0;
    while v < n {
        let slot = visit(tools, link, sink, text, frame, reply, v)?;
        forged = either(forged, slot.is_forged());
        texts += slot.texts();
        last = slot.last(last, v);
        v += 1;
    }
    if !adds_up(n, texts, last) {
        return Err(wrong_number(n));
    }
    Ok(forged)
}
