ghost use Rattle.std.specs.Prelude.{◌≡◌, Some};
ghost use Rattle.doc_vault.specs.Counts.{Counts, KeepsCounts, with_sink};
ghost use Rattle.vault_restore.specs.RestoredLines as lines;
ghost use Rattle.vault_restore.specs.Slots.{line_of};
ghost use Rattle.vault_restore.specs.Visits.{PrintsSlot};
ghost use Rattle.vault_shelf.specs.OpenedView.{text_in};

use crate::slot::Slot;
use doc_vault::show;
use sse_outside::Sink;
use vault_script::{VaultShown, VaultStop};
use vault_shelf::TextBuffer;

/// Prints the line of a slot with this identifier: `body <id>: ` and the text that the buffer has, in hexadecimal digits, or
/// `forged <id>`. An empty slot has none. It takes no memory.
pub(crate) fn show_slot<W: Sink>(
    sink: &mut W,
    text: &TextBuffer,
    id: u64,
    slot: Slot,
) -> Result<(), VaultStop>
    ensures prints { PrintsSlot (line_of slot id (text_in text.now)) (W.written sink.old) (W.written sink.new) result }
    ensures counts { (others : Counts) → KeepsCounts (with_sink (W.faults sink.old) (W.shortages sink.old) others) (with_sink (W.faults sink.new) (W.shortages sink.new) others) result }
{
    match slot {
        Slot::Text => show_text(sink, id, text.text()),
        Slot::Forged => show_forged(sink, id),
        Slot::Empty => Ok(()),
    }
}

/// Prints the line of a text.
fn show_text<W: Sink>(sink: &mut W, id: u64, body: &[u8]) -> Result<(), VaultStop>
    ensures prints { PrintsSlot (Some (lines.TextLine id body.now)) (W.written sink.old) (W.written sink.new) result }
    ensures counts { (others : Counts) → KeepsCounts (with_sink (W.faults sink.old) (W.shortages sink.old) others) (with_sink (W.faults sink.new) (W.shortages sink.new) others) result }
{
    show(sink, &VaultShown::Fetched { id, body })
}

/// Prints that the tag of a text is wrong.
fn show_forged<W: Sink>(sink: &mut W, id: u64) -> Result<(), VaultStop>
    ensures prints { PrintsSlot (Some (lines.ForgedLine id)) (W.written sink.old) (W.written sink.new) result }
    ensures counts { (others : Counts) → KeepsCounts (with_sink (W.faults sink.old) (W.shortages sink.old) others) (with_sink (W.faults sink.new) (W.shortages sink.new) others) result }
{
    show(sink, &VaultShown::Forged { id })
}
