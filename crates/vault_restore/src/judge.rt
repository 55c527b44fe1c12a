ghost use Rattle.std.specs.Prelude.{◌≡◌, ◌+◌, Some};
ghost use Rattle.vault_shelf.specs.VaultTexts.{fetched_text};
ghost use Rattle.doc_vault.specs.Outcomes.{bad_reply};
ghost use Rattle.keyed_fn.specs.KeyedFn.{keyed_fn};
ghost use Rattle.vault_restore.specs.Slots.{JudgesRead, JudgesSlot, JudgesText, held_outcome, slot_outcome, unfit};
ghost use Rattle.vault_server.specs.VaultViews.{reply_view};
ghost use Rattle.vault_shelf.specs.OpenedView.{text_in};

use crate::slot::Slot;
use doc_vault::Tools;
use keyed_fn::Keyed;
use script_run_texts::{PeerStop, ReplyStart};
use vault_link::read_whole_reply;
use vault_script::VaultStop;
use vault_server::VaultReply;
use vault_shelf::{Opened, TextBuffer};

/// The stop of a reply that isn't possible, by its first bytes.
pub(crate) fn bad(bytes: &[u8]) -> VaultStop
    ensures { result ≡ bad_reply bytes.now }
{
    VaultStop::from(PeerStop::BadReply(ReplyStart::of(bytes)))
}

/// Why a reply that has neither a number nor a slot ends the restore.
pub(crate) fn stop_of(bytes: &[u8], reply: &VaultReply<'_>) -> VaultStop
    ensures { result ≡ unfit bytes.now (Some (reply_view reply.now)) }
{
    match reply {
        VaultReply::NoMemory => VaultStop::from(PeerStop::Memory),
        VaultReply::StoreFault => VaultStop::from(PeerStop::Link),
        VaultReply::Took(_) => bad(bytes),
        VaultReply::Body { .. } => bad(bytes),
        VaultReply::Absent => bad(bytes),
        VaultReply::Next(_) => bad(bytes),
        VaultReply::Clash => bad(bytes),
        VaultReply::BadFrame => bad(bytes),
    }
}

/// Judges the reply to the fetch of slot `v`. A text's tag is tested with identifier v + 1, before its length; if it is
/// right, the buffer has the text decrypted.
pub(crate) fn judge_slot<K: Keyed>(
    tools: &Tools<'_, K>,
    text: &mut TextBuffer,
    v: u32,
    bytes: &[u8],
) -> Result<Slot, VaultStop>
    ensures { JudgesSlot (slot_outcome (keyed_fn K.prf K.pad) tools.now.keys v) bytes.now (v + 1) (text_in text.new) result }
{
    match read_whole_reply(bytes) {
        Some(reply) => by_reply(tools, text, v, bytes, &reply),
        None => Err(bad(bytes)),
    }
}

/// The same of a reply that was read.
fn by_reply<K: Keyed>(
    tools: &Tools<'_, K>,
    text: &mut TextBuffer,
    v: u32,
    bytes: &[u8],
    reply: &VaultReply<'_>,
) -> Result<Slot, VaultStop>
    ensures { JudgesRead (slot_outcome (keyed_fn K.prf K.pad) tools.now.keys v bytes.now (Some (reply_view reply.now))) (reply_view reply.now) (v + 1) (text_in text.new) result }
{
    match *reply {
        VaultReply::Body { tag, sealed } => open_text(tools, text, v, bytes, tag, sealed),
        VaultReply::Absent => Ok(Slot::Empty),
        VaultReply::Took(_) => Err(stop_of(bytes, reply)),
        VaultReply::Next(_) => Err(stop_of(bytes, reply)),
        VaultReply::Clash => Err(stop_of(bytes, reply)),
        VaultReply::NoMemory => Err(stop_of(bytes, reply)),
        VaultReply::StoreFault => Err(stop_of(bytes, reply)),
        VaultReply::BadFrame => Err(stop_of(bytes, reply)),
    }
}

/// Decrypts a text that was received for put `v`, if its tag is right.
fn open_text<K: Keyed>(
    tools: &Tools<'_, K>,
    text: &mut TextBuffer,
    v: u32,
    bytes: &[u8],
    tag: &[u8; 32],
    sealed: &[u8],
) -> Result<Slot, VaultStop>
    ensures { JudgesText (held_outcome (v + 1) bytes.now (fetched_text (keyed_fn K.prf K.pad) tools.now.keys v (v + 1) tag.now sealed.now)) (v + 1) (text_in text.new) result }
{
    match text.open(tools.keyed, &tools.keys, v, u64::from(v) + 1, tag, sealed)? {
        Opened::Text => Ok(Slot::Text),
        Opened::TooLong => Err(bad(bytes)),
        Opened::Forged => Ok(Slot::Forged),
    }
}
