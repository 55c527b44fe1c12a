ghost use Rattle.std.specs.Prelude.{◌≡◌, ◌≢◌, Some};
ghost use Rattle.vault_shelf.specs.VaultTexts.{fetched_text};
ghost use Rattle.doc_vault.specs.Counts.{TellsFault};
ghost use Rattle.doc_vault.specs.Outcomes.{ComesTo, bad_reply, fetch_outcome, fetched_outcome, judged, own_memory_stop, unexpected, update_outcome};
ghost use Rattle.keyed_fn.specs.KeyedFn.{keyed_fn};
ghost use Rattle.vault_script.specs.VaultShown.{VaultShownText, Fetched};
ghost use Rattle.vault_server.specs.VaultFrames.{StoreFault, vault_reply_bytes};
ghost use Rattle.vault_server.specs.VaultViews.{reply_view};
ghost use Rattle.vault_shelf.specs.OpenedView.{text_in};

use crate::tools::Tools;
use keyed_fn::Keyed;
use script_run_texts::{PeerStop, ReplyStart};
use vault_link::read_whole_reply;
use vault_script::VaultStop;
use vault_server::VaultReply;
use vault_shelf::{Opened, TextBuffer};

/// Why a reply that isn't the one expected ends the run.
pub(crate) fn stop_of(bytes: &[u8], reply: &VaultReply<'_>) -> VaultStop
    ensures { result ≡ unexpected bytes.now (Some (reply_view reply.now)) }
{
    match reply {
        VaultReply::Clash => VaultStop::Clash,
        VaultReply::NoMemory => VaultStop::from(PeerStop::Memory),
        VaultReply::StoreFault => VaultStop::from(PeerStop::Link),
        VaultReply::Took(_) => bad(bytes),
        VaultReply::Body { .. } => bad(bytes),
        VaultReply::Absent => bad(bytes),
        VaultReply::Next(_) => bad(bytes),
        VaultReply::BadFrame => bad(bytes),
    }
}

/// The stop of a reply that no command expects, by its first bytes.
pub(crate) fn bad(bytes: &[u8]) -> VaultStop
    ensures { result ≡ bad_reply bytes.now }
{
    VaultStop::from(PeerStop::BadReply(ReplyStart::of(bytes)))
}

/// Judges the reply to an update of this number: only its own acknowledgement lets the run continue.
pub(crate) fn judge_update(bytes: &[u8], n: u32) -> Result<(), VaultStop>
    ensures comes { (shown : VaultShownText) → ComesTo (update_outcome n shown) bytes.now (judged shown result) }
    ensures fault { TellsFault (bytes.now ≡ vault_reply_bytes StoreFault) result }
{
    match read_whole_reply(bytes) {
        Some(reply) => acknowledged(bytes, &reply, n),
        None => Err(bad(bytes)),
    }
}

/// Whether a reply acknowledges the update of this number.
fn acknowledged(bytes: &[u8], reply: &VaultReply<'_>, n: u32) -> Result<(), VaultStop>
    ensures outcome { (shown : VaultShownText) → update_outcome n shown bytes.now (Some (reply_view reply.now)) ≡ judged shown result }
    ensures fault { TellsFault (reply_view reply.now ≡ StoreFault) result }
{
    match *reply {
        VaultReply::Took(m) => {
            if m == n {
                return Ok(());
            }
            Err(bad(bytes))
        }
        _ => Err(stop_of(bytes, reply)),
    }
}

/// Judges the reply to the fetch of put `v`, one of this identifier: only a text whose tag is right lets the run continue, and the
/// buffer then has it decrypted. The tag is tested before the length.
pub(crate) fn judge_fetch<K: Keyed>(
    tools: &Tools<'_, K>,
    text: &mut TextBuffer,
    v: u32,
    id: u64,
    bytes: &[u8],
) -> Result<(), VaultStop>
    ensures comes { result ≢ Err own_memory_stop → ComesTo (fetch_outcome (keyed_fn K.prf K.pad) tools.now.keys v id) bytes.now (judged (Fetched id (text_in text.new)) result) }
    ensures fault { TellsFault (bytes.now ≡ vault_reply_bytes StoreFault) result }
{
    match read_whole_reply(bytes) {
        Some(reply) => open_reply(tools, text, v, id, bytes, &reply),
        None => Err(bad(bytes)),
    }
}

/// Whether a reply has the text of put `v`.
fn open_reply<K: Keyed>(
    tools: &Tools<'_, K>,
    text: &mut TextBuffer,
    v: u32,
    id: u64,
    bytes: &[u8],
    reply: &VaultReply<'_>,
) -> Result<(), VaultStop>
    ensures comes { result ≢ Err own_memory_stop → fetch_outcome (keyed_fn K.prf K.pad) tools.now.keys v id bytes.now (Some (reply_view reply.now)) ≡ judged (Fetched id (text_in text.new)) result }
    ensures fault { TellsFault (reply_view reply.now ≡ StoreFault) result }
{
    match *reply {
        VaultReply::Body { tag, sealed } => open_text(tools, text, v, id, bytes, tag, sealed),
        _ => Err(stop_of(bytes, reply)),
    }
}

/// Decrypts a text that was received for put `v`, if its tag is right.
fn open_text<K: Keyed>(
    tools: &Tools<'_, K>,
    text: &mut TextBuffer,
    v: u32,
    id: u64,
    bytes: &[u8],
    tag: &[u8; 32],
    sealed: &[u8],
) -> Result<(), VaultStop>
    ensures comes { result ≢ Err own_memory_stop → fetched_outcome id bytes.now (fetched_text (keyed_fn K.prf K.pad) tools.now.keys v id tag.now sealed.now) ≡ judged (Fetched id (text_in text.new)) result }
    ensures fault { TellsFault ⊥ result }
{
    match text.open(tools.keyed, &tools.keys, v, id, tag, sealed)? {
        Opened::Text => Ok(()),
        Opened::TooLong => Err(bad(bytes)),
        Opened::Forged => Err(VaultStop::Forged { id }),
    }
}
