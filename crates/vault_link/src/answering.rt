ghost use Rattle.std.specs.Prelude.{◌≡◌, ◌≤◌, [], length, max, vec_capacity, IsOk};
ghost use Rattle.vault_link.specs.Loopbacks.{Replies, reply_room};
ghost use Rattle.vault_link.specs.ReplySizes.{IsOneReply, IsVaultFrame};
ghost use Rattle.vault_link.specs.Served.{body_of};
ghost use Rattle.vault_server.specs.VaultState.{vault_step};
ghost use Rattle.vault_server.specs.VaultFrames.{BodyReply, vault_reply_bytes};
ghost use Rattle.vault_server.specs.VaultServerView.{IsWithin};
ghost use Rattle.vault_server.specs.VaultViews.{frame_view, reply_view};

use sse_outside::Disk;
use std::alloc::AllocError;
use vault_server::{
    VaultAnswer, VaultFrame, VaultReply, VaultServer, read_vault_frame, write_vault_reply,
};

/// How many bytes the longest reply has that hands out no text, with its length.
const LONGEST_FIXED: usize = 9;

/// How many bytes of memory the reply to a frame with this body takes at most.
pub(crate) fn reply_room(server: &VaultServer, body: &[u8]) -> usize
    ensures { reply_room server.now.state body.now ≤ result }
{
    match read_vault_frame(body) {
        Ok(frame) => frame_room(server, &frame),
        Err(_) => LONGEST_FIXED,
    }
}

/// The same, of the reply to a frame.
fn frame_room(server: &VaultServer, frame: &VaultFrame<'_>) -> usize
    ensures { max 5 (length (vault_reply_bytes (vault_step server.now.state (frame_view frame.now)).1)) ≤ result }
{
    match frame {
        VaultFrame::Put { .. } => LONGEST_FIXED,
        VaultFrame::Drop { .. } => LONGEST_FIXED,
        VaultFrame::Fetch { slot } => size_of(&server.reply(&VaultAnswer::Holds(*slot))),
        VaultFrame::Ask => LONGEST_FIXED,
    }
}

/// How many bytes a reply has at most.
fn size_of(reply: &VaultReply<'_>) -> usize
    ensures { max 5 (length (vault_reply_bytes (reply_view reply.now))) ≤ result }
{
    match reply {
        VaultReply::Body { tag, sealed } => size_of_body(tag, sealed),
        _ => LONGEST_FIXED,
    }
}

/// How many bytes the reply has that hands out a tag and a text.
fn size_of_body(tag: &[u8; 32], sealed: &[u8]) -> usize
    ensures { max 5 (length (vault_reply_bytes (BodyReply tag.now sealed.now))) ≤ result }
{
    5 + tag.len() + sealed.len()
}

/// Has a server answer a frame, and writes the reply, for which there is memory.
pub(crate) fn answer_into<D: Disk>(
    server: &mut VaultServer,
    disk: &mut D,
    frame: &[u8],
    reply: &mut Vec<u8>,
) -> Result<(), AllocError>
    requires frame { IsVaultFrame frame.now }
    requires within { IsWithin server.old.journal (D.content disk.old) }
    requires empty { reply.old.items ≡ [] }
    requires room { reply_room server.old.state (body_of frame.now) ≤ vec_capacity reply.old }
    ensures written { IsOk result }
    ensures size { IsOneReply (length reply.new.items) reply.new.items }
    ensures replies { Replies frame.now reply.new.items server.old server.new (D.content disk.old) (D.content disk.new) (D.faults disk.old) (D.faults disk.new) }
{
    let (_, body) = frame.split_at(4);
    let answer = server.answer(disk, body);
    write_vault_reply(&server.reply(&answer), reply)
}
