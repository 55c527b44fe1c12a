ghost use Rattle.std.specs.Prelude.{◌≤◌, IfOk, vec_capacity};
ghost use Rattle.tcp_service.specs.Faults.{HasSinkCause};
ghost use Rattle.tcp_service.specs.Writing.{IsSaid};
ghost use Rattle.vault_server.specs.VaultFrames.{IsShortReply, vault_reply_bytes};
ghost use Rattle.vault_server.specs.VaultViews.{reply_view};

use sse_outside::Sink;
use std::alloc::{AllocError, Global};
use tcp_service::{ConnEnd, say};
use vault_server::{MAX_BODY, VaultReply, write_vault_reply};

/// Where a reply is made before it is written: room for the longest one and the four bytes of its length.
#[derive(Drop)]
pub(crate) struct ReplyRoom {
    bytes: Vec<u8>,
    ghost room: { 65604 ≤ vec_capacity bytes },
}

impl ReplyRoom {
    /// Takes the memory.
    pub(crate) fn new(alloc: Global) -> Result<ReplyRoom, AllocError> {
        let bytes = Vec::with_capacity(alloc, 4 + MAX_BODY)?;
        Ok(ReplyRoom { bytes })
    }

    /// Writes a reply, which takes no memory here.
    pub(crate) fn say<W: Sink>(
        &mut self,
        sink: &mut W,
        reply: &VaultReply<'_>,
    ) -> Result<(), ConnEnd>
        requires short { IsShortReply (reply_view reply.now) }
        ensures said { IsSaid (W.written sink.old) (W.written sink.new) (vault_reply_bytes (reply_view reply.now)) result }
        ensures cause { HasSinkCause (W.faults sink.old) (W.faults sink.new) (W.shortages sink.old) (W.shortages sink.new) result }
    {
        self.bytes.clear();
        match write_vault_reply(reply, &mut self.bytes) {
            Ok(()) => say(sink, &self.bytes),
            // Never, since there is room.
            Err(AllocError) => Err(ConnEnd::OutOfMemory),
        }
    }
}
