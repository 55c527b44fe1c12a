ghost use Rattle.std.specs.Prelude.{◌≡◌, length, IfOk};

use sse_frames::{MAX_FRAME_BODY, NoMemory, PAGE_LEN, REPLY_ROOM};
use std::alloc::Global;

/// What a connection needs beside its store: room for a frame that is read, for a reply that is written, and for the
/// identifiers of a page. Reading a frame, `Store::handle` of one that is no update frame, `Store::fill` and writing a reply
/// take no memory; so a connection that sends no update frame takes none once it has these.
#[derive(Drop)]
pub struct Buffers {
    /// The longest frame that is in range, with the four bytes of its length.
    pub frame: Vec<u8>,
    /// The longest reply, with the four bytes of its length.
    pub reply: Vec<u8>,
    /// The identifiers of a whole page.
    pub page: Vec<u64>,
}

impl Buffers {
    /// Takes the memory of all three.
    pub fn new(alloc: Global) -> Result<Buffers, NoMemory>
        ensures frame { IfOk result (λ buffers. length buffers.frame.items ≡ 1048580) }
        ensures reply { IfOk result (λ buffers. length buffers.reply.items ≡ 65544) }
        ensures page { IfOk result (λ buffers. length buffers.page.items ≡ 8192) }
    {
        Ok(Buffers {
            frame: vec![in alloc; 0; 4 + MAX_FRAME_BODY as usize]?,
            reply: vec![in alloc; 0; REPLY_ROOM]?,
            page: vec![in alloc; 0; PAGE_LEN as usize]?,
        })
    }
}
