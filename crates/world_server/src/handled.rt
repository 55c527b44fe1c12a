ghost use Rattle.std.specs.Prelude.{◌≡◌, ◌-◌, ◌<◌, List, length};
ghost use Rattle.keyed_fn.specs.KeyedFn.{keyed_fn};
ghost use Rattle.outside_memory_disk.specs.MemDisk.{next_call_of};
ghost use Rattle.sse_frames.specs.Frames.{FrameText, IsFrame};
ghost use Rattle.world_server.specs.Serving.{Serves};
ghost use Rattle.world_server.specs.Handling.{IsHandled, CanReply, HasCalled, HasReplied};

use crate::Replies;
use crate::question::question;
use crate::update::{Ended, update};
use crate::whole_frame::whole_frame;
use keyed_fn::Keyed;
use outside_memory_disk::MemDisk;
use server_tables::Tables;
use sse_server::Store;
use std::alloc::Global;
use world_disks::{Met, Stop, stop_if_met};

/// How a server ended at a frame.
#[derive(Drop)]
pub enum Handled {
    /// The update frame of this number was taken, and every crash leaves it.
    Took(u32),
    /// The server has these replies, and took nothing.
    Replied(Replies),
    /// The server has stopped inside a call of its disk, which is the image that the stop leaves: the frame is there or not.
    Stopped,
    /// There is no memory for the frame or its replies, and nothing has changed.
    NoMemory,
    /// A call of the disk failed without a stop, or memory ran out there: the store takes no frame more, and the frame is
    /// there or not.
    Broken,
}

// Promise P307 (caller): A server that may stop acknowledges an update only if it took it without a stop; else it replies by its step, or has stopped.
//   clauses: handled, counted, quiet, can; assumes: earlier calls
/// A server that takes more handles the bytes of a frame on a disk that may stop inside a call, and counts the calls of the
/// disk. The page has place for some identifiers.
pub fn handle<K: Keyed, T: Tables>(
    alloc: Global,
    store: &mut Store<T>,
    disk: &mut MemDisk,
    keyed: &K,
    bytes: &[u8],
    stop: Option<Stop>,
    page: &mut [u64],
) -> (Handled, u64)
    requires frame { IsFrame bytes.now }
    requires serves { (frames : List FrameText) × Serves frames store.old disk.old }
    requires page { 0 < length page.old }
    ensures handled { (frames : List FrameText) → Serves frames store.old disk.old → (sent : IsFrame bytes.now) →
        IsHandled (keyed_fn K.prf K.pad) frames sent.frame stop result.0 result.1 store.new disk.new }
    ensures counted { HasCalled result.0 → result.1 ≡ next_call_of disk.new - next_call_of disk.old }
    ensures quiet { HasReplied result.0 → disk.new ≡ disk.old }
    ensures can { CanReply result.0 }
    ensures long { length page.new ≡ length page.old }
{
    let Some(frame) = whole_frame(bytes) else {
        // Not of bytes that are a frame.
        return (Handled::NoMemory, 0);
    };
    if frame.update_number().is_none() {
        return match question(alloc, store, disk, keyed, &frame, page) {
            Some(replies) => (Handled::Replied(replies), 0),
            None => (Handled::NoMemory, 0),
        };
    }
    let (ended, calls) = update(store, disk, keyed, &frame, page);
    match ended {
        Ended::Took(q) => match stop_if_met(disk, stop, calls) {
            Met::No => (Handled::Took(q), calls),
            Met::Yes => (Handled::Stopped, calls),
            Met::NoMemory => (Handled::Broken, calls),
        },
        Ended::Refused(reply) => (Handled::Replied(Replies::Single(reply)), 0),
        Ended::NoMemory => (Handled::NoMemory, 0),
        Ended::Failed => match stop_if_met(disk, stop, calls) {
            Met::No => (Handled::Broken, calls),
            Met::Yes => (Handled::Stopped, calls),
            Met::NoMemory => (Handled::Broken, calls),
        },
    }
}
