ghost use Rattle.std.specs.Prelude.{◌≡◌, ◌≢◌, ◌-◌, ℕ, List, None, IsSome, IfSome, length};
ghost use Rattle.outside_memory_disk.specs.MemDisk.{next_call_of};
ghost use Rattle.sse_frames.specs.Frames.{FrameText, InGrammar, update_number};
ghost use Rattle.sse_frames.specs.FrameViews.{frame_view};
ghost use Rattle.sse_frames.specs.Sizes.{HasSizes};
ghost use Rattle.world_model.specs.Events.{in_doubt, settled};
ghost use Rattle.world_server.specs.Serving.{Serves, IsDiskOfFrames};
ghost use Rattle.world_server.specs.Updates.{IsEnded, IsRefused};

use crate::question::single;
use keyed_fn::Keyed;
use outside_memory_disk::MemDisk;
use server_core::Answer;
use server_tables::Tables;
use sse_frames::{Frame, Reply};
use sse_server::{Store, StoreAnswer};

/// How a store ended at an update frame, without a stop.
#[derive(Clone, Copy)]
pub enum Ended {
    /// The frame of this number was taken.
    Took(u32),
    /// It was refused with this reply.
    Refused(Reply<'static>),
    /// There is no memory for the frame, and the store is as before.
    NoMemory,
    /// The disk failed, or had no memory: the frame is in its file or not.
    Failed,
}

/// A store that takes more handles an update frame, and the calls of its disk are counted.
pub fn update<K: Keyed, T: Tables>(
    store: &mut Store<T>,
    disk: &mut MemDisk,
    keyed: &K,
    frame: &Frame<'_>,
    page: &mut [u64],
) -> (Ended, u64)
    requires update { IsSome (update_number (frame_view frame.now)) }
    requires grammar { InGrammar (frame_view frame.now) }
    requires sizes { HasSizes frame.now }
    requires serves { (frames : List FrameText) × Serves frames store.old disk.old }
    ensures ended { (frames : List FrameText) → Serves frames store.old disk.old → IsEnded frames (frame_view frame.now) result.0 store.new disk.new }
    ensures disk { (frames : List FrameText) → Serves frames store.old disk.old → IsDiskOfFrames (in_doubt (settled frames) (frame_view frame.now)) disk.new }
    ensures counted { result.1 ≡ next_call_of disk.new - next_call_of disk.old }
    ensures quiet { IsRefused result.0 → disk.new ≡ disk.old }
    ensures long { length page.new ≡ length page.old }
{
    let before = disk.calls();
    let answer = store.handle(keyed, disk, frame, page);
    let calls = disk.calls().saturating_sub(before);
    let StoreAnswer::Answered(answer) = answer else {
        return (Ended::Failed, calls);
    };
    if let Some(q) = acknowledged(&answer) {
        return (Ended::Took(q), calls);
    }
    if let Some(reply) = single(answer) {
        return (Ended::Refused(reply), calls);
    }
    // Out of memory: here, or on the disk.
    match store.broken() {
        None => (Ended::NoMemory, calls),
        Some(_) => (Ended::Failed, calls),
    }
}

/// The number in an acknowledgement.
fn acknowledged(answer: &Answer) -> Option<u32>
    ensures number { IfSome result (λ q. answer.now ≡ Answer.Took q) }
    ensures none { result ≡ None → (q : ℕ) → answer.now ≢ Answer.Took q }
{
    match *answer {
        Answer::Took(q) => Some(q),
        _ => None,
    }
}
