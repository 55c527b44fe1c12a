ghost use Rattle.std.specs.Prelude.{◌≡◌, ◌≢◌, ◌<◌, ◌∷◌, [], ℕ, List, None, length, IfSome};
ghost use Rattle.keyed_fn.specs.KeyedFn.{KeyedFn, keyed_fn};
ghost use Rattle.sse_frames.specs.Frames.{FrameText, InGrammar, update_number};
ghost use Rattle.sse_frames.specs.FrameViews.{frame_view, reply_view};
ghost use Rattle.sse_frames.specs.Replies.{InReplies, Took};
ghost use Rattle.sse_frames.specs.Sizes.{HasSizes, HasReplySizes};
ghost use Rattle.server_core.specs.Step.{step};
ghost use Rattle.server_core.specs.Views.{answer_replies, HasRange};
ghost use Rattle.server_core.specs.State.{ServerState};
ghost use Rattle.world_server.specs.Serving.{Serves};
ghost use Rattle.world_server.specs.Replies.{replies_in, CanWrite, IsNoPage};

use crate::Replies;
use crate::gather::gather;
use keyed_fn::Keyed;
use outside_memory_disk::MemDisk;
use server_core::Answer;
use server_tables::Tables;
use sse_frames::{Frame, Reply};
use sse_server::{Store, StoreAnswer};
use std::alloc::Global;

/// What a store replies to a frame that is no update frame, by its step; nothing without memory. The store and its disk stay.
pub fn question<K: Keyed, T: Tables>(
    alloc: Global,
    store: &mut Store<T>,
    disk: &mut MemDisk,
    keyed: &K,
    frame: &Frame<'_>,
    page: &mut [u64],
) -> Option<Replies>
    requires question { update_number (frame_view frame.now) ≡ None }
    requires grammar { InGrammar (frame_view frame.now) }
    requires sizes { HasSizes frame.now }
    requires serves { (frames : List FrameText) × Serves frames store.old disk.old }
    requires page { 0 < length page.old }
    ensures replies { IfSome result (λ replies. replies_in replies ≡ (step (keyed_fn K.prf K.pad) store.old.state (frame_view frame.now)).1) }
    ensures can { IfSome result (λ replies. CanWrite replies) }
    ensures stays { (frames : List FrameText) → Serves frames store.old disk.old → Serves frames store.new disk.new }
    ensures disk { disk.new ≡ disk.old }
    ensures long { length page.new ≡ length page.old }
{
    match store.handle(keyed, disk, frame, page) {
        StoreAnswer::Answered(Answer::Found { count, walk }) => {
            match gather(alloc, store, keyed, count, walk, page) {
                Ok(ids) => Some(Replies::Found(ids)),
                Err(_) => None,
            }
        }
        StoreAnswer::Answered(answer) => match single(answer) {
            Some(reply) => Some(Replies::Single(reply)),
            None => None,
        },
        // Not to a frame that is no update frame.
        StoreAnswer::StoreFault => None,
    }
}

/// The one reply of an answer that is no acknowledgement, no list of a search and not out of memory.
pub fn single(answer: Answer) -> Option<Reply<'static>>
    requires { HasRange answer }
    ensures replies { IfSome result (λ reply. (f : KeyedFn) (s : ServerState) (page : List ℕ) → answer_replies f s answer page ≡ reply_view reply ∷ []) }
    ensures can { IfSome result (λ reply. InReplies (reply_view reply) × HasReplySizes reply × IsNoPage (reply_view reply)) }
    ensures other { IfSome result (λ reply. (q : ℕ) → reply_view reply ≢ Took q) }
    ensures memory { IfSome result (λ _. answer ≢ Answer.NoMemory) }
{
    match answer {
        Answer::Next(q) => Some(Reply::Next(q)),
        Answer::Number(next) => Some(Reply::Number(next)),
        Answer::Clash { what, place } => Some(Reply::Clash { what, place }),
        Answer::BadList => Some(Reply::BadList),
        Answer::OutOfPlace => Some(Reply::OutOfPlace),
        Answer::Took(_) => None,
        Answer::Found { .. } => None,
        Answer::NoMemory => None,
    }
}
