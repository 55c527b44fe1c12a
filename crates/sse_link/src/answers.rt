ghost use Rattle.std.specs.Prelude.{◌≡◌, ◌≢◌, ◌∷◌, false, [], map};
ghost use Rattle.keyed_fn.specs.KeyedFn.{keyed_fn};
ghost use Rattle.sse_frames.specs.ReadOutcomes.{frame_outcome};
ghost use Rattle.sse_frames.specs.Replies.{BadFrame, reply_bytes};
ghost use Rattle.server_core.specs.Refusal.{is_nil};
ghost use Rattle.sse_link.specs.BadFrames.{bad_reason, IsNoFrame};
ghost use Rattle.sse_link.specs.Due.{waiting, IsDue};
ghost use Rattle.sse_link.specs.Marks.{mark_of};
ghost use Rattle.def_link_events.specs.Served.{Answers};
ghost use Rattle.def_link_events.specs.declared.mark.Mark.TheVariants.{StoreFailed};
ghost use Rattle.sse_frames.specs.Frames.{IsFrame};

use crate::Due;
use crate::due::{FULL_PAGE, due_of};
use crate::whole::whole_frame;
use keyed_fn::Keyed;
use server_core::Server;
use server_tables::Tables;
use sse_frames::Reply;

// Promise P87 (caller): Bytes that are one frame get the server's step or out of memory; other bytes change nothing and get the reply saying why.
//   clauses: frame, bad_state, bad_reply
/// What a server replies to bytes that came: where they are one whole frame, what it answers to that frame, by its
/// step or out of memory. Bytes that aren't leave the server as it is, and have the one reply that says why: reason 1
/// for a length that is out of range or isn't that of the bytes, 2 for an unknown kind, 3 for another field.
///
/// The page has the identifiers of the first reply to a search. Only an update frame takes memory.
pub fn answer_bytes<K: Keyed, T: Tables>(
    keyed: &K,
    server: &mut Server<T>,
    bytes: &[u8],
    page: &mut [u64; FULL_PAGE],
) -> Due
    ensures frame { (sent : IsFrame bytes.now) →
        Answers (keyed_fn K.prf K.pad) server.old.state sent.frame (mark_of result) server.new.state (map reply_bytes (waiting (keyed_fn K.prf K.pad) server.new.state result page.new)) }
    ensures bad_state { IsNoFrame bytes.now → server.new.state ≡ server.old.state }
    ensures bad_reply { IsNoFrame bytes.now → waiting (keyed_fn K.prf K.pad) server.new.state result page.new ≡ BadFrame (bad_reason (frame_outcome bytes.now)) ∷ [] }
    ensures some { is_nil (waiting (keyed_fn K.prf K.pad) server.new.state result page.new) ≡ false }
    ensures due { IsDue (keyed_fn K.prf K.pad) server.new.state result page.new }
    ensures no_fault { mark_of result ≢ StoreFailed }
{
    match whole_frame(bytes) {
        Ok(frame) => due_of(server.handle(keyed, &frame, page)),
        Err(reason) => Due::Single(Reply::BadFrame(reason)),
    }
}
