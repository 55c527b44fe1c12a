ghost use Rattle.std.specs.Prelude.{◌≡◌, ◌≢◌, ℕ, List, [], ◌∷◌, ◌++◌, false, map, Some, None};
ghost use Rattle.keyed_fn.specs.KeyedFn.{KeyedFn, keyed_fn};
ghost use Rattle.sse_frames.specs.Frames.{FrameText, IsFrame};
ghost use Rattle.sse_frames.specs.Replies.{reply_bytes};
ghost use Rattle.sse_outside.specs.declared.device_fault.DeviceFault.{DeviceFault};
ghost use Rattle.sse_journal.specs.JournalView.{broken_by};
ghost use Rattle.server_core.specs.Refusal.{is_nil};
ghost use Rattle.server_core.specs.State.{ServerState};
ghost use Rattle.server_core.specs.Views.{HasBegun, HasRange};
ghost use Rattle.sse_server.specs.Answers.{IfAnswered, store_replies};
ghost use Rattle.sse_server.specs.StoreView.{IsStoreOf, IsWithin};
ghost use Rattle.sse_server.specs.Taken.{IsTaken};
ghost use Rattle.def_link_events.specs.Events.{IsStepped};
ghost use Rattle.def_link_events.specs.Served.{Answers};
ghost use Rattle.def_link_events.specs.Taken.{taken_one};
ghost use Rattle.def_link_events.specs.declared.mark.Mark.TheVariants.{Stepped, LackedMemory, StoreFailed};
ghost use Rattle.sse_link.specs.Due.{waiting, behind_first, IsDue};
ghost use Rattle.sse_link.specs.Marks.{mark_of};
ghost use Rattle.sse_link.specs.Stored.{NeverRises};

use crate::Due;
use crate::due::{FULL_PAGE, due_of};
use crate::whole::whole_frame;
use keyed_fn::Keyed;
use server_core::Answer;
use server_tables::Tables;
use sse_frames::Reply;
use sse_outside::Disk;
use sse_server::{Store, StoreAnswer};

/// What a store replies to a frame, by its step, out of memory or with a fault of its disk.
pub fn answer_stored<K: Keyed, T: Tables, D: Disk>(
    keyed: &K,
    store: &mut Store<T>,
    disk: &mut D,
    bytes: &[u8],
    page: &mut [u64; FULL_PAGE],
) -> Due
    requires frame { IsFrame bytes.now }
    requires within { IsWithin store.old.journal (D.content disk.old) }
    ensures frame { (sent : IsFrame bytes.now) →
        Answers (keyed_fn K.prf K.pad) store.old.state sent.frame (mark_of result) store.new.state (map reply_bytes (waiting (keyed_fn K.prf K.pad) store.new.state result page.new)) }
    ensures some { is_nil (waiting (keyed_fn K.prf K.pad) store.new.state result page.new) ≡ false }
    ensures due { IsDue (keyed_fn K.prf K.pad) store.new.state result page.new }

    // Its file: an update that was taken is in it, and no other frame touches it.
    ensures stored { (sent : IsFrame bytes.now) → IsStepped (mark_of result) → (frames : List FrameText) → IsStoreOf frames store.old (D.content disk.old) (D.images disk.old) →
        IsStoreOf (frames ++ taken_one store.old.state sent.frame) store.new (D.content disk.new) (D.images disk.new) }
    ensures untouched { (sent : IsFrame bytes.now) → (IsTaken store.old.state sent.frame → ⊥) → D.content disk.new ≡ D.content disk.old }
    ensures within_after { IsWithin store.new.journal (D.content disk.new) }

    // Over a disk that never fails.
    ensures sound { NeverRises D.faults → broken_by store.old.journal ≢ Some DeviceFault.Failed → broken_by store.new.journal ≢ Some DeviceFault.Failed }
    ensures no_fault { NeverRises D.faults → broken_by store.old.journal ≢ Some DeviceFault.Failed → mark_of result ≢ StoreFailed }
{
    match whole_frame(bytes) {
        Ok(frame) => due_of_stored(store.handle(keyed, disk, &frame, page)),
        // Not of bytes that are a frame.
        Err(reason) => Due::Single(Reply::BadFrame(reason)),
    }
}

/// The replies of a store's answer.
fn due_of_stored(answer: StoreAnswer) -> Due
    requires { IfAnswered answer (λ core. HasRange core) }
    ensures replies { (f : KeyedFn) (s : ServerState) (page : List ℕ) → waiting f s result page ≡ store_replies f s answer page }
    ensures due { (f : KeyedFn) (s : ServerState) (page : List ℕ) → IfAnswered answer (λ core. HasBegun f s core page) → IsDue f s result page }
    ensures stepped { answer ≢ StoreAnswer.Answered Answer.NoMemory → answer ≢ StoreAnswer.StoreFault → mark_of result ≡ Stepped }
    ensures lacked { answer ≡ StoreAnswer.Answered Answer.NoMemory → mark_of result ≡ LackedMemory }
    ensures failed { answer ≡ StoreAnswer.StoreFault → mark_of result ≡ StoreFailed }
    ensures no_fault { answer ≢ StoreAnswer.StoreFault → mark_of result ≢ StoreFailed }
{
    match answer {
        StoreAnswer::Answered(core) => due_of(core),
        StoreAnswer::StoreFault => Due::Single(Reply::StoreFault),
    }
}

/// What waits at a store after the first reply, as `Due::behind_first` at a server.
pub fn next_due<K: Keyed, T: Tables>(
    due: &Due,
    keyed: &K,
    store: &Store<T>,
    page: &mut [u64; FULL_PAGE],
) -> Due
    requires { IsDue (keyed_fn K.prf K.pad) store.now.state due.now page.old }
    ensures waits { waiting (keyed_fn K.prf K.pad) store.now.state result page.new ≡ behind_first (keyed_fn K.prf K.pad) store.now.state due.now }
    ensures due { IsDue (keyed_fn K.prf K.pad) store.now.state result page.new }
    ensures stepped { mark_of result ≡ Stepped }
{
    let Due::Pages { mut walk, .. } = *due else {
        return Due::Nothing;
    };
    if walk.is_over() {
        return Due::Nothing;
    }
    let count = store.fill(keyed, &mut walk, page);
    Due::Pages { count, walk }
}
