ghost use Rattle.std.specs.Prelude.{◌≡◌, ◌≢◌, ◌≤◌, ◌<◌, ◌++◌, ℕ, List, false, All, length, take};
ghost use Rattle.keyed_fn.specs.KeyedFn.{keyed_fn};
ghost use Rattle.sse_frames.specs.Frames.{FrameText, InGrammar};
ghost use Rattle.sse_frames.specs.FrameViews.{frame_view};
ghost use Rattle.sse_frames.specs.Sizes.{HasSizes};
ghost use Rattle.server_core.specs.State.{ServerState};
ghost use Rattle.server_core.specs.Views.{HasBegun, HasRange};
ghost use Rattle.server_core.specs.Walk.{IsWalk, contents_of, rest_of};
ghost use Rattle.sse_server.specs.Answers.{IfAnswered};
ghost use Rattle.server_connections.specs.Handled.{AnswersDisk, IsHandled, Last, Since, taken_by};
ghost use Rattle.tcp_service.specs.Disks.{StaysClosed};

use keyed_fn::Keyed;
use server_core::Walk;
use server_tables::Tables;
use sse_frames::Frame;
use sse_outside::Disk;
use sse_owners::Owners;
use sse_server::{Store, StoreAnswer};

/// What answers the frames of connections, over a file of a disk that it doesn't hold: a server that lasts, or many of
/// them of which one is chosen.
///
/// It tells contracts the state of the server that answers (`state`), that its file and the disk belong together (`stands`),
/// that the disk didn't fail in an earlier call (`sound`), and that it takes no update frame any more, since its disk refused
/// one (`closed`).
///
/// It also tells that it has taken certain frames of one owner, after those that were taken since (`lasts`), and the files
/// that may then be there after a crash (`leaves`): they give those frames, with at most the one more that the disk kept
/// from being taken. This holds after a fault of the disk too.
pub trait Keeps<D: Disk> {
    ghost state: { Self → ServerState };

    ghost stands: { Self → D → Type 0 };

    ghost lasts: { Self → D → Since → List FrameText → Type 0 };

    ghost leaves: { Since → List FrameText → List ℕ → Type 0 };

    ghost sound: { Self → Type 0 };

    ghost closed: { Self → Type 0 };

    // Promise P27, also here; clauses: lasts
    /// The answer to a frame, by the server's step; after `Found` the page begins with what the search gives first, and the
    /// walk gives the others. In place of taking an update frame it may be out of memory or its disk may fail, and then the
    /// state is as before. A frame that was taken lasts, whatever is answered later. Once it is closed, the disk is left
    /// untouched. No frame but an update takes memory.
    fn keep<K: Keyed>(
        &mut self,
        keyed: &K,
        disk: &mut D,
        frame: &Frame<'_>,
        page: &mut [u64],
    ) -> StoreAnswer
        requires grammar { InGrammar (frame_view frame.now) }
        requires sizes { HasSizes frame.now }
        requires stands { stands self.old disk.old }
        ensures stands { stands self.new disk.new }
        ensures handled { IsHandled (keyed_fn K.prf K.pad) (state self.old) (frame_view frame.now) result page.new (state self.new) }
        ensures begun { IfAnswered result (λ answer. HasBegun (keyed_fn K.prf K.pad) (state self.new) answer page.new) }
        ensures range { IfAnswered result (λ answer. HasRange answer) }
        ensures long { length page.new ≡ length page.old }
        ensures lasts { Last (lasts self.old disk.old) (lasts self.new disk.new) (taken_by (frame_view frame.now) result) }
        ensures closed { StaysClosed (closed self.old) (closed self.new) disk.old disk.new }
        ensures closes { result ≡ StoreAnswer.StoreFault → closed self.new }
        ensures disk { AnswersDisk (sound self.old) (sound self.new) (D.faults disk.old) (D.faults disk.new) result };

    /// Hands out what a walk gives next: as many identifiers as fit. No frame was handled since the walk began. It takes no
    /// memory.
    fn fill<K: Keyed>(&self, keyed: &K, walk: &mut Walk, page: &mut [u64]) -> usize
        requires walk { IsWalk (keyed_fn K.prf K.pad) (contents_of (state self.now)) walk.old }
        requires some { 0 < length page.old }
        ensures handed { rest_of (keyed_fn K.prf K.pad) (contents_of (state self.now)) walk.old ≡ take result page.new ++ rest_of (keyed_fn K.prf K.pad) (contents_of (state self.now)) walk.new }
        ensures walk { IsWalk (keyed_fn K.prf K.pad) (contents_of (state self.now)) walk.new }
        ensures room { result ≤ length page.new }
        ensures full { walk.new.is_over ≡ false → result ≡ length page.new }
        ensures ids { All (λ id. 0 < id) (take result page.new) }
        ensures long { length page.new ≡ length page.old };

    // Promise P27, also here
    /// What a crash leaves of frames that last.
    ghost left_by_crash: { (keeper : Self) (disk : D) (since : Since) (frames : List FrameText) → lasts keeper disk since frames → (bytes : List ℕ) → D.images disk bytes → leaves since frames bytes };
}

impl<T: Tables, D: Disk> Keeps<D> for Store<T> {
    ghost use Rattle.sse_server.specs.StoreView.{IsWithin};
    ghost use Rattle.std.specs.Prelude.{IsSome};
    ghost use Rattle.sse_journal.specs.JournalView.{broken_by};
    ghost use Rattle.server_connections.specs.Handled.{GivesAtMostOneMore, IsLasting};
    ghost use Rattle.tcp_service.specs.Disks.{IsSound};

    ghost state = { λ s. s.state };

    ghost stands = { λ s disk. IsWithin s.journal (D.content disk) };

    ghost sound = { λ s. IsSound s.journal };

    ghost closed = { λ s. IsSome (broken_by s.journal) };

    ghost lasts = { λ s disk since frames. IsLasting frames s (D.content disk) (D.images disk) };

    ghost leaves = { λ since frames bytes. GivesAtMostOneMore frames bytes };

    ghost left_by_crash = { λ s disk since frames is. is.left };

    fn keep<K: Keyed>(
        &mut self,
        keyed: &K,
        disk: &mut D,
        frame: &Frame<'_>,
        page: &mut [u64],
    ) -> StoreAnswer {
        self.handle(keyed, disk, frame, page)
    }

    fn fill<K: Keyed>(&self, keyed: &K, walk: &mut Walk, page: &mut [u64]) -> usize {
        self.fill(keyed, walk, page)
    }
}

impl<T: Tables, D: Disk> Keeps<D> for Owners<T> {
    ghost use Rattle.std.specs.Prelude.{IsSome};
    ghost use Rattle.sse_journal.specs.JournalView.{broken_by};
    ghost use Rattle.sse_server.specs.StoreView.{IsWithin};
    ghost use Rattle.sse_owners.specs.OwnersView.{GivesAtMostOneMore, chosen_state};
    ghost use Rattle.tcp_service.specs.Disks.{IsSound};
    ghost use Rattle.server_connections.specs.OwnersLasting.{AreOwnersLasting, with_own};

    ghost state = { λ s. chosen_state s };

    ghost stands = { λ s disk. IsWithin s.journal (D.content disk) };

    ghost sound = { λ s. IsSound s.journal };

    ghost closed = { λ s. IsSome (broken_by s.journal) };

    ghost lasts = { λ s disk since frames. AreOwnersLasting since frames s (D.content disk) (D.images disk) };

    ghost leaves = { λ since frames bytes. GivesAtMostOneMore since.numbers (with_own since frames) bytes };

    ghost left_by_crash = { λ s disk since frames is. is.left };

    fn keep<K: Keyed>(
        &mut self,
        keyed: &K,
        disk: &mut D,
        frame: &Frame<'_>,
        page: &mut [u64],
    ) -> StoreAnswer {
        Owners::handle(self, keyed, disk, frame, page)
    }

    fn fill<K: Keyed>(&self, keyed: &K, walk: &mut Walk, page: &mut [u64]) -> usize {
        self.fill(keyed, walk, page)
    }
}
