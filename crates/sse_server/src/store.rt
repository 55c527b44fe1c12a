ghost use Rattle.std.specs.Prelude.{◌≡◌, ◌≢◌, ◌⊎◌, ◌↔◌, ℕ, ◌+◌, ◌<◌, ◌≤◌, List, [], ◌∷◌, ◌++◌, true, false, All, length, take, None, Some, Ok, Err, IsErr, IsErrOf, IsSome, IfSome, IfOk};
ghost use Rattle.sse_outside.specs.Causes.{Rose};
ghost use Rattle.keyed_fn.specs.KeyedFn.{KeyedFn, keyed_fn};
ghost use Rattle.sse_frames.specs.Frames.{FrameText, InGrammar, body_of, update_number};
ghost use Rattle.sse_frames.specs.FrameViews.{frame_view};
ghost use Rattle.sse_frames.specs.Sizes.{HasSizes};
ghost use Rattle.sse_journal.specs.Files.{Gives, GivesAs, GivesWithOrWithout};
ghost use Rattle.sse_journal.specs.Holds.{IsAllOf};
ghost use Rattle.sse_journal.specs.Walks.{IsNoJournalAt};
ghost use Rattle.sse_journal.specs.AnyMoment.{LeavesOnly, HasSynced};
ghost use Rattle.sse_journal.specs.JournalView.{records_of, broken_by};
ghost use Rattle.server_tables.specs.Contents.{no_contents};
ghost use Rattle.server_core.specs.Refusal.{refusal};
ghost use Rattle.server_core.specs.Search.{search_result};
ghost use Rattle.server_core.specs.State.{ServerState, is_ready, at_first};
ghost use Rattle.server_core.specs.Step.{step, taken};
ghost use Rattle.server_core.specs.Views.{HasBegun, HasRange};
ghost use Rattle.server_core.specs.Walk.{IsWalk, contents_of, rest_of};
ghost use Rattle.sse_server.specs.Taken.{IsTaken, AreTaken, bodies};
ghost use Rattle.sse_server.specs.Records.{HasBadRecord};
ghost use Rattle.sse_server.specs.StoreView.{StoreView, IsStoreOf, IsStoreFrom, IsWithin};
ghost use Rattle.sse_server.specs.Answers.{IfAnswered, store_replies, fault_answer};

use crate::kept_body::keep;
use crate::replay::replay;
use crate::{OpenFault, StoreAnswer};
use keyed_fn::Keyed;
use search_token::Token;
use server_core::{Answer, First, Server, Walk, WalkFault};
use server_tables::Tables;
use sse_frames::Frame;
use sse_journal::Journal;
use sse_outside::{DeviceFault, Disk};
use std::alloc::Global;
use std::marker::Model;

/// A server with its journal.
///
/// It doesn't hold the disk. Each call that uses the file takes it, and speaks of a store that has taken certain frames
/// (`IsStoreOf`): its state is the one after them, and its journal has their bodies and nothing else, in a file that every
/// crash leaves. `start` makes it so, and each frame that was taken goes on from it.
#[derive(Drop)]
pub struct Store<T: Tables> {
    server: Server<T>,
    journal: Journal,
    spelled: Vec<u8>,
}

impl<T: Tables> Model for Store<T> {
    ghost use Rattle.sse_server.specs.StoreView.{StoreView, store_code};

    ghost Value = { StoreView };

    ghost coded = { store_code };

    ghost view = { λ s. record { state = s.server.state; journal = s.journal } };
}

impl<T: Tables> Store<T> {
    // Promise P128 (caller): After a start the store has taken exactly the frames whose bodies the file gives.
    //   clauses: started, whole, within; assumes: observable devices, fresh tables
    // Promise P129 (caller): Once the first sync of a store's start succeeds, a crash leaves a file that gives the records of the file as it read.
    //   clauses: any_moment; assumes: observable devices, disk model, fresh tables
    // Promise P130 (caller): A store's start refuses a file only at the place where it stops being a journal, or at the first record no server takes.
    //   clauses: no_journal, bad_record, later, failed, steady; assumes: observable devices, fresh tables; not: That it comes when the disk fails or memory runs out: then that
    //     is the answer.
    /// Starts the journal in the file of a disk, reads its records, and has a server with these tables of nothing take the
    /// frames whose bodies they are, from the first to the last. A file of less than nine bytes becomes one without records.
    ///
    /// It begins with a sync. Where that is refused, a crash leaves what it might have left before. Once it has succeeded
    /// a crash at any moment of the call, and after any later refusal, leaves a file that gives the same records.
    ///
    /// Errors: `DiskFault` where the disk failed; `NotAJournal(place)` where the file stops being a journal at this
    /// place, with the file as it was;
    /// `BadRecord(number)` where the record of this number, from 0, is the first that isn't the body of an update frame that the
    /// server takes after those before it; `NoMemory`. Of a file that is refused for what it holds, it is the first of these
    /// causes that stands: it is a journal before a record of it is looked at.
    pub fn start<D: Disk>(alloc: Global, tables: T, disk: &mut D) -> Result<Store<T>, OpenFault>
        requires { T.contents tables ≡ no_contents }
        ensures started { IfOk result (λ store. IfSome (D.content disk.old) (λ bytes. IsStoreFrom bytes store (D.content disk.new) (D.images disk.new))) }
        ensures whole { IfOk result (λ store. broken_by store.journal ≡ None) }
        ensures within { IfOk result (λ store. IsWithin store.journal (D.content disk.new)) }
        ensures any_moment { HasSynced D.content D.images D.moment D.left_since disk.old disk.new GivesAs
            ⊎ ((IsErr result) × LeavesOnly D.moment D.left_since disk.old disk.new (D.images disk.old)) }

        // Of a file that is no journal at a place: that error, unless a fault of the disk comes first.
        ensures no_journal { (place : ℕ) → result ≡ Err (OpenFault.NotAJournal place) →
            IfSome (D.content disk.old) (λ bytes. IsNoJournalAt bytes place × IsAllOf bytes (D.content disk.new) (D.images disk.new)) }
        ensures no_journal_refused { IfSome (D.content disk.old) (λ bytes. (place : ℕ) → IsNoJournalAt bytes place →
            (IsErr result) × ((other : ℕ) → result ≡ Err (OpenFault.NotAJournal other) → other ≡ place)) }

        // Of a journal with a record that isn't taken: that error, unless a fault of the disk or want of memory comes first.
        ensures bad_record { (number : ℕ) → result ≡ Err (OpenFault.BadRecord number) → IfSome (D.content disk.old) (λ bytes. HasBadRecord bytes number) }
        ensures bad_record_refused { IfSome (D.content disk.old) (λ bytes. (number : ℕ) → HasBadRecord bytes number →
            (IsErr result) × ((other : ℕ) → result ≡ Err (OpenFault.BadRecord other) → other ≡ number)) }
        ensures accepted { IfSome (D.content disk.old) (λ bytes. (frames : List FrameText) → AreTaken at_first frames → Gives (bodies frames) bytes →
            (n : ℕ) → (result ≢ Err (OpenFault.NotAJournal n)) × (result ≢ Err (OpenFault.BadRecord n))) }

        // The count of faults.
        ensures later { D.faults disk.old ≤ D.faults disk.new }
        ensures failed { IsErrOf result OpenFault.DiskFault → Rose (D.faults disk.old) (D.faults disk.new) }
        ensures steady { result ≢ Err OpenFault.DiskFault → D.faults disk.new ≡ D.faults disk.old }
    {
        let journal = match Journal::start(alloc, disk) {
            Ok(journal) => journal,
            Err(fault) => return Err(OpenFault::from(fault)),
        };
        let mut server = Server::new(tables);
        let mut spelled = Vec::new(alloc);
        match replay(&mut server, &journal, disk, &mut spelled) {
            Ok(()) => Ok(Store {
                server,
                journal,
                spelled,
            }),
            Err(fault) => Err(fault),
        }
    }

    // Promise P127, also here; clauses: ensures
    /// Why the first append was refused that was, and nothing where none was. A store whose journal is broken has to be started
    /// again before it takes an update frame.
    pub fn broken(&self) -> Option<DeviceFault>
        ensures { result ≡ broken_by self.now.journal }
    {
        self.journal.broken()
    }

    // Promise P23 (user): A store acknowledges an update frame only after every crash would leave it; without an acknowledgement the store stays as it was.
    //   clauses: added, counted, stays; assumes: observable devices, disk model, earlier calls; not: The store after its disk failed: `stays` speaks of a journal that isn't broken.
    // Promise P26 (user): A crash while a store handles a frame leaves the earlier frames, with the frame in hand or without it.
    //   clauses: any_moment; assumes: observable devices, disk model, earlier calls; not: A store whose journal is broken.
    // Promise P125 (caller): A store answers by the server's step; in place of taking an update it may report out of memory or a disk fault.
    //   clauses: state, replies, begun, no_memory, store_fault, range, long, later, failed, steady; assumes: earlier calls, sizes in bounds
    // Promise P126 (caller): A frame that the server doesn't take, such as Hello or a search, leaves disk and journal untouched.
    //   clauses: untouched; assumes: earlier calls, sizes in bounds; not: The other calls of a search, `walk` and `fill`, are given no disk.
    // Promise P127 (caller): After a refused append a store takes no update frame; disk, journal and state stay, and searches continue.
    //   clauses: whole, broken, stays_broken, breaks, no_memory, store_fault, state, replies; assumes: earlier calls
    /// The answer to a frame, by the server's step. An update frame that the server takes is in the journal before it is
    /// applied, and it is answered that it was taken only where every crash leaves its record.
    ///
    /// `StoreFault` where the disk failed at the record of this update frame, or of an earlier one: from then on no update frame
    /// is taken. `NoMemory` where there is no memory for an update frame, here or on the disk; if it was the disk that had none,
    /// no update frame is taken from then on either. After both the state is as before, and a crash may leave the record or not.
    ///
    /// Every other frame leaves the disk untouched and takes no memory. After `Found` the page begins with what the search
    /// gives first.
    pub fn handle<K: Keyed, D: Disk>(
        &mut self,
        keyed: &K,
        disk: &mut D,
        frame: &Frame<'_>,
        page: &mut [u64],
    ) -> StoreAnswer
        requires grammar { InGrammar (frame_view frame.now) }
        requires sizes { HasSizes frame.now }
        requires within { IsWithin self.old.journal (D.content disk.old) }

        // The server's step, or nothing.
        ensures state { result ≢ StoreAnswer.Answered Answer.NoMemory → result ≢ StoreAnswer.StoreFault →
            self.new.state ≡ (step (keyed_fn K.prf K.pad) self.old.state (frame_view frame.now)).0 }
        ensures replies { result ≢ StoreAnswer.Answered Answer.NoMemory → result ≢ StoreAnswer.StoreFault →
            store_replies (keyed_fn K.prf K.pad) self.new.state result page.new ≡ (step (keyed_fn K.prf K.pad) self.old.state (frame_view frame.now)).1 }
        ensures begun { IfAnswered result (λ answer. HasBegun (keyed_fn K.prf K.pad) self.new.state answer page.new) }
        ensures no_memory { result ≡ StoreAnswer.Answered Answer.NoMemory → (self.new.state ≡ self.old.state) × IsTaken self.old.state (frame_view frame.now) }
        ensures store_fault { result ≡ StoreAnswer.StoreFault → (self.new.state ≡ self.old.state) × IsTaken self.old.state (frame_view frame.now) }
        ensures range { IfAnswered result (λ answer. HasRange answer) }
        ensures long { length page.new ≡ length page.old }

        // Its journal: at each moment of the call, and after it.
        ensures added { (q : ℕ) → result ≡ StoreAnswer.Answered (Answer.Took q) → (frames : List FrameText) → IsStoreOf frames self.old (D.content disk.old) (D.images disk.old) →
            IsStoreOf (frames ++ frame_view frame.now ∷ []) self.new (D.content disk.new) (D.images disk.new) }
        ensures any_moment { (frames : List FrameText) → broken_by self.old.journal ≡ None → IsStoreOf frames self.old (D.content disk.old) (D.images disk.old) →
            LeavesOnly D.moment D.left_since disk.old disk.new (GivesWithOrWithout (bodies frames) (body_of (frame_view frame.now))) }
        ensures stays { (frames : List FrameText) → broken_by self.new.journal ≡ None → ((q : ℕ) → result ≢ StoreAnswer.Answered (Answer.Took q)) → IsStoreOf frames self.old (D.content disk.old) (D.images disk.old) →
            IsStoreOf frames self.new (D.content disk.new) (D.images disk.new) }
        ensures untouched { (IsTaken self.old.state (frame_view frame.now) → ⊥) → (disk.new ≡ disk.old) × (self.new.journal ≡ self.old.journal) }
        ensures counted { (q : ℕ) → result ≡ StoreAnswer.Answered (Answer.Took q) → records_of self.new.journal ≡ records_of self.old.journal + 1 }
        ensures within_after { IsWithin self.new.journal (D.content disk.new) }

        // Whether it is broken.
        ensures whole { (q : ℕ) → result ≡ StoreAnswer.Answered (Answer.Took q) → (broken_by self.old.journal ≡ None) × (broken_by self.new.journal ≡ None) }
        ensures broken { IsSome (broken_by self.old.journal) → (disk.new ≡ disk.old) × (self.new.journal ≡ self.old.journal) × (self.new.state ≡ self.old.state) }
        ensures stays_broken { IfSome (broken_by self.old.journal) (λ why. IsTaken self.old.state (frame_view frame.now) →
            (result ≡ fault_answer why) ⊎ (result ≡ StoreAnswer.Answered Answer.NoMemory)) }
        ensures breaks { broken_by self.old.journal ≡ None → IfSome (broken_by self.new.journal) (λ why. result ≡ fault_answer why) }
        ensures failed_breaks { result ≡ StoreAnswer.StoreFault → broken_by self.new.journal ≡ Some DeviceFault.Failed }

        // The count of faults.
        ensures later { D.faults disk.old ≤ D.faults disk.new }
        ensures failed { result ≡ StoreAnswer.StoreFault → broken_by self.old.journal ≡ None → Rose (D.faults disk.old) (D.faults disk.new) }
        ensures steady { result ≢ StoreAnswer.StoreFault → D.faults disk.new ≡ D.faults disk.old }
    {
        match frame.update_number() {
            Some(_) => self.take(disk, frame),
            None => StoreAnswer::Answered(self.server.handle(keyed, frame, page)),
        }
    }
    /// Opens the whole way of a search, as `Server::walk` does: the disk isn't touched, and no memory is taken.
    ///
    /// Errors: `OutOfPlace` before the setup is whole; `BadList` where what stands under the token's labels is no list.
    pub fn walk<K: Keyed>(
        &self,
        keyed: &K,
        token: &Token,
        page: &mut [u64],
    ) -> Result<First, WalkFault>
        ensures out_of_place { (result ≡ Err WalkFault.OutOfPlace) ↔ (is_ready self.now.state.stage ≡ false) }
        ensures bad_list { result ≡ Err WalkFault.BadList → search_result (keyed_fn K.prf K.pad) self.now.state token.now ≡ None }
        ensures first { IfOk result (λ first. search_result (keyed_fn K.prf K.pad) self.now.state token.now ≡ Some (take first.count page.new ++ rest_of (keyed_fn K.prf K.pad) (contents_of self.now.state) first.walk)) }
        ensures walk { IfOk result (λ first. IsWalk (keyed_fn K.prf K.pad) (contents_of self.now.state) first.walk) }
        ensures room { IfOk result (λ first. first.count ≤ length page.new) }
        ensures full { IfOk result (λ first. first.walk.is_over ≡ false → first.count ≡ length page.new) }
        ensures ids { IfOk result (λ first. All (λ id. 0 < id) (take first.count page.new)) }
        ensures long { length page.new ≡ length page.old }
    {
        self.server.walk(keyed, token, page)
    }

    /// Hands out what a walk gives next, as `Server::fill` does. The store is as it was when the walk began. The disk isn't
    /// touched, and no memory is taken.
    pub fn fill<K: Keyed>(&self, keyed: &K, walk: &mut Walk, page: &mut [u64]) -> usize
        requires walk { IsWalk (keyed_fn K.prf K.pad) (contents_of self.now.state) walk.old }
        requires some { 0 < length page.old }
        ensures handed { rest_of (keyed_fn K.prf K.pad) (contents_of self.now.state) walk.old ≡ take result page.new ++ rest_of (keyed_fn K.prf K.pad) (contents_of self.now.state) walk.new }
        ensures walk { IsWalk (keyed_fn K.prf K.pad) (contents_of self.now.state) walk.new }
        ensures room { result ≤ length page.new }
        ensures full { walk.new.is_over ≡ false → result ≡ length page.new }
        ensures ids { All (λ id. 0 < id) (take result page.new) }
        ensures long { length page.new ≡ length page.old }
    {
        self.server.fill(keyed, walk, page)
    }

    /// The answer to an update frame.
    fn take<D: Disk>(&mut self, disk: &mut D, frame: &Frame<'_>) -> StoreAnswer
        requires update { IsSome (update_number (frame_view frame.now)) }
        requires grammar { InGrammar (frame_view frame.now) }
        requires sizes { HasSizes frame.now }
        requires within { IsWithin self.old.journal (D.content disk.old) }
        ensures refused { IfSome (refusal self.old.state (frame_view frame.now)) (λ reply. (self.new ≡ self.old) × (disk.new ≡ disk.old) ×
            ((f : KeyedFn) (s : ServerState) (page : List ℕ) → store_replies f s result page ≡ reply ∷ [])) }
        ensures taken { refusal self.old.state (frame_view frame.now) ≡ None → result ≢ StoreAnswer.Answered Answer.NoMemory → result ≢ StoreAnswer.StoreFault →
            (self.new.state ≡ taken self.old.state (frame_view frame.now)) × (Some self.old.state.next ≡ update_number (frame_view frame.now)) × (result ≡ StoreAnswer.Answered (Answer.Took self.old.state.next)) }
        ensures no_memory { result ≡ StoreAnswer.Answered Answer.NoMemory → (self.new.state ≡ self.old.state) × IsTaken self.old.state (frame_view frame.now) }
        ensures store_fault { result ≡ StoreAnswer.StoreFault → (self.new.state ≡ self.old.state) × IsTaken self.old.state (frame_view frame.now) }
        ensures no_search { IfAnswered result (λ answer. (f : KeyedFn) (s : ServerState) (page : List ℕ) → HasBegun f s answer page) }
        ensures range { IfAnswered result (λ answer. HasRange answer) }

        // Its journal: at each moment of the call, and after it.
        ensures added { (q : ℕ) → result ≡ StoreAnswer.Answered (Answer.Took q) → (frames : List FrameText) → IsStoreOf frames self.old (D.content disk.old) (D.images disk.old) →
            IsStoreOf (frames ++ frame_view frame.now ∷ []) self.new (D.content disk.new) (D.images disk.new) }
        ensures any_moment { (frames : List FrameText) → broken_by self.old.journal ≡ None → IsStoreOf frames self.old (D.content disk.old) (D.images disk.old) →
            LeavesOnly D.moment D.left_since disk.old disk.new (GivesWithOrWithout (bodies frames) (body_of (frame_view frame.now))) }
        ensures stays { (frames : List FrameText) → broken_by self.new.journal ≡ None → ((q : ℕ) → result ≢ StoreAnswer.Answered (Answer.Took q)) → IsStoreOf frames self.old (D.content disk.old) (D.images disk.old) →
            IsStoreOf frames self.new (D.content disk.new) (D.images disk.new) }
        ensures counted { (q : ℕ) → result ≡ StoreAnswer.Answered (Answer.Took q) → records_of self.new.journal ≡ records_of self.old.journal + 1 }
        ensures within_after { IsWithin self.new.journal (D.content disk.new) }

        // Whether it is broken.
        ensures whole { (q : ℕ) → result ≡ StoreAnswer.Answered (Answer.Took q) → (broken_by self.old.journal ≡ None) × (broken_by self.new.journal ≡ None) }
        ensures broken { IsSome (broken_by self.old.journal) → (disk.new ≡ disk.old) × (self.new.journal ≡ self.old.journal) × (self.new.state ≡ self.old.state) }
        ensures stays_broken { IfSome (broken_by self.old.journal) (λ why. IsTaken self.old.state (frame_view frame.now) →
            (result ≡ fault_answer why) ⊎ (result ≡ StoreAnswer.Answered Answer.NoMemory)) }
        ensures breaks { broken_by self.old.journal ≡ None → IfSome (broken_by self.new.journal) (λ why. result ≡ fault_answer why) }
        ensures failed_breaks { result ≡ StoreAnswer.StoreFault → broken_by self.new.journal ≡ Some DeviceFault.Failed }

        // The count of faults.
        ensures later { D.faults disk.old ≤ D.faults disk.new }
        ensures failed { result ≡ StoreAnswer.StoreFault → broken_by self.old.journal ≡ None → Rose (D.faults disk.old) (D.faults disk.new) }
        ensures steady { result ≢ StoreAnswer.StoreFault → D.faults disk.new ≡ D.faults disk.old }
    {
        let q = self.server.next();
        if let Err(refuse) = self.server.prepare(frame) {
            return StoreAnswer::Answered(Answer::from(refuse));
        }
        match keep(&mut self.journal, &mut self.spelled, disk, frame) {
            Ok(()) => {
                self.server.apply(frame);
                StoreAnswer::Answered(Answer::Took(q))
            }
            Err(fault) => StoreAnswer::from(fault),
        }
    }
}
