ghost use Rattle.std.specs.Prelude.{◌≡◌, ◌≢◌, ◌⊎◌, ◌↔◌, ℕ, ◌<◌, ◌≤◌, List, [], ◌++◌, false, All, Contains, length, map, get_or, take, None, Some, Ok, Err, IsErr, IsErrOf, IsSome, IfSome, IfOk, OnOk, OnErr};
ghost use Rattle.std.specs.List.Sorted.{IsStrictlyIncreasing};
ghost use Rattle.keyed_fn.specs.KeyedFn.{KeyedFn, keyed_fn};
ghost use Rattle.sse_outside.specs.Causes.{Rose};
ghost use Rattle.sse_frames.specs.Frames.{InGrammar, update_number};
ghost use Rattle.sse_frames.specs.FrameViews.{frame_view};
ghost use Rattle.sse_frames.specs.Sizes.{HasSizes};
ghost use Rattle.sse_journal.specs.Files.{Gives, GivesAs, GivesWithOrWithout};
ghost use Rattle.sse_journal.specs.Holds.{IsAllOf};
ghost use Rattle.sse_journal.specs.Walks.{IsNoJournalAt};
ghost use Rattle.sse_journal.specs.AnyMoment.{LeavesOnly, HasSynced};
ghost use Rattle.sse_journal.specs.JournalView.{broken_by};
ghost use Rattle.server_core.specs.Search.{search_result};
ghost use Rattle.server_core.specs.State.{at_first, is_ready};
ghost use Rattle.server_core.specs.Walk.{IsWalk, contents_of, rest_of};
ghost use Rattle.sse_server.specs.StoreView.{IsWithin};
ghost use Rattle.sse_owners.specs.Handled.{IsAnsweredBy, KeepsJournal, CountsFaults, taken_by};
ghost use Rattle.sse_owners.specs.Owned.{OwnedFrame, AreOwnTaken, owned, record_of, records, states_of};
ghost use Rattle.sse_owners.specs.OwnedRecords.{HasBadOwned};
ghost use Rattle.sse_owners.specs.OwnersView.{IsOwnersOf, IsOwnersFrom, StaysButChosen, chosen_owner, chosen_state};
ghost use Rattle.sse_owners.specs.Rising.{IsNotRisingAt};

use crate::replay::replay;
use crate::rising::{first_not_rising, number_at, place_of};
use crate::taking::{answer_at, take_at};
use crate::{OwnersFault, UnknownOwner};
use keyed_fn::Keyed;
use search_token::Token;
use server_core::{Answer, First, Server, Walk, WalkFault};
use server_tables::Tables;
use sse_frames::Frame;
use sse_journal::Journal;
use sse_outside::Disk;
use sse_server::{OpenFault, StoreAnswer};
use std::alloc::Global;
use std::marker::Model;

/// A server for each of several owners, with one journal for all.
///
/// One of the owners is chosen, and frames are answered by this owner's server. The disk isn't held here: each call that uses
/// the file takes it, and speaks of owners that have taken certain frames (`IsOwnersOf`): the server of each is what its own
/// frames make of one that has taken nothing, and the journal has all of them and nothing else, in a file that every crash
/// leaves. `start` makes it so, and each frame that was taken goes on from it.
#[derive(Drop)]
pub struct Owners<T: Tables> {
    numbers: Vec<u64>,
    servers: Vec<Server<T>>,
    chosen: usize,
    journal: Journal,
    spelled: Vec<u8>,
}

impl<T: Tables> Model for Owners<T> {
    ghost use Rattle.std.specs.Prelude.{◌≡◌, ◌<◌, length, map};
    ghost use Rattle.std.specs.List.Sorted.{IsStrictlyIncreasing};
    ghost use Rattle.sse_owners.specs.OwnersView.{OwnersView, owners_code};

    ghost Value = { OwnersView };

    ghost coded = { owners_code };

    ghost view = { λ s. record { numbers = s.numbers.items; states = map (λ server. server.state) s.servers.items; chosen = s.chosen; journal = s.journal } };

    ghost invariant = { λ s. IsStrictlyIncreasing s.numbers.items × (length s.servers.items ≡ length s.numbers.items) × (s.chosen < length s.numbers.items) };
}

impl<T: Tables> Owners<T> {
    // Promise P251 (caller): After a start the owners have taken exactly the frames that the file gives, each by the server of its own owner.
    //   clauses: started, fresh; assumes: observable devices, fresh tables
    // Promise P252 (caller): Owners' numbers that don't rise are refused at the first such place before the disk is touched, and no others.
    //   clauses: rising, not_rising, not_rising_refused
    // Promise P253 (caller): A start refuses a file only where it stops being a journal, or at the first record that no owner's server takes.
    //   clauses: no_journal, no_journal_refused, bad_record, bad_record_refused, accepted, later, failed, steady; assumes: observable devices, fresh tables; not: That it comes when
    //     the disk fails or memory runs out: then that is the answer.
    // Promise P254 (caller): Once the first sync of a start succeeds, a crash leaves a file that gives the records of the file as it read.
    //   clauses: any_moment; assumes: observable devices, disk model, fresh tables
    /// Starts the journal in the file of a disk, and has the servers of the owners with these numbers take the frames that its
    /// records are, from the first to the last. The first owner is chosen. A file of less than nine bytes becomes one without
    /// records.
    ///
    /// There is a server for each number, in the same order, and none has taken anything. There is at least one.
    ///
    /// Errors, the first that stands: `NotRising(place)` if the number at this place, from 0, is the first that isn't above the
    /// one before it, with the disk untouched; then those of the file: `DiskFault` if the disk failed; `NotAJournal(place)` if
    /// the file stops being a journal at this place; `BadRecord(number)` if the record of this number, from 0, is the first that
    /// isn't one of these owners' number and the body of an update frame that this owner's server takes after those before it;
    /// `NoMemory`. A file that is refused for what it holds gives the same records as before.
    pub fn start<D: Disk>(
        alloc: Global,
        numbers: Vec<u64>,
        servers: Vec<Server<T>>,
        disk: &mut D,
    ) -> Result<Owners<T>, OwnersFault>
        requires some { 0 < length numbers.items }
        requires first { map (λ server. server.state) servers.items ≡ states_of numbers.items [] }
        ensures started { IfOk result (λ owners. IfSome (D.content disk.old) (λ bytes. IsOwnersFrom bytes owners (D.content disk.new) (D.images disk.new))) }
        ensures fresh { IfOk result (λ owners. (owners.numbers ≡ numbers.items) × (owners.chosen ≡ 0) × (broken_by owners.journal ≡ None) × IsWithin owners.journal (D.content disk.new)) }
        ensures any_moment { HasSynced D.content D.images D.moment D.left_since disk.old disk.new GivesAs
            ⊎ ((IsErr result) × LeavesOnly D.moment D.left_since disk.old disk.new (D.images disk.old)) }

        // Which error.
        ensures rising { OnOk result (IsStrictlyIncreasing numbers.items) }
        ensures not_rising { (place : ℕ) → result ≡ Err (OwnersFault.NotRising place) → IsNotRisingAt numbers.items place × (disk.new ≡ disk.old) }
        ensures not_rising_refused { (place : ℕ) → IsNotRisingAt numbers.items place → result ≡ Err (OwnersFault.NotRising place) }
        ensures no_journal { (place : ℕ) → result ≡ Err (OwnersFault.Open (OpenFault.NotAJournal place)) →
            IfSome (D.content disk.old) (λ bytes. IsNoJournalAt bytes place × IsAllOf bytes (D.content disk.new) (D.images disk.new)) }
        ensures bad_record { (number : ℕ) → result ≡ Err (OwnersFault.Open (OpenFault.BadRecord number)) → IfSome (D.content disk.old) (λ bytes. HasBadOwned numbers.items bytes number) }
        ensures no_journal_refused { IfSome (D.content disk.old) (λ bytes. (place : ℕ) → IsNoJournalAt bytes place →
            (IsErr result) × ((other : ℕ) → result ≡ Err (OwnersFault.Open (OpenFault.NotAJournal other)) → other ≡ place)) }
        ensures bad_record_refused { IfSome (D.content disk.old) (λ bytes. (number : ℕ) → HasBadOwned numbers.items bytes number →
            (IsErr result) × ((other : ℕ) → result ≡ Err (OwnersFault.Open (OpenFault.BadRecord other)) → other ≡ number)) }
        ensures accepted { IfSome (D.content disk.old) (λ bytes. (frames : List OwnedFrame) → AreOwnTaken numbers.items [] frames → Gives (records frames) bytes →
            (n : ℕ) → (result ≢ Err (OwnersFault.Open (OpenFault.NotAJournal n))) × (result ≢ Err (OwnersFault.Open (OpenFault.BadRecord n)))) }

        // The count of faults.
        ensures later { D.faults disk.old ≤ D.faults disk.new }
        ensures failed { IsErrOf result (OwnersFault.Open OpenFault.DiskFault) → Rose (D.faults disk.old) (D.faults disk.new) }
        ensures steady { result ≢ Err (OwnersFault.Open OpenFault.DiskFault) → D.faults disk.new ≡ D.faults disk.old }
    {
        if let Some(place) = first_not_rising(&numbers) {
            return Err(OwnersFault::NotRising(place));
        }
        match Self::open(alloc, numbers, servers, disk) {
            Ok(owners) => Ok(owners),
            Err(fault) => Err(OwnersFault::Open(fault)),
        }
    }

    /// The same for numbers that rise.
    fn open<D: Disk>(
        alloc: Global,
        numbers: Vec<u64>,
        servers: Vec<Server<T>>,
        disk: &mut D,
    ) -> Result<Owners<T>, OpenFault>
        requires some { 0 < length numbers.items }
        requires rising { IsStrictlyIncreasing numbers.items }
        requires first { map (λ server. server.state) servers.items ≡ states_of numbers.items [] }
        ensures started { IfOk result (λ owners. IfSome (D.content disk.old) (λ bytes. IsOwnersFrom bytes owners (D.content disk.new) (D.images disk.new))) }
        ensures fresh { IfOk result (λ owners. (owners.numbers ≡ numbers.items) × (owners.chosen ≡ 0) × (broken_by owners.journal ≡ None)) }
        ensures within { IfOk result (λ owners. IsWithin owners.journal (D.content disk.new)) }
        ensures any_moment { HasSynced D.content D.images D.moment D.left_since disk.old disk.new GivesAs
            ⊎ ((IsErr result) × LeavesOnly D.moment D.left_since disk.old disk.new (D.images disk.old)) }
        ensures no_journal { (place : ℕ) → result ≡ Err (OpenFault.NotAJournal place) →
            IfSome (D.content disk.old) (λ bytes. IsNoJournalAt bytes place × IsAllOf bytes (D.content disk.new) (D.images disk.new)) }
        ensures no_journal_refused { IfSome (D.content disk.old) (λ bytes. (place : ℕ) → IsNoJournalAt bytes place →
            (IsErr result) × ((other : ℕ) → result ≡ Err (OpenFault.NotAJournal other) → other ≡ place)) }
        ensures bad_record { (number : ℕ) → result ≡ Err (OpenFault.BadRecord number) → IfSome (D.content disk.old) (λ bytes. HasBadOwned numbers.items bytes number) }
        ensures bad_record_refused { IfSome (D.content disk.old) (λ bytes. (number : ℕ) → HasBadOwned numbers.items bytes number →
            (IsErr result) × ((other : ℕ) → result ≡ Err (OpenFault.BadRecord other) → other ≡ number)) }
        ensures accepted { IfSome (D.content disk.old) (λ bytes. (frames : List OwnedFrame) → AreOwnTaken numbers.items [] frames → Gives (records frames) bytes →
            (n : ℕ) → (result ≢ Err (OpenFault.NotAJournal n)) × (result ≢ Err (OpenFault.BadRecord n))) }
        ensures later { D.faults disk.old ≤ D.faults disk.new }
        ensures failed { IsErrOf result OpenFault.DiskFault → Rose (D.faults disk.old) (D.faults disk.new) }
        ensures steady { result ≢ Err OpenFault.DiskFault → D.faults disk.new ≡ D.faults disk.old }
    {
        let journal = match Journal::start(alloc, disk) {
            Ok(journal) => journal,
            Err(fault) => return Err(OpenFault::from(fault)),
        };
        let mut servers = servers;
        let mut spelled = Vec::new(alloc);
        match replay(&numbers, &mut servers, &journal, disk, &mut spelled) {
            Ok(()) => Ok(Owners {
                numbers,
                servers,
                chosen: 0,
                journal,
                spelled,
            }),
            Err(fault) => Err(fault),
        }
    }

    // Promise P255 (caller): Choosing picks the owner with this number, and exactly if none has it the choice stays and the answer says so.
    //   clauses: chosen, known, unknown, unchanged, others, within
    /// Chooses the owner with this number: the following frames are this owner's.
    ///
    /// `UnknownOwner` exactly if no owner has it; then nothing changes.
    pub fn choose(&mut self, owner: u64) -> Result<(), UnknownOwner>
        ensures chosen { OnOk result (chosen_owner self.new ≡ owner) }
        ensures known { OnOk result (Contains self.old.numbers owner) }
        ensures unknown { IsErr result ↔ (Contains self.old.numbers owner → ⊥) }
        ensures unchanged { OnErr result (self.new ≡ self.old) }
        ensures others { (self.new.numbers ≡ self.old.numbers) × (self.new.states ≡ self.old.states) × (self.new.journal ≡ self.old.journal) }
        ensures within { OnOk result (self.new.chosen < length self.new.numbers) }
    {
        match place_of(&self.numbers, owner) {
            Some(place) => {
                self.chosen = place;
                Ok(())
            }
            None => Err(UnknownOwner),
        }
    }

    // Promise P256 (caller): A frame is answered by the step of the chosen owner's server, and every other owner's server stays as it was.
    //   clauses: answered, others, long; assumes: earlier calls, sizes in bounds
    // Promise P257 (caller): Frames that owners' servers acknowledged last after every crash, each for its own owner, with at most one frame more.
    //   clauses: lasts; fields: IsOwnersOf.left; assumes: observable devices, disk model, earlier calls
    // Promise P258 (caller): A crash while an owner's frame is handled leaves the earlier frames of all owners, with the frame in hand or without it.
    //   clauses: any_moment; assumes: observable devices, disk model, earlier calls; not: A journal that is broken.
    // Promise P259 (caller): A frame that isn't taken leaves disk and journal as they were; after a refused append no owner's update is taken, and searches continue.
    //   clauses: journal, within_after, faults; assumes: earlier calls
    /// The answer of the chosen owner's server to a frame, as `Store::handle` gives it. An update frame that the server takes is
    /// in the journal, with the owner's number, before it is applied and acknowledged. Every other owner's server stays.
    ///
    /// `StoreFault` if the disk failed at the record of this update frame, or of an earlier one of any owner. `NoMemory` if memory
    /// ran out for an update frame, here or on the disk. After both the servers are as before, and a crash may leave the record
    /// or not.
    pub fn handle<K: Keyed, D: Disk>(
        &mut self,
        keyed: &K,
        disk: &mut D,
        frame: &Frame<'_>,
        page: &mut [u64],
    ) -> StoreAnswer
        requires grammar { InGrammar (frame_view frame.now) }
        requires sizes { HasSizes frame.now }
        requires within { IsWithin self.old.journal (D.content disk.old) }
        ensures answered { IsAnsweredBy (keyed_fn K.prf K.pad) (chosen_state self.old) (frame_view frame.now) result page.new (chosen_state self.new) }
        ensures others { StaysButChosen self.old self.new }
        ensures long { length page.new ≡ length page.old }

        // The journal: at each moment of the call, and after it.
        ensures lasts { (frames : List OwnedFrame) → IsOwnersOf frames self.old (D.content disk.old) (D.images disk.old) →
            IsOwnersOf (frames ++ taken_by (chosen_owner self.old) (frame_view frame.now) result) self.new (D.content disk.new) (D.images disk.new) }
        ensures any_moment { (frames : List OwnedFrame) → broken_by self.old.journal ≡ None → IsOwnersOf frames self.old (D.content disk.old) (D.images disk.old) →
            LeavesOnly D.moment D.left_since disk.old disk.new (GivesWithOrWithout (records frames) (record_of (owned (chosen_owner self.old) (frame_view frame.now)))) }
        ensures journal { KeepsJournal (chosen_state self.old) (frame_view frame.now) result self.old.journal self.new.journal disk.old disk.new }
        ensures within_after { IsWithin self.new.journal (D.content disk.new) }
        ensures faults { CountsFaults result self.old.journal (D.faults disk.old) (D.faults disk.new) }
    {
        match frame.update_number() {
            Some(_) => self.take(disk, frame),
            None => StoreAnswer::Answered(self.answer(keyed, frame, page)),
        }
    }

    /// Opens the whole way of a search at the chosen owner's server, as `Server::walk` does: the disk isn't touched, and no memory
    /// is taken.
    ///
    /// Errors: `OutOfPlace` before this owner's setup is whole; `BadList` if what stands under the token's labels is no list.
    pub fn walk<K: Keyed>(
        &self,
        keyed: &K,
        token: &Token,
        page: &mut [u64],
    ) -> Result<First, WalkFault>
        ensures out_of_place { (result ≡ Err WalkFault.OutOfPlace) ↔ (is_ready (chosen_state self.now).stage ≡ false) }
        ensures bad_list { result ≡ Err WalkFault.BadList → search_result (keyed_fn K.prf K.pad) (chosen_state self.now) token.now ≡ None }
        ensures first { IfOk result (λ first. search_result (keyed_fn K.prf K.pad) (chosen_state self.now) token.now ≡ Some (take first.count page.new ++ rest_of (keyed_fn K.prf K.pad) (contents_of (chosen_state self.now)) first.walk)) }
        ensures walk { IfOk result (λ first. IsWalk (keyed_fn K.prf K.pad) (contents_of (chosen_state self.now)) first.walk) }
        ensures room { IfOk result (λ first. first.count ≤ length page.new) }
        ensures full { IfOk result (λ first. first.walk.is_over ≡ false → first.count ≡ length page.new) }
        ensures ids { IfOk result (λ first. All (λ id. 0 < id) (take first.count page.new)) }
        ensures long { length page.new ≡ length page.old }
    {
        server_at(&self.servers, self.chosen).walk(keyed, token, page)
    }

    /// Hands out what a walk of the chosen owner's server gives next, as `Server::fill` does. Nothing was handled and no other
    /// owner was chosen since the walk began. The disk isn't touched, and no memory is taken.
    pub fn fill<K: Keyed>(&self, keyed: &K, walk: &mut Walk, page: &mut [u64]) -> usize
        requires walk { IsWalk (keyed_fn K.prf K.pad) (contents_of (chosen_state self.now)) walk.old }
        requires some { 0 < length page.old }
        ensures handed { rest_of (keyed_fn K.prf K.pad) (contents_of (chosen_state self.now)) walk.old ≡ take result page.new ++ rest_of (keyed_fn K.prf K.pad) (contents_of (chosen_state self.now)) walk.new }
        ensures walk { IsWalk (keyed_fn K.prf K.pad) (contents_of (chosen_state self.now)) walk.new }
        ensures room { result ≤ length page.new }
        ensures full { walk.new.is_over ≡ false → result ≡ length page.new }
        ensures ids { All (λ id. 0 < id) (take result page.new) }
        ensures long { length page.new ≡ length page.old }
    {
        server_at(&self.servers, self.chosen).fill(keyed, walk, page)
    }

    /// The answer of the chosen owner's server to a frame that is no update. Nothing changes.
    fn answer<K: Keyed>(&mut self, keyed: &K, frame: &Frame<'_>, page: &mut [u64]) -> Answer
        requires no_update { update_number (frame_view frame.now) ≡ None }
        requires grammar { InGrammar (frame_view frame.now) }
        ensures same { self.new ≡ self.old }
        ensures answered { IsAnsweredBy (keyed_fn K.prf K.pad) (chosen_state self.old) (frame_view frame.now) (StoreAnswer.Answered result) page.new (chosen_state self.old) }
        ensures not_taken { (q : ℕ) → result ≢ Answer.Took q }
        ensures long { length page.new ≡ length page.old }
    {
        answer_at(&mut self.servers, self.chosen, keyed, frame, page)
    }

    /// The answer of the chosen owner's server to an update frame.
    fn take<D: Disk>(&mut self, disk: &mut D, frame: &Frame<'_>) -> StoreAnswer
        requires update { IsSome (update_number (frame_view frame.now)) }
        requires grammar { InGrammar (frame_view frame.now) }
        requires sizes { HasSizes frame.now }
        requires within { IsWithin self.old.journal (D.content disk.old) }
        ensures answered { (f : KeyedFn) (page : List ℕ) → IsAnsweredBy f (chosen_state self.old) (frame_view frame.now) result page (chosen_state self.new) }
        ensures others { StaysButChosen self.old self.new }
        ensures lasts { (frames : List OwnedFrame) → IsOwnersOf frames self.old (D.content disk.old) (D.images disk.old) →
            IsOwnersOf (frames ++ taken_by (chosen_owner self.old) (frame_view frame.now) result) self.new (D.content disk.new) (D.images disk.new) }
        ensures any_moment { (frames : List OwnedFrame) → broken_by self.old.journal ≡ None → IsOwnersOf frames self.old (D.content disk.old) (D.images disk.old) →
            LeavesOnly D.moment D.left_since disk.old disk.new (GivesWithOrWithout (records frames) (record_of (owned (chosen_owner self.old) (frame_view frame.now)))) }
        ensures journal { KeepsJournal (chosen_state self.old) (frame_view frame.now) result self.old.journal self.new.journal disk.old disk.new }
        ensures within_after { IsWithin self.new.journal (D.content disk.new) }
        ensures faults { CountsFaults result self.old.journal (D.faults disk.old) (D.faults disk.new) }
    {
        let owner = number_at(&self.numbers, self.chosen);
        take_at(
            &mut self.servers,
            self.chosen,
            owner,
            &mut self.journal,
            &mut self.spelled,
            disk,
            frame,
        )
    }
}

/// The server at a place.
fn server_at<T: Tables>(servers: &[Server<T>], place: usize) -> &Server<T>
    requires { place < length servers.now }
    ensures { result.now.state ≡ get_or (map (λ server. server.state) servers.now) place at_first }
{
    &servers[place]
}
