ghost use Rattle.std.specs.Prelude.{◌≡◌, ◌≢◌, ◌⊎◌, ◌+◌, ◌≤◌, ◌<◌, ℕ, List, [], ◌∷◌, ◌++◌, length, map, get_or, slice_set, None, Some, IsSome, IfSome};
ghost use Rattle.keyed_fn.specs.KeyedFn.{KeyedFn, keyed_fn};
ghost use Rattle.sse_outside.specs.Causes.{Rose};
ghost use Rattle.sse_frames.specs.Frames.{InGrammar, update_number};
ghost use Rattle.sse_frames.specs.FrameViews.{frame_view};
ghost use Rattle.sse_frames.specs.Sizes.{HasSizes};
ghost use Rattle.sse_journal.specs.AnyMoment.{LeavesOnly};
ghost use Rattle.sse_journal.specs.Files.{GivesWithOrWithout};
ghost use Rattle.sse_journal.specs.JournalView.{records_of, broken_by, IsJournalOf};
ghost use Rattle.server_core.specs.Refusal.{refusal};
ghost use Rattle.server_core.specs.State.{ServerState, at_first};
ghost use Rattle.server_core.specs.Step.{taken};
ghost use Rattle.server_core.specs.Views.{HasBegun, HasRange};
ghost use Rattle.sse_server.specs.Answers.{IfAnswered, fault_answer, store_replies};
ghost use Rattle.sse_server.specs.StoreView.{IsWithin};
ghost use Rattle.sse_server.specs.Taken.{IsTaken};
ghost use Rattle.sse_owners.specs.Handled.{IsAnsweredBy, KeepsJournal, CountsFaults};
ghost use Rattle.sse_owners.specs.Owned.{owned, record_of};

use crate::owned_record::keep;
use keyed_fn::Keyed;
use server_core::{Answer, Server};
use server_tables::Tables;
use sse_frames::Frame;
use sse_journal::Journal;
use sse_outside::{DeviceFault, Disk};
use sse_server::StoreAnswer;

/// The answer of the server at a place to an update frame of its owner. The others stay.
pub(crate) fn take_at<T: Tables, D: Disk>(
    servers: &mut [Server<T>],
    place: usize,
    owner: u64,
    journal: &mut Journal,
    spelled: &mut Vec<u8>,
    disk: &mut D,
    frame: &Frame<'_>,
) -> StoreAnswer
    requires place { place < length servers.old }
    requires update { IsSome (update_number (frame_view frame.now)) }
    requires grammar { InGrammar (frame_view frame.now) }
    requires sizes { HasSizes frame.now }
    requires within { IsWithin journal.old (D.content disk.old) }
    ensures states { map (λ server. server.state) servers.new ≡ slice_set (map (λ server. server.state) servers.old) place (get_or (map (λ server. server.state) servers.new) place at_first) }
    ensures answered { (f : KeyedFn) (page : List ℕ) → IsAnsweredBy f (get_or (map (λ server. server.state) servers.old) place at_first) (frame_view frame.now) result page (get_or (map (λ server. server.state) servers.new) place at_first) }
    ensures took { (q : ℕ) → result ≡ StoreAnswer.Answered (Answer.Took q) → IsTaken (get_or (map (λ server. server.state) servers.old) place at_first) (frame_view frame.now) }
    ensures kept { ((q : ℕ) → result ≢ StoreAnswer.Answered (Answer.Took q)) → map (λ server. server.state) servers.new ≡ map (λ server. server.state) servers.old }

    // The journal: at each moment of the call, and after it.
    ensures added { (q : ℕ) → result ≡ StoreAnswer.Answered (Answer.Took q) → (payloads : List (List ℕ)) → IsJournalOf payloads journal.old (D.content disk.old) (D.images disk.old) →
        IsJournalOf (payloads ++ record_of (owned owner (frame_view frame.now)) ∷ []) journal.new (D.content disk.new) (D.images disk.new) }
    ensures any_moment { (payloads : List (List ℕ)) → broken_by journal.old ≡ None → IsJournalOf payloads journal.old (D.content disk.old) (D.images disk.old) →
        LeavesOnly D.moment D.left_since disk.old disk.new (GivesWithOrWithout payloads (record_of (owned owner (frame_view frame.now)))) }
    ensures stays { (payloads : List (List ℕ)) → broken_by journal.new ≡ None → ((q : ℕ) → result ≢ StoreAnswer.Answered (Answer.Took q)) → IsJournalOf payloads journal.old (D.content disk.old) (D.images disk.old) →
        IsJournalOf payloads journal.new (D.content disk.new) (D.images disk.new) }
    ensures journal { KeepsJournal (get_or (map (λ server. server.state) servers.old) place at_first) (frame_view frame.now) result journal.old journal.new disk.old disk.new }
    ensures within_after { IsWithin journal.new (D.content disk.new) }
    ensures faults { CountsFaults result journal.old (D.faults disk.old) (D.faults disk.new) }
{
    let server = &mut servers[place];
    take(server, journal, spelled, disk, owner, frame)
}

/// The answer of an owner's server to an update frame, whose record goes into the journal of all.
fn take<T: Tables, D: Disk>(
    server: &mut Server<T>,
    journal: &mut Journal,
    spelled: &mut Vec<u8>,
    disk: &mut D,
    owner: u64,
    frame: &Frame<'_>,
) -> StoreAnswer
    requires update { IsSome (update_number (frame_view frame.now)) }
    requires grammar { InGrammar (frame_view frame.now) }
    requires sizes { HasSizes frame.now }
    requires within { IsWithin journal.old (D.content disk.old) }
    ensures refused { IfSome (refusal server.old.state (frame_view frame.now)) (λ reply. (server.new.state ≡ server.old.state) × (journal.new ≡ journal.old) × (disk.new ≡ disk.old) ×
        ((f : KeyedFn) (s : ServerState) (page : List ℕ) → store_replies f s result page ≡ reply ∷ [])) }
    ensures taken { refusal server.old.state (frame_view frame.now) ≡ None → result ≢ StoreAnswer.Answered Answer.NoMemory → result ≢ StoreAnswer.StoreFault →
        (server.new.state ≡ taken server.old.state (frame_view frame.now)) × (Some server.old.state.next ≡ update_number (frame_view frame.now)) × (result ≡ StoreAnswer.Answered (Answer.Took server.old.state.next)) }
    ensures no_memory { result ≡ StoreAnswer.Answered Answer.NoMemory → (server.new.state ≡ server.old.state) × IsTaken server.old.state (frame_view frame.now) }
    ensures store_fault { result ≡ StoreAnswer.StoreFault → (server.new.state ≡ server.old.state) × IsTaken server.old.state (frame_view frame.now) }
    ensures took { (q : ℕ) → result ≡ StoreAnswer.Answered (Answer.Took q) → IsTaken server.old.state (frame_view frame.now) }
    ensures kept { ((q : ℕ) → result ≢ StoreAnswer.Answered (Answer.Took q)) → server.new.state ≡ server.old.state }
    ensures no_search { IfAnswered result (λ answer. (f : KeyedFn) (s : ServerState) (page : List ℕ) → HasBegun f s answer page) }
    ensures range { IfAnswered result (λ answer. HasRange answer) }

    // The journal: at each moment of the call, and after it.
    ensures added { (q : ℕ) → result ≡ StoreAnswer.Answered (Answer.Took q) → (payloads : List (List ℕ)) → IsJournalOf payloads journal.old (D.content disk.old) (D.images disk.old) →
        IsJournalOf (payloads ++ record_of (owned owner (frame_view frame.now)) ∷ []) journal.new (D.content disk.new) (D.images disk.new) }
    ensures any_moment { (payloads : List (List ℕ)) → broken_by journal.old ≡ None → IsJournalOf payloads journal.old (D.content disk.old) (D.images disk.old) →
        LeavesOnly D.moment D.left_since disk.old disk.new (GivesWithOrWithout payloads (record_of (owned owner (frame_view frame.now)))) }
    ensures stays { (payloads : List (List ℕ)) → broken_by journal.new ≡ None → ((q : ℕ) → result ≢ StoreAnswer.Answered (Answer.Took q)) → IsJournalOf payloads journal.old (D.content disk.old) (D.images disk.old) →
        IsJournalOf payloads journal.new (D.content disk.new) (D.images disk.new) }
    ensures counted { (q : ℕ) → result ≡ StoreAnswer.Answered (Answer.Took q) → records_of journal.new ≡ records_of journal.old + 1 }
    ensures within_after { IsWithin journal.new (D.content disk.new) }

    // Whether it is broken.
    ensures whole { (q : ℕ) → result ≡ StoreAnswer.Answered (Answer.Took q) → (broken_by journal.old ≡ None) × (broken_by journal.new ≡ None) }
    ensures broken { IsSome (broken_by journal.old) → (disk.new ≡ disk.old) × (journal.new ≡ journal.old) × (server.new.state ≡ server.old.state) }
    ensures stays_broken { IfSome (broken_by journal.old) (λ why. IsTaken server.old.state (frame_view frame.now) →
        (result ≡ fault_answer why) ⊎ (result ≡ StoreAnswer.Answered Answer.NoMemory)) }
    ensures breaks { broken_by journal.old ≡ None → IfSome (broken_by journal.new) (λ why. result ≡ fault_answer why) }
    ensures failed_breaks { result ≡ StoreAnswer.StoreFault → broken_by journal.new ≡ Some DeviceFault.Failed }

    // The count of faults.
    ensures later { D.faults disk.old ≤ D.faults disk.new }
    ensures failed { result ≡ StoreAnswer.StoreFault → broken_by journal.old ≡ None → Rose (D.faults disk.old) (D.faults disk.new) }
    ensures steady { result ≢ StoreAnswer.StoreFault → D.faults disk.new ≡ D.faults disk.old }
{
    let q = server.next();
    if let Err(refuse) = server.prepare(frame) {
        return StoreAnswer::Answered(Answer::from(refuse));
    }
    match keep(journal, spelled, disk, owner, frame) {
        Ok(()) => {
            server.apply(frame);
            StoreAnswer::Answered(Answer::Took(q))
        }
        Err(fault) => StoreAnswer::from(fault),
    }
}

/// The answer of the server at a place to a frame that is no update. All servers stay.
pub(crate) fn answer_at<T: Tables, K: Keyed>(
    servers: &mut [Server<T>],
    place: usize,
    keyed: &K,
    frame: &Frame<'_>,
    page: &mut [u64],
) -> Answer
    requires place { place < length servers.old }
    requires no_update { update_number (frame_view frame.now) ≡ None }
    requires grammar { InGrammar (frame_view frame.now) }
    ensures states { map (λ server. server.state) servers.new ≡ map (λ server. server.state) servers.old }
    ensures answered { IsAnsweredBy (keyed_fn K.prf K.pad) (get_or (map (λ server. server.state) servers.old) place at_first) (frame_view frame.now) (StoreAnswer.Answered result) page.new (get_or (map (λ server. server.state) servers.old) place at_first) }
    ensures not_taken { (q : ℕ) → result ≢ Answer.Took q }
    ensures long { length page.new ≡ length page.old }
{
    let server = &mut servers[place];
    answer_of(server, keyed, frame, page)
}

/// The answer of a server to a frame that is no update.
fn answer_of<T: Tables, K: Keyed>(
    server: &mut Server<T>,
    keyed: &K,
    frame: &Frame<'_>,
    page: &mut [u64],
) -> Answer
    requires no_update { update_number (frame_view frame.now) ≡ None }
    requires grammar { InGrammar (frame_view frame.now) }
    ensures state { server.new.state ≡ server.old.state }
    ensures answered { IsAnsweredBy (keyed_fn K.prf K.pad) server.old.state (frame_view frame.now) (StoreAnswer.Answered result) page.new server.new.state }
    ensures not_taken { (q : ℕ) → result ≢ Answer.Took q }
    ensures long { length page.new ≡ length page.old }
{
    server.handle(keyed, frame, page)
}
