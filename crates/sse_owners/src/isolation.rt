ghost use Rattle.std.specs.Prelude.{◌≡◌, ℕ, List, []};
ghost use Rattle.keyed_fn.specs.KeyedFn.{keyed_fn};
ghost use Rattle.server_core.specs.State.{ServerState, at_first};
ghost use Rattle.server_core.specs.Step.{steps};
ghost use Rattle.sse_owners.specs.Owned.{OwnedFrame, AreOwnTaken, frames_of, state_of};
ghost use Rattle.sse_owners.specs.Isolation.{replied, replies_to};

use keyed_fn::Keyed;

// Promise P250 (caller): What an owner is replied is what a server of its own would reply to its frames, whatever others send.
//   clauses: own, apart, replayed; not: Out of memory and faults of the disk, which all owners share; how long a reply takes; who sends an owner's number.
/// The law that many owners on one server are apart; it does nothing.
///
/// An owner is replied what the steps of a server make of this owner's frames only. So two lists of frames of many owners that
/// agree on an owner's frames bring this owner equal replies. And the server that a start gives an owner is what the steps of a
/// server that has taken nothing make of the owner's frames in the journal.
#[tactic(auto, using(crate::proofs::IsolationLaws::own_replies, crate::proofs::IsolationLaws::isolated, crate::proofs::IsolationLaws::replayed))]
pub fn owners_are_apart<K: Keyed>(_keyed: &K)
    ensures own { (servers : ℕ → ServerState) (owner : ℕ) (frames : List OwnedFrame) →
        replies_to owner (replied (keyed_fn K.prf K.pad) servers frames) ≡ (steps (keyed_fn K.prf K.pad) (servers owner) (frames_of owner frames)).1 }
    ensures apart { (servers others : ℕ → ServerState) (owner : ℕ) (frames other_frames : List OwnedFrame) → servers owner ≡ others owner → frames_of owner frames ≡ frames_of owner other_frames →
        replies_to owner (replied (keyed_fn K.prf K.pad) servers frames) ≡ replies_to owner (replied (keyed_fn K.prf K.pad) others other_frames) }
    ensures replayed { (numbers : List ℕ) (frames : List OwnedFrame) (owner : ℕ) → AreOwnTaken numbers [] frames →
        state_of owner frames ≡ (steps (keyed_fn K.prf K.pad) at_first (frames_of owner frames)).0 }
{}
