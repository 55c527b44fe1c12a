ghost use Rattle.std.specs.Prelude.{◌≡◌, ◌≢◌, ◌∷◌, List, [], ℕ, length, map, None, Err, IfErr, IfOk, IfSome, IsOkUnless};
ghost use Rattle.client_records.specs.Records.{setup_record};
ghost use Rattle.client_registry.specs.Acceptance.{blocks_of, padded_blocks, padded_words, size_refusal};
ghost use Rattle.client_registry.specs.Documents.{words_of};
ghost use Rattle.client_registry.specs.Run.{at_first};
ghost use Rattle.client_registry.specs.Setup.{setup_with};
ghost use Rattle.keyed_fn.specs.KeyedFn.{KeyedFn, keyed_fn};
ghost use Rattle.keyed_fn.specs.KeyFormulas.{mark_of};
ghost use Rattle.std.specs.List.{AllByRecursion};
ghost use Rattle.sse_frames.specs.Frames.{IsFrame, frame_bytes};
ghost use Rattle.sse_model.specs.Names.{table};
ghost use Rattle.sse_model.specs.Wire.{frames_of_setup};
ghost use Rattle.index_setup.specs.Entries.{key_table};
ghost use Rattle.index_setup.specs.Refused.{build_refusal, clash_refusal, refused_by_size};
ghost use Rattle.client_core.specs.Owes.{Owes};
ghost use Rattle.client_core.specs.Payloads.{setup_payload};
ghost use Rattle.client_core.specs.Plans.{without_docs};
ghost use Rattle.client_core.specs.TakenViews.{first_number, frames_left, to_send};
ghost use Rattle.client_core.specs.Setup.{SendsSetup};
ghost use Rattle.client_core.specs.StandsFor.{StandsFor};

use crate::behind::{Behind, Owed};
use crate::client::Client;
use crate::owed_setup::OwedSetup;
use crate::planned::{Planned, first_marks, frame_buffer, past_of};
use crate::ready::Ready;
use crate::setup_frames::frame_count;
use client_registry::{Docs, Sizes};
use index_setup::{BuildFault, build};
use keyed_fn::Keyed;
use std::alloc::Global;
use word_keys::MasterKey;

/// The state of a client with no setup.
#[derive(Clone, Copy)]
pub struct Fresh;

impl Client<Fresh> {
    /// A client with this master key and no setup.
    pub fn fresh(key: MasterKey) -> Client<Fresh>
        ensures { result.key ≡ key }
    {
        Client { key, state: Fresh }
    }

    // Promise P49, also here; clauses: refused, own_words, own_blocks
    // Promise P51, also here; clauses: clash, built, accepted
    // Promise P53 (caller): A planned setup's frames are the defined ones for its documents and key, in the grammar and numbered from 0.
    //   clauses: frames, grammar, sends, refused, clash, built, accepted
    // Promise P68 (caller): Every plan yields its command's journal record, of 1 to 2^27 bytes; out of memory leaves the bytes as they were.
    //   clauses: payload, mark; assumes: own keys, earlier calls, kept limits; not: That the record is kept: P12 says it of the run.
    /// Plans the setup of these documents with these parameters, and takes its memory: the frames are those of `sse_model` for
    /// this setup under the client's key, numbered from 0, and its record has that key's mark. Errors: as
    /// `index_setup::build`, and the documents come back as they were.
    pub fn plan_setup<K: Keyed>(
        &self,
        alloc: Global,
        keyed: &K,
        docs: Docs,
        sizes: Sizes,
    ) -> Result<Planned, (BuildFault, Docs)>
        ensures refused { IfSome (size_refusal (setup_with docs.documents sizes.b sizes.big sizes.pad)) (λ fault. without_docs result ≡ Err (refused_by_size fault)) }
        ensures clash { size_refusal (setup_with docs.documents sizes.b sizes.big sizes.pad) ≡ None → without_docs result ≢ Err BuildFault.NoMemory → IfSome (clash_refusal (keyed_fn K.prf K.pad) self.now.key (setup_with docs.documents sizes.b sizes.big sizes.pad)) (λ fault. without_docs result ≡ Err fault) }
        ensures built { build_refusal (keyed_fn K.prf K.pad) self.now.key (setup_with docs.documents sizes.b sizes.big sizes.pad) ≡ None → IsOkUnless (without_docs result) BuildFault.NoMemory }
        ensures accepted { IfOk result (λ _. build_refusal (keyed_fn K.prf K.pad) self.now.key (setup_with docs.documents sizes.b sizes.big sizes.pad) ≡ None) }
        ensures frames { IfOk result (λ planned. planned.frames ≡ map frame_bytes (frames_of_setup (key_table (keyed_fn K.prf K.pad) self.now.key (setup_with docs.documents sizes.b sizes.big sizes.pad)) at_first (setup_with docs.documents sizes.b sizes.big sizes.pad))) }
        ensures grammar { IfOk result (λ planned. AllByRecursion IsFrame (planned.frames)) }
        ensures payload { IfOk result (λ planned. setup_payload planned ≡ setup_record (mark_of (keyed_fn K.prf K.pad) self.now.key) (setup_with docs.documents sizes.b sizes.big sizes.pad)) }
        ensures mark { IfOk result (λ planned. planned.mark ≡ mark_of (keyed_fn K.prf K.pad) self.now.key) }
        ensures kept { IfErr result (λ refused. refused.1 ≡ docs) }
        ensures documents { IfOk result (λ planned. planned.docs ≡ docs) }
        ensures shape { IfOk result (λ planned. (planned.b ≡ sizes.b) × (planned.big ≡ sizes.big)) }
        ensures pad { IfOk result (λ planned. planned.pad ≡ sizes.pad) }
        ensures own_words { IfOk result (λ planned. planned.own_words ≡ length (words_of docs.documents)) }
        ensures own_blocks { IfOk result (λ planned. planned.own_blocks ≡ blocks_of (setup_with docs.documents sizes.b sizes.big sizes.pad)) }
        ensures sends { IfOk result (λ planned. SendsSetup sizes.b sizes.big (padded_words (setup_with docs.documents sizes.b sizes.big sizes.pad)) (padded_blocks (setup_with docs.documents sizes.b sizes.big sizes.pad)) (planned.frames)) }
    {
        let index = match build(alloc, keyed, &self.key, &docs, sizes) {
            Ok(index) => index,
            Err(fault) => return Err((fault, docs)),
        };
        let room = match frame_buffer(alloc) {
            Ok(room) => room,
            Err(_) => return Err((BuildFault::NoMemory, docs)),
        };
        let mark = self.key.prepare(keyed).mark();
        let marks = match first_marks(alloc, mark) {
            Ok(marks) => marks,
            Err(_) => return Err((BuildFault::NoMemory, docs)),
        };
        Ok(Planned::new(mark, marks, docs, index, room))
    }

    // Promise P54 (caller): A client sends its plan's frames in order; only the acknowledgement of a frame's number takes it off, else the client stops.
    //   clauses: owed, first; assumes: earlier calls
    // Promise P69 (caller): After a commit the client stands for the history with the plan's command and has exactly its frames to send, without taking memory.
    //   clauses: key, stands, marks, owed, first, owes; assumes: earlier calls
    /// Takes the plan as done: from here on its frames are owed to the server. It takes no memory.
    pub fn commit(self, alloc: Global, planned: Planned) -> Client<Behind>
        ensures key { result.key ≡ self.key }
        ensures hash_keys { result.state.ready.registry.keys ≡ planned.docs.keys }
        ensures stands { (f : KeyedFn) (keys : ℕ → List ℕ) → StandsFor f keys at_first (record { setup = setup_with planned.docs.documents planned.b planned.big planned.pad; later = [] }) result.state.ready }
        ensures marks { result.state.ready.past.marks.items ≡ planned.mark ∷ [] }
        ensures frames { frames_left result.state ≡ length (planned.frames) }
        ensures owed { to_send result.state ≡ planned.frames }
        ensures first { first_number result.state ≡ 0 }
        ensures owes { (f : KeyedFn) (keys : ℕ → List ℕ) → planned.frames ≡ map frame_bytes (frames_of_setup (table f (setup_with planned.docs.documents planned.b planned.big planned.pad).shape keys) at_first (setup_with planned.docs.documents planned.b planned.big planned.pad)) → Owes f keys at_first (record { setup = setup_with planned.docs.documents planned.b planned.big planned.pad; later = [] }) 0 result.state }
    {
        let Client { key, state: _ } = self;
        let Planned {
            mark: _,
            marks,
            docs,
            index,
            room,
        } = planned;
        let past = past_of(marks, &index);
        let ready = Ready::begun(alloc, docs, frame_count(&index), past);
        let owed = Owed::Setup(OwedSetup::at(index, room, 0, 0));
        Client {
            key,
            state: Behind { ready, owed },
        }
    }
}
