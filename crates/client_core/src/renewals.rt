ghost use Rattle.std.specs.Prelude.{◌≡◌, ◌≢◌, ◌+◌, ◌<◌, ◌^◌, Err, IfOk, IfSome, IsSome, List, ℕ, None, Some, length, map};
ghost use Rattle.std.specs.Option.{option_or};
ghost use Rattle.std.specs.Result.{result_err};
ghost use Rattle.client_registry.specs.Acceptance.{blocks_of, frames_needed, size_refusal};
ghost use Rattle.client_registry.specs.Documents.{words_of};
ghost use Rattle.client_registry.specs.Epochs.{setup_renewed};
ghost use Rattle.client_registry.specs.Run.{Offsets, Run};
ghost use Rattle.client_registry.specs.Setup.{setup_with};
ghost use Rattle.client_renewal.specs.Refusals.{key_refusal, live_refusal};
ghost use Rattle.index_setup.specs.Entries.{key_table};
ghost use Rattle.keyed_fn.specs.KeyedFn.{KeyedFn, keyed_fn};
ghost use Rattle.keyed_fn.specs.KeyFormulas.{mark_of};
ghost use Rattle.sse_frames.specs.Frames.{frame_bytes};
ghost use Rattle.sse_model.specs.Names.{table};
ghost use Rattle.sse_model.specs.Wire.{frames_of_setup};
ghost use Rattle.client_core.specs.Owes.{Owes};
ghost use Rattle.client_core.specs.Renewals.{alone, fault_of_build, planned_setup, renewal_fault, values_refusal, IsOfDocs, IsRenewalPlan, IsRenewed, Renews};
ghost use Rattle.client_core.specs.StandsFor.{StandsFor};

use crate::behind::{Behind, Owed};
use crate::client::Client;
use crate::owed_setup::OwedSetup;
use crate::planned::{frame_buffer, past_of};
use crate::planned_renewal::PlannedRenewal;
use crate::ready::Ready;
use crate::setup_frames::frame_count;
use client_registry::{Docs, Sizes};
use client_renewal::{RenewalFault, renewed_docs};
use index_setup::{BuildFault, build};
use keyed_fn::Keyed;
use std::alloc::Global;
use word_keys::MasterKey;

impl Client<Ready> {
    // Promise P209 (caller): A renewal of the key is planned as the frames of the live documents' setup under the new key, or refused for its first cause.
    //   clauses: refused, fault, plan, renews; assumes: own keys, earlier calls, kept limits; not: That its record is kept and its frames are sent.
    // Promise P68, also here; clauses: plan
    /// Plans the renewal of the key by this one, and takes its memory. What is live is set up again under the new key, by
    /// rising identifier and with the parameters of the epochs before; the frames are those of the definitions, numbered after
    /// all that the client planned before.
    ///
    /// Errors, the first that applies: `KeyUsed(epoch)`; `TooManyDocuments(count)`; `TooManyPairs(count)`;
    /// `ListTooLong { word, n }`; `TooManyBytes(count)`; `HistoryFull`; `LabelClash`; `PlaceClash`. `NoMemory` may come in
    /// place of a plan and of any but the first three.
    pub fn plan_renewal<K: Keyed>(
        &self,
        alloc: Global,
        keyed: &K,
        key: &MasterKey,
    ) -> Result<PlannedRenewal, RenewalFault>
        ensures refused { (keys : ℕ → List ℕ) (o : Offsets) (run : Run) → StandsFor (keyed_fn K.prf K.pad) keys o run self.now.state → IfSome (option_or (key_refusal self.now.state.past.marks.items (mark_of (keyed_fn K.prf K.pad) key.now)) (live_refusal (setup_renewed run).documents)) (λ fault. result ≡ Err fault) }
        ensures fault { (keys : ℕ → List ℕ) (o : Offsets) (run : Run) → StandsFor (keyed_fn K.prf K.pad) keys o run self.now.state → result ≢ Err RenewalFault.NoMemory → result_err result ≡ renewal_fault (keyed_fn K.prf K.pad) key.now self.now.state.past.marks.items o run }
        ensures plan { IfOk result (IsRenewalPlan (keyed_fn K.prf K.pad) key.now self.now.state) }
        ensures renews { (keys : ℕ → List ℕ) (o : Offsets) (run : Run) → StandsFor (keyed_fn K.prf K.pad) keys o run self.now.state → IfOk result (Renews (keyed_fn K.prf K.pad) key.now o run) }
    {
        let master = key.prepare(keyed);
        let mark = master.mark();
        let hash_keys = master.hash_keys();
        let state = &self.state;
        let past = &state.past;
        let docs = match renewed_docs(
            alloc,
            &state.registry,
            hash_keys,
            &mark,
            past,
            state.frames,
        ) {
            Ok(docs) => docs,
            Err(fault) => return Err(fault),
        };
        let marks = past.marks_with(alloc, mark)?;
        plan_of_docs(
            alloc,
            keyed,
            key,
            mark,
            marks,
            docs,
            past.sizes(),
            state.frames,
        )
    }

    // Promise P54, also here; clauses: renewed
    // Promise P69, also here; clauses: key, renewed, stands, owes
    /// Takes the plan as done: from here on this is the key, and the frames of the plan are owed to the server. It takes no
    /// memory.
    pub fn commit_renewal(
        self,
        alloc: Global,
        key: MasterKey,
        planned: PlannedRenewal,
    ) -> Client<Behind>
        ensures key { result.key ≡ key }
        ensures renewed { IsRenewed planned result.state }
        ensures stands { (f : KeyedFn) (keys : ℕ → List ℕ) (o : Offsets) → o.frame ≡ planned.number → StandsFor f keys o (alone (planned_setup planned)) result.state.ready }
        ensures owes { (f : KeyedFn) (keys : ℕ → List ℕ) (o : Offsets) → o.frame ≡ planned.number → planned.frames ≡ map frame_bytes (frames_of_setup (table f (planned_setup planned).shape keys) o (planned_setup planned)) → Owes f keys o (alone (planned_setup planned)) 0 result.state }
    {
        renewed(alloc, key, planned)
    }
}

/// A client of this key that owes all frames of the plan to the server. It takes no memory.
pub(crate) fn renewed(alloc: Global, key: MasterKey, planned: PlannedRenewal) -> Client<Behind>
    ensures key { result.key ≡ key }
    ensures renewed { IsRenewed planned result.state }
    ensures stands { (f : KeyedFn) (keys : ℕ → List ℕ) (o : Offsets) → o.frame ≡ planned.number → StandsFor f keys o (alone (planned_setup planned)) result.state.ready }
    ensures owes { (f : KeyedFn) (keys : ℕ → List ℕ) (o : Offsets) → o.frame ≡ planned.number → planned.frames ≡ map frame_bytes (frames_of_setup (table f (planned_setup planned).shape keys) o (planned_setup planned)) → Owes f keys o (alone (planned_setup planned)) 0 result.state }
{
    let PlannedRenewal {
        mark: _,
        marks,
        docs,
        index,
        room,
        number,
    } = planned;
    let past = past_of(marks, &index);
    let ready = Ready::begun(alloc, docs, number + frame_count(&index), past);
    let owed = Owed::Setup(OwedSetup::at(index, room, 0, number));
    Client {
        key,
        state: Behind { ready, owed },
    }
}

/// The plan of a setup of these documents under this key, of accepted size, after so many update frames. Errors: `LabelClash`,
/// `PlaceClash`, `NoMemory`.
pub(crate) fn plan_of_docs<K: Keyed>(
    alloc: Global,
    keyed: &K,
    key: &MasterKey,
    mark: [u8; 16],
    marks: Vec<[u8; 16]>,
    docs: Docs,
    sizes: Sizes,
    number: u32,
) -> Result<PlannedRenewal, RenewalFault>
    requires accepted { size_refusal (setup_with docs.documents sizes.b sizes.big sizes.pad) ≡ None }
    requires numbers { number + frames_needed (setup_with docs.documents sizes.b sizes.big sizes.pad) < 2 ^ 32 }
    ensures fault { (epoch : ℕ) → result ≢ Err RenewalFault.NoMemory → result_err result ≡ values_refusal (keyed_fn K.prf K.pad) key.now epoch (setup_with docs.documents sizes.b sizes.big sizes.pad) }
    ensures frames { (o : Offsets) → o.frame ≡ number → IfOk result (λ planned. planned.frames ≡ map frame_bytes (frames_of_setup (key_table (keyed_fn K.prf K.pad) key.now (setup_with docs.documents sizes.b sizes.big sizes.pad)) o (setup_with docs.documents sizes.b sizes.big sizes.pad))) }
    ensures plan { IfOk result (IsOfDocs mark marks.items docs (setup_with docs.documents sizes.b sizes.big sizes.pad) number) }
{
    let index = match build(alloc, keyed, key, &docs, sizes) {
        Ok(index) => index,
        Err(fault) => return Err(of_build(fault)),
    };
    let room = frame_buffer(alloc)?;
    Ok(PlannedRenewal::new(mark, marks, docs, index, room, number))
}

/// The fault of a setup of accepted size.
fn of_build(fault: BuildFault) -> RenewalFault
    requires { IsSome (fault_of_build fault) }
    ensures { fault_of_build fault ≡ Some result }
{
    match fault {
        BuildFault::LabelClash { first, second } => RenewalFault::LabelClash { first, second },
        BuildFault::PlaceClash { first, second } => RenewalFault::PlaceClash { first, second },
        BuildFault::NoMemory => RenewalFault::NoMemory,
        BuildFault::BadParameter { .. }
        | BuildFault::ListTooLong { .. }
        | BuildFault::TooManyBytes(_) => unreachable!(),
    }
}
