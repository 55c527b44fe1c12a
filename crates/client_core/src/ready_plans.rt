ghost use Rattle.std.specs.Prelude.{◌≡◌, ◌≢◌, ◌∷◌, ◌++◌, [], Err, IfErr, IfOk, IfSome, List, ℕ, map, true};
ghost use Rattle.std.specs.Result.{result_err};
ghost use Rattle.client_records.specs.Records.{update_record};
ghost use Rattle.client_registry.specs.Command.{Command as Meant, Add as adds, Delete as deletes};
ghost use Rattle.client_registry.specs.IdNumber.{id_number};
ghost use Rattle.client_registry.specs.Registered.{KeepsNumbers, Represents};
ghost use Rattle.client_registry.specs.Run.{Offsets, Run};
ghost use Rattle.client_registry.specs.Setup.{Setup};
ghost use Rattle.keyed_fn.specs.KeyedFn.{KeyedFn, keyed_fn};
ghost use Rattle.sse_frames.specs.Frames.{IsFrame, frame_bytes};
ghost use Rattle.client_core.specs.Owes.{Owes};
ghost use Rattle.client_core.specs.Payloads.{update_payload};
ghost use Rattle.client_core.specs.TakenViews.{first_number, frames_left, to_send};
ghost use Rattle.client_core.specs.StandsFor.{StandsFor, CanCommit, Fits, add_fault, add_refusal, comes_of_add, comes_of_delete, delete_fault, delete_refusal, frames_next, with_command};
ghost use Rattle.client_core.specs.Updates.{command_of_update};

use crate::behind::{Behind, Owed};
use crate::client::Client;
use crate::command_fault::CommandFault;
use crate::owed_update::OwedUpdate;
use crate::planned_update::PlannedUpdate;
use crate::ready::Ready;
use crate::update::Update;
use client_registry::{Doc, DocId, Registry};
use keyed_fn::Keyed;
use std::alloc::Global;
use word_keys::PreparedMaster;

impl Client<Ready> {
    // Promise P67 (caller): An addition or deletion is refused for its first cause; else the plan holds the one frame that the definitions give.
    //   clauses: key, stands, past, refused, fault, only, frame, grammar, command, commits; assumes: earlier calls, own keys; not: Out of memory may come, but never in place of a cause before
    //     the equal values. Which keys are kept.
    // Promise P68, also here; clauses: payload
    /// Plans an addition, and takes its memory. The frame is that of the definitions.
    ///
    /// Errors, the first that stands: `AlreadyLive(id)`; `CounterFull(position)`; `HistoryFull`; `LabelClash`, of two new
    /// entries; `NumberClash`; `NoMemory` may come in place of the last two, and of a plan. What the client stands for
    /// doesn't change, also after an error; `doc` is dropped then.
    pub fn plan_add<K: Keyed>(
        &mut self,
        alloc: Global,
        master: &PreparedMaster<'_, K>,
        doc: Doc,
    ) -> Result<PlannedUpdate, CommandFault>
        requires prepared { master.now ≡ self.old.key }
        ensures key { self.new.key ≡ self.old.key }
        ensures hash_keys { self.new.state.registry.keys ≡ self.old.state.registry.keys }
        ensures past { self.new.state.past ≡ self.old.state.past }
        ensures stands { (keys : ℕ → List ℕ) (o : Offsets) (run : Run) → keys o.epoch ≡ master.now → StandsFor (keyed_fn K.prf K.pad) keys o run self.old.state → StandsFor (keyed_fn K.prf K.pad) keys o run self.new.state }
        ensures refused { (keys : ℕ → List ℕ) (o : Offsets) (run : Run) → keys o.epoch ≡ master.now → StandsFor (keyed_fn K.prf K.pad) keys o run self.old.state → IfSome (add_refusal o run doc) (λ fault. result ≡ Err fault) }
        ensures fault { (keys : ℕ → List ℕ) (o : Offsets) (run : Run) → keys o.epoch ≡ master.now → StandsFor (keyed_fn K.prf K.pad) keys o run self.old.state → result ≢ Err CommandFault.NoMemory → result_err result ≡ add_fault (keyed_fn K.prf K.pad) keys o run doc }
        ensures only { (keys : ℕ → List ℕ) (o : Offsets) (run : Run) → keys o.epoch ≡ master.now → StandsFor (keyed_fn K.prf K.pad) keys o run self.old.state → IfErr result (λ fault. comes_of_add fault ≡ true) }
        ensures frame { (keys : ℕ → List ℕ) (o : Offsets) (run : Run) → keys o.epoch ≡ master.now → StandsFor (keyed_fn K.prf K.pad) keys o run self.old.state → IfOk result (λ planned. planned.frame ∷ [] ≡ map frame_bytes (frames_next (keyed_fn K.prf K.pad) keys o run (adds doc))) }
        ensures grammar { IfOk result (λ planned. IsFrame planned.frame) }
        ensures command { IfOk result (λ planned. command_of_update planned.update ≡ adds doc) }
        ensures payload { IfOk result (λ planned. update_payload planned ≡ update_record (adds doc)) }
        ensures commits { IfOk result (λ planned. CanCommit self.new.state planned) }
    {
        if let Some(fault) = self.state.add_refusal(&doc) {
            return Err(fault);
        }
        let (frame, words) = self.state.addition(alloc, master, &doc)?;
        Ok(PlannedUpdate {
            update: Update::Add(doc),
            words,
            frame,
            number: self.state.number(),
        })
    }

    // Promise P67, also here; clauses: key, stands, past, refused, fault, only, frame, grammar, command, commits
    // Promise P68, also here; clauses: payload
    /// Plans the deletion of the live document of this identifier, and takes its memory. The frame is that of the
    /// definitions.
    ///
    /// Errors, the first that stands: `UnknownDocument(id)`; `HistoryFull`; `NumberClash`; `NoMemory` may come in place of
    /// the last, and of a plan. What the client stands for doesn't change, also after an error.
    pub fn plan_delete<K: Keyed>(
        &mut self,
        alloc: Global,
        master: &PreparedMaster<'_, K>,
        id: DocId,
    ) -> Result<PlannedUpdate, CommandFault>
        requires prepared { master.now ≡ self.old.key }
        ensures key { self.new.key ≡ self.old.key }
        ensures hash_keys { self.new.state.registry.keys ≡ self.old.state.registry.keys }
        ensures past { self.new.state.past ≡ self.old.state.past }
        ensures stands { (keys : ℕ → List ℕ) (o : Offsets) (run : Run) → keys o.epoch ≡ master.now → StandsFor (keyed_fn K.prf K.pad) keys o run self.old.state → StandsFor (keyed_fn K.prf K.pad) keys o run self.new.state }
        ensures refused { (keys : ℕ → List ℕ) (o : Offsets) (run : Run) → keys o.epoch ≡ master.now → StandsFor (keyed_fn K.prf K.pad) keys o run self.old.state → IfSome (delete_refusal o run (id_number id)) (λ fault. result ≡ Err fault) }
        ensures fault { (keys : ℕ → List ℕ) (o : Offsets) (run : Run) → keys o.epoch ≡ master.now → StandsFor (keyed_fn K.prf K.pad) keys o run self.old.state → result ≢ Err CommandFault.NoMemory → result_err result ≡ delete_fault (keyed_fn K.prf K.pad) keys o run (id_number id) }
        ensures only { (keys : ℕ → List ℕ) (o : Offsets) (run : Run) → keys o.epoch ≡ master.now → StandsFor (keyed_fn K.prf K.pad) keys o run self.old.state → IfErr result (λ fault. comes_of_delete fault ≡ true) }
        ensures frame { (keys : ℕ → List ℕ) (o : Offsets) (run : Run) → keys o.epoch ≡ master.now → StandsFor (keyed_fn K.prf K.pad) keys o run self.old.state → IfOk result (λ planned. planned.frame ∷ [] ≡ map frame_bytes (frames_next (keyed_fn K.prf K.pad) keys o run (deletes (id_number id)))) }
        ensures grammar { IfOk result (λ planned. IsFrame planned.frame) }
        ensures command { IfOk result (λ planned. command_of_update planned.update ≡ deletes (id_number id)) }
        ensures payload { IfOk result (λ planned. update_payload planned ≡ update_record (deletes (id_number id))) }
        ensures commits { IfOk result (λ planned. CanCommit self.new.state planned) }
    {
        if let Some(fault) = self.state.delete_refusal(id) {
            return Err(fault);
        }
        let number = self.state.number();
        let frame = self.state.deletion(alloc, master, id)?;
        Ok(PlannedUpdate {
            update: Update::Delete(id),
            words: Vec::new(alloc),
            frame,
            number,
        })
    }

    // Promise P54, also here; clauses: owed, first
    // Promise P69, also here; clauses: key, stands, past, owed, first, owes
    /// Takes a plan that this client made, as it stands now, as done: from here on its frame is owed to the server. A plan
    /// that was made before another one was committed has no longer the number of the client's next frame. It takes no memory.
    pub fn commit(self, planned: PlannedUpdate) -> Client<Behind>
        requires { CanCommit self.state planned }
        ensures key { result.key ≡ self.key }
        ensures hash_keys { result.state.ready.registry.keys ≡ self.state.registry.keys }
        ensures past { result.state.ready.past ≡ self.state.past }
        ensures stands { (f : KeyedFn) (keys : ℕ → List ℕ) (o : Offsets) (run : Run) → StandsFor f keys o run self.state → StandsFor f keys o (with_command run (command_of_update planned.update)) result.state.ready }
        ensures owed { to_send result.state ≡ planned.frame ∷ [] }
        ensures first { first_number result.state ≡ planned.number }
        ensures owes { (f : KeyedFn) (keys : ℕ → List ℕ) (o : Offsets) (run : Run) → StandsFor f keys o run self.state → planned.frame ∷ [] ≡ map frame_bytes (frames_next f keys o run (command_of_update planned.update)) → Owes f keys o (with_command run (command_of_update planned.update)) 0 result.state }
    {
        let Client { key, state } = self;
        let Ready {
            mut registry,
            keys,
            frames,
            past,
        } = state;
        let PlannedUpdate {
            update,
            words,
            frame,
            number,
        } = planned;
        apply_to_registry(&mut registry, update, words.as_slice());
        let ready = Ready {
            registry,
            keys,
            frames: frames + 1,
            past,
        };
        let owed = Owed::Update(OwedUpdate { frame, number });
        Client {
            key,
            state: Behind { ready, owed },
        }
    }
}

/// Carries out an update for which there is memory; an added document's words have these numbers.
fn apply_to_registry(registry: &mut Registry, update: Update, numbers: &[u32])
    requires { Fits registry.old update numbers.now }
    ensures history { (s : Setup) (past : List Meant) → Represents registry.old s past → Represents registry.new s (past ++ command_of_update update ∷ []) }
    ensures words { KeepsNumbers registry.old registry.new }
    ensures hash_keys { registry.new.keys ≡ registry.old.keys }
{
    match update {
        Update::Add(doc) => registry.add_numbered(&doc, numbers),
        Update::Delete(id) => registry.delete(id).unwrap(),
    }
}
