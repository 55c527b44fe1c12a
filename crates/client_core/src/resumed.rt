ghost use Rattle.std.specs.Prelude.{◌≡◌, ◌+◌, ◌≤◌, List, ℕ, IfOk};
ghost use Rattle.std.specs.List.{AllByRecursion};
ghost use Rattle.client_registry.specs.Registered.{facts};
ghost use Rattle.client_registry.specs.Run.{Offsets, Run};
ghost use Rattle.client_rebuild.specs.Recalls.{facts_of_last, frames_of_last, hash_keys_of};
ghost use Rattle.keyed_fn.specs.KeyedFn.{KeyedFn, keyed_fn};
ghost use Rattle.client_core.specs.Restores.{Remembers};
ghost use Rattle.client_core.specs.Resumes.{Lacks, Resumes, first_recorded, frames_owed, resumed_hash_keys, resumed_marks};
ghost use Rattle.client_core.specs.StandsFor.{StandsFor};
ghost use Rattle.sse_frames.specs.Frames.{IsFrame};

use crate::behind::Behind;
use crate::client::Client;
use crate::ready::Ready;
use crate::recorded::Recorded;
use crate::recorded_plans::{first_frame, replan};
use crate::resume_fault::ResumeFault;
use client_rebuild::Last;
use client_registry::Registry;
use keyed_fn::Keyed;
use std::alloc::{AllocError, Global};
use word_keys::MasterKey;

/// A client that goes on.
#[derive(Drop)]
pub enum Resumed {
    /// The server lacks no frame.
    Ready(Client<Ready>),
    /// It lacks some of the last command's.
    Behind(Client<Behind>),
}

impl Client<Recorded> {
    // Promise P120, also here; clauses: lacks, within
    /// How many frames a server lacks that expects the update frame of this number. It takes no memory.
    ///
    /// Errors: `PeerElsewhere { low, high, got }` exactly where that is none of the numbers from the first frame of the last
    /// command to the one behind its last.
    pub fn lacks(&self, next: u32) -> Result<u32, ResumeFault>
        ensures lacks { (f : KeyedFn) (key : List ℕ) (o : Offsets) (run : Run) → Remembers o run self.now.state → Lacks f key o run next result }
        ensures within { IfOk result (λ left. (first_recorded self.now.state.last ≤ next) × (next + left ≡ frames_of_last self.now.state.last)) }
    {
        let state = &self.state;
        let last = &state.last;
        let low = first_frame(last);
        let high = last.frames();
        if next < low || high < next {
            return Err(ResumeFault::PeerElsewhere {
                low,
                high,
                got: next,
            });
        }
        Ok(high - next)
    }

    // Promise P120, also here; clauses: resumes, marks, hash_keys, grammar
    /// Goes on with a server that expects the update frame of this number: the client of the whole history where it lacks no
    /// frame; else the last command is planned again, and its frames from that one on are owed to the server.
    ///
    /// Errors: `PeerElsewhere { low, high, got }` as `lacks`; else, where a frame is lacking, `LabelClash`, `PlaceClash` or
    /// `NumberClash` as the command's plan would answer; `NoMemory`, which may come in place of these three, and of a client.
    /// After an error the client is gone: its records are in the journal.
    pub fn resume<K: Keyed>(
        self,
        alloc: Global,
        keyed: &K,
        next: u32,
    ) -> Result<Resumed, ResumeFault>
        ensures resumes { (o : Offsets) (run : Run) → Remembers o run self.state → Resumes (keyed_fn K.prf K.pad) self.key o run next result }
        ensures grammar { IfOk result (λ client. AllByRecursion IsFrame (frames_owed client)) }
        ensures marks { IfOk result (λ client. resumed_marks client ≡ self.state.past.marks.items) }
        ensures hash_keys { IfOk result (λ client. resumed_hash_keys client ≡ hash_keys_of self.state.last) }
    {
        let left = self.lacks(next)?;
        let Client { key, state } = self;
        if left == 0 {
            return Ok(Resumed::Ready(whole(alloc, key, state)?));
        }
        Ok(Resumed::Behind(replan(alloc, keyed, key, state, next)?))
    }
}

/// The client of the whole last epoch.
fn whole(alloc: Global, key: MasterKey, state: Recorded) -> Result<Client<Ready>, AllocError>
    ensures key { IfOk result (λ client. client.key ≡ key) }
    ensures stands { (f : KeyedFn) (keys : ℕ → List ℕ) (o : Offsets) (run : Run) → Remembers o run state → IfOk result (λ client. StandsFor f keys o run client.state) }
    ensures marks { IfOk result (λ client. client.state.past.marks ≡ state.past.marks) }
    ensures hash_keys { IfOk result (λ client. client.state.registry.keys ≡ hash_keys_of state.last) }
{
    let Recorded { last, past } = state;
    let frames = last.frames();
    let registry = registry_of(last)?;
    Ok(Client {
        key,
        state: Ready::of_registry(alloc, registry, frames, past),
    })
}

/// The registry of the whole last epoch.
fn registry_of(last: Last) -> Result<Registry, AllocError>
    ensures facts { IfOk result (λ registry. facts registry ≡ facts_of_last last) }
    ensures keys { IfOk result (λ registry. registry.keys ≡ hash_keys_of last) }
{
    match last {
        Last::Setup(setup) => Ok(Registry::from_docs(setup.docs)),
        Last::Update(update) => update.carried_out(),
    }
}
