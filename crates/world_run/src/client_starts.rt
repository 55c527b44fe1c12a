ghost use Rattle.std.specs.Prelude.{◌≡◌, ℕ, Bool, List, None};
ghost use Rattle.keyed_fn.specs.KeyedFn.{KeyedFn, keyed_fn};
ghost use Rattle.client_registry.specs.Run.{History};
ghost use Rattle.sse_model.specs.Epochs.{key_in};
ghost use Rattle.world_disks.specs.Disks.{Holds};
ghost use Rattle.world_model.specs.Events.{Made, StartClient, left};
ghost use Rattle.world_rules.specs.Changes.{history_of};
ghost use Rattle.world_rules.specs.Promises.{StoreWorld};
ghost use Rattle.world_client.specs.Clients.{IsGreeting};
ghost use Rattle.world_client.specs.Histories.{records_under};
ghost use Rattle.world_client.specs.Starting.{IsLastKey};
ghost use Rattle.world_server.specs.Sides.{stop_in};
ghost use Rattle.sse_world.specs.Reached.{IsReached};
ghost use Rattle.sse_world.specs.Stands.{IsWaiting};
ghost use Rattle.world_run.specs.Sides.{ClientPart, IsClient, LeadsClient, client_part, halted};
ghost use Rattle.world_run.specs.Starting.{AreOfClient, IsStartOf, outcome_of_failure, starting};

use crate::client_side::ClientSide;
use crate::running::Running;
use keyed_fn::Keyed;
use sse_world::Outcome;
use std::alloc::{AllocError, Global};
use word_keys::MasterKey;
use world_client::{StartedClient, State, start_client};
use world_disks::{Unstarted, crash};
use world_server::{Replies, after_failure, later};

impl ClientSide {
    // Promise P310, also here; clauses: leads
    /// The client starts from its disk; one that runs stops first. Without memory it doesn't run, and its disk's records stay.
    pub fn start<K: Keyed>(
        &mut self,
        alloc: Global,
        keyed: &K,
        waiting: &mut Option<Replies>,
    ) -> Outcome
        requires world { (first : List ℕ) × (w : StoreWorld) × IsReached (keyed_fn K.prf K.pad) first w × IsClient (keyed_fn K.prf K.pad) first (client_part w) self.old.running self.old.disk self.old.stop self.old.key self.old.other }
        ensures leads { (first : List ℕ) (w : StoreWorld) → IsReached (keyed_fn K.prf K.pad) first w → IsClient (keyed_fn K.prf K.pad) first (client_part w) self.old.running self.old.disk self.old.stop self.old.key self.old.other → IsWaiting w.waiting waiting.old →
            LeadsClient (keyed_fn K.prf K.pad) first w StartClient result self.new.running self.new.disk self.new.stop self.new.key self.new.other waiting.new }
    {
        *waiting = None;
        if self.halt().is_err() {
            return Outcome::NoMemory;
        }
        self.start_halted(alloc, keyed)
    }

    /// Stops a client that runs, before it is started; one that doesn't run stays as it is. Without memory for the image that the stop
    /// leaves the disk stays.
    fn halt(&mut self) -> Result<(), AllocError>
        ensures halts { (f : KeyedFn) (first : List ℕ) (part : ClientPart) → IsClient f first part self.old.running self.old.disk self.old.stop self.old.key self.old.other →
            IsClient f first (halted part) self.new.running self.new.disk self.new.stop self.new.key self.new.other }
        ensures running { self.new.running ≡ None }
    {
        if self.running.is_none() {
            return Ok(());
        }
        self.running = None;
        self.stop = None;
        crash(&mut self.disk, 0)
    }

    /// A client that doesn't run starts from its disk.
    fn start_halted<K: Keyed>(&mut self, alloc: Global, keyed: &K) -> Outcome
        requires none { self.old.running ≡ None }
        requires part { (first : List ℕ) × (part : ClientPart) × AreOfClient (keyed_fn K.prf K.pad) first part × IsClient (keyed_fn K.prf K.pad) first part self.old.running self.old.disk self.old.stop self.old.key self.old.other }
        ensures starts { (first : List ℕ) (part : ClientPart) → AreOfClient (keyed_fn K.prf K.pad) first part → IsClient (keyed_fn K.prf K.pad) first part self.old.running self.old.disk self.old.stop self.old.key self.old.other →
            IsStartOf (keyed_fn K.prf K.pad) first part result self.new.running self.new.disk self.new.stop self.new.key self.new.other }
    {
        let (started, calls) = start_client(
            alloc,
            keyed,
            MasterKey::new(self.key),
            as_key(self.other),
            &mut self.disk,
            self.stop,
        );
        match started {
            Ok(made) => {
                self.runs(made, calls);
                Outcome::Done
            }
            Err(why) => {
                self.stop = after_failure(self.stop, calls, why);
                outcome_of(why)
            }
        }
    }

    /// A client that was started runs, under the last key of its records; after that no other key is left.
    fn runs(&mut self, made: StartedClient, calls: u64)
        ensures runs { (f : KeyedFn) (first : List ℕ) (part : ClientPart) (there : Bool) → part.stop ≡ stop_in self.old.stop → IsGreeting f first (history_of (left there part.disk).records) made.client →
            Holds (records_under f first (history_of (left there part.disk).records)) made.journal self.old.disk → IsLastKey first (history_of (left there part.disk).records) self.old.key self.old.other made.under_other →
            IsClient f first (starting part calls (Made there)) self.new.running self.new.disk self.new.stop self.new.key self.new.other }
    {
        self.stop = later(self.stop, calls);
        self.key = last_key(self.key, self.other, made.under_other);
        self.other = None;
        self.running = Some(Running {
            state: State::Greeting(made.client),
            journal: made.journal,
            waits: false,
        });
    }
}

/// The key that a started client was made under: the other, if it tells so.
fn last_key(key: [u8; 32], other: Option<[u8; 32]>, under_other: bool) -> [u8; 32]
    ensures { (first : List ℕ) (h : History) → IsLastKey first h key other under_other → result ≡ key_in first h }
{
    match other {
        Some(other) => { if under_other { other } else { key } }
        None => key,
    }
}

/// The master key of these bytes, where they are there.
fn as_key(bytes: Option<[u8; 32]>) -> Option<MasterKey>
    ensures { result ≡ bytes }
{
    match bytes {
        Some(bytes) => Some(MasterKey::new(bytes)),
        None => None,
    }
}

/// What a start that failed comes to.
fn outcome_of(why: Unstarted) -> Outcome
    ensures { result ≡ outcome_of_failure why }
{
    match why {
        Unstarted::Stopped => Outcome::Done,
        Unstarted::Broken => Outcome::NoMemory,
    }
}
