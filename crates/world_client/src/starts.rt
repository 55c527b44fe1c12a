ghost use Rattle.std.specs.Prelude.{◌≡◌, ◌-◌, ℕ, Bool, List, Err, IfOk, IfSome, OnOk};
ghost use Rattle.client_registry.specs.Run.{History};
ghost use Rattle.keyed_fn.specs.KeyedFn.{keyed_fn};
ghost use Rattle.outside_memory_disk.specs.MemDisk.{next_call_of};
ghost use Rattle.sse_model.specs.Epochs.{key_in};
ghost use Rattle.world_model.specs.World.{Disk as Model};
ghost use Rattle.world_model.specs.Events.{left};
ghost use Rattle.world_disks.specs.Disks.{Holds, IsDiskOf};
ghost use Rattle.world_client.specs.Clients.{IsGreeting};
ghost use Rattle.world_client.specs.Histories.{IsOfClient, records_under};
ghost use Rattle.world_client.specs.Starting.{HasKey, IsDiskOfClient, IsLastKey, IsMadeUnder, IsStartedOf, IsUnder};

use client_core::Restored;
use client_journal::rebuild;
use keyed_fn::Keyed;
use outside_memory_disk::MemDisk;
use script_run_texts::JournalStop;
use sse_journal::Journal;
use std::alloc::Global;
use word_keys::MasterKey;
use world_disks::{Met, Stop, Unstarted, start_counted, stop_if_met};

/// A client that was started.
#[derive(Drop)]
pub struct StartedClient {
    pub client: Restored,
    pub journal: Journal,
    /// Whether the other key is its records' last one, and not the first.
    pub under_other: bool,
}

/// Why no client is made of records.
#[derive(Clone, Copy, Debug, PartialEq, Eq)]
enum Unmade {
    /// Their last key is another.
    WrongKey,
    /// A call of the disk failed, or there was no memory.
    Failed,
}

/// The client of a journal's records under this key.
fn under<K: Keyed>(
    alloc: Global,
    keyed: &K,
    key: MasterKey,
    journal: &Journal,
    disk: &mut MemDisk,
) -> Result<Restored, Unmade>
    requires records { (first : List ℕ) × (h : History) × IsOfClient (keyed_fn K.prf K.pad) first h × Holds (records_under (keyed_fn K.prf K.pad) first h) journal.now disk.old }
    ensures made { (first : List ℕ) (h : History) → IsOfClient (keyed_fn K.prf K.pad) first h → Holds (records_under (keyed_fn K.prf K.pad) first h) journal.now disk.old →
        IfOk result (IsMadeUnder (keyed_fn K.prf K.pad) first h key) }
    ensures wrong { result ≡ Err Unmade.WrongKey → (first : List ℕ) (h : History) → IsOfClient (keyed_fn K.prf K.pad) first h → Holds (records_under (keyed_fn K.prf K.pad) first h) journal.now disk.old →
        IsUnder (keyed_fn K.prf K.pad) first h key → ⊥ }
    ensures holds { (payloads : List (List ℕ)) → Holds payloads journal.now disk.old → Holds payloads journal.now disk.new }
    ensures disk { (model : Model (List ℕ)) → IsDiskOf model disk.old → IsDiskOf model disk.new }
{
    match rebuild(alloc, keyed, key, journal, disk) {
        Ok(rebuilt) => Ok(Restored::of(rebuilt)),
        Err(stop) => match stop {
            JournalStop::WrongKey => Err(Unmade::WrongKey),
            JournalStop::Disk => Err(Unmade::Failed),
            JournalStop::Memory => Err(Unmade::Failed),
            JournalStop::NoJournal => unreachable!(),
            JournalStop::HasRecords => unreachable!(),
            JournalStop::BadRecord(_) => unreachable!(),
        },
    }
}

/// The client of a journal's records under this key, or under the other where that is their last one, and whether it is; nothing
/// where a call of the disk failed or there was no memory.
fn restored<K: Keyed>(
    alloc: Global,
    keyed: &K,
    key: MasterKey,
    other: Option<MasterKey>,
    journal: &Journal,
    disk: &mut MemDisk,
) -> Option<(Restored, bool)>
    requires records { (first : List ℕ) × (h : History) × IsOfClient (keyed_fn K.prf K.pad) first h × HasKey (keyed_fn K.prf K.pad) first h key other × Holds (records_under (keyed_fn K.prf K.pad) first h) journal.now disk.old }
    ensures restored { (first : List ℕ) (h : History) → IsOfClient (keyed_fn K.prf K.pad) first h → HasKey (keyed_fn K.prf K.pad) first h key other → Holds (records_under (keyed_fn K.prf K.pad) first h) journal.now disk.old →
        IfSome result (λ made. IsGreeting (keyed_fn K.prf K.pad) first h made.0 × IsLastKey first h key other made.1) }
    ensures holds { (payloads : List (List ℕ)) → Holds payloads journal.now disk.old → Holds payloads journal.now disk.new }
    ensures disk { (model : Model (List ℕ)) → IsDiskOf model disk.old → IsDiskOf model disk.new }
{
    match under(alloc, keyed, key, journal, disk) {
        Ok(client) => Some((client, false)),
        Err(unmade) => match unmade {
            Unmade::Failed => None,
            Unmade::WrongKey => match other {
                Some(key) => match under_last(alloc, keyed, key, journal, disk) {
                    Some(client) => Some((client, true)),
                    None => None,
                },
                None => unreachable!(),
            },
        },
    }
}

/// The client of a journal's records under their last key; nothing where a call of the disk failed or there was no memory.
fn under_last<K: Keyed>(
    alloc: Global,
    keyed: &K,
    key: MasterKey,
    journal: &Journal,
    disk: &mut MemDisk,
) -> Option<Restored>
    requires records { (first : List ℕ) × (h : History) × IsOfClient (keyed_fn K.prf K.pad) first h × (key ≡ key_in first h) × Holds (records_under (keyed_fn K.prf K.pad) first h) journal.now disk.old }
    ensures restored { (first : List ℕ) (h : History) → IsOfClient (keyed_fn K.prf K.pad) first h → key ≡ key_in first h → Holds (records_under (keyed_fn K.prf K.pad) first h) journal.now disk.old →
        IfSome result (IsGreeting (keyed_fn K.prf K.pad) first h) }
    ensures holds { (payloads : List (List ℕ)) → Holds payloads journal.now disk.old → Holds payloads journal.now disk.new }
    ensures disk { (model : Model (List ℕ)) → IsDiskOf model disk.old → IsDiskOf model disk.new }
{
    match under(alloc, keyed, key, journal, disk) {
        Ok(client) => Some(client),
        Err(unmade) => match unmade {
            Unmade::Failed => None,
            Unmade::WrongKey => unreachable!(),
        },
    }
}

/// The same, and the journal.
fn with_journal<K: Keyed>(
    alloc: Global,
    keyed: &K,
    key: MasterKey,
    other: Option<MasterKey>,
    journal: Journal,
    disk: &mut MemDisk,
) -> Option<StartedClient>
    requires records { (first : List ℕ) × (h : History) × IsOfClient (keyed_fn K.prf K.pad) first h × HasKey (keyed_fn K.prf K.pad) first h key other × Holds (records_under (keyed_fn K.prf K.pad) first h) journal disk.old }
    ensures made { (first : List ℕ) (h : History) → IsOfClient (keyed_fn K.prf K.pad) first h → HasKey (keyed_fn K.prf K.pad) first h key other → Holds (records_under (keyed_fn K.prf K.pad) first h) journal disk.old →
        IfSome result (λ made. IsGreeting (keyed_fn K.prf K.pad) first h made.client × Holds (records_under (keyed_fn K.prf K.pad) first h) made.journal disk.new × IsLastKey first h key other made.under_other) }
    ensures disk { (model : Model (List ℕ)) → IsDiskOf model disk.old → IsDiskOf model disk.new }
{
    match restored(alloc, keyed, key, other, &journal, disk) {
        Some((client, under_other)) => Some(StartedClient {
            client,
            journal,
            under_other,
        }),
        None => None,
    }
}

/// Starts the journal of a disk, and makes the client of its records; nothing where that isn't done.
fn restart<K: Keyed>(
    alloc: Global,
    keyed: &K,
    key: MasterKey,
    other: Option<MasterKey>,
    disk: &mut MemDisk,
) -> Option<StartedClient>
    requires records { (first : List ℕ) × (histories : Bool → History) × (model : Model (List ℕ)) × IsDiskOfClient (keyed_fn K.prf K.pad) first histories key other model × IsDiskOf model disk.old }
    ensures made { (first : List ℕ) (histories : Bool → History) (model : Model (List ℕ)) → IsDiskOfClient (keyed_fn K.prf K.pad) first histories key other model → IsDiskOf model disk.old →
        (there : Bool) × IfSome result (λ made. IsGreeting (keyed_fn K.prf K.pad) first (histories there) made.client × Holds (left there model).records made.journal disk.new × IsLastKey first (histories there) key other made.under_other) }
    ensures disk { (model : Model (List ℕ)) → IsDiskOf model disk.old → IsDiskOf model disk.new }
{
    let (started, _) = start_counted(alloc, disk);
    match started {
        Some(journal) => with_journal(alloc, keyed, key, other, journal, disk),
        None => None,
    }
}

// Promise P310 (caller): A client that starts in a world is that of the records its disk gave, the one in doubt with them or not.
//   clauses: started, counted; assumes: own keys, kept limits; not: Out of memory may come in its place, and leaves the disk's records.
/// Starts a client from its disk, which may stop inside a call, and counts the calls of the disk. The last key of its records is this
/// one or the other, where the record of a renewal is in doubt; the client tells which.
pub fn start_client<K: Keyed>(
    alloc: Global,
    keyed: &K,
    key: MasterKey,
    other: Option<MasterKey>,
    disk: &mut MemDisk,
    stop: Option<Stop>,
) -> (Result<StartedClient, Unstarted>, u64)
    requires records { (first : List ℕ) × (histories : Bool → History) × (model : Model (List ℕ)) × IsDiskOfClient (keyed_fn K.prf K.pad) first histories key other model × IsDiskOf model disk.old }
    ensures started { (first : List ℕ) (histories : Bool → History) (model : Model (List ℕ)) → IsDiskOfClient (keyed_fn K.prf K.pad) first histories key other model → IsDiskOf model disk.old →
        IsStartedOf (keyed_fn K.prf K.pad) first histories key other model stop result.0 result.1 disk.new }
    ensures counted { OnOk result.0 (result.1 ≡ next_call_of disk.new - next_call_of disk.old) }
{
    let before = disk.calls();
    let started = restart(alloc, keyed, key, other, disk);
    let calls = disk.calls().saturating_sub(before);
    match stop_if_met(disk, stop, calls) {
        Met::Yes => (Err(Unstarted::Stopped), calls),
        Met::NoMemory => (Err(Unstarted::Broken), calls),
        Met::No => match started {
            Some(made) => (Ok(made), calls),
            None => (Err(Unstarted::Broken), calls),
        },
    }
}
