ghost use Rattle.std.specs.Prelude.{◌≡◌, ◌-◌, ℕ, List};
ghost use Rattle.client_registry.specs.Run.{Epochs, History};
ghost use Rattle.keyed_fn.specs.KeyedFn.{keyed_fn};
ghost use Rattle.outside_memory_disk.specs.MemDisk.{next_call_of};
ghost use Rattle.sse_model.specs.Epochs.{key_in};
ghost use Rattle.world_model.specs.World.{Phase, Rests};
ghost use Rattle.world_disks.specs.Disks.{Holds};
ghost use Rattle.world_client.specs.Clients.{IsClientIn, IsResting};
ghost use Rattle.world_client.specs.Commanding.{IsDone};
ghost use Rattle.world_client.specs.Histories.{records_under};
ghost use Rattle.world_client.specs.declared.state.State.TheVariants as states;
ghost use Rattle.world_run.specs.Commands.{IsCame, change_of, wrapped};

use crate::command::Command;
use client_core::{Client, Fresh, Ready};
use keyed_fn::Keyed;
use outside_memory_disk::MemDisk;
use sse_journal::Journal;
use std::alloc::Global;
use word_keys::MasterKey;
use world_client::{Commanded, State, add, delete, renew, set_up};
use world_disks::Stop;

// Promise P324 (caller): A client in a world takes a command exactly where the store's rules accept it, and records it before its frames are owed.
//   clauses: came, counted; assumes: own keys, earlier calls; not: Out of memory may come in place of each, but never changes the client or its records.
/// Carries out a command of a client that waits for nothing, and counts the calls of its disk. `key` is the client's key.
pub fn carry_out<K: Keyed>(
    alloc: Global,
    keyed: &K,
    key: &[u8; 32],
    state: State,
    command: Command,
    journal: &mut Journal,
    disk: &mut MemDisk,
    stop: Option<Stop>,
) -> (Commanded<State>, u64)
    requires client { (first : List ℕ) × (h : History) × (phase : Phase (List ℕ)) × IsClientIn (keyed_fn K.prf K.pad) first h phase state × (key.now ≡ key_in first h) × Holds (records_under (keyed_fn K.prf K.pad) first h) journal.old disk.old }
    ensures came { (first : List ℕ) (h : History) (phase : Phase (List ℕ)) → IsClientIn (keyed_fn K.prf K.pad) first h phase state → key.now ≡ key_in first h →
        Holds (records_under (keyed_fn K.prf K.pad) first h) journal.old disk.old →
        IsCame (keyed_fn K.prf K.pad) first h phase (change_of command) stop result.0 result.1 journal.new disk.new }
    ensures counted { IsDone result.0 → result.1 ≡ next_call_of disk.new - next_call_of disk.old }
{
    match state {
        State::Greeting(client) => (Commanded::Refused(State::Greeting(client)), 0),
        State::Sending(client) => (Commanded::Refused(State::Sending(client)), 0),
        State::Asking(client, word) => (Commanded::Refused(State::Asking(client, word)), 0),
        State::Fresh(client) => of_fresh(alloc, keyed, client, command, journal, disk, stop),
        State::Resting(client) => of_resting(
            alloc, keyed, key, client, command, journal, disk, stop,
        ),
    }
}

/// The same of a client with no setup.
fn of_fresh<K: Keyed>(
    alloc: Global,
    keyed: &K,
    client: Client<Fresh>,
    command: Command,
    journal: &mut Journal,
    disk: &mut MemDisk,
    stop: Option<Stop>,
) -> (Commanded<State>, u64)
    requires holds { (payloads : List (List ℕ)) × Holds payloads journal.old disk.old }
    ensures came { (first : List ℕ) (h : History) (phase : Phase (List ℕ)) → IsClientIn (keyed_fn K.prf K.pad) first h phase (states.Fresh client) →
        Holds (records_under (keyed_fn K.prf K.pad) first h) journal.old disk.old →
        IsCame (keyed_fn K.prf K.pad) first h phase (change_of command) stop result.0 result.1 journal.new disk.new }
    ensures counted { IsDone result.0 → result.1 ≡ next_call_of disk.new - next_call_of disk.old }
{
    match command {
        Command::SetUp(docs, sizes) => {
            let (commanded, calls) = set_up(alloc, keyed, client, docs, sizes, journal, disk, stop);
            (as_fresh(commanded), calls)
        }
        Command::Add(_) => (Commanded::Refused(State::Fresh(client)), 0),
        Command::Delete(_) => (Commanded::Refused(State::Fresh(client)), 0),
        Command::Renew(_) => (Commanded::Refused(State::Fresh(client)), 0),
    }
}

/// How a command ended, of a client that had no setup before it.
fn as_fresh(commanded: Commanded<Client<Fresh>>) -> Commanded<State>
    ensures { result ≡ wrapped states.Fresh commanded }
{
    match commanded {
        Commanded::Done(client) => Commanded::Done(client),
        Commanded::Refused(client) => Commanded::Refused(State::Fresh(client)),
        Commanded::NoMemory(client) => Commanded::NoMemory(State::Fresh(client)),
        Commanded::Stopped => Commanded::Stopped,
        Commanded::Broken => Commanded::Broken,
    }
}

/// The same of a client that had nothing to send.
fn as_resting(commanded: Commanded<Client<Ready>>) -> Commanded<State>
    ensures { result ≡ wrapped states.Resting commanded }
{
    match commanded {
        Commanded::Done(client) => Commanded::Done(client),
        Commanded::Refused(client) => Commanded::Refused(State::Resting(client)),
        Commanded::NoMemory(client) => Commanded::NoMemory(State::Resting(client)),
        Commanded::Stopped => Commanded::Stopped,
        Commanded::Broken => Commanded::Broken,
    }
}

/// Carries out a command of a client that has nothing to send, and counts the calls of its disk.
fn of_resting<K: Keyed>(
    alloc: Global,
    keyed: &K,
    key: &[u8; 32],
    client: Client<Ready>,
    command: Command,
    journal: &mut Journal,
    disk: &mut MemDisk,
    stop: Option<Stop>,
) -> (Commanded<State>, u64)
    requires key { key.now ≡ client.key }
    requires holds { (payloads : List (List ℕ)) × Holds payloads journal.old disk.old }
    ensures came { (first : List ℕ) (h : History) (phase : Phase (List ℕ)) → IsClientIn (keyed_fn K.prf K.pad) first h phase (states.Resting client) →
        Holds (records_under (keyed_fn K.prf K.pad) first h) journal.old disk.old →
        IsCame (keyed_fn K.prf K.pad) first h phase (change_of command) stop result.0 result.1 journal.new disk.new }
    ensures counted { IsDone result.0 → result.1 ≡ next_call_of disk.new - next_call_of disk.old }
{
    match command {
        Command::SetUp(_, _) => (Commanded::Refused(State::Resting(client)), 0),
        Command::Add(doc) => {
            let master = MasterKey::new(*key).prepare(keyed);
            let (commanded, calls) = add(alloc, &master, client, doc, journal, disk, stop);
            (as_resting(commanded), calls)
        }
        Command::Delete(id) => {
            let master = MasterKey::new(*key).prepare(keyed);
            let (commanded, calls) = delete(alloc, &master, client, id, journal, disk, stop);
            (as_resting(commanded), calls)
        }
        Command::Renew(own) => {
            let (commanded, calls) = renew(
                alloc,
                keyed,
                client,
                MasterKey::new(own),
                journal,
                disk,
                stop,
            );
            (as_resting(commanded), calls)
        }
    }
}
