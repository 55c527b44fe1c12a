ghost use Rattle.std.specs.Prelude.{◌≡◌, ◌-◌, [], ◌∷◌, ℕ, List, None, Some, Option, map};
ghost use Rattle.client_core.specs.Payloads.{update_payload};
ghost use Rattle.client_core.specs.Renewals.{alone, renewal_fault};
ghost use Rattle.client_core.specs.StandsFor.{CanCommit, add_fault, delete_fault, frames_next};
ghost use Rattle.client_core.specs.Updates.{command_of_update};
ghost use Rattle.client_core.specs.declared.command_fault.CommandFault.{CommandFault};
ghost use Rattle.client_records.specs.Records.{renewal_record, setup_record, update_record};
ghost use Rattle.client_registry.specs.Command.{Add as adds, Delete as deletes};
ghost use Rattle.client_registry.specs.Epochs.{begins, key_now, with_commands, with_renewal};
ghost use Rattle.client_registry.specs.Histories.{frames_in};
ghost use Rattle.client_registry.specs.IdNumber.{id_number};
ghost use Rattle.client_registry.specs.Run.{Epochs, From, at_first, last_run};
ghost use Rattle.client_registry.specs.Setup.{setup_with};
ghost use Rattle.index_setup.specs.Refused.{build_refusal};
ghost use Rattle.keyed_fn.specs.KeyFormulas.{mark_of};
ghost use Rattle.keyed_fn.specs.KeyedFn.{KeyedFn, keyed_fn};
ghost use Rattle.outside_memory_disk.specs.MemDisk.{next_call_of};
ghost use Rattle.sse_frames.specs.Frames.{frame_bytes};
ghost use Rattle.world_disks.specs.Disks.{Holds};
ghost use Rattle.world_client.specs.Clients.{IsResting, IsSending};
ghost use Rattle.world_client.specs.Commanding.{IsCommanded, IsDone};
ghost use Rattle.world_client.specs.Histories.{key_marks};

use crate::commanded::Commanded;
use crate::records::{append_renewal, append_setup, append_update};
use client_core::{Client, CommandFault, Fresh, PlannedUpdate, Ready, SetupFault};
use client_registry::{Doc, DocId, Docs, Sizes};
use client_renewal::RenewalFault;
use keyed_fn::Keyed;
use outside_memory_disk::MemDisk;
use sse_journal::Journal;
use std::alloc::Global;
use word_keys::{MasterKey, PreparedMaster};
use world_disks::{Appended, Stop};

// Promise P309 (caller): A client's command in a world is refused for its fault, or recorded before its frames are owed; a stop leaves its record or not.
//   clauses: commanded, counted; assumes: own keys, earlier calls; not: Out of memory may come in place of each, but never changes the client or its records.
/// Sets up these documents: the plan, its record, and then the commit.
pub fn set_up<K: Keyed>(
    alloc: Global,
    keyed: &K,
    client: Client<Fresh>,
    docs: Docs,
    sizes: Sizes,
    journal: &mut Journal,
    disk: &mut MemDisk,
    stop: Option<Stop>,
) -> (Commanded<Client<Fresh>>, u64)
    requires holds { (payloads : List (List ℕ)) × Holds payloads journal.old disk.old }
    ensures commanded { (payloads : List (List ℕ)) → Holds payloads journal.old disk.old →
        IsCommanded (λ before. before.key ≡ client.key) (IsSending (keyed_fn K.prf K.pad) client.key (From at_first (alone (setup_with docs.documents sizes.b sizes.big sizes.pad))) 0)
        (build_refusal (keyed_fn K.prf K.pad) client.key (setup_with docs.documents sizes.b sizes.big sizes.pad))
        payloads (setup_record (mark_of (keyed_fn K.prf K.pad) client.key) (setup_with docs.documents sizes.b sizes.big sizes.pad)) stop result.0 result.1 journal.new disk.new }
    ensures counted { IsDone result.0 → result.1 ≡ next_call_of disk.new - next_call_of disk.old }
{
    match client.plan_setup(alloc, keyed, docs, sizes) {
        Ok(planned) => {
            let (appended, calls) = append_setup(alloc, &planned, journal, disk, stop);
            match appended {
                Appended::Made => (Commanded::Done(client.commit(alloc, planned)), calls),
                Appended::Stopped => (Commanded::Stopped, calls),
                Appended::NoMemory => (Commanded::NoMemory(client), calls),
                Appended::Broken => (Commanded::Broken, calls),
            }
        }
        Err((fault, docs)) => {
            drop(docs);
            match fault {
                SetupFault::NoMemory => (Commanded::NoMemory(client), 0),
                _ => (Commanded::Refused(client), 0),
            }
        }
    }
}

// Promise P309, also here; clauses: commanded, counted
/// Adds a document: the plan, its record, and then the commit.
pub fn add<K: Keyed>(
    alloc: Global,
    master: &PreparedMaster<'_, K>,
    client: Client<Ready>,
    doc: Doc,
    journal: &mut Journal,
    disk: &mut MemDisk,
    stop: Option<Stop>,
) -> (Commanded<Client<Ready>>, u64)
    requires prepared { master.now ≡ client.key }
    requires holds { (payloads : List (List ℕ)) × Holds payloads journal.old disk.old }
    ensures commanded { (first : List ℕ) (es : Epochs) (payloads : List (List ℕ)) → IsResting (keyed_fn K.prf K.pad) first es client → Holds payloads journal.old disk.old →
        IsCommanded (IsResting (keyed_fn K.prf K.pad) first es) (IsSending (keyed_fn K.prf K.pad) first (with_commands (adds doc ∷ []) es) (frames_in (Some es)))
        (add_fault (keyed_fn K.prf K.pad) (λ epoch. key_now first es) (begins es) (last_run es) doc)
        payloads (update_record (adds doc)) stop result.0 result.1 journal.new disk.new }
    ensures counted { IsDone result.0 → result.1 ≡ next_call_of disk.new - next_call_of disk.old }
{
    let mut client = client;
    match client.plan_add(alloc, master, doc) {
        Ok(planned) => carry_out(alloc, client, planned, journal, disk, stop),
        Err(fault) => match fault {
            CommandFault::NoMemory => (Commanded::NoMemory(client), 0),
            _ => (Commanded::Refused(client), 0),
        },
    }
}

// Promise P309, also here; clauses: commanded, counted
/// Deletes a document: the plan, its record, and then the commit.
pub fn delete<K: Keyed>(
    alloc: Global,
    master: &PreparedMaster<'_, K>,
    client: Client<Ready>,
    id: DocId,
    journal: &mut Journal,
    disk: &mut MemDisk,
    stop: Option<Stop>,
) -> (Commanded<Client<Ready>>, u64)
    requires prepared { master.now ≡ client.key }
    requires holds { (payloads : List (List ℕ)) × Holds payloads journal.old disk.old }
    ensures commanded { (first : List ℕ) (es : Epochs) (payloads : List (List ℕ)) → IsResting (keyed_fn K.prf K.pad) first es client → Holds payloads journal.old disk.old →
        IsCommanded (IsResting (keyed_fn K.prf K.pad) first es) (IsSending (keyed_fn K.prf K.pad) first (with_commands (deletes (id_number id) ∷ []) es) (frames_in (Some es)))
        (delete_fault (keyed_fn K.prf K.pad) (λ epoch. key_now first es) (begins es) (last_run es) (id_number id))
        payloads (update_record (deletes (id_number id))) stop result.0 result.1 journal.new disk.new }
    ensures counted { IsDone result.0 → result.1 ≡ next_call_of disk.new - next_call_of disk.old }
{
    let mut client = client;
    match client.plan_delete(alloc, master, id) {
        Ok(planned) => carry_out(alloc, client, planned, journal, disk, stop),
        Err(fault) => match fault {
            CommandFault::NoMemory => (Commanded::NoMemory(client), 0),
            _ => (Commanded::Refused(client), 0),
        },
    }
}

/// Records a planned update, and takes it as done.
fn carry_out(
    alloc: Global,
    client: Client<Ready>,
    planned: PlannedUpdate,
    journal: &mut Journal,
    disk: &mut MemDisk,
    stop: Option<Stop>,
) -> (Commanded<Client<Ready>>, u64)
    requires commits { CanCommit client.state planned }
    requires holds { (payloads : List (List ℕ)) × Holds payloads journal.old disk.old }
    ensures commanded { (f : KeyedFn) (first : List ℕ) (es : Epochs) (payloads : List (List ℕ)) (fault : Option CommandFault) → fault ≡ None → IsResting f first es client →
        planned.frame ∷ [] ≡ map frame_bytes (frames_next f (λ epoch. key_now first es) (begins es) (last_run es) (command_of_update planned.update)) → Holds payloads journal.old disk.old →
        IsCommanded (IsResting f first es) (IsSending f first (with_commands (command_of_update planned.update ∷ []) es) (frames_in (Some es)))
        fault payloads (update_payload planned) stop result.0 result.1 journal.new disk.new }
    ensures counted { IsDone result.0 → result.1 ≡ next_call_of disk.new - next_call_of disk.old }
{
    let (appended, calls) = append_update(alloc, &planned, journal, disk, stop);
    match appended {
        Appended::Made => (Commanded::Done(client.commit(planned)), calls),
        Appended::Stopped => (Commanded::Stopped, calls),
        Appended::NoMemory => (Commanded::NoMemory(client), calls),
        Appended::Broken => (Commanded::Broken, calls),
    }
}

// Promise P309, also here; clauses: commanded, counted
/// Renews the key by this one: the plan, its record, and then the commit, behind which this is the client's key.
pub fn renew<K: Keyed>(
    alloc: Global,
    keyed: &K,
    client: Client<Ready>,
    key: MasterKey,
    journal: &mut Journal,
    disk: &mut MemDisk,
    stop: Option<Stop>,
) -> (Commanded<Client<Ready>>, u64)
    requires holds { (payloads : List (List ℕ)) × Holds payloads journal.old disk.old }
    ensures commanded { (first : List ℕ) (es : Epochs) (payloads : List (List ℕ)) → IsResting (keyed_fn K.prf K.pad) first es client → Holds payloads journal.old disk.old →
        IsCommanded (IsResting (keyed_fn K.prf K.pad) first es) (IsSending (keyed_fn K.prf K.pad) first (with_renewal key es) (frames_in (Some es)))
        (renewal_fault (keyed_fn K.prf K.pad) key (key_marks (keyed_fn K.prf K.pad) first es) (begins es) (last_run es))
        payloads (renewal_record (mark_of (keyed_fn K.prf K.pad) key)) stop result.0 result.1 journal.new disk.new }
    ensures counted { IsDone result.0 → result.1 ≡ next_call_of disk.new - next_call_of disk.old }
{
    match client.plan_renewal(alloc, keyed, &key) {
        Ok(planned) => {
            let (appended, calls) = append_renewal(alloc, &planned, journal, disk, stop);
            match appended {
                Appended::Made => (
                    Commanded::Done(client.commit_renewal(alloc, key, planned)),
                    calls,
                ),
                Appended::Stopped => (Commanded::Stopped, calls),
                Appended::NoMemory => (Commanded::NoMemory(client), calls),
                Appended::Broken => (Commanded::Broken, calls),
            }
        }
        Err(fault) => match fault {
            RenewalFault::NoMemory => (Commanded::NoMemory(client), 0),
            _ => (Commanded::Refused(client), 0),
        },
    }
}
