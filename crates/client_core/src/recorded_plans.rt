ghost use Rattle.std.specs.Prelude.{◌≡◌, ◌+◌, ◌<◌, ◌≤◌, ◌^◌, [], IsSome, None, Some, true, IfOk};
ghost use Rattle.std.specs.List.{AllByRecursion};
ghost use Rattle.client_registry.specs.Command.{Add as adds, Delete as deletes};
ghost use Rattle.client_registry.specs.Facts.{has_counters};
ghost use Rattle.client_registry.specs.Histories.{IsKept};
ghost use Rattle.client_registry.specs.IdNumber.{id_number};
ghost use Rattle.client_registry.specs.Registered.{Represents, facts, known_words};
ghost use Rattle.client_registry.specs.Run.{From, Offsets, Run};
ghost use Rattle.client_registry.specs.Sized.{update_frames};
ghost use Rattle.client_rebuild.specs.Recalls.{frames_of_last, hash_keys_of, setup_in};
ghost use Rattle.client_rebuild.specs.Updates.{command_of};
ghost use Rattle.keyed_fn.specs.KeyedFn.{keyed_fn};
ghost use Rattle.client_core.specs.Keys.{Keeps};
ghost use Rattle.client_core.specs.Renewals.{alone};
ghost use Rattle.client_core.specs.Restores.{Remembers};
ghost use Rattle.client_core.specs.Resumes.{Replans, first_recorded};
ghost use Rattle.client_core.specs.TakenViews.{to_send};
ghost use Rattle.client_core.specs.StandsFor.{IsPastOf, StandsFor, with_command};
ghost use Rattle.sse_frames.specs.Frames.{IsFrame};

use crate::behind::Behind;
use crate::client::Client;
use crate::planned_update::PlannedUpdate;
use crate::ready::Ready;
use crate::recorded::Recorded;
use crate::renewals::{plan_of_docs, renewed};
use crate::resume_fault::{ResumeFault, of_setup, of_update};
use crate::update::Update;
use client_rebuild::{Last, RecordedSetup, RecordedUpdate, Update as Said};
use client_registry::{Doc, DocId, Sizes};
use client_renewal::Past;
use keyed_fn::Keyed;
use std::alloc::Global;
use word_keys::MasterKey;

/// The number of the first frame of the last record's command.
pub(crate) fn first_frame(last: &Last) -> u32
    ensures { result ≡ first_recorded last.now }
{
    match last {
        Last::Setup(setup) => setup.before,
        Last::Update(update) => update.frames,
    }
}

/// Plans the last record's command again, whose frames from this number on are owed to the server.
pub(crate) fn replan<K: Keyed>(
    alloc: Global,
    keyed: &K,
    key: MasterKey,
    state: Recorded,
    next: u32,
) -> Result<Client<Behind>, ResumeFault>
    requires low { first_recorded state.last ≤ next }
    requires high { next < frames_of_last state.last }
    ensures replans { (o : Offsets) (run : Run) → Remembers o run state → Replans (keyed_fn K.prf K.pad) key o run next result }
    ensures grammar { IfOk result (λ client. AllByRecursion IsFrame (to_send client.state)) }
    ensures marks { IfOk result (λ client. client.state.ready.past.marks.items ≡ state.past.marks.items) }
    ensures hash_keys { IfOk result (λ client. client.state.ready.registry.keys ≡ hash_keys_of state.last) }
{
    let Recorded { last, past } = state;
    match last {
        Last::Setup(setup) => replan_setup(alloc, keyed, key, setup, past.marks, next),
        Last::Update(update) => replan_update(alloc, keyed, key, update, past),
    }
}

/// The same of a setup, which a renewal may have made.
fn replan_setup<K: Keyed>(
    alloc: Global,
    keyed: &K,
    key: MasterKey,
    setup: RecordedSetup,
    marks: Vec<[u8; 16]>,
    next: u32,
) -> Result<Client<Behind>, ResumeFault>
    requires low { setup.before ≤ next }
    requires high { next < setup.before + setup.frames }
    ensures replans { (o : Offsets) → o.frame ≡ setup.before → Replans (keyed_fn K.prf K.pad) key o (alone (setup_in setup)) next result }
    ensures grammar { IfOk result (λ client. AllByRecursion IsFrame (to_send client.state)) }
    ensures marks { IfOk result (λ client. client.state.ready.past.marks.items ≡ marks.items) }
    ensures hash_keys { IfOk result (λ client. client.state.ready.registry.keys ≡ setup.docs.keys) }
{
    let RecordedSetup {
        docs,
        b,
        big,
        pad,
        before,
        ..
    } = setup;
    let sizes = Sizes {
        b: b as u64,
        big: big as u64,
        pad: pad as u64,
    };
    let mark = key.prepare(keyed).mark();
    match plan_of_docs(alloc, keyed, &key, mark, marks, docs, sizes, before) {
        Ok(planned) => Ok(renewed(alloc, key, planned).skip(next - before)),
        Err(fault) => Err(of_setup(fault)),
    }
}

/// The same of an update, which has one frame.
fn replan_update<K: Keyed>(
    alloc: Global,
    keyed: &K,
    key: MasterKey,
    recorded: RecordedUpdate,
    past: Past,
) -> Result<Client<Behind>, ResumeFault>
    ensures replans { (o : Offsets) (before : Run) → IsPastOf past before → IsKept (Some (From o (with_command before (command_of recorded.update)))) → Represents recorded.registry before.setup before.later → recorded.frames ≡ o.frame + update_frames before → Replans (keyed_fn K.prf K.pad) key o (with_command before (command_of recorded.update)) recorded.frames result }
    ensures grammar { IfOk result (λ client. AllByRecursion IsFrame (to_send client.state)) }
    ensures past { IfOk result (λ client. client.state.ready.past ≡ past) }
    ensures hash_keys { IfOk result (λ client. client.state.ready.registry.keys ≡ recorded.registry.keys) }
{
    let RecordedUpdate {
        registry,
        frames,
        update,
        ..
    } = recorded;
    let ready = Ready::of_registry(alloc, registry, frames, past);
    match update {
        Said::Add(doc) => replan_addition(alloc, keyed, key, ready, doc),
        Said::Delete(id) => replan_deletion(alloc, keyed, key, ready, id),
    }
}

/// Plans an accepted addition again.
fn replan_addition<K: Keyed>(
    alloc: Global,
    keyed: &K,
    key: MasterKey,
    mut ready: Ready,
    doc: Doc,
) -> Result<Client<Behind>, ResumeFault>
    requires dead { (facts ready.registry).live doc.id ≡ None }
    requires counters { has_counters (facts ready.registry) doc ≡ true }
    requires number { ready.frames + 1 < 2 ^ 32 }
    requires keeps { Keeps (keyed_fn K.prf K.pad) key (known_words ready.registry) ready.keys }
    ensures replans { (o : Offsets) (before : Run) → StandsFor (keyed_fn K.prf K.pad) (λ epoch. key) o before ready → Replans (keyed_fn K.prf K.pad) key o (with_command before (adds doc)) ready.frames result }
    ensures grammar { IfOk result (λ client. AllByRecursion IsFrame (to_send client.state)) }
    ensures past { IfOk result (λ client. client.state.ready.past ≡ ready.past) }
    ensures hash_keys { IfOk result (λ client. client.state.ready.registry.keys ≡ ready.registry.keys) }
{
    let master = key.prepare(keyed);
    match ready.addition(alloc, &master, &doc) {
        Ok((frame, words)) => {
            let number = ready.number();
            let client = Client { key, state: ready };
            Ok(client.commit(PlannedUpdate {
                update: Update::Add(doc),
                words,
                frame,
                number,
            }))
        }
        Err(fault) => Err(of_update(fault)),
    }
}

/// Plans an accepted deletion again.
fn replan_deletion<K: Keyed>(
    alloc: Global,
    keyed: &K,
    key: MasterKey,
    mut ready: Ready,
    id: DocId,
) -> Result<Client<Behind>, ResumeFault>
    requires live { IsSome ((facts ready.registry).live (id_number id)) }
    requires number { ready.frames + 1 < 2 ^ 32 }
    requires keeps { Keeps (keyed_fn K.prf K.pad) key (known_words ready.registry) ready.keys }
    ensures replans { (o : Offsets) (before : Run) → StandsFor (keyed_fn K.prf K.pad) (λ epoch. key) o before ready → Replans (keyed_fn K.prf K.pad) key o (with_command before (deletes (id_number id))) ready.frames result }
    ensures grammar { IfOk result (λ client. AllByRecursion IsFrame (to_send client.state)) }
    ensures past { IfOk result (λ client. client.state.ready.past ≡ ready.past) }
    ensures hash_keys { IfOk result (λ client. client.state.ready.registry.keys ≡ ready.registry.keys) }
{
    let master = key.prepare(keyed);
    match ready.deletion(alloc, &master, id) {
        Ok(frame) => {
            let number = ready.number();
            let client = Client { key, state: ready };
            Ok(client.commit(PlannedUpdate {
                update: Update::Delete(id),
                words: Vec::new(alloc),
                frame,
                number,
            }))
        }
        Err(fault) => Err(of_update(fault)),
    }
}
