ghost use Rattle.std.specs.Prelude.{◌≡◌, ◌≢◌, ◌<◌, ◌^◌, ◌++◌, ◌∷◌, [], IfOk, List, None, OnOk, Some, ℕ, map};
ghost use Rattle.client_registry.specs.Acceptance.{size_refusal};
ghost use Rattle.client_registry.specs.Epochs.{begins, key_now, next_begins};
ghost use Rattle.client_registry.specs.Histories.{IsKept, IsWhole};
ghost use Rattle.client_registry.specs.Run.{History as Past, Offsets, last_run};
ghost use Rattle.def_leakage.specs.DrawnValues as model;
ghost use Rattle.keyed_fn.specs.KeyedFn.{KeyedFn, keyed_fn};
ghost use Rattle.leakage_frames.specs.Steps as steps;
ghost use Rattle.leakage_frames.specs.Views.{draw_view, leak_view};
ghost use Rattle.leakage_history.specs.HashedEpochs.{epochs_in};
ghost use Rattle.leakage_history.specs.HashedRun.{run_of};
ghost use Rattle.sse_model.specs.Histories.{table_at};
ghost use Rattle.sse_simulator.specs.Leaks.{Draw as Drawn};
ghost use Rattle.sse_game.specs.Passing.{DrawsLast, HasPassed, HasShown, IsNext, MakesLast};

use keyed_fn::Keyed;
use leakage_draws::draws;
use leakage_frames::{Draw, Leak, Sim, SimFault, simulate, simulate_step};
use leakage_history::{Epochs, History};
use leakage_sheets::sheet_of;
use sse_frames::Items;
use std::alloc::{AllocError, Global};
use word_keys::MasterKey;

/// All that passed for the left history, and a simulator that makes what passes for its next command.
#[derive(Drop)]
pub(crate) struct Shown {
    /// The bytes of each frame and each reply, the greeting first.
    pub(crate) seen: Items<Items<u8>>,
    pub(crate) sim: Sim,
}

/// What passes before any setup: the greeting.
pub(crate) fn greeted(alloc: Global) -> Result<Shown, AllocError>
    ensures { IfOk result (λ shown. (f : KeyedFn) (key : List ℕ) → HasPassed f key None shown) }
{
    match simulate(alloc, &Items::new(alloc), &Items::new(alloc)) {
        Ok(seen) => Ok(Shown {
            seen,
            sim: Sim::new(alloc),
        }),
        Err(SimFault::NoMemory) => Err(AllocError),
        Err(SimFault::BadLeak(_)) => unreachable!(),
    }
}

/// Shows what passes for the last command of a history, which leaks this, and draws this if it is known. Its first epoch has this key.
pub(crate) fn show_next<K: Keyed>(
    alloc: Global,
    keyed: &K,
    key: &MasterKey,
    epochs: &Epochs,
    leak: &Leak,
    drawn: Option<Items<Draw>>,
    shown: &mut Shown,
) -> Result<(), AllocError>
    requires next { (before : Past) × IsNext (keyed_fn K.prf K.pad) key.now before (epochs_in epochs.now) (leak_view leak.now) shown.old × DrawsLast (keyed_fn K.prf K.pad) key.now before (Some (epochs_in epochs.now)) drawn }
    requires kept { IsWhole (Some (epochs_in epochs.now)) × IsKept (Some (epochs_in epochs.now)) }
    requires numbered { (next_begins (epochs_in epochs.now)).command < 2 ^ 32 }
    ensures { OnOk result (HasPassed (keyed_fn K.prf K.pad) key.now (Some (epochs_in epochs.now)) shown.new) }
{
    match drawn {
        Some(own) => {
            let ended = show(alloc, leak, &own, shown);
            drop(own);
            ended
        }
        None => show_last(alloc, keyed, key, epochs, leak, shown),
    }
}

/// Shows what passes for the last command of a history, which leaks this. Its first epoch has this key.
pub(crate) fn show_last<K: Keyed>(
    alloc: Global,
    keyed: &K,
    key: &MasterKey,
    epochs: &Epochs,
    leak: &Leak,
    shown: &mut Shown,
) -> Result<(), AllocError>
    requires next { (before : Past) × IsNext (keyed_fn K.prf K.pad) key.now before (epochs_in epochs.now) (leak_view leak.now) shown.old }
    requires kept { IsWhole (Some (epochs_in epochs.now)) × IsKept (Some (epochs_in epochs.now)) }
    requires numbered { (next_begins (epochs_in epochs.now)).command < 2 ^ 32 }
    ensures { OnOk result (HasPassed (keyed_fn K.prf K.pad) key.now (Some (epochs_in epochs.now)) shown.new) }
{
    let all = last_draws(alloc, keyed, key, epochs)?;
    let ended = show_draws(alloc, leak, all.as_slice(), shown);
    drop(all);
    ended
}

/// For each command of the last epoch of a history what it draws. The first epoch has this key.
fn last_draws<K: Keyed>(
    alloc: Global,
    keyed: &K,
    key: &MasterKey,
    epochs: &Epochs,
) -> Result<Items<Items<Draw>>, AllocError>
    requires { (next_begins (epochs_in epochs.now)).command < 2 ^ 32 }
    ensures { IfOk result (λ all. map (map draw_view) all ≡ model.draws (table_at (keyed_fn K.prf K.pad) (key_now key.now (epochs_in epochs.now)) (last_run (epochs_in epochs.now))) (begins (epochs_in epochs.now)) (last_run (epochs_in epochs.now))) }
{
    let number = epochs.len() - 1;
    if number == 0 {
        return draws_under(alloc, keyed, key, epochs.last(), 0);
    }
    let own = MasterKey::new(*epochs.renewal_key(number - 1));
    draws_under(alloc, keyed, &own, epochs.last(), number as u32)
}

/// For each command of an epoch with this key and this number what it draws.
fn draws_under<K: Keyed>(
    alloc: Global,
    keyed: &K,
    key: &MasterKey,
    history: &History,
    epoch: u32,
) -> Result<Items<Items<Draw>>, AllocError>
    requires { size_refusal history.now.setup ≡ None }
    ensures { IfOk result (λ all. (o : Offsets) → o.epoch ≡ epoch → map (map draw_view) all ≡ model.draws (table_at (keyed_fn K.prf K.pad) key.now (run_of history.now)) o (run_of history.now)) }
{
    let sheet = sheet_of(alloc, keyed, key, history, epoch)?;
    let drawn = draws(alloc, history, &sheet, epoch);
    drop(sheet);
    drawn
}

/// Shows what passes for a command, which leaks this and draws the last of these.
fn show_draws(
    alloc: Global,
    leak: &Leak,
    all: &[Items<Draw>],
    shown: &mut Shown,
) -> Result<(), AllocError>
    requires { MakesLast (leak_view leak.now) (map (map draw_view) all.now) shown.old }
    ensures { OnOk result ((front : List (List Drawn)) (own : List Drawn) → map (map draw_view) all.now ≡ front ++ own ∷ [] → HasShown (leak_view leak.now) own shown.old shown.new) }
{
    match all.last() {
        Some(own) => show(alloc, leak, own, shown),
        None => unreachable!(),
    }
}

/// Shows what passes for a command, which leaks and draws this.
fn show(
    alloc: Global,
    leak: &Leak,
    draws: &Items<Draw>,
    shown: &mut Shown,
) -> Result<(), AllocError>
    requires { steps.step shown.old.sim (leak_view leak.now) (map draw_view draws.now) ≢ None }
    ensures { OnOk result (HasShown (leak_view leak.now) (map draw_view draws.now) shown.old shown.new) }
{
    match simulate_step(alloc, &mut shown.sim, leak, draws) {
        Ok(texts) => push_texts(alloc, &mut shown.seen, texts.as_slice()),
        Err(SimFault::NoMemory) => Err(AllocError),
        Err(SimFault::BadLeak(_)) => unreachable!(),
    }
}

/// Appends copies of these texts.
fn push_texts(
    alloc: Global,
    seen: &mut Items<Items<u8>>,
    texts: &[Items<u8>],
) -> Result<(), AllocError>
    ensures { OnOk result (seen.new ≡ seen.old ++ texts.now) }
{
    for text in texts {
        seen.push(copied(alloc, text.as_slice())?)?;
    }
    Ok(())
}

/// The same bytes again.
pub(crate) fn copied(alloc: Global, bytes: &[u8]) -> Result<Items<u8>, AllocError>
    ensures { IfOk result (λ copy. copy ≡ bytes.now) }
{
    let mut copy = Items::new(alloc);
    for byte in bytes {
        copy.push(*byte)?;
    }
    Ok(copy)
}
