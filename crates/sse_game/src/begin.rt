ghost use Rattle.std.specs.Prelude.{◌≡◌, ℕ, Err, IfOk, IfSome, List, None, OnOk, Some, false, true};
ghost use Rattle.client_registry.specs.Setup.{Setup};
ghost use Rattle.def_comparison.specs.FirstDifference.{IsFirstDifference};
ghost use Rattle.def_duel.specs.Choices as choices;
ghost use Rattle.def_duel.specs.Duels.{DiffersAt, HasNoSetup};
ghost use Rattle.def_duel.specs.Turns.{Turn};
ghost use Rattle.def_leakage.specs.Histories.{leak_in};
ghost use Rattle.keyed_fn.specs.KeyedFn.{keyed_fn};
ghost use Rattle.leakage_frames.specs.Views.{leak_view};
ghost use Rattle.sse_game.specs.Game.{AreTaken, IsGame, IsUnequal, sides_at};
ghost use Rattle.sse_game.specs.Passing.{HasPassed};
ghost use Rattle.sse_game.specs.Played.{HasBegun, Told};
ghost use Rattle.sse_game.specs.Side.{HasTaken, LeaksOther, history_at};
ghost use Rattle.sse_game.specs.Views.{choice_view, pair_view, setup_view, setups_view};
ghost use Rattle.sse_game.specs.declared.fault.DuelFault.TheVariants as faults;

use crate::choice::{Choice, NewSetup, Pair};
use crate::chooser::Chooser;
use crate::fault::DuelFault;
use crate::game::Game;
use crate::marks::mark_of;
use crate::shown::{Shown, greeted, show_last};
use crate::side;
use crate::side::Side;
use client_registry::HashKeys;
use keyed_fn::Keyed;
use leakage_frames::{Leak, same_leak};
use std::alloc::{AllocError, Global};
use word_keys::MasterKey;

/// The first turn: shows the chooser the greeting, and plays its answer, which is to be a pair of setups.
pub(crate) fn begin<K: Keyed, C: Chooser>(
    alloc: Global,
    keyed: &K,
    key: &MasterKey,
    chooser: &mut C,
) -> Result<Game, DuelFault>
    ensures game { IfOk result (λ game. IsGame (keyed_fn K.prf K.pad) key.now game) }
    ensures skipped { IfOk result (λ game. game.skipped ≡ 0) }
    ensures begun { (past : List Turn) → C.tells chooser.old past → IfOk result (λ game. Told (C.tells chooser.new) (λ now. HasBegun (keyed_fn K.prf K.pad) key.now (Some past) (Some now) (sides_at game))) }
    ensures differ { (k : ℕ) (past : List Turn) → result ≡ Err (faults.LeaksDiffer k) → C.tells chooser.old past → Told (C.tells chooser.new) (λ now. DiffersAt (keyed_fn K.prf K.pad) key.now (Some past) (Some now) choices.at_start k) }
    ensures no_setup { (most : ℕ) (past : List Turn) → result ≡ Err faults.NoSetup → C.tells chooser.old past → Told (C.tells chooser.new) (λ now. HasNoSetup (keyed_fn K.prf K.pad) key.now most (Some past) (Some now)) }
{
    let shown = greeted(alloc)?;
    match chooser.next(alloc, &shown.seen) {
        Ok(Some(pair)) => begin_with(alloc, keyed, key, shown, pair),
        Ok(None) => Err(DuelFault::NoSetup),
        Err(_) => Err(DuelFault::NoMemory),
    }
}

/// Plays the first pair, after the greeting.
fn begin_with<K: Keyed>(
    alloc: Global,
    keyed: &K,
    key: &MasterKey,
    shown: Shown,
    pair: Pair,
) -> Result<Game, DuelFault>
    requires { HasPassed (keyed_fn K.prf K.pad) key.now None shown }
    ensures game { IfOk result (λ game. IsGame (keyed_fn K.prf K.pad) key.now game) }
    ensures taken { OnOk result (choices.is_taken (keyed_fn K.prf K.pad) key.now choices.at_start (pair_view pair) ≡ true) }
    ensures sides { IfOk result (λ game. sides_at game ≡ choices.taken_if true choices.at_start (pair_view pair)) }
    ensures differ { (k : ℕ) → result ≡ Err (faults.LeaksDiffer k) → IsUnequal (keyed_fn K.prf K.pad) key.now choices.at_start (pair_view pair) k }
    ensures no_setup { result ≡ Err faults.NoSetup → choices.is_taken (keyed_fn K.prf K.pad) key.now choices.at_start (pair_view pair) ≡ false }
{
    let Pair { left, right } = pair;
    match setup_of(left) {
        Some(left) => begin_left(alloc, keyed, key, shown, left, right),
        None => Err(DuelFault::NoSetup),
    }
}

/// The setup that a command is, if it is one.
fn setup_of(choice: Choice) -> Option<NewSetup>
    ensures some { IfSome result (λ new. choice_view choice ≡ choices.SetsUp (setup_view new)) }
    ensures none { result ≡ None → choices.can_take None (choice_view choice) ≡ false }
{
    match choice {
        Choice::SetUp(new) => Some(new),
        Choice::Do(_) => None,
        Choice::Renew(_) => None,
    }
}

/// Plays the first pair if its left command is this setup.
fn begin_left<K: Keyed>(
    alloc: Global,
    keyed: &K,
    key: &MasterKey,
    shown: Shown,
    left: NewSetup,
    right: Choice,
) -> Result<Game, DuelFault>
    requires { HasPassed (keyed_fn K.prf K.pad) key.now None shown }
    ensures game { IfOk result (λ game. IsGame (keyed_fn K.prf K.pad) key.now game) }
    ensures taken { OnOk result (choices.is_taken (keyed_fn K.prf K.pad) key.now choices.at_start (record { left = choices.SetsUp (setup_view left); right = choice_view right }) ≡ true) }
    ensures sides { IfOk result (λ game. sides_at game ≡ choices.taken_if true choices.at_start (record { left = choices.SetsUp (setup_view left); right = choice_view right })) }
    ensures differ { (k : ℕ) → result ≡ Err (faults.LeaksDiffer k) → IsUnequal (keyed_fn K.prf K.pad) key.now choices.at_start (record { left = choices.SetsUp (setup_view left); right = choice_view right }) k }
    ensures no_setup { result ≡ Err faults.NoSetup → choices.is_taken (keyed_fn K.prf K.pad) key.now choices.at_start (record { left = choices.SetsUp (setup_view left); right = choice_view right }) ≡ false }
{
    match setup_of(right) {
        Some(right) => begin_setups(alloc, keyed, key, shown, left, right),
        None => Err(DuelFault::NoSetup),
    }
}

/// Plays a pair of setups, after the greeting.
fn begin_setups<K: Keyed>(
    alloc: Global,
    keyed: &K,
    key: &MasterKey,
    shown: Shown,
    left: NewSetup,
    right: NewSetup,
) -> Result<Game, DuelFault>
    requires { HasPassed (keyed_fn K.prf K.pad) key.now None shown }
    ensures game { IfOk result (λ game. IsGame (keyed_fn K.prf K.pad) key.now game) }
    ensures taken { OnOk result (choices.is_taken (keyed_fn K.prf K.pad) key.now choices.at_start (setups_view left right) ≡ true) }
    ensures sides { IfOk result (λ game. sides_at game ≡ choices.taken_if true choices.at_start (setups_view left right)) }
    ensures differ { (k : ℕ) → result ≡ Err (faults.LeaksDiffer k) → IsUnequal (keyed_fn K.prf K.pad) key.now choices.at_start (setups_view left right) k }
    ensures no_setup { result ≡ Err faults.NoSetup → choices.is_taken (keyed_fn K.prf K.pad) key.now choices.at_start (setups_view left right) ≡ false }
{
    let keys = key.prepare(keyed).hash_keys();
    match begin_both(alloc, keys, left, right) {
        Ok(both) => Ok(show_setups(alloc, keyed, key, shown, both)?),
        Err(fault) => Err(fault),
    }
}

/// Two histories of a setup alone, which both leak this.
#[derive(Drop)]
struct Both {
    left: Side,
    right: Side,
    leak: Leak,
}

/// Shows what passes for the setup of the left history, after the greeting.
fn show_setups<K: Keyed>(
    alloc: Global,
    keyed: &K,
    key: &MasterKey,
    shown: Shown,
    both: Both,
) -> Result<Game, AllocError>
    requires passed { HasPassed (keyed_fn K.prf K.pad) key.now None shown }
    requires begun { (left right : Setup) × HasTaken None (choices.SetsUp left) both.left (leak_view both.leak) × HasTaken None (choices.SetsUp right) both.right (leak_view both.leak) }
    ensures game { IfOk result (λ game. IsGame (keyed_fn K.prf K.pad) key.now game) }
    ensures sides { IfOk result (λ game. sides_at game ≡ record { left = history_at both.left; right = history_at both.right; skipped = 0 }) }
{
    let Both { left, right, leak } = both;
    let marks = vec![in alloc; mark_of(keyed, key)]?;
    let mut shown = shown;
    let all_shown = show_last(alloc, keyed, key, &left.epochs, &leak, &mut shown);
    drop(leak);
    all_shown?;
    Ok(Game {
        left,
        right,
        shown,
        marks,
        skipped: 0,
    })
}

/// The histories of two setups, if both are accepted and leak the same.
fn begin_both(
    alloc: Global,
    keys: HashKeys,
    left: NewSetup,
    right: NewSetup,
) -> Result<Both, DuelFault>
    ensures left { IfOk result (λ both. HasTaken None (choices.SetsUp (setup_view left)) both.left (leak_view both.leak)) }
    ensures right { IfOk result (λ both. HasTaken None (choices.SetsUp (setup_view right)) both.right (leak_view both.leak)) }
    ensures taken { OnOk result (AreTaken left right) }
    ensures differ { (k : ℕ) → result ≡ Err (faults.LeaksDiffer k) → AreTaken left right × IsFirstDifference k (leak_in (choices.grown None (choices.SetsUp (setup_view left)))) (leak_in (choices.grown None (choices.SetsUp (setup_view right)))) }
    ensures no_setup { result ≡ Err faults.NoSetup → AreTaken left right → ⊥ }
{
    match side::begin(alloc, left, keys)? {
        Some((left, leak)) => match begin_alike(alloc, right, keys, &leak) {
            Ok(right) => Ok(Both { left, right, leak }),
            Err(fault) => {
                drop(left);
                drop(leak);
                Err(fault)
            }
        },
        None => Err(DuelFault::NoSetup),
    }
}

/// The history of a setup, if it is accepted and leaks this.
fn begin_alike(alloc: Global, new: NewSetup, keys: HashKeys, leak: &Leak) -> Result<Side, DuelFault>
    ensures begun { IfOk result (λ side. HasTaken None (choices.SetsUp (setup_view new)) side (leak_view leak.now)) }
    ensures taken { OnOk result (choices.can_take None (choices.SetsUp (setup_view new)) ≡ true) }
    ensures differ { (k : ℕ) → result ≡ Err (faults.LeaksDiffer k) → (choices.can_take None (choices.SetsUp (setup_view new)) ≡ true) × LeaksOther k None (choices.SetsUp (setup_view new)) (leak_view leak.now) }
    ensures no_setup { result ≡ Err faults.NoSetup → choices.can_take None (choices.SetsUp (setup_view new)) ≡ false }
{
    match side::begin(alloc, new, keys)? {
        Some((side, own)) => {
            let alike = same_leak(leak, &own);
            drop(own);
            if alike {
                Ok(side)
            } else {
                drop(side);
                Err(DuelFault::LeaksDiffer(0))
            }
        }
        None => Err(DuelFault::NoSetup),
    }
}
