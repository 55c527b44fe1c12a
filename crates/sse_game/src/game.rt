ghost use Rattle.std.specs.Prelude.{◌≡◌, ◌≢◌, ℕ, ◌+◌, ◌-◌, ◌<◌, ◌≤◌, ◌^◌, Err, IfOk, List, OnOk, Some, true};
ghost use Rattle.def_comparison.specs.FirstDifference.{IsFirstDifference};
ghost use Rattle.def_duel.specs.Choices as choices;
ghost use Rattle.def_duel.specs.Duels.{DiffersAt, HasTurned};
ghost use Rattle.def_duel.specs.Turns.{Turn};
ghost use Rattle.def_leakage.specs.Histories.{leak_in};
ghost use Rattle.keyed_fn.specs.KeyedFn.{keyed_fn};
ghost use Rattle.leakage_frames.specs.Views.{leak_view};
ghost use Rattle.sse_game.specs.Game.{IsGame, IsUnequal, sides_at};
ghost use Rattle.sse_game.specs.Passing.{DrawsLast};
ghost use Rattle.sse_game.specs.Played.{Told};
ghost use Rattle.sse_game.specs.Side.{HasTaken, IsSide, LeaksOther, history_at};
ghost use Rattle.sse_game.specs.Views.{choice_view, pair_view};
ghost use Rattle.sse_game.specs.declared.fault.DuelFault.TheVariants as faults;

use crate::acceptance::can_take;
use crate::choice::{Choice, Pair};
use crate::chooser::Chooser;
use crate::drawn::next_draws;
use crate::fault::DuelFault;
use crate::marks::{add_mark, has_new_mark};
use crate::shown::{Shown, show_next};
use crate::side::{Side, take};
use keyed_fn::Keyed;
use leakage_frames::{Draw, Leak, same_leak};
use sse_frames::Items;
use std::alloc::{AllocError, Global};
use word_keys::MasterKey;

/// A duel after some of its turns.
#[derive(Drop)]
pub(crate) struct Game {
    pub(crate) left: Side,
    pub(crate) right: Side,
    pub(crate) shown: Shown,
    /// The marks of the keys of the left history.
    pub(crate) marks: Vec<[u8; 16]>,
    pub(crate) skipped: u32,
}

/// Shows the chooser all that passed, and plays its answer; `false` if it gave none.
pub(crate) fn turn<K: Keyed, C: Chooser>(
    alloc: Global,
    keyed: &K,
    key: &MasterKey,
    chooser: &mut C,
    game: &mut Game,
) -> Result<bool, DuelFault>
    requires game { IsGame (keyed_fn K.prf K.pad) key.now game.old }
    requires few { game.old.skipped < 2 ^ 32 - 1 }
    ensures turned { (past : List Turn) → C.tells chooser.old past → IfOk result (λ more. Told (C.tells chooser.new) (λ now. HasTurned (keyed_fn K.prf K.pad) key.now (Some past) (Some now) (sides_at game.old) (sides_at game.new) more)) }
    ensures game { OnOk result (IsGame (keyed_fn K.prf K.pad) key.now game.new) }
    ensures differ { (k : ℕ) (past : List Turn) → result ≡ Err (faults.LeaksDiffer k) → C.tells chooser.old past → Told (C.tells chooser.new) (λ now. DiffersAt (keyed_fn K.prf K.pad) key.now (Some past) (Some now) (sides_at game.old) k) }
    ensures few { OnOk result (game.new.skipped ≤ game.old.skipped + 1) }
    ensures begun { result ≢ Err faults.NoSetup }
{
    match chooser.next(alloc, &game.shown.seen)? {
        Some(pair) => match play(alloc, keyed, key, game, pair) {
            Ok(()) => Ok(true),
            Err(fault) => Err(fault),
        },
        None => Ok(false),
    }
}

/// Plays a pair that is taken, or skips it.
fn play<K: Keyed>(
    alloc: Global,
    keyed: &K,
    key: &MasterKey,
    game: &mut Game,
    pair: Pair,
) -> Result<(), DuelFault>
    requires game { IsGame (keyed_fn K.prf K.pad) key.now game.old }
    requires few { game.old.skipped < 2 ^ 32 - 1 }
    ensures played { OnOk result (sides_at game.new ≡ choices.played (keyed_fn K.prf K.pad) key.now (sides_at game.old) (pair_view pair)) }
    ensures game { OnOk result (IsGame (keyed_fn K.prf K.pad) key.now game.new) }
    ensures differ { (k : ℕ) → result ≡ Err (faults.LeaksDiffer k) → IsUnequal (keyed_fn K.prf K.pad) key.now (sides_at game.old) (pair_view pair) k }
    ensures begun { result ≢ Err faults.NoSetup }
{
    if is_taken(alloc, keyed, key, game, &pair)? {
        play_taken(alloc, keyed, key, game, pair)
    } else {
        drop(pair);
        game.skipped += 1;
        Ok(())
    }
}

/// Whether both histories take their command of a pair, and the key of a renewal on the left has a new mark.
fn is_taken<K: Keyed>(
    alloc: Global,
    keyed: &K,
    key: &MasterKey,
    game: &Game,
    pair: &Pair,
) -> Result<bool, AllocError>
    requires { IsGame (keyed_fn K.prf K.pad) key.now game.now }
    ensures { IfOk result (λ taken. taken ≡ choices.is_taken (keyed_fn K.prf K.pad) key.now (sides_at game.now) (pair_view pair.now)) }
{
    let left = can_take(alloc, &game.left, &pair.left)?;
    let right = can_take(alloc, &game.right, &pair.right)?;
    Ok(left && right && has_new_mark(keyed, game.marks.as_slice(), &pair.left))
}

/// Plays a pair that is taken.
fn play_taken<K: Keyed>(
    alloc: Global,
    keyed: &K,
    key: &MasterKey,
    game: &mut Game,
    pair: Pair,
) -> Result<(), DuelFault>
    requires game { IsGame (keyed_fn K.prf K.pad) key.now game.old }
    requires taken { choices.is_taken (keyed_fn K.prf K.pad) key.now (sides_at game.old) (pair_view pair) ≡ true }
    ensures played { OnOk result (sides_at game.new ≡ choices.taken_if true (sides_at game.old) (pair_view pair)) }
    ensures game { OnOk result (IsGame (keyed_fn K.prf K.pad) key.now game.new) }
    ensures differ { (k : ℕ) → result ≡ Err (faults.LeaksDiffer k) → IsFirstDifference k (leak_in (choices.grown (history_at game.old.left) (pair_view pair).left)) (leak_in (choices.grown (history_at game.old.right) (pair_view pair).right)) }
    ensures begun { result ≢ Err faults.NoSetup }
{
    let Pair { left, right } = pair;
    add_mark(keyed, &mut game.marks, &left)?;
    let taken = take_drawn(
        alloc,
        keyed,
        key,
        &mut game.left,
        &mut game.right,
        left,
        right,
    )?;
    let Taken { leak, drawn } = taken;
    let epochs = &game.left.epochs;
    let shown = show_next(alloc, keyed, key, epochs, &leak, drawn, &mut game.shown);
    drop(leak);
    Ok(shown?)
}

/// What both commands of a pair that was taken leak, and what the left one draws, if it is known.
#[derive(Drop)]
struct Taken {
    leak: Leak,
    drawn: Option<Items<Draw>>,
}

/// Takes a command on each side, and returns what both leak, and what the left one draws. The first epoch on the left has this key.
fn take_drawn<K: Keyed>(
    alloc: Global,
    keyed: &K,
    key: &MasterKey,
    left: &mut Side,
    right: &mut Side,
    choice: Choice,
    other: Choice,
) -> Result<Taken, DuelFault>
    requires left { IsSide left.old × (choices.can_take (history_at left.old) (choice_view choice) ≡ true) }
    requires right { IsSide right.old × (choices.can_take (history_at right.old) (choice_view other) ≡ true) }
    requires leaks { leak_in (history_at left.old) ≡ leak_in (history_at right.old) }
    ensures left { IfOk result (λ taken. HasTaken (history_at left.old) (choice_view choice) left.new (leak_view taken.leak)) }
    ensures right { IfOk result (λ taken. HasTaken (history_at right.old) (choice_view other) right.new (leak_view taken.leak)) }
    ensures drawn { IfOk result (λ taken. DrawsLast (keyed_fn K.prf K.pad) key.now (history_at left.old) (history_at left.new) taken.drawn) }
    ensures differ { (k : ℕ) → result ≡ Err (faults.LeaksDiffer k) → IsFirstDifference k (leak_in (choices.grown (history_at left.old) (choice_view choice))) (leak_in (choices.grown (history_at right.old) (choice_view other))) }
    ensures begun { result ≢ Err faults.NoSetup }
{
    let drawn = next_draws(alloc, keyed, key, left, &choice)?;
    match take_both(alloc, left, right, choice, other) {
        Ok(leak) => Ok(Taken { leak, drawn }),
        Err(fault) => {
            drop(drawn);
            Err(fault)
        }
    }
}

/// Takes a command on each side, and returns what both leak.
fn take_both(
    alloc: Global,
    left: &mut Side,
    right: &mut Side,
    choice: Choice,
    other: Choice,
) -> Result<Leak, DuelFault>
    requires left { IsSide left.old × (choices.can_take (history_at left.old) (choice_view choice) ≡ true) }
    requires right { IsSide right.old × (choices.can_take (history_at right.old) (choice_view other) ≡ true) }
    requires leaks { leak_in (history_at left.old) ≡ leak_in (history_at right.old) }
    ensures left { IfOk result (λ leak. HasTaken (history_at left.old) (choice_view choice) left.new (leak_view leak)) }
    ensures right { IfOk result (λ leak. HasTaken (history_at right.old) (choice_view other) right.new (leak_view leak)) }
    ensures differ { (k : ℕ) → result ≡ Err (faults.LeaksDiffer k) → IsFirstDifference k (leak_in (choices.grown (history_at left.old) (choice_view choice))) (leak_in (choices.grown (history_at right.old) (choice_view other))) }
    ensures begun { result ≢ Err faults.NoSetup }
{
    let leak = take(alloc, left, choice)?;
    match take_alike(alloc, right, other, &leak) {
        Ok(()) => Ok(leak),
        Err(fault) => {
            drop(leak);
            Err(fault)
        }
    }
}

/// Takes a command that is to leak this.
fn take_alike(alloc: Global, side: &mut Side, choice: Choice, leak: &Leak) -> Result<(), DuelFault>
    requires side { IsSide side.old }
    requires taken { choices.can_take (history_at side.old) (choice_view choice) ≡ true }
    ensures taken { OnOk result (HasTaken (history_at side.old) (choice_view choice) side.new (leak_view leak.now)) }
    ensures differ { (k : ℕ) → result ≡ Err (faults.LeaksDiffer k) → LeaksOther k (history_at side.old) (choice_view choice) (leak_view leak.now) }
    ensures begun { result ≢ Err faults.NoSetup }
{
    let number = side.commands;
    let own = take(alloc, side, choice)?;
    let alike = same_leak(leak, &own);
    drop(own);
    if alike {
        Ok(())
    } else {
        Err(DuelFault::LeaksDiffer(number))
    }
}
