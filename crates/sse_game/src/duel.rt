ghost use Rattle.std.specs.Prelude.{◌≡◌, ◌≢◌, ℕ, ◌<◌, Err, IfOk, List, Some};
ghost use Rattle.client_registry.specs.Epochs.{next_begins};
ghost use Rattle.def_duel.specs.Duels.{HasNoSetup};
ghost use Rattle.def_duel.specs.Turns.{Turn, texts_of};
ghost use Rattle.keyed_fn.specs.KeyedFn.{keyed_fn};
ghost use Rattle.leakage_history.specs.HashedEpochs.{epochs_in};
ghost use Rattle.sse_game.specs.Game.{IsGame, sides_at, sides_of};
ghost use Rattle.sse_game.specs.Played.{EndsUnequal, IsDuel, IsPlayed, Told};
ghost use Rattle.sse_game.specs.declared.fault.DuelFault.TheVariants as faults;

use crate::begin::begin;
use crate::chooser::Chooser;
use crate::fault::DuelFault;
use crate::game::{Game, turn};
use crate::shown::Shown;
use keyed_fn::Keyed;
use leakage_history::Epochs;
use sse_frames::Items;
use std::alloc::Global;
use word_keys::MasterKey;

/// A duel that was played to its end.
#[derive(Drop)]
pub struct Duel {
    pub left: Epochs,
    pub right: Epochs,
    /// The bytes of each frame and each reply that passed for the left history, the greeting first.
    pub seen: Items<Items<u8>>,
    /// How many pairs were skipped.
    pub skipped: u32,
    /// How many commands each history has, the setup and renewals among them.
    pub commands: u32,
}

// Promise P316 (caller): In a duel a chooser is shown exactly what passes for the left history, and pairs are played or skipped by the rules.
//   clauses: whole, seen, commands; assumes: keyed function, observable chooser; not: That values look random, which is assumed of the keyed function.
// Promise P317 (caller): At each turn of a duel what the chooser is shown tells nothing but leakage, and its relabelled table stays.
//   clauses: whole; assumes: keyed function, observable chooser; not: A probability, or what a chooser can guess. That leakage is harmless.
// Promise P318 (caller): A duel ends at a pair that leaks something else, before it is played; it doesn't begin only without a first pair of accepted setups.
//   clauses: differ, no_setup; assumes: keyed function, observable chooser; not: How much memory there is.
/// Plays a duel of at most so many turns. At each turn the chooser is shown all that passed for the left history under this key, from
/// a server that has taken nothing, and answers a pair of commands or ends the duel. A pair is taken if both histories take their
/// command, and else skipped: they accept it, their commands and update frames can each be numbered in 32 bits, and a renewal on the
/// left has a key with a new mark. The first pair sets both histories up.
///
/// Errors: `NoSetup` if there is no turn, or the first answer is no pair of accepted setups; `LeaksDiffer(k)` if a pair is taken and
/// the commands of number k, counted from 0 with the setup, leak something else; `NoMemory`.
pub fn play_duel<K: Keyed, C: Chooser>(
    alloc: Global,
    keyed: &K,
    key: &MasterKey,
    chooser: &mut C,
    most: u32,
) -> Result<Duel, DuelFault>
    ensures whole { (past : List Turn) → C.tells chooser.old past → IfOk result (λ duel. Told (C.tells chooser.new) (λ now. IsDuel (keyed_fn K.prf K.pad) key.now most (Some past) (Some now) (sides_of duel))) }
    ensures seen { IfOk result (λ duel. duel.seen ≡ texts_of (keyed_fn K.prf K.pad) key.now (Some (epochs_in duel.left))) }
    ensures commands { IfOk result (λ duel. duel.commands ≡ (next_begins (epochs_in duel.left)).command) }
    ensures differ { (k : ℕ) (past : List Turn) → result ≡ Err (faults.LeaksDiffer k) → C.tells chooser.old past → Told (C.tells chooser.new) (λ now. EndsUnequal (keyed_fn K.prf K.pad) key.now (Some past) (Some now) k) }
    ensures no_setup { (past : List Turn) → result ≡ Err faults.NoSetup → C.tells chooser.old past → Told (C.tells chooser.new) (λ now. HasNoSetup (keyed_fn K.prf K.pad) key.now most (Some past) (Some now)) }
{
    if most == 0 {
        return Err(DuelFault::NoSetup);
    }
    match begin(alloc, keyed, key, chooser) {
        Ok(game) => play_on(alloc, keyed, key, chooser, game, most),
        Err(fault) => Err(fault),
    }
}

/// Plays the turns after the first one, so that there are at most so many.
fn play_on<K: Keyed, C: Chooser>(
    alloc: Global,
    keyed: &K,
    key: &MasterKey,
    chooser: &mut C,
    start: Game,
    most: u32,
) -> Result<Duel, DuelFault>
    requires some { 0 < most }
    requires game { IsGame (keyed_fn K.prf K.pad) key.now start }
    requires begun { start.skipped ≡ 0 }
    ensures whole { (old past : List Turn) → C.tells chooser.old past → IsPlayed (keyed_fn K.prf K.pad) key.now 1 (Some old) (Some past) (sides_at start)
        → IfOk result (λ duel. Told (C.tells chooser.new) (λ now. IsDuel (keyed_fn K.prf K.pad) key.now most (Some old) (Some now) (sides_of duel))) }
    ensures seen { IfOk result (λ duel. duel.seen ≡ texts_of (keyed_fn K.prf K.pad) key.now (Some (epochs_in duel.left))) }
    ensures commands { IfOk result (λ duel. duel.commands ≡ (next_begins (epochs_in duel.left)).command) }
    ensures differ { (k : ℕ) (old past : List Turn) → result ≡ Err (faults.LeaksDiffer k) → C.tells chooser.old past → IsPlayed (keyed_fn K.prf K.pad) key.now 1 (Some old) (Some past) (sides_at start)
        → Told (C.tells chooser.new) (λ now. EndsUnequal (keyed_fn K.prf K.pad) key.now (Some old) (Some now) k) }
    ensures begun { result ≢ Err faults.NoSetup }
{
    let mut game = start;
    for _ in 1..most {
        match turn(alloc, keyed, key, chooser, &mut game) {
            Ok(true) => {}
            Ok(false) => return Ok(ended(game)),
            Err(fault) => {
                drop(game);
                return Err(fault);
            }
        }
    }
    Ok(ended(game))
}

/// The duel that ends there.
fn ended(game: Game) -> Duel
    ensures sides { sides_of result ≡ sides_at game }
    ensures seen { result.seen ≡ game.shown.seen }
    ensures commands { result.commands ≡ game.left.commands }
{
    let Game {
        left,
        right,
        shown,
        skipped,
        ..
    } = game;
    let Shown { seen, .. } = shown;
    let commands = left.commands;
    Duel {
        left: left.epochs,
        right: right.epochs,
        seen,
        skipped,
        commands,
    }
}
