ghost use Rattle.std.specs.Prelude.{◌≡◌, ◌≢◌, ◌≤◌, IfErr, IfOk, Some, length, map, string_bytes, sum_by};
ghost use Rattle.keyed_fn.specs.KeyedFn.{keyed_fn};
ghost use Rattle.script_game.specs.GameTexts as texts;
ghost use Rattle.script_game.specs.GameWords as asks;
ghost use Rattle.sse_game.specs.Rule.{IsDuelOf};
ghost use Rattle.sse_game.specs.Runs.{IsEarlyStop, Prints, RunsDuel, RunsProgram, shows};

use crate::duel::play_duel;
use crate::fault::DuelFault;
use crate::played::RuleChooser;
use keyed_fn::{Keyed, Real};
use outside_words::{CommandLine, behind_name};
use script_game::{Game, GameRule, GameStop, finish_game, game_key, game_line, game_of};
use script_run_texts::StopCause;
use sse_frames::Items;
use sse_outside::{Sink, print_all};
use std::alloc::{AllocError, Global};
use word_keys::MasterKey;

/// What the line of a duel counts.
#[derive(Clone, Copy)]
pub(crate) struct Counts {
    /// The commands of a side, the setup included.
    pub(crate) commands: u32,
    /// The bytes of all that was shown.
    pub(crate) bytes: u64,
}

// Promise P293, also here; clauses: runs
/// All that the program does with a command line and a sink, and the status to end with: it plays the duel under the real keyed function.
/// Words end with `stopped: memory` and 7 if there is no memory to read them in.
pub(crate) fn run_program<W: Sink>(alloc: Global, given: &CommandLine, sink: &mut W) -> u8
    ensures runs { RunsProgram (keyed_fn ⟦<Real as Keyed>⟧.prf ⟦<Real as Keyed>⟧.pad) given.now
        (shows (W.written sink.old) (W.faults sink.old) (W.shortages sink.old)) (shows (W.written sink.new) (W.faults sink.new) (W.shortages sink.new)) result }
{
    match given {
        CommandLine::Words(words) => duel_run(alloc, &Real, behind_name(words), sink),
        CommandLine::NoText => finish_game(sink, GameStop::Run(StopCause::Words)),
        CommandLine::NoMemory => finish_game(sink, GameStop::Run(StopCause::Memory)),
    }
}

// Promise P293 (user): With `duel SEED N` the program plays the duel of the rule, and prints its commands and bytes or why it stopped.
//   clauses: runs; assumes: keyed function, observable devices; checks: .ci/duel; not: Standard output, which isn't observable. That the two sides always leak the same.
/// Plays the duel that the words ask for, prints its line and returns the status: 0; 2 with `stopped: words` for any other words; 4 if
/// the sink failed; 7 with `stopped: memory`; 13 with `stopped: leaks differ at command K` if the two commands of number K, from 0 with
/// the setup, leak something else.
pub(crate) fn duel_run<K: Keyed, W: Sink>(
    alloc: Global,
    keyed: &K,
    words: &[String],
    sink: &mut W,
) -> u8
    ensures runs { RunsDuel (keyed_fn K.prf K.pad) (asks.game_of (map (λ word. string_bytes word) words.now))
        (shows (W.written sink.old) (W.faults sink.old) (W.shortages sink.old)) (shows (W.written sink.new) (W.faults sink.new) (W.shortages sink.new)) result }
{
    match game_of(words) {
        Some(game) => run_game(alloc, keyed, game, sink),
        None => finish_game(sink, GameStop::Run(StopCause::Words)),
    }
}

/// Plays this duel, prints its line and returns the status.
fn run_game<K: Keyed, W: Sink>(alloc: Global, keyed: &K, game: Game, sink: &mut W) -> u8
    requires few { game.turns ≤ 1000 }
    ensures runs { RunsDuel (keyed_fn K.prf K.pad) (Some game)
        (shows (W.written sink.old) (W.faults sink.old) (W.shortages sink.old)) (shows (W.written sink.new) (W.faults sink.new) (W.shortages sink.new)) result }
{
    match play(alloc, keyed, game) {
        Ok(counts) => print_counts(sink, counts),
        Err(stop) => finish_game(sink, stop),
    }
}

/// Prints the line of these counts, and returns the status.
fn print_counts<W: Sink>(sink: &mut W, counts: Counts) -> u8
    ensures prints { Prints (texts.game_line counts.commands counts.bytes)
        (shows (W.written sink.old) (W.faults sink.old) (W.shortages sink.old)) (shows (W.written sink.new) (W.faults sink.new) (W.shortages sink.new)) result }
{
    let line = game_line(counts.commands, counts.bytes);
    match print_all(sink, line.as_str().as_bytes()) {
        Ok(()) => 0,
        Err(fault) => finish_game(sink, GameStop::from(fault)),
    }
}

/// Plays the duel of the rule, and counts.
fn play<K: Keyed>(alloc: Global, keyed: &K, game: Game) -> Result<Counts, GameStop>
    requires few { game.turns ≤ 1000 }
    ensures counts { IfOk result (λ counts. IsDuelOf (keyed_fn K.prf K.pad) game.seed game.turns counts.commands counts.bytes) }
    ensures stops { IfErr result IsEarlyStop }
{
    let key = MasterKey::new(game_key(game.seed));
    let keys = key.prepare(keyed).hash_keys();
    let rule = GameRule::new(alloc, game);
    let mut chooser = RuleChooser { rule, keys };
    let played = play_duel(alloc, keyed, &key, &mut chooser, game.turns + 1);
    drop(chooser);
    match played {
        Ok(duel) => {
            let commands = duel.commands;
            let bytes = bytes_of(duel.seen.as_slice());
            drop(duel);
            match bytes {
                Ok(bytes) => Ok(Counts { commands, bytes }),
                Err(error) => Err(GameStop::from(error)),
            }
        }
        Err(fault) => Err(stop_of(fault)),
    }
}

/// What a duel that began stops for.
fn stop_of(fault: DuelFault) -> GameStop
    requires begun { fault ≢ DuelFault.NoSetup }
    ensures early { IsEarlyStop result }
{
    match fault {
        DuelFault::NoSetup => unreachable!(),
        DuelFault::LeaksDiffer(command) => GameStop::LeaksDiffer(command),
        DuelFault::NoMemory => GameStop::Run(StopCause::Memory),
    }
}

/// How many bytes the texts have. Error: where that is no number of 64 bits.
fn bytes_of(texts: &[Items<u8>]) -> Result<u64, AllocError>
    ensures { IfOk result (λ total. total ≡ sum_by length texts.now) }
{
    let mut total = 0u64;
    for text in texts {
        match total.checked_add(text.as_slice().len() as u64) {
            Some(more) => total = more,
            None => return Err(AllocError),
        }
    }
    Ok(total)
}
