ghost use Rattle.std.specs.Prelude.{◌≡◌, ◌<◌, ◌^◌, ◌++◌, ◌∷◌, [], IfOk, List, None, OnOk, length, map, true};
ghost use Rattle.client_registry.specs.Acceptance.{size_refusal};
ghost use Rattle.client_registry.specs.Command.{Command as Meant};
ghost use Rattle.client_registry.specs.Registered.{facts};
ghost use Rattle.client_registry.specs.Run.{Offsets};
ghost use Rattle.client_registry.specs.Setup.{Setup};
ghost use Rattle.client_registry.specs.Sized.{run_words};
ghost use Rattle.leakage_history.specs.Commands.{command_of};
ghost use Rattle.leakage_history.specs.Refusal.{is_accepted_by};
ghost use Rattle.leakage_history.specs.HashedRun.{run_of};
ghost use Rattle.leakage_values.specs.Numbered.{numbered_drawing};
ghost use Rattle.leakage_values.specs.Replayed.{Follows, HasApart};
ghost use Rattle.def_leakage.specs.DrawnValues as model;
ghost use Rattle.def_leakage.specs.DrawnValues.{drawings_by};

use crate::commands::command_drawings;
use crate::drawn::Drawing;
use crate::replay::Replay;
use crate::setup::setup_drawings;
use leakage_history::{Command, History, RunWords};
use sse_frames::Items;
use std::alloc::{AllocError, Global};

/// Appends what the values of a command are drawn for, and takes the command.
fn take_turn(
    alloc: Global,
    all: &mut Items<Items<Drawing>>,
    replay: &mut Replay,
    words: &RunWords,
    command: &Command,
    epoch: u32,
) -> Result<(), AllocError>
    requires accepted { is_accepted_by (facts replay.old.registry) (command_of command.now) ≡ true }
    requires few { length words.now < 2 ^ 32 }
    ensures drawn { OnOk result ((s : Setup) (past : List Meant) → Follows replay.old s past → HasApart s past → all.new ≡ all.old ++ map (numbered_drawing words.now) (drawings_by epoch s past (command_of command.now)) ∷ []) }
    ensures follows { OnOk result ((s : Setup) (past : List Meant) → Follows replay.old s past → HasApart s past → Follows replay.new s (past ++ command_of command.now ∷ [])) }
{
    all.push(command_drawings(alloc, replay, words, command, epoch)?)?;
    replay.take(command)
}

/// What the values of each command are drawn for, where these are the words of the history by number.
fn drawings_by_number(
    alloc: Global,
    history: &History,
    words: &RunWords,
    epoch: u32,
) -> Result<Items<Items<Drawing>>, AllocError>
    requires accepted { size_refusal history.now.setup ≡ None }
    requires few { length words.now < 2 ^ 32 }
    ensures { IfOk result (λ all. (o : Offsets) → o.epoch ≡ epoch → all ≡ map (map (numbered_drawing words.now)) (model.drawings o (run_of history.now))) }
{
    let mut all = Items::new(alloc);
    all.push(setup_drawings(alloc, history, words, epoch)?)?;
    if history.commands().is_empty() {
        return Ok(all);
    }
    let mut replay = Replay::begin(alloc, history)?;
    for command in history.commands() {
        match take_turn(alloc, &mut all, &mut replay, words, command, epoch) {
            Ok(()) => {}
            Err(error) => {
                drop((all, replay));
                return Err(error);
            }
        }
    }
    drop(replay);
    Ok(all)
}

// Promise P35 (caller): For every history a program gets, by command, the purposes of its drawn values and their names; or memory runs out.
//   clauses: ensures; assumes: accepted setup; not: A value of any name: no key is known here.
/// For each command of a history, as that of this epoch, the setup first, what its values are drawn for: of the setup the entries
/// by word number, those of dummies, the blocks by word and block number, those of dummies; of an addition each new entry, in the
/// order of its words; of a deletion each revocation number that wasn't sent before, in the order of the words; of a search the
/// token of a word that wasn't searched before. Error: where there is no memory, or no number of 32 bits for a word.
pub fn drawings(
    alloc: Global,
    history: &History,
    epoch: u32,
) -> Result<Items<Items<Drawing>>, AllocError>
    requires { size_refusal history.now.setup ≡ None }
    ensures { IfOk result (λ all. (o : Offsets) → o.epoch ≡ epoch → all ≡ map (map (numbered_drawing (run_words (run_of history.now)))) (model.drawings o (run_of history.now))) }
{
    let words = RunWords::of(alloc, history)?;
    if words.len() > u32::MAX as usize {
        return Err(AllocError);
    }
    drawings_by_number(alloc, history, &words, epoch)
}
