ghost use Rattle.std.specs.Prelude.{◌≡◌, [], IfOk, List, ℕ};
ghost use Rattle.keyed_fn.specs.KeyedFn.{KeyedFn};
ghost use Rattle.script_game.specs.GameRule.{HasIdentifier};
ghost use Rattle.sse_game.specs.Rule as rules;
ghost use Rattle.sse_game.specs.Rule.{HasToldRule};
ghost use Rattle.sse_game.specs.Views.{choice_view, pair_view};

use crate::choice::{Choice, NewSetup, Pair};
use crate::chooser::Chooser;
use client_registry::{DocId, HashKeys};
use leakage_history::Command;
use script_game::{
    GameChoice, GameRule, GameSide, game_docs, game_document, game_sizes, game_word,
};
use sse_frames::Items;
use std::alloc::{AllocError, Global};

/// The chooser of `duel SEED N`, which follows its rule. It keeps none of what it was shown.
#[derive(Drop)]
pub(crate) struct RuleChooser {
    pub(crate) rule: GameRule,
    /// The keys under which documents and words are hashed.
    pub(crate) keys: HashKeys,
}

impl Chooser for RuleChooser {
    ghost tells = { λ chooser told. (f : KeyedFn) (key : List ℕ) → HasToldRule f key chooser.rule told };

    fn next(&mut self, alloc: Global, seen: &Items<Items<u8>>) -> Result<Option<Pair>, AllocError> {
        match self.rule.next(last_text(seen.as_slice()))? {
            Some(choice) => Ok(Some(pair_by(alloc, self.keys, choice)?)),
            None => Ok(None),
        }
    }
}

/// The last of the texts; nothing if there is none.
fn last_text(texts: &[Items<u8>]) -> &[u8]
    ensures { result.now ≡ rules.last_text texts.now }
{
    match texts {
        [] => &[],
        [.., text] => text.as_slice(),
    }
}

/// A choice as a pair of commands.
pub(crate) fn pair_by(alloc: Global, keys: HashKeys, choice: GameChoice) -> Result<Pair, AllocError>
    requires { HasIdentifier choice }
    ensures { IfOk result (λ pair. pair_view pair ≡ rules.pair_by choice) }
{
    let left = choice_on(alloc, keys, GameSide::Left, choice)?;
    match choice_on(alloc, keys, GameSide::Right, choice) {
        Ok(right) => Ok(Pair { left, right }),
        Err(error) => {
            drop(left);
            Err(error)
        }
    }
}

/// A choice as the command of one side.
fn choice_on(
    alloc: Global,
    keys: HashKeys,
    side: GameSide,
    choice: GameChoice,
) -> Result<Choice, AllocError>
    requires { HasIdentifier choice }
    ensures { IfOk result (λ own. choice_view own ≡ rules.choice_on side choice) }
{
    match choice {
        GameChoice::SetUp => {
            let docs = game_docs(alloc, keys, side)?;
            let sizes = game_sizes();
            Ok(Choice::SetUp(NewSetup { docs, sizes }))
        }
        GameChoice::Search => Ok(Choice::Do(Command::Search(game_word()))),
        GameChoice::Add(id) => {
            let doc = game_document(alloc, id, side)?;
            Ok(Choice::Do(Command::Add(doc)))
        }
        GameChoice::Delete(id) => match DocId::new(id) {
            Ok(id) => Ok(Choice::Do(Command::Delete(id))),
            Err(_) => unreachable!(),
        },
    }
}
