ghost use Rattle.std.specs.Prelude.{◌≡◌, ◌+◌, ◌%◌, ◌≤◌, All, IfOk, IfSome, List, OnErr, Some, [], slice_get, ℕ};
ghost use Rattle.std.specs.List.{sum};
ghost use Rattle.script_game.specs.GameRule.{HasIdentifier, above_100, added_after, choice_by, choice_with, game_choice, state_after};

use crate::game::Game;
use crate::game_choice::GameChoice;
use std::alloc::{AllocError, Global};
use std::marker::Model;

/// The rule of choice of `duel SEED N`, and what it needs to know of the turns so far.
#[derive(Drop)]
pub struct GameRule {
    game: Game,
    /// The number of the next turn; that of the setup is 0.
    turn: u32,
    /// The live identifiers above 100, rising.
    added: Vec<u64>,
}

impl Model for GameRule {
    ghost use Rattle.std.specs.Prelude.{◌≤◌, ◌+◌, All};
    ghost use Rattle.script_game.specs.GameRule.{RuleState};

    ghost Value = { RuleState };

    ghost view = { λ r. record { seed = r.game.seed; turns = r.game.turns; turn = r.turn; added = r.added.items } };

    ghost invariant = { λ r. (r.game.turns ≤ 1000) × (r.turn ≤ r.game.turns + 1) × All (λ id. 1 ≤ id) r.added.items };
}

impl GameRule {
    /// The rule of this duel, before its setup.
    pub fn new(alloc: Global, game: Game) -> GameRule
        requires { game.turns ≤ 1000 }
        ensures { result ≡ record { seed = game.seed; turns = game.turns; turn = 0; added = [] } }
    {
        GameRule {
            game,
            turn: 0,
            added: Vec::new(alloc),
        }
    }

    // Promise P292 (caller): A choice of `duel SEED N` is that of its rule, by the live identifiers and the last text shown.
    //   clauses: follows, after, identifier, few, err; assumes: earlier calls
    /// The choice of the next turn, the last text that was shown having these bytes; none after the last turn.
    ///
    /// Error: out of memory, and then the rule is as before.
    pub fn next(&mut self, last: &[u8]) -> Result<Option<GameChoice>, AllocError>
        ensures follows { (live : List ℕ) → above_100 live ≡ self.old.added → IfOk result (λ choice. choice ≡ game_choice self.old.seed self.old.turns self.old.turn live last.now) }
        ensures after { IfOk result (λ choice. self.new ≡ state_after self.old choice) }
        ensures identifier { IfOk result (λ choice. IfSome choice HasIdentifier) }
        ensures few { (self.old.turns ≤ 1000) × (self.old.turn ≤ self.old.turns + 1) }
        ensures err { OnErr result (self.new ≡ self.old) }
    {
        if self.turn > self.game.turns {
            return Ok(None);
        }
        let choice = if self.turn == 0 {
            GameChoice::SetUp
        } else {
            let least = self.added.first().copied();
            choice_by(number_of(self.game.seed, self.turn, last), self.turn, least)
        };
        take(&mut self.added, choice)?;
        self.turn += 1;
        Ok(Some(choice))
    }
}

/// The choice of a turn after the setup, by a number below 3 and the least live identifier above 100.
fn choice_by(x: u32, turn: u32, least: Option<u64>) -> GameChoice
    requires { IfSome least (λ id. 1 ≤ id) }
    ensures choice { result ≡ choice_by x turn least }
    ensures identifier { HasIdentifier result }
{
    match (x, least) {
        (0, _) => GameChoice::Search,
        (1, _) => GameChoice::Add(100 + u64::from(turn)),
        (_, Some(id)) => GameChoice::Delete(id),
        (_, None) => GameChoice::Search,
    }
}

/// The remainder by 3 of the seed, the turn and the sum of the bytes.
fn number_of(seed: u32, turn: u32, bytes: &[u8]) -> u32
    ensures { result ≡ (seed + turn + sum bytes.now) % 3 }
{
    let mut x = (seed % 3 + turn % 3) % 3;
    for byte in bytes {
        x = (x + u32::from(*byte)) % 3;
    }
    x
}

/// The live identifiers above 100 after a choice.
fn take(added: &mut Vec<u64>, choice: GameChoice) -> Result<(), AllocError>
    requires added { All (λ id. 1 ≤ id) added.old.items }
    requires identifier { HasIdentifier choice }
    ensures added { All (λ id. 1 ≤ id) added.new.items }
    ensures after { IfOk result (λ _. added.new.items ≡ added_after added.old.items choice) }
    ensures err { OnErr result (added.new.items ≡ added.old.items) }
{
    match choice {
        GameChoice::SetUp | GameChoice::Search => Ok(()),
        GameChoice::Add(id) => {
            added.push(id)?;
            Ok(())
        }
        GameChoice::Delete(_) => {
            if !added.is_empty() {
                added.remove(0);
            }
            Ok(())
        }
    }
}
