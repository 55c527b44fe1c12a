ghost use Rattle.std.specs.Prelude.{◌≡◌, ◌≤◌, IfSome, map, string_bytes};
ghost use Rattle.script_game.specs.GameWords as asks;

use program_words::number_within;

/// Which duel the words `duel SEED N` ask for.
#[derive(Clone, Copy)]
pub struct Game {
    /// The seed, from 0 to 999,999.
    pub seed: u32,
    /// How many turns follow the setup, from 0 to 1,000.
    pub turns: u32,
}

/// The duel that the words after the program's name ask for; none if they aren't right.
pub fn game_of(words: &[String]) -> Option<Game>
    ensures game { result ≡ asks.game_of (map (λ word. string_bytes word) words.now) }
    ensures few { IfSome result (λ game. game.turns ≤ 1000) }
{
    match words {
        [word, seed, turns] if word.as_str() == "duel" => game_by(
            number_within(seed.as_str(), 0, 999_999),
            number_within(turns.as_str(), 0, 1_000),
        ),
        _ => None,
    }
}

/// The duel of the two numbers.
fn game_by(seed: Option<u32>, turns: Option<u32>) -> Option<Game>
    requires { IfSome turns (λ n. n ≤ 1000) }
    ensures game { result ≡ asks.game_by seed turns }
    ensures few { IfSome result (λ game. game.turns ≤ 1000) }
{
    let seed = seed?;
    let turns = turns?;
    Some(Game { seed, turns })
}
