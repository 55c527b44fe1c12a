//! The script of `duel SEED N`: what its words ask for, the rule by which each turn is chosen, the documents of both
//! sides, the key, and the lines that are printed. Both sides have the documents 1 to 4 and add others alike, each with
//! the word `s` and a word of its side. It depends on `program_words` for numbers, on `script_made_lines` for the key
//! of a seed, and on `script_documents` and `client_registry` for words and documents.
//! Proved: a choice is that of the rule (`game_choice` of specs/GameRule.antt), and each value and line is that of its
//! definition, or memory ran out.
//! Not here: playing the duel, which is in the program `sse_game`.
//! Side: client.
#![tactic(auto)]

mod game;
mod game_choice;
mod game_documents;
mod game_rule;
mod game_side;
mod game_stop;
mod key;
mod last_line;
mod printed;

pub use game::{Game, game_of};
pub use game_choice::GameChoice;
pub use game_documents::{game_docs, game_document, game_sizes, game_word};
pub use game_rule::GameRule;
pub use game_side::GameSide;
pub use game_stop::GameStop;
pub use key::game_key;
pub use last_line::finish_game;
pub use printed::{GameLine, game_line};
