ghost use Rattle.std.specs.Prelude.{◌≡◌, ◌<◌, ◌^◌, length};
ghost use Rattle.client_registry.specs.WordBytes.{word_bytes};
ghost use Rattle.leakage_values.specs.Numbered.{number_of_word};

use client_registry::Word;
use leakage_history::RunWords;
use leakage_names::{NO_WORD, Name, NameKind};

/// The number of a word of the history.
pub(crate) fn number_of(words: &RunWords, word: &Word) -> u32
    requires { length words.now < 2 ^ 32 }
    ensures { result ≡ number_of_word words.now (word_bytes word.now) }
{
    match words.number_of(word) {
        Some(number) => number as u32,
        None => NO_WORD,
    }
}

/// The name of this epoch, word, kind and number.
pub(crate) fn name(epoch: u32, word: u32, kind: NameKind, number: u64) -> Name
    ensures { result ≡ record { epoch = epoch; word = word; kind = kind; number = number } }
{
    Name {
        epoch,
        word,
        kind,
        number,
    }
}
