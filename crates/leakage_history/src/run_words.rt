ghost use Rattle.std.specs.Prelude.{◌≡◌, ◌<◌, ◌++◌, ◌∷◌, [], IfOk, List, ℕ, OnOk, Some, bytes_eq, flat_map, length, map, position, slice_get};
ghost use Rattle.client_registry.specs.Documents.{all_words, first_seen};
ghost use Rattle.client_registry.specs.Sized.{run_words, words_named};
ghost use Rattle.client_registry.specs.WordBytes.{word_bytes};
ghost use Rattle.leakage_history.specs.Commands.{command_of};
ghost use Rattle.leakage_history.specs.HashedRun.{run_of};

use crate::command::Command;
use crate::history::History;
use client_registry::{Docs, HashKeys, Word};
use indexmap::IndexSet;
use std::alloc::{AllocError, Global};
use std::marker::Model;

/// The different words of a history, each at its number: those of the setup, then those of each addition and each search, by
/// first appearance.
#[derive(Drop)]
pub struct RunWords {
    words: IndexSet<Word, HashKeys>,
}

impl Model for RunWords {
    ghost use Rattle.std.specs.Prelude.{List, ℕ, map};
    ghost use Rattle.client_registry.specs.WordBytes.{word_bytes};

    ghost Value = { List (List ℕ) };

    ghost view = { λ w. map word_bytes w.words.keys };
}

impl RunWords {
    // Promise P76 (caller): A history's words are numbered by first appearance; copies of documents are equal; a registry can be built from it.
    //   clauses: ensures; assumes: earlier calls
    /// The words of this history, hashed under its keys.
    pub fn of(alloc: Global, history: &History) -> Result<RunWords, AllocError>
        ensures { IfOk result (λ words. words ≡ run_words (run_of history.now)) }
    {
        let mut words = IndexSet::with_hasher(alloc, history.keys());
        insert_setup(&mut words, history.docs())?;
        insert_commands(&mut words, history.commands())?;
        Ok(RunWords { words })
    }

    /// How many words.
    pub fn len(&self) -> usize
        ensures { result ≡ length self.now }
    {
        self.words.len()
    }

    // Promise P76, also here; clauses: ensures
    /// The word of this number, from 0.
    pub fn word(&self, number: usize) -> &Word
        requires { number < length self.now }
        ensures { slice_get self.now number ≡ Some (word_bytes result.now) }
    {
        self.words.get_index(number).unwrap()
    }

    // Promise P76, also here; clauses: ensures
    /// The number of a word, where it is one of them.
    pub fn number_of(&self, word: &Word) -> Option<usize>
        ensures { result ≡ position (bytes_eq (word_bytes word.now)) self.now }
    {
        self.words.get_index_of(word)
    }
}

/// Inserts the words of the setup, where there is none yet.
fn insert_setup(words: &mut IndexSet<Word, HashKeys>, docs: &Docs) -> Result<(), AllocError>
    requires { words.old.keys ≡ [] }
    ensures { OnOk result (map word_bytes words.new.keys ≡ first_seen (all_words docs.now.documents)) }
{
    for number in 0..docs.words() {
        words.insert(*docs.word(number))?;
    }
    Ok(())
}

/// Inserts the words that these commands name, after those of `ws` by first appearance.
fn insert_commands(
    words: &mut IndexSet<Word, HashKeys>,
    commands: &[Command],
) -> Result<(), AllocError>
    ensures { (ws : List (List ℕ)) → map word_bytes words.old.keys ≡ first_seen ws → OnOk result (map word_bytes words.new.keys ≡ first_seen (ws ++ flat_map words_named (map command_of commands.now))) }
{
    for command in commands {
        insert_named(words, command)?;
    }
    Ok(())
}

/// The same of one command.
fn insert_named(words: &mut IndexSet<Word, HashKeys>, command: &Command) -> Result<(), AllocError>
    ensures { (ws : List (List ℕ)) → map word_bytes words.old.keys ≡ first_seen ws → OnOk result (map word_bytes words.new.keys ≡ first_seen (ws ++ words_named (command_of command.now))) }
{
    match command {
        Command::Add(doc) => insert_all(words, doc.words()),
        Command::Delete(_) => Ok(()),
        Command::Search(word) => insert_word(words, word),
    }
}

/// The same of these words.
fn insert_all(words: &mut IndexSet<Word, HashKeys>, more: &[Word]) -> Result<(), AllocError>
    ensures { (ws : List (List ℕ)) → map word_bytes words.old.keys ≡ first_seen ws → OnOk result (map word_bytes words.new.keys ≡ first_seen (ws ++ map word_bytes more.now)) }
{
    for word in more {
        insert_word(words, word)?;
    }
    Ok(())
}

/// The same of one word.
fn insert_word(words: &mut IndexSet<Word, HashKeys>, word: &Word) -> Result<(), AllocError>
    ensures { (ws : List (List ℕ)) → map word_bytes words.old.keys ≡ first_seen ws → OnOk result (map word_bytes words.new.keys ≡ first_seen (ws ++ word_bytes word.now ∷ [])) }
{
    words.insert(*word)?;
    Ok(())
}
