ghost use Rattle.std.specs.Prelude.{◌≡◌, ◌<◌, ◌&&◌, ◌||◌, ◌==◌, ◌++◌, ◌∷◌, [], All, IfOk, List, OnOk, bytes_eq, length, map, true, unwrap_or, ℕ};
ghost use Rattle.std.specs.List.{list_any};
ghost use Rattle.client_registry.specs.Command.{Command as Meant};
ghost use Rattle.client_registry.specs.IdNumber.{id_number};
ghost use Rattle.client_registry.specs.Numbered.{words_by_number};
ghost use Rattle.client_registry.specs.Registered.{Represents, facts, known_words};
ghost use Rattle.client_registry.specs.Setup.{Setup};
ghost use Rattle.client_registry.specs.WordBytes.{word_bytes};
ghost use Rattle.leakage_values.specs.Replayed.{Follows, HasApart, has_pair, has_search};
ghost use Rattle.leakage_history.specs.Commands.{command_of};
ghost use Rattle.leakage_history.specs.Refusal.{is_accepted_by};
ghost use Rattle.sse_model.specs.Drawn.{searches_for, sends_number};

use client_registry::{DocId, HashKeys, Registry, Word};
use indexmap::IndexSet;
use leakage_history::{Command, History, register};
use std::alloc::{AllocError, Global};

/// Pairs of a word and an identifier.
pub(crate) type Pairs = IndexSet<(Word, DocId), HashKeys>;

/// What the commands of a history so far have listed, and which values they have drawn: the pairs whose revocation number was
/// sent, and the words that were searched.
#[derive(Drop)]
pub(crate) struct Replay {
    pub(crate) registry: Registry,
    pub(crate) sent: Pairs,
    pub(crate) searched: IndexSet<Word, HashKeys>,
}

/// Whether a pair is among these.
pub(crate) fn is_pair(sent: &Pairs, word: &Word, id: DocId) -> bool
    ensures { result ≡ has_pair (word_bytes word.now) (id_number id) sent.now.keys }
{
    sent.contains(&(*word, id))
}

/// Whether a word is among these.
pub(crate) fn is_searched(searched: &IndexSet<Word, HashKeys>, word: &Word) -> bool
    ensures { result ≡ has_search (word_bytes word.now) searched.now.keys }
{
    searched.contains(word)
}

/// A word is searched.
fn mark_word(searched: &mut IndexSet<Word, HashKeys>, word: &Word) -> Result<(), AllocError>
    ensures { OnOk result ((w : List ℕ) → has_search w searched.new.keys ≡ (has_search w searched.old.keys || bytes_eq w (word_bytes word.now))) }
{
    searched.insert(*word)?;
    Ok(())
}

/// The revocation number of a pair is sent.
fn mark_pair(sent: &mut Pairs, word: &Word, id: DocId) -> Result<(), AllocError>
    ensures { OnOk result ((w : List ℕ) (n : ℕ) → has_pair w n sent.new.keys ≡ (has_pair w n sent.old.keys || bytes_eq w (word_bytes word.now) && n == id_number id)) }
{
    sent.insert((*word, id))?;
    Ok(())
}

/// The same of a pair that is listed, and nothing of another.
fn mark_if_listed(
    sent: &mut Pairs,
    registry: &Registry,
    word: &Word,
    id: DocId,
) -> Result<(), AllocError>
    ensures { OnOk result ((w : List ℕ) (n : ℕ) → has_pair w n sent.new.keys ≡ (has_pair w n sent.old.keys || (bytes_eq w (word_bytes word.now) && n == id_number id) && (facts registry.now).listed w n)) }
{
    if registry.is_listed(word, id) {
        mark_pair(sent, word, id)?;
    }
    Ok(())
}

/// An addition of this identifier and these words: it sends the numbers of the pairs that are listed.
fn mark_addition(
    sent: &mut Pairs,
    registry: &Registry,
    words: &[Word],
    id: DocId,
) -> Result<(), AllocError>
    ensures { OnOk result ((w : List ℕ) (n : ℕ) → has_pair w n sent.new.keys ≡ (has_pair w n sent.old.keys || (list_any (bytes_eq w) (map word_bytes words.now) && n == id_number id) && (facts registry.now).listed w n)) }
{
    for word in words {
        mark_if_listed(sent, registry, word, id)?;
    }
    Ok(())
}

/// A deletion of this identifier, whose document has the words of these numbers.
fn mark_deletion(
    sent: &mut Pairs,
    registry: &Registry,
    numbers: &[u32],
    id: DocId,
) -> Result<(), AllocError>
    requires { All (λ n. n < length (known_words registry.now)) numbers.now }
    ensures { OnOk result ((w : List ℕ) (n : ℕ) → has_pair w n sent.new.keys ≡ (has_pair w n sent.old.keys || list_any (bytes_eq w) (words_by_number (known_words registry.now) numbers.now) && n == id_number id)) }
{
    for number in numbers {
        mark_pair(sent, registry.word(*number as usize), id)?;
    }
    Ok(())
}

/// A deletion of the live document of this identifier.
fn mark_live(sent: &mut Pairs, registry: &Registry, id: DocId) -> Result<(), AllocError>
    ensures { OnOk result ((w : List ℕ) (n : ℕ) → has_pair w n sent.new.keys ≡ (has_pair w n sent.old.keys || list_any (bytes_eq w) (unwrap_or ((facts registry.now).live (id_number id)) []) && n == id_number id)) }
{
    match registry.get(id) {
        Some(doc) => mark_deletion(sent, registry, doc.numbers, id),
        None => Ok(()),
    }
}

/// What a command sends and searches is marked.
fn mark(
    sent: &mut Pairs,
    searched: &mut IndexSet<Word, HashKeys>,
    registry: &Registry,
    command: &Command,
) -> Result<(), AllocError>
    ensures sent { OnOk result ((s : Setup) (past : List Meant) → Represents registry.now s past → HasApart s past → (w : List ℕ) (n : ℕ) → has_pair w n sent.new.keys ≡ (has_pair w n sent.old.keys || sends_number s w n past (command_of command.now))) }
    ensures searched { OnOk result ((w : List ℕ) → has_search w searched.new.keys ≡ (has_search w searched.old.keys || searches_for w (command_of command.now))) }
{
    match command {
        Command::Add(doc) => mark_addition(sent, registry, doc.words(), doc.id()),
        Command::Delete(id) => mark_live(sent, registry, *id),
        Command::Search(word) => mark_word(searched, word),
    }
}

impl Replay {
    /// What is so of a history before its commands.
    pub(crate) fn begin(alloc: Global, history: &History) -> Result<Replay, AllocError>
        ensures { IfOk result (λ replay. Follows replay history.now.setup []) }
    {
        Ok(Replay {
            registry: history.begun_registry(alloc)?,
            sent: IndexSet::with_hasher(alloc, history.keys()),
            searched: IndexSet::with_hasher(alloc, history.keys()),
        })
    }

    /// Takes a command that is accepted after those that it was told.
    pub(crate) fn take(&mut self, command: &Command) -> Result<(), AllocError>
        requires { is_accepted_by (facts self.old.registry) (command_of command.now) ≡ true }
        ensures { OnOk result ((s : Setup) (past : List Meant) → Follows self.old s past → HasApart s past → Follows self.new s (past ++ command_of command.now ∷ [])) }
    {
        mark(&mut self.sent, &mut self.searched, &self.registry, command)?;
        register(&mut self.registry, command)
    }
}
