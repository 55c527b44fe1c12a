ghost use Rattle.std.specs.Prelude.{◌≡◌, ◌+◌, ◌<◌, ◌^◌, ◌++◌, ◌∷◌, [], ℕ, All, IfOk, List, OnOk, Some, bytes_eq, length, map, position, unwrap_or};
ghost use Rattle.std.specs.List.{IsDistinct};
ghost use Rattle.indexmap.specs.IndexMap.{hasher_of, index_map_len};
ghost use Rattle.client_registry.proofs.OrderLaws.{AreApart};
ghost use Rattle.client_registry.specs.Command.{Command as Meant};
ghost use Rattle.client_registry.specs.IdNumber.{id_number};
ghost use Rattle.client_registry.specs.Numbered.{words_by_number};
ghost use Rattle.client_registry.specs.Live.{live};
ghost use Rattle.client_registry.specs.Registered.{Represents, facts, known_words};
ghost use Rattle.client_registry.specs.Run.{Offsets};
ghost use Rattle.client_registry.specs.Setup.{Setup};
ghost use Rattle.client_registry.specs.WordBytes.{word_bytes};
ghost use Rattle.leakage_history.specs.Commands.{command_of};
ghost use Rattle.leakage_model.specs.TrailFacts.{ChangesAt, ChangesEach, Tells, facts_in};
ghost use Rattle.leakage_model.specs.WordFacts.{added_at, deleted_at, searched_by};
ghost use Rattle.leakage_frames.specs.Views.{origin_view};
ghost use Rattle.def_leakage.specs.Firsts.{origin};

use crate::word_trail::WordTrail;
use client_registry::{DocId, HashKeys, Registry, Word};
use indexmap::IndexMap;
use leakage_frames::Origin;
use leakage_history::Command;
use std::alloc::AllocError;

/// What a server can know of each word that a command named, by the word.
pub(crate) type Table = IndexMap<Word, WordTrail, HashKeys>;

/// The place of a word, which has an entry from then on.
pub(crate) fn place_in(words: &mut Table, word: &Word) -> Result<usize, AllocError>
    ensures same { (w : List ℕ) → facts_in words.new.entries w ≡ facts_in words.old.entries w }
    ensures place { IfOk result (λ place. position (bytes_eq (word_bytes word.now)) (map (λ e. word_bytes e.0) words.new.entries) ≡ Some place) }
    ensures within { IfOk result (λ place. place < index_map_len words.new) }
    ensures hasher { OnOk result (hasher_of words.new ≡ hasher_of words.old) }
{
    if let Some(place) = words.get_index_of(word) {
        return Ok(place);
    }
    let place = words.len();
    let trail = WordTrail::new(*words.allocator(), *words.hasher());
    words.insert(*word, trail)?;
    Ok(place)
}

/// A document of this identifier is added, in which the word stands there.
pub(crate) fn add_word(
    words: &mut Table,
    word: &Word,
    id: DocId,
    there: Origin,
) -> Result<(), AllocError>
    ensures { OnOk result (ChangesAt words.old.entries words.new.entries (word_bytes word.now) (added_at (id_number id) (origin_view there))) }
{
    let place = place_in(words, word)?;
    let trail = &mut words[place];
    trail.add(id, there)
}

/// The document of this identifier is deleted, in which the word stands there.
pub(crate) fn delete_word(words: &mut Table, word: &Word, id: DocId, there: Origin)
    ensures { ChangesAt words.old.entries words.new.entries (word_bytes word.now) (deleted_at (id_number id) (origin_view there)) }
{
    if let Some(place) = words.get_index_of(word) {
        let trail = &mut words[place];
        trail.delete(id, there);
    }
}

/// A command searches for the word.
pub(crate) fn search_word(words: &mut Table, word: &Word, command: u32) -> Result<(), AllocError>
    ensures { OnOk result (ChangesAt words.old.entries words.new.entries (word_bytes word.now) (searched_by command)) }
{
    let place = place_in(words, word)?;
    let trail = &mut words[place];
    trail.search(command);
    Ok(())
}

/// A command adds a document of this identifier and these words.
pub(crate) fn add_words(
    words: &mut Table,
    of: &[Word],
    id: DocId,
    command: u32,
) -> Result<(), AllocError>
    requires differ { IsDistinct bytes_eq (map word_bytes of.now) }
    requires few { length of.now < 2 ^ 32 }
    ensures { OnOk result (ChangesEach words.old.entries words.new.entries (map word_bytes of.now) (λ place. added_at (id_number id) (origin command place))) }
{
    for (place, word) in of.iter().enumerate() {
        let there = Origin {
            command,
            place: place as u32,
        };
        add_word(words, word, id, there)?;
    }
    Ok(())
}

/// A command deletes the document of this identifier and the words of these numbers.
pub(crate) fn delete_words(
    words: &mut Table,
    registry: &Registry,
    numbers: &[u32],
    id: DocId,
    command: u32,
)
    requires within { All (λ n. n < length (known_words registry.now)) numbers.now }
    requires differ { IsDistinct bytes_eq (words_by_number (known_words registry.now) numbers.now) }
    requires few { length numbers.now < 2 ^ 32 }
    ensures { ChangesEach words.old.entries words.new.entries (words_by_number (known_words registry.now) numbers.now) (λ place. deleted_at (id_number id) (origin command place)) }
{
    for (place, number) in numbers.iter().enumerate() {
        let there = Origin {
            command,
            place: place as u32,
        };
        delete_word(words, registry.word(*number as usize), id, there);
    }
}

/// A command deletes the live document of this identifier, where there is one.
fn delete_document(words: &mut Table, registry: &Registry, id: DocId, command: u32)
    ensures { ChangesEach words.old.entries words.new.entries (unwrap_or ((facts registry.now).live (id_number id)) []) (λ place. deleted_at (id_number id) (origin command place)) }
{
    if let Some(doc) = registry.get(id) {
        delete_words(words, registry, doc.numbers, id, command);
    }
}

/// A command of this number is taken, before the registry is told of it.
pub(crate) fn take(
    words: &mut Table,
    registry: &Registry,
    command: &Command,
    number: u32,
) -> Result<(), AllocError>
    ensures { (o : Offsets) (s : Setup) (past : List Meant) →
        Tells words.old.entries o s past → Represents registry.now s past → number ≡ o.command + 1 + length past → AreApart (map (λ d. d.id) (live s.documents past))
        → OnOk result (Tells words.new.entries o s (past ++ command_of command.now ∷ [])) }
{
    match command {
        Command::Add(doc) => add_words(words, doc.words(), doc.id(), number),
        Command::Delete(id) => {
            delete_document(words, registry, *id, number);
            Ok(())
        }
        Command::Search(word) => search_word(words, word, number),
    }
}
