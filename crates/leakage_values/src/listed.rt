ghost use Rattle.std.specs.Prelude.{◌≡◌, ◌<◌, ◌&&◌, ◌++◌, ◌∷◌, [], All, IfOk, List, OnOk, bytes_eq, false, length, map, not, true};
ghost use Rattle.std.specs.List.{IsDistinct, list_any};
ghost use Rattle.client_registry.specs.Command.{Command as Meant};
ghost use Rattle.client_registry.specs.Documents.{ids_with, words_of};
ghost use Rattle.client_registry.specs.IdNumber.{id_number};
ghost use Rattle.client_registry.specs.Numbered.{words_by_number};
ghost use Rattle.client_registry.specs.Registered.{Represents, facts};
ghost use Rattle.client_registry.specs.Setup.{Setup};
ghost use Rattle.client_registry.specs.WordBytes.{word_bytes};
ghost use Rattle.client_registry.specs.declared.word.Word.{Word as WordText};
ghost use Rattle.leakage_history.specs.Commands.{command_of};
ghost use Rattle.leakage_history.specs.Refusal.{is_accepted_by};
ghost use Rattle.leakage_values.specs.Listed.{IsListing, Lists, ListsFor, ids_in};

use client_registry::{DocId, Docs, HashKeys, Registry, Word};
use indexmap::IndexMap;
use leakage_history::{Command, History, register};
use sse_frames::Items;
use std::alloc::{AllocError, Global};

/// The identifiers that are listed with each word, in the order in which they were.
pub(crate) type Table = IndexMap<Word, Items<DocId>, HashKeys>;

/// What the commands of a history so far have listed and counted, and the identifiers by the word.
#[derive(Drop)]
pub(crate) struct Listing {
    pub(crate) registry: Registry,
    pub(crate) table: Table,
}

/// Takes the identifiers of a word out of the table.
fn taken(table: &mut Table, word: &Word) -> Items<DocId>
    ensures ids { map id_number result ≡ ids_in table.old.entries word.now }
    ensures others { (w : WordText) → bytes_eq (word_bytes word.now) (word_bytes w) ≡ false → ids_in table.new.entries w ≡ ids_in table.old.entries w }
{
    match table.swap_remove(word) {
        Some(ids) => ids,
        None => Items::new(*table.allocator()),
    }
}

/// Lists an identifier with a word, behind the others.
fn list(table: &mut Table, word: &Word, id: DocId) -> Result<(), AllocError>
    ensures { OnOk result (ListsFor table.old.entries table.new.entries (id_number id) (λ w. bytes_eq w (word_bytes word.now))) }
{
    let mut ids = taken(table, word);
    ids.push(id)?;
    table.insert(*word, ids)?;
    Ok(())
}

/// The same where the pair isn't listed.
fn list_if_new(
    table: &mut Table,
    registry: &Registry,
    word: &Word,
    id: DocId,
) -> Result<(), AllocError>
    ensures { OnOk result (ListsFor table.old.entries table.new.entries (id_number id) (λ w. bytes_eq w (word_bytes word.now) && not ((facts registry.now).listed w (id_number id)))) }
{
    if !registry.is_listed(word, id) {
        list(table, word, id)?;
    }
    Ok(())
}

/// The same of the words of a document that is added.
fn list_addition(
    table: &mut Table,
    registry: &Registry,
    words: &[Word],
    id: DocId,
) -> Result<(), AllocError>
    requires { IsDistinct bytes_eq (map word_bytes words.now) }
    ensures { OnOk result (ListsFor table.old.entries table.new.entries (id_number id) (λ w. list_any (bytes_eq w) (map word_bytes words.now) && not ((facts registry.now).listed w (id_number id)))) }
{
    for word in words {
        list_if_new(table, registry, word, id)?;
    }
    Ok(())
}

/// Lists an identifier with the words of these numbers, of a document of the setup.
fn list_document(
    table: &mut Table,
    docs: &Docs,
    numbers: &[u32],
    id: DocId,
) -> Result<(), AllocError>
    requires within { All (λ n. n < length (words_of docs.now.documents)) numbers.now }
    requires differ { IsDistinct bytes_eq (words_by_number (words_of docs.now.documents) numbers.now) }
    ensures { OnOk result (ListsFor table.old.entries table.new.entries (id_number id) (λ w. list_any (bytes_eq w) (words_by_number (words_of docs.now.documents) numbers.now))) }
{
    for number in numbers {
        list(table, docs.word(*number as usize), id)?;
    }
    Ok(())
}

/// Lists the documents of a setup.
fn list_setup(table: &mut Table, docs: &Docs) -> Result<(), AllocError>
    requires { table.old.entries ≡ [] }
    ensures { OnOk result ((w : WordText) → ids_in table.new.entries w ≡ ids_with docs.now.documents (word_bytes w)) }
{
    for i in 0..docs.len() {
        let doc = docs.get(i);
        list_document(table, docs, doc.numbers, doc.id)?;
    }
    Ok(())
}

/// Lists what a command lists, before the registry is told of it.
fn list_command(table: &mut Table, registry: &Registry, command: &Command) -> Result<(), AllocError>
    ensures { OnOk result ((s : Setup) (past : List Meant) → Represents registry.now s past → Lists table.old.entries s past → Lists table.new.entries s (past ++ command_of command.now ∷ [])) }
{
    match command {
        Command::Add(doc) => list_addition(table, registry, doc.words(), doc.id()),
        Command::Delete(_) => Ok(()),
        Command::Search(_) => Ok(()),
    }
}

impl Listing {
    /// What is so of a history before its commands.
    pub(crate) fn begin(alloc: Global, history: &History) -> Result<Listing, AllocError>
        ensures { IfOk result (λ listing. IsListing listing history.now.setup []) }
    {
        let mut table = IndexMap::with_hasher(alloc, history.keys());
        list_setup(&mut table, history.docs())?;
        let registry = history.begun_registry(alloc)?;
        Ok(Listing { registry, table })
    }

    /// Takes a command that is accepted after those that it was told.
    pub(crate) fn take(&mut self, command: &Command) -> Result<(), AllocError>
        requires { is_accepted_by (facts self.old.registry) (command_of command.now) ≡ true }
        ensures { OnOk result ((s : Setup) (past : List Meant) → IsListing self.old s past → IsListing self.new s (past ++ command_of command.now ∷ [])) }
    {
        list_command(&mut self.table, &self.registry, command)?;
        register(&mut self.registry, command)
    }

    /// The identifiers that are listed with a word.
    pub(crate) fn ids(&self, word: &Word) -> &[DocId]
        ensures { map id_number result.now ≡ ids_in self.now.table.entries word.now }
    {
        match self.table.get(word) {
            Some(ids) => ids.as_slice(),
            None => &[],
        }
    }
}
