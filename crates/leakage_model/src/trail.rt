ghost use Rattle.std.specs.Prelude.{◌≡◌, ◌+◌, ◌<◌, ◌^◌, ◌++◌, ◌∷◌, [], IfOk, List, None, OnOk, option_map, true};
ghost use Rattle.client_registry.specs.Acceptance.{size_refusal};
ghost use Rattle.client_registry.specs.Command.{Command as Meant};
ghost use Rattle.client_registry.specs.IdNumber.{id_number};
ghost use Rattle.client_registry.specs.Live.{is_listed};
ghost use Rattle.client_registry.specs.Registered.{Represents, facts};
ghost use Rattle.client_registry.specs.Run.{Offsets, at_first};
ghost use Rattle.client_registry.specs.Setup.{Setup};
ghost use Rattle.client_registry.specs.WordBytes.{word_bytes};
ghost use Rattle.leakage_history.specs.Commands.{command_of};
ghost use Rattle.leakage_history.specs.Refusal.{is_accepted_by};
ghost use Rattle.leakage_model.specs.TrailFacts.{Follows, HashesUnder};
ghost use Rattle.leakage_frames.specs.Views.{origin_view, word_view};
ghost use Rattle.def_leakage.specs.Firsts.{first_search, number_origin};
ghost use Rattle.def_leakage.specs.CommandLeaks.{word_added, word_deleted};

use crate::setup_size::size_of_setup;
use crate::trail_setup::{place_words, set_up_documents};
use crate::trail_table::{Table, take};
use client_registry::{DocId, Registry, Word};
use indexmap::IndexMap;
use leakage_frames::{Origin, Sent, WordLeak};
use leakage_history::{Command, History, register};
use std::alloc::{AllocError, Global};

/// What a server can know after the commands of a history so far: of each word that one of them named its first search, where
/// the setup holds it, and the pairs that are listed with it; and what a registry tells of them.
#[derive(Drop)]
pub struct Trail {
    pub(crate) words: Table,
    pub(crate) registry: Registry,
    /// The number of the next command.
    pub(crate) next: u32,
}

impl Trail {
    // Promise P59, also here; clauses: hashed
    // Promise P43 (caller): A trail gives, after the commands it took, a word's first search, its listed pairs, their numbers' origins, and a command's leakage.
    //   clauses: follows; assumes: earlier calls, kept limits; not: A trail after it ran out of memory.
    /// The trail of the setup of a history alone, which has an index. Its tables hash under the keys of the history.
    pub fn begin(alloc: Global, history: &History) -> Result<Trail, AllocError>
        requires { size_refusal history.now.setup ≡ None }
        ensures follows { IfOk result (λ trail. Follows trail at_first history.now.setup []) }
        ensures hashed { IfOk result (λ trail. HashesUnder trail history.now.keys) }
    {
        Trail::begin_at(alloc, history, 0)
    }

    // Promise P59, also here; clauses: hashed
    // Promise P43, also here; clauses: follows
    /// The same for an epoch whose setup is command number `first` of its history.
    pub fn begin_at(alloc: Global, history: &History, first: u32) -> Result<Trail, AllocError>
        requires sized { size_refusal history.now.setup ≡ None }
        requires numbered { first + 1 < 2 ^ 32 }
        ensures follows { IfOk result (λ trail. (o : Offsets) → o.command ≡ first → Follows trail o history.now.setup []) }
        ensures hashed { IfOk result (λ trail. HashesUnder trail history.now.keys) }
    {
        let size = size_of_setup(history);
        let docs = history.docs();
        let mut words = IndexMap::with_hasher(alloc, history.keys());
        place_words(&mut words, docs, size.shape)?;
        set_up_documents(&mut words, docs, size.shape, first)?;
        let registry = history.begun_registry(alloc)?;
        Ok(Trail {
            words,
            registry,
            next: first + 1,
        })
    }

    // Promise P43, also here; clauses: ensures
    /// Takes the next command of the history. Error: where there is no memory; then the trail is of no use.
    pub fn take(&mut self, command: &Command) -> Result<(), AllocError>
        requires accepted { is_accepted_by (facts self.old.registry) (command_of command.now) ≡ true }
        requires numbered { self.old.next + 1 < 2 ^ 32 }
        ensures { (o : Offsets) (s : Setup) (past : List Meant) → Follows self.old o s past → OnOk result (Follows self.new o s (past ++ command_of command.now ∷ [])) }
    {
        take(&mut self.words, &self.registry, command, self.next)?;
        register(&mut self.registry, command)?;
        self.next += 1;
        Ok(())
    }

    // Promise P43, also here; clauses: ensures
    /// The first search of a word, where there was one.
    pub fn first_search(&self, word: &Word) -> Option<u32>
        ensures { (o : Offsets) (s : Setup) (past : List Meant) → Follows self.now o s past → result ≡ first_search o past (word_bytes word.now) }
    {
        self.words.get(word)?.first_search()
    }

    // Promise P43, also here; clauses: ensures
    /// Whether the pair of a word and an identifier was ever listed.
    pub fn is_listed(&self, word: &Word, id: DocId) -> bool
        ensures { (o : Offsets) (s : Setup) (past : List Meant) → Follows self.now o s past → result ≡ is_listed s past (word_bytes word.now) (id_number id) }
    {
        match self.words.get(word) {
            Some(trail) => trail.is_listed(id),
            None => false,
        }
    }

    // Promise P43, also here; clauses: ensures
    /// Where the revocation number of a pair was first sent, where it was.
    pub fn number_origin(&self, word: &Word, id: DocId) -> Option<Origin>
        ensures { (o : Offsets) (s : Setup) (past : List Meant) → Follows self.now o s past → option_map origin_view result ≡ number_origin o s past (word_bytes word.now) (id_number id) }
    {
        match self.words.get(word) {
            Some(trail) => trail.number_origin(id),
            None => None,
        }
    }

    // Promise P43, also here; clauses: ensures
    /// What the commands so far make live, list and count.
    pub fn registry(&self) -> &Registry
        ensures { (o : Offsets) (s : Setup) (past : List Meant) → Follows self.now o s past → Represents result.now s past }
    {
        &self.registry
    }

    /// What an addition of a document with this identifier and this word would show of the word.
    pub(crate) fn word_added(&self, word: &Word, id: DocId) -> WordLeak
        ensures { (o : Offsets) (s : Setup) (past : List Meant) → Follows self.now o s past → word_view result ≡ word_added o s past (id_number id) (word_bytes word.now) }
    {
        match self.words.get(word) {
            Some(trail) => trail.added_leak(id),
            None => WordLeak {
                sent: Sent::Entry,
                seen: None,
            },
        }
    }

    /// What a deletion of the document with this identifier, which holds this word, would show of the word.
    pub(crate) fn word_deleted(&self, word: &Word, id: DocId) -> WordLeak
        ensures { (o : Offsets) (s : Setup) (past : List Meant) → Follows self.now o s past → word_view result ≡ word_deleted o s past (id_number id) (word_bytes word.now) }
    {
        match self.words.get(word) {
            Some(trail) => trail.deleted_leak(id),
            None => WordLeak {
                sent: Sent::Fresh,
                seen: None,
            },
        }
    }
}
