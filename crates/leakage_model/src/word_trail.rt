ghost use Rattle.std.specs.Prelude.{◌≡◌, ◌+◌, ◌<◌, ◌≤◌, ◌^◌, ℕ, IfOk, None, OnOk, Some, length, option_map};
ghost use Rattle.client_registry.specs.IdNumber.{id_number};
ghost use Rattle.leakage_model.specs.Pairs.{home_view as home_of};
ghost use Rattle.leakage_model.specs.WordFacts.{added_at, added_leak, deleted_at, deleted_leak, lists, number_among, search_leak, searched_by, set_up_with, unnamed};
ghost use Rattle.leakage_frames.specs.Views.{leak_view, origin_view, seen_view, sent_view, word_view};
ghost use Rattle.def_leakage.specs.CommandLeaks.{sent_at, seen_by};

use crate::pair::HomeAt;
use crate::pairs::Pairs;
use client_registry::{DocId, HashKeys};
use leakage_frames::{Leak, Origin, Seen, Sent, WordLeak};
use std::alloc::{AllocError, Global};
use std::marker::Model;

/// What a server can know of a word: its first search, where the setup holds it, and the pairs that are listed with it, in the
/// order in which they were.
#[derive(Drop)]
pub(crate) struct WordTrail {
    search: Option<u32>,
    home: Option<HomeAt>,
    pairs: Pairs,
}

impl Model for WordTrail {
    ghost use Rattle.leakage_model.specs.WordFacts.{WordFacts};

    ghost Value = { WordFacts };

    ghost use Rattle.leakage_model.specs.WordView.{word_of};

    ghost view = { word_of };
}

impl WordTrail {
    /// Of a word that no command named. It takes no memory.
    pub(crate) fn new(alloc: Global, keys: HashKeys) -> WordTrail
        ensures { result ≡ unnamed }
    {
        WordTrail {
            search: None,
            home: None,
            pairs: Pairs::new(alloc, keys),
        }
    }

    /// The setup holds it there.
    pub(crate) fn place(&mut self, home: HomeAt)
        ensures { self.new ≡ record { search = self.old.search; home = Some (home_of home); listed = self.old.listed } }
    {
        self.home = Some(home);
    }

    /// A command searches for it.
    pub(crate) fn search(&mut self, command: u32)
        ensures { self.new ≡ searched_by command self.old }
    {
        self.search = self.search.or(Some(command));
    }

    /// A document of this identifier is added, in which the word stands there.
    pub(crate) fn add(&mut self, id: DocId, there: Origin) -> Result<(), AllocError>
        ensures { OnOk result (self.new ≡ added_at (id_number id) (origin_view there) self.old) }
    {
        self.pairs.add(id, there)
    }

    /// The document of this identifier is deleted, in which the word stands there.
    pub(crate) fn delete(&mut self, id: DocId, there: Origin)
        ensures { self.new ≡ deleted_at (id_number id) (origin_view there) self.old }
    {
        self.pairs.send(id, there, true);
    }

    /// The first search of it.
    pub(crate) fn first_search(&self) -> Option<u32>
        ensures { result ≡ self.now.search }
    {
        self.search
    }

    /// Whether its pair with the identifier is listed.
    pub(crate) fn is_listed(&self, id: DocId) -> bool
        ensures { result ≡ lists (id_number id) self.now.listed }
    {
        self.pairs.lists(id)
    }

    /// Where the revocation number of its pair with the identifier was first sent.
    pub(crate) fn number_origin(&self, id: DocId) -> Option<Origin>
        ensures { option_map origin_view result ≡ number_among (id_number id) self.now.listed }
    {
        self.pairs.number(id)
    }

    /// A document of the setup with this identifier holds it, after those whose pairs are listed. The setup is the command of this number.
    pub(crate) fn set_up(&mut self, id: DocId, command: u32) -> Result<(), AllocError>
        requires { length self.old.listed < 2 ^ 32 }
        ensures { OnOk result (self.new ≡ set_up_with command (id_number id) self.old) }
    {
        let place = self.pairs.len() as u32;
        self.pairs.add(id, Origin { command, place })
    }

    /// What an addition with this identifier shows of it.
    pub(crate) fn added_leak(&self, id: DocId) -> WordLeak
        ensures { word_view result ≡ added_leak (id_number id) self.now }
    {
        let sent = if self.is_listed(id) {
            sent_at(self.number_origin(id))
        } else {
            Sent::Entry
        };
        self.word_leak(id, sent)
    }

    /// What a deletion of this identifier shows of it.
    pub(crate) fn deleted_leak(&self, id: DocId) -> WordLeak
        ensures { word_view result ≡ deleted_leak (id_number id) self.now }
    {
        self.word_leak(id, sent_at(self.number_origin(id)))
    }

    /// What an update of this identifier shows of it, by what is sent for it.
    fn word_leak(&self, id: DocId, sent: Sent) -> WordLeak
        ensures { word_view result ≡ record { sent = sent_view sent; seen = seen_by (id_number id) self.now.search } }
    {
        WordLeak {
            sent,
            seen: seen_by(id, self.search),
        }
    }

    /// What a search of it shows.
    pub(crate) fn search_leak(&self, alloc: Global) -> Result<Leak, AllocError>
        ensures { IfOk result (λ leak. leak_view leak ≡ search_leak self.now) }
    {
        let home = match self.home {
            Some(home) => Some(home.home(alloc)?),
            None => None,
        };
        Ok(Leak::Search {
            earlier: self.search,
            home,
            listed: self.pairs.listed(alloc)?,
            found: self.pairs.found(alloc)?,
        })
    }
}

/// A revocation number that was first sent there, or wasn't sent yet.
fn sent_at(number: Option<Origin>) -> Sent
    ensures { sent_view result ≡ sent_at (option_map origin_view number) }
{
    match number {
        Some(origin) => Sent::Again(origin),
        None => Sent::Fresh,
    }
}

/// What an update of this identifier shows of a word that was first searched by this command.
fn seen_by(id: DocId, search: Option<u32>) -> Option<Seen>
    ensures { option_map seen_view result ≡ seen_by (id_number id) search }
{
    match search {
        Some(search) => Some(Seen {
            search,
            id: id.get(),
        }),
        None => None,
    }
}
