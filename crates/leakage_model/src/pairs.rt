ghost use Rattle.std.specs.Prelude.{◌≡◌, ◌-◌, ◌<◌, [], IfNone, IfOk, IfSome, None, OnErr, OnOk, Some, false, filter, length, map, nat_eq, not, option_map, slice_get, slice_index, true};
ghost use Rattle.std.specs.List.{list_any};
ghost use Rattle.std.specs.List.Sorted.{IsStrictlyIncreasing};
ghost use Rattle.client_registry.specs.IdNumber.{id_number};
ghost use Rattle.leakage_model.specs.Pairs.{pair_with, pairs_in};
ghost use Rattle.leakage_model.specs.WordFacts.{listed_with, lists, number_among, sent_among};
ghost use Rattle.leakage_frames.specs.Views.{listed_view, origin_view};

use crate::pair::Pair;
use client_registry::{DocId, HashKeys};
use indexmap::IndexMap;
use leakage_frames::{ListedLeak, Origin};
use sse_frames::Items;
use std::alloc::{AllocError, Global};
use std::marker::Model;

/// Pairs by their identifiers, found by a hash.
type Hashed = IndexMap<DocId, Pair, HashKeys>;

/// The pairs of a word, in the order in which they were listed. As long as each identifier is greater than those before it, a pair is
/// found by halving, and one more is put behind the others, of which none is read.
#[derive(Drop)]
pub(crate) struct Pairs {
    /// The identifiers up to the first that isn't greater than the one before it.
    ids: Vec<u64>,
    /// What is kept of their pairs.
    front: Vec<Pair>,
    /// The last of these identifiers, or 0: it lies here, since the end of a long list is in no cache.
    last: u64,
    /// The pairs behind them.
    rest: Hashed,
}

impl Model for Pairs {
    ghost use Rattle.std.specs.Prelude.{List};
    ghost use Rattle.sse_simulator.specs.Leaks.{ListedLeak};

    ghost Value = { List ListedLeak };

    ghost use Rattle.leakage_model.specs.PairsView.{AreInOrder, pairs_of};

    ghost view = { pairs_of };

    ghost invariant = { AreInOrder };
}

impl Pairs {
    /// No pair. It takes no memory.
    pub(crate) fn new(alloc: Global, keys: HashKeys) -> Pairs
        ensures { result ≡ [] }
    {
        Pairs {
            ids: Vec::new(alloc),
            front: Vec::new(alloc),
            last: 0,
            rest: IndexMap::with_hasher(alloc, keys),
        }
    }

    /// How many pairs.
    pub(crate) fn len(&self) -> usize
        ensures { result ≡ length self.now }
    {
        self.ids.len() + self.rest.len()
    }

    /// Whether there is a pair of this identifier.
    pub(crate) fn lists(&self, id: DocId) -> bool
        ensures { result ≡ lists (id_number id) self.now }
    {
        match place_among(&self.ids, self.last, id.get()) {
            Some(_) => true,
            None => self.rest.contains_key(&id),
        }
    }

    /// Where the revocation number of the pair of this identifier was first sent.
    pub(crate) fn number(&self, id: DocId) -> Option<Origin>
        ensures { option_map origin_view result ≡ number_among (id_number id) self.now }
    {
        match place_among(&self.ids, self.last, id.get()) {
            Some(place) => self.front[place].number,
            None => number_in(&self.rest, id),
        }
    }

    /// The revocation number of the pair of this identifier is sent there, and it is revoked then or not.
    pub(crate) fn send(&mut self, id: DocId, there: Origin, revoked: bool)
        ensures { self.new ≡ sent_among (id_number id) (origin_view there) revoked self.old }
    {
        match place_among(&self.ids, self.last, id.get()) {
            Some(place) => {
                let pair = &mut self.front[place];
                pair.send(there, revoked);
            }
            None => {
                send_number(&mut self.rest, id, there, revoked);
            }
        }
    }

    /// An addition lists the pair of this identifier there, or sends its number.
    pub(crate) fn add(&mut self, id: DocId, there: Origin) -> Result<(), AllocError>
        ensures { OnOk result (self.new ≡ listed_with (id_number id) (origin_view there) self.old) }
    {
        if is_behind(self.last, &self.rest, id) {
            // All memory is taken first, so that the two stay as long as each other.
            self.front.reserve(1)?;
            self.ids.push(id.get())?;
            self.front.push_reserved(listed_pair(there));
            self.last = id.get();
            return Ok(());
        }
        match place_among(&self.ids, self.last, id.get()) {
            Some(place) => {
                let pair = &mut self.front[place];
                pair.send(there, false);
                Ok(())
            }
            None => add_pair(&mut self.rest, id, there),
        }
    }

    /// The pair at this place, from 0.
    fn at(&self, place: usize) -> ListedLeak
        requires { place < length self.now }
        ensures { slice_get self.now place ≡ Some (listed_view result) }
    {
        let front = self.ids.len();
        if place < front {
            leak_of(self.ids[place], &self.front[place])
        } else {
            let (id, pair) = self.rest.get_index(place - front).unwrap();
            leak_of(id.get(), pair)
        }
    }

    /// All pairs, in their order.
    pub(crate) fn listed(&self, alloc: Global) -> Result<Items<ListedLeak>, AllocError>
        ensures { IfOk result (λ listed. map listed_view listed ≡ self.now) }
    {
        let mut listed = Items::new(alloc);
        for place in 0..self.len() {
            listed.push(self.at(place))?;
        }
        Ok(listed)
    }

    /// The identifiers of the pairs that aren't revoked, in their order.
    pub(crate) fn found(&self, alloc: Global) -> Result<Items<u64>, AllocError>
        ensures { IfOk result (λ found. found ≡ map (λ p. p.id) (filter (λ p. not p.revoked) self.now)) }
    {
        let mut found = Items::new(alloc);
        for place in 0..self.len() {
            let pair = self.at(place);
            if !pair.revoked {
                found.push(pair.id)?;
            }
        }
        Ok(found)
    }
}

/// What is kept of a pair that is listed there.
fn listed_pair(there: Origin) -> Pair
    ensures { result ≡ record { origin = there; number = None; revoked = false } }
{
    Pair {
        origin: there,
        number: None,
        revoked: false,
    }
}

/// A pair of this identifier, as a search shows it.
fn leak_of(id: u64, pair: &Pair) -> ListedLeak
    ensures { listed_view result ≡ pair_with id pair.now }
{
    ListedLeak {
        id,
        origin: pair.origin,
        number: pair.number,
        revoked: pair.revoked,
    }
}

/// Where the identifier stands among these, which rise up to the last. One that is greater than it is not looked for.
fn place_among(ids: &[u64], last: u64, id: u64) -> Option<usize>
    requires rising { IsStrictlyIncreasing ids.now }
    requires last { 0 < length ids.now → slice_index ids.now (length ids.now - 1) ≡ last }
    ensures found { IfSome result (λ place. slice_get ids.now place ≡ Some id) }
    ensures absent { IfNone result (list_any (nat_eq id) ids.now ≡ false) }
{
    if last < id {
        return None;
    }
    match ids.binary_search(&id) {
        Ok(place) => Some(place),
        Err(_) => None,
    }
}

/// Whether a pair of this identifier goes behind those up to the last identifier, where there are no others and it is greater.
fn is_behind(last: u64, rest: &Hashed, id: DocId) -> bool
    ensures alone { result ≡ true → rest.now.entries ≡ [] }
    ensures above { result ≡ true → last < id_number id }
{
    if !rest.is_empty() {
        return false;
    }
    last < id.get()
}

/// Where the revocation number of the pair of this identifier was first sent.
fn number_in(pairs: &Hashed, id: DocId) -> Option<Origin>
    ensures { option_map origin_view result ≡ number_among (id_number id) (pairs_in pairs.now.entries) }
{
    match pairs.get(&id) {
        Some(pair) => pair.number,
        None => None,
    }
}

/// The revocation number of the pair of this identifier is sent there, and it is revoked then or not. Whether there is such a pair.
fn send_number(pairs: &mut Hashed, id: DocId, there: Origin, revoked: bool) -> bool
    ensures sent { pairs_in pairs.new.entries ≡ sent_among (id_number id) (origin_view there) revoked (pairs_in pairs.old.entries) }
    ensures found { result ≡ lists (id_number id) (pairs_in pairs.old.entries) }
{
    let Some(place) = pairs.get_index_of(&id) else {
        return false;
    };
    let pair = &mut pairs[place];
    pair.send(there, revoked);
    true
}

/// An addition lists the pair of this identifier there, or sends its number.
fn add_pair(pairs: &mut Hashed, id: DocId, there: Origin) -> Result<(), AllocError>
    ensures ok { OnOk result (pairs_in pairs.new.entries ≡ listed_with (id_number id) (origin_view there) (pairs_in pairs.old.entries)) }
    ensures err { OnErr result (pairs_in pairs.new.entries ≡ pairs_in pairs.old.entries) }
{
    if send_number(pairs, id, there, false) {
        return Ok(());
    }
    pairs.insert(id, listed_pair(there))?;
    Ok(())
}
