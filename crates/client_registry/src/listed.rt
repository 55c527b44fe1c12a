ghost use Rattle.std.specs.Prelude.{◌≡◌, ◌+◌, ◌<◌, ◌≤◌, ◌^◌, ◌++◌, [], None, Some, not, filter, length, drop, map, take, nat_eq, unwrap_or, vec_capacity, vec_len};
ghost use Rattle.indexmap.specs.IndexMap.{hasher_of};
ghost use Rattle.client_registry.specs.RegistryView.{kept_entry};
ghost use Rattle.client_registry.specs.Restarted.{kept_restarted};
ghost use Rattle.std.specs.List.{list_any};
ghost use Rattle.std.specs.List.Sorted.{IsNonDecreasing, IsPermutation};

use crate::doc_id::DocId;
use crate::hash_keys::HashKeys;
use indexmap::IndexMap;
use std::mem;

/// What is kept of an identifier: the numbers of all words that were ever listed with it. Where a document of this
/// identifier is live, those of its words come first, in the order in which they were given; the others rise.
#[derive(Drop)]
pub(crate) struct Listed {
    pub(crate) numbers: Vec<u32>,
    /// How many of the numbers are those of the live document, where there is one.
    pub(crate) live: Option<u32>,
}

impl Listed {
    /// Whether the number is one of those kept.
    pub(crate) fn has(&self, number: u32) -> bool
        requires within { unwrap_or self.now.live 0 ≤ vec_len self.now.numbers }
        requires in_order { IsNonDecreasing (drop (unwrap_or self.now.live 0) self.now.numbers.items) }
        ensures { result ≡ list_any (nat_eq number) self.now.numbers.items }
    {
        let (live, others) = self.numbers.split_at(self.live.unwrap_or(0) as usize);
        live.contains(&number) || is_among(others, number)
    }

    /// The document is no longer live: all numbers rise. It takes no memory.
    pub(crate) fn retire(&mut self)
        ensures live { self.new.live ≡ None }
        ensures numbers { IsPermutation self.old.numbers.items self.new.numbers.items }
        ensures in_order { IsNonDecreasing self.new.numbers.items }
    {
        self.numbers.sort_unstable();
        self.live = None;
    }

    /// The numbers of the live document's words are kept alone. It takes no memory.
    pub(crate) fn keep_live(&mut self)
        ensures live { self.new.live ≡ self.old.live }
        ensures numbers { self.new.numbers.items ≡ take (unwrap_or self.old.live 0) self.old.numbers.items }
    {
        self.numbers.truncate(self.live.unwrap_or(0) as usize);
    }

    /// A document of the numbers in `next` is live: they come first, then those others that were kept before. Both
    /// vectors are left empty.
    pub(crate) fn revive(&mut self, next: &mut Vec<u32>, again: &mut Vec<u32>)
        requires in_order { IsNonDecreasing self.old.numbers.items }
        requires few { vec_len next.old < 2 ^ 32 }
        requires empty { again.old.items ≡ [] }
        requires room { vec_len next.old + vec_len self.old.numbers ≤ vec_capacity next.old }
        requires room_again { vec_len next.old ≤ vec_capacity again.old }
        ensures live { self.new.live ≡ Some (length next.old.items) }
        ensures numbers { self.new.numbers.items ≡ next.old.items ++ filter (λ n. not (list_any (nat_eq n) next.old.items)) self.old.numbers.items }
        ensures next { next.new.items ≡ [] }
        ensures again { again.new.items ≡ [] }
    {
        let live = next.len() as u32;
        append(again, next);
        again.sort_unstable();
        append_others(next, &self.numbers, again);
        mem::swap(&mut self.numbers, next);
        self.live = Some(live);
        next.clear();
        again.clear();
    }
}

/// Of each identifier the numbers of its live document's words are kept alone. It takes no memory.
pub(crate) fn forget_dead(documents: &mut IndexMap<DocId, Listed, HashKeys>)
    ensures kept { map kept_entry documents.new.entries ≡ map kept_restarted (map kept_entry documents.old.entries) }
    ensures hasher { hasher_of documents.new ≡ hasher_of documents.old }
{
    for place in 0..documents.len() {
        documents[place].keep_live();
    }
}

/// Whether the number is one of these, which rise.
pub(crate) fn is_among(numbers: &[u32], number: u32) -> bool
    requires { IsNonDecreasing numbers.now }
    ensures { result ≡ list_any (nat_eq number) numbers.now }
{
    numbers.binary_search(&number).is_ok()
}

/// Appends numbers for which there is room.
pub(crate) fn append(to: &mut Vec<u32>, numbers: &[u32])
    requires { vec_len to.old + length numbers.now ≤ vec_capacity to.old }
    ensures items { to.new.items ≡ to.old.items ++ numbers.now }
    ensures capacity { vec_capacity to.new ≡ vec_capacity to.old }
{
    for number in numbers {
        to.push_reserved(*number);
    }
}

/// Appends those of these numbers, for which there is room, that are none of the others, which rise.
fn append_others(to: &mut Vec<u32>, numbers: &[u32], others: &[u32])
    requires room { vec_len to.old + length numbers.now ≤ vec_capacity to.old }
    requires in_order { IsNonDecreasing others.now }
    ensures { to.new.items ≡ to.old.items ++ filter (λ n. not (list_any (nat_eq n) others.now)) numbers.now }
{
    for number in numbers {
        if !is_among(others, *number) {
            to.push_reserved(*number);
        }
    }
}
