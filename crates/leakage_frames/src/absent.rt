ghost use Rattle.std.specs.Prelude.{◌≡◌, ℕ, ◌+◌, ◌<◌, ◌&&◌, ◌∷◌, ◌↔◌, List, Some, false, true, is_some, length, map};
ghost use Rattle.sse_simulator.specs.Leaks as items;
ghost use Rattle.sse_simulator.specs.Simulator as sim;
ghost use Rattle.sse_simulator.specs.Simulator.{first_of, frames_simulated};
ghost use Rattle.leakage_frames.specs.MadeFrames.{CanRun, draws_behind, earlier_view, kind_of};
ghost use Rattle.leakage_frames.specs.Steps.{IsFirstBad};
ghost use Rattle.leakage_frames.specs.Views.{draw_view, leak_view, word_view};

use crate::drawn::{Section, drawn_at, draws_after, first_number, first_token};
use crate::earlier::Earlier;
use crate::kept::behind;
use crate::leak::{Draw, Leak, Sent, WordLeak};
use crate::made_frames::count_entries;
use sse_frames::Items;

/// Whether the first draws are so many entries or blocks.
fn has_first(section: Section, draws: &[Draw], count: usize) -> bool
    ensures { result ≡ is_some (first_of (kind_of section) count (map draw_view draws.now)) }
{
    for i in 0..count {
        match drawn_at(section, draws, i) {
            Some(_) => {}
            None => return false,
        }
    }
    true
}

/// Whether the number of an addition's word is there, where it sends one.
fn adds(earlier: &Earlier<'_>, word: &WordLeak) -> bool
    ensures { (words : List items.WordLeak) →
        is_some (sim.numbers_added (earlier_view earlier.now) (word_view word.now ∷ words)) ≡ result && is_some (sim.numbers_added (earlier_view earlier.now) words) }
{
    match word.sent {
        Sent::Entry | Sent::Fresh => true,
        Sent::Again(origin) => earlier.has_number(origin),
    }
}

/// Whether the numbers of an addition's words are there.
fn has_numbers_added(earlier: &Earlier<'_>, words: &[WordLeak]) -> bool
    ensures { result ≡ is_some (sim.numbers_added (earlier_view earlier.now) (map word_view words.now)) }
{
    for word in words {
        if !adds(earlier, word) {
            return false;
        }
    }
    true
}

/// Whether the number of a deletion's word is there, which is the next draw where it is a fresh one.
fn deletes(earlier: &Earlier<'_>, word: &WordLeak, draws: &[Draw]) -> bool
    ensures { (words : List items.WordLeak) →
        is_some (sim.numbers_deleted (earlier_view earlier.now) (word_view word.now ∷ words) (map draw_view draws.now))
        ≡ result && is_some (sim.numbers_deleted (earlier_view earlier.now) words (draws_behind (word_view word.now) (map draw_view draws.now))) }
{
    match word.sent {
        Sent::Entry => true,
        Sent::Fresh => first_number(draws).is_some(),
        Sent::Again(origin) => earlier.has_number(origin),
    }
}

/// Whether the numbers of a deletion's words are there.
fn has_numbers_deleted(earlier: &Earlier<'_>, words: &[WordLeak], draws: &[Draw]) -> bool
    ensures { result ≡ is_some (sim.numbers_deleted (earlier_view earlier.now) (map word_view words.now) (map draw_view draws.now)) }
{
    let mut rest = draws;
    for word in words {
        if !deletes(earlier, word, rest) {
            return false;
        }
        rest = behind(word, rest);
    }
    true
}

/// Whether the token of a search is there.
fn has_token(earlier: &Earlier<'_>, search: Option<u32>, draws: &[Draw]) -> bool
    ensures { result ≡ is_some (sim.token_shown (earlier_view earlier.now) search (map draw_view draws.now)) }
{
    match search {
        Some(command) => earlier.has_token(command as usize),
        None => first_token(draws).is_some(),
    }
}

/// Whether every command, place and draw is there that an item names: then frames are made of it, whatever their numbers. It takes no memory.
pub(crate) fn is_made(earlier: &Earlier<'_>, leak: &Leak, draws: &[Draw]) -> bool
    ensures { (q : ℕ) → is_some (frames_simulated (earlier_view earlier.now) q (leak_view leak.now) (map draw_view draws.now)) ≡ result }
{
    match leak {
        Leak::Setup { words, blocks, .. } => {
            let entries = *words as usize;
            has_first(Section::Entries, draws, entries)
                && has_first(
                    Section::Blocks,
                    draws_after(draws, entries),
                    *blocks as usize,
                )
        }
        Leak::Add { words } => {
            has_first(Section::Entries, draws, count_entries(words.as_slice()))
                && has_numbers_added(earlier, words.as_slice())
        }
        Leak::Delete { words } => has_numbers_deleted(earlier, words.as_slice(), draws),
        Leak::Search {
            earlier: search,
            ..
        } => has_token(earlier, *search, draws),
    }
}

/// The same of the item at this place and the draws at the same place, by the items and draws before it.
pub(crate) fn is_made_at(leaks: &[Leak], draws: &[Items<Draw>], k: usize) -> bool
    requires { k < length leaks.now }
    ensures made { result ≡ true → CanRun k (map leak_view leaks.now) (map (map draw_view) draws.now)
        → CanRun (k + 1) (map leak_view leaks.now) (map (map draw_view) draws.now) }
    ensures bad { result ≡ false → CanRun k (map leak_view leaks.now) (map (map draw_view) draws.now)
        → IsFirstBad k (map leak_view leaks.now) (map (map draw_view) draws.now) }
{
    if k >= draws.len() {
        return false;
    }
    let (leaks_before, _) = leaks.split_at(k);
    let (draws_before, _) = draws.split_at(k);
    let earlier = Earlier::Given {
        leaks: leaks_before,
        draws: draws_before,
    };
    is_made(&earlier, &leaks[k], draws[k].as_slice())
}
