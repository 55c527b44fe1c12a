ghost use Rattle.std.specs.Prelude.{◌≡◌, map, Err, Option, Some, None, List, ℕ, length, OnOk};
ghost use Rattle.std.specs.List.{filter};
ghost use Rattle.sse_simulator.specs.Leaks as items;
ghost use Rattle.sse_simulator.specs.Simulator as sim;
ghost use Rattle.sse_simulator.specs.Simulator.{frames_simulated, is_entry};
ghost use Rattle.leakage_frames.specs.MadeFrames.{kept_view, made_onto};
ghost use Rattle.leakage_frames.specs.Views.{draw_view, leak_view, word_view};

use crate::body::{add_body, delete_body};
use crate::drawn::{Section, drawn_items, draws_after};
use crate::entry::{by_label, by_number};
use crate::kept::{Kept, numbers_added, numbers_deleted, token_shown};
use crate::leak::{Draw, Leak, Sent, WordLeak};
use crate::not_made::NotMade;
use crate::passed::Passing;
use std::alloc::Global;

/// What passes for a setup.
fn make_setup(
    alloc: Global,
    shape: (u16, u16),
    words: u32,
    blocks: u32,
    draws: &[Draw],
    passing: &mut Passing,
) -> Result<(), NotMade>
    ensures made { OnOk result ((kept : List sim.Kept) → made_onto passing.old.texts kept passing.old.next (items.SetupLeak (record { b = shape.0; big = shape.1 }) words blocks) (map draw_view draws.now) ≡ Some (passing.new.texts, passing.new.next)) }
{
    let own_entries = drawn_items(alloc, Section::Entries, draws, words as usize)?;
    let behind = draws_after(draws, words as usize);
    let own_blocks = drawn_items(alloc, Section::Blocks, behind, blocks as usize)?;
    let entries = by_label(own_entries)?;
    let blocks = by_label(own_blocks)?;
    let (b, big) = shape;
    passing.setup(alloc, b, big, entries.as_slice(), blocks.as_slice())?;
    Ok(())
}

/// How many of an addition's words have a new entry.
pub(crate) fn count_entries(words: &[WordLeak]) -> usize
    ensures { result ≡ length (filter is_entry (map word_view words.now)) }
{
    let mut count = 0;
    for word in words {
        if word.sent == Sent::Entry {
            count += 1;
        }
    }
    count
}

/// What passes for an addition.
fn make_addition(
    alloc: Global,
    kept: &[Kept],
    words: &[WordLeak],
    draws: &[Draw],
    passing: &mut Passing,
) -> Result<(), NotMade>
    ensures made { OnOk result (made_onto passing.old.texts (map kept_view kept.now) passing.old.next (items.AddLeak (map word_view words.now)) (map draw_view draws.now) ≡ Some (passing.new.texts, passing.new.next)) }
{
    let fresh = drawn_items(alloc, Section::Entries, draws, count_entries(words))?;
    let again = numbers_added(alloc, kept, words)?;
    let entries = by_label(fresh)?;
    let numbers = by_number(again)?;
    let body = add_body(alloc, passing.next, entries.as_slice(), numbers.as_slice())?;
    passing.update(alloc, body.as_slice())?;
    Ok(())
}

/// What passes for a deletion.
fn make_deletion(
    alloc: Global,
    kept: &[Kept],
    words: &[WordLeak],
    draws: &[Draw],
    passing: &mut Passing,
) -> Result<(), NotMade>
    ensures made { OnOk result (made_onto passing.old.texts (map kept_view kept.now) passing.old.next (items.DeleteLeak (map word_view words.now)) (map draw_view draws.now) ≡ Some (passing.new.texts, passing.new.next)) }
{
    let shown = numbers_deleted(alloc, kept, words, draws)?;
    let numbers = by_number(shown)?;
    let body = delete_body(alloc, passing.next, numbers.as_slice())?;
    passing.update(alloc, body.as_slice())?;
    Ok(())
}

/// What passes for a search.
fn make_search(
    alloc: Global,
    kept: &[Kept],
    earlier: Option<u32>,
    found: &[u64],
    draws: &[Draw],
    passing: &mut Passing,
) -> Result<(), NotMade>
    ensures made { OnOk result ((home : Option items.Home) (listed : List items.ListedLeak) →
        made_onto passing.old.texts (map kept_view kept.now) passing.old.next (items.SearchLeak earlier home listed found.now) (map draw_view draws.now) ≡ Some (passing.new.texts, passing.new.next)) }
{
    match token_shown(kept, earlier, draws) {
        Some(token) => {
            passing.search(alloc, token, found)?;
            Ok(())
        }
        None => Err(NotMade),
    }
}

/// What passes for an item.
pub(crate) fn make(
    alloc: Global,
    kept: &[Kept],
    leak: &Leak,
    draws: &[Draw],
    passing: &mut Passing,
) -> Result<(), NotMade>
    ensures made { OnOk result (made_onto passing.old.texts (map kept_view kept.now) passing.old.next (leak_view leak.now) (map draw_view draws.now) ≡ Some (passing.new.texts, passing.new.next)) }
{
    match leak {
        Leak::Setup {
            b,
            big,
            words,
            blocks,
        } => make_setup(alloc, (*b, *big), *words, *blocks, draws, passing),
        Leak::Add { words } => make_addition(alloc, kept, words.as_slice(), draws, passing),
        Leak::Delete { words } => make_deletion(alloc, kept, words.as_slice(), draws, passing),
        Leak::Search { earlier, found, .. } => {
            make_search(alloc, kept, *earlier, found.as_slice(), draws, passing)
        }
    }
}
