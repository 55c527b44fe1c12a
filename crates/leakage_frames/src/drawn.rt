ghost use Rattle.std.specs.Prelude.{◌≡◌, drop, map, Err, None, Some, IfOk, option_and_then, option_copied, option_map};
ghost use Rattle.std.specs.List.{slice_get};
ghost use Rattle.sse_simulator.specs.Simulator.{as_number, as_token, first_of};
ghost use Rattle.leakage_frames.specs.MadeFrames.{kind_of};
ghost use Rattle.leakage_frames.specs.Views.{draw_view};

use crate::entry::{DrawnEntry, drawn_entry};
use crate::leak::Draw;
use crate::not_made::NotMade;
use std::alloc::Global;

/// The draws of a part of a setup.
#[derive(Clone, Copy)]
pub(crate) enum Section {
    /// Those of its entries.
    Entries,
    /// Those of its blocks.
    Blocks,
}

/// The item at this place, if there is one.
#[tactic(auto, using(std::proofs::lemmas::Option::gets))]
pub(crate) fn item_at<T>(list: &[T], i: usize) -> Option<&T>
    ensures { option_copied result ≡ slice_get list.now i }
{
    list.get(i)
}

/// What a draw is for this part, if it is of its kind.
fn drawn_of(section: Section, draw: &Draw) -> Option<DrawnEntry<'_>>
    ensures { result ≡ kind_of section (draw_view draw.now) }
{
    match (section, draw) {
        (Section::Entries, Draw::Entry { label, cell }) => {
            Some(drawn_entry(*label, cell.as_slice()))
        }
        (Section::Blocks, Draw::Block { tag, block }) => {
            Some(drawn_entry(*tag, block.as_slice()))
        }
        _ => None,
    }
}

/// The same of the draw at this place.
pub(crate) fn drawn_at(section: Section, draws: &[Draw], i: usize) -> Option<DrawnEntry<'_>>
    ensures { result ≡ option_and_then (kind_of section) (slice_get (map draw_view draws.now) i) }
{
    match item_at(draws, i) {
        Some(draw) => drawn_of(section, draw),
        None => None,
    }
}

/// So many entries or blocks from the first draw on, in their order.
pub(crate) fn drawn_items<'a>(
    alloc: Global,
    section: Section,
    draws: &'a [Draw],
    count: usize,
) -> Result<Vec<DrawnEntry<'a>>, NotMade>
    ensures found { IfOk result (λ entries. first_of (kind_of section) count (map draw_view draws.now) ≡ Some entries.items) }
{
    let mut entries = Vec::new(alloc);
    for i in 0..count {
        match drawn_at(section, draws, i) {
            Some(entry) => entries.push(entry)?,
            None => return Err(NotMade),
        }
    }
    Ok(entries)
}

/// The first draw, if it is a revocation number.
pub(crate) fn first_number(draws: &[Draw]) -> Option<[u8; 16]>
    ensures { result ≡ option_and_then as_number (slice_get (map draw_view draws.now) 0) }
{
    match draws.first() {
        Some(Draw::Number(number)) => Some(*number),
        _ => None,
    }
}

/// The first draw, if it is a token.
pub(crate) fn first_token(draws: &[Draw]) -> Option<&[u8]>
    ensures { option_copied result ≡ option_and_then as_token (slice_get (map draw_view draws.now) 0) }
{
    match draws.first() {
        Some(Draw::Token(token)) => Some(token.as_slice()),
        _ => None,
    }
}

/// The draws after so many.
pub(crate) fn draws_after(draws: &[Draw], count: usize) -> &[Draw]
    ensures { map draw_view result.now ≡ drop count (map draw_view draws.now) }
{
    if count < draws.len() {
        let (_, rest) = draws.split_at(count);
        rest
    } else {
        &[]
    }
}
