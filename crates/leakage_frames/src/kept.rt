ghost use Rattle.std.specs.Prelude.{◌≡◌, map, Err, IfOk, OnOk, None, Some, Option, option_copied, List, ◌∷◌, ℕ};
ghost use Rattle.std.specs.List.{slice_get};
ghost use Rattle.sse_simulator.specs.Leaks as items;
ghost use Rattle.sse_simulator.specs.Simulator as sim;
ghost use Rattle.sse_simulator.specs.Simulator.{before, number_of, token_of};
ghost use Rattle.leakage_frames.specs.MadeFrames as making;
ghost use Rattle.leakage_frames.specs.MadeFrames.{ahead, draws_behind, kept_view};
ghost use Rattle.leakage_frames.specs.Views.{draw_view, leak_view, origin_view, word_view};

use crate::bytes::append;
use crate::drawn::{draws_after, first_number, first_token, item_at};
use crate::leak::{Draw, Leak, Origin, Sent, WordLeak};
use crate::not_made::NotMade;
use sse_frames::{Items, NoMemory};
use std::alloc::Global;

/// What is kept of a command for the later ones.
#[derive(Drop)]
pub(crate) enum Kept {
    Nothing,
    /// The numbers that a deletion drew, by the places of its words.
    Numbers(Items<Option<[u8; 16]>>),
    /// The token that a search drew.
    Token(Items<u8>),
}

/// The number that was drawn for a place.
fn number_in(kept: &Kept, place: usize) -> Option<[u8; 16]>
    ensures { result ≡ number_of place (kept_view kept.now) }
{
    match kept {
        Kept::Numbers(numbers) => match item_at(numbers.as_slice(), place) {
            Some(number) => *number,
            None => None,
        },
        Kept::Nothing | Kept::Token(_) => None,
    }
}

/// The number that a command drew for a place.
pub(crate) fn number_kept(kept: &[Kept], origin: Origin) -> Option<[u8; 16]>
    ensures { result ≡ sim.number_kept (map kept_view kept.now) (origin_view origin) }
{
    match item_at(kept, origin.command as usize) {
        Some(command) => number_in(command, origin.place as usize),
        None => None,
    }
}

/// The token that was drawn.
fn token_in(kept: &Kept) -> Option<&[u8]>
    ensures { option_copied result ≡ token_of (kept_view kept.now) }
{
    match kept {
        Kept::Token(token) => Some(token.as_slice()),
        Kept::Nothing | Kept::Numbers(_) => None,
    }
}

/// The token that a command drew.
pub(crate) fn token_kept(kept: &[Kept], command: usize) -> Option<&[u8]>
    ensures { option_copied result ≡ sim.token_kept (map kept_view kept.now) command }
{
    match item_at(kept, command) {
        Some(command) => token_in(command),
        None => None,
    }
}

/// The token of a search: the one of the first search of its word, or the next draw.
pub(crate) fn token_shown<'a>(
    kept: &'a [Kept],
    earlier: Option<u32>,
    draws: &'a [Draw],
) -> Option<&'a [u8]>
    ensures { option_copied result ≡ sim.token_shown (map kept_view kept.now) earlier (map draw_view draws.now) }
{
    match earlier {
        Some(command) => token_kept(kept, command as usize),
        None => first_token(draws),
    }
}

/// Adds the number, which has to be there.
fn push_found(number: Option<[u8; 16]>, numbers: &mut Vec<[u8; 16]>) -> Result<(), NotMade>
    ensures more { OnOk result ((rest : Option (List (List ℕ))) → ahead numbers.new.items rest ≡ ahead numbers.old.items (before number rest)) }
{
    match number {
        Some(number) => {
            numbers.push(number)?;
            Ok(())
        }
        None => Err(NotMade),
    }
}

/// Adds the number of an addition's word, where it sends one.
fn push_added(kept: &[Kept], word: &WordLeak, numbers: &mut Vec<[u8; 16]>) -> Result<(), NotMade>
    ensures more { OnOk result ((words : List items.WordLeak) →
        ahead numbers.new.items (sim.numbers_added (map kept_view kept.now) words)
        ≡ ahead numbers.old.items (sim.numbers_added (map kept_view kept.now) (word_view word.now ∷ words))) }
{
    match word.sent {
        Sent::Entry | Sent::Fresh => Ok(()),
        Sent::Again(origin) => push_found(number_kept(kept, origin), numbers),
    }
}

/// The numbers of an addition's words, in their order.
pub(crate) fn numbers_added(
    alloc: Global,
    kept: &[Kept],
    words: &[WordLeak],
) -> Result<Vec<[u8; 16]>, NotMade>
    ensures found { IfOk result (λ numbers. sim.numbers_added (map kept_view kept.now) (map word_view words.now) ≡ Some numbers.items) }
{
    let mut numbers = Vec::new(alloc);
    for word in words {
        push_added(kept, word, &mut numbers)?;
    }
    Ok(numbers)
}

/// Adds the number of a deletion's word, which is the next draw where it is a fresh one.
fn push_deleted(
    kept: &[Kept],
    word: &WordLeak,
    draws: &[Draw],
    numbers: &mut Vec<[u8; 16]>,
) -> Result<(), NotMade>
    ensures more { OnOk result ((words : List items.WordLeak) →
        ahead numbers.new.items (sim.numbers_deleted (map kept_view kept.now) words (draws_behind (word_view word.now) (map draw_view draws.now)))
        ≡ ahead numbers.old.items (sim.numbers_deleted (map kept_view kept.now) (word_view word.now ∷ words) (map draw_view draws.now))) }
{
    match word.sent {
        Sent::Entry => Ok(()),
        Sent::Fresh => push_found(first_number(draws), numbers),
        Sent::Again(origin) => push_found(number_kept(kept, origin), numbers),
    }
}

/// The draws after a word of a deletion.
pub(crate) fn behind<'a>(word: &WordLeak, draws: &'a [Draw]) -> &'a [Draw]
    ensures { map draw_view result.now ≡ draws_behind (word_view word.now) (map draw_view draws.now) }
{
    match word.sent {
        Sent::Fresh => draws_after(draws, 1),
        Sent::Entry | Sent::Again(_) => draws,
    }
}

/// The numbers of a deletion's words, in their order.
pub(crate) fn numbers_deleted(
    alloc: Global,
    kept: &[Kept],
    words: &[WordLeak],
    draws: &[Draw],
) -> Result<Vec<[u8; 16]>, NotMade>
    ensures found { IfOk result (λ numbers. sim.numbers_deleted (map kept_view kept.now) (map word_view words.now) (map draw_view draws.now) ≡ Some numbers.items) }
{
    let mut numbers = Vec::new(alloc);
    let mut rest = draws;
    for word in words {
        push_deleted(kept, word, rest, &mut numbers)?;
        rest = behind(word, rest);
    }
    Ok(numbers)
}

/// The number that a deletion's word draws.
pub(crate) fn number_drawn(word: &WordLeak, draws: &[Draw]) -> Option<[u8; 16]>
    ensures { result ≡ making.number_drawn (word_view word.now) (map draw_view draws.now) }
{
    match word.sent {
        Sent::Fresh => first_number(draws),
        Sent::Entry | Sent::Again(_) => None,
    }
}

/// The numbers that a deletion draws, by the places of its words.
fn numbers_drawn(
    alloc: Global,
    words: &[WordLeak],
    draws: &[Draw],
) -> Result<Items<Option<[u8; 16]>>, NoMemory>
    ensures { IfOk result (λ numbers. numbers ≡ sim.numbers_drawn (map word_view words.now) (map draw_view draws.now)) }
{
    let mut numbers = Items::new(alloc);
    let mut rest = draws;
    for word in words {
        numbers.push(number_drawn(word, rest))?;
        rest = behind(word, rest);
    }
    Ok(numbers)
}

/// What is kept of a search that shows this draw for its token.
fn kept_token(alloc: Global, token: Option<&[u8]>) -> Result<Kept, NoMemory>
    ensures { IfOk result (λ kept. kept_view kept ≡ elim (option_copied token.entry) [ None ↦ sim.Nothing | Some bytes ↦ sim.Token bytes ]) }
{
    match token {
        Some(token) => {
            let mut copy = Items::new(alloc);
            append(&mut copy, token)?;
            Ok(Kept::Token(copy))
        }
        None => Ok(Kept::Nothing),
    }
}

/// What is kept of a command.
pub(crate) fn kept_of(alloc: Global, leak: &Leak, draws: &[Draw]) -> Result<Kept, NoMemory>
    ensures { IfOk result (λ kept. kept_view kept ≡ sim.kept_of (leak_view leak.now) (map draw_view draws.now)) }
{
    match leak {
        Leak::Setup { .. } | Leak::Add { .. } => Ok(Kept::Nothing),
        Leak::Delete { words } => {
            let numbers = numbers_drawn(alloc, words.as_slice(), draws)?;
            Ok(Kept::Numbers(numbers))
        }
        Leak::Search { earlier, .. } => match earlier {
            Some(_) => Ok(Kept::Nothing),
            None => kept_token(alloc, first_token(draws)),
        },
    }
}
