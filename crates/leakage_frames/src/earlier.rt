ghost use Rattle.std.specs.Prelude.{◌≡◌, is_some, map, option_and_then};
ghost use Rattle.std.specs.List.{slice_get};
ghost use Rattle.sse_simulator.specs.Simulator as sim;
ghost use Rattle.sse_simulator.specs.Simulator.{number_of, token_of};
ghost use Rattle.leakage_frames.specs.MadeFrames.{draws_left, earlier_view, kept_each};
ghost use Rattle.leakage_frames.specs.Views.{draw_view, leak_view, origin_view, word_view};

use crate::drawn::{first_token, item_at};
use crate::kept::{Kept, behind, number_drawn, number_kept, token_kept};
use crate::leak::{Draw, Leak, Origin, WordLeak};
use sse_frames::Items;

/// What is known of the commands before one.
#[derive(Clone, Copy)]
pub(crate) enum Earlier<'a> {
    /// What was kept of each.
    Stored(&'a [Kept]),
    /// What each leaks and draws, of which nothing was kept.
    Given {
        leaks: &'a [Leak],
        draws: &'a [Items<Draw>],
    },
}

impl Earlier<'_> {
    /// Whether the command of this origin drew a number for its place.
    pub(crate) fn has_number(&self, origin: Origin) -> bool
        ensures { result ≡ is_some (sim.number_kept (earlier_view self.now) (origin_view origin)) }
    {
        match self {
            Earlier::Stored(kept) => number_kept(kept, origin).is_some(),
            Earlier::Given { leaks, draws } => has_number_given(leaks, draws, origin),
        }
    }

    /// Whether this command drew a token.
    pub(crate) fn has_token(&self, command: usize) -> bool
        ensures { result ≡ is_some (sim.token_kept (earlier_view self.now) command) }
    {
        match self {
            Earlier::Stored(kept) => token_kept(kept, command).is_some(),
            Earlier::Given { leaks, draws } => has_token_given(leaks, draws, command),
        }
    }
}

/// The same of the items and draws.
fn has_number_given(leaks: &[Leak], draws: &[Items<Draw>], origin: Origin) -> bool
    ensures { result ≡ is_some (sim.number_kept (kept_each (map leak_view leaks.now) (map (map draw_view) draws.now)) (origin_view origin)) }
{
    let command = origin.command as usize;
    match (item_at(leaks, command), item_at(draws, command)) {
        (Some(leak), Some(own)) => has_number_at(leak, own.as_slice(), origin.place as usize),
        _ => false,
    }
}

/// Whether a command draws a number for this place.
fn has_number_at(leak: &Leak, draws: &[Draw], place: usize) -> bool
    ensures { result ≡ is_some (number_of place (sim.kept_of (leak_view leak.now) (map draw_view draws.now))) }
{
    match leak {
        Leak::Delete { words } => draws_number(words.as_slice(), draws, place),
        Leak::Setup { .. } | Leak::Add { .. } | Leak::Search { .. } => false,
    }
}

/// Whether a deletion of these words draws a number for this place.
fn draws_number(words: &[WordLeak], draws: &[Draw], place: usize) -> bool
    ensures { result ≡ is_some (option_and_then (λ number. number) (slice_get (sim.numbers_drawn (map word_view words.now) (map draw_view draws.now)) place)) }
{
    if place < words.len() {
        let (front, _) = words.split_at(place);
        number_drawn(&words[place], behind_words(front, draws)).is_some()
    } else {
        false
    }
}

/// The draws after these words of a deletion.
fn behind_words<'a>(words: &[WordLeak], draws: &'a [Draw]) -> &'a [Draw]
    ensures { map draw_view result.now ≡ draws_left (map word_view words.now) (map draw_view draws.now) }
{
    let mut rest = draws;
    for word in words {
        rest = behind(word, rest);
    }
    rest
}

/// Whether this command draws a token.
fn has_token_given(leaks: &[Leak], draws: &[Items<Draw>], command: usize) -> bool
    ensures { result ≡ is_some (sim.token_kept (kept_each (map leak_view leaks.now) (map (map draw_view) draws.now)) command) }
{
    match (item_at(leaks, command), item_at(draws, command)) {
        (Some(leak), Some(own)) => draws_token(leak, own.as_slice()),
        _ => false,
    }
}

/// Whether a command draws a token.
fn draws_token(leak: &Leak, draws: &[Draw]) -> bool
    ensures { result ≡ is_some (token_of (sim.kept_of (leak_view leak.now) (map draw_view draws.now))) }
{
    match leak {
        Leak::Search { earlier: None, .. } => first_token(draws).is_some(),
        Leak::Search {
            earlier: Some(_),
            ..
        }
        | Leak::Setup { .. }
        | Leak::Add { .. }
        | Leak::Delete { .. } => false,
    }
}
