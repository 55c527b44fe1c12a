ghost use Rattle.std.specs.Prelude.{◌≡◌, ◌&&◌, not, ℕ, List, map};
ghost use Rattle.client_registry.specs.Run.{History};
ghost use Rattle.client_registry.specs.WordBytes.{word_bytes};
ghost use Rattle.keyed_fn.specs.KeyedFn.{KeyedFn};
ghost use Rattle.world_model.specs.World.{Phase};
ghost use Rattle.world_rules.specs.Promises.{StoreWorld};
ghost use Rattle.world_client.specs.Clients.{IsClientIn};
ghost use Rattle.world_run.specs.Sides as sides;
ghost use Rattle.world_run.specs.Sides.{IsAsking, IsClient, LeadsFinding, asked_in, client_part, words_asked};

use crate::client_side::ClientSide;
use crate::running::Running;
use client_registry::Word;
use sse_frames::Items;
use sse_world::Outcome;
use world_client::State;

impl ClientSide {
    /// The client is to look for this word, which comes behind all that it was asked for. Nothing happens where it doesn't run, has no
    /// setup, has something to send or waits. Without memory nothing changes.
    pub fn find(&mut self, word: Word, asked: &mut Items<Word>) -> Outcome
        ensures leads { (f : KeyedFn) (first : List ℕ) (w : StoreWorld) → IsClient f first (client_part w) self.old.running self.old.disk self.old.stop self.old.key self.old.other → words_asked w ≡ map word_bytes asked.old →
            LeadsFinding f first w (word_bytes word) result self.new.running self.new.disk self.new.stop self.new.key self.new.other asked.new }
    {
        let Some(it) = self.running.take() else {
            return Outcome::Nothing;
        };
        let (after, outcome) = asks(it, &word, asked);
        self.running = Some(after);
        outcome
    }
}

/// A client that runs is to look for a word.
fn asks(it: Running, word: &Word, asked: &mut Items<Word>) -> (Running, Outcome)
    ensures asking { (f : KeyedFn) (first : List ℕ) (h : History) (phase : Phase (List ℕ)) → IsClientIn f first h phase it.state → IsAsking f first h phase it word.now asked.old asked.new result.1 result.0 }
{
    if !is_free(&it) {
        return (it, Outcome::Nothing);
    }
    match asked.push(*word) {
        Ok(()) => (asking(it, *word), Outcome::Done),
        Err(_) => (it, Outcome::NoMemory),
    }
}

/// Whether a client is set up, has nothing to send and waits for nothing.
fn is_free(it: &Running) -> bool
    ensures { result ≡ (sides.is_resting it.now.state && not it.now.waits) }
{
    is_resting(&it.state) && !it.waits
}

/// Whether a client is set up and has nothing to send.
fn is_resting(state: &State) -> bool
    ensures { result ≡ sides.is_resting state.now }
{
    match state {
        State::Greeting(_) => false,
        State::Fresh(_) => false,
        State::Resting(_) => true,
        State::Sending(_) => false,
        State::Asking(_, _) => false,
    }
}

/// A client that runs is to ask for this word, if it is set up and has nothing to send; any other stays.
fn asking(it: Running, word: Word) -> Running
    ensures state { result.state ≡ asked_in it.state word }
    ensures same { (result.journal ≡ it.journal) × (result.waits ≡ it.waits) }
{
    let Running {
        state,
        journal,
        waits,
    } = it;
    let state = match state {
        State::Greeting(client) => State::Greeting(client),
        State::Fresh(client) => State::Fresh(client),
        State::Resting(client) => State::Asking(client, word),
        State::Sending(client) => State::Sending(client),
        State::Asking(client, before) => State::Asking(client, before),
    };
    Running {
        state,
        journal,
        waits,
    }
}
