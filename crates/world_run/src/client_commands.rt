ghost use Rattle.std.specs.Prelude.{◌≡◌, ℕ, List, Option, None, Some, false};
ghost use Rattle.keyed_fn.specs.KeyedFn.{KeyedFn, keyed_fn};
ghost use Rattle.world_model.specs.Events.{Command as Commands};
ghost use Rattle.world_rules.specs.Changes.{Change, history_of};
ghost use Rattle.world_rules.specs.Promises.{StoreWorld};
ghost use Rattle.sse_world.specs.Reached.{IsReached};
ghost use Rattle.sse_world.specs.Stands.{IsWaiting};
ghost use Rattle.sse_world.specs.declared.event.Outcome.TheVariants as outcome;
ghost use Rattle.world_client.specs.Clients.{IsClientIn};
ghost use Rattle.world_client.specs.Histories.{records_under};
ghost use Rattle.world_client.specs.declared.commanded.Commanded.TheVariants as ended;
ghost use Rattle.world_disks.specs.Disks.{Holds};
ghost use Rattle.world_server.specs.declared.replies.Replies.{Replies};
ghost use Rattle.world_run.specs.Commands.{IsCame, change_of, key_of};
ghost use Rattle.world_run.specs.Commanding.{IsCommanding};
ghost use Rattle.world_run.specs.Sides.{IsClient, LeadsClient, client_part};

use crate::carry_out::carry_out;
use crate::client_side::ClientSide;
use crate::command::Command;
use crate::running::Running;
use client_core::{Behind, Client};
use keyed_fn::Keyed;
use sse_journal::Journal;
use sse_world::Outcome;
use std::alloc::Global;
use world_client::{Commanded, State};
use world_disks::Stop;
use world_server::{Replies, later};

impl ClientSide {
    // Promise P324, also here; clauses: leads
    /// The client is given this command. Nothing happens where it doesn't run, has something to send or waits, or where the store's rules
    /// don't accept it. Without memory nothing changes, but a client that ran out of it inside a call of its disk has stopped.
    pub fn command<K: Keyed>(
        &mut self,
        alloc: Global,
        keyed: &K,
        command: Command,
        waiting: &mut Option<Replies>,
    ) -> Outcome
        requires world { (first : List ℕ) × (w : StoreWorld) × IsReached (keyed_fn K.prf K.pad) first w × IsClient (keyed_fn K.prf K.pad) first (client_part w) self.old.running self.old.disk self.old.stop self.old.key self.old.other }
        ensures leads { (first : List ℕ) (w : StoreWorld) → IsReached (keyed_fn K.prf K.pad) first w → IsClient (keyed_fn K.prf K.pad) first (client_part w) self.old.running self.old.disk self.old.stop self.old.key self.old.other → IsWaiting w.waiting waiting.old →
            LeadsClient (keyed_fn K.prf K.pad) first w (Commands (change_of command)) result self.new.running self.new.disk self.new.stop self.new.key self.new.other waiting.new }
    {
        let Some(it) = self.running.take() else {
            return Outcome::Nothing;
        };
        if it.waits {
            self.running = Some(it);
            return Outcome::Nothing;
        }
        self.given(alloc, keyed, it, command, waiting)
    }

    /// The same of a client that waits for nothing.
    fn given<K: Keyed>(
        &mut self,
        alloc: Global,
        keyed: &K,
        it: Running,
        command: Command,
        waiting: &mut Option<Replies>,
    ) -> Outcome
        requires world { (first : List ℕ) × (w : StoreWorld) × IsReached (keyed_fn K.prf K.pad) first w × IsClient (keyed_fn K.prf K.pad) first (client_part w) (Some it) self.old.disk self.old.stop self.old.key self.old.other }
        requires free { it.waits ≡ false }
        ensures leads { (first : List ℕ) (w : StoreWorld) → IsReached (keyed_fn K.prf K.pad) first w → IsClient (keyed_fn K.prf K.pad) first (client_part w) (Some it) self.old.disk self.old.stop self.old.key self.old.other → IsWaiting w.waiting waiting.old →
            LeadsClient (keyed_fn K.prf K.pad) first w (Commands (change_of command)) result self.new.running self.new.disk self.new.stop self.new.key self.new.other waiting.new }
    {
        let Running {
            state,
            mut journal,
            waits: _,
        } = it;
        let own = new_key(&command);
        let (commanded, calls) = carry_out(
            alloc,
            keyed,
            &self.key,
            state,
            command,
            &mut journal,
            &mut self.disk,
            self.stop,
        );
        self.ended(commanded, calls, journal, own, waiting)
    }

    /// A command ended so, after so many calls of the disk. `own` is the key that it brings, if it is a renewal.
    fn ended(
        &mut self,
        commanded: Commanded<State>,
        calls: u64,
        journal: Journal,
        own: Option<[u8; 32]>,
        waiting: &mut Option<Replies>,
    ) -> Outcome
        ensures leads { (f : KeyedFn) (first : List ℕ) (w : StoreWorld) (c : Change) (t : IsCommanding f first w c self.old.stop self.old.key own) → IsCame f first (history_of t.r.commands) t.r.phase c self.old.stop commanded calls journal self.old.disk → IsWaiting w.waiting waiting.old →
            LeadsClient f first w (Commands c) result self.new.running self.new.disk self.new.stop self.new.key self.new.other waiting.new }
    {
        match commanded {
            Commanded::Done(client) => {
                self.taken(client, calls, journal, own);
                Outcome::Done
            }
            Commanded::Refused(state) => {
                self.stays(state, journal);
                Outcome::Nothing
            }
            Commanded::NoMemory(state) => {
                self.stays(state, journal);
                Outcome::NoMemory
            }
            Commanded::Stopped => {
                self.gone(journal, None, own, waiting);
                Outcome::Done
            }
            Commanded::Broken => {
                let stop = later(self.stop, calls);
                self.gone(journal, stop, own, waiting);
                Outcome::NoMemory
            }
        }
    }

    /// The command is recorded, and the client sends its frames. The key of a renewal is the last one now.
    fn taken(&mut self, client: Client<Behind>, calls: u64, journal: Journal, own: Option<[u8; 32]>)
        ensures leads { (f : KeyedFn) (first : List ℕ) (w : StoreWorld) (c : Change) (waiting : Option Replies) (t : IsCommanding f first w c self.old.stop self.old.key own) → IsCame f first (history_of t.r.commands) t.r.phase c self.old.stop (ended.Done client) calls journal self.old.disk → IsWaiting w.waiting waiting →
            LeadsClient f first w (Commands c) outcome.Done self.new.running self.new.disk self.new.stop self.new.key self.new.other waiting }
    {
        self.running = Some(resumed(State::Sending(client), journal));
        self.stop = later(self.stop, calls);
        self.key = own.unwrap_or(self.key);
        self.other = None;
    }

    /// The client runs in this state. If that is the state before the command, the side runs the same part of the world.
    fn stays(&mut self, state: State, journal: Journal)
        ensures runs { (f : KeyedFn) (first : List ℕ) (w : StoreWorld) (c : Change) (own : Option (List ℕ)) (t : IsCommanding f first w c self.old.stop self.old.key own) → IsClientIn f first (history_of t.r.commands) t.r.phase state → Holds (records_under f first (history_of t.r.commands)) journal self.old.disk →
            IsClient f first (client_part w) self.new.running self.new.disk self.new.stop self.new.key self.new.other }
    {
        self.running = Some(resumed(state, journal));
    }

    /// The client is gone, with this stop to come. The record of a command that brings the key `own` is in doubt.
    fn gone(
        &mut self,
        journal: Journal,
        stop: Option<Stop>,
        own: Option<[u8; 32]>,
        waiting: &mut Option<Replies>,
    )
        ensures gone { self.new ≡ record self.old { running = None; stop = stop; other = own } }
        ensures waits { waiting.new ≡ None }
    {
        drop(journal);
        self.running = None;
        self.stop = stop;
        self.other = own;
        *waiting = None;
    }
}

/// The key that a command brings, if it is a renewal.
fn new_key(command: &Command) -> Option<[u8; 32]>
    ensures { result ≡ key_of (change_of command.now) }
{
    match command {
        Command::Renew(own) => Some(*own),
        _ => None,
    }
}

/// A client in this state that waits for nothing.
fn resumed(state: State, journal: Journal) -> Running
    ensures state { result.state ≡ state }
    ensures journal { result.journal ≡ journal }
    ensures free { result.waits ≡ false }
{
    Running {
        state,
        journal,
        waits: false,
    }
}
