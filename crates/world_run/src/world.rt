ghost use Rattle.std.specs.Prelude.{◌≡◌, ◌<◌, ◌≤◌, [], ◌∷◌, ℕ, List, None, length, map};
ghost use Rattle.client_registry.specs.WordBytes.{word_bytes};
ghost use Rattle.keyed_fn.specs.KeyedFn.{KeyedFn, keyed_fn};
ghost use Rattle.server_tables.specs.Contents.{no_contents};
ghost use Rattle.world_model.specs.World.{at_first};
ghost use Rattle.world_model.specs.Events as model;
ghost use Rattle.world_rules.specs.Promises.{StoreWorld};
ghost use Rattle.world_run.specs.Commands.{change_of};
ghost use Rattle.world_run.specs.Worlds.{IsPromisedOn, LeadsTo, Stands, event_in};

use crate::client_side::ClientSide;
use crate::command::{Command, keeps_limits};
use crate::done::Done;
use crate::event::Event;
use crate::sending;
use client_registry::Word;
use keyed_fn::Keyed;
use outside_memory_disk::MemDisk;
use server_tables::Tables;
use sse_frames::Items;
use sse_world::{Link, Outcome, Sent};
use std::alloc::Global;
use std::marker::Model;
use world_server::ServerSide;

/// A client and a server, what passes between them, the words that were looked for, and all that was reported done.
#[derive(Drop)]
pub struct World<T: Tables> {
    client: ClientSide,
    server: ServerSide<T>,
    link: Link,
    asked: Items<Word>,
    done: Vec<Done>,
}

impl<T: Tables> Model for World<T> {
    ghost use Rattle.world_run.specs.Worlds.{WorldView};

    ghost Value = { WorldView };

    ghost use Rattle.std.specs.Coded.{codes};
    ghost use Rattle.sse_server.specs.StoreView.{store_code};

    ghost coded = { Prim.hlevel (codes, store_code) };

    ghost view = { λ s. record { client = s.client; store = s.server.store; server_disk = s.server.disk; server_stop = s.server.stop; sent = s.link.sent.frames; waiting = s.link.waiting; asked = s.asked; dones = s.done.items } };
}

impl<T: Tables> World<T> {
    /// A world at its beginning: neither side runs, and both disks are empty. The key is that of the client's first epoch.
    pub fn new(alloc: Global, key: [u8; 32]) -> World<T>
        ensures stands { (f : KeyedFn) → Stands f key at_first result }
    {
        World {
            client: ClientSide::new(alloc, key),
            server: ServerSide {
                disk: MemDisk::new(alloc, Vec::new(alloc)),
                store: None,
                stop: None,
            },
            link: Link::new(alloc),
            asked: Items::new(alloc),
            done: Vec::new(alloc),
        }
    }

    /// All frames that were ever sent.
    pub fn sent(&self) -> &Sent
        ensures { result.now.frames ≡ self.now.sent }
    {
        &self.link.sent
    }

    /// All that was reported done, in its order.
    pub fn done(&self) -> &[Done]
        ensures { result.now ≡ self.now.dones }
    {
        self.done.as_slice()
    }

    /// The client's disk.
    pub fn client_disk(&self) -> &MemDisk
        ensures { result.now ≡ self.now.client.disk }
    {
        &self.client.disk
    }

    /// The server's disk.
    pub fn server_disk(&self) -> &MemDisk
        ensures { result.now ≡ self.now.server_disk }
    {
        &self.server.disk
    }

    // Promise P326 (caller): Each event of a world, also a stop inside a call of a disk, leads to the next by the model, and all promises stay.
    //   clauses: leads, promised; assumes: own keys, kept limits
    /// What an event makes of the world. `tables` are those of a server that starts, with nothing in them; the page and the buffer are
    /// for a reply.
    pub fn step<K: Keyed>(
        &mut self,
        alloc: Global,
        keyed: &K,
        event: Event,
        tables: T,
        page: &mut [u64],
        buffer: &mut [u8],
    ) -> Outcome
        requires world { (first : List ℕ) × (w : StoreWorld) × Stands (keyed_fn K.prf K.pad) first w self.old }
        requires empty { T.contents tables ≡ no_contents }
        requires room { (0 < length page.old) × (65544 ≤ length buffer.old) }
        ensures leads { (first : List ℕ) (w : StoreWorld) → Stands (keyed_fn K.prf K.pad) first w self.old → LeadsTo (keyed_fn K.prf K.pad) first w (event_in event) result self.new }
        ensures promised { (first : List ℕ) (v : StoreWorld) → Stands (keyed_fn K.prf K.pad) first v self.new → IsPromisedOn (keyed_fn K.prf K.pad) first v self.new }
        ensures long { (length page.new ≡ length page.old) × (length buffer.new ≡ length buffer.old) }
    {
        match event {
            Event::Command(command) => self.command(alloc, keyed, command),
            Event::Find(word) => self.find(word),
            Event::Send => self.send(alloc, keyed, buffer),
            Event::Deliver(place) => self.deliver(alloc, keyed, place, page),
            Event::LoseReply => self.lose(),
            Event::StopClient { call, pick } => self.stop_client(call, pick),
            Event::StopServer { call, pick } => self.stop_server(keyed, call, pick),
            Event::StartClient => self.start_client(alloc, keyed),
            Event::StartServer => self.start_server(alloc, keyed, tables),
        }
    }

    /// The client is given a command.
    fn command<K: Keyed>(&mut self, alloc: Global, keyed: &K, command: Command) -> Outcome
        requires world { (first : List ℕ) × (w : StoreWorld) × Stands (keyed_fn K.prf K.pad) first w self.old }
        ensures leads { (first : List ℕ) (w : StoreWorld) → Stands (keyed_fn K.prf K.pad) first w self.old → LeadsTo (keyed_fn K.prf K.pad) first w (model.Command (change_of command)) result self.new }
    {
        keeps_limits(&command);
        self.client
            .command(alloc, keyed, command, &mut self.link.waiting)
    }

    /// The client is to look for a word.
    fn find(&mut self, word: Word) -> Outcome
        ensures leads { (f : KeyedFn) (first : List ℕ) (w : StoreWorld) → Stands f first w self.old → LeadsTo f first w (model.Find (word_bytes word)) result self.new }
    {
        self.client.find(word, &mut self.asked)
    }

    /// The client takes the reply that waits, and sends its next frame.
    fn send<K: Keyed>(&mut self, alloc: Global, keyed: &K, buffer: &mut [u8]) -> Outcome
        requires world { (first : List ℕ) × (w : StoreWorld) × Stands (keyed_fn K.prf K.pad) first w self.old }
        requires room { 65544 ≤ length buffer.old }
        ensures leads { (first : List ℕ) (w : StoreWorld) → Stands (keyed_fn K.prf K.pad) first w self.old → LeadsTo (keyed_fn K.prf K.pad) first w model.Send result self.new }
        ensures long { length buffer.new ≡ length buffer.old }
    {
        sending::send(
            alloc,
            keyed,
            &mut self.client.running,
            &self.client.key,
            &mut self.link,
            &self.asked,
            &mut self.done,
            buffer,
        )
    }

    /// The frame at this place comes to the server.
    fn deliver<K: Keyed>(
        &mut self,
        alloc: Global,
        keyed: &K,
        place: u64,
        page: &mut [u64],
    ) -> Outcome
        requires world { (first : List ℕ) × (w : StoreWorld) × Stands (keyed_fn K.prf K.pad) first w self.old }
        requires page { 0 < length page.old }
        ensures leads { (first : List ℕ) (w : StoreWorld) → Stands (keyed_fn K.prf K.pad) first w self.old → LeadsTo (keyed_fn K.prf K.pad) first w (model.Deliver place) result self.new }
        ensures long { length page.new ≡ length page.old }
    {
        let waits = self.client.waits();
        sse_world::deliver(
            alloc,
            keyed,
            &mut self.server,
            &mut self.link,
            waits,
            place as usize,
            page,
        )
    }

    /// The reply that waits is lost.
    fn lose(&mut self) -> Outcome
        ensures leads { (f : KeyedFn) (first : List ℕ) (w : StoreWorld) → Stands f first w self.old → LeadsTo f first w model.LoseReply result self.new }
    {
        self.client.lose(&mut self.link.waiting)
    }

    /// The client stops, or is to.
    fn stop_client(&mut self, call: u64, pick: u64) -> Outcome
        ensures leads { (f : KeyedFn) (first : List ℕ) (w : StoreWorld) → Stands f first w self.old → LeadsTo f first w (model.StopClient call pick) result self.new }
    {
        self.client.stop(call, pick, &mut self.link.waiting)
    }

    /// The server stops, or is to.
    fn stop_server<K: Keyed>(&mut self, keyed: &K, call: u64, pick: u64) -> Outcome
        ensures leads { (first : List ℕ) (w : StoreWorld) → Stands (keyed_fn K.prf K.pad) first w self.old → LeadsTo (keyed_fn K.prf K.pad) first w (model.StopServer call pick) result self.new }
    {
        sse_world::stop_server(keyed, &mut self.server, call, pick)
    }

    /// The client starts.
    fn start_client<K: Keyed>(&mut self, alloc: Global, keyed: &K) -> Outcome
        requires world { (first : List ℕ) × (w : StoreWorld) × Stands (keyed_fn K.prf K.pad) first w self.old }
        ensures leads { (first : List ℕ) (w : StoreWorld) → Stands (keyed_fn K.prf K.pad) first w self.old → LeadsTo (keyed_fn K.prf K.pad) first w model.StartClient result self.new }
    {
        self.client.start(alloc, keyed, &mut self.link.waiting)
    }

    /// The server starts, with these tables of nothing.
    fn start_server<K: Keyed>(&mut self, alloc: Global, keyed: &K, tables: T) -> Outcome
        requires empty { T.contents tables ≡ no_contents }
        ensures leads { (first : List ℕ) (w : StoreWorld) → Stands (keyed_fn K.prf K.pad) first w self.old → LeadsTo (keyed_fn K.prf K.pad) first w model.StartServer result self.new }
    {
        sse_world::start_server(alloc, keyed, tables, &mut self.server)
    }
}
