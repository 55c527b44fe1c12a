ghost use Rattle.std.specs.Prelude.{◌≡◌, ◌≢◌, ◌<◌, ◌+◌, ◌-◌, ◌^◌, ◌==◌, ◌&&◌, ℕ, List, IfSome, IsSome, None, Some, length, min, slice_get};
ghost use Rattle.keyed_fn.specs.KeyedFn.{keyed_fn};
ghost use Rattle.outside_memory_disk.specs.MemDisk.{fail_more_of, next_call_of};
ghost use Rattle.server_tables.specs.Contents.{no_contents};
ghost use Rattle.world_disks.specs.Disks.{IsImageOf};
ghost use Rattle.world_model.specs.Events.{Leads, Deliver, StartServer, StopServer};
ghost use Rattle.world_rules.specs.Promises.{StoreWorld};
ghost use Rattle.world_rules.specs.Rules.{store_rules};
ghost use Rattle.world_server.specs.Replies.{CanWrite};
ghost use Rattle.world_server.specs.Sides.{IsServer};
ghost use Rattle.world_server.specs.Waiting.{server_part, outcome_of_start};
ghost use Rattle.sse_world.specs.Stands.{IsCountedIn, IsLink, waits_in, outcome_in, IsServersWork, kept_reply};

use crate::{Link, Outcome, Sent};
use keyed_fn::Keyed;
use server_tables::Tables;
use std::alloc::Global;
use world_disks::Unstarted;
use world_server::{Delivered, Replies, ServerSide};

// Promise P307, also here; clauses: leads, counted
/// The frame at this place of all that were ever sent comes to the server. Its reply is kept if the client waits for one, none waits
/// yet, and the frame is the last.
pub fn deliver<K: Keyed, T: Tables>(
    alloc: Global,
    keyed: &K,
    server: &mut ServerSide<T>,
    link: &mut Link,
    waits: bool,
    place: usize,
    page: &mut [u64],
) -> Outcome
    requires world { (key : List ℕ) × (w : StoreWorld) × IsServer (server_part w) server.old.store server.old.disk server.old.stop × IsLink w link.old.sent.frames link.old.waiting }
    requires page { 0 < length page.old }
    ensures leads { (key : List ℕ) (w : StoreWorld) → IsServer (server_part w) server.old.store server.old.disk server.old.stop → IsLink w link.old.sent.frames link.old.waiting → waits ≡ waits_in w.client →
        (v : StoreWorld) × Leads (store_rules (keyed_fn K.prf K.pad) key) w (Deliver place) (outcome_in result) v × IsServersWork w v × IsServer (server_part v) server.new.store server.new.disk server.new.stop × IsLink v link.new.sent.frames link.new.waiting }
    ensures counted { IsCountedIn result server.new.store server.old.disk server.old.stop server.new.disk server.new.stop }
    ensures long { length page.new ≡ length page.old }
{
    let Some(frame) = link.sent.get(place) else {
        return Outcome::Nothing;
    };
    match server.deliver(alloc, keyed, frame, page) {
        Delivered::Nothing => Outcome::Nothing,
        Delivered::Replied(replies) => {
            keep_reply(link, replies, waits, place);
            Outcome::Done
        }
        Delivered::Stopped => Outcome::Done,
        Delivered::NoMemory => Outcome::NoMemory,
        Delivered::Broken => Outcome::NoMemory,
    }
}

/// Keeps the replies to the frame at this place for the client, if it waits for them, none wait yet, and the frame is the last.
fn keep_reply(link: &mut Link, replies: Replies, waits: bool, place: usize)
    ensures sent { link.new.sent.frames ≡ link.old.sent.frames }
    ensures waiting { link.new.waiting ≡ kept_reply link.old.waiting replies (waits && (place + 1 == length link.old.sent.frames)) }
{
    if waits && is_last(&link.sent, place) && link.waiting.is_none() {
        link.waiting = Some(replies);
    }
}

/// Whether the frame at this place is the last.
fn is_last(sent: &Sent, place: usize) -> bool
    ensures { result ≡ (place + 1 == length sent.now.frames) }
{
    let count = sent.len();
    count > 0 && place == count - 1
}

// Promise P308, also here; clauses: leads, counted
/// The server is started, with tables of nothing.
pub fn start_server<K: Keyed, T: Tables>(
    alloc: Global,
    keyed: &K,
    tables: T,
    server: &mut ServerSide<T>,
) -> Outcome
    requires empty { T.contents tables ≡ no_contents }
    ensures leads { (key : List ℕ) (w : StoreWorld) → IsServer (server_part w) server.old.store server.old.disk server.old.stop →
        (v : StoreWorld) × Leads (store_rules (keyed_fn K.prf K.pad) key) w StartServer (outcome_in result) v × IsServersWork w v × (v.waiting ≡ w.waiting) × IsServer (server_part v) server.new.store server.new.disk server.new.stop }
    ensures counted { server.old.store ≡ None → IsCountedIn result server.new.store server.old.disk server.old.stop server.new.disk server.new.stop }
{
    start_outcome(server.start(alloc, tables))
}

/// What a start comes to.
fn start_outcome(started: Result<(), Unstarted>) -> Outcome
    ensures { outcome_in result ≡ outcome_of_start started }
{
    match started {
        Ok(()) => Outcome::Done,
        Err(Unstarted::Stopped) => Outcome::Done,
        Err(Unstarted::Broken) => Outcome::NoMemory,
    }
}

// Promise P305, also here; clauses: leads, image, planned
/// The server stops now, if the number of the call is 0, and else inside that call of its disk from now on.
pub fn stop_server<K: Keyed, T: Tables>(
    keyed: &K,
    server: &mut ServerSide<T>,
    call: u64,
    pick: u64,
) -> Outcome
    ensures leads { (key : List ℕ) (w : StoreWorld) → IsServer (server_part w) server.old.store server.old.disk server.old.stop →
        (v : StoreWorld) × Leads (store_rules (keyed_fn K.prf K.pad) key) w (StopServer call pick) (outcome_in result) v × IsServersWork w v × (v.waiting ≡ w.waiting) × IsServer (server_part v) server.new.store server.new.disk server.new.stop }
    ensures image { call ≡ 0 → result ≡ Outcome.Done → IsImageOf pick server.old.disk server.new.disk }
    ensures planned { call ≢ 0 → fail_more_of server.new.disk ≡ Some (min (next_call_of server.old.disk + (call - 1)) (2 ^ 64 - 1)) }
{
    match server.stop(call, pick) {
        Ok(()) => Outcome::Done,
        Err(_) => Outcome::NoMemory,
    }
}
