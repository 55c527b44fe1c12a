ghost use Rattle.std.specs.Prelude.{◌≡◌, ◌≢◌, ◌<◌, ◌+◌, ◌-◌, ◌^◌, Bool, Err, IsSome, None, Some, length, min, OnErr, OnOk};
ghost use Rattle.keyed_fn.specs.KeyedFn.{keyed_fn};
ghost use Rattle.sse_frames.specs.Frames.{IsFrame};
ghost use Rattle.outside_memory_disk.specs.MemDisk.{fail_more_of, next_call_of};
ghost use Rattle.server_tables.specs.Contents.{no_contents};
ghost use Rattle.world_disks.specs.Disks.{IsImageOf};
ghost use Rattle.world_model.specs.Events as model;
ghost use Rattle.world_server.specs.Sides.{ServerPart, IsServer, Delivers, Starts, CanDeliver, IsCountedBy, IsLeftOf, halted, stopping, stop_in};

use crate::handled::{Handled, handle};
use crate::opened::open;
use crate::replies::Replies;
use keyed_fn::Keyed;
use outside_memory_disk::MemDisk;
use server_tables::Tables;
use sse_frames::Reply;
use sse_server::Store;
use std::alloc::{AllocError, Global};
use world_disks::{Stop, Unstarted, crash, plan_stop};

/// The server of a world: its disk, its store where it runs, and the stop that hasn't come yet.
#[derive(Drop)]
pub struct ServerSide<T: Tables> {
    pub disk: MemDisk,
    pub store: Option<Store<T>>,
    pub stop: Option<Stop>,
}

/// What a frame that comes to a server ends with.
#[derive(Drop)]
pub enum Delivered {
    /// The server doesn't run.
    Nothing,
    /// It has answered.
    Replied(Replies),
    /// It has stopped.
    Stopped,
    /// There is no memory for the frame or its replies, and nothing has changed.
    NoMemory,
    /// It ran out of memory in a call of its disk, and has stopped.
    Broken,
}

impl<T: Tables> ServerSide<T> {
    // Promise P307, also here; clauses: delivers, counted, can
    /// The bytes of a frame come to the server.
    pub fn deliver<K: Keyed>(
        &mut self,
        alloc: Global,
        keyed: &K,
        bytes: &[u8],
        page: &mut [u64],
    ) -> Delivered
        requires server { (old : ServerPart) × IsServer old self.old.store self.old.disk self.old.stop }
        requires frame { IsFrame bytes.now }
        requires page { 0 < length page.old }
        ensures delivers { (old : ServerPart) → IsServer old self.old.store self.old.disk self.old.stop → (sent : IsFrame bytes.now) →
            (new : ServerPart) × Delivers (keyed_fn K.prf K.pad) old old.taken sent.frame result new × IsServer new self.new.store self.new.disk self.new.stop }
        ensures counted { IsCountedBy result self.new.store self.old.disk self.old.stop self.new.disk self.new.stop }
        ensures can { CanDeliver result }
        ensures long { length page.new ≡ length page.old }
    {
        let Some(mut store) = self.store.take() else {
            return Delivered::Nothing;
        };
        let (handled, calls) = handle(
            alloc,
            &mut store,
            &mut self.disk,
            keyed,
            bytes,
            self.stop,
            page,
        );
        match handled {
            Handled::Took(q) => {
                self.store = Some(store);
                self.stop = later(self.stop, calls);
                Delivered::Replied(Replies::Single(Reply::Took(q)))
            }
            Handled::Replied(replies) => {
                self.store = Some(store);
                Delivered::Replied(replies)
            }
            Handled::Stopped => {
                self.stop = None;
                Delivered::Stopped
            }
            Handled::NoMemory => {
                self.store = Some(store);
                Delivered::NoMemory
            }
            Handled::Broken => {
                self.stop = later(self.stop, calls);
                Delivered::Broken
            }
        }
    }

    // Promise P308, also here; clauses: starts, gone, counted
    /// Starts the server from its disk, with tables of nothing. A server that runs is stopped first.
    pub fn start(&mut self, alloc: Global, tables: T) -> Result<(), Unstarted>
        requires empty { T.contents tables ≡ no_contents }
        ensures starts { (old : ServerPart) → IsServer old self.old.store self.old.disk self.old.stop →
            (new : ServerPart) × Starts old result new × IsServer new self.new.store self.new.disk self.new.stop }
        ensures gone { OnErr result (self.new.store ≡ None) }
        ensures counted { self.old.store ≡ None → (result ≡ Err Unstarted.Stopped → ⊥) → IsLeftOf self.old.disk self.old.stop self.new.disk self.new.stop }
    {
        if self.halt().is_err() {
            return Err(Unstarted::Broken);
        }
        let (opened, calls) = open(alloc, tables, &mut self.disk, self.stop);
        match opened {
            Ok(store) => {
                self.store = Some(store);
                self.stop = later(self.stop, calls);
                Ok(())
            }
            Err(why) => {
                self.stop = after_failure(self.stop, calls, why);
                Err(why)
            }
        }
    }

    /// Stops a server that runs, before it is started; one that doesn't run stays as it is. Without memory for the image that the stop
    /// leaves the disk stays.
    fn halt(&mut self) -> Result<(), AllocError>
        ensures halts { (old : ServerPart) → IsServer old self.old.store self.old.disk self.old.stop → IsServer (halted old) self.new.store self.new.disk self.new.stop }
        ensures store { self.new.store ≡ None }
        ensures err { OnErr result (self.new.stop ≡ None) }
        ensures image { IsSome self.old.store → OnOk result (IsImageOf 0 self.old.disk self.new.disk) }
        ensures failed { OnErr result (IsSome self.old.store) }
        ensures same { self.old.store ≡ None → (self.new.disk ≡ self.old.disk) × (self.new.stop ≡ self.old.stop) }
    {
        if self.store.is_none() {
            return Ok(());
        }
        self.store = None;
        self.stop = None;
        crash(&mut self.disk, 0)
    }

    // Promise P305, also here; clauses: stops, err, image, planned
    /// Stops the server now, if the number of the call is 0; else it is to stop inside that call of its disk, from 1. Without memory for the
    /// image that a stop leaves nothing changes.
    pub fn stop(&mut self, call: u64, pick: u64) -> Result<(), AllocError>
        ensures stops { OnOk result ((old : ServerPart) → IsServer old self.old.store self.old.disk self.old.stop →
            (there : Bool) × IsServer (stopping old call pick there) self.new.store self.new.disk self.new.stop) }
        ensures err { OnErr result ((old : ServerPart) → IsServer old self.old.store self.old.disk self.old.stop → IsServer old self.new.store self.new.disk self.new.stop) }
        ensures image { call ≡ 0 → OnOk result (IsImageOf pick self.old.disk self.new.disk) }
        ensures planned { call ≢ 0 → fail_more_of self.new.disk ≡ Some (min (next_call_of self.old.disk + (call - 1)) (2 ^ 64 - 1)) }
    {
        if call == 0 {
            crash(&mut self.disk, pick)?;
            self.store = None;
            self.stop = None;
            return Ok(());
        }
        let stop = Stop { call, pick };
        plan_stop(&mut self.disk, stop);
        self.stop = Some(stop);
        Ok(())
    }
}

/// The stop after so many calls: nothing, if it was among them.
pub fn later(stop: Option<Stop>, calls: u64) -> Option<Stop>
    ensures { stop_in result ≡ model.later calls (stop_in stop) }
{
    match stop {
        Some(stop) => {
            if calls < stop.call {
                Some(Stop {
                    call: stop.call - calls,
                    pick: stop.pick,
                })
            } else {
                None
            }
        }
        None => None,
    }
}

/// The stop after a start that failed.
pub fn after_failure(stop: Option<Stop>, calls: u64, why: Unstarted) -> Option<Stop>
    ensures stopped { why ≡ Unstarted.Stopped → result ≡ None }
    ensures broken { why ≡ Unstarted.Broken → stop_in result ≡ model.later calls (stop_in stop) }
{
    match why {
        Unstarted::Stopped => None,
        Unstarted::Broken => later(stop, calls),
    }
}
