ghost use Rattle.std.specs.Prelude.{◌≡◌, ◌≢◌, ◌-◌, ◌+◌, ◌^◌, ℕ, List, Some, None, min};
ghost use Rattle.keyed_fn.specs.KeyedFn.{KeyedFn};
ghost use Rattle.outside_memory_disk.specs.MemDisk.{fail_more_of, next_call_of};
ghost use Rattle.world_disks.specs.Disks.{IsImageOf};
ghost use Rattle.world_model.specs.Events.{LoseReply, StopClient};
ghost use Rattle.world_rules.specs.Promises.{StoreWorld};
ghost use Rattle.sse_world.specs.Stands.{IsWaiting};
ghost use Rattle.world_run.specs.Sides.{IsClient, LeadsClient, client_part};

use crate::client_side::ClientSide;
use sse_world::Outcome;
use world_disks::{Stop, crash, plan_stop};
use world_server::Replies;

impl ClientSide {
    /// The answer that waits is lost, and the client stops. Nothing happens where none waits.
    pub fn lose(&mut self, waiting: &mut Option<Replies>) -> Outcome
        ensures leads { (f : KeyedFn) (first : List ℕ) (w : StoreWorld) → IsClient f first (client_part w) self.old.running self.old.disk self.old.stop self.old.key self.old.other → IsWaiting w.waiting waiting.old →
            LeadsClient f first w LoseReply result self.new.running self.new.disk self.new.stop self.new.key self.new.other waiting.new }
    {
        let Some(replies) = waiting.take() else {
            return Outcome::Nothing;
        };
        drop(replies);
        drop(self.running.take());
        Outcome::Done
    }

    // Promise P305, also here; clauses: leads, image, planned
    /// The client stops now, if the number of the call is 0, and else inside that call of its disk from now on.
    pub fn stop(&mut self, call: u64, pick: u64, waiting: &mut Option<Replies>) -> Outcome
        ensures leads { (f : KeyedFn) (first : List ℕ) (w : StoreWorld) → IsClient f first (client_part w) self.old.running self.old.disk self.old.stop self.old.key self.old.other → IsWaiting w.waiting waiting.old →
            LeadsClient f first w (StopClient call pick) result self.new.running self.new.disk self.new.stop self.new.key self.new.other waiting.new }
        ensures image { call ≡ 0 → result ≡ Outcome.Done → IsImageOf pick self.old.disk self.new.disk }
        ensures planned { call ≢ 0 → fail_more_of self.new.disk ≡ Some (min (next_call_of self.old.disk + (call - 1)) (2 ^ 64 - 1)) }
    {
        if call == 0 {
            if crash(&mut self.disk, pick).is_err() {
                return Outcome::NoMemory;
            }
            drop(self.running.take());
            drop(waiting.take());
            self.stop = None;
            return Outcome::Done;
        }
        let stop = Stop { call, pick };
        plan_stop(&mut self.disk, stop);
        self.stop = Some(stop);
        Outcome::Done
    }
}
