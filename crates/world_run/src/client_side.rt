ghost use Rattle.std.specs.Prelude.{◌≡◌, ℕ, List};
ghost use Rattle.keyed_fn.specs.KeyedFn.{KeyedFn};
ghost use Rattle.world_model.specs.World.{at_first};
ghost use Rattle.world_rules.specs.Promises.{StoreWorld};
ghost use Rattle.sse_world.specs.Stands.{waits_in};
ghost use Rattle.world_run.specs.Sides.{IsClient, client_part};

use crate::running::Running;
use outside_memory_disk::MemDisk;
use std::alloc::Global;
use world_disks::Stop;

/// The client of a world: its disk, itself where it runs, and the stop that hasn't come yet. The last key of its records is `key`, or
/// `other` where the record of a renewal is in doubt.
#[derive(Drop)]
pub struct ClientSide {
    pub disk: MemDisk,
    pub running: Option<Running>,
    pub stop: Option<Stop>,
    pub key: [u8; 32],
    pub other: Option<[u8; 32]>,
}

impl ClientSide {
    /// A client with an empty disk, which doesn't run, and whose first key is this one.
    pub fn new(alloc: Global, key: [u8; 32]) -> ClientSide
        ensures stands { (f : KeyedFn) → IsClient f key (client_part at_first) result.running result.disk result.stop result.key result.other }
    {
        ClientSide {
            disk: MemDisk::new(alloc, Vec::new(alloc)),
            running: None,
            stop: None,
            key,
            other: None,
        }
    }

    /// Whether it waits for the answer to the last frame that it sent.
    pub fn waits(&self) -> bool
        ensures { (f : KeyedFn) (first : List ℕ) (w : StoreWorld) → IsClient f first (client_part w) self.now.running self.now.disk self.now.stop self.now.key self.now.other → result ≡ waits_in w.client }
    {
        match &self.running {
            Some(it) => it.waits,
            None => false,
        }
    }
}
