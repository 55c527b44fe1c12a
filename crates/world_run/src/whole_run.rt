ghost use Rattle.std.specs.Prelude.{◌≡◌, ◌<◌, ◌≤◌, [], ◌∷◌, ℕ, List, IfOk, length};
ghost use Rattle.keyed_fn.specs.KeyedFn.{keyed_fn};
ghost use Rattle.world_model.specs.World.{at_first};
ghost use Rattle.world_rules.specs.Promises.{StoreWorld};
ghost use Rattle.world_run.specs.Worlds.{Passes, PassesTo, Stands};

use crate::behind::Behind;
use crate::event::Event;
use crate::world::World;
use keyed_fn::Keyed;
use server_tables::BucketTables;
use sse_frames::{PAGE_LEN, REPLY_ROOM};
use std::alloc::{AllocError, Global};

// Promise P329 (caller): Any list of events leads from a new world to one with all promises, and beside each event stands what it came to.
//   clauses: passes; assumes: own keys, kept limits; not: Out of memory, which may end the run.
/// The world to which these events lead, one after the other, and what each came to. The key is that of the client's first epoch.
pub fn run<K: Keyed>(
    alloc: Global,
    keyed: &K,
    key: [u8; 32],
    events: Vec<Event>,
) -> Result<(World<BucketTables>, Vec<Behind>), AllocError>
    ensures passes { IfOk result (λ run. PassesTo (keyed_fn K.prf K.pad) key events.items run.1.items run.0) }
{
    let mut page = vec![in alloc; 0u64; PAGE_LEN as usize]?;
    let mut buffer = vec![in alloc; 0u8; REPLY_ROOM]?;
    let mut world = World::new(alloc, key);
    let behinds = play(alloc, keyed, &mut world, events, &mut page, &mut buffer)?;
    Ok((world, behinds))
}

/// The events happen to a new world, one after the other; what each came to.
fn play<K: Keyed>(
    alloc: Global,
    keyed: &K,
    world: &mut World<BucketTables>,
    events: Vec<Event>,
    page: &mut [u64],
    buffer: &mut [u8],
) -> Result<Vec<Behind>, AllocError>
    requires room { (0 < length page.old) × (65544 ≤ length buffer.old) }
    requires first { (first : List ℕ) × Stands (keyed_fn K.prf K.pad) first at_first world.old }
    ensures passes { (first : List ℕ) → Stands (keyed_fn K.prf K.pad) first at_first world.old → IfOk result (λ behinds. PassesTo (keyed_fn K.prf K.pad) first events.items behinds.items world.new) }
{
    let mut behinds = Vec::with_capacity(alloc, events.len())?;
    for event in events {
        behinds.push_reserved(happen(alloc, keyed, world, event, page, buffer));
    }
    Ok(behinds)
}

/// An event happens to a world; what it came to.
fn happen<K: Keyed>(
    alloc: Global,
    keyed: &K,
    world: &mut World<BucketTables>,
    event: Event,
    page: &mut [u64],
    buffer: &mut [u8],
) -> Behind
    requires world { (first : List ℕ) × (w : StoreWorld) × Stands (keyed_fn K.prf K.pad) first w world.old }
    requires room { (0 < length page.old) × (65544 ≤ length buffer.old) }
    ensures passes { (first : List ℕ) (w : StoreWorld) → Stands (keyed_fn K.prf K.pad) first w world.old → (v : StoreWorld) × Passes (keyed_fn K.prf K.pad) first w (event ∷ []) (result ∷ []) v × Stands (keyed_fn K.prf K.pad) first v world.new }
    ensures long { (length page.new ≡ length page.old) × (length buffer.new ≡ length buffer.old) }
{
    let tables = BucketTables::new(alloc);
    let outcome = world.step(alloc, keyed, event, tables, page, buffer);
    let reports = world.done().len() as u64;
    Behind { outcome, reports }
}
