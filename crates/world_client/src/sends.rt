ghost use Rattle.std.specs.Prelude.{◌≡◌, ℕ, List, IfOk, option_map};
ghost use Rattle.client_registry.specs.Run.{History};
ghost use Rattle.keyed_fn.specs.KeyedFn.{keyed_fn};
ghost use Rattle.sse_frames.specs.Frames.{Hello, frame_bytes};
ghost use Rattle.world_model.specs.World.{Phase};
ghost use Rattle.world_client.specs.Answering.{frame_in};
ghost use Rattle.world_client.specs.Clients.{IsClientIn, IsPreparedFor};
ghost use Rattle.world_client.specs.Histories.{IsOfClient};

use crate::state::State;
use keyed_fn::Keyed;
use sse_frames::{Frame, write_frame};
use std::alloc::{AllocError, Global};
use word_keys::PreparedMaster;

// Promise P311 (caller): What a client in a world sends is Hello, the history's frame of its number, or its word's search, as its phase says.
//   clauses: frame; assumes: own keys, earlier calls
/// The bytes of the frame that a client sends next; nothing where it has none. `master` is its key, prepared.
pub fn next_frame<K: Keyed>(
    alloc: Global,
    master: &PreparedMaster<'_, K>,
    client: &State,
) -> Result<Option<Vec<u8>>, AllocError>
    requires prepared { IsPreparedFor master.now client.now }
    ensures frame { (first : List ℕ) (h : History) (phase : Phase (List ℕ)) → IsOfClient (keyed_fn K.prf K.pad) first h → IsClientIn (keyed_fn K.prf K.pad) first h phase client.now →
        IfOk result (λ frame. option_map (λ bytes. bytes.items) frame ≡ frame_in (keyed_fn K.prf K.pad) first h phase) }
{
    match client {
        State::Greeting(_) => Ok(Some(hello(alloc)?)),
        State::Fresh(_) => Ok(None),
        State::Resting(_) => Ok(None),
        State::Sending(client) => Ok(Some(copied(alloc, client.frame())?)),
        State::Asking(client, word) => Ok(Some(copied(alloc, &client.search_frame(master, word))?)),
    }
}

/// The bytes of Hello.
fn hello(alloc: Global) -> Result<Vec<u8>, AllocError>
    ensures { IfOk result (λ bytes. bytes.items ≡ frame_bytes Hello) }
{
    let mut bytes = Vec::new(alloc);
    write_frame(&Frame::Hello, &mut bytes)?;
    Ok(bytes)
}

/// A copy of these bytes.
fn copied(alloc: Global, bytes: &[u8]) -> Result<Vec<u8>, AllocError>
    ensures { IfOk result (λ copy. copy.items ≡ bytes.now) }
{
    let mut copy = Vec::new(alloc);
    copy.extend_from_slice(bytes)?;
    Ok(copy)
}
