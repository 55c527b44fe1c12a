ghost use Rattle.std.specs.Prelude.{◌≡◌, ◌<◌, ◌^◌, ℕ, List, IfSome, Some};
ghost use Rattle.client_registry.specs.Run.{Epochs, History};
ghost use Rattle.keyed_fn.specs.KeyedFn.{KeyedFn, keyed_fn};
ghost use Rattle.sse_frames.specs.FrameViews.{reply_view};
ghost use Rattle.sse_frames.specs.ReadOutcomes.{IsReply};
ghost use Rattle.sse_frames.specs.Replies.{ReplyText, Next, reply_bytes};
ghost use Rattle.world_model.specs.World.{Phase, Greets};
ghost use Rattle.world_client.specs.Answering.{GoesOn, GoesOnAt, GoesOnBehind, GoesOnFrom, next_told};
ghost use Rattle.world_client.specs.Clients.{IsClientIn, IsGreeting, IsRestoredOf, IsSending};
ghost use Rattle.world_client.specs.Histories.{IsOfClient};

use crate::state::{Gone, State};
use client_core::{Behind, Client, Recorded, Restored, ResumeFault, Resumed, Taken};
use keyed_fn::Keyed;
use sse_frames::{Reply, read_whole_reply};
use std::alloc::Global;

// Promise P312 (caller): An answered client in a world goes on in the phase that the answer gives it, or is gone exactly where it gives none.
//   clauses: goes_on; assumes: earlier calls, kept limits; not: Out of memory may end a client that was to go on from the server's number.
/// A client takes the answer to its last frame, which is one reply.
pub fn answered<K: Keyed>(
    alloc: Global,
    keyed: &K,
    client: State,
    reply: &[u8],
) -> Result<State, Gone>
    ensures goes_on { (first : List ℕ) (h : History) (phase : Phase (List ℕ)) (text : ReplyText) → IsOfClient (keyed_fn K.prf K.pad) first h → IsClientIn (keyed_fn K.prf K.pad) first h phase client →
        IsReply text reply.now → GoesOn (keyed_fn K.prf K.pad) first h phase text result }
{
    match client {
        State::Greeting(client) => greeted(alloc, keyed, client, reply),
        State::Sending(client) => acknowledged(client, reply),
        State::Fresh(_) => Err(Gone::Unwanted),
        State::Resting(_) => Err(Gone::Unwanted),
        State::Asking(_, _) => Err(Gone::Unwanted),
    }
}

// Promise P312, also here; clauses: goes_on, goes_on_by
/// A client that greets takes the answer.
pub fn greeted<K: Keyed>(
    alloc: Global,
    keyed: &K,
    client: Restored,
    reply: &[u8],
) -> Result<State, Gone>
    ensures goes_on { (first : List ℕ) (h : History) → IsOfClient (keyed_fn K.prf K.pad) first h → IsGreeting (keyed_fn K.prf K.pad) first h client →
        GoesOnFrom (keyed_fn K.prf K.pad) first h reply.now result }
    ensures goes_on_by { (first : List ℕ) (h : History) (text : ReplyText) → IsOfClient (keyed_fn K.prf K.pad) first h → IsGreeting (keyed_fn K.prf K.pad) first h client →
        IsReply text reply.now → GoesOn (keyed_fn K.prf K.pad) first h Greets text result }
{
    match next_in(reply) {
        Some(next) => at_next(alloc, keyed, client, next),
        None => Err(Gone::Unwanted),
    }
}

/// The same, where the server expects this number.
fn at_next<K: Keyed>(alloc: Global, keyed: &K, client: Restored, next: u32) -> Result<State, Gone>
    ensures goes_on { (first : List ℕ) (h : History) → IsOfClient (keyed_fn K.prf K.pad) first h → IsGreeting (keyed_fn K.prf K.pad) first h client →
        GoesOnAt (keyed_fn K.prf K.pad) first h next result }
{
    match client {
        Restored::Fresh(client) => {
            if next == 0 {
                Ok(State::Fresh(client))
            } else {
                Err(Gone::Unwanted)
            }
        }
        Restored::Recorded(client) => resumed(alloc, keyed, client, next),
    }
}

/// The same of a client with records.
fn resumed<K: Keyed>(
    alloc: Global,
    keyed: &K,
    client: Client<Recorded>,
    next: u32,
) -> Result<State, Gone>
    ensures goes_on { (first : List ℕ) (es : Epochs) → IsOfClient (keyed_fn K.prf K.pad) first (Some es) → IsRestoredOf (keyed_fn K.prf K.pad) first es client →
        GoesOnAt (keyed_fn K.prf K.pad) first (Some es) next result }
{
    match client.resume(alloc, keyed, next) {
        Ok(resumed) => match resumed {
            Resumed::Ready(client) => Ok(State::Resting(client)),
            Resumed::Behind(client) => Ok(State::Sending(client)),
        },
        Err(fault) => match fault {
            ResumeFault::NoMemory => Err(Gone::NoMemory),
            _ => Err(Gone::Unwanted),
        },
    }
}

/// The number in a Next reply that is all of these bytes.
fn next_in(reply: &[u8]) -> Option<u32>
    ensures found { IfSome result (λ q. reply.now ≡ reply_bytes (Next q)) }
    ensures only { (q : ℕ) → q < 2 ^ 32 → reply.now ≡ reply_bytes (Next q) → result ≡ Some q }
    ensures told { (text : ReplyText) → IsReply text reply.now → result ≡ next_told text }
{
    match read_whole_reply(reply) {
        Some(read) => number_of(read),
        None => None,
    }
}

/// The number of a Next reply.
fn number_of(reply: Reply<'_>) -> Option<u32>
    ensures { result ≡ next_told (reply_view reply.entry) }
{
    match reply {
        Reply::Next(number) => Some(number),
        Reply::Took(_)
        | Reply::Number(_)
        | Reply::Clash { .. }
        | Reply::Page { .. }
        | Reply::BadList
        | Reply::NoMemory
        | Reply::StoreFault
        | Reply::BadFrame(_)
        | Reply::OutOfPlace => None,
    }
}

// Promise P312, also here; clauses: goes_on
/// A client that sent a frame takes the answer. It takes no memory.
pub fn acknowledged(client: Client<Behind>, reply: &[u8]) -> Result<State, Gone>
    ensures goes_on { (f : KeyedFn) (first : List ℕ) (es : Epochs) (next : ℕ) → IsSending f first es next client → GoesOnBehind f first es next reply.now result }
{
    match client.take_reply(reply) {
        Taken::Behind(client) => Ok(State::Sending(client)),
        Taken::Ready(client) => Ok(State::Resting(client)),
        Taken::Stopped(_, _) => Err(Gone::Unwanted),
    }
}
