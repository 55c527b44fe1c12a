ghost use Rattle.std.specs.Prelude.{◌≡◌, ◌≤◌, ℕ, List, length};
ghost use Rattle.client_registry.specs.Live.{in_order};
ghost use Rattle.client_registry.specs.Run.{History};
ghost use Rattle.keyed_fn.specs.KeyedFn.{KeyedFn, keyed_fn};
ghost use Rattle.sse_frames.specs.FrameViews.{reply_view};
ghost use Rattle.sse_frames.specs.Replies.{InReplies, ReplyText};
ghost use Rattle.sse_frames.specs.Sizes.{HasReplySizes};
ghost use Rattle.world_model.specs.World.{Phase, Reply as Answer};
ghost use Rattle.world_server.specs.Replies.{CanWrite};
ghost use Rattle.world_server.specs.Waiting.{IsKept};
ghost use Rattle.world_client.specs.Clients.{IsClientIn};
ghost use Rattle.world_client.specs.Hearing.{HasFound, Hears, IsFoundBy, IsRepliedTo, is_sending, report_of};
ghost use Rattle.world_client.specs.Histories.{IsOfClient};

use crate::answers::answered;
use crate::report::Report;
use crate::state::{Gone, State};
use keyed_fn::Keyed;
use sse_frames::{Reply, write_reply};
use std::alloc::Global;
use world_server::Replies;

// Promise P327 (caller): A client that takes a whole answer goes on and reports what is then done, or is gone exactly where the model's client is.
//   clauses: hears; assumes: earlier calls, kept limits; not: Out of memory may end a client that was to go on from the server's number.
/// A client takes all replies to its last frame. The buffer is for the bytes of one. Memory is taken only by a client that goes on
/// from the number that the server expects.
pub fn heard<K: Keyed>(
    alloc: Global,
    keyed: &K,
    client: State,
    replies: Replies,
    buffer: &mut [u8],
) -> Result<(State, Report), Gone>
    requires can { CanWrite replies }
    requires room { 65544 ≤ length buffer.old }
    ensures hears { (first : List ℕ) (h : History) (phase : Phase (List ℕ)) (answer : Answer (List ReplyText)) → IsOfClient (keyed_fn K.prf K.pad) first h → IsClientIn (keyed_fn K.prf K.pad) first h phase client →
        IsKept answer replies → Hears (keyed_fn K.prf K.pad) first h phase answer result }
    ensures long { length buffer.new ≡ length buffer.old }
{
    match replies {
        Replies::Single(reply) => replied(alloc, keyed, client, &reply, buffer),
        Replies::Found(ids) => found(client, ids),
    }
}

/// A client takes the answer to its last frame, which is one reply.
fn replied<K: Keyed>(
    alloc: Global,
    keyed: &K,
    client: State,
    reply: &Reply<'_>,
    buffer: &mut [u8],
) -> Result<(State, Report), Gone>
    requires grammar { InReplies (reply_view reply.now) }
    requires sizes { HasReplySizes reply.now }
    requires room { 65544 ≤ length buffer.old }
    ensures replied { (first : List ℕ) (h : History) (phase : Phase (List ℕ)) → IsOfClient (keyed_fn K.prf K.pad) first h → IsClientIn (keyed_fn K.prf K.pad) first h phase client →
        IsRepliedTo (keyed_fn K.prf K.pad) first h phase (reply_view reply.now) (is_sending client) result }
    ensures long { length buffer.new ≡ length buffer.old }
{
    let sending = sends(&client);
    let len = write_reply(reply, buffer);
    match answered(alloc, keyed, client, &buffer[..len]) {
        Ok(client) => {
            let report = report_on(&client, sending);
            Ok((client, report))
        }
        Err(gone) => Err(gone),
    }
}

/// Whether a client has frames to send.
fn sends(client: &State) -> bool
    ensures { result ≡ is_sending client.now }
{
    match client {
        State::Sending(_) => true,
        State::Greeting(_) => false,
        State::Fresh(_) => false,
        State::Resting(_) => false,
        State::Asking(_, _) => false,
    }
}

/// The report of a client that goes on as this one, and sent a frame before or didn't.
fn report_on(client: &State, sending: bool) -> Report
    ensures { result ≡ report_of sending client.now }
{
    if !sending {
        return Report::Nothing;
    }
    match client {
        State::Resting(_) => Report::Updated,
        State::Greeting(_) => Report::Nothing,
        State::Fresh(_) => Report::Nothing,
        State::Sending(_) => Report::Nothing,
        State::Asking(_, _) => Report::Nothing,
    }
}

/// A client takes the answer to its last frame, which is the pages of these identifiers.
fn found(client: State, ids: Vec<u64>) -> Result<(State, Report), Gone>
    ensures found { (f : KeyedFn) (first : List ℕ) (h : History) (phase : Phase (List ℕ)) → IsClientIn f first h phase client → IsFoundBy f first h phase ids.items result }
{
    match client {
        State::Asking(client, _) => Ok((State::Resting(client), Report::Found(rising(ids)))),
        State::Greeting(_) => Err(Gone::Unwanted),
        State::Fresh(_) => Err(Gone::Unwanted),
        State::Resting(_) => Err(Gone::Unwanted),
        State::Sending(_) => Err(Gone::Unwanted),
    }
}

/// The identifiers, rising.
fn rising(ids: Vec<u64>) -> Vec<u64>
    ensures { result.items ≡ in_order ids.items }
{
    let mut ids = ids;
    ids.sort_unstable();
    ids
}
