ghost use Rattle.std.specs.Prelude.{◌≡◌, ◌≢◌, ◌+◌, ◌<◌, ◌∷◌, [], ℕ, List, true, false, drop, take, Some};
ghost use Rattle.client_registry.specs.Run.{Offsets, Run};
ghost use Rattle.keyed_fn.specs.KeyedFn.{KeyedFn};
ghost use Rattle.sse_frames.specs.Frames.{IsNumber};
ghost use Rattle.sse_frames.specs.Replies.{reply_bytes, Took, StoreFault};
ghost use Rattle.sse_frames.specs.FrameViews.{reply_view};
ghost use Rattle.client_core.specs.Owes.{Owes, OwesBehind};
ghost use Rattle.client_core.specs.TakenViews.{first_number, frames_left, to_send, left_behind, stopped_by, AfterReply, is_took};

use crate::behind::Behind;
use crate::client::{Client, Spent};
use crate::ready::Ready;
use client_replies::{ReplyFault, fault_of};
use sse_frames::{Reply, read_whole_reply};

/// What a reply makes of a client with unacknowledged frames.
#[derive(Drop)]
pub enum Taken {
    /// The frame is acknowledged, and more are left.
    Behind(Client<Behind>),
    /// The last frame is acknowledged.
    Ready(Client<Ready>),
    /// The reply isn't the acknowledgement.
    Stopped(Client<Spent>, ReplyFault),
}

impl Client<Behind> {
    // Promise P54, also here; clauses: ensures
    /// The bytes of the next frame to send, with its four length bytes.
    pub fn frame(&self) -> &[u8]
        ensures { take 1 (to_send self.now.state) ≡ result.now ∷ [] }
    {
        let state = &self.state;
        state.owed.frame()
    }

    // Promise P54, also here; clauses: after
    // Promise P55 (caller): A client with unacknowledged frames stands for a history; those frames are the rest of its last command's.
    //   clauses: owes; assumes: earlier calls
    /// Takes the reply to the next frame, with its four length bytes. It takes no memory.
    pub fn take_reply(self, reply: &[u8]) -> Taken
        ensures after { AfterReply self reply.now result }
        ensures owes { (f : KeyedFn) (keys : ℕ → List ℕ) (o : Offsets) (run : Run) (k : ℕ) → Owes f keys o run k self.state → OwesBehind f keys o run k result }
        ensures less { left_behind result < frames_left self.state }
        ensures store { stopped_by result ≡ Some ReplyFault.StoreFault → reply.now ≡ reply_bytes StoreFault }
    {
        let Client { key, state } = self;
        let Behind { ready, owed } = state;
        if !acknowledges(reply, owed.number()) {
            return Taken::Stopped(Client { key, state: Spent }, fault_of(reply));
        }
        match owed.behind_first() {
            Some(owed) => Taken::Behind(Client {
                key,
                state: Behind { ready, owed },
            }),
            None => Taken::Ready(Client { key, state: ready }),
        }
    }
}

impl Client<Behind> {
    /// Passes over so many of the frames, fewer than there are, which the server has. It takes no memory.
    pub(crate) fn skip(self, count: u32) -> Client<Behind>
        requires { count < frames_left self.state }
        ensures key { result.key ≡ self.key }
        ensures ready { result.state.ready ≡ self.state.ready }
        ensures first { first_number result.state ≡ first_number self.state + count }
        ensures left { to_send result.state ≡ drop count (to_send self.state) }
        ensures owes { (f : KeyedFn) (keys : ℕ → List ℕ) (o : Offsets) (run : Run) (k : ℕ) → Owes f keys o run k self.state → Owes f keys o run (k + count) result.state }
    {
        let Client { key, state } = self;
        let Behind { ready, owed } = state;
        Client {
            key,
            state: Behind {
                ready,
                owed: owed.behind(count),
            },
        }
    }
}

/// Whether the reply, all of these bytes, is the acknowledgement of this update frame.
fn acknowledges(reply: &[u8], number: u32) -> bool
    requires { IsNumber number }
    ensures yes { result ≡ true → reply.now ≡ reply_bytes (Took number) }
    ensures no { result ≡ false → reply.now ≢ reply_bytes (Took number) }
{
    match read_whole_reply(reply) {
        Some(read) => is_took_of(read, number),
        None => false,
    }
}

/// Whether the reply is the acknowledgement of this update frame.
fn is_took_of(reply: Reply<'_>, number: u32) -> bool
    ensures { result ≡ is_took (reply_view reply.entry) number }
{
    match reply {
        Reply::Took(q) => q == number,
        Reply::Next(_)
        | Reply::Number(_)
        | Reply::Clash { .. }
        | Reply::Page { .. }
        | Reply::BadList
        | Reply::NoMemory
        | Reply::StoreFault
        | Reply::BadFrame(_)
        | Reply::OutOfPlace => false,
    }
}
