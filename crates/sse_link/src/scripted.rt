ghost use Rattle.std.specs.Prelude.{◌≡◌, ◌≢◌, ◌↔◌, ◌+◌, ◌≤◌, [], true, false, length, take, Some, IfSome, IsTrue};
ghost use Rattle.sse_frames.specs.Replies.{StoreFault, reply_bytes};
ghost use Rattle.sse_frames.specs.FrameViews.{reply_view};
ghost use Rattle.sse_link.specs.Due.{leaves_more, IsOpenPage};
ghost use Rattle.def_link_events.specs.Passed.{events_of};
ghost use Rattle.sse_link.specs.Scripted.{reply_size};

use crate::counts::one_more;
use crate::transcript::Transcript;
use crate::{Link, LinkFault, Mark, Passed};
use sse_frames::{MAX_REPLY_BODY, Reply, read_whole_reply};
use std::alloc::Global;
use std::marker::Model;

/// A link that takes every frame and plays back replies, whatever they are, in the order of their bytes.
///
/// It is cut where the bytes end, also inside a reply. A reply whose length is out of range is its four
/// length bytes alone.
#[derive(Drop)]
pub struct ScriptedLink {
    replies: Vec<u8>,
    at: usize,
    due: bool,
    faults: u64,
    passed: Transcript,
}

impl Model for ScriptedLink {
    ghost use Rattle.std.specs.Prelude.{◌≤◌, drop, vec_len};
    ghost use Rattle.sse_link.specs.Recorded.{recorded};
    ghost use Rattle.sse_link.specs.Scripted.{ScriptState, script_code};

    ghost Value = { ScriptState };

    ghost coded = { script_code };

    ghost view = { λ l. record { events = recorded l.passed; rest = drop l.at l.replies.items; due = l.due; faults = l.faults } };

    ghost invariant = { λ l. l.at ≤ vec_len l.replies };
}

impl ScriptedLink {
    /// A link that plays back these bytes.
    pub fn new(alloc: Global, replies: Vec<u8>) -> ScriptedLink
        ensures { result ≡ record { events = []; rest = replies.items; due = false; faults = 0 } }
    {
        ScriptedLink {
            replies,
            at: 0,
            due: false,
            faults: 0,
            passed: Transcript::new(alloc),
        }
    }

    /// All that passed, in order.
    pub fn transcript(&self) -> &[Passed]
        ensures { events_of result.now ≡ self.now.events }
    {
        self.passed.as_slice()
    }
}

impl Link for ScriptedLink {
    ghost use Rattle.std.specs.Prelude.{None, Err, ◌∷◌, ◌++◌, drop, IfOk, OnOk, OnErr};
    ghost use Rattle.sse_outside.specs.Causes.{Rose};
    ghost use Rattle.def_link_events.specs.declared.mark.Mark.TheVariants.{Unknown};
    ghost use Rattle.def_link_events.specs.Events.{Sent, Received};
    ghost use Rattle.sse_frames.specs.Frames.{IsFrame};

    ghost reply_due = { λ l. l.due };

    ghost faults = { λ l. l.faults };

    ghost transcript = { λ l. Some l.events };

    ghost remote = { λ _. None };

    ghost began = { λ _. None };

    /// Keeps the frame. No frame is refused, and none takes bytes of the script.
    fn send(&mut self, frame: &[u8]) -> Result<(), LinkFault>
        requires frame { IsFrame frame.now }
        ensures ok { OnOk result (self.new ≡ record self.old { events = self.old.events ++ Sent frame.now Unknown ∷ []; due = true }) }
        ensures err { OnErr result ((result ≡ Err LinkFault.NoMemory) × (self.new ≡ self.old)) }
    {
        let bytes = self.passed.make_room(frame)?;
        self.passed.sent(bytes, Mark::Unknown);
        self.due = true;
        Ok(())
    }

    // Promise P85 (caller): A link over made-up replies hands them out reply by reply and is cut exactly where they end.
    //   clauses: size, reply, rest, end; assumes: earlier calls, sizes in bounds
    /// Hands out the reply in front of the bytes that are left.
    fn recv(&mut self, out: &mut [u8]) -> Result<usize, LinkFault>
        requires room { 65544 ≤ length out.old }
        requires due { self.old.due ≡ true }
        ensures size { IfOk result (λ n. reply_size self.old.rest ≡ Some n) }
        ensures reply { IfOk result (λ n. take n out.new ≡ take n self.old.rest) }
        ensures rest { IfOk result (λ n. self.new.rest ≡ drop n self.old.rest) }
        ensures told { IfOk result (λ n. self.new.events ≡ self.old.events ++ Received (take n out.new) ∷ []) }
        ensures due { IfOk result (λ n. IsTrue self.new.due ↔ IsOpenPage (take n out.new)) }
        ensures least { IfOk result (λ n. 4 ≤ n) }
        ensures most { IfOk result (λ n. n ≤ 65544) }
        ensures one_reply { IfOk result (λ n. reply_size (take n out.new) ≡ Some n) }
        ensures store_fault { IfOk result (λ n. take n out.new ≡ reply_bytes StoreFault → Rose self.old.faults self.new.faults) }
        ensures steady { IfOk result (λ n. take n out.new ≢ reply_bytes StoreFault → self.new.faults ≡ self.old.faults) }

        // It is cut where the bytes end, and nowhere else.
        ensures end { (result ≡ Err LinkFault.Cut) ↔ (reply_size self.old.rest ≡ None) }
        ensures cut { result ≡ Err LinkFault.Cut → (self.new.due ≡ false) × Rose self.old.faults self.new.faults }
        ensures err { OnErr result ((self.new.events ≡ self.old.events) × (self.new.rest ≡ self.old.rest)) }
        ensures no_memory { result ≡ Err LinkFault.NoMemory → self.new ≡ self.old }
        ensures later { self.old.faults ≤ self.new.faults }
    {
        let (_, rest) = self.replies.split_at(self.at);
        let Some(n) = size_of_reply(rest) else {
            self.due = false;
            self.faults = one_more(self.faults);
            return Err(LinkFault::Cut);
        };
        let (reply, _) = rest.split_at(n);
        let bytes = self.passed.make_room(reply)?;
        self.passed.received(bytes);
        out[..n].copy_from_slice(reply);
        self.due = is_open(reply);
        if is_store_fault(reply) {
            self.faults = one_more(self.faults);
        }
        self.at += n;
        Ok(n)
    }
}

/// How many bytes the reply in front has, its four length bytes among them; none where the bytes end inside it.
fn size_of_reply(bytes: &[u8]) -> Option<usize>
    ensures size { result ≡ reply_size bytes.now }
    ensures whole { IfSome result (λ n. n ≤ length bytes.now) }
    ensures one_reply { IfSome result (λ n. reply_size (take n bytes.now) ≡ Some n) }
    ensures least { IfSome result (λ n. 4 ≤ n) }
    ensures most { IfSome result (λ n. n ≤ 65544) }
{
    let Some((size, _)) = bytes.split_first_chunk::<4>() else {
        return None;
    };
    let size = u32::from_be_bytes(*size);
    if size == 0 || size > MAX_REPLY_BODY {
        return Some(4);
    }
    let n = 4 + size as usize;
    if bytes.len() < n {
        return None;
    }
    Some(n)
}

/// Whether the bytes are a page of the grammar that isn't the last.
fn is_open(bytes: &[u8]) -> bool
    ensures { IsTrue result ↔ IsOpenPage bytes.now }
{
    match read_whole_reply(bytes) {
        Some(reply) => leaves_more(&reply),
        None => false,
    }
}

/// Whether the reply is a page that isn't the last.
fn leaves_more(reply: &Reply<'_>) -> bool
    ensures { result ≡ leaves_more (reply_view reply.now) }
{
    match reply {
        Reply::Page { last, .. } => !*last,
        _ => false,
    }
}

/// Whether the reply reports a fault of the server's disk.
pub(crate) fn is_store_fault(reply: &[u8]) -> bool
    ensures { IsTrue result ↔ (reply.now ≡ reply_bytes StoreFault) }
{
    reply == b"\x00\x00\x00\x01\x88".as_slice()
}
