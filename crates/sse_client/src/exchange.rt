ghost use Rattle.std.specs.Prelude.{◌≡◌, ◌≢◌, ◌<◌, ◌^◌, ℕ, [], ◌∷◌, true, Some, IfErr, IfOk, IfSome, OnOk};
ghost use Rattle.def_link_events.specs.Events.{Sent};
ghost use Rattle.def_link_events.specs.declared.mark.Mark.{Mark};
ghost use Rattle.script_run_texts.specs.Causes.{PeerCause};
ghost use Rattle.script_run_texts.specs.Stops.{peer_cause};
ghost use Rattle.def_script_meaning.specs.Exchange.{Adds};
ghost use Rattle.def_script_meaning.specs.HelloExchange.{Greets, TurnsAway};
ghost use Rattle.sse_client.specs.Calls.{shows, KeepsLink};
ghost use Rattle.sse_client.specs.Progress.{IsAnswered, IsUnanswered, next_number};
ghost use Rattle.sse_frames.specs.Frames.{Hello, IsFrame, frame_bytes};
ghost use Rattle.sse_frames.specs.Replies.{Next, StoreFault, reply_bytes};
ghost use Rattle.sse_frames.specs.FrameViews.{reply_view};
ghost use Rattle.sse_outside.specs.Causes.{Rose};

use crate::peer_fault::{stop_of_link, stop_of_reply};
use crate::reply_buffer::ReplyBuffer;
use client_replies::fault_of;
use script_run_texts::PeerStop;
use sse_frames::{Frame, Reply, read_reply, write_frame};
use sse_link::Link;
use std::alloc::Global;

/// Sends a frame of the grammar.
pub(crate) fn send<L: Link>(link: &mut L, frame: &[u8]) -> Result<(), PeerStop>
    requires frame { IsFrame frame.now }
    ensures due { OnOk result (L.reply_due link.new ≡ true) }
    ensures sent { OnOk result ((mark : Mark) × Adds (L.transcript link.old) (L.transcript link.new) (Sent frame.now mark ∷ [])) }
    ensures unanswered { IfErr result (λ stop. IsUnanswered (L.transcript link.old) (L.transcript link.new) frame.now (peer_cause stop)) }
    ensures keeps { KeepsLink PeerCause (shows (L.transcript link.old) (L.faults link.old) (L.began link.old)) (shows (L.transcript link.new) (L.faults link.new) (L.began link.new)) result }
{
    match link.send(frame) {
        Ok(()) => Ok(()),
        Err(fault) => Err(stop_of_link(fault)),
    }
}

/// Sends a frame of the grammar and receives its first reply.
pub(crate) fn exchange<L: Link>(
    link: &mut L,
    frame: &[u8],
    buffer: &mut ReplyBuffer,
) -> Result<(), PeerStop>
    requires frame { IsFrame frame.now }
    ensures answered { OnOk result (IsAnswered (L.transcript link.old) (L.transcript link.new) frame.now buffer.new) }
    ensures unanswered { IfErr result (λ stop. IsUnanswered (L.transcript link.old) (L.transcript link.new) frame.now (peer_cause stop)) }
    ensures began { L.began link.new ≡ L.began link.old }
    ensures store_fault { OnOk result (buffer.new ≡ reply_bytes StoreFault → Rose (L.faults link.old) (L.faults link.new)) }
    ensures steady { OnOk result (buffer.new ≢ reply_bytes StoreFault → L.faults link.new ≡ L.faults link.old) }
    ensures cause { IfErr result (PeerCause (L.faults link.old) (L.faults link.new)) }
{
    send(link, frame)?;
    buffer.receive(link)
}

/// Sends Hello, to which a server answers by the number of the update that it expects.
pub(crate) fn hello<L: Link>(
    alloc: Global,
    link: &mut L,
    buffer: &mut ReplyBuffer,
) -> Result<u32, PeerStop>
    ensures answered { IfOk result (λ next. IsAnswered (L.transcript link.old) (L.transcript link.new) (frame_bytes Hello) (reply_bytes (Next next))) }
    ensures turned_away { IfErr result (λ stop. (low high : ℕ) → TurnsAway low high (L.transcript link.old) (L.transcript link.new) (peer_cause stop)) }
    ensures keeps { KeepsLink PeerCause (shows (L.transcript link.old) (L.faults link.old) (L.began link.old)) (shows (L.transcript link.new) (L.faults link.new) (L.began link.new)) result }
{
    let mut hello = Vec::new(alloc);
    write_frame(&Frame::Hello, &mut hello)?;
    exchange(link, &hello, buffer)?;
    let reply = buffer.reply();
    match next_in(reply) {
        Some(next) => Ok(next),
        None => Err(stop_of_reply(fault_of(reply), reply)),
    }
}

// Promise P144 (inside): The greeting, a setup, an update and a search exchange exactly their frames, or are cut for a visible cause.
//   clauses: opened, turned_away; assumes: observable devices, earlier calls; not: Out of memory is no visible cause: it may cut a frame of an
//     update before its acknowledgement, and a search at any reply.
/// Opens the session of a history that begins, with a server that has taken nothing of one: the update that it expects has number 0.
pub(crate) fn greet<L: Link>(
    alloc: Global,
    link: &mut L,
    buffer: &mut ReplyBuffer,
) -> Result<(), PeerStop>
    ensures opened { OnOk result (Greets 0 0 (L.transcript link.old) (L.transcript link.new)) }
    ensures turned_away { IfErr result (λ stop. TurnsAway 0 0 (L.transcript link.old) (L.transcript link.new) (peer_cause stop)) }
    ensures keeps { KeepsLink PeerCause (shows (L.transcript link.old) (L.faults link.old) (L.began link.old)) (shows (L.transcript link.new) (L.faults link.new) (L.began link.new)) result }
{
    match hello(alloc, link, buffer)? {
        0 => Ok(()),
        got => Err(PeerStop::Elsewhere {
            low: 0,
            high: 0,
            got,
        }),
    }
}

/// The number in a Next reply that is all of these bytes.
fn next_in(bytes: &[u8]) -> Option<u32>
    ensures found { IfSome result (λ q. bytes.now ≡ reply_bytes (Next q)) }
    ensures only { (q : ℕ) → q < 2 ^ 32 → bytes.now ≡ reply_bytes (Next q) → result ≡ Some q }
{
    match read_reply(bytes) {
        Ok(found) => match found {
            Some((reply, size)) => {
                if size == bytes.len() {
                    number_of(reply)
                } else {
                    None
                }
            }
            None => None,
        },
        Err(_) => None,
    }
}

/// The number of a Next reply.
fn number_of(reply: Reply<'_>) -> Option<u32>
    ensures { result ≡ next_number (reply_view reply.entry) }
{
    match reply {
        Reply::Next(number) => Some(number),
        Reply::Took(_)
        | Reply::Number(_)
        | Reply::Clash { .. }
        | Reply::Page { .. }
        | Reply::BadList
        | Reply::NoMemory
        | Reply::StoreFault
        | Reply::BadFrame(_)
        | Reply::OutOfPlace => None,
    }
}
