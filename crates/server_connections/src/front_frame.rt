ghost use Rattle.std.specs.Prelude.{◌≡◌, ◌≤◌, ◌<◌, ◌+◌, ℕ, List, length, Err};
ghost use Rattle.keyed_fn.specs.KeyedFn.{keyed_fn};
ghost use Rattle.sse_frames.specs.Replies as replies;
ghost use Rattle.sse_link.specs.BadFrames.{bad_reason};
ghost use Rattle.server_core.specs.Views.{HasBegun, HasRange};
ghost use Rattle.sse_server.specs.Answers.{IfAnswered};
ghost use Rattle.tcp_service.specs.Faults.{EndsSink, HasSinkCause};
ghost use Rattle.tcp_service.specs.Disks.{StaysClosed};
ghost use Rattle.server_connections.specs.ConnectionSteps.{FrontsDisk, IfWhole, IsFronted, IsReplied, IsSaidLast};

use crate::reply_list::{reply_list_of, say_all, say_reply};
use crate::{Keeps, Outgoing};
use keyed_fn::Keyed;
use sse_frames::{FrameFault, Reply, read_frame};
use sse_outside::{Disk, Sink};
use sse_server::StoreAnswer;
use tcp_service::{ConnEnd, Incoming};

/// What stood in front of the bytes that were read.
#[derive(Clone, Copy)]
pub enum InFront {
    /// No whole frame yet.
    Part,
    /// No frame.
    Bad(FrameFault),
    /// A frame, which was answered so.
    Whole(StoreAnswer),
}

/// Has the frame in front answered, and passes it. Where that begins a search, the page has what it gives first.
pub fn take_front<K: Keyed, D: Disk, S: Keeps<D>>(
    keyed: &K,
    store: &mut S,
    disk: &mut D,
    incoming: &mut Incoming,
    page: &mut [u64],
) -> InFront
    requires stands { S.stands store.old disk.old }
    ensures stands { S.stands store.new disk.new }
    ensures fronted { IsFronted (keyed_fn K.prf K.pad) incoming.old incoming.new (S.lasts store.old disk.old) (S.lasts store.new disk.new) (S.state store.old) (S.state store.new) result page.new }
    ensures begun { IfWhole result (λ answer. IfAnswered answer (λ core. HasBegun (keyed_fn K.prf K.pad) (S.state store.new) core page.new)) }
    ensures range { IfWhole result (λ answer. IfAnswered answer (λ core. HasRange core)) }
    ensures closed { StaysClosed (S.closed store.old) (S.closed store.new) disk.old disk.new }
    ensures disk { FrontsDisk (S.sound store.old) (S.sound store.new) (D.faults disk.old) (D.faults disk.new) result }
    ensures less { IfWhole result (λ _. length incoming.new < length incoming.old) }
    ensures room { result ≡ InFront.Part → length incoming.new < 1048580 }
    ensures long { length page.new ≡ length page.old }
{
    let (answer, size) = match read_frame(incoming.pending()) {
        Ok(None) => return InFront::Part,
        Err(fault) => return InFront::Bad(fault),
        Ok(Some((frame, size))) => (store.keep(keyed, disk, &frame, page), size),
    };
    incoming.consume(size);
    InFront::Whole(answer)
}

/// The reason that the reply to what is no frame gives: 1 for a length that is out of range, 2 for an unknown kind, 3 for
/// another field.
fn reason_of(fault: FrameFault) -> u8
    ensures reason { result ≡ bad_reason (Err fault) }
    ensures least { 1 ≤ result }
    ensures most { result ≤ 3 }
{
    match fault {
        FrameFault::BadLength(_) => 1,
        FrameFault::BadKind(_) => 2,
        FrameFault::BadBody(_) => 3,
    }
}

/// Writes the reply to what is no frame, which is the last one, and answers how the connection ends.
pub fn refuse<W: Sink>(sink: &mut W, fault: FrameFault, outgoing: &mut Outgoing) -> ConnEnd
    ensures refused { IsSaidLast (W.written sink.old) (W.written sink.new) (replies.BadFrame (bad_reason (Err fault))) ConnEnd.BadFrame result }
    ensures cause { EndsSink (W.faults sink.old) (W.faults sink.new) (W.shortages sink.old) (W.shortages sink.new) result }
{
    let reply = Reply::BadFrame(reason_of(fault));
    match say_reply(sink, &reply, &mut outgoing.reply) {
        Ok(()) => ConnEnd::BadFrame,
        Err(end) => end,
    }
}

/// Writes the reply to a connection whose owner isn't known, which is the only one, and answers how the connection ends.
pub fn refuse_owner<W: Sink>(sink: &mut W, outgoing: &mut Outgoing) -> ConnEnd
    ensures refused { IsSaidLast (W.written sink.old) (W.written sink.new) replies.OutOfPlace ConnEnd.UnknownOwner result }
    ensures cause { EndsSink (W.faults sink.old) (W.faults sink.new) (W.shortages sink.old) (W.shortages sink.new) result }
{
    match say_reply(sink, &Reply::OutOfPlace, &mut outgoing.reply) {
        Ok(()) => ConnEnd::UnknownOwner,
        Err(end) => end,
    }
}

/// Writes the replies to an answer. After that of a store fault the connection ends.
pub fn reply<K: Keyed, D: Disk, S: Keeps<D>, W: Sink>(
    keyed: &K,
    store: &S,
    sink: &mut W,
    answer: StoreAnswer,
    outgoing: &mut Outgoing,
) -> Result<(), ConnEnd>
    requires begun { IfAnswered answer (λ core. HasBegun (keyed_fn K.prf K.pad) (S.state store.now) core outgoing.old.page.items) }
    requires range { IfAnswered answer (λ core. HasRange core) }
    ensures replied { IsReplied (keyed_fn K.prf K.pad) (W.written sink.old) (W.written sink.new) (S.state store.now) answer outgoing.old.page.items result }
    ensures cause { HasSinkCause (W.faults sink.old) (W.faults sink.new) (W.shortages sink.old) (W.shortages sink.new) result }
{
    let saying = reply_list_of(answer);
    say_all::<K, D, S, W>(keyed, store, sink, &saying, outgoing)?;
    match &answer {
        StoreAnswer::Answered(_) => Ok(()),
        StoreAnswer::StoreFault => Err(ConnEnd::StoreFault),
    }
}
