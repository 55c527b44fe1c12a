ghost use Rattle.std.specs.Prelude.{◌≡◌, ◌≤◌, ◌<◌, ◌++◌, false, List, ℕ, length, take, All};
ghost use Rattle.keyed_fn.specs.KeyedFn.{KeyedFn, keyed_fn};
ghost use Rattle.sse_frames.specs.FrameViews.{reply_view};
ghost use Rattle.sse_frames.specs.Replies.{Page, InReplies, reply_bytes};
ghost use Rattle.sse_frames.specs.SentParts.{pages};
ghost use Rattle.sse_frames.specs.Sizes.{HasReplySizes};
ghost use Rattle.server_core.specs.State.{ServerState};
ghost use Rattle.server_core.specs.Views.{HasBegun, HasRange};
ghost use Rattle.server_core.specs.Walk.{HasPage, contents_of, rest_of};
ghost use Rattle.sse_server.specs.Answers.{IfAnswered, store_replies};
ghost use Rattle.tcp_service.specs.Writing.{IsSaid};
ghost use Rattle.tcp_service.specs.Faults.{HasSinkCause};
ghost use Rattle.server_connections.specs.RepliesLeft.{replies_in, CanSay};
ghost use Rattle.server_connections.specs.Turns.{bytes_of};

use crate::{Keeps, Outgoing};
use keyed_fn::Keyed;
use server_core::{Answer, First};
use sse_frames::{Reply, write_page, write_reply};
use sse_outside::{Disk, Sink};
use sse_server::StoreAnswer;
use tcp_service::{ConnEnd, say};

/// The replies to a frame, before they are written. Beside them stands a page, which begins with the identifiers of the
/// first one of a search.
#[derive(Clone, Copy)]
pub enum ReplyList {
    /// One reply, which isn't a page.
    Single(Reply<'static>),
    /// The pages of a search.
    Pages(First),
}

/// The replies of an answer.
pub fn reply_list_of(answer: StoreAnswer) -> ReplyList
    requires { IfAnswered answer (λ core. HasRange core) }
    ensures replies { (f : KeyedFn) (s : ServerState) (page : List ℕ) → replies_in f s result page ≡ store_replies f s answer page }
    ensures ready { (f : KeyedFn) (s : ServerState) (page : List ℕ) → IfAnswered answer (λ core. HasBegun f s core page) → CanSay f s result page }
{
    match answer {
        StoreAnswer::Answered(Answer::Next(q)) => ReplyList::Single(Reply::Next(q)),
        StoreAnswer::Answered(Answer::Took(q)) => ReplyList::Single(Reply::Took(q)),
        StoreAnswer::Answered(Answer::Number(next)) => ReplyList::Single(Reply::Number(next)),
        StoreAnswer::Answered(Answer::Clash { what, place }) => {
            ReplyList::Single(Reply::Clash { what, place })
        }
        StoreAnswer::Answered(Answer::Found { count, walk }) => ReplyList::Pages(First {
            count,
            walk,
        }),
        StoreAnswer::Answered(Answer::BadList) => ReplyList::Single(Reply::BadList),
        StoreAnswer::Answered(Answer::NoMemory) => ReplyList::Single(Reply::NoMemory),
        StoreAnswer::Answered(Answer::OutOfPlace) => ReplyList::Single(Reply::OutOfPlace),
        StoreAnswer::StoreFault => ReplyList::Single(Reply::StoreFault),
    }
}

/// Writes one reply.
pub fn say_reply<W: Sink>(sink: &mut W, reply: &Reply<'_>, room: &mut [u8]) -> Result<(), ConnEnd>
    requires grammar { InReplies (reply_view reply.now) }
    requires sizes { HasReplySizes reply.now }
    requires room { 65544 ≤ length room.old }
    ensures said { IsSaid (W.written sink.old) (W.written sink.new) (reply_bytes (reply_view reply.now)) result }
    ensures cause { HasSinkCause (W.faults sink.old) (W.faults sink.new) (W.shortages sink.old) (W.shortages sink.new) result }
    ensures long { length room.new ≡ length room.old }
{
    let size = write_reply(reply, room);
    say(sink, &room[..size])
}

/// Writes the page of these identifiers, which is the last one or not.
fn say_page<W: Sink>(
    sink: &mut W,
    is_last: bool,
    ids: &[u64],
    room: &mut [u8],
) -> Result<(), ConnEnd>
    requires most { length ids.now ≤ 8192 }
    requires full { is_last ≡ false → length ids.now ≡ 8192 }
    requires ids { All (λ id. 0 < id) ids.now }
    requires room { 65544 ≤ length room.old }
    ensures said { IsSaid (W.written sink.old) (W.written sink.new) (reply_bytes (Page is_last ids.now)) result }
    ensures cause { HasSinkCause (W.faults sink.old) (W.faults sink.new) (W.shortages sink.old) (W.shortages sink.new) result }
    ensures long { length room.new ≡ length room.old }
{
    let size = write_page(is_last, ids, room);
    say(sink, &room[..size])
}

/// Writes the pages of a search, of which the first stands in `page`.
fn say_pages<K: Keyed, D: Disk, S: Keeps<D>, W: Sink>(
    keyed: &K,
    store: &S,
    sink: &mut W,
    first: First,
    page: &mut [u64],
    room: &mut [u8],
) -> Result<(), ConnEnd>
    requires begun { HasPage (keyed_fn K.prf K.pad) (contents_of (S.state store.now)) first.count first.walk page.old }
    requires page { length page.old ≡ 8192 }
    requires room { 65544 ≤ length room.old }
    ensures said { IsSaid (W.written sink.old) (W.written sink.new) (bytes_of (pages (take first.count page.old ++ rest_of (keyed_fn K.prf K.pad) (contents_of (S.state store.now)) first.walk))) result }
    ensures cause { HasSinkCause (W.faults sink.old) (W.faults sink.new) (W.shortages sink.old) (W.shortages sink.new) result }
    ensures long { length page.new ≡ length page.old }
    ensures long_room { length room.new ≡ length room.old }
{
    let mut count = first.count;
    let mut walk = first.walk;
    'pages: loop {
        say_page(sink, walk.is_over(), &page[..count], room)?;
        if walk.is_over() {
            return Ok(());
        }
        count = store.fill(keyed, &mut walk, page);
    }
}

/// Writes the replies.
pub fn say_all<K: Keyed, D: Disk, S: Keeps<D>, W: Sink>(
    keyed: &K,
    store: &S,
    sink: &mut W,
    saying: &ReplyList,
    outgoing: &mut Outgoing,
) -> Result<(), ConnEnd>
    requires { CanSay (keyed_fn K.prf K.pad) (S.state store.now) saying.now outgoing.old.page.items }
    ensures said { IsSaid (W.written sink.old) (W.written sink.new) (bytes_of (replies_in (keyed_fn K.prf K.pad) (S.state store.now) saying.now outgoing.old.page.items)) result }
    ensures cause { HasSinkCause (W.faults sink.old) (W.faults sink.new) (W.shortages sink.old) (W.shortages sink.new) result }
{
    match *saying {
        ReplyList::Single(reply) => say_reply(sink, &reply, &mut outgoing.reply),
        ReplyList::Pages(first) => say_pages::<K, D, S, W>(
            keyed,
            store,
            sink,
            first,
            &mut outgoing.page,
            &mut outgoing.reply,
        ),
    }
}
