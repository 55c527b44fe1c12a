ghost use Rattle.std.specs.Prelude.{◌≡◌, ◌+◌, ◌*◌, ◌≤◌, ◌∷◌, ◌++◌, length, take, drop};
ghost use Rattle.std.specs.List.{flat_map};
ghost use Rattle.sse_frames.specs.Frames.{be32, be64};
ghost use Rattle.sse_frames.specs.Replies.{Page, IsPage, InReplies, reply_bytes, page_head};
ghost use Rattle.sse_frames.specs.FrameViews.{reply_view, numbers_in};
ghost use Rattle.sse_frames.specs.Sizes.{AreIds, HasReplySizes};

use crate::head::Head;
use crate::kinds::{
    BAD_FRAME, BAD_LIST, CLASH, NEXT, NO_MEMORY, NUMBER, OUT_OF_PLACE, PAGE, STORE_FAULT, TOOK,
};
use crate::put::{put, put_u64s};
use crate::reply::Reply;

/// Writes a head at the front, and says how many bytes it has.
fn put_head(out: &mut [u8], head: Head) -> usize
    requires { length head ≤ length out.old }
    ensures len { result ≡ length head }
    ensures bytes { out.new ≡ head ++ drop (length head) out.old }
{
    put(out, 0, head.as_slice())
}

/// What stands before the identifiers of a page: the length of its body, its kind, whether it is the last, and its count.
fn head_of_page(last: bool, count: u16) -> Head
    requires { count ≤ 8192 }
    ensures { result ≡ page_head last count }
{
    Head::new(4 + count as u32 * 8, PAGE)
        .then_u8(last as u8)
        .then_u16(count)
}

// Promise P98, also here; clauses: len, bytes
/// Writes the reply of the page of these identifiers at the front of `out`, and says how many bytes it has.
pub fn write_page(last: bool, ids: &[u64], out: &mut [u8]) -> usize
    requires grammar { IsPage last ids.now }
    requires room { 65544 ≤ length out.old }
    ensures len { result ≡ length (reply_bytes (Page last ids.now)) }
    ensures bytes { out.new ≡ reply_bytes (Page last ids.now) ++ drop result out.old }
    ensures least { 5 ≤ result }
    ensures most { result ≤ 65544 }
{
    let head = put_head(out, head_of_page(last, ids.len() as u16));
    put_u64s(out, head, ids);
    head + ids.len() * 8
}

/// Writes the page whose identifiers are these bytes at the front of `out`, and says how many bytes it has.
fn put_page(out: &mut [u8], last: bool, ids: &[u8]) -> usize
    requires grammar { IsPage last (numbers_in ids.now) }
    requires sizes { AreIds last ids.now }
    requires room { 65544 ≤ length out.old }
    ensures len { result ≡ 8 + length ids.now }
    ensures bytes { out.new ≡ reply_bytes (Page last (numbers_in ids.now)) ++ drop result out.old }
{
    let head = put_head(out, head_of_page(last, (ids.len() / 8) as u16));
    put(out, head, ids)
}

// Promise P98, also here; clauses: len, bytes
/// Writes the reply at the front of `out`, and says how many bytes it has.
pub fn write_reply(reply: &Reply<'_>, out: &mut [u8]) -> usize
    requires grammar { InReplies (reply_view reply.now) }
    requires sizes { HasReplySizes reply.now }
    requires room { 65544 ≤ length out.old }
    ensures len { result ≡ length (reply_bytes (reply_view reply.now)) }
    ensures bytes { out.new ≡ reply_bytes (reply_view reply.now) ++ drop result out.old }
    ensures least { 5 ≤ result }
    ensures most { result ≤ 65544 }
{
    match *reply {
        Reply::Next(q) => put_head(out, Head::new(5, NEXT).then_u32(q)),
        Reply::Took(q) => put_head(out, Head::new(5, TOOK).then_u32(q)),
        Reply::Number(q) => put_head(out, Head::new(5, NUMBER).then_u32(q)),
        Reply::Clash { what, place } => {
            put_head(out, Head::new(6, CLASH).then_u8(what).then_u32(place))
        }
        Reply::Page { last, ids } => put_page(out, last, ids),
        Reply::BadList => put_head(out, Head::new(1, BAD_LIST)),
        Reply::NoMemory => put_head(out, Head::new(1, NO_MEMORY)),
        Reply::StoreFault => put_head(out, Head::new(1, STORE_FAULT)),
        Reply::BadFrame(reason) => put_head(out, Head::new(2, BAD_FRAME).then_u8(reason)),
        Reply::OutOfPlace => put_head(out, Head::new(1, OUT_OF_PLACE)),
    }
}
