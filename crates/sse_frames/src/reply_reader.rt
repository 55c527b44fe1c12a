ghost use Rattle.std.specs.Prelude.{◌≡◌, ℕ, ◌<◌, List, ◌++◌, length, slice_index, IfOk, IfSome, IsSomeAnd};
ghost use Rattle.std.specs.Result.{result_err};
ghost use Rattle.std.specs.Int.{w16};
ghost use Rattle.sse_frames.specs.Replies.{ReplyText, InReplies, reply_bytes};
ghost use Rattle.sse_frames.specs.FrameViews.{reply_view};
ghost use Rattle.sse_frames.specs.Fields.{number_at, first_fault};
ghost use Rattle.sse_frames.specs.Tables as tables;
ghost use Rattle.sse_frames.specs.Tables.{next_fields, took_fields, clash_fields, page_fields, bad_frame_fields, bare_fields, reply_fields};
ghost use Rattle.sse_frames.specs.ReadOutcomes.{IsReplyOf, IsReplyFront, IfRead, IsRead, fault_in, reply_outcome, answered, IsReply};
ghost use Rattle.sse_frames.specs.Sizes.{HasReplySizes};

use crate::fault::FrameFault;
use crate::fields::{read_end, read_ids, read_u8, read_u16, read_u32};
use crate::front::front_body;
use crate::kinds::{
    BAD_FRAME, BAD_LIST, CLASH, NEXT, NO_MEMORY, NUMBER, OUT_OF_PLACE, PAGE, STORE_FAULT, TOOK,
};
use crate::limits::{MAX_NUMBER, MAX_REPLY_BODY, PAGE_LEN};
use crate::reply::Reply;

/// The Next reply of a body of that kind.
fn next(body: &[u8]) -> Result<Reply<'_>, FrameFault>
    requires kind { slice_index body.now 0 ≡ 0x81 }
    requires some { 0 < length body.now }
    ensures fault { result_err result ≡ first_fault next_fields body.now }
    ensures found { IfOk result (λ reply. IsReplyOf reply body.now) }
{
    let q = read_u32(body, 1, 0, u32::MAX)?;
    read_end(body, 5)?;
    Ok(Reply::Next(q))
}

/// The Took reply of a body of that kind.
fn took(body: &[u8]) -> Result<Reply<'_>, FrameFault>
    requires kind { slice_index body.now 0 ≡ 0x82 }
    requires some { 0 < length body.now }
    ensures fault { result_err result ≡ first_fault took_fields body.now }
    ensures found { IfOk result (λ reply. IsReplyOf reply body.now) }
{
    let q = read_u32(body, 1, 0, MAX_NUMBER)?;
    read_end(body, 5)?;
    Ok(Reply::Took(q))
}

/// The Number reply of a body of that kind.
fn number(body: &[u8]) -> Result<Reply<'_>, FrameFault>
    requires kind { slice_index body.now 0 ≡ 0x83 }
    requires some { 0 < length body.now }
    ensures fault { result_err result ≡ first_fault next_fields body.now }
    ensures found { IfOk result (λ reply. IsReplyOf reply body.now) }
{
    let q = read_u32(body, 1, 0, u32::MAX)?;
    read_end(body, 5)?;
    Ok(Reply::Number(q))
}

/// The Clash reply of a body of that kind.
fn clash(body: &[u8]) -> Result<Reply<'_>, FrameFault>
    requires kind { slice_index body.now 0 ≡ 0x84 }
    requires some { 0 < length body.now }
    ensures fault { result_err result ≡ first_fault clash_fields body.now }
    ensures found { IfOk result (λ reply. IsReplyOf reply body.now) }
{
    let what = read_u8(body, 1, 1, 3)?;
    let place = read_u32(body, 2, 0, u32::MAX)?;
    read_end(body, 6)?;
    Ok(Reply::Clash { what, place })
}

/// How many identifiers a page has at least, by its byte `last`.
fn least_ids(last: u8) -> u16
    ensures { result ≡ tables.least_ids last }
{
    if last == 0 { PAGE_LEN } else { 0 }
}

/// The Page reply of a body of that kind.
fn page(body: &[u8]) -> Result<Reply<'_>, FrameFault>
    requires kind { slice_index body.now 0 ≡ 0x85 }
    requires some { 0 < length body.now }
    ensures fault { result_err result ≡ first_fault (page_fields (slice_index body.now 1) (number_at w16 2 body.now)) body.now }
    ensures found { IfOk result (λ reply. IsReplyOf reply body.now) }
{
    let last = read_u8(body, 1, 0, 1)?;
    let count = read_u16(body, 2, least_ids(last), PAGE_LEN)?;
    let ids = read_ids(body, 4, count)?;
    Ok(Reply::Page {
        last: last == 1,
        ids,
    })
}

/// The BadFrame reply of a body of that kind.
fn bad_frame(body: &[u8]) -> Result<Reply<'_>, FrameFault>
    requires kind { slice_index body.now 0 ≡ 0x89 }
    requires some { 0 < length body.now }
    ensures fault { result_err result ≡ first_fault bad_frame_fields body.now }
    ensures found { IfOk result (λ reply. IsReplyOf reply body.now) }
{
    let reason = read_u8(body, 1, 1, 3)?;
    read_end(body, 2)?;
    Ok(Reply::BadFrame(reason))
}

/// The reply whose body is its kind byte alone.
fn bare<'a>(body: &[u8], reply: Reply<'a>) -> Result<Reply<'a>, FrameFault>
    requires { length body.now ≡ 1 → IsReplyOf reply body.now }
    ensures fault { result_err result ≡ first_fault bare_fields body.now }
    ensures found { IfOk result (λ reply. IsReplyOf reply body.now) }
{
    read_end(body, 1)?;
    Ok(reply)
}

/// The reply of a body, by its kind.
fn reply_of(body: &[u8]) -> Result<Reply<'_>, FrameFault>
    requires { 0 < length body.now }
    ensures fault { result_err result ≡ fault_in (reply_fields body.now) body.now }
    ensures found { IfOk result (λ reply. IsReplyOf reply body.now) }
{
    match body[0] {
        NEXT => next(body),
        TOOK => took(body),
        NUMBER => number(body),
        CLASH => clash(body),
        PAGE => page(body),
        BAD_LIST => bare(body, Reply::BadList),
        NO_MEMORY => bare(body, Reply::NoMemory),
        STORE_FAULT => bare(body, Reply::StoreFault),
        BAD_FRAME => bad_frame(body),
        OUT_OF_PLACE => bare(body, Reply::OutOfPlace),
        kind => Err(FrameFault::BadKind(kind)),
    }
}

/// The reply in front of the bytes and its length, none where it isn't whole yet, or the first fault.
fn front_reply(bytes: &[u8]) -> Result<Option<(Reply<'_>, usize)>, FrameFault>
    ensures outcome { answered result ≡ reply_outcome bytes.now }
    ensures found { IfRead result (λ reply n. IsReplyFront reply n bytes.now) }
{
    match front_body(bytes, MAX_REPLY_BODY) {
        Err(fault) => Err(fault),
        Ok(None) => Ok(None),
        Ok(Some(body)) => match reply_of(body) {
            Err(fault) => Err(fault),
            Ok(reply) => Ok(Some((reply, 4 + body.len()))),
        },
    }
}

// Promise P99, also here; clauses: found, only, outcome
/// The reply in front of the bytes, and how many bytes it has, its length among them. `None` where it
/// isn't whole yet: there are fewer than 4 bytes, or a length in range and fewer bytes than it says.
///
/// The first fault from the left: `BadLength` where the length is 0 or above 65,540, `BadKind` where the
/// body's first byte is no kind, `BadBody` with the place of the first field that doesn't stand.
pub fn read_reply(bytes: &[u8]) -> Result<Option<(Reply<'_>, usize)>, FrameFault>
    // What is read is in the grammar and stands in front, and a reply of the grammar that stands there is read.
    ensures found { IfRead result (λ reply n. IsReplyFront reply n bytes.now) }
    ensures only { (text : ReplyText) (rest : List ℕ) → InReplies text → bytes.now ≡ reply_bytes text ++ rest →
        IsRead result (λ reply n. (reply_view reply ≡ text) × (n ≡ length (reply_bytes text))) }

    // Whether it is whole, or which fault is the first.
    ensures outcome { answered result ≡ reply_outcome bytes.now }
{
    front_reply(bytes)
}

// Promise P99, also here; clauses: found, only
/// The reply that all of these bytes are, if any.
pub fn read_whole_reply(bytes: &[u8]) -> Option<Reply<'_>>
    ensures found { IfSome result (λ reply. IsReply (reply_view reply) bytes.now) }
    ensures sizes { IfSome result (λ reply. HasReplySizes reply) }
    ensures only { (text : ReplyText) → IsReply text bytes.now → IsSomeAnd result (λ reply. reply_view reply ≡ text) }
{
    match read_reply(bytes) {
        Ok(found) => match found {
            Some((reply, size)) => {
                if size == bytes.len() {
                    Some(reply)
                } else {
                    None
                }
            }
            None => None,
        },
        Err(_) => None,
    }
}
