ghost use Rattle.std.specs.Prelude.{◌≡◌, ℕ, ◌+◌, ◌*◌, ◌<◌, ◌≤◌, true, List, [], ◌∷◌, ◌++◌, length, slice_index, take, drop, None, IfOk, IsOkAnd};
ghost use Rattle.std.specs.Result.{result_err};
ghost use Rattle.std.specs.Int.{w16};
ghost use Rattle.sse_frames.specs.Frames.{FrameText, InGrammar, body_of, frame_bytes};
ghost use Rattle.sse_frames.specs.FrameViews.{frame_view};
ghost use Rattle.sse_frames.specs.Fields.{number_at, entry_fields, number_fields, end_field, first_fault};
ghost use Rattle.sse_frames.specs.Tables.{hello_fields, setup_begin_fields, setup_dict_fields, setup_array_fields, setup_end_fields, add_fields, delete_fields, search_fields, frame_fields};
ghost use Rattle.sse_frames.specs.ReadOutcomes.{IsFrameOf, IsFront, IfRead, IsRead, fault_in, body_fault, frame_outcome, answered};

use crate::fault::FrameFault;
use crate::fields::{
    pass_entries, read_block_width, read_blocks, read_bytes, read_cell_width, read_end,
    read_entries, read_numbers, read_u16, read_u32,
};
use crate::frame::Frame;
use crate::front::front_body;
use crate::kinds::{ADD, DELETE, HELLO, SEARCH, SETUP_ARRAY, SETUP_BEGIN, SETUP_DICT, SETUP_END};
use crate::limits::{
    ADDED_LEN, BLOCKS_PER_FRAME, ENTRIES_PER_FRAME, MAX_B, MAX_BIG, MAX_CHANGES, MAX_FRAME_BODY,
    MAX_INDEX, MAX_NUMBER, TOKEN_LEN,
};

/// The Hello frame of a body of that kind.
fn hello(body: &[u8]) -> Result<Frame<'_>, FrameFault>
    requires kind { slice_index body.now 0 ≡ 1 }
    requires some { 0 < length body.now }
    ensures fault { result_err result ≡ first_fault hello_fields body.now }
    ensures found { IfOk result (λ frame. IsFrameOf frame body.now) }
{
    read_end(body, 1)?;
    Ok(Frame::Hello)
}

/// The SetupBegin frame of a body of that kind.
fn setup_begin(body: &[u8]) -> Result<Frame<'_>, FrameFault>
    requires kind { slice_index body.now 0 ≡ 2 }
    requires some { 0 < length body.now }
    ensures fault { result_err result ≡ first_fault setup_begin_fields body.now }
    ensures found { IfOk result (λ frame. IsFrameOf frame body.now) }
{
    let q = read_u32(body, 1, 0, MAX_NUMBER)?;
    let b = read_u16(body, 5, 1, MAX_B)?;
    let big = read_u16(body, 7, 1, MAX_BIG)?;
    let m = read_u32(body, 9, 0, MAX_INDEX)?;
    let a = read_u32(body, 13, 0, MAX_INDEX)?;
    read_end(body, 17)?;
    Ok(Frame::SetupBegin { q, b, big, m, a })
}

/// The SetupDict frame of a body of that kind.
fn setup_dict(body: &[u8]) -> Result<Frame<'_>, FrameFault>
    requires kind { slice_index body.now 0 ≡ 3 }
    requires some { 0 < length body.now }
    ensures fault { result_err result ≡ first_fault (setup_dict_fields (number_at w16 5 body.now) (number_at w16 7 body.now)) body.now }
    ensures found { IfOk result (λ frame. IsFrameOf frame body.now) }
{
    let q = read_u32(body, 1, 0, MAX_NUMBER)?;
    let width = read_cell_width(body, 5)?;
    let count = read_u16(body, 7, 1, ENTRIES_PER_FRAME)?;
    let entries = read_entries(body, 9, count, width)?;
    Ok(Frame::SetupDict { q, width, entries })
}

/// The SetupArray frame of a body of that kind.
fn setup_array(body: &[u8]) -> Result<Frame<'_>, FrameFault>
    requires kind { slice_index body.now 0 ≡ 4 }
    requires some { 0 < length body.now }
    ensures fault { result_err result ≡ first_fault (setup_array_fields (number_at w16 5 body.now) (number_at w16 7 body.now)) body.now }
    ensures found { IfOk result (λ frame. IsFrameOf frame body.now) }
{
    let q = read_u32(body, 1, 0, MAX_NUMBER)?;
    let width = read_block_width(body, 5)?;
    let count = read_u16(body, 7, 1, BLOCKS_PER_FRAME)?;
    let list = read_blocks(body, 9, count, width)?;
    Ok(Frame::SetupArray {
        q,
        width,
        blocks: list,
    })
}

/// The SetupEnd frame of a body of that kind.
fn setup_end(body: &[u8]) -> Result<Frame<'_>, FrameFault>
    requires kind { slice_index body.now 0 ≡ 5 }
    requires some { 0 < length body.now }
    ensures fault { result_err result ≡ first_fault setup_end_fields body.now }
    ensures found { IfOk result (λ frame. IsFrameOf frame body.now) }
{
    let q = read_u32(body, 1, 0, MAX_NUMBER)?;
    read_end(body, 5)?;
    Ok(Frame::SetupEnd { q })
}

/// The entries and the revocation numbers of an Add, so many of each: they are its body after the first nine bytes.
#[tactic(auto, using(crate::proofs::Faults::appended))]
fn added(body: &[u8], e: u16, r: u16) -> Result<(&[u8], &[u8]), FrameFault>
    requires { 9 ≤ length body.now }
    ensures fault { result_err result ≡ first_fault (entry_fields true 8 e 9 ++ (number_fields true r (9 + e * 24) ++ end_field (9 + e * 24 + r * 16) ∷ [])) body.now }
    ensures whole { IfOk result (λ _. length body.now ≡ 9 + e * 24 + r * 16) }
    ensures entries { IfOk result (λ lists. lists.0.now ≡ take (e * 24) (drop 9 body.now)) }
    ensures numbers { IfOk result (λ lists. lists.1.now ≡ drop (e * 24) (drop 9 body.now)) }
    ensures entries_stand { IfOk result (λ _. first_fault (entry_fields true 8 e 9) body.now ≡ None) }
    ensures numbers_stand { IfOk result (λ _. first_fault (number_fields true r (9 + e * 24)) body.now ≡ None) }
{
    let place = pass_entries(body, 9, e, ADDED_LEN as u16)?;
    read_numbers(body, place, r)?;
    let (_, lists) = body.split_at(9);
    Ok(lists.split_at(place - 9))
}

/// The Add frame of a body of that kind.
fn add(body: &[u8]) -> Result<Frame<'_>, FrameFault>
    requires kind { slice_index body.now 0 ≡ 6 }
    requires some { 0 < length body.now }
    ensures fault { result_err result ≡ first_fault (add_fields (number_at w16 5 body.now) (number_at w16 7 body.now)) body.now }
    ensures found { IfOk result (λ frame. IsFrameOf frame body.now) }
{
    let q = read_u32(body, 1, 0, MAX_NUMBER)?;
    let e = read_u16(body, 5, 0, MAX_CHANGES)?;
    let r = read_u16(body, 7, 0, MAX_CHANGES - e)?;
    let (entries, numbers) = added(body, e, r)?;
    Ok(Frame::Add {
        q,
        entries,
        numbers,
    })
}

/// The Delete frame of a body of that kind.
fn delete(body: &[u8]) -> Result<Frame<'_>, FrameFault>
    requires kind { slice_index body.now 0 ≡ 7 }
    requires some { 0 < length body.now }
    ensures fault { result_err result ≡ first_fault (delete_fields (number_at w16 5 body.now)) body.now }
    ensures found { IfOk result (λ frame. IsFrameOf frame body.now) }
{
    let q = read_u32(body, 1, 0, MAX_NUMBER)?;
    let r = read_u16(body, 5, 0, MAX_CHANGES)?;
    let numbers = read_numbers(body, 7, r)?;
    Ok(Frame::Delete { q, numbers })
}

/// The Search frame of a body of that kind.
fn search(body: &[u8]) -> Result<Frame<'_>, FrameFault>
    requires kind { slice_index body.now 0 ≡ 8 }
    requires some { 0 < length body.now }
    ensures fault { result_err result ≡ first_fault search_fields body.now }
    ensures found { IfOk result (λ frame. IsFrameOf frame body.now) }
{
    let token = read_bytes(body, 1, TOKEN_LEN)?;
    read_end(body, 1 + TOKEN_LEN)?;
    Ok(Frame::Search { token })
}

/// The frame of a body, by its kind.
fn frame_of(body: &[u8]) -> Result<Frame<'_>, FrameFault>
    requires { 0 < length body.now }
    ensures fault { result_err result ≡ fault_in (frame_fields body.now) body.now }
    ensures found { IfOk result (λ frame. IsFrameOf frame body.now) }
{
    match body[0] {
        HELLO => hello(body),
        SETUP_BEGIN => setup_begin(body),
        SETUP_DICT => setup_dict(body),
        SETUP_ARRAY => setup_array(body),
        SETUP_END => setup_end(body),
        ADD => add(body),
        DELETE => delete(body),
        SEARCH => search(body),
        kind => Err(FrameFault::BadKind(kind)),
    }
}

/// The frame whose body is all of the bytes, or the first fault.
fn whole_body(bytes: &[u8]) -> Result<Frame<'_>, FrameFault>
    ensures fault { result_err result ≡ body_fault 0x100000 frame_fields bytes.now }
    ensures found { IfOk result (λ frame. IsFrameOf frame bytes.now) }
{
    let len = bytes.len();
    if len == 0 || len > MAX_FRAME_BODY as usize {
        return Err(FrameFault::BadLength(len as u64));
    }
    frame_of(bytes)
}

// Promise P99, also here; clauses: found, only, fault
/// The frame whose body is all of the bytes.
///
/// The first fault from the left: `BadLength` where the bytes are none or more than 1,048,576, `BadKind`
/// where the first is no kind, `BadBody` with the place of the first field that doesn't stand.
pub fn read_body(bytes: &[u8]) -> Result<Frame<'_>, FrameFault>
    // What is read is in the grammar and has this body, and a frame of the grammar with this body is read.
    ensures found { IfOk result (λ frame. IsFrameOf frame bytes.now) }
    ensures only { (text : FrameText) → InGrammar text → bytes.now ≡ body_of text → IsOkAnd result (λ frame. frame_view frame ≡ text) }

    // There is no fault, or it is this one.
    ensures fault { result_err result ≡ body_fault 0x100000 frame_fields bytes.now }
{
    whole_body(bytes)
}

/// The frame in front of the bytes and its length, none where it isn't whole yet, or the first fault.
fn front_frame(bytes: &[u8]) -> Result<Option<(Frame<'_>, usize)>, FrameFault>
    ensures outcome { answered result ≡ frame_outcome bytes.now }
    ensures found { IfRead result (λ frame n. IsFront frame n bytes.now) }
{
    match front_body(bytes, MAX_FRAME_BODY) {
        Err(fault) => Err(fault),
        Ok(None) => Ok(None),
        Ok(Some(body)) => match frame_of(body) {
            Err(fault) => Err(fault),
            Ok(frame) => Ok(Some((frame, 4 + body.len()))),
        },
    }
}

// Promise P99 (caller): A frame or reply is read if and only if it stands first in the input; otherwise the first fault is named.
//   clauses: found, only, outcome; not: An input that is a prefix of a frame is reported as incomplete.
/// The frame in front of the bytes, and how many bytes it has, its length among them. `None` where it
/// isn't whole yet: there are fewer than 4 bytes, or a length in range and fewer bytes than it says.
///
/// The first fault from the left: `BadLength` where the length is 0 or above 1,048,576, then as `read_body`.
pub fn read_frame(bytes: &[u8]) -> Result<Option<(Frame<'_>, usize)>, FrameFault>
    // What is read is in the grammar and stands in front, and a frame of the grammar that stands there is read.
    ensures found { IfRead result (λ frame n. IsFront frame n bytes.now) }
    ensures only { (text : FrameText) (rest : List ℕ) → InGrammar text → bytes.now ≡ frame_bytes text ++ rest →
        IsRead result (λ frame n. (frame_view frame ≡ text) × (n ≡ length (frame_bytes text))) }

    // Whether it is whole, or which fault is the first.
    ensures outcome { answered result ≡ frame_outcome bytes.now }
{
    front_frame(bytes)
}
