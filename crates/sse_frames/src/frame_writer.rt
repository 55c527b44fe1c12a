ghost use Rattle.std.specs.Prelude.{◌≡◌, ◌+◌, ◌*◌, ◌<◌, ◌≤◌, ◌^◌, ◌∷◌, ◌++◌, length, drop, OnOk, OnErr};
ghost use Rattle.sse_frames.specs.Frames.{InGrammar, SearchFrame, be16, be32, frame_bytes};
ghost use Rattle.sse_frames.specs.FrameViews.{frame_view, items_in};
ghost use Rattle.sse_frames.specs.Sizes.{HasSizes};
ghost use Rattle.sse_frames.specs.Heads as heads;
ghost use Rattle.sse_frames.specs.Heads.{lists_in};

use crate::frame::Frame;
use crate::head::Head;
use crate::kinds::{ADD, DELETE, HELLO, SEARCH, SETUP_ARRAY, SETUP_BEGIN, SETUP_DICT, SETUP_END};
use crate::limits::{ADDED_LEN, LABEL_LEN, TOKEN_LEN};
use crate::put::put;
use std::alloc::AllocError;

/// How many whole items of one size the joined bytes hold.
fn count_in(size: usize, bytes: &[u8]) -> usize
    requires { 0 < size }
    ensures { result ≡ length (items_in size bytes.now) }
{
    bytes.len() / size
}

/// The head of a frame whose list has items of one size, which goes with the width that the frame names.
fn setup_head(kind: u8, q: u32, width: u16, size: usize, items: &[u8]) -> Head
    requires some { 0 < size }
    requires small { size ≤ 2048 }
    requires few { length (items_in size items.now) ≤ 1024 }
    ensures { let count = length (items_in size items.now) in
        result ≡ be32 (9 + count * size) ++ kind ∷ be32 q ++ be16 width ++ be16 count }
{
    let count = count_in(size, items);
    let body = 9 + count * size;
    Head::new(body as u32, kind)
        .then_u32(q)
        .then_u16(width)
        .then_u16(count as u16)
}

/// The head of an addition.
fn add_head(q: u32, entries: &[u8], numbers: &[u8]) -> Head
    requires { length (items_in 24 entries.now) + length (items_in 16 numbers.now) ≤ 4096 }
    ensures { let e = length (items_in 24 entries.now) in let r = length (items_in 16 numbers.now) in
        result ≡ be32 (9 + e * 24 + r * 16) ++ 6 ∷ be32 q ++ be16 e ++ be16 r }
{
    let e = count_in(LABEL_LEN + ADDED_LEN, entries);
    let r = count_in(LABEL_LEN, numbers);
    let body = 9 + e * (LABEL_LEN + ADDED_LEN) + r * LABEL_LEN;
    Head::new(body as u32, ADD)
        .then_u32(q)
        .then_u16(e as u16)
        .then_u16(r as u16)
}

/// The head of a deletion.
fn delete_head(q: u32, numbers: &[u8]) -> Head
    requires { length (items_in 16 numbers.now) ≤ 4096 }
    ensures { let r = length (items_in 16 numbers.now) in result ≡ be32 (7 + r * 16) ++ 7 ∷ be32 q ++ be16 r }
{
    let r = count_in(LABEL_LEN, numbers);
    let body = 7 + r * LABEL_LEN;
    Head::new(body as u32, DELETE)
        .then_u32(q)
        .then_u16(r as u16)
}

/// What stands before the lists of a frame.
fn head_of(frame: &Frame<'_>) -> Head
    requires { InGrammar (frame_view frame.now) }
    ensures { result ≡ heads.head_of (frame_view frame.now) }
{
    match *frame {
        Frame::Hello => Head::new(1, HELLO),
        Frame::SetupBegin { q, b, big, m, a } => Head::new(17, SETUP_BEGIN)
            .then_u32(q)
            .then_u16(b)
            .then_u16(big)
            .then_u32(m)
            .then_u32(a),
        Frame::SetupDict { q, width, entries } => {
            setup_head(SETUP_DICT, q, width, LABEL_LEN + width as usize, entries)
        }
        Frame::SetupArray { q, width, blocks } => {
            setup_head(SETUP_ARRAY, q, width, width as usize, blocks)
        }
        Frame::SetupEnd { q } => Head::new(5, SETUP_END).then_u32(q),
        Frame::Add {
            q,
            entries,
            numbers,
        } => add_head(q, entries, numbers),
        Frame::Delete { q, numbers } => delete_head(q, numbers),
        Frame::Search { .. } => Head::new(161, SEARCH),
    }
}

/// The joined bytes of a frame's lists, at most two.
fn lists_of<'a>(frame: &Frame<'a>) -> (&'a [u8], &'a [u8])
    ensures { result.0.now ++ result.1.now ≡ lists_in frame.now }
{
    match *frame {
        Frame::Hello | Frame::SetupBegin { .. } | Frame::SetupEnd { .. } => (&[], &[]),
        Frame::SetupDict { entries, .. } => (entries, &[]),
        Frame::SetupArray { blocks, .. } => (blocks, &[]),
        Frame::Add {
            entries,
            numbers,
            ..
        } => (entries, numbers),
        Frame::Delete { numbers, .. } => (numbers, &[]),
        Frame::Search { token } => (token, &[]),
    }
}

// Promise P98 (caller): A written frame or reply of the grammar has exactly its defined bytes; without memory nothing is appended.
//   clauses: ok, err; assumes: sizes in bounds
/// Appends the frame to the bytes. Without memory they are as before.
///
/// The frame is one of the grammar, and its lists have no bytes after their last whole item.
pub fn write_frame(frame: &Frame<'_>, out: &mut Vec<u8>) -> Result<(), AllocError>
    requires grammar { InGrammar (frame_view frame.now) }
    requires sizes { HasSizes frame.now }
    ensures ok { OnOk result (out.new.items ≡ out.old.items ++ frame_bytes (frame_view frame.now)) }
    ensures err { OnErr result (out.new.items ≡ out.old.items) }
{
    let head = head_of(frame);
    let (first, second) = lists_of(frame);
    append(out, head.as_slice(), first, second)
}

/// Appends these three, or nothing where memory runs out.
fn append(out: &mut Vec<u8>, head: &[u8], first: &[u8], second: &[u8]) -> Result<(), AllocError>
    requires { length head.now + length first.now + length second.now < 2 ^ 63 }
    ensures ok { OnOk result (out.new.items ≡ out.old.items ++ (head.now ++ (first.now ++ second.now))) }
    ensures err { OnErr result (out.new.items ≡ out.old.items) }
{
    out.reserve(head.len() + first.len() + second.len())?;
    out.extend_from_slice(head)?;
    out.extend_from_slice(first)?;
    out.extend_from_slice(second)
}

// Promise P98, also here; clauses: len, bytes
/// Writes the frame at the front of `out`, and says how many bytes it has. It takes no memory.
///
/// The frame is one that `write_frame` takes, and `out` has room for it: no frame has more than 541,709 bytes.
pub fn write_frame_into(frame: &Frame<'_>, out: &mut [u8]) -> usize
    requires grammar { InGrammar (frame_view frame.now) }
    requires sizes { HasSizes frame.now }
    requires room { length (frame_bytes (frame_view frame.now)) ≤ length out.old }
    ensures len { result ≡ length (frame_bytes (frame_view frame.now)) }
    ensures bytes { out.new ≡ frame_bytes (frame_view frame.now) ++ drop result out.old }
    ensures least { 5 ≤ result }
    ensures most { result ≤ 541709 }
{
    let head = head_of(frame);
    let (first, second) = lists_of(frame);
    put_all(out, head.as_slice(), first, second)
}

/// Writes these three at the front, and says how many bytes they are.
fn put_all(out: &mut [u8], head: &[u8], first: &[u8], second: &[u8]) -> usize
    requires { length (head.now ++ (first.now ++ second.now)) ≤ length out.old }
    ensures len { result ≡ length (head.now ++ (first.now ++ second.now)) }
    ensures bytes { out.new ≡ head.now ++ (first.now ++ second.now) ++ drop result out.old }
{
    let place = put(out, 0, head);
    let place = put(out, place, first);
    put(out, place, second)
}

// Promise P98, also here; clauses: ensures
/// The Search frame of a token: four length bytes, the kind byte 08 and the token. It takes no memory.
pub fn search_frame(token: &[u8; TOKEN_LEN]) -> [u8; 165]
    ensures { result ≡ frame_bytes (SearchFrame token.now) }
{
    let mut bytes = [0; 165];
    write_frame_into(&Frame::Search { token }, &mut bytes);
    bytes
}
