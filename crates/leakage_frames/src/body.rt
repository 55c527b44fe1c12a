ghost use Rattle.std.specs.Prelude.{◌≡◌, ◌∷◌, ◌++◌, IfOk, length, map};
ghost use Rattle.sse_frames.specs.Frames.{AddFrame, DeleteFrame, SearchFrame, SetupArray, SetupBegin, SetupDict, be32, body_of};
ghost use Rattle.sse_frames.specs.Replies.{Page, reply_body};
ghost use Rattle.leakage_frames.specs.MadeFrames.{part_frame};

use crate::bytes::{append, append_numbers, append_u16, append_u32, append_u64s};
use crate::drawn::Section;
use crate::entry::{DrawnEntry, append_blocks, append_entries};
use sse_frames::{Items, NoMemory};
use std::alloc::Global;

/// The kind byte of SetupBegin.
const SETUP_BEGIN: u8 = 0x02;

/// The kind byte of SetupDict.
const SETUP_DICT: u8 = 0x03;

/// The kind byte of SetupArray.
const SETUP_ARRAY: u8 = 0x04;

/// The kind byte of SetupEnd.
const SETUP_END: u8 = 0x05;

/// The kind byte of Add.
const ADD: u8 = 0x06;

/// The kind byte of Delete.
const DELETE: u8 = 0x07;

/// The kind byte of Search.
const SEARCH: u8 = 0x08;

/// The kind byte of Took.
const TOOK: u8 = 0x82;

/// The kind byte of Page.
const PAGE: u8 = 0x85;

/// A body of a kind and a number, and what may follow.
fn begun(alloc: Global, kind: u8, q: u64) -> Result<Items<u8>, NoMemory>
    ensures { IfOk result (λ body. body ≡ kind ∷ be32 q) }
{
    let mut body = Items::new(alloc);
    body.push(kind)?;
    append_u32(&mut body, q)?;
    Ok(body)
}

/// The body of a SetupBegin.
pub(crate) fn begin_body(
    alloc: Global,
    q: u64,
    b: u16,
    big: u16,
    words: usize,
    blocks: usize,
) -> Result<Items<u8>, NoMemory>
    ensures { IfOk result (λ body. body ≡ body_of (SetupBegin q b big words blocks)) }
{
    let mut body = begun(alloc, SETUP_BEGIN, q)?;
    append_u16(&mut body, b as u64)?;
    append_u16(&mut body, big as u64)?;
    append_u32(&mut body, words as u64)?;
    append_u32(&mut body, blocks as u64)?;
    Ok(body)
}

/// The body of a SetupDict.
fn dictionary_body(
    alloc: Global,
    q: u64,
    width: u64,
    entries: &[DrawnEntry<'_>],
) -> Result<Items<u8>, NoMemory>
    ensures { IfOk result (λ body. body ≡ body_of (SetupDict q width entries.now)) }
{
    let mut body = begun(alloc, SETUP_DICT, q)?;
    append_u16(&mut body, width)?;
    append_u16(&mut body, entries.len() as u64)?;
    append_entries(&mut body, entries)?;
    Ok(body)
}

/// The body of a SetupArray.
fn array_body(
    alloc: Global,
    q: u64,
    width: u64,
    blocks: &[DrawnEntry<'_>],
) -> Result<Items<u8>, NoMemory>
    ensures { IfOk result (λ body. body ≡ body_of (SetupArray q width (map (λ block. block.text) blocks.now))) }
{
    let mut body = begun(alloc, SETUP_ARRAY, q)?;
    append_u16(&mut body, width)?;
    append_u16(&mut body, blocks.len() as u64)?;
    append_blocks(&mut body, blocks)?;
    Ok(body)
}

/// The body of a frame of this part of a setup.
pub(crate) fn part_body(
    alloc: Global,
    q: u64,
    section: Section,
    width: u64,
    items: &[DrawnEntry<'_>],
) -> Result<Items<u8>, NoMemory>
    ensures { IfOk result (λ body. body ≡ body_of (part_frame section width items.now q)) }
{
    match section {
        Section::Entries => dictionary_body(alloc, q, width, items),
        Section::Blocks => array_body(alloc, q, width, items),
    }
}

/// The body of a SetupEnd.
pub(crate) fn end_body(alloc: Global, q: u64) -> Result<Items<u8>, NoMemory>
    ensures { IfOk result (λ body. body ≡ 0x05 ∷ be32 q) }
{
    begun(alloc, SETUP_END, q)
}

/// The body of an Add.
pub(crate) fn add_body(
    alloc: Global,
    q: u64,
    entries: &[DrawnEntry<'_>],
    numbers: &[[u8; 16]],
) -> Result<Items<u8>, NoMemory>
    ensures { IfOk result (λ body. body ≡ body_of (AddFrame q entries.now numbers.now)) }
{
    let mut body = begun(alloc, ADD, q)?;
    append_u16(&mut body, entries.len() as u64)?;
    append_u16(&mut body, numbers.len() as u64)?;
    append_entries(&mut body, entries)?;
    append_numbers(&mut body, numbers)?;
    Ok(body)
}

/// The body of a Delete.
pub(crate) fn delete_body(
    alloc: Global,
    q: u64,
    numbers: &[[u8; 16]],
) -> Result<Items<u8>, NoMemory>
    ensures { IfOk result (λ body. body ≡ body_of (DeleteFrame q numbers.now)) }
{
    let mut body = begun(alloc, DELETE, q)?;
    append_u16(&mut body, numbers.len() as u64)?;
    append_numbers(&mut body, numbers)?;
    Ok(body)
}

/// The body of a Search.
pub(crate) fn search_body(alloc: Global, token: &[u8]) -> Result<Items<u8>, NoMemory>
    ensures { IfOk result (λ body. body ≡ body_of (SearchFrame token.now)) }
{
    let mut body = Items::new(alloc);
    body.push(SEARCH)?;
    append(&mut body, token)?;
    Ok(body)
}

/// The body of a Took.
pub(crate) fn took_body(alloc: Global, q: u64) -> Result<Items<u8>, NoMemory>
    ensures { IfOk result (λ body. body ≡ 0x82 ∷ be32 q) }
{
    begun(alloc, TOOK, q)
}

/// The body of a Page.
pub(crate) fn page_body(alloc: Global, last: bool, ids: &[u64]) -> Result<Items<u8>, NoMemory>
    ensures { IfOk result (λ body. body ≡ reply_body (Page last ids.now)) }
{
    let mut body = Items::new(alloc);
    body.push(PAGE)?;
    body.push(last as u8)?;
    append_u16(&mut body, ids.len() as u64)?;
    append_u64s(&mut body, ids)?;
    Ok(body)
}
