ghost use Rattle.std.specs.Prelude.{◌<◌, length};

use keyed_fn::{Keyed, Real};
use search_token::Token;
use server_core::{First, Server};
use server_tables::{BucketTables, Tables};
use sse_frames::read_frame;
use std::alloc::{AllocError, Global};
use std::process::Abort;
use std::test::Fail;

// The kinds of the frames that are made here, and the numbers of a cell and of a block.

const BEGIN: u8 = 2;

const DICT: u8 = 3;

const ARRAY: u8 = 4;

const END: u8 = 5;

const ADD: u8 = 6;

const DELETE: u8 = 7;

const SEARCH: u8 = 8;

const B: usize = 5;

const BIG: usize = 7;

/// The bytes of a cell, and of a block.
const CELL: usize = 1 + 8 * B;

const BLOCK: usize = 8 * BIG;

/// More pages than any of these searches has.
const MOST_PAGES: u32 = 16_385;

/// Lists in the cell, after pointers, after pointers to pointers, and of additions: how many identifiers come from the
/// setup, and how many after them from additions.
const LISTS: [(u16, u16); 9] = [
    (0, 0),
    (0, 10),
    (1, 0),
    (5, 3),
    (6, 10),
    (35, 0),
    (36, 1),
    (100, 10),
    (100, 16_285),
];

/// Whether an identifier is revoked: some in a row, and the first of each five.
fn is_revoked(id: u64) -> bool {
    id % 5 == 1 || id == 8 || id == 9
}

/// The identifiers from one to another.
fn from_to(alloc: Global, first: u64, count: u64) -> Result<Vec<u64>, AllocError> {
    let mut ids = Vec::new(alloc);
    for place in 0..count {
        ids.push(first.wrapping_add(place))?;
    }
    Ok(ids)
}

/// The bytes of numbers, filled up with zeros to so many numbers.
fn packed(alloc: Global, numbers: &[u64], width: usize) -> Result<Vec<u8>, AllocError> {
    let mut bytes = Vec::new(alloc);
    for number in numbers {
        bytes.extend_from_slice(&number.to_be_bytes())?;
    }
    for _ in numbers.len()..width {
        bytes.extend_from_slice(&[0; 8])?;
    }
    Ok(bytes)
}

/// A frame of this kind: its number where it has one, and what follows.
fn frame(
    alloc: Global,
    kind: u8,
    number: Option<u32>,
    counts: &[u16],
    body: &[u8],
) -> Result<Vec<u8>, AllocError> {
    let mut rest = Vec::new(alloc);
    rest.push(kind)?;
    if let Some(number) = number {
        rest.extend_from_slice(&number.to_be_bytes())?;
    }
    for count in counts {
        rest.extend_from_slice(&count.to_be_bytes())?;
    }
    rest.extend_from_slice(body)?;
    let mut bytes = Vec::new(alloc);
    bytes.extend_from_slice(&u32::try_from(rest.len()).unwrap_or(0).to_be_bytes())?;
    bytes.extend_from_slice(&rest)?;
    Ok(bytes)
}

/// Encrypted blocks of these numbers, the first of which is the list's block of this number.
fn sealed(
    alloc: Global,
    token: &Token,
    first: u32,
    numbers: &[u64],
) -> Result<Vec<u8>, AllocError> {
    let mut bytes = Vec::new(alloc);
    let mut number = first;
    for part in numbers.chunks(BIG) {
        let mut block = packed(alloc, part, BIG)?;
        if let Some(block) = block.first_chunk_mut::<BLOCK>() {
            token.open_block(&Real, number, block);
        }
        bytes.extend_from_slice(&block)?;
        number = number.wrapping_add(1);
    }
    Ok(bytes)
}

/// Hands the server an update frame, which it takes.
fn take<T: Tables>(rt: &impl Abort, server: &mut Server<T>, bytes: &[u8]) {
    let Ok(Some((frame, _))) = read_frame(bytes) else {
        panic!(rt; "no frame")
    };
    assert!(rt; frame.update_number().is_some());
    let Ok(()) = server.prepare(&frame) else {
        panic!(rt; "not taken")
    };
    server.apply(&frame);
}

/// A list laid out: the kind of its cell and the numbers in it, and the blocks, one behind the other.
#[derive(Drop)]
struct LaidList {
    kind: u8,
    numbers: Vec<u64>,
    array: Vec<u8>,
    blocks: u16,
}

/// Identifiers that a cell has room for.
fn in_a_cell(alloc: Global, numbers: Vec<u64>) -> LaidList {
    LaidList {
        kind: 0,
        numbers,
        array: Vec::new(alloc),
        blocks: 0,
    }
}

/// Identifiers in so many blocks, to which the cell points.
fn in_blocks(
    alloc: Global,
    token: &Token,
    numbers: &[u64],
    data: u16,
) -> Result<LaidList, AllocError> {
    Ok(LaidList {
        kind: 1,
        numbers: from_to(alloc, 1, u64::from(data))?,
        array: sealed(alloc, token, 0, numbers)?,
        blocks: data,
    })
}

/// Identifiers in so many blocks, to which so many others point behind them.
fn in_two_levels(
    alloc: Global,
    token: &Token,
    numbers: &[u64],
    data: u16,
    tops: u16,
) -> Result<LaidList, AllocError> {
    let pointers = from_to(alloc, 1, u64::from(data))?;
    let mut array = sealed(alloc, token, u32::from(tops), numbers)?;
    array.extend_from_slice(&sealed(alloc, token, 0, &pointers)?)?;
    Ok(LaidList {
        kind: 2,
        numbers: from_to(alloc, u64::from(data) + 1, u64::from(tops))?,
        array,
        blocks: data.wrapping_add(tops),
    })
}

/// The list of the identifiers 1 to `count`.
fn laid(alloc: Global, token: &Token, count: u16) -> Result<LaidList, AllocError> {
    let numbers = from_to(alloc, 1, u64::from(count))?;
    let data = count.div_ceil(BIG as u16);
    if count <= B as u16 {
        Ok(in_a_cell(alloc, numbers))
    } else if data <= B as u16 {
        in_blocks(alloc, token, &numbers, data)
    } else {
        in_two_levels(alloc, token, &numbers, data, data.div_ceil(BIG as u16))
    }
}

/// The label and the cell of a list, as they stand in a frame.
fn entry(alloc: Global, token: &Token, laid: &LaidList) -> Result<Vec<u8>, AllocError> {
    let mut cell = vec![in alloc; laid.kind; 1]?;
    cell.extend_from_slice(&packed(alloc, &laid.numbers, B)?)?;
    if let Some(cell) = cell.first_chunk_mut::<CELL>() {
        token.open_cell(&Real, cell);
    }
    let mut entry = Vec::from_slice(alloc, &token.list_label(&Real))?;
    entry.extend_from_slice(&cell)?;
    Ok(entry)
}

/// Sets a new server up with one list of the identifiers 1 to `count`.
fn set_up<T: Tables>(
    rt: &impl Abort,
    alloc: Global,
    token: &Token,
    server: &mut Server<T>,
    count: u16,
) -> Result<(), AllocError> {
    let laid = laid(alloc, token, count)?;
    let mut counts = [0; 8];
    counts[..4].copy_from_slice(&1u32.to_be_bytes());
    counts[4..].copy_from_slice(&u32::from(laid.blocks).to_be_bytes());
    let begin = frame(alloc, BEGIN, Some(0), &[B as u16, BIG as u16], &counts)?;
    take(rt, server, &begin);
    let entry = entry(alloc, token, &laid)?;
    let dict = frame(alloc, DICT, Some(1), &[CELL as u16, 1], &entry)?;
    take(rt, server, &dict);
    if laid.blocks > 0 {
        let widths = [BLOCK as u16, laid.blocks];
        let array = frame(alloc, ARRAY, Some(2), &widths, &laid.array)?;
        take(rt, server, &array);
    }
    let last = server.next();
    take(rt, server, &frame(alloc, END, Some(last), &[], &[])?);
    Ok(())
}

/// The frame that adds an identifier as the addition of this number.
fn addition(
    alloc: Global,
    token: &Token,
    number: u32,
    c: u64,
    id: u64,
) -> Result<Vec<u8>, AllocError> {
    let mut sealed = id.to_be_bytes();
    token.open_plus(&Real, c, &mut sealed);
    let mut entry = Vec::from_slice(alloc, &token.plus_label(&Real, c))?;
    entry.extend_from_slice(&sealed)?;
    frame(alloc, ADD, Some(number), &[1, 0], &entry)
}

/// The frame that deletes it.
fn deletion(alloc: Global, token: &Token, number: u32, id: u64) -> Result<Vec<u8>, AllocError> {
    frame(
        alloc,
        DELETE,
        Some(number),
        &[1],
        &token.revocation(&Real, id),
    )
}

/// Adds so many identifiers after those of the setup, and deletes the revoked ones of all.
fn change<T: Tables>(
    rt: &impl Abort,
    alloc: Global,
    token: &Token,
    server: &mut Server<T>,
    listed: u64,
    added: u64,
) -> Result<(), AllocError> {
    for c in 0..added {
        let id = listed.wrapping_add(c).wrapping_add(1);
        let frame = addition(alloc, token, server.next(), c, id)?;
        take(rt, server, &frame);
    }
    for id in from_to(alloc, 1, listed.wrapping_add(added))?.as_slice() {
        if is_revoked(*id) {
            let frame = deletion(alloc, token, server.next(), *id)?;
            take(rt, server, &frame);
        }
    }
    Ok(())
}

/// Whether the pages of a search, joined, are the identifiers that are wanted.
fn is_walked<K: Keyed, T: Tables>(
    rt: &impl Abort,
    keyed: &K,
    server: &Server<T>,
    token: &Token,
    page: &mut [u64],
    wanted: &[u64],
)
    requires { 0 < length page.old }
{
    let Ok(First { count, mut walk }) = server.walk(keyed, token, page) else {
        panic!(rt; "no list")
    };
    let mut count = count;
    let mut rest = wanted;
    for _page in 0..MOST_PAGES {
        let (got, _) = page.split_at(count);
        let Some((front, behind)) = rest.split_at_checked(got.len()) else {
            panic!(rt; "too many identifiers")
        };
        assert_eq!(rt; got, front);
        rest = behind;
        if walk.is_over() {
            break;
        }
        count = server.fill(keyed, &mut walk, page);
    }
    assert!(rt; walk.is_over());
    assert!(rt; rest.is_empty());
}

/// The identifiers 1 to `count` that are not revoked.
fn unrevoked(alloc: Global, count: u64) -> Result<Vec<u64>, AllocError> {
    let mut unrevoked = Vec::new(alloc);
    for id in from_to(alloc, 1, count)?.as_slice() {
        if !is_revoked(*id) {
            unrevoked.push(*id)?;
        }
    }
    Ok(unrevoked)
}

/// A list of so many identifiers, so many more added, by pages of one identifier, of as many as a block has, and of as many as a
/// reply has.
fn are_walked<T: Tables>(
    rt: &impl Abort,
    alloc: Global,
    token: &Token,
    server: &mut Server<T>,
    listed: u16,
    added: u16,
) -> Result<(), AllocError> {
    let (first, more) = (u64::from(listed), u64::from(added));
    set_up(rt, alloc, token, server, listed)?;
    change(rt, alloc, token, server, first, more)?;
    let wanted = unrevoked(alloc, first + more)?;
    is_walked(rt, &Real, server, token, &mut [0; 1], &wanted);
    is_walked(rt, &Real, server, token, &mut [0; BIG], &wanted);
    is_walked(rt, &Real, server, token, &mut [0; 8192], &wanted);
    Ok(())
}

/// Each list.
#[test]
fn pages_join_to_what_is_found(rt: HostRuntime) -> Result<(), Fail> {
    let token = Token::new([[1; 32], [2; 32], [3; 32], [4; 32], [5; 32]]);
    for (listed, added) in LISTS {
        let mut server = Server::new(BucketTables::new(rt.alloc()));
        let walked = are_walked(&rt, rt.alloc(), &token, &mut server, listed, added);
        drop(server);
        walked?;
    }
    Ok(())
}
