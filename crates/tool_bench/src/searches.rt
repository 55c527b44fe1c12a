ghost use Rattle.std.specs.Prelude.{◌<◌, length};

use keyed_fn::{Keyed, Real};
use search_token::Token;
use server_core::{Answer, Server};
use server_tables::Tables;
use sse_frames::read_frame;
use std::alloc::{AllocError, Global};

/// How many identifiers a block has.
const BLOCK_IDS: u64 = 256;

/// The identifiers of a page.
pub(crate) const PAGE: usize = 8192;

/// More pages than any list has.
const MOST_PAGES: u32 = 1 << 20;

/// A list: how many blocks of identifiers it has, and how many blocks of pointers to those, or none.
#[derive(Clone, Copy)]
pub(crate) struct List {
    data: u32,
    tops: u32,
}

/// 10,240 identifiers of a cell of pointers.
pub(crate) const SHORT: List = List { data: 40, tops: 0 };

/// 2^20 identifiers of a cell of pointers to blocks of pointers.
pub(crate) const LONG: List = List {
    data: 4096,
    tops: 16,
};

/// The beginnings of the frames of a setup of one word, with cells of 64 numbers and blocks of 256.
const BEGIN: &[u8] = b"\x00\x00\x00\x11\x02\x00\x00\x00\x00\x00\x40\x01\x00\x00\x00\x00\x01";

const DICT: &[u8] = b"\x00\x00\x02\x1a\x03\x00\x00\x00\x01\x02\x01\x00\x01";

const ARRAY: &[u8] = b"\x00\x00\x08\x09\x04";

const ONE_BLOCK: &[u8] = b"\x08\x00\x00\x01";

const END: &[u8] = b"\x00\x00\x00\x05\x05";

/// The beginnings of a deletion of one number, and of a search.
const DELETE: &[u8] = b"\x00\x00\x00\x17\x07";

const ONE: &[u8] = b"\x00\x01";

pub(crate) const SEARCH: &[u8] = b"\x00\x00\x00\xa1\x08";

/// Searches a server that has taken nothing so often for a list, of whose identifiers none or a tenth is revoked. How many were found in
/// all, modulo 2^64.
pub(crate) fn search<T: Tables>(
    alloc: Global,
    server: &mut Server<T>,
    list: List,
    some_revoked: bool,
    turns: u64,
) -> Result<u64, AllocError> {
    let token = token();
    let mut page = [0u64; PAGE];
    set_up(alloc, &token, list, server, &mut page)?;
    if some_revoked {
        revoke(alloc, &token, list, server, &mut page)?;
    }
    let mut bytes = Vec::new(alloc);
    bytes.extend_from_slice(SEARCH)?;
    bytes.extend_from_slice(&token.to_bytes())?;
    let mut sum = 0u64;
    for _ in 0..turns {
        sum = sum.wrapping_add(find(&Real, server, &bytes, &mut page));
    }
    Ok(sum)
}

/// The keyed calls that such a search needs, so often; where the list has many pages each block is opened twice, before the
/// first page goes out and with its own. A sum of what came, modulo 2^64.
pub(crate) fn calls(list: List, some_revoked: bool, turns: u64) -> u64 {
    let token = token();
    let mut cell = [0u8; 513];
    let mut block = [0u8; 2048];
    let mut sum = 0u64;
    for _ in 0..turns {
        let [first, ..] = token.list_label(&Real);
        sum = sum.wrapping_add(u64::from(first));
        token.open_cell(&Real, &mut cell);
        for _opening in 0..if list.tops == 0 { 1 } else { 2 } {
            for number in 0..list.data.wrapping_add(list.tops) {
                token.open_block(&Real, number, &mut block);
            }
        }
        if some_revoked {
            sum = sum.wrapping_add(numbers(&token, list));
        }
    }
    sum.wrapping_add(u64::from(cell[0]))
        .wrapping_add(u64::from(block[0]))
}

/// The first bytes of the revocation numbers of all identifiers of the list, summed modulo 2^64.
fn numbers(token: &Token, list: List) -> u64 {
    let numbers = token.revocations(&Real);
    let mut sum = 0u64;
    for id in 0..BLOCK_IDS * u64::from(list.data) {
        let [first, ..] = numbers.number(&Real, id);
        sum = sum.wrapping_add(u64::from(first));
    }
    sum
}

/// The token of the one word.
fn token() -> Token {
    Token::new([[1; 32], [2; 32], [3; 32], [4; 32], [5; 32]])
}

/// Hands the server bytes that are a frame.
pub(crate) fn hand<T: Tables>(server: &mut Server<T>, bytes: &[u8], page: &mut [u64]) {
    if let Ok(Some((frame, _))) = read_frame(bytes) {
        server.handle(&Real, &frame, page);
    }
}

/// Hands the server bytes that are a search, and takes what it gives, page by page: how many identifiers.
pub(crate) fn find<K: Keyed, T: Tables>(
    keyed: &K,
    server: &mut Server<T>,
    bytes: &[u8],
    page: &mut [u64],
) -> u64
    requires { 0 < length page.old }
{
    let Ok(Some((frame, _))) = read_frame(bytes) else {
        return 0;
    };
    let Answer::Found { count, mut walk } = server.handle(keyed, &frame, page) else {
        return 0;
    };
    let mut sum = count as u64;
    for _page in 0..MOST_PAGES {
        if walk.is_over() {
            break;
        }
        sum = sum.wrapping_add(server.fill(keyed, &mut walk, page) as u64);
    }
    sum
}

/// Sets up a server that has taken nothing, with the list of this token alone.
pub(crate) fn set_up<T: Tables>(
    alloc: Global,
    token: &Token,
    list: List,
    server: &mut Server<T>,
    page: &mut [u64],
) -> Result<(), AllocError> {
    let mut bytes = Vec::new(alloc);
    bytes.extend_from_slice(BEGIN)?;
    bytes.extend_from_slice(&list.data.wrapping_add(list.tops).to_be_bytes())?;
    hand(server, &bytes, page);
    bytes.clear();
    bytes.extend_from_slice(DICT)?;
    bytes.extend_from_slice(&token.list_label(&Real))?;
    bytes.extend_from_slice(&cell(token, list))?;
    hand(server, &bytes, page);
    for number in list.tops..list.tops.wrapping_add(list.data) {
        let first = BLOCK_IDS * u64::from(number.wrapping_sub(list.tops)) + 1;
        push_block(&mut bytes, token, number, first, server, page)?;
    }
    for top in 0..list.tops {
        push_block(
            &mut bytes,
            token,
            top,
            BLOCK_IDS * u64::from(top) + 1,
            server,
            page,
        )?;
    }
    bytes.clear();
    bytes.extend_from_slice(END)?;
    bytes.extend_from_slice(&server.next().to_be_bytes())?;
    hand(server, &bytes, page);
    Ok(())
}

/// The encrypted cell of pointers in order: to all blocks of identifiers, which come first in the array, or after those to
/// the blocks of pointers.
fn cell(token: &Token, list: List) -> [u8; 513] {
    let mut cell = [0u8; 513];
    let (kind, first, count) = if list.tops == 0 {
        (1, 1, list.data)
    } else {
        (2, u64::from(list.data) + 1, list.tops)
    };
    cell[0] = kind;
    for place in 0..count.min(64) as usize {
        let pointer = first + place as u64;
        cell[1 + 8 * place..9 + 8 * place].copy_from_slice(&pointer.to_be_bytes());
    }
    token.open_cell(&Real, &mut cell);
    cell
}

/// Hands the server the encrypted block of this number with the numbers from `first` on, in a frame of its own.
fn push_block<T: Tables>(
    bytes: &mut Vec<u8>,
    token: &Token,
    number: u32,
    first: u64,
    server: &mut Server<T>,
    page: &mut [u64],
) -> Result<(), AllocError> {
    let mut block = [0u8; 2048];
    for place in 0..256usize {
        let id = first.wrapping_add(place as u64);
        block[8 * place..8 * place + 8].copy_from_slice(&id.to_be_bytes());
    }
    token.open_block(&Real, number, &mut block);
    bytes.clear();
    bytes.extend_from_slice(ARRAY)?;
    bytes.extend_from_slice(&server.next().to_be_bytes())?;
    bytes.extend_from_slice(ONE_BLOCK)?;
    bytes.extend_from_slice(&block)?;
    hand(server, bytes, page);
    Ok(())
}

/// Deletes a tenth of the identifiers, each by a frame of its own.
fn revoke<T: Tables>(
    alloc: Global,
    token: &Token,
    list: List,
    server: &mut Server<T>,
    page: &mut [u64],
) -> Result<(), AllocError> {
    let mut bytes = Vec::new(alloc);
    for deleted in 0..BLOCK_IDS * u64::from(list.data) / 10 {
        bytes.clear();
        bytes.extend_from_slice(DELETE)?;
        bytes.extend_from_slice(&server.next().to_be_bytes())?;
        bytes.extend_from_slice(ONE)?;
        bytes.extend_from_slice(&token.revocation(&Real, 10 * deleted + 1))?;
        hand(server, &bytes, page);
    }
    Ok(())
}
