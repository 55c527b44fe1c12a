use crate::searches::{PAGE, SEARCH, SHORT, find, hand, set_up};
use crate::tables::Labels;
use keyed_fn::Real;
use search_token::Token;
use server_core::Server;
use server_tables::Tables;
use std::alloc::{AllocError, Global};

/// How many words have an addition each that is searched for.
const WORDS: u64 = 10_000;

/// The beginning of an addition of one entry, up to its number, and its counts of entries and of numbers.
const ADD: &[u8] = b"\x00\x00\x00\x21\x06";

const ONE_ENTRY: &[u8] = b"\x00\x01\x00\x00";

/// Adds an identifier to each of 10,000 words of a server that has taken nothing, then additions of other words until there are so many,
/// and searches so often, for one of the words after another. How many were found in all, modulo 2^64.
pub(crate) fn search<T: Tables>(
    alloc: Global,
    server: &mut Server<T>,
    additions: u64,
    turns: u64,
) -> Result<u64, AllocError> {
    let mut page = [0u64; PAGE];
    set_up(alloc, &token(WORDS), SHORT, server, &mut page)?;
    let mut bytes = Vec::new(alloc);
    for number in 0..additions {
        add(&mut bytes, server, number, &mut page)?;
    }
    let mut sum = 0u64;
    for turn in 0..turns {
        bytes.clear();
        bytes.extend_from_slice(SEARCH)?;
        bytes.extend_from_slice(&token(turn % WORDS).to_bytes())?;
        sum = sum.wrapping_add(find(&Real, server, &bytes, &mut page));
    }
    Ok(sum)
}

/// Hands the server the addition of this number, in a frame of its own.
fn add<T: Tables>(
    bytes: &mut Vec<u8>,
    server: &mut Server<T>,
    number: u64,
    page: &mut [u64],
) -> Result<(), AllocError> {
    let (label, sealed) = entry(number);
    bytes.clear();
    bytes.extend_from_slice(ADD)?;
    bytes.extend_from_slice(&server.next().to_be_bytes())?;
    bytes.extend_from_slice(ONE_ENTRY)?;
    bytes.extend_from_slice(&label)?;
    bytes.extend_from_slice(&sealed)?;
    hand(server, bytes, page);
    Ok(())
}

/// The addition of this number: the first of a word, and after those of all words one that no search looks up.
fn entry(number: u64) -> ([u8; 16], [u8; 8]) {
    if number >= WORDS {
        return (Labels::Spread.label(number), [0; 8]);
    }
    let token = token(number);
    let mut sealed = (number + 1).to_be_bytes();
    token.open_plus(&Real, 0, &mut sealed);
    (token.plus_label(&Real, 0), sealed)
}

/// The token of the word of this number.
fn token(word: u64) -> Token {
    let mut key = [7u8; 32];
    key[..8].copy_from_slice(&word.to_be_bytes());
    Token::new([key, key, key, key, key])
}
