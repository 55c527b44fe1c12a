use crate::searches::{LONG, SHORT};
use crate::tables::{Labels, fill, fill_plain};
use crate::{additions, lanes, searches};
use keyed_fn::{Keyed, PreparedKey, Real, xor_pad};
use server_core::Server;
use server_tables::{BucketTables, SortedTables, TableFault, Tables};
use sha2::{Digest, Sha256};
use std::alloc::{AllocError, Global};

/// Each row, with the word that names it.
pub(crate) const ROWS: [(&str, Row); 22] = [
    ("prepared", Row::Prepared),
    ("lanes", Row::Lanes),
    ("raw", Row::Raw),
    ("digests", Row::Digests),
    ("short_pads", Row::ShortPads),
    ("cell_pads", Row::CellPads),
    ("block_pads", Row::BlockPads),
    ("pads", Row::Pads),
    ("sorted", Row::Sorted),
    ("buckets", Row::Buckets),
    ("alike", Row::Alike),
    ("plain", Row::Plain),
    ("searches", Row::Searches),
    ("revoked", Row::Revoked),
    ("calls", Row::Calls),
    ("revoked_calls", Row::RevokedCalls),
    ("pages", Row::Pages),
    ("revoked_pages", Row::RevokedPages),
    ("page_calls", Row::PageCalls),
    ("revoked_page_calls", Row::RevokedPageCalls),
    ("behind_few", Row::BehindFew),
    ("behind_many", Row::BehindMany),
];

/// The key of the rows of keyed calls, 32 bytes.
const KEY: [u8; 32] = [7; 32];

/// What is done in each turn.
#[derive(Clone, Copy)]
pub(crate) enum Row {
    /// A value of the function under a key that was prepared once, at an input of 8 bytes: two blocks of SHA-256.
    Prepared,
    /// Eight such values side by side: two blocks of SHA-256 in each of eight lanes.
    Lanes,
    /// A value under the key's bytes: four blocks.
    Raw,
    /// A digest of SHA-256 of 8 bytes: one block.
    Digests,
    /// A pad of 8 bytes, as an addition needs it: one block of ChaCha20.
    ShortPads,
    /// A pad of 129 bytes, as a cell needs it with b = 16: three blocks.
    CellPads,
    /// A pad of 512 bytes, as a block needs it with B = 64: eight blocks.
    BlockPads,
    /// Eight pads of 64 bytes side by side: a block of ChaCha20 in each of eight lanes.
    Pads,
    /// An addition into sorted tables, and its look-up once all are there.
    Sorted,
    /// The same into tables in buckets.
    Buckets,
    /// The same, where all labels begin with the same four bytes.
    Alike,
    /// The same into a plain `HashMap`.
    Plain,
    /// A search for 10,240 identifiers, of which none is revoked.
    Searches,
    /// The same where a tenth is.
    Revoked,
    /// The keyed calls of the first of these searches.
    Calls,
    /// Those of the second.
    RevokedCalls,
    /// A search for 2^20 identifiers, of which none is revoked.
    Pages,
    /// The same where a tenth is.
    RevokedPages,
    /// The keyed calls of the first of these searches.
    PageCalls,
    /// Those of the second.
    RevokedPageCalls,
    /// A search for one identifier, which was added, where the server has 10^4 additions.
    BehindFew,
    /// The same where it has 10^6.
    BehindMany,
}

impl Row {
    /// The row of this name.
    pub(crate) fn named(name: &str) -> Option<Row> {
        for (own, row) in &ROWS {
            if *own == name {
                return Some(*row);
            }
        }
        None
    }

    /// Makes so many turns, and answers a sum of what came, modulo 2^64.
    pub(crate) fn run(self, alloc: Global, turns: u64) -> Result<u64, TableFault> {
        match self {
            Row::Prepared | Row::Raw | Row::Digests => Ok(self.hash(turns)),
            Row::Lanes => Ok(lanes::hash(KEY, turns)),
            Row::Pads => Ok(lanes::pads(KEY, turns)),
            Row::ShortPads | Row::CellPads | Row::BlockPads => Ok(self.encrypt(turns)),
            Row::Sorted => fill(&mut SortedTables::new(alloc), Labels::Spread, turns),
            Row::Buckets => fill_buckets(alloc, Labels::Spread, turns),
            Row::Alike => fill_buckets(alloc, Labels::Alike, turns),
            Row::Plain => Ok(fill_plain(alloc, Labels::Spread, turns)?),
            Row::Calls => Ok(searches::calls(SHORT, false, turns)),
            Row::RevokedCalls => Ok(searches::calls(SHORT, true, turns)),
            Row::PageCalls => Ok(searches::calls(LONG, false, turns)),
            Row::RevokedPageCalls => Ok(searches::calls(LONG, true, turns)),
            _ => Ok(self.search(alloc, turns)?),
        }
    }

    /// So many searches; how many were found in all, modulo 2^64.
    fn search(self, alloc: Global, turns: u64) -> Result<u64, AllocError> {
        let mut server = Server::new(BucketTables::new(alloc));
        let sum = self.search_in(alloc, &mut server, turns);
        drop(server);
        sum
    }

    /// The same in a server that has taken nothing. Any tables: so nothing of those that are used is asked of its proof.
    fn search_in<T: Tables>(
        self,
        alloc: Global,
        server: &mut Server<T>,
        turns: u64,
    ) -> Result<u64, AllocError> {
        match self {
            Row::BehindFew => additions::search(alloc, server, 10_000, turns),
            Row::BehindMany => additions::search(alloc, server, 1_000_000, turns),
            Row::Revoked => searches::search(alloc, server, SHORT, true, turns),
            Row::Pages => searches::search(alloc, server, LONG, false, turns),
            Row::RevokedPages => searches::search(alloc, server, LONG, true, turns),
            _ => searches::search(alloc, server, SHORT, false, turns),
        }
    }

    /// The first bytes of so many values of the function, or of digests, summed modulo 2^64.
    fn hash(self, turns: u64) -> u64 {
        let key = PreparedKey::new(&Real, &KEY);
        let mut sum = 0u64;
        for number in 0..turns {
            let input = number.to_be_bytes();
            let [first, ..] = match self {
                Row::Prepared => key.prf(&Real, &input),
                Row::Raw => Real.prf(&KEY, &input),
                _ => Sha256::digest(&input),
            };
            sum = sum.wrapping_add(u64::from(first));
        }
        sum
    }

    /// A short value, a cell or a block, encrypted under so many pads; the first bytes, summed.
    fn encrypt(self, turns: u64) -> u64 {
        let mut short = [0u8; 8];
        let mut cell = [0u8; 129];
        let mut block = [0u8; 512];
        for number in 0..turns {
            match self {
                Row::ShortPads => xor_pad(&Real, &KEY, number, &mut short),
                Row::CellPads => xor_pad(&Real, &KEY, number, &mut cell),
                _ => xor_pad(&Real, &KEY, number, &mut block),
            }
        }
        u64::from(short[0])
            .wrapping_add(u64::from(cell[0]))
            .wrapping_add(u64::from(block[0]))
    }
}

/// Tables in buckets, filled with so many additions under such labels.
fn fill_buckets(alloc: Global, labels: Labels, turns: u64) -> Result<u64, TableFault> {
    fill(&mut BucketTables::new(alloc), labels, turns)
}
