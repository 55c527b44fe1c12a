use server_tables::{TableFault, Tables};
use std::alloc::{AllocError, Global};
use std::collections::HashMap;

/// How the labels of a row begin.
#[derive(Clone, Copy)]
pub(crate) enum Labels {
    /// With any bytes.
    Spread,
    /// All with the same four bytes.
    Alike,
}

impl Labels {
    /// The label of this number: two words of SplitMix64 after it, evenly spread, of which the first four bytes are
    /// the same where labels are alike.
    pub(crate) fn label(self, number: u64) -> [u8; 16] {
        let [a, b, c, d, e, f, g, h] = mixed(number).to_be_bytes();
        let [i, j, k, l, m, n, o, p] = mixed(!number).to_be_bytes();
        match self {
            Labels::Spread => [a, b, c, d, e, f, g, h, i, j, k, l, m, n, o, p],
            Labels::Alike => [7, 7, 7, 7, e, f, g, h, i, j, k, l, m, n, o, p],
        }
    }
}

/// The last steps of the generator SplitMix64, by which no two numbers give the same one.
fn mixed(number: u64) -> u64 {
    let mut z = number.wrapping_mul(0x9e37_79b9_7f4a_7c15);
    z = (z ^ (z >> 30)).wrapping_mul(0xbf58_476d_1ce4_e5b9);
    z = (z ^ (z >> 27)).wrapping_mul(0x94d0_49bb_1331_11eb);
    z ^ (z >> 31)
}

/// Puts so many additions into the tables and looks each of them up. The sum of what was found, as numbers, modulo 2^64.
pub(crate) fn fill<T: Tables>(
    tables: &mut T,
    labels: Labels,
    turns: u64,
) -> Result<u64, TableFault> {
    for number in 0..turns {
        tables.put_plus(&labels.label(number), &number.to_le_bytes())?;
    }
    let mut sum = 0u64;
    for number in 0..turns {
        let found = tables.plus(&labels.label(number)).unwrap_or([0; 8]);
        sum = sum.wrapping_add(u64::from_le_bytes(found));
    }
    Ok(sum)
}

/// The same with std's hash table, from 16 bytes to 8 bytes.
pub(crate) fn fill_plain(alloc: Global, labels: Labels, turns: u64) -> Result<u64, AllocError> {
    let mut plain: HashMap<[u8; 16], [u8; 8]> = HashMap::new(alloc);
    for number in 0..turns {
        plain.insert(labels.label(number), number.to_le_bytes())?;
    }
    let mut sum = 0u64;
    for number in 0..turns {
        let found = plain.get(&labels.label(number)).copied().unwrap_or([0; 8]);
        sum = sum.wrapping_add(u64::from_le_bytes(found));
    }
    Ok(sum)
}
