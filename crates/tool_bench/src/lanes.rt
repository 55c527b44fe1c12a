use chacha_lanes::blocks;
use hmac_lanes::LaneKeys;

/// The first bytes of so many groups of eight codes under a key, which are computed side by side; the texts are the numbers
/// from 0. Summed modulo 2^64.
pub(crate) fn hash(key: [u8; 32], turns: u64) -> u64 {
    let keys = LaneKeys::new(&[key; 8]);
    let mut sum = 0u64;
    for turn in 0..turns {
        sum = sum.wrapping_add(group(&keys, turn.wrapping_mul(8)));
    }
    sum
}

/// Those of the eight numbers from this one.
fn group(keys: &LaneKeys, first: u64) -> u64 {
    let texts = [
        first.to_be_bytes(),
        first.wrapping_add(1).to_be_bytes(),
        first.wrapping_add(2).to_be_bytes(),
        first.wrapping_add(3).to_be_bytes(),
        first.wrapping_add(4).to_be_bytes(),
        first.wrapping_add(5).to_be_bytes(),
        first.wrapping_add(6).to_be_bytes(),
        first.wrapping_add(7).to_be_bytes(),
    ];
    let codes = keys.codes(&[
        &texts[0], &texts[1], &texts[2], &texts[3], &texts[4], &texts[5], &texts[6], &texts[7],
    ]);
    let mut sum = 0u64;
    for code in &codes {
        sum = sum.wrapping_add(u64::from(code[0]));
    }
    sum
}

/// The first bytes of so many groups of eight pads of 64 bytes under a key, which are computed side by side; the numbers of the pads
/// go from 0. Summed modulo 2^64.
pub(crate) fn pads(key: [u8; 32], turns: u64) -> u64 {
    let keys = [key; 8];
    let mut sum = 0u64;
    for turn in 0..turns {
        for pad in &blocks(&keys, &numbers_from(turn.wrapping_mul(8)), 0) {
            sum = sum.wrapping_add(u64::from(pad[0]));
        }
    }
    sum
}

/// Eight numbers from this one on.
fn numbers_from(first: u64) -> [u64; 8] {
    [
        first,
        first.wrapping_add(1),
        first.wrapping_add(2),
        first.wrapping_add(3),
        first.wrapping_add(4),
        first.wrapping_add(5),
        first.wrapping_add(6),
        first.wrapping_add(7),
    ]
}
