//! The first block of a pad, computed alone: a generator would make four blocks at once.

ghost use Rattle.std.specs.Prelude.{◌≡◌, ◌/◌, ◌%◌, ◌^◌, ◌<◌, map, slice_index, flat_map};
ghost use Rattle.std.specs.Int.{w32, to_le_bytes};
ghost use Rattle.std.specs.List.{range_with_len};
ghost use Rattle.rand_chacha.specs.Block.{add32, xor_rotate, quarter_round, column_round, diagonal_round, double_rounds, initial_state};
ghost use Rattle.rand_chacha.specs.ChaCha.{key_of};
ghost use Rattle.chacha_stream.specs.Pad.{chacha_pad};

use rand_core::utils::read_u32;

#[inline(always)]
fn add(x: u32, y: u32) -> u32
    ensures { result ≡ add32 x y }
{
    x.wrapping_add(y)
}

#[inline(always)]
fn xor_rotate(x: u32, y: u32, k: u32) -> u32
    requires { k < 32 }
    ensures { result ≡ xor_rotate x y k }
{
    (x ^ y).rotate_left(k)
}

#[inline(always)]
fn quarter_round(a: u32, b: u32, c: u32, d: u32) -> (u32, u32, u32, u32)
    ensures { result ≡ quarter_round a b c d }
{
    let a1 = add(a, b);
    let d1 = xor_rotate(d, a1, 16);
    let c1 = add(c, d1);
    let b1 = xor_rotate(b, c1, 12);
    let a2 = add(a1, b1);
    let d2 = xor_rotate(d1, a2, 8);
    let c2 = add(c1, d2);
    let b2 = xor_rotate(b1, c2, 7);
    (a2, b2, c2, d2)
}

#[inline(always)]
fn column_round(x: [u32; 16]) -> [u32; 16]
    ensures { result ≡ column_round x }
{
    let [
        x0,
        x1,
        x2,
        x3,
        x4,
        x5,
        x6,
        x7,
        x8,
        x9,
        x10,
        x11,
        x12,
        x13,
        x14,
        x15,
    ] = x;
    let (x0, x4, x8, x12) = quarter_round(x0, x4, x8, x12);
    let (x1, x5, x9, x13) = quarter_round(x1, x5, x9, x13);
    let (x2, x6, x10, x14) = quarter_round(x2, x6, x10, x14);
    let (x3, x7, x11, x15) = quarter_round(x3, x7, x11, x15);
    [
        x0, x1, x2, x3, x4, x5, x6, x7, x8, x9, x10, x11, x12, x13, x14, x15,
    ]
}

#[inline(always)]
fn diagonal_round(x: [u32; 16]) -> [u32; 16]
    ensures { result ≡ diagonal_round x }
{
    let [
        x0,
        x1,
        x2,
        x3,
        x4,
        x5,
        x6,
        x7,
        x8,
        x9,
        x10,
        x11,
        x12,
        x13,
        x14,
        x15,
    ] = x;
    let (x0, x5, x10, x15) = quarter_round(x0, x5, x10, x15);
    let (x1, x6, x11, x12) = quarter_round(x1, x6, x11, x12);
    let (x2, x7, x8, x13) = quarter_round(x2, x7, x8, x13);
    let (x3, x4, x9, x14) = quarter_round(x3, x4, x9, x14);
    [
        x0, x1, x2, x3, x4, x5, x6, x7, x8, x9, x10, x11, x12, x13, x14, x15,
    ]
}

/// The state behind the twenty rounds, a round on the columns and one on the diagonals in turn.
fn twenty_rounds(first: [u32; 16]) -> [u32; 16]
    ensures { result ≡ double_rounds 10 first }
{
    let mut x = first;
    'rounds: for _round in 0..10u32 {
        x = diagonal_round(column_round(x));
    }
    x
}

/// The sums of two states, word by word.
fn sums(x: &[u32; 16], y: &[u32; 16]) -> [u32; 16]
    ensures { result ≡ map (λ k. add32 (slice_index x.now k) (slice_index y.now k)) (range_with_len 0 16) }
{
    [
        add(x[0], y[0]),
        add(x[1], y[1]),
        add(x[2], y[2]),
        add(x[3], y[3]),
        add(x[4], y[4]),
        add(x[5], y[5]),
        add(x[6], y[6]),
        add(x[7], y[7]),
        add(x[8], y[8]),
        add(x[9], y[9]),
        add(x[10], y[10]),
        add(x[11], y[11]),
        add(x[12], y[12]),
        add(x[13], y[13]),
        add(x[14], y[14]),
        add(x[15], y[15]),
    ]
}

#[inline(always)]
fn low(n: u64) -> u32
    ensures { result ≡ n % 2 ^ 32 }
{
    (n & 0xffff_ffff) as u32
}

#[inline(always)]
fn high(n: u64) -> u32
    ensures { result ≡ n / 2 ^ 32 }
{
    (n >> 32) as u32
}

/// The constants, the key, the counter 0 and the nonce: a word of zeros, the number's low word and its high one.
fn first_state(key: &[u8; 32], n: u64) -> [u32; 16]
    ensures { result ≡ initial_state (key_of key.now) 0 n }
{
    [
        0x6170_7865,
        0x3320_646e,
        0x7962_2d32,
        0x6b20_6574,
        read_u32(key, 0),
        read_u32(key, 1),
        read_u32(key, 2),
        read_u32(key, 3),
        read_u32(key, 4),
        read_u32(key, 5),
        read_u32(key, 6),
        read_u32(key, 7),
        0,
        0,
        low(n),
        high(n),
    ]
}

/// The bytes of these words, each low byte first.
fn bytes_of(words: &[u32; 16]) -> [u8; 64]
    ensures { result ≡ flat_map (to_le_bytes w32) words.now }
{
    let mut bytes = [0u8; 64];
    for k in 0..16 {
        bytes[4 * k..4 * k + 4].copy_from_slice(&words[k].to_le_bytes());
    }
    bytes
}

/// The first 64 bytes of pad number `n`.
pub(crate) fn first_block(key: &[u8; 32], n: u64) -> [u8; 64]
    ensures { result ≡ chacha_pad key.now n 64 }
{
    let first = first_state(key, n);
    let last = twenty_rounds(first);
    bytes_of(&sums(&last, &first))
}
