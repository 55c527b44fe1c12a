//! The rounds of RFC 8439, 2.1 to 2.3, on the states of eight lanes.

ghost use Rattle.std.specs.Prelude.{◌≡◌, ℕ, ◌<◌, map, slice_index};
ghost use Rattle.std.specs.List.{range_with_len};
ghost use Rattle.rand_chacha.specs.Block.{add32, xor_rotate, quarter_round, column_round, diagonal_round, double_rounds};
ghost use Rattle.rand_chacha.specs.Lanes.{lane};

use std::simd::u32x8;

#[inline(always)]
fn add(x: u32x8, y: u32x8) -> u32x8
    ensures { (j : ℕ) → j < 8 → slice_index result j ≡ add32 (slice_index x j) (slice_index y j) }
{
    x + y
}

#[inline(always)]
fn xor_rotate(x: u32x8, y: u32x8, k: u32) -> u32x8
    requires { (0 < k) × (k < 32) }
    ensures { (j : ℕ) → j < 8 → slice_index result j ≡ xor_rotate (slice_index x j) (slice_index y j) k }
{
    let z = x ^ y;
    (z << u32x8::splat(k)) | (z >> u32x8::splat(32 - k))
}

#[inline(always)]
fn quarter_round(a: u32x8, b: u32x8, c: u32x8, d: u32x8) -> (u32x8, u32x8, u32x8, u32x8)
    ensures { (j : ℕ) → j < 8
        → (slice_index result.0 j, slice_index result.1 j, slice_index result.2 j, slice_index result.3 j)
        ≡ quarter_round (slice_index a j) (slice_index b j) (slice_index c j) (slice_index d j) }
{
    let a1 = add(a, b);
    let d1 = xor_rotate(d, a1, 16);
    let c1 = add(c, d1);
    let b1 = xor_rotate(b, c1, 12);
    let a2 = add(a1, b1);
    let d2 = xor_rotate(d1, a2, 8);
    let c2 = add(c1, d2);
    let b2 = xor_rotate(b1, c2, 7);
    (a2, b2, c2, d2)
}

#[inline(always)]
fn column_round(x: [u32x8; 16]) -> [u32x8; 16]
    ensures { (j : ℕ) → j < 8 → lane j result ≡ column_round (lane j x) }
{
    let [
        x0,
        x1,
        x2,
        x3,
        x4,
        x5,
        x6,
        x7,
        x8,
        x9,
        x10,
        x11,
        x12,
        x13,
        x14,
        x15,
    ] = x;
    let (x0, x4, x8, x12) = quarter_round(x0, x4, x8, x12);
    let (x1, x5, x9, x13) = quarter_round(x1, x5, x9, x13);
    let (x2, x6, x10, x14) = quarter_round(x2, x6, x10, x14);
    let (x3, x7, x11, x15) = quarter_round(x3, x7, x11, x15);
    [
        x0, x1, x2, x3, x4, x5, x6, x7, x8, x9, x10, x11, x12, x13, x14, x15,
    ]
}

#[inline(always)]
fn diagonal_round(x: [u32x8; 16]) -> [u32x8; 16]
    ensures { (j : ℕ) → j < 8 → lane j result ≡ diagonal_round (lane j x) }
{
    let [
        x0,
        x1,
        x2,
        x3,
        x4,
        x5,
        x6,
        x7,
        x8,
        x9,
        x10,
        x11,
        x12,
        x13,
        x14,
        x15,
    ] = x;
    let (x0, x5, x10, x15) = quarter_round(x0, x5, x10, x15);
    let (x1, x6, x11, x12) = quarter_round(x1, x6, x11, x12);
    let (x2, x7, x8, x13) = quarter_round(x2, x7, x8, x13);
    let (x3, x4, x9, x14) = quarter_round(x3, x4, x9, x14);
    [
        x0, x1, x2, x3, x4, x5, x6, x7, x8, x9, x10, x11, x12, x13, x14, x15,
    ]
}

/// The states behind the twenty rounds, a round on the columns and one on the diagonals in turn.
pub(crate) fn twenty_rounds(first: [u32x8; 16]) -> [u32x8; 16]
    ensures { (j : ℕ) → j < 8 → lane j result ≡ double_rounds 10 (lane j first) }
{
    let mut x = first;
    'rounds: for _round in 0..10u32 {
        x = diagonal_round(column_round(x));
    }
    x
}

/// The sums of two states, word by word.
pub(crate) fn sums(x: &[u32x8; 16], y: &[u32x8; 16]) -> [u32x8; 16]
    ensures { (j : ℕ) → j < 8
        → lane j result ≡ map (λ k. add32 (slice_index (lane j x.now) k) (slice_index (lane j y.now) k)) (range_with_len 0 16) }
{
    [
        add(x[0], y[0]),
        add(x[1], y[1]),
        add(x[2], y[2]),
        add(x[3], y[3]),
        add(x[4], y[4]),
        add(x[5], y[5]),
        add(x[6], y[6]),
        add(x[7], y[7]),
        add(x[8], y[8]),
        add(x[9], y[9]),
        add(x[10], y[10]),
        add(x[11], y[11]),
        add(x[12], y[12]),
        add(x[13], y[13]),
        add(x[14], y[14]),
        add(x[15], y[15]),
    ]
}
