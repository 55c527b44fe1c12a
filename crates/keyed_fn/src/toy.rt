ghost use Rattle.std.specs.Prelude.{◌≡◌, ◌≤◌, ◌^◌, length};
ghost use Rattle.keyed_fn.specs.Toy.{toy_code, toy_pad, toy_prf, weighed_sum};

use crate::kept_key::KeptKey;
use crate::keyed::Keyed;

/// A keyed function that a person can compute, for vectors that are checked by hand. It keeps nothing
/// secret, and no program uses it.
#[derive(Clone, Copy)]
pub struct Toy;

impl Keyed for Toy {
    ghost use Rattle.std.specs.Prelude.{◌≡◌};
    ghost use Rattle.keyed_fn.specs.ToyLaws.{length-toy_prf, All-toy_prf, length-toy_pad, All-toy_pad, take-toy_pad};

    ghost prf = { toy_prf };

    ghost pad = { toy_pad };

    ghost prf_length = { length-toy_prf };

    ghost prf_bytes = { All-toy_prf };

    ghost pad_length = { length-toy_pad };

    ghost pad_bytes = { All-toy_pad };

    ghost pad_prefix = { take-toy_pad };

    fn prf(&self, key: &[u8; 32], input: &[u8]) -> [u8; 32] {
        let mut code = [0u8; 32];
        write_code(&mut code, key, sum_of(input));
        code
    }

    fn prf_kept(&self, key: &KeptKey, input: &[u8]) -> [u8; 32] {
        self.prf(key.bytes(), input)
    }

    fn pad_into(&self, key: &[u8; 32], n: u64, out: &mut [u8]) {
        write_pad(out, key, n);
    }
}

/// The weighed sum of the bytes, which may be any number of them.
fn sum_of(bytes: &[u8]) -> u8
    ensures { result ≡ weighed_sum bytes.now }
{
    let mut sum = 0u32;
    for (j, byte) in bytes.iter().enumerate() {
        let weight = (j % 256) as u32 + 1;
        sum = (sum + weight * u32::from(*byte)) % 256;
    }
    sum as u8
}

/// Writes as much of a code as fits.
fn write_code(out: &mut [u8], key: &[u8; 32], sum: u8)
    requires { length out.old ≤ 32 }
    ensures { out.new ≡ toy_code key.now sum (length out.old) }
{
    for (i, byte) in out.iter_mut().enumerate() {
        *byte = ((u32::from(key[i]) + u32::from(sum) + i as u32) % 256) as u8;
    }
}

/// Writes as much of a pad as fits.
fn write_pad(out: &mut [u8], key: &[u8; 32], n: u64)
    ensures { out.new ≡ toy_pad key.now n (length out.old) }
{
    for (i, byte) in out.iter_mut().enumerate() {
        *byte = ((u64::from(key[i % 32]) + n % 256) % 256) as u8;
    }
}
