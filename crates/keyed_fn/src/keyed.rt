ghost use Rattle.std.specs.Prelude.{◌≡◌, ◌<◌, ◌≤◌, ◌^◌, ℕ, List, length, take, All};
ghost use Rattle.keyed_fn.specs.KeyedFn.{keyed_fn, IsKeyedFn};

use crate::kept_key::KeptKey;

/// A pseudorandom function and a pad, both under a key of 32 bytes.
///
/// The ghost members `prf` and `pad` don't depend on the value: each type that implements this is one
/// pair of functions. They are defined for lists of any length.
pub trait Keyed {
    ghost prf: { List ℕ → List ℕ → List ℕ };

    ghost pad: { List ℕ → ℕ → ℕ → List ℕ };

    // Promise P94 (caller): `Real` and `Toy` are keyed functions: their values have the stated sizes, and a shorter pad is a prefix of a longer one.
    //   clauses: ensures; assumes: sizes in bounds
    /// The 32 bytes of the function under `key` at `input`, which may have any length.
    fn prf(&self, key: &[u8; 32], input: &[u8]) -> [u8; 32]
        ensures { result ≡ prf key.now input.now };

    // Promise P95, also here; clauses: ensures
    /// The same 32 bytes under a key that is kept prepared.
    fn prf_kept(&self, key: &KeptKey, input: &[u8]) -> [u8; 32]
        ensures { result ≡ prf key.now input.now };

    // Promise P94, also here; clauses: ensures
    /// Fills `out` with the front of pad number `n` under `key`. At most 2^38 bytes, which is as far
    /// as the keystream of RFC 8439 goes.
    fn pad_into(&self, key: &[u8; 32], n: u64, out: &mut [u8])
        requires { length out.old ≤ 2 ^ 38 }
        ensures { out.new ≡ pad key.now n (length out.old) };

    // The laws: sizes, each value a byte, and a shorter pad is the front of a longer one.

    ghost prf_length: { (key input : List ℕ) → length (prf key input) ≡ 32 };

    ghost prf_bytes: { (key input : List ℕ) → All (λ b. b < 256) (prf key input) };

    ghost pad_length: { (key : List ℕ) (n len : ℕ) → length (pad key n len) ≡ len };

    ghost pad_bytes: { (key : List ℕ) (n len : ℕ) → All (λ b. b < 256) (pad key n len) };

    ghost pad_prefix: { (key : List ℕ) (n a b : ℕ) → a ≤ b → take a (pad key n b) ≡ pad key n a };

    // Promise P94, also here
    /// The laws together, as definitions over any keyed function take them.
    ghost laws: { IsKeyedFn (keyed_fn prf pad) } = { record {
      prf_length = prf_length;
      prf_bytes = prf_bytes;
      pad_length = pad_length;
      pad_bytes = pad_bytes;
      pad_prefix = pad_prefix;
    } };
}
