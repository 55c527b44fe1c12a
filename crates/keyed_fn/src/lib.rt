//! The two keyed functions that make all keys, labels and ciphertexts: a pseudorandom function of 32 bytes, and
//! keystream of any length. `Keyed` is the trait that all code above is written over; its ghost members are the
//! functions, so a contract names a label or a key by the formulas of specs/KeyFormulas.antt, or by those of
//! specs/VaultFormulas.antt if it belongs to a vault of texts. `Real` is HMAC-SHA-256
//! with ChaCha20, `Toy` is for tests. `PreparedKey` hashes a key's own block once for many values; `KeptKey` does so
//! without naming a keyed function, so that a client can keep keys of words and have no type parameter. It knows no
//! word, list or table.
//! Proved: `Real` and `Toy` keep the laws of specs/KeyedFn.antt; a prepared key gives the values of its key.
//! Side: both.

#![tactic(auto)]

mod front;
mod kept_key;
mod keyed;
mod padded_bytes;
mod prepared_key;
mod real;
mod toy;

pub use front::{front_at, front_of};
pub use kept_key::KeptKey;
pub use keyed::Keyed;
pub use padded_bytes::{xor_long_pad, xor_pad};
pub use prepared_key::PreparedKey;
pub use real::Real;
pub use toy::Toy;
