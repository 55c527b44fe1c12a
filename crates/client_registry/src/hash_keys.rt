ghost use Rattle.std.specs.Prelude.{◌≡◌};

use core::hash::keyed_hasher;
use std::hash::{BuildHasher, DefaultHasher};

/// The two numbers of a client under which its words and identifiers are hashed (SipHash-1-3).
///
/// Whoever writes a document chooses its words: under a hasher that is known, words can be made that all collide.
/// So the two numbers are to be secret, and they are to be the same in each run of a client, so that runs are.
#[derive(Clone, Copy, PartialEq, Eq)]
pub struct HashKeys {
    first: u64,
    second: u64,
}

impl HashKeys {
    ghost use Rattle.client_registry.specs.HashNumbers.{hash_numbers};

    /// The keys of these two numbers.
    pub fn new(first: u64, second: u64) -> HashKeys
        ensures { hash_numbers result ≡ (first, second) }
    {
        HashKeys { first, second }
    }
}

impl BuildHasher for HashKeys {
    type Hasher = DefaultHasher;

    ghost use Rattle.client_registry.specs.HashNumbers.{hasher_under};

    ghost build_hasher = { hasher_under };

    fn build_hasher(&self) -> DefaultHasher {
        keyed_hasher(self.first, self.second)
    }
}
