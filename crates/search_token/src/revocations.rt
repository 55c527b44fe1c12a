ghost use Rattle.std.specs.Prelude.{◌≡◌};
ghost use Rattle.keyed_fn.specs.KeyedFn.{keyed_fn};
ghost use Rattle.keyed_fn.specs.KeyFormulas.{revocation};

use keyed_fn::{Keyed, PreparedKey};
use std::marker::Model;

/// The revocation numbers of a word, for one who asks more than one: the key of part 5, prepared. A
/// contract sees the key.
pub struct Revocations<K: Keyed> {
    key: PreparedKey<K>,
}

impl<K: Keyed> Model for Revocations<K> {
    ghost use Rattle.std.specs.Prelude.{ℕ, List};

    ghost Value = { List ℕ };

    ghost view = { λ numbers. numbers.key };
}

impl<K: Keyed> Drop for Revocations<K> {
    fn drop(self) {
        let Revocations { key: _ } = self;
    }
}

impl<K: Keyed> Revocations<K> {
    /// Prepares the 32 bytes of the key.
    pub fn new(keyed: &K, key: &[u8; 32]) -> Revocations<K>
        ensures { result ≡ key.now }
    {
        Revocations {
            key: PreparedKey::new(keyed, key),
        }
    }

    // Promise P96, also here; clauses: ensures
    /// The 16-byte revocation number of an identifier for the word.
    pub fn number(&self, keyed: &K, id: u64) -> [u8; 16]
        ensures { result ≡ revocation (keyed_fn K.prf K.pad) self.now id }
    {
        self.key.front_at(keyed, id)
    }
}
