ghost use Rattle.std.specs.Prelude.{◌≡◌};
ghost use Rattle.keyed_fn.specs.KeyedFn.{keyed_fn};
ghost use Rattle.keyed_fn.specs.KeyFormulas.{plus_label};

use keyed_fn::{Keyed, PreparedKey};
use std::marker::Model;

/// The labels of a word's additions, for one who asks more than one: the key of part 3, prepared. A
/// contract sees the key.
pub struct PlusLabels<K: Keyed> {
    key: PreparedKey<K>,
}

impl<K: Keyed> Model for PlusLabels<K> {
    ghost use Rattle.std.specs.Prelude.{ℕ, List};

    ghost Value = { List ℕ };

    ghost view = { λ labels. labels.key };
}

impl<K: Keyed> Drop for PlusLabels<K> {
    fn drop(self) {
        let PlusLabels { key: _ } = self;
    }
}

impl<K: Keyed> PlusLabels<K> {
    /// Prepares the 32 bytes of the key.
    pub fn new(keyed: &K, key: &[u8; 32]) -> PlusLabels<K>
        ensures { result ≡ key.now }
    {
        PlusLabels {
            key: PreparedKey::new(keyed, key),
        }
    }

    // Promise P96, also here; clauses: ensures
    /// The 16-byte label of the word's addition number `c`, from 0.
    pub fn label(&self, keyed: &K, c: u64) -> [u8; 16]
        ensures { result ≡ plus_label (keyed_fn K.prf K.pad) self.now c }
    {
        self.key.front_at(keyed, c)
    }
}
