ghost use Rattle.std.specs.Prelude.{◌≡◌};
ghost use Rattle.keyed_fn.specs.KeyedFn.{keyed_fn};
ghost use Rattle.keyed_fn.specs.KeyFormulas.{place_tag};

use keyed_fn::{Keyed, PreparedKey};
use std::marker::Model;

/// The place tags of a list of more than one block: the word's key of part 6, prepared for the keyed function that it is
/// held with. A contract sees the key.
pub struct PlaceTags<'a, K: Keyed> {
    keyed: &'a K,
    key: PreparedKey<K>,
}

impl<'a, K: Keyed> Model for PlaceTags<'a, K> {
    ghost use Rattle.std.specs.Prelude.{ℕ, List};

    ghost Value = { List ℕ };

    ghost view = { λ tags. tags.key };
}

impl<K: Keyed> Drop for PlaceTags<'_, K> {
    fn drop(self) {
        let PlaceTags { keyed: _, key: _ } = self;
    }
}

impl<'a, K: Keyed> PlaceTags<'a, K> {
    /// Prepares the 32 bytes of the key.
    pub(crate) fn new(keyed: &'a K, key: &[u8; 32]) -> PlaceTags<'a, K>
        ensures { result ≡ key.now }
    {
        PlaceTags {
            keyed,
            key: PreparedKey::new(keyed, key),
        }
    }

    // Promise P97, also here; clauses: ensures
    /// The 16-byte place tag of block `i` of the list, from 0.
    pub fn tag(&self, i: u32) -> [u8; 16]
        ensures { result ≡ place_tag (keyed_fn K.prf K.pad) self.now i }
    {
        self.key.front_at(self.keyed, u64::from(i))
    }
}
