ghost use Rattle.std.specs.Prelude.{◌≡◌};
ghost use Rattle.keyed_fn.specs.KeyedFn.{keyed_fn};
ghost use Rattle.keyed_fn.specs.KeyFormulas.{place_tag};

use crate::place_tags::PlaceTags;
use keyed_fn::{Keyed, front_at};
use std::marker::Model;

/// A word's key of part 6, 32 bytes, which tags the places of its list's blocks. Nothing gives its bytes
/// back.
#[derive(Drop)]
pub struct PlaceKey {
    bytes: [u8; 32],
}

impl Model for PlaceKey {
    ghost use Rattle.std.specs.Prelude.{ℕ, List};

    ghost Value = { List ℕ };

    ghost view = { λ k. k.bytes };
}

impl PlaceKey {
    /// Takes the 32 bytes of the key.
    pub(crate) fn new(bytes: [u8; 32]) -> PlaceKey
        ensures { result ≡ bytes }
    {
        PlaceKey { bytes }
    }

    /// The 16-byte place tag of block `i` of the list, from 0.
    pub fn tag<K: Keyed>(&self, keyed: &K, i: u32) -> [u8; 16]
        ensures { result ≡ place_tag (keyed_fn K.prf K.pad) self.now i }
    {
        front_at(keyed, &self.bytes, u64::from(i))
    }

    // Promise P97, also here; clauses: ensures
    /// The tags of the list's blocks, prepared for many.
    pub fn tags<'a, K: Keyed>(&self, keyed: &'a K) -> PlaceTags<'a, K>
        ensures { result ≡ self.now }
    {
        PlaceTags::new(keyed, &self.bytes)
    }
}
