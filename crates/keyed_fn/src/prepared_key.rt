ghost use Rattle.std.specs.Prelude.{◌≡◌, take};
ghost use Rattle.std.specs.Int.{w64, to_be_bytes};

use crate::front::front_of;
use crate::kept_key::KeptKey;
use crate::keyed::Keyed;
use std::marker::{Model, PhantomData};

/// A key of 32 bytes, prepared for more than one value of this function under it. A contract sees the
/// bytes; nothing gives them back.
pub struct PreparedKey<K: Keyed> {
    key: KeptKey,
    of: PhantomData<K>,
}

impl<K: Keyed> Model for PreparedKey<K> {
    ghost use Rattle.std.specs.Prelude.{ℕ, List};

    ghost Value = { List ℕ };

    ghost view = { λ key. key.key };
}

impl<K: Keyed> Drop for PreparedKey<K> {
    fn drop(self) {
        let PreparedKey { key: _, of: _ } = self;
    }
}

impl<K: Keyed> PreparedKey<K> {
    // Promise P95, also here; clauses: ensures
    /// Prepares the key of these bytes.
    pub fn new(_keyed: &K, bytes: &[u8; 32]) -> PreparedKey<K>
        ensures { result ≡ bytes.now }
    {
        PreparedKey {
            key: KeptKey::new(bytes),
            of: PhantomData,
        }
    }

    // Promise P95, also here; clauses: ensures
    /// The 32 bytes of the function under the key at `input`, which may have any length.
    pub fn prf(&self, keyed: &K, input: &[u8]) -> [u8; 32]
        ensures { result ≡ K.prf self.now input.now }
    {
        keyed.prf_kept(&self.key, input)
    }

    // Promise P95, also here; clauses: ensures
    /// The first 16 bytes of the function under the key at a number, which is written high byte first.
    pub fn front_at(&self, keyed: &K, number: u64) -> [u8; 16]
        ensures { result ≡ take 16 (K.prf self.now (to_be_bytes w64 number)) }
    {
        self.key.front_at(keyed, number)
    }
}
