ghost use Rattle.std.specs.Prelude.{◌≡◌, take};
ghost use Rattle.std.specs.Int.{w64, to_be_bytes};
ghost use Rattle.hmac_sha256.specs.Fips198.{hmac_of};

use crate::front::front_of;
use crate::keyed::Keyed;
use hmac_sha256::HmacKey;
use std::marker::Model;

/// A key of 32 bytes, prepared for more than one value: with it stand both states of HMAC after the key. It names no keyed
/// function, so what keeps it needn't either. A contract sees the bytes; nothing gives them back.
#[derive(Drop)]
pub struct KeptKey {
    bytes: [u8; 32],
    hmac: HmacKey,
}

impl Model for KeptKey {
    ghost use Rattle.std.specs.Prelude.{ℕ, List};
    ghost use Rattle.hmac_sha256.specs.IsMac.{IsHmacKey};

    ghost Value = { List ℕ };

    ghost view = { λ key. key.bytes };

    ghost invariant = { λ key. IsHmacKey key.hmac key.bytes };
}

impl KeptKey {
    // Promise P95 (caller): A prepared key gives the same values as its 32 bytes, under every keyed function.
    //   clauses: ensures
    /// Prepares the key of these bytes.
    pub fn new(bytes: &[u8; 32]) -> KeptKey
        ensures { result ≡ bytes.now }
    {
        KeptKey {
            bytes: *bytes,
            hmac: HmacKey::new(bytes),
        }
    }

    /// The first 16 bytes of a keyed function under the key at a number, which is written high byte first.
    pub fn front_at<K: Keyed>(&self, keyed: &K, number: u64) -> [u8; 16]
        ensures { result ≡ take 16 (K.prf self.now (to_be_bytes w64 number)) }
    {
        front_of(&keyed.prf_kept(self, &number.to_be_bytes()))
    }

    /// HMAC under the key.
    pub(crate) fn hmac(&self, input: &[u8]) -> [u8; 32]
        ensures { result ≡ hmac_of self.now input.now }
    {
        self.hmac.code(input)
    }

    /// The bytes of the key.
    pub(crate) fn bytes(&self) -> &[u8; 32]
        ensures { result.now ≡ self.now }
    {
        &self.bytes
    }
}
