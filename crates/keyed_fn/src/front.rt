ghost use Rattle.std.specs.Prelude.{◌≡◌, take};
ghost use Rattle.std.specs.Int.{w64, to_be_bytes};

use crate::keyed::Keyed;

/// The first 16 bytes of a value of the function.
pub fn front_of(value: &[u8; 32]) -> [u8; 16]
    ensures { result ≡ take 16 value.now }
{
    let mut front = [0u8; 16];
    front.copy_from_slice(&value[..16]);
    front
}

/// The first 16 bytes of the function under the key at a number, which is written high byte first. Where
/// more than one number is asked of a key, `PreparedKey` has half the work.
pub fn front_at<K: Keyed>(keyed: &K, key: &[u8; 32], number: u64) -> [u8; 16]
    ensures { result ≡ take 16 (K.prf key.now (to_be_bytes w64 number)) }
{
    front_of(&keyed.prf(key, &number.to_be_bytes()))
}
