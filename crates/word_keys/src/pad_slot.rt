ghost use Rattle.std.specs.Prelude.{◌≡◌, ◌≤◌, length};
ghost use Rattle.keyed_fn.specs.KeyedFn.{keyed_fn};
ghost use Rattle.keyed_fn.specs.Xored.{xored};
ghost use Rattle.word_keys.specs.PadName.{named_pad};

use keyed_fn::{Keyed, xor_pad};
use std::marker::Model;

/// One pad, by its key and its number, that is still to be spent. It can't be copied, cloned or dropped,
/// and only [`seal`] takes it.
pub struct PadSlot {
    key: [u8; 32],
    number: u64,
}

impl Model for PadSlot {
    ghost use Rattle.word_keys.specs.PadName.{PadName};

    ghost Value = { PadName };

    ghost view = { λ s. record { key = s.key; number = s.number } };
}

impl PadSlot {
    /// Names a pad by its key and its number.
    pub(crate) fn new(key: [u8; 32], number: u64) -> PadSlot
        ensures { result ≡ record { key = key; number = number } }
    {
        PadSlot { key, number }
    }
}

// Promise P97, also here; clauses: ensures
/// Spends a slot: XORs its pad into a plaintext of at most 2,048 bytes.
pub fn seal<K: Keyed>(slot: PadSlot, keyed: &K, plaintext: &mut [u8])
    requires { length plaintext.old ≤ 2048 }
    ensures { plaintext.new ≡ xored plaintext.old (named_pad (keyed_fn K.prf K.pad) slot (length plaintext.old)) }
{
    let PadSlot { key, number } = slot;
    xor_pad(keyed, &key, number, plaintext);
}
