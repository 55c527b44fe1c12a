ghost use Rattle.std.specs.Prelude.{◌≡◌};
ghost use Rattle.keyed_fn.specs.KeyedFn.{keyed_fn};
ghost use Rattle.keyed_fn.specs.KeyFormulas.{plus_label};
ghost use Rattle.word_keys.specs.PadName.{plus_name};

use crate::pad_slot::PadSlot;
use keyed_fn::{KeptKey, Keyed};
use std::marker::Model;

/// The keys of a word's additions, 32 bytes each: for their labels and for their pads, parts 3 and 4, the
/// first of them prepared. A contract sees both; nothing gives their bytes back. They serve each addition of the
/// word, so a client that keeps them derives and prepares them once.
#[derive(Drop)]
pub struct PlusKeys {
    label_key: KeptKey,
    pad_key: [u8; 32],
}

impl Model for PlusKeys {
    ghost use Rattle.word_keys.specs.KeyPair.{KeyPair};

    ghost Value = { KeyPair };

    ghost view = { λ keys. record { label_key = keys.label_key; pad_key = keys.pad_key } };
}

impl PlusKeys {
    /// Takes both keys.
    pub(crate) fn new(label_key: &[u8; 32], pad_key: [u8; 32]) -> PlusKeys
        ensures { result ≡ record { label_key = label_key.now; pad_key = pad_key } }
    {
        PlusKeys {
            label_key: KeptKey::new(label_key),
            pad_key,
        }
    }

    // Promise P97, also here; clauses: ensures
    /// The 16-byte label of addition `c`, from 0.
    pub fn label<K: Keyed>(&self, keyed: &K, c: u32) -> [u8; 16]
        ensures { result ≡ plus_label (keyed_fn K.prf K.pad) self.now.label_key c }
    {
        self.label_key.front_at(keyed, u64::from(c))
    }

    // Promise P97, also here; clauses: ensures
    /// The pad of addition `c`, from 0. It encrypts 8 bytes.
    pub fn slot(&self, c: u32) -> PadSlot
        ensures { result ≡ plus_name self.now.pad_key c }
    {
        PadSlot::new(self.pad_key, u64::from(c))
    }
}
