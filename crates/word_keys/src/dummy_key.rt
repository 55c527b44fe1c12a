ghost use Rattle.std.specs.Prelude.{◌≡◌};
ghost use Rattle.keyed_fn.specs.DummyFormulas.{dummy_label, dummy_tag};
ghost use Rattle.keyed_fn.specs.KeyedFn.{keyed_fn};
ghost use Rattle.word_keys.specs.PadName.{dummy_block_name, dummy_cell_name};

use crate::pad_slot::PadSlot;
use keyed_fn::{KeptKey, Keyed};
use std::marker::Model;

/// The first number of the dummy blocks' tags and pads, above those of the dummy entries.
const FIRST_BLOCK: u64 = 1 << 32;

/// The keys of a setup's dummies, 32 bytes each: for their labels and tags, and for their pads, parts 8 and 9 for no
/// word, the first of them prepared. A contract sees both; nothing gives their bytes back, and neither leaves the client.
#[derive(Drop)]
pub struct DummyKey {
    label_key: KeptKey,
    pad_key: [u8; 32],
}

impl Model for DummyKey {
    ghost use Rattle.word_keys.specs.KeyPair.{KeyPair};

    ghost Value = { KeyPair };

    ghost view = { λ keys. record { label_key = keys.label_key; pad_key = keys.pad_key } };
}

impl DummyKey {
    /// Takes both keys.
    pub(crate) fn new(label_key: &[u8; 32], pad_key: [u8; 32]) -> DummyKey
        ensures { result ≡ record { label_key = label_key.now; pad_key = pad_key } }
    {
        DummyKey {
            label_key: KeptKey::new(label_key),
            pad_key,
        }
    }

    // Promise P97, also here; clauses: ensures
    /// The 16-byte label of dummy entry `i`, from 0.
    pub fn label<K: Keyed>(&self, keyed: &K, i: u32) -> [u8; 16]
        ensures { result ≡ dummy_label (keyed_fn K.prf K.pad) self.now.label_key i }
    {
        self.label_key.front_at(keyed, u64::from(i))
    }

    // Promise P97, also here; clauses: ensures
    /// The 16-byte tag of dummy block `j`, from 0.
    pub fn tag<K: Keyed>(&self, keyed: &K, j: u32) -> [u8; 16]
        ensures { result ≡ dummy_tag (keyed_fn K.prf K.pad) self.now.label_key j }
    {
        self.label_key.front_at(keyed, FIRST_BLOCK + u64::from(j))
    }

    // Promise P97, also here; clauses: ensures
    /// The pad of the cell of dummy entry `i`, from 0. It encrypts zeros, so a setup asks for each number once.
    pub fn cell_slot(&self, i: u32) -> PadSlot
        ensures { result ≡ dummy_cell_name self.now.pad_key i }
    {
        PadSlot::new(self.pad_key, u64::from(i))
    }

    // Promise P97, also here; clauses: ensures
    /// The pad of dummy block `j`, from 0, which is none of a cell's. It encrypts zeros, so a setup asks for each
    /// number once.
    pub fn block_slot(&self, j: u32) -> PadSlot
        ensures { result ≡ dummy_block_name self.now.pad_key j }
    {
        PadSlot::new(self.pad_key, FIRST_BLOCK + u64::from(j))
    }
}
