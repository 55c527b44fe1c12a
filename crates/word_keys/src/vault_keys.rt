ghost use Rattle.std.specs.Prelude.{◌≡◌, ◌≤◌, length};
ghost use Rattle.keyed_fn.specs.KeyedFn.{keyed_fn};
ghost use Rattle.keyed_fn.specs.VaultFormulas.{vault_pad, vault_slot};
ghost use Rattle.keyed_fn.specs.Xored.{xored};

use keyed_fn::{KeptKey, Keyed, xor_long_pad};
use std::marker::Model;

/// The keys of a vault of encrypted texts, 32 bytes each: for slots, for pads and for tags, parts 10, 11 and 12 for no
/// word, those of slots and tags prepared. A contract sees them; nothing gives their bytes back, and none leaves the
/// client. Puts are numbered from 0.
#[derive(Drop)]
pub struct VaultKeys {
    slots: KeptKey,
    pads: [u8; 32],
    tags: KeptKey,
}

impl Model for VaultKeys {
    ghost use Rattle.keyed_fn.specs.VaultFormulas.{VaultSecrets};

    ghost Value = { VaultSecrets };

    ghost view = { λ keys. record { slots = keys.slots; pads = keys.pads; tags = keys.tags } };
}

impl VaultKeys {
    /// Takes the three keys.
    pub(crate) fn new(slots: &[u8; 32], pads: [u8; 32], tags: &[u8; 32]) -> VaultKeys
        ensures { result ≡ record { slots = slots.now; pads = pads; tags = tags.now } }
    {
        VaultKeys {
            slots: KeptKey::new(slots),
            pads,
            tags: KeptKey::new(tags),
        }
    }

    // Promise P97, also here; clauses: ensures
    /// The 16-byte slot of put `v`.
    pub fn slot<K: Keyed>(&self, keyed: &K, v: u32) -> [u8; 16]
        ensures { result ≡ vault_slot (keyed_fn K.prf K.pad) self.now.slots v }
    {
        self.slots.front_at(keyed, u64::from(v))
    }

    // Promise P97, also here; clauses: ensures
    /// XORs the pad of put `v` into a text of at most 65,536 bytes, which encrypts it, or decrypts what it encrypted. A
    /// client encrypts one text under each number. No memory is taken.
    pub fn seal<K: Keyed>(&self, keyed: &K, v: u32, text: &mut [u8])
        requires { length text.old ≤ 65536 }
        ensures { text.new ≡ xored text.old (vault_pad (keyed_fn K.prf K.pad) self.now.pads v (length text.old)) }
    {
        xor_long_pad(keyed, &self.pads, u64::from(v), text);
    }

    // Promise P97, also here; clauses: ensures
    /// The 32-byte tag of a text, which is a put's number, its identifier, 8 bytes each, high byte first, and its
    /// encrypted text. The caller joins it. No memory is taken.
    pub fn tag<K: Keyed>(&self, keyed: &K, text: &[u8]) -> [u8; 32]
        ensures { result ≡ K.prf self.now.tags text.now }
    {
        keyed.prf_kept(&self.tags, text)
    }
}
