ghost use Rattle.std.specs.Prelude.{◌≡◌};
ghost use Rattle.keyed_fn.specs.KeyedFn.{keyed_fn};
ghost use Rattle.keyed_fn.specs.KeyFormulas.{revocation};

use keyed_fn::{KeptKey, Keyed};
use std::marker::Model;

/// A word's key of part 5, 32 bytes, prepared, which gives its revocation numbers. Nothing gives its bytes back. It
/// serves each deletion of a document with the word, so a client that keeps it derives and prepares it once.
#[derive(Drop)]
pub struct RevocationKey {
    key: KeptKey,
}

impl Model for RevocationKey {
    ghost use Rattle.std.specs.Prelude.{ℕ, List};

    ghost Value = { List ℕ };

    ghost view = { λ k. k.key };
}

impl RevocationKey {
    /// Takes the 32 bytes of the key.
    pub(crate) fn new(bytes: &[u8; 32]) -> RevocationKey
        ensures { result ≡ bytes.now }
    {
        RevocationKey {
            key: KeptKey::new(bytes),
        }
    }

    // Promise P97, also here; clauses: ensures
    /// The 16-byte revocation number of an identifier for the word.
    pub fn number<K: Keyed>(&self, keyed: &K, id: u64) -> [u8; 16]
        ensures { result ≡ revocation (keyed_fn K.prf K.pad) self.now id }
    {
        self.key.front_at(keyed, id)
    }
}
