ghost use Rattle.std.specs.Prelude.{◌≡◌};
ghost use Rattle.keyed_fn.specs.KeyedFn.{keyed_fn};
ghost use Rattle.keyed_fn.specs.VaultFormulas.{vault_secrets};

use crate::prepared_master::PreparedMaster;
use crate::vault_keys::VaultKeys;
use keyed_fn::Keyed;
use std::marker::Model;

/// The master key of a client, 32 bytes. Nothing gives the bytes back: it is prepared for a keyed function,
/// and what leaves it then are search tokens, a word's keys, the key mark and the keys of a
/// vault.
#[derive(Drop)]
pub struct MasterKey {
    bytes: [u8; 32],
}

impl Model for MasterKey {
    ghost use Rattle.std.specs.Prelude.{ℕ, List};

    ghost Value = { List ℕ };

    ghost view = { λ k. k.bytes };
}

impl MasterKey {
    /// Takes the 32 bytes of the key.
    pub fn new(bytes: [u8; 32]) -> MasterKey
        ensures { result ≡ bytes }
    {
        MasterKey { bytes }
    }

    /// Prepares the key for this keyed function, for the words of a command, or of many.
    pub fn prepare<'a, K: Keyed>(&self, keyed: &'a K) -> PreparedMaster<'a, K>
        ensures { result ≡ self.now }
    {
        PreparedMaster::new(keyed, &self.bytes)
    }

    // Promise P97, also here; clauses: ensures
    /// The keys of a vault of encrypted texts, under this key and this keyed function.
    pub fn vault<K: Keyed>(&self, keyed: &K) -> VaultKeys
        ensures { result ≡ vault_secrets (keyed_fn K.prf K.pad) self.now }
    {
        self.prepare(keyed).vault()
    }
}
