ghost use Rattle.std.specs.Prelude.{◌≡◌, ℕ, List, []};

use crate::key_block::{INNER_MASK, OUTER_MASK, key_block, mask_in_place};
use crate::state::Hmac;
use sha2::{Digest, Sha256};

/// A key of HMAC-SHA-256 that is prepared for many texts: both hash states after the key's block. A code
/// under it hashes the text and one more block alone, where a bare key has two blocks of its own hashed
/// first. Nothing gives the key back, and no call changes it.
#[derive(Drop)]
pub struct HmacKey {
    pub(crate) inner: Sha256,
    pub(crate) outer: Sha256,
}

impl HmacKey {
    ghost use Rattle.hmac_sha256.specs.Fips198.{hmac_of};
    ghost use Rattle.hmac_sha256.specs.IsMac.{IsMac, IsHmacKey};

    // Promise P92, also here; clauses: ensures
    /// Prepares a key of any length.
    pub fn new(key: &[u8]) -> HmacKey
        ensures { IsHmacKey result key.now }
    {
        let mut inner_block = key_block(key);
        let mut outer_block = inner_block;
        mask_in_place(&mut inner_block, INNER_MASK);
        mask_in_place(&mut outer_block, OUTER_MASK);
        let mut inner = Sha256::new();
        inner.update(inner_block.as_slice());
        let mut outer = Sha256::new();
        outer.update(outer_block.as_slice());
        HmacKey { inner, outer }
    }

    // Promise P92, also here; clauses: ensures
    /// Begins with this key and no text.
    pub fn begin(&self) -> Hmac
        ensures { (key : List ℕ) → IsHmacKey self.now key → IsMac result key [] }
    {
        Hmac {
            inner: copy_of(&self.inner),
            outer: copy_of(&self.outer),
        }
    }

    // Promise P92, also here; clauses: ensures
    /// The 32 bytes of the code of a text of any length under this key.
    pub fn code(&self, text: &[u8]) -> [u8; 32]
        ensures { (key : List ℕ) → IsHmacKey self.now key → result ≡ hmac_of key text.now }
    {
        let mut state = self.begin();
        state.update(text);
        state.finish()
    }
}

/// The same state of the hash once more.
fn copy_of(hasher: &Sha256) -> Sha256
    ensures { result ≡ hasher.now }
{
    match hasher.clone() {
        Ok(copy) => copy,
        Err(_) => unreachable!(),
    }
}
