ghost use Rattle.std.specs.Prelude.{◌≡◌, ◌++◌, ℕ, List, []};

use crate::hmac_key::HmacKey;
use sha2::{Digest, Sha256};

/// HMAC-SHA-256 of a text that comes in pieces, one after another.
#[derive(Drop)]
pub struct Hmac {
    pub(crate) inner: Sha256,
    pub(crate) outer: Sha256,
}

impl Hmac {
    ghost use Rattle.hmac_sha256.specs.Fips198.{hmac_of};
    ghost use Rattle.hmac_sha256.specs.IsMac.{IsMac};

    // Promise P92, also here; clauses: ensures
    /// Begins with a key of any length and no text.
    pub fn new(key: &[u8]) -> Hmac
        ensures { IsMac result key.now [] }
    {
        let HmacKey { inner, outer } = HmacKey::new(key);
        Hmac { inner, outer }
    }

    // Promise P92, also here; clauses: ensures
    /// Appends the bytes to the text.
    pub fn update(&mut self, bytes: &[u8])
        ensures { (key text : List ℕ) → IsMac self.old key text → IsMac self.new key (text ++ bytes.now) }
    {
        self.inner.update(bytes);
    }

    // Promise P92, also here; clauses: ensures
    /// The 32 bytes of the code of the whole text.
    pub fn finish(self) -> [u8; 32]
        ensures { (key text : List ℕ) → IsMac self key text → result ≡ hmac_of key text }
    {
        let Hmac { inner, mut outer } = self;
        let digest = inner.finalize();
        outer.update(digest.as_slice());
        outer.finalize()
    }
}
