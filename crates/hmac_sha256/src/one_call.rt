ghost use Rattle.std.specs.Prelude.{◌≡◌};
ghost use Rattle.hmac_sha256.specs.Fips198.{hmac_of};

use crate::state::Hmac;

// Promise P92 (caller): HMAC-SHA-256 is that of FIPS 198-1, for every key, text and division of the text into pieces.
//   clauses: ensures; assumes: earlier calls; not: That its values look random, which is assumed. The kit's `sha256` is taken to be FIPS 180-4.
/// HMAC-SHA-256 (FIPS 198-1) of a text under a key, both of any length: 32 bytes.
pub fn hmac(key: &[u8], text: &[u8]) -> [u8; 32]
    ensures { result ≡ hmac_of key.now text.now }
{
    let mut state = Hmac::new(key);
    state.update(text);
    state.finish()
}
