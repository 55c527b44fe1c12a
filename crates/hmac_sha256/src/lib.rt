//! HMAC-SHA-256, which derives keys, labels and revocation numbers: FIPS 198-1 over SHA-256 of FIPS 180-4. It depends
//! on `sha2` and cites its definition of SHA-256. `Hmac` takes a text in pieces; `HmacKey` hashes the key's own
//! blocks once for many texts, which halves the work of a short text. Key and text may have any length, since that
//! definition of SHA-256 is total.
//! Proved: `hmac` is `hmac_of` of specs/Fips198.antt, which reads as section 4 of FIPS 198-1; `Hmac` and `HmacKey`
//! give the same, however the text is cut.
//! Not for: checking a code that somebody sent; it compares nothing.
//! Side: both.

#![tactic(auto)]

mod hmac_key;
mod key_block;
mod one_call;
mod state;

pub use hmac_key::HmacKey;
pub use one_call::hmac;
pub use state::Hmac;
