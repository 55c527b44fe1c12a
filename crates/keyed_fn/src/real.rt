use crate::kept_key::KeptKey;
use crate::keyed::Keyed;
use hmac_sha256::hmac;

/// The keyed function of the store: HMAC-SHA-256 (FIPS 198-1), and pads of the ChaCha20 key stream
/// (RFC 8439).
#[derive(Clone, Copy)]
pub struct Real;

impl Keyed for Real {
    ghost use Rattle.hmac_sha256.specs.Fips198.{hmac_of};
    ghost use Rattle.hmac_sha256.proofs.Codes.{length-hmac_of, All-hmac_of};
    ghost use Rattle.chacha_stream.specs.Pad.{chacha_pad};
    ghost use Rattle.chacha_stream.proofs.Laws.{length-chacha_pad, All-chacha_pad, take-chacha_pad};

    ghost prf = { hmac_of };

    ghost pad = { chacha_pad };

    ghost prf_length = { length-hmac_of };

    ghost prf_bytes = { All-hmac_of };

    ghost pad_length = { length-chacha_pad };

    ghost pad_bytes = { All-chacha_pad };

    ghost pad_prefix = { take-chacha_pad };

    fn prf(&self, key: &[u8; 32], input: &[u8]) -> [u8; 32] {
        hmac(key, input)
    }

    fn prf_kept(&self, key: &KeptKey, input: &[u8]) -> [u8; 32] {
        key.hmac(input)
    }

    fn pad_into(&self, key: &[u8; 32], n: u64, out: &mut [u8]) {
        chacha_stream::pad_into(key, n, out);
    }
}
