ghost use Rattle.std.specs.Prelude.{◌≡◌, ◌^◌, ◌≤◌, length};
ghost use Rattle.rand_chacha.specs.ChaCha.{key_of};
ghost use Rattle.chacha_stream.specs.Pad.{chacha_pad};
ghost use Rattle.chacha_stream.specs.Xored.{xored};

use crate::first_block::first_block;
use rand_chacha::ChaCha20Rng;
use rand_core::utils::NextWord;
use rand_core::{Rng, SeedableRng};

// Promise P93 (caller): A pad is the key stream of RFC 8439 under its key and number.
//   clauses: ensures; assumes: sizes in bounds; not: That pads look random, which is assumed.
/// Writes pad number `n` over `out`: the first bytes of the ChaCha20 key stream (RFC 8439, 2.4) under
/// `key`, the nonce being four zero bytes and then `n`, low byte first, the block counter from 0.
///
/// At most 2^38 bytes, which are the 2^32 blocks of 64 bytes that the counter of the standard can number.
pub fn pad_into(key: &[u8; 32], n: u64, out: &mut [u8])
    requires { length out.old ≤ 2 ^ 38 }
    ensures { out.new ≡ chacha_pad key.now n (length out.old) }
{
    if out.len() <= 64 {
        let block = first_block(key, n);
        out.copy_from_slice(&block[..out.len()]);
    } else {
        fill_out(key, n, out);
    }
}

/// The same by the generator.
fn fill_out(key: &[u8; 32], n: u64, out: &mut [u8])
    requires { length out.old ≤ 2 ^ 38 }
    ensures { out.new ≡ chacha_pad key.now n (length out.old) }
{
    let mut stream = key_stream(key, n);
    stream.fill_bytes(out);
}

// Promise P93, also here; clauses: ensures
/// XORs pad number `n` under `key` into the bytes, which encrypts them, or decrypts what it encrypted
/// (RFC 8439, 2.4). The pad is that of [`pad_into`], made word by word: no memory is taken.
///
/// At most 2^38 bytes, as for [`pad_into`].
pub fn xor_in_place(bytes: &mut [u8], key: &[u8; 32], n: u64)
    requires { length bytes.old ≤ 2 ^ 38 }
    ensures { bytes.new ≡ xored bytes.old (chacha_pad key.now n (length bytes.old)) }
{
    let mut stream = key_stream(key, n);
    let mut word = 0;
    for (i, byte) in bytes.iter_mut().enumerate() {
        if i % 4 == 0 {
            word = stream.next_word();
        }
        *byte ^= word.to_le_bytes()[i % 4];
    }
}

/// The generator of stream `n`. A stream number is the last two words of the nonce, and the first one
/// is the high half of the generator's block counter, which stays zero below 2^32 blocks.
fn key_stream(key: &[u8; 32], n: u64) -> ChaCha20Rng
    ensures { result ≡ record { key = key_of key.now; stream = n; word_pos = 0 } }
{
    let mut stream = ChaCha20Rng::from_seed(*key);
    stream.set_stream(n);
    stream
}
