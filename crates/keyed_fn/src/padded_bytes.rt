ghost use Rattle.std.specs.Prelude.{◌≡◌, ◌≤◌, length};
ghost use Rattle.chacha_stream.specs.Xored.{xored};

use crate::keyed::Keyed;
use chacha_stream::xor;

/// The bytes of a block of the pad: the identifier of an addition has fewer.
const SMALL: usize = 64;

/// XORs pad number `n` under the key into a text of at most 2,048 bytes, which encrypts it, or decrypts
/// what it encrypted. No memory is taken.
pub fn xor_pad<K: Keyed>(keyed: &K, key: &[u8; 32], n: u64, text: &mut [u8])
    requires { length text.old ≤ 2048 }
    ensures { text.new ≡ xored text.old (K.pad key.now n (length text.old)) }
{
    if text.len() <= SMALL {
        xor_by::<K, SMALL>(keyed, key, n, text);
    } else {
        xor_by::<K, 2048>(keyed, key, n, text);
    }
}

/// [`xor_pad`] for a text of at most 65,536 bytes.
pub fn xor_long_pad<K: Keyed>(keyed: &K, key: &[u8; 32], n: u64, text: &mut [u8])
    requires { length text.old ≤ 65536 }
    ensures { text.new ≡ xored text.old (K.pad key.now n (length text.old)) }
{
    xor_by::<K, 65_536>(keyed, key, n, text);
}

/// XORs pad number `n` under the key into a text, by a buffer of `SIZE` bytes on the stack.
fn xor_by<K: Keyed, const SIZE: usize>(keyed: &K, key: &[u8; 32], n: u64, text: &mut [u8])
    requires fits { length text.old ≤ SIZE }
    requires within { SIZE ≤ 65536 }
    ensures { text.new ≡ xored text.old (K.pad key.now n (length text.old)) }
{
    let mut buffer = [0u8; SIZE];
    let len = text.len();
    let pad = &mut buffer[..len];
    keyed.pad_into(key, n, pad);
    xor(text, pad);
}
