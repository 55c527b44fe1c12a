ghost use Rattle.std.specs.Prelude.{◌≡◌, ◌≤◌, ◌++◌, length, drop};
ghost use Rattle.hmac_sha256.specs.Fips198.{key_block_of, masked};

use sha2::{Digest, Sha256};

/// The size of a block of SHA-256 in bytes: B of FIPS 198-1, section 3.
pub const BLOCK: usize = 64;

/// The byte repeated in ipad of FIPS 198-1, section 3.
pub const INNER_MASK: u8 = 0x36;

/// The byte repeated in opad of FIPS 198-1, section 3.
pub const OUTER_MASK: u8 = 0x5c;

/// K0 of FIPS 198-1, section 4, steps 1 to 3: the key in one block, after it zeros. A key longer
/// than a block is hashed first.
pub fn key_block(key: &[u8]) -> [u8; 64]
    ensures { result ≡ key_block_of key.now }
{
    let mut block = [0u8; BLOCK];
    if key.len() > BLOCK {
        let digest = Sha256::digest(key);
        put_in_front(&mut block, &digest);
    } else {
        put_in_front(&mut block, key);
    }
    block
}

/// Writes the bytes over the front of the block.
fn put_in_front(block: &mut [u8], bytes: &[u8])
    requires { length bytes.now ≤ length block.old }
    ensures { block.new ≡ bytes.now ++ drop (length bytes.now) block.old }
{
    block[..bytes.len()].copy_from_slice(bytes);
}

/// XORs the mask into each byte of the block.
pub fn mask_in_place(block: &mut [u8], mask: u8)
    ensures { block.new ≡ masked block.old mask }
{
    for byte in block.iter_mut() {
        *byte ^= mask;
    }
}
