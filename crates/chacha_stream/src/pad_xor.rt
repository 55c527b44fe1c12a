ghost use Rattle.std.specs.Prelude.{◌≡◌, ◌≤◌, length};
ghost use Rattle.chacha_stream.specs.Xored.{xored};

/// XORs a pad into bytes, byte by byte, from the front. A pad that is longer than the bytes has its
/// first ones used; it is never shorter.
pub fn xor(bytes: &mut [u8], pad: &[u8])
    requires { length bytes.old ≤ length pad.now }
    ensures { bytes.new ≡ xored bytes.old pad.now }
{
    for (i, byte) in bytes.iter_mut().enumerate() {
        *byte ^= pad[i];
    }
}
