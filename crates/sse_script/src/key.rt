ghost use Rattle.std.specs.Prelude.{◌≡◌};
ghost use Rattle.sse_script.specs.Numbers.{key_of};

/// The 32 bytes of a key: 64 hexadecimal digits, in either case, the high digit of each byte first.
pub fn read_key(field: &[u8]) -> Option<[u8; 32]>
    ensures { result ≡ key_of field.now }
{
    let mut key = [0; 32];
    match hex::decode_to_slice(field, &mut key) {
        Ok(()) => Some(key),
        Err(_) => None,
    }
}
