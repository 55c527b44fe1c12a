ghost use Rattle.std.specs.Prelude.{◌≡◌, None, Some, if◌then◌else◌, nat_lt};
ghost use Rattle.std.specs.Int.{w32, from_be_bytes};

/// The most bytes of the body of a frame or a reply.
pub const MAX_BODY: usize = 65_600;

/// The number of an update, which is below 2^32 - 1.
pub(crate) fn update_number(bytes: &[u8; 4]) -> Option<u32>
    ensures { result ≡ (if nat_lt (from_be_bytes w32 bytes.now) 0xffffffff then Some (from_be_bytes w32 bytes.now) else None) }
{
    let n = u32::from_be_bytes(*bytes);
    if n == u32::MAX { None } else { Some(n) }
}
