ghost use Rattle.std.specs.Prelude.{◌≡◌, ◌+◌, ◌*◌, ◌≤◌, ◌++◌, length, take, drop};
ghost use Rattle.std.specs.List.{flat_map};
ghost use Rattle.sse_frames.specs.Frames.{be16, be32, be64};

use byteorder::{BigEndian, ByteOrder};

/// Writes the bytes at a place, and gives the place after them.
pub(crate) fn put(out: &mut [u8], place: usize, bytes: &[u8]) -> usize
    requires { place + length bytes.now ≤ length out.old }
    ensures place { result ≡ place + length bytes.now }
    ensures bytes { out.new ≡ take place out.old ++ bytes.now ++ drop (place + length bytes.now) out.old }
{
    let end = place + bytes.len();
    out[place..end].copy_from_slice(bytes);
    end
}

/// Writes the number at a place.
pub(crate) fn put_u16(out: &mut [u8], place: usize, n: u16)
    requires { place + 2 ≤ length out.old }
    ensures { out.new ≡ take place out.old ++ be16 n ++ drop (place + 2) out.old }
{
    BigEndian::write_u16(&mut out[place..], n);
}

/// Writes the number at a place.
pub(crate) fn put_u32(out: &mut [u8], place: usize, n: u32)
    requires { place + 4 ≤ length out.old }
    ensures { out.new ≡ take place out.old ++ be32 n ++ drop (place + 4) out.old }
{
    BigEndian::write_u32(&mut out[place..], n);
}

/// Writes the numbers at a place, one after the other.
pub(crate) fn put_u64s(out: &mut [u8], place: usize, numbers: &[u64])
    requires { place + length numbers.now * 8 ≤ length out.old }
    ensures { out.new ≡ take place out.old ++ flat_map be64 numbers.now ++ drop (place + length numbers.now * 8) out.old }
{
    let end = place + numbers.len() * 8;
    BigEndian::write_u64_into(numbers, &mut out[place..end]);
}
