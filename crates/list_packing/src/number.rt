ghost use Rattle.std.specs.Prelude.{◌≡◌, ◌+◌, ◌*◌, ◌≤◌, length, slice_index};
ghost use Rattle.list_packing.specs.Numbers.{numbers_of};

/// The number at place `i`, from 0, of numbers that have eight bytes each, high byte first.
///
/// All eight of its bytes have to be there. It takes no memory.
pub fn number_at(numbers: &[u8], i: usize) -> u64
    requires { 8 * i + 8 ≤ length numbers.now }
    ensures { result ≡ slice_index (numbers_of numbers.now) i }
{
    match numbers[8 * i..].first_chunk::<8>() {
        Some(bytes) => u64::from_be_bytes(*bytes),
        None => unreachable!(),
    }
}
