ghost use Rattle.std.specs.Prelude.{◌≡◌, ◌+◌, ◌-◌, ◌*◌, ◌<◌, ◌≤◌, ◌++◌, [], length, replicate, slice_index_or};
ghost use Rattle.std.specs.Int.{div_ceil};
ghost use Rattle.list_packing.specs.Numbers.{number_bytes};
ghost use Rattle.list_packing.specs.Parts.{parts, blocks};

// Promise P79, also here; clauses: ensures
/// Part number `i`, from 0, of a list that is cut into parts of `width` elements; the last part may have fewer.
///
/// `width` is at least 1, and there is such a part. It takes no memory.
pub fn part<T>(list: &[T], width: usize, i: usize) -> &[T]
    requires some { 1 ≤ width }
    requires within { i < div_ceil (length list.now) width }
    ensures { result.now ≡ slice_index_or (parts width list.now) i [] }
{
    let rest = &list[i * width..];
    if rest.len() <= width {
        return rest;
    }
    &rest[..width]
}

// Promise P79, also here; clauses: ensures
/// Writes block number `i`, from 0, of the numbers packed into blocks of `width`: eight bytes for each number,
/// high byte first, and zeros after the last one where the block is the last.
///
/// `width` is at least 1, there is such a block, and `out` has its 8·width bytes. It takes no memory.
pub fn pack(numbers: &[u64], width: usize, i: usize, out: &mut [u8])
    requires some { 1 ≤ width }
    requires within { i < div_ceil (length numbers.now) width }
    requires size { length out.old ≡ 8 * width }
    ensures { out.new ≡ number_bytes (slice_index_or (blocks width numbers.now) i []) }
{
    write_numbers(part(numbers, width, i), out);
}

// Promise P79, also here; clauses: ensures
/// Writes the numbers, eight bytes each, high byte first, and zeros after them to the end of `out`.
///
/// `out` has room for all of them. It takes no memory.
pub fn write_numbers(numbers: &[u64], out: &mut [u8])
    requires { 8 * length numbers.now ≤ length out.old }
    ensures { out.new ≡ number_bytes numbers.now ++ replicate (length out.old - 8 * length numbers.now) 0 }
{
    for (i, number) in numbers.iter().enumerate() {
        out[8 * i..8 * i + 8].copy_from_slice(&number.to_be_bytes());
    }
    out[8 * numbers.len()..].fill(0);
}
