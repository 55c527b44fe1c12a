ghost use Rattle.std.specs.Prelude.{◌≡◌, ◌%◌, ◌*◌, ◌≤◌, length, take, IfOk, OnErr, None, Some};
ghost use Rattle.list_packing.specs.LeadingNumbers as leading;
ghost use Rattle.list_packing.specs.Numbers.{numbers_of};
ghost use Rattle.list_packing.specs.Unpacked.{unpacked};

use crate::hole::HoleInBlock;
use crate::number::number_at;

// Promise P80, also here; clauses: exact, front, none
/// How many numbers of a block stand before its zeros: the numbers that it was filled from.
///
/// The block is whole numbers of eight bytes each, high byte first. Error: `HoleInBlock(place)`, the first place
/// after a zero at which another number stands, exactly where there is one. It takes no memory.
pub fn unpack(block: &[u8]) -> Result<usize, HoleInBlock>
    requires { length block.now % 8 ≡ 0 }
    ensures exact { result ≡ unpacked (numbers_of block.now) }
    ensures within { IfOk result (λ count. 8 * count ≤ length block.now) }
    ensures front { IfOk result (λ count. leading.leading (numbers_of block.now) ≡ Some (take count (numbers_of block.now))) }
    ensures none { OnErr result (leading.leading (numbers_of block.now) ≡ None) }
{
    let count = count_leading(block);
    for place in count..block.len() / 8 {
        if number_at(block, place) != 0 {
            return Err(HoleInBlock(place as u64));
        }
    }
    Ok(count)
}

/// How many numbers come before the first zero, or all of them where there is none.
fn count_leading(numbers: &[u8]) -> usize
    requires { length numbers.now % 8 ≡ 0 }
    ensures { result ≡ leading.leading_count (numbers_of numbers.now) }
{
    let all = numbers.len() / 8;
    for place in 0..all {
        if number_at(numbers, place) == 0 {
            return place;
        }
    }
    all
}
