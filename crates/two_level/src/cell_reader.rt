ghost use Rattle.std.specs.Prelude.{◌≡◌, ◌+◌, ◌*◌, ◌%◌, ◌<◌, ◌≤◌, ℕ, List, drop, length, slice_index, take, All, Any, IfOk, IfSome, IsSomeAnd, OnErr, None, Some, Option};
ghost use Rattle.list_packing.specs.LeadingNumbers.{leading};
ghost use Rattle.list_packing.specs.Numbers.{numbers_of};
ghost use Rattle.two_level.specs.Opened.{cell_list, EndsAfter};
ghost use Rattle.two_level.specs.Read.{bad_pointer, block_read, cell_read};

use crate::cell_fault::CellFault;
use crate::cell_read::CellRead;
use list_packing::unpack;

// Promise P80 (caller): Reading a cell or block yields how many of its numbers are its own, or the first thing wrong with it.
//   clauses: exact, front, no_list; assumes: sizes in bounds
/// Reads a cell in the clear, over an array of so many blocks: its kind, and how many of its numbers come
/// before its zeros.
///
/// The cell is one byte and at most 64 numbers of eight bytes each, high byte first. Errors, the first that stands:
/// `BadKind(byte)` where the first byte is above 2; `Hole(place)`, the first number after a zero; `BadPointer(place)`,
/// the first pointer above `blocks`, where the numbers are pointers. It takes no memory.
pub fn read_cell(clear: &[u8], blocks: u32) -> Result<CellRead, CellFault>
    requires numbers { length clear.now % 8 ≡ 1 }
    requires size { length clear.now ≤ 513 }
    ensures exact { result ≡ cell_read blocks (slice_index clear.now 0) (numbers_of (drop 1 clear.now)) }

    // What follows for a list: which of the cell's numbers are its own, or that there is none behind the cell.
    ensures byte { IfOk result (λ read. read.kind ≡ slice_index clear.now 0) }
    ensures kind { IfOk result (λ read. read.kind ≤ 2) }
    ensures front { IfOk result (λ read. leading (numbers_of (drop 1 clear.now)) ≡ Some (take read.count (numbers_of (drop 1 clear.now)))) }
    ensures within { IfOk result (λ read. 1 + 8 * read.count ≤ length clear.now) }
    ensures pointers { IfOk result (λ read. 1 ≤ read.kind → All (λ pointer. pointer ≤ blocks) (take read.count (numbers_of (drop 1 clear.now)))) }
    ensures no_list { OnErr result ((block : ℕ → ℕ → Option (List ℕ)) → EndsAfter blocks block → cell_list block clear.now ≡ None) }
{
    let kind = clear[0];
    let pointed = match kind {
        0 => None,
        1 => Some(blocks),
        2 => Some(blocks),
        _ => return Err(CellFault::BadKind(kind)),
    };
    let count = read_block(&clear[1..], pointed)?;
    Ok(CellRead { kind, count })
}

// Promise P80, also here; clauses: exact, front, no_list
/// Reads a block in the clear: how many of its numbers come before its zeros. `pointers_below` is the number of
/// blocks of the array for a block of pointers, and `None` for one of identifiers.
///
/// The block is at most 256 numbers of eight bytes each, high byte first. Errors: `Hole(place)`, the first number
/// after a zero; else `BadPointer(place)`, the first pointer above `pointers_below`. It takes no memory.
pub fn read_block(clear: &[u8], pointers_below: Option<u32>) -> Result<u16, CellFault>
    requires numbers { length clear.now % 8 ≡ 0 }
    requires size { length clear.now ≤ 2048 }
    ensures exact { result ≡ block_read pointers_below (numbers_of clear.now) }

    // What follows for a list: which of the block's numbers are its own, or that the block is no part of a list.
    ensures front { IfOk result (λ count. leading (numbers_of clear.now) ≡ Some (take count (numbers_of clear.now))) }
    ensures within { IfOk result (λ count. 8 * count ≤ length clear.now) }
    ensures pointers { IfOk result (λ count. IfSome pointers_below (λ blocks. All (λ pointer. pointer ≤ blocks) (take count (numbers_of clear.now)))) }
    ensures no_list { OnErr result (IfSome (leading (numbers_of clear.now)) (λ numbers. IsSomeAnd pointers_below (λ blocks. Any (λ pointer. blocks < pointer) numbers))) }
{
    let count = unpack(clear)?;
    if let Some(blocks) = pointers_below {
        if let Some(place) = first_bad_pointer(&clear[..8 * count], blocks) {
            return Err(CellFault::BadPointer(place));
        }
    }
    Ok(count as u16)
}

/// The first place of a pointer past the last of so many blocks.
fn first_bad_pointer(pointers: &[u8], blocks: u32) -> Option<u64>
    requires { length pointers.now % 8 ≡ 0 }
    ensures { result ≡ bad_pointer blocks (numbers_of pointers.now) }
{
    for place in 0..pointers.len() / 8 {
        if list_packing::number_at(pointers, place) > u64::from(blocks) {
            return Some(place as u64);
        }
    }
    None
}

// Promise P80, also here; clauses: block, cell
/// Number `i`, from 0, of a block in the clear, or of a cell after its first byte.
///
/// The bytes are numbers of eight bytes each, high byte first; a cell has one byte more. All bytes of the number
/// have to be there. It takes no memory.
pub fn number_at(clear: &[u8], i: usize) -> u64
    requires { length clear.now % 8 + 8 * i + 8 ≤ length clear.now }
    ensures block { length clear.now % 8 ≡ 0 → result ≡ slice_index (numbers_of clear.now) i }
    ensures cell { length clear.now % 8 ≡ 1 → result ≡ slice_index (numbers_of (drop 1 clear.now)) i }
{
    list_packing::number_at(&clear[clear.len() % 8..], i)
}
