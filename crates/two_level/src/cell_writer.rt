ghost use Rattle.std.specs.Prelude.{◌≡◌, ◌+◌, ◌-◌, ◌*◌, ◌<◌, ◌≤◌, ◌++◌, length, replicate, option_map, IsSome, Some};
ghost use Rattle.list_packing.specs.Numbers.{number_bytes};
ghost use Rattle.two_level.specs.Laid.{laid, cell_bytes, block_bytes, pointers};
ghost use Rattle.two_level.specs.Plan as layout;

use crate::shape::Shape;
use list_packing::{pack, part, write_numbers};

// Promise P79 (caller): A list's cell and blocks are written exactly as the layout says, over any earlier bytes.
//   clauses: ensures; assumes: sizes in bounds
/// Writes the cell of a list in the clear: its kind, then b numbers of eight bytes each, high byte first.
///
/// The numbers are the identifiers, or pointers to blocks at the places that `ranks` says, which count from 0; zeros
/// fill the rest. `ranks` has one rank for each block of the list's plan, by block number; there is a plan, and `out` has
/// the cell's 1 + 8·b bytes. It takes no memory.
pub fn lay_cell(ids: &[u64], ranks: &[u32], shape: Shape, out: &mut [u8])
    requires some { 1 ≤ length ids.now }
    requires planned { IsSome (layout.plan shape (length ids.now)) }
    requires ranks { length ranks.now ≡ layout.block_count (layout.plan shape (length ids.now)) }
    requires size { length out.old ≡ 1 + 8 * shape.b }
    ensures { option_map cell_bytes (laid shape ranks.now ids.now) ≡ Some out.new }
{
    let Ok(plan) = shape.plan(ids.len() as u64) else {
        unreachable!()
    };
    out[0] = plan.kind;
    let numbers = &mut out[1..];
    match plan.kind {
        0 => write_numbers(ids, numbers),
        1 => write_pointers(ranks, numbers),
        _ => write_pointers(&ranks[..plan.pointer_blocks as usize], numbers),
    }
}

// Promise P79, also here; clauses: ensures
/// Writes block number `i`, from 0, of a list in the clear: `big` numbers of eight bytes each, high byte first.
///
/// The blocks of pointers come first, then those of identifiers; zeros fill each to its end. The conditions are those of
/// [`lay_cell`], and that the list has such a block; `out` has the block's 8·big bytes. It takes no memory.
pub fn lay_block(ids: &[u64], ranks: &[u32], shape: Shape, i: u32, out: &mut [u8])
    requires some { 1 ≤ length ids.now }
    requires planned { IsSome (layout.plan shape (length ids.now)) }
    requires ranks { length ranks.now ≡ layout.block_count (layout.plan shape (length ids.now)) }
    requires within { i < length ranks.now }
    requires size { length out.old ≡ 8 * shape.big }
    ensures { option_map (block_bytes i) (laid shape ranks.now ids.now) ≡ Some out.new }
{
    let Ok(plan) = shape.plan(ids.len() as u64) else {
        unreachable!()
    };
    let pointer_blocks = plan.pointer_blocks as usize;
    let i = i as usize;
    let width = usize::from(shape.big());
    if i < pointer_blocks {
        write_pointers(part(&ranks[pointer_blocks..], width, i), out);
    } else {
        pack(ids, width, i - pointer_blocks, out);
    }
}

/// Writes pointers to blocks at these places, eight bytes each, high byte first, and zeros after them to the end of
/// `out`. Places count from 0 and pointers from 1.
fn write_pointers(ranks: &[u32], out: &mut [u8])
    requires { 8 * length ranks.now ≤ length out.old }
    ensures { out.new ≡ number_bytes (pointers ranks.now) ++ replicate (length out.old - 8 * length ranks.now) 0 }
{
    for (i, rank) in ranks.iter().enumerate() {
        let pointer = u64::from(*rank) + 1;
        out[8 * i..8 * i + 8].copy_from_slice(&pointer.to_be_bytes());
    }
    out[8 * ranks.len()..].fill(0);
}
