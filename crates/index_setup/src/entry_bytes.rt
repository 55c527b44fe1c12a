ghost use Rattle.std.specs.Prelude.{◌≡◌, ◌+◌, ◌*◌, ◌<◌, ◌≤◌, ◌^◌, ◌++◌, All, length, map, option_map, Some, IsSome};
ghost use Rattle.keyed_fn.specs.KeyedFn.{keyed_fn};
ghost use Rattle.keyed_fn.specs.Xored.{xored};
ghost use Rattle.list_packing.specs.Parts.{parts};
ghost use Rattle.two_level.specs.Laid.{laid, block_bytes, cell_bytes};
ghost use Rattle.two_level.specs.Plan as layout;
ghost use Rattle.two_level.specs.Shape.{IsShape};
ghost use Rattle.word_keys.specs.PadName.{block_name, named_pad};
ghost use Rattle.index_setup.specs.Placed.{block_texts, placed};

use keyed_fn::Keyed;
use two_level::{Shape, lay_block, lay_cell};
use word_keys::{ListPads, PadSlot, seal};

/// The bytes of an entry: a label of 16, and its cell.
pub(crate) fn entry_size(shape: Shape) -> usize
    ensures size { result ≡ 17 + 8 * shape.b }
    ensures limits { IsShape shape }
{
    16 + shape.cell_size()
}

/// Writes the entry of a word: its label, and its list's cell under the pad. `ranks` has the places of the list's
/// blocks in the array.
pub(crate) fn write_entry<K: Keyed>(
    keyed: &K,
    pad: PadSlot,
    label: &[u8; 16],
    ids: &[u64],
    ranks: &[u32],
    shape: Shape,
    out: &mut [u8],
)
    requires some { 1 ≤ length ids.now }
    requires planned { IsSome (layout.plan shape (length ids.now)) }
    requires ranks { length ranks.now ≡ layout.block_count (layout.plan shape (length ids.now)) }
    requires size { length out.old ≡ 17 + 8 * shape.b }
    ensures { option_map (λ l. label.now ++ xored (cell_bytes l) (named_pad (keyed_fn K.prf K.pad) pad (1 + 8 * shape.b))) (laid shape ranks.now ids.now) ≡ Some out.new }
{
    out[..16].copy_from_slice(label);
    let cell = &mut out[16..];
    lay_cell(ids, ranks, shape, cell);
    seal(pad, keyed, cell);
}

/// Writes each block of a list at its place in the array, under its pad. `ranks` has the places.
pub(crate) fn write_blocks<K: Keyed>(
    keyed: &K,
    pads: &mut ListPads,
    ids: &[u64],
    ranks: &[u32],
    shape: Shape,
    array: &mut [u8],
)
    requires some { 1 ≤ length ids.now }
    requires planned { IsSome (layout.plan shape (length ids.now)) }
    requires ranks { length ranks.now ≡ layout.block_count (layout.plan shape (length ids.now)) }
    requires most { length ranks.now < 2 ^ 22 }
    requires places { All (λ rank. (rank + 1) * (8 * shape.big) ≤ length array.old) ranks.now }
    requires first { pads.old ≡ block_name pads.old.key 0 }
    ensures { parts (8 * shape.big) array.new ≡ placed (parts (8 * shape.big) array.old) ranks.now (block_texts (keyed_fn K.prf K.pad) pads.old.key shape ranks.now ids.now) }
{
    let size = shape.block_size();
    for (i, rank) in ranks.iter().enumerate() {
        let at = *rank as usize * size;
        let block = &mut array[at..at + size];
        lay_block(ids, ranks, shape, i as u32, block);
        seal(pads.next(), keyed, block);
    }
}
