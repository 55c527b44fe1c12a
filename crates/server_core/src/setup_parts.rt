ghost use Rattle.std.specs.Prelude.{◌≡◌, ◌%◌, ◌≤◌, ◌<◌, ◌++◌, All, length, IfSome, None};
ghost use Rattle.sse_frames.specs.Frames.{Rises, labels_of};
ghost use Rattle.sse_frames.specs.FrameViews.{entries_in, items_in};
ghost use Rattle.server_tables.specs.Room.{no_room, pieces, HasRoom};
ghost use Rattle.server_core.specs.Holds.{HasCells, IsBlock};
ghost use Rattle.server_core.specs.Refusal.{first_known};
ghost use Rattle.server_core.specs.Step.{with_entries};

use crate::entries::{next_block, next_entry};
use server_tables::Tables;

/// The place of the first entry of a frame whose label is in the dictionary.
pub fn first_known<T: Tables>(tables: &T, entries: &[u8], width: usize) -> Option<usize>
    ensures place { result ≡ first_known (T.contents tables.now).dictionary (entries_in width entries.now) }
    ensures within { IfSome result (λ place. place < length (entries_in width entries.now)) }
{
    let mut place = 0;
    let mut rest = entries;
    while let Some((label, _cell, behind)) = next_entry(rest, width) {
        if tables.entry(label).is_some() {
            return Some(place);
        }
        place += 1;
        rest = behind;
    }
    None
}

/// Puts the entries of a frame, whose labels rise and aren't there, into the dictionary. Takes no memory.
pub fn put_all<T: Tables>(tables: &mut T, entries: &[u8], width: usize)
    requires new { first_known (T.contents tables.old).dictionary (entries_in width entries.now) ≡ None }
    requires rises { Rises (labels_of (entries_in width entries.now)) }
    requires room { HasRoom (T.room tables.old) (record no_room { entries = pieces (length (entries_in width entries.now)) width }) }
    requires size { width ≤ 513 }
    requires numbers { width % 8 ≡ 1 }
    ensures contents { T.contents tables.new ≡ record (T.contents tables.old) { dictionary = with_entries (T.contents tables.old).dictionary (entries_in width entries.now) } }
    ensures cells { HasCells (T.contents tables.old).dictionary → HasCells (T.contents tables.new).dictionary }
{
    let mut rest = entries;
    while let Some((label, cell, behind)) = next_entry(rest, width) {
        tables.put_entry(label, cell).unwrap();
        rest = behind;
    }
}

/// Puts the blocks of a frame after those of the array. Takes no memory.
pub fn push_blocks<T: Tables>(tables: &mut T, blocks: &[u8], width: usize)
    requires room { HasRoom (T.room tables.old) (record no_room { blocks = pieces (length (items_in width blocks.now)) width }) }
    requires some { 0 < width }
    requires size { width ≤ 2048 }
    requires numbers { width % 8 ≡ 0 }
    ensures contents { T.contents tables.new ≡ record (T.contents tables.old) { array = (T.contents tables.old).array ++ items_in width blocks.now } }
    ensures blocks { All IsBlock (T.contents tables.old).array → All IsBlock (T.contents tables.new).array }
{
    let mut rest = blocks;
    while let Some((block, behind)) = next_block(rest, width) {
        tables.push_block(block).unwrap();
        rest = behind;
    }
}
