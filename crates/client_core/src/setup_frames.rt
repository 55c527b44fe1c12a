ghost use Rattle.std.specs.Prelude.{◌≡◌, ◌+◌, ◌*◌, ◌<◌, ◌≤◌, ◌^◌, [], slice_index_or};
ghost use Rattle.std.specs.Int.{div_ceil};
ghost use Rattle.list_packing.specs.Parts.{parts};
ghost use Rattle.sse_frames.specs.Frames.{SetupArray, SetupDict, SetupEnd, InGrammar, IsNumber, Rises, labels_of};
ghost use Rattle.sse_frames.specs.FrameViews.{frame_view, entries_in, items_in};
ghost use Rattle.sse_frames.specs.Sizes.{AreItems, HasSizes};
ghost use Rattle.sse_frames.proofs.Cut.{AreBytes};
ghost use Rattle.index_setup.specs.Built.{IsIndex};
ghost use Rattle.client_core.specs.Setup.{frames_in, index_frames};

use index_setup::Index;
use list_packing::part;
use sse_frames::{BLOCKS_PER_FRAME, ENTRIES_PER_FRAME, Frame, LABEL_LEN};

/// How many frames the index takes.
pub(crate) fn frame_count(index: &Index) -> u32
    ensures count { result ≡ frames_in index.now }
    ensures within { result ≤ 2 + 2 ^ 10 + 2 ^ 12 }
    ensures limits { IsIndex index.now }
{
    2 + dictionary_frames(index) + array_frames(index)
}

/// How many frames the entries take.
fn dictionary_frames(index: &Index) -> u32
    ensures count { result ≡ div_ceil index.now.words 1024 }
    ensures within { result ≤ 2 ^ 10 }
    ensures limits { IsIndex index.now }
{
    index.words().div_ceil(ENTRIES_PER_FRAME as u32)
}

/// How many frames the blocks take.
fn array_frames(index: &Index) -> u32
    ensures count { result ≡ div_ceil index.now.blocks 256 }
    ensures within { result ≤ 2 ^ 12 }
{
    index.blocks().div_ceil(BLOCKS_PER_FRAME as u32)
}

/// The frame at this place among those of a setup, under the number `q`: SetupBegin, the entries in parts of 1,024,
/// the blocks in parts of 256, SetupEnd.
pub(crate) fn frame_at(index: &Index, place: u32, q: u32) -> Frame<'_>
    requires place { place < frames_in index.now }
    requires number { IsNumber q }
    requires rises { Rises (labels_of (entries_in (1 + 8 * index.now.b) index.now.entries)) }
    ensures seen { frame_view result ≡ slice_index_or (index_frames index.now) place (λ n. SetupEnd n) q }
    ensures grammar { InGrammar (frame_view result) }
    ensures sizes { HasSizes result }
    ensures limits { IsIndex index.now }
{
    let dictionary = dictionary_frames(index);
    if place == 0 {
        return Frame::SetupBegin {
            q,
            b: index.b(),
            big: index.big(),
            m: index.words(),
            a: index.blocks(),
        };
    }
    if place <= dictionary {
        return entries_at(index, place - 1, q);
    }
    if place <= dictionary + array_frames(index) {
        return blocks_at(index, place - 1 - dictionary, q);
    }
    Frame::SetupEnd { q }
}

/// The frame of part `i` of the entries.
fn entries_at(index: &Index, i: u32, q: u32) -> Frame<'_>
    requires part { i < div_ceil index.now.words 1024 }
    requires number { IsNumber q }
    requires rises { Rises (labels_of (entries_in (1 + 8 * index.now.b) index.now.entries)) }
    ensures seen { frame_view result ≡ SetupDict q (1 + 8 * index.now.b) (slice_index_or (parts 1024 (entries_in (1 + 8 * index.now.b) index.now.entries)) i []) }
    ensures grammar { InGrammar (frame_view result) }
    ensures sizes { HasSizes result }
{
    let width = index.cell_size();
    let size = LABEL_LEN + width as usize;
    let entries = part(
        index.entries(),
        ENTRIES_PER_FRAME as usize * size,
        i as usize,
    );
    dictionary_part(q, width, entries)
}

/// The frame of part `i` of the blocks.
fn blocks_at(index: &Index, i: u32, q: u32) -> Frame<'_>
    requires part { i < div_ceil index.now.blocks 256 }
    requires number { IsNumber q }
    ensures seen { frame_view result ≡ SetupArray q (8 * index.now.big) (slice_index_or (parts 256 (items_in (8 * index.now.big) index.now.array)) i []) }
    ensures grammar { InGrammar (frame_view result) }
    ensures sizes { HasSizes result }
{
    let width = index.block_size();
    let blocks = part(
        index.array(),
        BLOCKS_PER_FRAME as usize * width as usize,
        i as usize,
    );
    array_part(q, width, blocks)
}

/// The frame with these entries, whose bytes are below 256 as those of any slice.
fn dictionary_part(q: u32, width: u16, entries: &[u8]) -> Frame<'_>
    requires grammar { AreBytes entries.now → InGrammar (SetupDict q width (entries_in width entries.now)) }
    requires sizes { AreItems (16 + width) entries.now }
    ensures seen { frame_view result ≡ SetupDict q width (entries_in width entries.now) }
    ensures grammar { InGrammar (frame_view result) }
    ensures sizes { HasSizes result }
{
    Frame::SetupDict { q, width, entries }
}

/// The frame with these blocks.
fn array_part(q: u32, width: u16, blocks: &[u8]) -> Frame<'_>
    requires grammar { AreBytes blocks.now → InGrammar (SetupArray q width (items_in width blocks.now)) }
    requires sizes { AreItems width blocks.now }
    ensures seen { frame_view result ≡ SetupArray q width (items_in width blocks.now) }
    ensures grammar { InGrammar (frame_view result) }
    ensures sizes { HasSizes result }
{
    Frame::SetupArray { q, width, blocks }
}
