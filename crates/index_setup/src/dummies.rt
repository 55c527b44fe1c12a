ghost use Rattle.std.specs.Prelude.{◌≡◌, ◌+◌, ◌-◌, ◌*◌, ◌<◌, ◌≤◌, ◌^◌, ◌++◌, All, length, map, replicate, vec_len, OnOk};
ghost use Rattle.std.specs.List.{range_with_len};
ghost use Rattle.keyed_fn.specs.DummyFormulas.{dummy_label, dummy_tag};
ghost use Rattle.keyed_fn.specs.KeyFormulas.{plain_key};
ghost use Rattle.keyed_fn.specs.KeyedFn.{keyed_fn};
ghost use Rattle.keyed_fn.specs.Xored.{xored};
ghost use Rattle.list_packing.specs.Parts.{parts};
ghost use Rattle.client_tag_order.specs.Tagged.{tagged_from};
ghost use Rattle.word_keys.specs.PadName.{named_pad};
ghost use Rattle.index_setup.specs.Placed.{dummy_block_texts, dummy_entry_texts, placed};

use crate::entry_bytes::entry_size;
use client_tag_order::Tagged;
use keyed_fn::Keyed;
use std::alloc::AllocError;
use two_level::Shape;
use word_keys::{PadSlot, PreparedMaster, seal};

/// Appends the labels of the first `count` dummy entries. Without dummies it costs no key.
pub(crate) fn push_dummy_labels<K: Keyed>(
    labels: &mut Vec<Tagged>,
    master: &PreparedMaster<'_, K>,
    count: u32,
) -> Result<(), AllocError>
    requires { vec_len labels.old + count < 2 ^ 32 }
    ensures { OnOk result (labels.new.items ≡ labels.old.items ++ tagged_from (vec_len labels.old) (map (dummy_label (keyed_fn K.prf K.pad) (plain_key (keyed_fn K.prf K.pad) master.now 8)) (range_with_len 0 count))) }
{
    if count == 0 {
        return Ok(());
    }
    let key = master.dummy_key();
    for i in 0..count {
        let tag = key.label(master.keyed(), i);
        let position = labels.len() as u32;
        labels.push(Tagged { tag, position })?;
    }
    Ok(())
}

/// Appends the tags of the first `count` dummy blocks. Without dummies it costs no key.
pub(crate) fn push_dummy_tags<K: Keyed>(
    tags: &mut Vec<Tagged>,
    master: &PreparedMaster<'_, K>,
    count: u32,
) -> Result<(), AllocError>
    requires { vec_len tags.old + count < 2 ^ 32 }
    ensures { OnOk result (tags.new.items ≡ tags.old.items ++ tagged_from (vec_len tags.old) (map (dummy_tag (keyed_fn K.prf K.pad) (plain_key (keyed_fn K.prf K.pad) master.now 8)) (range_with_len 0 count))) }
{
    if count == 0 {
        return Ok(());
    }
    let key = master.dummy_key();
    for j in 0..count {
        let tag = key.tag(master.keyed(), j);
        let position = tags.len() as u32;
        tags.push(Tagged { tag, position })?;
    }
    Ok(())
}

/// Writes the dummy entries at their places, in the order of their numbers, each under the label that stands at its place.
/// `labels` are by rising label. Without dummies it costs no key.
pub(crate) fn write_dummy_entries<K: Keyed>(
    master: &PreparedMaster<'_, K>,
    shape: Shape,
    labels: &[Tagged],
    places: &[u32],
    entries: &mut [u8],
)
    requires count { length places.now ≤ 2 ^ 32 }
    requires places { All (λ place. place < length labels.now) places.now }
    requires size { length entries.old ≡ length labels.now * (17 + 8 * shape.b) }
    ensures { parts (17 + 8 * shape.b) entries.new ≡ placed (parts (17 + 8 * shape.b) entries.old) places.now (dummy_entry_texts (keyed_fn K.prf K.pad) (plain_key (keyed_fn K.prf K.pad) master.now 9) shape (map (λ e. e.tag) labels.now) places.now) }
{
    if places.is_empty() {
        return;
    }
    let key = master.dummy_key();
    let size = entry_size(shape);
    for (i, place) in places.iter().enumerate() {
        let at = *place as usize * size;
        let label = &labels[*place as usize].tag;
        let entry = &mut entries[at..at + size];
        write_dummy_entry(master.keyed(), key.cell_slot(i as u32), label, entry);
    }
}

/// Writes a dummy entry: its label, and zeros under the pad.
fn write_dummy_entry<K: Keyed>(keyed: &K, pad: PadSlot, label: &[u8; 16], out: &mut [u8])
    requires some { 16 ≤ length out.old }
    requires most { length out.old ≤ 2064 }
    ensures { out.new ≡ label.now ++ xored (replicate (length out.old - 16) 0) (named_pad (keyed_fn K.prf K.pad) pad (length out.old - 16)) }
{
    out[..16].copy_from_slice(label);
    seal_zeros(keyed, pad, &mut out[16..]);
}

/// Writes the dummy blocks at their places, in the order of their numbers. Without dummies it costs no key.
pub(crate) fn write_dummy_blocks<K: Keyed>(
    master: &PreparedMaster<'_, K>,
    shape: Shape,
    places: &[u32],
    array: &mut [u8],
)
    requires count { length places.now ≤ 2 ^ 32 }
    requires places { All (λ place. (place + 1) * (8 * shape.big) ≤ length array.old) places.now }
    ensures { parts (8 * shape.big) array.new ≡ placed (parts (8 * shape.big) array.old) places.now (dummy_block_texts (keyed_fn K.prf K.pad) (plain_key (keyed_fn K.prf K.pad) master.now 9) shape (length places.now)) }
{
    if places.is_empty() {
        return;
    }
    let key = master.dummy_key();
    let size = shape.block_size();
    for (j, place) in places.iter().enumerate() {
        let at = *place as usize * size;
        seal_zeros(
            master.keyed(),
            key.block_slot(j as u32),
            &mut array[at..at + size],
        );
    }
}

/// Fills bytes with zeros, and encrypts them under the pad.
fn seal_zeros<K: Keyed>(keyed: &K, pad: PadSlot, out: &mut [u8])
    requires { length out.old ≤ 2048 }
    ensures { out.new ≡ xored (replicate (length out.old) 0) (named_pad (keyed_fn K.prf K.pad) pad (length out.old)) }
{
    out.fill(0);
    seal(pad, keyed, out);
}
