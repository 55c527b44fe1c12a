ghost use Rattle.std.specs.Prelude.{◌≡◌, ◌+◌, ◌<◌, ◌≤◌, ◌^◌, ◌++◌, map, vec_len, IfOk, OnOk, IsSome};
ghost use Rattle.std.specs.List.{range_with_len};
ghost use Rattle.client_registry.specs.WordBytes.{word_bytes};
ghost use Rattle.keyed_fn.specs.KeyedFn.{keyed_fn};
ghost use Rattle.keyed_fn.specs.KeyFormulas.{part_key, place_tag};
ghost use Rattle.two_level.specs.Plan as layout;
ghost use Rattle.index_setup.specs.Entries.{index_labels, index_tags};
ghost use Rattle.index_setup.specs.SizeOf.{setup_sized, IsSizeOf};
ghost use Rattle.client_tag_order.specs.Tagged.{tagged_from};

use crate::dummies::{push_dummy_labels, push_dummy_tags};
use client_registry::{Docs, Size, Word};
use client_tag_order::Tagged;
use keyed_fn::Keyed;
use std::alloc::{AllocError, Global};
use two_level::Shape;
use word_keys::{PlaceTags, PreparedMaster};

/// The label of each word, by word number, then those of the dummies. `size` is that of the documents' index.
pub(crate) fn labels_of<K: Keyed>(
    alloc: Global,
    master: &PreparedMaster<'_, K>,
    docs: &Docs,
    size: &Size,
) -> Result<Vec<Tagged>, AllocError>
    requires { IsSizeOf docs.now.documents size.now }
    ensures { IfOk result (λ labels. labels.items ≡ tagged_from 0 (index_labels (keyed_fn K.prf K.pad) master.now (setup_sized docs.now.documents size.now))) }
{
    let mut labels = Vec::with_capacity(alloc, size.padded_words as usize)?;
    for w in 0..docs.words() {
        let tag = master.list_label(docs.word(w));
        let position = w as u32;
        labels.push(Tagged { tag, position })?;
    }
    push_dummy_labels(&mut labels, master, size.padded_words - size.words)?;
    Ok(labels)
}

/// The place tag of each block, by word number and then by block number, then those of the dummies. `size` is that of the
/// documents' index.
pub(crate) fn tags_of<K: Keyed>(
    alloc: Global,
    master: &PreparedMaster<'_, K>,
    docs: &Docs,
    size: &Size,
) -> Result<Vec<Tagged>, AllocError>
    requires { IsSizeOf docs.now.documents size.now }
    ensures { IfOk result (λ tags. tags.items ≡ tagged_from 0 (index_tags (keyed_fn K.prf K.pad) master.now (setup_sized docs.now.documents size.now))) }
{
    let mut tags = Vec::with_capacity(alloc, size.padded_blocks as usize)?;
    for w in 0..docs.words() {
        let count = blocks_in(docs.list_len(w), size.shape);
        push_tags(&mut tags, master, docs.word(w), count)?;
    }
    push_dummy_tags(&mut tags, master, size.padded_blocks - size.blocks)?;
    Ok(tags)
}

/// Appends the tags of the `count` blocks of a word's list. A word without blocks costs no key.
fn push_tags<K: Keyed>(
    tags: &mut Vec<Tagged>,
    master: &PreparedMaster<'_, K>,
    word: &Word,
    count: u32,
) -> Result<(), AllocError>
    requires { vec_len tags.old + count < 2 ^ 32 }
    ensures { OnOk result (tags.new.items ≡ tags.old.items ++ tagged_from (vec_len tags.old) (map (place_tag (keyed_fn K.prf K.pad) (part_key (keyed_fn K.prf K.pad) master.now 6 (word_bytes word.now))) (range_with_len 0 count))) }
{
    if count == 0 {
        return Ok(());
    }
    let key = master.place_key(word).tags(master.keyed());
    push_under(tags, &key, count)
}

/// Appends the tags of the first `count` blocks of a list under its key.
fn push_under<K: Keyed>(
    tags: &mut Vec<Tagged>,
    key: &PlaceTags<'_, K>,
    count: u32,
) -> Result<(), AllocError>
    requires { vec_len tags.old + count < 2 ^ 32 }
    ensures { OnOk result (tags.new.items ≡ tags.old.items ++ tagged_from (vec_len tags.old) (map (place_tag (keyed_fn K.prf K.pad) key.now) (range_with_len 0 count))) }
{
    for i in 0..count {
        let tag = key.tag(i);
        let position = tags.len() as u32;
        tags.push(Tagged { tag, position })?;
    }
    Ok(())
}

/// How many blocks a list of n identifiers takes, which isn't too long.
pub fn blocks_in(n: u32, shape: Shape) -> u32
    requires some { 1 ≤ n }
    requires planned { IsSome (layout.plan shape n) }
    ensures { result ≡ layout.block_count (layout.plan shape n) }
{
    let Ok(plan) = shape.plan(u64::from(n)) else {
        unreachable!()
    };
    plan.pointer_blocks + plan.data_blocks
}
