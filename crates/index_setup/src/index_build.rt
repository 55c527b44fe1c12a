ghost use Rattle.std.specs.Prelude.{◌≡◌, ◌≢◌, ◌+◌, ◌*◌, ◌<◌, ◌^◌, List, ℕ, length, map, option_map, None, IfOk, IfSome, IsOkUnless};
ghost use Rattle.std.specs.Result.{result_err};
ghost use Rattle.client_registry.specs.Acceptance.{blocks_of, padded_blocks, padded_words, size_refusal};
ghost use Rattle.client_registry.specs.Documents.{words_of};
ghost use Rattle.client_registry.specs.FirstClash as clashes;
ghost use Rattle.client_registry.specs.Setup.{setup_with};
ghost use Rattle.keyed_fn.specs.KeyedFn.{keyed_fn};
ghost use Rattle.list_packing.specs.Parts.{parts};
ghost use Rattle.sse_frames.specs.Frames.{entry_bytes};
ghost use Rattle.index_setup.specs.Entries.{array_bytes, array_texts, dictionary_bytes, entry_texts, index_labels, index_tags, label_clash, place_clash, setup_blocks, setup_entries, setup_ranks};
ghost use Rattle.index_setup.specs.Placed.{placed};
ghost use Rattle.index_setup.specs.Refused.{build_refusal, clash_refusal, refused_by_size};
ghost use Rattle.index_setup.specs.SizeOf.{setup_sized, HasSize, IsSizeOf};
ghost use Rattle.index_setup.specs.Sources.{AreSources};
ghost use Rattle.client_tag_order.specs.Tagged.{IsOrderOf};

use crate::dummies::{write_dummy_blocks, write_dummy_entries};
use crate::entry_bytes::{entry_size, write_blocks, write_entry};
use crate::fault::BuildFault;
use crate::index::Index;
use crate::labels::{blocks_in, labels_of, tags_of};
use crate::lists::lists_of;
use crate::order::ranks;
use client_registry::{Docs, Size, Sizes, size_of};
use client_tag_order::{Tagged, by_tag, first_clash};
use keyed_fn::Keyed;
use std::alloc::{AllocError, Global};
use word_keys::{MasterKey, PreparedMaster};

// Promise P49 (caller): A setup of a refused size is refused for that cause; otherwise its index has the counted words and blocks, padded to multiples of Q.
//   clauses: refused, words, blocks
// Promise P50 (caller): The index of a setup has exactly the defined entries and blocks, dummies included, sorted by label and by tag.
//   clauses: entries, array, words, blocks, b, big; not: That labels and cells look random, which is assumed of the two functions.
// Promise P51 (caller): A setup with two equal labels or tags is refused with the first such pair; out of memory is the only other answer.
//   clauses: clash, built, accepted; assumes: accepted setup
/// Builds the index of the documents with these parameters. With m words and a blocks it has m2 entries and a2 blocks, which are
/// the next multiples of Q; zero stays zero.
///
/// Errors: the first cause of `BuildFault` that applies. No document, word or key is changed.
pub fn build<K: Keyed>(
    alloc: Global,
    keyed: &K,
    key: &MasterKey,
    docs: &Docs,
    sizes: Sizes,
) -> Result<Index, BuildFault>
    // Which error: a refusal by size takes no memory, so none hides it; a clash is named, or memory is wanting.
    ensures refused { IfSome (size_refusal (setup_with docs.now.documents sizes.b sizes.big sizes.pad)) (λ fault. result ≡ Err (refused_by_size fault)) }
    ensures clash { size_refusal (setup_with docs.now.documents sizes.b sizes.big sizes.pad) ≡ None → result ≢ Err BuildFault.NoMemory → IfSome (clash_refusal (keyed_fn K.prf K.pad) key.now (setup_with docs.now.documents sizes.b sizes.big sizes.pad)) (λ fault. result ≡ Err fault) }
    ensures built { build_refusal (keyed_fn K.prf K.pad) key.now (setup_with docs.now.documents sizes.b sizes.big sizes.pad) ≡ None → IsOkUnless result BuildFault.NoMemory }
    ensures accepted { IfOk result (λ _. build_refusal (keyed_fn K.prf K.pad) key.now (setup_with docs.now.documents sizes.b sizes.big sizes.pad) ≡ None) }

    // The index is the one of the definitions.
    ensures entries { IfOk result (λ index. index.entries ≡ dictionary_bytes (keyed_fn K.prf K.pad) key.now (setup_with docs.now.documents sizes.b sizes.big sizes.pad)) }
    ensures array { IfOk result (λ index. index.array ≡ array_bytes (keyed_fn K.prf K.pad) key.now (setup_with docs.now.documents sizes.b sizes.big sizes.pad)) }
    ensures words { IfOk result (λ index. index.words ≡ padded_words (setup_with docs.now.documents sizes.b sizes.big sizes.pad)) }
    ensures blocks { IfOk result (λ index. index.blocks ≡ padded_blocks (setup_with docs.now.documents sizes.b sizes.big sizes.pad)) }
    ensures own_words { IfOk result (λ index. index.own_words ≡ length (words_of docs.now.documents)) }
    ensures own_blocks { IfOk result (λ index. index.own_blocks ≡ blocks_of (setup_with docs.now.documents sizes.b sizes.big sizes.pad)) }
    ensures b { IfOk result (λ index. index.b ≡ sizes.b) }
    ensures big { IfOk result (λ index. index.big ≡ sizes.big) }
    ensures pad { IfOk result (λ index. index.pad ≡ sizes.pad) }
{
    let size = size_of(docs, sizes)?;
    let master = key.prepare(keyed);
    build_sized(alloc, &master, docs, &size)
}

/// The index of this size. Errors: the first two equal labels, else the first two equal places; `NoMemory`.
fn build_sized<K: Keyed>(
    alloc: Global,
    master: &PreparedMaster<'_, K>,
    docs: &Docs,
    size: &Size,
) -> Result<Index, BuildFault>
    requires { IsSizeOf docs.now.documents size.now }
    ensures clash { result ≢ Err BuildFault.NoMemory → result_err result ≡ clash_refusal (keyed_fn K.prf K.pad) master.now (setup_sized docs.now.documents size.now) }
    ensures entries { IfOk result (λ index. index.entries ≡ dictionary_bytes (keyed_fn K.prf K.pad) master.now (setup_sized docs.now.documents size.now)) }
    ensures array { IfOk result (λ index. index.array ≡ array_bytes (keyed_fn K.prf K.pad) master.now (setup_sized docs.now.documents size.now)) }
    ensures size { IfOk result (λ index. HasSize index size.now) }
{
    let labels = match distinct_labels(alloc, master, docs, size) {
        Ok(labels) => labels,
        Err(fault) => return Err(fault),
    };
    match distinct_ranks(alloc, master, docs, size) {
        Ok(block_ranks) => Ok(write_index(alloc, master, docs, size, &labels, &block_ranks)?),
        Err(fault) => Err(fault),
    }
}

/// The labels of the entries with their positions, by rising label, of an index of this size; all differ. Errors: `LabelClash`
/// exactly where two are equal; `NoMemory`.
fn distinct_labels<K: Keyed>(
    alloc: Global,
    master: &PreparedMaster<'_, K>,
    docs: &Docs,
    size: &Size,
) -> Result<Vec<Tagged>, BuildFault>
    requires { IsSizeOf docs.now.documents size.now }
    ensures order { IfOk result (λ order. IsOrderOf (index_labels (keyed_fn K.prf K.pad) master.now (setup_sized docs.now.documents size.now)) order.items) }
    ensures clash { result ≢ Err BuildFault.NoMemory → result_err result ≡ option_map (λ entries. BuildFault.LabelClash entries.0 entries.1) (label_clash (keyed_fn K.prf K.pad) master.now (setup_sized docs.now.documents size.now)) }
{
    let labels = label_order(alloc, master, docs, size)?;
    match labels_differ(&labels) {
        Ok(()) => Ok(labels),
        Err(fault) => Err(fault),
    }
}

/// The place of each block of an index of this size; all differ. Errors: `PlaceClash` exactly where two are equal; `NoMemory`.
fn distinct_ranks<K: Keyed>(
    alloc: Global,
    master: &PreparedMaster<'_, K>,
    docs: &Docs,
    size: &Size,
) -> Result<Vec<u32>, BuildFault>
    requires { IsSizeOf docs.now.documents size.now }
    ensures ranks { IfOk result (λ ranks. ranks.items ≡ setup_ranks (keyed_fn K.prf K.pad) master.now (setup_sized docs.now.documents size.now)) }
    ensures clash { result ≢ Err BuildFault.NoMemory → result_err result ≡ option_map (λ blocks. BuildFault.PlaceClash blocks.0 blocks.1) (place_clash (keyed_fn K.prf K.pad) master.now (setup_sized docs.now.documents size.now)) }
{
    let tags = place_order(alloc, master, docs, size)?;
    match places_differ(&tags) {
        Ok(()) => Ok(ranks(alloc, &tags)?),
        Err(fault) => Err(fault),
    }
}

/// The labels of the entries with their positions, by rising label, of an index of this size.
fn label_order<K: Keyed>(
    alloc: Global,
    master: &PreparedMaster<'_, K>,
    docs: &Docs,
    size: &Size,
) -> Result<Vec<Tagged>, AllocError>
    requires { IsSizeOf docs.now.documents size.now }
    ensures { IfOk result (λ order. IsOrderOf (index_labels (keyed_fn K.prf K.pad) master.now (setup_sized docs.now.documents size.now)) order.items) }
{
    by_tag(labels_of(alloc, master, docs, size)?)
}

// Promise P52 (inside): Searching sorted labels or tags for equal ones takes no memory and finds a pair if and only if there is one.
//   clauses: ensures
/// Whether these labels, by rising label, differ. Error: `LabelClash` exactly where two are equal; it takes no memory, so
/// that no want of it comes in place of a clash that was found.
fn labels_differ(labels: &[Tagged]) -> Result<(), BuildFault>
    ensures { (by_position : List (List ℕ)) → IsOrderOf by_position labels.now → result_err result ≡ option_map (λ entries. BuildFault.LabelClash entries.0 entries.1) (clashes.first_clash by_position) }
{
    match first_clash(labels) {
        Some((first, second)) => Err(BuildFault::LabelClash { first, second }),
        None => Ok(()),
    }
}

/// The place tags of the blocks with their positions, by rising tag, of an index of this size.
fn place_order<K: Keyed>(
    alloc: Global,
    master: &PreparedMaster<'_, K>,
    docs: &Docs,
    size: &Size,
) -> Result<Vec<Tagged>, AllocError>
    requires { IsSizeOf docs.now.documents size.now }
    ensures { IfOk result (λ order. IsOrderOf (index_tags (keyed_fn K.prf K.pad) master.now (setup_sized docs.now.documents size.now)) order.items) }
{
    by_tag(tags_of(alloc, master, docs, size)?)
}

// Promise P52, also here; clauses: ensures
/// Whether these place tags, by rising tag, differ. Error: `PlaceClash` exactly where two are equal; it takes no memory.
fn places_differ(tags: &[Tagged]) -> Result<(), BuildFault>
    ensures { (by_position : List (List ℕ)) → IsOrderOf by_position tags.now → result_err result ≡ option_map (λ blocks. BuildFault.PlaceClash blocks.0 blocks.1) (clashes.first_clash by_position) }
{
    match first_clash(tags) {
        Some((first, second)) => Err(BuildFault::PlaceClash { first, second }),
        None => Ok(()),
    }
}

/// The index, with each cell and each block encrypted in its place. `labels` are by rising label, `block_ranks` has
/// the place of each block.
fn write_index<K: Keyed>(
    alloc: Global,
    master: &PreparedMaster<'_, K>,
    docs: &Docs,
    size: &Size,
    labels: &[Tagged],
    block_ranks: &[u32],
) -> Result<Index, AllocError>
    requires size { IsSizeOf docs.now.documents size.now }
    requires labels { IsOrderOf (index_labels (keyed_fn K.prf K.pad) master.now (setup_sized docs.now.documents size.now)) labels.now }
    requires block_ranks { block_ranks.now ≡ setup_ranks (keyed_fn K.prf K.pad) master.now (setup_sized docs.now.documents size.now) }
    ensures entries { IfOk result (λ index. index.entries ≡ dictionary_bytes (keyed_fn K.prf K.pad) master.now (setup_sized docs.now.documents size.now)) }
    ensures array { IfOk result (λ index. index.array ≡ array_bytes (keyed_fn K.prf K.pad) master.now (setup_sized docs.now.documents size.now)) }
    ensures size { IfOk result (λ index. HasSize index size.now) }
{
    let entry_ranks = ranks(alloc, labels)?;
    let ids = lists_of(alloc, docs)?;
    let mut entries = vec![in alloc; 0u8; dictionary_size(size)]?;
    let mut array = vec![in alloc; 0u8; array_size(size)]?;
    let from = Sources {
        labels,
        entry_ranks: &entry_ranks,
        ids: &ids,
        block_ranks,
    };
    write_texts(master, docs, size, from, &mut entries, &mut array);
    Ok(Index::new(size, entries, array))
}

/// The bytes of all entries.
fn dictionary_size(size: &Size) -> usize
    ensures { result ≡ size.now.padded_words * (17 + 8 * size.now.shape.b) }
{
    size.padded_words as usize * entry_size(size.shape)
}

/// The bytes of all blocks.
fn array_size(size: &Size) -> usize
    ensures { result ≡ size.now.padded_blocks * (8 * size.now.shape.big) }
{
    size.padded_blocks as usize * size.shape.block_size()
}

/// What entries and blocks are written from.
#[derive(Clone, Copy)]
struct Sources<'a> {
    /// The labels by rising label.
    labels: &'a [Tagged],
    /// The place of each entry.
    entry_ranks: &'a [u32],
    /// The identifiers of all lists, by word number.
    ids: &'a [u64],
    /// The place of each block.
    block_ranks: &'a [u32],
}

/// Writes each entry and each block in its place: those of the words, then the dummies.
fn write_texts<K: Keyed>(
    master: &PreparedMaster<'_, K>,
    docs: &Docs,
    size: &Size,
    from: Sources<'_>,
    entries: &mut [u8],
    array: &mut [u8],
)
    requires size { IsSizeOf docs.now.documents size.now }
    requires from { AreSources (keyed_fn K.prf K.pad) master.now (setup_sized docs.now.documents size.now) from.labels.now from.entry_ranks.now from.ids.now from.block_ranks.now }
    requires entries_size { length entries.old ≡ length from.labels.now * (17 + 8 * size.now.shape.b) }
    requires array_size { length array.old ≡ length from.block_ranks.now * (8 * size.now.shape.big) }
    ensures entries { parts (17 + 8 * size.now.shape.b) entries.new ≡ placed (parts (17 + 8 * size.now.shape.b) entries.old) from.entry.entry_ranks.now (map entry_bytes (setup_entries (keyed_fn K.prf K.pad) master.now (setup_sized docs.now.documents size.now))) }
    ensures array { parts (8 * size.now.shape.big) array.new ≡ placed (parts (8 * size.now.shape.big) array.old) from.entry.block_ranks.now (map (λ block. block.text) (setup_blocks (keyed_fn K.prf K.pad) master.now (setup_sized docs.now.documents size.now))) }
{
    let shape = size.shape;
    let (_, entry_places) = from.entry_ranks.split_at(size.words as usize);
    let (_, block_places) = from.block_ranks.split_at(size.blocks as usize);
    write_lists(master, docs, size, from, entries, array);
    write_dummy_entries(master, shape, from.labels, entry_places, entries);
    write_dummy_blocks(master, shape, block_places, array);
}

/// Writes the entry and the blocks of each word in their places, and no dummies.
fn write_lists<K: Keyed>(
    master: &PreparedMaster<'_, K>,
    docs: &Docs,
    size: &Size,
    from: Sources<'_>,
    entries: &mut [u8],
    array: &mut [u8],
)
    requires size { IsSizeOf docs.now.documents size.now }
    requires from { AreSources (keyed_fn K.prf K.pad) master.now (setup_sized docs.now.documents size.now) from.labels.now from.entry_ranks.now from.ids.now from.block_ranks.now }
    requires entries_size { length entries.old ≡ length from.labels.now * (17 + 8 * size.now.shape.b) }
    requires array_size { length array.old ≡ length from.block_ranks.now * (8 * size.now.shape.big) }
    ensures entries { parts (17 + 8 * size.now.shape.b) entries.new ≡ placed (parts (17 + 8 * size.now.shape.b) entries.old) from.entry.entry_ranks.now (entry_texts (keyed_fn K.prf K.pad) master.now (setup_sized docs.now.documents size.now) 0 (words_of docs.now.documents)) }
    ensures array { parts (8 * size.now.shape.big) array.new ≡ placed (parts (8 * size.now.shape.big) array.old) from.entry.block_ranks.now (array_texts (keyed_fn K.prf K.pad) master.now (setup_sized docs.now.documents size.now) 0 (words_of docs.now.documents)) }
{
    let shape = size.shape;
    let mut ids = from.ids;
    let mut ranks = from.block_ranks;
    for w in 0..docs.words() {
        let n = docs.list_len(w);
        let (list, later_ids) = ids.split_at(n as usize);
        let (places, later_ranks) = ranks.split_at(blocks_in(n, shape) as usize);
        let mut pads = master.list_pads(docs.word(w));
        let place = from.entry_ranks[w] as usize;
        let at = place * entry_size(shape);
        let entry = &mut entries[at..at + entry_size(shape)];
        write_entry(
            master.keyed(),
            pads.next(),
            &from.labels[place].tag,
            list,
            places,
            shape,
            entry,
        );
        write_blocks(master.keyed(), &mut pads, list, places, shape, array);
        ids = later_ids;
        ranks = later_ranks;
    }
}
