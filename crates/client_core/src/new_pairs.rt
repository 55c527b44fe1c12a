ghost use Rattle.std.specs.Prelude.{◌≡◌, ◌-◌, ◌<◌, ◌≤◌, ◌^◌, ◌++◌, [], All, IfOk, OnOk, length, map, slice_index_or};
ghost use Rattle.std.specs.List.{flat_map};
ghost use Rattle.add_counters.specs.NewEntry.{entry_text};
ghost use Rattle.client_registry.specs.IdNumber.{id_number};
ghost use Rattle.client_registry.specs.Registered.{facts, known_words};
ghost use Rattle.keyed_fn.specs.KeyedFn.{keyed_fn};
ghost use Rattle.sse_frames.specs.Frames.{entry_bytes, joined};
ghost use Rattle.sse_frames.specs.Order.{by_bytes};
ghost use Rattle.client_tag_order.specs.Tagged.{tagged_from, IsOrderOf};
ghost use Rattle.client_core.specs.Keys.{Keeps};
ghost use Rattle.client_core.specs.UpdateTexts.{next_entry_of, number_of, HaveSizes};

use crate::kept_keys::KeptKeys;
use add_counters::Entry;
use client_registry::{DocId, Registry};
use client_tag_order::Tagged;
use keyed_fn::Keyed;
use revocation_ids::{NumberedWord, Numbers};
use std::alloc::{AllocError, Global};
use word_keys::PreparedMaster;

/// The entry of the next addition of each of these words, in their order. None of them is at its last counter.
pub(crate) fn entries_of<K: Keyed>(
    alloc: Global,
    master: &PreparedMaster<'_, K>,
    registry: &Registry,
    keys: &mut KeptKeys,
    places: &[NumberedWord],
    id: DocId,
) -> Result<Vec<Entry>, AllocError>
    requires within { All (λ place. place.number < length (known_words registry.now)) places.now }
    requires counters { All (λ place. (facts registry.now).counter (slice_index_or (known_words registry.now) place.number []) < 2 ^ 32 - 1) places.now }
    ensures keeps { Keeps (keyed_fn K.prf K.pad) master.now (known_words registry.now) keys.old → Keeps (keyed_fn K.prf K.pad) master.now (known_words registry.now) keys.new }
    ensures count { IfOk result (λ entries. length entries.items ≡ length places.now) }
    ensures entries { Keeps (keyed_fn K.prf K.pad) master.now (known_words registry.now) keys.old → IfOk result (λ entries. map entry_text entries.items ≡ map (λ place. next_entry_of (keyed_fn K.prf K.pad) master.now (facts registry.now) (id_number id) (slice_index_or (known_words registry.now) place.number [])) places.now) }
{
    let mut entries = Vec::with_capacity(alloc, places.len())?;
    for place in places {
        let entry = keys.entry(master, registry, place.number, id)?;
        entries.push(entry)?;
    }
    Ok(entries)
}

/// The identifier's revocation number under each of these words, in their order.
pub(crate) fn numbers_of<K: Keyed>(
    alloc: Global,
    master: &PreparedMaster<'_, K>,
    registry: &Registry,
    keys: &mut KeptKeys,
    places: &[NumberedWord],
    id: DocId,
) -> Result<Numbers, AllocError>
    requires { All (λ place. place.number < length (known_words registry.now)) places.now }
    ensures keeps { Keeps (keyed_fn K.prf K.pad) master.now (known_words registry.now) keys.old → Keeps (keyed_fn K.prf K.pad) master.now (known_words registry.now) keys.new }
    ensures count { IfOk result (λ numbers. length numbers ≡ length places.now) }
    ensures numbers { Keeps (keyed_fn K.prf K.pad) master.now (known_words registry.now) keys.old → IfOk result (λ numbers. numbers ≡ map (λ place. number_of (keyed_fn K.prf K.pad) master.now (id_number id) (slice_index_or (known_words registry.now) place.number [])) places.now) }
{
    let mut numbers = Numbers::new(alloc, places.len())?;
    for place in places {
        keys.push_number(master, registry, place.number, id, &mut numbers)?;
    }
    Ok(numbers)
}

/// The labels of these entries, each with its place.
pub(crate) fn labels_of(alloc: Global, entries: &[Entry]) -> Result<Vec<Tagged>, AllocError>
    requires { length entries.now ≤ 2 ^ 32 }
    ensures { IfOk result (λ labels. labels.items ≡ tagged_from 0 (map (λ entry. entry.label) entries.now)) }
{
    let mut labels = Vec::with_capacity(alloc, entries.len())?;
    for (i, entry) in entries.iter().enumerate() {
        labels.push(Tagged {
            tag: entry.label,
            position: i as u32,
        })?;
    }
    Ok(labels)
}

/// The values alone, in the same order.
pub(crate) fn tags_of(alloc: Global, sorted: &[Tagged]) -> Result<Vec<[u8; 16]>, AllocError>
    ensures { IfOk result (λ tags. tags.items ≡ map (λ e. e.tag) sorted.now) }
{
    let mut tags = Vec::with_capacity(alloc, sorted.len())?;
    for e in sorted {
        tags.push(e.tag)?;
    }
    Ok(tags)
}

/// The entries by rising label, from the order of their labels.
pub(crate) fn in_order(
    alloc: Global,
    entries: &[Entry],
    order: &[Tagged],
) -> Result<Vec<Entry>, AllocError>
    requires { IsOrderOf (map (λ entry. entry.label) entries.now) order.now }
    ensures { IfOk result (λ sorted. sorted.items ≡ by_bytes (λ entry. entry.label) entries.now) }
{
    let mut sorted = Vec::with_capacity(alloc, order.len())?;
    for label in order {
        sorted.push(entries[label.position as usize])?;
    }
    Ok(sorted)
}

/// Appends an entry's label and its encrypted bytes.
fn push_entry(bytes: &mut Vec<u8>, entry: &Entry) -> Result<(), AllocError>
    ensures ok { OnOk result (bytes.new.items ≡ bytes.old.items ++ entry_bytes (entry_text entry.now)) }
    ensures label { length entry.now.label ≡ 16 }
    ensures sealed { length entry.now.sealed ≡ 8 }
{
    let Entry { label, sealed } = *entry;
    bytes.extend_from_slice(&label)?;
    bytes.extend_from_slice(&sealed)?;
    Ok(())
}

/// The entries, one after the other.
pub(crate) fn joined_entries(alloc: Global, entries: &[Entry]) -> Result<Vec<u8>, AllocError>
    ensures bytes { IfOk result (λ bytes. bytes.items ≡ flat_map entry_bytes (map entry_text entries.now)) }
    ensures sizes { IfOk result (λ _. HaveSizes entries.now) }
{
    let mut bytes = Vec::new(alloc);
    for entry in entries {
        push_entry(&mut bytes, entry)?;
    }
    Ok(bytes)
}

/// The numbers, one after the other.
pub(crate) fn joined_numbers(alloc: Global, numbers: &[[u8; 16]]) -> Result<Vec<u8>, AllocError>
    ensures { IfOk result (λ bytes. bytes.items ≡ joined numbers.now) }
{
    let mut bytes = Vec::new(alloc);
    for number in numbers {
        bytes.extend_from_slice(number)?;
    }
    Ok(bytes)
}
