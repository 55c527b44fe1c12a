ghost use Rattle.std.specs.Prelude.{◌≡◌, ◌≢◌, ◌≤◌, [], Err, IfOk, IsSome, length, map, option_map, true, unwrap_or};
ghost use Rattle.std.specs.List.{range_with_len};
ghost use Rattle.std.specs.Result.{result_err};
ghost use Rattle.client_registry.specs.Facts.{has_counters};
ghost use Rattle.client_registry.specs.IdNumber.{id_number};
ghost use Rattle.client_registry.specs.Registered.{facts, known_words};
ghost use Rattle.keyed_fn.specs.KeyedFn.{keyed_fn};
ghost use Rattle.sse_frames.specs.Frames.{IsFrame, IsNumber, frame_bytes};
ghost use Rattle.client_core.specs.Keys.{Keeps};
ghost use Rattle.client_core.specs.StandsFor.{AreNumbersOf};
ghost use Rattle.client_core.specs.UpdateFaults.{clash_fault};
ghost use Rattle.client_core.specs.UpdateTexts.{add_collision, add_text, delete_collision, delete_text};

use crate::command_fault::CommandFault;
use crate::equal_values::{add_clash, number_clash};
use crate::kept_keys::KeptKeys;
use crate::new_pairs::{entries_of, in_order, labels_of, numbers_of, tags_of};
use crate::update_frames::{checked_addition, checked_deletion};
use client_registry::{Doc, DocId, Registry};
use client_tag_order::by_tag;
use keyed_fn::Keyed;
use revocation_ids::{NumberedWord, split};
use std::alloc::{AllocError, Global};
use word_keys::PreparedMaster;

/// The frame of an addition of this document, whose words have these numbers, and a counter left if their pair is new. Errors:
/// `LabelClash` if two labels are equal, else `NumberClash` if two revocation numbers are; `NoMemory`.
pub(crate) fn add_update<K: Keyed>(
    alloc: Global,
    master: &PreparedMaster<'_, K>,
    registry: &Registry,
    keys: &mut KeptKeys,
    q: u32,
    doc: &Doc,
    words: &[u32],
) -> Result<Vec<u8>, CommandFault>
    requires numbered { AreNumbersOf registry.now doc.now.words words.now }
    requires counters { has_counters (facts registry.now) doc.now ≡ true }
    requires few { length doc.now.words ≤ 4096 }
    requires number { IsNumber q }
    ensures keeps { Keeps (keyed_fn K.prf K.pad) master.now (known_words registry.now) keys.old → Keeps (keyed_fn K.prf K.pad) master.now (known_words registry.now) keys.new }
    ensures fault { Keeps (keyed_fn K.prf K.pad) master.now (known_words registry.now) keys.old → result ≢ Err CommandFault.NoMemory → result_err result ≡ option_map clash_fault (add_collision (keyed_fn K.prf K.pad) master.now (facts registry.now) doc.now) }
    ensures bytes { Keeps (keyed_fn K.prf K.pad) master.now (known_words registry.now) keys.old → IfOk result (λ bytes. bytes.items ≡ frame_bytes (add_text (keyed_fn K.prf K.pad) master.now (facts registry.now) q doc.now)) }
    ensures frame { IfOk result (λ bytes. IsFrame bytes.items) }
{
    let parts = split(alloc, registry, words, doc.id())?;
    let fresh = parts.fresh.as_slice();
    let listed = parts.listed.as_slice();
    let made = entries_of(alloc, master, registry, keys, fresh, doc.id())?;
    let made = made.as_slice();
    let labels = labels_of(alloc, made)?;
    let labels = by_tag(labels)?;
    let labels = labels.as_slice();
    let numbers = numbers_of(alloc, master, registry, keys, listed, doc.id())?;
    let numbers = numbers.sorted()?;
    let numbers = numbers.as_slice();
    let entries = in_order(alloc, made, labels)?;
    let sent = tags_of(alloc, numbers)?;
    // The test comes after all that takes memory but the frame, so that what it finds is reported.
    let clash = add_clash(labels, fresh, numbers, listed);
    checked_addition(alloc, q, clash, entries.as_slice(), sent.as_slice())
}

/// The frame of a deletion of the live document of this identifier. Errors: `NumberClash` if two revocation numbers are equal;
/// `NoMemory`.
pub(crate) fn delete_update<K: Keyed>(
    alloc: Global,
    master: &PreparedMaster<'_, K>,
    registry: &Registry,
    keys: &mut KeptKeys,
    q: u32,
    id: DocId,
) -> Result<Vec<u8>, CommandFault>
    requires live { IsSome ((facts registry.now).live (id_number id)) }
    requires number { IsNumber q }
    ensures keeps { Keeps (keyed_fn K.prf K.pad) master.now (known_words registry.now) keys.old → Keeps (keyed_fn K.prf K.pad) master.now (known_words registry.now) keys.new }
    ensures fault { Keeps (keyed_fn K.prf K.pad) master.now (known_words registry.now) keys.old → result ≢ Err CommandFault.NoMemory → result_err result ≡ option_map clash_fault (delete_collision (keyed_fn K.prf K.pad) master.now (id_number id) (unwrap_or ((facts registry.now).live (id_number id)) [])) }
    ensures bytes { Keeps (keyed_fn K.prf K.pad) master.now (known_words registry.now) keys.old → IfOk result (λ bytes. bytes.items ≡ frame_bytes (delete_text (keyed_fn K.prf K.pad) master.now q (id_number id) (unwrap_or ((facts registry.now).live (id_number id)) []))) }
    ensures frame { IfOk result (λ bytes. IsFrame bytes.items) }
{
    let doc = registry.get(id).unwrap();
    let places = places_of(alloc, doc.numbers)?;
    let places = places.as_slice();
    let numbers = numbers_of(alloc, master, registry, keys, places, id)?;
    let numbers = numbers.sorted()?;
    let numbers = numbers.as_slice();
    let sent = tags_of(alloc, numbers)?;
    let clash = number_clash(numbers, places);
    checked_deletion(alloc, q, clash, sent.as_slice())
}

/// The words of these numbers, each at its position.
fn places_of(alloc: Global, numbers: &[u32]) -> Result<Vec<NumberedWord>, AllocError>
    requires { length numbers.now ≤ 4096 }
    ensures numbers { IfOk result (λ places. map (λ place. place.number) places.items ≡ numbers.now) }
    ensures positions { IfOk result (λ places. map (λ place. place.position) places.items ≡ range_with_len 0 (length numbers.now)) }
{
    let mut places = Vec::with_capacity(alloc, numbers.len())?;
    for (i, number) in numbers.iter().enumerate() {
        places.push(NumberedWord {
            position: i as u32,
            number: *number,
        })?;
    }
    Ok(places)
}
