ghost use Rattle.std.specs.Prelude.{◌≡◌, IfOk, map};
ghost use Rattle.keyed_fn.specs.KeyFormulas.{block_pad, cell_pad, place_tag, plus_pad};
ghost use Rattle.keyed_fn.specs.KeyedFn.{keyed_fn};
ghost use Rattle.sse_model.specs.Names.{block_size, cell_size};
ghost use Rattle.leakage_sheets.specs.ByKeys.{list_pad, value_by_word};
ghost use Rattle.leakage_sheets.specs.OwnKeys.{own_keys};

use crate::own_keys::OwnKeys;
use keyed_fn::Keyed;
use leakage_history::RunWords;
use leakage_names::NameKind;
use search_token::Token;
use sse_frames::Items;
use std::alloc::{AllocError, Global};
use two_level::Shape;
use word_keys::{PlaceKey, PreparedMaster};

/// The keys of each of these words, in their order.
pub(crate) fn keys_of<K: Keyed>(
    alloc: Global,
    master: &PreparedMaster<'_, K>,
    words: &RunWords,
) -> Result<Items<OwnKeys>, AllocError>
    ensures { IfOk result (λ keys. keys ≡ map (own_keys (keyed_fn K.prf K.pad) master.now) words.now) }
{
    let mut keys = Items::new(alloc);
    for number in 0..words.len() {
        keys.push(OwnKeys::of(master, words.word(number)))?;
    }
    Ok(keys)
}

/// A number that has 32 bits, as those of blocks and of dummies have in every history.
pub(crate) fn short(number: u64) -> Result<u32, AllocError>
    ensures { IfOk result (λ short. short ≡ number) }
{
    if number > u64::from(u32::MAX) {
        return Err(AllocError);
    }
    Ok(number as u32)
}

/// The pad of the cell of a word's list.
fn cell_pad_of<K: Keyed>(
    alloc: Global,
    keyed: &K,
    token: &Token,
    shape: Shape,
) -> Result<Vec<u8>, AllocError>
    ensures { IfOk result (λ pad. pad.items ≡ cell_pad (keyed_fn K.prf K.pad) token.now.pad_key (cell_size shape)) }
{
    let mut pad = vec![in alloc; 0u8; shape.cell_size()]?;
    token.open_cell(keyed, pad.as_mut_slice());
    Ok(pad)
}

/// The pad of a block of a word's list.
fn block_pad_of<K: Keyed>(
    alloc: Global,
    keyed: &K,
    token: &Token,
    shape: Shape,
    block: u64,
) -> Result<Vec<u8>, AllocError>
    ensures { IfOk result (λ pad. pad.items ≡ block_pad (keyed_fn K.prf K.pad) token.now.pad_key block (block_size shape)) }
{
    let block = short(block)?;
    let mut pad = vec![in alloc; 0u8; shape.block_size()]?;
    token.open_block(keyed, block, pad.as_mut_slice());
    Ok(pad)
}

/// A pad of a word's list: that of the cell at 0, then those of the blocks.
fn list_pad_of<K: Keyed>(
    alloc: Global,
    keyed: &K,
    token: &Token,
    shape: Shape,
    number: u64,
) -> Result<Vec<u8>, AllocError>
    ensures { IfOk result (λ pad. pad.items ≡ list_pad (keyed_fn K.prf K.pad) shape token.now.pad_key number) }
{
    if number == 0 {
        return cell_pad_of(alloc, keyed, token, shape);
    }
    block_pad_of(alloc, keyed, token, shape, number - 1)
}

/// The pad of an addition of a word.
fn plus_pad_of<K: Keyed>(
    alloc: Global,
    keyed: &K,
    token: &Token,
    counter: u64,
) -> Result<Vec<u8>, AllocError>
    ensures { IfOk result (λ pad. pad.items ≡ plus_pad (keyed_fn K.prf K.pad) token.now.plus_pad_key counter) }
{
    let mut pad = [0u8; 8];
    token.open_plus(keyed, counter, &mut pad);
    Vec::from_slice(alloc, &pad)
}

/// The place tag of a block of a word.
fn place_tag_of<K: Keyed>(
    alloc: Global,
    keyed: &K,
    place: &PlaceKey,
    block: u64,
) -> Result<Vec<u8>, AllocError>
    ensures { IfOk result (λ tag. tag.items ≡ place_tag (keyed_fn K.prf K.pad) place.now block) }
{
    Vec::from_slice(alloc, &place.tag(keyed, short(block)?))
}

/// The value of this kind and number of the word with these keys.
pub(crate) fn word_value<K: Keyed>(
    alloc: Global,
    keyed: &K,
    own: &OwnKeys,
    shape: Shape,
    kind: NameKind,
    number: u64,
) -> Result<Vec<u8>, AllocError>
    ensures { IfOk result (λ value. value.items ≡ value_by_word (keyed_fn K.prf K.pad) shape own.now kind number) }
{
    match kind {
        NameKind::Token => Vec::from_slice(alloc, &own.token.to_bytes()),
        NameKind::ListLabel => Vec::from_slice(alloc, &own.token.list_label(keyed)),
        NameKind::ListPad => list_pad_of(alloc, keyed, &own.token, shape, number),
        NameKind::PlusLabel => Vec::from_slice(alloc, &own.token.plus_label(keyed, number)),
        NameKind::PlusPad => plus_pad_of(alloc, keyed, &own.token, number),
        NameKind::Revocation => Vec::from_slice(alloc, &own.token.revocation(keyed, number)),
        NameKind::PlaceTag => place_tag_of(alloc, keyed, &own.place, number),
        NameKind::DummyLabel => Ok(Vec::new(alloc)),
        NameKind::DummyCell => Ok(Vec::new(alloc)),
        NameKind::DummyTag => Ok(Vec::new(alloc)),
        NameKind::DummyBlock => Ok(Vec::new(alloc)),
    }
}
