ghost use Rattle.std.specs.Prelude.{◌≡◌, ◌≤◌, IfOk};
ghost use Rattle.keyed_fn.specs.DummyFormulas.{dummy_block_pad, dummy_cell_pad, dummy_label, dummy_tag};
ghost use Rattle.keyed_fn.specs.KeyedFn.{keyed_fn};
ghost use Rattle.leakage_sheets.specs.ByKeys.{value_by_dummies};
ghost use Rattle.word_keys.specs.PadName.{named_pad};

use crate::words::short;
use keyed_fn::Keyed;
use leakage_names::NameKind;
use std::alloc::{AllocError, Global};
use two_level::Shape;
use word_keys::{DummyKey, PadSlot, seal};

/// The pad of a slot, of so many bytes: zeros that it encrypts.
fn pad_of<K: Keyed>(
    alloc: Global,
    keyed: &K,
    slot: PadSlot,
    size: usize,
) -> Result<Vec<u8>, AllocError>
    requires { size ≤ 2048 }
    ensures { IfOk result (λ pad. pad.items ≡ named_pad (keyed_fn K.prf K.pad) slot size) }
{
    let mut zeros = [0u8; 2048];
    let pad = &mut zeros[..size];
    seal(slot, keyed, pad);
    Vec::from_slice(alloc, pad)
}

/// The value of this kind and number of a dummy under these keys.
pub(crate) fn dummy_value<K: Keyed>(
    alloc: Global,
    keyed: &K,
    keys: &DummyKey,
    shape: Shape,
    kind: NameKind,
    number: u64,
) -> Result<Vec<u8>, AllocError>
    ensures { IfOk result (λ value. value.items ≡ value_by_dummies (keyed_fn K.prf K.pad) shape keys.now kind number) }
{
    let i = short(number)?;
    match kind {
        NameKind::DummyLabel => Vec::from_slice(alloc, &keys.label(keyed, i)),
        NameKind::DummyCell => pad_of(alloc, keyed, keys.cell_slot(i), shape.cell_size()),
        NameKind::DummyTag => Vec::from_slice(alloc, &keys.tag(keyed, i)),
        NameKind::DummyBlock => pad_of(alloc, keyed, keys.block_slot(i), shape.block_size()),
        NameKind::Token => Ok(Vec::new(alloc)),
        NameKind::ListLabel => Ok(Vec::new(alloc)),
        NameKind::ListPad => Ok(Vec::new(alloc)),
        NameKind::PlusLabel => Ok(Vec::new(alloc)),
        NameKind::PlusPad => Ok(Vec::new(alloc)),
        NameKind::Revocation => Ok(Vec::new(alloc)),
        NameKind::PlaceTag => Ok(Vec::new(alloc)),
    }
}
