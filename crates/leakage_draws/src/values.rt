ghost use Rattle.std.specs.Prelude.{◌≡◌, IfOk};
ghost use Rattle.chacha_stream.specs.Xored.{xored};
ghost use Rattle.leakage_draws.specs.Given.{draw_given, given};
ghost use Rattle.leakage_frames.specs.Views.{draw_view};

use crate::bytes::{copied, masked};
use leakage_frames::Draw;
use leakage_names::{Name, Sheet};
use leakage_values::Drawing;
use sse_frames::Items;
use std::alloc::{AllocError, Global};

/// The value of a name. Error: where the sheet has none.
pub(crate) fn value_in<'a>(sheet: &'a Sheet, name: &Name) -> Result<&'a [u8], AllocError>
    ensures { IfOk result (λ value. value.now ≡ given sheet.now name.now) }
{
    match sheet.get(name) {
        Some(value) => Ok(value),
        None => Err(AllocError),
    }
}

/// The value of a name as a label, a tag or a number. Error: where the sheet has none of 16 bytes.
pub(crate) fn label_in(sheet: &Sheet, name: &Name) -> Result<[u8; 16], AllocError>
    ensures { IfOk result (λ label. label ≡ given sheet.now name.now) }
{
    let value = value_in(sheet, name)?;
    if value.len() != 16 {
        return Err(AllocError);
    }
    let mut label = [0u8; 16];
    label.copy_from_slice(value);
    Ok(label)
}

/// A plaintext XORed with the value of a pad. Error: where the sheet has none that is long enough, or there is no memory.
fn sealed_text(
    alloc: Global,
    sheet: &Sheet,
    pad: &Name,
    clear: &[u8],
) -> Result<Items<u8>, AllocError>
    ensures { IfOk result (λ text. text ≡ xored clear.now (given sheet.now pad.now)) }
{
    let pad = value_in(sheet, pad)?;
    if pad.len() < clear.len() {
        return Err(AllocError);
    }
    masked(alloc, clear, pad)
}

/// What is drawn for a value: of an entry or a block, with this plaintext.
pub(crate) fn draw_of(
    alloc: Global,
    sheet: &Sheet,
    drawing: &Drawing,
    clear: &[u8],
) -> Result<Draw, AllocError>
    ensures { IfOk result (λ draw. draw_view draw ≡ draw_given sheet.now drawing.now clear.now) }
{
    match drawing {
        Drawing::Entry(label, pad) => {
            let cell = sealed_text(alloc, sheet, pad, clear)?;
            let label = label_in(sheet, label)?;
            Ok(Draw::Entry { label, cell })
        }
        Drawing::Block(tag, pad) => {
            let block = sealed_text(alloc, sheet, pad, clear)?;
            let tag = label_in(sheet, tag)?;
            Ok(Draw::Block { tag, block })
        }
        Drawing::Number(name) => Ok(Draw::Number(label_in(sheet, name)?)),
        Drawing::Token(name) => Ok(Draw::Token(copied(alloc, value_in(sheet, name)?)?)),
    }
}
