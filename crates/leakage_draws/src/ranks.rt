ghost use Rattle.std.specs.Prelude.{◌≡◌, ◌<◌, ◌^◌, ◌++◌, ◌∷◌, [], IfOk, OnOk, flat_map, vec_len};
ghost use Rattle.leakage_draws.specs.Given.{tags_given};
ghost use Rattle.sse_model.specs.Positions.{ranks_of};
ghost use Rattle.client_tag_order.specs.Tagged.{tagged_from};

use crate::values::label_in;
use client_tag_order::{Tagged, by_tag};
use index_setup::ranks;
use leakage_names::Sheet;
use leakage_values::Drawing;
use std::alloc::{AllocError, Global};

/// Appends a tag at the next position. Error: where there is no memory, or no position of 32 bits.
fn push_tagged(tags: &mut Vec<Tagged>, tag: [u8; 16]) -> Result<(), AllocError>
    ensures tags { OnOk result (tags.new.items ≡ tags.old.items ++ tagged_from (vec_len tags.old) (tag ∷ [])) }
    ensures few { OnOk result (vec_len tags.new < 2 ^ 32) }
{
    if tags.len() >= u32::MAX as usize {
        return Err(AllocError);
    }
    let position = tags.len() as u32;
    tags.push(Tagged { tag, position })?;
    Ok(())
}

/// Appends the tag of a drawing, where it is one of a block.
fn push_tag(tags: &mut Vec<Tagged>, sheet: &Sheet, drawing: &Drawing) -> Result<(), AllocError>
    requires { vec_len tags.old < 2 ^ 32 }
    ensures tags { OnOk result (tags.new.items ≡ tags.old.items ++ tagged_from (vec_len tags.old) (tags_given sheet.now drawing.now)) }
    ensures few { OnOk result (vec_len tags.new < 2 ^ 32) }
{
    match drawing {
        Drawing::Block(tag, _) => push_tagged(tags, label_in(sheet, tag)?),
        Drawing::Entry(_, _) | Drawing::Number(_) | Drawing::Token(_) => Ok(()),
    }
}

/// The tags of the blocks among these drawings, each with its position among them.
fn block_tags(alloc: Global, sheet: &Sheet, drawings: &[Drawing]) -> Result<Vec<Tagged>, AllocError>
    ensures tags { IfOk result (λ tags. tags.items ≡ tagged_from 0 (flat_map (tags_given sheet.now) drawings.now)) }
    ensures few { IfOk result (λ tags. vec_len tags < 2 ^ 32) }
{
    let mut tags = Vec::new(alloc);
    for drawing in drawings {
        push_tag(&mut tags, sheet, drawing)?;
    }
    Ok(tags)
}

/// The rank of each block among these drawings: how many of their tags come before its own.
pub(crate) fn block_ranks(
    alloc: Global,
    sheet: &Sheet,
    drawings: &[Drawing],
) -> Result<Vec<u32>, AllocError>
    ensures { IfOk result (λ ranks. ranks.items ≡ ranks_of (flat_map (tags_given sheet.now) drawings.now)) }
{
    let sorted = by_tag(block_tags(alloc, sheet, drawings)?)?;
    ranks(alloc, &sorted)
}
