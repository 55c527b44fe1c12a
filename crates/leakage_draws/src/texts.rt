ghost use Rattle.std.specs.Prelude.{◌≡◌, ◌++◌, [], IfOk, OnOk, flat_map, get_or, map};
ghost use Rattle.leakage_frames.specs.Views.{draw_view};
ghost use Rattle.def_relabelling.specs.ByTexts.{texts_in, texts_of};

use crate::bytes::Bytes;
use leakage_frames::Draw;
use sse_frames::Items;
use std::alloc::{AllocError, Global};

/// Appends for each name that a draw takes the text that is drawn under its value: that of a pad, and nothing under any other.
fn push_texts(alloc: Global, texts: &mut Items<Bytes>, draw: &Draw) -> Result<(), AllocError>
    ensures { OnOk result (texts.new ≡ texts.old ++ texts_in (draw_view draw.now)) }
{
    texts.push(Bytes::none(alloc))?;
    match draw {
        Draw::Entry { label: _, cell } => texts.push(Bytes::of(alloc, cell.as_slice())?),
        Draw::Block { tag: _, block } => texts.push(Bytes::of(alloc, block.as_slice())?),
        Draw::Number(_) => Ok(()),
        Draw::Token(_) => Ok(()),
    }
}

/// The same of the draws of a command.
fn push_command(alloc: Global, texts: &mut Items<Bytes>, draws: &[Draw]) -> Result<(), AllocError>
    ensures { OnOk result (texts.new ≡ texts.old ++ flat_map texts_in (map draw_view draws.now)) }
{
    for draw in draws {
        push_texts(alloc, texts, draw)?;
    }
    Ok(())
}

/// For each name that these draws take, command by command, the text that is drawn under its value: that of a pad, and nothing under any
/// other.
pub(crate) fn drawn_texts(alloc: Global, draws: &[Items<Draw>]) -> Result<Items<Bytes>, AllocError>
    ensures { IfOk result (λ texts. texts ≡ texts_of (map (map draw_view) draws.now)) }
{
    let mut texts = Items::new(alloc);
    for own in draws {
        push_command(alloc, &mut texts, own.as_slice())?;
    }
    Ok(texts)
}

/// The text at this place, and nothing behind the last.
pub(crate) fn text_at(texts: &[Bytes], place: usize) -> &[u8]
    ensures { result.now ≡ get_or texts.now place [] }
{
    match texts.get(place) {
        Some(text) => text.as_slice(),
        None => &[],
    }
}
