ghost use Rattle.std.specs.Prelude.{◌≡◌, ◌<◌, ◌≤◌, ◌^◌, ◌++◌, IfOk, None, OnOk, length, map, ℕ};
ghost use Rattle.std.specs.List.{range_with_len};
ghost use Rattle.client_registry.specs.Acceptance.{size_refusal};
ghost use Rattle.client_registry.specs.Documents.{words_of};
ghost use Rattle.client_registry.specs.Setup.{setup_with};
ghost use Rattle.leakage_values.specs.Numbered.{number_of_word, numbered_drawing};
ghost use Rattle.leakage_values.specs.SetupDrawings.{block_by_number, blocks_by_number, dummy_block_drawing, dummy_entry_drawing, entry_by_number};
ghost use Rattle.def_leakage.specs.DrawnValues.{drawings_of_setup};
ghost use Rattle.two_level.specs.Plan.{block_count, plan};

use crate::drawn::Drawing;
use crate::numbered_names::{name, number_of};
use client_registry::{Docs, Sizes, size_of};
use leakage_history::{History, RunWords};
use leakage_names::{NO_WORD, NameKind};
use sse_frames::Items;
use std::alloc::{AllocError, Global};
use two_level::Shape;

/// The entry of the word of this number.
fn entry(epoch: u32, word: u32) -> Drawing
    ensures { result ≡ entry_by_number epoch word }
{
    Drawing::Entry(
        name(epoch, word, NameKind::ListLabel, 0),
        name(epoch, word, NameKind::ListPad, 0),
    )
}

/// Block i of the list of the word of this number.
fn block(epoch: u32, word: u32, i: u32) -> Drawing
    ensures { result ≡ block_by_number epoch word i }
{
    Drawing::Block(
        name(epoch, word, NameKind::PlaceTag, u64::from(i)),
        name(epoch, word, NameKind::ListPad, u64::from(i) + 1),
    )
}

/// Dummy entry i.
fn dummy_entry(epoch: u32, i: u32) -> Drawing
    ensures { result ≡ dummy_entry_drawing epoch i }
{
    Drawing::Entry(
        name(epoch, NO_WORD, NameKind::DummyLabel, u64::from(i)),
        name(epoch, NO_WORD, NameKind::DummyCell, u64::from(i)),
    )
}

/// Dummy block j.
fn dummy_block(epoch: u32, j: u32) -> Drawing
    ensures { result ≡ dummy_block_drawing epoch j }
{
    Drawing::Block(
        name(epoch, NO_WORD, NameKind::DummyTag, u64::from(j)),
        name(epoch, NO_WORD, NameKind::DummyBlock, u64::from(j)),
    )
}

/// Appends the entries of the setup's words.
fn push_entries(
    drawings: &mut Items<Drawing>,
    words: &RunWords,
    docs: &Docs,
    epoch: u32,
) -> Result<(), AllocError>
    requires { length words.now < 2 ^ 32 }
    ensures { OnOk result (drawings.new ≡ drawings.old ++ map (λ word. entry_by_number epoch (number_of_word words.now word)) (words_of docs.now.documents)) }
{
    for w in 0..docs.words() {
        drawings.push(entry(epoch, number_of(words, docs.word(w))))?;
    }
    Ok(())
}

/// Appends so many dummy entries.
fn push_dummy_entries(
    drawings: &mut Items<Drawing>,
    count: u32,
    epoch: u32,
) -> Result<(), AllocError>
    ensures { OnOk result (drawings.new ≡ drawings.old ++ map (dummy_entry_drawing epoch) (range_with_len 0 count)) }
{
    for i in 0..count {
        drawings.push(dummy_entry(epoch, i))?;
    }
    Ok(())
}

/// Appends so many blocks of the word of this number.
fn push_blocks_of(
    drawings: &mut Items<Drawing>,
    word: u32,
    count: u32,
    epoch: u32,
) -> Result<(), AllocError>
    ensures { OnOk result (drawings.new ≡ drawings.old ++ map (block_by_number epoch word) (range_with_len 0 count)) }
{
    for i in 0..count {
        drawings.push(block(epoch, word, i))?;
    }
    Ok(())
}

/// How many blocks a list of n identifiers takes.
fn blocks_in(n: u32, shape: Shape) -> u32
    requires { 1 ≤ n }
    ensures { result ≡ block_count (plan shape n) }
{
    match shape.plan(u64::from(n)) {
        Ok(plan) => plan.pointer_blocks + plan.data_blocks,
        Err(_) => 0,
    }
}

/// Appends the blocks of the setup's words.
fn push_blocks(
    drawings: &mut Items<Drawing>,
    words: &RunWords,
    docs: &Docs,
    shape: Shape,
    epoch: u32,
) -> Result<(), AllocError>
    requires { length words.now < 2 ^ 32 }
    ensures { (pad : ℕ) → OnOk result (drawings.new ≡ drawings.old ++ blocks_by_number epoch words.now (setup_with docs.now.documents shape.b shape.big pad) (words_of docs.now.documents)) }
{
    for w in 0..docs.words() {
        let count = blocks_in(docs.list_len(w), shape);
        push_blocks_of(drawings, number_of(words, docs.word(w)), count, epoch)?;
    }
    Ok(())
}

/// Appends so many dummy blocks.
fn push_dummy_blocks(
    drawings: &mut Items<Drawing>,
    count: u32,
    epoch: u32,
) -> Result<(), AllocError>
    ensures { OnOk result (drawings.new ≡ drawings.old ++ map (dummy_block_drawing epoch) (range_with_len 0 count)) }
{
    for j in 0..count {
        drawings.push(dummy_block(epoch, j))?;
    }
    Ok(())
}

/// What the values of the setup are drawn for, as that of this epoch.
pub(crate) fn setup_drawings(
    alloc: Global,
    history: &History,
    words: &RunWords,
    epoch: u32,
) -> Result<Items<Drawing>, AllocError>
    requires accepted { size_refusal history.now.setup ≡ None }
    requires few { length words.now < 2 ^ 32 }
    ensures { IfOk result (λ drawings. drawings ≡ map (numbered_drawing words.now) (drawings_of_setup epoch history.now.setup)) }
{
    let docs = history.docs();
    let (b, big, pad) = (history.b(), history.big(), history.pad());
    let sizes = Sizes {
        b: u64::from(b),
        big: u64::from(big),
        pad: u64::from(pad),
    };
    let Ok(size) = size_of(docs, sizes) else {
        unreachable!()
    };
    let mut drawings = Items::new(alloc);
    push_entries(&mut drawings, words, docs, epoch)?;
    push_dummy_entries(&mut drawings, size.padded_words - size.words, epoch)?;
    push_blocks(&mut drawings, words, docs, size.shape, epoch)?;
    push_dummy_blocks(&mut drawings, size.padded_blocks - size.blocks, epoch)?;
    Ok(drawings)
}
