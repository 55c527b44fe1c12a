ghost use Rattle.std.specs.Prelude.{◌≡◌, ℕ, ◌<◌, ◌≤◌, ◌^◌, ◌++◌, IfOk, IsSome, None, OnOk, flat_map, length, map, replicate};
ghost use Rattle.std.specs.List.{range_with_len};
ghost use Rattle.client_registry.specs.Acceptance.{blocks_of, size_refusal};
ghost use Rattle.client_registry.specs.Documents.{ids_with, words_of};
ghost use Rattle.leakage_plaintexts.specs.Clears.{clears};
ghost use Rattle.index_setup.specs.SizeOf.{IsSizeOf, setup_sized};
ghost use Rattle.sse_model.specs.Positions.{block_positions, block_text, blocks_from, cell_text, entries_from, entry_positions};
ghost use Rattle.two_level.specs.Laid.{laid};
ghost use Rattle.two_level.specs.Plan as layout;

use crate::size::setup_size;
use crate::text::Text;
use client_registry::{Docs, Size};
use index_setup::{blocks_in, lists_of};
use leakage_history::History;
use sse_frames::Items;
use std::alloc::{AllocError, Global};
use two_level::{Shape, lay_block, lay_cell};

/// The cell of a list in the clear. `ranks` has the places of its blocks.
fn clear_cell(alloc: Global, ids: &[u64], ranks: &[u32], shape: Shape) -> Result<Text, AllocError>
    requires some { 1 ≤ length ids.now }
    requires planned { IsSome (layout.plan shape (length ids.now)) }
    requires ranks { length ranks.now ≡ layout.block_count (layout.plan shape (length ids.now)) }
    ensures { IfOk result (λ text. text ≡ cell_text (laid shape ranks.now ids.now)) }
{
    let mut cell = vec![in alloc; 0u8; shape.cell_size()]?;
    lay_cell(ids, ranks, shape, &mut cell);
    Ok(Text::of(cell))
}

/// Block i of a list in the clear.
fn clear_block(
    alloc: Global,
    ids: &[u64],
    ranks: &[u32],
    shape: Shape,
    i: u32,
) -> Result<Text, AllocError>
    requires some { 1 ≤ length ids.now }
    requires planned { IsSome (layout.plan shape (length ids.now)) }
    requires ranks { length ranks.now ≡ layout.block_count (layout.plan shape (length ids.now)) }
    requires within { i < length ranks.now }
    ensures { IfOk result (λ text. text ≡ block_text i (laid shape ranks.now ids.now)) }
{
    let mut block = vec![in alloc; 0u8; shape.block_size()]?;
    lay_block(ids, ranks, shape, i, &mut block);
    Ok(Text::of(block))
}

/// Appends each block of a list in the clear.
fn push_blocks_of(
    alloc: Global,
    texts: &mut Items<Text>,
    ids: &[u64],
    ranks: &[u32],
    shape: Shape,
) -> Result<(), AllocError>
    requires some { 1 ≤ length ids.now }
    requires planned { IsSome (layout.plan shape (length ids.now)) }
    requires ranks { length ranks.now ≡ layout.block_count (layout.plan shape (length ids.now)) }
    requires most { length ranks.now < 2 ^ 32 }
    ensures { OnOk result (texts.new ≡ texts.old ++ map (λ i. block_text i (laid shape ranks.now ids.now)) (range_with_len 0 (length ranks.now))) }
{
    for i in 0..ranks.len() {
        texts.push(clear_block(alloc, ids, ranks, shape, i as u32)?)?;
    }
    Ok(())
}

/// Appends the cell of each word's list. `ids` has all lists, by word number, and `ranks` the place of each block.
fn push_cells(
    alloc: Global,
    texts: &mut Items<Text>,
    docs: &Docs,
    size: &Size,
    ids: &[u64],
    ranks: &[u32],
) -> Result<(), AllocError>
    requires size { IsSizeOf docs.now.documents size.now }
    requires ids { ids.now ≡ flat_map (ids_with docs.now.documents) (words_of docs.now.documents) }
    requires ranks { blocks_of (setup_sized docs.now.documents size.now) ≤ length ranks.now }
    ensures { OnOk result (texts.new ≡ texts.old ++ clears ranks.now (entries_from 0 (setup_sized docs.now.documents size.now) 0 (words_of docs.now.documents))) }
{
    let (mut ids, mut ranks) = (ids, ranks);
    for w in 0..docs.words() {
        let n = docs.list_len(w);
        let (list, later_ids) = ids.split_at(n as usize);
        let (places, later_ranks) = ranks.split_at(blocks_in(n, size.shape) as usize);
        texts.push(clear_cell(alloc, list, places, size.shape)?)?;
        ids = later_ids;
        ranks = later_ranks;
    }
    Ok(())
}

/// Appends the blocks of each word's list.
fn push_blocks(
    alloc: Global,
    texts: &mut Items<Text>,
    docs: &Docs,
    size: &Size,
    ids: &[u64],
    ranks: &[u32],
) -> Result<(), AllocError>
    requires size { IsSizeOf docs.now.documents size.now }
    requires ids { ids.now ≡ flat_map (ids_with docs.now.documents) (words_of docs.now.documents) }
    requires ranks { blocks_of (setup_sized docs.now.documents size.now) ≤ length ranks.now }
    ensures { OnOk result (texts.new ≡ texts.old ++ clears ranks.now (blocks_from 0 (setup_sized docs.now.documents size.now) 0 (words_of docs.now.documents))) }
{
    let (mut ids, mut ranks) = (ids, ranks);
    for w in 0..docs.words() {
        let n = docs.list_len(w);
        let (list, later_ids) = ids.split_at(n as usize);
        let (places, later_ranks) = ranks.split_at(blocks_in(n, size.shape) as usize);
        push_blocks_of(alloc, texts, list, places, size.shape)?;
        ids = later_ids;
        ranks = later_ranks;
    }
    Ok(())
}

/// Appends so many texts of zeros, each of this size.
fn push_zeros(
    alloc: Global,
    texts: &mut Items<Text>,
    count: u32,
    size: usize,
) -> Result<(), AllocError>
    ensures { OnOk result (texts.new ≡ texts.old ++ map (λ i. replicate size 0) (range_with_len 0 count)) }
{
    for _ in 0..count {
        texts.push(Text::zeros(alloc, size)?)?;
    }
    Ok(())
}

// Promise P37 (caller): A program gets the plaintexts of a setup's cells and blocks, dummies included, for given ranks of the blocks; or memory runs out.
//   clauses: ensures; assumes: accepted setup, sizes in bounds
/// The plaintexts of a history's setup under the ranks of its blocks: the cell of each word by word number, those of the dummies,
/// then the blocks by word and block number, those of the dummies. They are the same in every epoch. Error: where there is no memory.
pub fn plaintexts(
    alloc: Global,
    history: &History,
    ranks: &[u32],
) -> Result<Items<Text>, AllocError>
    requires accepted { size_refusal history.now.setup ≡ None }
    requires ranks { blocks_of history.now.setup ≤ length ranks.now }
    ensures { IfOk result (λ texts. (epoch : ℕ) → texts ≡ clears ranks.now (entry_positions epoch history.now.setup ++ block_positions epoch history.now.setup)) }
{
    let size = setup_size(history);
    let docs = history.docs();
    let ids = lists_of(alloc, docs)?;
    let mut texts = Items::new(alloc);
    push_cells(alloc, &mut texts, docs, &size, &ids, ranks)?;
    let dummies = size.padded_words - size.words;
    push_zeros(alloc, &mut texts, dummies, size.shape.cell_size())?;
    push_blocks(alloc, &mut texts, docs, &size, &ids, ranks)?;
    let dummies = size.padded_blocks - size.blocks;
    push_zeros(alloc, &mut texts, dummies, size.shape.block_size())?;
    Ok(texts)
}
