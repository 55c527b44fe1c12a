ghost use Rattle.std.specs.Prelude.{◌≡◌, ◌++◌, map, IfOk, OnOk};
ghost use Rattle.std.specs.List.{flat_map};
ghost use Rattle.sse_frames.specs.Frames.{entry_bytes, joined};
ghost use Rattle.sse_frames.specs.Order.{by_bytes};

use crate::bytes::append;
use sse_frames::{Items, NoMemory};
use std::marker::Model;

/// A drawn entry, or a block with its tag, where it stands among the draws.
#[derive(Drop)]
pub(crate) struct DrawnEntry<'a> {
    label: [u8; 16],
    text: &'a [u8],
}

impl<'a> Model for DrawnEntry<'a> {
    ghost use Rattle.sse_frames.specs.Frames.{Entry};

    ghost Value = { Entry };

    ghost view = { λ e. record { label = e.label; text = e.text.now } };
}

/// An entry of these two.
pub(crate) fn drawn_entry<'a>(label: [u8; 16], text: &'a [u8]) -> DrawnEntry<'a>
    ensures { result ≡ record { label = label; text = text.now } }
{
    DrawnEntry { label, text }
}

/// The entries by rising label; those with equal labels stay in their order.
pub(crate) fn by_label(entries: Vec<DrawnEntry<'_>>) -> Result<Vec<DrawnEntry<'_>>, NoMemory>
    ensures { IfOk result (λ sorted. sorted.items ≡ by_bytes (λ entry. entry.label) entries.entry.items) }
{
    let mut sorted = entries;
    sorted.sort_by_key(
        |entry|
            ensures { result ≡ entry.now.label }
        { entry.label },
    )?;
    Ok(sorted)
}

/// The revocation numbers in their order.
pub(crate) fn by_number(numbers: Vec<[u8; 16]>) -> Result<Vec<[u8; 16]>, NoMemory>
    ensures { IfOk result (λ sorted. sorted.items ≡ by_bytes (λ number. number) numbers.items) }
{
    let mut sorted = numbers;
    sorted.sort_by_key(
        |number|
            ensures { result ≡ number.now }
        { *number },
    )?;
    Ok(sorted)
}

/// Appends an entry.
fn append_entry(out: &mut Items<u8>, entry: &DrawnEntry<'_>) -> Result<(), NoMemory>
    ensures { OnOk result (out.new ≡ out.old ++ entry_bytes entry.now) }
{
    append(out, &entry.label)?;
    append(out, entry.text)
}

/// Appends the entries.
pub(crate) fn append_entries(
    out: &mut Items<u8>,
    entries: &[DrawnEntry<'_>],
) -> Result<(), NoMemory>
    ensures { OnOk result (out.new ≡ out.old ++ flat_map entry_bytes entries.now) }
{
    for entry in entries {
        append_entry(out, entry)?;
    }
    Ok(())
}

/// Appends what stands under a label.
fn append_text(out: &mut Items<u8>, entry: &DrawnEntry<'_>) -> Result<(), NoMemory>
    ensures { OnOk result (out.new ≡ out.old ++ entry.now.text) }
{
    append(out, entry.text)
}

/// Appends the blocks, without their tags.
pub(crate) fn append_blocks(out: &mut Items<u8>, blocks: &[DrawnEntry<'_>]) -> Result<(), NoMemory>
    ensures { OnOk result (out.new ≡ out.old ++ joined (map (λ block. block.text) blocks.now)) }
{
    for block in blocks {
        append_text(out, block)?;
    }
    Ok(())
}
