ghost use Rattle.std.specs.Prelude.{◌≡◌, ◌+◌, ◌<◌, ◌%◌, ◌^◌, IfOk, flat_map, length, sum, sum_by};
ghost use Rattle.client_registry.specs.Epochs.{next_begins};
ghost use Rattle.leakage_history.specs.HashedEpochs.{epochs_in};
ghost use Rattle.leakage_values.specs.SheetOf.{AreSheetsIn};
ghost use Rattle.leakage_draws.specs.Given.{given};
ghost use Rattle.def_comparison.specs.Sums.{value_sum};
ghost use Rattle.def_relabelling.specs.Comparison.{names_in, sums_in};
ghost use Rattle.sse_model.specs.Names.{Table};

use crate::drawn_epochs::sheet_at;
use crate::frames::wire_frames;
use crate::values::value_in;
use leakage_history::Epochs;
use leakage_names::{Name, Sheet};
use leakage_values::used_names;
use sse_frames::Items;
use std::alloc::{AllocError, Global};

/// What is counted of a history under the values of a sheet.
#[derive(Clone, Copy)]
pub struct Counted {
    /// How many frames a client sends for it, Hello among them.
    pub frames: u64,
    /// How many bytes these have.
    pub bytes: u64,
    /// The bytes of the values at all names of the history, each name once, added up modulo 2^64.
    pub values: u64,
}

/// A number with these bytes added, modulo 2^64.
fn added(start: u64, bytes: &[u8]) -> u64
    ensures { result ≡ (start + sum bytes.now) % 2 ^ 64 }
{
    let mut total = start;
    for byte in bytes {
        total = total.wrapping_add(u64::from(*byte));
    }
    total
}

/// A number with the bytes of the values of these names added, modulo 2^64. Error: where one has none.
fn sum_of(start: u64, sheet: &Sheet, names: &[Name]) -> Result<u64, AllocError>
    ensures { IfOk result (λ total. total ≡ (start + sum (flat_map (given sheet.now) names.now)) % 2 ^ 64) }
{
    let mut total = start;
    for name in names {
        total = added(total, value_in(sheet, name)?);
    }
    Ok(total)
}

/// The bytes of the values at all names of these epochs, each name once, added up modulo 2^64. Error: as for [`count`].
fn sum_in(alloc: Global, epochs: &Epochs, sheets: &[Sheet]) -> Result<u64, AllocError>
    requires { (next_begins (epochs_in epochs.now)).command < 2 ^ 32 }
    ensures { IfOk result (λ total. (t : Table) → AreSheetsIn sheets.now (epochs_in epochs.now) t → total ≡ value_sum t (names_in (epochs_in epochs.now))) }
{
    let mut total = 0;
    for number in 0..epochs.len() {
        let sheet = sheet_at(sheets, number)?;
        let names = used_names(alloc, epochs.epoch(number), number as u32)?;
        total = sum_of(total, sheet, names.as_slice())?;
    }
    Ok(total)
}

/// How many bytes these frames have. Error: where that is no number of 64 bits.
fn bytes_of(frames: &[Items<u8>]) -> Result<u64, AllocError>
    ensures { IfOk result (λ total. total ≡ sum_by length frames.now) }
{
    let mut total = 0u64;
    for frame in frames {
        match total.checked_add(frame.as_slice().len() as u64) {
            Some(more) => total = more,
            None => return Err(AllocError),
        }
    }
    Ok(total)
}

// Promise P46, also here; clauses: ensures
/// What is counted of a history under the values of the sheets, one an epoch: the frames that a client sends for it, their bytes, and the
/// bytes of the values at its names. What is counted under a table is so under all sheets that have its values. Error: as for
/// [`wire_frames`], where a sheet lacks the value of a name that its epoch uses, or where the bytes of the frames are no number of 64 bits.
pub fn count(alloc: Global, epochs: &Epochs, sheets: &[Sheet]) -> Result<Counted, AllocError>
    requires { (next_begins (epochs_in epochs.now)).command < 2 ^ 32 }
    ensures { IfOk result (λ counted. (t : Table) → AreSheetsIn sheets.now (epochs_in epochs.now) t → record { frames = counted.frames; bytes = counted.bytes; values = counted.values } ≡ sums_in t (epochs_in epochs.now)) }
{
    let frames = wire_frames(alloc, epochs, sheets)?;
    Ok(Counted {
        frames: frames.as_slice().len() as u64,
        bytes: bytes_of(frames.as_slice())?,
        values: sum_in(alloc, epochs, sheets)?,
    })
}
