ghost use Rattle.std.specs.Prelude.{◌≡◌, ◌<◌, IfOk, Some, length, map, slice_get};
ghost use Rattle.client_registry.specs.Epochs.{AreEpochs};
ghost use Rattle.client_registry.specs.Histories.{IsWhole};
ghost use Rattle.client_registry.specs.Run.{Offsets, Run};
ghost use Rattle.client_registry.specs.Sized.{run_words};
ghost use Rattle.def_comparison.specs.UsedNames as used;
ghost use Rattle.def_relabelling.specs.Histories.{table_in};
ghost use Rattle.keyed_fn.specs.KeyedFn.{keyed_fn};
ghost use Rattle.leakage_history.specs.HashedEpochs.{epochs_in, runs_of};
ghost use Rattle.leakage_values.specs.NamesOnce.{Marks};
ghost use Rattle.leakage_values.specs.Numbered.{numbered};
ghost use Rattle.leakage_values.specs.SheetOf.{AreSheetsIn, IsSheetOf, MarkNamesIn, listed_epochs};

use crate::sheet::sheet_of;
use keyed_fn::Keyed;
use leakage_history::Epochs;
use leakage_names::Sheet;
use sse_frames::Items;
use std::alloc::{AllocError, Global};
use word_keys::MasterKey;

/// The table of the epoch of this number: the first has the key given, each later one that of its renewal.
fn sheet_at<K: Keyed>(
    alloc: Global,
    keyed: &K,
    key: &MasterKey,
    epochs: &Epochs,
    number: usize,
) -> Result<Sheet, AllocError>
    requires kept { AreEpochs (epochs_in epochs.now) }
    requires whole { IsWhole (Some (epochs_in epochs.now)) }
    requires within { number < length (runs_of (epochs_in epochs.now)) }
    ensures values { IfOk result (λ sheet. (e : Offsets × Run) → slice_get (listed_epochs (epochs_in epochs.now)) number ≡ Some e → IsSheetOf sheet (run_words e.1) (used.names e.0 e.1) (table_in (keyed_fn K.prf K.pad) key.now (epochs_in epochs.now))) }
    ensures names { IfOk result (λ sheet. (e : Offsets × Run) → slice_get (listed_epochs (epochs_in epochs.now)) number ≡ Some e → Marks sheet (map (numbered (run_words e.1)) (used.names e.0 e.1))) }
{
    if number > u32::MAX as usize {
        return Err(AllocError);
    }
    if number == 0 {
        return sheet_of(alloc, keyed, key, epochs.epoch(number), 0);
    }
    let own = MasterKey::new(*epochs.renewal_key(number - 1));
    sheet_of(alloc, keyed, &own, epochs.epoch(number), number as u32)
}

// Promise P295 (caller): A program gets a sheet for each epoch, with the values of exactly the names it uses, under its key; or memory runs out.
//   clauses: values, names; not: Without an answer: whether memory or a number of 32 bits was missing. How long it takes.
/// One table an epoch, as [`sheet_of`](crate::sheet_of) makes it: the first under the key given, each later one under the key of
/// the renewal that began it. Error: where there is no memory, or no number of 32 bits for an epoch, a word, a block or a dummy.
pub fn sheets_of<K: Keyed>(
    alloc: Global,
    keyed: &K,
    key: &MasterKey,
    epochs: &Epochs,
) -> Result<Items<Sheet>, AllocError>
    ensures values { IfOk result (λ sheets. AreSheetsIn sheets (epochs_in epochs.now) (table_in (keyed_fn K.prf K.pad) key.now (epochs_in epochs.now))) }
    ensures names { IfOk result (λ sheets. MarkNamesIn sheets (epochs_in epochs.now)) }
{
    let mut sheets = Items::new(alloc);
    for number in 0..epochs.len() {
        sheets.push(sheet_at(alloc, keyed, key, epochs, number)?)?;
    }
    Ok(sheets)
}
