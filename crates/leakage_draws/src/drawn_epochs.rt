ghost use Rattle.std.specs.Prelude.{◌≡◌, ◌<◌, ◌^◌, [], IfOk, Some, map, slice_get};
ghost use Rattle.client_registry.specs.Epochs.{joined, next_begins};
ghost use Rattle.leakage_history.specs.HashedEpochs.{epochs_in};
ghost use Rattle.leakage_values.specs.SheetOf.{AreSheetsIn, listed_epochs};
ghost use Rattle.leakage_draws.specs.SheetsTable.{sheets_table};
ghost use Rattle.leakage_frames.specs.Views.{draw_view};
ghost use Rattle.def_leakage.specs.DrawnValues as model;
ghost use Rattle.sse_model.specs.Names.{Table};

use crate::drawn::push_draws;
use leakage_frames::Draw;
use leakage_history::Epochs;
use leakage_names::Sheet;
use sse_frames::Items;
use std::alloc::{AllocError, Global};

/// The sheet of the epoch of this number. Error: where there is none.
pub(crate) fn sheet_at(sheets: &[Sheet], number: usize) -> Result<&Sheet, AllocError>
    ensures { IfOk result (λ sheet. slice_get sheets.now number ≡ Some sheet.now) }
{
    match sheets.get(number) {
        Some(sheet) => Ok(sheet),
        None => Err(AllocError),
    }
}

// Promise P38, also here; clauses: own, agreed
/// For each command of a history what it draws under the values of the sheets, one an epoch: that of each epoch, one after another. The
/// commands can be numbered in 32 bits. What is drawn under a table is so under all sheets that have its values.
///
/// Error: as for [`crate::draws`], or where an epoch has no sheet.
pub fn draws_of(
    alloc: Global,
    epochs: &Epochs,
    sheets: &[Sheet],
) -> Result<Items<Items<Draw>>, AllocError>
    requires { (next_begins (epochs_in epochs.now)).command < 2 ^ 32 }
    ensures own { IfOk result (λ all. map (map draw_view) all ≡ joined (λ key o run. model.draws (sheets_table sheets.now (listed_epochs (epochs_in epochs.now))) o run) [] (epochs_in epochs.now)) }
    ensures agreed { IfOk result (λ all. (t : Table) → AreSheetsIn sheets.now (epochs_in epochs.now) t → map (map draw_view) all ≡ joined (λ key o run. model.draws t o run) [] (epochs_in epochs.now)) }
{
    let mut all = Items::new(alloc);
    for number in 0..epochs.len() {
        let history = epochs.epoch(number);
        let sheet = sheet_at(sheets, number)?;
        push_draws(alloc, &mut all, history, sheet, number as u32)?;
    }
    Ok(all)
}
