ghost use Rattle.std.specs.Prelude.{◌≡◌, None};
ghost use Rattle.client_registry.specs.Acceptance.{size_refusal};

use crate::names::push_values;
use leakage_history::{Epochs, History};
use leakage_names::Sheet;
use leakage_values::used_names;
use std::alloc::{AllocError, Global};

/// Appends each name of the epoch of this number with its value in a sheet.
fn push_values_of(
    text: &mut String,
    alloc: Global,
    history: &History,
    epoch: u32,
    sheet: &Sheet,
) -> Result<(), AllocError>
    requires { size_refusal history.now.setup ≡ None }
{
    let names = used_names(alloc, history, epoch)?;
    push_values(text, alloc, names.as_slice(), sheet)
}

/// Appends those of each epoch, whose values are in the sheet of its number.
pub(crate) fn push_all_values(
    text: &mut String,
    alloc: Global,
    epochs: &Epochs,
    sheets: &[Sheet],
) -> Result<(), AllocError> {
    let mut epoch = 0u32;
    for number in 0..epochs.len() {
        let history = epochs.epoch(number);
        if let Some(sheet) = sheets.get(number) {
            push_values_of(text, alloc, history, epoch, sheet)?;
        }
        epoch = epoch.saturating_add(1);
    }
    Ok(())
}
