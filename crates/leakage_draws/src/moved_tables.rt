ghost use Rattle.std.specs.Prelude.{◌≡◌, ◌<◌, ◌^◌, Err, IfOk, IfSome, None, OnOk, Some, ℕ, length, map};
ghost use Rattle.client_registry.specs.Acceptance.{size_refusal};
ghost use Rattle.client_registry.specs.Epochs.{next_begins};
ghost use Rattle.client_registry.specs.Run.{Offsets, Run};
ghost use Rattle.client_registry.specs.Sized.{run_words};
ghost use Rattle.leakage_history.specs.HashedEpochs.{epochs_in};
ghost use Rattle.leakage_history.specs.HashedRun.{run_of};
ghost use Rattle.leakage_frames.specs.Views.{leak_view};
ghost use Rattle.leakage_draws.specs.EpochAt.{IsEpoch};
ghost use Rattle.leakage_draws.specs.Given.{sheet_table};
ghost use Rattle.leakage_draws.specs.Moved.{IsMoved};
ghost use Rattle.leakage_draws.specs.SheetsTable.{sheets_table};
ghost use Rattle.leakage_values.specs.SheetOf.{AreSheetsIn, MarkNamesIn, listed_epochs};
ghost use Rattle.leakage_draws.specs.declared.moved_tables.MoveFault.TheVariants as faults;
ghost use Rattle.def_comparison.specs.FirstDifference.{IsFirstDifference};
ghost use Rattle.def_leakage.specs.DrawnValues as model;
ghost use Rattle.def_leakage.specs.CommandLeaks as leakage;
ghost use Rattle.def_leakage.specs.Histories.{leak_in};
ghost use Rattle.def_relabelling.specs.ByTexts.{texts_of};
ghost use Rattle.def_relabelling.specs.Histories.{relabelled_epochs};
ghost use Rattle.sse_model.specs.Names.{Table};

use crate::bytes::Bytes;
use crate::drawn::draws;
use crate::names::{names_drawn, names_used};
use crate::places::placed;
use crate::texts::drawn_texts;
use leakage_differences::first_difference;
use leakage_frames::Leak;
use leakage_history::{Epochs, History};
use leakage_model::leak_epochs;
use leakage_names::Sheet;
use sse_frames::Items;
use std::alloc::{AllocError, Global};

/// Why tables aren't moved to another history.
#[derive(Clone, Copy)]
pub enum MoveFault {
    /// This is the first command at which the two histories leak something else, the setup being command 0.
    LeaksDiffer(u32),
    /// There is no memory, or a value that [`move_tables`] can't do without.
    NoMemory,
}

/// The first command at which two leakages differ; none where they are the same. It takes no memory.
fn first_command(leaks: &[Leak], others: &[Leak]) -> Option<u32>
    requires numbered { length leaks.now < 2 ^ 32 }
    requires numbered_too { length others.now < 2 ^ 32 }
    ensures same { result ≡ None → map leak_view leaks.now ≡ map leak_view others.now }
    ensures first { IfSome result (λ k. IsFirstDifference k (map leak_view leaks.now) (map leak_view others.now)) }
{
    match first_difference(leaks, others) {
        Some(command) => Some(command as u32),
        None => None,
    }
}

/// The first command at which two histories leak something else; none where they leak the same.
fn differing(alloc: Global, epochs: &Epochs, other: &Epochs) -> Result<Option<u32>, AllocError>
    requires numbered { (next_begins (epochs_in epochs.now)).command < 2 ^ 32 }
    requires numbered_too { (next_begins (epochs_in other.now)).command < 2 ^ 32 }
    ensures same { IfOk result (λ first. first ≡ None → leak_in (Some (epochs_in epochs.now)) ≡ leak_in (Some (epochs_in other.now))) }
    ensures first { IfOk result (λ first. IfSome first (λ k. IsFirstDifference k (leak_in (Some (epochs_in epochs.now))) (leak_in (Some (epochs_in other.now))))) }
{
    // Their contracts say that the first command is number 0.
    let _first = epochs.len();
    let _second = other.len();
    let leaks = leak_epochs(alloc, epochs)?;
    let others = leak_epochs(alloc, other)?;
    Ok(first_command(leaks.as_slice(), others.as_slice()))
}

/// What a history draws under a sheet in the epoch of this number: for each name that it draws, the text that is drawn under its value, and
/// nothing where there is none.
fn texts_under(
    alloc: Global,
    history: &History,
    sheet: &Sheet,
    epoch: u32,
) -> Result<Items<Bytes>, AllocError>
    requires { size_refusal history.now.setup ≡ None }
    ensures { IfOk result (λ texts. (o : Offsets) → o.epoch ≡ epoch → texts ≡ texts_of (model.draws (sheet_table sheet.now (run_words (run_of history.now))) o (run_of history.now))) }
{
    let draws = draws(alloc, history, sheet, epoch)?;
    drawn_texts(alloc, draws.as_slice())
}

/// The values of a sheet for the epoch of this number moved to an epoch of another history that leaks the same.
fn moved(
    alloc: Global,
    history: &History,
    other: &History,
    sheet: &Sheet,
    epoch: u32,
) -> Result<Sheet, AllocError>
    requires accepted { size_refusal history.now.setup ≡ None }
    requires accepted_too { size_refusal other.now.setup ≡ None }
    requires same { (o : Offsets) × (o.epoch ≡ epoch) × (leakage.leak o (run_of history.now) ≡ leakage.leak o (run_of other.now)) }
    ensures { IfOk result (λ moved. (o : Offsets) → o.epoch ≡ epoch → leakage.leak o (run_of history.now) ≡ leakage.leak o (run_of other.now) → IsMoved sheet.now o (run_of history.now) (run_of other.now) moved) }
{
    // Their contracts say that each command is accepted after those before it.
    let _first = history.commands();
    let _second = other.commands();
    let from = names_drawn(alloc, history, epoch)?;
    let to = names_drawn(alloc, other, epoch)?;
    let unshifted = placed(alloc, sheet, from.as_slice(), to.as_slice(), &[], &[])?;
    let ones = texts_under(alloc, history, sheet, epoch)?;
    let others = texts_under(alloc, other, &unshifted, epoch)?;
    let from = names_used(alloc, history, epoch, from)?;
    let to = names_used(alloc, other, epoch, to)?;
    let moved = placed(
        alloc,
        sheet,
        from.as_slice(),
        to.as_slice(),
        ones.as_slice(),
        others.as_slice(),
    )?;
    Ok(moved)
}

/// The same for the epochs of this number of two histories that leak the same.
fn moved_epoch(
    alloc: Global,
    epochs: &Epochs,
    other: &Epochs,
    sheet: &Sheet,
    number: usize,
) -> Result<Sheet, AllocError>
    requires same { leak_in (Some (epochs_in epochs.now)) ≡ leak_in (Some (epochs_in other.now)) }
    requires numbered { (next_begins (epochs_in epochs.now)).command < 2 ^ 32 }
    requires within { number < length (listed_epochs (epochs_in epochs.now)) }
    ensures { IfOk result (λ moved. (o o2 : Offsets) (run other_run : Run) → IsEpoch (epochs_in epochs.now) number o run → IsEpoch (epochs_in other.now) number o2 other_run → IsMoved sheet.now o run other_run moved) }
{
    // Their contracts say that each epoch keeps the rules, and where the first one begins.
    let _first = epochs.len();
    let _second = other.len();
    moved(
        alloc,
        epochs.epoch(number),
        other.epoch(number),
        sheet,
        number as u32,
    )
}

/// The same for all epochs, one sheet an epoch.
fn moved_sheets(
    alloc: Global,
    epochs: &Epochs,
    other: &Epochs,
    sheets: &[Sheet],
) -> Result<Items<Sheet>, AllocError>
    requires same { leak_in (Some (epochs_in epochs.now)) ≡ leak_in (Some (epochs_in other.now)) }
    requires numbered { (next_begins (epochs_in epochs.now)).command < 2 ^ 32 }
    ensures values { IfOk result (λ moved. (t : Table) → AreSheetsIn sheets.now (epochs_in epochs.now) t → AreSheetsIn moved (epochs_in other.now) (relabelled_epochs (epochs_in epochs.now) (epochs_in other.now) t)) }
    ensures names { IfOk result (λ moved. MarkNamesIn moved (epochs_in other.now)) }
    ensures whole { OnOk result (AreSheetsIn sheets.now (epochs_in epochs.now) (sheets_table sheets.now (listed_epochs (epochs_in epochs.now)))) }
{
    // Its contract says where the first epoch begins.
    let _second = other.len();
    if sheets.len() != epochs.len() {
        return Err(AllocError);
    }
    let mut all = Items::new(alloc);
    for i in 0..sheets.len() {
        all.push(moved_epoch(alloc, epochs, other, &sheets[i], i)?)?;
    }
    Ok(all)
}

// Promise P46, also here; clauses: told
/// What comes of moving tables, where this is the first command at which the two histories leak something else, or none.
fn moved_unless(
    alloc: Global,
    epochs: &Epochs,
    other: &Epochs,
    sheets: &[Sheet],
    first: Option<u32>,
) -> Result<Items<Sheet>, MoveFault>
    requires same { first ≡ None → leak_in (Some (epochs_in epochs.now)) ≡ leak_in (Some (epochs_in other.now)) }
    requires numbered { (next_begins (epochs_in epochs.now)).command < 2 ^ 32 }
    ensures told { IfSome first (λ k. result ≡ Err (faults.LeaksDiffer k)) }
    ensures differ { (k : ℕ) → result ≡ Err (faults.LeaksDiffer k) → first ≡ Some k }
    ensures same { OnOk result (first ≡ None) }
    ensures values { IfOk result (λ moved. (t : Table) → AreSheetsIn sheets.now (epochs_in epochs.now) t → AreSheetsIn moved (epochs_in other.now) (relabelled_epochs (epochs_in epochs.now) (epochs_in other.now) t)) }
    ensures names { IfOk result (λ moved. MarkNamesIn moved (epochs_in other.now)) }
    ensures whole { OnOk result (AreSheetsIn sheets.now (epochs_in epochs.now) (sheets_table sheets.now (listed_epochs (epochs_in epochs.now)))) }
{
    if let Some(command) = first {
        return Err(MoveFault::LeaksDiffer(command));
    }
    match moved_sheets(alloc, epochs, other, sheets) {
        Ok(moved) => Ok(moved),
        Err(_) => Err(MoveFault::NoMemory),
    }
}

// Promise P46 (caller): Tables of values are moved to a second history of equal leakage, or the first command that leaks otherwise is returned.
//   clauses: same, differ, values, names, whole; assumes: countable history; checks: .ci/twin; not: Without an answer: whether memory or a value was missing. Only
//     memory for both leakages can be missing before a difference is found.
/// Moves the tables of values of a history, one sheet an epoch, to another that leaks the same: the names of each epoch of the other get the
/// values of the names at the same places of the first one's epoch, each pad shifted so that it covers the other's plaintext by the same bytes.
/// Under the moved tables the other history sends what the first sends under its own. No plaintext is needed: a pad is XORed with what the
/// first draws under it, and with what the other draws under the same value. The commands of both can be numbered in 32 bits.
///
/// Error `LeaksDiffer(k)`: the first command at which the two leak something else, whatever the sheets hold; a difference that was found
/// is never told as out of memory, so only the two leakages can be out of memory before it. Error `NoMemory`: out of memory, or no number
/// of 32 bits for a word or a block; or there aren't as many sheets as epochs, a sheet lacks the value of a name that its epoch of the first
/// history uses, a label, a tag or a number has not 16 bytes, or a pad is shorter than its text.
pub fn move_tables(
    alloc: Global,
    epochs: &Epochs,
    other: &Epochs,
    sheets: &[Sheet],
) -> Result<Items<Sheet>, MoveFault>
    requires numbered { (next_begins (epochs_in epochs.now)).command < 2 ^ 32 }
    requires numbered_too { (next_begins (epochs_in other.now)).command < 2 ^ 32 }
    ensures same { OnOk result (leak_in (Some (epochs_in epochs.now)) ≡ leak_in (Some (epochs_in other.now))) }
    ensures differ { (k : ℕ) → result ≡ Err (faults.LeaksDiffer k) → IsFirstDifference k (leak_in (Some (epochs_in epochs.now))) (leak_in (Some (epochs_in other.now))) }
    ensures values { IfOk result (λ moved. (t : Table) → AreSheetsIn sheets.now (epochs_in epochs.now) t → AreSheetsIn moved (epochs_in other.now) (relabelled_epochs (epochs_in epochs.now) (epochs_in other.now) t)) }
    ensures names { IfOk result (λ moved. MarkNamesIn moved (epochs_in other.now)) }
    ensures whole { OnOk result (AreSheetsIn sheets.now (epochs_in epochs.now) (sheets_table sheets.now (listed_epochs (epochs_in epochs.now)))) }
{
    match differing(alloc, epochs, other) {
        Ok(first) => moved_unless(alloc, epochs, other, sheets, first),
        Err(_) => Err(MoveFault::NoMemory),
    }
}
