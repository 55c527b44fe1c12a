ghost use Rattle.std.specs.Prelude.{◌≡◌, ℕ, ◌++◌, IfOk, None, OnOk, length, map};
ghost use Rattle.client_registry.specs.Acceptance.{size_refusal};
ghost use Rattle.client_registry.specs.Run.{Offsets};
ghost use Rattle.client_registry.specs.Sized.{run_words};
ghost use Rattle.leakage_history.specs.Commands.{command_of};
ghost use Rattle.leakage_history.specs.HashedRun.{run_of};
ghost use Rattle.leakage_values.specs.Numbered.{numbered_drawing};
ghost use Rattle.leakage_draws.specs.Clears.{clear_by};
ghost use Rattle.leakage_draws.specs.Given.{draw_given, sheet_table};
ghost use Rattle.leakage_draws.specs.Beside.{beside};
ghost use Rattle.leakage_values.specs.SheetOf.{IsSheetOf};
ghost use Rattle.leakage_frames.specs.Views.{draw_view};
ghost use Rattle.def_comparison.specs.UsedNames as used;
ghost use Rattle.def_leakage.specs.DrawnValues as model;
ghost use Rattle.def_leakage.specs.DrawnValues.{draw, drawings_of_setup};
ghost use Rattle.sse_model.specs.Names.{Table};
ghost use Rattle.sse_model.specs.Positions.{block_positions, ranks_of};
ghost use Rattle.sse_model.specs.Wire.{labels_in};

use crate::ranks::block_ranks;
use crate::values::draw_of;
use leakage_frames::Draw;
use leakage_history::{Command, History};
use leakage_names::Sheet;
use leakage_plaintexts::{Text, plaintexts};
use leakage_values::{Drawing, drawings};
use sse_frames::Items;
use std::alloc::{AllocError, Global};

/// What is drawn for each of these values, each with the plaintext at its place.
fn draws_beside(
    alloc: Global,
    sheet: &Sheet,
    drawings: &[Drawing],
    clears: &[Text],
) -> Result<Items<Draw>, AllocError>
    requires { length drawings.now ≡ length clears.now }
    ensures { IfOk result (λ draws. map draw_view draws ≡ beside (draw_given sheet.now) drawings.now clears.now) }
{
    let mut draws = Items::new(alloc);
    for i in 0..drawings.len() {
        draws.push(draw_of(alloc, sheet, &drawings[i], clears[i].as_slice())?)?;
    }
    Ok(draws)
}

/// What is drawn for each of these values, all with one plaintext.
fn draws_under(
    alloc: Global,
    sheet: &Sheet,
    drawings: &[Drawing],
    clear: &[u8],
) -> Result<Items<Draw>, AllocError>
    ensures { IfOk result (λ draws. map draw_view draws ≡ map (λ d. draw_given sheet.now d clear.now) drawings.now) }
{
    let mut draws = Items::new(alloc);
    for drawing in drawings {
        draws.push(draw_of(alloc, sheet, drawing, clear)?)?;
    }
    Ok(draws)
}

/// What a command draws for these values: a new entry of an addition has the identifier for its plaintext.
fn command_draws(
    alloc: Global,
    sheet: &Sheet,
    drawings: &[Drawing],
    command: &Command,
) -> Result<Items<Draw>, AllocError>
    ensures { IfOk result (λ draws. map draw_view draws ≡ map (λ d. draw_given sheet.now d (clear_by (command_of command.now))) drawings.now) }
{
    match command {
        Command::Add(doc) => draws_under(alloc, sheet, drawings, &doc.id().get().to_be_bytes()),
        Command::Delete(_) => draws_under(alloc, sheet, drawings, &[]),
        Command::Search(_) => draws_under(alloc, sheet, drawings, &[]),
    }
}

/// Appends what each of these commands draws for the values at its place.
fn push_later(
    alloc: Global,
    all: &mut Items<Items<Draw>>,
    sheet: &Sheet,
    drawings: &[Items<Drawing>],
    commands: &[Command],
) -> Result<(), AllocError>
    requires { length drawings.now ≡ length commands.now }
    ensures { OnOk result (map (map draw_view) all.new ≡ map (map draw_view) all.old ++ beside (λ ds c. map (λ d. draw_given sheet.now d (clear_by c)) ds) drawings.now (map command_of commands.now)) }
{
    for k in 0..commands.len() {
        all.push(command_draws(alloc, sheet, drawings[k].as_slice(), &commands[k])?)?;
    }
    Ok(())
}

/// What the setup draws for these values, which are those of an epoch.
fn setup_draws(
    alloc: Global,
    history: &History,
    sheet: &Sheet,
    drawings: &[Drawing],
) -> Result<Items<Draw>, AllocError>
    requires accepted { size_refusal history.now.setup ≡ None }
    requires drawings { (epoch : ℕ) × (drawings.now ≡ map (numbered_drawing (run_words (run_of history.now))) (drawings_of_setup epoch history.now.setup)) }
    ensures { IfOk result (λ draws. (epoch : ℕ) → drawings.now ≡ map (numbered_drawing (run_words (run_of history.now))) (drawings_of_setup epoch history.now.setup) → map draw_view draws ≡ map (draw (sheet_table sheet.now (run_words (run_of history.now))) (ranks_of (labels_in (sheet_table sheet.now (run_words (run_of history.now))) (block_positions epoch history.now.setup)))) (drawings_of_setup epoch history.now.setup)) }
{
    let ranks = block_ranks(alloc, sheet, drawings)?;
    let clears = plaintexts(alloc, history, &ranks)?;
    draws_beside(alloc, sheet, drawings, clears.as_slice())
}

/// Appends what each command of a history draws in the epoch of this number under the values of a sheet. Error: as for [`draws`].
pub(crate) fn push_draws(
    alloc: Global,
    all: &mut Items<Items<Draw>>,
    history: &History,
    sheet: &Sheet,
    epoch: u32,
) -> Result<(), AllocError>
    requires { size_refusal history.now.setup ≡ None }
    ensures { OnOk result ((o : Offsets) → o.epoch ≡ epoch → map (map draw_view) all.new ≡ map (map draw_view) all.old ++ model.draws (sheet_table sheet.now (run_words (run_of history.now))) o (run_of history.now)) }
{
    let drawings = drawings(alloc, history, epoch)?;
    let (first, later) = drawings.as_slice().split_at(1);
    all.push(setup_draws(alloc, history, sheet, first[0].as_slice())?)?;
    push_later(alloc, all, sheet, later, history.commands())
}

// Promise P38 (caller): A program gets a history's draws under a table of values, and the bytes of all frames that its client sends.
//   clauses: own, agreed; assumes: accepted setup, countable history, sized table; not: Without an answer: whether memory or a value was missing.
/// For each command of a history, the setup first, what it draws in the epoch of this number under the values of a sheet: of the setup each entry and then each
/// block, by word number, with its text XORed with its pad, dummies behind the others; of an addition each new entry, with the
/// identifier XORed with its pad, in the order of its words; of a deletion each revocation number that wasn't sent before; of a search
/// the token of a word that wasn't searched before. What is drawn under a table is so under every sheet that has its values.
///
/// Error: where there is no memory, or no number of 32 bits for a word or a block; or where the sheet lacks the value of a name that
/// the history draws, a label, a tag or a number has not 16 bytes, or a pad is shorter than its text.
pub fn draws(
    alloc: Global,
    history: &History,
    sheet: &Sheet,
    epoch: u32,
) -> Result<Items<Items<Draw>>, AllocError>
    requires { size_refusal history.now.setup ≡ None }
    ensures own { IfOk result (λ all. (o : Offsets) → o.epoch ≡ epoch → map (map draw_view) all ≡ model.draws (sheet_table sheet.now (run_words (run_of history.now))) o (run_of history.now)) }
    ensures agreed { IfOk result (λ all. (o : Offsets) → o.epoch ≡ epoch → (t : Table) → IsSheetOf sheet.now (run_words (run_of history.now)) (used.names o (run_of history.now)) t → map (map draw_view) all ≡ model.draws t o (run_of history.now)) }
{
    let mut all = Items::new(alloc);
    push_draws(alloc, &mut all, history, sheet, epoch)?;
    Ok(all)
}
