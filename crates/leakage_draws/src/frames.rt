ghost use Rattle.std.specs.Prelude.{◌≡◌, ◌<◌, ◌^◌, ◌++◌, ◌∷◌, [], IfOk, OnOk, map};
ghost use Rattle.std.specs.List.{filter};
ghost use Rattle.client_registry.specs.Epochs.{next_begins};
ghost use Rattle.leakage_history.specs.HashedEpochs.{epochs_in};
ghost use Rattle.leakage_values.specs.SheetOf.{AreSheetsIn, listed_epochs};
ghost use Rattle.leakage_draws.specs.SheetsTable.{sheets_table};
ghost use Rattle.leakage_draws.specs.Sides.{is_sent};
ghost use Rattle.def_relabelling.specs.Comparison.{frames_under};
ghost use Rattle.sse_frames.specs.Frames.{frame_bytes};
ghost use Rattle.sse_model.specs.Names.{Table};

use crate::bytes::copied;
use crate::drawn_epochs::draws_of;
use leakage_frames::{SimFault, simulate};
use leakage_history::Epochs;
use leakage_model::leak_epochs;
use leakage_names::Sheet;
use sse_frames::Items;
use std::alloc::{AllocError, Global};

/// Whether a text is a client's.
fn is_of_client(text: &[u8]) -> bool
    ensures { result ≡ is_sent text.now }
{
    match text.get(4) {
        Some(kind) => *kind < 0x80,
        None => false,
    }
}

/// Appends a text where it is a client's.
fn push_if_sent(alloc: Global, frames: &mut Items<Items<u8>>, text: &[u8]) -> Result<(), AllocError>
    ensures { OnOk result (frames.new ≡ frames.old ++ filter is_sent (text.now ∷ [])) }
{
    if is_of_client(text) {
        frames.push(copied(alloc, text)?)?;
    }
    Ok(())
}

/// Those of these texts that are a client's.
fn sent_texts(alloc: Global, passing: &[Items<u8>]) -> Result<Items<Items<u8>>, AllocError>
    ensures { IfOk result (λ frames. frames ≡ filter is_sent passing.now) }
{
    let mut frames = Items::new(alloc);
    for text in passing {
        push_if_sent(alloc, &mut frames, text.as_slice())?;
    }
    Ok(frames)
}

// Promise P38, also here; clauses: own, agreed
/// The bytes of all frames that a client sends for a history under the values of the sheets, one an epoch: Hello, then those of each
/// command. They are made of the history's leakage and draws alone, by the simulator. The commands can be numbered in 32 bits. What is
/// sent under a table is so under all sheets that have its values.
///
/// Error: as for [`draws_of`], and where there is no number of 64 bits for a frame. No item is one that the simulator refuses.
pub fn wire_frames(
    alloc: Global,
    epochs: &Epochs,
    sheets: &[Sheet],
) -> Result<Items<Items<u8>>, AllocError>
    requires { (next_begins (epochs_in epochs.now)).command < 2 ^ 32 }
    ensures own { IfOk result (λ frames. frames ≡ map frame_bytes (frames_under (sheets_table sheets.now (listed_epochs (epochs_in epochs.now))) (epochs_in epochs.now))) }
    ensures agreed { IfOk result (λ frames. (t : Table) → AreSheetsIn sheets.now (epochs_in epochs.now) t → frames ≡ map frame_bytes (frames_under t (epochs_in epochs.now))) }
{
    // Its contract says that the epochs keep the rules of a history.
    let _epochs = epochs.len();
    let leaks = leak_epochs(alloc, epochs)?;
    let draws = draws_of(alloc, epochs, sheets)?;
    match simulate(alloc, &leaks, &draws) {
        Ok(passing) => sent_texts(alloc, passing.as_slice()),
        Err(SimFault::NoMemory) => Err(AllocError),
        Err(SimFault::BadLeak(_)) => unreachable!(),
    }
}
