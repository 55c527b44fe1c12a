ghost use Rattle.std.specs.Prelude.{◌<◌, ◌^◌};
ghost use Rattle.client_registry.specs.Epochs.{next_begins};
ghost use Rattle.leakage_history.specs.HashedEpochs.{epochs_in};

use crate::digits::{push_all_passing, push_draws};
use crate::documents::{push_commands, push_documents};
use crate::uses::push_uses;
use crate::values::push_all_values;
use keyed_fn::Keyed;
use leakage_draws::draws_of;
use leakage_frames::{Draw, Leak, simulate};
use leakage_history::Epochs;
use leakage_model::leak_epochs;
use leakage_names::Sheet;
use leakage_sheets::sheets_of;
use leakage_texts::leak_line;
use sse_frames::Items;
use std::alloc::{AllocError, Global};
use word_keys::MasterKey;

/// Appends all that is told of a history, whose first epoch has this key.
pub(crate) fn push_history<K: Keyed>(
    text: &mut String,
    alloc: Global,
    keyed: &K,
    key: &MasterKey,
    epochs: &Epochs,
) -> Result<(), AllocError>
    requires numbered { (next_begins (epochs_in epochs.now)).command < 2 ^ 32 }
{
    push_all_held(text, alloc, epochs)?;
    let sheets = sheets_of(alloc, keyed, key, epochs)?;
    let ended = push_under(text, alloc, epochs, sheets.as_slice());
    drop(sheets);
    ended
}

/// Appends the documents and the commands of each epoch.
fn push_all_held(text: &mut String, alloc: Global, epochs: &Epochs) -> Result<(), AllocError> {
    for number in 0..epochs.len() {
        let history = epochs.epoch(number);
        push_documents(text, alloc, history.docs())?;
        push_commands(text, alloc, history.commands())?;
    }
    Ok(())
}

/// Appends what is told of a history under the values of sheets.
fn push_under(
    text: &mut String,
    alloc: Global,
    epochs: &Epochs,
    sheets: &[Sheet],
) -> Result<(), AllocError>
    requires numbered { (next_begins (epochs_in epochs.now)).command < 2 ^ 32 }
{
    let drawn = draws_of(alloc, epochs, sheets)?;
    let ended = push_leaked(text, alloc, epochs, &drawn);
    drop(drawn);
    ended?;
    push_uses(text, alloc, epochs)?;
    push_all_values(text, alloc, epochs, sheets)
}

/// Appends what each command leaks and draws, and all that the simulator makes of both.
fn push_leaked(
    text: &mut String,
    alloc: Global,
    epochs: &Epochs,
    draws: &Items<Items<Draw>>,
) -> Result<(), AllocError>
    requires numbered { (next_begins (epochs_in epochs.now)).command < 2 ^ 32 }
{
    let leaks = leak_epochs(alloc, epochs)?;
    let ended = push_both(text, alloc, &leaks, draws);
    drop(leaks);
    ended
}

/// The same of this leakage.
fn push_both(
    text: &mut String,
    alloc: Global,
    leaks: &Items<Leak>,
    draws: &Items<Items<Draw>>,
) -> Result<(), AllocError> {
    push_items(text, alloc, leaks.as_slice(), draws.as_slice())?;
    push_simulated(text, alloc, leaks, draws)
}

/// Appends what each command leaks and draws.
fn push_items(
    text: &mut String,
    alloc: Global,
    leaks: &[Leak],
    draws: &[Items<Draw>],
) -> Result<(), AllocError> {
    let mut command = 0u32;
    for (leak, draws) in leaks.iter().zip(draws) {
        let line = leak_line(alloc, command, leak)?;
        text.push_str(line.as_str())?;
        push_draws(text, alloc, draws.as_slice())?;
        command = command.saturating_add(1);
    }
    Ok(())
}

/// Appends all that the simulator makes of leakage and draws; nothing where an item names what isn't there.
fn push_simulated(
    text: &mut String,
    alloc: Global,
    leaks: &Items<Leak>,
    draws: &Items<Items<Draw>>,
) -> Result<(), AllocError> {
    let Ok(passing) = simulate(alloc, leaks, draws) else {
        return text.push_str("nothing is simulated\n");
    };
    let ended = push_all_passing(text, alloc, passing.as_slice());
    drop(passing);
    ended
}
