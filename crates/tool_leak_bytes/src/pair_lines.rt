ghost use Rattle.std.specs.Prelude.{◌<◌, ◌^◌};
ghost use Rattle.client_registry.specs.Epochs.{next_begins};
ghost use Rattle.leakage_history.specs.HashedEpochs.{epochs_in};

use crate::digits::push_number;
use crate::values::push_all_values;
use keyed_fn::Keyed;
use leakage_draws::{Counted, MoveFault, count, move_tables};
use leakage_history::Epochs;
use leakage_names::Sheet;
use leakage_sheets::sheets_of;
use std::alloc::{AllocError, Global};
use word_keys::MasterKey;

/// Appends what is counted of a history: how many frames are sent for it, how many bytes these have, and the sum of its values.
fn push_counted(
    text: &mut String,
    alloc: Global,
    what: &str,
    counted: Counted,
) -> Result<(), AllocError> {
    text.push_str(what)?;
    for number in [counted.frames, counted.bytes, counted.values] {
        text.push_str(" ")?;
        push_number(text, alloc, number)?;
    }
    text.push_str("\n")
}

/// Appends what is told of the second history under moved tables: what is counted, and each of its names with its value.
fn push_moved(
    text: &mut String,
    alloc: Global,
    other: &Epochs,
    moved: &[Sheet],
) -> Result<(), AllocError>
    requires numbered { (next_begins (epochs_in other.now)).command < 2 ^ 32 }
{
    push_counted(text, alloc, "moved", count(alloc, other, moved)?)?;
    push_all_values(text, alloc, other, moved)
}

/// Appends the first command at which two histories leak something else.
fn push_difference(text: &mut String, alloc: Global, command: u32) -> Result<(), AllocError> {
    text.push_str("differ ")?;
    push_number(text, alloc, u64::from(command))?;
    text.push_str("\n")
}

/// Appends what comes of moving the tables of the first history to the second.
fn push_move(
    text: &mut String,
    alloc: Global,
    one: &Epochs,
    other: &Epochs,
    sheets: &[Sheet],
) -> Result<(), AllocError>
    requires numbered { (next_begins (epochs_in one.now)).command < 2 ^ 32 }
    requires numbered_too { (next_begins (epochs_in other.now)).command < 2 ^ 32 }
{
    match move_tables(alloc, one, other, sheets) {
        Ok(moved) => {
            let ended = push_moved(text, alloc, other, moved.as_slice());
            drop(moved);
            ended
        }
        Err(MoveFault::LeaksDiffer(command)) => push_difference(text, alloc, command),
        Err(MoveFault::NoMemory) => Err(AllocError),
    }
}

/// Appends what is told of two histories under the values of the first one's sheets.
fn push_under(
    text: &mut String,
    alloc: Global,
    one: &Epochs,
    other: &Epochs,
    sheets: &[Sheet],
) -> Result<(), AllocError>
    requires numbered { (next_begins (epochs_in one.now)).command < 2 ^ 32 }
    requires numbered_too { (next_begins (epochs_in other.now)).command < 2 ^ 32 }
{
    push_counted(text, alloc, "own", count(alloc, one, sheets)?)?;
    push_move(text, alloc, one, other, sheets)
}

/// Appends all that is told of two histories, where the first one's first epoch has this key.
pub(crate) fn push_pair<K: Keyed>(
    text: &mut String,
    alloc: Global,
    keyed: &K,
    key: &MasterKey,
    one: &Epochs,
    other: &Epochs,
) -> Result<(), AllocError>
    requires numbered { (next_begins (epochs_in one.now)).command < 2 ^ 32 }
    requires numbered_too { (next_begins (epochs_in other.now)).command < 2 ^ 32 }
{
    let sheets = sheets_of(alloc, keyed, key, one)?;
    let ended = push_under(text, alloc, one, other, sheets.as_slice());
    drop(sheets);
    ended
}
