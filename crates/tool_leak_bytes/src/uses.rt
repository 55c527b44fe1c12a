ghost use Rattle.std.specs.Prelude.{◌≡◌, None};
ghost use Rattle.client_registry.specs.Acceptance.{size_refusal};

use crate::digits::push_number;
use crate::names::{push_drawings, push_names};
use leakage_history::{Epochs, History};
use leakage_names::Name;
use leakage_values::{Drawing, drawings, drawn_names, probed_names};
use sse_frames::Items;
use std::alloc::{AllocError, Global};

/// Appends the number of a command, and behind it what its line tells.
fn push_head(
    text: &mut String,
    alloc: Global,
    command: usize,
    what: &str,
) -> Result<(), AllocError> {
    push_number(text, alloc, command as u64)?;
    text.push_str(what)
}

/// Appends a line for each command, the first of which has this number: what its values are drawn for.
fn push_drawing_lines(
    text: &mut String,
    alloc: Global,
    all: &[Items<Drawing>],
    first: usize,
) -> Result<(), AllocError> {
    for (command, own) in all.iter().enumerate() {
        push_head(text, alloc, first.saturating_add(command), " drawings")?;
        push_drawings(text, alloc, own.as_slice())?;
        text.push_str("\n")?;
    }
    Ok(())
}

/// Appends a line for each command, the first of which has this number: these names of it.
fn push_name_lines(
    text: &mut String,
    alloc: Global,
    what: &str,
    all: &[Items<Name>],
    first: usize,
) -> Result<(), AllocError> {
    for (command, own) in all.iter().enumerate() {
        push_head(text, alloc, first.saturating_add(command), what)?;
        push_names(text, alloc, own.as_slice())?;
        text.push_str("\n")?;
    }
    Ok(())
}

/// Appends what each command draws its values for.
fn push_all_drawings(
    text: &mut String,
    alloc: Global,
    history: &History,
    epoch: u32,
    first: usize,
) -> Result<(), AllocError>
    requires { size_refusal history.now.setup ≡ None }
{
    let all = drawings(alloc, history, epoch)?;
    let ended = push_drawing_lines(text, alloc, all.as_slice(), first);
    drop(all);
    ended
}

/// Appends the names of the values that each command draws.
fn push_all_drawn(
    text: &mut String,
    alloc: Global,
    history: &History,
    epoch: u32,
    first: usize,
) -> Result<(), AllocError>
    requires { size_refusal history.now.setup ≡ None }
{
    let all = drawn_names(alloc, history, epoch)?;
    let ended = push_name_lines(text, alloc, " drawn", all.as_slice(), first);
    drop(all);
    ended
}

/// Appends the names that a server looks up for each command.
fn push_all_probed(
    text: &mut String,
    alloc: Global,
    history: &History,
    epoch: u32,
    first: usize,
) -> Result<(), AllocError> {
    let all = probed_names(alloc, history, epoch)?;
    let ended = push_name_lines(text, alloc, " probed", all.as_slice(), first);
    drop(all);
    ended
}

/// Appends three lines for each command of the epoch of this number, whose setup is the command `first`: what its values are drawn for,
/// the names of these values, and those that a server looks up for it.
fn push_uses_of(
    text: &mut String,
    alloc: Global,
    history: &History,
    epoch: u32,
    first: usize,
) -> Result<(), AllocError>
    requires { size_refusal history.now.setup ≡ None }
{
    push_all_drawings(text, alloc, history, epoch, first)?;
    push_all_drawn(text, alloc, history, epoch, first)?;
    push_all_probed(text, alloc, history, epoch, first)
}

/// Appends those of each epoch; the commands are numbered through all epochs.
pub(crate) fn push_uses(
    text: &mut String,
    alloc: Global,
    epochs: &Epochs,
) -> Result<(), AllocError> {
    let mut epoch = 0u32;
    let mut first = 0usize;
    for number in 0..epochs.len() {
        let history = epochs.epoch(number);
        push_uses_of(text, alloc, history, epoch, first)?;
        epoch = epoch.saturating_add(1);
        first = first.saturating_add(history.len());
    }
    Ok(())
}
