ghost use Rattle.std.specs.Prelude.{◌≡◌, ◌++◌, IfOk, None, OnOk, flat_map, map};
ghost use Rattle.client_registry.specs.Acceptance.{size_refusal};
ghost use Rattle.client_registry.specs.Run.{Offsets};
ghost use Rattle.client_registry.specs.Sized.{run_words};
ghost use Rattle.leakage_history.specs.HashedRun.{run_of};
ghost use Rattle.leakage_values.specs.Numbered.{numbered};
ghost use Rattle.def_comparison.specs.UsedNames as used;
ghost use Rattle.def_relabelling.specs.ByTexts as texts;

use leakage_history::History;
use leakage_names::Name;
use leakage_values::{drawn_names, probed_names};
use sse_frames::Items;
use std::alloc::{AllocError, Global};

/// Appends names.
fn push_names(names: &mut Items<Name>, more: &[Name]) -> Result<(), AllocError>
    ensures { OnOk result (names.new ≡ names.old ++ more.now) }
{
    for name in more {
        names.push(*name)?;
    }
    Ok(())
}

/// Appends the names of each command.
fn push_lists(names: &mut Items<Name>, lists: &[Items<Name>]) -> Result<(), AllocError>
    ensures { OnOk result (names.new ≡ names.old ++ flat_map (λ ns. ns) lists.now) }
{
    for list in lists {
        push_names(names, list.as_slice())?;
    }
    Ok(())
}

/// All names that a history draws in the epoch of this number, command by command.
pub(crate) fn names_drawn(
    alloc: Global,
    history: &History,
    epoch: u32,
) -> Result<Items<Name>, AllocError>
    requires { size_refusal history.now.setup ≡ None }
    ensures { IfOk result (λ names. (o : Offsets) → o.epoch ≡ epoch → names ≡ map (numbered (run_words (run_of history.now))) (texts.drawn_names o (run_of history.now))) }
{
    let lists = drawn_names(alloc, history, epoch)?;
    let mut names = Items::new(alloc);
    push_lists(&mut names, lists.as_slice())?;
    Ok(names)
}

/// Those and behind them all that a server looks up for it, repeats included.
pub(crate) fn names_used(
    alloc: Global,
    history: &History,
    epoch: u32,
    drawn: Items<Name>,
) -> Result<Items<Name>, AllocError>
    requires { (o : Offsets) → o.epoch ≡ epoch → drawn ≡ map (numbered (run_words (run_of history.now))) (texts.drawn_names o (run_of history.now)) }
    ensures { IfOk result (λ names. (o : Offsets) → o.epoch ≡ epoch → names ≡ map (numbered (run_words (run_of history.now))) (used.all_names o (run_of history.now))) }
{
    let lists = probed_names(alloc, history, epoch)?;
    let mut names = drawn;
    push_lists(&mut names, lists.as_slice())?;
    Ok(names)
}
