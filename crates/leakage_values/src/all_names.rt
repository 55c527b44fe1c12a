ghost use Rattle.std.specs.Prelude.{◌≡◌, None, IfOk, OnOk, flat_map, map};
ghost use Rattle.client_registry.specs.Acceptance.{size_refusal};
ghost use Rattle.client_registry.specs.Run.{Offsets};
ghost use Rattle.client_registry.specs.Sized.{run_words};
ghost use Rattle.leakage_history.specs.HashedRun.{run_of};
ghost use Rattle.leakage_values.specs.NamesOnce.{Marks, with_name, with_names};
ghost use Rattle.leakage_values.specs.Numbered.{numbered};
ghost use Rattle.def_comparison.specs.UsedNames as used;

use crate::names::drawn_names;
use crate::probed::probed_names;
use leakage_history::History;
use leakage_names::{Name, Sheet};
use sse_frames::Items;
use std::alloc::{AllocError, Global};

/// Appends a name that doesn't stand already.
fn push_once(names: &mut Items<Name>, seen: &mut Sheet, name: &Name) -> Result<(), AllocError>
    requires { Marks seen.old names.old }
    ensures names { OnOk result (names.new ≡ with_name names.old name.now) }
    ensures marks { OnOk result (Marks seen.new names.new) }
{
    if seen.get(name).is_none() {
        seen.set(*name, &[])?;
        names.push(*name)?;
    }
    Ok(())
}

/// Appends those of these names that don't stand already.
fn push_each(names: &mut Items<Name>, seen: &mut Sheet, more: &[Name]) -> Result<(), AllocError>
    requires { Marks seen.old names.old }
    ensures names { OnOk result (names.new ≡ with_names names.old more.now) }
    ensures marks { OnOk result (Marks seen.new names.new) }
{
    for name in more {
        push_once(names, seen, name)?;
    }
    Ok(())
}

/// The same of the names of each command.
fn push_lists(
    names: &mut Items<Name>,
    seen: &mut Sheet,
    lists: &[Items<Name>],
) -> Result<(), AllocError>
    requires { Marks seen.old names.old }
    ensures names { OnOk result (names.new ≡ with_names names.old (flat_map (λ ns. ns) lists.now)) }
    ensures marks { OnOk result (Marks seen.new names.new) }
{
    for list in lists {
        push_each(names, seen, list.as_slice())?;
    }
    Ok(())
}

// Promise P36, also here; clauses: ensures
/// The names whose values a history uses, as those of this epoch, each of them once: all that it draws, command by command, and
/// then all that a server looks up for it, each at its first place alone. Error: where there is no memory, or no number of 32 bits
/// for a word.
pub fn used_names(alloc: Global, history: &History, epoch: u32) -> Result<Items<Name>, AllocError>
    requires { size_refusal history.now.setup ≡ None }
    ensures { IfOk result (λ names. (o : Offsets) → o.epoch ≡ epoch → names ≡ map (numbered (run_words (run_of history.now))) (used.names o (run_of history.now))) }
{
    let drawn = drawn_names(alloc, history, epoch)?;
    let probed = probed_names(alloc, history, epoch)?;
    let mut seen = Sheet::new(alloc);
    let mut names = Items::new(alloc);
    push_lists(&mut names, &mut seen, drawn.as_slice())?;
    push_lists(&mut names, &mut seen, probed.as_slice())?;
    Ok(names)
}
