ghost use Rattle.std.specs.Prelude.{◌≡◌, ◌++◌, None, IfOk, OnOk, flat_map, map};
ghost use Rattle.client_registry.specs.Acceptance.{size_refusal};
ghost use Rattle.client_registry.specs.Run.{Offsets};
ghost use Rattle.client_registry.specs.Sized.{run_words};
ghost use Rattle.leakage_history.specs.HashedRun.{run_of};
ghost use Rattle.leakage_values.specs.DrawnNames.{names_in_code};
ghost use Rattle.leakage_values.specs.Numbered.{numbered};
ghost use Rattle.sse_model.specs.Drawn.{drawn};

use crate::draw_list::drawings;
use crate::drawn::Drawing;
use leakage_history::History;
use leakage_names::Name;
use sse_frames::Items;
use std::alloc::{AllocError, Global};

/// Appends the names that a drawing takes.
fn push_names(names: &mut Items<Name>, drawing: &Drawing) -> Result<(), AllocError>
    ensures { OnOk result (names.new ≡ names.old ++ names_in_code drawing.now) }
{
    match drawing {
        Drawing::Entry(label, pad) | Drawing::Block(label, pad) => {
            names.push(*label)?;
            names.push(*pad)
        }
        Drawing::Number(name) | Drawing::Token(name) => names.push(*name),
    }
}

/// The names that drawings in a row take.
fn names_of(alloc: Global, drawings: &[Drawing]) -> Result<Items<Name>, AllocError>
    ensures { IfOk result (λ names. names ≡ flat_map names_in_code drawings.now) }
{
    let mut names = Items::new(alloc);
    for drawing in drawings {
        push_names(&mut names, drawing)?;
    }
    Ok(names)
}

// Promise P35, also here; clauses: ensures
/// For each command of a history, as that of this epoch, the setup first, the names whose values it draws, in the order of
/// [`drawings`]: of an entry or a block its label or tag, then its pad. No two of them are the same. Error: as for [`drawings`].
pub fn drawn_names(
    alloc: Global,
    history: &History,
    epoch: u32,
) -> Result<Items<Items<Name>>, AllocError>
    requires { size_refusal history.now.setup ≡ None }
    ensures { IfOk result (λ all. (o : Offsets) → o.epoch ≡ epoch → all ≡ map (map (numbered (run_words (run_of history.now)))) (drawn o (run_of history.now))) }
{
    let drawings = drawings(alloc, history, epoch)?;
    let mut all = Items::new(alloc);
    for own in drawings.as_slice() {
        all.push(names_of(alloc, own.as_slice())?)?;
    }
    Ok(all)
}
