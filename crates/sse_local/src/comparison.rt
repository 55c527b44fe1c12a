ghost use Rattle.std.specs.Prelude.{◌≡◌, ◌<◌, ◌^◌, IfOk, string_bytes};
ghost use Rattle.client_registry.specs.Epochs.{next_begins};
ghost use Rattle.leakage_history.specs.HashedEpochs.{epochs_in};
ghost use Rattle.leakage_values.specs.SheetOf.{AreSheetsIn};
ghost use Rattle.keyed_fn.specs.KeyedFn.{keyed_fn};
ghost use Rattle.sse_local.specs.Compared as says;
ghost use Rattle.sse_local.specs.Compared.{text_of_comparison};
ghost use Rattle.sse_local.specs.ComparisonViews.{compared_view, sums_view};
ghost use Rattle.sse_model.specs.Names.{Table};
ghost use Rattle.def_relabelling.specs.Comparison.{IsComparisonIn, LeakTheSame, LeaksDiffer, sums_in};

use keyed_fn::Keyed;
use leakage_draws::{Counted, MoveFault, count, move_tables};
use leakage_history::Epochs;
use leakage_names::Sheet;
use leakage_sheets::sheets_of;
use std::alloc::{AllocError, Global};
use word_keys::MasterKey;

/// What comes of comparing what two histories leak.
#[derive(Drop)]
pub(crate) enum Compared {
    /// They leak the same; what is counted of the second under the first one's table, moved.
    Same(Counted),
    /// They leak something else first at this command, the setup being command 0.
    Differ(u32),
}

impl Compared {
    /// Whether they differ.
    pub(crate) fn differs(&self) -> bool
        ensures { result ≡ says.differs (compared_view self.now) }
    {
        matches!(self, Compared::Differ(_))
    }

    /// The line that says what came of it, its end (byte 0a) included.
    pub(crate) fn line(&self, alloc: Global) -> Result<String, AllocError>
        ensures { IfOk result (λ line. string_bytes line ≡ text_of_comparison (compared_view self.now)) }
    {
        match self {
            Compared::Same(counted) => same_line(alloc, counted),
            Compared::Differ(command) => differ_line(alloc, *command),
        }
    }
}

/// The line of two histories that leak the same.
fn same_line(alloc: Global, counted: &Counted) -> Result<String, AllocError>
    ensures { IfOk result (λ line. string_bytes line ≡ text_of_comparison (LeakTheSame (sums_view counted.now))) }
{
    let Counted {
        frames,
        bytes,
        values,
    } = counted;
    format!(in alloc; "twin: equal, {frames} frames, {bytes} bytes, moved {values}\n")
}

/// The line of two that differ.
fn differ_line(alloc: Global, command: u32) -> Result<String, AllocError>
    ensures { IfOk result (λ line. string_bytes line ≡ text_of_comparison (LeaksDiffer command)) }
{
    format!(in alloc; "refused: leaks differ at command {command}\n")
}

/// Compares what two histories leak, under the first one's keys, whose values are moved for the second where they leak the same. The
/// first epoch has this key.
pub(crate) fn compare<K: Keyed>(
    alloc: Global,
    keyed: &K,
    key: &MasterKey,
    epochs: &Epochs,
    other: &Epochs,
) -> Result<Compared, AllocError>
    requires numbered { (next_begins (epochs_in epochs.now)).command < 2 ^ 32 }
    requires numbered_too { (next_begins (epochs_in other.now)).command < 2 ^ 32 }
    ensures { IfOk result (λ compared. IsComparisonIn (keyed_fn K.prf K.pad) key.now (epochs_in epochs.now) (epochs_in other.now) (compared_view compared)) }
{
    let sheets = sheets_of(alloc, keyed, key, epochs)?;
    match move_tables(alloc, epochs, other, sheets.as_slice()) {
        Ok(moved) => count_moved(alloc, other, moved.as_slice()),
        Err(MoveFault::LeaksDiffer(command)) => Ok(Compared::Differ(command)),
        Err(MoveFault::NoMemory) => Err(AllocError),
    }
}

/// What is counted of a history under moved tables.
fn count_moved(alloc: Global, other: &Epochs, moved: &[Sheet]) -> Result<Compared, AllocError>
    requires { (next_begins (epochs_in other.now)).command < 2 ^ 32 }
    ensures { IfOk result (λ compared. (t : Table) → AreSheetsIn moved.now (epochs_in other.now) t → compared_view compared ≡ LeakTheSame (sums_in t (epochs_in other.now))) }
{
    match count(alloc, other, moved) {
        Ok(counted) => Ok(Compared::Same(counted)),
        Err(fault) => Err(fault),
    }
}
