ghost use Rattle.std.specs.Prelude.{◌≡◌, ◌<◌, ◌^◌, ◌++◌, ◌∷◌, [], IfOk, List, None, OnOk, length, map};
ghost use Rattle.client_registry.specs.Acceptance.{size_refusal};
ghost use Rattle.client_registry.specs.Run.{Offsets};
ghost use Rattle.client_registry.specs.Sized.{run_words};
ghost use Rattle.leakage_history.specs.HashedRun.{run_of};
ghost use Rattle.leakage_values.specs.NamesOnce.{Marks};
ghost use Rattle.leakage_values.specs.Numbered.{numbered};
ghost use Rattle.keyed_fn.specs.KeyedFn.{keyed_fn};
ghost use Rattle.def_comparison.specs.UsedNames as used;
ghost use Rattle.sse_model.specs.Histories.{table_at};
ghost use Rattle.leakage_sheets.specs.ByKeys.{value_by_keys, value_by_number};
ghost use Rattle.leakage_values.specs.Held.{Holds};
ghost use Rattle.leakage_values.specs.SheetOf.{IsSheetOf};

use crate::held::HeldKeys;
use crate::words::keys_of;
use keyed_fn::Keyed;
use leakage_history::{History, RunWords};
use leakage_names::{Name, Sheet};
use leakage_values::used_names;
use std::alloc::{AllocError, Global};
use two_level::Shape;
use word_keys::MasterKey;

/// All keys of a history's values under this key.
fn held_keys<K: Keyed>(
    alloc: Global,
    keyed: &K,
    key: &MasterKey,
    history: &History,
) -> Result<HeldKeys, AllocError>
    requires { size_refusal history.now.setup ≡ None }
    ensures few { IfOk result (λ keys. length (run_words (run_of history.now)) < 2 ^ 32) }
    ensures values { IfOk result (λ keys. (n : Name) → value_by_keys (keyed_fn K.prf K.pad) keys.shape keys.words keys.dummies n ≡ value_by_number (keyed_fn K.prf K.pad) history.now.setup.shape key.now (run_words (run_of history.now)) n) }
{
    let words = RunWords::of(alloc, history)?;
    if words.len() > u32::MAX as usize {
        return Err(AllocError);
    }
    let master = key.prepare(keyed);
    Ok(HeldKeys {
        words: keys_of(alloc, &master, &words)?,
        dummies: master.dummy_key(),
        shape: Shape::within(history.b(), history.big()),
    })
}

/// Gives a name its value.
fn put<K: Keyed>(
    alloc: Global,
    keyed: &K,
    keys: &HeldKeys,
    sheet: &mut Sheet,
    name: &Name,
) -> Result<(), AllocError>
    ensures { OnOk result ((names : List Name) → Holds sheet.old names (value_by_keys (keyed_fn K.prf K.pad) keys.now.shape keys.now.words keys.now.dummies) → Holds sheet.new (names ++ name.now ∷ []) (value_by_keys (keyed_fn K.prf K.pad) keys.now.shape keys.now.words keys.now.dummies)) }
{
    let value = keys.value(alloc, keyed, name)?;
    sheet.set(*name, value.as_slice())?;
    Ok(())
}

/// The table of these names.
fn sheet_for<K: Keyed>(
    alloc: Global,
    keyed: &K,
    keys: &HeldKeys,
    names: &[Name],
) -> Result<Sheet, AllocError>
    ensures { IfOk result (λ sheet. Holds sheet names.now (value_by_keys (keyed_fn K.prf K.pad) keys.now.shape keys.now.words keys.now.dummies)) }
{
    let mut sheet = Sheet::new(alloc);
    for name in names {
        put(alloc, keyed, keys, &mut sheet, name)?;
    }
    Ok(sheet)
}

// Promise P40 (caller): A program gets the values that the key formulas give to exactly the names a history uses; or memory runs out.
//   clauses: values, names; assumes: accepted setup; not: Without an answer: whether memory or a number of 32 bits was missing. How long it takes.
/// The table of all values of a history under a key, as those of this epoch: each name that it draws, or that a server looks up for
/// it, has its value there, and no other name has one. The keys of a word are derived once. A pad has as many bytes as what it
/// encrypts: a cell's 1 + 8·b and a block's 8·`big` by the setup's parameters, an identifier's 8. Error: where there is no memory,
/// or no number of 32 bits for a word, a block or a dummy.
pub fn sheet_of<K: Keyed>(
    alloc: Global,
    keyed: &K,
    key: &MasterKey,
    history: &History,
    epoch: u32,
) -> Result<Sheet, AllocError>
    requires { size_refusal history.now.setup ≡ None }
    ensures values { IfOk result (λ sheet. (o : Offsets) → o.epoch ≡ epoch → IsSheetOf sheet (run_words (run_of history.now)) (used.names o (run_of history.now)) (table_at (keyed_fn K.prf K.pad) key.now (run_of history.now))) }
    ensures names { IfOk result (λ sheet. (o : Offsets) → o.epoch ≡ epoch → Marks sheet (map (numbered (run_words (run_of history.now))) (used.names o (run_of history.now)))) }
{
    let keys = held_keys(alloc, keyed, key, history)?;
    let names = used_names(alloc, history, epoch)?;
    let sheet = sheet_for(alloc, keyed, &keys, names.as_slice())?;
    Ok(sheet)
}
