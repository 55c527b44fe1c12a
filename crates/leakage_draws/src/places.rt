ghost use Rattle.std.specs.Prelude.{◌≡◌, ◌++◌, ◌∷◌, [], All, IfOk, List, OnOk, ℕ, is_some, length, map, true};
ghost use Rattle.leakage_values.specs.Held.{Holds};
ghost use Rattle.leakage_draws.specs.Given.{given};
ghost use Rattle.keyed_fn.specs.Xored.{xored};
ghost use Rattle.leakage_names.specs.Sheets.{value_at};
ghost use Rattle.leakage_names.specs.declared.name.Name.{Name as Named};
ghost use Rattle.def_relabelling.specs.ByTexts.{masked_by};

use crate::bytes::Bytes;
use crate::texts::text_at;
use leakage_names::{Name, Sheet};
use std::alloc::{AllocError, Global};

/// Gives a name the value of a name of another sheet, XORed with two texts. Error: where the other has none, or there is no memory.
fn place(
    alloc: Global,
    moved: &mut Sheet,
    sheet: &Sheet,
    from: &Name,
    to: &Name,
    one: &[u8],
    other: &[u8],
) -> Result<(), AllocError>
    ensures valued { OnOk result (is_some (value_at sheet.now from.now) ≡ true) }
    ensures held { OnOk result ((names : List Named) (value : Named → List ℕ) → value to.now ≡ xored (xored (given sheet.now from.now) one.now) other.now → Holds moved.old names value → Holds moved.new (names ++ to.now ∷ []) value) }
{
    let Some(value) = sheet.get(from) else {
        return Err(AllocError);
    };
    let mut value = Bytes::of(alloc, value)?;
    value.mask(one);
    value.mask(other);
    moved.set(*to, value.as_slice())?;
    Ok(())
}

/// The table that gives each of the second names the value of the name at its place among the first, XORed with the texts at its place of
/// two lists, and with nothing where a list is too short. Error: where the sheet has no value for one of the first, or there is no memory.
pub(crate) fn placed(
    alloc: Global,
    sheet: &Sheet,
    from: &[Name],
    to: &[Name],
    ones: &[Bytes],
    others: &[Bytes],
) -> Result<Sheet, AllocError>
    requires { length from.now ≡ length to.now }
    ensures valued { OnOk result (All (λ n. is_some (value_at sheet.now n) ≡ true) from.now) }
    ensures held { IfOk result (λ moved. (value : Named → List ℕ) → map value to.now ≡ masked_by (map (given sheet.now) from.now) ones.now others.now → Holds moved to.now value) }
{
    let mut moved = Sheet::new(alloc);
    for i in 0..from.len() {
        place(
            alloc,
            &mut moved,
            sheet,
            &from[i],
            &to[i],
            text_at(ones, i),
            text_at(others, i),
        )?;
    }
    Ok(moved)
}
