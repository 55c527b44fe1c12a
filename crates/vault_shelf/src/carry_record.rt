ghost use Rattle.std.specs.Prelude.{◌≡◌, List, true};
ghost use Rattle.vault_shelf.specs.Shelves as meant;
ghost use Rattle.vault_shelf.specs.Apart.{KeepsApart, KeepsNone};
ghost use Rattle.vault_shelf.specs.Readiness.{is_ready};
ghost use Rattle.vault_shelf.specs.ShelfView.{Keeps};

use crate::{Shelf, read_vault_record};

/// Carries out the command of which these bytes are the record, if they are one. It takes no memory.
pub(crate) fn carry_record(shelf: &mut Shelf, last: &[u8])
    requires { is_ready shelf.old last.now ≡ true }
    ensures keeps { (cs : List meant.VaultCommand) → KeepsNone shelf.old last.now cs → Keeps shelf.new (meant.shelf_of meant.empty_shelf cs) }
    ensures keeps_apart { (cs : List meant.VaultCommand) → KeepsApart shelf.old last.now cs → Keeps shelf.new (meant.shelf_of meant.empty_shelf cs) }
    ensures keys { shelf.new.keys ≡ shelf.old.keys }
{
    match read_vault_record(last) {
        Some(command) => shelf.carry(&command),
        None => {}
    }
}
