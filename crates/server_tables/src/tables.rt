ghost use Rattle.std.specs.Prelude.{◌≡◌, ◌↔◌, ◌∷◌, [], ◌++◌, ℕ, length, slice_get, true, false, IsTrue, IsOk, OnOk, OnErr, Err, None};
ghost use Rattle.std.specs.Option.{option_copied};
ghost use Rattle.std.specs.FinMap as map;
ghost use Rattle.std.specs.FinSet as set;
ghost use Rattle.server_tables.specs.Contents.{Contents, no_contents};
ghost use Rattle.server_tables.specs.Room.{Room, no_room, of_entry, of_block, of_addition, of_number, pieces, HasRoom, Spends};

use crate::{Missing, TableFault};
use std::alloc::AllocError;

/// What a server keeps: cells by their labels, blocks in a list, additions by their labels, and revocation numbers.
///
/// A contract sees the contents, and beside them the room: for how many more pieces of each part, and for how many
/// bytes of them, memory was taken. A call for which there is room takes no memory and is never out of it; it spends
/// at most its own piece, and no other call spends any. After a refusal the contents are as before.
pub trait Tables: Drop {
    /// Two maps, a list and a set.
    ghost contents: { Self → Contents };

    /// For how much more there is memory.
    ghost room: { Self → Room };

    // Promise P89, also here; clauses: ensures
    /// How many cells there are.
    fn entry_len(&self) -> usize
        ensures { result ≡ map.len (contents self.now).dictionary };

    // Promise P89, also here; clauses: ensures
    /// The cell of a label, where it lies.
    fn entry(&self, label: &[u8; 16]) -> Option<&[u8]>
        ensures { option_copied result ≡ map.get (contents self.now).dictionary label.now };

    // Promise P89 (caller): The server's tables are two maps, a list and a set; each call changes exactly its own entry and refuses exactly duplicates.
    //   clauses: ok, err, taken; not: That they are fast, which is tested; the order of labels in a hash table. Taking out a number is refused exactly when it isn't there.
    // Promise P90 (caller): After a reserve, the calls it was asked for take no memory and fail only for a duplicate.
    //   clauses: has_room, spent, not_spent
    /// Adds a label with its cell.
    ///
    /// Errors: `Taken` where the label is there, else `NoMemory` where there is no memory.
    fn put_entry(&mut self, label: &[u8; 16], cell: &[u8]) -> Result<(), TableFault>
        ensures ok { OnOk result (contents self.new ≡ record (contents self.old) { dictionary = map.insert (contents self.old).dictionary label.now cell.now }) }
        ensures err { OnErr result (contents self.new ≡ contents self.old) }
        ensures taken { (result ≡ Err TableFault.Taken) ↔ IsTrue (map.contains_key (contents self.old).dictionary label.now) }
        ensures has_room { HasRoom (room self.old) (of_entry (length cell.now)) → map.get (contents self.old).dictionary label.now ≡ None → IsOk result }
        ensures spent { OnOk result (Spends (room self.old) (room self.new) (of_entry (length cell.now))) }
        ensures not_spent { OnErr result (Spends (room self.old) (room self.new) no_room) };

    // Promise P89, also here; clauses: ensures
    /// How many blocks there are.
    fn block_len(&self) -> usize
        ensures { result ≡ length (contents self.now).array };

    // Promise P89, also here; clauses: ensures
    /// The block at a place, which counts from 0.
    fn block(&self, place: u32) -> Option<&[u8]>
        ensures { option_copied result ≡ slice_get (contents self.now).array place };

    // Promise P89, also here; clauses: ok, err
    // Promise P90, also here; clauses: has_room, spent, not_spent
    /// Adds a block after the others.
    ///
    /// Errors: where there is no memory.
    fn push_block(&mut self, block: &[u8]) -> Result<(), AllocError>
        ensures ok { OnOk result (contents self.new ≡ record (contents self.old) { array = (contents self.old).array ++ block.now ∷ [] }) }
        ensures err { OnErr result (contents self.new ≡ contents self.old) }
        ensures has_room { HasRoom (room self.old) (of_block (length block.now)) → IsOk result }
        ensures spent { OnOk result (Spends (room self.old) (room self.new) (of_block (length block.now))) }
        ensures not_spent { OnErr result (Spends (room self.old) (room self.new) no_room) };

    // Promise P89, also here; clauses: ensures
    /// How many additions there are.
    fn plus_len(&self) -> usize
        ensures { result ≡ map.len (contents self.now).additions };

    // Promise P89, also here; clauses: ensures
    /// The encrypted identifier of an addition's label.
    fn plus(&self, label: &[u8; 16]) -> Option<[u8; 8]>
        ensures { result ≡ map.get (contents self.now).additions label.now };

    // Promise P89, also here; clauses: ok, err, taken
    // Promise P90, also here; clauses: has_room, spent, not_spent
    /// Adds an addition's label with its encrypted identifier.
    ///
    /// Errors: `Taken` where the label is there, else `NoMemory` where there is no memory.
    fn put_plus(&mut self, label: &[u8; 16], sealed: &[u8; 8]) -> Result<(), TableFault>
        ensures ok { OnOk result (contents self.new ≡ record (contents self.old) { additions = map.insert (contents self.old).additions label.now sealed.now }) }
        ensures err { OnErr result (contents self.new ≡ contents self.old) }
        ensures taken { (result ≡ Err TableFault.Taken) ↔ IsTrue (map.contains_key (contents self.old).additions label.now) }
        ensures has_room { HasRoom (room self.old) of_addition → map.get (contents self.old).additions label.now ≡ None → IsOk result }
        ensures spent { OnOk result (Spends (room self.old) (room self.new) of_addition) }
        ensures not_spent { OnErr result (Spends (room self.old) (room self.new) no_room) };

    // Promise P89, also here; clauses: ensures
    /// Whether a revocation number is there.
    fn is_revoked(&self, number: &[u8; 16]) -> bool
        ensures { result ≡ set.contains (contents self.now).revoked number.now };

    // Promise P89, also here; clauses: ensures
    /// Whether no revocation number is there.
    fn revokes_none(&self) -> bool
        ensures { (result ≡ true) ↔ ((contents self.now).revoked ≡ set.empty) };

    // Promise P89, also here; clauses: ok, err, taken
    // Promise P90, also here; clauses: has_room, spent, not_spent
    /// Adds a revocation number.
    ///
    /// Errors: `Taken` where it is there, else `NoMemory` where there is no memory.
    fn revoke(&mut self, number: &[u8; 16]) -> Result<(), TableFault>
        ensures ok { OnOk result (contents self.new ≡ record (contents self.old) { revoked = set.insert (contents self.old).revoked number.now }) }
        ensures err { OnErr result (contents self.new ≡ contents self.old) }
        ensures taken { (result ≡ Err TableFault.Taken) ↔ IsTrue (set.contains (contents self.old).revoked number.now) }
        ensures has_room { HasRoom (room self.old) of_number → set.contains (contents self.old).revoked number.now ≡ false → IsOk result }
        ensures spent { OnOk result (Spends (room self.old) (room self.new) of_number) }
        ensures not_spent { OnErr result (Spends (room self.old) (room self.new) no_room) };

    // Promise P89, also here; clauses: ok, err, there
    // Promise P90, also here; clauses: not_spent
    /// Removes a revocation number. Takes no memory.
    ///
    /// Errors: where it isn't there.
    fn restore(&mut self, number: &[u8; 16]) -> Result<(), Missing>
        ensures ok { OnOk result (contents self.new ≡ record (contents self.old) { revoked = set.remove (contents self.old).revoked number.now }) }
        ensures err { OnErr result (contents self.new ≡ contents self.old) }
        ensures there { IsOk result ↔ IsTrue (set.contains (contents self.old).revoked number.now) }
        ensures not_spent { Spends (room self.old) (room self.new) no_room };

    // Promise P90, also here; clauses: kept, ok, has_room, not_spent
    /// Takes the memory for so many more of each: `entries` cells of `cell` bytes, `blocks` blocks of `block`
    /// bytes, `plus` additions and `revoked` numbers, as far as it isn't there yet. The contents stay.
    ///
    /// Errors: where there is no memory.
    fn reserve(
        &mut self,
        entries: usize,
        cell: usize,
        blocks: usize,
        block: usize,
        plus: usize,
        revoked: usize,
    ) -> Result<(), AllocError>
        ensures kept { contents self.new ≡ contents self.old }
        ensures ok { OnOk result (HasRoom (room self.new) (record { entries = pieces entries cell; blocks = pieces blocks block; additions = pieces plus 8; revoked = pieces revoked 16 })) }
        ensures has_room { HasRoom (room self.old) (record { entries = pieces entries cell; blocks = pieces blocks block; additions = pieces plus 8; revoked = pieces revoked 16 }) → IsOk result }
        ensures not_spent { Spends (room self.old) (room self.new) no_room };

    // Promise P89, also here; clauses: contents
    // Promise P90, also here; clauses: not_spent
    /// Removes everything. Takes no memory, and keeps what was taken.
    fn clear(&mut self)
        ensures contents { contents self.new ≡ no_contents }
        ensures not_spent { Spends (room self.old) (room self.new) no_room };
}
