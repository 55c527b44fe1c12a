ghost use Rattle.std.specs.Prelude.{◌≡◌, true};
ghost use Rattle.vault_shelf.specs.Readiness.{is_ready};

use crate::carry_record::carry_record;
use crate::{RecordFault, Shelf, VaultCommand, read_mark_record, read_vault_record};
use client_registry::HashKeys;
use std::alloc::{AllocError, Global};

/// What a client's records make of its shelf, one record after the other: the first is the mark of its key, the others are puts and
/// drops. The last of these is kept apart and not carried out, since only the vault's greeting shows whether its frame arrived. A
/// contract sees which records were taken by `Rebuilds` of specs/Rebuilds.antt.
#[derive(Drop)]
pub struct ShelfRebuild {
    mark: [u8; 16],
    marked: bool,
    shelf: Shelf,
    /// The last record, if it is that of a command.
    last: Vec<u8>,
    ghost ready: { is_ready shelf last.items ≡ true },
}

impl ShelfRebuild {
    ghost use Rattle.std.specs.Prelude.{◌+◌, ◌∷◌, ◌++◌, [], ℕ, List, Err, false, IfOk, OnOk, Some, length};
    ghost use Rattle.client_registry.specs.HashNumbers.{hash_numbers};
    ghost use Rattle.vault_shelf.specs.ClientRecords.{IsBadVaultRecord, IsRecorded, VaultOpens, VaultOpensElsewhere, command_record};
    ghost use Rattle.vault_shelf.specs.Shelves as meant;
    ghost use Rattle.vault_shelf.specs.Apart.{KeepsApart, KeepsNone};
    ghost use Rattle.vault_shelf.specs.Rebuilds.{IsSettled, Rebuilds, Takes};
    ghost use Rattle.vault_shelf.specs.ShelfView.{CanSend, Keeps};
    ghost use Rattle.vault_shelf.specs.CommandView.{command_view};
    ghost use Rattle.vault_shelf.specs.RecordReading.{command_in};

    // Promise P206 (caller): A rebuild takes a record exactly if the records with it open under the key; otherwise the fault is named.
    //   clauses: none, mark, keys; assumes: earlier calls; not: Out of memory may come in place of taking a record that is accepted.
    /// No record yet, of a client whose key has this mark; identifiers are to be hashed under these keys. It takes no memory.
    pub fn new(alloc: Global, mark: [u8; 16], keys: HashKeys) -> ShelfRebuild
        ensures none { Rebuilds [] result }
        ensures mark { result.mark ≡ mark }
        ensures keys { result.shelf.keys ≡ hash_numbers keys }
    {
        ShelfRebuild {
            mark,
            marked: false,
            shelf: Shelf::new(alloc, keys),
            last: Vec::new(alloc),
        }
    }

    // Promise P206, also here; clauses: taken, mark, keys, bad, wrong, memory
    /// Takes the next record, all of these bytes.
    ///
    /// Errors: `BadRecord(number)` exactly if the bytes are no record that is accepted after those taken, whose count is the number;
    /// else `WrongKey` exactly if they are the mark of another key; `NoMemory` only for a command's record that is accepted.
    pub fn take(mut self, payload: &[u8]) -> Result<ShelfRebuild, RecordFault>
        ensures taken { IfOk result (λ next. (payloads : List (List ℕ)) → Rebuilds payloads self → Rebuilds (payloads ++ payload.now ∷ []) next) }
        ensures mark { IfOk result (λ next. next.mark ≡ self.mark) }
        ensures keys { IfOk result (λ next. next.shelf.keys ≡ self.shelf.keys) }
        ensures bad { (payloads : List (List ℕ)) (n : ℕ) → Rebuilds payloads self → result ≡ Err (RecordFault.BadRecord n) → (n ≡ length payloads) × IsBadVaultRecord (payloads ++ payload.now ∷ []) n }
        ensures wrong { (payloads : List (List ℕ)) → Rebuilds payloads self → result ≡ Err RecordFault.WrongKey → VaultOpensElsewhere self.mark (payloads ++ payload.now ∷ []) }
        ensures memory { (payloads : List (List ℕ)) → Rebuilds payloads self → result ≡ Err RecordFault.NoMemory → (cs : List meant.VaultCommand) × (c : meant.VaultCommand) × VaultOpens self.mark (payloads ++ payload.now ∷ []) (cs ++ c ∷ []) }
    {
        match self.take_next(payload) {
            Ok(()) => Ok(self),
            Err(fault) => Err(fault),
        }
    }

    // Promise P206, also here; clauses: shelf, last, ready
    /// The shelf that the commands before the last one leave, and the record of the last one, or no bytes if there is none. There
    /// are numbers and memory for it.
    pub fn finish(self) -> (Shelf, Vec<u8>)
        ensures shelf { result.0 ≡ self.shelf }
        ensures last { result.1 ≡ self.last }
        ensures ready { is_ready result.0 result.1.items ≡ true }
    {
        let ShelfRebuild { shelf, last, .. } = self;
        (shelf, last)
    }

    /// Takes the next record.
    fn take_next(&mut self, payload: &[u8]) -> Result<(), RecordFault>
        ensures takes { (payloads : List (List ℕ)) → Rebuilds payloads self.old → Takes self.old.mark payloads payload.now self.new.marked self.new.shelf self.new.last.items result }
        ensures mark { self.new.mark ≡ self.old.mark }
        ensures keys { self.new.shelf.keys ≡ self.old.shelf.keys }
    {
        if self.marked {
            return self.take_command(payload);
        }
        self.take_mark(payload)
    }

    /// Takes the first record.
    fn take_mark(&mut self, payload: &[u8]) -> Result<(), RecordFault>
        requires { self.old.marked ≡ false }
        ensures takes { (payloads : List (List ℕ)) → Rebuilds payloads self.old → Takes self.old.mark payloads payload.now self.new.marked self.new.shelf self.new.last.items result }
        ensures mark { self.new.mark ≡ self.old.mark }
        ensures keys { self.new.shelf.keys ≡ self.old.shelf.keys }
    {
        let Some(mark) = read_mark_record(payload) else {
            return Err(RecordFault::BadRecord(0));
        };
        if mark != self.mark {
            return Err(RecordFault::WrongKey);
        }
        self.marked = true;
        Ok(())
    }

    /// Takes one after it.
    fn take_command(&mut self, payload: &[u8]) -> Result<(), RecordFault>
        requires { self.old.marked ≡ true }
        ensures takes { (payloads : List (List ℕ)) → Rebuilds payloads self.old → Takes self.old.mark payloads payload.now self.new.marked self.new.shelf self.new.last.items result }
        ensures mark { self.new.mark ≡ self.old.mark }
        ensures keys { self.new.shelf.keys ≡ self.old.shelf.keys }
    {
        self.settle();
        match read_vault_record(payload) {
            None => Err(RecordFault::BadRecord(self.next_number())),
            Some(command) => self.take_read(&command, payload),
        }
    }

    /// Takes one that was read as a command, once the one before it is carried out.
    fn take_read(&mut self, command: &VaultCommand<'_>, payload: &[u8]) -> Result<(), RecordFault>
        requires marked { self.old.marked ≡ true }
        requires settled { self.old.last.items ≡ [] }
        requires recorded { IsRecorded (command_view command.now) }
        requires record_is { payload.now ≡ command_record (command_view command.now) }
        requires read { command_in payload.now ≡ Some (command_view command.now) }
        ensures takes { (payloads : List (List ℕ)) → IsSettled self.old.mark payloads self.old.shelf → Takes self.old.mark payloads payload.now self.new.marked self.new.shelf self.new.last.items result }
        ensures mark { self.new.mark ≡ self.old.mark }
        ensures keys { self.new.shelf.keys ≡ self.old.shelf.keys }
    {
        if self.shelf.refusal(command).is_some() {
            return Err(RecordFault::BadRecord(self.next_number()));
        }
        match self.keep_apart(command, payload) {
            Ok(()) => Ok(()),
            Err(_) => Err(RecordFault::NoMemory),
        }
    }

    /// Takes all memory that a command needs, and keeps its record.
    fn keep_apart(&mut self, command: &VaultCommand<'_>, payload: &[u8]) -> Result<(), AllocError>
        requires settled { self.old.last.items ≡ [] }
        requires sends { CanSend self.old.shelf (command_view command.now) }
        requires read { command_in payload.now ≡ Some (command_view command.now) }
        ensures keeps { (s : meant.Shelf) → Keeps self.old.shelf s → Keeps self.new.shelf s }
        ensures last { OnOk result (self.new.last.items ≡ payload.now) }
        ensures mark { self.new.mark ≡ self.old.mark }
        ensures marked { self.new.marked ≡ self.old.marked }
        ensures keys { self.new.shelf.keys ≡ self.old.shelf.keys }
    {
        self.shelf.prepare(command)?;
        self.last.extend_from_slice(payload)
    }

    /// The number of the next record, once the last command is carried out.
    fn next_number(&self) -> u64
        ensures { result ≡ 1 + self.now.shelf.sent }
    {
        1 + u64::from(self.shelf.sent())
    }

    /// Carries the last command out.
    fn settle(&mut self)
        ensures keeps { (cs : List meant.VaultCommand) → KeepsNone self.old.shelf self.old.last.items cs → Keeps self.new.shelf (meant.shelf_of meant.empty_shelf cs) }
        ensures keeps_apart { (cs : List meant.VaultCommand) → KeepsApart self.old.shelf self.old.last.items cs → Keeps self.new.shelf (meant.shelf_of meant.empty_shelf cs) }
        ensures last { self.new.last.items ≡ [] }
        ensures mark { self.new.mark ≡ self.old.mark }
        ensures marked { self.new.marked ≡ self.old.marked }
        ensures keys { self.new.shelf.keys ≡ self.old.shelf.keys }
    {
        carry_record(&mut self.shelf, &self.last);
        self.last.clear();
    }
}
