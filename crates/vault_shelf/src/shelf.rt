ghost use Rattle.std.specs.Prelude.{◌≡◌, ◌<◌, ◌==◌, ℕ, List, None, OnOk, Some, if◌then◌else◌, length};
ghost use Rattle.client_registry.specs.HashNumbers.{hash_numbers};
ghost use Rattle.vault_shelf.specs.Shelves as meant;
ghost use Rattle.vault_shelf.specs.ShelfFaults.{shelf_fault};
ghost use Rattle.vault_shelf.specs.CommandView.{command_view};
ghost use Rattle.vault_shelf.specs.ShelfView.{CanSend, HasRoom, Keeps, put_in};

use crate::{ShelfFault, VaultCommand};
use client_registry::HashKeys;
use indexmap::IndexMap;
use std::alloc::{AllocError, Global};
use std::marker::Model;

/// What a client knows of its texts at the vault: of each identifier whose text is there the number of its put, from 0, and how
/// many puts and updates there were. The texts themselves aren't kept.
#[derive(Drop)]
pub struct Shelf {
    kept: IndexMap<u64, u32, HashKeys>,
    puts: u32,
    sent: u32,
}

impl Model for Shelf {
    ghost use Rattle.client_registry.specs.HashNumbers.{hash_numbers};
    ghost use Rattle.indexmap.specs.IndexMap.{hasher_of, spare};
    ghost use Rattle.vault_shelf.specs.ShelfView.{ShelfView};

    ghost Value = { ShelfView };

    ghost view = { λ s. record { kept = s.kept.entries; puts = s.puts; sent = s.sent; room = spare s.kept; keys = hash_numbers (hasher_of s.kept) } };
}

impl Shelf {
    // Promise P202 (caller): A shelf has what its accepted commands leave; carrying one out takes no memory after `prepare`.
    //   clauses: empty, keys; assumes: earlier calls; not: The texts: a shelf has none.
    /// No text, and no update. Identifiers are to be hashed under these keys. It takes no memory.
    pub fn new(alloc: Global, keys: HashKeys) -> Shelf
        ensures empty { Keeps result meant.empty_shelf }
        ensures keys { result.keys ≡ hash_numbers keys }
    {
        Shelf {
            kept: IndexMap::with_hasher(alloc, keys),
            puts: 0,
            sent: 0,
        }
    }

    // Promise P202, also here; clauses: ensures
    /// The number of the put whose text is there under an identifier.
    pub fn put_of(&self, id: u64) -> Option<u32>
        ensures { result ≡ put_in self.now id }
    {
        self.kept.get(&id).copied()
    }

    /// How many puts there were.
    pub fn puts(&self) -> u32
        ensures { result ≡ self.now.puts }
    {
        self.puts
    }

    /// How many updates there were, which are puts and drops: the number of the next one.
    pub fn sent(&self) -> u32
        ensures { result ≡ self.now.sent }
    {
        self.sent
    }

    // Promise P201 (caller): A command on a text is refused exactly for its first fault; one that isn't refused can be sent.
    //   clauses: fault, sends; assumes: earlier calls
    /// Why a command is refused, by the first cause of these that applies: `IdentifierZero`; `IsThere(id)` for a put and
    /// `NotThere(id)` for a drop; `TooLong(n)` for a text of n bytes, more than 65,536; `Full` exactly if the next put or the
    /// next update would have the number 2^32-1.
    pub fn refusal(&self, command: &VaultCommand<'_>) -> Option<ShelfFault>
        ensures fault { (s : meant.Shelf) → Keeps self.now s → result ≡ shelf_fault s (command_view command.now) }
        ensures sends { result ≡ None → CanSend self.now (command_view command.now) }
    {
        match *command {
            VaultCommand::Put { id, body } => self.put_refusal(id, body.len()),
            VaultCommand::Drop { id } => self.drop_refusal(id),
            VaultCommand::Get { id } => get_refusal(id),
        }
    }

    /// Why a put of a text of so many bytes is refused.
    fn put_refusal(&self, id: u64, size: usize) -> Option<ShelfFault>
        ensures fault { (s : meant.Shelf) (body : List ℕ) → Keeps self.now s → size ≡ length body → result ≡ shelf_fault s (meant.Put id body) }
        ensures sends { (body : List ℕ) → size ≡ length body → result ≡ None → CanSend self.now (meant.Put id body) }
    {
        if id == 0 {
            return Some(ShelfFault::IdentifierZero);
        }
        if self.put_of(id).is_some() {
            return Some(ShelfFault::IsThere(id));
        }
        if size > 65536 {
            return Some(ShelfFault::TooLong(size as u64));
        }
        if self.puts < u32::MAX && self.sent < u32::MAX {
            return None;
        }
        Some(ShelfFault::Full)
    }

    /// Why a drop is refused.
    fn drop_refusal(&self, id: u64) -> Option<ShelfFault>
        ensures fault { (s : meant.Shelf) → Keeps self.now s → result ≡ shelf_fault s (meant.Drop id) }
        ensures sends { result ≡ None → CanSend self.now (meant.Drop id) }
    {
        if id == 0 {
            return Some(ShelfFault::IdentifierZero);
        }
        if self.put_of(id).is_none() {
            return Some(ShelfFault::NotThere(id));
        }
        if self.sent < u32::MAX {
            return None;
        }
        Some(ShelfFault::Full)
    }

    // Promise P202, also here; clauses: keeps, sends, room, keys
    /// Takes the memory of a following [`Shelf::carry`] of this command. What is known stays as it is, also after an error.
    pub fn prepare(&mut self, command: &VaultCommand<'_>) -> Result<(), AllocError>
        ensures keeps { (s : meant.Shelf) → Keeps self.old s → Keeps self.new s }
        ensures sends { (c : meant.VaultCommand) → CanSend self.old c → CanSend self.new c }
        ensures room { OnOk result (HasRoom self.new (command_view command.now)) }
        ensures keys { self.new.keys ≡ self.old.keys }
    {
        match command {
            VaultCommand::Put { .. } => self.kept.reserve(1),
            VaultCommand::Drop { .. } => Ok(()),
            VaultCommand::Get { .. } => Ok(()),
        }
    }

    // Promise P202, also here; clauses: keeps, keys
    /// Carries a command out that isn't refused, after [`Shelf::prepare`]. It takes no memory.
    pub fn carry(&mut self, command: &VaultCommand<'_>)
        requires sends { CanSend self.old (command_view command.now) }
        requires room { HasRoom self.old (command_view command.now) }
        ensures keeps { (s : meant.Shelf) → Keeps self.old s → Keeps self.new (meant.shelf_after s (command_view command.now)) }
        ensures keys { self.new.keys ≡ self.old.keys }
    {
        match *command {
            VaultCommand::Put { id, .. } => self.put(id),
            VaultCommand::Drop { id } => self.drop_text(id),
            VaultCommand::Get { .. } => {}
        }
    }

    /// The next put is one of this identifier.
    fn put(&mut self, id: u64)
        requires put { self.old.puts < 0xffffffff }
        requires number { self.old.sent < 0xffffffff }
        requires room { 0 < self.old.room }
        ensures keeps { (s : meant.Shelf) (body : List ℕ) → Keeps self.old s → Keeps self.new (meant.shelf_after s (meant.Put id body)) }
        ensures keys { self.new.keys ≡ self.old.keys }
    {
        self.kept.insert(id, self.puts).unwrap();
        self.puts += 1;
        self.sent += 1;
    }

    /// The text of this identifier is dropped.
    fn drop_text(&mut self, id: u64)
        requires number { self.old.sent < 0xffffffff }
        ensures keeps { (s : meant.Shelf) → Keeps self.old s → Keeps self.new (meant.shelf_after s (meant.Drop id)) }
        ensures keys { self.new.keys ≡ self.old.keys }
    {
        drop(self.kept.swap_remove(&id));
        self.sent += 1;
    }
}

/// Why a get is refused.
fn get_refusal(id: u64) -> Option<ShelfFault>
    ensures { result ≡ (if id == 0 then Some ShelfFault.IdentifierZero else None) }
{
    if id == 0 {
        return Some(ShelfFault::IdentifierZero);
    }
    None
}
