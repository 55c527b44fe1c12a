ghost use Rattle.std.specs.Prelude.{◌≡◌, ◌<◌, ◌≤◌, ◌+◌, ◌-◌, length, None, OnOk, OnErr, option_map};
ghost use Rattle.std.specs.FinMap as finmap;
ghost use Rattle.vault_server.specs.VaultAnswers.{answer_reply};
ghost use Rattle.vault_server.specs.VaultFrames.{InVaultReplies, IsShortReply};
ghost use Rattle.vault_server.specs.VaultState.{CanFinish, CanUndo, IsVaultTaken, empty_vault, finished, handed, prepared, undone, update_refusal, vault_refusal};
ghost use Rattle.vault_server.specs.VaultViews.{frame_view, reply_view};

use crate::sealed::{Sealed, reply_of};
use crate::{VaultAnswer, VaultFrame, VaultReply};
use std::alloc::{AllocError, Global};
use std::collections::BTreeMap;
use std::marker::Model;

/// What the vault holds: the tag and the encrypted text of each slot that isn't empty, and the number of the next update.
/// Slots are chosen by whoever connects, and a tree has no bad case.
#[derive(Drop)]
pub(crate) struct Vault {
    slots: BTreeMap<[u8; 16], Sealed>,
    next: u32,
    alloc: Global,
}

impl Model for Vault {
    ghost use Rattle.vault_server.specs.VaultState.{VaultState, state_code};
    ghost use Rattle.std.specs.FinMap as finmap;

    ghost Value = { VaultState };

    ghost coded = { state_code };

    ghost view = { λ v. record { slots = finmap.from_entries v.slots.entries; next = v.next } };
}

impl Vault {
    /// One that holds nothing.
    pub(crate) fn new(alloc: Global) -> Vault
        ensures { result ≡ empty_vault }
    {
        Vault {
            slots: BTreeMap::new(alloc),
            next: 0,
            alloc,
        }
    }

    /// The number of the next update.
    pub(crate) fn next(&self) -> u32
        ensures { result ≡ self.now.next }
    {
        self.next
    }

    /// What stands in a slot.
    fn at(&self, slot: &[u8; 16]) -> Option<&Sealed>
        ensures { option_map (λ held. held.now) result ≡ finmap.get self.now.slots slot.now }
    {
        self.slots.get(slot)
    }

    /// What is handed out of a slot.
    pub(crate) fn handed(&self, slot: &[u8; 16]) -> VaultReply<'_>
        ensures reply { reply_view result ≡ handed (finmap.get self.now.slots slot.now) }
        ensures short { IsShortReply (reply_view result) }
        ensures grammar { InVaultReplies (reply_view result) }
    {
        reply_of(self.at(slot))
    }

    /// Takes the memory for an update that isn't refused: a put fills its slot with a copy of its text.
    pub(crate) fn prepare(&mut self, frame: &VaultFrame<'_>) -> Result<(), AllocError>
        requires { IsVaultTaken self.old (frame_view frame.now) }
        ensures ok { OnOk result (self.new ≡ prepared self.old (frame_view frame.now)) }
        ensures err { OnErr result (self.new ≡ self.old) }
    {
        match frame {
            VaultFrame::Put {
                slot,
                tag,
                sealed,
                ..
            } => self.fill(slot, tag, sealed),
            VaultFrame::Drop { .. } => Ok(()),
            VaultFrame::Fetch { .. } => Ok(()),
            VaultFrame::Ask => Ok(()),
        }
    }

    /// Finishes an update that was prepared, after its record was kept: a drop empties its slot. Takes no memory.
    pub(crate) fn finish(&mut self, frame: &VaultFrame<'_>)
        requires { CanFinish self.old (frame_view frame.now) }
        ensures { self.new ≡ finished self.old (frame_view frame.now) }
    {
        if let VaultFrame::Drop { slot, .. } = frame {
            self.empty(slot);
        }
    }

    /// Gives up an update that was prepared: the slot of a put is empty again. Takes no memory.
    pub(crate) fn undo(&mut self, frame: &VaultFrame<'_>)
        requires { CanUndo self.old (frame_view frame.now) }
        ensures { self.new ≡ undone self.old (frame_view frame.now) }
    {
        if let VaultFrame::Put { slot, .. } = frame {
            self.put_back(slot);
        }
    }

    /// Fills a slot with a copy of a tag and a text.
    fn fill(&mut self, slot: &[u8; 16], tag: &[u8; 32], sealed: &[u8]) -> Result<(), AllocError>
        requires next { self.old.next < 0xffffffff }
        requires short { length sealed.now ≤ 65547 }
        ensures ok { OnOk result (self.new ≡ record { slots = finmap.insert self.old.slots slot.now (record { tag = tag.now; sealed = sealed.now }); next = self.old.next + 1 }) }
        ensures err { OnErr result (self.new ≡ self.old) }
    {
        let held = Sealed::new(self.alloc, tag, sealed)?;
        self.put(slot, held)
    }

    /// Fills a slot.
    fn put(&mut self, slot: &[u8; 16], held: Sealed) -> Result<(), AllocError>
        requires { self.old.next < 0xffffffff }
        ensures ok { OnOk result (self.new ≡ record { slots = finmap.insert self.old.slots slot.now held; next = self.old.next + 1 }) }
        ensures err { OnErr result (self.new ≡ self.old) }
    {
        self.slots.insert(*slot, held)?;
        self.next += 1;
        Ok(())
    }

    /// Empties a slot.
    fn empty(&mut self, slot: &[u8; 16])
        requires { self.old.next < 0xffffffff }
        ensures { self.new ≡ record { slots = finmap.remove self.old.slots slot.now; next = self.old.next + 1 } }
    {
        drop(self.slots.remove(slot));
        self.next += 1;
    }

    /// Undoes the put before.
    fn put_back(&mut self, slot: &[u8; 16])
        requires { 0 < self.old.next }
        ensures { self.new ≡ record { slots = finmap.remove self.old.slots slot.now; next = self.old.next - 1 } }
    {
        drop(self.slots.remove(slot));
        self.next -= 1;
    }

    /// Why an update isn't taken: its number is wrong, or else its slot isn't as it has to be. None for a question.
    pub(crate) fn refusal(&self, frame: &VaultFrame<'_>) -> Option<VaultAnswer>
        ensures { option_map (answer_reply self.now) result ≡ vault_refusal self.now (frame_view frame.now) }
    {
        match frame {
            VaultFrame::Put { n, slot, .. } => self.update_refusal(*n, self.at(slot).is_some()),
            VaultFrame::Drop { n, slot } => self.update_refusal(*n, self.at(slot).is_none()),
            VaultFrame::Fetch { .. } => None,
            VaultFrame::Ask => None,
        }
    }

    fn update_refusal(&self, n: u32, clashes: bool) -> Option<VaultAnswer>
        ensures { option_map (answer_reply self.now) result ≡ update_refusal self.now.next n clashes }
    {
        if n != self.next {
            return Some(VaultAnswer::Next(self.next));
        }
        if clashes {
            return Some(VaultAnswer::Clash);
        }
        None
    }
}
