ghost use Rattle.std.specs.Prelude.{◌≡◌, ◌≢◌, ◌⊎◌, ℕ, IfOk, IfSome, IsErr, None, Ok};
ghost use Rattle.sse_journal.specs.Files.{GivesAs};
ghost use Rattle.sse_journal.specs.AnyMoment.{HasSynced, LeavesOnly};
ghost use Rattle.vault_server.specs.VaultAnswers.{InAnswers, answer_reply, vault_answered};
ghost use Rattle.vault_server.specs.VaultFrames.{InVaultReplies, IsShortReply, IsVaultBody, Next, vault_body, vault_number};
ghost use Rattle.vault_server.specs.VaultReading.{frame_in};
ghost use Rattle.vault_server.specs.VaultRecords.{CanTake};
ghost use Rattle.vault_server.specs.VaultServerView.{IsVaultFrom, IsWithin};
ghost use Rattle.vault_server.specs.VaultStarts.{CountsStart, IsReady, RefusesOnly};
ghost use Rattle.vault_server.specs.VaultState.{IsVaultTaken, vault_step};
ghost use Rattle.vault_server.specs.VaultStays.{StaysJournal, StaysVault};
ghost use Rattle.vault_server.specs.VaultTurns.{Answers, CountsAnswer, CountsAppend, JournalsOne, JournalsUpdate, LeavesJournal, TakesOrStays};
ghost use Rattle.vault_server.specs.VaultViews.{frame_view, reply_view};

use crate::keeping::keep;
use crate::replay::replay;
use crate::slots::Vault;
use crate::{VaultAnswer, VaultFrame, VaultOpenFault, VaultReply, read_vault_frame};
use sse_journal::Journal;
use sse_outside::{DeviceFault, Disk};
use std::alloc::Global;
use std::marker::Model;

/// The vault with its journal.
///
/// It doesn't hold the disk. Each call that uses the file takes it, and speaks of a vault that has taken certain updates
/// (`IsVaultOf`): it holds what they leave, and its journal has their bodies and nothing else, in a file that every crash
/// leaves. `start` makes it so, and each update that was taken goes on from it.
#[derive(Drop)]
pub struct VaultServer {
    vault: Vault,
    journal: Journal,
}

impl Model for VaultServer {
    ghost use Rattle.vault_server.specs.VaultServerView.{VaultServerView, vault_server_code};

    ghost Value = { VaultServerView };

    ghost coded = { vault_server_code };

    ghost view = { λ s. record { state = s.vault; journal = s.journal } };
}

impl VaultServer {
    // Promise P192 (caller): After a start the vault has taken exactly the updates whose bodies the file gives.
    //   clauses: started, ready; fields: IsReady.whole, IsReady.within; assumes: observable devices
    // Promise P193 (caller): Once the first sync of a vault's start succeeds, a crash leaves a file that gives the records of the file as it read.
    //   clauses: any_moment; assumes: observable devices, disk model
    // Promise P194 (caller): A vault's start refuses a file only at the place where it stops being a journal, or at the first record no vault takes.
    //   clauses: refuses, count; fields: RefusesOnly.no_journal, RefusesOnly.no_journal_refused, RefusesOnly.bad_record, RefusesOnly.bad_record_refused,
    //     RefusesOnly.accepted, CountsStart.later, CountsStart.failed, CountsStart.steady; assumes: observable devices; not: That it comes when the disk fails or
    //     memory runs out: then that is the answer.
    /// Starts the journal in the file of a disk, reads its records, and has a vault that holds nothing take the updates whose
    /// bodies they are, from the first to the last. A file of less than nine bytes becomes one without records.
    ///
    /// It begins with a sync. Where that is refused, a crash leaves what it might have left before. Once it has succeeded
    /// a crash at any moment of the call, and after any later refusal, leaves a file that gives the same records.
    ///
    /// Errors: `DiskFault` where the disk failed; `NotAJournal(place)` where the file stops being a journal at this
    /// place, with the file as it was;
    /// `BadRecord(number)` where the record of this number, from 0, is the first that isn't the body of an update that the
    /// vault takes after those before it; `NoMemory`. Of a file that is refused for what it holds, it is the first of these
    /// causes that stands: it is a journal before a record of it is looked at.
    pub fn start<D: Disk>(alloc: Global, disk: &mut D) -> Result<VaultServer, VaultOpenFault>
        ensures started { IfOk result (λ store. IfSome (D.content disk.old) (λ bytes. IsVaultFrom bytes store (D.content disk.new) (D.images disk.new))) }
        ensures ready { IfOk result (λ store. IsReady store.journal (D.content disk.new)) }
        ensures any_moment { HasSynced D.content D.images D.moment D.left_since disk.old disk.new GivesAs
            ⊎ ((IsErr result) × LeavesOnly D.moment D.left_since disk.old disk.new (D.images disk.old)) }
        ensures refuses { RefusesOnly result (D.content disk.old) (D.content disk.new) (D.images disk.new) }
        ensures count { CountsStart result (D.faults disk.old) (D.faults disk.new) }
    {
        let journal = match Journal::start(alloc, disk) {
            Ok(journal) => journal,
            Err(fault) => return Err(VaultOpenFault::from(fault)),
        };
        let mut vault = Vault::new(alloc);
        let mut body = Vec::new(alloc);
        match replay(&mut vault, &journal, disk, &mut body) {
            Ok(()) => Ok(VaultServer { vault, journal }),
            Err(fault) => Err(fault),
        }
    }

    // Promise P190 (caller): The vault acknowledges an update only after every crash would leave it.
    //   clauses: journal; fields: JournalsUpdate.added; assumes: observable devices, disk model, earlier calls
    // Promise P191 (caller): A crash while the vault answers leaves the earlier updates, with the one in hand or without it.
    //   clauses: journal; fields: JournalsUpdate.any_moment; assumes: observable devices, disk model, earlier calls; not: A vault whose journal is broken.
    // Promise P195 (caller): The vault answers by its step; in place of taking an update it may report out of memory or a disk fault.
    //   clauses: step, left, count; fields: Answers.state, Answers.reply, Answers.not_taken, LeavesJournal.within_after, CountsAnswer.later, CountsAnswer.failed,
    //     CountsAnswer.steady; assumes: earlier calls
    // Promise P196 (caller): A body that is no update, or an update that the vault doesn't take, leaves vault and disk untouched.
    //   clauses: journal; fields: JournalsUpdate.untouched; assumes: earlier calls
    // Promise P200 (caller): After the disk failed at an update the vault takes no other.
    //   clauses: left; fields: LeavesJournal.whole, LeavesJournal.failed_breaks; assumes: earlier calls
    // Promise P219 (caller): A vault that takes no update holds what it held; one whose journal is broken leaves disk and journal untouched.
    //   clauses: stays; fields: StaysVault.kept, StaysVault.broken, StaysVault.breaks; assumes: earlier calls
    /// The answer to the body of a frame, by the vault's step; bytes that are no frame are answered `BadFrame`. An update that the
    /// vault takes is acknowledged only where every crash leaves its record.
    ///
    /// `StoreFault` where the disk failed at the record of this update, or of an earlier one: from then on no update is taken.
    /// `NoMemory` where there is no memory for an update, here or on the disk; if it was the disk that had none, no update is
    /// taken from then on either. After both the vault holds what it held, and a crash may leave the record or not.
    pub fn answer<D: Disk>(&mut self, disk: &mut D, body: &[u8]) -> VaultAnswer
        requires within { IsWithin self.old.journal (D.content disk.old) }
        ensures step { Answers self.old.state self.new.state result (vault_answered self.old.state body.now) (CanTake self.old.state body.now) }
        ensures journal { JournalsUpdate D.content D.images D.moment D.left_since disk.old disk.new self.old self.new result (frame_in body.now) body.now (CanTake self.old.state body.now) }
        ensures left { LeavesJournal self.old.journal self.new.journal (D.content disk.new) result }
        ensures stays { StaysVault D.content D.images disk.old disk.new self.old self.new result }
        ensures count { CountsAnswer result self.old.journal (D.faults disk.old) (D.faults disk.new) }
    {
        match read_vault_frame(body) {
            Ok(frame) => self.answer_frame(disk, &frame, body),
            Err(_) => VaultAnswer::BadFrame,
        }
    }

    // Promise P199 (caller): What the vault hands out of a slot is the tag and text that it holds there, short enough for a reply.
    //   clauses: value, short, grammar
    /// The reply that an answer of this vault stands for, as long as nothing was taken since.
    pub fn reply(&self, answer: &VaultAnswer) -> VaultReply<'_>
        ensures value { reply_view result ≡ answer_reply self.now.state answer.now }
        ensures short { IsShortReply (reply_view result) }
        ensures grammar { InAnswers answer.now → InVaultReplies (reply_view result) }
    {
        match *answer {
            VaultAnswer::Took(n) => VaultReply::Took(n),
            VaultAnswer::Holds(slot) => self.vault.handed(&slot),
            VaultAnswer::Next(n) => next_reply(n),
            VaultAnswer::Clash => VaultReply::Clash,
            VaultAnswer::NoMemory => VaultReply::NoMemory,
            VaultAnswer::StoreFault => VaultReply::StoreFault,
            VaultAnswer::BadFrame => VaultReply::BadFrame,
        }
    }

    /// The answer to a frame, with this body.
    fn answer_frame<D: Disk>(
        &mut self,
        disk: &mut D,
        frame: &VaultFrame<'_>,
        body: &[u8],
    ) -> VaultAnswer
        requires body { IsVaultBody (frame_view frame.now) body.now }
        requires within { IsWithin self.old.journal (D.content disk.old) }
        ensures step { Answers self.old.state self.new.state result (vault_step self.old.state (frame_view frame.now)) (IsVaultTaken self.old.state (frame_view frame.now)) }
        ensures journal { JournalsUpdate D.content D.images D.moment D.left_since disk.old disk.new self.old self.new result (Ok (frame_view frame.now)) body.now
            (IsVaultTaken self.old.state (frame_view frame.now)) }
        ensures left { LeavesJournal self.old.journal self.new.journal (D.content disk.new) result }
        ensures stays { StaysVault D.content D.images disk.old disk.new self.old self.new result }
        ensures count { CountsAnswer result self.old.journal (D.faults disk.old) (D.faults disk.new) }
    {
        let Some(n) = frame.number() else {
            return self.asked(frame);
        };
        if let Some(answer) = self.vault.refusal(frame) {
            return answer;
        }
        match self.take(disk, frame, body) {
            Ok(()) => VaultAnswer::Took(n),
            Err(fault) => VaultAnswer::from(fault),
        }
    }

    /// The answer to a question.
    fn asked(&self, frame: &VaultFrame<'_>) -> VaultAnswer
        requires { vault_number (frame_view frame.now) ≡ None }
        ensures reply { answer_reply self.now.state result ≡ (vault_step self.now.state (frame_view frame.now)).1 }
        ensures state { (vault_step self.now.state (frame_view frame.now)).0 ≡ self.now.state }
        ensures known { (result ≢ VaultAnswer.NoMemory) × (result ≢ VaultAnswer.StoreFault) × ((n : ℕ) → result ≢ VaultAnswer.Took n) }
    {
        match frame {
            VaultFrame::Fetch { slot } => VaultAnswer::Holds(*slot),
            _ => VaultAnswer::Next(self.vault.next()),
        }
    }

    /// Takes an update that isn't refused. The memory of a put is taken first: its slot is filled, and emptied again if its
    /// record isn't kept.
    fn take<D: Disk>(
        &mut self,
        disk: &mut D,
        frame: &VaultFrame<'_>,
        body: &[u8],
    ) -> Result<(), DeviceFault>
        requires accepted { IsVaultTaken self.old.state (frame_view frame.now) }
        requires body { body.now ≡ vault_body (frame_view frame.now) }
        requires within { IsWithin self.old.journal (D.content disk.old) }
        ensures takes { TakesOrStays result self.old.state self.new.state (frame_view frame.now) }
        ensures journal { JournalsOne D.content D.images D.moment D.left_since disk.old disk.new result self.old self.new (frame_view frame.now) body.now }
        ensures stays { StaysJournal D.content D.images disk.old disk.new result self.old.journal self.new.journal }
        ensures count { CountsAppend result self.old.journal (D.faults disk.old) (D.faults disk.new) }
    {
        let Ok(()) = self.vault.prepare(frame) else {
            return Err(DeviceFault::NoMemory);
        };
        match keep(&mut self.journal, disk, body) {
            Ok(()) => {
                self.vault.finish(frame);
                Ok(())
            }
            Err(fault) => {
                self.vault.undo(frame);
                Err(fault)
            }
        }
    }
}

/// The reply that gives the number of the next update.
fn next_reply(n: u32) -> VaultReply<'static>
    ensures value { reply_view result ≡ Next n }
    ensures grammar { InVaultReplies (Next n) }
{
    VaultReply::Next(n)
}
