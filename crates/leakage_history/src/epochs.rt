ghost use Rattle.std.specs.Prelude.{◌≡◌, ◌≢◌, ◌+◌, ◌<◌, ◌++◌, ◌∷◌, [], Err, IfOk, IfSome, IsOkUnless, None, OnErr, OnOk, Some, length, slice_get};
ghost use Rattle.std.specs.Result.{result_err};
ghost use Rattle.client_registry.specs.Acceptance.{size_refusal};
ghost use Rattle.client_registry.specs.Epochs.{AreEpochs, setup_renewed, with_commands, with_renewal};
ghost use Rattle.client_registry.specs.Histories.{IsWhole};
ghost use Rattle.client_registry.specs.Run.{last_run};
ghost use Rattle.client_registry.specs.Sized.{IsHistory, IsSizedCommand};
ghost use Rattle.leakage_history.specs.Commands.{command_of};
ghost use Rattle.leakage_history.specs.HashedEpochs.{ended_with, epochs_in, renewal_keys, runs_of};
ghost use Rattle.leakage_history.specs.HashedRun.{run_of};
ghost use Rattle.leakage_history.specs.Refusal.{push_refusal};
ghost use Rattle.leakage_history.specs.Renewals.{IsIndexSize, renewal_refusal};

use crate::command::Command;
use crate::fault::HistoryFault;
use crate::history::History;
use crate::renewal_fault::RenewalFault;
use crate::renewed::renewed;
use client_registry::Size;
use std::alloc::{AllocError, Global};
use std::marker::Model;
use std::mem;

/// An epoch that a renewal of the key ended.
#[derive(Drop)]
pub(crate) struct Ended {
    pub(crate) history: History,
    /// The master key of the next epoch.
    pub(crate) key: [u8; 32],
}

/// The epochs of a history: a setup and the commands that were accepted after it; then for each renewal of the key that key, and
/// the setup of what was live with the commands that were accepted after it.
#[derive(Drop)]
pub struct Epochs {
    before: Vec<Ended>,
    last: History,
}

impl Model for Epochs {
    ghost use Rattle.leakage_history.specs.HashedEpochs.{HashedEpochs};

    ghost Value = { HashedEpochs };

    ghost use Rattle.leakage_history.specs.EpochsView.{AreKept, epochs_view};

    ghost view = { epochs_view };

    ghost invariant = { AreKept };
}

impl Epochs {
    // Promise P291 (caller): Epochs take commands as a history does, and a renewal if and only if what is live can be set up again.
    //   clauses: ensures; assumes: accepted setup; not: Whether an epoch had the key of a renewal. Out of memory may come in place of taking or refusing a renewal.
    /// The epoch of this history alone. It takes no memory.
    pub fn of(alloc: Global, history: History) -> Epochs
        requires { size_refusal history.setup ≡ None }
        ensures { result ≡ record { before = []; last = history } }
    {
        // Its contract says that each command is accepted after those before it.
        let _commands = history.len();
        Epochs {
            before: Vec::new(alloc),
            last: history,
        }
    }

    // Promise P291, also here; clauses: ok, err, keys, refused, accepted
    /// Takes a command in the last epoch, as [`History::push`] does.
    pub fn push(&mut self, command: Command) -> Result<(), HistoryFault>
        ensures ok { OnOk result (epochs_in self.new ≡ with_commands (command_of command ∷ []) (epochs_in self.old)) }
        ensures err { OnErr result (self.new ≡ self.old) }
        ensures keys { self.new.last.keys ≡ self.old.last.keys }
        ensures refused { IfSome (push_refusal (last_run (epochs_in self.old)) (command_of command)) (λ fault. result ≡ Err fault) }
        ensures accepted { push_refusal (last_run (epochs_in self.old)) (command_of command) ≡ None → IsOkUnless result HistoryFault.NoMemory }
    {
        let taken = self.last.push(command);
        // Its contract says that each command is accepted after those before it.
        let _commands = self.last.len();
        taken
    }

    // Promise P291, also here; clauses: refusal
    /// Why a command isn't accepted in the last epoch; with none, [`Epochs::push`] takes it or is out of memory.
    pub fn refusal(&self, command: &Command) -> Option<HistoryFault>
        ensures refusal { result ≡ push_refusal (last_run (epochs_in self.now)) (command_of command.now) }
        ensures valid { IsSizedCommand (command_of command.now) }
    {
        self.last.refusal(command)
    }

    // Promise P291, also here; clauses: ok, err, keys, size, fault
    /// Renews the key: a new epoch begins with the setup of what is live, under the parameters of the epochs before, and takes at
    /// most so many update frames for it. Whether an epoch had this key isn't tested. Returns the size of the index.
    ///
    /// Errors, the first that applies: `TooManyDocuments(count)`; `TooManyPairs(count)`; `ListTooLong { word, n }`;
    /// `TooManyBytes(count)`; `HistoryFull`. `NoMemory` may come in place of the new epoch and of any of them. After an error
    /// all is as before.
    pub fn renew(&mut self, key: [u8; 32], most_frames: u32) -> Result<Size, RenewalFault>
        ensures ok { OnOk result (epochs_in self.new ≡ with_renewal key (epochs_in self.old)) }
        ensures err { OnErr result (self.new ≡ self.old) }
        ensures keys { self.new.last.keys ≡ self.old.last.keys }
        ensures size { IfOk result (λ size. IsIndexSize size (setup_renewed (last_run (epochs_in self.old)))) }
        ensures fault { result ≢ Err RenewalFault.NoMemory → result_err result ≡ renewal_refusal most_frames (setup_renewed (last_run (epochs_in self.old))) }
    {
        let alloc = *self.before.allocator();
        renew_last(alloc, &mut self.before, &mut self.last, key, most_frames)
    }

    /// The last epoch.
    pub fn last(&self) -> &History
        ensures run { run_of result.now ≡ last_run (epochs_in self.now) }
        ensures same { result.now ≡ self.now.last }
        ensures valid { AreEpochs (epochs_in self.now) }
        ensures whole { IsWhole (Some (epochs_in self.now)) }
    {
        &self.last
    }

    // Promise P291, also here; clauses: len
    /// How many epochs.
    pub fn len(&self) -> usize
        ensures len { result ≡ length (runs_of (epochs_in self.now)) }
        ensures renewals { result ≡ length (renewal_keys (epochs_in self.now)) + 1 }
        ensures valid { AreEpochs (epochs_in self.now) }
        ensures whole { IsWhole (Some (epochs_in self.now)) }
    {
        self.before.len() + 1
    }

    // Promise P291, also here; clauses: ensures
    /// The epoch of this number, from 0.
    pub fn epoch(&self, number: usize) -> &History
        requires { number < length (runs_of (epochs_in self.now)) }
        ensures { slice_get (runs_of (epochs_in self.now)) number ≡ Some (run_of result.now) }
    {
        if number == self.before.len() {
            return &self.last;
        }
        &self.before[number].history
    }

    // Promise P291, also here; clauses: ensures
    /// The key of the renewal of this number, from 0, which is that of the epoch after as many.
    pub fn renewal_key(&self, number: usize) -> &[u8; 32]
        requires { number < length (renewal_keys (epochs_in self.now)) }
        ensures { slice_get (renewal_keys (epochs_in self.now)) number ≡ Some result.now }
    {
        &self.before[number].key
    }
}

/// Ends the last epoch, and begins the next one with the setup of what is live.
fn renew_last(
    alloc: Global,
    before: &mut Vec<Ended>,
    last: &mut History,
    key: [u8; 32],
    most_frames: u32,
) -> Result<Size, RenewalFault>
    requires { IsHistory (run_of last.old) }
    ensures ended { OnOk result (before.new.items ≡ before.old.items ++ ended_with last.old key ∷ []) }
    ensures next { OnOk result (last.new ≡ record { setup = setup_renewed (run_of last.old); later = []; keys = last.old.keys }) }
    ensures kept { OnOk result (IsHistory (run_of last.new)) }
    ensures size { IfOk result (λ size. IsIndexSize size (setup_renewed (run_of last.old))) }
    ensures fault { result ≢ Err RenewalFault.NoMemory → result_err result ≡ renewal_refusal most_frames (setup_renewed (run_of last.old)) }
    ensures as_before { OnErr result (before.new.items ≡ before.old.items) }
    ensures same { OnErr result (last.new ≡ last.old) }
{
    match renewed(alloc, &*last, most_frames) {
        Ok((next, size)) => {
            put_behind(before, last, key, next)?;
            Ok(size)
        }
        Err(fault) => Err(fault),
    }
}

/// Puts an epoch with this key behind the last one. All memory is taken first, so that nothing fails once something has changed.
fn put_behind(
    before: &mut Vec<Ended>,
    last: &mut History,
    key: [u8; 32],
    next: History,
) -> Result<(), AllocError>
    ensures before { OnOk result (before.new.items ≡ before.old.items ++ ended_with last.old key ∷ []) }
    ensures last { OnOk result (last.new ≡ next) }
    ensures kept { OnErr result (before.new.items ≡ before.old.items) }
    ensures same { OnErr result (last.new ≡ last.old) }
{
    before.reserve(1)?;
    let history = mem::replace(last, next);
    before.push_reserved(Ended { history, key });
    Ok(())
}
