ghost use Rattle.std.specs.Prelude.{◌≡◌, ◌≢◌, ◌-◌, ◌^◌, ◌&&◌, ℕ, IfOk, List, false, is_none, nat_le, nat_lt};
ghost use Rattle.client_registry.specs.Acceptance.{frames_needed, size_refusal};
ghost use Rattle.client_registry.specs.Epochs.{Does, Renews};
ghost use Rattle.client_registry.specs.Run.{last_run};
ghost use Rattle.def_duel.specs.Choices as choices;
ghost use Rattle.leakage_history.specs.Commands.{command_of};
ghost use Rattle.sse_game.specs.Side.{IsSide, epochs_at, history_at, set_up_like};
ghost use Rattle.sse_game.specs.Views.{choice_view};

use crate::choice::Choice;
use crate::side::{Side, count_frames, setup_frames};
use client_live_docs::live_docs;
use client_registry::{Docs, DocsFault, Sizes, size_of};
use leakage_history::Command;
use std::alloc::{AllocError, Global};

/// Whether a history takes a command: it accepts it, and all can be numbered with it.
pub(crate) fn can_take(alloc: Global, side: &Side, choice: &Choice) -> Result<bool, AllocError>
    requires { IsSide side.now }
    ensures { IfOk result (λ taken. taken ≡ choices.can_take (history_at side.now) (choice_view choice.now)) }
{
    match choice {
        Choice::SetUp(_) => Ok(false),
        Choice::Do(command) => Ok(can_do(side, command)),
        Choice::Renew(_) => can_renew(alloc, side),
    }
}

/// The same of a command after a setup.
fn can_do(side: &Side, command: &Command) -> bool
    requires { IsSide side.now }
    ensures { result ≡ choices.can_take (history_at side.now) (choices.Goes (Does (command_of command.now))) }
{
    match side.epochs.refusal(command) {
        Some(_) => false,
        None => has_numbers(side, count_frames(command)),
    }
}

/// Whether one more command, of so many update frames, can be numbered.
fn has_numbers(side: &Side, frames: u32) -> bool
    ensures { result ≡ (nat_lt side.now.commands (2 ^ 32 - 1) && nat_le frames (2 ^ 32 - 1 - side.now.frames)) }
{
    side.commands < u32::MAX && frames <= u32::MAX - side.frames
}

/// The same of a renewal, whatever its key.
fn can_renew(alloc: Global, side: &Side) -> Result<bool, AllocError>
    requires { IsSide side.now }
    ensures { IfOk result (λ taken. (key : List ℕ) → taken ≡ choices.can_take (history_at side.now) (choices.Goes (Renews key))) }
{
    let keys = side.epochs.last().keys();
    match live_docs(alloc, side.trail.registry(), None, keys) {
        Ok(docs) => {
            let taken = can_set_up(side, &docs);
            drop(docs);
            Ok(taken)
        }
        Err(fault) => refused(fault),
    }
}

/// That documents are refused, unless memory ran out.
fn refused(fault: DocsFault) -> Result<bool, AllocError>
    ensures { IfOk result (λ taken. (taken ≡ false) × (fault ≢ DocsFault.NoMemory)) }
{
    match fault {
        DocsFault::NoMemory => Err(AllocError),
        DocsFault::AlreadyLive(_) => Ok(false),
        DocsFault::TooManyDocuments(_) => Ok(false),
        DocsFault::TooManyPairs(_) => Ok(false),
    }
}

/// Whether these documents have an index with the parameters of the last epoch, and its setup can be numbered.
fn can_set_up(side: &Side, docs: &Docs) -> bool
    ensures { result ≡ (is_none (size_refusal (set_up_like docs.now.documents (last_run (epochs_at side.now)).setup))
        && (nat_lt side.now.commands (2 ^ 32 - 1) && nat_le (frames_needed (set_up_like docs.now.documents (last_run (epochs_at side.now)).setup)) (2 ^ 32 - 1 - side.now.frames))) }
{
    let history = side.epochs.last();
    let b = u64::from(history.b());
    let big = u64::from(history.big());
    let pad = u64::from(history.pad());
    match size_of(docs, Sizes { b, big, pad }) {
        Ok(size) => has_numbers(side, setup_frames(size.padded_words, size.padded_blocks)),
        Err(_) => false,
    }
}
