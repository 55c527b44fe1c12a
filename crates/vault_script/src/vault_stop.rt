ghost use Rattle.std.specs.Prelude.{◌≡◌};

use script_run_texts::{CommandStop, InputStop, JournalStop, PeerStop, StopCause};
use sse_outside::DeviceFault;
use std::alloc::AllocError;

/// What ends a vault's run before the end of its input.
#[derive(Drop)]
pub enum VaultStop {
    /// The server reported a collision: the slot of a put is taken, or that of a drop is empty.
    Clash,
    /// The server sent a text for this identifier whose tag is wrong.
    Forged { id: u64 },
    /// A cause that runs of other scripts have too.
    Run(StopCause),
    /// The journal isn't one that the run can begin with.
    Unopened(JournalStop),
}

impl From<InputStop> for VaultStop {
    ghost use Rattle.script_run_texts.specs.declared.stop_cause.StopCause.TheVariants.{Input};
    ghost use Rattle.vault_script.specs.declared.vault_stop.VaultStop.TheVariants.{Run};

    ghost from_gives = { λ input stop. stop ≡ Run (Input input) };

    fn from(stop: InputStop) -> VaultStop {
        VaultStop::Run(StopCause::Input(stop))
    }
}

impl From<PeerStop> for VaultStop {
    ghost use Rattle.script_run_texts.specs.declared.command_stop.CommandStop.TheVariants.{Exchange};
    ghost use Rattle.script_run_texts.specs.declared.stop_cause.StopCause.TheVariants.{Command};
    ghost use Rattle.vault_script.specs.declared.vault_stop.VaultStop.TheVariants.{Run};

    ghost from_gives = { λ peer stop. stop ≡ Run (Command (Exchange peer)) };

    fn from(stop: PeerStop) -> VaultStop {
        VaultStop::Run(StopCause::Command(CommandStop::Exchange(stop)))
    }
}

impl From<JournalStop> for VaultStop {
    ghost use Rattle.vault_script.specs.declared.vault_stop.VaultStop.TheVariants.{Unopened};

    ghost from_gives = { λ journal stop. stop ≡ Unopened journal };

    fn from(stop: JournalStop) -> VaultStop {
        VaultStop::Unopened(stop)
    }
}

impl From<DeviceFault> for VaultStop {
    ghost use Rattle.script_run_texts.specs.Stops.{stop_of_sink};
    ghost use Rattle.vault_script.specs.declared.vault_stop.VaultStop.TheVariants.{Run};

    ghost from_gives = { λ fault stop. stop ≡ Run (stop_of_sink fault) };

    fn from(fault: DeviceFault) -> VaultStop {
        VaultStop::Run(StopCause::from(fault))
    }
}

impl From<AllocError> for VaultStop {
    ghost use Rattle.script_run_texts.specs.declared.stop_cause.StopCause.TheVariants.{Memory};
    ghost use Rattle.vault_script.specs.declared.vault_stop.VaultStop.TheVariants.{Run};

    ghost from_gives = { λ _ stop. stop ≡ Run Memory };

    fn from(_e: AllocError) -> VaultStop {
        VaultStop::Run(StopCause::Memory)
    }
}
