ghost use Rattle.std.specs.Prelude.{◌≡◌};

use crate::PeerStop;
use sse_outside::DeviceFault;

/// What ends a run in a command. The first four end it before the run sends anything of the command.
#[derive(Drop)]
pub enum CommandStop {
    /// Two words of the setup, or of a document that is added, have equal labels.
    LabelClash { first: u32, second: u32 },
    /// Two blocks of the setup have equal places.
    PlaceClash { first: u32, second: u32 },
    /// Two words of a document that is added or deleted have equal revocation numbers.
    NumberClash { first: u32, second: u32 },
    /// There is no memory to plan the command.
    Memory,
    /// Its record wasn't kept, and nothing of it was sent.
    Keeping(DeviceFault),
    /// The exchange with the server ended the run.
    Exchange(PeerStop),
}

impl From<DeviceFault> for CommandStop {
    ghost use Rattle.script_run_texts.specs.declared.command_stop.CommandStop.TheVariants.{Keeping};

    ghost from_gives = { λ fault stop. stop ≡ Keeping fault };

    fn from(fault: DeviceFault) -> CommandStop {
        CommandStop::Keeping(fault)
    }
}

impl From<PeerStop> for CommandStop {
    ghost use Rattle.script_run_texts.specs.declared.command_stop.CommandStop.TheVariants.{Exchange};

    ghost from_gives = { λ peer stop. stop ≡ Exchange peer };

    fn from(stop: PeerStop) -> CommandStop {
        CommandStop::Exchange(stop)
    }
}
