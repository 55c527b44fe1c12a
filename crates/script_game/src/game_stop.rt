use script_run_texts::StopCause;
use sse_outside::DeviceFault;
use std::alloc::AllocError;

/// What ends `duel SEED N` before its line is printed.
#[derive(Drop)]
pub enum GameStop {
    /// A cause that runs have too.
    Run(StopCause),
    /// The two commands of this number, from 0 with the setup, leak something else.
    LeaksDiffer(u32),
}

impl From<DeviceFault> for GameStop {
    ghost use Rattle.std.specs.Prelude.{◌≡◌};
    ghost use Rattle.script_run_texts.specs.Stops.{stop_of_sink};
    ghost use Rattle.script_game.specs.declared.game_stop.GameStop.TheVariants.{Run};

    ghost from_gives = { λ fault stop. stop ≡ Run (stop_of_sink fault) };

    fn from(fault: DeviceFault) -> GameStop {
        GameStop::Run(StopCause::from(fault))
    }
}

impl From<AllocError> for GameStop {
    ghost use Rattle.std.specs.Prelude.{◌≡◌};
    ghost use Rattle.script_run_texts.specs.declared.stop_cause.StopCause.TheVariants.{Memory};
    ghost use Rattle.script_game.specs.declared.game_stop.GameStop.TheVariants.{Run};

    ghost from_gives = { λ _ stop. stop ≡ Run Memory };

    fn from(_e: AllocError) -> GameStop {
        GameStop::Run(StopCause::Memory)
    }
}
