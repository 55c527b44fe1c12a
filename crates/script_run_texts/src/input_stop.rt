ghost use Rattle.std.specs.Prelude.{◌≡◌};

use sse_script::ReadStop;
use std::alloc::AllocError;

/// Why no further line of a script is carried out.
#[derive(Clone, Copy)]
pub enum InputStop {
    /// The line of this number, from 1, isn't in the grammar, or stands where its kind may not.
    Line(u64),
    /// The source failed.
    Source,
    /// There is no memory for a line.
    Memory,
}

impl From<ReadStop> for InputStop {
    ghost use Rattle.script_run_texts.specs.Stops.{stop_of_source};

    ghost from_gives = { λ fault stop. stop ≡ stop_of_source fault };

    fn from(stop: ReadStop) -> InputStop {
        match stop {
            ReadStop::Failed => InputStop::Source,
            ReadStop::NoMemory => InputStop::Memory,
        }
    }
}

impl From<AllocError> for InputStop {
    ghost use Rattle.script_run_texts.specs.declared.input_stop.InputStop.TheVariants.{Memory};

    ghost from_gives = { λ _ stop. stop ≡ Memory };

    fn from(_e: AllocError) -> InputStop {
        InputStop::Memory
    }
}
