ghost use Rattle.std.specs.Prelude.{◌≡◌};
ghost use Rattle.sse_server.specs.Answers.{fault_answer};

use server_core::Answer;
use sse_outside::DeviceFault;

/// What a store answers to a frame. It isn't shown, as the walk of a search has the word's token.
#[derive(Clone, Copy)]
pub enum StoreAnswer {
    /// The server's answer. `Answer::NoMemory` also where the disk has no memory for the record of an update frame.
    Answered(Answer),
    /// To an update frame that the server would take: the disk failed, now or at an earlier frame, and it wasn't taken.
    StoreFault,
}

impl From<DeviceFault> for StoreAnswer {
    ghost from_gives = { λ fault answer. answer ≡ fault_answer fault };

    fn from(fault: DeviceFault) -> StoreAnswer {
        match fault {
            DeviceFault::Failed => StoreAnswer::StoreFault,
            DeviceFault::NoMemory => StoreAnswer::Answered(Answer::NoMemory),
        }
    }
}
