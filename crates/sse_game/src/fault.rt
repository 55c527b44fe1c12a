ghost use Rattle.std.specs.Prelude.{◌≡◌};
ghost use Rattle.sse_game.specs.declared.fault.DuelFault.TheVariants as faults;

use std::alloc::AllocError;

/// Why a duel ends before its last turn.
#[derive(Clone, Copy)]
pub enum DuelFault {
    /// The first answer is no pair of setups that are both accepted, or there is no turn.
    NoSetup,
    /// The two commands of this number, counted from 0 with the setup, leak something else. They aren't played.
    LeaksDiffer(u32),
    /// There is no memory.
    NoMemory,
}

impl From<AllocError> for DuelFault {
    ghost from_gives = { λ fault gives. gives ≡ faults.NoMemory };

    fn from(_fault: AllocError) -> DuelFault {
        DuelFault::NoMemory
    }
}
