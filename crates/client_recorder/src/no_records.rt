ghost use Rattle.std.specs.Prelude.{◌≡◌, ◌⊎◌, List, ℕ, Option, OnErr, OnOk};

use crate::Recorder;
use sse_outside::DeviceFault;

/// Keeps nothing and tells nothing: for a run that isn't to be gone on with.
#[derive(Clone, Copy, Drop)]
pub struct NoRecords;

impl Recorder for NoRecords {
    ghost use Rattle.std.specs.Prelude.{[], None, refl};
    ghost use Rattle.sse_outside.specs.Kept.{Kept};

    ghost kept = { λ _. record { records = None; refused = [] } };

    ghost moment = { λ _. 0 };

    ghost left_since = { λ _ _ _. Unit {0} };

    ghost whole = { λ _. Unit {0} };

    ghost faults = { λ _. 0 };

    ghost at_rest = { λ recorder whole. record { none = refl; leaves = tt } };

    fn keep(&mut self, payload: Vec<u8>) -> Result<(), DeviceFault> {
        Ok(())
    }
}
