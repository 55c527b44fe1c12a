ghost use Rattle.std.specs.Prelude.{◌≡◌, ℕ, ◌≤◌, List, [], ◌∷◌, OnOk, OnErr, IsErrOf};
ghost use Rattle.sse_journal.specs.Files.{IsPayload};
ghost use Rattle.sse_outside.specs.Causes.{Rose};
ghost use Rattle.sse_outside.specs.Kept.{Kept, with_records, with_refused};
ghost use Rattle.client_recorder.specs.KeepsOn.{IsAtRest, KeepsOn};

use sse_outside::DeviceFault;

/// Where records are kept from one run to the next.
///
/// It tells five things to contracts. `kept` is the records that it took, in order, where it can tell them (on a real disk it
/// can't), and one that it refused. `moment` is the number of this moment, and `left_since` are the files that may be there
/// after a crash at any moment from one on. `whole` says that it takes records. `faults` is its count of faults.
pub trait Recorder {
    ghost kept: { Self → Kept };

    ghost moment: { Self → ℕ };

    ghost left_since: { Self → ℕ → List ℕ → Type 0 };

    ghost whole: { Self → Type 0 };

    ghost faults: { Self → ℕ };

    // Promise P112 (caller): A recorder's accepted record survives every crash; a refused one may or may not, and the earlier ones do.
    //   clauses: taken, refused, keeps_on, whole_after, failed, steady, no_memory; assumes: observable devices, disk model, earlier calls, sizes in bounds; not: `NoRecords`, which keeps
    //     and tells none.
    /// Keeps one record more, of 1 to 2^27 bytes.
    ///
    /// From `Ok` on every crash leaves the record there. After an error a crash leaves the records of before, with the new one
    /// or without, as at any moment of the call, and no other may be kept. With `Failed` the count of faults rose, and with any
    /// other answer it stays.
    fn keep(&mut self, payload: Vec<u8>) -> Result<(), DeviceFault>
        requires payload { IsPayload payload.items }
        requires whole { whole self.old }
        ensures taken { OnOk result (kept self.new ≡ with_records (payload.items ∷ []) (kept self.old)) }
        ensures refused { OnErr result (kept self.new ≡ with_refused (payload.items ∷ []) (kept self.old)) }
        ensures keeps_on { KeepsOn kept moment left_since self.old self.new }
        ensures whole_after { OnOk result (whole self.new) }
        ensures later { faults self.old ≤ faults self.new }
        ensures failed { IsErrOf result DeviceFault.Failed → Rose (faults self.old) (faults self.new) }
        ensures steady { OnOk result (faults self.new ≡ faults self.old) }
        ensures no_memory { IsErrOf result DeviceFault.NoMemory → faults self.new ≡ faults self.old };

    // Promise P112, also here
    /// Where it takes records it has refused none, and a crash now leaves those that it took.
    ghost at_rest: { (recorder : Self) → whole recorder → IsAtRest (kept recorder) (left_since recorder (moment recorder)) };
}
