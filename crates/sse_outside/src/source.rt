ghost use Rattle.std.specs.Prelude.{◌≡◌, ℕ, ◌+◌, ◌^◌, ◌<◌, ◌≤◌, List, length, take, IfOk, OnErr};
ghost use Rattle.std.specs.declared.option.Option.{Option};
ghost use Rattle.std.specs.Io.{ReadsAtMost};
ghost use Rattle.std.specs.Io.KnownBytes.{prepend_known, IsAtEnd};
ghost use Rattle.sse_outside.specs.Causes.{HasCause};

use crate::Failed;

/// Where bytes come from: standard input, a connection, or bytes in memory.
///
/// A source tells three things to contracts: `remaining`, the bytes that are left, where it can tell them (a real
/// device can't, and then it is `None`); `handed_out`, how many bytes it has given, which bounds each loop over
/// it; and `faults`, its count of faults.
pub trait Source {
    ghost remaining: { Self → Option (List ℕ) };

    ghost handed_out: { Self → ℕ };

    ghost faults: { Self → ℕ };

    // Promise P107 (caller): A source hands out its bytes in order, and a sink takes them in order.
    //   clauses: bytes, bytes_err, end; assumes: observable devices; not: That a real file or stream behaves so, which is tested.
    // Promise P108 (caller): A device's fault count rises when a call fails and stays when it succeeds or memory runs out.
    //   clauses: cause; not: A count at 2^64-1 counts as risen.
    /// Puts the next bytes of the source at the front of `out`, which isn't empty, and answers how many they are.
    ///
    /// Zero bytes are the end of the input. A source hands out at most 2^63 bytes in all: a read that would pass
    /// this answers `Failed`, as at any fault of the device. With `Failed` the count of faults rose in this call, and
    /// else it stays. After `Failed` nothing of the source is lost; what `out` holds is left open.
    fn read(&mut self, out: &mut [u8]) -> Result<usize, Failed>
        requires { 0 < length out.old }
        ensures bound { ReadsAtMost result out.new }

        // What was left is what came and what is left now.
        ensures bytes { IfOk result (λ n. remaining self.old ≡ prepend_known (take n out.new) (remaining self.new)) }
        ensures end { IfOk result (λ n. n ≡ 0 → IsAtEnd (remaining self.new)) }
        ensures bytes_err { OnErr result (remaining self.new ≡ remaining self.old) }

        // The measure of every loop over a source.
        ensures count { IfOk result (λ n. handed_out self.new ≡ handed_out self.old + n) }
        ensures within { IfOk result (λ _. handed_out self.new ≤ 2 ^ 63) }
        ensures count_err { OnErr result (handed_out self.new ≡ handed_out self.old) }
        ensures cause { HasCause (faults self.old) (faults self.new) result };
}
