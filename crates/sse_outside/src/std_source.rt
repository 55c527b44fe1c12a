ghost use Rattle.std.specs.Prelude.{◌≡◌, ◌-◌, ◌^◌, ◌≤◌, min, take, IfOk, OnErr};
ghost use Rattle.std.specs.Io.{ReadsAtMost};
ghost use Rattle.std.specs.Io.KnownBytes.{prepend_known, IsAtEnd};
ghost use Rattle.sse_outside.specs.Told.{AllTellOrNone};

use crate::{Failed, Source};
use std::io::{ErrorKind, Read};

/// The most bytes that a source hands out, and the most of a file.
pub(crate) const MOST_BYTES: u64 = 1 << 63;

/// A source over a reader of std, as standard input. It tells the bytes that the reader tells: those of a slice of
/// bytes are told, those of standard input or of a file can't be.
///
/// A read that a signal interrupts is tried again, up to 2^64 - 1 times. Every other error of the reader is a fault,
/// and so is a read after 2^63 bytes in all, for which the reader isn't asked.
#[derive(Drop)]
pub struct StdSource<R: Read> {
    reader: R,
    handed_out: u64,
    faults: u64,
    ghost in_limit: { handed_out ≤ 2 ^ 63 },
    ghost told: { AllTellOrNone R.remaining },
}

impl<R: Read> StdSource<R> {
    // Promise P109 (caller): Over std's readers and writers the bytes are those that std reports, and each error of a sink is a counted fault.
    //   clauses: content; not: That std reports a real device's bytes.
    /// A source of what `reader` gives. Readers of its type must all tell their bytes, or none of them.
    pub fn new(reader: R) -> StdSource<R>
        requires { AllTellOrNone R.remaining }
        ensures content { ⟦<StdSource<R> as Source>⟧.remaining result ≡ R.remaining reader }
        ensures handed_out { ⟦<StdSource<R> as Source>⟧.handed_out result ≡ 0 }
        ensures faults { ⟦<StdSource<R> as Source>⟧.faults result ≡ 0 }
    {
        StdSource {
            reader,
            handed_out: 0,
            faults: 0,
        }
    }
}

impl<R: Read> Source for StdSource<R> {
    ghost remaining = { λ s. R.remaining s.reader };

    ghost handed_out = { λ s. s.handed_out };

    ghost faults = { λ s. s.faults };

    fn read(&mut self, out: &mut [u8]) -> Result<usize, Failed> {
        let (room, _) = out.split_at_mut(room_left(self.handed_out, out.len()));
        match read_retrying(&mut self.reader, room) {
            Ok(count) => {
                self.handed_out += count as u64;
                Ok(count)
            }
            Err(Failed) => {
                self.faults = self.faults.saturating_add(1);
                Err(Failed)
            }
        }
    }
}

// Promise P109, also here; clauses: ensures
/// How many of `wanted` bytes there may be behind the first `before`.
pub(crate) fn room_left(before: u64, wanted: usize) -> usize
    ensures { result ≡ min wanted (2 ^ 63 - before) }
{
    let left = MOST_BYTES.saturating_sub(before);
    wanted.min(left as usize)
}

/// One read, tried again where a signal interrupts it. With no room to read into it fails, and the reader isn't
/// asked.
fn read_retrying<R: Read>(reader: &mut R, out: &mut [u8]) -> Result<usize, Failed>
    requires { AllTellOrNone R.remaining }
    ensures bound { ReadsAtMost result out.new }
    ensures bytes { IfOk result (λ n. R.remaining reader.old ≡ prepend_known (take n out.new) (R.remaining reader.new)) }
    ensures end { IfOk result (λ n. n ≡ 0 → IsAtEnd (R.remaining reader.new)) }
    ensures bytes_err { OnErr result (R.remaining reader.new ≡ R.remaining reader.old) }
{
    if out.is_empty() {
        return Err(Failed);
    }
    for _ in 0..u64::MAX {
        match reader.read(out) {
            Ok(count) => return Ok(count),
            Err(error) if error.kind() == ErrorKind::Interrupted => continue,
            Err(_) => return Err(Failed),
        }
    }
    Err(Failed)
}
