ghost use Rattle.std.specs.Prelude.{◌≡◌, ◌<◌, ◌≤◌, ◌-◌, ◌+◌, ◌^◌, take, drop, OnOk, OnErr};
ghost use Rattle.std.specs.Io.KnownBytes.{prepend_known, IsAtEnd};
ghost use Rattle.sse_outside.specs.Causes.{HasCause};
ghost use Rattle.buffered_source.specs.Left.{left_of};

use sse_outside::{Failed, Source, hand_out};

/// How many bytes are kept at most.
const ROOM: usize = 4096;

/// A source that asks another one for up to 4,096 bytes at once, and hands out what is left of them first. Who asks for as much is
/// served by the other source itself, if nothing is left.
///
/// What it has taken of the other source and not yet handed out is lost with it.
#[derive(Drop)]
pub struct BufferedSource<S: Source> {
    source: S,
    room: [u8; ROOM],
    at: usize,
    end: usize,
    ghost in_order: { at ≤ end },
    ghost in_room: { end ≤ 4096 },
    ghost taken: { end - at ≤ S.handed_out source },
    ghost in_limit: { at < end → S.handed_out source ≤ 2 ^ 63 },
}

impl<S: Source> BufferedSource<S> {
    // Promise P107, also here; clauses: content
    /// A source of what this one gives.
    pub fn new(source: S) -> BufferedSource<S>
        ensures content { ⟦<BufferedSource<S> as Source>⟧.remaining result ≡ S.remaining source }
        ensures handed_out { ⟦<BufferedSource<S> as Source>⟧.handed_out result ≡ S.handed_out source }
        ensures faults { ⟦<BufferedSource<S> as Source>⟧.faults result ≡ S.faults source }
    {
        BufferedSource {
            source,
            room: [0; ROOM],
            at: 0,
            end: 0,
        }
    }

    /// Takes what the other source has next, where nothing is left.
    fn fill(&mut self) -> Result<(), Failed>
        requires empty { self.old.at ≡ self.old.end }
        ensures bytes { OnOk result (S.remaining self.old.source ≡ prepend_known (left_of self.new.room self.new.at self.new.end) (S.remaining self.new.source)) }
        ensures end { OnOk result (self.new.at ≡ self.new.end → IsAtEnd (S.remaining self.new.source)) }
        ensures bytes_err { OnErr result ((self.new.at ≡ self.new.end) × (S.remaining self.new.source ≡ S.remaining self.old.source)) }
        ensures count { OnOk result (S.handed_out self.new.source ≡ S.handed_out self.old.source + (self.new.end - self.new.at)) }
        ensures within { OnOk result (S.handed_out self.new.source ≤ 2 ^ 63) }
        ensures count_err { OnErr result (S.handed_out self.new.source ≡ S.handed_out self.old.source) }
        ensures cause { HasCause (S.faults self.old.source) (S.faults self.new.source) result }
    {
        self.end = self.at;
        let count = self.source.read(&mut self.room)?;
        self.at = 0;
        self.end = count;
        Ok(())
    }
}

impl<S: Source> Source for BufferedSource<S> {
    ghost remaining = { λ s. prepend_known (left_of s.room s.at s.end) (S.remaining s.source) };

    ghost handed_out = { λ s. S.handed_out s.source - (s.end - s.at) };

    ghost faults = { λ s. S.faults s.source };

    fn read(&mut self, out: &mut [u8]) -> Result<usize, Failed> {
        if self.at == self.end {
            if out.len() >= ROOM {
                return self.source.read(out);
            }
            self.fill()?;
        }
        let count = hand_out(&self.room[..self.end], self.at, out);
        self.at += count;
        Ok(count)
    }
}
