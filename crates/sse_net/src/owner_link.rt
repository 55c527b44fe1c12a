ghost use Rattle.std.specs.Prelude.{◌≡◌, ℕ, List, OnOk, OnErr};
ghost use Rattle.std.specs.Int.{w64, to_be_bytes};
ghost use Rattle.std.specs.Io.KnownBytes.{append_known};
ghost use Rattle.std.specs.declared.option.Option.{Option};
ghost use Rattle.sse_outside.specs.Causes.{Rose};
ghost use Rattle.sse_outside.specs.Fronts.{TookFront};

use client_stream_link::StreamLink;
use sse_link::{Link, LinkFault};
use sse_outside::{Sink, Source};

/// A link over which an owner's number may go out before the first frame, for a server of many owners.
///
/// Where it can, it tells contracts all bytes that went out over it (`sent`).
pub(crate) trait OwnerLink: Link {
    ghost sent: { Self → Option (List ℕ) };

    /// Sends the number of the owner whose frames follow: eight bytes, the most significant first. No frame has passed or is answered
    /// by it. After an error the count of faults rose, and some of the eight bytes may have gone out.
    fn begin_as(&mut self, owner: u64) -> Result<(), LinkFault>
        ensures head { OnOk result (sent self.new ≡ append_known (sent self.old) (to_be_bytes w64 owner)) }
        ensures steady { OnOk result (Self.faults self.new ≡ Self.faults self.old) }
        ensures less { OnErr result (TookFront (sent self.old) (sent self.new) (to_be_bytes w64 owner)) }
        ensures cause { OnErr result (Rose (Self.faults self.old) (Self.faults self.new)) }
        ensures untold { Self.transcript self.new ≡ Self.transcript self.old }
        ensures began_kept { Self.began self.new ≡ Self.began self.old };
}

impl<S: Source, W: Sink> OwnerLink for StreamLink<S, W> {
    ghost sent = { λ l. W.written l.sink };

    fn begin_as(&mut self, owner: u64) -> Result<(), LinkFault> {
        StreamLink::begin_as(self, owner)
    }
}
