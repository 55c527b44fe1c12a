ghost use Rattle.std.specs.Prelude.{◌≡◌, ◌≢◌, ◌↔◌, ◌≤◌, ◌⊎◌, false, length, take, Err, None, IfOk, IsTrue, OnErr};
ghost use Rattle.sse_outside.specs.Causes.{Rose};
ghost use Rattle.vault_link.specs.Asks.{CountsReply};
ghost use Rattle.vault_link.specs.ReplySizes.{IsOneReply, IsVaultFrame};
ghost use Rattle.vault_server.specs.VaultFrames.{StoreFault, vault_reply_bytes};
ghost use Rattle.vault_stream_link.specs.Streams.{IsLost, Passes, WhyCut};

use sized_replies::take_reply;
use sse_outside::{Failed, Sink, Source, print_all};
use vault_link::{LinkFault, MAX_REPLY_BODY, VaultLink, faults_after, one_more};

/// A link to a vault whose frames go into a sink, and whose replies come out of a source.
///
/// It takes no memory of its own, so it never answers `NoMemory`: a sink that is out of memory has taken a part of the frame,
/// and the link is cut. It carries nothing more once it is cut, and once a reply had a length out of range, since it
/// doesn't know where the next one begins.
#[derive(Drop)]
pub struct VaultStream<S, W> {
    source: S,
    sink: W,
    lost: bool,
    faults: u64,
}

impl<S: Source, W: Sink> VaultStream<S, W> {
    /// A link over these two, over which nothing has passed.
    pub fn new(source: S, sink: W) -> VaultStream<S, W>
        ensures source { result.source ≡ source }
        ensures sink { result.sink ≡ sink }
        ensures place { result.lost ≡ false }
        ensures faults { result.faults ≡ 0 }
    {
        VaultStream {
            source,
            sink,
            lost: false,
            faults: 0,
        }
    }

    /// Its source and its sink, as they are now.
    pub fn into_parts(self) -> (S, W)
        ensures source { result.0 ≡ self.source }
        ensures sink { result.1 ≡ self.sink }
    {
        (self.source, self.sink)
    }

    /// Writes the frame and reads the reply, unless the place among the replies is lost.
    fn pass(&mut self, frame: &[u8], out: &mut [u8]) -> Result<usize, Failed>
        requires room { 65604 ≤ length out.old }
        ensures reply { IfOk result (λ n. IsOneReply n (take n out.new)) }
        ensures passed { IfOk result (λ n. Passes frame.now (take n out.new) self.old.lost (W.written self.old.sink) (W.written self.new.sink) (S.remaining self.old.source) (S.remaining self.new.source)) }
        ensures why { OnErr result (WhyCut frame.now self.old.lost
            (record { written = W.written self.old.sink; sink_faults = W.faults self.old.sink; shortages = W.shortages self.old.sink; left = S.remaining self.old.source; source_faults = S.faults self.old.source })
            (record { written = W.written self.new.sink; sink_faults = W.faults self.new.sink; shortages = W.shortages self.new.sink; left = S.remaining self.new.source; source_faults = S.faults self.new.source })) }
        ensures kept { (self.new.lost ≡ self.old.lost) × (self.new.faults ≡ self.old.faults) }
    {
        if self.lost {
            return Err(Failed);
        }
        match print_all(&mut self.sink, frame) {
            Ok(()) => take_reply(&mut self.source, MAX_REPLY_BODY, out),
            Err(_) => Err(Failed),
        }
    }

    /// Takes down what a reply says: whether the place of the next one is known, and whether the server's disk failed.
    fn received(&mut self, reply: &[u8])
        ensures lost { IsTrue self.new.lost ↔ (length reply.now ≡ 4) }
        ensures counts { CountsReply reply.now self.old.faults self.new.faults }
        ensures later { self.old.faults ≤ self.new.faults }
        ensures source { self.new.source ≡ self.old.source }
        ensures sink { self.new.sink ≡ self.old.sink }
    {
        self.lost = reply.len() == 4;
        self.faults = faults_after(self.faults, reply);
    }

    /// Counts a fault, after which nothing is carried.
    fn cut(&mut self) -> LinkFault
        ensures cut { IsLost self.new.lost self.old.faults self.new.faults }
        ensures later { self.old.faults ≤ self.new.faults }
        ensures source { self.new.source ≡ self.old.source }
        ensures sink { self.new.sink ≡ self.old.sink }
        ensures fault { result ≡ LinkFault.Cut }
    {
        self.lost = true;
        self.faults = one_more(self.faults);
        LinkFault::Cut
    }
}

impl<S: Source, W: Sink> VaultLink for VaultStream<S, W> {
    ghost faults = { λ l. l.faults };

    ghost transcript = { λ _. None };

    ghost remote = { λ _. None };

    // Promise P216 (caller): Over a stream, a call writes the frame and takes one reply; a cut has a visible cause, and nothing passes after it.
    //   clauses: passed, counts, cut, why; fields: Passes.in_place, Passes.sent, Passes.taken, IsLost.is_lost, IsLost.rose; assumes: sizes in bounds, earlier calls,
    //     observable devices; not: That a call returns in any time; how much of a cut frame the peer took. Of a socket only the counts and the place are known.
    fn ask(&mut self, frame: &[u8], out: &mut [u8]) -> Result<usize, LinkFault>
        requires frame { IsVaultFrame frame.now }
        requires room { 65604 ≤ length out.old }
        ensures reply { IfOk result (λ n. IsOneReply n (take n out.new)) }
        ensures passed { IfOk result (λ n. Passes frame.now (take n out.new) self.old.lost (W.written self.old.sink) (W.written self.new.sink) (S.remaining self.old.source) (S.remaining self.new.source) × (IsTrue self.new.lost ↔ (n ≡ 4))) }
        ensures counts { IfOk result (λ n. CountsReply (take n out.new) self.old.faults self.new.faults) }
        ensures cut { OnErr result ((result ≡ Err LinkFault.Cut) × IsLost self.new.lost self.old.faults self.new.faults) }
        ensures why { OnErr result (WhyCut frame.now self.old.lost
            (record { written = W.written self.old.sink; sink_faults = W.faults self.old.sink; shortages = W.shortages self.old.sink; left = S.remaining self.old.source; source_faults = S.faults self.old.source })
            (record { written = W.written self.new.sink; sink_faults = W.faults self.new.sink; shortages = W.shortages self.new.sink; left = S.remaining self.new.source; source_faults = S.faults self.new.source })) }
        ensures later { self.old.faults ≤ self.new.faults }
    {
        match self.pass(frame, out) {
            Ok(n) => {
                self.received(&out[..n]);
                Ok(n)
            }
            Err(_) => Err(self.cut()),
        }
    }
}
