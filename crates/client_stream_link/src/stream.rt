ghost use Rattle.std.specs.Prelude.{◌≡◌, ◌≢◌, ◌⊎◌, ◌↔◌, ◌≤◌, true, false, length, take, Some, None, Ok, Err, IsTrue, IfOk, OnOk, OnErr};
ghost use Rattle.std.specs.Int.{w64, to_be_bytes};
ghost use Rattle.std.specs.Io.KnownBytes.{append_known, prepend_known};
ghost use Rattle.sse_outside.specs.Causes.{Rose};
ghost use Rattle.sse_outside.specs.Fronts.{TookFront};
ghost use Rattle.sse_frames.specs.Frames.{IsFrame};
ghost use Rattle.sse_frames.specs.Replies.{StoreFault, reply_bytes};
ghost use Rattle.sse_link.specs.Due.{IsOpenPage};
ghost use Rattle.sse_link.specs.Scripted.{reply_size};
ghost use Rattle.sized_replies.specs.Streams.{IsDry};
ghost use Rattle.client_stream_link.specs.Streams.{IsCut, IsUnsent, TookLess};

use sized_replies::take_reply;
use sse_frames::{MAX_REPLY_BODY, Reply, read_whole_reply};
use sse_link::{Link, LinkFault};
use sse_outside::{Sink, Source, print_all};

/// A link whose frames go into a sink, and whose replies come out of a source.
///
/// It takes no memory of its own, so it never answers `NoMemory`: a sink that is out of memory has taken a part of the frame,
/// and the link is cut. It carries nothing more once it is cut, and once a reply had a length out of range, since it
/// doesn't know where the next one begins. Replies that weren't received can't be dropped either: a frame that is sent
/// while one is due is cut.
#[derive(Drop)]
pub struct StreamLink<S, W> {
    source: S,
    sink: W,
    due: bool,
    lost: bool,
    faults: u64,
    ghost lost_idle: { lost ≡ true → due ≡ false },
}

impl<S: Source, W: Sink> StreamLink<S, W> {
    /// A link over these two, over which nothing has passed.
    pub fn new(source: S, sink: W) -> StreamLink<S, W>
        ensures source { result.source ≡ source }
        ensures sink { result.sink ≡ sink }
        ensures due { result.due ≡ false }
        ensures place { result.lost ≡ false }
        ensures faults { result.faults ≡ 0 }
    {
        StreamLink {
            source,
            sink,
            due: false,
            lost: false,
            faults: 0,
        }
    }

    // Promise P247 (caller): An owner's number goes out over a stream as exactly eight bytes, or the link is cut and a count of the sink rose.
    //   clauses: sent, unchanged, cut, less, cause, source_kept; assumes: observable devices; checks: .ci/tcp; not: That no frame went before it: who makes the link sees to that.
    /// Sends the number of the owner whose frames follow: eight bytes, the most significant first. A server of many owners expects them
    /// before the first frame; any other takes them for a part of it.
    ///
    /// After `Cut` the link carries nothing.
    pub fn begin_as(&mut self, owner: u64) -> Result<(), LinkFault>
        ensures sent { OnOk result (W.written self.new.sink ≡ append_known (W.written self.old.sink) (to_be_bytes w64 owner)) }
        ensures unchanged { OnOk result ((self.new.due ≡ self.old.due) × (self.new.lost ≡ self.old.lost) × (self.new.faults ≡ self.old.faults)) }

        // It is cut.
        ensures cut { OnErr result (IsCut self.new.due self.new.lost self.old.faults self.new.faults) }
        ensures less { OnErr result (TookFront (W.written self.old.sink) (W.written self.new.sink) (to_be_bytes w64 owner)) }
        ensures cause { OnErr result (Rose (W.faults self.old.sink) (W.faults self.new.sink) ⊎ Rose (W.shortages self.old.sink) (W.shortages self.new.sink)) }

        ensures source_kept { self.new.source ≡ self.old.source }
    {
        match print_all(&mut self.sink, &owner.to_be_bytes()) {
            Ok(()) => Ok(()),
            Err(_) => Err(self.cut()),
        }
    }

    /// Its source and its sink, as they are now.
    pub fn into_parts(self) -> (S, W)
        ensures source { result.0 ≡ self.source }
        ensures sink { result.1 ≡ self.sink }
    {
        (self.source, self.sink)
    }

    /// Counts a fault, after which nothing is carried.
    fn cut(&mut self) -> LinkFault
        ensures cut { IsCut self.new.due self.new.lost self.old.faults self.new.faults }
        ensures later { self.old.faults ≤ self.new.faults }
        ensures source { self.new.source ≡ self.old.source }
        ensures sink { self.new.sink ≡ self.old.sink }
        ensures fault { result ≡ LinkFault.Cut }
    {
        self.due = false;
        self.lost = true;
        self.faults = self.faults.saturating_add(1);
        LinkFault::Cut
    }

    /// Takes down what a reply says: whether another one is due, whether the place of the next one is known, and whether the
    /// server's disk failed.
    fn received(&mut self, reply: &[u8])
        requires place { self.old.lost ≡ false }
        ensures due { IsTrue self.new.due ↔ IsOpenPage reply.now }
        ensures lost { IsTrue self.new.lost ↔ (length reply.now ≡ 4) }
        ensures store_fault { reply.now ≡ reply_bytes StoreFault → Rose self.old.faults self.new.faults }
        ensures steady { reply.now ≢ reply_bytes StoreFault → self.new.faults ≡ self.old.faults }
        ensures later { self.old.faults ≤ self.new.faults }
        ensures source { self.new.source ≡ self.old.source }
        ensures sink { self.new.sink ≡ self.old.sink }
    {
        match read_whole_reply(reply) {
            Some(Reply::Page { last, .. }) => self.due = !last,
            Some(Reply::StoreFault) => {
                self.due = false;
                self.faults = self.faults.saturating_add(1);
            }
            Some(_) => self.due = false,
            None => {
                self.due = false;
                self.lost = reply.len() == 4;
            }
        }
    }
}

impl<S: Source, W: Sink> Link for StreamLink<S, W> {
    ghost reply_due = { λ l. l.due };

    ghost faults = { λ l. l.faults };

    ghost transcript = { λ _. None };

    ghost remote = { λ _. None };

    ghost began = { λ _. None };

    // Promise P86 (caller): Over a stream, a sent frame is all that is written and a receive takes one reply; a cut has a visible cause.
    //   clauses: sent, none_due, in_place, cut, less, cause, never_memory, source_kept; assumes: sizes in bounds, earlier calls, observable devices; checks: .ci/tcp; not: That a call returns in any time; how much of a
    //     cut frame the peer took. Of a socket only the counts and the place are known.
    fn send(&mut self, frame: &[u8]) -> Result<(), LinkFault>
        requires frame { IsFrame frame.now }
        ensures sent { OnOk result (W.written self.new.sink ≡ append_known (W.written self.old.sink) frame.now) }
        ensures none_due { OnOk result (self.old.due ≡ false) }
        ensures in_place { OnOk result (self.old.lost ≡ false) }
        ensures due { OnOk result (self.new.due ≡ true) }
        ensures steady { OnOk result (self.new.faults ≡ self.old.faults) }

        // It is cut, and never out of memory.
        ensures cut { OnErr result (IsCut self.new.due self.new.lost self.old.faults self.new.faults) }
        ensures less { OnErr result (TookLess (W.written self.old.sink) (W.written self.new.sink) frame.now) }
        ensures cause { OnErr result (IsUnsent self.old.due self.old.lost (W.faults self.old.sink) (W.faults self.new.sink) (W.shortages self.old.sink) (W.shortages self.new.sink)) }
        ensures never_memory { result ≢ Err LinkFault.NoMemory }

        ensures source_kept { self.new.source ≡ self.old.source }
        ensures later { self.old.faults ≤ self.new.faults }
    {
        if self.due || self.lost {
            return Err(self.cut());
        }
        match print_all(&mut self.sink, frame) {
            Ok(()) => {
                self.due = true;
                Ok(())
            }
            Err(_) => Err(self.cut()),
        }
    }

    // Promise P86, also here; clauses: taken, one_reply, due, lost, cut, cause, never_memory, sink_kept
    fn recv(&mut self, out: &mut [u8]) -> Result<usize, LinkFault>
        requires room { 65544 ≤ length out.old }
        requires due { self.old.due ≡ true }
        ensures taken { IfOk result (λ n. S.remaining self.old.source ≡ prepend_known (take n out.new) (S.remaining self.new.source)) }
        ensures one_reply { IfOk result (λ n. reply_size (take n out.new) ≡ Some n) }
        ensures least { IfOk result (λ n. 4 ≤ n) }
        ensures most { IfOk result (λ n. n ≤ 65544) }
        ensures due { IfOk result (λ n. IsTrue self.new.due ↔ IsOpenPage (take n out.new)) }
        ensures lost { IfOk result (λ n. IsTrue self.new.lost ↔ (n ≡ 4)) }
        ensures store_fault { IfOk result (λ n. take n out.new ≡ reply_bytes StoreFault → Rose self.old.faults self.new.faults) }
        ensures steady { IfOk result (λ n. take n out.new ≢ reply_bytes StoreFault → self.new.faults ≡ self.old.faults) }

        // It is cut, and never out of memory.
        ensures cut { OnErr result (IsCut self.new.due self.new.lost self.old.faults self.new.faults) }
        ensures cause { OnErr result (IsDry (S.remaining self.new.source) (S.faults self.old.source) (S.faults self.new.source)) }
        ensures never_memory { result ≢ Err LinkFault.NoMemory }

        ensures sink_kept { self.new.sink ≡ self.old.sink }
        ensures later { self.old.faults ≤ self.new.faults }
    {
        match take_reply(&mut self.source, MAX_REPLY_BODY, out) {
            Ok(n) => {
                self.received(&out[..n]);
                Ok(n)
            }
            Err(_) => Err(self.cut()),
        }
    }
}
