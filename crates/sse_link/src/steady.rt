ghost use Rattle.std.specs.Prelude.{◌≡◌, ◌≢◌, ◌↔◌, ◌≤◌, ◌∷◌, true, false, [], not, length, take, IsTrue, IfOk, OnOk, OnErr, Err};
ghost use Rattle.sse_frames.specs.Replies.{StoreFault, reply_bytes};
ghost use Rattle.server_core.specs.Refusal.{is_nil};
ghost use Rattle.keyed_fn.specs.KeyedFn.{keyed_fn};
ghost use Rattle.sse_link.specs.Due.{IsOpenPage};
ghost use Rattle.sse_link.specs.Scripted.{reply_size};
ghost use Rattle.def_link_events.specs.Events.{AreKnown};
ghost use Rattle.def_link_events.specs.Passed.{events_of};
ghost use Rattle.def_link_events.specs.Served.{IsServed, idle};
ghost use Rattle.sse_frames.specs.Frames.{IsFrame};
ghost use Rattle.sse_link.specs.LinkStates.{link_state_first, served, IsSent, IsReceived};

use crate::answers::answer_bytes;
use crate::due::FULL_PAGE;
use crate::transcript::Transcript;
use crate::{Due, Link, LinkFault, Passed};
use keyed_fn::Keyed;
use server_core::Server;
use server_tables::Tables;
use std::alloc::Global;
use std::marker::Model;
use std::snapshot::Snapshot;

/// A link to a server in this process, which never fails: its count of faults is always 0.
///
/// It has the server answer each frame, by its step or out of memory, and tells which of the two it was. It keeps all
/// that passed; a call takes memory for that before it changes anything, and answers `NoMemory` where there is none.
#[derive(Drop)]
pub struct SteadyLoopback<K: Keyed, T: Tables> {
    keyed: K,
    server: Server<T>,
    due: Due,
    /// The identifiers of the first page that waits stand at the front.
    page: [u64; FULL_PAGE],
    passed: Transcript,
    /// The server as it was handed in, which only contracts see.
    began: Snapshot<Server<T>>,
}

impl<K: Keyed, T: Tables> Model for SteadyLoopback<K, T> {
    ghost use Rattle.std.specs.Prelude.{map, None};
    ghost use Rattle.sse_frames.specs.Replies.{reply_bytes};
    ghost use Rattle.sse_link.specs.LinkStates.{LinkState, link_state_code};

    ghost Value = { LinkState };

    ghost coded = { link_state_code };

    ghost use Rattle.keyed_fn.specs.KeyedFn.{keyed_fn};
    ghost use Rattle.sse_link.specs.Due.{waiting};
    ghost use Rattle.sse_link.specs.Recorded.{recorded};
    ghost use Rattle.sse_link.specs.Steady.{IsSteady};

    ghost view = { λ l. record {
      events = recorded l.passed;
      began = l.began.value.state;
      began_file = None;
      state = l.server.state;
      file = None;
      due = map reply_bytes (waiting (keyed_fn K.prf K.pad) l.server.state l.due l.page);
    } };

    ghost invariant = { λ l. IsSteady (keyed_fn K.prf K.pad) (recorded l.passed) l.began.value.state l.server.state l.due l.page };
}

impl<K: Keyed, T: Tables> SteadyLoopback<K, T> {
    /// A link to this server, over which nothing has passed. Takes no memory.
    pub fn new(alloc: Global, keyed: K, server: Server<T>) -> SteadyLoopback<K, T>
        ensures { result ≡ link_state_first server.state }
    {
        let began = Snapshot::of(&server);
        SteadyLoopback {
            keyed,
            server,
            due: Due::Nothing,
            page: [0; FULL_PAGE],
            passed: Transcript::new(alloc),
            began,
        }
    }

    // Promise P81 (caller): All traffic over a loopback in memory is that of an honest server.
    //   clauses: honest, known; assumes: earlier calls; not: A connection between two programs. Out of memory and a fault of the server's disk come only in reply to updates.
    /// All that passed, in order: each frame was answered by the server's step, or out of memory where its mark says
    /// so, and each reply that was received was the next of its replies.
    pub fn transcript(&self) -> &[Passed]
        ensures events { events_of result.now ≡ self.now.events }
        ensures known { AreKnown self.now.events }
        ensures honest { IsServed (keyed_fn K.prf K.pad) (idle self.now.began) self.now.events (served self.now) }
    {
        self.passed.as_slice()
    }
}

impl<K: Keyed, T: Tables> Link for SteadyLoopback<K, T> {
    ghost use Rattle.std.specs.Prelude.{Some};

    ghost reply_due = { λ l. not (is_nil l.due) };

    ghost faults = { λ _. 0 };

    ghost transcript = { λ l. Some l.events };

    ghost remote = { λ l. Some (record { state = l.state; file = l.file }) };

    ghost began = { λ l. Some (record { state = l.began; file = l.began_file }) };

    // Promise P84, also here; clauses: err
    fn send(&mut self, frame: &[u8]) -> Result<(), LinkFault>
        requires frame { IsFrame frame.now }
        ensures sent { OnOk result (IsSent (keyed_fn K.prf K.pad) self.old self.new frame.now) }
        ensures waits { OnOk result (is_nil self.new.due ≡ false) }
        ensures err { OnErr result ((result ≡ Err LinkFault.NoMemory) × (self.new ≡ self.old)) }
    {
        let bytes = self.passed.make_room(frame)?;
        self.due = answer_bytes(&self.keyed, &mut self.server, frame, &mut self.page);
        self.passed.sent(bytes, self.due.mark());
        Ok(())
    }

    // Promise P84, also here; clauses: no_fault, err
    fn recv(&mut self, out: &mut [u8]) -> Result<usize, LinkFault>
        requires room { 65544 ≤ length out.old }
        requires due { not (is_nil self.old.due) ≡ true }
        ensures received { IfOk result (λ n. IsReceived self.old self.new (take n out.new)) }
        ensures due_after { IfOk result (λ n. IsTrue (not (is_nil self.new.due)) ↔ IsOpenPage (take n out.new)) }
        ensures no_fault { IfOk result (λ n. take n out.new ≢ reply_bytes StoreFault) }
        ensures least { IfOk result (λ n. 4 ≤ n) }
        ensures most { IfOk result (λ n. n ≤ 65544) }
        ensures one_reply { IfOk result (λ n. reply_size (take n out.new) ≡ Some n) }
        ensures err { OnErr result ((result ≡ Err LinkFault.NoMemory) × (self.new ≡ self.old)) }
    {
        let n = self.due.write_first(&self.page, out);
        let reply = self.passed.make_room(&out[..n])?;
        self.passed.received(reply);
        self.due = self
            .due
            .behind_first(&self.keyed, &self.server, &mut self.page);
        Ok(n)
    }
}
