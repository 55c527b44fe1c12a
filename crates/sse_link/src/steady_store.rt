ghost use Rattle.std.specs.Prelude.{◌≡◌, ◌≢◌, ◌↔◌, ◌≤◌, true, false, not, length, take, IsTrue, IfOk, IfSome, OnOk, OnErr, Some, None, Err};
ghost use Rattle.keyed_fn.specs.KeyedFn.{keyed_fn};
ghost use Rattle.sse_frames.specs.Frames.{IsFrame};
ghost use Rattle.sse_frames.specs.Replies.{StoreFault, reply_bytes};
ghost use Rattle.sse_journal.specs.JournalView.{broken_by};
ghost use Rattle.server_core.specs.Refusal.{is_nil};
ghost use Rattle.sse_server.specs.StoreView.{IsWithin};
ghost use Rattle.def_link_events.specs.Events.{AreKnown};
ghost use Rattle.def_link_events.specs.Passed.{events_of};
ghost use Rattle.def_link_events.specs.Served.{IsServed, idle};
ghost use Rattle.sse_link.specs.Due.{IsOpenPage};
ghost use Rattle.sse_link.specs.Scripted.{reply_size};
ghost use Rattle.sse_link.specs.Stored.{HasTaken, IsStored};
ghost use Rattle.sse_link.specs.LinkStates.{link_state_on, served, IsSent, IsReceived};

use crate::remote::RemoteServer;
use crate::{Link, LinkFault, Passed};
use keyed_fn::Keyed;
use outside_memory_disk::SteadyDisk;
use server_tables::Tables;
use sse_outside::Disk;
use sse_server::Store;
use std::alloc::Global;
use std::marker::Model;

/// A link to a store in this process, over a disk in memory, neither of which fails: its count of faults is always 0.
///
/// As `SteadyLoopback` it has the store answer each frame, by its step or out of memory, tells which of the two it was, and
/// keeps all that passed. Besides it tells the store's file.
#[derive(Drop)]
pub struct SteadyStoreLoopback<K: Keyed, T: Tables> {
    far: RemoteServer<K, T, SteadyDisk>,
}

impl<K: Keyed, T: Tables> Model for SteadyStoreLoopback<K, T> {
    ghost use Rattle.sse_link.specs.LinkStates.{LinkState, link_state_code};

    ghost Value = { LinkState };

    ghost coded = { link_state_code };

    ghost view = { λ l. l.far };
}

impl<K: Keyed, T: Tables> SteadyStoreLoopback<K, T> {
    /// A link to this store on its disk, over which nothing has passed; the store was started on the disk, as for
    /// `Loopback::new`. Takes no memory.
    pub fn new(
        alloc: Global,
        keyed: K,
        store: Store<T>,
        disk: SteadyDisk,
    ) -> SteadyStoreLoopback<K, T>
        requires whole { broken_by store.journal ≡ None }
        requires within { IsWithin store.journal (⟦<SteadyDisk as Disk>⟧.content disk) }
        requires taken { IfSome (⟦<SteadyDisk as Disk>⟧.content disk) (λ _. HasTaken store (⟦<SteadyDisk as Disk>⟧.content disk) (⟦<SteadyDisk as Disk>⟧.images disk)) }
        ensures { result ≡ link_state_on store.state (⟦<SteadyDisk as Disk>⟧.content disk) }
    {
        SteadyStoreLoopback {
            far: RemoteServer::new(alloc, keyed, store, disk),
        }
    }

    // Promise P81, also here; clauses: honest, known
    // Promise P82 (caller): While the server's step answers each frame, the loopback's file is the old journal plus the bodies of the updates taken.
    //   clauses: stored; assumes: earlier calls; not: The file after a reply of out of memory or a disk fault.
    /// All that passed, in order: each frame was answered by the server's step, or out of memory where its mark says
    /// so, and each reply that was received was the next of its replies. Where each was answered by the step, the file is
    /// the journal of what it was, and of the updates that were taken since (`IsStored`).
    pub fn transcript(&self) -> &[Passed]
        ensures events { events_of result.now ≡ self.now.events }
        ensures known { AreKnown self.now.events }
        ensures honest { IsServed (keyed_fn K.prf K.pad) (idle self.now.began) self.now.events (served self.now) }
        ensures stored { IsStored (keyed_fn K.prf K.pad) self.now }
    {
        self.far.transcript()
    }

    /// The disk of the store.
    pub fn disk(&self) -> &SteadyDisk
        ensures { ⟦<SteadyDisk as Disk>⟧.content result.now ≡ self.now.file }
    {
        self.far.disk()
    }
}

impl<K: Keyed, T: Tables> Link for SteadyStoreLoopback<K, T> {
    ghost reply_due = { λ l. not (is_nil l.due) };

    ghost faults = { λ _. 0 };

    ghost transcript = { λ l. Some l.events };

    ghost remote = { λ l. Some (record { state = l.state; file = l.file }) };

    ghost began = { λ l. Some (record { state = l.began; file = l.began_file }) };

    // Promise P84, also here; clauses: err
    fn send(&mut self, frame: &[u8]) -> Result<(), LinkFault>
        requires frame { IsFrame frame.now }
        ensures sent { OnOk result (IsSent (keyed_fn K.prf K.pad) self.old self.new frame.now) }
        ensures waits { OnOk result (is_nil self.new.due ≡ false) }
        ensures err { OnErr result ((result ≡ Err LinkFault.NoMemory) × (self.new ≡ self.old)) }
    {
        self.far.send(frame)
    }

    // Promise P84, also here; clauses: no_fault, err
    fn recv(&mut self, out: &mut [u8]) -> Result<usize, LinkFault>
        requires room { 65544 ≤ length out.old }
        requires due { not (is_nil self.old.due) ≡ true }
        ensures received { IfOk result (λ n. IsReceived self.old self.new (take n out.new)) }
        ensures due_after { IfOk result (λ n. IsTrue (not (is_nil self.new.due)) ↔ IsOpenPage (take n out.new)) }
        ensures no_fault { IfOk result (λ n. take n out.new ≢ reply_bytes StoreFault) }
        ensures least { IfOk result (λ n. 4 ≤ n) }
        ensures most { IfOk result (λ n. n ≤ 65544) }
        ensures one_reply { IfOk result (λ n. reply_size (take n out.new) ≡ Some n) }
        ensures err { OnErr result ((result ≡ Err LinkFault.NoMemory) × (self.new ≡ self.old)) }
    {
        self.far.recv(out)
    }
}
