ghost use Rattle.std.specs.Prelude.{◌≡◌, ◌≢◌, ◌↔◌, ◌≤◌, ◌∷◌, true, false, [], not, length, take, IsTrue, IfOk, IfSome, OnOk, OnErr, Err, Some, None};
ghost use Rattle.sse_frames.specs.Frames.{IsFrame};
ghost use Rattle.sse_frames.specs.Replies.{StoreFault, reply_bytes};
ghost use Rattle.server_core.specs.Refusal.{is_nil};
ghost use Rattle.keyed_fn.specs.KeyedFn.{keyed_fn};
ghost use Rattle.sse_journal.specs.JournalView.{broken_by};
ghost use Rattle.sse_server.specs.StoreView.{IsWithin};
ghost use Rattle.def_link_events.specs.Events.{AreKnown};
ghost use Rattle.def_link_events.specs.Passed.{events_of};
ghost use Rattle.def_link_events.specs.Served.{IsServed, idle};
ghost use Rattle.sse_link.specs.Due.{IsOpenPage};
ghost use Rattle.sse_link.specs.Scripted.{reply_size};
ghost use Rattle.sse_link.specs.Stored.{HasTaken, IsStored, NeverRises};
ghost use Rattle.sse_link.specs.LinkStates.{link_state_on, served, IsSent, IsReceived};

use crate::due::FULL_PAGE;
use crate::stored_answers::{answer_stored, next_due};
use crate::transcript::Transcript;
use crate::{Due, LinkFault, Passed};
use keyed_fn::Keyed;
use server_tables::Tables;
use sse_outside::Disk;
use sse_server::Store;
use std::alloc::Global;
use std::marker::Model;
use std::snapshot::Snapshot;

/// A store in this process with its disk, and all that passed to it and from it.
#[derive(Drop)]
pub struct RemoteServer<K: Keyed, T: Tables, D: Disk> {
    keyed: K,
    store: Store<T>,
    disk: D,
    due: Due,
    /// The identifiers of the first page that waits stand at the front.
    page: [u64; FULL_PAGE],
    passed: Transcript,
    /// The store and its disk as they were handed in, which only contracts see.
    began: Snapshot<Store<T>>,
    began_disk: Snapshot<D>,
}

impl<K: Keyed, T: Tables, D: Disk> Model for RemoteServer<K, T, D> {
    ghost use Rattle.std.specs.Prelude.{map};
    ghost use Rattle.sse_frames.specs.Replies.{reply_bytes};
    ghost use Rattle.keyed_fn.specs.KeyedFn.{keyed_fn};
    ghost use Rattle.sse_link.specs.Due.{waiting};
    ghost use Rattle.sse_link.specs.Recorded.{recorded};
    ghost use Rattle.sse_link.specs.Stored.{IsFar, NeverRises};
    ghost use Rattle.sse_link.specs.LinkStates.{LinkState, link_state_code};

    ghost Value = { LinkState };

    ghost coded = { link_state_code };

    ghost view = { λ l. record {
      events = recorded l.passed;
      began = l.began.value.state;
      began_file = D.content l.began_disk.value;
      state = l.store.state;
      file = D.content l.disk;
      due = map reply_bytes (waiting (keyed_fn K.prf K.pad) l.store.state l.due l.page);
    } };

    ghost invariant = { λ l. IsFar (keyed_fn K.prf K.pad) (NeverRises D.faults) (recorded l.passed) l.began.value.state (D.content l.began_disk.value)
        l.store (D.content l.disk) (D.images l.disk) l.due l.page };
}

impl<K: Keyed, T: Tables, D: Disk> RemoteServer<K, T, D> {
    /// This store on this disk, of which nothing was asked. Takes no memory.
    pub fn new(alloc: Global, keyed: K, store: Store<T>, disk: D) -> RemoteServer<K, T, D>
        requires whole { broken_by store.journal ≡ None }
        requires within { IsWithin store.journal (D.content disk) }
        requires taken { IfSome (D.content disk) (λ _. HasTaken store (D.content disk) (D.images disk)) }
        ensures { result ≡ link_state_on store.state (D.content disk) }
    {
        let began = Snapshot::of(&store);
        let began_disk = Snapshot::of(&disk);
        RemoteServer {
            keyed,
            store,
            disk,
            due: Due::Nothing,
            page: [0; FULL_PAGE],
            passed: Transcript::new(alloc),
            began,
            began_disk,
        }
    }

    /// All that passed, in order.
    pub fn transcript(&self) -> &[Passed]
        ensures events { events_of result.now ≡ self.now.events }
        ensures known { AreKnown self.now.events }
        ensures honest { IsServed (keyed_fn K.prf K.pad) (idle self.now.began) self.now.events (served self.now) }
        ensures stored { IsStored (keyed_fn K.prf K.pad) self.now }
    {
        self.passed.as_slice()
    }

    /// Its disk.
    pub fn disk(&self) -> &D
        ensures { D.content result.now ≡ self.now.file }
    {
        &self.disk
    }

    /// Has the store answer a frame.
    pub fn send(&mut self, frame: &[u8]) -> Result<(), LinkFault>
        requires frame { IsFrame frame.now }
        ensures sent { OnOk result (IsSent (keyed_fn K.prf K.pad) self.old self.new frame.now) }
        ensures waits { OnOk result (is_nil self.new.due ≡ false) }
        ensures err { OnErr result ((result ≡ Err LinkFault.NoMemory) × (self.new ≡ self.old)) }
    {
        let bytes = self.passed.make_room(frame)?;
        self.due = answer_stored(
            &self.keyed,
            &mut self.store,
            &mut self.disk,
            frame,
            &mut self.page,
        );
        self.passed.sent(bytes, self.due.mark());
        Ok(())
    }

    /// The first of the replies that wait.
    pub fn recv(&mut self, out: &mut [u8]) -> Result<usize, LinkFault>
        requires room { 65544 ≤ length out.old }
        requires due { not (is_nil self.old.due) ≡ true }
        ensures received { IfOk result (λ n. IsReceived self.old self.new (take n out.new)) }
        ensures due_after { IfOk result (λ n. IsTrue (not (is_nil self.new.due)) ↔ IsOpenPage (take n out.new)) }
        ensures no_fault { NeverRises D.faults → IfOk result (λ n. take n out.new ≢ reply_bytes StoreFault) }
        ensures least { IfOk result (λ n. 4 ≤ n) }
        ensures most { IfOk result (λ n. n ≤ 65544) }
        ensures one_reply { IfOk result (λ n. reply_size (take n out.new) ≡ Some n) }
        ensures err { OnErr result ((result ≡ Err LinkFault.NoMemory) × (self.new ≡ self.old)) }
    {
        let n = self.due.write_first(&self.page, out);
        let reply = self.passed.make_room(&out[..n])?;
        self.passed.received(reply);
        self.due = next_due(&self.due, &self.keyed, &self.store, &mut self.page);
        Ok(n)
    }
}
