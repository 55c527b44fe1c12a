ghost use Rattle.std.specs.Prelude.{◌≡◌, ◌≢◌, ◌↔◌, ◌≤◌, ◌∷◌, true, false, [], not, length, take, IsTrue, IsSome, IsSomeAnd, IfOk, IfSome, OnOk, Some, None, Err};
ghost use Rattle.sse_outside.specs.Causes.{Rose};
ghost use Rattle.sse_frames.specs.Replies.{StoreFault, reply_bytes};
ghost use Rattle.server_core.specs.Refusal.{is_nil};
ghost use Rattle.keyed_fn.specs.KeyedFn.{keyed_fn};
ghost use Rattle.sse_link.specs.Due.{IsOpenPage};
ghost use Rattle.sse_link.specs.Scripted.{reply_size};
ghost use Rattle.def_link_events.specs.Events.{AreKnown};
ghost use Rattle.sse_link.specs.FailingLoopback.{failure_at, worked, failed, FailsSend};
ghost use Rattle.def_link_events.specs.Passed.{events_of};
ghost use Rattle.def_link_events.specs.Served.{IsServed, idle};
ghost use Rattle.sse_frames.specs.Frames.{IsFrame};
ghost use Rattle.sse_link.specs.Stored.{HasTaken, IsStored};
ghost use Rattle.sse_link.specs.LinkStates.{link_state_on, served, dropped, IsSent, IsReceived};
ghost use Rattle.sse_journal.specs.JournalView.{broken_by};
ghost use Rattle.sse_server.specs.StoreView.{IsWithin};

use crate::counts::one_more;
use crate::remote::RemoteServer;
use crate::scripted::is_store_fault;
use crate::{Fail, Link, LinkFault, Passed};
use keyed_fn::Keyed;
use server_tables::Tables;
use sse_outside::Disk;
use sse_server::Store;
use std::alloc::Global;
use std::marker::Model;

/// A link to a store in this process, over any disk, of which chosen calls fail.
///
/// `fails` names the sends and receives that are cut, counted together from 0; where it names one twice, the first
/// counts. A send that fails after its work has reached the server, and is among what was sent; one that fails before
/// hasn't. A receive that fails loses the reply. The count of faults rises with each call that fails, and with each
/// that receives the report of a fault of the disk, and with no other. A call without memory isn't counted.
#[derive(Drop)]
pub struct Loopback<K: Keyed, T: Tables, D: Disk> {
    far: RemoteServer<K, T, D>,
    fails: Vec<Fail>,
    calls: u64,
    cut: bool,
    faults: u64,
}

impl<K: Keyed, T: Tables, D: Disk> Model for Loopback<K, T, D> {
    ghost use Rattle.std.specs.Prelude.{[], if◌then◌else◌};
    ghost use Rattle.sse_link.specs.FailingLoopback.{FailingState, failing_code};

    ghost Value = { FailingState };

    ghost coded = { failing_code };

    ghost view = { λ l. record {
      told = record l.far { due = (if l.cut then [] else l.far.due) };
      fails = l.fails.items;
      calls = l.calls;
      faults = l.faults;
    } };
}

impl<K: Keyed, T: Tables, D: Disk> Loopback<K, T, D> {
    /// A link to this store on its disk, over which nothing has passed, with the calls that fail. Takes no memory.
    ///
    /// The store is one that was started on the disk: its journal isn't broken, and where the disk tells its file, that is
    /// the journal of the frames that the store has taken, and nothing else is left by any crash.
    pub fn new(
        alloc: Global,
        keyed: K,
        store: Store<T>,
        disk: D,
        fails: Vec<Fail>,
    ) -> Loopback<K, T, D>
        requires whole { broken_by store.journal ≡ None }
        requires within { IsWithin store.journal (D.content disk) }
        requires taken { IfSome (D.content disk) (λ _. HasTaken store (D.content disk) (D.images disk)) }
        ensures { result ≡ record { told = link_state_on store.state (D.content disk); fails = fails.items; calls = 0; faults = 0 } }
    {
        Loopback {
            far: RemoteServer::new(alloc, keyed, store, disk),
            fails,
            calls: 0,
            cut: false,
            faults: 0,
        }
    }

    // Promise P81, also here; clauses: honest, known
    // Promise P82, also here; clauses: stored
    /// All that passed, in order: each frame was answered by the server's step, or out of memory or with a fault of its
    /// disk where its mark says so, and each reply that was received was the next of its replies. Where each was answered by
    /// the step, the file is the journal of what it was, and of the updates that were taken since (`IsStored`).
    pub fn transcript(&self) -> &[Passed]
        ensures events { events_of result.now ≡ self.now.told.events }
        ensures known { AreKnown self.now.told.events }
        ensures honest { IsServed (keyed_fn K.prf K.pad) (idle self.now.told.began) self.now.told.events (served self.now.told) }
        ensures stored { IsStored (keyed_fn K.prf K.pad) self.now.told }
    {
        self.far.transcript()
    }

    /// The disk of the store.
    pub fn disk(&self) -> &D
        ensures { D.content result.now ≡ self.now.told.file }
    {
        self.far.disk()
    }

    /// A call fails: nothing more is received, and the count rises.
    fn fail(&mut self) -> LinkFault
        ensures fault { result ≡ LinkFault.Cut }
        ensures failed { self.new ≡ failed self.old (dropped self.old.told) }
        ensures later { self.old.faults ≤ self.new.faults }
    {
        self.cut = true;
        self.calls = one_more(self.calls);
        self.faults = one_more(self.faults);
        LinkFault::Cut
    }
}

impl<K: Keyed, T: Tables, D: Disk> Link for Loopback<K, T, D> {
    ghost reply_due = { λ l. not (is_nil l.told.due) };

    ghost faults = { λ l. l.faults };

    ghost transcript = { λ l. Some l.told.events };

    ghost remote = { λ l. Some (record { state = l.told.state; file = l.told.file }) };

    ghost began = { λ l. Some (record { state = l.told.began; file = l.told.began_file }) };

    // Promise P84 (caller): The failing loopback is cut at exactly its listed calls, if memory suffices; the steady ones never are.
    //   clauses: not_listed, listed, undelivered, worked, failed; assumes: sizes in bounds, earlier calls, enough memory
    fn send(&mut self, frame: &[u8]) -> Result<(), LinkFault>
        requires frame { IsFrame frame.now }

        // A call that works isn't listed.
        ensures not_listed { OnOk result (failure_at self.old.fails self.old.calls ≡ None) }
        ensures sent { OnOk result (IsSent (keyed_fn K.prf K.pad) self.old.told self.new.told frame.now) }
        ensures waits { OnOk result (is_nil self.new.told.due ≡ false) }
        ensures worked { OnOk result (self.new ≡ worked self.old self.new.told) }

        // One that is cut is listed, and fails as listed.
        ensures listed { result ≡ Err LinkFault.Cut → IsSomeAnd (failure_at self.old.fails self.old.calls)
            (λ delivered. FailsSend (keyed_fn K.prf K.pad) delivered self.old.told self.new.told frame.now) }
        ensures failed { result ≡ Err LinkFault.Cut → self.new ≡ failed self.old self.new.told }
        ensures undelivered { failure_at self.old.fails self.old.calls ≡ Some false → result ≡ Err LinkFault.Cut }

        ensures no_memory { result ≡ Err LinkFault.NoMemory → self.new ≡ self.old }
        ensures later { self.old.faults ≤ self.new.faults }
    {
        match fail_at(&self.fails, self.calls) {
            None => {
                self.far.send(frame)?;
                self.cut = false;
                self.calls = one_more(self.calls);
                Ok(())
            }
            Some(true) => {
                self.far.send(frame)?;
                Err(self.fail())
            }
            Some(false) => Err(self.fail()),
        }
    }

    // Promise P84, also here; clauses: not_listed, listed, worked, reported, failed
    fn recv(&mut self, out: &mut [u8]) -> Result<usize, LinkFault>
        requires room { 65544 ≤ length out.old }
        requires due { not (is_nil self.old.told.due) ≡ true }

        // A call that works isn't listed.
        ensures not_listed { IfOk result (λ _. failure_at self.old.fails self.old.calls ≡ None) }
        ensures received { IfOk result (λ n. IsReceived self.old.told self.new.told (take n out.new)) }
        ensures due_after { IfOk result (λ n. IsTrue (not (is_nil self.new.told.due)) ↔ IsOpenPage (take n out.new)) }
        ensures least { IfOk result (λ n. 4 ≤ n) }
        ensures most { IfOk result (λ n. n ≤ 65544) }
        ensures one_reply { IfOk result (λ n. reply_size (take n out.new) ≡ Some n) }

        // Where it hands over the report of a fault of the disk, the count rises.
        ensures store_fault { IfOk result (λ n. take n out.new ≡ reply_bytes StoreFault → Rose self.old.faults self.new.faults) }
        ensures steady { IfOk result (λ n. take n out.new ≢ reply_bytes StoreFault → self.new.faults ≡ self.old.faults) }
        ensures worked { IfOk result (λ n. take n out.new ≢ reply_bytes StoreFault → self.new ≡ worked self.old self.new.told) }
        ensures reported { IfOk result (λ n. take n out.new ≡ reply_bytes StoreFault → self.new ≡ failed self.old self.new.told) }

        // One that is listed is cut.
        ensures listed { (result ≡ Err LinkFault.Cut) ↔ IsSome (failure_at self.old.fails self.old.calls) }
        ensures failed { result ≡ Err LinkFault.Cut → self.new ≡ failed self.old (dropped self.old.told) }

        ensures no_memory { result ≡ Err LinkFault.NoMemory → self.new ≡ self.old }
        ensures later { self.old.faults ≤ self.new.faults }
    {
        if fail_at(&self.fails, self.calls).is_some() {
            return Err(self.fail());
        }
        let n = self.far.recv(out)?;
        self.calls = one_more(self.calls);
        if is_store_fault(&out[..n]) {
            self.faults = one_more(self.faults);
        }
        Ok(n)
    }
}

/// Whether the call fails, and then whether it fails after its work.
fn fail_at(fails: &[Fail], call: u64) -> Option<bool>
    ensures { result ≡ failure_at fails.now call }
{
    for fail in fails {
        if fail.call == call {
            return Some(fail.delivered);
        }
    }
    None
}
