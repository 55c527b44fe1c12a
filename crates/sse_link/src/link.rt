ghost use Rattle.std.specs.Prelude.{◌≡◌, ◌≢◌, ◌↔◌, ◌≤◌, ◌⊎◌, ℕ, Bool, true, false, List, [], ◌∷◌, ◌++◌, length, take, Some, IsTrue, IfOk, OnOk, IsErrOf};
ghost use Rattle.std.specs.declared.option.Option.{Option};
ghost use Rattle.std.specs.Option.{option_map};
ghost use Rattle.sse_outside.specs.Causes.{Rose};
ghost use Rattle.sse_frames.specs.Replies.{StoreFault, reply_bytes};
ghost use Rattle.def_link_events.specs.declared.mark.Mark.{Mark};
ghost use Rattle.def_link_events.specs.Events.{Event, Sent, Received, Remote};
ghost use Rattle.sse_link.specs.Due.{IsOpenPage};
ghost use Rattle.sse_link.specs.Scripted.{reply_size};
ghost use Rattle.sse_link.specs.Reached.{HasSent};
ghost use Rattle.sse_frames.specs.Frames.{IsFrame};

use crate::LinkFault;

/// What carries frames to a server and replies back: one frame, then its replies, then the next frame.
///
/// A link tells contracts whether a reply is still to be received (`reply_due`) and its count of faults (`faults`).
/// Where it can, it also tells the frames sent and the replies received, in order (`transcript`), the server at its
/// other end (`remote`), and that server as it was before the first frame (`began`). A real connection can't tell
/// these, and then they are `None`.
///
/// The count of faults rises at a call that is cut, at one that receives the report of a fault of the server's disk,
/// and at no other.
pub trait Link {
    ghost reply_due: { Self → Bool };

    ghost faults: { Self → ℕ };

    ghost transcript: { Self → Option (List Event) };

    ghost remote: { Self → Option Remote };

    ghost began: { Self → Option Remote };

    // Promise P83 (caller): A link's fault count rises at a call that is cut and at a reported fault of the server's disk, and nowhere else.
    //   clauses: steady, cut_cause, no_memory_count; assumes: sizes in bounds; not: How the link counts is a duty of each link; sockets meet it as tested.
    // Promise P180 (caller): A sent frame moves a link's server as the mark of its answer says; after a cut it did so, or nothing passed.
    //   clauses: reached, cut_reached; not: A server that the link can't tell, as over a socket.
    /// Sends one frame of the grammar, all of its bytes, with its four length bytes. Replies to an earlier frame that
    /// weren't received are dropped.
    ///
    /// After `Ok` the server at the other end, where the link can tell it, has moved as the mark of its answer says: by its
    /// step, or not at all. After `Cut` that is so, or nothing passed and the server is as before; no reply is due. After
    /// `NoMemory` everything is as before.
    fn send(&mut self, frame: &[u8]) -> Result<(), LinkFault>
        requires frame { IsFrame frame.now }
        ensures due { OnOk result (reply_due self.new ≡ true) }
        ensures told { OnOk result ((mark : Mark) ×
            (transcript self.new ≡ option_map (λ events. events ++ Sent frame.now mark ∷ []) (transcript self.old))) }
        ensures steady { OnOk result (faults self.new ≡ faults self.old) }
        ensures reached { OnOk result (HasSent frame.now (transcript self.old) (transcript self.new) (remote self.old) (remote self.new)) }

        ensures cut_due { IsErrOf result LinkFault.Cut → reply_due self.new ≡ false }
        ensures cut_told { IsErrOf result LinkFault.Cut → (transcript self.new ≡ transcript self.old) ⊎
            ((mark : Mark) × (transcript self.new ≡ option_map (λ events. events ++ Sent frame.now mark ∷ []) (transcript self.old))) }
        ensures cut_reached { IsErrOf result LinkFault.Cut → ((transcript self.new ≡ transcript self.old) × (remote self.new ≡ remote self.old))
            ⊎ HasSent frame.now (transcript self.old) (transcript self.new) (remote self.old) (remote self.new) }
        ensures cut_cause { IsErrOf result LinkFault.Cut → Rose (faults self.old) (faults self.new) }

        ensures no_memory_due { IsErrOf result LinkFault.NoMemory → reply_due self.new ≡ reply_due self.old }
        ensures no_memory_told { IsErrOf result LinkFault.NoMemory → transcript self.new ≡ transcript self.old }
        ensures no_memory_remote { IsErrOf result LinkFault.NoMemory → remote self.new ≡ remote self.old }
        ensures no_memory_count { IsErrOf result LinkFault.NoMemory → faults self.new ≡ faults self.old }

        ensures began_kept { began self.new ≡ began self.old }
        ensures later { faults self.old ≤ faults self.new };

    // Promise P83, also here; clauses: steady, cut_cause, store_fault, no_memory_count, due_after, one_reply
    /// Receives the next reply to the frame sent last at the front of `out`, with its four length bytes, and answers
    /// how many bytes it has: 4 to 65,544. A reply whose length is out of its range is given as these four bytes alone.
    ///
    /// Another reply is due after a page that isn't the last, and after no other bytes. After `Cut` none is due; after
    /// `NoMemory` the reply still waits.
    fn recv(&mut self, out: &mut [u8]) -> Result<usize, LinkFault>
        requires room { 65544 ≤ length out.old }
        requires due { reply_due self.old ≡ true }
        ensures least { IfOk result (λ n. 4 ≤ n) }
        ensures most { IfOk result (λ n. n ≤ 65544) }
        ensures one_reply { IfOk result (λ n. reply_size (take n out.new) ≡ Some n) }
        ensures due_after { IfOk result (λ n. IsTrue (reply_due self.new) ↔ IsOpenPage (take n out.new)) }
        ensures told { IfOk result (λ n. transcript self.new ≡
            option_map (λ events. events ++ Received (take n out.new) ∷ []) (transcript self.old)) }
        ensures store_fault { IfOk result (λ n. take n out.new ≡ reply_bytes StoreFault → Rose (faults self.old) (faults self.new)) }
        ensures steady { IfOk result (λ n. take n out.new ≢ reply_bytes StoreFault → faults self.new ≡ faults self.old) }

        ensures cut_due { IsErrOf result LinkFault.Cut → reply_due self.new ≡ false }
        ensures cut_cause { IsErrOf result LinkFault.Cut → Rose (faults self.old) (faults self.new) }
        ensures no_memory_due { IsErrOf result LinkFault.NoMemory → reply_due self.new ≡ true }
        ensures no_memory_count { IsErrOf result LinkFault.NoMemory → faults self.new ≡ faults self.old }
        ensures err_told { (fault : LinkFault) → IsErrOf result fault → transcript self.new ≡ transcript self.old }

        ensures remote_kept { remote self.new ≡ remote self.old }
        ensures began_kept { began self.new ≡ began self.old }
        ensures later { faults self.old ≤ faults self.new };
}
