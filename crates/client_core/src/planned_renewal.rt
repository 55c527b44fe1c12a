ghost use Rattle.std.specs.Prelude.{◌≡◌, ◌+◌, ◌≤◌, ◌<◌, ◌^◌, ◌++◌, OnErr, OnOk, length, vec_len};
ghost use Rattle.std.specs.List.{AllByRecursion};
ghost use Rattle.index_setup.specs.Built.{IsIndex};
ghost use Rattle.sse_frames.specs.Frames.{IsFrame};
ghost use Rattle.client_core.specs.Payloads.{renewal_payload};
ghost use Rattle.client_core.specs.PlanView.{IsSendable};
ghost use Rattle.client_core.specs.RenewalView.{renewal_of};
ghost use Rattle.client_core.specs.Setup.{frames_in};

use crate::planned::are_bytes;
use client_records::write_renewal;
use client_registry::Docs;
use index_setup::Index;
use std::alloc::AllocError;
use std::marker::Model;

/// A planned renewal of the key: the mark of the new key, the marks of the epochs' keys with it last, the documents that are set up
/// again and their index, a buffer for one of the frames that carry it to the server, and the number of the first. A contract sees
/// the marks, the documents, the parameters and counts, the frames and the number.
#[derive(Drop)]
pub struct PlannedRenewal {
    pub(crate) mark: [u8; 16],
    pub(crate) marks: Vec<[u8; 16]>,
    pub(crate) docs: Docs,
    pub(crate) index: Index,
    pub(crate) room: Vec<u8>,
    pub(crate) number: u32,
}

impl Model for PlannedRenewal {
    ghost use Rattle.client_core.specs.Plans.{RenewalPlan};

    ghost Value = { RenewalPlan };

    ghost use Rattle.client_core.specs.RenewalView.{renewal_plan_of, IsRenewalPlanned};

    ghost view = { renewal_plan_of };

    ghost invariant = { IsRenewalPlanned };
}

impl PlannedRenewal {
    /// The plan that sends this index of these documents, its first frame under this number. Sending takes no memory but this
    /// buffer.
    pub(crate) fn new(
        mark: [u8; 16],
        marks: Vec<[u8; 16]>,
        docs: Docs,
        index: Index,
        room: Vec<u8>,
        number: u32,
    ) -> PlannedRenewal
        requires sendable { IsSendable index docs }
        requires numbers { number + frames_in index < 2 ^ 32 }
        requires fits { vec_len room ≡ 541709 }
        ensures limits { IsIndex index }
        ensures plan { result ≡ renewal_of mark marks.items index docs number }
        ensures grammar { AllByRecursion IsFrame result.frames }
    {
        are_bytes(index.entries(), index.array());
        PlannedRenewal {
            mark,
            marks,
            docs,
            index,
            room,
            number,
        }
    }

    // Promise P68, also here; clauses: ok, err, some, most
    /// Appends the record that the client's journal keeps of the renewal, 17 bytes. Without memory the bytes are as before.
    pub fn payload_into(&self, out: &mut Vec<u8>) -> Result<(), AllocError>
        ensures ok { OnOk result (out.new.items ≡ out.old.items ++ renewal_payload self.now) }
        ensures err { OnErr result (out.new.items ≡ out.old.items) }
        ensures some { 1 ≤ length (renewal_payload self.now) }
        ensures most { length (renewal_payload self.now) ≤ 2 ^ 27 }
    {
        is_mark(&self.mark);
        write_renewal(out, &self.mark)
    }

    /// How many different words the planned setup has, without the dummies.
    pub fn own_words(&self) -> u32
        ensures { result ≡ self.now.own_words }
    {
        self.index.own_words()
    }

    /// How many blocks their lists take, without the dummies.
    pub fn own_blocks(&self) -> u32
        ensures { result ≡ self.now.own_blocks }
    {
        self.index.own_blocks()
    }
}

/// A mark has 16 bytes.
fn is_mark(mark: &[u8; 16])
    ensures { length mark.now ≡ 16 }
{}
