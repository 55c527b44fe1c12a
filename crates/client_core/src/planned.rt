ghost use Rattle.std.specs.Prelude.{◌≡◌, ◌≤◌, ◌^◌, ◌∷◌, ◌++◌, [], IfOk, None, length, vec_len};
ghost use Rattle.client_registry.specs.Acceptance.{parameter_refusal};
ghost use Rattle.client_registry.specs.Setup.{setup_with};
ghost use Rattle.sse_frames.proofs.Cut.{AreBytes};

use client_records::write_setup;
use client_registry::Docs;
use client_renewal::Past;
use index_setup::Index;
use sse_frames::FRAME_ROOM;
use std::alloc::{AllocError, Global};
use std::marker::Model;

/// A planned setup: the mark of its key, alone and as the marks of the epochs' keys, its documents and their index, and a buffer for
/// one of the frames that carry it to the server. A contract sees the mark, the documents, the parameters and counts, and the
/// frames.
#[derive(Drop)]
pub struct Planned {
    pub(crate) mark: [u8; 16],
    pub(crate) marks: Vec<[u8; 16]>,
    pub(crate) docs: Docs,
    pub(crate) index: Index,
    pub(crate) room: Vec<u8>,
}

impl Model for Planned {
    ghost use Rattle.client_core.specs.Plans.{SetupPlan};

    ghost Value = { SetupPlan };

    ghost use Rattle.client_core.specs.PlanView.{setup_plan_of, IsPlanned};

    ghost view = { setup_plan_of };

    ghost invariant = { IsPlanned };
}

impl Planned {
    ghost use Rattle.std.specs.Prelude.{OnErr, OnOk};
    ghost use Rattle.std.specs.List.{AllByRecursion};
    ghost use Rattle.index_setup.specs.Built.{IsIndex};
    ghost use Rattle.sse_frames.specs.Frames.{IsFrame};
    ghost use Rattle.client_core.specs.Payloads.{setup_payload};
    ghost use Rattle.client_core.specs.PlanView.{plan_of, IsSendable};

    /// The plan that sends this index of these documents, made under the key of this mark, the only one. Sending takes no memory
    /// but this buffer.
    pub(crate) fn new(
        mark: [u8; 16],
        marks: Vec<[u8; 16]>,
        docs: Docs,
        index: Index,
        room: Vec<u8>,
    ) -> Planned
        requires sendable { IsSendable index docs }
        requires alone { marks.items ≡ mark ∷ [] }
        requires fits { vec_len room ≡ 541709 }
        ensures limits { IsIndex index }
        ensures plan { result ≡ plan_of mark index docs }
        ensures grammar { AllByRecursion IsFrame result.frames }
    {
        are_bytes(index.entries(), index.array());
        Planned {
            mark,
            marks,
            docs,
            index,
            room,
        }
    }

    /// How many different words the planned setup has, without the dummies.
    pub fn own_words(&self) -> u32
        ensures { result ≡ self.now.own_words }
    {
        self.index.own_words()
    }

    /// How many blocks their lists take, without the dummies.
    pub fn own_blocks(&self) -> u32
        ensures { result ≡ self.now.own_blocks }
    {
        self.index.own_blocks()
    }

    // Promise P68, also here; clauses: ok, err, some, most
    /// Appends the record that the client's journal keeps of the setup, 1 to 2^27 bytes. Without memory the bytes are as
    /// before.
    pub fn payload_into(&self, out: &mut Vec<u8>) -> Result<(), AllocError>
        ensures ok { OnOk result (out.new.items ≡ out.old.items ++ setup_payload self.now) }
        ensures err { OnErr result (out.new.items ≡ out.old.items) }
        ensures some { 1 ≤ length (setup_payload self.now) }
        ensures most { length (setup_payload self.now) ≤ 2 ^ 27 }
    {
        let index = &self.index;
        write_setup(
            out,
            &self.mark,
            &self.docs,
            index.b(),
            index.big(),
            index.pad(),
        )
    }
}

/// The marks of the epochs' keys where there is one epoch.
pub(crate) fn first_marks(alloc: Global, mark: [u8; 16]) -> Result<Vec<[u8; 16]>, AllocError>
    ensures { IfOk result (λ marks. marks.items ≡ mark ∷ []) }
{
    let mut marks = Vec::with_capacity(alloc, 1)?;
    marks.push(mark)?;
    Ok(marks)
}

/// What a renewal takes over from an epoch with this index, where the epochs' keys have these marks.
pub(crate) fn past_of(marks: Vec<[u8; 16]>, index: &Index) -> Past
    requires { parameter_refusal (setup_with [] index.now.b index.now.big index.now.pad) ≡ None }
    ensures marks { result.marks ≡ marks }
    ensures b { result.b ≡ index.now.b }
    ensures big { result.big ≡ index.now.big }
    ensures pad { result.pad ≡ index.now.pad }
{
    Past {
        marks,
        b: index.b(),
        big: index.big(),
        pad: index.pad(),
    }
}

/// A buffer for the longest frame.
pub(crate) fn frame_buffer(alloc: Global) -> Result<Vec<u8>, AllocError>
    ensures { IfOk result (λ room. vec_len room ≡ 541709) }
{
    vec![in alloc; 0u8; FRAME_ROOM]
}

/// What the slices of an index hold is below 256, as in any slice of bytes.
pub(crate) fn are_bytes(entries: &[u8], array: &[u8])
    ensures entries { AreBytes entries.now }
    ensures array { AreBytes array.now }
{}
