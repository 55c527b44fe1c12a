ghost use Rattle.std.specs.Prelude.{◌≡◌, ◌≤◌, ◌^◌, ◌++◌, length, OnErr, OnOk};
ghost use Rattle.client_core.specs.Payloads.{update_payload};

use crate::update::Update;
use client_records::{write_add, write_delete};
use std::alloc::AllocError;
use std::marker::Model;

/// A planned addition or deletion: the update, the numbers of an added document's words in the client's registry, the one
/// frame that carries the update to the server, and the number that is in it.
#[derive(Drop)]
pub struct PlannedUpdate {
    pub(crate) update: Update,
    pub(crate) words: Vec<u32>,
    pub(crate) frame: Vec<u8>,
    pub(crate) number: u32,
}

impl Model for PlannedUpdate {
    ghost use Rattle.client_core.specs.Plans.{UpdatePlan};

    ghost Value = { UpdatePlan };

    ghost view = { λ p. record { update = p.update; words = p.words.items; frame = p.frame.items; number = p.number } };
}

impl PlannedUpdate {
    // Promise P68, also here; clauses: ok, err, some, most
    /// Appends the record that the client's journal keeps of the update, 1 to 2^27 bytes. Without memory the bytes are as
    /// before.
    pub fn payload_into(&self, out: &mut Vec<u8>) -> Result<(), AllocError>
        ensures ok { OnOk result (out.new.items ≡ out.old.items ++ update_payload self.now) }
        ensures err { OnErr result (out.new.items ≡ out.old.items) }
        ensures some { 1 ≤ length (update_payload self.now) }
        ensures most { length (update_payload self.now) ≤ 2 ^ 27 }
    {
        match &self.update {
            Update::Add(doc) => write_add(out, doc),
            Update::Delete(id) => write_delete(out, *id),
        }
    }
}
