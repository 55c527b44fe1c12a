ghost use Rattle.std.specs.Prelude.{◌≡◌, ℕ, List, Some, Err};
ghost use Rattle.client_records.specs.Records.{RecordText};
ghost use Rattle.client_records.specs.RecordView.{HasKeys, record_text};
ghost use Rattle.client_registry.specs.Epochs.{Does};
ghost use Rattle.client_registry.specs.HashNumbers.{hash_numbers};
ghost use Rattle.client_rebuild.specs.Recalls.{records_of_last};
ghost use Rattle.client_rebuild.specs.Rebuilds.{TakesFirst, TakesLater, said};
ghost use Rattle.client_rebuild.specs.Updates.{command_of};

use crate::accepted_setup::accepted_setup;
use crate::fault::RebuildFault;
use crate::followed_record::follow;
use crate::last::Last;
use crate::taken_renewal::take_renewal;
use crate::update::Update;
use client_records::Record;
use client_registry::HashKeys;
use std::alloc::Global;

/// What the first record makes, with the mark of its key.
pub(crate) fn take_first(next: Record) -> Result<([u8; 16], Last), RebuildFault>
    ensures { (keys : ℕ × ℕ) → HasKeys keys next → TakesFirst keys (record_text next) result }
{
    match next {
        Record::Setup {
            mark,
            docs,
            b,
            big,
            pad,
        } => {
            let setup = accepted_setup(docs, b, big, pad, 0, 0)?;
            Ok((mark, Last::Setup(setup)))
        }
        Record::Add(_) | Record::Delete(_) | Record::Renewal(_) => Err(RebuildFault::BadRecord(0)),
    }
}

/// What a record after others makes. After an error the last one stands for the same history. The documents of a new epoch are
/// hashed under these keys.
pub(crate) fn take_later(
    alloc: Global,
    keys: HashKeys,
    marks: &mut Vec<[u8; 16]>,
    last: Last,
    next: Record,
) -> (Last, Result<(), RebuildFault>)
    ensures { TakesLater (hash_numbers keys) marks.old.items last (record_text next) marks.new.items result.0 result.1 }
{
    match next {
        Record::Setup { .. } => refuse(last),
        Record::Add(doc) => take_update(last, Update::Add(doc)),
        Record::Delete(id) => take_update(last, Update::Delete(id)),
        Record::Renewal(own) => take_renewal(alloc, keys, marks, last, own),
    }
}

/// The record after the last one is refused.
fn refuse(last: Last) -> (Last, Result<(), RebuildFault>)
    ensures last { result.0 ≡ last }
    ensures refused { result.1 ≡ Err (RebuildFault.BadRecord (records_of_last last)) }
{
    let records = last.records();
    (last, Err(RebuildFault::BadRecord(u64::from(records))))
}

/// What the record of this update makes, after others.
fn take_update(last: Last, update: Update) -> (Last, Result<(), RebuildFault>)
    ensures { (keys : ℕ × ℕ) (marks : List (List ℕ)) (text : RecordText) → said text ≡ Some (Does (command_of update)) → TakesLater keys marks last text marks result.0 result.1 }
{
    if !last.accepts(&update) {
        return refuse(last);
    }
    match follow(last, update) {
        Ok(last) => (last, Ok(())),
        Err(last) => (last, Err(RebuildFault::NoMemory)),
    }
}
