ghost use Rattle.std.specs.Prelude.{◌≡◌, ◌≢◌, ◌∷◌, ℕ, IfOk, IsOkAnd};
ghost use Rattle.client_registry.specs.HashNumbers.{hash_numbers};
ghost use Rattle.client_records.specs.Records.{RecordText, IsRecordOf, IsNoRecord};
ghost use Rattle.client_records.specs.RecordView.{record_text, HasKeys, ReadsRecord};
ghost use Rattle.client_records.specs.TakenMemory.{TakesMemory};

use crate::client_record::Record;
use crate::documents::{read_whole_document, read_whole_documents};
use crate::fault::ReadFault;
use crate::kinds::{ADD, DELETE, MARK_LEN, OLD_SETUP, RENEWAL, SETUP};
use crate::unread::Unread;
use client_registry::{DocId, HashKeys};
use std::alloc::Global;

/// The setup of a record, of the bytes after its first.
fn read_setup(alloc: Global, keys: HashKeys, mut unread: Unread<'_>) -> Result<Record, ReadFault>
    ensures { ReadsRecord (hash_numbers keys) (0x14 ∷ unread.entry) result }
{
    let mark = unread.read_array::<MARK_LEN>()?;
    let b = unread.read_u16()?;
    let big = unread.read_u16()?;
    let pad = unread.read_u16()?;
    let docs = read_whole_documents(alloc, keys, unread)?;
    Ok(Record::Setup {
        mark,
        docs,
        b,
        big,
        pad,
    })
}

/// The setup of an older record, of the bytes after its first: it has a Q of 1.
fn read_old_setup(
    alloc: Global,
    keys: HashKeys,
    mut unread: Unread<'_>,
) -> Result<Record, ReadFault>
    ensures { ReadsRecord (hash_numbers keys) (0x11 ∷ unread.entry) result }
{
    let mark = unread.read_array::<MARK_LEN>()?;
    let b = unread.read_u16()?;
    let big = unread.read_u16()?;
    let docs = read_whole_documents(alloc, keys, unread)?;
    Ok(Record::Setup {
        mark,
        docs,
        b,
        big,
        pad: 1,
    })
}

/// The addition of a record, of the bytes after its first.
fn read_addition(alloc: Global, unread: Unread<'_>) -> Result<Record, ReadFault>
    ensures { (keys : ℕ × ℕ) → ReadsRecord keys (0x12 ∷ unread.entry) result }
{
    let doc = read_whole_document(alloc, unread)?;
    Ok(Record::Add(doc))
}

/// The deletion of a record, of the bytes after its first.
fn read_deletion(mut unread: Unread<'_>) -> Result<Record, ReadFault>
    ensures { (keys : ℕ × ℕ) → ReadsRecord keys (0x13 ∷ unread.entry) result }
{
    let number = unread.read_u64()?;
    let id = DocId::new(number)?;
    unread.read_end()?;
    Ok(Record::Delete(id))
}

/// The renewal of a record, of the bytes after its first.
fn read_renewal(mut unread: Unread<'_>) -> Result<Record, ReadFault>
    ensures { (keys : ℕ × ℕ) → ReadsRecord keys (0x15 ∷ unread.entry) result }
{
    let mark = unread.read_array::<MARK_LEN>()?;
    unread.read_end()?;
    Ok(Record::Renewal(mark))
}

/// The record that all of the bytes are, by their first.
fn record_of(alloc: Global, keys: HashKeys, payload: &[u8]) -> Result<Record, ReadFault>
    ensures { ReadsRecord (hash_numbers keys) payload.now result }
{
    let mut unread = Unread::new(payload);
    let kind = unread.read_u8()?;
    match kind {
        SETUP => read_setup(alloc, keys, unread),
        OLD_SETUP => read_old_setup(alloc, keys, unread),
        ADD => read_addition(alloc, unread),
        DELETE => read_deletion(unread),
        RENEWAL => read_renewal(unread),
        _ => Err(ReadFault::BadRecord),
    }
}

// Promise P118, also here; clauses: found, only, none, keys, memory
/// The record that all of the bytes are. The documents of a setup are to be hashed under these keys.
///
/// Words, documents and the documents of a setup keep their limits in it; b, B and Q may be any numbers. Errors:
/// `BadRecord` where the bytes are no record; `NoMemory` where there is no memory for its words and documents. Out of memory may
/// come in place of both, but only once a document has begun: whatever is wrong before its words is reported as `BadRecord`.
pub fn read_record(alloc: Global, keys: HashKeys, payload: &[u8]) -> Result<Record, ReadFault>
    // What is read is what the bytes say, and nothing else is what they say.
    ensures found { IfOk result (λ r. IsRecordOf payload.now (record_text r)) }
    ensures only { (text : RecordText) → IsRecordOf payload.now text → result ≢ Err ReadFault.NoMemory → IsOkAnd result (λ r. record_text r ≡ text) }
    ensures none { result ≡ Err ReadFault.BadRecord → IsNoRecord payload.now }

    // A setup's documents are hashed under the keys.
    ensures keys { IfOk result (λ r. HasKeys (hash_numbers keys) r) }

    // Out of memory only where a document begins.
    ensures memory { result ≡ Err ReadFault.NoMemory → TakesMemory payload.now }
{
    record_of(alloc, keys, payload)
}
