ghost use Rattle.std.specs.Prelude.{◌≡◌, ◌≢◌, ◌≤◌, ◌^◌, None, [], ◌∷◌, ◌++◌, length, map, Err, IfOk, IfErr, OnOk, OnErr, IsErrOf};
ghost use Rattle.client_registry.specs.WordBytes.{word_bytes};
ghost use Rattle.script_documents.specs.Refused.{bad_word, collect_refusal, document_refusal};
ghost use Rattle.script_documents.specs.LineFaults.{SaysRefusal};
ghost use Rattle.script_documents.specs.LineDocument.{document};

use crate::line_fault::LineFault;
use client_registry::{Doc, DocId, Docs, Word};
use sse_script::Fields;
use std::alloc::Global;

// Promise P139, also here; clauses: document, good, refused, memory
/// The document of a `doc` or an `add` line: this identifier, and the fields as its words, at most 4,096 different ones.
/// A line has at most 2^19 bytes, and so no more fields.
///
/// Errors, `Refused` with the first cause that stands: `Zero` where the identifier is 0; of the first field that is no word
/// `TooLong` or `BadByte` at its position, from 0; `TooManyWords`; `RepeatedWord` at the least position whose word stands
/// earlier. `NoMemory` where there is no memory, which may come in place of all but `Zero`.
pub fn document_of(alloc: Global, id: u64, fields: Fields<'_>) -> Result<Doc, LineFault>
    requires { length fields ≤ 2 ^ 19 }
    ensures document { IfOk result (λ doc. doc ≡ document id fields.entry) }
    ensures good { OnOk result (document_refusal id fields.entry ≡ None) }
    ensures refused { IfErr result (λ fault. SaysRefusal fault (document_refusal id fields.entry)) }
    ensures memory { IsErrOf result LineFault.NoMemory → id ≢ 0 }
{
    let id = DocId::new(id)?;
    let words = words_of(alloc, fields)?;
    Ok(Doc::new(alloc, id, words)?)
}

// Promise P59, also here; clauses: keys
// Promise P139 (caller): A `doc` line's document is collected if and only if nothing refuses it; otherwise the first cause is given and nothing changes.
//   clauses: added, accepted, refused, kept; assumes: sizes in bounds; not: Out of memory may come in place of collecting.
/// Adds the document of a `doc` line to those of the setup, after the others.
///
/// Errors, the first that stands: those of [`document_of`]; then, `Refused`, `AlreadyLive` where a document has this
/// identifier, and `TooManyDocuments` and `TooManyPairs` where there would be more than 2^18 documents, or 2^20 pairs of a
/// word and a document. `NoMemory` may come in place of all but `Zero`. After a fault the documents are as before. The keys
/// under which they are hashed stay.
pub fn add_document(
    alloc: Global,
    docs: &mut Docs,
    id: u64,
    fields: Fields<'_>,
) -> Result<(), LineFault>
    requires { length fields ≤ 2 ^ 19 }
    ensures added { OnOk result (docs.new.documents ≡ docs.old.documents ++ document id fields.entry ∷ []) }
    ensures accepted { OnOk result (collect_refusal docs.old.documents (document id fields.entry) ≡ None) }
    ensures refused { IfErr result (λ fault. SaysRefusal fault (collect_refusal docs.old.documents (document id fields.entry))) }
    ensures kept { OnErr result (docs.new ≡ docs.old) }
    ensures keys { docs.new.keys ≡ docs.old.keys }
    ensures memory { IsErrOf result LineFault.NoMemory → id ≢ 0 }
{
    docs.push(document_of(alloc, id, fields)?)?;
    Ok(())
}

// Promise P139, also here; clauses: words, good, refused
/// The words of the fields, in their order; the first bad one is the fault.
fn words_of(alloc: Global, mut fields: Fields<'_>) -> Result<Vec<Word>, LineFault>
    requires { length fields ≤ 2 ^ 19 }
    ensures words { IfOk result (λ words. map word_bytes words.items ≡ fields.entry) }
    ensures good { OnOk result (bad_word 0 fields.entry ≡ None) }
    ensures refused { IfErr result (λ fault. SaysRefusal fault (bad_word 0 fields.entry)) }
{
    let mut words = Vec::new(alloc);
    let mut position = 0u32;
    while let Some(field) = fields.next() {
        match word_of(field, position) {
            Ok(word) => words.push(word)?,
            Err(fault) => return Err(fault),
        }
        // A line has fewer fields than bytes, which are at most 2^19.
        position = position.saturating_add(1);
    }
    Ok(words)
}

// Promise P139, also here; clauses: word, good, refused, never_memory
/// The word of the field at this position of its line, from 0: at most 64 bytes of UTF-8, none of them 00 to 20 or 7f.
///
/// Errors, `Refused` with the first cause that stands: `TooLong` with the number of bytes; `BadByte` at the place, from 0,
/// of the first byte that no word has there, 0 where there is no byte. It takes no memory, so `NoMemory` never comes.
pub fn word_of(field: &[u8], position: u32) -> Result<Word, LineFault>
    ensures word { IfOk result (λ word. word_bytes word ≡ field.now) }
    ensures good { OnOk result (bad_word position (field.now ∷ []) ≡ None) }
    ensures refused { IfErr result (λ fault. SaysRefusal fault (bad_word position (field.now ∷ []))) }
    ensures never_memory { result ≢ Err LineFault.NoMemory }
{
    match Word::read(field) {
        Ok(word) => Ok(word),
        Err(fault) => Err(LineFault::of_word(fault, position)),
    }
}
