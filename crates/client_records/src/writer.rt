ghost use Rattle.std.specs.Prelude.{◌≡◌, ◌+◌, ◌*◌, ◌≤◌, ◌^◌, ◌∷◌, ◌++◌, length, vec_capacity, vec_len, OnErr, OnOk};
ghost use Rattle.std.specs.Int.{w16, to_be_bytes};
ghost use Rattle.client_registry.specs.Command.{Add, Delete};
ghost use Rattle.client_registry.specs.IdNumber.{id_number};
ghost use Rattle.client_registry.specs.Setup.{setup_with};
ghost use Rattle.client_records.specs.Records.{setup_record, update_record, renewal_record};

use crate::kinds::{ADD, DELETE, MARK_LEN, RENEWAL, SETUP};
use crate::lengths::{documents_len, words_len};
use crate::record_bytes::{put, put_documents, put_head, put_words};
use client_registry::{Doc, DocId, Docs};
use std::alloc::AllocError;

// Promise P118 (caller): A client's record has exactly its defined bytes, and bytes are read as the one record they are, or as none.
//   clauses: ok, err, most; not: That a record may follow those before it, or that its mark is a key's (P119). Out of memory may come in place of reading a
//     setup or an addition, but only once a document has begun.
/// Appends the record of a setup of these documents under the key of this mark, with `b` numbers in a cell and `big` in
/// a block, filled up to multiples of `pad`. Without memory the bytes are as before.
///
/// A record has less than 2^27 bytes: 27, 10 for each of 2^18 documents and 65 for each of 2^20 words at most.
pub fn write_setup(
    out: &mut Vec<u8>,
    mark: &[u8; MARK_LEN],
    docs: &Docs,
    b: u16,
    big: u16,
    pad: u16,
) -> Result<(), AllocError>
    ensures ok { OnOk result (out.new.items ≡ out.old.items ++ setup_record mark.now (setup_with docs.now.documents b big pad)) }
    ensures err { OnErr result (out.new.items ≡ out.old.items) }
    ensures most { length (setup_record mark.now (setup_with docs.now.documents b big pad)) ≤ 27 + 10 * 2 ^ 18 + 65 * 2 ^ 20 }
{
    out.reserve_exact(23 + documents_len(docs))?;
    put_shape(out, mark, b, big, pad);
    put_documents(out, docs);
    Ok(())
}

/// Appends what stands before the documents of a setup, where there is room.
fn put_shape(out: &mut Vec<u8>, mark: &[u8; MARK_LEN], b: u16, big: u16, pad: u16)
    requires { vec_len out.old + 23 ≤ vec_capacity out.old }
    ensures items { out.new.items ≡ out.old.items ++ (0x14 ∷ mark.now ++ to_be_bytes w16 b ++ to_be_bytes w16 big ++ to_be_bytes w16 pad) }
    ensures len { vec_len out.new ≡ vec_len out.old + 23 }
    ensures room { vec_capacity out.old ≤ vec_capacity out.new }
{
    put(out, &[SETUP]);
    put(out, mark);
    put(out, &b.to_be_bytes());
    put(out, &big.to_be_bytes());
    put(out, &pad.to_be_bytes());
}

// Promise P118, also here; clauses: ok, err, most
/// Appends the record of an addition of this document. Without memory the bytes are as before.
///
/// A record has at most 266,251 bytes: 11, and 65 for each of 4,096 words.
pub fn write_add(out: &mut Vec<u8>, doc: &Doc) -> Result<(), AllocError>
    ensures ok { OnOk result (out.new.items ≡ out.old.items ++ update_record (Add doc.now)) }
    ensures err { OnErr result (out.new.items ≡ out.old.items) }
    ensures most { length (update_record (Add doc.now)) ≤ 11 + 65 * 4096 }
{
    let words = doc.words();
    out.reserve_exact(11 + words_len(words))?;
    put(out, &[ADD]);
    put_head(out, doc.id(), words.len() as u16);
    put_words(out, words);
    Ok(())
}

// Promise P118, also here; clauses: ok, err
/// Appends the record of the deletion of this identifier, 9 bytes. Without memory the bytes are as before.
pub fn write_delete(out: &mut Vec<u8>, id: DocId) -> Result<(), AllocError>
    ensures ok { OnOk result (out.new.items ≡ out.old.items ++ update_record (Delete (id_number id))) }
    ensures err { OnErr result (out.new.items ≡ out.old.items) }
{
    out.reserve_exact(9)?;
    put(out, &[DELETE]);
    put(out, &id.get().to_be_bytes());
    Ok(())
}

// Promise P118, also here; clauses: ok, err
/// Appends the record of a renewal under the key of this mark, 17 bytes. Without memory the bytes are as before.
pub fn write_renewal(out: &mut Vec<u8>, mark: &[u8; MARK_LEN]) -> Result<(), AllocError>
    ensures ok { OnOk result (out.new.items ≡ out.old.items ++ renewal_record mark.now) }
    ensures err { OnErr result (out.new.items ≡ out.old.items) }
{
    out.reserve_exact(17)?;
    put(out, &[RENEWAL]);
    put(out, mark);
    Ok(())
}
