//! The records of a client's journal, to and from bytes: the setup with the check value of its key, then each
//! addition and deletion, and each renewal with the check value of the new key. It depends only on the words and documents of `client_registry`; a record is read without a
//! key and without the records before it. In a record b, B and Q are numbers of 16 bits, so that one test finds a
//! setup outside its limits.
//! Proved: a writer appends exactly the bytes of specs/Records.antt. `read_record` accepts exactly bytes that are one
//! record to their last byte, within the limits of words and documents. A record has one spelling, except for a setup
//! that an older client wrote without Q.
//! Not here: whether a record may follow those before it (`client_rebuild`), whose key it has, and where it is kept.
//! Side: client.
#![tactic(auto)]

mod client_record;
mod documents;
mod fault;
mod kinds;
mod lengths;
mod reader;
mod record_bytes;
mod unread;
mod writer;

pub use client_record::Record;
pub use fault::ReadFault;
pub use reader::read_record;
pub use writer::{write_add, write_delete, write_renewal, write_setup};
