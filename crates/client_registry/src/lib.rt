//! What a client knows of its documents: their words, the documents collected for a setup and, after the setup, a
//! `Registry` of what is live, listed and counted. Words have 1 to 64 bytes of UTF-8, are stored once and numbered by
//! first appearance. They are hashed under keys derived from the master key: whoever writes a mail chooses its words,
//! and could make them collide under fixed keys. It depends on `two_level` for the plan of a list, so that `size_of`
//! gives an index's size without a key. Definitions and laws of histories are here too.
//! Proved: a registry represents its history (`Represents` of specs/Registered.antt); a refusal is exactly what a
//! definition named `refusal`, or a clause of its own, gives, and changes nothing.
//! Not here: making an index, and searching.
//! Side: client.
#![tactic(auto)]

mod collected;
mod doc_id;
mod document;
mod faults;
mod hash_keys;
mod limits;
mod listed;
mod numbered;
mod registry;
mod size;
mod sizes;
mod updates;
mod word;
mod word_mark;
mod word_numbers;
mod word_table;

pub use collected::Docs;
pub use doc_id::{DocId, Zero};
pub use document::Doc;
pub use faults::{AddFault, DocFault, DocsFault, SizeFault, UnknownDocument, WordFault};
pub use hash_keys::HashKeys;
pub use limits::{MAX_DOCUMENTS, MAX_INDEX_BYTES, MAX_PAIRS, MAX_WORD_BYTES, MAX_WORDS};
pub use numbered::Numbered;
pub use registry::Registry;
pub use size::{Size, size_of};
pub use sizes::Sizes;
pub use word::Word;
