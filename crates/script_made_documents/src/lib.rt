//! Makes a document of a made script as a value (`gen_doc`), while the program reads it as a line. It depends on
//! `script_made_lines` for the words, on `client_registry` for what a word and a document are, and on `script_documents` for
//! the document of a line.
//! Proved: `gen_doc` makes the document of its number, or is out of memory; no word and no document of a made script
//! is refused for what it is (`document_refusal-made`).
//! Side: client.
#![tactic(auto)]

mod document;

pub use document::gen_doc;
