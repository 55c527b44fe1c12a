//! Makes the fields of a line into a word, a document or one more document for the setup, or says why the line is
//! refused. It joins `client_registry`, which knows words and documents, with `sse_script`, which knows fields and
//! refusals: what the registry finds wrong becomes the refusal that is printed.
//! Proved: what is made is that of the fields if nothing refuses it; a refusal is the first cause
//! (specs/Refused.antt); the only other outcome is out of memory.
//! Not here: whether the line may come before or after a setup.
//! Side: client.
#![tactic(auto)]

mod documents;
mod line_fault;

pub use documents::{add_document, document_of, word_of};
pub use line_fault::LineFault;
