//! Queries over the words of documents: their grammar, and the set algebra that answers them. `Query::read` reads the
//! fields of a line, `Query::words` are the words to be searched, and `Query::answer` chooses among the identifiers that
//! their searches found. It depends on `sse_script` for fields, on `client_registry` for words and the order of
//! identifiers, and on `script_documents` for the fault of a line.
//! Proved: a query is the one expression of the grammar in specs/Grammar.antt that its fields are; each refusal is the
//! first cause of specs/Refused.antt; an answer is the set algebra of specs/Chosen.antt.
//! Not here: the searches, and what is printed.
//! Side: client.
#![tactic(auto)]

mod answering;
mod fault;
mod fields;
mod front;
mod join;
mod joining;
mod line_fault;
mod node;
mod query;
mod reading;
mod sign;

pub use fault::QueryFault;
pub use query::{MAX_FIELDS, Query};
