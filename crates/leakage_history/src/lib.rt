//! A history as a program has it: `History` is one epoch, the documents and parameters of a setup and the commands after
//! it; `Epochs` are those of several, each of which begins with a renewal of the key. It depends on `client_registry`,
//! whose definitions say what a history is, which commands it accepts and what it makes live, and on `client_live_docs`
//! for what a renewal sets up again. The setup isn't a command: command k is `commands()[k - 1]`. The setup's documents
//! are copied at the first command, since a registry no longer shows them after an addition. It is apart from
//! `client_registry`, since a change there has every crate above proved again.
//! Proved: callers see a `History` as a run and the numbers under which its tables hash, and `Epochs` as the epochs of the
//! definitions; a command is accepted exactly if the definitions accept it, else the first cause against it is named
//! (`push_refusal` of specs/Refusal.antt, `renewal_refusal` of specs/Renewals.antt), or it is out of memory.
//! Not here: what a history sends or shows; keys of renewals are kept as they were given, and never used.
//! Side: client.
#![tactic(auto)]

mod command;
mod epochs;
mod fault;
mod history;
mod registration;
mod renewal_fault;
mod renewed;
mod run_words;

pub use command::Command;
pub use epochs::Epochs;
pub use fault::HistoryFault;
pub use history::History;
pub use registration::register;
pub use renewal_fault::RenewalFault;
pub use run_words::RunWords;
