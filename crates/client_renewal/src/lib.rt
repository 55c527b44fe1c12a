//! Which documents a renewal of the master key sets up again, or why it isn't planned: a key that an epoch had already, too
//! many live documents or pairs, a list or an index that is too large, or too few numbers for its frames. It depends on
//! `client_live_docs` for what is live, and on `client_registry` for sizes.
//! Proved: `renewed_docs` gives exactly the live documents, or the first cause of specs/Refusals.antt, or it is out of memory.
//! Not here: the index of these documents, its clashes and its frames (`client_core`).
//! Side: client.
#![tactic(auto)]

mod key_used;
mod live_again;
mod past;
mod renewal_fault;
mod sizes;

pub use live_again::renewed_docs;
pub use past::Past;
pub use renewal_fault::RenewalFault;
