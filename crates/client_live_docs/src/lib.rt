//! The documents that are live in a registry, as the `Docs` of a new setup: by rising identifier, their words in the order in
//! which they were given, hashed under new keys. One update that the registry hasn't carried out can count as carried
//! out, so that a refusal leaves the registry as it was. Copies of documents too. It depends on `client_registry` for registries and documents.
//! Proved: `live_docs` gives exactly the live documents (`AreLive` of specs/AreLive.antt), or refuses them with their whole
//! count if they are too many for a setup; those of a history are the setup of its renewal (`renewed-are_live`).
//! Not here: the size of an index of them, and keys.
//! Side: client.
#![tactic(auto)]

mod collected;
mod copies;
mod counted;
mod kept;
mod live;
mod pending_update;

pub use copies::{copy_doc, copy_docs};
pub use live::{docs_by_id, live_docs};
pub use pending_update::PendingUpdate;
