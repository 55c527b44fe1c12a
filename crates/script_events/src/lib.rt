//! The lines of a world as events: `read_event` reads a line and makes its documents and words, or collects a document for the next
//! setup. It joins `script_world`, which knows the lines, with `script_documents`, which makes documents and words of fields.
//! Proved: what is read is the event of the line, and a document is collected after the others; a line is bad if it isn't in
//! the grammar, or if its identifier, its document or its word can't be.
//! Not here: what an event does, and whether a line may stand where it does.
//! Side: client.
#![tactic(auto)]

mod event;
mod events;

pub use event::WorldEvent;
pub use events::read_event;
