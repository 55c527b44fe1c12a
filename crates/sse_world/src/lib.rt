//! The world of a client and a server with real frames, stores and journals, where frames are lost, repeated and late and
//! either side stops, also inside a call of its disk. Each event is one call, and what it makes of the world is what
//! `world_model` says under the store's rules (`world_rules`). It stands on `world_server` for the server's side.
//! Proved: the events of the server lead from a world to the next by the model (`Leads`), whatever the client does.
//! Not here: the events of the client, whose calls are in `world_client`, and a run over a list of events.
//! Side: client.
#![tactic(auto)]

mod event;
mod link;
mod sent;
mod server_events;

pub use event::Outcome;
pub use link::Link;
pub use sent::Sent;
pub use server_events::{deliver, start_server, stop_server};
