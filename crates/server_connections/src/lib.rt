//! The index server over connections: it answers the frames of one connection until it ends, then serves the next.
//! `Keeps` answers a frame, so that one store or many can be served. It depends on `tcp_service` for the connections, on
//! `sse_server` for a store that lasts, on `sse_owners` for the servers of many owners, on `sse_frames` and on
//! `sse_outside`; it knows no word and no key. An owner's connection begins with the owner's number, in eight bytes.
//! Proved: over any source, sink, keeper and disk, what was read is whole frames, answered in turn, and the bytes
//! left after them; what was written are their replies (`IsConnection`).
//! Side: server.
#![tactic(auto)]

mod connection;
mod front_frame;
mod keeps;
mod outgoing;
mod owner_connection;
mod owner_service;
mod reply_list;
mod service;

pub use connection::serve_connection;
pub use keeps::Keeps;
pub use outgoing::Outgoing;
pub use owner_connection::serve_owner;
pub use owner_service::serve_owners;
pub use service::serve;
