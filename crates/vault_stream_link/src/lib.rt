//! A link to a vault over a stream such as a socket: a frame goes into a sink, and the reply is cut out of a source by its
//! length. It is for a client whose server is another process, and depends on `vault_link` for the trait and on
//! `sized_replies` for where a reply ends; it knows no text and no key. Over a socket a read or a write waits 60 seconds, so
//! that a silent server can't hold a client for ever.
//! Proved: a call writes exactly the frame and takes exactly one reply out of the source; it is cut only if source or sink
//! failed or ended, or the link had lost its place among the replies; after that it carries nothing.
//! Not covered: what a real connection passes.
//! Side: server.
#![tactic(auto)]

mod stream;
mod tcp;

pub use stream::VaultStream;
pub use tcp::{TcpVault, tcp_vault};
