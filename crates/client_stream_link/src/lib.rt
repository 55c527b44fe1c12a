//! A link to a server over a stream such as a socket: frames go into a sink, and replies are cut out of a source by
//! their lengths. It is for a client whose server is another process, and depends on `sse_link` for the trait, on
//! `sized_replies` for where a reply ends and on `sse_frames` for what it says; it knows no word and no key. A frame sent
//! while a reply is due is cut: the old reply is still in the stream and would be taken for the new one. Over a socket a
//! read or a write waits 60 seconds, so that a silent server can't hold a client for ever.
//! Proved: a receive takes exactly one reply out of the source; a call is cut only if source or sink failed or ended,
//! or the link had lost its place among the replies; after that it carries nothing.
//! Not covered: what a real connection passes.
//! Side: server.
#![tactic(auto)]

mod stream;
mod tcp;

pub use stream::StreamLink;
pub use tcp::{TcpLink, tcp_link};
