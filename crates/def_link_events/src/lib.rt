//! What passes over a link as its client sees it, the frames sent and the replies received, and when it is honest. It
//! depends on `server_core` for the server's step and on `sse_frames` for bytes; it knows no link, no word and no
//! key. Each sent frame has a mark: answered by the step, out of memory, fault of the disk, or unknown. With the
//! marks the server's state follows from the events, so honest transcripts can be cut and joined anywhere, and a
//! second session is honest from where the first left the server. It has two types, definitions and laws, and no
//! calls.
//! Proved: what an honest link passes, and how such transcripts join and split (`IsServed` of specs/Served.antt;
//! laws).
//! Side: server.
#![tactic(auto)]

mod mark;
mod passed;

pub use mark::Mark;
pub use passed::Passed;
